//! A finite map from keys of 32 bytes to numbers, as a tree of leaves and inner pages over any `Pages`.
//! `get` is the look-up, `put` and `remove` are those of the list of pairs. Order, bounds, fill and depth of the pages hold at every return.
//! All other pages stay. The pages of the tree and the free ones together are those of before and those newly taken, at most seven by a `put`.
//! Each call is safe on any bytes, and returns. It fails, and wants memory, only where the pages do; damage names the page that isn't in form.
//! After an error of a call that writes, the tree is as it was, and the pages are to be dropped.
#![tactic(auto)]

mod add;
mod even;
mod get;
mod grown;
mod mend;
mod place;
mod put;
mod remove;
mod root;
mod shrunk;
mod tree;
mod way;

pub use tree::Tree;
pub use way::Way;
