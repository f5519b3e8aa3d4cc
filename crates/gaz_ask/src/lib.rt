//! Questions to a mirror on a device.
//! Each call reads the pages that the mirror's root names: the line of a row or of an admin code, the chain of a place, its children,
//! the answer to a search. Where the areas as they read mirror a gazetteer the answer is that of the gazetteer, and never damage.
//! Nothing is written, no memory is taken but for the test of names in a search, and the mirror has its root still. Each call ends and
//! is safe on any bytes.
#![tactic(auto)]

mod above;
mod below;
mod fault;
mod lines;
mod sought;

pub use above::chain;
pub use below::children;
pub use lines::{get_code, get_row};
pub use sought::search;
