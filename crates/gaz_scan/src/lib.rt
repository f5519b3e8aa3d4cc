//! A scan over the pairs of a tree whose keys lie in a closed range, over any `Pages`.
//! `next` gives the pairs one after another in rising order, each once, and then None; what is still to come is told by `Comes`, which lasts while
//! the tree stands as it is. A leaf is copied when the scan comes to it, so a key costs no descent: at most 2 * height pages are read a call, none is
//! changed, and no memory is taken. A call of the pages that fails leaves the scan as it was, to be asked again. Damage is answered never over
//! pages that stand for a tree, and else names a page to which they lead and which isn't in form at its level. Each call ends and is safe on any bytes.
#![tactic(auto)]

mod after;
mod copied;
mod scan;
mod seek;
mod turn;

pub use scan::Scan;
