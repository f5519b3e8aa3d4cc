//! Lines of the table of alternate names, 4 to 10 columns of which the first two are ids, and lines that take out a place
//! or an alternate name.
//! `check_alt` and `check_delete` answer the id in the first column exactly where `reason_against` has no reason, and else
//! the first reason. `Alt` gives id, place, language and text of a line that `check_alt` accepts. Nothing here takes
//! memory.
#![tactic(auto)]

mod alt;
mod check;
mod columns;
mod delete;

pub use alt::Alt;
pub use check::check_alt;
pub use delete::check_delete;
