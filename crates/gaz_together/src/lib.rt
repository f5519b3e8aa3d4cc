//! A tree and records over the same pages, with one chain of free pages.
//! What a call on records promises leaves the tree as it stands, and what a call on the tree promises leaves each record where it is: this follows
//! from the clauses of gaz_tree and gaz_heap alone, since each page has one kind. A store over both cites it.
#![tactic(auto)]

mod laws;

pub use laws::side_by_side;
