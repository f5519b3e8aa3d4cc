//! Records in pages, by their places: a map from places to bytes, over any `Pages`.
//! A record of at most 4,076 bytes stands in a slot of a record page. A longer one, of at most 65,535 bytes, stands in a chain of at most 17 overflow
//! pages. A place is the number of a page times 65,536 and a slot; slot 65,535 stands for a chain.
//! `put` adds a place, `replace` puts another record there where its page has room, `drop_record` takes it out, and all others stay. Over the same pages
//! a tree may stand: no page changes but those of the place, a place is put only where no other has its pages, and a page is taken only for want of room.
#![tactic(auto)]

mod heap;
mod long;
mod store;

pub use heap::get;
pub use long::{drop_record, put, replace};
