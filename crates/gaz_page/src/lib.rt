//! Pages of `PAGE` bytes by their numbers: the trait by which trees and records read and change them, and the root page that names them.
//! The areas Root, Left and Right are read and written by pages, page n from byte n * `PAGE` on. Root holds one page, the root page, which
//! names the side that holds the pages of the gazetteer, of a tree and of records. A root page of another version than 1 is none.
//! Reading a root page is the definition for every list of bytes, and writing takes no memory. What was written is read, and what is read was
//! so written. `Pages` is a map of pages with a chain of free ones and counts; `MemPages` is one in memory, of which each call can fail.
#![tactic(auto)]

mod fields;
mod free;
mod laws;
mod mem_pages;
mod page;
mod pages;
mod root;
mod tree_root;

pub use fields::{number_at, short_at};
pub use free::{read_free, write_free};
pub use laws::tree_roots;
pub use mem_pages::MemPages;
pub use page::{PAGE, Side};
pub use pages::{PageFault, Pages};
pub use root::LineCounts;
pub use tree_root::{Root, read_root, write_root};
