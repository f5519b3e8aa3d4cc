//! A station that holds pages of its two sides in memory, and hands them out there.
//! `PagedStation` says what such a station promises: what it hands out is the page as its area has it, and a page that is held costs no read.
//! `Framed` makes one of any station, by a pool of frames that follow what is written to it. To all else it is that station.
//! It gives up a page only where every frame holds one, where a write of its side failed, or where one wasn't of whole pages.
//! It takes memory at `new` and `reserve` alone.
#![tactic(auto)]

mod framed;
mod keep;
mod lent;
mod paged_station;

pub use framed::Framed;
pub use lent::Lent;
pub use paged_station::PagedStation;
