//! The made table: as many geoname rows as are asked for, without a download, and the files of a load and of a day over it.
//! Its rows follow from a start by the generator of Park and Miller: the same start makes the same bytes everywhere.
//! `make` prints the table and takes no memory, and fails only where the station did. `made_shelf` has it as a file, with
//! a day that changes and deletes some of its rows. `MadeRequests` asks for both, and `StillShelf` keeps what it has.
#![tactic(auto)]

mod chunk;
mod files;
mod print;
mod requests;
mod rows;
mod still_shelf;

pub use files::made_shelf;
pub use print::make;
pub use requests::{MadeRequests, made_requests};
pub use still_shelf::StillShelf;
