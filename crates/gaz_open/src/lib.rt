//! The opening of a mirror on the device.
//! `open` syncs the areas, recovers from a stop and reads the root page: it answers the mirror with that root, or says that the areas are
//! no mirror. Of the gazetteer it reads nothing, so a page that is damaged shows when a question or a day meets it.
//! At every moment of it the areas mirror what they mirrored, and it prints nothing; after it nothing is pending.
//! `areas_mirror` says what areas mirror: one gazetteer, and at first the empty one.
#![tactic(auto)]

mod fault;
mod find;
mod law;
mod opening;
mod settle;

pub use fault::{OpenFault, Place};
pub use find::Found;
pub use law::areas_mirror;
pub use opening::open;
