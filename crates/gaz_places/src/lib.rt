//! Which place has a key, by a chained hash over arrays that are reserved once.
//! A key has one place at most, and a place one key at most: so a pool of frames finds the frame of a page. A look-up, a put and a take-out
//! change and walk one chain alone, which has one place on average, and take no memory.
//! `found_in` is the map that the clauses speak of; how keys are spread over chains is no part of it.
//! A place that was taken out may be put again. Nothing fails but `Places::new`, for want of memory.
#![tactic(auto)]

mod laws;
mod places;

pub use laws::places_and_keys;
pub use places::Places;
