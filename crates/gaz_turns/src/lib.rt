//! What runs of requests leave of a mirror: the definitions by which the top call promises it, and the law of lives.
//! A run is turns: request lines, each with how it was met. The definitions give the replies of turns and the gazetteers between
//! them, what every stop of a run leaves on the device and in the printed text, and what its exit leaves.
//! `lives` says that where each run keeps what it finds, the runs of a life go on from one another: no acknowledged change is
//! lost, and none is there by half. The crate has no other function.
#![tactic(auto)]

mod life;

pub use life::lives;
