//! Tests of the layers below the mirror that need an object in memory or a folder: calls that fail, and stops at each call.
//! They stand here, so that those crates are proved once and not a second time with their tests. There is nothing but tests
//! in this crate, and no crate stands on it.
#![tactic(auto)]

#[cfg(test)]
mod device_tests;
#[cfg(test)]
mod line_tests;
#[cfg(test)]
mod redo;
#[cfg(test)]
mod redo_tests;
#[cfg(test)]
mod shelf_tests;
