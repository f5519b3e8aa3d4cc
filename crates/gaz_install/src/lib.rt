//! Changed pages take the place of the committed ones.
//! `install` commits changed pages together with the root page that names them, and makes that root the mirror's.
//! A stop at any moment leaves the old gazetteer or the next one, whole; after `Ok` every stop leaves the next one.
//! It makes three writes for each page and six more at most, prints nothing, and after an error the mirror is what it was.
//! Loads and days end with it: a load with the root page alone, its pages being on the disk already.
#![tactic(auto)]

mod installing;

pub use installing::{install, install_prepared, prepare};
