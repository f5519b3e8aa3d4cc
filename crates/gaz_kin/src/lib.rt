//! What stands above a place and below it, over the tables in pages.
//! `chain` answers the chain of a place and `children` offers its children: over pages that stand for a gazetteer they are those of
//! the gazetteer, by the same words as over plain lists. Links are found by their child or their parent, divisions and country rows
//! by their path, and the rows of a country by theirs; each candidate is tested on its own line, and what stands above one is kept for the
//! next with the same path. Nothing here takes memory. Damage is answered never over pages that stand for a gazetteer, and each call ends
//! and is safe on any bytes.
#![tactic(auto)]

mod above;
mod beginning;
mod below;
mod chains;
mod fault;
mod ids;
mod kept;
mod kin;
mod path;
mod rows;

pub use below::children;
pub use chains::chain;
pub use fault::KinFault;
