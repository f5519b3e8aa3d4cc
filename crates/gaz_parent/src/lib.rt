//! The parent rule: what stands above a place, found by links, by admin codes or by country.
//! `parent` answers exactly the first that exists of four rules over the lists of a gazetteer (specs/Parent.antt). The lists
//! are asked through the trait `Kin`, which plain lists and indexes over pages can meet alike: it fails only where a call of
//! `Kin` failed, and reads no more than those calls may. `level` and `is_country` tell a division and a country by its codes.
//! Nothing here takes memory.
#![tactic(auto)]

mod candidate;
mod entity;
mod kin;
mod laws;
mod rule;

pub use candidate::{leads_to_country, leads_to_division, may_be_country, may_be_division};
pub use entity::{is_country, level};
pub use kin::Kin;
pub use laws::{chains_end, parents_are_others, takes_least};
pub use rule::parent;
