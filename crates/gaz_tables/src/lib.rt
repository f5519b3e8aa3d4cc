//! Lines of the tables of links, countries and admin codes: which columns they have between tabs, and the key of each.
//! `check_link`, `check_country` and `check_code` answer the key of a line exactly where `reason_against` has no reason,
//! and else the first reason. A comment of the table of countries is accepted, and has no key.
//! `country_place` is the place that a country's line names. Nothing here takes memory.
#![tactic(auto)]

mod code;
mod columns;
mod country;
mod laws;
mod link;

pub use code::check_code;
pub use country::{check_country, country_place};
pub use laws::keys_compare;
pub use link::{LinkClass, LinkKey, check_link};
