//! The answer to a search, over the tables in pages.
//! `search` offers the rows that match to the first answers in order: over pages that stand for a gazetteer they are those of the
//! gazetteer, by the same words as over plain lists. A name is sought by the keys of names that begin as it does, a box without a name by
//! the keys of its bands and ranges of longitudes, and any other search goes over all rows. What a key leads to is tested on its own line.
//! How many pages it reads is bounded by the candidates: rows with names that begin alike, rows in those bands and ranges, or all rows.
//! Nothing here takes memory but the test of names. Damage is answered never over pages that stand for a gazetteer, and a search ends and
//! is safe on any bytes.
#![tactic(auto)]

mod boxes;
mod found;
mod gather;
mod offer;
mod plan;
mod walk;
mod wanted;

pub use plan::search;
