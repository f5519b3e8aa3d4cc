//! A day: what the four daily files of a date change in a mirror.
//! `apply` steps the lines of the files, in order, into the pages of the mirror, which stay in memory, and commits the changed ones at once
//! with the root page of the new date. A stop at any moment leaves the old gazetteer or the one after the day, whole; after a refusal all is
//! as before. It answers each cause: the date, a file, a line, the shelf, the station, a damaged page, or want of memory.
//! A day of n lines makes at most 1,000 * (n + 1) writes, and its memory grows with its changed pages alone.
#![tactic(auto)]

mod applying;

pub use applying::apply;
