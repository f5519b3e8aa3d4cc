//! A load: a gazetteer is read anew from the six files of a dump.
//! `load` steps the lines of the files, in order, into a new store over the area that isn't in use, writes and syncs its pages, and then
//! commits the root page that names them. A stop at any moment leaves the old gazetteer or the loaded one, whole; after a refusal all is as
//! before, but for what the idle area reads. It answers each cause: a file, a line, the shelf, the station, or want of memory; damage never
//! over a device that mirrors a gazetteer.
#![tactic(auto)]

mod loading;

pub use loading::load;
