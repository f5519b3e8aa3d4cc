//! The files of a load and of a day over a store.
//! They are opened in order, and their lines are stepped into the store in order, up to the first refusal. Where the pages stand for a
//! gazetteer and the shelf tells its files, the store stands after `Ok` for the one that the definition makes of them, and a refusal is
//! the defined one. Each other error has its cause: the shelf failed at the file that is named, the pages failed, a page was damaged and
//! they stood for no gazetteer, or memory was wanting. For each line at most 320 pages are changed.
#![tactic(auto)]

mod files;
mod fold;

pub use files::{MOST_FILES, files_of_day, files_of_load, follow, open_files};
pub use fold::{fold_file, fold_files};
