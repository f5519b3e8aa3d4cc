//! Gazetteers as plain lists of lines, and the definitions on which all later theorems stand: `specs/` says what a
//! gazetteer is, what a line, a fold of files, a load and a day make of one, and which rows match what a search asks.
//! `PlainGaz` computes steps and answers on lists. Each of its calls is an equation on the `Gazetteer` that it stands for.
//! The laws say that folds, loads and days make gazetteers of gazetteers, what a step leaves at each key, and how
//! folds are stopped and joined.
#![tactic(auto)]

mod alternates;
mod children;
mod fault;
mod ids_by_key;
mod key;
mod kin;
mod laws;
mod line_list;
mod lines;
mod links;
mod plain_gaz;
mod row_numbers;
mod rows;
mod wanted;

pub use fault::PlainFault;
pub use kin::PlainKin;
pub use laws::{
    answers_have_rows, day_twice, folds_append, keeps_gazetteers, kin_have_rows, part_is_fold,
    steps_by_key,
};
pub use lines::Lines;
pub use plain_gaz::PlainGaz;
