//! A benchmark: steps made rows with rising ids into a `PlainGaz` (words `plain ROWS`) or into a map from ids to lines
//! (words `map ROWS`), and prints how many were taken. Both check each row. No other crate stands on this one.
#![tactic(auto)]

mod made;
mod stores;

use gaz_num::read_count;
use std::process::ExitCode;
use std::{env, io};
use stores::{step_into_map, step_into_plain};

/// The status where the words are others.
const BAD_WORDS: u8 = 2;

/// The status where memory ran out, or the count can't be printed.
const FAILED: u8 = 5;

/// The words behind the program's name.
fn words(rt: &HostRuntime) -> io::Result<Vec<String>> {
    let mut all = env::args(rt)?;
    let _program = all.next();
    Ok(all.collect(rt.alloc())?)
}

fn main(rt: HostRuntime) -> ExitCode {
    let Ok(words) = words(&rt) else {
        return ExitCode::from(FAILED);
    };
    let [store, rows] = words.as_slice() else {
        return ExitCode::from(BAD_WORDS);
    };
    let Some(rows) = read_count(rows.as_bytes(), 1_000_000_000) else {
        return ExitCode::from(BAD_WORDS);
    };
    let taken = match store.as_str() {
        "plain" => step_into_plain(rt.alloc(), rows),
        "map" => step_into_map(rt.alloc(), rows),
        _ => return ExitCode::from(BAD_WORDS),
    };
    match taken {
        Ok(count) => match println!(rt; "{count}") {
            Ok(()) => ExitCode::from(0),
            Err(_) => ExitCode::from(FAILED),
        },
        Err(_) => ExitCode::from(FAILED),
    }
}
