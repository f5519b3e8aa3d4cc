//! A benchmark: with the words TIMES PAGES it commits so many pages of Left so many times, over the files of the current
//! folder, and prints how many pages that were. It begins with a recovery. No other crate stands on it.
#![tactic(auto)]

mod commits;

use commits::commit_times;
use gaz_num::read_count;
use gaz_outside::{FileStation, hold_standard};
use std::process::ExitCode;
use std::{env, io};

/// The status where the words are others.
const BAD_WORDS: u8 = 2;

/// The status where memory ran out, a file failed, or the count can't be printed.
const FAILED: u8 = 5;

/// The words behind the program's name.
fn words(rt: &HostRuntime) -> io::Result<Vec<String>> {
    let mut all = env::args(rt)?;
    let _program = all.next();
    Ok(all.collect(rt.alloc())?)
}

fn main(rt: HostRuntime) -> ExitCode {
    let _held = hold_standard(&rt);
    let Ok(words) = words(&rt) else {
        return ExitCode::from(FAILED);
    };
    let [times, pages] = words.as_slice() else {
        return ExitCode::from(BAD_WORDS);
    };
    let Some(times) = read_count(times.as_bytes(), 1_000_000) else {
        return ExitCode::from(BAD_WORDS);
    };
    let Some(pages) = read_count(pages.as_bytes(), 1_000_000) else {
        return ExitCode::from(BAD_WORDS);
    };
    let mut station = FileStation::new(&rt);
    match commit_times(rt.alloc(), &mut station, times, pages) {
        Ok(count) => match println!(rt; "{count}") {
            Ok(()) => ExitCode::from(0),
            Err(_) => ExitCode::from(FAILED),
        },
        Err(_) => ExitCode::from(FAILED),
    }
}
