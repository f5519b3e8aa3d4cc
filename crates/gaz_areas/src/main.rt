//! A program for the scripts under tests/: it writes its one word to the area of the mark, syncs it, reads standard input
//! to its end, and prints the word. So a script sees the lock held, and what becomes of a closed standard output.
//! Status 2 where the words are others, 3 where the device or the output fails, 4 where the input fails. No crate stands on it.
#![tactic(auto)]

use gaz_outside::{Area, Failed, FileStation, Source, Station, StdinSource, hold_standard};
use std::process::ExitCode;
use std::{env, io};

/// The words behind the program's name.
fn words(rt: &HostRuntime) -> io::Result<Vec<String>> {
    let mut all = env::args(rt)?;
    let _program = all.next();
    Ok(all.collect(rt.alloc())?)
}

/// Puts the text at the front of the mark.
fn write_mark<T: Station>(station: &mut T, text: &[u8]) -> Result<(), Failed> {
    station.write_at(Area::Mark, 0, text)?;
    station.sync(Area::Mark)
}

/// Takes all of the source, at most 2^20 pieces of it.
fn read_to_end<S: Source>(source: &mut S) -> Result<(), Failed> {
    let mut piece = [0; 4096];
    for _ in 0..1 << 20 {
        if source.take(&mut piece)? == 0 {
            break;
        }
    }
    Ok(())
}

fn main(rt: HostRuntime) -> ExitCode {
    let _held = hold_standard(&rt);
    let Ok(words) = words(&rt) else {
        return ExitCode::from(2);
    };
    let [text] = words.as_slice() else {
        return ExitCode::from(2);
    };
    let mut station = FileStation::new(&rt);
    if write_mark(&mut station, text.as_bytes()).is_err() {
        return ExitCode::from(3);
    }
    if read_to_end(&mut StdinSource::new(&rt)).is_err() {
        return ExitCode::from(4);
    }
    match station.print(text.as_bytes()) {
        Ok(()) => ExitCode::from(0),
        Err(_) => ExitCode::from(3),
    }
}
