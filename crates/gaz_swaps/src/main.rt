//! A trial of loads and days of a mirror in pages. No other crate stands on it.
//! With the word `trial` it stops and fails each call of a load and of a day, over objects in memory, and prints what it found of the mirror
//! after each; the answers that it expects follow from the lines by hand.
//! It promises nothing beside what the calls that it makes promise: what it prints is what was found.
#![tactic(auto)]

mod asking;
mod changes;
mod device;
mod faults;
mod freed;
mod made;
mod mirrors;
mod refusals;
mod sides;
mod stopped;
mod stops;
mod worked;

use gaz_outside::hold_standard;
use std::io::Print;
use std::process::ExitCode;
use std::{env, io};
use stopped::Stopped;

/// The status where the words are others.
const BAD_WORDS: u8 = 2;

/// The status where something isn't as it must be, memory ran out, a file failed, or the text can't be printed.
const FAILED: u8 = 5;

/// The words behind the program's name.
fn words(rt: &HostRuntime) -> io::Result<Vec<String>> {
    let mut all = env::args(rt)?;
    let _program = all.next();
    Ok(all.collect(rt.alloc())?)
}

/// All that a trial shows.
fn trial(rt: &HostRuntime) -> Result<(), Stopped> {
    let alloc = rt.alloc();
    stops::first_load_stops(rt, alloc)?;
    stops::second_load_stops(rt, alloc)?;
    stops::day_stops(rt, alloc)?;
    faults::station_of_a_load(rt, alloc)?;
    faults::station_of_a_day(rt, alloc)?;
    faults::shelf_of_a_load(rt, alloc)?;
    faults::shelf_of_a_day(rt, alloc)?;
    refusals::loads(rt, alloc)?;
    refusals::days(rt, alloc)?;
    sides::three_loads(rt, alloc)?;
    freed::day_over_free_pages(rt, alloc)
}

fn run(rt: &HostRuntime, words: &[String]) -> Result<(), Stopped> {
    match words {
        [word] if word.as_str() == "trial" => trial(rt),
        _ => Err(Stopped::Words),
    }
}

fn main(rt: HostRuntime) -> ExitCode {
    let _held = hold_standard(&rt);
    let Ok(words) = words(&rt) else {
        return ExitCode::from(FAILED);
    };
    match run(&rt, &words) {
        Ok(()) => ExitCode::from(0),
        Err(Stopped::Words) => ExitCode::from(BAD_WORDS),
        Err(Stopped::Wrong(what)) => {
            let _printed = println!(rt; "wrong: {what:?}");
            ExitCode::from(FAILED)
        }
        Err(Stopped::Asked(fault)) => {
            let _printed = println!(rt; "no answer: {fault:?}");
            ExitCode::from(FAILED)
        }
        Err(_) => ExitCode::from(FAILED),
    }
}
