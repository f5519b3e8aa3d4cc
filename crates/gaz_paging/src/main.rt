//! A trial and a benchmark of records, a tree and its scan over pages in memory. With the word `trial` it goes through what a test of them shows,
//! and prints what it found; `records`, `rising`, `random`, `map_rising`, `map_random` with a number and a phase do as many steps, for the scripts under
//! bench/. No other crate stands on it.
#![tactic(auto)]

mod damage;
mod failing;
mod heights;
mod keys;
mod pattern;
mod ranges;
mod records;
mod replaced;
mod steps;
mod stopped;

use gaz_num::read_count;
use std::io::Print;
use std::process::ExitCode;
use std::{env, io};
use stopped::Stopped;

/// The status where the words are others.
const BAD_WORDS: u8 = 2;

/// The status where something isn't as it must be, memory ran out, or the text can't be printed.
const FAILED: u8 = 5;

/// The words behind the program's name.
fn words(rt: &HostRuntime) -> io::Result<Vec<String>> {
    let mut all = env::args(rt)?;
    let _program = all.next();
    Ok(all.collect(rt.alloc())?)
}

/// All that a trial shows.
fn trial(rt: &HostRuntime) -> Result<(), Stopped> {
    records::lengths(rt, rt.alloc())?;
    records::holes(rt, rt.alloc())?;
    replaced::to_the_byte(rt, rt.alloc())?;
    replaced::long_ones(rt, rt.alloc())?;
    replaced::beside_a_map(rt, rt.alloc())?;
    failing::each_call(rt, rt.alloc())?;
    damage::pages(rt, rt.alloc())?;
    keys::beside_a_map(rt, rt.alloc())?;
    keys::in_order(rt, rt.alloc())?;
    heights::to_height_4(rt, rt.alloc())?;
    ranges::parts(rt, rt.alloc())?;
    failing::each_call_of_a_tree(rt, rt.alloc())?;
    damage::trees(rt, rt.alloc())?;
    damage::numbers(rt, rt.alloc())?;
    damage::out_of_order(rt, rt.alloc())
}

fn run(rt: &HostRuntime, words: &[String]) -> Result<(), Stopped> {
    match words {
        [word] => match word.as_str() {
            "trial" => trial(rt),
            _ => Err(Stopped::Words),
        },
        [word, many, phase] => {
            let Some(many) = read_count(many.as_bytes(), 100_000_000) else {
                return Err(Stopped::Words);
            };
            let Some(phase) = read_count(phase.as_bytes(), 3) else {
                return Err(Stopped::Words);
            };
            match word.as_str() {
                "records" => steps::records(rt, rt.alloc(), many, phase),
                "rising" => steps::keys(rt, rt.alloc(), many, phase, false),
                "random" => steps::keys(rt, rt.alloc(), many, phase, true),
                "map_rising" => steps::map(rt, rt.alloc(), many, phase, false),
                "map_random" => steps::map(rt, rt.alloc(), many, phase, true),
                _ => Err(Stopped::Words),
            }
        }
        _ => Err(Stopped::Words),
    }
}

fn main(rt: HostRuntime) -> ExitCode {
    let Ok(words) = words(&rt) else {
        return ExitCode::from(FAILED);
    };
    match run(&rt, &words) {
        Ok(()) => ExitCode::from(0),
        Err(Stopped::Words) => ExitCode::from(BAD_WORDS),
        Err(Stopped::Wrong(what)) => {
            let _printed = println!(rt; "wrong: {what}");
            ExitCode::from(FAILED)
        }
        Err(Stopped::Pages(fault)) => {
            let _printed = println!(rt; "stopped: {fault:?}");
            ExitCode::from(FAILED)
        }
        Err(_) => ExitCode::from(FAILED),
    }
}
