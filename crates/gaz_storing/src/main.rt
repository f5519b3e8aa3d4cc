//! A trial and a benchmark of the five tables over pages in memory. With the word `trial` it makes steps beside a plain gazetteer and compares all
//! answers, lets each call of the pages fail, and damages each page; what it prints stands in bench/storing_model.py too, which computes it by the
//! rules another way. `rising` and `scattered` with a number and a phase make so many rows for bench/store.sh. No other crate stands on it.
#![tactic(auto)]

mod beside;
mod both;
mod calls;
mod damage;
mod dozen;
mod draws;
mod edges;
mod failing;
mod lines;
mod rows;
mod same;
mod stopped;

use calls::Room;
use gaz_num::read_count;
use std::io::Print;
use std::process::ExitCode;
use std::{env, io};
use stopped::Stopped;

/// The status where the words are others.
const BAD_WORDS: u8 = 2;

/// The status where something isn't as it must be, memory ran out, or the text can't be printed.
const FAILED: u8 = 5;

/// The words behind the program's name.
fn words(rt: &HostRuntime) -> io::Result<Vec<String>> {
    let mut all = env::args(rt)?;
    let _program = all.next();
    Ok(all.collect(rt.alloc())?)
}

/// All that a trial shows.
fn show(rt: &HostRuntime, room: &mut Room) -> Result<(), Stopped> {
    beside::steps(rt, rt.alloc(), room)?;
    edges::alike(rt, rt.alloc(), room)?;
    edges::lengths(rt, rt.alloc(), room)?;
    edges::full(rt, rt.alloc(), room)?;
    failing::each_call(rt, rt.alloc(), room)?;
    damage::each_page(rt, rt.alloc(), room)
}

fn trial(rt: &HostRuntime) -> Result<(), Stopped> {
    let mut room: Room = [0; 65535];
    show(rt, &mut room)
}

/// Makes rows, as two numbers say.
fn make_rows(rt: &HostRuntime, many: &str, phase: &str, is_scattered: bool) -> Result<(), Stopped> {
    let Some(many) = read_count(many.as_bytes(), 10_000_000) else {
        return Err(Stopped::Words);
    };
    let Some(phase) = read_count(phase.as_bytes(), 3) else {
        return Err(Stopped::Words);
    };
    rows::rows(rt, rt.alloc(), many, phase, is_scattered)
}

fn run(rt: &HostRuntime, words: &[String]) -> Result<(), Stopped> {
    match words {
        [word] if word.as_str() == "trial" => trial(rt),
        [word, many, phase] if word.as_str() == "rising" => make_rows(rt, many, phase, false),
        [word, many, phase] if word.as_str() == "scattered" => make_rows(rt, many, phase, true),
        _ => Err(Stopped::Words),
    }
}

/// Says why a run stopped. The status of the program.
fn say(rt: &HostRuntime, stopped: Stopped) -> u8 {
    let _printed = match stopped {
        Stopped::Words => return BAD_WORDS,
        Stopped::Wrong(what) => println!(rt; "wrong: {what}"),
        Stopped::Ask(fault) => println!(rt; "stopped: {fault:?}"),
        Stopped::Step(fault) => println!(rt; "stopped: {fault:?}"),
        Stopped::Memory | Stopped::Print => Ok(()),
    };
    FAILED
}

fn main(rt: HostRuntime) -> ExitCode {
    let Ok(words) = words(&rt) else {
        return ExitCode::from(FAILED);
    };
    match run(&rt, &words) {
        Ok(()) => ExitCode::from(0),
        Err(stopped) => ExitCode::from(say(&rt, stopped)),
    }
}
