//! A trial of questions. It makes 5,000 rows and the lines of the other tables, changes some and takes some out, in a plain gazetteer and in tables over
//! pages in memory, asks both each request of standard input, and prints the answer where it is the same: the ids in order, or the line.
//! The requests and the answers stand in bench/asking_model.py, which computes them by the rules another way. No other crate stands on it.
#![tactic(auto)]

mod both;
mod draws;
mod lines;
mod pages;
mod plain;
mod stopped;
mod told;

use both::Both;
use draws::put;
use gaz_words::read_request;
use std::io::Print;
use std::process::ExitCode;
use stopped::{Done, Stopped, check, streamed};
use told::Desk;

/// The status where the answers differ, memory ran out, or standard input or output failed.
const FAILED: u8 = 5;

/// Asks both a request and prints the answer.
fn ask(rt: &HostRuntime, both: &mut Both, desk: &mut Desk, other: &mut Desk, line: &str) -> Done {
    let Ok(request) = read_request(line.as_bytes()) else {
        return Err(Stopped::Wrong("a request"));
    };
    pages::tell(rt.alloc(), &mut both.store, &request, desk)?;
    plain::tell(&both.plain, &request, other)?;
    check(desk.told == other.told, "the answers differ")?;
    put(&mut desk.told, "\n")?;
    streamed(rt.write_all(&desk.told))
}

/// Asks both each request.
fn ask_all(rt: &HostRuntime, both: &mut Both, desk: &mut Desk, other: &mut Desk) -> Done {
    for line in rt.lines(rt.alloc()) {
        let line = streamed(line)?;
        ask(rt, both, desk, other, line.as_str())?;
    }
    Ok(())
}

/// Fills both and asks them.
fn fill_and_ask(rt: &HostRuntime, both: &mut Both) -> Done {
    both.fill(rt.alloc())?;
    let mut desk = Desk::new(rt.alloc())?;
    let mut other = Desk::new(rt.alloc())?;
    ask_all(rt, both, &mut desk, &mut other)
}

fn trial(rt: &HostRuntime) -> Done {
    let mut both = Both::empty(rt.alloc())?;
    fill_and_ask(rt, &mut both)
}

fn main(rt: HostRuntime) -> ExitCode {
    match trial(&rt) {
        Ok(()) => ExitCode::from(0),
        Err(stopped) => {
            let _printed = println!(rt; "wrong: {stopped:?}");
            ExitCode::from(FAILED)
        }
    }
}
