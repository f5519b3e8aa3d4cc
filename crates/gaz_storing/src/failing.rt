//! Each call of the pages fails in turn: the call on the store that makes it answers so.
use crate::both::empty_store;
use crate::calls::{Room, Store};
use crate::dozen::{ask_all, step_all};
use crate::stopped::{Stopped, check, had, printed};
use gaz_rows::{AskFault, StepFault};
use std::alloc::Global;
use std::io::Print;

/// Whether a run ended since a call failed.
fn failed(run: Result<(), Stopped>) -> Result<bool, Stopped> {
    match run {
        Ok(()) => Ok(false),
        Err(Stopped::Ask(AskFault::Failed)) => Ok(true),
        Err(Stopped::Step(StepFault::Failed)) => Ok(true),
        Err(other) => Err(other),
    }
}

/// Steps and asks.
fn step_and_ask(
    store: &mut Store,
    alloc: Global,
    line: &mut Vec<u8>,
    room: &mut Room,
) -> Result<(), Stopped> {
    step_all(alloc, store, line)?;
    ask_all(store, room)
}

/// Steps and asks over the store whose call with this number fails, which is the last one then. Whether it came to that call.
fn run(
    mut store: Store,
    alloc: Global,
    number: u64,
    line: &mut Vec<u8>,
    room: &mut Room,
) -> Result<bool, Stopped> {
    let stopped = failed(step_and_ask(&mut store, alloc, line, room));
    let calls = store.into_pages().calls();
    match stopped {
        Ok(true) => match check(calls == number, "a call after the one that failed") {
            Ok(()) => Ok(true),
            Err(other) => Err(other),
        },
        other => other,
    }
}

/// The same from the making of the store on.
fn run_from(
    alloc: Global,
    number: u64,
    line: &mut Vec<u8>,
    room: &mut Room,
) -> Result<bool, Stopped> {
    let fails = had(vec![in alloc; number; 1])?;
    match empty_store(fails) {
        Ok(store) => run(store, alloc, number, line, room),
        Err(other) => failed(Err(other)),
    }
}

/// The calls fail in turn, until there are no more.
fn all_calls(alloc: Global, line: &mut Vec<u8>, room: &mut Room) -> Result<u64, Stopped> {
    for number in 1..100_000 {
        if !run_from(alloc, number, line, room)? {
            return Ok(number);
        }
    }
    Err(Stopped::Wrong("calls without end"))
}

/// The calls fail in turn.
pub fn each_call(rt: &impl Print, alloc: Global, room: &mut Room) -> Result<(), Stopped> {
    let mut line = Vec::new(alloc);
    let calls = all_calls(alloc, &mut line, room)?;
    check(calls > 100, "few calls")?;
    printed(println!(rt;
        "a dozen steps and all questions: each call of the pages failed in turn, and the answer was so"
    ))
}
