//! Why a trial ends before its end.
use gaz_rows::{AskFault, StepFault};
use std::io;

#[derive(Clone, Copy)]
pub enum Stopped {
    /// The words are others.
    Words,
    /// A question has this answer where there may be none of it.
    Ask(AskFault),
    /// A step has this answer where there may be none of it.
    Step(StepFault),
    /// This isn't as it must be.
    Wrong(&'static str),
    /// Memory ran out.
    Memory,
    /// The text can't be printed.
    Print,
}

/// What has to hold.
pub fn check(holds: bool, what: &'static str) -> Result<(), Stopped> {
    if holds {
        Ok(())
    } else {
        Err(Stopped::Wrong(what))
    }
}

/// An answer to a question, which has to come.
pub fn asked<T>(given: Result<T, AskFault>) -> Result<T, Stopped> {
    match given {
        Ok(value) => Ok(value),
        Err(fault) => Err(Stopped::Ask(fault)),
    }
}

pub fn printed(given: io::Result<()>) -> Result<(), Stopped> {
    match given {
        Ok(()) => Ok(()),
        Err(_) => Err(Stopped::Print),
    }
}

pub fn had<T, E: Drop>(given: Result<T, E>) -> Result<T, Stopped> {
    match given {
        Ok(value) => Ok(value),
        Err(_) => Err(Stopped::Memory),
    }
}
