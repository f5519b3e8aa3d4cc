//! Why a trial ends before its end.
use gaz_kin::KinFault;
use gaz_rows::{AskFault, StepFault};
use std::io;

#[derive(Clone, Copy, Debug)]
pub enum Stopped {
    /// A question has no answer.
    Ask(AskFault),
    /// A question of kin has no answer.
    Kin(KinFault),
    /// A line can't be stepped into the store.
    Step(StepFault),
    /// This isn't as it must be.
    Wrong(&'static str),
    /// Memory ran out.
    Memory,
    /// The requests can't be read, or the answers can't be printed.
    Stream,
}

/// What comes of a step or a question.
pub type Done = Result<(), Stopped>;

/// What has to hold.
pub fn check(holds: bool, what: &'static str) -> Done {
    if holds {
        Ok(())
    } else {
        Err(Stopped::Wrong(what))
    }
}

pub fn streamed<T>(given: io::Result<T>) -> Result<T, Stopped> {
    match given {
        Ok(value) => Ok(value),
        Err(_) => Err(Stopped::Stream),
    }
}

pub fn had<T, E: Drop>(given: Result<T, E>) -> Result<T, Stopped> {
    match given {
        Ok(value) => Ok(value),
        Err(_) => Err(Stopped::Memory),
    }
}
