//! Why a trial ends before its end.
use gaz_page::PageFault;
use std::io;

#[derive(Clone, Copy)]
pub enum Stopped {
    /// The words are others.
    Words,
    /// A call answered what it mustn't.
    Pages(PageFault),
    /// This isn't as it must be.
    Wrong(&'static str),
    /// Memory ran out.
    Memory,
    /// The text can't be printed.
    Print,
}

/// A fault where there may be none.
pub fn must<T>(given: Result<T, PageFault>) -> Result<T, Stopped> {
    match given {
        Ok(value) => Ok(value),
        Err(fault) => Err(Stopped::Pages(fault)),
    }
}

/// What has to hold.
pub fn check(holds: bool, what: &'static str) -> Result<(), Stopped> {
    if holds {
        Ok(())
    } else {
        Err(Stopped::Wrong(what))
    }
}

pub fn printed(given: io::Result<()>) -> Result<(), Stopped> {
    match given {
        Ok(()) => Ok(()),
        Err(_) => Err(Stopped::Print),
    }
}

pub fn had<T, E: Drop>(given: Result<T, E>) -> Result<T, Stopped> {
    match given {
        Ok(value) => Ok(value),
        Err(_) => Err(Stopped::Memory),
    }
}
