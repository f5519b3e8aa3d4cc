//! Why a trial ends before its end.
use gaz_rows::AskFault;
use std::io;

/// What isn't as it must be.
#[derive(Clone, Copy, Debug)]
pub enum Wrong {
    /// The answers of a mirror are others.
    Answers,
    /// A stop leaves neither the old gazetteer nor the new one.
    Mixture,
    /// A change that was made is gone after a stop.
    Lost,
    /// The stops of a change never left the one or never the other.
    Stops,
    /// A change is refused that mustn't be.
    Refused,
    /// A refusal, or a fault, has another cause.
    Cause,
    /// A refusal changed pages of the mirror.
    Pages,
    /// A change makes no calls, or no end of them, or one that failed is passed over.
    Calls,
    /// A root isn't there, isn't in form, or is another.
    Root,
    /// The log isn't in form.
    Log,
    /// Free pages aren't left by deletes, or aren't taken first.
    FreePages,
    /// A line is longer than it may be, or a scan has no end.
    Lines,
    /// A date or a list of files of the trial itself.
    Constant,
    /// There was no memory for a device.
    Starved,
}

#[derive(Clone, Copy)]
pub enum Stopped {
    /// The words are others.
    Words,
    /// This isn't as it must be.
    Wrong(Wrong),
    /// A question has no answer.
    Asked(AskFault),
    /// A call of the station failed that mustn't.
    Station,
    /// Memory ran out.
    Memory,
    /// The text can't be printed.
    Print,
}

/// What has to hold.
pub fn check(holds: bool, what: Wrong) -> Result<(), Stopped> {
    if holds {
        Ok(())
    } else {
        Err(Stopped::Wrong(what))
    }
}

pub fn printed(given: io::Result<()>) -> Result<(), Stopped> {
    match given {
        Ok(()) => Ok(()),
        Err(_) => Err(Stopped::Print),
    }
}

pub fn had<T, E: Drop>(given: Result<T, E>) -> Result<T, Stopped> {
    match given {
        Ok(value) => Ok(value),
        Err(_) => Err(Stopped::Memory),
    }
}
