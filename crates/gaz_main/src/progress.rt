//! How far the files of a load or a day are read, shown on standard error for whoever waits there: a line of its own that is written over, and
//! cleared in the end. Nothing is decided here, and what can't be shown isn't.
use arrayvec::{ArrayString, ArrayVec};
use std::env::{Env, FillError};
use std::fs::{File, OpenFile};
use std::io::{IsTerminal, Print};
use std::time::{Duration, Instant};

/// The least time between two lines, in milliseconds.
const PAUSE: u128 = 100;

/// Where this variable is set, nothing is shown.
const QUIET: &str = "GAZ_QUIET";

/// A file that is open.
#[derive(Default, Drop)]
struct Opened {
    number: u64,
    name: ArrayString<48>,
    bytes: u64,
}

/// The file that is read now.
#[derive(Clone, Copy)]
struct Reading {
    number: u64,
    rows: u64,
    since: Instant,
    shown: Instant,
}

/// The files that are open, and how far one of them is read.
#[derive(Drop)]
pub(crate) struct Progress<'a> {
    rt: &'a HostRuntime,
    files: ArrayVec<Opened, 16>,
    now: Option<Reading>,
    is_shown: bool,
}

/// Whether anybody is there to read it.
fn is_wanted(rt: &HostRuntime) -> bool {
    rt.stderr().is_terminal() && matches!(rt.var(QUIET, &mut [0; 1]), Err(FillError::NotPresent))
}

fn size_of(rt: &HostRuntime, name: &str) -> u64 {
    match File::open(rt, name) {
        Ok(file) => match file.metadata() {
            Ok(data) => data.len(),
            Err(_) => 0,
        },
        Err(_) => 0,
    }
}

/// How many lines end in these bytes.
fn lines_in(piece: &[u8]) -> u64 {
    let mut count = 0u64;
    for byte in piece {
        if *byte == b'\n' {
            count = count.saturating_add(1);
        }
    }
    count
}

/// How many of so many, in a hundred.
fn percent(part: u64, whole: u64) -> u64 {
    if whole == 0 {
        100
    } else {
        (part.saturating_mul(100) / whole).min(100)
    }
}

/// How many in a second, after so long.
fn rate(rows: u64, time: Duration) -> u64 {
    let passed = u64::try_from(time.as_millis()).unwrap_or(u64::MAX);
    rows.saturating_mul(1000) / passed.max(1)
}

impl<'a> Progress<'a> {
    /// `None` where standard error is no terminal or `GAZ_QUIET` is set.
    pub(crate) fn new(rt: &'a HostRuntime) -> Option<Self> {
        if !is_wanted(rt) {
            return None;
        }
        Some(Progress {
            rt,
            files: ArrayVec::new(),
            now: None,
            is_shown: false,
        })
    }

    /// A file was opened.
    pub(crate) fn opened(&mut self, name: &str, number: u64) {
        let Ok(kept) = ArrayString::from(name) else {
            return;
        };
        let bytes = size_of(self.rt, name);
        let _kept = self.files.try_push(Opened {
            number,
            name: kept,
            bytes,
        });
    }

    /// This piece of a file was read, which begins at `at`.
    pub(crate) fn read(&mut self, number: u64, at: u64, piece: &[u8]) {
        let Ok(time) = Instant::now(self.rt) else {
            return;
        };
        let mut reading = match self.now {
            Some(reading) if reading.number == number => reading,
            _ => Reading {
                number,
                rows: 0,
                since: time,
                shown: time,
            },
        };
        reading.rows = reading.rows.saturating_add(lines_in(piece));
        if time.duration_since(reading.shown).as_millis() >= PAUSE {
            reading.shown = time;
            self.show(reading, at.saturating_add(piece.len() as u64), time);
        }
        self.now = Some(reading);
    }

    /// Writes the line over the last one.
    fn show(&mut self, reading: Reading, read: u64, time: Instant) {
        for file in &self.files {
            if file.number == reading.number {
                let done = percent(read, file.bytes);
                let rows = reading.rows;
                let rate = rate(rows, time.duration_since(reading.since));
                let _shown = eprint!(self.rt;
                    "\r{} {done}%, {rows} rows, {rate} rows a second\x1b[K",
                    file.name
                );
                self.is_shown = true;
            }
        }
    }

    /// The files were closed: the line is cleared.
    pub(crate) fn closed(&mut self) {
        if self.is_shown {
            let _cleared = eprint!(self.rt; "\r\x1b[K");
        }
        self.files.clear();
        self.now = None;
        self.is_shown = false;
    }
}
