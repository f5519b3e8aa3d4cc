//! A plain gazetteer and a store, which are stepped together.
ghost use Rattle.std.specs.Prelude.{◌↔◌, ◌==◌, IsTrue, ◌≡◌};
ghost use Rattle.std.specs.List.{list_any};
ghost use Rattle.gaz_plain.specs.Gazetteer.{is_one_line};

use crate::calls::{Store, empty, plain_step, step};
use crate::stopped::{Stopped, check};
use gaz_num::{Day, Kind, Reason, Table};
use gaz_plain::{PlainFault, PlainGaz};
use gaz_rows::StepFault;
use std::alloc::Global;

/// What a step comes to.
#[derive(Clone, Copy, PartialEq, Eq)]
pub enum Outcome {
    Taken,
    Malformed(Reason),
    Full(Table),
}

/// Both of them.
#[derive(Drop)]
pub struct Both {
    pub plain: PlainGaz,
    pub store: Store,
}

fn has_lf(line: &[u8]) -> bool
    ensures { result ≡ list_any (λ byte. byte == 10) line.now }
{
    line.iter().any(|byte| *byte == b'\n')
}

/// Whether no LF stands in the line.
pub fn is_one_line(line: &[u8]) -> bool
    ensures { IsTrue result ↔ IsTrue (is_one_line line.now) }
{
    !has_lf(line)
}

/// The first day of all.
fn first_day() -> Result<Day, Stopped> {
    match Day::from_number(0) {
        Some(day) => Ok(day),
        None => Err(Stopped::Wrong("a day")),
    }
}

/// The store of the empty gazetteer over pages of which none was taken.
pub fn empty_store(fails: Vec<u64>) -> Result<Store, Stopped> {
    match first_day() {
        Ok(day) => empty(fails, day).map_err(Stopped::Ask),
        Err(stopped) => Err(stopped),
    }
}

/// The empty gazetteer.
fn empty_plain(alloc: Global) -> Result<PlainGaz, Stopped> {
    let mut plain = PlainGaz::new(alloc);
    match first_day() {
        Ok(day) => plain.set_date(day),
        Err(stopped) => return Err(stopped),
    }
    Ok(plain)
}

/// What a step into a store comes to.
fn stored_outcome(given: Result<(), StepFault>) -> Result<Outcome, Stopped> {
    match given {
        Ok(()) => Ok(Outcome::Taken),
        Err(StepFault::Malformed(reason)) => Ok(Outcome::Malformed(reason)),
        Err(StepFault::Full(table)) => Ok(Outcome::Full(table)),
        Err(fault) => Err(Stopped::Step(fault)),
    }
}

/// What a step into a plain gazetteer comes to.
fn plain_outcome(given: Result<(), PlainFault>) -> Result<Outcome, Stopped> {
    match given {
        Ok(()) => Ok(Outcome::Taken),
        Err(PlainFault::Malformed(reason)) => Ok(Outcome::Malformed(reason)),
        Err(PlainFault::Full(table)) => Ok(Outcome::Full(table)),
        Err(PlainFault::Memory) => Err(Stopped::Memory),
    }
}

/// Steps a line into the store.
pub fn step_store(
    alloc: Global,
    store: &mut Store,
    kind: Kind,
    line: &[u8],
) -> Result<Outcome, Stopped> {
    if !is_one_line(line) {
        return Err(Stopped::Wrong("a line"));
    }
    stored_outcome(step(alloc, store, kind, line))
}

/// Steps a line into the plain gazetteer.
fn step_plain(plain: &mut PlainGaz, kind: Kind, line: &[u8]) -> Result<Outcome, Stopped> {
    if plain.date().is_none() || !is_one_line(line) {
        return Err(Stopped::Wrong("a line"));
    }
    plain_outcome(plain_step(plain, kind, line))
}

impl Both {
    /// The empty gazetteer of both.
    pub fn empty(alloc: Global) -> Result<Both, Stopped> {
        let store = empty_store(Vec::new(alloc))?;
        let plain = empty_plain(alloc)?;
        Ok(Both { plain, store })
    }

    /// Steps a line into both, which have to come to the same.
    pub fn step(&mut self, alloc: Global, kind: Kind, line: &[u8]) -> Result<Outcome, Stopped> {
        let taken = step_plain(&mut self.plain, kind, line)?;
        let stored = step_store(alloc, &mut self.store, kind, line)?;
        check(stored == taken, "what a step comes to")?;
        Ok(taken)
    }
}
