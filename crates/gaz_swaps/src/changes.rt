//! A load or a day, with what a mirror answers before it and after.
use crate::asking::answers_on;
use crate::device::{Device, framed};
use crate::mirrors::{Outcome, Request, change, opened};
use crate::stopped::{Stopped, Wrong, check, had};
use crate::worked::{
    AFTER, DAY_FILES, DUMP_FILES, FIRST, File, LOADED, NEXT, NOTHING, OTHER, OTHER_FILES, RELOADED,
    ROWS,
};
use gaz_framed::Framed;
use gaz_num::{Day, read_date};
use gaz_outside::MemShelf;
use gaz_pages::Mirror;
use std::alloc::Global;

/// Files with their bytes.
pub type Files = Vec<(String, Vec<u8>)>;

/// A request over files, and what a mirror answers before it and after, where it is asked for so many rows.
#[derive(Drop)]
pub struct Change {
    pub request: Request,
    pub files: Files,
    pub rows: u32,
    pub old: Vec<u8>,
    pub new: Vec<u8>,
}

pub fn day_of(date: &str) -> Result<Day, Stopped> {
    match read_date(date.as_bytes()) {
        Some(day) => Ok(day),
        None => Err(Stopped::Wrong(Wrong::Constant)),
    }
}

/// These texts, one behind the other.
pub fn joined(alloc: Global, pieces: &[&str]) -> Result<Vec<u8>, Stopped> {
    let mut bytes = Vec::new(alloc);
    for piece in pieces {
        had(bytes.extend_from_slice(piece.as_bytes()))?;
    }
    Ok(bytes)
}

/// These files with their bytes.
pub fn files_of(alloc: Global, files: &[File<'_>]) -> Result<Files, Stopped> {
    let mut shelved = Vec::new(alloc);
    for (name, pieces) in files {
        let name = had(String::from_str(alloc, name))?;
        had(shelved.push((name, joined(alloc, pieces)?)))?;
    }
    Ok(shelved)
}

/// The first load, over a device with nothing on it.
pub fn first_load(alloc: Global) -> Result<Change, Stopped> {
    Ok(Change {
        request: Request::Load(day_of(FIRST)?),
        files: files_of(alloc, DUMP_FILES)?,
        rows: ROWS,
        old: joined(alloc, NOTHING)?,
        new: joined(alloc, LOADED)?,
    })
}

/// The day after the first load.
pub fn day_after(alloc: Global) -> Result<Change, Stopped> {
    Ok(Change {
        request: Request::Day(day_of(AFTER)?),
        files: files_of(alloc, DAY_FILES)?,
        rows: ROWS,
        old: joined(alloc, LOADED)?,
        new: joined(alloc, NEXT)?,
    })
}

/// The other load, over a mirror after the first load.
pub fn other_load(alloc: Global) -> Result<Change, Stopped> {
    Ok(Change {
        request: Request::Load(day_of(OTHER)?),
        files: files_of(alloc, OTHER_FILES)?,
        rows: ROWS,
        old: joined(alloc, LOADED)?,
        new: joined(alloc, RELOADED)?,
    })
}

/// A copy of these files.
fn copied(alloc: Global, files: &[(String, Vec<u8>)]) -> Result<Files, Stopped> {
    let mut copies = Vec::new(alloc);
    for (name, bytes) in files {
        let name = had(String::from_str(alloc, name.as_str()))?;
        had(copies.push((name, had(bytes.to_vec(alloc))?)))?;
    }
    Ok(copies)
}

/// A shelf of these files, of which the call with this number fails, from 1, or none at 0.
pub fn shelf_of(
    alloc: Global,
    files: &[(String, Vec<u8>)],
    fails: u64,
) -> Result<MemShelf, Stopped> {
    let copies = copied(alloc, files)?;
    had(MemShelf::new(copies, had(vec![in alloc; fails; 1])?))
}

/// A change was made.
pub fn must(outcome: Outcome) -> Result<(), Stopped> {
    match outcome {
        Outcome::Made => Ok(()),
        _ => Err(Stopped::Wrong(Wrong::Refused)),
    }
}

/// Makes a change that isn't refused.
fn must_make_on(
    alloc: Global,
    mirror: &mut Mirror,
    device: &mut Framed<Device>,
    case: &Change,
) -> Result<(), Stopped> {
    let mut shelf = shelf_of(alloc, &case.files, 0)?;
    must(change(alloc, mirror, &mut shelf, device, case.request)?)
}

/// Opens the mirror of a device and makes a change that isn't refused.
pub fn must_make(alloc: Global, device: &mut Framed<Device>, case: &Change) -> Result<(), Stopped> {
    match opened(device) {
        Ok(mut mirror) => must_make_on(alloc, &mut mirror, device, case),
        Err(stopped) => Err(stopped),
    }
}

/// The mirror of a device answers this, once it is opened.
pub fn must_answer(
    alloc: Global,
    device: &mut Framed<Device>,
    rows: u32,
    wanted: &[u8],
) -> Result<(), Stopped> {
    let text = answers_on(alloc, device, rows)?;
    check(text.as_slice() == wanted, Wrong::Answers)
}

/// A device after the first load.
pub fn loaded(alloc: Global) -> Result<Device, Stopped> {
    let case = first_load(alloc)?;
    let mut device = framed(alloc, Device::new(alloc))?;
    must_make(alloc, &mut device, &case)?;
    must_answer(alloc, &mut device, case.rows, &case.new)?;
    device.station().after_stop(0, 255)
}
