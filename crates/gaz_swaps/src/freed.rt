//! A day over a mirror that has free pages.
use crate::changes::{Change, Files, day_of, must_answer, must_make};
use crate::device::{Device, framed, left_by_stop};
use crate::made::{dashes, deletes, rows};
use crate::mirrors::{Request, opened};
use crate::stopped::{Stopped, Wrong, check, had, printed};
use crate::stops::each_stop;
use crate::worked::{ADMIN1, ADMIN2, ALTERNATES, COUNTRIES, DUMP, FIRST, LINKS, NONE_ASKED};
use gaz_framed::Framed;
use gaz_page::Root;
use std::alloc::Global;
use std::io::Print;

/// How many rows are loaded.
const ROWS: u32 = 120;

/// Up to which id they are then deleted.
const GONE: u32 = 110;

/// Up to which id rows are new on the day after.
const LAST: u32 = 220;

/// The outcomes of each stop that are tried.
const STOPS: [(u64, u8); 3] = [(0, 255), (1, 1), (2, 0)];

/// The root of a device.
fn root_of(device: &mut Framed<Device>) -> Result<Root, Stopped> {
    match opened(device)?.root() {
        Some(root) => Ok(root),
        None => Err(Stopped::Wrong(Wrong::Root)),
    }
}

/// Files with these names, of which the one at this place has the text and the others nothing.
fn files_with(alloc: Global, names: &[&str], place: usize, text: &str) -> Result<Files, Stopped> {
    let mut files = Vec::new(alloc);
    for n in 0..names.len() {
        let bytes = if n == place { text } else { "" };
        let name = had(String::from_str(alloc, names[n]))?;
        had(files.push((name, had(bytes.as_bytes().to_vec(alloc))?)))?;
    }
    Ok(files)
}

/// A text as bytes.
fn bytes_of(alloc: Global, text: &str) -> Result<Vec<u8>, Stopped> {
    had(text.as_bytes().to_vec(alloc))
}

/// Loads the first rows.
fn load(alloc: Global, device: &mut Framed<Device>) -> Result<(), Stopped> {
    let names = [DUMP, ALTERNATES, LINKS, COUNTRIES, ADMIN1, ADMIN2];
    let text = rows(alloc, 1, ROWS)?;
    let case = Change {
        request: Request::Load(day_of(FIRST)?),
        files: files_with(alloc, &names, 0, text.as_str())?,
        rows: LAST,
        old: Vec::new(alloc),
        new: Vec::new(alloc),
    };
    must_make(alloc, device, &case)
}

/// Deletes nearly all of them.
fn delete(alloc: Global, device: &mut Framed<Device>) -> Result<(), Stopped> {
    let names = [
        "modifications-2024-03-02.txt",
        "deletes-2024-03-02.txt",
        "alternateNamesModifications-2024-03-02.txt",
        "alternateNamesDeletes-2024-03-02.txt",
    ];
    let text = deletes(alloc, 1, GONE)?;
    let case = Change {
        request: Request::Day(day_of("2024-03-02")?),
        files: files_with(alloc, &names, 1, text.as_str())?,
        rows: LAST,
        old: Vec::new(alloc),
        new: Vec::new(alloc),
    };
    must_make(alloc, device, &case)
}

/// The answers with the rows that are left, and with those that are new or without.
fn told(alloc: Global, root: &str, has_new: bool) -> Result<Vec<u8>, Stopped> {
    let mut text = String::new(alloc);
    had(text.push_str(root))?;
    had(text.push_str(dashes(alloc, GONE)?.as_str()))?;
    had(text.push_str(rows(alloc, GONE + 1, ROWS)?.as_str()))?;
    let last = if has_new {
        rows(alloc, ROWS + 1, LAST)?
    } else {
        dashes(alloc, LAST - ROWS)?
    };
    had(text.push_str(last.as_str()))?;
    had(text.push_str(NONE_ASKED))?;
    bytes_of(alloc, text.as_str())
}

/// The day on which rows are new.
fn addition(alloc: Global) -> Result<Change, Stopped> {
    let names = [
        "modifications-2024-03-03.txt",
        "deletes-2024-03-03.txt",
        "alternateNamesModifications-2024-03-03.txt",
        "alternateNamesDeletes-2024-03-03.txt",
    ];
    let text = rows(alloc, ROWS + 1, LAST)?;
    let old = "2024-03-02: 10 rows, 0 alternates, 0 links, 0 countries, 0 codes\n";
    let new = "2024-03-03: 110 rows, 0 alternates, 0 links, 0 countries, 0 codes\n";
    Ok(Change {
        request: Request::Day(day_of("2024-03-03")?),
        files: files_with(alloc, &names, 0, text.as_str())?,
        rows: LAST,
        old: told(alloc, old, false)?,
        new: told(alloc, new, true)?,
    })
}

/// 120 rows are loaded, 110 deleted, which frees pages of records and of the tree, and then 100 are new: 10, and then 110. Free pages are taken first,
/// so where one is left no page was taken that never was before.
pub fn day_over_free_pages(rt: &impl Print, alloc: Global) -> Result<(), Stopped> {
    let mut device = framed(alloc, Device::new(alloc))?;
    load(alloc, &mut device)?;
    delete(alloc, &mut device)?;
    let case = addition(alloc)?;
    must_answer(alloc, &mut device, LAST, &case.old)?;
    let before = root_of(&mut device)?;
    check(before.free != 0, Wrong::FreePages)?;
    let mut base = left_by_stop(alloc, device.station(), 0, 255)?;
    let _left = each_stop(alloc, base.station(), &case, &STOPS)?;
    must_make(alloc, &mut base, &case)?;
    must_answer(alloc, &mut base, LAST, &case.new)?;
    let root = root_of(&mut base)?;
    check(root.free != before.free, Wrong::FreePages)?;
    check(
        root.free == 0 || root.fresh == before.fresh,
        Wrong::FreePages,
    )?;
    printed(println!(rt;
        "a day over free pages takes them first; stopped at each call, with 3 outcomes, it leaves the 10 rows of before or the 110 of after"
    ))
}
