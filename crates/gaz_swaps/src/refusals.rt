//! Loads and days that are refused: all is as before.
use crate::asking::answers;
use crate::changes::{
    Change, Files, day_after, day_of, files_of, first_load, loaded, must, must_answer, shelf_of,
};
use crate::device::{Device, framed, left_by_stop};
use crate::mirrors::{Request, change, change_answers, opened};
use crate::stopped::{Stopped, Wrong, check, had, printed};
use crate::worked::{
    ADMIN1, ADMIN2, AFTER, ALT_DELETES, ALT_MODIFICATIONS, ALTERNATES, COUNTRIES, DELETES, DUMP,
    FIRST, File, LINKS, LOADED, MODIFICATIONS, OTHER,
};
use gaz_framed::Framed;
use gaz_num::{FileName, Reason};
use gaz_outside::Area;
use gaz_page::Side;
use gaz_pages::Mirror;
use gaz_rows::ChangeFault;
use std::alloc::Global;
use std::io::Print;

const ROW: &str = "9\tNine\tNine\t\t1\t2\tP\tPPL\tAA\t\t\t\t\t\t10\t\t\t\t2024-02-01\n";

/// A dump of which the last file lacks.
const WITHOUT_ADMIN2: &[File<'static>] = &[
    (DUMP, &[ROW]),
    (ALTERNATES, &[]),
    (LINKS, &[]),
    (COUNTRIES, &[]),
    (ADMIN1, &[]),
];

/// A dump of which the second line of the last file has too few columns.
const BAD_ADMIN2: &[File<'static>] = &[
    (DUMP, &[ROW]),
    (ALTERNATES, &["10\t9\tde\tNeun\n"]),
    (LINKS, &["9\t1\n"]),
    (COUNTRIES, &[]),
    (ADMIN1, &["AA.09\tNine\tNine\t9\n"]),
    (ADMIN2, &["AA.09.009\tNine\tNine\t9\n", "AA.09.010\tTen\n"]),
];

/// A day of which the last file lacks.
const WITHOUT_ALT_DELETES: &[File<'static>] = &[
    (MODIFICATIONS, &[ROW]),
    (DELETES, &["1\tOne\tgone\n"]),
    (ALT_MODIFICATIONS, &[]),
];

/// A day of which the only line of the last file has no id.
const BAD_ALT_DELETES: &[File<'static>] = &[
    (MODIFICATIONS, &[ROW]),
    (DELETES, &["1\tOne\tgone\n", "2\tTwo\tgone\n"]),
    (ALT_MODIFICATIONS, &["11\t9\tde\tNeun\n"]),
    (ALT_DELETES, &["none\t1\tEins\n"]),
];

/// The area of the pages of a mirror.
fn live_area(mirror: &Mirror) -> Option<Area> {
    match mirror.root() {
        None => None,
        Some(root) => match root.side {
            Side::Left => Some(Area::Left),
            Side::Right => Some(Area::Right),
        },
    }
}

/// Two devices read the same in an area, also after a stop.
fn is_same(device: &Device, before: &Device, area: Area) -> Result<bool, Stopped> {
    let after = device.after_stop(0, 255)?;
    Ok(device.area(area) == before.area(area) && after.area(area) == before.area(area))
}

/// Root, Mark and the area of the mirror's pages read as before.
fn check_same(device: &Device, before: &Device, mirror: &Mirror) -> Result<(), Stopped> {
    check(is_same(device, before, Area::Root)?, Wrong::Pages)?;
    check(is_same(device, before, Area::Mark)?, Wrong::Pages)?;
    match live_area(mirror) {
        Some(area) => check(is_same(device, before, area)?, Wrong::Pages),
        None => Ok(()),
    }
}

/// The request is refused so, and the mirror answers as before, with the same pages.
fn refused(
    alloc: Global,
    mirror: &mut Mirror,
    device: &mut Framed<Device>,
    case: &Change,
    request: Request,
    files: &[(String, Vec<u8>)],
    fault: ChangeFault,
) -> Result<(), Stopped> {
    let before = device.station().after_stop(0, 255)?;
    let mut shelf = shelf_of(alloc, files, 0)?;
    let answer = change_answers(alloc, mirror, &mut shelf, device, request)?;
    check(answer == Err(fault), Wrong::Cause)?;
    check_same(device.station(), &before, mirror)?;
    let text = answers(alloc, mirror, device, case.rows)?;
    check(text.as_slice() == case.old.as_slice(), Wrong::Answers)
}

/// After the refusals the change is made.
fn made_at_last(
    alloc: Global,
    mirror: &mut Mirror,
    device: &mut Framed<Device>,
    case: &Change,
) -> Result<(), Stopped> {
    let mut shelf = shelf_of(alloc, &case.files, 0)?;
    must(change(alloc, mirror, &mut shelf, device, case.request)?)?;
    let mut after = left_by_stop(alloc, device.station(), 0, 255)?;
    must_answer(alloc, &mut after, case.rows, &case.new)
}

/// Loads that are refused over a device with nothing on it, and over a loaded one. The causes: six files make a dump, a line of admin codes has four
/// columns, and a line has at most 65,535 bytes. Lines before the refused one went into the area that isn't in use, and no root names them.
pub fn loads(rt: &impl Print, alloc: Global) -> Result<(), Stopped> {
    let load = first_load(alloc)?;
    let day = day_after(alloc)?;
    let mut device = framed(alloc, Device::new(alloc))?;
    let mut mirror = opened(&mut device)?;
    refused_loads(alloc, &mut mirror, &mut device, &load)?;
    made_at_last(alloc, &mut mirror, &mut device, &load)?;
    refused_loads(alloc, &mut mirror, &mut device, &day)?;
    made_at_last(alloc, &mut mirror, &mut device, &day)?;
    printed(println!(rt;
        "loads that are refused for an absent file, a malformed line and a long one: the mirror and its pages are as before, and the next change is made"
    ))
}

/// A dump whose alternate names have a line of 65,536 bytes.
fn long_dump(alloc: Global) -> Result<Files, Stopped> {
    let mut files = files_of(alloc, BAD_ADMIN2)?;
    match files.get_mut(1) {
        Some(file) => file.1 = had(vec![in alloc; b'x'; 65_536])?,
        None => return Err(Stopped::Wrong(Wrong::Constant)),
    }
    Ok(files)
}

/// The loads that are refused over a mirror that answers as before this change.
fn refused_loads(
    alloc: Global,
    mirror: &mut Mirror,
    device: &mut Framed<Device>,
    case: &Change,
) -> Result<(), Stopped> {
    let load = Request::Load(day_of(OTHER)?);
    let without = files_of(alloc, WITHOUT_ADMIN2)?;
    let absent = ChangeFault::Absent(FileName::Admin2);
    refused(alloc, mirror, device, case, load, &without, absent)?;
    let bad = files_of(alloc, BAD_ADMIN2)?;
    let columns = ChangeFault::Malformed(FileName::Admin2, 2, Reason::Columns);
    refused(alloc, mirror, device, case, load, &bad, columns)?;
    let long = long_dump(alloc)?;
    let length = ChangeFault::Malformed(FileName::Alternates, 1, Reason::Length);
    refused(alloc, mirror, device, case, load, &long, length)
}

/// The day is refused where nothing is loaded, and then the load is made.
fn refused_unloaded_on(
    alloc: Global,
    mirror: &mut Mirror,
    device: &mut Framed<Device>,
    load: &Change,
    day: &Change,
) -> Result<(), Stopped> {
    let not_loaded = ChangeFault::NotLoaded;
    refused(
        alloc,
        mirror,
        device,
        load,
        day.request,
        &day.files,
        not_loaded,
    )?;
    made_at_last(alloc, mirror, device, load)
}

/// The same over a new device.
fn refused_unloaded(alloc: Global, day: &Change) -> Result<(), Stopped> {
    let load = first_load(alloc)?;
    let mut device = framed(alloc, Device::new(alloc))?;
    match opened(&mut device) {
        Ok(mut mirror) => refused_unloaded_on(alloc, &mut mirror, &mut device, &load, day),
        Err(stopped) => Err(stopped),
    }
}

/// The day is refused at other dates than that after the load.
fn refused_dates(
    alloc: Global,
    mirror: &mut Mirror,
    device: &mut Framed<Device>,
    day: &Change,
) -> Result<(), Stopped> {
    let sequence = ChangeFault::Sequence(day_of(FIRST)?);
    for date in [FIRST, "2024-02-29", "2024-03-03", OTHER] {
        let wrong = Request::Day(day_of(date)?);
        refused(alloc, mirror, device, day, wrong, &day.files, sequence)?;
    }
    Ok(())
}

/// Days that are refused over a device with nothing on it, and over a loaded one. The causes: a day is that after the gazetteer's date, four files make
/// one, and a line that deletes begins with an id. What its earlier lines changed was in memory alone.
pub fn days(rt: &impl Print, alloc: Global) -> Result<(), Stopped> {
    let day = day_after(alloc)?;
    refused_unloaded(alloc, &day)?;
    let mut device = framed(alloc, loaded(alloc)?)?;
    let mut mirror = opened(&mut device)?;
    refused_dates(alloc, &mut mirror, &mut device, &day)?;
    let after = day_of(AFTER)?;
    let without = files_of(alloc, WITHOUT_ALT_DELETES)?;
    let absent = ChangeFault::Absent(FileName::AltDeletes(after));
    refused(
        alloc,
        &mut mirror,
        &mut device,
        &day,
        day.request,
        &without,
        absent,
    )?;
    let bad = files_of(alloc, BAD_ALT_DELETES)?;
    let id = ChangeFault::Malformed(FileName::AltDeletes(after), 1, Reason::Id);
    refused(alloc, &mut mirror, &mut device, &day, day.request, &bad, id)?;
    made_at_last(alloc, &mut mirror, &mut device, &day)?;
    printed(println!(rt;
        "days that are refused for want of a load, four other dates, an absent file and a malformed line: the mirror and its pages are as before, and the day is made"
    ))
}
