//! Each call of the station and of the shelf fails in turn.
use crate::asking::answers;
use crate::changes::{Change, day_after, day_of, first_load, loaded, must, must_answer, shelf_of};
use crate::device::{Device, left_by_stop};
use crate::mirrors::{change, change_answers, opened, opened_bare};
use crate::stopped::{Stopped, Wrong, check, printed};
use crate::stops::{Left, MOST_CALLS, STOPS, check_stop, tried};
use crate::worked::AFTER;
use gaz_framed::Framed;
use gaz_num::FileName;
use gaz_pages::Mirror;
use gaz_rows::ChangeFault;
use std::alloc::Global;
use std::io::Print;

/// Makes the change over the device, of which the call with this number fails, and gives the device back with whether it was made.
fn failed_at(
    alloc: Global,
    device: Device,
    case: &Change,
    call: u64,
) -> Result<(Device, bool), Stopped> {
    let (mut mirror, mut device) = opened_bare(alloc, device)?;
    device.fail_at(call);
    tried(alloc, &mut mirror, device, case)
}

/// What such a device has is the old gazetteer or the new one, also after a stop.
fn check_left(alloc: Global, device: &Device, case: &Change, is_made: bool) -> Result<(), Stopped> {
    let mut left = Left { old: 0, new: 0 };
    for stop in STOPS {
        check_stop(alloc, device, case, is_made, stop, &mut left)?;
    }
    // All writes are kept: the device as it reads.
    check_stop(alloc, device, case, is_made, (u64::MAX, 0), &mut left)
}

/// Each call of the station fails in turn.
fn each_call(alloc: Global, base: &Device, case: &Change) -> Result<(), Stopped> {
    for call in 1..MOST_CALLS {
        let (device, is_made) = failed_at(alloc, base.after_stop(0, 255)?, case, call)?;
        check_left(alloc, &device, case, is_made)?;
        if is_made {
            check(device.is_to_fail(), Wrong::Calls)?;
            return check(call > 1, Wrong::Calls);
        }
    }
    Err(Stopped::Wrong(Wrong::Calls))
}

/// A call that fails is the last one that the load makes, so its pages, or its commit, are left as by a stop there.
pub fn station_of_a_load(rt: &impl Print, alloc: Global) -> Result<(), Stopped> {
    each_call(alloc, &Device::new(alloc), &first_load(alloc)?)?;
    printed(println!(rt;
        "a load of which each call of the station fails in turn: each answers Station, and leaves the old gazetteer or the new one"
    ))
}

/// The same of a day. Behind the open gate the new gazetteer is left, though the answer is `Station`.
pub fn station_of_a_day(rt: &impl Print, alloc: Global) -> Result<(), Stopped> {
    each_call(alloc, &loaded(alloc)?, &day_after(alloc)?)?;
    printed(println!(rt;
        "a day of which each call of the station fails in turn: each answers Station, and leaves the old gazetteer or the new one"
    ))
}

/// A mirror answers this, and so does what a stop leaves of it.
fn must_hold(
    alloc: Global,
    mirror: &Mirror,
    device: &mut Framed<Device>,
    case: &Change,
    wanted: &[u8],
) -> Result<(), Stopped> {
    let text = answers(alloc, mirror, device, case.rows)?;
    check(text.as_slice() == wanted, Wrong::Answers)?;
    let mut after = left_by_stop(alloc, device.station(), 0, 255)?;
    must_answer(alloc, &mut after, case.rows, wanted)
}

/// The call of the shelf with this number fails, for which this file is to be blamed. The next try succeeds.
fn shelf_call_on(
    alloc: Global,
    mirror: &mut Mirror,
    device: &mut Framed<Device>,
    case: &Change,
    call: u64,
    name: FileName,
) -> Result<(), Stopped> {
    let mut shelf = shelf_of(alloc, &case.files, call)?;
    let answer = change_answers(alloc, mirror, &mut shelf, device, case.request)?;
    check(answer == Err(ChangeFault::Shelf(name)), Wrong::Cause)?;
    must_hold(alloc, mirror, device, case, &case.old)?;
    must(change(alloc, mirror, &mut shelf, device, case.request)?)?;
    must_hold(alloc, mirror, device, case, &case.new)
}

/// The same over a device as this one is.
fn shelf_call(
    alloc: Global,
    base: &Device,
    case: &Change,
    call: u64,
    name: FileName,
) -> Result<(), Stopped> {
    let mut device = left_by_stop(alloc, base, 0, 255)?;
    match opened(&mut device) {
        Ok(mut mirror) => shelf_call_on(alloc, &mut mirror, &mut device, case, call, name),
        Err(stopped) => Err(stopped),
    }
}

/// The call of the shelf with this number would fail, and isn't made: so is the change.
fn no_shelf_call_on(
    alloc: Global,
    mirror: &mut Mirror,
    device: &mut Framed<Device>,
    case: &Change,
    call: u64,
) -> Result<(), Stopped> {
    let mut shelf = shelf_of(alloc, &case.files, call)?;
    must(change(alloc, mirror, &mut shelf, device, case.request)?)?;
    must_hold(alloc, mirror, device, case, &case.new)
}

/// All files are opened, in order, and then each is read twice, up to its end.
fn each_shelf_call(
    alloc: Global,
    base: &Device,
    case: &Change,
    blamed: &[FileName],
) -> Result<(), Stopped> {
    let mut call: u64 = 0;
    for name in blamed {
        call = call.saturating_add(1);
        shelf_call(alloc, base, case, call, *name)?;
    }
    // No call is behind these: the change is made.
    let mut device = left_by_stop(alloc, base, 0, 255)?;
    match opened(&mut device) {
        Ok(mut mirror) => {
            no_shelf_call_on(
                alloc,
                &mut mirror,
                &mut device,
                case,
                call.saturating_add(1),
            )
        }
        Err(stopped) => Err(stopped),
    }
}

/// Six openings, and two reads of each file, one that gives its bytes and one that gives none, are 18 calls. The device wasn't written but for the
/// area that no root names, and the files are closed, so the mirror is as before and takes the load when it is tried again.
pub fn shelf_of_a_load(rt: &impl Print, alloc: Global) -> Result<(), Stopped> {
    let blamed = [
        FileName::Rows,
        FileName::Alternates,
        FileName::Links,
        FileName::Countries,
        FileName::Admin1,
        FileName::Admin2,
        FileName::Rows,
        FileName::Rows,
        FileName::Alternates,
        FileName::Alternates,
        FileName::Links,
        FileName::Links,
        FileName::Countries,
        FileName::Countries,
        FileName::Admin1,
        FileName::Admin1,
        FileName::Admin2,
        FileName::Admin2,
    ];
    each_shelf_call(alloc, &Device::new(alloc), &first_load(alloc)?, &blamed)?;
    printed(println!(rt;
        "a load of which each of 18 calls of the shelf fails in turn: each answers Shelf with the file, and the next try succeeds"
    ))
}

/// Four openings and two reads of each of the four files are 12 calls.
pub fn shelf_of_a_day(rt: &impl Print, alloc: Global) -> Result<(), Stopped> {
    let date = day_of(AFTER)?;
    let blamed = [
        FileName::Modifications(date),
        FileName::Deletes(date),
        FileName::AltModifications(date),
        FileName::AltDeletes(date),
        FileName::Modifications(date),
        FileName::Modifications(date),
        FileName::Deletes(date),
        FileName::Deletes(date),
        FileName::AltModifications(date),
        FileName::AltModifications(date),
        FileName::AltDeletes(date),
        FileName::AltDeletes(date),
    ];
    each_shelf_call(alloc, &loaded(alloc)?, &day_after(alloc)?, &blamed)?;
    printed(println!(rt;
        "a day of which each of 12 calls of the shelf fails in turn: each answers Shelf with the file, and the next try succeeds"
    ))
}
