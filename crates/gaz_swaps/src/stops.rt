//! A stop at each call of the station, and what it leaves.
use crate::asking::answers_on;
use crate::changes::{Change, day_after, first_load, loaded, other_load, shelf_of};
use crate::device::{Device, framed, left_by_stop};
use crate::mirrors::{Outcome, change, opened_bare};
use crate::stopped::{Stopped, Wrong, check, printed};
use gaz_pages::Mirror;
use std::alloc::Global;
use std::io::Print;

/// How many writes a stop keeps, and the byte with which it fills the range of the next: 9 outcomes of each stop.
pub const STOPS: [(u64, u8); 9] = [
    (0, 0),
    (0, 1),
    (0, 255),
    (1, 0),
    (1, 1),
    (1, 255),
    (2, 0),
    (2, 1),
    (2, 255),
];

/// More calls than any change here makes.
pub const MOST_CALLS: u64 = 10_000;

/// How many stops left the old gazetteer, and how many the new one.
#[derive(Clone, Copy)]
pub struct Left {
    pub old: u64,
    pub new: u64,
}

/// Whether the answers are those of the new gazetteer; else they are those of the old one.
fn is_new(text: &[u8], case: &Change) -> Result<bool, Stopped> {
    if text == case.new.as_slice() {
        return Ok(true);
    }
    check(text == case.old.as_slice(), Wrong::Mixture)?;
    Ok(false)
}

/// A stop now leaves the old gazetteer or the new one, and the new one where the change was made.
pub fn check_stop(
    alloc: Global,
    device: &Device,
    case: &Change,
    is_made: bool,
    (keep, fill): (u64, u8),
    left: &mut Left,
) -> Result<(), Stopped> {
    let mut after = left_by_stop(alloc, device, keep, fill)?;
    let text = answers_on(alloc, &mut after, case.rows)?;
    if is_new(&text, case)? {
        left.new = left.new.saturating_add(1);
    } else {
        check(!is_made, Wrong::Lost)?;
        left.old = left.old.saturating_add(1);
    }
    check(after.station().is_fed(), Wrong::Starved)
}

fn check_stops(
    alloc: Global,
    device: &Device,
    case: &Change,
    is_made: bool,
    stops: &[(u64, u8)],
    left: &mut Left,
) -> Result<(), Stopped> {
    for stop in stops {
        check_stop(alloc, device, case, is_made, *stop, left)?;
    }
    Ok(())
}

/// Whether a change was made. If not, then since a call of the station failed.
fn is_made(outcome: Outcome) -> Result<bool, Stopped> {
    match outcome {
        Outcome::Made => Ok(true),
        Outcome::Station => Ok(false),
        Outcome::Refused => Err(Stopped::Wrong(Wrong::Cause)),
    }
}

/// Makes the change over the device, whatever becomes of its calls, and gives the device back with whether it was made.
pub fn tried(
    alloc: Global,
    mirror: &mut Mirror,
    device: Device,
    case: &Change,
) -> Result<(Device, bool), Stopped> {
    let mut shelf = shelf_of(alloc, &case.files, 0)?;
    let mut framed = framed(alloc, device)?;
    let made = is_made(change(alloc, mirror, &mut shelf, &mut framed, case.request)?)?;
    Ok((framed.into_station(), made))
}

/// Makes the change over the device, which stops after so many calls of it, and gives the device back with whether it was made.
fn stopped_after(
    alloc: Global,
    device: Device,
    case: &Change,
    calls: u64,
) -> Result<(Device, bool), Stopped> {
    let (mut mirror, mut device) = opened_bare(alloc, device)?;
    device.stop_after(calls);
    tried(alloc, &mut mirror, device, case)
}

/// Stops the change at each of its calls, until it is made, and answers how many stops left what.
pub fn each_stop(
    alloc: Global,
    base: &Device,
    case: &Change,
    stops: &[(u64, u8)],
) -> Result<Left, Stopped> {
    let mut left = Left { old: 0, new: 0 };
    for calls in 0..MOST_CALLS {
        let (device, is_made) = stopped_after(alloc, base.after_stop(0, 255)?, case, calls)?;
        check_stops(alloc, &device, case, is_made, stops, &mut left)?;
        check(device.is_fed(), Wrong::Starved)?;
        if is_made {
            check(left.old > 0 && left.new > 0, Wrong::Stops)?;
            return Ok(left);
        }
    }
    Err(Stopped::Wrong(Wrong::Calls))
}

/// The root page is committed at once and names pages that are synced, so a stop leaves no root, and then nothing is loaded, or the whole load.
pub fn first_load_stops(rt: &impl Print, alloc: Global) -> Result<(), Stopped> {
    let _left = each_stop(alloc, &Device::new(alloc), &first_load(alloc)?, &STOPS)?;
    printed(println!(rt;
        "a first load stopped at each call of the station, each stop with 9 outcomes: nothing is loaded, or all is"
    ))
}

/// The pages of the second load go into the area that the root doesn't name, so up to the commit of the root the first load stands.
pub fn second_load_stops(rt: &impl Print, alloc: Global) -> Result<(), Stopped> {
    let _left = each_stop(alloc, &loaded(alloc)?, &other_load(alloc)?, &STOPS)?;
    printed(println!(rt;
        "a second load stopped at each call, with 9 outcomes: the old gazetteer or the new one, never a mixture"
    ))
}

/// The pages of the day are committed with the root at once, so no stop leaves some of its lines. `NEXT` has every kind of change.
pub fn day_stops(rt: &impl Print, alloc: Global) -> Result<(), Stopped> {
    let _left = each_stop(alloc, &loaded(alloc)?, &day_after(alloc)?, &STOPS)?;
    printed(println!(rt;
        "a day with each kind of change stopped at each call, with 9 outcomes: the old gazetteer or the new one, never a mixture"
    ))
}
