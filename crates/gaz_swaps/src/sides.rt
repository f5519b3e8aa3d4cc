//! Loads one after another: each in the area that isn't in use.
use crate::changes::{Change, day_after, first_load, must, must_answer, other_load, shelf_of};
use crate::device::{Device, framed, left_by_stop};
use crate::mirrors::{change, opened};
use crate::stopped::{Stopped, Wrong, check, printed};
use gaz_framed::Framed;
use gaz_page::Side;
use gaz_pages::Mirror;
use std::alloc::Global;
use std::io::Print;

/// Makes a change of a mirror whose pages then stand on this side.
fn make(
    alloc: Global,
    mirror: &mut Mirror,
    device: &mut Framed<Device>,
    case: &Change,
    side: Side,
) -> Result<(), Stopped> {
    let mut shelf = shelf_of(alloc, &case.files, 0)?;
    must(change(alloc, mirror, &mut shelf, device, case.request)?)?;
    let Some(root) = mirror.root() else {
        return Err(Stopped::Wrong(Wrong::Root));
    };
    check(root.side == side, Wrong::Root)?;
    check(mirror.date() == Some(root.day), Wrong::Root)?;
    let mut after = left_by_stop(alloc, device.station(), 0, 255)?;
    must_answer(alloc, &mut after, case.rows, &case.new)?;
    let found = opened(&mut after)?;
    check(found.root() == Some(root), Wrong::Root)
}

/// A load, a day, another load, the first one again, the day again and the other load again: the sides are Left from the first load, Right from the
/// second, Left from the third and Right from the last.
pub fn three_loads(rt: &impl Print, alloc: Global) -> Result<(), Stopped> {
    let first = first_load(alloc)?;
    let day = day_after(alloc)?;
    let other = other_load(alloc)?;
    let mut device = framed(alloc, Device::new(alloc))?;
    let mut mirror = opened(&mut device)?;
    make(alloc, &mut mirror, &mut device, &first, Side::Left)?;
    make(alloc, &mut mirror, &mut device, &day, Side::Left)?;
    make(alloc, &mut mirror, &mut device, &other, Side::Right)?;
    make(alloc, &mut mirror, &mut device, &first, Side::Left)?;
    make(alloc, &mut mirror, &mut device, &day, Side::Left)?;
    make(alloc, &mut mirror, &mut device, &other, Side::Right)?;
    check(device.station().is_fed(), Wrong::Starved)?;
    printed(println!(rt;
        "six loads and days by one mirror: each load stands on the side that wasn't in use, a day on the one that was, and an opening finds the same root"
    ))
}
