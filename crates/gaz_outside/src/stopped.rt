//! What a stop leaves of a station in memory.
ghost use Rattle.std.specs.Prelude.{◌≡◌, ◌+◌, ◌^◌, ◌<◌, ◌≤◌, ◌≢◌, ℕ, length, reverse, [], Some, slice_get, OnOk, IfOk};
ghost use Rattle.gaz_outside.specs.declared.station.Area.{Area};
ghost use Rattle.gaz_outside.specs.declared.event.Event.{Event};
ghost use Rattle.gaz_outside.specs.Events.{area_bytes};
ghost use Rattle.gaz_outside.specs.Stopped.{is_synced, end_of, count_unsynced, left_of_write, left_of_event, stopped};

use crate::Area;
use crate::areas::Areas;
use crate::event::Event;
use std::alloc::{AllocError, Global};

/// Whether one of these is a sync of the area.
fn is_synced_in(events: &[Event], area: Area) -> bool
    ensures { result ≡ is_synced events.now area }
{
    events.iter().any(|event| event.syncs(area))
}

/// Puts what is left of a write.
fn put_part(
    alloc: Global,
    areas: &mut Areas,
    area: Area,
    at: u64,
    bytes: &[u8],
    is_whole: bool,
    is_next: bool,
    fill: u8,
) -> Result<(), AllocError>
    requires { at + length bytes.now < 2 ^ 64 }
    ensures here { OnOk result (area_bytes areas.new area ≡ left_of_write is_whole is_next fill at bytes.now (area_bytes areas.old area)) }
    ensures others { OnOk result ((a : Area) → a ≢ area → area_bytes areas.new a ≡ area_bytes areas.old a) }
{
    if is_whole {
        return areas.put(area, at, bytes);
    }
    if is_next {
        let filled = vec![in alloc; fill; bytes.len()]?;
        return areas.put(area, at, &filled);
    }
    Ok(())
}

/// Puts what is left of one more event, and counts the writes that weren't synced.
fn put_event(
    alloc: Global,
    areas: &mut Areas,
    count: &mut usize,
    event: &Event,
    later: &[Event],
    keep: u64,
    fill: u8,
) -> Result<(), AllocError>
    requires ends { end_of event.now < 2 ^ 64 }
    requires counts { count.old + 1 < 2 ^ 64 }
    ensures areas { OnOk result ((a : Area) → area_bytes areas.new a ≡ left_of_event keep fill event.now later.now count.old a (area_bytes areas.old a)) }
    ensures count { OnOk result (count.new ≡ count_unsynced event.now later.now count.old) }
    ensures grows { OnOk result (count.new ≤ count.old + 1) }
{
    match event {
        Event::Began(begun, _) => {
            *areas = begun.copy(alloc)?;
            *count = 0;
        }
        Event::Wrote(area, at, bytes) => {
            let is_synced = is_synced_in(later, *area);
            let is_whole = is_synced || (*count as u64) < keep;
            let is_next = *count as u64 == keep;
            put_part(alloc, areas, *area, *at, bytes, is_whole, is_next, fill)?;
            if !is_synced {
                *count += 1;
            }
        }
        Event::Synced(_) | Event::Printed(_) => {}
    }
    Ok(())
}

/// The areas as a stop leaves them, where of the writes that weren't synced the first `keep` are whole, the next one's range
/// has the fill byte, and the later ones aren't there.
pub(crate) fn stopped_areas(
    alloc: Global,
    events: &[Event],
    keep: u64,
    fill: u8,
) -> Result<Areas, AllocError>
    requires { (place : ℕ) (event : Event) → slice_get events.now place ≡ Some event → end_of event < 2 ^ 64 }
    ensures { IfOk result (λ areas. (a : Area) → area_bytes areas a ≡ stopped keep fill (reverse events.now) [] a) }
{
    let mut areas = Areas::new(alloc);
    let mut count = 0;
    for place in 0..events.len() {
        put_event(
            alloc,
            &mut areas,
            &mut count,
            &events[place],
            &events[place + 1..],
            keep,
            fill,
        )?;
    }
    Ok(areas)
}
