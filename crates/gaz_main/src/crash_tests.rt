//! Runs of a load and a day that are stopped, and what later runs find.
use crate::runs::{
    CALLS, REPLIES, REQUESTS, STOPS, acknowledged, are_kept, changes_after, changes_found, serve_on,
};
use crate::worked::station_of;
use gaz_outside::{Area, MemStation};
use std::alloc::{AllocError, Global};
use std::process::Abort;
use std::test::Fail;

/// A new station that was stopped after so many calls of a run, and the status of the run.
fn stopped_after(alloc: Global, calls: u64) -> Result<(MemStation, u8), AllocError> {
    let mut station = station_of(alloc, &[])?;
    station.stop_after(calls);
    serve_on(alloc, station, REQUESTS)
}

/// The opening makes 7 calls, the load and its acknowledgement 11. The day reads two pages, writes the log and syncs it; so its
/// fifth call, the write that opens the gate, is the 23rd of the run.
const GATE: u64 = 23;

#[test]
fn stop_in_the_write_that_opens_the_gate_leaves_the_day_where_the_byte_is_1(
    rt: HostRuntime,
) -> Result<(), Fail> {
    let alloc = rt.alloc();
    let (before, _) = stopped_after(alloc, GATE - 1)?;
    assert_eq!(rt; before.area(Area::Mark), b"\0".as_slice());
    let (station, _) = stopped_after(alloc, GATE)?;
    assert_eq!(rt; station.area(Area::Mark), b"\x01".as_slice());
    for fill in 0..=255 {
        for keep in [0, 1] {
            let changes = if keep == 1 || fill == 1 { 2 } else { 1 };
            assert_eq!(rt;
                changes_after(alloc, &station, keep, fill)?,
                Some(changes),
                "{keep} kept, {fill} filled"
            );
        }
    }
    Ok(())
}

/// Stops a run without requests at each of its calls, and expects so many changes of each run after it. It answers how many
/// calls the run makes.
fn calls_of_an_opening(
    rt: &impl Abort,
    alloc: Global,
    station: &MemStation,
    fill: u8,
    changes: u64,
) -> Result<Option<u64>, Fail> {
    for calls in 0..100 {
        let mut first = station.after_stop(0, fill)?;
        first.stop_after(calls);
        let (opened, status) = serve_on(alloc, first, b"")?;
        for (keep, next_fill) in STOPS {
            assert_eq!(rt;
                changes_after(alloc, &opened, keep, next_fill)?,
                Some(changes),
                "filled {fill}, {calls} calls, then {keep} kept, {next_fill} filled"
            );
        }
        if status == 0 {
            return Ok(Some(calls));
        }
        assert_eq!(rt; status, 3, "filled {fill}, {calls} calls");
    }
    Ok(None)
}

/// With a closed gate the opening makes eight calls: it syncs five areas, reads the gate, asks for the length of Root and reads its
/// page. It reads nothing of the gazetteer.
#[test]
fn stops_in_the_opening_after_a_stop_change_nothing(rt: HostRuntime) -> Result<(), Fail> {
    let alloc = rt.alloc();
    let (station, _) = stopped_after(alloc, GATE)?;
    assert_eq!(rt; calls_of_an_opening(&rt, alloc, &station, 0, 1)?, Some(8));
    assert_eq!(rt; calls_of_an_opening(&rt, alloc, &station, 255, 1)?, Some(8));
    assert!(rt; calls_of_an_opening(&rt, alloc, &station, 1, 2)?.is_some());
    Ok(())
}

#[test]
fn stop_at_any_call_leaves_what_was_acknowledged_or_one_change_more(
    rt: HostRuntime,
) -> Result<(), Fail> {
    let alloc = rt.alloc();
    for calls in 0..=CALLS {
        let (station, status) = stopped_after(alloc, calls)?;
        assert_eq!(rt; status, if calls < CALLS { 3 } else { 0 }, "{calls} calls");
        assert!(rt; REPLIES.starts_with(station.printed()), "{calls} calls");
        assert_eq!(rt;
            station.printed() == REPLIES,
            calls == CALLS,
            "{calls} calls"
        );
        let told = acknowledged(station.printed());
        for (keep, fill) in STOPS {
            assert!(rt;
                are_kept(changes_after(alloc, &station, keep, fill)?, told),
                "{calls} calls, {keep} kept, {fill} filled"
            );
        }
    }
    Ok(())
}

/// Whatever a stop left, the next run can begin anew and have all of it.
#[test]
fn changes_can_be_made_again_after_a_stop(rt: HostRuntime) -> Result<(), Fail> {
    let alloc = rt.alloc();
    for calls in 0..=CALLS {
        let (station, _) = stopped_after(alloc, calls)?;
        for (keep, fill) in STOPS {
            let before = station.printed().len();
            let (after, again) = serve_on(alloc, station.after_stop(keep, fill)?, REQUESTS)?;
            assert_eq!(rt; again, 0, "{calls} calls, {keep} kept, {fill} filled");
            assert_eq!(rt;
                after.printed().get(before..),
                Some(REPLIES),
                "{calls} calls, {keep} kept, {fill} filled"
            );
            assert_eq!(rt; changes_found(alloc, after)?, Some(2));
        }
    }
    Ok(())
}
