//! Runs of a load, a day and two gets in which one call fails, and what the next run finds.
use crate::runs::{
    CALLS, FILES, REPLIES, REQUESTS, acknowledged, are_kept, changes_after, changes_found,
    is_synced, replies_within, run_on, serve_on,
};
use crate::worked::{
    ADMIN1, ADMIN2, ALT_DELETES, ALT_MODIFICATIONS, ALTERNATES, B2, C3, COUNTRIES, DELETES, DUMP,
    LINKS, MODIFICATIONS, OneByte, joined, shelf_of, source_of, station_of,
};
use gaz_outside::{MemStation, Source};
use std::alloc::{AllocError, Global};
use std::process::Abort;
use std::test::Fail;

#[test]
fn each_call_of_the_station_that_fails_ends_the_run_with_3(rt: HostRuntime) -> Result<(), Fail> {
    let alloc = rt.alloc();
    for call in 1..=CALLS + 1 {
        let (station, status) = serve_on(alloc, station_of(alloc, &[call])?, REQUESTS)?;
        assert_eq!(rt; status, if call <= CALLS { 3 } else { 0 }, "call {call}");
        assert!(rt; REPLIES.starts_with(station.printed()), "call {call}");
        assert_eq!(rt; station.printed() == REPLIES, call > CALLS, "call {call}");
        let found = changes_after(alloc, &station, 0, 255)?;
        assert!(rt;
            are_kept(found, acknowledged(station.printed())),
            "call {call}"
        );
    }
    Ok(())
}

/// Runs the requests over a shelf of which one call fails, and answers the station and the status.
fn run_over_a_failing_shelf(alloc: Global, call: u64) -> Result<(MemStation, u8), AllocError> {
    let mut source = source_of(alloc, REQUESTS, &[])?;
    let mut shelf = shelf_of(alloc, FILES, &[call])?;
    let station = station_of(alloc, &[])?;
    run_on(alloc, "serve", &mut source, &mut shelf, station)
}

/// What is told where this file can't be read, which is one of the load where no change is made, and else one of the day.
fn told_without(alloc: Global, file: &str, changes: u64) -> Result<Vec<u8>, AllocError> {
    if changes == 0 {
        joined(
            alloc,
            &[
                "refused shelf ",
                file,
                "\nrefused notloaded\nrefused notloaded\nrefused notloaded\n",
            ],
        )
    } else {
        joined(
            alloc,
            &[
                "ok load 2024-03-01\nrefused shelf ",
                file,
                "\n",
                B2,
                "ok 1\n",
                C3,
                "ok 1\n",
            ],
        )
    }
}

/// The calls of the shelf: a load and a day open their files, and then read each twice, up to its end.
const SHELF_CALLS: [(u64, &str, u64); 30] = [
    (1, DUMP, 0),
    (2, ALTERNATES, 0),
    (3, LINKS, 0),
    (4, COUNTRIES, 0),
    (5, ADMIN1, 0),
    (6, ADMIN2, 0),
    (7, DUMP, 0),
    (8, DUMP, 0),
    (9, ALTERNATES, 0),
    (10, ALTERNATES, 0),
    (11, LINKS, 0),
    (12, LINKS, 0),
    (13, COUNTRIES, 0),
    (14, COUNTRIES, 0),
    (15, ADMIN1, 0),
    (16, ADMIN1, 0),
    (17, ADMIN2, 0),
    (18, ADMIN2, 0),
    (19, MODIFICATIONS, 1),
    (20, DELETES, 1),
    (21, ALT_MODIFICATIONS, 1),
    (22, ALT_DELETES, 1),
    (23, MODIFICATIONS, 1),
    (24, MODIFICATIONS, 1),
    (25, DELETES, 1),
    (26, DELETES, 1),
    (27, ALT_MODIFICATIONS, 1),
    (28, ALT_MODIFICATIONS, 1),
    (29, ALT_DELETES, 1),
    (30, ALT_DELETES, 1),
];

/// The run over a shelf whose call with this number fails tells this text, and leaves so many changes.
fn expect_told(
    rt: &impl Abort,
    alloc: Global,
    call: u64,
    text: &[u8],
    changes: u64,
) -> Result<(), Fail> {
    let (station, status) = run_over_a_failing_shelf(alloc, call)?;
    assert_eq!(rt; status, 0, "call {call}");
    assert_eq!(rt; station.printed(), text, "call {call}");
    assert!(rt; is_synced(&station)?, "call {call}");
    assert_eq!(rt;
        changes_found(alloc, station)?,
        Some(changes),
        "call {call}"
    );
    Ok(())
}

#[test]
fn each_call_of_the_shelf_that_fails_refuses_its_request_alone(
    rt: HostRuntime,
) -> Result<(), Fail> {
    let alloc = rt.alloc();
    for (call, file, changes) in SHELF_CALLS {
        let text = told_without(alloc, file, changes)?;
        expect_told(&rt, alloc, call, &text, changes)?;
    }
    expect_told(&rt, alloc, 31, REPLIES, 2)
}

/// Runs the requests over this source, and answers the station and the status.
fn run_over<S: Source>(alloc: Global, source: &mut S) -> Result<(MemStation, u8), AllocError> {
    let mut shelf = shelf_of(alloc, FILES, &[])?;
    let station = station_of(alloc, &[])?;
    run_on(alloc, "serve", source, &mut shelf, station)
}

/// After so many bytes of the requests were taken and the next call failed: the run ended with 4, each request that was taken
/// whole was answered, and the next run finds exactly what was acknowledged, on the station and on what a stop leaves of it.
fn expect_ended(
    rt: &impl Abort,
    alloc: Global,
    station: MemStation,
    status: u8,
    taken: usize,
) -> Result<(), Fail> {
    assert_eq!(rt; status, 4, "{taken} bytes taken");
    assert_eq!(rt;
        station.printed(),
        replies_within(taken),
        "{taken} bytes taken"
    );
    let changes = acknowledged(station.printed());
    assert!(rt; is_synced(&station)?, "{taken} bytes taken");
    let found = changes_found(alloc, station)?;
    assert_eq!(rt; found, Some(changes), "{taken} bytes taken");
    Ok(())
}

#[test]
fn each_call_of_the_source_that_fails_ends_the_run_with_4(rt: HostRuntime) -> Result<(), Fail> {
    let alloc = rt.alloc();
    for taken in 0..=REQUESTS.len() {
        let mut source = OneByte::new(alloc, REQUESTS, &[taken as u64 + 1])?;
        let (station, status) = run_over(alloc, &mut source)?;
        expect_ended(&rt, alloc, station, status, taken)?;
    }
    for (call, taken) in [(1, 0), (2, REQUESTS.len())] {
        let (station, status) = run_over(alloc, &mut source_of(alloc, REQUESTS, &[call])?)?;
        expect_ended(&rt, alloc, station, status, taken)?;
    }
    Ok(())
}
