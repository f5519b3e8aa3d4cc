//! Runs during which the files in the folder change: each request meets them as they are during it.
use crate::runs::{FILES, run_on};
use crate::worked::{
    A1, ADMIN1, ADMIN2, ALT_DELETES, ALT_MODIFICATIONS, ALTERNATES, B2, COUNTRIES, DELETES, DUMP,
    File, LINKS, MODIFICATIONS, X2, joined, source_of, station_of,
};
use gaz_outside::{MemShelf, MemStation};
use std::alloc::{AllocError, Global};
use std::test::Fail;

/// Files by their names, with their bytes.
type Listed = Vec<(String, Vec<u8>)>;

/// These files.
fn listed(alloc: Global, files: &[File<'_>]) -> Result<Listed, AllocError> {
    let mut all = Vec::new(alloc);
    for (name, pieces) in files {
        all.push((String::from_str(alloc, name)?, joined(alloc, pieces)?))?;
    }
    Ok(all)
}

/// The files of a load that are empty here.
const EMPTY: [&str; 5] = [ALTERNATES, LINKS, COUNTRIES, ADMIN1, ADMIN2];

/// The files of a load, with this dump and nothing else.
fn dump_alone(alloc: Global, dump: &[&str]) -> Result<Listed, AllocError> {
    let mut all = Vec::new(alloc);
    all.push((String::from_str(alloc, DUMP)?, joined(alloc, dump)?))?;
    for name in &EMPTY {
        all.push((String::from_str(alloc, name)?, Vec::new(alloc)))?;
    }
    Ok(all)
}

/// Runs these requests over a shelf that has the first of these files, and after each request that opens files the next ones.
fn run_over(
    alloc: Global,
    first: Listed,
    later: Vec<Listed>,
    requests: &[u8],
) -> Result<(MemStation, u8), AllocError> {
    let mut source = source_of(alloc, requests, &[])?;
    let mut shelf = MemShelf::changing(first, later, Vec::new(alloc))?;
    let station = station_of(alloc, &[])?;
    run_on(alloc, "serve", &mut source, &mut shelf, station)
}

/// A day's files come between two requests of one run, one after another.
#[test]
fn files_of_a_day_come_between_two_requests(rt: HostRuntime) -> Result<(), Fail> {
    let alloc = rt.alloc();
    let all: &[File<'_>] = &[
        (MODIFICATIONS, &[X2]),
        (DELETES, &[]),
        (ALT_MODIFICATIONS, &[]),
        (ALT_DELETES, &[]),
    ];
    let mut later = Vec::new(alloc);
    for count in 0..=all.len() {
        later.push(listed(alloc, &all[..count])?)?;
    }
    let (station, status) = run_over(
        alloc,
        dump_alone(alloc, &[A1, B2])?,
        later,
        b"load 2024-03-01\nday 2024-03-02\nday 2024-03-02\nday 2024-03-02\nday 2024-03-02\nday 2024-03-02\nget 2\n",
    )?;
    assert_eq!(rt; status, 0);
    assert_eq!(rt;
        station.printed(),
        b"ok load 2024-03-01\nrefused absent modifications-2024-03-02.txt\nrefused absent deletes-2024-03-02.txt\nrefused absent alternateNamesModifications-2024-03-02.txt\nrefused absent alternateNamesDeletes-2024-03-02.txt\nok day 2024-03-02\n2\tX\t\t\t0\t0\tP\tPPL\tAA\t\t\t\t\t\t9\t\t\t\t2024-02-01\nok 1\n".as_slice()
    );
    Ok(())
}

/// A dump is replaced between two loads, and is gone at the third.
#[test]
fn dump_is_replaced_between_two_loads(rt: HostRuntime) -> Result<(), Fail> {
    let alloc = rt.alloc();
    let mut later = Vec::new(alloc);
    later.push(dump_alone(alloc, &[X2])?)?;
    later.push(Vec::new(alloc))?;
    let (station, status) = run_over(
        alloc,
        listed(alloc, FILES)?,
        later,
        b"load 2024-03-01\nget 1\nload 2024-03-02\nget 1\nget 2\nload 2024-03-03\nget 2\n",
    )?;
    assert_eq!(rt; status, 0);
    assert_eq!(rt;
        station.printed(),
        b"ok load 2024-03-01\n1\tA\t\t\t0\t0\tP\tPPL\tAA\t\t\t\t\t\t1\t\t\t\t2024-02-01\nok 1\nok load 2024-03-02\nok 0\n2\tX\t\t\t0\t0\tP\tPPL\tAA\t\t\t\t\t\t9\t\t\t\t2024-02-01\nok 1\nrefused absent allCountries.txt\n2\tX\t\t\t0\t0\tP\tPPL\tAA\t\t\t\t\t\t9\t\t\t\t2024-02-01\nok 1\n".as_slice()
    );
    Ok(())
}
