//! Runs with a few frames and with many: what they print and how much they read, what a read that fails leaves, and which words are no
//! command.
use crate::runs::{run_on, serve_on};
use crate::worked::{
    ADMIN1, ADMIN2, ALT_DELETES, ALT_MODIFICATIONS, ALTERNATES, B2, COUNTRIES, DELETES, DUMP,
    LINKS, MODIFICATIONS, joined, source_of, station_of,
};
use gaz_outside::{MemShelf, MemStation};
use std::alloc::{AllocError, Global};
use std::process::Abort;
use std::test::Fail;

/// Words for so few frames that pages are given up and read again.
const FEW: &str = "serve --frames 8";

/// How many bytes a row has at least, so that no page has two.
const WIDE: usize = 2_100;

/// Adds the row with this id and so many people.
fn push_row(alloc: Global, id: u32, people: u32, out: &mut Vec<u8>) -> Result<(), AllocError> {
    let front = format!(in alloc; "{id}\tR{id}\t\t")?;
    let back = format!(in alloc; "\t0\t0\tP\tPPL\tAA\t\t\t\t\t\t{people}\t\t\t\t2024-02-01\n")?;
    out.extend_from_slice(front.as_bytes())?;
    out.extend_from_slice(&vec![in alloc; b'x'; WIDE]?)?;
    out.extend_from_slice(back.as_bytes())?;
    Ok(())
}

/// The files that are empty here.
const EMPTY: [&str; 7] = [
    ALTERNATES,
    LINKS,
    COUNTRIES,
    ADMIN1,
    ADMIN2,
    ALT_MODIFICATIONS,
    ALT_DELETES,
];

/// A shelf with the files of a load, which has rows 1 to 9, and of the day after it, which changes row 5, has row 10 and deletes row 7.
fn shelf(alloc: Global) -> Result<MemShelf, AllocError> {
    let mut dump = Vec::new(alloc);
    for id in 1..=9 {
        push_row(alloc, id, 1, &mut dump)?;
    }
    let mut modified = Vec::new(alloc);
    push_row(alloc, 5, 9, &mut modified)?;
    push_row(alloc, 10, 1, &mut modified)?;
    let mut files = Vec::new(alloc);
    files.push((String::from_str(alloc, DUMP)?, dump))?;
    files.push((String::from_str(alloc, MODIFICATIONS)?, modified))?;
    files.push((
        String::from_str(alloc, DELETES)?,
        joined(alloc, &["7\tR7\tgone\n"])?,
    ))?;
    for name in &EMPTY {
        files.push((String::from_str(alloc, name)?, Vec::new(alloc)))?;
    }
    MemShelf::new(files, Vec::new(alloc))
}

/// The questions: three gets, and a search for all places.
const QUESTIONS: &[u8] = b"get 5\nget 7\nget 10\nsearch\n";

/// The places that they find after the load, and after the load and the day. The search tells the one with the most people first, and of as
/// many people the lesser id.
const FOUND: [(u64, [&[u32]; 4]); 2] = [
    (1, [&[5], &[7], &[], &[1, 2, 3, 4, 5, 6, 7, 8, 9]]),
    (2, [&[5], &[], &[10], &[5, 1, 2, 3, 4, 6, 8, 9, 10]]),
];

/// Adds a reply with the rows of these ids after so many changes.
fn push_reply(
    alloc: Global,
    changes: u64,
    ids: &[u32],
    out: &mut Vec<u8>,
) -> Result<(), AllocError> {
    for id in ids {
        let people = if changes == 2 && *id == 5 { 9 } else { 1 };
        push_row(alloc, *id, people, out)?;
    }
    let end = format!(in alloc; "ok {}\n", ids.len())?;
    out.extend_from_slice(end.as_bytes())
}

/// Adds these replies after so many changes.
fn push_replies(
    alloc: Global,
    changes: u64,
    replies: &[&[u32]],
    out: &mut Vec<u8>,
) -> Result<(), AllocError> {
    for ids in replies {
        push_reply(alloc, changes, ids, out)?;
    }
    Ok(())
}

/// Adds what the questions print after so many changes.
fn push_answers(alloc: Global, changes: u64, out: &mut Vec<u8>) -> Result<(), AllocError> {
    for (number, replies) in FOUND {
        if number == changes {
            return push_replies(alloc, changes, &replies, out);
        }
    }
    let none = "refused notloaded\n";
    out.extend_from_slice(&joined(alloc, &[none, none, none, none])?)
}

/// A request that changes what is there, and the number of changes after which that stands.
type Change = (&'static str, u64);

/// The load and the day, and the load twice more: first into the other side, and then into the first one over pages that are held.
const CHANGES: &[Change] = &[
    ("load 2024-03-01", 1),
    ("day 2024-03-02", 2),
    ("load 2024-03-01", 1),
    ("load 2024-03-01", 1),
];

/// The questions behind each of these changes.
fn asked(alloc: Global, all: &[Change]) -> Result<Vec<u8>, AllocError> {
    let mut out = Vec::new(alloc);
    for (change, _) in all {
        out.extend_from_slice(change.as_bytes())?;
        out.push(b'\n')?;
        out.extend_from_slice(QUESTIONS)?;
    }
    Ok(out)
}

/// What that prints.
fn told(alloc: Global, all: &[Change]) -> Result<Vec<u8>, AllocError> {
    let mut out = Vec::new(alloc);
    for (change, changes) in all {
        out.extend_from_slice(b"ok ")?;
        out.extend_from_slice(change.as_bytes())?;
        out.push(b'\n')?;
        push_answers(alloc, *changes, &mut out)?;
    }
    Ok(out)
}

/// Runs these requests with these words, and gives the station back with the status.
fn run_with(
    alloc: Global,
    line: &str,
    station: MemStation,
    requests: &[u8],
) -> Result<(MemStation, u8), AllocError> {
    let mut source = source_of(alloc, requests, &[])?;
    run_on(alloc, line, &mut source, &mut shelf(alloc)?, station)
}

/// A get reads two pages once, and the next get of the same place none: before them the opening read the gate and the root page.
fn expect_held(rt: &impl Abort, alloc: Global) -> Result<(), Fail> {
    let (loaded, _) = serve_on(alloc, station_of(alloc, &[])?, b"load 2024-03-01\n")?;
    let once = joined(alloc, &["ok load 2024-03-01\n", B2, "ok 1\n"])?;
    let twice = joined(alloc, &["ok load 2024-03-01\n", B2, "ok 1\n", B2, "ok 1\n"])?;
    for (requests, text) in [
        (b"get 2\n".as_slice(), once.as_slice()),
        (b"get 2\nget 2\n".as_slice(), twice.as_slice()),
    ] {
        let station = loaded.after_stop(0, 255)?;
        let (after, status) = run_with(alloc, "serve --frames 64", station, requests)?;
        assert_eq!(rt; status, 0);
        assert_eq!(rt; after.printed(), text);
        assert_eq!(rt; after.reads(), 4);
    }
    Ok(())
}

/// What is read where each page that was read stays held: the gate; of the first load the page of keys and nine of rows, of the day
/// the page of row 10; of the second load, on the other side, ten again, and of the third none.
const LEAST: u64 = 22;

/// Any number of frames gives the same text. With 8 pages are read again, since a search goes over ten, and then tells them.
fn expect_same_text(rt: &impl Abort, alloc: Global) -> Result<(), Fail> {
    let requests = asked(alloc, CHANGES)?;
    let text = told(alloc, CHANGES)?;
    for (line, is_all_held) in [
        (FEW, false),
        ("serve --frames 65536", true),
        ("serve", true),
    ] {
        let (station, status) = run_with(alloc, line, station_of(alloc, &[])?, &requests)?;
        assert_eq!(rt; status, 0, "{line}");
        assert!(rt; station.printed() == text.as_slice(), "{line}");
        assert!(rt; station.reads() >= LEAST, "{line}");
        assert_eq!(rt; station.reads() == LEAST, is_all_held, "{line}");
    }
    Ok(())
}

/// The load and the day, each with a search behind it that reads all rows.
const REQUESTS: &[u8] = b"load 2024-03-01\nsearch maxRows=1\nday 2024-03-02\nsearch maxRows=1\n";

/// What they print up to the acknowledgement of the day.
fn told_by_the_day(alloc: Global) -> Result<Vec<u8>, AllocError> {
    let mut out = joined(alloc, &["ok load 2024-03-01\n"])?;
    push_reply(alloc, 1, &[1], &mut out)?;
    out.extend_from_slice(b"ok day 2024-03-02\n")?;
    Ok(out)
}

/// Runs them with few frames over a new station whose call with this number fails.
fn run_failing(alloc: Global, call: u64) -> Result<(MemStation, u8), AllocError> {
    run_with(alloc, FEW, station_of(alloc, &[call])?, REQUESTS)
}

/// More calls of the station than they make.
const MOST_CALLS: u64 = 1_000;

/// After a read that failed: the run ended with 3, and the next answers as the changes say that were acknowledged.
fn expect_left(
    rt: &impl Abort,
    alloc: Global,
    station: &MemStation,
    status: u8,
) -> Result<(), Fail> {
    assert_eq!(rt; status, 3);
    let mut text = station.printed().to_vec(alloc)?;
    let changes = if text.len() < 19 {
        0
    } else if text.len() < told_by_the_day(alloc)?.len() {
        1
    } else {
        2
    };
    push_answers(alloc, changes, &mut text)?;
    let (after, next) = run_with(alloc, FEW, station.after_stop(0, 255)?, QUESTIONS)?;
    assert_eq!(rt; next, 0);
    assert!(rt; after.printed() == text.as_slice(), "{changes} changes");
    Ok(())
}

/// Each call that reads fails in turn: the calls behind which more was read, where the next one fails, than where they do. Each reads
/// one piece, so none is left out where as many were found as the whole run reads.
fn expect_failing_reads(rt: &impl Abort, alloc: Global) -> Result<(), Fail> {
    let (mut last, mut status) = run_failing(alloc, 1)?;
    let mut found: u64 = 0;
    for call in 2..MOST_CALLS {
        let (station, ended) = run_failing(alloc, call)?;
        if station.reads() > last.reads() {
            expect_left(rt, alloc, &last, status)?;
            found = found.saturating_add(1);
        }
        last = station;
        status = ended;
        if status == 0 {
            break;
        }
    }
    assert_eq!(rt; status, 0);
    assert_eq!(rt; found, last.reads());
    Ok(())
}

/// Words that are no command.
const NONE: [&str; 7] = [
    "serve --frames 7",
    "serve --frames 65537",
    "serve --frames",
    "serve --frames x",
    "serve --frame 64",
    "serve 64",
    "",
];

/// Words that are no command end with 2 and call nothing: the station's first call, which fails, is then that of the next run.
fn expect_no_command(rt: &impl Abort, alloc: Global) -> Result<(), Fail> {
    for line in NONE {
        let (station, status) = run_with(alloc, line, station_of(alloc, &[1])?, b"get 2\n")?;
        assert_eq!(rt; status, 2, "{line}");
        assert_eq!(rt; station.reads(), 0, "{line}");
        assert_eq!(rt; station.printed(), b"".as_slice(), "{line}");
        let (_, next) = serve_on(alloc, station, b"")?;
        assert_eq!(rt; next, 3, "{line}");
    }
    Ok(())
}

#[test]
fn number_of_frames_says_how_much_is_read_and_nothing_else(rt: HostRuntime) -> Result<(), Fail> {
    let alloc = rt.alloc();
    expect_held(&rt, alloc)?;
    expect_same_text(&rt, alloc)?;
    expect_failing_reads(&rt, alloc)?;
    expect_no_command(&rt, alloc)
}
