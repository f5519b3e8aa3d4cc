//! Runs of `serve` over a station in memory, and what a next run finds there.
use crate::worked::{
    A1, ADMIN1, ADMIN2, ALT_DELETES, ALT_MODIFICATIONS, ALTERNATES, B2, C3, COUNTRIES, DELETES,
    DUMP, File, LINKS, MODIFICATIONS, X2, shelf_of, source_of, words_of,
};
use gaz_framed::Framed;
use gaz_outside::{Area, MemShelf, MemStation, Source};
use gaz_serve::serve;
use std::alloc::{AllocError, Global};

/// The files of a load, in which row 1 stands above row 2 and row 2 above row 3, and of the day after it, which changes row 2,
/// deletes row 3, gives row 2 an alternate name and takes that of row 1.
pub(crate) const FILES: &[File<'static>] = &[
    (DUMP, &[A1, B2, C3]),
    (ALTERNATES, &["10\t1\tde\tEins\n"]),
    (LINKS, &["1\t2\tADM\n", "2\t3\n"]),
    (
        COUNTRIES,
        &["# a comment\n", "BB\t\t\t\t\t\t\t\t\t\t\t\t\t\t\t\t3\n"],
    ),
    (ADMIN1, &["AA.01\tOne\tOne\t2\n"]),
    (ADMIN2, &["AA.01.001\tTwo\tTwo\t3\n"]),
    (MODIFICATIONS, &[X2]),
    (DELETES, &["3\tC\tgone\n"]),
    (ALT_MODIFICATIONS, &["11\t2\tde\tZwei\n"]),
    (ALT_DELETES, &["10\t1\tEins\tgone\n"]),
];

/// A load, the day after it and two gets.
pub(crate) const REQUESTS: &[u8] = b"load 2024-03-01\nday 2024-03-02\nget 2\nget 3\n";

/// The replies where nothing fails.
pub(crate) const REPLIES: &[u8] =
    b"ok load 2024-03-01\nok day 2024-03-02\n2\tX\t\t\t0\t0\tP\tPPL\tAA\t\t\t\t\t\t9\t\t\t\t2024-02-01\nok 1\nok 0\n";

/// The calls of the station that the run makes. The opening of empty areas makes 7: it syncs five areas, reads the gate and asks for
/// the length of Root. The load makes 10: its two pages in one write, their sync, and the commit of the root page, which writes
/// and syncs the log, the gate, the root and the gate. The day makes 12: it reads the leaf and the page of records, which are held
/// from then on, and its commit writes and syncs the two pages also, which gives their frames the new bytes. So the gets read
/// nothing: that of a place prints 3 pieces, that of none 1. Each acknowledgement is 1.
pub(crate) const CALLS: u64 = 35;

/// Where each request ends, and its reply.
const ENDS: [(usize, usize); 4] = [(16, 19), (31, 37), (37, 82), (43, 87)];

/// The replies of the requests that lie whole among so many bytes.
pub(crate) fn replies_within(bytes: usize) -> &'static [u8] {
    let mut told = 0;
    for (request, reply) in ENDS {
        if request <= bytes {
            told = reply;
        }
    }
    match REPLIES.get(..told) {
        Some(text) => text,
        None => REPLIES,
    }
}

/// How many changes a front of the replies acknowledges, of the load and the day after it.
pub(crate) fn acknowledged(text: &[u8]) -> u64 {
    if text.len() >= 37 {
        2
    } else if text.len() >= 19 {
        1
    } else {
        0
    }
}

/// Runs the program with these words over these objects, and gives the station back with the status.
pub(crate) fn run_on<S: Source>(
    alloc: Global,
    line: &str,
    source: &mut S,
    shelf: &mut MemShelf,
    station: MemStation,
) -> Result<(MemStation, u8), AllocError> {
    let words = words_of(alloc, line)?;
    let mut framed = Framed::new(alloc, station)?;
    let status = serve(alloc, &words, source, shelf, &mut framed);
    Ok((framed.into_station(), status))
}

/// Runs these requests over a new source and a new shelf, and gives the station back with the status.
pub(crate) fn serve_on(
    alloc: Global,
    station: MemStation,
    requests: &[u8],
) -> Result<(MemStation, u8), AllocError> {
    let mut source = source_of(alloc, requests, &[])?;
    let mut shelf = shelf_of(alloc, FILES, &[])?;
    run_on(alloc, "serve", &mut source, &mut shelf, station)
}

/// Requests that change nothing: the last is refused, and tells the date.
const QUESTIONS: &[u8] =
    b"get 1\nget 2\nget 3\nsearch name_equals=eins\nsearch name_equals=zwei\nhierarchy 2\nchildren 2\nadmin AA.01\nday 0000-01-01\n";

/// What they print where no change was made, the load, and the load and the day.
const ANSWERS: [(u64, &[u8]); 3] = [
    (
        0,
        b"refused notloaded\nrefused notloaded\nrefused notloaded\nrefused notloaded\nrefused notloaded\nrefused notloaded\nrefused notloaded\nrefused notloaded\nrefused notloaded\n",
    ),
    (
        1,
        b"1\tA\t\t\t0\t0\tP\tPPL\tAA\t\t\t\t\t\t1\t\t\t\t2024-02-01\nok 1\n2\tB\t\t\t0\t0\tP\tPPL\tAA\t\t\t\t\t\t2\t\t\t\t2024-02-01\nok 1\n3\tC\t\t\t0\t0\tP\tPPL\tAA\t\t\t\t\t\t3\t\t\t\t2024-02-01\nok 1\n1\tA\t\t\t0\t0\tP\tPPL\tAA\t\t\t\t\t\t1\t\t\t\t2024-02-01\nok 1\nok 0\n1\tA\t\t\t0\t0\tP\tPPL\tAA\t\t\t\t\t\t1\t\t\t\t2024-02-01\n2\tB\t\t\t0\t0\tP\tPPL\tAA\t\t\t\t\t\t2\t\t\t\t2024-02-01\nok 2\n3\tC\t\t\t0\t0\tP\tPPL\tAA\t\t\t\t\t\t3\t\t\t\t2024-02-01\nok 1\nAA.01\tOne\tOne\t2\nok 1\nrefused sequence 2024-03-01\n",
    ),
    (
        2,
        b"1\tA\t\t\t0\t0\tP\tPPL\tAA\t\t\t\t\t\t1\t\t\t\t2024-02-01\nok 1\n2\tX\t\t\t0\t0\tP\tPPL\tAA\t\t\t\t\t\t9\t\t\t\t2024-02-01\nok 1\nok 0\nok 0\n2\tX\t\t\t0\t0\tP\tPPL\tAA\t\t\t\t\t\t9\t\t\t\t2024-02-01\nok 1\n1\tA\t\t\t0\t0\tP\tPPL\tAA\t\t\t\t\t\t1\t\t\t\t2024-02-01\n2\tX\t\t\t0\t0\tP\tPPL\tAA\t\t\t\t\t\t9\t\t\t\t2024-02-01\nok 2\nok 0\nAA.01\tOne\tOne\t2\nok 1\nrefused sequence 2024-03-02\n",
    ),
];

/// Which number of changes has these answers. `None` where they are those of no such gazetteer.
fn changes_of(text: &[u8]) -> Option<u64> {
    for (changes, answers) in ANSWERS {
        if text == answers {
            return Some(changes);
        }
    }
    None
}

/// How many changes a next run finds made, by its answers.
pub(crate) fn changes_found(alloc: Global, station: MemStation) -> Result<Option<u64>, AllocError> {
    let before = station.printed().len();
    let (after, status) = serve_on(alloc, station, QUESTIONS)?;
    match after.printed().get(before..) {
        Some(text) if status == 0 => Ok(changes_of(text)),
        _ => Ok(None),
    }
}

/// The same of what a stop leaves of the station.
pub(crate) fn changes_after(
    alloc: Global,
    station: &MemStation,
    keep: u64,
    fill: u8,
) -> Result<Option<u64>, AllocError> {
    changes_found(alloc, station.after_stop(keep, fill)?)
}

/// The changes that were found are those that were acknowledged, or one more.
pub(crate) fn are_kept(found: Option<u64>, acknowledged: u64) -> bool {
    found == Some(acknowledged) || found == acknowledged.checked_add(1)
}

/// The areas of a device.
const AREAS: [Area; 5] = [Area::Mark, Area::Log, Area::Root, Area::Left, Area::Right];

/// A stop now leaves the areas as they read: each write was synced.
pub(crate) fn is_synced(station: &MemStation) -> Result<bool, AllocError> {
    let after = station.after_stop(0, 255)?;
    for area in AREAS {
        if station.area(area) != after.area(area) {
            return Ok(false);
        }
    }
    Ok(true)
}

/// How many writes a stop keeps, and the byte with which it fills the range of the next.
pub(crate) const STOPS: [(u64, u8); 9] = [
    (0, 0),
    (0, 1),
    (0, 255),
    (1, 0),
    (1, 1),
    (1, 255),
    (2, 0),
    (2, 1),
    (2, 255),
];
