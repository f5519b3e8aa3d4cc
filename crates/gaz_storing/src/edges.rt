//! Codes that differ behind their first 23 bytes, lines of the lengths at which their form changes, and a full table.
use crate::both::{Both, Outcome};
use crate::calls::{Room, Store, next};
use crate::draws::{letters, number, put};
use crate::same::{same, with_tag};
use crate::stopped::{Stopped, asked, check, printed};
use gaz_num::{Kind, Reason, Table};
use std::alloc::Global;
use std::io::Print;

/// Codes with the same first 23 bytes are put, the first one again with another name.
const ALIKE: [&str; 4] = [
    "ABCDEFGHIJKLMNOPQRSTUVW1\tone\tone\t7",
    "ABCDEFGHIJKLMNOPQRSTUVW2\ttwo\ttwo\t8",
    "ABCDEFGHIJKLMNOPQRSTUVW\tthree\tthree\t9",
    "ABCDEFGHIJKLMNOPQRSTUVW1\tfour\tfour\t10",
];

/// Lengths of a row, each in place of the one before.
const LENGTHS: [u64; 7] = [4076, 4077, 8161, 4076, 65535, 4077, 60];

/// What stands before the column of alternate names in a row, and behind it.
const FRONT: &str = "7\tA\tA\t";

const BEHIND: &str = "\t1\t1\tP\tPPL\tXA\t\t01\t\t\t\t0\t\t\t\t";

/// The last byte of the greatest key of an admin code.
fn last_slot(store: &mut Store) -> Result<u8, Stopped> {
    let mut scan = with_tag(store, 6);
    let mut slot = 255;
    for _ in 0..100 {
        let Some(found) = asked(next(store, &mut scan))? else {
            return Ok(slot);
        };
        let (key, _) = found;
        slot = key[31];
    }
    Err(Stopped::Wrong("slots without end"))
}

/// Steps such a code into both, which then have the same answers.
fn put_code(both: &mut Both, alloc: Global, line: &str, room: &mut Room) -> Result<(), Stopped> {
    let taken = both.step(alloc, Kind::Code, line.as_bytes())?;
    check(taken == Outcome::Taken, "a code")?;
    let _keys = same(both, room)?;
    Ok(())
}

/// Steps the codes into both.
fn put_alike(
    rt: &impl Print,
    both: &mut Both,
    alloc: Global,
    room: &mut Room,
) -> Result<(), Stopped> {
    for line in ALIKE.iter() {
        put_code(both, alloc, line, room)?;
    }
    let count = both.plain.count(Table::Codes);
    let slot = last_slot(&mut both.store)?;
    printed(println!(rt; "{count} codes with the same first 23 bytes, the last in slot {slot}"))
}

/// The codes.
pub fn alike(rt: &impl Print, alloc: Global, room: &mut Room) -> Result<(), Stopped> {
    let mut both = Both::empty(alloc)?;
    put_alike(rt, &mut both, alloc, room)
}

/// Writes a row of so many bytes.
fn row_of(line: &mut Vec<u8>, size: u64) -> Result<(), Stopped> {
    line.clear();
    put(line, FRONT)?;
    let others = (FRONT.len() as u64).wrapping_add(BEHIND.len() as u64);
    letters(line, size.saturating_sub(others))?;
    put(line, BEHIND)?;
    check(line.len() as u64 == size, "a row of a length")
}

/// The form of the record of the only row.
fn form(store: &mut Store) -> Result<&'static str, Stopped> {
    let mut scan = with_tag(store, 1);
    match asked(next(store, &mut scan))? {
        Some(found) if found.1 % 65536 == 65535 => Ok("a chain"),
        Some(_) => Ok("a slot"),
        None => Err(Stopped::Wrong("the only row")),
    }
}

/// A row of so many bytes in place of the one before, in both, which then have the same answers.
fn put_length(
    rt: &impl Print,
    both: &mut Both,
    alloc: Global,
    line: &[u8],
    room: &mut Room,
) -> Result<(), Stopped> {
    let taken = both.step(alloc, Kind::Row, line)?;
    check(taken == Outcome::Taken, "a row of this length")?;
    let _keys = same(both, room)?;
    let size = line.len();
    let form = form(&mut both.store)?;
    printed(println!(rt; "a row of {size} bytes: {form}"))
}

/// Rows of these lengths.
fn put_lengths(
    rt: &impl Print,
    both: &mut Both,
    alloc: Global,
    line: &mut Vec<u8>,
    room: &mut Room,
) -> Result<(), Stopped> {
    for size in LENGTHS.iter() {
        row_of(line, *size)?;
        put_length(rt, both, alloc, line, room)?;
    }
    Ok(())
}

/// A row that is too long.
fn put_too_long(
    rt: &impl Print,
    both: &mut Both,
    alloc: Global,
    line: &mut Vec<u8>,
) -> Result<(), Stopped> {
    row_of(line, 65536)?;
    let refused = both.step(alloc, Kind::Row, line)?;
    check(
        refused == Outcome::Malformed(Reason::Length),
        "a row that is too long",
    )?;
    printed(println!(rt; "a row of 65536 bytes: refused by its length"))
}

/// Rows of these lengths, and one that is too long.
pub fn lengths(rt: &impl Print, alloc: Global, room: &mut Room) -> Result<(), Stopped> {
    let mut line = Vec::new(alloc);
    let mut both = Both::empty(alloc)?;
    put_lengths(rt, &mut both, alloc, &mut line, room)?;
    put_too_long(rt, &mut both, alloc, &mut line)
}

/// Steps the country with a number, whose line has this end.
fn put_country(
    both: &mut Both,
    alloc: Global,
    line: &mut Vec<u8>,
    n: u64,
    end: &str,
) -> Result<Outcome, Stopped> {
    line.clear();
    number(line, n)?;
    put(line, "\t\t\t\t\t\t\t\t\t\t\t\t\t\t\t\t7")?;
    put(line, end)?;
    both.step(alloc, Kind::Country, line)
}

/// Steps so many countries. How many are taken.
fn put_countries(
    both: &mut Both,
    alloc: Global,
    line: &mut Vec<u8>,
    many: u64,
) -> Result<u64, Stopped> {
    let mut taken: u64 = 0;
    for n in 0..many {
        if put_country(both, alloc, line, n.wrapping_add(1000), "")? == Outcome::Taken {
            taken = taken.wrapping_add(1);
        }
    }
    Ok(taken)
}

/// More countries than there may be, and one of them again.
fn put_all(
    rt: &impl Print,
    both: &mut Both,
    alloc: Global,
    line: &mut Vec<u8>,
    room: &mut Room,
) -> Result<(), Stopped> {
    let taken = put_countries(both, alloc, line, 1030)?;
    let more = put_country(both, alloc, line, 3000, "")?;
    check(more == Outcome::Full(Table::Countries), "one more")?;
    let again = put_country(both, alloc, line, 1007, "\tagain")?;
    check(again == Outcome::Taken, "one of them again")?;
    let _keys = same(both, room)?;
    printed(println!(rt; "{taken} countries, and the next is refused; one of them again isn't"))
}

/// A full table.
pub fn full(rt: &impl Print, alloc: Global, room: &mut Room) -> Result<(), Stopped> {
    let mut line = Vec::new(alloc);
    let mut both = Both::empty(alloc)?;
    put_all(rt, &mut both, alloc, &mut line, room)
}
