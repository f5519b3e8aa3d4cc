//! Made rows for bench/store.sh, up to a phase.
use crate::both::{Outcome, empty_store, step_store};
use crate::calls::{Room, Store, row};
use crate::draws::{Draws, number, put};
use crate::stopped::{Stopped, asked, check, had, printed};
use gaz_num::Kind;
use std::alloc::Global;
use std::io::Print;

/// What stands behind the id of a row of which all others differ in their ids alone.
const TAIL: &str =
    "\tMade place\tMade place\t\t45.50000\t7.25000\tP\tPPL\tAA\t\t01\t001\t\t\t12345\t\t678\tEurope/Paris\t2024-02-01";

/// How much is printed at once.
const CHUNK: usize = 65536;

/// Puts so many thousandths.
fn thousandths(line: &mut Vec<u8>, n: u64) -> Result<(), Stopped> {
    number(line, n / 1000)?;
    put(line, ".")?;
    let rest = n % 1000;
    if rest < 100 {
        put(line, "0")?;
    }
    if rest < 10 {
        put(line, "0")?;
    }
    number(line, rest)
}

/// Puts a coordinate, which is drawn evenly from so many thousandths below zero to as many above.
fn coordinate(draws: &mut Draws, most: u32, line: &mut Vec<u8>) -> Result<(), Stopped> {
    let most = u64::from(most);
    let at = draws.below(2 * most + 1);
    if at < most {
        put(line, "-")?;
        return thousandths(line, most - at);
    }
    thousandths(line, at - most)
}

/// Puts an id and names with the number.
fn names(line: &mut Vec<u8>, id: u32) -> Result<(), Stopped> {
    number(line, u64::from(id))?;
    put(line, "\tPlace ")?;
    number(line, u64::from(id))?;
    put(line, "\tPlace ")?;
    number(line, u64::from(id))?;
    put(line, "\t\t")
}

/// Puts the class of the row with an id, and in what it lies.
fn division(draws: &mut Draws, line: &mut Vec<u8>, id: u32) -> Result<(), Stopped> {
    let class = if id % 50 == 1 {
        "\tA\tADM1\tX"
    } else {
        "\tP\tPPL\tX"
    };
    put(line, class)?;
    put(
        line,
        draws.one_of(&["A", "B", "C", "D", "E", "F", "G", "H"]),
    )?;
    put(line, "\t\t0")?;
    number(line, u64::from(id) / 50 % 10)
}

/// A row like those of `make`: names with the number, and coordinates at random.
fn scattered(draws: &mut Draws, line: &mut Vec<u8>, id: u32) -> Result<(), Stopped> {
    names(line, id)?;
    coordinate(draws, 90_000, line)?;
    put(line, "\t")?;
    coordinate(draws, 180_000, line)?;
    division(draws, line, id)?;
    put(line, "\t\t\t\t")?;
    number(line, draws.below(1_000_000))?;
    put(line, "\t\t\tEtc/UTC\t2000-01-01")
}

/// Writes the row with an id.
fn make_row(
    draws: &mut Draws,
    is_scattered: bool,
    line: &mut Vec<u8>,
    id: u32,
) -> Result<(), Stopped> {
    line.clear();
    if is_scattered {
        return scattered(draws, line, id);
    }
    number(line, u64::from(id))?;
    put(line, TAIL)
}

/// Prints what was put together, where it is much.
fn print_much(rt: &impl Print, chunk: &mut Vec<u8>) -> Result<(), Stopped> {
    if chunk.len() > CHUNK {
        printed(rt.write_all(chunk))?;
        chunk.clear();
    }
    Ok(())
}

/// Prints the rows, each with an LF.
fn print_all(
    rt: &impl Print,
    many: u32,
    is_scattered: bool,
    line: &mut Vec<u8>,
    chunk: &mut Vec<u8>,
) -> Result<(), Stopped> {
    let mut draws = Draws::from(8);
    for n in 0..many {
        make_row(&mut draws, is_scattered, line, n + 1)?;
        had(chunk.extend_from_slice(line))?;
        put(chunk, "\n")?;
        print_much(rt, chunk)?;
    }
    printed(rt.write_all(chunk))
}

/// Makes the rows, and steps each into a store in the phases behind the first. How many bytes they have.
fn step_all(
    alloc: Global,
    store: &mut Store,
    line: &mut Vec<u8>,
    many: u32,
    is_scattered: bool,
    phase: u32,
) -> Result<u64, Stopped> {
    let mut draws = Draws::from(8);
    let mut bytes: u64 = 0;
    for n in 0..many {
        make_row(&mut draws, is_scattered, line, n + 1)?;
        bytes = bytes.wrapping_add(line.len() as u64);
        if phase > 1 {
            let taken = step_store(alloc, store, Kind::Row, line)?;
            check(taken == Outcome::Taken, "a row")?;
        }
    }
    Ok(bytes)
}

/// Gets each row.
fn get_all(store: &mut Store, many: u32, room: &mut Room) -> Result<(), Stopped> {
    for n in 0..many {
        let found = asked(row(store, n + 1, room))?;
        check(found.is_some(), "a row that was put")?;
    }
    Ok(())
}

/// Prints how many rows there are, the pages, how many of these were changed, and the height.
fn tell(rt: &impl Print, store: Store, bytes: u64) -> Result<(), Stopped> {
    let rows = store.root().counts.rows;
    let height = store.root().height;
    let pages = store.into_pages();
    let taken = pages.fresh().wrapping_sub(1);
    let changed = pages.changed();
    printed(println!(rt;
        "{rows} rows of {bytes} bytes, {taken} pages, {changed} changed, height {height}"
    ))
}

/// Makes the rows (phase 1), steps each into a store (2), and gets each (3). How many bytes the rows have.
fn run(
    alloc: Global,
    store: &mut Store,
    many: u32,
    is_scattered: bool,
    phase: u32,
) -> Result<u64, Stopped> {
    let mut line = Vec::new(alloc);
    let mut room: Room = [0; 65535];
    let bytes = step_all(alloc, store, &mut line, many, is_scattered, phase)?;
    if phase > 2 {
        get_all(store, many, &mut room)?;
    }
    Ok(bytes)
}

/// Prints the rows (phase 0), or steps them.
pub fn rows(
    rt: &impl Print,
    alloc: Global,
    many: u32,
    phase: u32,
    is_scattered: bool,
) -> Result<(), Stopped> {
    if phase == 0 {
        let mut line = Vec::new(alloc);
        let mut chunk = Vec::new(alloc);
        return print_all(rt, many, is_scattered, &mut line, &mut chunk);
    }
    let mut store = empty_store(Vec::new(alloc))?;
    let bytes = run(alloc, &mut store, many, is_scattered, phase)?;
    tell(rt, store, bytes)
}
