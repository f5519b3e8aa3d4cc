//! A dozen steps that leave lines of all tables, and all questions to what they leave.
use crate::both::step_store;
use crate::calls::{Room, Store, alternate, code, country, line_at, next, row};
use crate::draws::{letters, put};
use crate::same::{all_keys, of_all};
use crate::stopped::{Stopped, asked, check};
use gaz_num::Kind;
use gaz_rows::AskFault;
use std::alloc::Global;

/// A kind, the beginning of a line, how many letters stand behind it, and its end.
const STEPS: [(Kind, &str, u64, &str); 14] = [
    (
        Kind::Row,
        "1\tParis\tParis\t",
        20,
        "\t48.8\t2.3\tP\tPPLC\tXA\t\t01\t02\t\t\t7\t\t\tEurope/Paris\t2024-03-01",
    ),
    (
        Kind::Row,
        "2\tÉvreux\tEvreux\t",
        9,
        "\t49\t1\tA\tADM1\tXA\t\t01\t\t\t\t7\t\t\t\t2024-03-01",
    ),
    (
        Kind::Row,
        "3\tLong\tLong\t",
        9000,
        "\t-49\t-1\tA\tPCLI\tXA\t\t\t\t\t\t7\t\t\t\t2024-03-01",
    ),
    (Kind::Alt, "1\t1\ten\tParis", 0, ""),
    (Kind::Alt, "2\t1\tfr\tParis", 0, ""),
    (Kind::Link, "2\t1\tADM", 0, ""),
    (
        Kind::Country,
        "XA\t\t\t\t\t\t\t\t\t\t\t\t\t\t\t\t3",
        0,
        "\t\t",
    ),
    (Kind::Code, "ABCDEFGHIJKLMNOPQRSTUVW1\tone\tone\t7", 0, ""),
    (Kind::Code, "ABCDEFGHIJKLMNOPQRSTUVW2\ttwo\ttwo\t8", 0, ""),
    (
        Kind::Row,
        "1\tLutetia\tLutetia\t",
        70,
        "\t48.8\t2.4\tP\tPPLC\tXA\t\t01\t02\t\t\t7\t\t\tEurope/Paris\t2024-03-02",
    ),
    (
        Kind::Row,
        "3\tShort\tShort\t",
        0,
        "\t-49\t-1\tA\tPCLI\tXA\t\t\t\t\t\t7\t\t\t\t2024-03-01",
    ),
    (
        Kind::Row,
        "4\tLong again\tLong again\t",
        5000,
        "\t1\t1\tL\tRGN\t\t\t\t\t\t\t7\t\t\t\t2024-03-01",
    ),
    (Kind::RowDelete, "2\tÉvreux\tgone", 0, ""),
    (Kind::AltDelete, "2\tParis\tgone", 0, ""),
];

/// Puts a line together.
fn make(line: &mut Vec<u8>, front: &str, size: u64, behind: &str) -> Result<(), Stopped> {
    line.clear();
    put(line, front)?;
    letters(line, size)?;
    put(line, behind)
}

/// Steps them.
pub fn step_all(alloc: Global, store: &mut Store, line: &mut Vec<u8>) -> Result<(), Stopped> {
    for (kind, front, size, behind) in STEPS.iter() {
        make(line, front, *size, behind)?;
        let _outcome = step_store(alloc, store, *kind, line)?;
    }
    Ok(())
}

/// Whether there is a line, as there has to be or not.
fn there(
    found: Result<Option<usize>, AskFault>,
    wanted: bool,
    what: &'static str,
) -> Result<(), Stopped> {
    check(asked(found)?.is_some() == wanted, what)
}

/// How many bytes the line has that the least key leads to.
fn first_line(store: &mut Store, room: &mut Room) -> Result<usize, Stopped> {
    let mut scan = of_all(store);
    match asked(next(store, &mut scan))? {
        Some(found) => asked(line_at(store, found.1, room)),
        None => Err(Stopped::Wrong("the first key")),
    }
}

/// Asks which lines they leave.
fn ask_lines(store: &mut Store, room: &mut Room) -> Result<(), Stopped> {
    there(row(store, 1, room), true, "row 1")?;
    there(row(store, 2, room), false, "row 2")?;
    there(alternate(store, 1, room), true, "name 1")?;
    there(alternate(store, 2, room), false, "name 2")?;
    there(country(store, b"XA", room), true, "a country")?;
    there(
        code(store, b"ABCDEFGHIJKLMNOPQRSTUVW2", room),
        true,
        "a code",
    )
}

/// Asks what they leave.
pub fn ask_all(store: &mut Store, room: &mut Room) -> Result<(), Stopped> {
    ask_lines(store, room)?;
    // Rows 1, 3 and 4 have four other keys each, and row 3, a country row, one more; a name and a link have one, a country and a code none.
    let all = all_keys(store)?;
    check(all.count == 23, "the keys of all lines")?;
    check(first_line(store, room)? > 70, "the first line")
}
