//! Lines at random. `bench/storing_model.py` makes the same ones, so each draw here has its like there.
use crate::draws::{Draws, column, letters, number, number_column, put};
use crate::stopped::Stopped;
use gaz_num::Kind;
use std::alloc::Global;

/// How many ids places have, and alternate names.
pub const IDS: u64 = 120;

/// Names, some of which have the same key.
const NAMES: [&str; 8] = [
    "Paris",
    "PARIS",
    "Évreux",
    "évreux",
    "Łódź",
    "a name that is longer than the 22 bytes of a key",
    "a name that is longer than the 22 bytes of another",
    "",
];

/// Classes, each with a code.
const CLASSES: [&str; 9] = [
    "P\tPPL", "A\tADM1", "A\tADM2", "A\tADM3", "A\tADM4", "A\tPCLI", "L\tPCLI", "A\tPCL", "A\tADMD",
];

/// Admin codes of a row.
const ADMINS: [&str; 5] = ["", "00", "01", "7", "a code of thirty bytes in all.."];

/// Types of links: two of one class.
const TYPES: [&str; 4] = ["ADM", "", "tourism", "region"];

/// Codes of countries.
pub const COUNTRIES: [&str; 10] = [
    "XA", "XAB", "XABC", "XB", "X1", "99", "AAAA", "ZZ", "Q0", "A0A0",
];

/// Admin codes, some with the same first 23 bytes.
pub const CODES: [&str; 11] = [
    "XA.01",
    "XA.02",
    "XB",
    "Q",
    "Q\0",
    "ABCDEFGHIJKLMNOPQRSTUV",
    "ABCDEFGHIJKLMNOPQRSTUVW",
    "ABCDEFGHIJKLMNOPQRSTUVW1",
    "ABCDEFGHIJKLMNOPQRSTUVW2",
    "ABCDEFGHIJKLMNOPQRSTUVWX.Y",
    "ABCDEFGHIJKLMNOPQRSTUVWX.Z",
];

/// Lines that their checks refuse.
const REFUSED: [(Kind, &str); 9] = [
    (Kind::Row, "7\ta row of three columns\t"),
    (
        Kind::Row,
        "0\tA\tA\t\t1\t1\tP\tPPL\tXA\t\t01\t\t\t\t0\t\t\t\t",
    ),
    (
        Kind::Row,
        "7\tA\tA\t\t90.5\t1\tP\tPPL\tXA\t\t01\t\t\t\t0\t\t\t\t",
    ),
    (
        Kind::Row,
        "7\tA\tA\t\t1\t1\tP\tPPL\tXA\t\t01\t\t\t\t0\t\t\t\t2024-02-30",
    ),
    (Kind::RowDelete, "x\tA\tnone"),
    (Kind::Alt, "7\t8\ten"),
    (Kind::Link, "7\tx\tADM"),
    (Kind::Country, "xa\t\t\t\t\t\t\t\t\t\t\t\t\t\t\t\t\t\t"),
    (Kind::Code, "\tno code\tno code\t7"),
];

/// The id with a number below `IDS`; the last ten are the greatest that there are.
pub fn id_of(n: u64) -> u32 {
    if n < 110 {
        n as u32 + 1
    } else {
        u32::MAX.wrapping_sub((n % 10) as u32)
    }
}

/// A line and its kind.
#[derive(Drop)]
pub struct Made {
    pub kind: Kind,
    pub line: Vec<u8>,
}

impl Made {
    /// No line yet.
    pub fn nothing(alloc: Global) -> Made {
        Made {
            kind: Kind::Country,
            line: Vec::new(alloc),
        }
    }

    /// As if there were no line yet.
    pub fn clear(&mut self) {
        self.kind = Kind::Country;
        self.line.clear();
    }
}

/// Puts degrees of at most so many in size.
fn degrees(draws: &mut Draws, most: u32, line: &mut Vec<u8>) -> Result<(), Stopped> {
    let size = draws.below(u64::from(most) + 1);
    put(line, draws.one_of(&["\t", "\t-"]))?;
    number(line, size)?;
    if size < u64::from(most) {
        put(line, draws.one_of(&["", ".5", ".000000000001"]))?;
    }
    Ok(())
}

/// Puts the list of alternate names of a row: one of thirty is so long that the row needs a chain of pages.
fn many_letters(draws: &mut Draws, line: &mut Vec<u8>) -> Result<(), Stopped> {
    put(line, "\t")?;
    let size = if draws.below(30) == 0 {
        3900 + draws.below(5000)
    } else {
        draws.below(60)
    };
    letters(line, size)
}

/// Puts one of the ids.
fn id(draws: &mut Draws, line: &mut Vec<u8>) -> Result<(), Stopped> {
    number(line, u64::from(id_of(draws.below(IDS))))
}

/// Puts a column that is one of these words.
fn word(draws: &mut Draws, words: &[&'static str], line: &mut Vec<u8>) -> Result<(), Stopped> {
    column(line, draws.one_of(words))
}

/// Puts where a row lies, and in what.
fn lying(draws: &mut Draws, line: &mut Vec<u8>) -> Result<(), Stopped> {
    degrees(draws, 90, line)?;
    degrees(draws, 180, line)?;
    word(draws, &CLASSES, line)?;
    word(draws, &COUNTRIES, line)?;
    put(line, "\t")?;
    for _ in 0..4 {
        word(draws, &ADMINS, line)?;
    }
    Ok(())
}

/// A row.
fn row(draws: &mut Draws, line: &mut Vec<u8>) -> Result<(), Stopped> {
    id(draws, line)?;
    word(draws, &NAMES, line)?;
    word(draws, &NAMES, line)?;
    many_letters(draws, line)?;
    lying(draws, line)?;
    number_column(line, draws.below(1000))?;
    put(line, "\t\t\tEurope/Paris\t2024-03-01")
}

/// A line that takes out.
fn delete(draws: &mut Draws, line: &mut Vec<u8>) -> Result<(), Stopped> {
    id(draws, line)?;
    put(line, "\ta name\ta reason")
}

/// An alternate name of a place, which may be there or not.
fn alternate(draws: &mut Draws, line: &mut Vec<u8>) -> Result<(), Stopped> {
    id(draws, line)?;
    put(line, "\t")?;
    id(draws, line)?;
    word(draws, &["", "en", "fr"], line)?;
    word(draws, &NAMES, line)?;
    put(line, draws.one_of(&["", "\t1\t\t\t\t\t"]))
}

/// A link.
fn link(draws: &mut Draws, line: &mut Vec<u8>) -> Result<(), Stopped> {
    number(line, 1 + draws.below(8))?;
    number_column(line, 1 + draws.below(8))?;
    if draws.below(4) > 0 {
        word(draws, &TYPES, line)?;
    }
    Ok(())
}

/// A country.
fn country(draws: &mut Draws, line: &mut Vec<u8>) -> Result<(), Stopped> {
    put(line, draws.one_of(&COUNTRIES))?;
    put(line, "\t\t\t\t\t\t\t\t\t\t\t\t\t\t\t")?;
    number_column(line, draws.below(1000))?;
    put(line, "\t\t")
}

/// An admin code.
fn code(draws: &mut Draws, line: &mut Vec<u8>) -> Result<(), Stopped> {
    put(line, draws.one_of(&CODES))?;
    word(draws, &NAMES, line)?;
    word(draws, &NAMES, line)?;
    number_column(line, draws.below(1000))
}

/// The kind of the lines with such a number.
fn kind_of(what: u64) -> Kind {
    match what {
        0..=3 => Kind::Row,
        4..=5 => Kind::RowDelete,
        6..=7 => Kind::Alt,
        8 => Kind::AltDelete,
        9..=10 => Kind::Link,
        11..=12 => Kind::Country,
        _ => Kind::Code,
    }
}

/// Makes a line of each kind at random, of a comment, and of those that are refused, or leaves the last one.
pub fn make(draws: &mut Draws, made: &mut Made) -> Result<(), Stopped> {
    let what = draws.below(16);
    if what == 15 {
        return Ok(());
    }
    made.line.clear();
    if what == 14 {
        return refused(draws, made);
    }
    made.kind = kind_of(what);
    let line = &mut made.line;
    match what {
        0..=3 => row(draws, line),
        4..=5 => delete(draws, line),
        6..=7 => alternate(draws, line),
        8 => delete(draws, line),
        9..=10 => link(draws, line),
        11 => country(draws, line),
        12 => put(line, draws.one_of(&["", "# a comment"])),
        _ => code(draws, line),
    }
}

/// A line that its check refuses.
fn refused(draws: &mut Draws, made: &mut Made) -> Result<(), Stopped> {
    match REFUSED.get(draws.below(9) as usize) {
        Some((kind, text)) => {
            made.kind = *kind;
            put(&mut made.line, text)
        }
        None => Ok(()),
    }
}
