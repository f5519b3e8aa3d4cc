//! Lines at random. `bench/asking_model.py` makes the same ones, so each draw here has its like there.
use crate::draws::{Draws, letters, number, put, thousandths, word};
use crate::stopped::{Done, Stopped};
use gaz_num::Kind;

/// Names: some are one name in other cases, and some begin as others do.
const NAMES: [&str; 33] = [
    "Évreux", "ÉVREUX", "Evreux", "Straße", "STRASSE", "Strass", "İzmir", "IZMIR", "izmir", "ΣΑΣ",
    "Σας", "σασ", "Finland", "한국", "한", "Åland", "ΑΙΔ", "San", "SAN", "Santa", "San Jé", "san je",
    "Łódź", "łódź", "Lodz", "Мин", "МИН", "東京", "東", "", " ", "=", "%_*?",
];

/// Names in other forms, and names that are longer than what a key has of them.
const OTHER_NAMES: [&str; 14] = [
    "E\u{301}vreux",
    "\u{fb01}nland",
    "\u{1112}\u{1161}\u{11ab}\u{1100}\u{116e}\u{11a8}",
    "\u{212b}land",
    "A\u{30a}land",
    "a\u{323}\u{307}b",
    "a\u{307}\u{323}b",
    "\u{1fb3}δ",
    "\u{1f0}ava",
    "J\u{30c}ava",
    "a name that is longer than the 22 bytes of a key",
    "a name that is longer than the 22 bytes of another",
    "A NAME THAT IS LONGER",
    "éééééééééééé",
];

/// Degrees where boxes and bands end.
const LATITUDES: [&str; 8] = [
    "90", "-90", "-89.75", "0", "-0.000", "0.25", "-0.25", "12.5",
];

const LONGITUDES: [&str; 8] = ["180", "-180", "179.5", "-179.75", "0", "-0", "0.25", "12.5"];

/// Classes, each with a code.
const COUNTRY_CODES: [&str; 6] = [
    "A\tPCLI", "A\tPCL", "A\tPCLD", "A\tPCLIX", "A\tPCLS", "A\tPCLF",
];

const OTHERS: [&str; 11] = [
    "P\tPPL", "P\tPPL", "P\tPPL", "P\tPPLC", "P\tPPLX", "S\tHTL", "L\tPCLI", "L\tADM1", "A\tADMD",
    "A\tPCLH", "\t",
];

const COUNTRIES: [&str; 10] = ["XA", "XA", "XA", "XB", "XB", "XC", "XD", "", "XAB", "xa"];

const ADMIN1: [&str; 7] = ["01", "01", "02", "03", "7", "00", ""];

const ADMIN2: [&str; 6] = [
    "001",
    "001",
    "002",
    "a code of thirty bytes in all.1",
    "a code of thirty bytes in all.2",
    "",
];

const ADMIN3: [&str; 4] = ["1", "1", "2", ""];

const ADMIN4: [&str; 3] = ["x", "y", ""];

const POPULATIONS: [&str; 7] = ["", "0", "-5", "1000", "1999", "007", "-1999"];

const LANGUAGES: [&str; 9] = ["", "en", "en", "de", "fr", "EN", "link", "wkdt", "post"];

/// Types of links.
const TYPES: [&str; 6] = ["ADM", "", "", "", "tourism", "region"];

/// Countries, and the place that the line of each names: a country row, another row, one that isn't there, and none; and a comment.
const NAMED: [(&str, &str); 6] = [
    ("#", ""),
    ("XA", "1"),
    ("XB", "750"),
    ("XC", "6000"),
    ("XAB", ""),
    ("XE", "750"),
];

/// The id with a number from 1 on: the last ten of 5,000 are the greatest ids that there are.
pub fn id_of(n: u32) -> u32 {
    if n > 4990 && n <= 5000 {
        u32::MAX - (5000 - n)
    } else {
        n
    }
}

/// Puts one of the first so many ids.
fn some_id(draws: &mut Draws, many: u32, line: &mut Vec<u8>) -> Done {
    number(line, id_of(draws.below(many.max(1)) + 1))
}

/// Puts a column with a name.
fn name(draws: &mut Draws, line: &mut Vec<u8>) -> Done {
    if draws.below(4) == 0 {
        word(draws, &OTHER_NAMES, line)?;
    } else {
        word(draws, &NAMES, line)?;
    }
    if draws.below(3) == 0 {
        put(line, " ")?;
        number(line, draws.below(40))?;
    }
    Ok(())
}

/// Puts a column with degrees: one of these, or a number of thousandths up to so many in size, some at a quarter of a degree and some right beside.
fn degrees(draws: &mut Draws, most: u32, ends: &[&'static str], line: &mut Vec<u8>) -> Done {
    let kind = draws.below(4);
    if kind == 0 {
        return word(draws, ends, line);
    }
    let drawn = draws.below(most.wrapping_mul(2).saturating_add(1));
    let at = if kind == 1 {
        drawn - drawn % 250
    } else {
        drawn
    };
    put(line, if at < most { "\t-" } else { "\t" })?;
    thousandths(line, at.abs_diff(most))?;
    put(line, if kind == 2 { "000000001" } else { "" })
}

/// Puts the class and code of the row with a number.
fn code_of(draws: &mut Draws, n: u32, line: &mut Vec<u8>) -> Done {
    match n {
        0..=9 => word(draws, &COUNTRY_CODES, line),
        10..=60 => put(line, "\tA\tADM1"),
        61..=260 => put(line, "\tA\tADM2"),
        261..=500 => put(line, "\tA\tADM3"),
        501..=700 => put(line, "\tA\tADM4"),
        _ => word(draws, &OTHERS, line),
    }
}

/// Puts the country and the admin codes of a row.
fn lying(draws: &mut Draws, line: &mut Vec<u8>) -> Done {
    word(draws, &COUNTRIES, line)?;
    put(line, "\t")?;
    word(draws, &ADMIN1, line)?;
    word(draws, &ADMIN2, line)?;
    word(draws, &ADMIN3, line)?;
    word(draws, &ADMIN4, line)
}

fn population(draws: &mut Draws, line: &mut Vec<u8>) -> Done {
    if draws.below(3) == 0 {
        return word(draws, &POPULATIONS, line);
    }
    put(line, "\t")?;
    number(line, draws.below(2000))
}

/// The row with a number. Some are so long that they need a chain of pages.
pub fn row(draws: &mut Draws, n: u32, line: &mut Vec<u8>) -> Result<Kind, Stopped> {
    number(line, id_of(n))?;
    name(draws, line)?;
    name(draws, line)?;
    put(line, "\t")?;
    letters(line, if n % 500 == 3 { 4200 } else { 1 })?;
    degrees(draws, 90_000, &LATITUDES, line)?;
    degrees(draws, 180_000, &LONGITUDES, line)?;
    code_of(draws, n, line)?;
    lying(draws, line)?;
    population(draws, line)?;
    put(line, "\t\t\tEtc/UTC\t2024-03-01")?;
    Ok(Kind::Row)
}

/// Takes out a row, but none of the circle and its chain, or puts one once more.
pub fn other_row(draws: &mut Draws, line: &mut Vec<u8>) -> Result<Kind, Stopped> {
    let n = draws.below(5000) + 1;
    if draws.below(4) > 0 || (n > 4000 && n <= 4100) {
        return row(draws, n, line);
    }
    number(line, id_of(n))?;
    Ok(Kind::RowDelete)
}

/// The alternate name with a number, of a place that may be there or not.
pub fn alternate(draws: &mut Draws, n: u32, line: &mut Vec<u8>) -> Result<Kind, Stopped> {
    number(line, id_of(n))?;
    put(line, "\t")?;
    some_id(draws, 5200, line)?;
    word(draws, &LANGUAGES, line)?;
    name(draws, line)?;
    put(line, draws.one_of(&["", "\t1\t\t\t\t\t"]))?;
    Ok(Kind::Alt)
}

/// Takes out an alternate name, or puts one once more.
pub fn other_alternate(draws: &mut Draws, line: &mut Vec<u8>) -> Result<Kind, Stopped> {
    let n = draws.below(3000) + 1;
    if draws.below(3) > 0 {
        return alternate(draws, n, line);
    }
    number(line, id_of(n))?;
    Ok(Kind::AltDelete)
}

/// A link.
pub fn link(draws: &mut Draws, line: &mut Vec<u8>) -> Result<Kind, Stopped> {
    some_id(draws, 800, line)?;
    put(line, "\t")?;
    some_id(draws, 5000, line)?;
    word(draws, &TYPES, line)?;
    Ok(Kind::Link)
}

/// The link with a number of a circle of ten, to which a chain of ninety leads.
pub fn circle(n: u32, line: &mut Vec<u8>) -> Result<Kind, Stopped> {
    number(line, if n == 1 { 4010 } else { n.wrapping_add(3999) })?;
    put(line, "\t")?;
    number(line, n.wrapping_add(4000))?;
    put(line, "\tADM")?;
    Ok(Kind::Link)
}

/// The line of the country with a number.
pub fn country(n: u32, line: &mut Vec<u8>) -> Result<Kind, Stopped> {
    if let Some((code, place)) = NAMED.get(n.saturating_sub(1) as usize) {
        put(line, code)?;
        put(line, "\t\t\t\t\t\t\t\t\t\t\t\t\t\t\t\t")?;
        put(line, place)?;
        put(line, "\t\t")?;
    }
    Ok(Kind::Country)
}

/// The line of an admin code.
pub fn code(draws: &mut Draws, line: &mut Vec<u8>) -> Result<Kind, Stopped> {
    put(line, draws.one_of(&COUNTRIES))?;
    put(line, ".")?;
    put(line, draws.one_of(&ADMIN1))?;
    put(line, ".")?;
    put(line, draws.one_of(&ADMIN2))?;
    name(draws, line)?;
    name(draws, line)?;
    put(line, "\t")?;
    some_id(draws, 5000, line)?;
    Ok(Kind::Code)
}
