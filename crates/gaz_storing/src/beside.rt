//! Steps at random, over a store and a plain gazetteer.
use crate::both::{Both, Outcome};
use crate::calls::Room;
use crate::draws::Draws;
use crate::lines::{Made, make};
use crate::same::{Keys, same};
use crate::stopped::{Stopped, printed};
use gaz_num::Table;
use gaz_plain::PlainGaz;
use std::alloc::Global;
use std::io::Print;

/// Makes a line and steps it. Whether it is refused.
fn one(
    alloc: Global,
    draws: &mut Draws,
    made: &mut Made,
    both: &mut Both,
) -> Result<bool, Stopped> {
    make(draws, made)?;
    Ok(both.step(alloc, made.kind, &made.line)? != Outcome::Taken)
}

/// Steps a hundred lines. How many are refused.
fn hundred(
    alloc: Global,
    draws: &mut Draws,
    made: &mut Made,
    both: &mut Both,
) -> Result<u64, Stopped> {
    made.clear();
    let mut refused: u64 = 0;
    for _ in 0..100 {
        if one(alloc, draws, made, both)? {
            refused = refused.wrapping_add(1);
        }
    }
    Ok(refused)
}

/// Says how many lines there are after so many steps.
fn tell_lines(rt: &impl Print, steps: u64, plain: &PlainGaz) -> Result<(), Stopped> {
    let rows = plain.count(Table::Rows);
    let alternates = plain.count(Table::Alternates);
    let links = plain.count(Table::Links);
    let countries = plain.count(Table::Countries);
    let codes = plain.count(Table::Codes);
    printed(print!(rt;
        "agrees at {steps}: {rows} rows, {alternates} alternate names, {links} links, {countries} countries, {codes} codes; "
    ))
}

/// Says how many lines were refused, and which keys there are.
fn tell_keys(rt: &impl Print, refused: u64, keys: Keys) -> Result<(), Stopped> {
    let count = keys.count;
    let digest = keys.digest;
    printed(println!(rt; "{refused} refused; {count} keys, digest {digest}"))
}

/// Thirty times a hundred steps, after each of which both have the same answers.
fn thirty(
    rt: &impl Print,
    alloc: Global,
    made: &mut Made,
    both: &mut Both,
    room: &mut Room,
) -> Result<(), Stopped> {
    let mut draws = Draws::from(24);
    let mut refused: u64 = 0;
    for hundreds in 1..31 {
        refused = refused.wrapping_add(hundred(alloc, &mut draws, made, both)?);
        let keys = same(both, room)?;
        tell_lines(rt, hundreds * 100, &both.plain)?;
        tell_keys(rt, refused, keys)?;
    }
    Ok(())
}

/// 3,000 steps.
pub fn steps(rt: &impl Print, alloc: Global, room: &mut Room) -> Result<(), Stopped> {
    let mut made = Made::nothing(alloc);
    let mut both = Both::empty(alloc)?;
    thirty(rt, alloc, &mut made, &mut both, room)
}
