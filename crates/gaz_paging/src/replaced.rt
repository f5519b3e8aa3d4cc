//! Records that are put in place of others: room to the byte, and many beside std's map.
use crate::pattern::{buffer, fill, next};
use crate::records::{is_there, put_made};
use crate::stopped::{Stopped, check, had, must, printed};
use gaz_heap::replace;
use gaz_page::MemPages;
use std::alloc::Global;
use std::collections::BTreeMap;
use std::io::Print;

/// How many places there are.
const PLACES: u32 = 1000;

/// How often a record is put in place of another one.
const STEPS: u32 = 20000;

/// Puts a record of this seed and length in place of the one at a place, and answers whether it did.
pub fn replace_made(
    pages: &mut MemPages,
    place: u64,
    seed: u32,
    len: usize,
    buf: &mut [u8],
) -> Result<bool, Stopped> {
    if len > buf.len() {
        return Err(Stopped::Memory);
    }
    let bytes = &mut buf[..len];
    fill(bytes, seed);
    must(replace(pages, place, bytes))
}

/// Two records in a page: beside its header of 16 bytes and two slots of 4 it has room for 4,072 bytes of them.
pub fn to_the_byte(rt: &impl Print, alloc: Global) -> Result<(), Stopped> {
    let mut pages = MemPages::new(Vec::new(alloc));
    let mut current = 0;
    let mut wanted = buffer(alloc)?;
    let mut buf = buffer(alloc)?;
    let one = put_made(&mut pages, &mut current, 1, 2000, &mut buf)?;
    let other = put_made(&mut pages, &mut current, 2, 2000, &mut buf)?;
    let changed = pages.changed();
    let too_long = replace_made(&mut pages, one, 3, 2073, &mut buf)?;
    check(!too_long, "a record that is a byte too long")?;
    check(pages.changed() == changed, "a page of a record that stays")?;
    let stays = is_there(&mut pages, one, 1, 2000, &mut wanted, &mut buf)?;
    check(stays, "a record that stays")?;
    let fills = replace_made(&mut pages, one, 4, 2072, &mut buf)?;
    check(fills, "a record that fills the page")?;
    let there = is_there(&mut pages, one, 4, 2072, &mut wanted, &mut buf)?;
    check(there, "the record that fills the page")?;
    let beside = is_there(&mut pages, other, 2, 2000, &mut wanted, &mut buf)?;
    check(beside, "the record beside it")?;
    let empty = replace_made(&mut pages, one, 5, 0, &mut buf)?;
    check(empty, "an empty record")?;
    let alone = replace_made(&mut pages, other, 6, 4072, &mut buf)?;
    check(alone, "a record beside an empty one")?;
    let longest = is_there(&mut pages, other, 6, 4072, &mut wanted, &mut buf)?;
    check(longest, "the record beside an empty one")?;
    let none = is_there(&mut pages, one, 5, 0, &mut wanted, &mut buf)?;
    check(none, "the empty record")?;
    check(pages.fresh() == 2, "the pages of two records")?;
    printed(println!(rt; "two records in a page: room in place of one of them to the byte"))
}

/// No record of 4,077 bytes is put in place of one in a slot, and none in place of one in a chain.
pub fn long_ones(rt: &impl Print, alloc: Global) -> Result<(), Stopped> {
    let mut pages = MemPages::new(Vec::new(alloc));
    let mut current = 0;
    let mut wanted = buffer(alloc)?;
    let mut buf = buffer(alloc)?;
    let short = put_made(&mut pages, &mut current, 1, 4076, &mut buf)?;
    let long = put_made(&mut pages, &mut current, 2, 5000, &mut buf)?;
    let calls = pages.calls();
    let in_slot = replace_made(&mut pages, short, 3, 4077, &mut buf)?;
    check(!in_slot, "a long record in place of a short one")?;
    let in_chain = replace_made(&mut pages, long, 4, 10, &mut buf)?;
    check(!in_chain, "a short record in place of a long one")?;
    check(pages.calls() == calls, "a call of the pages")?;
    let first = is_there(&mut pages, short, 1, 4076, &mut wanted, &mut buf)?;
    check(first, "the short record")?;
    let second = is_there(&mut pages, long, 2, 5000, &mut wanted, &mut buf)?;
    check(second, "the long record")?;
    printed(println!(rt; "long for short, and short for long: each place keeps its record"))
}

/// Puts records of many lengths at random in place of others, beside a map from each place to the seed and the length of its record.
pub fn beside_a_map(rt: &impl Print, alloc: Global) -> Result<(), Stopped> {
    let mut pages = MemPages::new(Vec::new(alloc));
    let mut current = 0;
    let mut wanted = buffer(alloc)?;
    let mut buf = buffer(alloc)?;
    let mut map: BTreeMap<u64, (u32, usize)> = BTreeMap::new(alloc);
    let mut places: Vec<u64> = Vec::new(alloc);
    let mut x: u64 = 1;
    for seed in 0..PLACES {
        x = next(x);
        let len = (x % 400) as usize;
        let place = put_made(&mut pages, &mut current, seed, len, &mut buf)?;
        had(map.insert(place, (seed, len)))?;
        had(places.push(place))?;
    }
    let taken = pages.fresh();
    let mut longer: u32 = 0;
    let mut stayed: u32 = 0;
    for step in 0..STEPS {
        x = next(x);
        let len = (x % 400) as usize;
        let seed = PLACES + step;
        let Some(place) = places.get(((x >> 10) % 1000) as usize) else {
            return Err(Stopped::Wrong("the count of places"));
        };
        let before = match map.get(place) {
            Some(record) => record.1,
            None => return Err(Stopped::Wrong("a place of the map")),
        };
        if replace_made(&mut pages, *place, seed, len, &mut buf)? {
            had(map.insert(*place, (seed, len)))?;
            if len > before {
                longer = longer.wrapping_add(1);
            }
        } else {
            check(len > before, "a record that isn't longer")?;
            stayed = stayed.wrapping_add(1);
        }
    }
    for (place, record) in map.iter() {
        let there = is_there(
            &mut pages,
            *place,
            record.0,
            record.1,
            &mut wanted,
            &mut buf,
        )?;
        check(there, "a record beside the map")?;
    }
    check(longer > 0 && stayed > 0, "longer records of both kinds")?;
    check(pages.fresh() == taken, "a page that is taken")?;
    printed(println!(rt;
        "20000 records put in place of others beside a map: 1000 places have the same"
    ))
}
