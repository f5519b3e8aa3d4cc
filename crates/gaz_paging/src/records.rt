//! Records of all lengths, and a page that is filled, emptied by half and filled again.
use crate::pattern::{LONGEST, buffer, fill};
use crate::stopped::{Stopped, check, must, printed};
use gaz_heap::{drop_record, get, put};
use gaz_page::MemPages;
use std::alloc::Global;
use std::io::Print;

/// Lengths at which something changes.
const LENGTHS: [usize; 8] = [0, 1, 4076, 4077, 4080, 8160, 8161, LONGEST];

/// Whether the record at a place is the one of this seed and length.
pub fn is_there(
    pages: &mut MemPages,
    place: u64,
    seed: u32,
    len: usize,
    wanted: &mut [u8],
    buf: &mut [u8],
) -> Result<bool, Stopped> {
    if len > wanted.len() || buf.len() < LONGEST {
        return Err(Stopped::Memory);
    }
    let wanted = &mut wanted[..len];
    fill(wanted, seed);
    let n = must(get(pages, place, buf))?;
    match buf.get(..n) {
        Some(found) => Ok(*found == *wanted),
        None => Ok(false),
    }
}

/// Puts a record of this seed and length.
pub fn put_made(
    pages: &mut MemPages,
    current: &mut u32,
    seed: u32,
    len: usize,
    buf: &mut [u8],
) -> Result<u64, Stopped> {
    if len > buf.len() || len > LONGEST {
        return Err(Stopped::Memory);
    }
    let bytes = &mut buf[..len];
    fill(bytes, seed);
    must(put(pages, current, bytes))
}

/// Records of many lengths are put, and then all are read back.
pub fn lengths(rt: &impl Print, alloc: Global) -> Result<(), Stopped> {
    let mut pages = MemPages::new(Vec::new(alloc));
    let mut current = 0;
    let mut wanted = buffer(alloc)?;
    let mut buf = buffer(alloc)?;
    let mut places = [0; 8];
    for n in 0..8 {
        places[n] = put_made(&mut pages, &mut current, n as u32, LENGTHS[n], &mut buf)?;
    }
    for n in 0..8 {
        let before = pages.reads();
        let there = is_there(
            &mut pages,
            places[n],
            n as u32,
            LENGTHS[n],
            &mut wanted,
            &mut buf,
        )?;
        check(there, "a record isn't read back")?;
        let form = if places[n] % 65536 == 65535 {
            "a chain"
        } else {
            "a slot"
        };
        let len = LENGTHS[n];
        let reads = pages.reads().wrapping_sub(before);
        printed(println!(rt; "a record of {len} bytes: {form}, {reads} pages read"))?;
    }
    Ok(())
}

/// Fills a page with 30 records of 130 bytes, drops every second one, and puts as many again.
pub fn holes(rt: &impl Print, alloc: Global) -> Result<(), Stopped> {
    let mut pages = MemPages::new(Vec::new(alloc));
    let mut current = 0;
    let mut wanted = buffer(alloc)?;
    let mut buf = buffer(alloc)?;
    let mut places = [0; 30];
    for n in 0..30 {
        places[n] = put_made(&mut pages, &mut current, n as u32, 130, &mut buf)?;
    }
    for n in 0..30 {
        if n % 2 == 1 {
            must(drop_record(&mut pages, &mut current, places[n]))?;
        }
    }
    let mut again: u32 = 0;
    for n in 0..30 {
        if n % 2 == 1 {
            let place = put_made(&mut pages, &mut current, n as u32, 130, &mut buf)?;
            if place == places[n] {
                again = again.wrapping_add(1);
            }
        }
    }
    for n in 0..30 {
        let there = is_there(&mut pages, places[n], n as u32, 130, &mut wanted, &mut buf)?;
        check(there, "a record of the page isn't as it was put")?;
    }
    let taken = pages.fresh().wrapping_sub(1);
    printed(println!(rt;
        "30 records of 130 bytes: {taken} page, and {again} of 15 slots used again"
    ))
}
