//! So many steps for the scripts under bench/, up to a phase.
use crate::pattern::{buffer, fill, id_key, next};
use crate::stopped::{Stopped, check, had, must, printed};
use gaz_heap::{drop_record, get, put};
use gaz_page::MemPages;
use gaz_scan::Scan;
use gaz_tree::Tree;
use std::alloc::Global;
use std::collections::BTreeMap;
use std::io::Print;

/// Puts so many records of 60 to 179 bytes (phase 1), gets each (2), and drops each (3). Prints the pages and the bytes in them.
pub fn records(rt: &impl Print, alloc: Global, many: u32, phase: u32) -> Result<(), Stopped> {
    let mut pages = MemPages::new(Vec::new(alloc));
    let mut current = 0;
    let mut buf = buffer(alloc)?;
    check(buf.len() == 65535, "a buffer")?;
    if buf.len() < 65535 {
        return Err(Stopped::Memory);
    }
    fill(&mut buf, 1);
    let mut places: Vec<u64> = Vec::new(alloc);
    let mut bytes: u64 = 0;
    let mut x: u64 = 1;
    for _ in 0..many {
        x = next(x);
        let len = 60 + (x % 120) as usize;
        let place = must(put(&mut pages, &mut current, &buf[..len]))?;
        had(places.push(place))?;
        bytes = bytes.wrapping_add(len as u64);
    }
    let taken = pages.fresh().wrapping_sub(1);
    if phase > 1 {
        for place in places.iter() {
            must(get(&mut pages, *place, &mut buf))?;
        }
    }
    if phase > 2 {
        for place in places.iter() {
            must(drop_record(&mut pages, &mut current, *place))?;
        }
    }
    printed(println!(rt; "{taken} pages, {bytes} bytes"))
}

/// Puts so many keys, rising or scattered (phase 1), gets each (2), and goes over all by a scan (3). Prints the pages and the height.
pub fn keys(
    rt: &impl Print,
    alloc: Global,
    many: u32,
    phase: u32,
    is_random: bool,
) -> Result<(), Stopped> {
    let mut pages = MemPages::new(Vec::new(alloc));
    let mut tree = must(Tree::empty(&mut pages))?;
    let mut x: u64 = 1;
    for n in 0..many {
        x = next(x);
        let id = if is_random { x as u32 } else { n };
        must(tree.put(&mut pages, &id_key(id), n as u64))?;
    }
    x = 1;
    if phase > 1 {
        for n in 0..many {
            x = next(x);
            let id = if is_random { x as u32 } else { n };
            check(
                must(tree.get(&mut pages, &id_key(id)))?.is_some(),
                "a key that was put",
            )?;
        }
    }
    if phase > 2 {
        let mut scan = Scan::over(tree, [0; 32], [255; 32]);
        for _ in 0..many {
            check(must(scan.next(&mut pages))?.is_some(), "a key of the scan")?;
        }
    }
    let taken = pages.fresh().wrapping_sub(1);
    let height = tree.height;
    printed(println!(rt; "{taken} pages, height {height}"))
}

/// The same with std's map in place of the tree.
pub fn map(
    rt: &impl Print,
    alloc: Global,
    many: u32,
    phase: u32,
    is_random: bool,
) -> Result<(), Stopped> {
    let mut map: BTreeMap<[u8; 32], u64> = BTreeMap::new(alloc);
    let mut x: u64 = 1;
    for n in 0..many {
        x = next(x);
        let id = if is_random { x as u32 } else { n };
        had(map.insert(id_key(id), n as u64))?;
    }
    x = 1;
    if phase > 1 {
        for n in 0..many {
            x = next(x);
            let id = if is_random { x as u32 } else { n };
            check(map.get(&id_key(id)).is_some(), "a key that was put")?;
        }
    }
    let mut sum: u64 = 0;
    if phase > 2 {
        for (_key, value) in map.iter() {
            sum = sum.wrapping_add(*value);
        }
    }
    printed(println!(rt; "{many} keys, sum {sum}"))
}
