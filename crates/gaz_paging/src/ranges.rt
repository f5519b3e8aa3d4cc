//! Scans of parts of a range.
use crate::pattern::id_key;
use crate::stopped::{Stopped, check, must, printed};
use gaz_page::MemPages;
use gaz_scan::Scan;
use gaz_tree::Tree;
use std::alloc::Global;
use std::io::Print;

/// How many keys there are: 10, 20 and so on up to 200,000.
const KEYS: u32 = 20000;

/// Ends of ranges: below all keys, between them, on the first, in the middle on one, on the last, and above all.
const ENDS: [u32; 9] = [0, 9, 10, 11, 100_000, 100_005, 199_999, 200_000, 300_000];

/// Whether a scan gives the keys from `low` to `high`, and then none.
fn is_right(pages: &mut MemPages, tree: Tree, low: u32, high: u32) -> Result<bool, Stopped> {
    let mut scan = Scan::over(tree, id_key(low), id_key(high));
    for n in 1..KEYS + 1 {
        let id = n.wrapping_mul(10);
        if low <= id && id <= high {
            if must(scan.next(pages))? != Some((id_key(id), n as u64)) {
                return Ok(false);
            }
        }
    }
    Ok(must(scan.next(pages))? == None)
}

/// Each range between two of the ends, also where the first is above the second.
pub fn parts(rt: &impl Print, alloc: Global) -> Result<(), Stopped> {
    let mut pages = MemPages::new(Vec::new(alloc));
    let mut tree = must(Tree::empty(&mut pages))?;
    for n in 1..KEYS + 1 {
        must(tree.put(&mut pages, &id_key(n.wrapping_mul(10)), n as u64))?;
    }
    let mut ranges: u32 = 0;
    for low in ENDS.iter() {
        for high in ENDS.iter() {
            check(
                is_right(&mut pages, tree, *low, *high)?,
                "the keys of a range",
            )?;
            ranges = ranges.wrapping_add(1);
        }
    }
    printed(println!(rt;
        "{ranges} ranges with ends on, between and outside 20000 keys: each scan gives what lies there"
    ))
}
