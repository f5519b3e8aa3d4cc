//! Trees that grow to height 4, with their keys put in several orders.
use crate::pattern::id_key;
use crate::stopped::{Stopped, check, must, printed};
use gaz_page::MemPages;
use gaz_scan::Scan;
use gaz_tree::Tree;
use std::alloc::Global;
use std::io::Print;

/// More keys than a tree of height 3 can have, which are 113 * 113 * 102 = 1,302,438.
const MANY: u32 = 1_400_000;

/// The key of a step: rising, falling or scattered.
fn key_of(n: u32, order: u32) -> [u8; 32] {
    match order {
        0 => id_key(n),
        1 => id_key(MANY.wrapping_sub(n)),
        _ => id_key(n.wrapping_mul(2_654_435_761)),
    }
}

/// Puts keys in an order until the tree has height 4, and answers how many.
fn grow(pages: &mut MemPages, tree: &mut Tree, order: u32) -> Result<u32, Stopped> {
    for n in 0..MANY {
        if tree.height == 4 {
            return Ok(n);
        }
        must(tree.put(pages, &key_of(n, order), n as u64))?;
    }
    Err(Stopped::Wrong("the height of so many keys"))
}

/// Whether a scan of all keys gives so many, each above the one before.
fn rises(pages: &mut MemPages, tree: Tree, many: u32) -> Result<bool, Stopped> {
    let mut scan = Scan::over(tree, [0; 32], [255; 32]);
    let mut before = [0; 32];
    for _ in 0..many {
        let Some(pair) = must(scan.next(pages))? else {
            return Ok(false);
        };
        let key = pair.0;
        if key <= before {
            return Ok(false);
        }
        before = key;
    }
    Ok(must(scan.next(pages))? == None)
}

/// Grows a tree in an order, looks its keys up, and takes every tenth one out.
fn in_one_order(alloc: Global, order: u32) -> Result<(), Stopped> {
    let mut pages = MemPages::new(Vec::new(alloc));
    let mut tree = must(Tree::empty(&mut pages))?;
    let many = grow(&mut pages, &mut tree, order)?;
    check(rises(&mut pages, tree, many)?, "the keys at height 4")?;
    let mut gone: u32 = 0;
    for n in 0..many {
        if n % 10 == 0 {
            let found = must(tree.get(&mut pages, &key_of(n, order)))?;
            check(found == Some(n as u64), "a key at height 4")?;
            check(
                must(tree.remove(&mut pages, &key_of(n, order)))?,
                "a key that is taken out at height 4",
            )?;
            gone = gone.wrapping_add(1);
        }
    }
    check(
        rises(&mut pages, tree, many.wrapping_sub(gone))?,
        "the keys that are left",
    )
}

/// Rising, falling and scattered keys up to height 4.
pub fn to_height_4(rt: &impl Print, alloc: Global) -> Result<(), Stopped> {
    for order in 0..3 {
        in_one_order(alloc, order)?;
    }
    printed(println!(rt;
        "rising, falling and scattered keys up to height 4: each tenth one is found and taken out"
    ))
}
