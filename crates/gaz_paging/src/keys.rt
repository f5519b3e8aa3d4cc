//! A tree beside std's map, and trees of keys in several orders.
use crate::pattern::{id_key, late_key, next};
use crate::stopped::{Stopped, check, had, must, printed};
use gaz_page::MemPages;
use gaz_scan::Scan;
use gaz_tree::Tree;
use std::alloc::Global;
use std::collections::BTreeMap;
use std::io::Print;

/// The most pairs of a tree of height 2: 113 leaves of 102.
const MOST_OF_TWO: usize = 113 * 102;

/// Whether a scan of all keys gives what the map has, and then none.
fn is_same(pages: &mut MemPages, tree: Tree, map: &BTreeMap<u32, u64>) -> Result<bool, Stopped> {
    let mut scan = Scan::over(tree, [0; 32], [255; 32]);
    for (id, value) in map.iter() {
        if must(scan.next(pages))? != Some((late_key(*id), *value)) {
            return Ok(false);
        }
    }
    Ok(must(scan.next(pages))? == None)
}

/// Puts and takes out keys that share 28 bytes, at random, beside a map, and compares the whole lists at ten moments.
pub fn beside_a_map(rt: &impl Print, alloc: Global) -> Result<(), Stopped> {
    let mut pages = MemPages::new(Vec::new(alloc));
    let mut tree = must(Tree::empty(&mut pages))?;
    let mut map: BTreeMap<u32, u64> = BTreeMap::new(alloc);
    let mut x: u64 = 1;
    let mut highest = 1;
    let mut longest = 0;
    for moment in 0..10u32 {
        for _ in 0..10000 {
            x = next(x);
            let id = ((x >> 8) % 20000) as u32;
            // Most steps of the second half take keys out.
            let puts = if moment < 5 { 3 } else { 1 };
            if x % 4 < puts {
                must(tree.put(&mut pages, &late_key(id), x))?;
                had(map.insert(id, x))?;
            } else {
                let was_there = must(tree.remove(&mut pages, &late_key(id)))?;
                check(
                    was_there == map.remove(&id).is_some(),
                    "whether a key was there",
                )?;
            }
        }
        highest = tree.height.max(highest);
        longest = map.len().max(longest);
        check(is_same(&mut pages, tree, &map)?, "the pairs beside the map")?;
    }
    // So many pairs need height 3, and of 20,000 keys no more than that comes: at height 4 a tree has 2 * 56 * 56 * 51 = 319,872 pairs or more.
    check(longest > MOST_OF_TWO, "the pairs of the longest list")?;
    check(highest == 3, "the height")?;
    printed(println!(rt; "100000 puts and removals beside a map: ten lists are the same"))
}

/// Puts so many keys in an order, gets each, and answers the height.
fn put_all(alloc: Global, many: u32, order: u32) -> Result<u8, Stopped> {
    let mut pages = MemPages::new(Vec::new(alloc));
    let mut tree = must(Tree::empty(&mut pages))?;
    for n in 0..many {
        let id = match order {
            0 => n,
            1 => many - 1 - n,
            _ => n.wrapping_mul(2_654_435_761),
        };
        must(tree.put(&mut pages, &id_key(id), n as u64))?;
    }
    let changed = pages.changed();
    for n in 0..many {
        let id = match order {
            0 => n,
            1 => many - 1 - n,
            _ => n.wrapping_mul(2_654_435_761),
        };
        check(
            must(tree.get(&mut pages, &id_key(id)))? == Some(n as u64),
            "a key that was put",
        )?;
        must(tree.put(&mut pages, &id_key(id), n as u64))?;
    }
    check(pages.changed() == changed, "an equal value is written")?;
    Ok(tree.height)
}

/// Rising, falling and scattered keys, at heights 1 to 3. However full the leaves are: a leaf has room for 102 pairs, and no leaf is split before it
/// is full; at height 2 a tree has at most 113 * 102 = 11,526, at height 3 at least 2 * 56 * 51 = 5,712, at height 4 at least 2 * 56 * 56 * 51.
pub fn in_order(rt: &impl Print, alloc: Global) -> Result<(), Stopped> {
    for order in 0..3 {
        check(put_all(alloc, 102, order)? == 1, "102 keys")?;
        check(put_all(alloc, 103, order)? == 2, "103 keys")?;
        check(put_all(alloc, 20000, order)? == 3, "20000 keys")?;
    }
    printed(println!(rt; "rising, falling and scattered keys: heights 1, 2 and 3"))
}
