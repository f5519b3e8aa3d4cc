//! Damaged pages: each is told by its number.
use crate::pattern::{buffer, id_key};
use crate::records::put_made;
use crate::stopped::{Stopped, check, must, printed};
use gaz_heap::{drop_record, get, replace};
use gaz_page::{MemPages, PAGE, PageFault, Pages};
use gaz_scan::Scan;
use gaz_tree::Tree;
use std::alloc::Global;
use std::io::Print;

/// Whether an answer is damage of this page.
fn names<T: Drop>(given: Result<T, PageFault>, page: u32) -> bool {
    match given {
        Err(PageFault::Damaged(named)) => named == page,
        _ => false,
    }
}

/// An overflow page that is full.
fn overflow(number: u32, next: u32) -> [u8; PAGE] {
    let mut page = [7; PAGE];
    page[..16].copy_from_slice(&[0; 16]);
    page[0] = 4;
    page[2] = 15;
    page[3] = 240;
    page[4..8].copy_from_slice(&number.to_be_bytes());
    page[8..12].copy_from_slice(&next.to_be_bytes());
    page
}

/// An inner page with another first child.
fn with_first_child(page: [u8; PAGE], child: u32) -> [u8; PAGE] {
    let mut changed = page;
    changed[48..52].copy_from_slice(&child.to_be_bytes());
    changed
}

/// Records of damaged pages.
pub fn pages(rt: &impl Print, alloc: Global) -> Result<(), Stopped> {
    let mut pages = MemPages::new(Vec::new(alloc));
    let mut current = 0;
    let mut buf = buffer(alloc)?;
    let short = put_made(&mut pages, &mut current, 1, 100, &mut buf)?;
    let long = put_made(&mut pages, &mut current, 2, 9000, &mut buf)?;
    check(short == 65536, "the first record's place")?;
    check(long % 65536 == 65535, "the long record's place")?;
    check(buf.len() == 65535, "a buffer")?;
    if buf.len() < 65535 {
        return Err(Stopped::Memory);
    }
    check(
        names(get(&mut pages, 65536 + 1, &mut buf), 1),
        "a slot that isn't there",
    )?;
    check(
        names(get(&mut pages, 65536 + 65000, &mut buf), 1),
        "a slot past the page",
    )?;
    check(
        names(get(&mut pages, 1 << 48, &mut buf), 0),
        "a place past all pages",
    )?;
    check(
        names(drop_record(&mut pages, &mut current, 65536 + 1), 1),
        "a drop of no slot",
    )?;
    check(
        names(drop_record(&mut pages, &mut current, 1 << 48), 0),
        "a drop past all pages",
    )?;
    check(
        names(replace(&mut pages, 65536 + 1, &[]), 1),
        "a record in place of no slot's",
    )?;
    check(
        names(replace(&mut pages, 1 << 48, &[]), 0),
        "a record in place of one past all pages",
    )?;

    must(pages.write(1, &[0; PAGE]))?;
    check(
        names(get(&mut pages, short, &mut buf), 1),
        "a page of another kind",
    )?;
    check(
        names(drop_record(&mut pages, &mut current, short), 1),
        "a drop from a page of another kind",
    )?;
    check(
        names(replace(&mut pages, short, &[]), 1),
        "a record in place of one in a page of another kind",
    )?;
    let put_there = put_made(&mut pages, &mut current, 3, 10, &mut buf);
    check(
        match put_there {
            Err(Stopped::Pages(PageFault::Damaged(page))) => page == 1,
            _ => false,
        },
        "a put into a page of another kind",
    )?;
    check(current == 1, "the page for new records after an error")?;

    // The long record has three pages, the last one put first: 4 leads to 3, and 3 to 2.
    must(pages.write(2, &[0; PAGE]))?;
    check(
        names(get(&mut pages, long, &mut buf), 2),
        "a chain that ends early",
    )?;
    must(pages.write(2, &overflow(2, 4)))?;
    // Sixteen pages have 65,280 bytes, and the next one, 3, would make it too long.
    check(
        names(get(&mut pages, long, &mut buf), 3),
        "a chain that goes in a circle",
    )?;
    check(
        names(drop_record(&mut pages, &mut current, long), 4),
        "a drop of a chain that goes in a circle",
    )?;
    printed(println!(rt; "damaged records: 14 told by their pages"))
}

/// A leaf whose first key is above all others.
fn with_great_key(page: [u8; PAGE]) -> [u8; PAGE] {
    let mut changed = page;
    changed[16..48].copy_from_slice(&[255; 32]);
    changed
}

/// Whether a call ended, by an answer or by damage.
fn ends<T: Drop>(given: Result<T, PageFault>) -> bool {
    match given {
        Ok(_) => true,
        Err(PageFault::Damaged(_)) => true,
        Err(_) => false,
    }
}

/// Whether a scan ends after 103 pairs at most.
fn scan_ends(pages: &mut MemPages, tree: Tree) -> bool {
    let mut scan = Scan::over(tree, [0; 32], [255; 32]);
    for _ in 0..104 {
        match scan.next(pages) {
            Ok(Some(_pair)) => {}
            Ok(None) => return true,
            Err(PageFault::Damaged(_)) => return true,
            Err(_) => return false,
        }
    }
    false
}

/// A tree of 103 keys, in the first leaf of which the first key is above all others: each call ends.
pub fn out_of_order(rt: &impl Print, alloc: Global) -> Result<(), Stopped> {
    let mut pages = MemPages::new(Vec::new(alloc));
    let mut tree = must(Tree::empty(&mut pages))?;
    for id in 0..103 {
        must(tree.put(&mut pages, &id_key(id), 7))?;
    }
    // The page that `empty` took is still the first leaf.
    let leaf = copy_of(&mut pages, 1)?;
    check(leaf[0] == 1, "the first leaf")?;
    must(pages.write(1, &with_great_key(leaf)))?;
    for id in 0..103 {
        check(
            ends(tree.get(&mut pages, &id_key(id))),
            "a get of keys out of order",
        )?;
    }
    check(scan_ends(&mut pages, tree), "a scan of keys out of order")?;
    check(
        ends(tree.put(&mut pages, &id_key(1), 8)),
        "a put among keys out of order",
    )?;
    check(
        ends(tree.remove(&mut pages, &id_key(0))),
        "a removal among keys out of order",
    )?;
    printed(println!(rt; "keys out of order: 103 gets, a scan, a put and a removal end"))
}

/// Trees of damaged pages.
pub fn trees(rt: &impl Print, alloc: Global) -> Result<(), Stopped> {
    let mut pages = MemPages::new(Vec::new(alloc));
    let mut tree = must(Tree::empty(&mut pages))?;
    for id in 0..103 {
        must(tree.put(&mut pages, &id_key(id), 7))?;
    }
    check(tree.height == 2, "a tree of 103 keys")?;
    let before = tree;
    let top = copy_of(&mut pages, tree.top)?;
    // The topmost page leads back to itself, where a leaf is looked for.
    must(pages.write(tree.top, &with_first_child(top, tree.top)))?;
    check(
        names(tree.get(&mut pages, &id_key(0)), before.top),
        "a child that leads back up",
    )?;

    // A count above what a page has room for.
    let mut many = top;
    many[3] = 114;
    must(pages.write(tree.top, &many))?;
    check(
        names(tree.get(&mut pages, &id_key(0)), before.top),
        "a wrong count",
    )?;
    check(
        names(tree.put(&mut pages, &id_key(0), 8), before.top),
        "a put below a wrong count",
    )?;
    check(
        names(tree.remove(&mut pages, &id_key(0)), before.top),
        "a removal below a wrong count",
    )?;
    check(tree == before, "the tree after an error")?;
    let low = Tree {
        top: tree.top,
        height: 0,
    };
    check(
        names(low.get(&mut pages, &id_key(0)), tree.top),
        "a tree of no height",
    )?;
    printed(println!(rt; "damaged trees: 5 told by their pages"))
}

/// A page with another number than its own.
fn with_number(page: [u8; PAGE], number: u32) -> [u8; PAGE] {
    let mut changed = page;
    changed[4..8].copy_from_slice(&number.to_be_bytes());
    changed
}

/// Whether each call that comes to this page on the way to the least key names it: a get, a put, a removal and a scan.
fn all_name(pages: &mut MemPages, tree: Tree, page: u32) -> bool {
    let mut changed = tree;
    let mut scan = Scan::over(tree, [0; 32], [255; 32]);
    names(tree.get(pages, &id_key(0)), page)
        && names(changed.put(pages, &id_key(0), 8), page)
        && names(changed.remove(pages, &id_key(0)), page)
        && names(scan.next(pages), page)
        && changed == tree
}

/// Whether a scan gives so many pairs, and then names this page, each time that it is asked again.
fn scan_names(pages: &mut MemPages, tree: Tree, pairs: u16, page: u32) -> Result<bool, Stopped> {
    let mut scan = Scan::over(tree, [0; 32], [255; 32]);
    for _ in 0..pairs {
        if must(scan.next(pages))? == None {
            return Ok(false);
        }
    }
    Ok(names(scan.next(pages), page) && names(scan.next(pages), page))
}

/// A copy of a page.
fn copy_of(pages: &mut MemPages, page: u32) -> Result<[u8; PAGE], Stopped> {
    let mut copy = [0; PAGE];
    match pages.read(page) {
        Ok(bytes) => copy.copy_from_slice(bytes),
        Err(fault) => return Err(Stopped::Pages(fault)),
    }
    Ok(copy)
}

/// A tree of 103 keys, which one leaf hasn't room for: its topmost page, its first leaf and the one behind it get each other's numbers in turn.
pub fn numbers(rt: &impl Print, alloc: Global) -> Result<(), Stopped> {
    let mut pages = MemPages::new(Vec::new(alloc));
    let mut tree = must(Tree::empty(&mut pages))?;
    for id in 0..103 {
        must(tree.put(&mut pages, &id_key(id), 7))?;
    }
    check(tree.height == 2, "a tree of 103 keys")?;
    let top = copy_of(&mut pages, tree.top)?;
    must(pages.write(tree.top, &with_number(top, 1)))?;
    check(
        all_name(&mut pages, tree, tree.top),
        "an inner page with a wrong number",
    )?;
    must(pages.write(tree.top, &top))?;

    // The first entry's child stands at byte 48, the second one's 36 bytes on.
    let first = u32::from_be_bytes([top[48], top[49], top[50], top[51]]);
    let second = u32::from_be_bytes([top[84], top[85], top[86], top[87]]);
    let leaf = copy_of(&mut pages, first)?;
    must(pages.write(first, &with_number(leaf, second)))?;
    check(
        all_name(&mut pages, tree, first),
        "a leaf with a wrong number",
    )?;
    must(pages.write(first, &leaf))?;

    let behind = copy_of(&mut pages, second)?;
    must(pages.write(second, &with_number(behind, first)))?;
    let pairs = u16::from_be_bytes([leaf[2], leaf[3]]);
    check(
        scan_names(&mut pages, tree, pairs, second)?,
        "a scan that comes to a leaf with a wrong number",
    )?;
    must(pages.write(second, &behind))?;
    check(
        must(tree.get(&mut pages, &id_key(0)))? == Some(7),
        "the pages with their own numbers again",
    )?;
    printed(println!(rt;
        "pages with another's number: a get, a put, a removal and a scan name each"
    ))
}
