//! Two neighbours of a level, of which one has an entry too few.
ghost use Rattle.std.specs.Prelude.{◌≡◌, ◌≤◌, ◌<◌, ◌+◌, ◌⊎◌, ◌^◌, ℕ, false, List, ◌++◌, length, IsTrue, IfOk, IfErr, OnOk};
ghost use Rattle.gaz_page.specs.Pages.{HasPageCause, Counts, NotDamaged};
ghost use Rattle.gaz_page.specs.Chains.{IsNoFree, TakesAlong};
ghost use Rattle.gaz_leaf.specs.Node.{key_of, entry_at, capacity, pairs_in, count_of as count_in, IsShaped, IsForm, IsOfKind};
ghost use Rattle.gaz_tree.specs.Tree.{least as least_in};
ghost use Rattle.gaz_tree.specs.Remove.{child_in, key_in_page, raised, both_in, Mends, IsShared, IsMendedAt, IsMended, NamesChild, NamesPageOrChild};

use crate::add::{load, part};
use crate::shrunk::Shrunk;
use gaz_leaf::{Kind, child_at, count_of, cut, join, key_bytes, replace, share};
use gaz_page::{PageFault, Pages};

/// The least number of entries of a page below the topmost.
pub fn least(kind: Kind) -> usize
    ensures { result ≡ least_in kind }
{
    match kind {
        Kind::Leaf => 51,
        Kind::Inner => 56,
    }
}

/// Joins two neighbours into the left page, gives the right one back, and takes its entry out of the page above them.
fn join_pages<P: Pages>(
    pages: &mut P,
    kind: Kind,
    page: u32,
    parent: &mut [u8; 4096],
    i: usize,
    left: &mut [u8; 4096],
    right: &[u8; 4096],
) -> Result<Shrunk, PageFault>
    requires may_change { (P.view pages.old).is_read_only ≡ false }
    requires left_shaped { IsShaped kind left.old }
    requires right_shaped { IsShaped kind right.now }
    requires parent_shaped { IsShaped Kind.Inner parent.old }
    requires within { i + 1 < count_in parent.old }
    requires room { count_in left.old + count_in right.now ≤ capacity kind }
    ensures mends { IsTrue (P.view pages.old).is_told → parent.old ≡ (P.view pages.old).page page → left.old ≡ (P.view pages.old).page (child_in parent.old i)
        → pairs_in kind left.old ++ pairs_in kind right.now ≡ both_in kind (P.view pages.old).page parent.old i
        → Mends kind page i (P.view pages.old) (P.view pages.new) result }
    ensures fault { IfErr result NotDamaged }
    ensures counts { Counts 0 3 (P.view pages.old) (P.view pages.new) }
    ensures cause { HasPageCause (P.view pages.old) (P.view pages.new) result }
    ensures keeps { P.keeps pages.old pages.new }
{
    join(left, right, kind);
    match pages.write(child_at(parent, i), left) {
        Ok(()) => {}
        Err(fault) => return Err(fault),
    }
    match pages.give(child_at(parent, i + 1)) {
        Ok(()) => {}
        Err(fault) => return Err(fault),
    }
    let count = count_of(parent);
    cut(parent, Kind::Inner, i + 1, i + 2);
    match pages.write(page, parent) {
        Ok(()) => {}
        Err(fault) => return Err(fault),
    }
    if count <= least(Kind::Inner) {
        return Ok(Shrunk::Low);
    }
    Ok(Shrunk::Fine)
}

/// Shares the entries of two neighbours, and puts the new key between them into the page above.
pub fn share_pages<P: Pages>(
    pages: &mut P,
    kind: Kind,
    page: u32,
    parent: &mut [u8; 4096],
    i: usize,
    left: &mut [u8; 4096],
    right: &mut [u8; 4096],
) -> Result<(), PageFault>
    requires may_change { (P.view pages.old).is_read_only ≡ false }
    requires left_shaped { IsShaped kind left.old }
    requires right_shaped { IsShaped kind right.old }
    requires parent_shaped { IsShaped Kind.Inner parent.old }
    requires within { i + 1 < count_in parent.old }
    requires many { capacity kind < count_in left.old + count_in right.old }
    ensures shares { OnOk result (IsTrue (P.view pages.old).is_told → parent.old ≡ (P.view pages.old).page page → left.old ≡ (P.view pages.old).page (child_in parent.old i)
        → ((n : ℕ) → IsForm kind n ((P.view pages.old).page (child_in parent.old (i + 1))) → IsForm kind n right.old)
        → pairs_in kind left.old ++ pairs_in kind right.old ≡ both_in kind (P.view pages.old).page parent.old i
        → IsShared kind page i (P.view pages.old) (P.view pages.new)) }
    ensures along { OnOk result (IsTrue (P.view pages.old).is_told → IsNoFree (P.view pages.old) page → IsNoFree (P.view pages.old) (child_in parent.old i)
        → IsNoFree (P.view pages.old) (child_in parent.old (i + 1)) → IsOfKind Kind.Inner parent.old → IsOfKind kind left.old → IsOfKind kind right.old
        → TakesAlong 0 (P.view pages.old) (P.view pages.new)) }
    ensures fault { IfErr result NotDamaged }
    ensures counts { Counts 0 3 (P.view pages.old) (P.view pages.new) }
    ensures cause { HasPageCause (P.view pages.old) (P.view pages.new) result }
    ensures keeps { P.keeps pages.old pages.new }
{
    share(left, right, kind);
    let key = part(right, kind);
    let right_page = child_at(parent, i + 1);
    match pages.write(child_at(parent, i), left) {
        Ok(()) => {}
        Err(fault) => return Err(fault),
    }
    match pages.write(right_page, right) {
        Ok(()) => {}
        Err(fault) => return Err(fault),
    }
    replace(parent, Kind::Inner, i + 1, &key, right_page as u64);
    match pages.write(page, parent) {
        Ok(()) => Ok(()),
        Err(fault) => Err(fault),
    }
}

/// The first key of an inner page becomes this one.
fn raise(right: &mut [u8; 4096], kind: Kind, key: &[u8; 32])
    requires shaped { IsShaped kind right.old }
    requires some { 1 ≤ count_in right.old }
    ensures count { count_in right.new ≡ count_in right.old }
    ensures shaped { IsShaped kind right.new }
    ensures pairs { pairs_in kind right.new ≡ raised kind (key_of key.now) (pairs_in kind right.old) }
    ensures form { (n : ℕ) → IsForm kind n right.old → IsForm kind n right.new }
{
    match kind {
        Kind::Leaf => {}
        Kind::Inner => {
            let child = child_at(right, 0);
            replace(right, Kind::Inner, 0, key, child as u64);
        }
    }
}

/// Mends the children at a place of a page and behind it.
fn mend_two<P: Pages>(
    pages: &mut P,
    kind: Kind,
    page: u32,
    parent: &mut [u8; 4096],
    i: usize,
) -> Result<Shrunk, PageFault>
    requires may_change { (P.view pages.old).is_read_only ≡ false }
    requires parent_shaped { IsShaped Kind.Inner parent.old }
    requires within { i + 1 < count_in parent.old }
    ensures mends { OnOk result (IsTrue (P.view pages.old).is_told → parent.old ≡ (P.view pages.old).page page
        → IsMendedAt kind page i (P.view pages.old) (P.view pages.new) result) }
    ensures names { IsTrue (P.view pages.old).is_told → NamesChild kind (pairs_in Kind.Inner parent.old) (P.view pages.old).page (P.view pages.new).page result }
    ensures counts { Counts 2 3 (P.view pages.old) (P.view pages.new) }
    ensures cause { HasPageCause (P.view pages.old) (P.view pages.new) result }
    ensures keeps { P.keeps pages.old pages.new }
{
    let mut left = [0; 4096];
    let mut right = [0; 4096];
    let first = match load(pages, kind, child_at(parent, i), &mut left) {
        Ok(first) => first,
        Err(fault) => return Err(fault),
    };
    let second = match load(pages, kind, child_at(parent, i + 1), &mut right) {
        Ok(second) => second,
        Err(fault) => return Err(fault),
    };
    if second == 0 {
        return Err(PageFault::Damaged(child_at(parent, i + 1)));
    }
    raise(&mut right, kind, &key_bytes(parent, Kind::Inner, i + 1));
    if first + second <= kind.capacity() {
        return join_pages(pages, kind, page, parent, i, &mut left, &right);
    }
    match share_pages(pages, kind, page, parent, i, &mut left, &mut right) {
        Ok(()) => Ok(Shrunk::Fine),
        Err(fault) => Err(fault),
    }
}

/// The left one of two neighbours, of which one stands at this place.
fn left_of(place: usize, count: usize) -> usize
    requires some { 2 ≤ count }
    requires within { place < count }
    ensures within { result + 1 < count }
    ensures near { (place ≡ result) ⊎ (place ≡ result + 1) }
{
    if place + 1 < count { place } else { place - 1 }
}

/// Mends a child of an inner page that has one entry too few, with the neighbour behind it or, where it is the last, before it.
pub fn mend<P: Pages>(
    pages: &mut P,
    kind: Kind,
    page: u32,
    place: usize,
) -> Result<Shrunk, PageFault>
    requires may_change { (P.view pages.old).is_read_only ≡ false }
    ensures mended { OnOk result (IsTrue (P.view pages.old).is_told → IsMended kind page place (P.view pages.old) (P.view pages.new) result) }
    ensures names { IsTrue (P.view pages.old).is_told → NamesPageOrChild kind page place (P.view pages.old).page (P.view pages.new).page result }
    ensures counts { Counts 3 3 (P.view pages.old) (P.view pages.new) }
    ensures cause { HasPageCause (P.view pages.old) (P.view pages.new) result }
    ensures keeps { P.keeps pages.old pages.new }
{
    let mut parent = [0; 4096];
    let count = match load(pages, Kind::Inner, page, &mut parent) {
        Ok(count) => count,
        Err(fault) => return Err(fault),
    };
    if count < 2 {
        return Err(PageFault::Damaged(page));
    }
    if place >= count {
        return Err(PageFault::Damaged(page));
    }
    mend_two(pages, kind, page, &mut parent, left_of(place, count))
}
