//! A leaf that has become full, and the one before it.
ghost use Rattle.std.specs.Prelude.{◌≡◌, ◌≤◌, ◌<◌, ◌+◌, ◌^◌, ℕ, List, false, IsTrue, IfOk, IfErr, OnOk};
ghost use Rattle.gaz_page.specs.Pages.{HasPageCause, HasReads, Counts, NotDamaged};
ghost use Rattle.gaz_page.specs.Chains.{TakesAlong};
ghost use Rattle.gaz_leaf.specs.Node.{pairs_in, count_of as count_in, IsForm, IsShaped, IsOfKind};
ghost use Rattle.gaz_tree.specs.Remove.{NamesChild, NamesLeaf, Evens, EvensBefore};

use crate::add::load;
use crate::mend::share_pages;
use crate::way::Way;
use gaz_leaf::{Kind, child_at, count_of};
use gaz_page::{PageFault, Pages};

/// Up to how many pairs of the leaf before it a full leaf shares with it. With more, nine tenths of that leaf are in use.
const MOST: usize = 92;

/// Whether a leaf is full.
fn is_full<P: Pages>(pages: &mut P, page: u32) -> Result<bool, PageFault>
    ensures fine { IfErr result NotDamaged }
    ensures reads { HasReads 1 (P.view pages.old) (P.view pages.new) result }
    ensures keeps { P.keeps pages.old pages.new }
{
    match pages.read(page) {
        Ok(bytes) => Ok(count_of(bytes) == Kind::Leaf.capacity()),
        Err(fault) => Err(fault),
    }
}

/// The leaves at a place of a page and behind it share what they have, where the second has no room and the first has some.
fn even_two<P: Pages>(
    pages: &mut P,
    page: u32,
    parent: &mut [u8; 4096],
    i: usize,
) -> Result<(), PageFault>
    requires may_change { (P.view pages.old).is_read_only ≡ false }
    requires parent_shaped { IsShaped Kind.Inner parent.old }
    requires within { i + 1 < count_in parent.old }
    ensures evens { OnOk result (IsTrue (P.view pages.old).is_told → parent.old ≡ (P.view pages.old).page page → Evens page i (P.view pages.old) (P.view pages.new)) }
    ensures along { OnOk result (IsTrue (P.view pages.old).is_told → parent.old ≡ (P.view pages.old).page page → IsOfKind Kind.Inner parent.old
        → TakesAlong 0 (P.view pages.old) (P.view pages.new)) }
    ensures names { IsTrue (P.view pages.old).is_told → NamesChild Kind.Leaf (pairs_in Kind.Inner parent.old) (P.view pages.old).page (P.view pages.new).page result }
    ensures counts { Counts 2 3 (P.view pages.old) (P.view pages.new) }
    ensures cause { HasPageCause (P.view pages.old) (P.view pages.new) result }
    ensures keeps { P.keeps pages.old pages.new }
{
    let mut left = [0; 4096];
    let mut right = [0; 4096];
    let first = match load(pages, Kind::Leaf, child_at(parent, i), &mut left) {
        Ok(first) => first,
        Err(fault) => return Err(fault),
    };
    if first > MOST {
        return Ok(());
    }
    let second = match load(pages, Kind::Leaf, child_at(parent, i + 1), &mut right) {
        Ok(second) => second,
        Err(fault) => return Err(fault),
    };
    if first + second <= Kind::Leaf.capacity() {
        return Ok(());
    }
    share_pages(pages, Kind::Leaf, page, parent, i, &mut left, &mut right)
}

/// The child at a place of a page shares with the one before it, where that has room.
fn even_before<P: Pages>(pages: &mut P, page: u32, place: usize) -> Result<(), PageFault>
    requires may_change { (P.view pages.old).is_read_only ≡ false }
    requires some { 0 < place }
    ensures evens { OnOk result (IsTrue (P.view pages.old).is_told → EvensBefore page place (P.view pages.old) (P.view pages.new)) }
    ensures along { OnOk result (IsTrue (P.view pages.old).is_told → TakesAlong 0 (P.view pages.old) (P.view pages.new)) }
    ensures names { IsTrue (P.view pages.old).is_told → NamesLeaf page place (P.view pages.old).page (P.view pages.new).page result }
    ensures counts { Counts 3 3 (P.view pages.old) (P.view pages.new) }
    ensures cause { HasPageCause (P.view pages.old) (P.view pages.new) result }
    ensures keeps { P.keeps pages.old pages.new }
{
    let mut parent = [0; 4096];
    let count = match load(pages, Kind::Inner, page, &mut parent) {
        Ok(count) => count,
        Err(fault) => return Err(fault),
    };
    if place >= count {
        return Err(PageFault::Damaged(page));
    }
    even_two(pages, page, &mut parent, place - 1)
}

/// Where the leaf that a way led to has become full, it shares what it has with the one before it, if that has room. So rising keys fill
/// leaves to more than nine tenths.
pub fn even_out<P: Pages>(pages: &mut P, page: u32, way: Way) -> Result<(), PageFault>
    requires may_change { (P.view pages.old).is_read_only ≡ false }
    ensures evens { OnOk result (IsTrue (P.view pages.old).is_told → EvensBefore page way.place (P.view pages.old) (P.view pages.new)) }
    ensures along { OnOk result (IsTrue (P.view pages.old).is_told → TakesAlong 0 (P.view pages.old) (P.view pages.new)) }
    ensures names { IsTrue (P.view pages.old).is_told → NamesLeaf page way.place (P.view pages.old).page (P.view pages.new).page result }
    ensures counts { Counts 4 3 (P.view pages.old) (P.view pages.new) }
    ensures cause { HasPageCause (P.view pages.old) (P.view pages.new) result }
    ensures keeps { P.keeps pages.old pages.new }
{
    if way.place == 0 {
        return Ok(());
    }
    match is_full(pages, way.child) {
        Ok(true) => {}
        Ok(false) => return Ok(()),
        Err(fault) => return Err(fault),
    }
    even_before(pages, page, way.place)
}
