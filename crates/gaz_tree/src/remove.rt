//! One key taken out of a tree.
ghost use Rattle.std.specs.Prelude.{◌≡◌, ◌≤◌, ◌<◌, ◌+◌, ◌*◌, ◌^◌, ℕ, false, List, length, IsTrue, IfOk, IfErr, OnOk};
ghost use Rattle.gaz_page.specs.Pages.{HasPageCause, Counts, NotDamaged};
ghost use Rattle.gaz_leaf.specs.Node.{key_in, IsPage};
ghost use Rattle.gaz_tree.specs.Tree.{kind_at, IsHead, HasTwo, Reaches};
ghost use Rattle.gaz_tree.specs.Put.{HasChain, IsTaken};
ghost use Rattle.gaz_tree.specs.Remove.{Removes};
ghost use Rattle.gaz_tree.specs.Calls.{LeadsDown, NamesSince};

use crate::add::load;
use crate::get::read_way;
use crate::mend::{least, mend};
use crate::shrunk::Shrunk;
use gaz_leaf::{Key, Kind, cut, first_above, key_at};
use gaz_page::{PageFault, Pages};

/// Takes a key out of a leaf.
fn remove_leaf<P: Pages>(pages: &mut P, page: u32, key: Key) -> Result<Shrunk, PageFault>
    requires may_change { (P.view pages.old).is_read_only ≡ false }
    ensures removes { IsTrue (P.view pages.old).is_told → (low high : ℕ) → IsHead (P.view pages.old).page 0 page low high → low ≤ key_in key → key_in key < high
        → HasChain (P.view pages.old) → Removes (P.view pages.old) (P.view pages.new) 0 page low high (key_in key) result }
    ensures fine { IsTrue (P.view pages.old).is_told → (low high : ℕ) → IsHead (P.view pages.old).page 0 page low high → IfErr result NotDamaged }
    ensures own { OnOk result (IsTrue (P.view pages.old).is_told → IsPage Kind.Leaf page ((P.view pages.old).page page)) }
    ensures names { IsTrue (P.view pages.old).is_told → NamesSince (P.view pages.old).page (P.view pages.new).page 0 page result }
    ensures counts { Counts 1 1 (P.view pages.old) (P.view pages.new) }
    ensures cause { HasPageCause (P.view pages.old) (P.view pages.new) result }
    ensures keeps { P.keeps pages.old pages.new }
{
    let mut buf = [0; 4096];
    let count = match load(pages, Kind::Leaf, page, &mut buf) {
        Ok(count) => count,
        Err(fault) => return Err(fault),
    };
    let next = first_above(&buf, Kind::Leaf, 0, key);
    if next == 0 {
        return Ok(Shrunk::Absent);
    }
    if key_at(&buf, Kind::Leaf, next - 1).is_below(key) {
        return Ok(Shrunk::Absent);
    }
    cut(&mut buf, Kind::Leaf, next - 1, next);
    match pages.write(page, &buf) {
        Ok(()) => {}
        Err(fault) => return Err(fault),
    }
    if count <= least(Kind::Leaf) {
        return Ok(Shrunk::Low);
    }
    Ok(Shrunk::Fine)
}

/// The kind of the pages of a level.
fn kind_of(level: u8) -> Kind
    ensures { result ≡ kind_at level }
{
    if level == 0 { Kind::Leaf } else { Kind::Inner }
}

/// Takes a key out below a page of a level. Where the child has one entry too few then, it is mended.
pub fn remove_below<P: Pages>(
    pages: &mut P,
    level: u8,
    page: u32,
    key: Key,
) -> Result<Shrunk, PageFault>
    requires may_change { (P.view pages.old).is_read_only ≡ false }
    ensures removes { IsTrue (P.view pages.old).is_told → (low high : ℕ) → IsHead (P.view pages.old).page level page low high → low ≤ key_in key → key_in key < high
        → ((n : ℕ) → Reaches (P.view pages.old).page level page n → IsTaken (P.view pages.old).fresh n) → HasChain (P.view pages.old)
        → Removes (P.view pages.old) (P.view pages.new) level page low high (key_in key) result }
    ensures fine { IsTrue (P.view pages.old).is_told → (low high : ℕ) → IsHead (P.view pages.old).page level page low high → HasTwo (P.view pages.old).page level page
        → low ≤ key_in key → key_in key < high → ((n : ℕ) → Reaches (P.view pages.old).page level page n → IsTaken (P.view pages.old).fresh n) → HasChain (P.view pages.old)
        → IfErr result NotDamaged }
    ensures down { OnOk result (IsTrue (P.view pages.old).is_told → LeadsDown (P.view pages.old).page (λ leaf. Unit) level page) }
    ensures names { IsTrue (P.view pages.old).is_told → NamesSince (P.view pages.old).page (P.view pages.new).page level page result }
    ensures counts { Counts (4 * (level + 1)) (3 * level + 1) (P.view pages.old) (P.view pages.new) }
    ensures cause { HasPageCause (P.view pages.old) (P.view pages.new) result }
    ensures keeps { P.keeps pages.old pages.new }
{
    if level == 0 {
        return remove_leaf(pages, page, key);
    }
    let way = match read_way(pages, page, key) {
        Ok(way) => way,
        Err(fault) => return Err(fault),
    };
    match remove_below(pages, level - 1, way.child, key) {
        Ok(Shrunk::Low) => mend(pages, kind_of(level - 1), page, way.place),
        Ok(Shrunk::Fine) => Ok(Shrunk::Fine),
        Ok(Shrunk::Absent) => Ok(Shrunk::Absent),
        Err(fault) => Err(fault),
    }
}
