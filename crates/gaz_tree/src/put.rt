//! One pair put into a tree.
ghost use Rattle.std.specs.Prelude.{◌≡◌, ◌≤◌, ◌<◌, ◌+◌, ◌*◌, ◌^◌, ℕ, false, List, length, IsTrue, IfOk, IfErr, OnOk};
ghost use Rattle.gaz_page.specs.Pages.{HasPageCause, Counts};
ghost use Rattle.gaz_leaf.specs.Node.{Pair, key_in, key_of, IsPage};
ghost use Rattle.gaz_tree.specs.Tree.{IsHead, Reaches};
ghost use Rattle.gaz_page.specs.Chains.{TakesAlong};
ghost use Rattle.gaz_tree.specs.Calls.{LeadsDown};
ghost use Rattle.gaz_tree.specs.Put.{HasChain, IsTaken, Puts, PutNames, IfKept};

use crate::add::{add_entry, add_to};
use crate::even::even_out;
use crate::get::read_way;
use crate::grown::Grown;
use crate::place::{Place, load_place, put_over};
use gaz_leaf::{Key, Kind};
use gaz_page::{PageFault, Pages};

/// Puts a pair into a leaf.
fn put_leaf<P: Pages>(
    pages: &mut P,
    page: u32,
    key: &[u8; 32],
    value: u64,
) -> Result<Grown, PageFault>
    requires may_change { (P.view pages.old).is_read_only ≡ false }
    ensures puts { IsTrue (P.view pages.old).is_told → (low high : ℕ) → IsHead (P.view pages.old).page 0 page low high → low ≤ key_of key.now → key_of key.now < high
        → IsTaken (P.view pages.old).fresh page → HasChain (P.view pages.old)
        → Puts (P.view pages.old) (P.view pages.new) 0 page low high (record { key = key_of key.now; value = value }) result }
    ensures along { OnOk result (IsTrue (P.view pages.old).is_told → TakesAlong 1 (P.view pages.old) (P.view pages.new)) }
    ensures own { OnOk result (IsTrue (P.view pages.old).is_told → IsPage Kind.Leaf page ((P.view pages.old).page page)) }
    ensures names { IsTrue (P.view pages.old).is_told → PutNames (P.view pages.old) (P.view pages.new) 0 page result }
    ensures light { IfKept result ((P.view pages.new).reads ≤ (P.view pages.old).reads + 2) }
    ensures counts { Counts 3 3 (P.view pages.old) (P.view pages.new) }
    ensures cause { HasPageCause (P.view pages.old) (P.view pages.new) result }
    ensures keeps { P.keeps pages.old pages.new }
{
    let mut buf = [0; 4096];
    match load_place(pages, page, Key::read(key, 0), value, &mut buf) {
        Ok(Place::There) => Ok(Grown::Same),
        Ok(Place::Over(n)) => match put_over(pages, page, &mut buf, n, key, value) {
            Ok(()) => Ok(Grown::Kept),
            Err(fault) => Err(fault),
        },
        Ok(Place::Between(n)) => add_to(pages, Kind::Leaf, page, &mut buf, n, key, value),
        Err(fault) => Err(fault),
    }
}

/// Puts a pair in below a page of a level. What is split off from the child becomes an entry of the page. A leaf that has become full
/// shares with the one before it.
pub fn put_below<P: Pages>(
    pages: &mut P,
    level: u8,
    page: u32,
    key: &[u8; 32],
    value: u64,
) -> Result<Grown, PageFault>
    requires may_change { (P.view pages.old).is_read_only ≡ false }
    ensures puts { IsTrue (P.view pages.old).is_told → (low high : ℕ) → IsHead (P.view pages.old).page level page low high → low ≤ key_of key.now → key_of key.now < high
        → ((n : ℕ) → Reaches (P.view pages.old).page level page n → IsTaken (P.view pages.old).fresh n) → HasChain (P.view pages.old)
        → Puts (P.view pages.old) (P.view pages.new) level page low high (record { key = key_of key.now; value = value }) result }
    ensures along { OnOk result (IsTrue (P.view pages.old).is_told → TakesAlong (level + 1) (P.view pages.old) (P.view pages.new)) }
    ensures down { OnOk result (IsTrue (P.view pages.old).is_told → LeadsDown (P.view pages.old).page (λ leaf. Unit) level page) }
    ensures names { IsTrue (P.view pages.old).is_told → PutNames (P.view pages.old) (P.view pages.new) level page result }
    ensures light { IfKept result (level ≡ 0 → (P.view pages.new).reads ≤ (P.view pages.old).reads + 2) }
    ensures counts { Counts (3 * (level + 1) + 1) (3 * (level + 1)) (P.view pages.old) (P.view pages.new) }
    ensures cause { HasPageCause (P.view pages.old) (P.view pages.new) result }
    ensures keeps { P.keeps pages.old pages.new }
{
    if level == 0 {
        return put_leaf(pages, page, key, value);
    }
    let way = match read_way(pages, page, Key::read(key, 0)) {
        Ok(way) => way,
        Err(fault) => return Err(fault),
    };
    match put_below(pages, level - 1, way.child, key, value) {
        Ok(Grown::Split(half)) => add_entry(
            pages,
            Kind::Inner,
            page,
            way.place + 1,
            &half.key,
            half.page as u64,
        ),
        Ok(Grown::Kept) => {
            if level != 1 {
                return Ok(Grown::Kept);
            }
            match even_out(pages, page, way) {
                Ok(()) => Ok(Grown::Kept),
                Err(fault) => Err(fault),
            }
        }
        Ok(Grown::Same) => Ok(Grown::Same),
        Err(fault) => Err(fault),
    }
}
