//! The value of a key.
ghost use Rattle.std.specs.Prelude.{◌≡◌, ◌≤◌, ◌<◌, ◌+◌, ◌^◌, ℕ, suc, IsTrue, IfOk, IfErr, List};
ghost use Rattle.gaz_leaf.specs.Node.{Pair, key_in, pairs_in, count_of as count_in, IsForm, IsPage};
ghost use Rattle.gaz_tree.specs.Pairs.{Within, lookup};
ghost use Rattle.gaz_tree.specs.Tree.{BeginsWithZero, children_of, leaf_of, tree_pairs, IsHead, SomeEntry};
ghost use Rattle.gaz_page.specs.Pages.{HasReads, NoMemory};
ghost use Rattle.gaz_tree.specs.Calls.{IsGot, LeadsTo, LeadsDown, Names, StandsIn};

use crate::way::{Way, value_in, way_in};
use gaz_leaf::{Key, Kind};
use gaz_page::{PageFault, Pages};

/// The value of the key in a leaf.
pub fn read_value<P: Pages>(pages: &mut P, page: u32, key: Key) -> Result<Option<u64>, PageFault>
    ensures found { IsTrue (P.view pages.old).is_told → (low high : ℕ) → IsForm Kind.Leaf page ((P.view pages.old).page page)
        → Within low high (leaf_of (P.view pages.old).page page) → low ≤ key_in key → key_in key < high
        → IsGot (lookup (key_in key) (leaf_of (P.view pages.old).page page)) result }
    ensures own { IfOk result (λ found. IsTrue (P.view pages.old).is_told → IsPage Kind.Leaf page ((P.view pages.old).page page)) }
    ensures there { IfOk result (λ found. IsTrue (P.view pages.old).is_told → StandsIn (leaf_of (P.view pages.old).page page) (key_in key) found) }
    ensures names { IsTrue (P.view pages.old).is_told → Names (P.view pages.old).page 0 page result }
    ensures fault { IfErr result NoMemory }
    ensures reads { HasReads 1 (P.view pages.old) (P.view pages.new) result }
    ensures keeps { P.keeps pages.old pages.new }
{
    match pages.read(page) {
        Ok(bytes) => value_in(bytes, page, key),
        Err(fault) => Err(fault),
    }
}

/// The way from an inner page towards the key.
pub fn read_way<P: Pages>(pages: &mut P, page: u32, key: Key) -> Result<Way, PageFault>
    ensures leads { IsTrue (P.view pages.old).is_told → IsForm Kind.Inner page ((P.view pages.old).page page)
        → BeginsWithZero (children_of (P.view pages.old).page page) → LeadsTo (children_of (P.view pages.old).page page) (key_in key) result }
    ensures child { IfOk result (λ way. IsTrue (P.view pages.old).is_told → SomeEntry (λ e. e.value ≡ way.child) (children_of (P.view pages.old).page page)) }
    ensures place { IfOk result (λ way. IsTrue (P.view pages.old).is_told → way.place < count_in ((P.view pages.old).page page)) }
    ensures small { IfOk result (λ way. way.place < 2 ^ 16) }
    ensures own { IfOk result (λ way. IsTrue (P.view pages.old).is_told → IsPage Kind.Inner page ((P.view pages.old).page page)) }
    ensures names { IsTrue (P.view pages.old).is_told → (below : ℕ) → Names (P.view pages.old).page (suc below) page result }
    ensures fault { IfErr result NoMemory }
    ensures reads { HasReads 1 (P.view pages.old) (P.view pages.new) result }
    ensures keeps { P.keeps pages.old pages.new }
{
    match pages.read(page) {
        Ok(bytes) => way_in(bytes, page, key),
        Err(fault) => Err(fault),
    }
}

/// The value of the key below a page of a level.
pub fn get_below<P: Pages>(
    pages: &mut P,
    level: u8,
    page: u32,
    key: Key,
) -> Result<Option<u64>, PageFault>
    ensures got { IsTrue (P.view pages.old).is_told → (low high : ℕ) → IsHead (P.view pages.old).page level page low high
        → low ≤ key_in key → key_in key < high → IsGot (lookup (key_in key) (tree_pairs (P.view pages.old).page level page)) result }
    ensures down { IfOk result (λ found. IsTrue (P.view pages.old).is_told
        → LeadsDown (P.view pages.old).page (λ leaf. StandsIn (leaf_of (P.view pages.old).page leaf) (key_in key) found) level page) }
    ensures names { IsTrue (P.view pages.old).is_told → Names (P.view pages.old).page level page result }
    ensures fault { IfErr result NoMemory }
    ensures reads { HasReads (level + 1) (P.view pages.old) (P.view pages.new) result }
    ensures keeps { P.keeps pages.old pages.new }
{
    if level == 0 {
        return read_value(pages, page, key);
    }
    match read_way(pages, page, key) {
        Ok(way) => get_below(pages, level - 1, way.child, key),
        Err(fault) => Err(fault),
    }
}
