//! A scan over the pairs of a tree whose keys lie in a range.
ghost use Rattle.std.specs.Prelude.{◌≡◌, ◌<◌, ◌≤◌, ◌+◌, ◌*◌, ◌++◌, ℕ, List, [], IsTrue, IfOk, IfErr, OnOk, Some};
ghost use Rattle.gaz_leaf.specs.Node.{Pair, key_of, key_in, entry_at, count_of as count_in, IsShaped};
ghost use Rattle.gaz_tree.specs.Tree.{IsTop};
ghost use Rattle.gaz_tree.specs.Calls.{NamesOf};
ghost use Rattle.gaz_page.specs.Pages.{HasReads, NoMemory};
ghost use Rattle.gaz_scan.specs.Ranges.{between, up_to};
ghost use Rattle.gaz_scan.specs.Seek.{rest_of, IsAfterLast};
ghost use Rattle.gaz_scan.specs.Scan.{Comes, Gives, GivesFirst, Fills, IsOfLeaf, StandsOn, WentDown, tree_of};

use crate::after::after;
use crate::copied::Copied;
use crate::seek::seek_below;
use gaz_leaf::{Key, Kind, clear, count_of, key_at, key_bytes, value_at};
use gaz_page::{PageFault, Pages};
use gaz_tree::Tree;

/// A scan over the pairs whose keys lie in a closed range. It holds a copy of one leaf, so that most keys read no page.
#[derive(Drop)]
pub struct Scan {
    tree: Tree,
    copied: Copied,
    /// Where the keys behind the copied leaf begin, or None where no more come.
    next: Option<Key>,
    high: Key,
}

/// The next entry of the copied leaf, where there is one with a key up to this one.
fn give(copied: &mut Copied, high: Key) -> Option<([u8; 32], u64)>
    ensures first { (more : List Pair) → (copied.old.at ≡ count_in copied.old.bytes → up_to (key_in high) (rest_of copied.old ++ more) ≡ [])
        → GivesFirst (up_to (key_in high) (rest_of copied.old ++ more)) (up_to (key_in high) (rest_of copied.new ++ more)) result }
    ensures bytes { copied.new.bytes ≡ copied.old.bytes }
    ensures stands { StandsOn copied.new result }
{
    if copied.at == count_of(&copied.bytes) {
        return None;
    }
    if high.is_below(key_at(&copied.bytes, Kind::Leaf, copied.at)) {
        return None;
    }
    let given = (
        key_bytes(&copied.bytes, Kind::Leaf, copied.at),
        value_at(&copied.bytes, Kind::Leaf, copied.at),
    );
    copied.at += 1;
    Some(given)
}

/// The key after the last one of the copied leaf, or None where that is the greatest of all.
fn after_last(copied: &Copied) -> Option<Key>
    requires some { 0 < count_in copied.now.bytes }
    ensures { IsAfterLast copied.now result }
{
    let count = count_of(&copied.bytes);
    after(key_at(&copied.bytes, Kind::Leaf, count - 1))
}

impl Scan {
    /// A scan over the pairs of a tree with keys from `low` to `high`, both included.
    pub fn over(tree: Tree, low: [u8; 32], high: [u8; 32]) -> Scan
        ensures comes { (pages : ℕ → List ℕ) (pairs : List Pair) → IsTop pages tree.height tree.top pairs → Comes pages result (between (key_of low) (key_of high) pairs) }
        ensures tree { tree_of result ≡ tree }
    {
        let mut bytes = [0; 4096];
        clear(&mut bytes, Kind::Leaf, 0);
        Scan {
            tree,
            copied: Copied { bytes, at: 0 },
            next: Some(Key::read(&low, 0)),
            high: Key::read(&high, 0),
        }
    }

    /// Copies the leaf with the first pair from a key on, unless that key is past the range.
    fn fill_from<P: Pages>(&mut self, pages: &mut P, key: Key) -> Result<(), PageFault>
        requires empty { self.old.copied.at ≡ count_in self.old.copied.bytes }
        requires next { self.old.next ≡ Some key }
        ensures fills { IsTrue (P.view pages.old).is_told → (left : List Pair) → Comes (P.view pages.old).page self.old left
            → Fills (P.view pages.old).page (P.view pages.new).page self.new left result }
        ensures tree { tree_of self.new ≡ tree_of self.old }
        ensures fault { IfErr result NoMemory }
        ensures down { OnOk result (IsTrue (P.view pages.old).is_told → WentDown (P.view pages.old).page self.old self.new) }
        ensures names { IsTrue (P.view pages.old).is_told → NamesOf (P.view pages.old).page (tree_of self.old).height (tree_of self.old).top result }
        ensures reads { HasReads (2 * (tree_of self.old).height) (P.view pages.old) (P.view pages.new) result }
        ensures keeps { P.keeps pages.old pages.new }
    {
        if self.high.is_below(key) {
            return Ok(());
        }
        if self.tree.height == 0 {
            return Err(PageFault::Damaged(self.tree.top));
        }
        match seek_below(
            pages,
            self.tree.height - 1,
            self.tree.top,
            key,
            &mut self.copied,
        ) {
            Ok(true) => {
                self.next = after_last(&self.copied);
                Ok(())
            }
            Ok(false) => {
                self.next = None;
                Ok(())
            }
            Err(fault) => Err(fault),
        }
    }

    /// Copies the next leaf, where nothing is left of the one that was copied.
    fn fill<P: Pages>(&mut self, pages: &mut P) -> Result<(), PageFault>
        ensures fills { IsTrue (P.view pages.old).is_told → (left : List Pair) → Comes (P.view pages.old).page self.old left
            → Fills (P.view pages.old).page (P.view pages.new).page self.new left result }
        ensures tree { tree_of self.new ≡ tree_of self.old }
        ensures fault { IfErr result NoMemory }
        ensures down { OnOk result (IsTrue (P.view pages.old).is_told → WentDown (P.view pages.old).page self.old self.new) }
        ensures names { IsTrue (P.view pages.old).is_told → NamesOf (P.view pages.old).page (tree_of self.old).height (tree_of self.old).top result }
        ensures reads { HasReads (2 * (tree_of self.old).height) (P.view pages.old) (P.view pages.new) result }
        ensures keeps { P.keeps pages.old pages.new }
    {
        if self.copied.at != count_of(&self.copied.bytes) {
            return Ok(());
        }
        match self.next {
            None => Ok(()),
            Some(key) => self.fill_from(pages, key),
        }
    }

    /// The next pair, or None where all of the range were given. The pages have to be those over which the scan was begun.
    pub fn next<P: Pages>(&mut self, pages: &mut P) -> Result<Option<([u8; 32], u64)>, PageFault>
        ensures gives { IsTrue (P.view pages.old).is_told → (left : List Pair) → Comes (P.view pages.old).page self.old left
            → Gives (P.view pages.old).page (P.view pages.new).page self.new left result }
        ensures tree { tree_of self.new ≡ tree_of self.old }
        ensures fault { IfErr result NoMemory }
        // Whatever the pages are, each one that was gone through has its kind and its own number, and the pair stands in the leaf that was copied.
        ensures down { OnOk result (IsTrue (P.view pages.old).is_told → WentDown (P.view pages.old).page self.old self.new) }
        ensures stands { IfOk result (λ given. IsOfLeaf self.new given) }
        ensures names { IsTrue (P.view pages.old).is_told → NamesOf (P.view pages.old).page (tree_of self.old).height (tree_of self.old).top result }
        ensures reads { HasReads (2 * (tree_of self.old).height) (P.view pages.old) (P.view pages.new) result }
        ensures keeps { P.keeps pages.old pages.new }
    {
        match self.fill(pages) {
            Ok(()) => Ok(give(&mut self.copied, self.high)),
            Err(fault) => Err(fault),
        }
    }
}
