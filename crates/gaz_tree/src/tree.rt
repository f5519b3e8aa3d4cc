//! A tree by its topmost page.
ghost use Rattle.std.specs.Prelude.{◌≡◌, ◌≤◌, ◌+◌, ◌-◌, ◌*◌, ◌<◌, ℕ, List, [], false, IsTrue, IfOk, IfErr, OnOk, OnErr};
ghost use Rattle.gaz_page.specs.Pages.{HasPageCause, HasReads, Counts, IsDamaged, NoMemory, NotDamaged, damage};
ghost use Rattle.gaz_page.specs.Chains.{TakesAlong};
ghost use Rattle.gaz_leaf.specs.Node.{Pair, key_of};
ghost use Rattle.gaz_tree.specs.Pairs.{lookup};
ghost use Rattle.gaz_tree.specs.Put.{Changes, HasChain, TakesFew, Trades};
ghost use Rattle.gaz_tree.specs.Stands.{OfTree, Stands, PutDamage, PutNamesOf, IsWith, IsWithout};
ghost use Rattle.gaz_tree.specs.Tree.{IsTop, leaf_of};
ghost use Rattle.gaz_tree.specs.Calls.{IsGot, LeadsDown, NamesOf, NamesSinceOf, StandsIn};

use crate::add::load;
use crate::get::get_below;
use crate::grown::Grown;
use crate::put::put_below;
use crate::remove::remove_below;
use crate::root::grow;
use crate::shrunk::Shrunk;
use gaz_leaf::{Key, Kind, child_at, clear};
use gaz_page::{PageFault, Pages};

/// A tree of pages: the topmost page, and how many pages lie on the way from it to an entry, itself and the leaf included.
#[derive(Clone, Copy, Debug, PartialEq, Eq)]
pub struct Tree {
    pub top: u32,
    pub height: u8,
}

impl Tree {
    /// A tree without pairs, in one page that it takes.
    pub fn empty<P: Pages>(pages: &mut P) -> Result<Tree, PageFault>
        requires may_change { (P.view pages.old).is_read_only ≡ false }
        ensures stands { IfOk result (λ tree. IsTrue (P.view pages.old).is_told → HasChain (P.view pages.old) → 0 < (P.view pages.old).fresh → Stands (P.view pages.new) tree []) }
        ensures others { OnOk result (IsTrue (P.view pages.old).is_told → Changes (λ n. ⊥) (P.view pages.old) (P.view pages.new)) }
        ensures trades { IfOk result (λ tree. IsTrue (P.view pages.old).is_told → HasChain (P.view pages.old) → 0 < (P.view pages.old).fresh
            → Trades (λ n. ⊥) (OfTree (P.view pages.new).page tree) (P.view pages.old) (P.view pages.new)) }
        ensures takes { OnOk result (IsTrue (P.view pages.old).is_told → HasChain (P.view pages.old) → 0 < (P.view pages.old).fresh → TakesFew 1 (P.view pages.old) (P.view pages.new)) }
        ensures damaged { IsTrue (P.view pages.old).is_told → IsDamaged (damage (P.view pages.old)) result }
        ensures counts { Counts 1 2 (P.view pages.old) (P.view pages.new) }
        ensures cause { HasPageCause (P.view pages.old) (P.view pages.new) result }
        ensures keeps { P.keeps pages.old pages.new }
    {
        let top = match pages.take() {
            Ok(top) => top,
            Err(fault) => return Err(fault),
        };
        let mut buf = [0; 4096];
        clear(&mut buf, Kind::Leaf, top);
        match pages.write(top, &buf) {
            Ok(()) => Ok(Tree { top, height: 1 }),
            Err(fault) => Err(fault),
        }
    }

    /// The value of a key. At most as many pages are read as the tree is high.
    pub fn get<P: Pages>(self, pages: &mut P, key: &[u8; 32]) -> Result<Option<u64>, PageFault>
        ensures got { IsTrue (P.view pages.old).is_told → (pairs : List Pair) → IsTop (P.view pages.old).page self.height self.top pairs
            → IsGot (lookup (key_of key.now) pairs) result }
        // Whatever the pages are, each one that was gone through has its kind and its own number, and a value stands with its key in the leaf.
        ensures down { IfOk result (λ found. IsTrue (P.view pages.old).is_told
            → LeadsDown (P.view pages.old).page (λ leaf. StandsIn (leaf_of (P.view pages.old).page leaf) (key_of key.now) found) (self.height - 1) self.top) }
        ensures names { IsTrue (P.view pages.old).is_told → NamesOf (P.view pages.old).page self.height self.top result }
        ensures fault { IfErr result NoMemory }
        ensures reads { HasReads self.height (P.view pages.old) (P.view pages.new) result }
        ensures keeps { P.keeps pages.old pages.new }
    {
        if self.height == 0 {
            return Err(PageFault::Damaged(self.top));
        }
        get_below(pages, self.height - 1, self.top, Key::read(key, 0))
    }

    /// Puts a pair in, in the place of the one with its key where there is one. A pair that is there already writes nothing.
    /// After an error the pages are to be dropped.
    pub fn put<P: Pages>(
        &mut self,
        pages: &mut P,
        key: &[u8; 32],
        value: u64,
    ) -> Result<(), PageFault>
        requires may_change { (P.view pages.old).is_read_only ≡ false }
        ensures put { OnOk result (IsTrue (P.view pages.old).is_told → (pairs : List Pair) → Stands (P.view pages.old) self.old pairs
            → IsWith (P.view pages.old) (P.view pages.new) self.old self.new (record { key = key_of key.now; value = value }) pairs) }
        ensures damaged { IsTrue (P.view pages.old).is_told → (pairs : List Pair) → Stands (P.view pages.old) self.old pairs → PutDamage (P.view pages.old) self.old pairs result }
        // Whatever the pages are, those that were taken are as the free chain leads, and each one that was gone through has its kind and its own number.
        ensures along { OnOk result (IsTrue (P.view pages.old).is_told → TakesAlong (self.old.height + 1) (P.view pages.old) (P.view pages.new)) }
        ensures down { OnOk result (IsTrue (P.view pages.old).is_told → LeadsDown (P.view pages.old).page (λ leaf. Unit) (self.old.height - 1) self.old.top) }
        ensures names { IsTrue (P.view pages.old).is_told → PutNamesOf (P.view pages.old) (P.view pages.new) self.old result }
        ensures left { OnErr result (self.new ≡ self.old) }
        ensures low { self.old.height ≤ 6 → self.new.height ≤ 6 }
        ensures counts { Counts (3 * self.old.height + 2) (3 * self.old.height + 2) (P.view pages.old) (P.view pages.new) }
        ensures cause { HasPageCause (P.view pages.old) (P.view pages.new) result }
        ensures keeps { P.keeps pages.old pages.new }
    {
        if self.height == 0 {
            return Err(PageFault::Damaged(self.top));
        }
        let _words = Key::read(key, 0);
        match put_below(pages, self.height - 1, self.top, key, value) {
            Ok(Grown::Split(half)) => {
                if self.height >= 6 {
                    return Err(PageFault::Damaged(self.top));
                }
                match grow(pages, self.top, half) {
                    Ok(number) => {
                        self.top = number;
                        self.height += 1;
                        Ok(())
                    }
                    Err(fault) => Err(fault),
                }
            }
            Ok(Grown::Kept) => Ok(()),
            Ok(Grown::Same) => Ok(()),
            Err(fault) => Err(fault),
        }
    }

    /// Takes a key out, and answers whether it was there. A topmost page with one child is given back. No page is taken.
    /// After an error the pages are to be dropped.
    pub fn remove<P: Pages>(&mut self, pages: &mut P, key: &[u8; 32]) -> Result<bool, PageFault>
        requires may_change { (P.view pages.old).is_read_only ≡ false }
        ensures removed { IfOk result (λ found. IsTrue (P.view pages.old).is_told → (pairs : List Pair) → Stands (P.view pages.old) self.old pairs
            → IsWithout (P.view pages.old) (P.view pages.new) self.old self.new (key_of key.now) pairs found) }
        ensures damaged { IsTrue (P.view pages.old).is_told → (pairs : List Pair) → Stands (P.view pages.old) self.old pairs → IfErr result NotDamaged }
        // Whatever the pages are, each one that was gone through has its kind and its own number.
        ensures down { OnOk result (IsTrue (P.view pages.old).is_told → LeadsDown (P.view pages.old).page (λ leaf. Unit) (self.old.height - 1) self.old.top) }
        ensures names { IsTrue (P.view pages.old).is_told → NamesSinceOf (P.view pages.old).page (P.view pages.new).page self.old.height self.old.top result }
        ensures left { OnErr result (self.new ≡ self.old) }
        ensures low { self.new.height ≤ self.old.height }
        ensures counts { Counts (4 * self.old.height + 1) (3 * self.old.height + 2) (P.view pages.old) (P.view pages.new) }
        ensures cause { HasPageCause (P.view pages.old) (P.view pages.new) result }
        ensures keeps { P.keeps pages.old pages.new }
    {
        if self.height == 0 {
            return Err(PageFault::Damaged(self.top));
        }
        match remove_below(pages, self.height - 1, self.top, Key::read(key, 0)) {
            Ok(Shrunk::Absent) => return Ok(false),
            Ok(Shrunk::Fine) => return Ok(true),
            Ok(Shrunk::Low) => {}
            Err(fault) => return Err(fault),
        }
        if self.height == 1 {
            return Ok(true);
        }
        let mut buf = [0; 4096];
        let count = match load(pages, Kind::Inner, self.top, &mut buf) {
            Ok(count) => count,
            Err(fault) => return Err(fault),
        };
        if count != 1 {
            return Ok(true);
        }
        match pages.give(self.top) {
            Ok(()) => {}
            Err(fault) => return Err(fault),
        }
        self.top = child_at(&buf, 0);
        self.height -= 1;
        Ok(true)
    }
}
