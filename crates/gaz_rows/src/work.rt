//! The parts of a step: single calls on the tree and on records.
ghost use Rattle.std.specs.Prelude.{◌≡◌, ◌≤◌, ◌+◌, ◌*◌, ℕ, List, [], ◌∷◌, false, length, map, IsTrue, Some, IfOk, IfErr, OnOk, Contains, bytes_eq};
ghost use Rattle.std.specs.List.{list_any};
ghost use Rattle.gaz_page.specs.Pages.{Counts, Costs, HasPageCause, NotDamaged};
ghost use Rattle.gaz_leaf.specs.Node.{Pair, key_of};
ghost use Rattle.gaz_tree.specs.Pairs.{put, without};
ghost use Rattle.gaz_heap.specs.Place.{record_at, is_chain};
ghost use Rattle.gaz_rows.specs.Laid.{IsLaid, HasRoom};
ghost use Rattle.gaz_rows.specs.Work.{put_zeros, without_all, missing_in, GoesOn, ChangesFew, HasNewTree, HasNewHeap, TurnsPairs, IsSoundWith, HasAdded, HasDropped, HasPutFor};

use crate::RowStore;
use gaz_heap::{drop_record, put as put_record, replace};
use gaz_page::{PageFault, Pages};

/// Whether a key is one of these.
fn is_among(keys: &[[u8; 32]], key: &[u8; 32]) -> bool
    ensures { result ≡ list_any (bytes_eq key.now) keys.now }
{
    keys.contains(key)
}

impl<P: Pages> RowStore<P> {
    /// Puts a key with its value into the tree.
    pub(crate) fn put_key(&mut self, key: &[u8; 32], value: u64) -> Result<(), PageFault>
        requires may_change { (P.view self.old.pages).is_read_only ≡ false }
        ensures turns { OnOk result (IsTrue (P.view self.old.pages).is_told
            → TurnsPairs 7 (put (record { key = key_of key.now; value = value })) (P.view self.old.pages) self.old.root (P.view self.new.pages) self.new.root) }
        ensures damaged { IsTrue (P.view self.old.pages).is_told → IsSoundWith 7 1 (P.view self.old.pages) self.old.root result }
        ensures root { HasNewTree self.old.root self.new.root }
        ensures goes_on { GoesOn (P.view self.old.pages) (P.view self.new.pages) }
        ensures few { self.old.root.height ≤ 6 → ChangesFew 20 (P.view self.old.pages) (P.view self.new.pages) self.old.root self.new.root }
        ensures cause { HasPageCause (P.view self.old.pages) (P.view self.new.pages) result }
        ensures keeps { P.keeps self.old.pages self.new.pages }
    {
        let mut tree = self.tree();
        match tree.put(&mut self.pages, key, value) {
            Ok(()) => {}
            Err(fault) => return Err(fault),
        }
        self.root.top = tree.top;
        self.root.height = tree.height;
        Ok(())
    }

    /// Takes a key out of the tree.
    pub(crate) fn remove_key(&mut self, key: &[u8; 32]) -> Result<(), PageFault>
        requires may_change { (P.view self.old.pages).is_read_only ≡ false }
        ensures turns { OnOk result (IsTrue (P.view self.old.pages).is_told
            → TurnsPairs 0 (without (key_of key.now)) (P.view self.old.pages) self.old.root (P.view self.new.pages) self.new.root) }
        ensures damaged { IsTrue (P.view self.old.pages).is_told → IsSoundWith 0 0 (P.view self.old.pages) self.old.root result }
        ensures root { HasNewTree self.old.root self.new.root }
        ensures goes_on { GoesOn (P.view self.old.pages) (P.view self.new.pages) }
        ensures few { self.old.root.height ≤ 6 → ChangesFew 20 (P.view self.old.pages) (P.view self.new.pages) self.old.root self.new.root }
        ensures cause { HasPageCause (P.view self.old.pages) (P.view self.new.pages) result }
        ensures keeps { P.keeps self.old.pages self.new.pages }
    {
        let mut tree = self.tree();
        match tree.remove(&mut self.pages, key) {
            Ok(_) => {}
            Err(fault) => return Err(fault),
        }
        self.root.top = tree.top;
        self.root.height = tree.height;
        Ok(())
    }

    /// Puts the keys that the others lack into the tree, with the value 0.
    pub(crate) fn put_missing(
        &mut self,
        keys: &[[u8; 32]],
        others: &[[u8; 32]],
    ) -> Result<(), PageFault>
        requires may_change { (P.view self.old.pages).is_read_only ≡ false }
        ensures turns { OnOk result (IsTrue (P.view self.old.pages).is_told
            → TurnsPairs (7 * length keys.now) (put_zeros (missing_in others.now keys.now)) (P.view self.old.pages) self.old.root (P.view self.new.pages) self.new.root) }
        ensures damaged { IsTrue (P.view self.old.pages).is_told → IsSoundWith (7 * length keys.now) (length keys.now) (P.view self.old.pages) self.old.root result }
        ensures root { HasNewTree self.old.root self.new.root }
        ensures goes_on { GoesOn (P.view self.old.pages) (P.view self.new.pages) }
        ensures few { self.old.root.height ≤ 6 → ChangesFew (20 * length keys.now) (P.view self.old.pages) (P.view self.new.pages) self.old.root self.new.root }
        ensures differ { self.old.root.height ≤ 6 → ChangesFew (20 * length (missing_in others.now keys.now)) (P.view self.old.pages) (P.view self.new.pages) self.old.root self.new.root }
        ensures cause { HasPageCause (P.view self.old.pages) (P.view self.new.pages) result }
        ensures keeps { P.keeps self.old.pages self.new.pages }
    {
        let Some((key, rest)) = keys.split_first() else {
            return Ok(());
        };
        if is_among(others, key) {
            return self.put_missing(rest, others);
        }
        match self.put_key(key, 0) {
            Ok(()) => self.put_missing(rest, others),
            Err(fault) => Err(fault),
        }
    }

    /// Takes the keys that the others lack out of the tree.
    pub(crate) fn remove_missing(
        &mut self,
        keys: &[[u8; 32]],
        others: &[[u8; 32]],
    ) -> Result<(), PageFault>
        requires may_change { (P.view self.old.pages).is_read_only ≡ false }
        ensures turns { OnOk result (IsTrue (P.view self.old.pages).is_told
            → TurnsPairs 0 (without_all (missing_in others.now keys.now)) (P.view self.old.pages) self.old.root (P.view self.new.pages) self.new.root) }
        ensures damaged { IsTrue (P.view self.old.pages).is_told → IsSoundWith 0 0 (P.view self.old.pages) self.old.root result }
        ensures root { HasNewTree self.old.root self.new.root }
        ensures goes_on { GoesOn (P.view self.old.pages) (P.view self.new.pages) }
        ensures few { self.old.root.height ≤ 6 → ChangesFew (20 * length keys.now) (P.view self.old.pages) (P.view self.new.pages) self.old.root self.new.root }
        ensures differ { self.old.root.height ≤ 6 → ChangesFew (20 * length (missing_in others.now keys.now)) (P.view self.old.pages) (P.view self.new.pages) self.old.root self.new.root }
        ensures cause { HasPageCause (P.view self.old.pages) (P.view self.new.pages) result }
        ensures keeps { P.keeps self.old.pages self.new.pages }
    {
        let Some((key, rest)) = keys.split_first() else {
            return Ok(());
        };
        if is_among(others, key) {
            return self.remove_missing(rest, others);
        }
        match self.remove_key(key) {
            Ok(()) => self.remove_missing(rest, others),
            Err(fault) => Err(fault),
        }
    }

    /// Puts a record, and answers its place.
    pub(crate) fn add_record(&mut self, bytes: &[u8]) -> Result<u64, PageFault>
        requires may_change { (P.view self.old.pages).is_read_only ≡ false }
        requires short { length bytes.now ≤ 65535 }
        ensures added { IfOk result (λ place. IsTrue (P.view self.old.pages).is_told → (pairs : List Pair) (places : List ℕ)
            → IsLaid (P.view self.old.pages) self.old.root pairs (self.old.root.heap ∷ []) places
            → HasAdded (P.view self.old.pages) (P.view self.new.pages) self.old.root self.new.root pairs places bytes.now place) }
        ensures damaged { IsTrue (P.view self.old.pages).is_told → (pairs : List Pair) (places : List ℕ)
            → IsLaid (P.view self.old.pages) self.old.root pairs (self.old.root.heap ∷ []) places → HasRoom 34 (P.view self.old.pages) → IfErr result NotDamaged }
        ensures root { HasNewHeap self.old.root self.new.root }
        ensures costs { Costs 17 36 (P.view self.old.pages) (P.view self.new.pages) result }
        ensures keeps { P.keeps self.old.pages self.new.pages }
    {
        let mut current = self.root.heap;
        match put_record(&mut self.pages, &mut current, bytes) {
            Ok(place) => {
                self.root.heap = current;
                Ok(place)
            }
            Err(fault) => Err(fault),
        }
    }

    /// Drops the record at a place.
    pub(crate) fn drop_record(&mut self, place: u64) -> Result<(), PageFault>
        requires may_change { (P.view self.old.pages).is_read_only ≡ false }
        ensures dropped { OnOk result (IsTrue (P.view self.old.pages).is_told → (pairs : List Pair) (places : List ℕ)
            → IsLaid (P.view self.old.pages) self.old.root pairs (self.old.root.heap ∷ []) places → Contains places place
            → HasDropped (P.view self.old.pages) (P.view self.new.pages) self.new.root pairs places place) }
        ensures damaged { IsTrue (P.view self.old.pages).is_told → (pairs : List Pair) (places : List ℕ)
            → IsLaid (P.view self.old.pages) self.old.root pairs (self.old.root.heap ∷ []) places → Contains places place → IfErr result NotDamaged }
        ensures root { self.new.root ≡ self.old.root }
        ensures costs { Costs 17 18 (P.view self.old.pages) (P.view self.new.pages) result }
        ensures keeps { P.keeps self.old.pages self.new.pages }
    {
        let mut current = self.root.heap;
        drop_record(&mut self.pages, &mut current, place)
    }

    /// Puts a record for the one that stands at a place, there where it is no longer than that one or its page has room, and answers its place.
    pub(crate) fn put_for(&mut self, place: u64, bytes: &[u8]) -> Result<u64, PageFault>
        requires may_change { (P.view self.old.pages).is_read_only ≡ false }
        requires short { length bytes.now ≤ 65535 }
        ensures put { IfOk result (λ now. IsTrue (P.view self.old.pages).is_told → (pairs : List Pair) (places : List ℕ)
            → IsLaid (P.view self.old.pages) self.old.root pairs (self.old.root.heap ∷ []) places → Contains places place
            → HasPutFor (P.view self.old.pages) (P.view self.new.pages) self.new.root pairs places bytes.now place now) }
        ensures stays { IfOk result (λ now. IsTrue (P.view self.old.pages).is_told → (earlier : List ℕ) → record_at (P.view self.old.pages).page place ≡ Some earlier
            → (IsTrue (is_chain place) → ⊥) → length bytes.now ≤ length earlier → now ≡ place) }
        ensures damaged { IsTrue (P.view self.old.pages).is_told → (pairs : List Pair) (places : List ℕ)
            → IsLaid (P.view self.old.pages) self.old.root pairs (self.old.root.heap ∷ []) places → Contains places place → HasRoom 34 (P.view self.old.pages)
            → IfErr result NotDamaged }
        ensures root { HasNewHeap self.old.root self.new.root }
        ensures costs { Costs 35 55 (P.view self.old.pages) (P.view self.new.pages) result }
        ensures keeps { P.keeps self.old.pages self.new.pages }
    {
        match replace(&mut self.pages, place, bytes) {
            Ok(true) => return Ok(place),
            Ok(false) => {}
            Err(fault) => return Err(fault),
        }
        match self.drop_record(place) {
            Ok(()) => self.add_record(bytes),
            Err(fault) => Err(fault),
        }
    }
}
