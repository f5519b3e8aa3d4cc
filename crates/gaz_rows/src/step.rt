//! One line is stepped in: it comes, it goes, or it takes the place of another.
ghost use Rattle.std.specs.Prelude.{◌≡◌, ◌≤◌, ◌<◌, ◌+◌, ◌-◌, ℕ, List, [], ◌∷◌, false, length, IsTrue, IfErr, IfOk, OnOk, Contains, Some, None, IsSome, ◌*◌};
ghost use Rattle.gaz_plain.specs.Gazetteer.{limit_of};
ghost use Rattle.gaz_leaf.specs.Node.{Pair, key_of};
ghost use Rattle.gaz_tree.specs.Pairs.{lookup};
ghost use Rattle.gaz_heap.specs.Place.{record_at};
ghost use Rattle.gaz_keys.specs.Lines.{more_keys, IsKeyed};
ghost use Rattle.gaz_rows.specs.Laid.{IsLaid};
ghost use Rattle.gaz_rows.specs.Steps.{counted, line_put};
ghost use Rattle.gaz_rows.specs.Work.{ChangesFew};
ghost use Rattle.gaz_rows.specs.Change.{HasCome, HasGone, HasReplaced};
ghost use Rattle.gaz_plain.specs.Gazetteer.{Gazetteer, is_one_line, table_of, is_delete, after_line};
ghost use Rattle.gaz_num.specs.declared.words.Table.TheVariants.{Codes};
ghost use Rattle.gaz_num.specs.Check.{reason_against, key_in};
ghost use Rattle.gaz_num.specs.declared.words.Kind.{Kind};
ghost use Rattle.gaz_rows.specs.Store.{HasAsked, IsSoundOver, IsStore, IsStepFaultOf};
ghost use Rattle.gaz_rows.specs.Target.{IsTargetOf};
ghost use Rattle.gaz_rows.specs.Stepping.{IsKeyOver, IsChecked, HasStepped, HasSteppedTo, FailsRightly, StandsAt, HasNewCounts, HasCount, ComesRightly, ChangesRightly, IsRefused, IsFullBy, IsIdle, StandsStill, ChangesBetween, most_between, StaysThere, PutsInItsPlace, HasAlready, IsOfPages, StepCosts, TakesLeastSlot};

use crate::RowStore;
use crate::counts::{count_of, limit_of, set_count};
use crate::fault::{AskFault, StepFault};
use crate::target::{Target, is_delete, is_keyed, table_of, target_of};
use gaz_keys::{MoreKeys, code_key_of};
use gaz_num::{Kind, Table};
use gaz_page::Pages;
use std::alloc::Global;

/// The page of a place.
fn page_of(place: u64) -> u32 {
    u32::try_from(place >> 16).unwrap_or(0)
}

impl<P: Pages> RowStore<P> {
    /// Puts a line of which its table has none with its key.
    pub(crate) fn come(
        &mut self,
        alloc: Global,
        table: Table,
        key: &[u8; 32],
        line: &[u8],
    ) -> Result<(), StepFault>
        requires may_change { (P.view self.old.pages).is_read_only ≡ false }
        requires keyed { IsKeyed table line.now }
        requires short { length line.now ≤ 65535 }
        ensures come { OnOk result (IsTrue (P.view self.old.pages).is_told → (pairs : List Pair) (places : List ℕ)
            → IsLaid (P.view self.old.pages) self.old.root pairs (self.old.root.heap ∷ []) places
            → HasCome (P.view self.old.pages) (P.view self.new.pages) self.new.root pairs places key.now (more_keys table line.now) line.now) }
        ensures room { OnOk result (counted self.old.root.counts table < limit_of table) }
        ensures count { OnOk result (HasCount table (counted self.old.root.counts table + 1) self.old.root self.new.root) }
        ensures fault { IfErr result (ComesRightly table self.old.root (P.view self.old.pages)) }
        ensures refused { IsRefused (P.view self.old.pages) self.old.root (P.view self.new.pages) self.new.root result }
        ensures root { HasNewCounts self.old.root self.new.root }
        ensures costs { StepCosts 320 (P.view self.old.pages) self.old.root (P.view self.new.pages) self.new.root result }
        ensures keeps { P.keeps self.old.pages self.new.pages }
    {
        let count = count_of(&self.root.counts, table);
        if count >= limit_of(table) {
            return Err(StepFault::Full(table));
        }
        let more = match MoreKeys::of(alloc, table, line) {
            Ok(more) => more,
            Err(_) => return Err(StepFault::Memory),
        };
        match self.add_line(key, more.as_slice(), line) {
            Ok(()) => {
                set_count(&mut self.root.counts, table, count + 1);
                Ok(())
            }
            Err(fault) => Err(StepFault::from(fault)),
        }
    }

    /// Takes out the line that stands at a place.
    pub(crate) fn go(
        &mut self,
        alloc: Global,
        table: Table,
        key: &[u8; 32],
        place: u64,
        was: &[u8],
    ) -> Result<(), StepFault>
        requires may_change { (P.view self.old.pages).is_read_only ≡ false }
        ensures gone { OnOk result (IsTrue (P.view self.old.pages).is_told → (pairs : List Pair) (places : List ℕ)
            → IsLaid (P.view self.old.pages) self.old.root pairs (self.old.root.heap ∷ []) places → Contains places place
            → HasGone (P.view self.old.pages) (P.view self.new.pages) self.new.root pairs places key.now (more_keys table was.now) place) }
        ensures count { OnOk result (HasCount table (counted self.old.root.counts table - 1) self.old.root self.new.root) }
        ensures fault { IfErr result (ChangesRightly table self.old.root (P.view self.old.pages) place was.now) }
        ensures root { HasNewCounts self.old.root self.new.root }
        ensures costs { StepCosts 320 (P.view self.old.pages) self.old.root (P.view self.new.pages) self.new.root result }
        ensures keeps { P.keeps self.old.pages self.new.pages }
    {
        let count = count_of(&self.root.counts, table);
        if count == 0 || !is_keyed(table, was) {
            return Err(StepFault::Damaged(page_of(place)));
        }
        let more = match MoreKeys::of(alloc, table, was) {
            Ok(more) => more,
            Err(_) => return Err(StepFault::Memory),
        };
        match self.remove_line(key, more.as_slice(), place) {
            Ok(()) => {
                set_count(&mut self.root.counts, table, count - 1);
                Ok(())
            }
            Err(fault) => Err(StepFault::from(fault)),
        }
    }

    /// Puts a line for the one that stands at a place and has the same key.
    pub(crate) fn replace(
        &mut self,
        alloc: Global,
        table: Table,
        key: &[u8; 32],
        place: u64,
        was: &[u8],
        line: &[u8],
    ) -> Result<(), StepFault>
        requires may_change { (P.view self.old.pages).is_read_only ≡ false }
        requires keyed { IsKeyed table line.now }
        requires short { length line.now ≤ 65535 }
        ensures replaced { OnOk result (IsTrue (P.view self.old.pages).is_told → (pairs : List Pair) (places : List ℕ)
            → IsLaid (P.view self.old.pages) self.old.root pairs (self.old.root.heap ∷ []) places → Contains places place
            → HasReplaced (P.view self.old.pages) (P.view self.new.pages) self.new.root pairs places key.now (more_keys table was.now) (more_keys table line.now) place line.now) }
        ensures count { self.new.root.counts ≡ self.old.root.counts }
        ensures differ { self.old.root.height ≤ 6 → ChangesFew (most_between table was.now line.now) (P.view self.old.pages) (P.view self.new.pages) self.old.root self.new.root }
        ensures fault { IfErr result (ChangesRightly table self.old.root (P.view self.old.pages) place was.now) }
        ensures root { HasNewCounts self.old.root self.new.root }
        ensures costs { StepCosts 320 (P.view self.old.pages) self.old.root (P.view self.new.pages) self.new.root result }
        ensures keeps { P.keeps self.old.pages self.new.pages }
    {
        if !is_keyed(table, was) {
            return Err(StepFault::Damaged(page_of(place)));
        }
        let old = match MoreKeys::of(alloc, table, was) {
            Ok(old) => old,
            Err(_) => return Err(StepFault::Memory),
        };
        let more = match MoreKeys::of(alloc, table, line) {
            Ok(more) => more,
            Err(_) => return Err(StepFault::Memory),
        };
        match self.replace_line(key, old.as_slice(), more.as_slice(), place, line) {
            Ok(()) => Ok(()),
            Err(fault) => Err(StepFault::from(fault)),
        }
    }

    /// Takes out the line that stands at a place, or puts another for it where that isn't the same.
    fn change(
        &mut self,
        alloc: Global,
        kind: Kind,
        key: &[u8; 32],
        place: u64,
        was: &[u8],
        line: &[u8],
    ) -> Result<(), StepFault>
        requires may_change { (P.view self.old.pages).is_read_only ≡ false }
        requires accepted { reason_against kind line.now ≡ None }
        requires keyed { IsSome (key_in kind line.now) }
        requires short { length line.now ≤ 65535 }
        ensures stands { OnOk result (IsTrue (P.view self.old.pages).is_told → (gaz : Gazetteer) (stands : IsStore gaz (P.view self.old.pages) self.old.root)
            → IsKeyOver gaz stands.slots kind line.now key.now → StandsAt (P.view self.old.pages) key.now stands.pairs place was.now → IsTrue (is_one_line line.now)
            → HasSteppedTo gaz kind line.now (P.view self.new.pages) self.new.root) }
        ensures idle { OnOk result (IsTrue (P.view self.old.pages).is_told → line_put kind line.now ≡ Some was.now → StandsStill (P.view self.old.pages) self.old.root (P.view self.new.pages) self.new.root) }
        ensures differ { is_delete kind ≡ false → self.old.root.height ≤ 6 → ChangesFew (most_between (table_of kind) was.now line.now) (P.view self.old.pages) (P.view self.new.pages) self.old.root self.new.root }
        ensures stays { OnOk result (IsTrue (P.view self.old.pages).is_told → is_delete kind ≡ false → PutsInItsPlace (P.view self.old.pages) self.old.root (P.view self.new.pages) place was.now line.now) }
        ensures fault { IfErr result (ChangesRightly (table_of kind) self.old.root (P.view self.old.pages) place was.now) }
        ensures root { HasNewCounts self.old.root self.new.root }
        ensures costs { StepCosts 320 (P.view self.old.pages) self.old.root (P.view self.new.pages) self.new.root result }
        ensures keeps { P.keeps self.old.pages self.new.pages }
    {
        if is_delete(kind) {
            return self.go(alloc, table_of(kind), key, place, was);
        }
        if was == line {
            return Ok(());
        }
        self.replace(alloc, table_of(kind), key, place, was, line)
    }

    /// Takes out the line whose place this is, or puts another for it.
    fn change_at(
        &mut self,
        alloc: Global,
        kind: Kind,
        key: &[u8; 32],
        place: u64,
        line: &[u8],
    ) -> Result<(), StepFault>
        requires may_change { (P.view self.old.pages).is_read_only ≡ false }
        requires accepted { reason_against kind line.now ≡ None }
        requires keyed { IsSome (key_in kind line.now) }
        requires short { length line.now ≤ 65535 }
        ensures stands { OnOk result (IsTrue (P.view self.old.pages).is_told → (gaz : Gazetteer) (stands : IsStore gaz (P.view self.old.pages) self.old.root)
            → IsKeyOver gaz stands.slots kind line.now key.now → lookup (key_of key.now) stands.pairs ≡ Some place → IsTrue (is_one_line line.now)
            → HasSteppedTo gaz kind line.now (P.view self.new.pages) self.new.root) }
        ensures fault { IfErr result (λ fault. IsTrue (P.view self.old.pages).is_told → (gaz : Gazetteer) (stands : IsStore gaz (P.view self.old.pages) self.old.root)
            → IsKeyOver gaz stands.slots kind line.now key.now → lookup (key_of key.now) stands.pairs ≡ Some place → IsTrue (is_one_line line.now)
            → IsStepFaultOf (after_line gaz kind line.now) fault) }
        ensures idle { OnOk result (IsTrue (P.view self.old.pages).is_told → (gaz : Gazetteer) (stands : IsStore gaz (P.view self.old.pages) self.old.root)
            → IsKeyOver gaz stands.slots kind line.now key.now → lookup (key_of key.now) stands.pairs ≡ Some place → IsTrue (is_one_line line.now) → HasAlready gaz kind line.now
            → StandsStill (P.view self.old.pages) self.old.root (P.view self.new.pages) self.new.root) }
        ensures differ { OnOk result (IsTrue (P.view self.old.pages).is_told → is_delete kind ≡ false → self.old.root.height ≤ 6 → (was : List ℕ) → record_at (P.view self.old.pages).page place ≡ Some was
            → (P.view self.new.pages).changed ≤ (P.view self.old.pages).changed + most_between (table_of kind) was line.now) }
        ensures stays { OnOk result (IsTrue (P.view self.old.pages).is_told → is_delete kind ≡ false → (was : List ℕ)
            → PutsInItsPlace (P.view self.old.pages) self.old.root (P.view self.new.pages) place was line.now) }
        ensures why { IfErr result IsOfPages }
        ensures root { HasNewCounts self.old.root self.new.root }
        ensures costs { StepCosts 320 (P.view self.old.pages) self.old.root (P.view self.new.pages) self.new.root result }
        ensures keeps { P.keeps self.old.pages self.new.pages }
    {
        let mut buf = [0; 65535];
        match self.record(place, &mut buf) {
            Ok(size) => self.change(alloc, kind, key, place, &buf[..size], line),
            Err(fault) => Err(StepFault::from(fault)),
        }
    }

    /// The key of an admin code with its own slot, or with a free one.
    fn key_of_code(&mut self, code: &[u8]) -> Result<[u8; 32], AskFault>
        ensures key { IfOk result (λ key. IsTrue (P.view self.old.pages).is_told → (gaz : Gazetteer) → (stands : IsStore gaz (P.view self.old.pages) self.old.root)
            → (kind : Kind) (line : List ℕ) → table_of kind ≡ Codes → key_in kind line ≡ Some code.now → IsKeyOver gaz stands.slots kind line key) }
        ensures damaged { IfErr result (IsSoundOver (P.view self.old.pages) self.old.root) }
        ensures asked { HasAsked ((2 * self.old.root.height + 17) * (self.old.root.counts.codes + 1)) (P.view self.old.pages) (P.view self.new.pages) result }
        ensures root { self.new.root ≡ self.old.root }
        ensures keeps { P.keeps self.old.pages self.new.pages }
    {
        let mut buf = [0; 65535];
        match self.slot_of(code, &mut buf) {
            Ok(slot) => Ok(code_key_of(code, slot)),
            Err(fault) => Err(fault),
        }
    }

    /// The key by which the place of a line's like stands: that of the target, with the code's own slot or a free one.
    fn key_of(&mut self, target: Target<'_>) -> Result<[u8; 32], AskFault>
        ensures key { IfOk result (λ key. IsTrue (P.view self.old.pages).is_told → (gaz : Gazetteer) → (stands : IsStore gaz (P.view self.old.pages) self.old.root)
            → (kind : Kind) (line : List ℕ) → IsTargetOf kind line (Some target.entry) → IsKeyOver gaz stands.slots kind line key) }
        ensures damaged { IfErr result (IsSoundOver (P.view self.old.pages) self.old.root) }
        ensures asked { HasAsked ((2 * self.old.root.height + 17) * (self.old.root.counts.codes + 1)) (P.view self.old.pages) (P.view self.new.pages) result }
        ensures root { self.new.root ≡ self.old.root }
        ensures keeps { P.keeps self.old.pages self.new.pages }
    {
        match target {
            Target::Key(key) => Ok(key),
            Target::Code(code) => self.key_of_code(code),
        }
    }

    /// Takes the line with the key of this one out of its table, and puts this one in its place unless it is one that only takes out; what
    /// `PlainGaz::step` does. Of the index only those keys change that the two lines don't share, and a line that isn't longer keeps its place.
    /// A line that changes nothing there changes no page, and an admin code that comes takes the least slot that none with its first bytes has.
    /// `Malformed` and `Full` are those of the definition, and leave all as it was, and `Memory` comes only where the line would be taken;
    /// after another fault than these two the store is to be dropped. At most 320 pages are changed, and the height stays at most 6.
    pub fn step(&mut self, alloc: Global, kind: Kind, line: &[u8]) -> Result<(), StepFault>
        requires one_line { IsTrue (is_one_line line.now) }
        requires may_change { (P.view self.old.pages).is_read_only ≡ false }
        ensures steps { OnOk result (IsTrue (P.view self.old.pages).is_told → HasStepped kind line.now (P.view self.old.pages) self.old.root (P.view self.new.pages) self.new.root) }
        ensures idle { OnOk result (IsTrue (P.view self.old.pages).is_told → IsIdle kind line.now (P.view self.old.pages) self.old.root (P.view self.new.pages) self.new.root) }
        ensures differ { OnOk result (IsTrue (P.view self.old.pages).is_told → ChangesBetween kind line.now (P.view self.old.pages) self.old.root (P.view self.new.pages)) }
        ensures stays { OnOk result (IsTrue (P.view self.old.pages).is_told → StaysThere kind line.now (P.view self.old.pages) self.old.root (P.view self.new.pages)) }
        ensures slot { OnOk result (IsTrue (P.view self.old.pages).is_told → TakesLeastSlot kind line.now (P.view self.old.pages) self.old.root (P.view self.new.pages) self.new.root) }
        ensures checked { IsChecked (reason_against kind line.now) result }
        ensures fault { IfErr result (λ fault. IsTrue (P.view self.old.pages).is_told → FailsRightly kind line.now (P.view self.old.pages) self.old.root fault) }
        ensures full { IfErr result (IsFullBy kind self.old.root) }
        ensures refused { IsRefused (P.view self.old.pages) self.old.root (P.view self.new.pages) self.new.root result }
        ensures root { HasNewCounts self.old.root self.new.root }
        ensures costs { StepCosts 320 (P.view self.old.pages) self.old.root (P.view self.new.pages) self.new.root result }
        ensures keeps { P.keeps self.old.pages self.new.pages }
    {
        let target = match target_of(kind, line) {
            Ok(Some(target)) => target,
            Ok(None) => return Ok(()),
            Err(reason) => return Err(StepFault::Malformed(reason)),
        };
        let key = match self.key_of(target) {
            Ok(key) => key,
            Err(fault) => return Err(StepFault::from(fault)),
        };
        match self.place(&key) {
            Ok(Some(place)) => self.change_at(alloc, kind, &key, place, line),
            Ok(None) if is_delete(kind) => Ok(()),
            Ok(None) => self.come(alloc, table_of(kind), &key, line),
            Err(fault) => Err(StepFault::from(fault)),
        }
    }
}
