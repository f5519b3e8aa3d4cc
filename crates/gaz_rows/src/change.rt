//! What a step changes: a line comes, goes, or takes the place of another.
ghost use Rattle.std.specs.Prelude.{◌≡◌, ◌≤◌, ◌+◌, ◌*◌, ℕ, List, [], ◌∷◌, false, length, IsTrue, IfErr, OnOk, Contains};
ghost use Rattle.gaz_page.specs.Pages.{HasPageCause, NotDamaged};
ghost use Rattle.gaz_leaf.specs.Node.{Pair};
ghost use Rattle.gaz_rows.specs.Laid.{IsLaid};
ghost use Rattle.gaz_rows.specs.Work.{GoesOn, ChangesFew, missing_in};
ghost use Rattle.gaz_rows.specs.Change.{HasCome, HasGone, HasReplaced, HasNewPages, HasLeft};

use crate::RowStore;
use gaz_page::{PageFault, Pages};

impl<P: Pages> RowStore<P> {
    /// Puts a line of which the table has none with its key: its record, its key, and its other keys.
    pub(crate) fn add_line(
        &mut self,
        key: &[u8; 32],
        more: &[[u8; 32]],
        line: &[u8],
    ) -> Result<(), PageFault>
        requires may_change { (P.view self.old.pages).is_read_only ≡ false }
        requires few { length more.now ≤ 5 }
        requires short { length line.now ≤ 65535 }
        ensures come { OnOk result (IsTrue (P.view self.old.pages).is_told → (pairs : List Pair) (places : List ℕ)
            → IsLaid (P.view self.old.pages) self.old.root pairs (self.old.root.heap ∷ []) places
            → HasCome (P.view self.old.pages) (P.view self.new.pages) self.new.root pairs places key.now more.now line.now) }
        ensures damaged { IsTrue (P.view self.old.pages).is_told → (pairs : List Pair) (places : List ℕ)
            → IsLaid (P.view self.old.pages) self.old.root pairs (self.old.root.heap ∷ []) places → HasLeft (P.view self.old.pages) pairs → IfErr result NotDamaged }
        ensures root { HasNewPages self.old.root self.new.root }
        ensures goes_on { GoesOn (P.view self.old.pages) (P.view self.new.pages) }
        ensures few { self.old.root.height ≤ 6 → ChangesFew 320 (P.view self.old.pages) (P.view self.new.pages) self.old.root self.new.root }
        ensures cause { HasPageCause (P.view self.old.pages) (P.view self.new.pages) result }
        ensures keeps { P.keeps self.old.pages self.new.pages }
    {
        let place = match self.add_record(line) {
            Ok(place) => place,
            Err(fault) => return Err(fault),
        };
        match self.put_key(key, place) {
            Ok(()) => self.put_missing(more, &[]),
            Err(fault) => Err(fault),
        }
    }

    /// Takes out the line at a place: its key, its other keys, and its record.
    pub(crate) fn remove_line(
        &mut self,
        key: &[u8; 32],
        more: &[[u8; 32]],
        place: u64,
    ) -> Result<(), PageFault>
        requires may_change { (P.view self.old.pages).is_read_only ≡ false }
        requires few { length more.now ≤ 5 }
        ensures gone { OnOk result (IsTrue (P.view self.old.pages).is_told → (pairs : List Pair) (places : List ℕ)
            → IsLaid (P.view self.old.pages) self.old.root pairs (self.old.root.heap ∷ []) places → Contains places place
            → HasGone (P.view self.old.pages) (P.view self.new.pages) self.new.root pairs places key.now more.now place) }
        ensures damaged { IsTrue (P.view self.old.pages).is_told → (pairs : List Pair) (places : List ℕ)
            → IsLaid (P.view self.old.pages) self.old.root pairs (self.old.root.heap ∷ []) places → Contains places place → HasLeft (P.view self.old.pages) pairs
            → IfErr result NotDamaged }
        ensures root { HasNewPages self.old.root self.new.root }
        ensures goes_on { GoesOn (P.view self.old.pages) (P.view self.new.pages) }
        ensures few { self.old.root.height ≤ 6 → ChangesFew 320 (P.view self.old.pages) (P.view self.new.pages) self.old.root self.new.root }
        ensures cause { HasPageCause (P.view self.old.pages) (P.view self.new.pages) result }
        ensures keeps { P.keeps self.old.pages self.new.pages }
    {
        match self.remove_key(key) {
            Ok(()) => {}
            Err(fault) => return Err(fault),
        }
        match self.remove_missing(more, &[]) {
            Ok(()) => self.drop_record(place),
            Err(fault) => Err(fault),
        }
    }

    /// Puts a line for the one at a place, which has the same key. Of the other keys only those change that the two lines don't share.
    pub(crate) fn replace_line(
        &mut self,
        key: &[u8; 32],
        was: &[[u8; 32]],
        more: &[[u8; 32]],
        place: u64,
        line: &[u8],
    ) -> Result<(), PageFault>
        requires may_change { (P.view self.old.pages).is_read_only ≡ false }
        requires few_were { length was.now ≤ 5 }
        requires few { length more.now ≤ 5 }
        requires short { length line.now ≤ 65535 }
        ensures replaced { OnOk result (IsTrue (P.view self.old.pages).is_told → (pairs : List Pair) (places : List ℕ)
            → IsLaid (P.view self.old.pages) self.old.root pairs (self.old.root.heap ∷ []) places → Contains places place
            → HasReplaced (P.view self.old.pages) (P.view self.new.pages) self.new.root pairs places key.now was.now more.now place line.now) }
        ensures damaged { IsTrue (P.view self.old.pages).is_told → (pairs : List Pair) (places : List ℕ)
            → IsLaid (P.view self.old.pages) self.old.root pairs (self.old.root.heap ∷ []) places → Contains places place → HasLeft (P.view self.old.pages) pairs
            → IfErr result NotDamaged }
        ensures root { HasNewPages self.old.root self.new.root }
        ensures goes_on { GoesOn (P.view self.old.pages) (P.view self.new.pages) }
        ensures few { self.old.root.height ≤ 6 → ChangesFew 320 (P.view self.old.pages) (P.view self.new.pages) self.old.root self.new.root }
        ensures differ { self.old.root.height ≤ 6 → ChangesFew (75 + 20 * (length (missing_in more.now was.now) + length (missing_in was.now more.now))) (P.view self.old.pages) (P.view self.new.pages) self.old.root self.new.root }
        ensures cause { HasPageCause (P.view self.old.pages) (P.view self.new.pages) result }
        ensures keeps { P.keeps self.old.pages self.new.pages }
    {
        let place = match self.put_for(place, line) {
            Ok(place) => place,
            Err(fault) => return Err(fault),
        };
        match self.remove_missing(was, more) {
            Ok(()) => {}
            Err(fault) => return Err(fault),
        }
        match self.put_key(key, place) {
            Ok(()) => self.put_missing(more, was),
            Err(fault) => Err(fault),
        }
    }
}
