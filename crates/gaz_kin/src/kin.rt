//! The tables in pages, as the parent rule asks them.
ghost use Rattle.std.specs.Prelude.{◌≡◌, ◌≤◌, ◌+◌, ◌*◌, length, IfOk, IfErr, OnOk};
ghost use Rattle.gaz_parent.specs.Parent.{parent_of};
ghost use Rattle.gaz_plain.specs.Kin.{lists_of};
ghost use Rattle.gaz_rows.specs.Store.{IsSound};
ghost use Rattle.gaz_kin.specs.Kept.{IsKept};
ghost use Rattle.gaz_kin.specs.Over.{OverStore, HasOnlyAsked};
ghost use Rattle.gaz_kin.specs.Reads.{parents_sought};

use crate::above::{find_country, find_division, least_linked};
use crate::kept::Kept;
use gaz_page::Pages;
use gaz_parent::{Kin, parent};
use gaz_row::Row;
use gaz_rows::{AskFault, RowStore};
use gaz_tables::LinkClass;

/// A store with room for the lines that are looked at, with what was remembered when the questions began, and what is now.
#[derive(Drop)]
struct StoreKin<'a, P> {
    store: &'a mut RowStore<P>,
    buf: &'a mut [u8],
    kept: Kept,
    notes: &'a mut Kept,
    ghost room: { 65535 ≤ length buf.now },
}

impl<'a, P: Pages> Kin for StoreKin<'a, P> {
    ghost use Rattle.std.specs.Prelude.{◌≡◌, refl};
    ghost use Rattle.std.proofs.Common.{◌∙◌};
    ghost use Rattle.gaz_kin.specs.Kept.{IsKept};
    ghost use Rattle.gaz_kin.specs.Kin.{HasLists, HasMost, Led, Noted, Fails};
    ghost use Rattle.gaz_kin.specs.Leading.{led_same, led_on, noted_same, noted_on, fails_on, kept_on, most_on};

    type Fault = AskFault;

    ghost stands_for = { λ kin lists. HasLists (P.view kin.store.now.pages) kin.store.now.root lists × IsKept lists kin.kept };

    ghost leads = { λ old new. (new.store.ghost_name ≡ old.store.ghost_name) × (new.buf.ghost_name ≡ old.buf.ghost_name) × (length new.buf.now ≡ length old.buf.now)
        × P.keeps old.store.now.pages new.store.now.pages × Led (P.view old.store.now.pages) (P.view new.store.now.pages) old.store.now.root new.store.now.root
        × (new.notes.ghost_name ≡ old.notes.ghost_name) × (new.kept ≡ old.kept) × Noted (P.view old.store.now.pages) old.store.now.root old.notes.now new.notes.now };

    ghost may_fail = { λ old new fault. (new.store.ghost_name ≡ old.store.ghost_name) × (new.buf.ghost_name ≡ old.buf.ghost_name) × (length new.buf.now ≡ length old.buf.now)
        × P.keeps old.store.now.pages new.store.now.pages × Fails (P.view old.store.now.pages) (P.view new.store.now.pages) old.store.now.root new.store.now.root fault
        × (new.notes.ghost_name ≡ old.notes.ghost_name) };

    ghost reads = { λ kin. (P.view kin.store.now.pages).reads };

    ghost bounded = { λ kin question most. HasMost (P.view kin.store.now.pages) kin.store.now.root question most };

    fn division(&mut self, level: u8, row: &Row<'_>) -> Result<Option<u32>, AskFault> {
        let kept = self.kept;
        find_division(self.store, level, row, &kept, self.notes, self.buf)
    }

    fn country(&mut self, row: &Row<'_>) -> Result<Option<u32>, AskFault> {
        let kept = self.kept;
        find_country(self.store, row, &kept, self.notes, self.buf)
    }

    fn link_up(&mut self, child: u32, class: LinkClass) -> Result<Option<u32>, AskFault> {
        least_linked(self.store, child, class, self.buf)
    }

    ghost leads_same = { λ s. (refl, refl, refl, P.keeps_same s.store.now.pages, led_same (P.view s.store.now.pages) s.store.now.root, refl, refl, noted_same (P.view s.store.now.pages) s.store.now.root s.notes.now) };

    ghost leads_on = { λ a b c first then. (
      then.0 ∙ first.0,
      then.1 ∙ first.1,
      then.2 ∙ first.2,
      P.keeps_on a.store.now.pages b.store.now.pages c.store.now.pages first.3 then.3,
      led_on (P.view a.store.now.pages) (P.view b.store.now.pages) (P.view c.store.now.pages) a.store.now.root b.store.now.root c.store.now.root first.4 then.4,
      then.5 ∙ first.5,
      then.6 ∙ first.6,
      noted_on (P.view a.store.now.pages) (P.view b.store.now.pages) a.store.now.root b.store.now.root a.notes.now b.notes.now c.notes.now first.4 first.7 then.7,
    ) };

    ghost stands_on = { λ a b lists led. kept_on (P.view a.store.now.pages) (P.view b.store.now.pages) a.store.now.root b.store.now.root lists a.kept b.kept led.4 led.6 };

    ghost bounded_on = { λ a b question most led. most_on (P.view a.store.now.pages) (P.view b.store.now.pages) a.store.now.root b.store.now.root question most led.4 };

    ghost fails_from = { λ a b c fault first fails. (
      fails.0 ∙ first.0,
      fails.1 ∙ first.1,
      fails.2 ∙ first.2,
      P.keeps_on a.store.now.pages b.store.now.pages c.store.now.pages first.3 fails.3,
      fails_on (P.view a.store.now.pages) (P.view b.store.now.pages) (P.view c.store.now.pages) a.store.now.root b.store.now.root c.store.now.root fault first.4 fails.4,
      fails.5 ∙ first.5,
    ) };
}

/// The parent of the row. The row stands apart from the buffer. What is remembered of the rows before isn't sought anew, and what is
/// found is remembered.
pub(crate) fn parent_of<P: Pages>(
    store: &mut RowStore<P>,
    row: &Row<'_>,
    kept: &mut Kept,
    buf: &mut [u8],
) -> Result<Option<u32>, AskFault>
    requires room { 65535 ≤ length buf.old }
    ensures found { IfOk result (λ found. OverStore (P.view store.old.pages) store.old.root (λ gaz. IsKept (lists_of gaz) kept.old → found ≡ parent_of (lists_of gaz) row.now)) }
    ensures kept { OnOk result (OverStore (P.view store.old.pages) store.old.root (λ gaz. IsKept (lists_of gaz) kept.old → IsKept (lists_of gaz) kept.new)) }
    ensures damaged { IfErr result (λ fault. OverStore (P.view store.old.pages) store.old.root (λ gaz. IsSound fault)) }
    ensures size { length buf.new ≡ length buf.old }
    ensures asked { HasOnlyAsked (P.view store.old.pages) (P.view store.new.pages) result }
    ensures few { OverStore (P.view store.old.pages) store.old.root (λ gaz. (P.view store.new.pages).reads ≤ (P.view store.old.pages).reads + (35 * parents_sought gaz row.now + 130)) }
    ensures root { store.new.root ≡ store.old.root }
    ensures keeps { P.keeps store.old.pages store.new.pages }
{
    let before = *kept;
    let mut kin = StoreKin {
        store,
        buf,
        kept: before,
        notes: kept,
    };
    parent(&mut kin, row)
}
