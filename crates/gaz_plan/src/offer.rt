//! Rows that are offered to the first answers, if they have all that is asked.
ghost use Rattle.std.specs.Prelude.{◌≡◌, ◌≤◌, ◌+◌, ◌∷◌, [], ℕ, length, IfOk, IfErr, OnOk, IsOk};
ghost use Rattle.gaz_pick.specs.Asked.{absent, asked};
ghost use Rattle.gaz_pick.specs.Match.{pair_of};
ghost use Rattle.gaz_num.specs.declared.words.Table.TheVariants.{Rows, Alternates};
ghost use Rattle.gaz_plain.specs.Gazetteer.{line_with};
ghost use Rattle.gaz_plan.specs.Wanted.{wanted_of};
ghost use Rattle.gaz_rows.specs.Store.{IsUndamaged, TakesNoMemory};
ghost use Rattle.gaz_kin.specs.Over.{OverStore};
ghost use Rattle.gaz_plan.specs.Seen.{SeesMore};
ghost use Rattle.gaz_plan.specs.Ways.{number_at, is_itself};
ghost use Rattle.gaz_plan.specs.Searched.{HasSearched, OverKey, after_test, after_found, takes_row, place_named};

use crate::found::{find_alternate, find_row, row_at};
use crate::wanted::Wanted;
use gaz_alt::Alt;
use gaz_page::Pages;
use gaz_pick::{Best, Query, first_of_more, passes};
use gaz_row::Row;
use gaz_rows::{AskFault, RowStore};
use std::alloc::AllocError;

/// Whether the columns of a row pass, and nothing is asked of names or one of its own fits. Names cost more.
fn takes(query: &Query<'_>, wanted: &Wanted, row: &Row<'_>) -> Result<bool, AllocError>
    requires wanted { wanted.now.test ≡ wanted_of (asked query.now).name }
    ensures takes { IfOk result (λ is. is ≡ takes_row (asked query.now) row.now) }
    ensures absent { (asked query.now).name ≡ absent → IsOk result }
{
    if !passes(query, row) {
        return Ok(false);
    }
    if wanted.is_nothing() {
        return Ok(true);
    }
    wanted.fits_own(query.lang, row)
}

/// Offers the row, if it takes it by its columns and its own names.
fn offer_itself(
    query: &Query<'_>,
    wanted: &Wanted,
    row: &Row<'_>,
    best: &mut Best,
) -> Result<(), AskFault>
    requires wanted { wanted.now.test ≡ wanted_of (asked query.now).name }
    ensures keep { best.new.keep ≡ best.old.keep }
    ensures offered { OnOk result (best.new.pairs ≡ after_test (takes_row (asked query.now) row.now) best.old.keep (pair_of row.now) best.old.pairs) }
    ensures memory { IfErr result (λ fault. fault ≡ AskFault.Memory) }
    ensures absent { (asked query.now).name ≡ absent → IsOk result }
{
    match takes(query, wanted, row) {
        Ok(true) => {
            best.offer(row.population(), row.id());
            Ok(())
        }
        Ok(false) => Ok(()),
        Err(_cause) => Err(AskFault::Memory),
    }
}

/// Offers the row at the place that is the value of its key.
pub(crate) fn offer_at<P: Pages>(
    store: &mut RowStore<P>,
    place: u64,
    query: &Query<'_>,
    wanted: &Wanted,
    best: &mut Best,
    buf: &mut [u8],
) -> Result<(), AskFault>
    requires room { 65535 ≤ length buf.old }
    requires wanted { wanted.now.test ≡ wanted_of (asked query.now).name }
    ensures keep { best.new.keep ≡ best.old.keep }
    ensures more { OnOk result ((key : ℕ) → OverKey (P.view store.old.pages) store.old.root 1 key place
        (λ gaz. SeesMore gaz (asked query.now) best.old.keep (is_itself (asked query.now) (number_at 1 key)) best.old.pairs best.new.pairs)) }
    ensures damaged { IfErr result (λ fault. (key : ℕ) → OverKey (P.view store.old.pages) store.old.root 1 key place (λ gaz. IsUndamaged fault)) }
    ensures absent { (asked query.now).name ≡ absent → IfErr result TakesNoMemory }
    ensures size { length buf.new ≡ length buf.old }
    ensures asked { HasSearched (P.view store.old.pages) (P.view store.new.pages) result }
    ensures reads { (P.view store.new.pages).reads ≤ (P.view store.old.pages).reads + 17 }
    ensures root { store.new.root ≡ store.old.root }
    ensures keeps { P.keeps store.old.pages store.new.pages }
{
    first_of_more();
    match row_at(store, place, buf) {
        Ok(size) => offer_itself(query, wanted, &Row::of(&buf[..size]), best),
        Err(fault) => Err(fault),
    }
}

/// Offers the row with an id, if there is one.
pub(crate) fn offer_row<P: Pages>(
    store: &mut RowStore<P>,
    id: u32,
    query: &Query<'_>,
    wanted: &Wanted,
    best: &mut Best,
    buf: &mut [u8],
) -> Result<(), AskFault>
    requires room { 65535 ≤ length buf.old }
    requires wanted { wanted.now.test ≡ wanted_of (asked query.now).name }
    ensures keep { best.new.keep ≡ best.old.keep }
    ensures more { OnOk result (OverStore (P.view store.old.pages) store.old.root
        (λ gaz. SeesMore gaz (asked query.now) best.old.keep (is_itself (asked query.now) id) best.old.pairs best.new.pairs)) }
    ensures damaged { IfErr result (λ fault. OverStore (P.view store.old.pages) store.old.root (λ gaz. IsUndamaged fault)) }
    ensures absent { (asked query.now).name ≡ absent → IfErr result TakesNoMemory }
    ensures size { length buf.new ≡ length buf.old }
    ensures asked { HasSearched (P.view store.old.pages) (P.view store.new.pages) result }
    ensures reads { (P.view store.new.pages).reads ≤ (P.view store.old.pages).reads + (store.old.root.height + 17) }
    ensures root { store.new.root ≡ store.old.root }
    ensures keeps { P.keeps store.old.pages store.new.pages }
{
    first_of_more();
    match find_row(store, id, buf) {
        Ok(Some(size)) => offer_itself(query, wanted, &Row::of(&buf[..size]), best),
        Ok(None) => Ok(()),
        Err(fault) => Err(fault),
    }
}

/// The place of which the alternate name with an id is one, if there is one and it fits.
pub(crate) fn place_named<P: Pages>(
    store: &mut RowStore<P>,
    alternate: u32,
    query: &Query<'_>,
    wanted: &Wanted,
    buf: &mut [u8],
) -> Result<Option<u32>, AskFault>
    requires room { 65535 ≤ length buf.old }
    requires wanted { wanted.now.test ≡ wanted_of (asked query.now).name }
    ensures named { IfOk result (λ found. OverStore (P.view store.old.pages) store.old.root
        (λ gaz. found ≡ place_named (wanted_of (asked query.now).name) (asked query.now).lang (line_with Alternates (alternate ∷ []) gaz))) }
    ensures damaged { IfErr result (λ fault. OverStore (P.view store.old.pages) store.old.root (λ gaz. IsUndamaged fault)) }
    ensures size { length buf.new ≡ length buf.old }
    ensures asked { HasSearched (P.view store.old.pages) (P.view store.new.pages) result }
    ensures reads { (P.view store.new.pages).reads ≤ (P.view store.old.pages).reads + (store.old.root.height + 17) }
    ensures root { store.new.root ≡ store.old.root }
    ensures keeps { P.keeps store.old.pages store.new.pages }
{
    let size = match find_alternate(store, alternate, buf) {
        Ok(Some(size)) => size,
        Ok(None) => return Ok(None),
        Err(fault) => return Err(fault),
    };
    let line = Alt::of(&buf[..size]);
    match wanted.fits_other(query.lang, &line) {
        Ok(true) => Ok(Some(line.place())),
        Ok(false) => Ok(None),
        Err(_cause) => Err(AskFault::Memory),
    }
}

/// Offers the row with an id, if there is one and its columns pass.
pub(crate) fn offer_passing<P: Pages>(
    store: &mut RowStore<P>,
    id: u32,
    query: &Query<'_>,
    best: &mut Best,
    buf: &mut [u8],
) -> Result<(), AskFault>
    requires room { 65535 ≤ length buf.old }
    ensures keep { best.new.keep ≡ best.old.keep }
    ensures offered { OnOk result (OverStore (P.view store.old.pages) store.old.root
        (λ gaz. best.new.pairs ≡ after_found (asked query.now) best.old.keep (line_with Rows (id ∷ []) gaz) best.old.pairs)) }
    ensures damaged { IfErr result (λ fault. OverStore (P.view store.old.pages) store.old.root (λ gaz. IsUndamaged fault)) }
    ensures size { length buf.new ≡ length buf.old }
    ensures asked { HasSearched (P.view store.old.pages) (P.view store.new.pages) result }
    ensures reads { (P.view store.new.pages).reads ≤ (P.view store.old.pages).reads + (store.old.root.height + 17) }
    ensures root { store.new.root ≡ store.old.root }
    ensures keeps { P.keeps store.old.pages store.new.pages }
{
    let size = match find_row(store, id, buf) {
        Ok(Some(size)) => size,
        Ok(None) => return Ok(()),
        Err(fault) => return Err(fault),
    };
    let row = Row::of(&buf[..size]);
    if passes(query, &row) {
        best.offer(row.population(), row.id());
    }
    Ok(())
}
