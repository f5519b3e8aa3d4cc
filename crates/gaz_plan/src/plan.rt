//! The answer to a search.
ghost use Rattle.std.specs.Prelude.{◌≡◌, ◌≢◌, ◌≤◌, ◌+◌, [], length, take, drop, IfErr, OnOk};
ghost use Rattle.gaz_pick.specs.Asked.{absent, asked};
ghost use Rattle.gaz_pick.specs.Order.{in_order};
ghost use Rattle.gaz_plain.specs.Search.{matches, matching_pairs, answer_pairs};
ghost use Rattle.gaz_plan.specs.Wanted.{wanted_of};
ghost use Rattle.gaz_rows.specs.Store.{IsUndamaged, TakesNoMemory};
ghost use Rattle.gaz_kin.specs.Over.{OverStore};
ghost use Rattle.gaz_plan.specs.Seen.{SeesMore};
ghost use Rattle.gaz_plan.specs.Ways.{fits_itself};
ghost use Rattle.gaz_plan.specs.Candidates.{reads_for, most_reads};
ghost use Rattle.gaz_plan.specs.Searched.{HasSearched};

use crate::boxes::offer_box;
use crate::gather::offer_names;
use crate::walk::{Way, offer_range};
use crate::wanted::Wanted;
use gaz_keys::{place_key, text_key};
use gaz_page::Pages;
use gaz_pick::{Best, Query, first_of_more};
use gaz_rows::{AskFault, RowStore};
use std::alloc::Global;

/// Offers the rows that have all that is asked. It goes over all rows.
fn offer_rows<P: Pages>(
    store: &mut RowStore<P>,
    query: &Query<'_>,
    wanted: &Wanted,
    best: &mut Best,
    buf: &mut [u8],
) -> Result<(), AskFault>
    requires room { 65535 ≤ length buf.old }
    requires wanted { wanted.now.test ≡ wanted_of (asked query.now).name }
    ensures keep { best.new.keep ≡ best.old.keep }
    ensures more { OnOk result (OverStore (P.view store.old.pages) store.old.root
        (λ gaz. SeesMore gaz (asked query.now) best.old.keep (fits_itself (asked query.now)) best.old.pairs best.new.pairs)) }
    ensures damaged { IfErr result (λ fault. OverStore (P.view store.old.pages) store.old.root (λ gaz. IsUndamaged fault)) }
    ensures absent { (asked query.now).name ≡ absent → IfErr result TakesNoMemory }
    ensures size { length buf.new ≡ length buf.old }
    ensures asked { HasSearched (P.view store.old.pages) (P.view store.new.pages) result }
    ensures reads { OverStore (P.view store.old.pages) store.old.root
        (λ gaz. (P.view store.new.pages).reads ≤ (P.view store.old.pages).reads + reads_for (length gaz.rows) 0) }
    ensures root { store.new.root ≡ store.old.root }
    ensures keeps { P.keeps store.old.pages store.new.pages }
{
    let low = place_key(0);
    let high = place_key(u32::MAX);
    offer_range(store, Way::Row, &low, &high, query, wanted, best, buf)
}

/// Offers the rows that match, where nothing is asked of names: those of a box, or else all.
fn offer_unnamed<P: Pages>(
    store: &mut RowStore<P>,
    query: &Query<'_>,
    wanted: &Wanted,
    best: &mut Best,
    buf: &mut [u8],
) -> Result<(), AskFault>
    requires room { 65535 ≤ length buf.old }
    requires wanted { wanted.now.test ≡ wanted_of (asked query.now).name }
    requires unnamed { (asked query.now).name ≡ absent }
    ensures keep { best.new.keep ≡ best.old.keep }
    ensures more { OnOk result (OverStore (P.view store.old.pages) store.old.root
        (λ gaz. SeesMore gaz (asked query.now) best.old.keep (matches gaz (asked query.now)) best.old.pairs best.new.pairs)) }
    ensures damaged { IfErr result (λ fault. OverStore (P.view store.old.pages) store.old.root (λ gaz. IsUndamaged fault)) }
    ensures no_memory { IfErr result TakesNoMemory }
    ensures size { length buf.new ≡ length buf.old }
    ensures asked { HasSearched (P.view store.old.pages) (P.view store.new.pages) result }
    ensures reads { OverStore (P.view store.old.pages) store.old.root
        (λ gaz. (P.view store.new.pages).reads ≤ (P.view store.old.pages).reads + most_reads gaz (asked query.now)) }
    ensures root { store.new.root ≡ store.old.root }
    ensures keeps { P.keeps store.old.pages store.new.pages }
{
    match &query.edges {
        Some(edges) => offer_box(store, edges, query, wanted, best, buf),
        None => offer_rows(store, query, wanted, best, buf),
    }
}

/// Offers the rows that match, where a name is asked for.
fn offer_by_names<P: Pages>(
    store: &mut RowStore<P>,
    query: &Query<'_>,
    wanted: &Wanted,
    best: &mut Best,
    buf: &mut [u8],
) -> Result<(), AskFault>
    requires room { 65535 ≤ length buf.old }
    requires wanted { wanted.now.test ≡ wanted_of (asked query.now).name }
    requires named { (asked query.now).name ≢ absent }
    ensures keep { best.new.keep ≡ best.old.keep }
    ensures more { OnOk result (OverStore (P.view store.old.pages) store.old.root
        (λ gaz. SeesMore gaz (asked query.now) best.old.keep (matches gaz (asked query.now)) best.old.pairs best.new.pairs)) }
    ensures damaged { IfErr result (λ fault. OverStore (P.view store.old.pages) store.old.root (λ gaz. IsUndamaged fault)) }
    ensures size { length buf.new ≡ length buf.old }
    ensures asked { HasSearched (P.view store.old.pages) (P.view store.new.pages) result }
    ensures reads { OverStore (P.view store.old.pages) store.old.root
        (λ gaz. (P.view store.new.pages).reads ≤ (P.view store.old.pages).reads + most_reads gaz (asked query.now)) }
    ensures root { store.new.root ≡ store.old.root }
    ensures keeps { P.keeps store.old.pages store.new.pages }
{
    let low = text_key(&wanted.least_front(), 0, 0, 0);
    let high = text_key(&wanted.greatest_front(), u8::MAX, u32::MAX, u32::MAX);
    offer_names(store, &low, &high, query, wanted, best, buf)
}

/// Offers the rows that match.
fn offer_matching<P: Pages>(
    store: &mut RowStore<P>,
    query: &Query<'_>,
    wanted: &Wanted,
    best: &mut Best,
    buf: &mut [u8],
) -> Result<(), AskFault>
    requires room { 65535 ≤ length buf.old }
    requires wanted { wanted.now.test ≡ wanted_of (asked query.now).name }
    requires none { best.old.pairs ≡ [] }
    ensures keep { best.new.keep ≡ best.old.keep }
    ensures pairs { OnOk result (OverStore (P.view store.old.pages) store.old.root (λ gaz. best.new.pairs ≡ take best.old.keep (in_order (matching_pairs gaz (asked query.now))))) }
    ensures damaged { IfErr result (λ fault. OverStore (P.view store.old.pages) store.old.root (λ gaz. IsUndamaged fault)) }
    ensures absent { (asked query.now).name ≡ absent → IfErr result TakesNoMemory }
    ensures size { length buf.new ≡ length buf.old }
    ensures asked { HasSearched (P.view store.old.pages) (P.view store.new.pages) result }
    ensures reads { OverStore (P.view store.old.pages) store.old.root
        (λ gaz. (P.view store.new.pages).reads ≤ (P.view store.old.pages).reads + most_reads gaz (asked query.now)) }
    ensures root { store.new.root ≡ store.old.root }
    ensures keeps { P.keeps store.old.pages store.new.pages }
{
    if wanted.is_nothing() {
        offer_unnamed(store, query, wanted, best, buf)
    } else {
        offer_by_names(store, query, wanted, best, buf)
    }
}

/// Puts the first of the rows that match into `best`, which then has those that the answer is cut from. Memory may be wanting only where
/// a name is asked for, and `best` then has any pairs.
pub fn search<P: Pages>(
    alloc: Global,
    store: &mut RowStore<P>,
    query: &Query<'_>,
    buf: &mut [u8],
    best: &mut Best,
) -> Result<(), AskFault>
    requires start { query.now.start ≤ 5000 }
    requires max { query.now.max ≤ 1000 }
    requires room { 65535 ≤ length buf.old }
    ensures keep { best.new.keep ≡ query.now.start + query.now.max }
    ensures held { OnOk result (OverStore (P.view store.old.pages) store.old.root
        (λ gaz. best.new.pairs ≡ take (query.now.start + query.now.max) (in_order (matching_pairs gaz (asked query.now))))) }
    ensures answer { OnOk result (OverStore (P.view store.old.pages) store.old.root
        (λ gaz. take query.now.max (drop query.now.start best.new.pairs) ≡ answer_pairs gaz (asked query.now))) }
    ensures absent { (asked query.now).name ≡ absent → IfErr result TakesNoMemory }
    ensures damaged { IfErr result (λ fault. OverStore (P.view store.old.pages) store.old.root (λ gaz. IsUndamaged fault)) }
    ensures size { length buf.new ≡ length buf.old }
    ensures asked { HasSearched (P.view store.old.pages) (P.view store.new.pages) result }
    ensures reads { OverStore (P.view store.old.pages) store.old.root
        (λ gaz. (P.view store.new.pages).reads ≤ (P.view store.old.pages).reads + most_reads gaz (asked query.now)) }
    ensures root { store.new.root ≡ store.old.root }
    ensures keeps { P.keeps store.old.pages store.new.pages }
{
    first_of_more();
    best.clear(query.start + query.max);
    match Wanted::of(alloc, &query.name) {
        Ok(wanted) => offer_matching(store, query, &wanted, best, buf),
        Err(_cause) => Err(AskFault::Memory),
    }
}
