//! A search by where rows lie, in which nothing is asked of names.
ghost use Rattle.std.specs.Prelude.{◌≡◌, ◌≤◌, ◌+◌, ◌*◌, length, filter, IfErr, OnOk};
ghost use Rattle.gaz_box.specs.Edges.{IsWithin};
ghost use Rattle.gaz_box.specs.View.{edges_of};
ghost use Rattle.gaz_pick.specs.Asked.{absent, asked};
ghost use Rattle.gaz_rows.specs.Store.{IsUndamaged, TakesNoMemory};
ghost use Rattle.gaz_kin.specs.Over.{OverStore};
ghost use Rattle.gaz_plan.specs.Wanted.{wanted_of};
ghost use Rattle.gaz_plan.specs.Seen.{SeesMore};
ghost use Rattle.gaz_plan.specs.Boxes.{from_antimeridian, is_in_span, is_in_band, is_in_box};
ghost use Rattle.gaz_plan.specs.Candidates.{rows_in_bands, bands_in};
ghost use Rattle.gaz_plan.specs.Searched.{HasSearched};

use crate::walk::{Way, offer_range};
use crate::wanted::Wanted;
use gaz_box::{GeoBox, index_finds};
use gaz_keys::box_key;
use gaz_page::Pages;
use gaz_pick::{Best, Query};
use gaz_rows::{AskFault, RowStore};

/// The longitude of the antimeridian, in units of 10^-12 degree.
const ANTIMERIDIAN: i64 = 180_000_000_000_000;

/// A longitude from the antimeridian on.
fn from_antimeridian(longitude: i64) -> u64
    requires { IsWithin 180 longitude }
    ensures { result ≡ from_antimeridian longitude }
{
    (longitude + ANTIMERIDIAN) as u64
}

/// Offers the rows of a band whose longitudes lie in a range, if they have all that is asked.
fn offer_span<P: Pages>(
    store: &mut RowStore<P>,
    band: u16,
    range: (i64, i64),
    query: &Query<'_>,
    wanted: &Wanted,
    best: &mut Best,
    buf: &mut [u8],
) -> Result<(), AskFault>
    requires room { 65535 ≤ length buf.old }
    requires wanted { wanted.now.test ≡ wanted_of (asked query.now).name }
    requires unnamed { (asked query.now).name ≡ absent }
    requires west { IsWithin 180 range.0 }
    requires east { IsWithin 180 range.1 }
    ensures keep { best.new.keep ≡ best.old.keep }
    ensures more { OnOk result (OverStore (P.view store.old.pages) store.old.root
        (λ gaz. SeesMore gaz (asked query.now) best.old.keep (is_in_span band range) best.old.pairs best.new.pairs)) }
    ensures damaged { IfErr result (λ fault. OverStore (P.view store.old.pages) store.old.root (λ gaz. IsUndamaged fault)) }
    ensures no_memory { IfErr result TakesNoMemory }
    ensures size { length buf.new ≡ length buf.old }
    ensures asked { HasSearched (P.view store.old.pages) (P.view store.new.pages) result }
    ensures reads { OverStore (P.view store.old.pages) store.old.root
        (λ gaz. (P.view store.new.pages).reads ≤ (P.view store.old.pages).reads + 64 * (length (filter (is_in_span band range) gaz.rows) + 1)) }
    ensures root { store.new.root ≡ store.old.root }
    ensures keeps { P.keeps store.old.pages store.new.pages }
{
    let low = box_key(band, from_antimeridian(range.0), 0);
    let high = box_key(band, from_antimeridian(range.1), u32::MAX);
    offer_range(store, Way::Lying, &low, &high, query, wanted, best, buf)
}

/// Offers the rows of a band whose longitudes lie in one of the ranges of a box.
fn offer_band<P: Pages>(
    store: &mut RowStore<P>,
    band: u16,
    edges: &GeoBox,
    query: &Query<'_>,
    wanted: &Wanted,
    best: &mut Best,
    buf: &mut [u8],
) -> Result<(), AskFault>
    requires room { 65535 ≤ length buf.old }
    requires wanted { wanted.now.test ≡ wanted_of (asked query.now).name }
    requires unnamed { (asked query.now).name ≡ absent }
    ensures keep { best.new.keep ≡ best.old.keep }
    ensures more { OnOk result (OverStore (P.view store.old.pages) store.old.root
        (λ gaz. SeesMore gaz (asked query.now) best.old.keep (is_in_band band (edges_of edges.now)) best.old.pairs best.new.pairs)) }
    ensures damaged { IfErr result (λ fault. OverStore (P.view store.old.pages) store.old.root (λ gaz. IsUndamaged fault)) }
    ensures no_memory { IfErr result TakesNoMemory }
    ensures size { length buf.new ≡ length buf.old }
    ensures asked { HasSearched (P.view store.old.pages) (P.view store.new.pages) result }
    ensures reads { OverStore (P.view store.old.pages) store.old.root
        (λ gaz. (P.view store.new.pages).reads ≤ (P.view store.old.pages).reads + 64 * (length (filter (is_in_band band (edges_of edges.now)) gaz.rows) + 2)) }
    ensures root { store.new.root ≡ store.old.root }
    ensures keeps { P.keeps store.old.pages store.new.pages }
{
    let (first, second) = edges.spans();
    match offer_span(store, band, first, query, wanted, best, buf) {
        Ok(()) => {}
        Err(fault) => return Err(fault),
    }
    match second {
        Some(range) => offer_span(store, band, range, query, wanted, best, buf),
        None => Ok(()),
    }
}

/// Offers the rows that lie in a box.
pub(crate) fn offer_box<P: Pages>(
    store: &mut RowStore<P>,
    edges: &GeoBox,
    query: &Query<'_>,
    wanted: &Wanted,
    best: &mut Best,
    buf: &mut [u8],
) -> Result<(), AskFault>
    requires room { 65535 ≤ length buf.old }
    requires wanted { wanted.now.test ≡ wanted_of (asked query.now).name }
    requires unnamed { (asked query.now).name ≡ absent }
    ensures keep { best.new.keep ≡ best.old.keep }
    ensures more { OnOk result (OverStore (P.view store.old.pages) store.old.root
        (λ gaz. SeesMore gaz (asked query.now) best.old.keep (is_in_box (edges_of edges.now)) best.old.pairs best.new.pairs)) }
    ensures damaged { IfErr result (λ fault. OverStore (P.view store.old.pages) store.old.root (λ gaz. IsUndamaged fault)) }
    ensures no_memory { IfErr result TakesNoMemory }
    ensures size { length buf.new ≡ length buf.old }
    ensures asked { HasSearched (P.view store.old.pages) (P.view store.new.pages) result }
    ensures reads { OverStore (P.view store.old.pages) store.old.root
        (λ gaz. (P.view store.new.pages).reads ≤ (P.view store.old.pages).reads + 64 * (rows_in_bands gaz (edges_of edges.now) + 2 * bands_in (edges_of edges.now))) }
    ensures root { store.new.root ≡ store.old.root }
    ensures keeps { P.keeps store.old.pages store.new.pages }
{
    index_finds();
    let (south, north) = edges.bands();
    for band in south..north + 1 {
        match offer_band(store, band, edges, query, wanted, best, buf) {
            Ok(()) => {}
            Err(fault) => return Err(fault),
        }
    }
    Ok(())
}
