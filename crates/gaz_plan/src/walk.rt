//! A walk over the keys of a range, by which rows are sought.
ghost use Rattle.std.specs.Prelude.{◌≡◌, ◌≤◌, ◌+◌, ◌*◌, length, IfOk, IfErr, OnOk};
ghost use Rattle.gaz_pick.specs.Asked.{absent, asked};
ghost use Rattle.gaz_plan.specs.Wanted.{wanted_of};
ghost use Rattle.gaz_leaf.specs.Node.{key_of};
ghost use Rattle.gaz_scan.specs.Ranges.{between};
ghost use Rattle.gaz_scan.specs.Scan.{tree_of};
ghost use Rattle.gaz_keys.specs.Keys.{IsKey};
ghost use Rattle.gaz_keys.specs.Parts.{four_at, tag_of};
ghost use Rattle.gaz_rows.specs.Store.{IsUndamaged, TakesNoMemory};
ghost use Rattle.gaz_kin.specs.Over.{OverStore};
ghost use Rattle.gaz_plan.specs.Seen.{SeesMore};
ghost use Rattle.gaz_plan.specs.Ways.{number_at, tag_by, stands_for, is_among};
ghost use Rattle.gaz_plan.specs.Searched.{HasSearched, OverKey, OverPairs, OverTagged, SeesNext};

use crate::offer::{offer_at, offer_row};
use crate::wanted::Wanted;
use gaz_page::Pages;
use gaz_pick::{Best, Query};
use gaz_rows::{AskFault, RowStore};
use gaz_scan::Scan;

/// By which keys rows are sought.
#[derive(Clone, Copy)]
pub(crate) enum Way {
    /// Those of rows, which stand at their places.
    Row,
    /// Those of rows by where they lie.
    Lying,
}

/// More keys than a tree has.
pub(crate) const MOST_KEYS: u32 = 1 << 30;

/// A number of four bytes.
fn four_at(key: &[u8; 32], at: usize) -> u32
    requires { at ≤ 28 }
    ensures { result ≡ four_at at key.now }
{
    u32::from_be_bytes([key[at], key[at + 1], key[at + 2], key[at + 3]])
}

/// The id in a key, which stands there.
pub(crate) fn number_at(key: &[u8; 32], at: usize) -> u32
    requires { at ≤ 28 }
    ensures { result ≡ number_at at (key_of key.now) }
{
    four_at(key, at)
}

/// Offers the rows for which a key stands, if they have all that is asked.
fn offer_for<P: Pages>(
    store: &mut RowStore<P>,
    way: Way,
    found: &([u8; 32], u64),
    query: &Query<'_>,
    wanted: &Wanted,
    best: &mut Best,
    buf: &mut [u8],
) -> Result<(), AskFault>
    requires room { 65535 ≤ length buf.old }
    requires wanted { wanted.now.test ≡ wanted_of (asked query.now).name }
    ensures keep { best.new.keep ≡ best.old.keep }
    ensures more { OnOk result (OverKey (P.view store.old.pages) store.old.root (tag_by way) (key_of found.now.0) found.now.1
        (λ gaz. SeesMore gaz (asked query.now) best.old.keep (stands_for (asked query.now) way (key_of found.now.0)) best.old.pairs best.new.pairs)) }
    ensures damaged { IfErr result (λ fault. OverKey (P.view store.old.pages) store.old.root (tag_by way) (key_of found.now.0) found.now.1 (λ gaz. IsUndamaged fault)) }
    ensures absent { (asked query.now).name ≡ absent → IfErr result TakesNoMemory }
    ensures size { length buf.new ≡ length buf.old }
    ensures asked { HasSearched (P.view store.old.pages) (P.view store.new.pages) result }
    ensures reads { (P.view store.new.pages).reads ≤ (P.view store.old.pages).reads + (store.old.root.height + 17) }
    ensures root { store.new.root ≡ store.old.root }
    ensures keeps { P.keeps store.old.pages store.new.pages }
{
    let (key, place) = found;
    match way {
        Way::Row => offer_at(store, *place, query, wanted, best, buf),
        Way::Lying => offer_row(store, number_at(key, 11), query, wanted, best, buf),
    }
}

/// Offers the rows for which the next key of a scan stands. Whether one was left.
fn offer_next<P: Pages>(
    store: &mut RowStore<P>,
    way: Way,
    scan: &mut Scan,
    query: &Query<'_>,
    wanted: &Wanted,
    best: &mut Best,
    buf: &mut [u8],
) -> Result<bool, AskFault>
    requires room { 65535 ≤ length buf.old }
    requires wanted { wanted.now.test ≡ wanted_of (asked query.now).name }
    ensures keep { best.new.keep ≡ best.old.keep }
    ensures more { IfOk result (λ more. OverTagged (P.view store.old.pages) store.old.root scan.old (tag_by way)
        (λ gaz left. SeesNext gaz (asked query.now) way best.old.keep (P.view store.new.pages).page scan.new left best.old.pairs best.new.pairs more)) }
    ensures damaged { IfErr result (λ fault. OverTagged (P.view store.old.pages) store.old.root scan.old (tag_by way) (λ gaz left. IsUndamaged fault)) }
    ensures absent { (asked query.now).name ≡ absent → IfErr result TakesNoMemory }
    ensures tree { tree_of scan.new ≡ tree_of scan.old }
    ensures size { length buf.new ≡ length buf.old }
    ensures asked { HasSearched (P.view store.old.pages) (P.view store.new.pages) result }
    ensures reads { OverTagged (P.view store.old.pages) store.old.root scan.old (tag_by way) (λ gaz left. (P.view store.new.pages).reads ≤ (P.view store.old.pages).reads + 64) }
    ensures root { store.new.root ≡ store.old.root }
    ensures keeps { P.keeps store.old.pages store.new.pages }
{
    let found = match store.next(scan) {
        Ok(Some(found)) => found,
        Ok(None) => return Ok(false),
        Err(fault) => return Err(fault),
    };
    match offer_for(store, way, &found, query, wanted, best, buf) {
        Ok(()) => Ok(true),
        Err(fault) => Err(fault),
    }
}

/// Offers the rows for which the keys of a scan stand. A tree has fewer keys than `MOST_KEYS`, so a scan that gives more goes over damaged
/// pages.
fn offer_scan<P: Pages>(
    store: &mut RowStore<P>,
    way: Way,
    scan: &mut Scan,
    query: &Query<'_>,
    wanted: &Wanted,
    best: &mut Best,
    buf: &mut [u8],
) -> Result<(), AskFault>
    requires room { 65535 ≤ length buf.old }
    requires wanted { wanted.now.test ≡ wanted_of (asked query.now).name }
    ensures keep { best.new.keep ≡ best.old.keep }
    ensures more { OnOk result (OverTagged (P.view store.old.pages) store.old.root scan.old (tag_by way)
        (λ gaz left. SeesMore gaz (asked query.now) best.old.keep (is_among (asked query.now) way left) best.old.pairs best.new.pairs)) }
    ensures damaged { IfErr result (λ fault. OverTagged (P.view store.old.pages) store.old.root scan.old (tag_by way) (λ gaz left. IsUndamaged fault)) }
    ensures absent { (asked query.now).name ≡ absent → IfErr result TakesNoMemory }
    ensures size { length buf.new ≡ length buf.old }
    ensures asked { HasSearched (P.view store.old.pages) (P.view store.new.pages) result }
    ensures reads { OverTagged (P.view store.old.pages) store.old.root scan.old (tag_by way) (λ gaz left. (P.view store.new.pages).reads ≤ (P.view store.old.pages).reads + 64 * (length left + 1)) }
    ensures root { store.new.root ≡ store.old.root }
    ensures keeps { P.keeps store.old.pages store.new.pages }
{
    for _turn in 0..MOST_KEYS {
        match offer_next(store, way, scan, query, wanted, best, buf) {
            Ok(true) => {}
            Ok(false) => return Ok(()),
            Err(fault) => return Err(fault),
        }
    }
    Err(AskFault::Damaged(store.root().top))
}

/// Offers the rows for which the keys from `low` to `high` stand.
pub(crate) fn offer_range<P: Pages>(
    store: &mut RowStore<P>,
    way: Way,
    low: &[u8; 32],
    high: &[u8; 32],
    query: &Query<'_>,
    wanted: &Wanted,
    best: &mut Best,
    buf: &mut [u8],
) -> Result<(), AskFault>
    requires room { 65535 ≤ length buf.old }
    requires wanted { wanted.now.test ≡ wanted_of (asked query.now).name }
    requires low { tag_of low.now ≡ tag_by way }
    requires high { tag_of high.now ≡ tag_by way }
    ensures low { IsKey low.now }
    ensures high { IsKey high.now }
    ensures keep { best.new.keep ≡ best.old.keep }
    ensures more { OnOk result (OverPairs (P.view store.old.pages) store.old.root
        (λ gaz pairs. SeesMore gaz (asked query.now) best.old.keep (is_among (asked query.now) way (between (key_of low.now) (key_of high.now) pairs)) best.old.pairs best.new.pairs)) }
    ensures damaged { IfErr result (λ fault. OverStore (P.view store.old.pages) store.old.root (λ gaz. IsUndamaged fault)) }
    ensures absent { (asked query.now).name ≡ absent → IfErr result TakesNoMemory }
    ensures size { length buf.new ≡ length buf.old }
    ensures asked { HasSearched (P.view store.old.pages) (P.view store.new.pages) result }
    ensures reads { OverPairs (P.view store.old.pages) store.old.root
        (λ gaz pairs. (P.view store.new.pages).reads ≤ (P.view store.old.pages).reads + 64 * (length (between (key_of low.now) (key_of high.now) pairs) + 1)) }
    ensures root { store.new.root ≡ store.old.root }
    ensures keeps { P.keeps store.old.pages store.new.pages }
{
    let mut scan = store.scan(*low, *high);
    offer_scan(store, way, &mut scan, query, wanted, best, buf)
}
