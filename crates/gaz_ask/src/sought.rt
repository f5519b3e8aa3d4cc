//! The answer to a search.
ghost use Rattle.std.specs.Prelude.{◌≡◌, ◌≤◌, ◌+◌, length, take, drop, IsTrue, IsSome, IfErr, OnOk};
ghost use Rattle.gaz_pick.specs.Asked.{absent, asked};
ghost use Rattle.gaz_pick.specs.Order.{in_order};
ghost use Rattle.gaz_plain.specs.Search.{matching_pairs, answer_pairs};
ghost use Rattle.gaz_pages.specs.Fits.{Fits};
ghost use Rattle.gaz_pages.specs.Held.{root_of};
ghost use Rattle.gaz_plan.specs.Candidates.{most_reads};
ghost use Rattle.gaz_rows.specs.Store.{IsUndamaged, TakesNoMemory};
ghost use Rattle.gaz_ask.specs.Asked.{OverMirror, OverLive, HasRead};

use gaz_framed::PagedStation;
use gaz_pages::{LivePages, Mirror};
use gaz_pick::{Best, Query};
use gaz_plan::search as search_over;
use gaz_rows::{AskFault, RowStore};
use std::alloc::Global;

/// The answer to a search over the committed pages. What is lent to these stays lent to them.
fn ask_search<T: PagedStation>(
    alloc: Global,
    store: &mut RowStore<LivePages<'_, T>>,
    query: &Query<'_>,
    buf: &mut [u8],
    best: &mut Best,
) -> Result<(), AskFault>
    requires start { query.now.start ≤ 5000 }
    requires max { query.now.max ≤ 1000 }
    requires room { 65535 ≤ length buf.old }
    ensures station { store.new.pages.station.ghost_name ≡ store.old.pages.station.ghost_name }
    ensures keep { best.new.keep ≡ query.now.start + query.now.max }
    ensures held { OnOk result (OverLive store.old.pages.extent store.old.root (T.view store.old.pages.station.now)
        (λ gaz. best.new.pairs ≡ take (query.now.start + query.now.max) (in_order (matching_pairs gaz (asked query.now))))) }
    ensures answer { OnOk result (OverLive store.old.pages.extent store.old.root (T.view store.old.pages.station.now)
        (λ gaz. take query.now.max (drop query.now.start best.new.pairs) ≡ answer_pairs gaz (asked query.now))) }
    ensures absent { (asked query.now).name ≡ absent → IfErr result TakesNoMemory }
    ensures damaged { IfErr result (λ fault. OverLive store.old.pages.extent store.old.root (T.view store.old.pages.station.now) (λ gaz. IsUndamaged fault)) }
    ensures size { length buf.new ≡ length buf.old }
    ensures reads { OverLive store.old.pages.extent store.old.root (T.view store.old.pages.station.now)
        (λ gaz. (T.view store.new.pages.station.now).reads ≤ (T.view store.old.pages.station.now).reads + most_reads gaz (asked query.now)) }
    ensures leaves { HasRead (T.view store.old.pages.station.now) (T.view store.new.pages.station.now) result }
{
    search_over(alloc, store, query, buf, best)
}

/// Puts the first of the rows that match into `best`, which then has those that the answer is cut from. Memory may be wanting only where
/// a name is asked for, and `best` then has any pairs.
pub fn search<T: PagedStation>(
    alloc: Global,
    mirror: &Mirror,
    station: &mut T,
    query: &Query<'_>,
    buf: &mut [u8],
    best: &mut Best,
) -> Result<(), AskFault>
    requires loaded { IsSome (root_of mirror.now) }
    requires fits { IsTrue (T.view station.old).is_told → Fits (root_of mirror.now) (T.view station.old) }
    requires start { query.now.start ≤ 5000 }
    requires max { query.now.max ≤ 1000 }
    requires room { 65535 ≤ length buf.old }
    ensures keep { best.new.keep ≡ query.now.start + query.now.max }
    ensures held { OnOk result (OverMirror (T.view station.old)
        (λ gaz. best.new.pairs ≡ take (query.now.start + query.now.max) (in_order (matching_pairs gaz (asked query.now))))) }
    ensures answer { OnOk result (OverMirror (T.view station.old) (λ gaz. take query.now.max (drop query.now.start best.new.pairs) ≡ answer_pairs gaz (asked query.now))) }
    ensures absent { (asked query.now).name ≡ absent → IfErr result TakesNoMemory }
    ensures damaged { IfErr result (λ fault. OverMirror (T.view station.old) (λ gaz. IsUndamaged fault)) }
    ensures size { length buf.new ≡ length buf.old }
    ensures reads { OverMirror (T.view station.old) (λ gaz. (T.view station.new).reads ≤ (T.view station.old).reads + most_reads gaz (asked query.now)) }
    ensures leaves { HasRead (T.view station.old) (T.view station.new) result }
{
    let Some(root) = mirror.root() else {
        unreachable!()
    };
    let now = root;
    let pages = LivePages::new(station, root);
    let mut store = RowStore::over(pages, now);
    ask_search(alloc, &mut store, query, buf, best)
}
