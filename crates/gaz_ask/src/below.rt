//! The children of a place.
ghost use Rattle.std.specs.Prelude.{◌≡◌, ◌≤◌, ◌+◌, length, take, IsTrue, IsSome, IfErr, OnOk};
ghost use Rattle.gaz_pick.specs.Order.{in_order};
ghost use Rattle.gaz_plain.specs.Kin.{child_pairs, children_pairs};
ghost use Rattle.gaz_pages.specs.Fits.{Fits};
ghost use Rattle.gaz_pages.specs.Held.{root_of};
ghost use Rattle.gaz_rows.specs.Store.{IsSound, TakesNoMemory};
ghost use Rattle.gaz_kin.specs.Reads.{most_for_children};
ghost use Rattle.gaz_ask.specs.Asked.{OverMirror, OverLive, HasRead};

use crate::fault::ask_fault;
use gaz_framed::PagedStation;
use gaz_kin::children as children_over;
use gaz_pages::{LivePages, Mirror};
use gaz_pick::Best;
use gaz_rows::{AskFault, RowStore};

/// The children of a place over the committed pages. What is lent to these stays lent to them.
fn ask_children<T: PagedStation>(
    store: &mut RowStore<LivePages<'_, T>>,
    id: u32,
    max: u32,
    buf: &mut [u8],
    best: &mut Best,
) -> Result<(), AskFault>
    requires room { 131070 ≤ length buf.old }
    requires max { max ≤ 1000 }
    ensures station { store.new.pages.station.ghost_name ≡ store.old.pages.station.ghost_name }
    ensures keep { best.new.keep ≡ max }
    ensures held { OnOk result (OverLive store.old.pages.extent store.old.root (T.view store.old.pages.station.now) (λ gaz. best.new.pairs ≡ take max (in_order (child_pairs gaz id)))) }
    ensures answer { OnOk result (OverLive store.old.pages.extent store.old.root (T.view store.old.pages.station.now) (λ gaz. take max best.new.pairs ≡ children_pairs gaz id max)) }
    ensures damaged { IfErr result (λ fault. OverLive store.old.pages.extent store.old.root (T.view store.old.pages.station.now) (λ gaz. IsSound fault)) }
    ensures no_memory { IfErr result TakesNoMemory }
    ensures size { length buf.new ≡ length buf.old }
    ensures reads { OverLive store.old.pages.extent store.old.root (T.view store.old.pages.station.now)
        (λ gaz. (T.view store.new.pages.station.now).reads ≤ (T.view store.old.pages.station.now).reads + most_for_children gaz id) }
    ensures leaves { HasRead (T.view store.old.pages.station.now) (T.view store.new.pages.station.now) result }
{
    match children_over(store, id, max, buf, best) {
        Ok(()) => Ok(()),
        Err(fault) => Err(ask_fault(fault)),
    }
}

/// Offers the children of the place with the id, and keeps the first so many of them, at most 1,000, in the order of answers.
pub fn children<T: PagedStation>(
    mirror: &Mirror,
    station: &mut T,
    id: u32,
    max: u32,
    buf: &mut [u8],
    best: &mut Best,
) -> Result<(), AskFault>
    requires loaded { IsSome (root_of mirror.now) }
    requires fits { IsTrue (T.view station.old).is_told → Fits (root_of mirror.now) (T.view station.old) }
    requires room { 131070 ≤ length buf.old }
    requires max { max ≤ 1000 }
    ensures keep { best.new.keep ≡ max }
    ensures held { OnOk result (OverMirror (T.view station.old) (λ gaz. best.new.pairs ≡ take max (in_order (child_pairs gaz id)))) }
    ensures answer { OnOk result (OverMirror (T.view station.old) (λ gaz. take max best.new.pairs ≡ children_pairs gaz id max)) }
    ensures damaged { IfErr result (λ fault. OverMirror (T.view station.old) (λ gaz. IsSound fault)) }
    ensures no_memory { IfErr result TakesNoMemory }
    ensures size { length buf.new ≡ length buf.old }
    ensures reads { OverMirror (T.view station.old) (λ gaz. (T.view station.new).reads ≤ (T.view station.old).reads + most_for_children gaz id) }
    ensures leaves { HasRead (T.view station.old) (T.view station.new) result }
{
    let Some(root) = mirror.root() else {
        unreachable!()
    };
    let now = root;
    let pages = LivePages::new(station, root);
    let mut store = RowStore::over(pages, now);
    ask_children(&mut store, id, max, buf, best)
}
