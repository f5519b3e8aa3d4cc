//! The chain of a place.
ghost use Rattle.std.specs.Prelude.{◌≡◌, ◌≤◌, ◌+◌, ◌∷◌, [], length, take, None, IsTrue, IsSome, IfOk, IfErr};
ghost use Rattle.gaz_num.specs.declared.words.Table.TheVariants.{Rows};
ghost use Rattle.gaz_plain.specs.Gazetteer.{line_with};
ghost use Rattle.gaz_plain.specs.Kin.{chain_of};
ghost use Rattle.gaz_pages.specs.Fits.{Fits};
ghost use Rattle.gaz_pages.specs.Held.{root_of};
ghost use Rattle.gaz_rows.specs.Store.{IsSound, TakesNoMemory};
ghost use Rattle.gaz_kin.specs.Reads.{most_for_chain};
ghost use Rattle.gaz_ask.specs.Asked.{OverMirror, OverLive, HasRead};

use crate::fault::ask_fault;
use gaz_framed::PagedStation;
use gaz_kin::chain as chain_over;
use gaz_pages::{LivePages, Mirror};
use gaz_rows::{AskFault, RowStore};

/// The chain of a place over the committed pages. What is lent to these stays lent to them.
fn ask_chain<T: PagedStation>(
    store: &mut RowStore<LivePages<'_, T>>,
    id: u32,
    buf: &mut [u8],
    out: &mut [u32; 64],
) -> Result<usize, AskFault>
    requires room { 131070 ≤ length buf.old }
    ensures station { store.new.pages.station.ghost_name ≡ store.old.pages.station.ghost_name }
    ensures within { IfOk result (λ count. count ≤ 64) }
    ensures chain { IfOk result (λ count. OverLive store.old.pages.extent store.old.root (T.view store.old.pages.station.now) (λ gaz. take count out.new ≡ chain_of gaz id)) }
    ensures none { IfOk result (λ count. OverLive store.old.pages.extent store.old.root (T.view store.old.pages.station.now) (λ gaz. line_with Rows (id ∷ []) gaz ≡ None → count ≡ 0)) }
    ensures damaged { IfErr result (λ fault. OverLive store.old.pages.extent store.old.root (T.view store.old.pages.station.now) (λ gaz. IsSound fault)) }
    ensures no_memory { IfErr result TakesNoMemory }
    ensures size { length buf.new ≡ length buf.old }
    ensures reads { OverLive store.old.pages.extent store.old.root (T.view store.old.pages.station.now)
        (λ gaz. (T.view store.new.pages.station.now).reads ≤ (T.view store.old.pages.station.now).reads + most_for_chain gaz id) }
    ensures leaves { HasRead (T.view store.old.pages.station.now) (T.view store.new.pages.station.now) result }
{
    match chain_over(store, id, buf, out) {
        Ok(count) => Ok(count),
        Err(fault) => Err(ask_fault(fault)),
    }
}

/// The chain of the place with the id, upwards: its id, that of its parent, and so on, up to one that has no parent or whose parent
/// came before, and at most 64. Answers how many they are, none where no row has the id.
pub fn chain<T: PagedStation>(
    mirror: &Mirror,
    station: &mut T,
    id: u32,
    buf: &mut [u8],
    out: &mut [u32; 64],
) -> Result<usize, AskFault>
    requires loaded { IsSome (root_of mirror.now) }
    requires fits { IsTrue (T.view station.old).is_told → Fits (root_of mirror.now) (T.view station.old) }
    requires room { 131070 ≤ length buf.old }
    ensures within { IfOk result (λ count. count ≤ 64) }
    ensures chain { IfOk result (λ count. OverMirror (T.view station.old) (λ gaz. take count out.new ≡ chain_of gaz id)) }
    ensures none { IfOk result (λ count. OverMirror (T.view station.old) (λ gaz. line_with Rows (id ∷ []) gaz ≡ None → count ≡ 0)) }
    ensures damaged { IfErr result (λ fault. OverMirror (T.view station.old) (λ gaz. IsSound fault)) }
    ensures no_memory { IfErr result TakesNoMemory }
    ensures size { length buf.new ≡ length buf.old }
    ensures reads { OverMirror (T.view station.old) (λ gaz. (T.view station.new).reads ≤ (T.view station.old).reads + most_for_chain gaz id) }
    ensures leaves { HasRead (T.view station.old) (T.view station.new) result }
{
    let Some(root) = mirror.root() else {
        unreachable!()
    };
    let now = root;
    let pages = LivePages::new(station, root);
    let mut store = RowStore::over(pages, now);
    ask_chain(&mut store, id, buf, out)
}
