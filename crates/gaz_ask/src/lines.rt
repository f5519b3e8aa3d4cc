//! The line of a row and that of an admin code.
ghost use Rattle.std.specs.Prelude.{◌≡◌, ◌≤◌, ◌+◌, ◌*◌, ◌∷◌, [], length, Some, IsTrue, IsSome, IfOk, IfErr, IfSome};
ghost use Rattle.gaz_num.specs.declared.words.Table.TheVariants.{Rows, Codes};
ghost use Rattle.gaz_plain.specs.Gazetteer.{line_with};
ghost use Rattle.gaz_pages.specs.Fits.{Fits};
ghost use Rattle.gaz_pages.specs.Held.{root_of};
ghost use Rattle.gaz_rows.specs.Store.{IsAnswer, IsSound, TakesNoMemory};
ghost use Rattle.gaz_rows.specs.Found.{like_codes};
ghost use Rattle.gaz_ask.specs.Asked.{OverMirror, OverLive, HasRead};

use gaz_framed::PagedStation;
use gaz_pages::{LivePages, Mirror};
use gaz_rows::{AskFault, RowStore};

/// The row with an id over the committed pages. What is lent to these stays lent to them.
fn ask_row<T: PagedStation>(
    store: &mut RowStore<LivePages<'_, T>>,
    id: u32,
    buf: &mut [u8],
) -> Result<Option<usize>, AskFault>
    requires room { 65535 ≤ length buf.old }
    ensures station { store.new.pages.station.ghost_name ≡ store.old.pages.station.ghost_name }
    ensures line { IfOk result (λ found. OverLive store.old.pages.extent store.old.root (T.view store.old.pages.station.now) (λ gaz. IsAnswer (line_with Rows (id ∷ []) gaz) buf.new found)) }
    ensures within { IfOk result (λ found. IfSome found (λ size. size ≤ 65535)) }
    ensures damaged { IfErr result (λ fault. OverLive store.old.pages.extent store.old.root (T.view store.old.pages.station.now) (λ gaz. IsSound fault)) }
    ensures no_memory { IfErr result TakesNoMemory }
    ensures size { length buf.new ≡ length buf.old }
    ensures reads { OverLive store.old.pages.extent store.old.root (T.view store.old.pages.station.now) (λ gaz. (T.view store.new.pages.station.now).reads ≤ (T.view store.old.pages.station.now).reads + 23) }
    ensures leaves { HasRead (T.view store.old.pages.station.now) (T.view store.new.pages.station.now) result }
{
    store.get_row(id, buf)
}

/// The line of an admin code over the committed pages, as `ask_row`.
fn ask_code<T: PagedStation>(
    store: &mut RowStore<LivePages<'_, T>>,
    code: &[u8],
    buf: &mut [u8],
) -> Result<Option<usize>, AskFault>
    requires room { 65535 ≤ length buf.old }
    ensures station { store.new.pages.station.ghost_name ≡ store.old.pages.station.ghost_name }
    ensures line { IfOk result (λ found. OverLive store.old.pages.extent store.old.root (T.view store.old.pages.station.now) (λ gaz. IsAnswer (line_with Codes code.now gaz) buf.new found)) }
    ensures within { IfOk result (λ found. IfSome found (λ size. size ≤ 65535)) }
    ensures damaged { IfErr result (λ fault. OverLive store.old.pages.extent store.old.root (T.view store.old.pages.station.now) (λ gaz. IsSound fault)) }
    ensures no_memory { IfErr result TakesNoMemory }
    ensures size { length buf.new ≡ length buf.old }
    ensures reads { OverLive store.old.pages.extent store.old.root (T.view store.old.pages.station.now) (λ gaz. (T.view store.new.pages.station.now).reads ≤ (T.view store.old.pages.station.now).reads + 29 * (like_codes gaz code.now + 1)) }
    ensures leaves { HasRead (T.view store.old.pages.station.now) (T.view store.new.pages.station.now) result }
{
    store.get_code(code, buf)
}

/// The row with an id, in the front of the buffer, or `None` where there is none.
pub fn get_row<T: PagedStation>(
    mirror: &Mirror,
    station: &mut T,
    id: u32,
    buf: &mut [u8],
) -> Result<Option<usize>, AskFault>
    requires loaded { IsSome (root_of mirror.now) }
    requires fits { IsTrue (T.view station.old).is_told → Fits (root_of mirror.now) (T.view station.old) }
    requires room { 65535 ≤ length buf.old }
    ensures line { IfOk result (λ found. OverMirror (T.view station.old) (λ gaz. IsAnswer (line_with Rows (id ∷ []) gaz) buf.new found)) }
    ensures within { IfOk result (λ found. IfSome found (λ size. size ≤ 65535)) }
    ensures damaged { IfErr result (λ fault. OverMirror (T.view station.old) (λ gaz. IsSound fault)) }
    ensures no_memory { IfErr result TakesNoMemory }
    ensures size { length buf.new ≡ length buf.old }
    ensures reads { OverMirror (T.view station.old) (λ gaz. (T.view station.new).reads ≤ (T.view station.old).reads + 23) }
    ensures leaves { HasRead (T.view station.old) (T.view station.new) result }
{
    let Some(root) = mirror.root() else {
        unreachable!()
    };
    let now = root;
    let pages = LivePages::new(station, root);
    let mut store = RowStore::over(pages, now);
    ask_row(&mut store, id, buf)
}

/// The line of an admin code, which may be any bytes, in the front of the buffer, or `None` where there is none.
pub fn get_code<T: PagedStation>(
    mirror: &Mirror,
    station: &mut T,
    code: &[u8],
    buf: &mut [u8],
) -> Result<Option<usize>, AskFault>
    requires loaded { IsSome (root_of mirror.now) }
    requires fits { IsTrue (T.view station.old).is_told → Fits (root_of mirror.now) (T.view station.old) }
    requires room { 65535 ≤ length buf.old }
    ensures line { IfOk result (λ found. OverMirror (T.view station.old) (λ gaz. IsAnswer (line_with Codes code.now gaz) buf.new found)) }
    ensures within { IfOk result (λ found. IfSome found (λ size. size ≤ 65535)) }
    ensures damaged { IfErr result (λ fault. OverMirror (T.view station.old) (λ gaz. IsSound fault)) }
    ensures no_memory { IfErr result TakesNoMemory }
    ensures size { length buf.new ≡ length buf.old }
    ensures reads { OverMirror (T.view station.old) (λ gaz. (T.view station.new).reads ≤ (T.view station.old).reads + 29 * (like_codes gaz code.now + 1)) }
    ensures leaves { HasRead (T.view station.old) (T.view station.new) result }
{
    let Some(root) = mirror.root() else {
        unreachable!()
    };
    let now = root;
    let pages = LivePages::new(station, root);
    let mut store = RowStore::over(pages, now);
    ask_code(&mut store, code, buf)
}
