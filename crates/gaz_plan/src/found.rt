//! Lines that are looked at: each is one of its kind, else it stands over damaged pages.
ghost use Rattle.std.specs.Prelude.{◌≡◌, ◌≤◌, ◌+◌, ◌∷◌, [], ℕ, None, length, take, IfOk, IfErr, IfSome};
ghost use Rattle.gaz_num.specs.Check.{reason_against};
ghost use Rattle.gaz_num.specs.declared.words.Kind.TheVariants.{Row as RowKind, Alt as AltKind};
ghost use Rattle.gaz_num.specs.declared.words.Table.TheVariants.{Rows, Alternates};
ghost use Rattle.gaz_plain.specs.Gazetteer.{line_with};
ghost use Rattle.gaz_rows.specs.Store.{HasAsked, IsAnswer, IsSound};
ghost use Rattle.gaz_kin.specs.Over.{OverStore};
ghost use Rattle.gaz_plan.specs.Searched.{OverKey, IsRowOf};

use gaz_alt::check_alt;
use gaz_page::Pages;
use gaz_row::check_row;
use gaz_rows::{AskFault, RowStore};

/// The row with an id, in the front of the buffer, or `None` where there is none.
pub(crate) fn find_row<P: Pages>(
    store: &mut RowStore<P>,
    id: u32,
    buf: &mut [u8],
) -> Result<Option<usize>, AskFault>
    requires room { 65535 ≤ length buf.old }
    ensures line { IfOk result (λ found. OverStore (P.view store.old.pages) store.old.root (λ gaz. IsAnswer (line_with Rows (id ∷ []) gaz) buf.new found)) }
    ensures fits { IfOk result (λ found. IfSome found (λ size. size ≤ 65535)) }
    ensures accepted { IfOk result (λ found. IfSome found (λ size. reason_against RowKind (take size buf.new) ≡ None)) }
    ensures damaged { IfErr result (λ fault. OverStore (P.view store.old.pages) store.old.root (λ gaz. IsSound fault)) }
    ensures size { length buf.new ≡ length buf.old }
    ensures asked { HasAsked (store.old.root.height + 17) (P.view store.old.pages) (P.view store.new.pages) result }
    ensures root { store.new.root ≡ store.old.root }
    ensures keeps { P.keeps store.old.pages store.new.pages }
{
    match store.get_row(id, buf) {
        Ok(Some(size)) => {
            if check_row(&buf[..size]).is_err() {
                return Err(AskFault::Damaged(store.root().top));
            }
            Ok(Some(size))
        }
        Ok(None) => Ok(None),
        Err(fault) => Err(fault),
    }
}

/// The row at a place that is the value of a row's key, in the front of the buffer.
pub(crate) fn row_at<P: Pages>(
    store: &mut RowStore<P>,
    place: u64,
    buf: &mut [u8],
) -> Result<usize, AskFault>
    requires room { 65535 ≤ length buf.old }
    ensures line { IfOk result (λ size. (key : ℕ) → OverKey (P.view store.old.pages) store.old.root 1 key place (λ gaz. IsRowOf gaz key (take size buf.new))) }
    ensures fits { IfOk result (λ size. size ≤ 65535) }
    ensures accepted { IfOk result (λ size. reason_against RowKind (take size buf.new) ≡ None) }
    ensures damaged { IfErr result (λ fault. (key : ℕ) → OverKey (P.view store.old.pages) store.old.root 1 key place (λ gaz. IsSound fault)) }
    ensures size { length buf.new ≡ length buf.old }
    ensures asked { HasAsked 17 (P.view store.old.pages) (P.view store.new.pages) result }
    ensures root { store.new.root ≡ store.old.root }
    ensures keeps { P.keeps store.old.pages store.new.pages }
{
    match store.line_at(place, buf) {
        Ok(size) => {
            if check_row(&buf[..size]).is_err() {
                return Err(AskFault::Damaged(store.root().top));
            }
            Ok(size)
        }
        Err(fault) => Err(fault),
    }
}

/// The alternate name with an id, in the front of the buffer, or `None` where there is none.
pub(crate) fn find_alternate<P: Pages>(
    store: &mut RowStore<P>,
    id: u32,
    buf: &mut [u8],
) -> Result<Option<usize>, AskFault>
    requires room { 65535 ≤ length buf.old }
    ensures line { IfOk result (λ found. OverStore (P.view store.old.pages) store.old.root (λ gaz. IsAnswer (line_with Alternates (id ∷ []) gaz) buf.new found)) }
    ensures fits { IfOk result (λ found. IfSome found (λ size. size ≤ 65535)) }
    ensures accepted { IfOk result (λ found. IfSome found (λ size. reason_against AltKind (take size buf.new) ≡ None)) }
    ensures damaged { IfErr result (λ fault. OverStore (P.view store.old.pages) store.old.root (λ gaz. IsSound fault)) }
    ensures size { length buf.new ≡ length buf.old }
    ensures asked { HasAsked (store.old.root.height + 17) (P.view store.old.pages) (P.view store.new.pages) result }
    ensures root { store.new.root ≡ store.old.root }
    ensures keeps { P.keeps store.old.pages store.new.pages }
{
    match store.get_alt(id, buf) {
        Ok(Some(size)) => {
            if check_alt(&buf[..size]).is_err() {
                return Err(AskFault::Damaged(store.root().top));
            }
            Ok(Some(size))
        }
        Ok(None) => Ok(None),
        Err(fault) => Err(fault),
    }
}
