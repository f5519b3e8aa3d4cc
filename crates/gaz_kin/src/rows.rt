//! Rows that are looked at.
ghost use Rattle.std.specs.Prelude.{◌≡◌, ◌≤◌, ◌+◌, ◌∷◌, [], None, length, take, option_map, IfOk, IfErr, IfSome};
ghost use Rattle.gaz_num.specs.Check.{reason_against};
ghost use Rattle.gaz_num.specs.declared.words.Kind.TheVariants.{Row};
ghost use Rattle.gaz_num.specs.declared.words.Table.TheVariants.{Rows};
ghost use Rattle.gaz_plain.specs.Gazetteer.{line_with};
ghost use Rattle.gaz_rows.specs.Store.{HasAsked, IsAnswer, IsSound};
ghost use Rattle.gaz_kin.specs.Over.{OverStore};

use gaz_page::Pages;
use gaz_row::check_row;
use gaz_rows::{AskFault, RowStore};

/// The row with an id, in the front of the buffer, or `None` where there is none. A line that isn't a row stands over damaged pages
/// alone.
pub(crate) fn find_row<P: Pages>(
    store: &mut RowStore<P>,
    id: u32,
    buf: &mut [u8],
) -> Result<Option<usize>, AskFault>
    requires room { 65535 ≤ length buf.old }
    ensures line { IfOk result (λ found. OverStore (P.view store.old.pages) store.old.root (λ gaz. IsAnswer (line_with Rows (id ∷ []) gaz) buf.new found)) }
    ensures fits { IfOk result (λ found. IfSome found (λ size. size ≤ 65535)) }
    ensures accepted { IfOk result (λ found. IfSome found (λ size. reason_against Row (take size buf.new) ≡ None)) }
    ensures damaged { IfErr result (λ fault. OverStore (P.view store.old.pages) store.old.root (λ gaz. IsSound fault)) }
    ensures size { length buf.new ≡ length buf.old }
    ensures asked { HasAsked (store.old.root.height + 17) (P.view store.old.pages) (P.view store.new.pages) result }
    ensures root { store.new.root ≡ store.old.root }
    ensures keeps { P.keeps store.old.pages store.new.pages }
{
    match store.get_row(id, buf) {
        Ok(Some(size)) => {
            if check_row(&buf[..size]).is_err() {
                return Err(AskFault::Damaged(store.root().top));
            }
            Ok(Some(size))
        }
        Ok(None) => Ok(None),
        Err(fault) => Err(fault),
    }
}

/// The id, if a row has it.
pub(crate) fn if_live<P: Pages>(
    store: &mut RowStore<P>,
    id: u32,
    buf: &mut [u8],
) -> Result<Option<u32>, AskFault>
    requires room { 65535 ≤ length buf.old }
    ensures found { IfOk result (λ found. OverStore (P.view store.old.pages) store.old.root (λ gaz. found ≡ option_map (λ row. id) (line_with Rows (id ∷ []) gaz))) }
    ensures damaged { IfErr result (λ fault. OverStore (P.view store.old.pages) store.old.root (λ gaz. IsSound fault)) }
    ensures size { length buf.new ≡ length buf.old }
    ensures asked { HasAsked (store.old.root.height + 17) (P.view store.old.pages) (P.view store.new.pages) result }
    ensures root { store.new.root ≡ store.old.root }
    ensures keeps { P.keeps store.old.pages store.new.pages }
{
    match store.get_row(id, buf) {
        Ok(Some(_)) => Ok(Some(id)),
        Ok(None) => Ok(None),
        Err(fault) => Err(fault),
    }
}
