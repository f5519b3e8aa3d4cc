//! The chain of a place, upwards.
ghost use Rattle.std.specs.Prelude.{◌≡◌, ◌≤◌, ◌+◌, ◌*◌, ◌∷◌, [], length, take, None, IfOk, IfErr};
ghost use Rattle.gaz_num.specs.declared.words.Table.TheVariants.{Rows};
ghost use Rattle.gaz_parent.specs.Chain.{parent_at, upwards};
ghost use Rattle.gaz_plain.specs.Gazetteer.{line_with};
ghost use Rattle.gaz_plain.specs.Kin.{lists_of, chain_of};
ghost use Rattle.gaz_rows.specs.Store.{IsSound};
ghost use Rattle.gaz_kin.specs.Faults.{as_asked, NotOver};
ghost use Rattle.gaz_kin.specs.Over.{OverStore, HasOnlyAsked};
ghost use Rattle.gaz_kin.specs.Reads.{most_sought, most_for_chain};

use crate::fault::{KinFault, kin_fault};
use crate::kept::Kept;
use crate::kin::parent_of;
use crate::rows::{find_row, if_live};
use gaz_page::Pages;
use gaz_row::Row;
use gaz_rows::{AskFault, RowStore};

/// As many bytes as the longest line has.
const LONGEST: usize = 65_535;

/// The parent of the row with the id. The row stands in `line`, and what is looked at in `buf`.
fn parent_at<P: Pages>(
    store: &mut RowStore<P>,
    id: u32,
    line: &mut [u8],
    buf: &mut [u8],
) -> Result<Option<u32>, AskFault>
    requires room_for_line { 65535 ≤ length line.old }
    requires room { 65535 ≤ length buf.old }
    ensures found { IfOk result (λ found. OverStore (P.view store.old.pages) store.old.root (λ gaz. found ≡ parent_at (lists_of gaz) id)) }
    ensures damaged { IfErr result (λ fault. OverStore (P.view store.old.pages) store.old.root (λ gaz. IsSound fault)) }
    ensures line_size { length line.new ≡ length line.old }
    ensures size { length buf.new ≡ length buf.old }
    ensures asked { HasOnlyAsked (P.view store.old.pages) (P.view store.new.pages) result }
    ensures few { OverStore (P.view store.old.pages) store.old.root (λ gaz. (P.view store.new.pages).reads ≤ (P.view store.old.pages).reads + 64 * (most_sought gaz + 4)) }
    ensures root { store.new.root ≡ store.old.root }
    ensures keeps { P.keeps store.old.pages store.new.pages }
{
    match find_row(store, id, line) {
        Ok(Some(size)) => {
            let mut kept = Kept::none();
            parent_of(store, &Row::of(&line[..size]), &mut kept, buf)
        }
        Ok(None) => Ok(None),
        Err(fault) => Err(fault),
    }
}

/// Writes ids upwards from the first, each the parent of the one before, and answers how many.
fn climb<P: Pages>(
    store: &mut RowStore<P>,
    first: Option<u32>,
    out: &mut [u32; 64],
    line: &mut [u8],
    buf: &mut [u8],
) -> Result<usize, AskFault>
    requires room_for_line { 65535 ≤ length line.old }
    requires room { 65535 ≤ length buf.old }
    ensures within { IfOk result (λ count. count ≤ 64) }
    ensures chain { IfOk result (λ count. OverStore (P.view store.old.pages) store.old.root (λ gaz. take count out.new ≡ upwards 64 (lists_of gaz) [] first)) }
    ensures damaged { IfErr result (λ fault. OverStore (P.view store.old.pages) store.old.root (λ gaz. IsSound fault)) }
    ensures line_size { length line.new ≡ length line.old }
    ensures size { length buf.new ≡ length buf.old }
    ensures asked { HasOnlyAsked (P.view store.old.pages) (P.view store.new.pages) result }
    ensures few { OverStore (P.view store.old.pages) store.old.root (λ gaz. (P.view store.new.pages).reads ≤ (P.view store.old.pages).reads + 64 * (length (upwards 64 (lists_of gaz) [] first) * (most_sought gaz + 4))) }
    ensures root { store.new.root ≡ store.old.root }
    ensures keeps { P.keeps store.old.pages store.new.pages }
{
    let mut next = first;
    let mut count = 0;
    while count < out.len() {
        let Some(place) = next else {
            return Ok(count);
        };
        if out[..count].contains(&place) {
            return Ok(count);
        }
        out[count] = place;
        count += 1;
        match parent_at(store, place, line, buf) {
            Ok(above) => next = above,
            Err(fault) => return Err(fault),
        }
    }
    Ok(count)
}

/// The chain of the place with the id, as `chain`, with room for a row and for what is looked at.
fn chain_in<P: Pages>(
    store: &mut RowStore<P>,
    id: u32,
    line: &mut [u8],
    buf: &mut [u8],
    out: &mut [u32; 64],
) -> Result<usize, AskFault>
    requires room_for_line { 65535 ≤ length line.old }
    requires room { 65535 ≤ length buf.old }
    ensures within { IfOk result (λ count. count ≤ 64) }
    ensures chain { IfOk result (λ count. OverStore (P.view store.old.pages) store.old.root (λ gaz. take count out.new ≡ chain_of gaz id)) }
    ensures none { IfOk result (λ count. OverStore (P.view store.old.pages) store.old.root (λ gaz. line_with Rows (id ∷ []) gaz ≡ None → count ≡ 0)) }
    ensures damaged { IfErr result (λ fault. OverStore (P.view store.old.pages) store.old.root (λ gaz. IsSound fault)) }
    ensures line_size { length line.new ≡ length line.old }
    ensures size { length buf.new ≡ length buf.old }
    ensures asked { HasOnlyAsked (P.view store.old.pages) (P.view store.new.pages) result }
    ensures few { OverStore (P.view store.old.pages) store.old.root (λ gaz. (P.view store.new.pages).reads ≤ (P.view store.old.pages).reads + most_for_chain gaz id) }
    ensures root { store.new.root ≡ store.old.root }
    ensures keeps { P.keeps store.old.pages store.new.pages }
{
    match if_live(store, id, buf) {
        Ok(first) => climb(store, first, out, line, buf),
        Err(fault) => Err(fault),
    }
}

/// The chain of the place with the id, upwards: its id, that of its parent, and so on, up to one that has no parent or whose parent
/// came before, and at most 64. Answers how many they are, none where no row has the id.
pub fn chain<P: Pages>(
    store: &mut RowStore<P>,
    id: u32,
    buf: &mut [u8],
    out: &mut [u32; 64],
) -> Result<usize, KinFault>
    requires room { 131070 ≤ length buf.old }
    ensures within { IfOk result (λ count. count ≤ 64) }
    ensures chain { IfOk result (λ count. OverStore (P.view store.old.pages) store.old.root (λ gaz. take count out.new ≡ chain_of gaz id)) }
    ensures none { IfOk result (λ count. OverStore (P.view store.old.pages) store.old.root (λ gaz. line_with Rows (id ∷ []) gaz ≡ None → count ≡ 0)) }
    ensures damaged { IfErr result (NotOver (P.view store.old.pages) store.old.root) }
    ensures size { length buf.new ≡ length buf.old }
    ensures asked { HasOnlyAsked (P.view store.old.pages) (P.view store.new.pages) (as_asked result) }
    ensures reads { OverStore (P.view store.old.pages) store.old.root (λ gaz. (P.view store.new.pages).reads ≤ (P.view store.old.pages).reads + most_for_chain gaz id) }
    ensures root { store.new.root ≡ store.old.root }
    ensures keeps { P.keeps store.old.pages store.new.pages }
{
    let (buf, line) = buf.split_at_mut(LONGEST);
    match chain_in(store, id, line, buf, out) {
        Ok(count) => Ok(count),
        Err(fault) => Err(kin_fault(fault)),
    }
}
