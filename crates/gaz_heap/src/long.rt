//! Records of all lengths are put, put in place of others, and dropped.
ghost use Rattle.std.specs.Prelude.{◌≡◌, ◌≢◌, ◌⊎◌, ◌≤◌, ◌<◌, ◌+◌, ◌*◌, ◌/◌, ◌-◌, ℕ, List, true, false, length, Some, [], IfOk, OnOk, OnErr, IsTrue};
ghost use Rattle.gaz_page.specs.Pages.{SamePages, Costs};
ghost use Rattle.gaz_heap.specs.Heap.{HasUsed, DropsPiece, DropDamage, GivesAll};
ghost use Rattle.gaz_heap.specs.Chain.{chain_at, chain_pages};
ghost use Rattle.gaz_page.specs.Chains.{Each, InUse, IsFreeChain};
ghost use Rattle.gaz_heap.specs.Facts.{IsHeap, Puts, PutsThere, PutFails, PutNames, LongFails, LongNames, Holds, Drops, DropsAny, Given, Replaces, IsRefused};
ghost use Rattle.gaz_heap.specs.Place.{record_at, page_of, is_chain};
ghost use Rattle.gaz_slots.specs.Room.{Fits};

use crate::heap::{CHAIN, CHAIN_PAGES, SHORT, chain_place, put_short};
use crate::store::{drop_slot, replace_slot, store_piece};
use gaz_page::{PageFault, Pages};
use gaz_slots::{PIECE, next_of};

/// Puts a record of at most 65,535 bytes, and answers its place. A record of at most 4,076 bytes goes into the page for new records where it fits
/// that page, if need be once it is packed, and only else into a page that is taken and is then the one for new records.
/// At most 36 pages are changed. After an error the pages are to be dropped.
pub fn put<P: Pages>(pages: &mut P, current: &mut u32, bytes: &[u8]) -> Result<u64, PageFault>
    requires may_change { (P.view pages.old).is_read_only ≡ false }
    requires short { length bytes.now ≤ 65535 }
    ensures puts { IfOk result (λ place. IsTrue (P.view pages.old).is_told → (free : List ℕ) → IsHeap (P.view pages.old) current.old free → Puts (P.view pages.old) (P.view pages.new) current.old current.new free bytes.now place) }
    ensures page { length bytes.now ≤ 4076 → IfOk result (λ place. page_of place ≡ current.new) }
    ensures there { IfOk result (λ place. IsTrue (P.view pages.old).is_told → length bytes.now ≤ 4076 → current.old ≢ 0 → Fits (length bytes.now) ((P.view pages.old).page current.old) → PutsThere (P.view pages.old) (P.view pages.new) current.old current.new place) }
    ensures behind { IsTrue (P.view pages.old).is_told → OnOk result ((current.new ≡ current.old) ⊎ ((current.old ≡ 0) ⊎ HasUsed ((P.view pages.old).page current.old))) }
    ensures named { IsTrue (P.view pages.old).is_told → PutNames (P.view pages.old) current.old bytes.now result }
    ensures damaged { IsTrue (P.view pages.old).is_told → (free : List ℕ) → IsHeap (P.view pages.old) current.old free → PutFails (P.view pages.old) current.old free result }
    ensures left { OnErr result (current.new ≡ current.old) }
    ensures costs { Costs 17 36 (P.view pages.old) (P.view pages.new) result }
    ensures keeps { P.keeps pages.old pages.new }
{
    if bytes.len() <= SHORT {
        return put_short(pages, current, bytes);
    }
    put_long(pages, bytes)
}

/// Where the last piece of so many bytes begins.
fn piece_before(end: usize) -> usize
    requires { 0 < end }
    ensures below { result < end }
    ensures near { end ≤ result + 4080 }
    ensures whole { result ≡ (end - 1) / 4080 * 4080 }
{
    (end - 1) / PIECE * PIECE
}

/// Puts a long record piece by piece, the last piece first, so that each page links to one that is there.
fn put_long<P: Pages>(pages: &mut P, bytes: &[u8]) -> Result<u64, PageFault>
    requires may_change { (P.view pages.old).is_read_only ≡ false }
    requires long { 4076 < length bytes.now }
    requires short { length bytes.now ≤ 65535 }
    ensures puts { IfOk result (λ place. IsTrue (P.view pages.old).is_told → (current : ℕ) (free : List ℕ) → IsHeap (P.view pages.old) current free → Puts (P.view pages.old) (P.view pages.new) current current free bytes.now place) }
    ensures named { IsTrue (P.view pages.old).is_told → LongNames (P.view pages.old) result }
    ensures damaged { IsTrue (P.view pages.old).is_told → (free : List ℕ) → 1 ≤ (P.view pages.old).fresh → IsFreeChain (P.view pages.old) (P.view pages.old).free free → LongFails (P.view pages.old) free result }
    ensures costs { Costs 17 34 (P.view pages.old) (P.view pages.new) result }
    ensures keeps { P.keeps pages.old pages.new }
{
    let mut next: u32 = 0;
    let mut end = bytes.len();
    for _turn in 0..CHAIN_PAGES {
        if end == 0 {
            return Ok(chain_place(next));
        }
        let from = piece_before(end);
        let piece = &bytes[from..end];
        match store_piece(pages, next, piece) {
            Ok(number) => next = number,
            Err(fault) => return Err(fault),
        }
        end = from;
    }
    Ok(chain_place(next))
}

/// Drops the record at a place. The page for new records stays, and another record page goes with its last record.
/// At most 18 pages are changed. After an error the pages are to be dropped.
pub fn drop_record<P: Pages>(pages: &mut P, current: &mut u32, place: u64) -> Result<(), PageFault>
    requires { (P.view pages.old).is_read_only ≡ false }
    ensures current { current.new ≡ current.old }
    ensures drops { OnOk result (IsTrue (P.view pages.old).is_told → (free bytes : List ℕ) → IsHeap (P.view pages.old) current.old free → Holds (P.view pages.old) place bytes → Drops (P.view pages.old) (P.view pages.new) current.old free place) }
    ensures any { OnOk result (IsTrue (P.view pages.old).is_told → DropsAny (P.view pages.old) (P.view pages.new) place) }
    ensures damaged { IsTrue (P.view pages.old).is_told → DropDamage (record_at (P.view pages.old).page place) result }
    ensures costs { Costs 17 18 (P.view pages.old) (P.view pages.new) result }
    ensures keeps { P.keeps pages.old pages.new }
{
    if place >= 1 << 48 {
        return Err(PageFault::Damaged(0));
    }
    let page = (place / 65536) as u32;
    let slot = place % 65536;
    if slot == CHAIN {
        drop_chain(pages, page)
    } else {
        drop_slot(pages, page, slot as usize, page == *current)
    }
}

/// Puts a record in place of the one that stands at a place, in the same slot, and answers whether it did: it does where the record isn't longer than
/// the one that stands there, or where the page has room for it, if need be once it is packed. A chain stays as it is.
/// One page is changed, or none where the answer is false. After an error the pages are to be dropped.
pub fn replace<P: Pages>(pages: &mut P, place: u64, bytes: &[u8]) -> Result<bool, PageFault>
    requires { (P.view pages.old).is_read_only ≡ false }
    ensures replaces { IsTrue (P.view pages.old).is_told → IfOk result (λ did. did ≡ true → Replaces (P.view pages.old) (P.view pages.new) place bytes.now) }
    ensures same { IsTrue (P.view pages.old).is_told → IfOk result (λ did. did ≡ false → SamePages (P.view pages.old) (P.view pages.new)) }
    ensures unchanged { IfOk result (λ did. did ≡ false → (P.view pages.new).changed ≡ (P.view pages.old).changed) }
    ensures refused { IsTrue (P.view pages.old).is_told → IfOk result (λ did. did ≡ false → IsRefused (P.view pages.old) place bytes.now) }
    ensures fits { IsTrue (P.view pages.old).is_told → (earlier : List ℕ) → record_at (P.view pages.old).page place ≡ Some earlier → (IsTrue (is_chain place) → ⊥) → length bytes.now ≤ length earlier → IfOk result (λ did. did ≡ true) }
    ensures damaged { IsTrue (P.view pages.old).is_told → DropDamage (record_at (P.view pages.old).page place) result }
    ensures costs { Costs 1 1 (P.view pages.old) (P.view pages.new) result }
    ensures keeps { P.keeps pages.old pages.new }
{
    if place >= 1 << 48 {
        return Err(PageFault::Damaged(0));
    }
    let page = (place / 65536) as u32;
    let slot = place % 65536;
    if slot == CHAIN || bytes.len() > SHORT {
        return Ok(false);
    }
    replace_slot(pages, page, slot as usize, bytes)
}

/// Gives the pages of a chain.
fn drop_chain<P: Pages>(pages: &mut P, first: u32) -> Result<(), PageFault>
    requires { (P.view pages.old).is_read_only ≡ false }
    ensures given { OnOk result (IsTrue (P.view pages.old).is_told → (free bytes : List ℕ) → IsFreeChain (P.view pages.old) (P.view pages.old).free free → Each (InUse (P.view pages.old)) (chain_pages 17 (P.view pages.old).page first) → chain_at 17 (P.view pages.old).page first ≡ Some bytes → Given (P.view pages.old) (P.view pages.new) free (chain_pages 17 (P.view pages.old).page first) []) }
    ensures any { OnOk result (IsTrue (P.view pages.old).is_told → GivesAll first (P.view pages.old) (P.view pages.new)) }
    ensures damaged { IsTrue (P.view pages.old).is_told → DropDamage (chain_at 17 (P.view pages.old).page first) result }
    ensures costs { Costs 17 17 (P.view pages.old) (P.view pages.new) result }
    ensures keeps { P.keeps pages.old pages.new }
{
    let mut page = first;
    for _turn in 0..CHAIN_PAGES {
        match drop_piece(pages, page) {
            Ok(next) => {
                if next == 0 {
                    return Ok(());
                }
                page = next;
            }
            Err(fault) => return Err(fault),
        }
    }
    Err(PageFault::Damaged(first))
}

/// Gives an overflow page, and answers the next one or 0.
fn drop_piece<P: Pages>(pages: &mut P, page: u32) -> Result<u32, PageFault>
    requires { (P.view pages.old).is_read_only ≡ false }
    ensures drops { IsTrue (P.view pages.old).is_told → DropsPiece page (P.view pages.old) (P.view pages.new) result }
    ensures costs { Costs 1 1 (P.view pages.old) (P.view pages.new) result }
    ensures keeps { P.keeps pages.old pages.new }
{
    let next = match pages.read(page) {
        Ok(bytes) => next_of(page, bytes),
        Err(fault) => return Err(fault),
    };
    match next {
        Some(next) => match pages.give(page) {
            Ok(()) => Ok(next),
            Err(fault) => Err(fault),
        },
        None => Err(PageFault::Damaged(page)),
    }
}
