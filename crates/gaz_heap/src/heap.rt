//! Records by their places.
ghost use Rattle.std.specs.Prelude.{◌≡◌, ◌≢◌, ◌⊎◌, ◌≤◌, ◌<◌, ◌+◌, ◌*◌, ◌^◌, ℕ, List, true, false, Some, None, take, length, IfSome, IsNone, IfOk, OnOk, OnErr, IfErr, IsTrue};
ghost use Rattle.gaz_page.specs.Pages.{PagesView, SamePages, HasReads, Costs, NoMemory};
ghost use Rattle.gaz_slots.specs.RecordPage.{shown_in};
ghost use Rattle.gaz_heap.specs.Chain.{chain_at, long_enough};
ghost use Rattle.gaz_heap.specs.Place.{shown_at, page_of};
ghost use Rattle.gaz_heap.specs.Heap.{Gets, GetsRecord, HasUsed, PutDamage, TakeDamage};
ghost use Rattle.gaz_heap.specs.Facts.{IsHeap, Puts, PutsThere};
ghost use Rattle.gaz_slots.specs.Room.{Fits};

use crate::store::{store_in, store_new};
use gaz_page::{PageFault, Pages};
use gaz_slots::{LONGEST, PIECE, Piece, copy_piece, copy_slot};

/// The slot that stands for a chain of overflow pages.
pub(crate) const CHAIN: u64 = 65535;

/// How many pages a chain has at most.
pub(crate) const CHAIN_PAGES: usize = 17;

/// The longest record of a record page.
pub(crate) const SHORT: usize = 4076;

/// Copies the record at a place into the front of the buffer, and answers how many bytes it has.
/// At most 17 pages are read. Of a record page the other slots aren't looked at, so a record may be given of a page that isn't in form there. A long
/// record is copied while it is read: where a page of it is damaged or a call fails, the front of the buffer has what was copied by then.
pub fn get<P: Pages>(pages: &mut P, place: u64, buf: &mut [u8]) -> Result<usize, PageFault>
    requires { 65535 ≤ length buf.old }
    ensures record { IsTrue (P.view pages.old).is_told → Gets (P.view pages.old).page place buf.new result }
    ensures shown { IsTrue (P.view pages.old).is_told → GetsRecord (shown_at (P.view pages.old).page place) buf.new result }
    ensures fits { IfOk result (λ n. n ≤ 65535) }
    ensures memory { IfErr result NoMemory }
    ensures reads { HasReads 17 (P.view pages.old) (P.view pages.new) result }
    ensures keeps { P.keeps pages.old pages.new }
{
    if place >= 1 << 48 {
        return Err(PageFault::Damaged(0));
    }
    let page = (place / 65536) as u32;
    let slot = place % 65536;
    if slot == CHAIN {
        get_chain(pages, page, buf)
    } else {
        get_slot(pages, page, slot as usize, buf)
    }
}

/// Copies the record of a slot.
fn get_slot<P: Pages>(
    pages: &mut P,
    page: u32,
    slot: usize,
    buf: &mut [u8],
) -> Result<usize, PageFault>
    requires { 65535 ≤ length buf.old }
    ensures shown { IsTrue (P.view pages.old).is_told → GetsRecord (shown_in page ((P.view pages.old).page page) slot) buf.new result }
    ensures fits { IfOk result (λ n. n ≤ 65535) }
    ensures memory { IfErr result NoMemory }
    ensures reads { HasReads 1 (P.view pages.old) (P.view pages.new) result }
    ensures keeps { P.keeps pages.old pages.new }
{
    match pages.read(page) {
        Ok(bytes) => match copy_slot(page, bytes, slot, buf) {
            Some(n) => Ok(n),
            None => Err(PageFault::Damaged(page)),
        },
        Err(fault) => Err(fault),
    }
}

/// Copies the pieces of a chain one behind the other.
fn get_chain<P: Pages>(pages: &mut P, first: u32, buf: &mut [u8]) -> Result<usize, PageFault>
    requires { 65535 ≤ length buf.old }
    ensures shown { IsTrue (P.view pages.old).is_told → GetsRecord (long_enough (chain_at 17 (P.view pages.old).page first)) buf.new result }
    ensures fits { IfOk result (λ n. n ≤ 65535) }
    ensures memory { IfErr result NoMemory }
    ensures reads { HasReads 17 (P.view pages.old) (P.view pages.new) result }
    ensures keeps { P.keeps pages.old pages.new }
{
    let mut page = first;
    let mut at = 0;
    for _turn in 0..CHAIN_PAGES {
        let piece = match pages.read(page) {
            Ok(bytes) => copy_piece(page, bytes, at, buf),
            Err(fault) => return Err(fault),
        };
        match piece {
            Piece::Last(n) => {
                if at + n <= SHORT {
                    return Err(PageFault::Damaged(first));
                }
                return Ok(at + n);
            }
            Piece::More(next) => {
                at += PIECE;
                page = next;
            }
            Piece::Broken => return Err(PageFault::Damaged(page)),
        }
    }
    Err(PageFault::Damaged(first))
}

/// The place of a slot.
fn place_of(page: u32, slot: usize) -> u64
    requires { slot < 65535 }
    ensures place { result ≡ page * 65536 + slot }
    ensures page { page < 4294967296 }
{
    u64::from(page) * 65536 + slot as u64
}

/// The place of a chain.
pub(crate) fn chain_place(page: u32) -> u64
    ensures place { result ≡ page * 65536 + 65535 }
    ensures page { page < 4294967296 }
{
    u64::from(page) * 65536 + CHAIN
}

/// Puts a record of at most 4,076 bytes into the page for new records where it fits that page, if need be once it is packed, and else into a page
/// that is taken and is then the one for new records. At most three pages are changed.
pub(crate) fn put_short<P: Pages>(
    pages: &mut P,
    current: &mut u32,
    bytes: &[u8],
) -> Result<u64, PageFault>
    requires may_change { (P.view pages.old).is_read_only ≡ false }
    requires short { length bytes.now ≤ 4076 }
    ensures puts { IfOk result (λ place. IsTrue (P.view pages.old).is_told → (free : List ℕ) → IsHeap (P.view pages.old) current.old free → Puts (P.view pages.old) (P.view pages.new) current.old current.new free bytes.now place) }
    ensures page { IfOk result (λ place. page_of place ≡ current.new) }
    ensures there { IfOk result (λ place. IsTrue (P.view pages.old).is_told → current.old ≢ 0 → Fits (length bytes.now) ((P.view pages.old).page current.old) → PutsThere (P.view pages.old) (P.view pages.new) current.old current.new place) }
    ensures behind { IsTrue (P.view pages.old).is_told → OnOk result ((current.new ≡ current.old) ⊎ ((current.old ≡ 0) ⊎ HasUsed ((P.view pages.old).page current.old))) }
    ensures damaged { IsTrue (P.view pages.old).is_told → PutDamage current.old (P.view pages.old) result }
    ensures left { OnErr result (current.new ≡ current.old) }
    ensures costs { Costs 2 3 (P.view pages.old) (P.view pages.new) result }
    ensures keeps { P.keeps pages.old pages.new }
{
    if *current == 0 {
        return put_new(pages, current, bytes);
    }
    match store_in(pages, *current, bytes) {
        Ok(Some(slot)) => Ok(place_of(*current, slot)),
        Ok(None) => put_new(pages, current, bytes),
        Err(fault) => Err(fault),
    }
}

/// Puts a record alone into a page that is taken, which is then the one for new records.
fn put_new<P: Pages>(pages: &mut P, current: &mut u32, bytes: &[u8]) -> Result<u64, PageFault>
    requires may_change { (P.view pages.old).is_read_only ≡ false }
    requires short { length bytes.now ≤ 4076 }
    ensures puts { IfOk result (λ place. IsTrue (P.view pages.old).is_told → (first : PagesView) (before : ℕ) (free : List ℕ) → SamePages first (P.view pages.old) → IsHeap first before free → Puts first (P.view pages.new) before current.new free bytes.now place) }
    ensures page { IfOk result (λ place. page_of place ≡ current.new) }
    ensures damaged { IsTrue (P.view pages.old).is_told → TakeDamage (P.view pages.old) result }
    ensures left { OnErr result (current.new ≡ current.old) }
    ensures costs { Costs 1 2 (P.view pages.old) (P.view pages.new) result }
    ensures keeps { P.keeps pages.old pages.new }
{
    match store_new(pages, bytes) {
        Ok(number) => {
            *current = number;
            Ok(place_of(number, 0))
        }
        Err(fault) => Err(fault),
    }
}
