//! Records of record pages, over pages.
ghost use Rattle.std.specs.Prelude.{◌≡◌, ◌≢◌, ◌≤◌, ◌<◌, ◌+◌, ℕ, true, false, Some, None, length, IfSome, IsNone, IfOk, OnOk, IfErr, IsTrue};
ghost use Rattle.gaz_slots.specs.Room.{IsTooFull};
ghost use Rattle.gaz_page.specs.Pages.{PagesView, SamePages, HasReads, Costs, NotDamaged};
ghost use Rattle.gaz_slots.specs.RecordPage.{is_record_page as is_in_form, is_used as has_record, slot_record, count_in};
ghost use Rattle.gaz_slots.specs.Edited.{Filled};
ghost use Rattle.gaz_heap.specs.Heap.{HasUsed, StoresIn, StoresAlone, StoresPieceIn, DropsSlot, ReplacesSlot, SlotDamage};

use gaz_page::{PAGE, PageFault, Pages};
use gaz_slots::{
    clear_slot, fill_alone, fill_piece, insert, is_record_page, is_used,
    replace as replace_in_page, used_end,
};

/// Copies a page.
fn load<P: Pages>(pages: &mut P, number: u32, page: &mut [u8]) -> Result<(), PageFault>
    requires { length page.old ≡ 4096 }
    ensures bytes { OnOk result (IsTrue (P.view pages.old).is_told → page.new ≡ (P.view pages.old).page number) }
    ensures failed { IfErr result (λ fault. fault ≡ PageFault.Failed) }
    ensures reads { HasReads 1 (P.view pages.old) (P.view pages.new) result }
    ensures size { length page.new ≡ 4096 }
    ensures keeps { P.keeps pages.old pages.new }
{
    match pages.read(number) {
        Ok(bytes) => {
            page.copy_from_slice(bytes);
            Ok(())
        }
        Err(fault) => Err(fault),
    }
}

/// Puts a record into the least free slot of a page. Where the page has no record at all it is written anew. `None` where the record doesn't fit
/// even once the page is packed.
fn put_in_page(number: u32, page: &mut [u8], bytes: &[u8]) -> Option<usize>
    requires form { is_in_form number page.old ≡ true }
    requires size { length page.old ≡ 4096 }
    requires short { length bytes.now ≤ 4076 }
    ensures filled { IfSome result (λ slot. Filled number slot bytes.now page.old page.new × (slot < 1020)) }
    ensures least { IfSome result (λ slot. (k : ℕ) → k < slot → IsTrue (has_record page.old k)) }
    ensures used { IsNone result → HasUsed page.old }
    ensures full { IsNone result → IsTooFull (length bytes.now) page.old }
    ensures size { length page.new ≡ 4096 }
{
    if used_end(page) == 0 {
        fill_alone(number, page, bytes);
        return Some(0);
    }
    insert(number, page, bytes)
}

/// Puts a record into the least free slot of a record page. `None` where it doesn't fit even once the page is packed.
pub(crate) fn store_in<P: Pages>(
    pages: &mut P,
    number: u32,
    bytes: &[u8],
) -> Result<Option<usize>, PageFault>
    requires may_change { (P.view pages.old).is_read_only ≡ false }
    requires short { length bytes.now ≤ 4076 }
    ensures stores { IsTrue (P.view pages.old).is_told → StoresIn number bytes.now (P.view pages.old) (P.view pages.new) result }
    ensures slot { IfOk result (λ found. IfSome found (λ slot. slot < 1020)) }
    ensures costs { Costs 1 1 (P.view pages.old) (P.view pages.new) result }
    ensures keeps { P.keeps pages.old pages.new }
{
    let mut page = [0; PAGE];
    match load(pages, number, &mut page) {
        Ok(()) => {}
        Err(fault) => return Err(fault),
    }
    if !is_record_page(number, &page) {
        return Err(PageFault::Damaged(number));
    }
    match put_in_page(number, &mut page, bytes) {
        Some(slot) => match pages.write(number, &page) {
            Ok(()) => Ok(Some(slot)),
            Err(fault) => Err(fault),
        },
        None => Ok(None),
    }
}

/// Puts a record alone into a page that is taken for it.
pub(crate) fn store_new<P: Pages>(pages: &mut P, bytes: &[u8]) -> Result<u32, PageFault>
    requires may_change { (P.view pages.old).is_read_only ≡ false }
    requires short { length bytes.now ≤ 4076 }
    ensures stores { IsTrue (P.view pages.old).is_told → StoresAlone bytes.now (P.view pages.old) (P.view pages.new) result }
    ensures costs { Costs 1 2 (P.view pages.old) (P.view pages.new) result }
    ensures keeps { P.keeps pages.old pages.new }
{
    let number = match pages.take() {
        Ok(number) => number,
        Err(fault) => return Err(fault),
    };
    let mut page = [0; PAGE];
    fill_alone(number, &mut page, bytes);
    match pages.write(number, &page) {
        Ok(()) => Ok(number),
        Err(fault) => Err(fault),
    }
}

/// Puts a piece of a long record into a page that is taken for it.
pub(crate) fn store_piece<P: Pages>(
    pages: &mut P,
    next: u32,
    piece: &[u8],
) -> Result<u32, PageFault>
    requires may_change { (P.view pages.old).is_read_only ≡ false }
    requires some { 1 ≤ length piece.now }
    requires short { length piece.now ≤ 4080 }
    ensures stores { IsTrue (P.view pages.old).is_told → StoresPieceIn next piece.now (P.view pages.old) (P.view pages.new) result }
    ensures costs { Costs 1 2 (P.view pages.old) (P.view pages.new) result }
    ensures keeps { P.keeps pages.old pages.new }
{
    let number = match pages.take() {
        Ok(number) => number,
        Err(fault) => return Err(fault),
    };
    let mut page = [0; PAGE];
    fill_piece(number, next, piece, &mut page);
    match pages.write(number, &page) {
        Ok(()) => Ok(number),
        Err(fault) => Err(fault),
    }
}

/// Copies a record page of which the slot is used.
fn load_used<P: Pages>(
    pages: &mut P,
    number: u32,
    slot: usize,
    page: &mut [u8],
) -> Result<(), PageFault>
    requires { length page.old ≡ 4096 }
    ensures bytes { OnOk result (IsTrue (P.view pages.old).is_told → page.new ≡ (P.view pages.old).page number) }
    ensures form { OnOk result (is_in_form number page.new ≡ true) }
    ensures used { OnOk result (IsTrue (has_record page.new slot)) }
    ensures damaged { IsTrue (P.view pages.old).is_told → SlotDamage number slot (P.view pages.old) result }
    ensures reads { HasReads 1 (P.view pages.old) (P.view pages.new) result }
    ensures size { length page.new ≡ 4096 }
    ensures keeps { P.keeps pages.old pages.new }
{
    match load(pages, number, page) {
        Ok(()) => {}
        Err(fault) => return Err(fault),
    }
    if !is_record_page(number, page) {
        return Err(PageFault::Damaged(number));
    }
    if !is_used(page, slot) {
        return Err(PageFault::Damaged(number));
    }
    Ok(())
}

/// Makes a slot of a record page free. Where nothing else stands in the page, and it isn't to stay, the page is given.
pub(crate) fn drop_slot<P: Pages>(
    pages: &mut P,
    number: u32,
    slot: usize,
    stays: bool,
) -> Result<(), PageFault>
    requires may_change { (P.view pages.old).is_read_only ≡ false }
    ensures drops { IsTrue (P.view pages.old).is_told → DropsSlot number slot stays (P.view pages.old) (P.view pages.new) result }
    ensures costs { Costs 1 1 (P.view pages.old) (P.view pages.new) result }
    ensures keeps { P.keeps pages.old pages.new }
{
    let mut page = [0; PAGE];
    match load_used(pages, number, slot, &mut page) {
        Ok(()) => {}
        Err(fault) => return Err(fault),
    }
    clear_slot(&mut page, slot);
    if stays {
        return pages.write(number, &page);
    }
    if used_end(&page) == 0 {
        return pages.give(number);
    }
    pages.write(number, &page)
}

/// Puts a record in place of the one of a slot of a record page. Answers false where it doesn't fit, even once the page is packed.
pub(crate) fn replace_slot<P: Pages>(
    pages: &mut P,
    number: u32,
    slot: usize,
    bytes: &[u8],
) -> Result<bool, PageFault>
    requires may_change { (P.view pages.old).is_read_only ≡ false }
    requires short { length bytes.now ≤ 4076 }
    ensures replaces { IsTrue (P.view pages.old).is_told → ReplacesSlot number slot bytes.now (P.view pages.old) (P.view pages.new) result }
    ensures unchanged { IfOk result (λ did. did ≡ false → (P.view pages.new).changed ≡ (P.view pages.old).changed) }
    ensures costs { Costs 1 1 (P.view pages.old) (P.view pages.new) result }
    ensures keeps { P.keeps pages.old pages.new }
{
    let mut page = [0; PAGE];
    match load_used(pages, number, slot, &mut page) {
        Ok(()) => {}
        Err(fault) => return Err(fault),
    }
    if !replace_in_page(number, &mut page, slot, bytes) {
        return Ok(false);
    }
    match pages.write(number, &page) {
        Ok(()) => Ok(true),
        Err(fault) => Err(fault),
    }
}
