//! A record page: a list of slots from its front, and records from its end towards them.
ghost use Rattle.std.specs.Prelude.{◌≡◌, ◌≤◌, ◌<◌, ◌+◌, ◌*◌, ◌-◌, ℕ, ◌≢◌, ◌⊎◌, true, false, None, Some, [], length, max, take, IfSome, IsNone, IsTrue};
ghost use Rattle.gaz_slots.specs.Bytes.{IsCopied};
ghost use Rattle.gaz_slots.specs.Edited.{Placed, Cleared, Added, Opened, Filled, FilledExactly, Replaced, Overwritten, Packs, PacksFirst, empty_head, empty_page};
ghost use Rattle.gaz_slots.specs.Room.{held_by, held_below, used_below, last_used, IsTooFull, IsTooFullFor};
ghost use Rattle.gaz_slots.specs.RecordPage.{all_below, is_used as has_record, slot_record, shown_in, count_in, mark_in, from_in, size_in, has_record_head, has_mark, is_within as stands_within, is_apart as stand_apart, is_record_page as is_in_form};

use crate::bytes::{put, put_short};
use gaz_page::{PAGE, number_at, short_at};

/// The first byte of a record page.
const KIND: u8 = 3;

/// How many bytes the header of a page has.
const HEADER: usize = 16;

/// How many slots the page has.
fn count(page: &[u8]) -> usize
    requires { length page.now ≡ 4096 }
    ensures value { result ≡ count_in page.now }
    ensures fits { result < 65536 }
{
    short_at(page, 2) as usize
}

/// Where the records begin.
fn mark(page: &[u8]) -> usize
    requires { length page.now ≡ 4096 }
    ensures value { result ≡ mark_in page.now }
    ensures fits { result < 65536 }
{
    short_at(page, 12) as usize
}

/// Where the record of a slot begins, 0 where the slot is free.
fn from_of(page: &[u8], slot: usize) -> usize
    requires size { length page.now ≡ 4096 }
    requires slot { 20 + 4 * slot ≤ 4096 }
    ensures value { result ≡ from_in page.now slot }
    ensures fits { result < 65536 }
{
    short_at(page, HEADER + 4 * slot) as usize
}

/// How many bytes the record of a slot has.
fn size_of(page: &[u8], slot: usize) -> usize
    requires size { length page.now ≡ 4096 }
    requires slot { 20 + 4 * slot ≤ 4096 }
    ensures value { result ≡ size_in page.now slot }
    ensures fits { result < 65536 }
{
    short_at(page, HEADER + 2 + 4 * slot) as usize
}

/// Whether the header is that of a record page of this number.
fn has_head(number: u32, page: &[u8]) -> bool
    ensures { result ≡ has_record_head number page.now }
{
    page.len() == PAGE
        && page[0] == KIND
        && page[1] == 0
        && number_at(page, 4) == number
        && number_at(page, 8) == 0
        && short_at(page, 14) == 0
}

/// Whether the mark stands behind the slots and not past the end.
fn is_marked(page: &[u8]) -> bool
    requires { length page.now ≡ 4096 }
    ensures { result ≡ has_mark page.now }
{
    let mark = mark(page);
    HEADER + 4 * count(page) <= mark && mark <= PAGE
}

/// Whether the slot is free, or its record stands between the mark and the end.
fn is_within(page: &[u8], slot: usize) -> bool
    requires size { length page.now ≡ 4096 }
    requires slot { 20 + 4 * slot ≤ 4096 }
    ensures { result ≡ stands_within page.now slot }
{
    let from = from_of(page, slot);
    from == 0 || (mark(page) <= from && from + size_of(page, slot) <= PAGE)
}

/// Whether one of them is free, or their records don't overlap.
fn is_apart(page: &[u8], one: usize, other: usize) -> bool
    requires size { length page.now ≡ 4096 }
    requires one { 20 + 4 * one ≤ 4096 }
    requires other { 20 + 4 * other ≤ 4096 }
    ensures { result ≡ stand_apart page.now one other }
{
    let first = from_of(page, one);
    let second = from_of(page, other);
    first == 0
        || second == 0
        || first + size_of(page, one) <= second
        || second + size_of(page, other) <= first
}

/// Whether each slot is free, or its record stands between the mark and the end.
fn are_within(page: &[u8]) -> bool
    requires size { length page.now ≡ 4096 }
    requires slots { 16 + 4 * count_in page.now ≤ 4096 }
    ensures { result ≡ all_below (count_in page.now) (stands_within page.now) }
{
    for slot in 0..count(page) {
        if !is_within(page, slot) {
            return false;
        }
    }
    true
}

/// Whether the record of a slot overlaps with none of an earlier one.
fn is_apart_from_earlier(page: &[u8], slot: usize) -> bool
    requires size { length page.now ≡ 4096 }
    requires slot { 20 + 4 * slot ≤ 4096 }
    ensures { result ≡ all_below slot (stand_apart page.now slot) }
{
    for earlier in 0..slot {
        if !is_apart(page, slot, earlier) {
            return false;
        }
    }
    true
}

/// Whether no two records overlap.
fn are_apart(page: &[u8]) -> bool
    requires size { length page.now ≡ 4096 }
    requires slots { 16 + 4 * count_in page.now ≤ 4096 }
    ensures { result ≡ all_below (count_in page.now) (λ slot. all_below slot (stand_apart page.now slot)) }
{
    for slot in 0..count(page) {
        if !is_apart_from_earlier(page, slot) {
            return false;
        }
    }
    true
}

/// Whether each record ends where the one of the used slot before it begins, or earlier, and the last begins at the mark or behind it. So puts
/// leave a page until a slot of it is filled anew, and then one walk over the slots tells what takes one over all pairs of them else.
fn are_falling(page: &[u8]) -> bool
    requires size { length page.now ≡ 4096 }
    requires slots { 16 + 4 * count_in page.now ≤ 4096 }
    ensures within { result ≡ true → all_below (count_in page.now) (stands_within page.now) ≡ true }
    ensures apart { result ≡ true → all_below (count_in page.now) (λ slot. all_below slot (stand_apart page.now slot)) ≡ true }
{
    let mut lowest = PAGE;
    for slot in 0..count(page) {
        let from = from_of(page, slot);
        if from != 0 {
            if from + size_of(page, slot) > lowest {
                return false;
            }
            lowest = from;
        }
    }
    mark(page) <= lowest
}

/// Whether the page is a record page in form, of this number.
#[tactic(auto, unfolding(crate::specs::RecordPage::is_record_page))]
pub fn is_record_page(number: u32, page: &[u8]) -> bool
    ensures { result ≡ is_in_form number page.now }
{
    if !has_head(number, page) || !is_marked(page) {
        return false;
    }
    are_falling(page) || (are_within(page) && are_apart(page))
}

/// Writes a record into a free slot, before all others.
fn fill_slot(page: &mut [u8], slot: usize, bytes: &[u8])
    requires size { length page.old ≡ 4096 }
    requires slot { slot < count_in page.old }
    requires room { 16 + 4 * count_in page.old + length bytes.now ≤ mark_in page.old }
    requires mark { mark_in page.old ≤ 4096 }
    ensures placed { (number : ℕ) → is_in_form number page.old ≡ true → from_in page.old slot ≡ 0 → Placed number slot bytes.now page.old page.new }
    ensures size { length page.new ≡ 4096 }
{
    let from = mark(page) - bytes.len();
    put(page, from, bytes);
    put_short(page, 12, from as u16);
    put_short(page, HEADER + 4 * slot, from as u16);
    put_short(page, HEADER + 2 + 4 * slot, bytes.len() as u16);
}

/// Makes a slot free. The bytes of its record stay where they stand, until the page is packed.
pub fn clear_slot(page: &mut [u8], slot: usize)
    requires size { length page.old ≡ 4096 }
    requires slot { 20 + 4 * slot ≤ 4096 }
    ensures cleared { (number : ℕ) → is_in_form number page.old ≡ true → slot < count_in page.old → Cleared number slot page.old page.new }
    ensures size { length page.new ≡ 4096 }
{
    put_short(page, HEADER + 4 * slot, 0);
    put_short(page, HEADER + 2 + 4 * slot, 0);
}

/// Adds a free slot behind the others.
fn add_slot(page: &mut [u8])
    requires size { length page.old ≡ 4096 }
    requires room { 20 + 4 * count_in page.old ≤ mark_in page.old }
    requires mark { mark_in page.old ≤ 4096 }
    ensures added { (number : ℕ) → is_in_form number page.old ≡ true → Added number page.old page.new }
    ensures count { count_in page.new ≡ count_in page.old + 1 }
    ensures mark { mark_in page.new ≡ mark_in page.old }
    ensures size { length page.new ≡ 4096 }
{
    let slot = count(page);
    put_short(page, HEADER + 4 * slot, 0);
    put_short(page, HEADER + 2 + 4 * slot, 0);
    put_short(page, 2, slot as u16 + 1);
}

/// The header of a record page without a slot.
fn empty_start(number: u32) -> [u8; 16]
    ensures { result ≡ empty_head number }
{
    let mut head = [0; HEADER];
    head[0] = KIND;
    head[4..8].copy_from_slice(&number.to_be_bytes());
    head[12] = 16;
    head
}

/// Makes the bytes a record page without a slot.
pub fn start_page(number: u32, page: &mut [u8])
    requires { length page.old ≡ 4096 }
    ensures page { page.new ≡ empty_page number }
    ensures form { is_in_form number page.new ≡ true }
    ensures count { count_in page.new ≡ 0 }
    ensures mark { mark_in page.new ≡ 4096 }
    ensures size { length page.new ≡ 4096 }
{
    page.fill(0);
    page[..HEADER].copy_from_slice(&empty_start(number));
}

/// The least free slot, or the number of slots where none is free.
fn find_free(page: &[u8]) -> usize
    requires size { length page.now ≡ 4096 }
    requires slots { 16 + 4 * count_in page.now ≤ 4096 }
    ensures within { result ≤ count_in page.now }
    ensures free { result < count_in page.now → from_in page.now result ≡ 0 }
    ensures least { (k : ℕ) → k < result → from_in page.now k ≢ 0 }
{
    let count = count(page);
    for slot in 0..count {
        if from_of(page, slot) == 0 {
            return slot;
        }
    }
    count
}

/// The number of slots up to the last used one.
pub fn used_end(page: &[u8]) -> usize
    requires size { length page.now ≡ 4096 }
    requires slots { 16 + 4 * count_in page.now ≤ 4096 }
    ensures within { result ≤ count_in page.now }
    ensures free { (k : ℕ) → result ≤ k → k < count_in page.now → from_in page.now k ≡ 0 }
    ensures used { 0 < result → from_in page.now (result - 1) ≢ 0 }
    ensures last { result ≡ last_used page.now }
{
    let mut end = 0;
    for slot in 0..count(page) {
        if from_of(page, slot) != 0 {
            end = slot + 1;
        }
    }
    end
}

/// Makes sure that the slot is there: it is, or it is added behind the others.
fn open_slot(page: &mut [u8], slot: usize)
    requires size { length page.old ≡ 4096 }
    requires slot { slot ≤ count_in page.old }
    requires room { 16 + 4 * max (count_in page.old) (slot + 1) ≤ mark_in page.old }
    requires mark { mark_in page.old ≤ 4096 }
    ensures opened { (number : ℕ) → is_in_form number page.old ≡ true → (slot < count_in page.old → from_in page.old slot ≡ 0) → Opened number slot page.old page.new }
    ensures count { count_in page.new ≡ max (count_in page.old) (slot + 1) }
    ensures mark { mark_in page.new ≡ mark_in page.old }
    ensures size { length page.new ≡ 4096 }
{
    if slot == count(page) {
        add_slot(page);
    }
}

/// Writes a record into a free slot, or into a new one behind the others. Answers false where there is no room before the mark,
/// and then changes nothing.
fn put_in_slot(page: &mut [u8], slot: usize, bytes: &[u8]) -> bool
    requires size { length page.old ≡ 4096 }
    requires slot { slot ≤ count_in page.old }
    requires short { length bytes.now ≤ 4096 }
    requires slots { 16 + 4 * count_in page.old ≤ mark_in page.old }
    requires mark { mark_in page.old ≤ 4096 }
    ensures filled { (number : ℕ) → is_in_form number page.old ≡ true → (slot < count_in page.old → from_in page.old slot ≡ 0) → result ≡ true → FilledExactly number slot bytes.now page.old page.new }
    ensures full { result ≡ false → page.new ≡ page.old }
    ensures room { 16 + 4 * max (count_in page.old) (slot + 1) + length bytes.now ≤ mark_in page.old → result ≡ true }
    ensures no_room { result ≡ false → mark_in page.old < 16 + 4 * max (count_in page.old) (slot + 1) + length bytes.now }
    ensures size { length page.new ≡ 4096 }
{
    let slots = count(page).max(slot + 1);
    if HEADER + 4 * slots + bytes.len() > mark(page) {
        return false;
    }
    open_slot(page, slot);
    fill_slot(page, slot, bytes);
    true
}

/// Copies a slot with its record behind the slots of another page. Answers false where there is no room.
fn pack_slot(page: &[u8], slot: usize, out: &mut [u8]) -> bool
    requires size { length page.now ≡ 4096 }
    requires slot { slot < count_in page.now }
    requires there { 20 + 4 * slot ≤ 4096 }
    requires out { length out.old ≡ 4096 }
    requires count { count_in out.old ≡ slot }
    requires slots { 16 + 4 * count_in out.old ≤ mark_in out.old }
    requires mark { mark_in out.old ≤ 4096 }
    ensures packed { result ≡ true → (number : ℕ) → PacksFirst number slot page.now out.old → PacksFirst number (slot + 1) page.now out.new }
    ensures full { result ≡ false → (number : ℕ) → is_in_form number page.now ≡ true → mark_in out.old < 20 + 4 * slot + held_by page.now slot }
    ensures size { length out.new ≡ 4096 }
{
    let from = from_of(page, slot);
    if from == 0 {
        return put_none(out);
    }
    let end = from + size_of(page, slot);
    if end > PAGE {
        return false;
    }
    put_in_slot(out, slot, &page[from..end])
}

/// Adds a free slot where there is room.
fn put_none(page: &mut [u8]) -> bool
    requires size { length page.old ≡ 4096 }
    requires slots { 16 + 4 * count_in page.old ≤ mark_in page.old }
    requires mark { mark_in page.old ≤ 4096 }
    ensures added { result ≡ true → (number : ℕ) → is_in_form number page.old ≡ true → Added number page.old page.new }
    ensures full { result ≡ false → mark_in page.old < 20 + 4 * count_in page.old }
    ensures size { length page.new ≡ 4096 }
{
    if HEADER + 4 * (count(page) + 1) > mark(page) {
        return false;
    }
    add_slot(page);
    true
}

/// Puts the records of a page into another one, in the same slots, one behind the other. Answers false where there is no room.
fn pack(number: u32, page: &[u8], out: &mut [u8]) -> bool
    requires size { length page.now ≡ 4096 }
    requires slots { 16 + 4 * count_in page.now ≤ 4096 }
    requires out { length out.old ≡ 4096 }
    ensures packed { result ≡ true → Packs number page.now out.new }
    ensures full { result ≡ false → is_in_form number page.now ≡ true → 4096 < 16 + 4 * last_used page.now + held_below (count_in page.now) page.now }
    ensures size { length out.new ≡ 4096 }
{
    start_page(number, out);
    for slot in 0..used_end(page) {
        if !pack_slot(page, slot, out) {
            return false;
        }
    }
    true
}

/// Puts a record into the least free slot of the page, or into a new one where none is free. Where it wouldn't fit else the page is packed in
/// place. Answers the slot, or `None` where the record doesn't fit even then, and then changes nothing.
pub fn insert(number: u32, page: &mut [u8], bytes: &[u8]) -> Option<usize>
    requires form { is_in_form number page.old ≡ true }
    requires size { length page.old ≡ 4096 }
    requires short { length bytes.now ≤ 4076 }
    ensures filled { IfSome result (λ slot. Filled number slot bytes.now page.old page.new) }
    ensures least { IfSome result (λ slot. (k : ℕ) → k < slot → IsTrue (has_record page.old k)) }
    ensures full { IsNone result → IsTooFull (length bytes.now) page.old }
    ensures same { IsNone result → page.new ≡ page.old }
    ensures slot { IfSome result (λ slot. slot < 1020) }
    ensures size { length page.new ≡ 4096 }
{
    let slot = find_free(page);
    if put_in_slot(page, slot, bytes) {
        return Some(slot);
    }
    insert_packed(number, page, bytes)
}

/// Packs the page, and puts a record into a slot of it.
fn insert_packed(number: u32, page: &mut [u8], bytes: &[u8]) -> Option<usize>
    requires form { is_in_form number page.old ≡ true }
    requires size { length page.old ≡ 4096 }
    requires short { length bytes.now ≤ 4076 }
    ensures filled { IfSome result (λ slot. Filled number slot bytes.now page.old page.new) }
    ensures least { IfSome result (λ slot. (k : ℕ) → k < slot → IsTrue (has_record page.old k)) }
    ensures full { IsNone result → IsTooFull (length bytes.now) page.old }
    ensures same { IsNone result → page.new ≡ page.old }
    ensures slot { IfSome result (λ slot. slot < 1020) }
    ensures size { length page.new ≡ 4096 }
{
    let mut packed = [0; PAGE];
    if !pack(number, page, &mut packed) {
        return None;
    }
    let slot = find_free(&packed);
    if !put_in_slot(&mut packed, slot, bytes) {
        return None;
    }
    page.copy_from_slice(&packed);
    Some(slot)
}

/// Writes a record over one that isn't shorter.
fn overwrite(page: &mut [u8], slot: usize, bytes: &[u8])
    requires size { length page.old ≡ 4096 }
    requires slot { 20 + 4 * slot ≤ 4096 }
    requires room { from_in page.old slot + length bytes.now ≤ 4096 }
    ensures written { (number : ℕ) → is_in_form number page.old ≡ true → IsTrue (has_record page.old slot) → length bytes.now ≤ size_in page.old slot → Overwritten number slot bytes.now page.old page.new }
    ensures size { length page.new ≡ 4096 }
{
    let from = from_of(page, slot);
    put(page, from, bytes);
    let size = bytes.len() as u16;
    put_short(page, HEADER + 2 + 4 * slot, size);
}

/// Puts a record in place of the one of a slot, before all others. Answers false where there is no room before the mark.
fn put_before(page: &mut [u8], slot: usize, bytes: &[u8]) -> bool
    requires form { (number : ℕ) × (is_in_form number page.old ≡ true) }
    requires size { length page.old ≡ 4096 }
    requires slot { slot < count_in page.old }
    requires short { length bytes.now ≤ 4076 }
    ensures replaced { result ≡ true → (number : ℕ) → is_in_form number page.old ≡ true → Replaced number slot bytes.now page.old page.new }
    ensures no_room { result ≡ false → mark_in page.old < 16 + 4 * count_in page.old + length bytes.now }
    ensures size { length page.new ≡ 4096 }
{
    clear_slot(page, slot);
    put_in_slot(page, slot, bytes)
}

/// Puts a record in place of the one of a used slot: over it where it isn't longer, and else before all others. Where it wouldn't fit else the page
/// is packed in place, without the old record. Answers false where it doesn't fit even then, and then changes nothing.
pub fn replace(number: u32, page: &mut [u8], slot: usize, bytes: &[u8]) -> bool
    requires form { is_in_form number page.old ≡ true }
    requires size { length page.old ≡ 4096 }
    requires used { IsTrue (has_record page.old slot) }
    requires short { length bytes.now ≤ 4076 }
    ensures replaced { result ≡ true → Replaced number slot bytes.now page.old page.new }
    ensures longer { result ≡ false → size_in page.old slot < length bytes.now }
    ensures full { result ≡ false → IsTooFullFor slot (length bytes.now) page.old }
    ensures same { result ≡ false → page.new ≡ page.old }
    ensures size { length page.new ≡ 4096 }
{
    if bytes.len() <= size_of(page, slot) {
        overwrite(page, slot, bytes);
        return true;
    }
    let mut changed = [0; PAGE];
    changed.copy_from_slice(page);
    if !put_before(&mut changed, slot, bytes) {
        return replace_packed(number, page, slot, bytes);
    }
    page.copy_from_slice(&changed);
    true
}

/// Packs the page without the record of a slot, and puts another one into the slot.
fn replace_packed(number: u32, page: &mut [u8], slot: usize, bytes: &[u8]) -> bool
    requires form { is_in_form number page.old ≡ true }
    requires size { length page.old ≡ 4096 }
    requires used { IsTrue (has_record page.old slot) }
    requires short { length bytes.now ≤ 4076 }
    ensures replaced { result ≡ true → Replaced number slot bytes.now page.old page.new }
    ensures full { result ≡ false → IsTooFullFor slot (length bytes.now) page.old }
    ensures same { result ≡ false → page.new ≡ page.old }
    ensures size { length page.new ≡ 4096 }
{
    // The slot stays used, so that it is there in the packed page.
    let mut emptied = [0; PAGE];
    emptied.copy_from_slice(page);
    overwrite(&mut emptied, slot, &[]);
    let mut packed = [0; PAGE];
    if !pack(number, &emptied, &mut packed) {
        return false;
    }
    if !put_before(&mut packed, slot, bytes) {
        return false;
    }
    page.copy_from_slice(&packed);
    true
}

/// Makes the bytes a record page with this record alone, in slot 0.
pub fn fill_alone(number: u32, page: &mut [u8], bytes: &[u8])
    requires size { length page.old ≡ 4096 }
    requires short { length bytes.now ≤ 4076 }
    ensures form { is_in_form number page.new ≡ true }
    ensures there { slot_record page.new 0 ≡ Some bytes.now }
    ensures others { (k : ℕ) → k ≢ 0 → slot_record page.new k ≡ None }
    ensures size { length page.new ≡ 4096 }
{
    start_page(number, page);
    put_in_slot(page, 0, bytes);
}

/// Copies the record that a page shows in a slot into the front of the buffer. `None` where by its header and its mark it is no record page of
/// this number, or where the slot has no record between the mark and the end. The other slots aren't looked at. What stands in the buffer behind
/// the record is as it was.
pub fn copy_slot(number: u32, page: &[u8], slot: usize, buf: &mut [u8]) -> Option<usize>
    requires size { length page.now ≡ 4096 }
    requires room { 65535 ≤ length buf.old }
    ensures copied { IfSome result (λ n. IsCopied n buf.new (shown_in number page.now slot)) }
    ensures none { IsNone result → shown_in number page.now slot ≡ None }
    ensures fits { IfSome result (λ n. n ≤ 4096) }
{
    if !has_head(number, page) {
        return None;
    }
    if !is_marked(page) {
        return None;
    }
    if slot >= count(page) {
        return None;
    }
    if !is_within(page, slot) {
        return None;
    }
    let from = from_of(page, slot);
    if from == 0 {
        return None;
    }
    let size = size_of(page, slot);
    let record = &page[from..from + size];
    put(buf, 0, record);
    Some(size)
}

/// Whether the slot has a record.
pub fn is_used(page: &[u8], slot: usize) -> bool
    requires size { length page.now ≡ 4096 }
    requires slots { 16 + 4 * count_in page.now ≤ 4096 }
    ensures { result ≡ has_record page.now slot }
{
    slot < count(page) && from_of(page, slot) != 0
}
