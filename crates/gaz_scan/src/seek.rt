//! The search for the leaf with the first pair from a key on.
ghost use Rattle.std.specs.Prelude.{◌≡◌, ◌<◌, ◌≤◌, ◌+◌, ◌*◌, ℕ, suc, List, [], take, drop, length, false, IsTrue, IfOk, IfErr, OnOk};
ghost use Rattle.gaz_leaf.specs.Node.{Pair, key_in, pairs_in, count_of as count_in, key_of, entry_at, IsForm, IsPage, IsShaped};
ghost use Rattle.gaz_tree.specs.Pairs.{Within};
ghost use Rattle.gaz_tree.specs.Tree.{BeginsWithZero, children_of, leaf_of, tree_pairs, next_key, IsFan, IsHead, IsTree, SomeEntry};
ghost use Rattle.gaz_tree.specs.Calls.{LeadsDown};
ghost use Rattle.gaz_page.specs.Pages.{HasReads, NoMemory};
ghost use Rattle.gaz_scan.specs.Seek.{Turns, FirstChild, Sought, First, Copies, CopiesOne, IsUnfit, IsNext, IsAmong, NamesUnder, pairs_below};

use crate::copied::Copied;
use crate::turn::{Turn, first_child_in, turn_in};
use gaz_leaf::{Key, Kind, count_of, first_above, is_page, key_at};
use gaz_page::{PageFault, Pages};

/// The place of the first entry of a leaf whose key isn't below this one, or the number of entries.
fn first_from(bytes: &[u8], key: Key) -> usize
    requires shaped { IsShaped Kind.Leaf bytes.now }
    ensures within { result ≤ count_in bytes.now }
    ensures before { (low high : ℕ) → Within low high (pairs_in Kind.Leaf bytes.now) → low ≤ key_in key → key_in key < high → Within low (key_in key) (take result (pairs_in Kind.Leaf bytes.now)) }
    ensures after { (low high : ℕ) → Within low high (pairs_in Kind.Leaf bytes.now) → low ≤ key_in key → key_in key < high → Within (key_in key) high (drop result (pairs_in Kind.Leaf bytes.now)) }
{
    let above = first_above(bytes, Kind::Leaf, 0, key);
    if above == 0 {
        return above;
    }
    if key_at(bytes, Kind::Leaf, above - 1).is_below(key) {
        return above;
    }
    above - 1
}

/// Copies a leaf with these bytes, where it has a key from this one on, and says whether it has.
fn copy_in(bytes: &[u8], page: u32, key: Key, copied: &mut Copied) -> Result<bool, PageFault>
    requires { length bytes.now ≡ 4096 }
    ensures sought { (low high : ℕ) → IsForm Kind.Leaf page bytes.now → Within low high (pairs_in Kind.Leaf bytes.now)
        → low ≤ key_in key → key_in key < high → Sought low high (key_in key) (pairs_in Kind.Leaf bytes.now) result copied.new }
    ensures copies { Copies result copied.old copied.new }
    ensures damaged { IfErr result (λ fault. fault ≡ PageFault.Damaged page) }
    ensures own { IfOk result (λ found. IsPage Kind.Leaf page bytes.now) }
    ensures shows { IfOk result (λ found. IsTrue found → copied.new.bytes ≡ bytes.now) }
    ensures unfit { IfErr result (λ fault. IsForm Kind.Leaf page bytes.now → ⊥) }
{
    if !is_page(bytes, Kind::Leaf, page) {
        return Err(PageFault::Damaged(page));
    }
    let at = first_from(bytes, key);
    if at == count_of(bytes) {
        return Ok(false);
    }
    copied.bytes.copy_from_slice(bytes);
    copied.at = at;
    Ok(true)
}

/// Copies a leaf with these bytes, which has to have an entry.
fn copy_all_in(bytes: &[u8], page: u32, copied: &mut Copied) -> Result<(), PageFault>
    requires { length bytes.now ≡ 4096 }
    ensures first { (low high : ℕ) → IsForm Kind.Leaf page bytes.now → Within low high (pairs_in Kind.Leaf bytes.now)
        → 0 < count_in bytes.now → First low high (pairs_in Kind.Leaf bytes.now) result copied.new }
    ensures copies { CopiesOne result copied.old copied.new }
    ensures damaged { IfErr result (λ fault. fault ≡ PageFault.Damaged page) }
    ensures own { OnOk result (IsPage Kind.Leaf page bytes.now) }
    ensures shows { OnOk result (copied.new.bytes ≡ bytes.now) }
    ensures unfit { IfErr result (λ fault. IsUnfit Kind.Leaf page bytes.now) }
{
    if !is_page(bytes, Kind::Leaf, page) {
        return Err(PageFault::Damaged(page));
    }
    if count_of(bytes) == 0 {
        return Err(PageFault::Damaged(page));
    }
    copied.bytes.copy_from_slice(bytes);
    copied.at = 0;
    Ok(())
}

/// Copies a leaf, where it has a key from this one on.
fn copy_from<P: Pages>(
    pages: &mut P,
    page: u32,
    key: Key,
    copied: &mut Copied,
) -> Result<bool, PageFault>
    ensures sought { IsTrue (P.view pages.old).is_told → (low high : ℕ) → IsHead (P.view pages.old).page 0 page low high
        → low ≤ key_in key → key_in key < high → Sought low high (key_in key) (leaf_of (P.view pages.old).page page) result copied.new }
    ensures copies { Copies result copied.old copied.new }
    ensures fault { IfErr result NoMemory }
    ensures own { IfOk result (λ found. IsTrue (P.view pages.old).is_told → IsPage Kind.Leaf page ((P.view pages.old).page page)) }
    ensures shows { IfOk result (λ found. IsTrue found → IsTrue (P.view pages.old).is_told → copied.new.bytes ≡ (P.view pages.old).page page) }
    ensures names { IsTrue (P.view pages.old).is_told → (most : ℕ) → NamesUnder (P.view pages.old).page most 0 page result }
    ensures reads { HasReads 1 (P.view pages.old) (P.view pages.new) result }
    ensures keeps { P.keeps pages.old pages.new }
{
    match pages.read(page) {
        Ok(bytes) => copy_in(bytes, page, key, copied),
        Err(fault) => Err(fault),
    }
}

/// Copies a leaf, which has to have an entry.
fn copy_all<P: Pages>(pages: &mut P, page: u32, copied: &mut Copied) -> Result<(), PageFault>
    ensures first { IsTrue (P.view pages.old).is_told → (low high : ℕ) → IsTree (P.view pages.old).page 0 page low high
        → First low high (leaf_of (P.view pages.old).page page) result copied.new }
    ensures copies { CopiesOne result copied.old copied.new }
    ensures fault { IfErr result NoMemory }
    ensures own { OnOk result (IsTrue (P.view pages.old).is_told → IsPage Kind.Leaf page ((P.view pages.old).page page)) }
    ensures shows { OnOk result (IsTrue (P.view pages.old).is_told → copied.new.bytes ≡ (P.view pages.old).page page) }
    ensures names { IsTrue (P.view pages.old).is_told → (most : ℕ) → 0 < most → NamesUnder (P.view pages.old).page most 0 page result }
    ensures reads { HasReads 1 (P.view pages.old) (P.view pages.new) result }
    ensures keeps { P.keeps pages.old pages.new }
{
    match pages.read(page) {
        Ok(bytes) => copy_all_in(bytes, page, copied),
        Err(fault) => Err(fault),
    }
}

/// The turn that leads to the key from an inner page.
fn read_turn<P: Pages>(pages: &mut P, page: u32, key: Key) -> Result<Turn, PageFault>
    ensures turns { IsTrue (P.view pages.old).is_told → IsForm Kind.Inner page ((P.view pages.old).page page)
        → BeginsWithZero (children_of (P.view pages.old).page page) → Turns (children_of (P.view pages.old).page page) (key_in key) result }
    ensures child { IfOk result (λ turn. IsTrue (P.view pages.old).is_told → SomeEntry (λ e. e.value ≡ turn.child) (children_of (P.view pages.old).page page)) }
    ensures own { IfOk result (λ turn. IsTrue (P.view pages.old).is_told → IsPage Kind.Inner page ((P.view pages.old).page page)) }
    ensures behind { IfOk result (λ turn. IsTrue (P.view pages.old).is_told → IsAmong turn.next (children_of (P.view pages.old).page page)) }
    ensures fault { IfErr result NoMemory }
    ensures names { IsTrue (P.view pages.old).is_told → (most level : ℕ) → level < most → NamesUnder (P.view pages.old).page most (suc level) page result }
    ensures reads { HasReads 1 (P.view pages.old) (P.view pages.new) result }
    ensures keeps { P.keeps pages.old pages.new }
{
    match pages.read(page) {
        Ok(bytes) => turn_in(bytes, page, key),
        Err(fault) => Err(fault),
    }
}

/// The first child page of an inner page.
fn read_first<P: Pages>(pages: &mut P, page: u32) -> Result<u32, PageFault>
    ensures first { IsTrue (P.view pages.old).is_told → IsForm Kind.Inner page ((P.view pages.old).page page)
        → BeginsWithZero (children_of (P.view pages.old).page page) → FirstChild (children_of (P.view pages.old).page page) result }
    ensures child { IfOk result (λ child. IsTrue (P.view pages.old).is_told → SomeEntry (λ e. e.value ≡ child) (children_of (P.view pages.old).page page)) }
    ensures own { IfOk result (λ child. IsTrue (P.view pages.old).is_told → IsPage Kind.Inner page ((P.view pages.old).page page)) }
    ensures fault { IfErr result NoMemory }
    ensures names { IsTrue (P.view pages.old).is_told → (most level : ℕ) → level < most → NamesUnder (P.view pages.old).page most (suc level) page result }
    ensures reads { HasReads 1 (P.view pages.old) (P.view pages.new) result }
    ensures keeps { P.keeps pages.old pages.new }
{
    match pages.read(page) {
        Ok(bytes) => first_child_in(bytes, page),
        Err(fault) => Err(fault),
    }
}

/// Copies the first leaf below a page of a level that isn't the topmost.
fn first_below<P: Pages>(
    pages: &mut P,
    level: u8,
    page: u32,
    copied: &mut Copied,
) -> Result<(), PageFault>
    ensures first { IsTrue (P.view pages.old).is_told → (low high : ℕ) → IsTree (P.view pages.old).page level page low high
        → First low high (tree_pairs (P.view pages.old).page level page) result copied.new }
    ensures copies { CopiesOne result copied.old copied.new }
    ensures fault { IfErr result NoMemory }
    ensures down { OnOk result (IsTrue (P.view pages.old).is_told → LeadsDown (P.view pages.old).page (λ leaf. copied.new.bytes ≡ (P.view pages.old).page leaf) level page) }
    ensures names { IsTrue (P.view pages.old).is_told → (most : ℕ) → level < most → NamesUnder (P.view pages.old).page most level page result }
    ensures reads { HasReads (level + 1) (P.view pages.old) (P.view pages.new) result }
    ensures keeps { P.keeps pages.old pages.new }
{
    if level == 0 {
        return copy_all(pages, page, copied);
    }
    match read_first(pages, page) {
        Ok(child) => first_below(pages, level - 1, child, copied),
        Err(fault) => Err(fault),
    }
}

/// Copies the first leaf below the next child, where there is one.
fn follow<P: Pages>(
    pages: &mut P,
    level: u8,
    next: Option<u32>,
    copied: &mut Copied,
) -> Result<bool, PageFault>
    ensures sought { IsTrue (P.view pages.old).is_told → (high : ℕ) (ys : List Pair) → IsFan (IsTree (P.view pages.old).page level) high ys → IsNext next ys
        → Sought (next_key high ys) high (next_key high ys) (pairs_below (P.view pages.old).page level ys) result copied.new }
    ensures copies { Copies result copied.old copied.new }
    ensures fault { IfErr result NoMemory }
    ensures down { IfOk result (λ found. IsTrue found → IsTrue (P.view pages.old).is_told → (page : ℕ) → IsAmong next (children_of (P.view pages.old).page page)
        → IsPage Kind.Inner page ((P.view pages.old).page page) → LeadsDown (P.view pages.old).page (λ leaf. copied.new.bytes ≡ (P.view pages.old).page leaf) (suc level) page) }
    ensures names { IsTrue (P.view pages.old).is_told → (most page : ℕ) → level < most → IsAmong next (children_of (P.view pages.old).page page) → NamesUnder (P.view pages.old).page most (suc level) page result }
    ensures few { IfOk result (λ found. found ≡ false → (P.view pages.new).reads ≤ (P.view pages.old).reads) }
    ensures reads { HasReads (level + 1) (P.view pages.old) (P.view pages.new) result }
    ensures keeps { P.keeps pages.old pages.new }
{
    match next {
        None => Ok(false),
        Some(child) => match first_below(pages, level, child, copied) {
            Ok(()) => Ok(true),
            Err(fault) => Err(fault),
        },
    }
}

/// Copies the leaf with the first pair from a key on below a page of a level, and says whether there is one.
pub fn seek_below<P: Pages>(
    pages: &mut P,
    level: u8,
    page: u32,
    key: Key,
    copied: &mut Copied,
) -> Result<bool, PageFault>
    ensures sought { IsTrue (P.view pages.old).is_told → (low high : ℕ) → IsHead (P.view pages.old).page level page low high
        → low ≤ key_in key → key_in key < high → Sought low high (key_in key) (tree_pairs (P.view pages.old).page level page) result copied.new }
    ensures copies { Copies result copied.old copied.new }
    ensures fault { IfErr result NoMemory }
    ensures down { IfOk result (λ found. IsTrue (P.view pages.old).is_told
        → LeadsDown (P.view pages.old).page (λ leaf. IsTrue found → copied.new.bytes ≡ (P.view pages.old).page leaf) level page) }
    ensures names { IsTrue (P.view pages.old).is_told → (most : ℕ) → level ≤ most → NamesUnder (P.view pages.old).page most level page result }
    ensures few { IfOk result (λ found. found ≡ false → (P.view pages.new).reads ≤ (P.view pages.old).reads + (level + 1)) }
    ensures reads { HasReads (2 * (level + 1)) (P.view pages.old) (P.view pages.new) result }
    ensures keeps { P.keeps pages.old pages.new }
{
    if level == 0 {
        return copy_from(pages, page, key, copied);
    }
    let turn = match read_turn(pages, page, key) {
        Ok(turn) => turn,
        Err(fault) => return Err(fault),
    };
    match seek_below(pages, level - 1, turn.child, key, copied) {
        Ok(true) => Ok(true),
        Ok(false) => follow(pages, level - 1, turn.next, copied),
        Err(fault) => Err(fault),
    }
}
