//! One more entry in a page.
ghost use Rattle.std.specs.Prelude.{◌≡◌, ◌≤◌, ◌<◌, ◌+◌, ◌^◌, ℕ, false, List, length, slice_index, IsTrue, IfOk, IfErr, OnOk};
ghost use Rattle.gaz_page.specs.Pages.{HasPageCause, Counts};
ghost use Rattle.gaz_leaf.specs.Node.{Pair, key_of, pairs_in, count_of as count_in, capacity, IsForm, IsShaped, IsOfKind, IsPage, IsFitting};
ghost use Rattle.gaz_tree.specs.Tree.{from_low};
ghost use Rattle.gaz_page.specs.Pages.{HasReads, NoMemory};
ghost use Rattle.gaz_tree.specs.Calls.{Unfit};
ghost use Rattle.gaz_page.specs.Chains.{TakesAlong};
ghost use Rattle.gaz_tree.specs.Put.{inserted, SplitEnds, Adds, AddNames, IfKept, IsTakeDamage};

use crate::grown::{Grown, Half};
use gaz_leaf::{Kind, count_of, first_key, insert, is_page, spread, zero_first};
use gaz_page::{PageFault, Pages};

/// Copies a page of this kind, and answers its number of entries.
pub fn load<P: Pages>(
    pages: &mut P,
    kind: Kind,
    page: u32,
    buf: &mut [u8; 4096],
) -> Result<usize, PageFault>
    ensures count { IfOk result (λ count. count ≡ count_in buf.new) }
    ensures shaped { IfOk result (λ count. IsShaped kind buf.new) }
    ensures own { IfOk result (λ count. IsPage kind page buf.new) }
    ensures bytes { OnOk result (IsTrue (P.view pages.old).is_told → buf.new ≡ (P.view pages.old).page page) }
    ensures fault { IfErr result NoMemory }
    ensures unfit { IfErr result (Unfit kind page ((P.view pages.old).page page) (P.view pages.old).is_told) }
    ensures reads { HasReads 1 (P.view pages.old) (P.view pages.new) result }
    ensures keeps { P.keeps pages.old pages.new }
{
    match pages.read(page) {
        Ok(bytes) => {
            if !is_page(bytes, kind, page) {
                return Err(PageFault::Damaged(page));
            }
            buf.copy_from_slice(bytes);
            Ok(count_of(buf))
        }
        Err(fault) => Err(fault),
    }
}

/// The first key of a page. In an inner page it is 0 then.
pub fn part(right: &mut [u8; 4096], kind: Kind) -> [u8; 32]
    requires shaped { IsShaped kind right.old }
    requires some { 1 ≤ count_in right.old }
    ensures pairs { from_low (key_of result) (pairs_in kind right.new) ≡ pairs_in kind right.old }
    ensures ends { SplitEnds kind (key_of result) right.new }
    ensures count { count_in right.new ≡ count_in right.old }
    ensures form { (n : ℕ) → IsForm kind n right.old → IsForm kind n right.new }
    ensures byte { slice_index right.new 0 ≡ slice_index right.old 0 }
{
    let key = first_key(right, kind);
    match kind {
        Kind::Leaf => {}
        Kind::Inner => zero_first(right),
    }
    key
}

/// Spreads a full page, of which `left` is a copy, over itself and a new page.
fn split<P: Pages>(
    pages: &mut P,
    kind: Kind,
    page: u32,
    left: &mut [u8; 4096],
    n: usize,
    key: &[u8; 32],
    value: u64,
) -> Result<Grown, PageFault>
    requires may_change { (P.view pages.old).is_read_only ≡ false }
    requires shaped { IsShaped kind left.old }
    requires full { count_in left.old ≡ capacity kind }
    requires within { n ≤ count_in left.old }
    requires fits { IsFitting kind value }
    ensures adds { IsTrue (P.view pages.old).is_told → IsForm kind page left.old
        → Adds kind page (inserted n (record { key = key_of key.now; value = value }) (pairs_in kind left.old)) (P.view pages.old) (P.view pages.new) result }
    ensures along { OnOk result (IsTrue (P.view pages.old).is_told → left.old ≡ (P.view pages.old).page page → IsOfKind kind left.old
        → TakesAlong 1 (P.view pages.old) (P.view pages.new)) }
    ensures damaged { IsTrue (P.view pages.old).is_told → IsTakeDamage (P.view pages.old) result }
    ensures split { IfKept result ⊥ }
    ensures counts { Counts 1 3 (P.view pages.old) (P.view pages.new) }
    ensures cause { HasPageCause (P.view pages.old) (P.view pages.new) result }
    ensures keeps { P.keeps pages.old pages.new }
{
    let number = match pages.take() {
        Ok(number) => number,
        Err(fault) => return Err(fault),
    };
    let mut right = [0; 4096];
    spread(left, &mut right, kind, number, n, key, value);
    let middle = part(&mut right, kind);
    match pages.write(page, left) {
        Ok(()) => {}
        Err(fault) => return Err(fault),
    }
    match pages.write(number, &right) {
        Ok(()) => Ok(Grown::Split(Half {
            key: middle,
            page: number,
        })),
        Err(fault) => Err(fault),
    }
}

/// Puts one more entry into a page, of which `buf` is a copy. A full page is spread over itself and a new one.
pub fn add_to<P: Pages>(
    pages: &mut P,
    kind: Kind,
    page: u32,
    buf: &mut [u8; 4096],
    n: usize,
    key: &[u8; 32],
    value: u64,
) -> Result<Grown, PageFault>
    requires may_change { (P.view pages.old).is_read_only ≡ false }
    requires shaped { IsShaped kind buf.old }
    requires within { n ≤ count_in buf.old }
    requires fits { IsFitting kind value }
    ensures adds { IsTrue (P.view pages.old).is_told → IsForm kind page buf.old
        → Adds kind page (inserted n (record { key = key_of key.now; value = value }) (pairs_in kind buf.old)) (P.view pages.old) (P.view pages.new) result }
    ensures along { OnOk result (IsTrue (P.view pages.old).is_told → buf.old ≡ (P.view pages.old).page page → IsOfKind kind buf.old
        → TakesAlong 1 (P.view pages.old) (P.view pages.new)) }
    ensures damaged { IsTrue (P.view pages.old).is_told → IsTakeDamage (P.view pages.old) result }
    ensures light { IfKept result ((P.view pages.new).reads ≤ (P.view pages.old).reads) }
    ensures counts { Counts 1 3 (P.view pages.old) (P.view pages.new) }
    ensures cause { HasPageCause (P.view pages.old) (P.view pages.new) result }
    ensures keeps { P.keeps pages.old pages.new }
{
    if count_of(buf) == kind.capacity() {
        return split(pages, kind, page, buf, n, key, value);
    }
    insert(buf, kind, n, key, value);
    match pages.write(page, buf) {
        Ok(()) => Ok(Grown::Kept),
        Err(fault) => Err(fault),
    }
}

/// Puts one more entry into a page. A full page is spread over itself and a new one.
pub fn add_entry<P: Pages>(
    pages: &mut P,
    kind: Kind,
    page: u32,
    n: usize,
    key: &[u8; 32],
    value: u64,
) -> Result<Grown, PageFault>
    requires may_change { (P.view pages.old).is_read_only ≡ false }
    requires fits { IsFitting kind value }
    ensures adds { IsTrue (P.view pages.old).is_told → IsForm kind page ((P.view pages.old).page page)
        → Adds kind page (inserted n (record { key = key_of key.now; value = value }) (pairs_in kind ((P.view pages.old).page page))) (P.view pages.old) (P.view pages.new) result }
    ensures damaged { IsTrue (P.view pages.old).is_told → IsForm kind page ((P.view pages.old).page page) → n ≤ count_in ((P.view pages.old).page page)
        → IsTakeDamage (P.view pages.old) result }
    ensures along { OnOk result (IsTrue (P.view pages.old).is_told → TakesAlong 1 (P.view pages.old) (P.view pages.new)) }
    ensures names { IsTrue (P.view pages.old).is_told → AddNames kind page n (P.view pages.old) (P.view pages.new) result }
    ensures light { IfKept result ((P.view pages.new).reads ≤ (P.view pages.old).reads + 1) }
    ensures counts { Counts 2 3 (P.view pages.old) (P.view pages.new) }
    ensures cause { HasPageCause (P.view pages.old) (P.view pages.new) result }
    ensures keeps { P.keeps pages.old pages.new }
{
    let mut buf = [0; 4096];
    let count = match load(pages, kind, page, &mut buf) {
        Ok(count) => count,
        Err(fault) => return Err(fault),
    };
    if n > count {
        return Err(PageFault::Damaged(page));
    }
    add_to(pages, kind, page, &mut buf, n, key, value)
}
