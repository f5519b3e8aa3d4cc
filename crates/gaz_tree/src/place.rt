//! Where a pair goes in a leaf.
ghost use Rattle.std.specs.Prelude.{◌≡◌, ◌≤◌, ◌<◌, ◌+◌, ◌^◌, ℕ, false, List, length, IsTrue, IfOk, IfErr, OnOk};
ghost use Rattle.std.specs.Prelude.{◌∷◌, ◌++◌, take, drop};
ghost use Rattle.gaz_page.specs.Pages.{HasPageCause, Counts};
ghost use Rattle.gaz_leaf.specs.Node.{Pair, key_in, key_of, pairs_in, count_of as count_in, IsForm, IsShaped, IsOfKind, IsPage};
ghost use Rattle.gaz_tree.specs.Pairs.{Within};
ghost use Rattle.gaz_tree.specs.Tree.{leaf_of};
ghost use Rattle.gaz_page.specs.Pages.{HasReads, NoMemory, NotDamaged};
ghost use Rattle.gaz_tree.specs.Calls.{Names, NamesSince};
ghost use Rattle.gaz_page.specs.Chains.{TakesAlong};
ghost use Rattle.gaz_tree.specs.Put.{Places, IsPlaceOf, IsAdded};

use crate::add::load;
use gaz_leaf::{Key, Kind, first_above, is_page, key_at, replace, value_at};
use gaz_page::{PageFault, Pages};

/// Where a pair goes among the pairs of a leaf.
#[derive(Clone, Copy, Debug, PartialEq, Eq)]
pub enum Place {
    /// It is there.
    There,
    /// Over the pair at this place, which has its key.
    Over(usize),
    /// Before the pair at this place.
    Between(usize),
}

/// The place in a leaf with these bytes.
fn place_in(bytes: &[u8], page: u32, key: Key, value: u64) -> Result<Place, PageFault>
    requires { length bytes.now ≡ 4096 }
    ensures place { (low high : ℕ) → IsForm Kind.Leaf page bytes.now → Within low high (pairs_in Kind.Leaf bytes.now) → low ≤ key_in key → key_in key < high
        → Places (pairs_in Kind.Leaf bytes.now) (record { key = key_in key; value = value }) result }
    ensures within { IfOk result (λ place. IsPlaceOf (count_in bytes.now) place) }
    ensures damaged { IfErr result (λ fault. fault ≡ PageFault.Damaged page) }
    ensures own { IfOk result (λ place. IsPage Kind.Leaf page bytes.now) }
    ensures unfit { IfErr result (λ fault. IsForm Kind.Leaf page bytes.now → ⊥) }
{
    if !is_page(bytes, Kind::Leaf, page) {
        return Err(PageFault::Damaged(page));
    }
    let next = first_above(bytes, Kind::Leaf, 0, key);
    if next == 0 {
        return Ok(Place::Between(next));
    }
    if key_at(bytes, Kind::Leaf, next - 1).is_below(key) {
        return Ok(Place::Between(next));
    }
    if value_at(bytes, Kind::Leaf, next - 1) == value {
        return Ok(Place::There);
    }
    Ok(Place::Over(next - 1))
}

/// Copies a leaf, and answers the place in it. The copy comes first since it has the page at hand sooner than the search, which waits for one
/// part of it after another.
pub fn load_place<P: Pages>(
    pages: &mut P,
    page: u32,
    key: Key,
    value: u64,
    buf: &mut [u8; 4096],
) -> Result<Place, PageFault>
    ensures place { IsTrue (P.view pages.old).is_told → (low high : ℕ) → IsForm Kind.Leaf page ((P.view pages.old).page page)
        → Within low high (leaf_of (P.view pages.old).page page) → low ≤ key_in key → key_in key < high
        → Places (leaf_of (P.view pages.old).page page) (record { key = key_in key; value = value }) result }
    ensures within { IfOk result (IsPlaceOf (count_in buf.new)) }
    ensures own { IfOk result (λ place. IsPage Kind.Leaf page buf.new) }
    ensures bytes { OnOk result (IsTrue (P.view pages.old).is_told → buf.new ≡ (P.view pages.old).page page) }
    ensures names { IsTrue (P.view pages.old).is_told → Names (P.view pages.old).page 0 page result }
    ensures fault { IfErr result NoMemory }
    ensures reads { HasReads 1 (P.view pages.old) (P.view pages.new) result }
    ensures keeps { P.keeps pages.old pages.new }
{
    match load(pages, Kind::Leaf, page, buf) {
        Ok(_) => place_in(buf, page, key, value),
        Err(fault) => Err(fault),
    }
}

/// Puts a pair over another in a leaf, of which `buf` is a copy.
pub fn put_over<P: Pages>(
    pages: &mut P,
    page: u32,
    buf: &mut [u8; 4096],
    n: usize,
    key: &[u8; 32],
    value: u64,
) -> Result<(), PageFault>
    requires may_change { (P.view pages.old).is_read_only ≡ false }
    requires shaped { IsShaped Kind.Leaf buf.old }
    requires within { n < count_in buf.old }
    ensures over { OnOk result (IsTrue (P.view pages.old).is_told → IsForm Kind.Leaf page buf.old
        → IsAdded Kind.Leaf page (take n (pairs_in Kind.Leaf buf.old) ++ record { key = key_of key.now; value = value } ∷ drop (n + 1) (pairs_in Kind.Leaf buf.old)) (P.view pages.old) (P.view pages.new)) }
    ensures fine { IfErr result NotDamaged }
    ensures along { OnOk result (IsTrue (P.view pages.old).is_told → buf.old ≡ (P.view pages.old).page page → IsOfKind Kind.Leaf buf.old
        → TakesAlong 0 (P.view pages.old) (P.view pages.new)) }
    ensures names { IsTrue (P.view pages.old).is_told → NamesSince (P.view pages.old).page (P.view pages.new).page 0 page result }
    ensures counts { Counts 0 1 (P.view pages.old) (P.view pages.new) }
    ensures cause { HasPageCause (P.view pages.old) (P.view pages.new) result }
    ensures keeps { P.keeps pages.old pages.new }
{
    replace(buf, Kind::Leaf, n, key, value);
    pages.write(page, buf)
}
