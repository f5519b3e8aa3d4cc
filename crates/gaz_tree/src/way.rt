//! The way from a page towards a key.
ghost use Rattle.std.specs.Prelude.{◌≡◌, ◌≤◌, ◌<◌, ◌+◌, ◌^◌, ℕ, length, IsTrue, IfOk, IfErr, Ok};
ghost use Rattle.gaz_leaf.specs.Node.{key_in, pairs_in, count_of as count_in, IsForm, IsPage};
ghost use Rattle.gaz_page.specs.Pages.{PagesView};
ghost use Rattle.gaz_tree.specs.Pairs.{Within, lookup};
ghost use Rattle.gaz_tree.specs.Tree.{BeginsWithZero, children_of, leaf_of, SomeEntry};
ghost use Rattle.gaz_page.specs.Pages.{HasReads};
ghost use Rattle.gaz_tree.specs.Calls.{IsGot, LeadsTo, StandsIn};

use gaz_leaf::{Key, Kind, child_at, count_of, first_above, is_page, key_at, value_at};
use gaz_page::{PageFault, Pages};

/// The child page that has the key within its bounds, and its place.
#[derive(Clone, Copy, Debug, PartialEq, Eq)]
pub struct Way {
    pub place: usize,
    pub child: u32,
}

/// The way from an inner page with these bytes.
pub fn way_in(bytes: &[u8], page: u32, key: Key) -> Result<Way, PageFault>
    requires { length bytes.now ≡ 4096 }
    ensures leads { IsForm Kind.Inner page bytes.now → BeginsWithZero (pairs_in Kind.Inner bytes.now)
        → LeadsTo (pairs_in Kind.Inner bytes.now) (key_in key) result }
    ensures child { IfOk result (λ way. SomeEntry (λ e. e.value ≡ way.child) (pairs_in Kind.Inner bytes.now)) }
    ensures place { IfOk result (λ way. way.place < count_in bytes.now) }
    ensures small { IfOk result (λ way. way.place < 2 ^ 16) }
    ensures damaged { IfErr result (λ fault. fault ≡ PageFault.Damaged page) }
    ensures own { IfOk result (λ way. IsPage Kind.Inner page bytes.now) }
    ensures unfit { IfErr result (λ fault. IsForm Kind.Inner page bytes.now → 2 ≤ count_in bytes.now → ⊥) }
{
    if !is_page(bytes, Kind::Inner, page) {
        return Err(PageFault::Damaged(page));
    }
    if count_of(bytes) == 0 {
        return Err(PageFault::Damaged(page));
    }
    let next = first_above(bytes, Kind::Inner, 1, key);
    Ok(Way {
        place: next - 1,
        child: child_at(bytes, next - 1),
    })
}

/// The value of the key in a leaf with these bytes.
pub fn value_in(bytes: &[u8], page: u32, key: Key) -> Result<Option<u64>, PageFault>
    requires { length bytes.now ≡ 4096 }
    ensures found { (low high : ℕ) → IsForm Kind.Leaf page bytes.now → Within low high (pairs_in Kind.Leaf bytes.now)
        → low ≤ key_in key → key_in key < high → IsGot (lookup (key_in key) (pairs_in Kind.Leaf bytes.now)) result }
    ensures damaged { IfErr result (λ fault. fault ≡ PageFault.Damaged page) }
    ensures own { IfOk result (λ found. IsPage Kind.Leaf page bytes.now) }
    ensures there { IfOk result (λ found. StandsIn (pairs_in Kind.Leaf bytes.now) (key_in key) found) }
    ensures unfit { IfErr result (λ fault. IsForm Kind.Leaf page bytes.now → ⊥) }
{
    if !is_page(bytes, Kind::Leaf, page) {
        return Err(PageFault::Damaged(page));
    }
    let next = first_above(bytes, Kind::Leaf, 0, key);
    if next == 0 {
        return Ok(None);
    }
    if key_at(bytes, Kind::Leaf, next - 1).is_below(key) {
        return Ok(None);
    }
    Ok(Some(value_at(bytes, Kind::Leaf, next - 1)))
}
