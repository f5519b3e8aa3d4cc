//! Ids in the keys of a range, one after another.
ghost use Rattle.std.specs.Prelude.{◌≡◌, ◌≤◌, ◌+◌, ◌*◌, ◌^◌, ℕ, List, IsTrue};
ghost use Rattle.gaz_leaf.specs.Node.{Pair, key_of};
ghost use Rattle.gaz_scan.specs.Scan.{Comes, tree_of};
ghost use Rattle.gaz_keys.specs.Parts.{four_at};
ghost use Rattle.gaz_rows.specs.Store.{HasAsked};
ghost use Rattle.gaz_kin.specs.Ids.{id_in_key, GivesId};

use gaz_page::Pages;
use gaz_rows::{AskFault, RowStore};
use gaz_scan::Scan;

/// Where the id stands in a key.
#[derive(Clone, Copy)]
pub(crate) enum Part {
    /// Behind the class of a link: the other end of it.
    Other,
    /// At the end: a row's.
    Last,
}

/// What a look at the next id of a scan comes to.
pub(crate) enum Look {
    /// None was left.
    End,
    /// It fits.
    Fits(u32),
    /// It doesn't fit.
    Passed(u32),
}

/// How often to look for one of so many: once for each, and once for the end.
pub(crate) fn turns_for(count: u32) -> u64
    ensures turns { result ≡ count + 1 }
    ensures fits { result ≤ 2 ^ 32 }
{
    u64::from(count) + 1
}

/// A number of four bytes.
fn four_at(key: &[u8; 32], at: usize) -> u32
    requires { at ≤ 28 }
    ensures { result ≡ four_at at key.now }
{
    u32::from_be_bytes([key[at], key[at + 1], key[at + 2], key[at + 3]])
}

/// The id in a key.
fn number_in(part: Part, key: &[u8; 32]) -> u32
    ensures { result ≡ id_in_key part (key_of key.now) }
{
    match part {
        Part::Other => four_at(key, 6),
        Part::Last => four_at(key, 28),
    }
}

/// The id in the next key of a scan, or `None` behind the last.
pub(crate) fn next_id<P: Pages>(
    store: &mut RowStore<P>,
    scan: &mut Scan,
    part: Part,
) -> Result<Option<u32>, AskFault>
    ensures gives { IsTrue (P.view store.old.pages).is_told → (left : List Pair) → Comes (P.view store.old.pages).page scan.old left
        → GivesId part (P.view store.new.pages).page scan.new left result }
    ensures tree { tree_of scan.new ≡ tree_of scan.old }
    ensures asked { HasAsked (2 * (tree_of scan.old).height) (P.view store.old.pages) (P.view store.new.pages) result }
    ensures root { store.new.root ≡ store.old.root }
    ensures keeps { P.keeps store.old.pages store.new.pages }
{
    let (key, _place) = match store.next(scan) {
        Ok(Some(found)) => found,
        Ok(None) => return Ok(None),
        Err(fault) => return Err(fault),
    };
    Ok(Some(number_in(part, &key)))
}
