//! What is remembered of the rows that were looked at last. Rows that come by their paths mostly have the path of the one before, and
//! the same place stands above them.
ghost use Rattle.std.specs.Prelude.{◌≡◌, ◌≤◌, ◌<◌, true, IfSome};
ghost use Rattle.gaz_parent.specs.Parent.{Lists, is_this};
ghost use Rattle.gaz_keys.specs.Front.{IsFront};
ghost use Rattle.gaz_kin.specs.Kept.{path_with, above_it, IsAboveFound, IsLast, IsKept};

use crate::path::put_path;
use gaz_row::Row;

/// As many bytes of a path are written. One of as many or more isn't remembered.
const ROOM: usize = 48;

/// What stands behind each code of a path. No column has it.
const TAB: u8 = b'\t';

/// What was found above a row.
#[derive(Clone, Copy)]
pub(crate) struct Found {
    /// The place.
    pub(crate) above: Option<u32>,
    /// Whether it stands above each other row with the same path too: the row itself wasn't left out.
    pub(crate) is_common: bool,
}

/// The first bytes of a path, and how many of them are its own.
#[derive(Clone, Copy)]
struct Path {
    bytes: [u8; ROOM],
    len: usize,
}

impl Path {
    /// The path of the row to a level.
    fn of(level: u8, row: &Row<'_>) -> Path
        requires { level ≤ 4 }
        ensures { IsFront 48 (path_with 9 level row.now) result.bytes result.len }
    {
        let mut bytes = [0; ROOM];
        let len = put_path(&mut bytes, level, row, TAB);
        Path { bytes, len }
    }

    /// Whether both are the whole of one path.
    fn is_same(&self, other: &Path) -> bool
        ensures bytes { result ≡ true → self.now.bytes ≡ other.now.bytes }
        ensures len { result ≡ true → self.now.len ≡ other.now.len }
        ensures whole { result ≡ true → self.now.len < 48 }
    {
        if self.len < ROOM && self.len == other.len {
            return self.bytes == other.bytes;
        }
        false
    }
}

/// Whether this is the place with the id.
fn is_place(above: Option<u32>, id: u32) -> bool
    ensures { result ≡ is_this id above }
{
    match above {
        Some(place) => place == id,
        None => false,
    }
}

/// A path, and what stands above each row with it.
#[derive(Clone, Copy)]
struct Last {
    path: Path,
    above: Option<u32>,
}

impl Last {
    /// What stands above the row, if it has this path and isn't that place itself.
    fn recall(&self, level: u8, row: &Row<'_>) -> Option<Option<u32>>
        requires { level ≤ 4 }
        ensures { IfSome result (λ above. (lists : Lists) → IsLast lists level self.now → above ≡ above_it lists level row.now) }
    {
        if is_place(self.above, row.id()) || !self.path.is_same(&Path::of(level, row)) {
            return None;
        }
        Some(self.above)
    }
}

/// The last path that was met at each level of divisions, and at level 0 that of a country, with what stands above each row with it.
#[derive(Clone, Copy)]
pub(crate) struct Kept {
    lasts: [Option<Last>; 5],
}

impl Kept {
    /// No path was met.
    pub fn none() -> Kept
        ensures { (lists : Lists) → IsKept lists result }
    {
        Kept { lasts: [None; 5] }
    }

    /// What stands above the row at a level, if it is remembered.
    pub fn recall(&self, level: u8, row: &Row<'_>) -> Option<Option<u32>>
        requires { level ≤ 4 }
        ensures { IfSome result (λ above. (lists : Lists) → IsKept lists self.now → above ≡ above_it lists level row.now) }
    {
        match &self.lasts[usize::from(level)] {
            Some(last) => last.recall(level, row),
            None => None,
        }
    }

    /// Remembers what was found above the row at a level, if it is common.
    pub fn keep(&mut self, level: u8, row: &Row<'_>, found: Found)
        requires { level ≤ 4 }
        ensures { (lists : Lists) → IsAboveFound lists level row.now found → IsKept lists self.old → IsKept lists self.new }
    {
        if found.is_common {
            self.lasts[usize::from(level)] = Some(Last {
                path: Path::of(level, row),
                above: found.above,
            });
        }
    }
}
