//! The columns of a line.
ghost use Rattle.std.specs.Prelude.{◌≡◌, ◌≤◌};
ghost use Rattle.gaz_num.specs.Pieces.{column};

use gaz_num::field;

/// Bytes in the longest line.
pub(crate) const LONGEST: usize = 65_535;

/// The column of a number from 1 on, and nothing where there are fewer.
pub(crate) fn column_of(line: &[u8], number: usize) -> &[u8]
    requires { 1 ≤ number }
    ensures { result.now ≡ column number line.now }
{
    match field(line, number - 1) {
        Some(text) => text,
        None => &[],
    }
}
