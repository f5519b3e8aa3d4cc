//! What a row has to be to stand above another one, by the columns of both.
ghost use Rattle.std.specs.Prelude.{◌≡◌, ◌≤◌, not};
ghost use Rattle.std.specs.List.{list_all};
ghost use Rattle.std.specs.Str.{bytes_eq};
ghost use Rattle.gaz_num.specs.Pieces.{column};
ghost use Rattle.gaz_num.specs.Check.{is_empty};
ghost use Rattle.gaz_parent.specs.Parent.{code_columns, has_path, same_path, is_division_of, has_country, is_country_of};

use crate::entity::{is_country, level};
use gaz_row::Row;

/// The code of a division that isn't known.
const UNKNOWN: &str = "00";

/// Whether the row has each admin code up to a level.
fn has_codes(level: u8, row: &Row<'_>) -> bool
    requires { level ≤ 4 }
    ensures { result ≡ list_all (λ n. not (is_empty (column n row.now))) (code_columns level) }
{
    level == 0 || (has_codes(level - 1, row) && !row.admin(level).is_empty())
}

/// Whether both rows have the same admin codes up to a level.
fn share_codes(level: u8, row: &Row<'_>, other: &Row<'_>) -> bool
    requires { level ≤ 4 }
    ensures { result ≡ list_all (λ n. bytes_eq (column n other.now) (column n row.now)) (code_columns level) }
{
    level == 0 || (share_codes(level - 1, row, other) && other.admin(level) == row.admin(level))
}

/// Whether the row's country and admin codes lead to a division of this level: none of them is empty, and code 1 isn't `00`.
pub fn leads_to_division(level: u8, row: &Row<'_>) -> bool
    requires low { 1 ≤ level }
    requires high { level ≤ 4 }
    ensures { result ≡ has_path level row.now }
{
    !row.country().is_empty() && has_codes(level, row) && row.admin(1) != UNKNOWN
}

/// Whether the other row is a division of this level with the row's country and admin codes up to it.
pub fn may_be_division(level_sought: u8, row: &Row<'_>, other: &Row<'_>) -> bool
    requires low { 1 ≤ level_sought }
    requires high { level_sought ≤ 4 }
    ensures { result ≡ is_division_of level_sought row.now other.now }
{
    level(other) == Some(level_sought)
        && other.country() == row.country()
        && share_codes(level_sought, row, other)
}

/// Whether a country may stand above the row: it is none itself, and its country isn't empty.
pub fn leads_to_country(row: &Row<'_>) -> bool
    ensures { result ≡ has_country row.now }
{
    !is_country(row) && !row.country().is_empty()
}

/// Whether the other row is the country of the row, where the table of countries names none.
pub fn may_be_country(row: &Row<'_>, other: &Row<'_>) -> bool
    ensures { result ≡ is_country_of (column 9 row.now) other.now }
{
    is_country(other) && other.country() == row.country()
}
