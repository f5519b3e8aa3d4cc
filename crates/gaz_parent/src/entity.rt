//! Divisions and countries among the rows.
ghost use Rattle.std.specs.Prelude.{◌≡◌, ◌≤◌};
ghost use Rattle.gaz_parent.specs.Parent.{code_level, level_of, is_political, is_country_row, first_level};

use gaz_row::Row;

/// The feature class of countries, divisions and regions.
const ADMINISTRATIVE: &str = "A";

/// The level of a division with this feature code.
fn level_of_code(code: &str) -> Option<u8>
    ensures { result ≡ code_level code.now }
{
    if code == "ADM1" {
        Some(1)
    } else if code == "ADM2" {
        Some(2)
    } else if code == "ADM3" {
        Some(3)
    } else if code == "ADM4" {
        Some(4)
    } else {
        None
    }
}

/// The level of an admin division, 1 to 4, and none of another row.
pub fn level(row: &Row<'_>) -> Option<u8>
    ensures { result ≡ level_of row.now }
{
    if row.class() == ADMINISTRATIVE {
        level_of_code(row.code())
    } else {
        None
    }
}

/// A feature code of a political entity.
fn is_entity(code: &str) -> bool
    ensures { result ≡ is_political code.now }
{
    code == "PCL"
        || code == "PCLD"
        || code == "PCLF"
        || code == "PCLI"
        || code == "PCLIX"
        || code == "PCLS"
}

/// Whether the row is a country: a political entity, by its feature code.
pub fn is_country(row: &Row<'_>) -> bool
    ensures { result ≡ is_country_row row.now }
{
    row.class() == ADMINISTRATIVE && is_entity(row.code())
}

/// The highest level of a division that may stand above the row.
pub(crate) fn first_level_above(row: &Row<'_>) -> u8
    ensures value { result ≡ first_level row.now }
    ensures bound { result ≤ 4 }
{
    if is_country(row) {
        return 0;
    }
    match level(row) {
        Some(level) => level - 1,
        None => 4,
    }
}
