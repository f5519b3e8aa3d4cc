//! Numbers by which rows are found.
ghost use Rattle.std.specs.Prelude.{◌≡◌, ◌≤◌};
ghost use Rattle.gaz_num.specs.Pieces.{column};
ghost use Rattle.gaz_plain.specs.Ordered.{next_number, number_of, path_number, country_number, as_list, entity_numbers, division_numbers};

use gaz_parent::{is_country, level};
use gaz_row::Row;
use std::marker::Model;

/// A large prime, by which the numbers of texts are spread.
const FACTOR: u64 = 1_099_511_628_211;

/// What ends a text: no byte.
const END: u64 = 256;

#[tactic(auto, unfolding(crate::specs::Ordered::next_number))]
fn next_number(number: u64, digit: u64) -> u64
    ensures { result ≡ next_number number digit }
{
    number.wrapping_mul(FACTOR).wrapping_add(digit)
}

/// A number of the text and of those before it.
fn number_of(before: u64, text: &[u8]) -> u64
    ensures { result ≡ number_of before text.now }
{
    let mut number = before;
    for byte in text {
        number = next_number(number, *byte as u64);
    }
    next_number(number, END)
}

/// The number by which the rows of a country are found.
pub(crate) fn rows_number(country: &[u8]) -> u64
    ensures { result ≡ number_of 0 country.now }
{
    number_of(0, country)
}

/// The number of the row's country and of its admin codes up to a level.
pub(crate) fn path_number(level: u8, row: &Row<'_>) -> u64
    requires { level ≤ 4 }
    ensures { result ≡ path_number level row.now }
{
    if level == 0 {
        return rows_number(row.country().as_bytes());
    }
    number_of(path_number(level - 1, row), row.admin(level).as_bytes())
}

/// The number by which the rows of countries are found.
pub(crate) fn country_number(country: &str) -> u64
    ensures { result ≡ country_number country.now }
{
    number_of(1, country.as_bytes())
}

/// The number of a country's row.
fn entity_number(row: &Row<'_>) -> Option<u64>
    ensures { as_list result ≡ entity_numbers row.now }
{
    if is_country(row) {
        Some(country_number(row.country()))
    } else {
        None
    }
}

/// The number of a division.
fn division_number(row: &Row<'_>) -> Option<u64>
    ensures { as_list result ≡ division_numbers row.now (level_of row.now) }
{
    match level(row) {
        Some(level) => Some(path_number(level, row)),
        None => None,
    }
}

ghost use Rattle.gaz_parent.specs.Parent.{level_of};

/// The numbers of a row, seen as their list: that of its country, and as a country's row or a division its own.
#[derive(Drop)]
pub(crate) struct RowNumbers {
    pub country: Option<u64>,
    pub entity: Option<u64>,
    pub division: Option<u64>,
}

impl Model for RowNumbers {
    ghost use Rattle.std.specs.Prelude.{ℕ, List, ◌++◌};
    ghost use Rattle.gaz_plain.specs.Ordered.{as_list};

    ghost Value = { List ℕ };

    ghost view = { λ numbers. as_list numbers.country ++ as_list numbers.entity ++ as_list numbers.division };
}

impl RowNumbers {
    ghost use Rattle.std.specs.Prelude.{◌≡◌, []};
    ghost use Rattle.gaz_plain.specs.Ordered.{row_numbers, is_one_in};

    pub fn none() -> RowNumbers
        ensures { result ≡ [] }
    {
        RowNumbers {
            country: None,
            entity: None,
            division: None,
        }
    }

    pub fn of(row: &Row<'_>) -> RowNumbers
        ensures { result ≡ row_numbers row.now }
    {
        RowNumbers {
            country: Some(path_number(0, row)),
            entity: entity_number(row),
            division: division_number(row),
        }
    }

    pub fn has(&self, number: u64) -> bool
        ensures { result ≡ is_one_in self.now number }
    {
        self.country == Some(number) || self.entity == Some(number) || self.division == Some(number)
    }
}
