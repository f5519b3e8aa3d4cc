//! A row whose columns can be asked for.
ghost use Rattle.std.specs.Prelude.{◌≡◌, ◌≤◌, ◌+◌, List, ℕ, Some, None};
ghost use Rattle.gaz_num.specs.Numbers.{id_in, degrees_in};
ghost use Rattle.gaz_num.specs.Pieces.{column};
ghost use Rattle.gaz_num.specs.Check.{reason_against};
ghost use Rattle.gaz_num.specs.declared.words.Kind.TheVariants.{Row as RowKind};
ghost use Rattle.gaz_row.specs.Row.{population_of};

use crate::check::{LATITUDES, LONGITUDES};
use gaz_num::{field, read_degrees, read_i64, read_id};
use std::marker::Model;

/// The column of a number from 1, or nothing where the line has fewer.
fn column_of(line: &[u8], number: usize) -> &[u8]
    requires { 1 ≤ number }
    ensures { result.now ≡ column number line.now }
{
    field(line, number - 1).unwrap_or(&[])
}

/// A line that the check of a row accepts, seen as the line. A column is looked for when it is asked for: most of the rows that a
/// search goes over fail its first test.
#[derive(Drop)]
pub struct Row<'a> {
    line: &'a [u8],
}

impl<'a> Model for Row<'a> {
    ghost Value = { List ℕ };

    ghost view = { λ row. row.line.now };

    ghost invariant = { λ row. reason_against RowKind row.line.now ≡ None };
}

impl<'a> Row<'a> {
    /// The row of a line that `check_row` accepts.
    pub fn of(line: &'a [u8]) -> Row<'a>
        requires { reason_against RowKind line.now ≡ None }
        ensures { result ≡ line.now }
    {
        Row { line }
    }

    /// The whole line.
    pub fn line(&self) -> &'a [u8]
        ensures { result.now ≡ self.now }
    {
        self.line
    }

    /// The geonameid, column 1.
    pub fn id(&self) -> u32
        ensures { id_in (column 1 self.now) ≡ Some result }
    {
        read_id(column_of(self.line, 1)).unwrap()
    }

    /// The text of the column of a number from 1.
    fn text(&self, number: usize) -> &'a str
        requires { 1 ≤ number }
        ensures { result.now ≡ column number self.now }
    {
        str::from_utf8(column_of(self.line, number)).unwrap()
    }

    /// The name, column 2.
    pub fn name(&self) -> &'a str
        ensures { result.now ≡ column 2 self.now }
    {
        self.text(2)
    }

    /// The name in ASCII, column 3.
    pub fn ascii(&self) -> &'a str
        ensures { result.now ≡ column 3 self.now }
    {
        self.text(3)
    }

    /// The latitude, column 5, in units of 10^-12 degree.
    pub fn latitude(&self) -> i64
        ensures { degrees_in 90 (column 5 self.now) ≡ Some result }
    {
        read_degrees(column_of(self.line, 5), LATITUDES).unwrap()
    }

    /// The longitude, column 6, in units of 10^-12 degree.
    pub fn longitude(&self) -> i64
        ensures { degrees_in 180 (column 6 self.now) ≡ Some result }
    {
        read_degrees(column_of(self.line, 6), LONGITUDES).unwrap()
    }

    /// The feature class, column 7.
    pub fn class(&self) -> &'a str
        ensures { result.now ≡ column 7 self.now }
    {
        self.text(7)
    }

    /// The feature code, column 8.
    pub fn code(&self) -> &'a str
        ensures { result.now ≡ column 8 self.now }
    {
        self.text(8)
    }

    /// The country code, column 9.
    pub fn country(&self) -> &'a str
        ensures { result.now ≡ column 9 self.now }
    {
        self.text(9)
    }

    /// The code of the admin division of a level from 1 to 4, columns 11 to 14.
    pub fn admin(&self, level: u8) -> &'a str
        requires low { 1 ≤ level }
        requires high { level ≤ 4 }
        ensures { result.now ≡ column (10 + level) self.now }
    {
        self.text(10 + level as usize)
    }

    /// The population, column 15, and 0 where that is empty.
    pub fn population(&self) -> i64
        ensures { result ≡ population_of self.now }
    {
        read_i64(column_of(self.line, 15)).unwrap_or(0)
    }
}
