//! An alternate name whose columns can be asked for.
ghost use Rattle.std.specs.Prelude.{◌≡◌, List, ℕ, Some, None};
ghost use Rattle.gaz_num.specs.Numbers.{id_in};
ghost use Rattle.gaz_num.specs.Pieces.{column};
ghost use Rattle.gaz_num.specs.Check.{reason_against};
ghost use Rattle.gaz_num.specs.declared.words.Kind.TheVariants.{Alt as AltKind};

use crate::columns::Columns;
use gaz_num::read_id;
use std::marker::Model;

/// A line that the check of an alternate name accepts, seen as the line.
#[derive(Drop)]
pub struct Alt<'a> {
    columns: Columns<'a>,
}

impl<'a> Model for Alt<'a> {
    ghost Value = { List ℕ };

    ghost view = { λ alt. alt.columns.line.now };

    ghost invariant = { λ alt. reason_against AltKind alt.columns.line.now ≡ None };
}

impl<'a> Alt<'a> {
    /// The alternate name of a line that `check_alt` accepts.
    pub fn of(line: &'a [u8]) -> Alt<'a>
        requires { reason_against AltKind line.now ≡ None }
        ensures { result ≡ line.now }
    {
        Alt {
            columns: Columns::of(line).unwrap(),
        }
    }

    /// The whole line.
    pub fn line(&self) -> &'a [u8]
        ensures { result.now ≡ self.now }
    {
        self.columns.line()
    }

    /// The alternateNameId, column 1.
    pub fn id(&self) -> u32
        ensures { id_in (column 1 self.now) ≡ Some result }
    {
        read_id(self.columns.id()).unwrap()
    }

    /// The geonameid of the place that is so named, column 2.
    pub fn place(&self) -> u32
        ensures { id_in (column 2 self.now) ≡ Some result }
    {
        read_id(self.columns.place()).unwrap()
    }

    /// The code of the language or a pseudo code, column 3.
    pub fn language(&self) -> &'a str
        ensures { result.now ≡ column 3 self.now }
    {
        str::from_utf8(self.columns.language()).unwrap()
    }

    /// The alternate name, column 4.
    pub fn text(&self) -> &'a str
        ensures { result.now ≡ column 4 self.now }
    {
        str::from_utf8(self.columns.text()).unwrap()
    }
}
