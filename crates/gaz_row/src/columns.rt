//! The columns of a row.
ghost use Rattle.std.specs.Prelude.{◌≡◌, ◌↔◌, ◌≤◌, length, map, IsSome, IfSome};
ghost use Rattle.gaz_num.specs.Pieces.{fields, column};

use gaz_num::split_column;

/// The number of columns of the geoname table, by the export's readme.
const COLUMNS: usize = 19;

/// A line with the texts of its columns.
#[derive(Clone, Copy)]
pub(crate) struct Columns<'a> {
    line: &'a [u8],
    texts: [&'a [u8]; COLUMNS],
    ghost cut: { map (λ text. text.now) texts ≡ fields line.now },
}

impl<'a> Columns<'a> {
    /// Cuts a line in one walk over its tabs; none where it has other than 19 columns.
    pub fn of(line: &'a [u8]) -> Option<Columns<'a>>
        ensures some { IsSome result ↔ (length (fields line.now) ≡ 19) }
        ensures line { IfSome result (λ columns. columns.line.now ≡ line.now) }
    {
        let mut texts = [line; COLUMNS];
        let mut rest = line;
        for place in 0..COLUMNS - 1 {
            match split_column(rest) {
                Some((text, behind)) => {
                    texts[place] = text;
                    rest = behind;
                }
                None => return None,
            }
        }
        match split_column(rest) {
            Some(_) => None,
            None => {
                texts[COLUMNS - 1] = rest;
                Some(Columns { line, texts })
            }
        }
    }

    /// The whole line.
    pub fn line(&self) -> &'a [u8]
        ensures { result.now ≡ self.now.line.now }
    {
        self.line
    }

    /// The column of a number from 1 to 19.
    pub fn text(&self, number: usize) -> &'a [u8]
        requires low { 1 ≤ number }
        requires high { number ≤ 19 }
        ensures { result.now ≡ column number self.now.line.now }
    {
        self.texts[number - 1]
    }
}
