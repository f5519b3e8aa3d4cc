//! The columns of an alternate name.
ghost use Rattle.std.specs.Prelude.{◌≡◌, ◌&&◌, suc, length, nat_le, is_some, IfSome};
ghost use Rattle.gaz_num.specs.Pieces.{fields, column};

use gaz_num::{count_fields, split_column};

/// The columns behind the text, by the export's readme: four flags, and from when to when the name is in use.
const MORE_COLUMNS: usize = 6;

/// A line with the texts of its first four columns.
#[derive(Clone, Copy)]
pub(crate) struct Columns<'a> {
    line: &'a [u8],
    id: &'a [u8],
    place: &'a [u8],
    language: &'a [u8],
    text: &'a [u8],
    ghost first: { id.now ≡ column 1 line.now },
    ghost second: { place.now ≡ column 2 line.now },
    ghost third: { language.now ≡ column 3 line.now },
    ghost fourth: { text.now ≡ column 4 line.now },
}

/// The last of the four columns, and the number of those behind it.
fn split_text(rest: &[u8]) -> (&[u8], usize)
    ensures text { column 1 rest.now ≡ result.0.now }
    ensures more { length (fields rest.now) ≡ suc result.1 }
{
    match split_column(rest) {
        Some((text, behind)) => (text, count_fields(behind)),
        None => (rest, 0),
    }
}

impl<'a> Columns<'a> {
    /// Cuts a line in one walk over its tabs; none where it has fewer than 4 columns or more than 10.
    pub fn of(line: &'a [u8]) -> Option<Columns<'a>>
        ensures some { is_some result ≡ (nat_le 4 (length (fields line.now)) && nat_le (length (fields line.now)) 10) }
        ensures line { IfSome result (λ columns. columns.line.now ≡ line.now) }
    {
        let Some((id, rest)) = split_column(line) else {
            return None;
        };
        let Some((place, rest)) = split_column(rest) else {
            return None;
        };
        let Some((language, rest)) = split_column(rest) else {
            return None;
        };
        let (text, more) = split_text(rest);
        if more > MORE_COLUMNS {
            return None;
        }
        Some(Columns {
            line,
            id,
            place,
            language,
            text,
        })
    }

    /// The whole line.
    pub fn line(&self) -> &'a [u8]
        ensures { result.now ≡ self.now.line.now }
    {
        self.line
    }

    /// Column 1.
    pub fn id(&self) -> &'a [u8]
        ensures { result.now ≡ column 1 self.now.line.now }
    {
        self.id
    }

    /// Column 2.
    pub fn place(&self) -> &'a [u8]
        ensures { result.now ≡ column 2 self.now.line.now }
    {
        self.place
    }

    /// Column 3.
    pub fn language(&self) -> &'a [u8]
        ensures { result.now ≡ column 3 self.now.line.now }
    {
        self.language
    }

    /// Column 4.
    pub fn text(&self) -> &'a [u8]
        ensures { result.now ≡ column 4 self.now.line.now }
    {
        self.text
    }
}
