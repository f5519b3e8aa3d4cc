//! Which line of its table a line speaks of.
ghost use Rattle.std.specs.Prelude.{◌≡◌, None, Some, MatchResult, IsTrue};
ghost use Rattle.gaz_num.specs.Check.{reason_against};
ghost use Rattle.gaz_keys.specs.Lines.{IsKeyed, kind_of};
ghost use Rattle.gaz_plain.specs.Gazetteer.{table_of, is_delete};
ghost use Rattle.gaz_rows.specs.Target.{IsTargetOf};

use gaz_alt::{check_alt, check_delete};
use gaz_keys::{alternate_key, country_key_of, link_key, place_key};
use gaz_num::{Kind, Reason, Table};
use gaz_row::check_row;
use gaz_tables::{check_code, check_country, check_link};

/// Where a line of a table is found.
#[derive(Clone, Copy)]
pub(crate) enum Target<'a> {
    /// By this key of the tree.
    Key([u8; 32]),
    /// By this admin code, of which the key has a slot too.
    Code(&'a [u8]),
}

/// Checks a line of a kind, and tells by what the line of its table is found that has its key. A comment has none.
pub(crate) fn target_of(kind: Kind, line: &[u8]) -> Result<Option<Target<'_>>, Reason>
    ensures { MatchResult result
        (λ found. (reason_against kind line.now ≡ None) × IsTargetOf kind line.now found)
        (λ reason. reason_against kind line.now ≡ Some reason) }
{
    match kind {
        Kind::Row => match check_row(line) {
            Ok(id) => Ok(Some(Target::Key(place_key(id)))),
            Err(reason) => Err(reason),
        },
        Kind::RowDelete => match check_delete(line) {
            Ok(id) => Ok(Some(Target::Key(place_key(id)))),
            Err(reason) => Err(reason),
        },
        Kind::Alt => match check_alt(line) {
            Ok(id) => Ok(Some(Target::Key(alternate_key(id)))),
            Err(reason) => Err(reason),
        },
        Kind::AltDelete => match check_delete(line) {
            Ok(id) => Ok(Some(Target::Key(alternate_key(id)))),
            Err(reason) => Err(reason),
        },
        Kind::Link => match check_link(line) {
            Ok(link) => Ok(Some(Target::Key(link_key(link)))),
            Err(reason) => Err(reason),
        },
        Kind::Country => match check_country(line) {
            Ok(Some(code)) => Ok(Some(Target::Key(country_key_of(code)))),
            Ok(None) => Ok(None),
            Err(reason) => Err(reason),
        },
        Kind::Code => match check_code(line) {
            Ok(code) => Ok(Some(Target::Code(code))),
            Err(reason) => Err(reason),
        },
    }
}

/// The kind of the lines of a table.
fn kind_in(table: Table) -> Kind
    ensures { result ≡ kind_of table }
{
    match table {
        Table::Rows => Kind::Row,
        Table::Alternates => Kind::Alt,
        Table::Links => Kind::Link,
        Table::Countries => Kind::Country,
        Table::Codes => Kind::Code,
    }
}

/// Whether the check of a table accepts a line, and the line has a key there.
pub(crate) fn is_keyed(table: Table, line: &[u8]) -> bool
    ensures yes { IsTrue result → IsKeyed table line.now }
    ensures not { IsKeyed table line.now → IsTrue result }
{
    match target_of(kind_in(table), line) {
        Ok(Some(_)) => true,
        Ok(None) => false,
        Err(_) => false,
    }
}

/// The table that a line of a kind changes.
pub(crate) fn table_of(kind: Kind) -> Table
    ensures { result ≡ table_of kind }
{
    match kind {
        Kind::Row | Kind::RowDelete => Table::Rows,
        Kind::Alt | Kind::AltDelete => Table::Alternates,
        Kind::Link => Table::Links,
        Kind::Country => Table::Countries,
        Kind::Code => Table::Codes,
    }
}

/// Whether a line of a kind only takes out.
pub(crate) fn is_delete(kind: Kind) -> bool
    ensures { result ≡ is_delete kind }
{
    matches!(kind, Kind::RowDelete | Kind::AltDelete)
}
