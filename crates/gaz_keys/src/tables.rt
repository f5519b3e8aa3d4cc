//! The keys of a line of any table.
ghost use Rattle.std.specs.Prelude.{◌≡◌, ◌≤◌, ◌∷◌, [], List, ℕ, None, Some, IfOk, IsOk, take};
ghost use Rattle.gaz_num.specs.Numbers.{id_in};
ghost use Rattle.gaz_num.specs.Pieces.{column};
ghost use Rattle.gaz_num.specs.Check.{reason_against, key_in};
ghost use Rattle.gaz_num.specs.declared.words.Kind.TheVariants.{Link};
ghost use Rattle.gaz_num.specs.declared.words.Table.TheVariants as table;
ghost use Rattle.gaz_tables.specs.Keys.{key_numbers};
ghost use Rattle.gaz_keys.specs.Keys as key;
ghost use Rattle.gaz_keys.specs.Lines as lines;

use crate::lines::{alt_key, code_key_of, country_key_of, name_keys, row_keys};
use crate::makers::{alternate_key, link_key, place_key, reverse_key};
use gaz_alt::Alt;
use gaz_num::{Table, field};
use gaz_row::Row;
use gaz_tables::{LinkKey, check_link};
use std::alloc::{AllocError, Global};
use std::marker::Model;

/// The most keys without a place that a line has.
const MOST: usize = 5;

/// The key of a link that its check accepts.
fn link_of_line(line: &[u8]) -> LinkKey
    requires { reason_against Link line.now ≡ None }
    ensures { key_in Link line.now ≡ Some (key_numbers result) }
{
    check_link(line).unwrap()
}

/// The first column.
fn first_column(line: &[u8]) -> &[u8]
    ensures { result.now ≡ column 1 line.now }
{
    field(line, 0).unwrap_or(&[])
}

/// The key whose value is the place of a line. Only a code has a slot.
pub fn line_key(table: Table, slot: u32, line: &[u8]) -> [u8; 32]
    requires { lines.IsKeyed table line.now }
    ensures { result ≡ lines.key_at table slot line.now }
{
    match table {
        Table::Rows => place_key(Row::of(line).id()),
        Table::Alternates => alternate_key(Alt::of(line).id()),
        Table::Links => link_key(link_of_line(line)),
        Table::Countries => country_key_of(first_column(line)),
        Table::Codes => code_key_of(first_column(line), slot),
    }
}

/// The keys of a line whose value is 0, seen as their list.
#[derive(Drop)]
pub struct MoreKeys {
    keys: [[u8; 32]; MOST],
    count: usize,
    ghost fits: { count ≤ 5 },
}

impl Model for MoreKeys {
    ghost Value = { List (List ℕ) };

    ghost view = { λ more. take more.count more.keys };
}

impl MoreKeys {
    /// No key.
    fn none() -> MoreKeys
        ensures { result ≡ [] }
    {
        MoreKeys {
            keys: [[0; 32]; MOST],
            count: 0,
        }
    }

    /// One key.
    fn one(key: [u8; 32]) -> MoreKeys
        ensures { result ≡ key ∷ [] }
    {
        let mut keys = [[0; 32]; MOST];
        keys[0] = key;
        MoreKeys { keys, count: 1 }
    }

    /// Those of a row.
    fn of_row(alloc: Global, row: &Row<'_>) -> Result<MoreKeys, AllocError>
        ensures keys { IfOk result (λ keys. keys ≡ lines.more_keys table.Rows row.now) }
        ensures short { lines.HasShortNames table.Rows row.now → IsOk result }
    {
        let [name, ascii] = name_keys(alloc, row)?;
        let mut more = [[0; 32]; 3];
        let count = row_keys(row, &mut more);
        Ok(MoreKeys {
            keys: [name, ascii, more[0], more[1], more[2]],
            count: 2 + count,
        })
    }

    /// Those of a line of a table. Where its names have at most 64 bytes of ASCII this takes no memory.
    pub fn of(alloc: Global, table: Table, line: &[u8]) -> Result<MoreKeys, AllocError>
        requires { lines.IsKeyed table line.now }
        ensures keys { IfOk result (λ keys. keys ≡ lines.more_keys table line.now) }
        ensures short { lines.HasShortNames table line.now → IsOk result }
    {
        match table {
            Table::Rows => MoreKeys::of_row(alloc, &Row::of(line)),
            Table::Alternates => match alt_key(alloc, &Alt::of(line)) {
                Ok(key) => Ok(MoreKeys::one(key)),
                Err(error) => Err(error),
            },
            Table::Links => Ok(MoreKeys::one(reverse_key(link_of_line(line)))),
            Table::Countries | Table::Codes => Ok(MoreKeys::none()),
        }
    }

    /// The keys.
    pub fn as_slice(&self) -> &[[u8; 32]]
        ensures { result.now ≡ self.now }
    {
        &self.keys[..self.count]
    }
}
