//! Lines of a table in the order of their keys.
use crate::PlainFault;
use crate::key::TableKey;
use gaz_num::Table;
use std::alloc::{AllocError, Global};
use std::cmp::Ordering;
use std::collections::BTreeMap;
use std::collections::btree_map::Values;
use std::marker::Model;

/// How many lines a table may have.
fn limit_of(table: Table) -> usize
    ensures { result ≡ limit_of table }
{
    match table {
        Table::Rows => 33_554_432,
        Table::Alternates => 33_554_432,
        Table::Links => 8_388_608,
        Table::Countries => 1_024,
        Table::Codes => 1_048_576,
    }
}

ghost use Rattle.std.specs.Prelude.{◌≡◌};
ghost use Rattle.gaz_plain.specs.Gazetteer.{limit_of};

/// The lines of a table, seen as their list. One is put in, found and taken out in a number of steps that grows with the
/// logarithm of how many there are.
#[derive(Drop)]
pub(crate) struct LineList<K: TableKey> {
    lines: BTreeMap<K, Vec<u8>>,
    alloc: Global,
}

impl<K: TableKey> Model for LineList<K> {
    ghost use Rattle.std.specs.Prelude.{List, ℕ};
    ghost use Rattle.gaz_plain.specs.Entries.{lines_of, AreEntries};

    ghost Value = { List (List ℕ) };

    ghost view = { λ list. lines_of list.lines.entries };

    ghost invariant = { λ list. AreEntries K.TABLE K.cmp K.numbers list.lines.entries };
}

impl<K: TableKey> LineList<K> {
    ghost use Rattle.std.specs.Prelude.{◌≡◌, ◌≤◌, true, [], length, IfErr, OnOk, OnErr};
    ghost use Rattle.std.specs.Option.{option_copied};
    ghost use Rattle.gaz_plain.specs.Gazetteer.{limit_of, line_at};
    ghost use Rattle.gaz_plain.specs.Faults.{IsPutFault};
    ghost use Rattle.gaz_plain.specs.Places.{IsKeyOf, has_room, with_line, without_line};

    pub fn new(alloc: Global) -> LineList<K>
        ensures { result ≡ [] }
    {
        LineList {
            lines: BTreeMap::new(alloc),
            alloc,
        }
    }

    pub fn allocator(&self) -> Global {
        self.alloc
    }

    pub fn get(&self, key: &K) -> Option<&[u8]>
        ensures { option_copied result ≡ line_at K.TABLE (K.numbers key.now) self.now }
    {
        match self.lines.get(key) {
            Some(line) => Some(line.as_slice()),
            None => None,
        }
    }

    /// How many lines there are.
    pub fn len(&self) -> usize
        ensures count { result ≡ length self.now }
        ensures within { result ≤ limit_of K.TABLE }
    {
        self.lines.len()
    }

    /// The lines in the order of their keys.
    pub fn lines(&self) -> LineIter<'_, K>
        ensures { result ≡ self.now }
    {
        LineIter {
            values: self.lines.values(),
        }
    }

    /// Whether a line with the key can be put: one has it, or the table isn't full.
    pub fn has_room(&self, key: &K) -> bool
        ensures { result ≡ has_room K.TABLE (K.numbers key.now) self.now }
    {
        if self.lines.len() < limit_of(K::TABLE) {
            return true;
        }
        self.lines.contains_key(key)
    }

    /// Puts the line in the place of the one with its key, or where it would stand.
    pub fn put(&mut self, key: K, line: &[u8]) -> Result<(), PlainFault>
        requires { IsKeyOf K.TABLE (K.numbers key) line.now }
        ensures ok { OnOk result (self.new ≡ with_line K.TABLE (K.numbers key) line.now self.old) }
        ensures within { OnOk result (length self.new ≤ limit_of K.TABLE) }
        ensures fault { IfErr result (IsPutFault K.TABLE (length (with_line K.TABLE (K.numbers key) line.now self.old))) }
        ensures err { OnErr result (self.new ≡ self.old) }
    {
        if !self.has_room(&key) {
            return Err(PlainFault::Full(K::TABLE));
        }
        self.write(key, line)?;
        Ok(())
    }

    /// Writes the line over the one with its key, or where it would stand.
    fn write(&mut self, key: K, line: &[u8]) -> Result<(), AllocError>
        requires key { IsKeyOf K.TABLE (K.numbers key) line.now }
        requires room { length (with_line K.TABLE (K.numbers key) line.now self.old) ≤ limit_of K.TABLE }
        ensures ok { OnOk result (self.new ≡ with_line K.TABLE (K.numbers key) line.now self.old) }
        ensures within { length self.new ≤ limit_of K.TABLE }
        ensures err { OnErr result (self.new ≡ self.old) }
    {
        let line = Vec::from_slice(self.alloc, line)?;
        self.lines.insert(key, line)?;
        Ok(())
    }

    /// Takes out the line with the key, if there is one.
    pub fn take_out(&mut self, key: &K)
        ensures lines { self.new ≡ without_line K.TABLE (K.numbers key.now) self.old }
        ensures within { length self.new ≤ limit_of K.TABLE }
    {
        self.lines.remove(key);
    }
}

/// Lines that are still to come, seen as their list.
#[derive(Drop)]
pub(crate) struct LineIter<'a, K: TableKey> {
    values: Values<'a, K, Vec<u8>>,
}

impl<'a, K: TableKey> Model for LineIter<'a, K> {
    ghost use Rattle.std.specs.Prelude.{List, ℕ, map, vec_items};

    ghost Value = { List (List ℕ) };

    ghost view = { λ iter. map (λ line. vec_items line) iter.values };
}

impl<'a, K: TableKey> Iterator for LineIter<'a, K> {
    ghost use Rattle.std.specs.Prelude.{length};
    ghost use Rattle.std.specs.Iterator.{at_most};
    ghost use Rattle.std.specs.Map.Iter.{TakesFirst, deref};

    type Item = &'a [u8];

    ghost next_gives = { TakesFirst deref };

    ghost remaining = { λ iter. at_most (length iter) };

    fn next(&mut self) -> Option<&'a [u8]> {
        match self.values.next() {
            Some(line) => Some(line.as_slice()),
            None => None,
        }
    }
}
