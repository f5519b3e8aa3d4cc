//! Rows by their ids, by their countries and by what they are.
ghost use Rattle.std.specs.Prelude.{OnOk};
ghost use Rattle.gaz_plain.specs.Ordered.{Keeps, KeepsBut, HasAll};

use crate::PlainFault;
use crate::ids_by_key::IdsByKey;
use crate::key::RowId;
use crate::line_list::{LineIter, LineList};
use crate::row_numbers::RowNumbers;
use gaz_num::Table;
use gaz_row::Row;
use std::alloc::{AllocError, Global};
use std::collections::btree_set::Range;
use std::marker::Model;

/// Puts a pair in for each of the numbers. Where memory is wanting some may be in: a pair too many does no harm, since what is
/// found by it is tested.
fn insert_all(order: &mut IdsByKey, numbers: &RowNumbers, id: u32) -> Result<(), AllocError>
    ensures keeps { Keeps order.old order.new }
    ensures has { OnOk result (HasAll id numbers.now order.new) }
{
    insert_one(order, numbers.country, id)?;
    insert_one(order, numbers.entity, id)?;
    insert_one(order, numbers.division, id)
}

/// Puts the pair in, if there is a number.
fn insert_one(order: &mut IdsByKey, number: Option<u64>, id: u32) -> Result<(), AllocError>
    ensures keeps { Keeps order.old order.new }
    ensures has { OnOk result (HasAll id (as_list number) order.new) }
{
    match number {
        Some(number) => {
            order.insert(number, id)?;
            Ok(())
        }
        None => Ok(()),
    }
}

ghost use Rattle.gaz_plain.specs.Ordered.{as_list};

/// Takes out the pairs of numbers that aren't kept.
fn remove_all(order: &mut IdsByKey, numbers: &RowNumbers, id: u32, kept: &RowNumbers)
    ensures { KeepsBut id kept.now order.old order.new }
{
    remove_one(order, numbers.country, id, kept);
    remove_one(order, numbers.entity, id, kept);
    remove_one(order, numbers.division, id, kept);
}

/// Takes the pair out, if there is a number and it isn't kept.
fn remove_one(order: &mut IdsByKey, number: Option<u64>, id: u32, kept: &RowNumbers)
    ensures { KeepsBut id kept.now order.old order.new }
{
    match number {
        Some(number) => {
            if !kept.has(number) {
                order.remove(number, id);
            }
        }
        None => {}
    }
}

/// Rows, seen as the list of their lines. Those of a country, and the countries and divisions with a country and admin codes,
/// are found without going over all.
#[derive(Drop)]
pub(crate) struct Rows {
    list: LineList<RowId>,
    order: IdsByKey,
}

impl Model for Rows {
    ghost use Rattle.std.specs.Prelude.{ℕ, List};
    ghost use Rattle.gaz_plain.specs.Ordered.{AreNumbered};

    ghost Value = { List (List ℕ) };

    ghost view = { λ rows. rows.list };

    ghost invariant = { λ rows. AreNumbered rows.list rows.order };
}

impl Rows {
    ghost use Rattle.std.specs.Prelude.{◌≡◌, ◌≤◌, ℕ, List, true, [], ◌∷◌, length, Some, IfErr, OnOk, OnErr};
    ghost use Rattle.std.specs.Option.{option_copied};
    ghost use Rattle.gaz_num.specs.declared.words.Kind.TheVariants.{Row as RowKind};
    ghost use Rattle.gaz_num.specs.declared.words.Table.TheVariants.{Rows as RowTable};
    ghost use Rattle.gaz_plain.specs.Gazetteer.{limit_of, line_at, IsLine};
    ghost use Rattle.gaz_plain.specs.Faults.{IsPutFault};
    ghost use Rattle.gaz_plain.specs.Places.{IsKeyOf, with_line, without_line};
    ghost use Rattle.gaz_plain.specs.Ordered.{row_numbers, is_one_in, has_id, IdsRise};

    pub fn new(alloc: Global) -> Rows
        ensures { result ≡ [] }
    {
        Rows {
            list: LineList::new(alloc),
            order: IdsByKey::new(alloc),
        }
    }

    pub fn allocator(&self) -> Global {
        self.list.allocator()
    }

    /// How many there are.
    pub fn len(&self) -> usize
        ensures count { result ≡ length self.now }
        ensures within { result ≤ limit_of RowTable }
    {
        self.list.len()
    }

    /// The lines in the order of their ids.
    pub fn lines(&self) -> LineIter<'_, RowId>
        ensures { result ≡ self.now }
    {
        self.list.lines()
    }

    pub fn get(&self, id: u32) -> Option<&[u8]>
        ensures { option_copied result ≡ line_at RowTable (id ∷ []) self.now }
    {
        self.list.get(&RowId(id))
    }

    /// Pairs with the ids of the rows that have a number, and perhaps of others: what is found by them is to be tested.
    pub fn with_number(&self, number: u64) -> Range<'_, (u64, u32)>
        ensures rising { IdsRise result }
        ensures all { (id : ℕ) (row : List ℕ) → line_at RowTable (id ∷ []) self.now ≡ Some row → is_one_in (row_numbers row) number ≡ true → has_id result id ≡ true }
    {
        self.order.of_key(number)
    }

    /// The numbers of the row with the id.
    fn numbers_of(&self, id: u32) -> RowNumbers {
        match self.list.get(&RowId(id)) {
            Some(line) => RowNumbers::of(&Row::of(line)),
            None => RowNumbers::none(),
        }
    }

    /// Puts the line in the place of the one with its id, or where it would stand. Its pairs go in first, since no memory is
    /// wanting to take others out.
    pub fn put(&mut self, id: u32, line: &[u8]) -> Result<(), PlainFault>
        requires line { IsLine RowKind line.now }
        requires key { IsKeyOf RowTable (id ∷ []) line.now }
        ensures ok { OnOk result (self.new ≡ with_line RowTable (id ∷ []) line.now self.old) }
        ensures within { OnOk result (length self.new ≤ limit_of RowTable) }
        ensures fault { IfErr result (IsPutFault RowTable (length (with_line RowTable (id ∷ []) line.now self.old))) }
        ensures err { OnErr result (self.new ≡ self.old) }
    {
        if !self.list.has_room(&RowId(id)) {
            return Err(PlainFault::Full(Table::Rows));
        }
        let old = self.numbers_of(id);
        let new = RowNumbers::of(&Row::of(line));
        insert_all(&mut self.order, &new, id)?;
        self.list.put(RowId(id), line)?;
        remove_all(&mut self.order, &old, id, &new);
        Ok(())
    }

    /// Takes out the line with the id, if there is one.
    pub fn take_out(&mut self, id: u32)
        ensures lines { self.new ≡ without_line RowTable (id ∷ []) self.old }
        ensures within { length self.new ≤ limit_of RowTable }
    {
        let old = self.numbers_of(id);
        self.list.take_out(&RowId(id));
        remove_all(&mut self.order, &old, id, &RowNumbers::none());
    }
}
