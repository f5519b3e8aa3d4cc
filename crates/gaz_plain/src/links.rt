//! Links by their keys, by their children and by their parents.
ghost use Rattle.std.specs.Prelude.{◌≡◌, OnOk};
ghost use Rattle.gaz_tables.specs.Keys.{class_number, key_numbers};
ghost use Rattle.gaz_plain.specs.Ordered.{Keeps, HasLink, up_number, down_number};

use crate::PlainFault;
use crate::ids_by_key::IdsByKey;
use crate::line_list::{LineIter, LineList};
use gaz_num::Table;
use gaz_tables::{LinkClass, LinkKey};
use std::alloc::{AllocError, Global};
use std::collections::btree_set::Range;
use std::marker::Model;

fn class_number(class: LinkClass) -> u64
    ensures { result ≡ class_number class }
{
    match class {
        LinkClass::Adm => 0,
        LinkClass::Plain => 1,
        LinkClass::Other => 2,
    }
}

/// The number by which the parents of a child are found.
fn up_number(child: u32, class: LinkClass) -> u64
    ensures { result ≡ up_number child (class_number class) }
{
    child as u64 * 4 + class_number(class)
}

/// The number by which the children of a parent are found.
fn down_number(parent: u32) -> u64
    ensures { result ≡ down_number parent }
{
    parent as u64 * 4 + 3
}

/// Puts a pair upwards and one downwards in. Where memory is wanting one may be in: a pair too many does no harm, since what is
/// found by it is tested.
fn insert_both(order: &mut IdsByKey, key: &LinkKey) -> Result<(), AllocError>
    ensures keeps { Keeps order.old order.new }
    ensures has { OnOk result (HasLink key.now.child (class_number key.now.class) key.now.parent order.new) }
{
    order.insert(up_number(key.child, key.class), key.parent)?;
    order.insert(down_number(key.parent), key.child)?;
    Ok(())
}

/// Links, seen as the list of their lines. Those of a child and of a parent are found without going over all.
#[derive(Drop)]
pub(crate) struct Links {
    list: LineList<LinkKey>,
    order: IdsByKey,
}

impl Model for Links {
    ghost use Rattle.std.specs.Prelude.{ℕ, List};
    ghost use Rattle.gaz_plain.specs.Ordered.{AreLinked};

    ghost Value = { List (List ℕ) };

    ghost view = { λ links. links.list };

    ghost invariant = { λ links. AreLinked links.list links.order };
}

impl Links {
    ghost use Rattle.std.specs.Prelude.{◌≡◌, ◌≤◌, ℕ, List, true, [], ◌∷◌, length, Some, IfErr, OnOk, OnErr};
    ghost use Rattle.std.specs.Option.{option_copied};
    ghost use Rattle.gaz_num.specs.declared.words.Table.TheVariants.{Links as LinkTable};
    ghost use Rattle.gaz_plain.specs.Gazetteer.{limit_of, line_at};
    ghost use Rattle.gaz_plain.specs.Faults.{IsPutFault};
    ghost use Rattle.gaz_plain.specs.Places.{IsKeyOf, with_line};
    ghost use Rattle.gaz_plain.specs.Ordered.{has_id, IdsRise};

    pub fn new(alloc: Global) -> Links
        ensures { result ≡ [] }
    {
        Links {
            list: LineList::new(alloc),
            order: IdsByKey::new(alloc),
        }
    }

    /// How many there are.
    pub fn len(&self) -> usize
        ensures count { result ≡ length self.now }
        ensures within { result ≤ limit_of LinkTable }
    {
        self.list.len()
    }

    /// The lines in the order of their keys.
    pub fn lines(&self) -> LineIter<'_, LinkKey>
        ensures { result ≡ self.now }
    {
        self.list.lines()
    }

    pub fn get(&self, key: &LinkKey) -> Option<&[u8]>
        ensures { option_copied result ≡ line_at LinkTable (key_numbers key.now) self.now }
    {
        self.list.get(key)
    }

    /// Pairs with the ids of the parents of a child in links of a class, and perhaps of others: what is found by them is to be
    /// tested.
    pub fn parents_of(&self, child: u32, class: LinkClass) -> Range<'_, (u64, u32)>
        ensures rising { IdsRise result }
        ensures all { (parent : ℕ) (link : List ℕ) → line_at LinkTable (child ∷ class_number class ∷ parent ∷ []) self.now ≡ Some link → has_id result parent ≡ true }
    {
        self.order.of_key(up_number(child, class))
    }

    /// Pairs with the ids of the children of a parent in links, and perhaps of others.
    pub fn children_of(&self, parent: u32) -> Range<'_, (u64, u32)>
        ensures { (child class : ℕ) (link : List ℕ) → line_at LinkTable (child ∷ class ∷ parent ∷ []) self.now ≡ Some link → has_id result child ≡ true }
    {
        self.order.of_key(down_number(parent))
    }

    /// Puts the line in the place of the one with its key, or where it would stand.
    pub fn put(&mut self, key: LinkKey, line: &[u8]) -> Result<(), PlainFault>
        requires key { IsKeyOf LinkTable (key_numbers key) line.now }
        ensures ok { OnOk result (self.new ≡ with_line LinkTable (key_numbers key) line.now self.old) }
        ensures within { OnOk result (length self.new ≤ limit_of LinkTable) }
        ensures fault { IfErr result (IsPutFault LinkTable (length (with_line LinkTable (key_numbers key) line.now self.old))) }
        ensures err { OnErr result (self.new ≡ self.old) }
    {
        if !self.list.has_room(&key) {
            return Err(PlainFault::Full(Table::Links));
        }
        insert_both(&mut self.order, &key)?;
        self.list.put(key, line)
    }
}
