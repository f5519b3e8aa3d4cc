//! What stands above a place and below one, over plain lists.
ghost use Rattle.std.specs.Prelude.{◌≡◌, ◌≤◌, [], ◌∷◌, take, map, option_map, None};
ghost use Rattle.std.specs.List.{list_any};
ghost use Rattle.gaz_num.specs.Pieces.{column};
ghost use Rattle.gaz_num.specs.declared.words.Table.TheVariants.{Rows};
ghost use Rattle.gaz_row.specs.Row.{id_of};
ghost use Rattle.gaz_parent.specs.Parent.{may_be, least_other, is_link, is_division_of, is_country_of, names, parent_of};
ghost use Rattle.gaz_parent.specs.Chain.{parent_at, upwards};
ghost use Rattle.gaz_plain.specs.Gazetteer.{line_with};
ghost use Rattle.gaz_plain.specs.Ordered.{passes_at};
ghost use Rattle.gaz_plain.specs.Kin.{lists_of, chain_of};

use crate::PlainGaz;
use crate::row_numbers::{country_number, path_number};
use gaz_parent::{
    Kin, leads_to_country, leads_to_division, may_be_country, may_be_division, parent,
};
use gaz_row::Row;
use gaz_tables::{LinkClass, LinkKey, country_place};
use std::convert::Infallible;
use std::marker::Model;

/// A gazetteer on plain lists, as the parent rule asks it, seen as the gazetteer. No call fails.
#[derive(Drop)]
pub struct PlainKin<'a> {
    gaz: &'a PlainGaz,
}

impl<'a> Model for PlainKin<'a> {
    ghost use Rattle.gaz_plain.specs.Gazetteer.{Gazetteer, IsGazetteer};

    ghost Value = { Gazetteer };

    ghost view = { λ kin. kin.gaz.now };

    ghost invariant = { λ kin. IsGazetteer kin.gaz.now };
}

impl<'a> PlainKin<'a> {
    pub fn new(gaz: &'a PlainGaz) -> PlainKin<'a>
        ensures { result ≡ gaz.now }
    {
        gaz.is_gazetteer();
        PlainKin { gaz }
    }

    /// Whether the row with the id is another one, and a link of this class leads from the child to it.
    fn is_linked(&self, child: u32, class: LinkClass, id: u32) -> bool
        ensures { result ≡ passes_at (may_be child (λ other. list_any (is_link class child (id_of other)) self.now.links)) (line_with Rows (id ∷ []) self.now) }
    {
        match self.gaz.get(id) {
            Some(line) => self.leads_to(child, class, &Row::of(line)),
            None => false,
        }
    }

    /// Whether a link of this class leads from the child to another row.
    fn leads_to(&self, child: u32, class: LinkClass, other: &Row<'_>) -> bool
        ensures { result ≡ may_be child (λ other. list_any (is_link class child (id_of other)) self.now.links) other.now }
    {
        self.gaz.has_link(child, class, other.id()) && other.id() != child
    }

    /// The least id of another row to which a link of this class leads from the child.
    fn least_linked(&self, child: u32, class: LinkClass) -> Option<u32>
        ensures { result ≡ least_other (lists_of self.now) child (λ other. list_any (is_link class child (id_of other)) self.now.links) }
    {
        for (_, id) in self.gaz.parents_of(child, class) {
            if self.is_linked(child, class, *id) {
                return Some(*id);
            }
        }
        None
    }

    /// Whether the row with the id is another one, and a division of this level with the row's country and admin codes.
    fn is_division(&self, level: u8, row: &Row<'_>, id: u32) -> bool
        requires low { 1 ≤ level }
        requires high { level ≤ 4 }
        ensures { result ≡ passes_at (may_be (id_of row.now) (is_division_of level row.now)) (line_with Rows (id ∷ []) self.now) }
    {
        match self.gaz.get(id) {
            Some(line) => {
                let other = Row::of(line);
                may_be_division(level, row, &other) && other.id() != row.id()
            }
            None => false,
        }
    }

    /// The least id of another row that is a division of this level with the row's country and admin codes.
    fn least_division(&self, level: u8, row: &Row<'_>) -> Option<u32>
        requires low { 1 ≤ level }
        requires high { level ≤ 4 }
        ensures { result ≡ least_other (lists_of self.now) (id_of row.now) (is_division_of level row.now) }
    {
        for (_, id) in self.gaz.with_number(path_number(level, row)) {
            if self.is_division(level, row, *id) {
                return Some(*id);
            }
        }
        None
    }

    /// Whether the row with the id is another one, and a country with the row's country.
    fn is_country(&self, row: &Row<'_>, id: u32) -> bool
        ensures { result ≡ passes_at (may_be (id_of row.now) (is_country_of (column 9 row.now))) (line_with Rows (id ∷ []) self.now) }
    {
        match self.gaz.get(id) {
            Some(line) => {
                let other = Row::of(line);
                may_be_country(row, &other) && other.id() != row.id()
            }
            None => false,
        }
    }

    /// The least id of another row that is a country with the row's country.
    fn least_country(&self, row: &Row<'_>) -> Option<u32>
        ensures { result ≡ least_other (lists_of self.now) (id_of row.now) (is_country_of (column 9 row.now)) }
    {
        for (_, id) in self.gaz.with_number(country_number(row.country())) {
            if self.is_country(row, *id) {
                return Some(*id);
            }
        }
        None
    }

    /// The id of another row that the table of countries names for the row's country.
    fn named_country(&self, row: &Row<'_>) -> Option<u32>
        ensures { result ≡ least_other (lists_of self.now) (id_of row.now) (λ other. list_any (names (column 9 row.now) (id_of other)) self.now.countries) }
    {
        let Some(line) = self.gaz.country(row.country().as_bytes()) else {
            return None;
        };
        let Some(place) = country_place(line) else {
            return None;
        };
        if place == row.id() {
            return None;
        }
        match self.gaz.get(place) {
            Some(_) => Some(place),
            None => None,
        }
    }
}

impl<'a> Kin for PlainKin<'a> {
    ghost use Rattle.std.specs.Prelude.{refl};
    ghost use Rattle.std.proofs.Common.{ap, sym, ◌∙◌};

    type Fault = Infallible;

    ghost stands_for = { λ kin lists. lists ≡ lists_of kin };

    ghost leads = { λ before now. now ≡ before };

    ghost may_fail = { λ before now fault. ⊥ };

    ghost reads = { λ kin. 0 };

    ghost bounded = { λ kin question most. most ≡ 0 };

    fn division(&mut self, level: u8, row: &Row<'_>) -> Result<Option<u32>, Infallible> {
        if !leads_to_division(level, row) {
            return Ok(None);
        }
        Ok(self.least_division(level, row))
    }

    fn country(&mut self, row: &Row<'_>) -> Result<Option<u32>, Infallible> {
        if !leads_to_country(row) {
            return Ok(None);
        }
        match self.named_country(row) {
            Some(named) => Ok(Some(named)),
            None => Ok(self.least_country(row)),
        }
    }

    fn link_up(&mut self, child: u32, class: LinkClass) -> Result<Option<u32>, Infallible> {
        Ok(self.least_linked(child, class))
    }

    ghost leads_same = { λ s. refl };

    ghost leads_on = { λ a b c first then. then ∙ first };

    ghost stands_on = { λ a b lists same. (λ is. is ∙ ap lists_of (sym same), λ is. is ∙ ap lists_of same) };

    ghost bounded_on = { λ a b question most same. (λ is. is, λ is. is) };

    ghost fails_from = { λ a b c fault first fails. fails };
}

impl PlainGaz {
    /// The parent of the row.
    pub(crate) fn parent_of(&self, row: &Row<'_>) -> Option<u32>
        ensures { result ≡ parent_of (lists_of self.now) row.now }
    {
        let mut kin = PlainKin::new(self);
        match parent(&mut kin, row) {
            Ok(found) => found,
            Err(never) => match never {},
        }
    }

    /// The parent of the row with the id.
    fn parent_at(&self, id: u32) -> Option<u32>
        ensures { result ≡ parent_at (lists_of self.now) id }
    {
        self.is_gazetteer();
        match self.get(id) {
            Some(line) => self.parent_of(&Row::of(line)),
            None => None,
        }
    }

    /// The id, if a row has it.
    fn if_live(&self, id: u32) -> Option<u32>
        ensures { result ≡ option_map (λ row. id) (line_with Rows (id ∷ []) self.now) }
    {
        match self.get(id) {
            Some(_) => Some(id),
            None => None,
        }
    }

    /// The chain of the place with the id, upwards: its id, that of its parent, and so on, up to one that has no parent or whose
    /// parent came before, and at most 64. Answers how many they are, none where no row has the id.
    pub fn chain(&self, id: u32, out: &mut [u32; 64]) -> usize
        ensures within { result ≤ 64 }
        ensures chain { take result out.new ≡ chain_of self.now id }
        ensures none { line_with Rows (id ∷ []) self.now ≡ None → result ≡ 0 }
    {
        self.is_gazetteer();
        self.climb(self.if_live(id), out)
    }

    /// Writes ids upwards from the first, and answers how many.
    fn climb(&self, first: Option<u32>, out: &mut [u32; 64]) -> usize
        ensures within { result ≤ 64 }
        ensures chain { take result out.new ≡ upwards 64 (lists_of self.now) [] first }
    {
        let mut next = first;
        let mut count = 0;
        while count < out.len() {
            let Some(place) = next else {
                return count;
            };
            if out[..count].contains(&place) {
                return count;
            }
            out[count] = place;
            count += 1;
            next = self.parent_at(place);
        }
        count
    }
}
