//! The gazetteer that is stepped on plain lists.
ghost use Rattle.std.specs.Prelude.{◌≡◌, ℕ, List, Some, ◌≤◌, ◌+◌, ◌∷◌, [], true, false, length, take, drop, slice_get, IsSome, IsTrue, IsOk, IfOk, IfErr, OnOk, OnErr, Ok};
ghost use Rattle.std.specs.Option.{option_copied};
ghost use Rattle.std.specs.List.{list_any};
ghost use Rattle.gaz_parent.specs.Parent.{is_link};
ghost use Rattle.gaz_tables.specs.Keys.{class_number};
ghost use Rattle.gaz_plain.specs.Ordered.{row_numbers, is_one_in, has_id, IdsRise};
ghost use Rattle.gaz_pick.specs.Order.{in_order};
ghost use Rattle.gaz_pick.specs.Asked.{absent, asked};
ghost use Rattle.gaz_plain.specs.Search.{matches, matching_pairs, answer_pairs};
ghost use Rattle.gaz_plain.specs.Gazetteer.{empty, dated, is_one_line, lines_in, line_with, after_line, IsGazetteer};
ghost use Rattle.gaz_plain.specs.Faults.{IsFaultOf};
ghost use Rattle.gaz_plain.specs.Wanted.{wanted_of};

use crate::PlainFault;
use crate::alternates::Alternates;
use crate::key::{AdminCode, CountryCode};
use crate::line_list::LineList;
use crate::lines::Lines;
use crate::links::Links;
use crate::rows::Rows;
use crate::wanted::Wanted;
use gaz_alt::{check_alt, check_delete};
use gaz_num::{Day, Kind, Table};
use gaz_pick::{Best, Query, first_of_more, passes};
use gaz_row::{Row, check_row};
use gaz_tables::{LinkClass, LinkKey, check_code, check_country, check_link};
use std::alloc::{AllocError, Global};
use std::collections::btree_set::Range;
use std::marker::Model;

/// A gazetteer as plain lists of lines, seen as the `Gazetteer` of the definitions.
#[derive(Drop)]
pub struct PlainGaz {
    date: Option<Day>,
    rows: Rows,
    alternates: Alternates,
    links: Links,
    countries: LineList<CountryCode>,
    codes: LineList<AdminCode>,
}

impl Model for PlainGaz {
    ghost use Rattle.gaz_plain.specs.Gazetteer.{Gazetteer, IsGazetteer};

    ghost Value = { Gazetteer };

    ghost view = { λ gaz. record { date = gaz.date; rows = gaz.rows; alternates = gaz.alternates; links = gaz.links; countries = gaz.countries; codes = gaz.codes } };

    ghost invariant = { λ gaz. IsGazetteer (record { date = gaz.date; rows = gaz.rows; alternates = gaz.alternates; links = gaz.links; countries = gaz.countries; codes = gaz.codes }) };
}

impl PlainGaz {
    /// Without a date and without lines.
    pub fn new(alloc: Global) -> PlainGaz
        ensures { result ≡ empty }
    {
        PlainGaz {
            date: None,
            rows: Rows::new(alloc),
            alternates: Alternates::new(alloc),
            links: Links::new(alloc),
            countries: LineList::new(alloc),
            codes: LineList::new(alloc),
        }
    }

    /// Takes the line with the key of this one out of its table, and puts this one in its place unless it is a delete.
    /// A load sets its date before its first line.
    pub fn step(&mut self, kind: Kind, line: &[u8]) -> Result<(), PlainFault>
        requires dated { IsSome self.old.date }
        requires one_line { IsTrue (is_one_line line.now) }
        ensures ok { OnOk result (after_line self.old kind line.now ≡ Ok self.new) }
        ensures fault { IfErr result (IsFaultOf (after_line self.old kind line.now)) }
        ensures refused { OnErr result (self.new ≡ self.old) }
        ensures date { self.new.date ≡ self.old.date }
    {
        match kind {
            Kind::Row => self.step_row(line),
            Kind::RowDelete => self.step_row_delete(line),
            Kind::Alt => self.step_alternate(line),
            Kind::AltDelete => self.step_alternate_delete(line),
            Kind::Link => self.step_link(line),
            Kind::Country => self.step_country(line),
            Kind::Code => self.step_code(line),
        }
    }

    /// Checks a row and puts it at its id.
    fn step_row(&mut self, line: &[u8]) -> Result<(), PlainFault>
        requires dated { IsSome self.old.date }
        requires one_line { IsTrue (is_one_line line.now) }
        ensures ok { OnOk result (after_line self.old Kind.Row line.now ≡ Ok self.new) }
        ensures fault { IfErr result (IsFaultOf (after_line self.old Kind.Row line.now)) }
        ensures refused { OnErr result (self.new ≡ self.old) }
        ensures date { self.new.date ≡ self.old.date }
    {
        match check_row(line) {
            Ok(id) => self.rows.put(id, line),
            Err(reason) => Err(PlainFault::Malformed(reason)),
        }
    }

    /// Checks a delete and takes out the row with its id.
    fn step_row_delete(&mut self, line: &[u8]) -> Result<(), PlainFault>
        requires dated { IsSome self.old.date }
        ensures ok { OnOk result (after_line self.old Kind.RowDelete line.now ≡ Ok self.new) }
        ensures fault { IfErr result (IsFaultOf (after_line self.old Kind.RowDelete line.now)) }
        ensures refused { OnErr result (self.new ≡ self.old) }
        ensures date { self.new.date ≡ self.old.date }
    {
        match check_delete(line) {
            Ok(id) => {
                self.rows.take_out(id);
                Ok(())
            }
            Err(reason) => Err(PlainFault::Malformed(reason)),
        }
    }

    /// Checks an alternate name and puts it at its id.
    fn step_alternate(&mut self, line: &[u8]) -> Result<(), PlainFault>
        requires dated { IsSome self.old.date }
        requires one_line { IsTrue (is_one_line line.now) }
        ensures ok { OnOk result (after_line self.old Kind.Alt line.now ≡ Ok self.new) }
        ensures fault { IfErr result (IsFaultOf (after_line self.old Kind.Alt line.now)) }
        ensures refused { OnErr result (self.new ≡ self.old) }
        ensures date { self.new.date ≡ self.old.date }
    {
        match check_alt(line) {
            Ok(id) => self.alternates.put(id, line),
            Err(reason) => Err(PlainFault::Malformed(reason)),
        }
    }

    /// Checks a delete and takes out the alternate name with its id.
    fn step_alternate_delete(&mut self, line: &[u8]) -> Result<(), PlainFault>
        requires dated { IsSome self.old.date }
        ensures ok { OnOk result (after_line self.old Kind.AltDelete line.now ≡ Ok self.new) }
        ensures fault { IfErr result (IsFaultOf (after_line self.old Kind.AltDelete line.now)) }
        ensures refused { OnErr result (self.new ≡ self.old) }
        ensures date { self.new.date ≡ self.old.date }
    {
        match check_delete(line) {
            Ok(id) => {
                self.alternates.take_out(id);
                Ok(())
            }
            Err(reason) => Err(PlainFault::Malformed(reason)),
        }
    }

    /// Checks a link and puts it at its key.
    fn step_link(&mut self, line: &[u8]) -> Result<(), PlainFault>
        requires dated { IsSome self.old.date }
        requires one_line { IsTrue (is_one_line line.now) }
        ensures ok { OnOk result (after_line self.old Kind.Link line.now ≡ Ok self.new) }
        ensures fault { IfErr result (IsFaultOf (after_line self.old Kind.Link line.now)) }
        ensures refused { OnErr result (self.new ≡ self.old) }
        ensures date { self.new.date ≡ self.old.date }
    {
        match check_link(line) {
            Ok(key) => self.links.put(key, line),
            Err(reason) => Err(PlainFault::Malformed(reason)),
        }
    }

    /// Checks a country and puts it at its code, and passes over a comment.
    fn step_country(&mut self, line: &[u8]) -> Result<(), PlainFault>
        requires dated { IsSome self.old.date }
        requires one_line { IsTrue (is_one_line line.now) }
        ensures ok { OnOk result (after_line self.old Kind.Country line.now ≡ Ok self.new) }
        ensures fault { IfErr result (IsFaultOf (after_line self.old Kind.Country line.now)) }
        ensures refused { OnErr result (self.new ≡ self.old) }
        ensures date { self.new.date ≡ self.old.date }
    {
        match check_country(line) {
            Ok(Some(code)) => self.countries.put(CountryCode::within(code), line),
            Ok(None) => Ok(()),
            Err(reason) => Err(PlainFault::Malformed(reason)),
        }
    }

    /// Checks the line of an admin code and puts it at the code.
    fn step_code(&mut self, line: &[u8]) -> Result<(), PlainFault>
        requires dated { IsSome self.old.date }
        requires one_line { IsTrue (is_one_line line.now) }
        ensures ok { OnOk result (after_line self.old Kind.Code line.now ≡ Ok self.new) }
        ensures fault { IfErr result (IsFaultOf (after_line self.old Kind.Code line.now)) }
        ensures refused { OnErr result (self.new ≡ self.old) }
        ensures date { self.new.date ≡ self.old.date }
    {
        match check_code(line) {
            Ok(code) => self.codes.put(AdminCode::within(code), line),
            Err(reason) => Err(PlainFault::Malformed(reason)),
        }
    }

    /// Sets the date, over the one that there is.
    pub fn set_date(&mut self, day: Day)
        ensures { self.new ≡ dated self.old day }
    {
        self.date = Some(day);
    }

    /// The date of the last load or day.
    pub fn date(&self) -> Option<Day>
        ensures { result ≡ self.now.date }
    {
        self.date
    }

    /// The row with the id, if there is one.
    pub fn get(&self, id: u32) -> Option<&[u8]>
        ensures { option_copied result ≡ line_with Table.Rows (id ∷ []) self.now }
    {
        self.rows.get(id)
    }

    /// The line of an admin code, if there is one.
    pub fn admin(&self, code: &[u8]) -> Option<&[u8]>
        ensures { option_copied result ≡ line_with Table.Codes code.now self.now }
    {
        match AdminCode::of(code) {
            Some(key) => self.codes.get(&key),
            None => None,
        }
    }

    /// The line of a country's code, if there is one.
    pub(crate) fn country(&self, code: &[u8]) -> Option<&[u8]>
        ensures { option_copied result ≡ line_with Table.Countries code.now self.now }
    {
        match CountryCode::of(code) {
            Some(key) => self.countries.get(&key),
            None => None,
        }
    }

    /// Whether there is a link of the class from the child to the parent.
    pub(crate) fn has_link(&self, child: u32, class: LinkClass, parent: u32) -> bool
        ensures { result ≡ list_any (is_link class child parent) self.now.links }
    {
        self.links
            .get(&LinkKey {
                child,
                class,
                parent,
            })
            .is_some()
    }

    /// Pairs with the ids of the rows that have a number, and perhaps of others.
    pub(crate) fn with_number(&self, number: u64) -> Range<'_, (u64, u32)>
        ensures rising { IdsRise result }
        ensures all { (id : ℕ) (row : List ℕ) → line_with Table.Rows (id ∷ []) self.now ≡ Some row → is_one_in (row_numbers row) number ≡ true → has_id result id ≡ true }
    {
        self.rows.with_number(number)
    }

    /// Pairs with the ids of the parents of a child in links of a class, and perhaps of others.
    pub(crate) fn parents_of(&self, child: u32, class: LinkClass) -> Range<'_, (u64, u32)>
        ensures rising { IdsRise result }
        ensures all { (parent : ℕ) (link : List ℕ) → line_with Table.Links (child ∷ class_number class ∷ parent ∷ []) self.now ≡ Some link → has_id result parent ≡ true }
    {
        self.links.parents_of(child, class)
    }

    /// Pairs with the ids of the children of a parent in links, and perhaps of others.
    pub(crate) fn children_of(&self, parent: u32) -> Range<'_, (u64, u32)>
        ensures { (child class : ℕ) (link : List ℕ) → line_with Table.Links (child ∷ class ∷ parent ∷ []) self.now ≡ Some link → has_id result child ≡ true }
    {
        self.links.children_of(parent)
    }

    /// How many lines the table has.
    pub fn count(&self, table: Table) -> u32
        ensures { result ≡ length (lines_in self.now table) }
    {
        match table {
            Table::Rows => self.rows.len() as u32,
            Table::Alternates => self.alternates.len() as u32,
            Table::Links => self.links.len() as u32,
            Table::Countries => self.countries.len() as u32,
            Table::Codes => self.codes.len() as u32,
        }
    }

    /// The lines of the table in the order of keys.
    pub fn lines(&self, table: Table) -> Lines<'_>
        ensures { result ≡ lines_in self.now table }
    {
        match table {
            Table::Rows => Lines::of_rows(self.rows.lines()),
            Table::Alternates => Lines::of_alternates(self.alternates.lines()),
            Table::Links => Lines::of_links(self.links.lines()),
            Table::Countries => Lines::of_countries(self.countries.lines()),
            Table::Codes => Lines::of_codes(self.codes.lines()),
        }
    }

    /// The n-th line of the table in the order of keys, from 0. It goes over those before it: `lines` gives them all in one walk.
    pub fn line(&self, table: Table, n: u32) -> Option<&[u8]>
        ensures { option_copied result ≡ slice_get (lines_in self.now table) n }
    {
        self.lines(table).nth(n as usize)
    }

    /// Puts the first of the rows that match into `best`, which then has those that the answer is cut from. Memory may be
    /// wanting only where a name is asked for, and `best` then has any pairs.
    pub fn select(&self, query: &Query<'_>, best: &mut Best) -> Result<(), AllocError>
        requires start { query.now.start ≤ 5000 }
        requires max { query.now.max ≤ 1000 }
        ensures keep { best.new.keep ≡ query.now.start + query.now.max }
        ensures held { OnOk result (best.new.pairs ≡ take (query.now.start + query.now.max) (in_order (matching_pairs self.now (asked query.now)))) }
        ensures answer { OnOk result (take query.now.max (drop query.now.start best.new.pairs) ≡ answer_pairs self.now (asked query.now)) }
        ensures absent { (asked query.now).name ≡ absent → IsOk result }
    {
        first_of_more();
        best.clear(query.start + query.max);
        let wanted = Wanted::of(self.rows.allocator(), &query.name)?;
        self.offer_matching(query, &wanted, best)
    }

    /// Offers the population and the id of each row that has all that is asked.
    fn offer_matching(
        &self,
        query: &Query<'_>,
        wanted: &Wanted,
        best: &mut Best,
    ) -> Result<(), AllocError>
        requires wanted { wanted.now ≡ wanted_of (asked query.now).name }
        requires none { best.old.pairs ≡ [] }
        ensures keep { best.new.keep ≡ best.old.keep }
        ensures pairs { OnOk result (best.new.pairs ≡ take best.old.keep (in_order (matching_pairs self.now (asked query.now)))) }
        ensures absent { (asked query.now).name ≡ absent → IsOk result }
    {
        first_of_more();
        for line in self.rows.lines() {
            let row = Row::of(line);
            if self.takes(query, wanted, &row)? {
                best.offer(row.population(), row.id());
            }
        }
        Ok(())
    }

    /// Whether a row has all that is asked: the columns, the box, and then a name, which costs more.
    fn takes(&self, query: &Query<'_>, wanted: &Wanted, row: &Row<'_>) -> Result<bool, AllocError>
        requires wanted { wanted.now ≡ wanted_of (asked query.now).name }
        ensures matches { IfOk result (λ is. is ≡ matches self.now (asked query.now) row.now) }
        ensures absent { (asked query.now).name ≡ absent → IsOk result }
    {
        if !passes(query, row) {
            return Ok(false);
        }
        if wanted.is_nothing() {
            return Ok(true);
        }
        if wanted.fits_own(self.rows.allocator(), query.lang, row)? {
            return Ok(true);
        }
        self.alternates
            .has_name(self.rows.allocator(), wanted, query.lang, row.id())
    }

    /// What it stands for is a gazetteer. To call it is to know it.
    pub fn is_gazetteer(&self)
        ensures { IsGazetteer self.now }
    {
        let _date = self.date;
    }
}
