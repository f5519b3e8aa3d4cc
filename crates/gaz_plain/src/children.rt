//! The children of a place, sought among the rows that may be such: those from which a link leads to it, those with its country,
//! and those of each country whose line names it.
ghost use Rattle.std.specs.Prelude.{◌≡◌, ◌≤◌, [], ◌∷◌, ◌==◌, take};
ghost use Rattle.gaz_num.specs.declared.words.Table.TheVariants as table;
ghost use Rattle.gaz_num.specs.Pieces.{column};
ghost use Rattle.gaz_row.specs.Row.{id_of};
ghost use Rattle.gaz_parent.specs.Chain.{is_child};
ghost use Rattle.gaz_pick.specs.Order.{in_order};
ghost use Rattle.gaz_plain.specs.Gazetteer.{line_with};
ghost use Rattle.gaz_plain.specs.Ordered.{has_id};
ghost use Rattle.gaz_plain.specs.Children.{is_linked_to, is_of_country, is_named_in, SeesMore};
ghost use Rattle.gaz_plain.specs.Kin.{lists_of, child_pairs, children_pairs};

use crate::PlainGaz;
use crate::row_numbers::rows_number;
use gaz_num::{Table, field};
use gaz_pick::{Best, first_of_more};
use gaz_row::Row;
use gaz_tables::country_place;
use std::collections::btree_set::Range;

/// The feature classes of the rows that may be children: divisions and countries, and cities and villages.
const ADMINISTRATIVE: &str = "A";

const POPULATED: &str = "P";

/// The code of the line of a country, column 1.
fn code_of(line: &[u8]) -> &[u8]
    ensures { result.now ≡ column 1 line.now }
{
    match field(line, 0) {
        Some(code) => code,
        None => &[],
    }
}

impl PlainGaz {
    /// Whether the row is a child of the place with the id.
    fn is_child(&self, id: u32, row: &Row<'_>) -> bool
        ensures { result ≡ is_child (lists_of self.now) id row.now }
    {
        (row.class() == ADMINISTRATIVE || row.class() == POPULATED)
            && self.parent_of(row) == Some(id)
    }

    /// Puts the first of the children of the place with the id into `best`, in the order of answers.
    pub fn children(&self, id: u32, max: u32, best: &mut Best)
        requires { max ≤ 1000 }
        ensures keep { best.new.keep ≡ max }
        ensures held { best.new.pairs ≡ take max (in_order (child_pairs self.now id)) }
        ensures answer { take max best.new.pairs ≡ children_pairs self.now id max }
    {
        first_of_more();
        best.clear(max);
        self.offer_children(id, best);
    }

    /// Offers the population and the id of each child. A place that is no row has none.
    fn offer_children(&self, id: u32, best: &mut Best)
        requires none { best.old.pairs ≡ [] }
        ensures keep { best.new.keep ≡ best.old.keep }
        ensures pairs { best.new.pairs ≡ take best.old.keep (in_order (child_pairs self.now id)) }
    {
        self.is_gazetteer();
        match self.get(id) {
            Some(line) => {
                let own = Row::of(line).country().as_bytes();
                self.offer_linked(id, best);
                self.offer_of_country(id, own, best);
                self.offer_named(id, own, best);
            }
            None => {}
        }
    }

    /// Offers the children among the rows from which a link leads to the place.
    fn offer_linked(&self, id: u32, best: &mut Best)
        ensures keep { best.new.keep ≡ best.old.keep }
        ensures more { SeesMore self.now id best.old.keep (is_linked_to self.now id) best.old.pairs best.new.pairs }
    {
        self.is_gazetteer();
        self.offer_all(id, self.children_of(id), best);
    }

    /// Offers the children among the rows of a country.
    fn offer_of_country(&self, id: u32, country: &[u8], best: &mut Best)
        ensures keep { best.new.keep ≡ best.old.keep }
        ensures more { SeesMore self.now id best.old.keep (is_of_country country.now) best.old.pairs best.new.pairs }
    {
        self.is_gazetteer();
        self.offer_all(id, self.with_number(rows_number(country)), best);
    }

    /// Offers the children among the rows of each other country whose line names the place.
    fn offer_named(&self, id: u32, own: &[u8], best: &mut Best)
        ensures keep { best.new.keep ≡ best.old.keep }
        ensures more { SeesMore self.now id best.old.keep (is_named_in self.now.countries id own.now) best.old.pairs best.new.pairs }
    {
        for line in self.lines(Table::Countries) {
            self.offer_if_named(id, own, line, best);
        }
    }

    /// Offers the children among the rows of the country of the line, if it names the place and its code is another one.
    fn offer_if_named(&self, id: u32, own: &[u8], line: &[u8], best: &mut Best)
        ensures keep { best.new.keep ≡ best.old.keep }
        ensures more { SeesMore self.now id best.old.keep (is_named_in (line.now ∷ []) id own.now) best.old.pairs best.new.pairs }
    {
        self.is_gazetteer();
        let code = code_of(line);
        if country_place(line) == Some(id) {
            if code != own {
                self.offer_of_country(id, code, best);
            }
        }
    }

    /// Offers the children among the rows with these ids.
    fn offer_all(&self, id: u32, ids: Range<'_, (u64, u32)>, best: &mut Best)
        ensures keep { best.new.keep ≡ best.old.keep }
        ensures more { SeesMore self.now id best.old.keep (λ row. has_id ids.entry (id_of row)) best.old.pairs best.new.pairs }
    {
        for (_, child) in ids {
            self.offer_at(id, *child, best);
        }
    }

    /// Offers the row with the id of a child, if it is one.
    fn offer_at(&self, id: u32, child: u32, best: &mut Best)
        ensures keep { best.new.keep ≡ best.old.keep }
        ensures more { SeesMore self.now id best.old.keep (λ row. child == id_of row) best.old.pairs best.new.pairs }
    {
        first_of_more();
        self.is_gazetteer();
        match self.get(child) {
            Some(line) => {
                let row = Row::of(line);
                if self.is_child(id, &row) {
                    best.offer(row.population(), row.id());
                }
            }
            None => {}
        }
    }
}
