//! Links: which place stands below which.
ghost use Rattle.std.specs.Prelude.{◌≡◌, MatchResult, Some, None};
ghost use Rattle.gaz_num.specs.Check.{reason_against, key_in, class_in};
ghost use Rattle.gaz_num.specs.declared.words.Kind.TheVariants.{Link};
ghost use Rattle.gaz_tables.specs.Keys.{class_number, key_numbers};

use crate::columns::{LONGEST, column_of};
use gaz_num::{Reason, count_fields, is_text, read_id};

/// Columns of a link that is given no type.
const FEWEST_COLUMNS: usize = 2;

/// Columns of a link: parent, child, type.
const MOST_COLUMNS: usize = 3;

/// What a link's type says of it.
#[derive(Clone, Copy, Debug, PartialEq, Eq, PartialOrd, Ord)]
pub enum LinkClass {
    /// `ADM`: the parent is an administrative division of the child.
    Adm,
    /// No type.
    Plain,
    /// Another type, by which no parent is found.
    Other,
}

/// What tells a link from all others, in the order of the table.
#[derive(Clone, Copy, Debug, PartialEq, Eq, PartialOrd, Ord)]
pub struct LinkKey {
    pub child: u32,
    pub class: LinkClass,
    pub parent: u32,
}

/// The class of a link with this type.
fn class_of(text: &[u8]) -> LinkClass
    ensures { class_number result ≡ class_in text.now }
{
    if text == b"ADM".as_slice() {
        LinkClass::Adm
    } else if text.is_empty() {
        LinkClass::Plain
    } else {
        LinkClass::Other
    }
}

/// The key of the link, or the first reason for which the line is refused, in the order of `Reason`: more than 65,535
/// bytes, no UTF-8, other than 2 or 3 columns, then columns 1, the parent, and 2, the child, by `read_id`. The columns are
/// those of the hierarchy in the export's readme; that the type may be left out is this project's own.
#[tactic(auto, unfolding(gaz_num::specs::Check::reason_against))]
pub fn check_link(line: &[u8]) -> Result<LinkKey, Reason>
    ensures { MatchResult result
        (λ key. (reason_against Link line.now ≡ None) × (key_in Link line.now ≡ Some (key_numbers key)))
        (λ reason. reason_against Link line.now ≡ Some reason) }
{
    if line.len() > LONGEST {
        return Err(Reason::Length);
    }
    if !is_text(line) {
        return Err(Reason::Utf8);
    }
    let columns = count_fields(line);
    if columns < FEWEST_COLUMNS || columns > MOST_COLUMNS {
        return Err(Reason::Columns);
    }
    let Some(parent) = read_id(column_of(line, 1)) else {
        return Err(Reason::Id);
    };
    let Some(child) = read_id(column_of(line, 2)) else {
        return Err(Reason::Id);
    };
    let class = class_of(column_of(line, 3));
    Ok(LinkKey {
        child,
        class,
        parent,
    })
}
