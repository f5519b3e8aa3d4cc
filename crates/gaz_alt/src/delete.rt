//! The check of a line that takes out a place or an alternate name.
ghost use Rattle.std.specs.Prelude.{◌≡◌};
ghost use Rattle.gaz_num.specs.Numbers.{id_in};
ghost use Rattle.gaz_num.specs.Pieces.{column};
ghost use Rattle.gaz_num.specs.declared.words.Kind.TheVariants.{RowDelete, AltDelete};
ghost use Rattle.gaz_alt.specs.Checked.{IsChecked};

use crate::check::LONGEST;
use gaz_num::{Reason, field, is_text, read_id};

/// The id in the first column.
fn first_id(line: &[u8]) -> Option<u32>
    ensures { result ≡ id_in (column 1 line.now) }
{
    match field(line, 0) {
        Some(text) => read_id(text),
        None => None,
    }
}

/// The id of the line, or the first reason for which it is refused. A line of a daily file of deleted places or of
/// deleted alternate names may have any number of columns, and only the first is read.
#[tactic(auto, unfolding(gaz_num::specs::Check::reason_against))]
pub fn check_delete(line: &[u8]) -> Result<u32, Reason>
    ensures row { IsChecked RowDelete line.now result }
    ensures alternate { IsChecked AltDelete line.now result }
{
    if line.len() > LONGEST {
        return Err(Reason::Length);
    }
    if !is_text(line) {
        return Err(Reason::Utf8);
    }
    match first_id(line) {
        Some(id) => Ok(id),
        None => Err(Reason::Id),
    }
}
