//! The check of an alternate name.
ghost use Rattle.std.specs.Prelude.{◌≡◌, MatchResult, Some, None, drop};
ghost use Rattle.gaz_num.specs.Numbers.{id_in};
ghost use Rattle.gaz_num.specs.Pieces.{column};
ghost use Rattle.gaz_num.specs.Check.{first_failing, tests};
ghost use Rattle.gaz_num.specs.declared.words.Kind.TheVariants.{Alt};
ghost use Rattle.gaz_alt.specs.Checked.{IsChecked};

use crate::columns::Columns;
use gaz_num::{Reason, is_text, read_id};

/// Bytes in the longest line.
pub(crate) const LONGEST: usize = 65_535;

/// The alternate name's id, where the place's id is one too.
fn check_ids(columns: &Columns<'_>) -> Result<u32, Reason>
    ensures { MatchResult result
        (λ id. (first_failing (drop 1 (tests Alt columns.now.line.now)) ≡ None) × (id_in (column 1 columns.now.line.now) ≡ Some id))
        (λ reason. first_failing (drop 1 (tests Alt columns.now.line.now)) ≡ Some reason) }
{
    let Some(id) = read_id(columns.id()) else {
        return Err(Reason::Id);
    };
    match read_id(columns.place()) {
        Some(_) => Ok(id),
        None => Err(Reason::Id),
    }
}

/// The alternate name's id, or the first reason for which the line is refused, in the order of `Reason`: more than 65,535
/// bytes, no UTF-8, fewer than 4 columns or more than 10, then columns 1 and 2 by `read_id`. The columns are those of the
/// table of alternate names in the export's readme, which has 10; that the last six may be left out, and which columns are
/// checked, is this project's own.
#[tactic(auto, unfolding(gaz_num::specs::Check::reason_against))]
pub fn check_alt(line: &[u8]) -> Result<u32, Reason>
    ensures { IsChecked Alt line.now result }
{
    if line.len() > LONGEST {
        return Err(Reason::Length);
    }
    if !is_text(line) {
        return Err(Reason::Utf8);
    }
    match Columns::of(line) {
        Some(columns) => check_ids(&columns),
        None => Err(Reason::Columns),
    }
}
