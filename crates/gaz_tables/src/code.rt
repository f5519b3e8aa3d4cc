//! Codes of admin divisions.
ghost use Rattle.std.specs.Prelude.{◌≡◌, ◌≤◌, length, IfOk, MatchResult, Some, None};
ghost use Rattle.gaz_num.specs.Check.{reason_against, key_in};
ghost use Rattle.gaz_num.specs.declared.words.Kind.TheVariants.{Code};

use crate::columns::{LONGEST, column_of};
use gaz_num::{Reason, count_fields, is_text};

/// Columns of a code: the code, name, name in ASCII, geonameid.
const FEWEST_COLUMNS: usize = 4;

/// Bytes in the longest code.
const LONGEST_CODE: usize = 128;

/// The code, or the first reason for which the line is refused, in the order of `Reason`: more than 65,535 bytes, no UTF-8,
/// fewer than 4 columns, then column 1 other than 1 to 128 bytes. The columns are those of the export's tables of admin
/// codes; the longest code is this project's own.
#[tactic(auto, unfolding(gaz_num::specs::Check::reason_against))]
pub fn check_code(line: &[u8]) -> Result<&[u8], Reason>
    ensures told { MatchResult result
        (λ code. (reason_against Code line.now ≡ None) × (key_in Code line.now ≡ Some code.now))
        (λ reason. reason_against Code line.now ≡ Some reason) }
    ensures short { IfOk result (λ code. length code.now ≤ 128) }
{
    if line.len() > LONGEST {
        return Err(Reason::Length);
    }
    if !is_text(line) {
        return Err(Reason::Utf8);
    }
    if count_fields(line) < FEWEST_COLUMNS {
        return Err(Reason::Columns);
    }
    let code = column_of(line, 1);
    if code.is_empty() || code.len() > LONGEST_CODE {
        return Err(Reason::Code);
    }
    Ok(code)
}
