//! Countries: which place a country's code names.
ghost use Rattle.std.specs.Prelude.{◌≡◌, ◌≤◌, true, length, IfOk, IfSome, MatchResult, Some, None, option_copied};
ghost use Rattle.std.specs.List.{list_all};
ghost use Rattle.gaz_num.specs.Numbers.{id_in};
ghost use Rattle.gaz_num.specs.Pieces.{column};
ghost use Rattle.gaz_num.specs.Check.{reason_against, key_in, is_comment, is_country_code, is_code_byte};
ghost use Rattle.gaz_num.specs.declared.words.Kind.TheVariants.{Country};

use crate::columns::{LONGEST, column_of};
use gaz_num::{Reason, count_fields, is_text, read_id};

/// Columns up to the one that names the country's place.
const FEWEST_COLUMNS: usize = 17;

/// Bytes in the shortest code of a country, and in the longest.
const SHORTEST_CODE: usize = 2;

const LONGEST_CODE: usize = 4;

/// A line that says nothing: it is empty, or begins with `#`.
fn is_remark(line: &[u8]) -> bool
    ensures { result ≡ is_comment Country line.now }
{
    match line.first() {
        Some(byte) => *byte == b'#',
        None => true,
    }
}

fn is_letter_or_digit(byte: u8) -> bool
    ensures { result ≡ is_code_byte byte }
{
    byte.is_ascii_uppercase() || byte.is_ascii_digit()
}

fn are_letters_or_digits(text: &[u8]) -> bool
    ensures { result ≡ list_all is_code_byte text.now }
{
    text.iter().all(|byte| is_letter_or_digit(*byte))
}

/// A code of 2 to 4 capital letters or digits.
fn is_code(text: &[u8]) -> bool
    ensures told { result ≡ is_country_code text.now }
    ensures short { result ≡ true → length text.now ≤ 4 }
{
    text.len() >= SHORTEST_CODE && text.len() <= LONGEST_CODE && are_letters_or_digits(text)
}

/// The country's code, or none of a comment, or the first reason for which the line is refused, in the order of `Reason`:
/// more than 65,535 bytes; and, unless it is empty or begins with `#` and so is a comment, no UTF-8, fewer than 17 columns,
/// then column 1 other than 2 to 4 bytes of `A` to `Z` or `0` to `9`. The columns are those of the export's table of
/// countries; which codes are taken is this project's own.
#[tactic(auto, unfolding(gaz_num::specs::Check::reason_against))]
pub fn check_country(line: &[u8]) -> Result<Option<&[u8]>, Reason>
    ensures told { MatchResult result
        (λ code. (reason_against Country line.now ≡ None) × (key_in Country line.now ≡ option_copied code))
        (λ reason. reason_against Country line.now ≡ Some reason) }
    ensures short { IfOk result (λ found. IfSome found (λ code. length code.now ≤ 4)) }
{
    if line.len() > LONGEST {
        return Err(Reason::Length);
    }
    if is_remark(line) {
        return Ok(None);
    }
    if !is_text(line) {
        return Err(Reason::Utf8);
    }
    if count_fields(line) < FEWEST_COLUMNS {
        return Err(Reason::Columns);
    }
    let code = column_of(line, 1);
    if !is_code(code) {
        return Err(Reason::Code);
    }
    Ok(Some(code))
}

/// The place that the country's line names, column 17, if that is an id.
pub fn country_place(line: &[u8]) -> Option<u32>
    ensures { result ≡ id_in (column 17 line.now) }
{
    read_id(column_of(line, FEWEST_COLUMNS))
}
