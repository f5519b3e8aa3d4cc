//! What a request for children asks.
ghost use Rattle.std.specs.Prelude.{◌≡◌, ◌≤◌, option_copied, MatchResult, IfOk, Ok, Err};
ghost use Rattle.gaz_words.specs.Children.{max_rows_in, max_rows_behind_id, children_by, children_in};

use crate::parameter::{MOST_ROWS, Parameter};
use crate::request::{BadRequest, split_space};
use gaz_num::{read_count, read_id};

/// How many children are told where the request doesn't say.
const DEFAULT_CHILDREN: u32 = 200;

/// The number of rows in `maxRows=` and a count.
fn read_max_rows(text: &str) -> Result<u32, BadRequest>
    ensures asked { MatchResult result
        (λ max. max_rows_in text.now ≡ Ok max)
        (λ bad. max_rows_in text.now ≡ Err bad) }
    ensures within { IfOk result (λ max. max ≤ 1000) }
{
    let Some(count) = text.as_bytes().strip_prefix(b"maxRows=".as_slice()) else {
        return Err(BadRequest::Parameter);
    };
    match read_count(count, MOST_ROWS) {
        Some(max) => Ok(max),
        None => Err(BadRequest::Value(Parameter::MaxRows)),
    }
}

/// The number of rows behind an id, if one is given.
fn max_rows_behind(rest: Option<&str>) -> Result<u32, BadRequest>
    ensures asked { MatchResult result
        (λ max. max_rows_behind_id (option_copied rest.entry) ≡ Ok max)
        (λ bad. max_rows_behind_id (option_copied rest.entry) ≡ Err bad) }
    ensures within { IfOk result (λ max. max ≤ 1000) }
{
    match rest {
        Some(text) => read_max_rows(text),
        None => Ok(DEFAULT_CHILDREN),
    }
}

/// An id, and how many of the children are told at most.
fn read_parts(text: &str) -> Result<(u32, u32), BadRequest>
    ensures asked { MatchResult result
        (λ asked. children_by text.now ≡ Ok (asked.0, asked.1))
        (λ bad. children_by text.now ≡ Err bad) }
    ensures within { IfOk result (λ asked. asked.1 ≤ 1000) }
{
    let (id, rest) = split_space(text);
    let Some(id) = read_id(id.as_bytes()) else {
        return Err(BadRequest::Id);
    };
    match max_rows_behind(rest) {
        Ok(max) => Ok((id, max)),
        Err(bad) => Err(bad),
    }
}

/// Whose children a request asks for with what stands behind its verb, and how many at most, or its first bad word.
pub(crate) fn read_children(rest: Option<&str>) -> Result<(u32, u32), BadRequest>
    ensures asked { MatchResult result
        (λ asked. children_in (option_copied rest.entry) ≡ Ok (asked.0, asked.1))
        (λ bad. children_in (option_copied rest.entry) ≡ Err bad) }
    ensures within { IfOk result (λ asked. asked.1 ≤ 1000) }
{
    match rest {
        Some(text) => read_parts(text),
        None => Err(BadRequest::Id),
    }
}
