//! What a request line asks.
ghost use Rattle.std.specs.Prelude.{◌≡◌, true, false, option_copied, option_and_then, MatchOption, MatchResult, IfOk};
ghost use Rattle.std.specs.Str.{is_utf8};
ghost use Rattle.gaz_num.specs.Dates.{day_in};
ghost use Rattle.gaz_num.specs.Numbers.{id_in};
ghost use Rattle.gaz_words.specs.Grammar.{asked_of, IsWithinLimits, bad_word, verb_in, code_in, request_by, request_in};
ghost use Rattle.gaz_words.specs.Spaces.{before_space, behind_space};

use crate::children::read_children;
use crate::parameter::Parameter;
use crate::search::read_search;
use gaz_num::{Day, read_date, read_id};
use gaz_pick::Query;
use std::str::from_utf8;

/// Bytes in the longest request line.
const LONGEST: usize = 4096;

/// Bytes in the longest admin code.
const LONGEST_CODE: usize = 128;

/// What a request line asks.
#[derive(Clone, Copy, Debug)]
pub enum Request<'a> {
    /// Load the dump, which is of this date.
    Load(Day),
    /// Apply the daily files of this date.
    Day(Day),
    /// Tell the place with this id.
    Get(u32),
    /// Tell the first places of those that pass the tests of the query.
    Search(Query<'a>),
    /// Tell the first children of the place with this id, so many at most.
    Children(u32, u32),
    /// Tell the chain of the place with this id.
    Hierarchy(u32),
    /// Tell the line of this admin code.
    Admin(&'a str),
}

/// The first word of a request line.
#[derive(Clone, Copy)]
enum Verb {
    Load,
    Day,
    Get,
    Search,
    Children,
    Hierarchy,
    Admin,
}

/// The first bad word of a request line.
#[derive(Clone, Copy, Debug, PartialEq, Eq)]
pub enum BadRequest {
    /// The line has more than 4,096 bytes.
    Length,
    /// It isn't UTF-8.
    Utf8,
    /// It begins with no known verb.
    Verb,
    /// What stands behind the verb is no date.
    Date,
    /// What stands behind the verb is no id, or doesn't begin with one.
    Id,
    /// What stands behind the verb is no code of 1 to 128 bytes.
    Code,
    /// What stands between two tabs has no `=` behind the name of a parameter, or what stands behind an id isn't `maxRows=`
    /// and a value.
    Parameter,
    /// The parameter was given before, or its value is bad, or it is a second name test.
    Value(Parameter),
    /// Some edges of a box are given and not all, or its south lies north of its north.
    Box,
}

impl BadRequest {
    /// Its word in a refusal.
    pub fn word(self) -> &'static str
        ensures { result.now ≡ bad_word self }
    {
        match self {
            BadRequest::Length => "length",
            BadRequest::Utf8 => "utf8",
            BadRequest::Verb => "verb",
            BadRequest::Date => "date",
            BadRequest::Id => "id",
            BadRequest::Code => "code",
            BadRequest::Parameter => "parameter",
            BadRequest::Value(parameter) => parameter.name(),
            BadRequest::Box => "box",
        }
    }
}

/// The bytes as a text, if they are UTF-8.
fn text_of(bytes: &[u8]) -> Option<&str>
    ensures { MatchOption result (is_utf8 bytes.now ≡ false) (λ text. (is_utf8 bytes.now ≡ true) × (text.now ≡ bytes.now)) }
{
    match from_utf8(bytes) {
        Ok(text) => Some(text),
        Err(_) => None,
    }
}

/// What stands before the first space, and what stands behind it, if there is one.
pub(crate) fn split_space(text: &str) -> (&str, Option<&str>)
    ensures before { result.0.now ≡ before_space text.now }
    ensures rest { option_copied result.1 ≡ behind_space text.now }
{
    match text.split_once(' ') {
        Some((before, rest)) => (before, Some(rest)),
        None => (text, None),
    }
}

fn read_verb(text: &str) -> Option<Verb>
    ensures { result ≡ verb_in text.now }
{
    if text == "load" {
        Some(Verb::Load)
    } else if text == "day" {
        Some(Verb::Day)
    } else if text == "get" {
        Some(Verb::Get)
    } else if text == "search" {
        Some(Verb::Search)
    } else if text == "children" {
        Some(Verb::Children)
    } else if text == "hierarchy" {
        Some(Verb::Hierarchy)
    } else if text == "admin" {
        Some(Verb::Admin)
    } else {
        None
    }
}

fn date_in_rest(rest: Option<&str>) -> Option<Day>
    ensures { result ≡ option_and_then day_in (option_copied rest.entry) }
{
    match rest {
        Some(text) => read_date(text.as_bytes()),
        None => None,
    }
}

fn id_in_rest(rest: Option<&str>) -> Option<u32>
    ensures { result ≡ option_and_then id_in (option_copied rest.entry) }
{
    match rest {
        Some(text) => read_id(text.as_bytes()),
        None => None,
    }
}

/// The rest, where it is a code.
fn code_in_rest<'a>(rest: Option<&'a str>) -> Option<&'a str>
    ensures { option_copied result ≡ option_and_then code_in (option_copied rest.entry) }
{
    match rest {
        Some(text) if !text.is_empty() && text.len() <= LONGEST_CODE => Some(text),
        _ => None,
    }
}

/// What the verb asks with the rest of the line.
fn request_of<'a>(verb: Option<Verb>, rest: Option<&'a str>) -> Result<Request<'a>, BadRequest>
    ensures asked { MatchResult result
        (λ request. request_by verb (option_copied rest.entry) ≡ Ok (asked_of request))
        (λ bad. request_by verb (option_copied rest.entry) ≡ Err bad) }
    ensures within { IfOk result (λ request. IsWithinLimits (asked_of request)) }
{
    match verb {
        Some(Verb::Load) => match date_in_rest(rest) {
            Some(date) => Ok(Request::Load(date)),
            None => Err(BadRequest::Date),
        },
        Some(Verb::Day) => match date_in_rest(rest) {
            Some(date) => Ok(Request::Day(date)),
            None => Err(BadRequest::Date),
        },
        Some(Verb::Get) => match id_in_rest(rest) {
            Some(id) => Ok(Request::Get(id)),
            None => Err(BadRequest::Id),
        },
        Some(Verb::Search) => match read_search(rest) {
            Ok(query) => Ok(Request::Search(query)),
            Err(bad) => Err(bad),
        },
        Some(Verb::Children) => match read_children(rest) {
            Ok((id, max)) => Ok(Request::Children(id, max)),
            Err(bad) => Err(bad),
        },
        Some(Verb::Hierarchy) => match id_in_rest(rest) {
            Some(id) => Ok(Request::Hierarchy(id)),
            None => Err(BadRequest::Id),
        },
        Some(Verb::Admin) => match code_in_rest(rest) {
            Some(code) => Ok(Request::Admin(code)),
            None => Err(BadRequest::Code),
        },
        None => Err(BadRequest::Verb),
    }
}

/// What the line, without its LF, asks, or its first bad word.
#[tactic(auto, unfolding(crate::specs::Grammar::request_in))]
pub fn read_request(line: &[u8]) -> Result<Request<'_>, BadRequest>
    ensures asked { MatchResult result
        (λ request. request_in line.now ≡ Ok (asked_of request))
        (λ bad. request_in line.now ≡ Err bad) }
    ensures within { IfOk result (λ request. IsWithinLimits (asked_of request)) }
{
    if line.len() > LONGEST {
        return Err(BadRequest::Length);
    }
    let Some(text) = text_of(line) else {
        return Err(BadRequest::Utf8);
    };
    let (verb, rest) = split_space(text);
    request_of(read_verb(verb), rest)
}
