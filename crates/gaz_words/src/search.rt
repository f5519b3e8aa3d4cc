//! What a search asks.
ghost use Rattle.std.specs.Prelude.{◌≡◌, ◌<◌, ◌≤◌, [], ◌∷◌, length, MatchOption, MatchResult, IfOk, IfSome};
ghost use Rattle.std.specs.Option.{ForSome, option_copied, option_map};
ghost use Rattle.gaz_num.specs.Pieces.{fields};
ghost use Rattle.gaz_pick.specs.Asked.{name_asked, asked};
ghost use Rattle.gaz_box.specs.Edges.{IsWithin};
ghost use Rattle.gaz_box.specs.View.{edges_of};
ghost use Rattle.gaz_words.specs.Given.{values_of};
ghost use Rattle.gaz_words.specs.Search.{no_values, value_of, with_value, with_parameter, with_parameters, name_by, edges_by, edge_of, count_of, asked_by, search_in};

use crate::parameter::{LAST_START, LATITUDES, LONGITUDES, MOST_ROWS, PARAMETERS, Parameter};
use crate::request::BadRequest;
use gaz_box::GeoBox;
use gaz_num::{read_count, read_degrees};
use gaz_pick::{NameTest, Query};

/// How many rows a search prints where it doesn't say.
const DEFAULT_ROWS: u32 = 100;

/// What stands before the first tab, and what stands behind it, if there is one.
fn split_tab(text: &str) -> Option<(&str, &str)>
    ensures parts { MatchOption result (fields text.now ≡ text.now ∷ [])
        (λ parts. fields text.now ≡ parts.0.now ∷ fields parts.1.now) }
    ensures shorter { IfSome result (λ parts. length parts.1.now < length text.now) }
{
    text.split_once('\t')
}

/// At the place of each parameter its value, or none where it wasn't given.
#[derive(Clone, Copy)]
pub(crate) struct Values<'a> {
    texts: [Option<&'a str>; PARAMETERS],
}

impl<'a> Values<'a> {
    fn none() -> Values<'a>
        ensures { values_of result ≡ no_values }
    {
        Values {
            texts: [None; PARAMETERS],
        }
    }

    /// The value of a parameter, if it was given.
    fn get(&self, parameter: Parameter) -> Option<&'a str>
        ensures { option_copied result ≡ value_of parameter (values_of self.now) }
    {
        self.texts[parameter.place()]
    }

    /// With one value more, or the parameter's name where it was given before or the value is bad.
    fn with(self, value: &'a str, parameter: Parameter) -> Result<Values<'a>, BadRequest>
        ensures { MatchResult result
            (λ more. with_value (values_of self.entry) value.now parameter ≡ Ok (values_of more))
            (λ bad. with_value (values_of self.entry) value.now parameter ≡ Err bad) }
    {
        if self.get(parameter).is_some() || !parameter.takes(value) {
            return Err(BadRequest::Value(parameter));
        }
        let mut texts = self.texts;
        texts[parameter.place()] = Some(value);
        Ok(Values { texts })
    }

    /// With the value of one text more.
    fn with_text(self, text: &'a str) -> Result<Values<'a>, BadRequest>
        ensures { MatchResult result
            (λ more. with_parameter (values_of self.entry) text.now ≡ Ok (values_of more))
            (λ bad. with_parameter (values_of self.entry) text.now ≡ Err bad) }
    {
        let Some((name, value)) = text.split_once('=') else {
            return Err(BadRequest::Parameter);
        };
        match Parameter::named(name) {
            Some(parameter) => self.with(value, parameter),
            None => Err(BadRequest::Parameter),
        }
    }

    /// The values of the parameters between tabs.
    fn read(text: &'a str) -> Result<Values<'a>, BadRequest>
        ensures { MatchResult result
            (λ more. with_parameters no_values (fields text.now) ≡ Ok (values_of more))
            (λ bad. with_parameters no_values (fields text.now) ≡ Err bad) }
    {
        let mut values = Values::none();
        let mut rest = text;
        'texts: loop {
            let Some((first, behind)) = split_tab(rest) else {
                return values.with_text(rest);
            };
            values = values.with_text(first)?;
            rest = behind;
        }
    }

    /// An edge that was given.
    fn edge(&self, parameter: Parameter, greatest: u8) -> Option<i64>
        ensures value { result ≡ edge_of greatest parameter (values_of self.now) }
        ensures within { ForSome result (IsWithin greatest) }
    {
        match self.get(parameter) {
            Some(value) => read_degrees(value.as_bytes(), greatest),
            None => None,
        }
    }

    /// A count that was given, or what stands in its place.
    fn count(&self, parameter: Parameter, greatest: u32, default: u32) -> u32
        requires { default ≤ greatest }
        ensures value { result ≡ count_of greatest default parameter (values_of self.now) }
        ensures bound { result ≤ greatest }
    {
        match self.get(parameter) {
            Some(value) => read_count(value.as_bytes(), greatest).unwrap_or(default),
            None => default,
        }
    }
}

/// What is asked of names, by the values of the two tests.
fn name_test<'a>(
    equals: Option<&'a str>,
    starts: Option<&'a str>,
) -> Result<NameTest<'a>, BadRequest>
    ensures { MatchResult result
        (λ test. name_by (option_copied equals.entry) (option_copied starts.entry) ≡ Ok (name_asked test))
        (λ bad. name_by (option_copied equals.entry) (option_copied starts.entry) ≡ Err bad) }
{
    match (equals, starts) {
        (None, None) => Ok(NameTest::Absent),
        (Some(value), None) => Ok(NameTest::Equals(value)),
        (None, Some(value)) => Ok(NameTest::Starts(value)),
        (Some(_), Some(_)) => Err(BadRequest::Value(Parameter::NameStarts)),
    }
}

/// The box of four edges, none where none of them was given.
fn box_of(
    north: Option<i64>,
    south: Option<i64>,
    east: Option<i64>,
    west: Option<i64>,
) -> Result<Option<GeoBox>, BadRequest>
    requires north { ForSome north (IsWithin 90) }
    requires south { ForSome south (IsWithin 90) }
    requires east { ForSome east (IsWithin 180) }
    requires west { ForSome west (IsWithin 180) }
    ensures { MatchResult result
        (λ edges. edges_by north south east west ≡ Ok (option_map edges_of edges))
        (λ bad. edges_by north south east west ≡ Err bad) }
{
    match (north, south, east, west) {
        (None, None, None, None) => Ok(None),
        (Some(north), Some(south), Some(east), Some(west)) => {
            match GeoBox::new(north, south, east, west) {
                Some(edges) => Ok(Some(edges)),
                None => Err(BadRequest::Box),
            }
        }
        _ => Err(BadRequest::Box),
    }
}

/// What the values ask, or the bad word of those that don't go together.
fn query_of<'a>(values: &Values<'a>) -> Result<Query<'a>, BadRequest>
    ensures asked { MatchResult result
        (λ query. asked_by (values_of values.now) ≡ Ok (asked query))
        (λ bad. asked_by (values_of values.now) ≡ Err bad) }
    ensures within { IfOk result (λ query. (query.start ≤ 5000) × (query.max ≤ 1000)) }
{
    let name = match name_test(
        values.get(Parameter::NameEquals),
        values.get(Parameter::NameStarts),
    ) {
        Ok(name) => name,
        Err(bad) => return Err(bad),
    };
    let edges = match box_of(
        values.edge(Parameter::North, LATITUDES),
        values.edge(Parameter::South, LATITUDES),
        values.edge(Parameter::East, LONGITUDES),
        values.edge(Parameter::West, LONGITUDES),
    ) {
        Ok(edges) => edges,
        Err(bad) => return Err(bad),
    };
    Ok(Query {
        name,
        lang: values.get(Parameter::SearchLang),
        country: values.get(Parameter::Country),
        class: values.get(Parameter::FeatureClass),
        code: values.get(Parameter::FeatureCode),
        admin: [
            values.get(Parameter::AdminCode1),
            values.get(Parameter::AdminCode2),
            values.get(Parameter::AdminCode3),
        ],
        edges,
        start: values.count(Parameter::StartRow, LAST_START, 0),
        max: values.count(Parameter::MaxRows, MOST_ROWS, DEFAULT_ROWS),
    })
}

/// What a search asks with what stands behind its verb, or its first bad word.
pub(crate) fn read_search<'a>(rest: Option<&'a str>) -> Result<Query<'a>, BadRequest>
    ensures asked { MatchResult result
        (λ query. search_in (option_copied rest.entry) ≡ Ok (asked query))
        (λ bad. search_in (option_copied rest.entry) ≡ Err bad) }
    ensures within { IfOk result (λ query. (query.start ≤ 5000) × (query.max ≤ 1000)) }
{
    let values = match rest {
        Some(text) => match Values::read(text) {
            Ok(values) => values,
            Err(bad) => return Err(bad),
        },
        None => Values::none(),
    };
    query_of(&values)
}
