//! The parameters of a search.
ghost use Rattle.std.specs.Prelude.{◌≡◌, ◌<◌};
ghost use Rattle.gaz_words.specs.Search.{parameter_name, place_of, parameter_named, is_good};

use gaz_num::{read_count, read_degrees};

/// Degrees of latitude on either side of the equator.
pub(crate) const LATITUDES: u8 = 90;

/// Degrees of longitude on either side of Greenwich.
pub(crate) const LONGITUDES: u8 = 180;

/// The most rows that a search prints.
pub(crate) const MOST_ROWS: u32 = 1_000;

/// The last row from which on a search prints.
pub(crate) const LAST_START: u32 = 5_000;

/// How many parameters there are.
pub(crate) const PARAMETERS: usize = 16;

/// A parameter of a search. The names are those of the GeoNames web services, where these have one.
#[derive(Clone, Copy, Debug, PartialEq, Eq)]
pub enum Parameter {
    NameEquals,
    NameStarts,
    Country,
    FeatureClass,
    FeatureCode,
    AdminCode1,
    AdminCode2,
    AdminCode3,
    SearchLang,
    North,
    South,
    East,
    West,
    OrderBy,
    MaxRows,
    StartRow,
}

/// All parameters, each at its place.
const ALL: [Parameter; PARAMETERS] = [
    Parameter::NameEquals,
    Parameter::NameStarts,
    Parameter::Country,
    Parameter::FeatureClass,
    Parameter::FeatureCode,
    Parameter::AdminCode1,
    Parameter::AdminCode2,
    Parameter::AdminCode3,
    Parameter::SearchLang,
    Parameter::North,
    Parameter::South,
    Parameter::East,
    Parameter::West,
    Parameter::OrderBy,
    Parameter::MaxRows,
    Parameter::StartRow,
];

impl Parameter {
    /// Its name in a request.
    pub fn name(self) -> &'static str
        ensures { result.now ≡ parameter_name self }
    {
        match self {
            Parameter::NameEquals => "name_equals",
            Parameter::NameStarts => "name_startsWith",
            Parameter::Country => "country",
            Parameter::FeatureClass => "featureClass",
            Parameter::FeatureCode => "featureCode",
            Parameter::AdminCode1 => "adminCode1",
            Parameter::AdminCode2 => "adminCode2",
            Parameter::AdminCode3 => "adminCode3",
            Parameter::SearchLang => "searchlang",
            Parameter::North => "north",
            Parameter::South => "south",
            Parameter::East => "east",
            Parameter::West => "west",
            Parameter::OrderBy => "orderby",
            Parameter::MaxRows => "maxRows",
            Parameter::StartRow => "startRow",
        }
    }

    /// Its place among all.
    pub(crate) fn place(self) -> usize
        ensures place { result ≡ place_of self }
        ensures bound { result < 16 }
    {
        match self {
            Parameter::NameEquals => 0,
            Parameter::NameStarts => 1,
            Parameter::Country => 2,
            Parameter::FeatureClass => 3,
            Parameter::FeatureCode => 4,
            Parameter::AdminCode1 => 5,
            Parameter::AdminCode2 => 6,
            Parameter::AdminCode3 => 7,
            Parameter::SearchLang => 8,
            Parameter::North => 9,
            Parameter::South => 10,
            Parameter::East => 11,
            Parameter::West => 12,
            Parameter::OrderBy => 13,
            Parameter::MaxRows => 14,
            Parameter::StartRow => 15,
        }
    }

    /// The parameter with this name, if there is one.
    pub(crate) fn named(name: &str) -> Option<Parameter>
        ensures { result ≡ parameter_named name.now }
    {
        ALL.iter()
            .copied()
            .find(|parameter| parameter.name() == name)
    }

    /// Whether the value is good.
    pub(crate) fn takes(self, value: &str) -> bool
        ensures { result ≡ is_good self value.now }
    {
        match self {
            Parameter::NameEquals | Parameter::NameStarts => !value.is_empty(),
            Parameter::North | Parameter::South => {
                read_degrees(value.as_bytes(), LATITUDES).is_some()
            }
            Parameter::East | Parameter::West => {
                read_degrees(value.as_bytes(), LONGITUDES).is_some()
            }
            Parameter::OrderBy => value == "population",
            Parameter::MaxRows => read_count(value.as_bytes(), MOST_ROWS).is_some(),
            Parameter::StartRow => read_count(value.as_bytes(), LAST_START).is_some(),
            _ => true,
        }
    }
}
