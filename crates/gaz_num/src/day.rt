//! Days of the calendar and their texts.
ghost use Rattle.std.specs.Prelude.{◌≡◌, ◌≤◌, ◌<◌, ◌^◌, ◌+◌, ℕ, suc, length, Some, IfSome, nat_lt, nat_le};
ghost use Rattle.std.specs.Str.{IsAscii};
ghost use Rattle.gaz_num.specs.Numbers.{some_if};
ghost use Rattle.gaz_num.specs.Dates.{last_day, is_date, day_number, day_of_parts, civil_text, date_text, day_in};

use crate::read::read_digits;
use jiff_core::civil::Date;
use std::marker::Model;

/// The number of 9999-12-31.
const LAST: u32 = 3_652_424;

/// The days from -9999-01-01, where jiff's calendar begins, up to 0000-01-01.
const BEFORE: u32 = 3_652_059;

/// A date of the years 0000 to 9999, seen as the number of days from 0000-01-01 up to it.
#[derive(Clone, Copy, Debug, PartialEq, Eq, PartialOrd, Ord)]
pub struct Day {
    number: u32,
}

impl Model for Day {
    ghost Value = { ℕ };

    ghost view = { λ day. day.number };

    ghost invariant = { λ day. day.number ≤ last_day };

    ghost inverse = { λ n. record { number = n } };
}

impl Day {
    /// The days from 0000-01-01 up to it.
    pub fn number(self) -> u32
        ensures { result ≡ self }
    {
        self.number
    }

    /// Its number is at most that of 9999-12-31. To call it is to know it.
    pub fn is_real(self)
        ensures { self ≤ last_day }
    {
        let _number = self.number;
    }

    /// The day with that number, up to 3,652,424, which is 9999-12-31.
    pub fn from_number(number: u32) -> Option<Day>
        ensures { result ≡ some_if (nat_le number last_day) number }
    {
        if number <= LAST {
            Some(Day { number })
        } else {
            None
        }
    }
}

/// The day after, or none after 9999-12-31.
pub fn next_day(day: Day) -> Option<Day>
    ensures { result ≡ some_if (nat_lt day last_day) (suc day) }
{
    if day.number < LAST {
        Some(Day {
            number: day.number + 1,
        })
    } else {
        None
    }
}

/// The day of a year, a month and a day, if the calendar has it.
fn day_on(year: u64, month: u64, day: u64) -> Option<Day>
    requires year { year < 10 ^ 4 }
    requires month { month < 10 ^ 2 }
    requires day { day < 10 ^ 2 }
    ensures { result ≡ some_if (is_date (record { year = year; month = month; day = day })) (day_number (record { year = year; month = month; day = day })) }
{
    match Date::new(year as i16, month as i8, day as i8) {
        Ok(date) => Some(Day {
            number: date.days_since_min() - BEFORE,
        }),
        Err(_) => None,
    }
}

/// The day of a year in four digits, a month and a day in two, if they are digits and the calendar has it.
fn read_parts(year: &[u8], month: &[u8], day: &[u8]) -> Option<Day>
    requires year { length year.now ≡ 4 }
    requires month { length month.now ≡ 2 }
    requires day { length day.now ≡ 2 }
    ensures { result ≡ day_of_parts year.now month.now day.now }
{
    match (
        read_digits(year, 4),
        read_digits(month, 2),
        read_digits(day, 2),
    ) {
        (Some(year), Some(month), Some(day)) => day_on(year, month, day),
        _ => None,
    }
}

/// The day that a text `yyyy-MM-dd` names, if the calendar has it.
pub fn read_date(text: &[u8]) -> Option<Day>
    ensures day { result ≡ day_in text.now }
    ensures text { IfSome result (λ day. date_text day ≡ text.now) }
{
    if text.len() != 10 || text[4] != b'-' || text[7] != b'-' {
        return None;
    }
    read_parts(&text[..4], &text[5..7], &text[8..])
}

/// The byte of a digit.
fn digit(n: u16) -> u8
    requires { n < 10 }
    ensures { result ≡ 48 + n }
{
    b'0' + n as u8
}

/// The ten bytes `yyyy-MM-dd` of a date.
fn write_civil(year: u16, month: u16, day: u16) -> [u8; 10]
    requires year { year < 10 ^ 4 }
    requires month { month < 10 ^ 2 }
    requires day { day < 10 ^ 2 }
    ensures text { result ≡ civil_text (record { year = year; month = month; day = day }) }
    ensures ascii { IsAscii result }
{
    [
        digit(year / 1000),
        digit(year / 100 % 10),
        digit(year / 10 % 10),
        digit(year % 10),
        b'-',
        digit(month / 10),
        digit(month % 10),
        b'-',
        digit(day / 10),
        digit(day % 10),
    ]
}

/// The ten bytes `yyyy-MM-dd` of a day.
pub fn write_date(day: Day) -> [u8; 10]
    ensures text { result ≡ date_text day }
    ensures day { day_in result ≡ Some day }
    ensures ascii { IsAscii (date_text day) }
{
    let date = Date::from_days_since_min(day.number + BEFORE);
    write_civil(date.year.unsigned_abs(), date.month as u16, date.day as u16)
}
