//! Numbers and dates.
use gaz_num::{
    Day, next_day, read_count, read_date, read_degrees, read_i32, read_i64, read_id, read_u64,
    write_date,
};
use std::io;

/// The number, or `none`.
fn print_unsigned(rt: &HostRuntime, number: Option<u64>) -> io::Result<()> {
    match number {
        Some(number) => println!(rt; "{number}"),
        None => println!(rt; "none"),
    }
}

/// The number, or `none`.
fn print_signed(rt: &HostRuntime, number: Option<i64>) -> io::Result<()> {
    match number {
        Some(number) => println!(rt; "{number}"),
        None => println!(rt; "none"),
    }
}

/// An id, a count of at most 1,000, or a number of 64 bits.
pub(crate) fn tell_unsigned(rt: &HostRuntime, word: &str, text: &str) -> io::Result<()> {
    let number = match word {
        "id" => read_id(text.as_bytes()).map(u64::from),
        "count" => read_count(text.as_bytes(), 1000).map(u64::from),
        _ => read_u64(text.as_bytes()),
    };
    print_unsigned(rt, number)
}

/// A signed number of 32 or of 64 bits.
pub(crate) fn tell_signed(rt: &HostRuntime, word: &str, text: &str) -> io::Result<()> {
    let number = match word {
        "i32" => read_i32(text.as_bytes()).map(i64::from),
        _ => read_i64(text.as_bytes()),
    };
    print_signed(rt, number)
}

/// A latitude or a longitude, in units of 10^-12 degree.
pub(crate) fn tell_degrees(rt: &HostRuntime, word: &str, text: &str) -> io::Result<()> {
    let most = if word == "latitude" { 90 } else { 180 };
    print_signed(rt, read_degrees(text.as_bytes(), most))
}

/// The text of a date.
fn text_of(day: Day, out: &mut [u8; 10]) -> &str {
    *out = write_date(day);
    match str::from_utf8(out) {
        Ok(text) => text,
        Err(_) => "no text",
    }
}

/// The date's number, its text, and the text of the next one.
pub(crate) fn tell_date(rt: &HostRuntime, text: &str) -> io::Result<()> {
    let Some(day) = read_date(text.as_bytes()) else {
        return println!(rt; "none");
    };
    let (mut this, mut next) = ([0; 10], [0; 10]);
    let number = day.number();
    let this = text_of(day, &mut this);
    match next_day(day) {
        Some(day) => {
            let next = text_of(day, &mut next);
            println!(rt; "{number} {this} {next}")
        }
        None => println!(rt; "{number} {this} none"),
    }
}
