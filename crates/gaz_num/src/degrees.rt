//! Coordinates.
ghost use Rattle.std.specs.Prelude.{◌≡◌, ◌≤◌, ◌<◌, ◌+◌, ◌-◌, ◌*◌, ◌^◌, ◌&&◌, IfSome, length, position};
ghost use Rattle.std.specs.Str.Parse.{digits_value};
ghost use Rattle.gaz_num.specs.Numbers.{some_if, is_digits, is_point, is_decimal, decimal_value, degrees_in};

use crate::read::{read_digits, split_minus};

/// 10^-12 degrees in a degree.
const DEGREE: u64 = 1_000_000_000_000;

/// What the last of so many digits behind a point counts, in units of 10^-12.
fn last_digit(digits: usize) -> u64
    requires { digits ≤ 12 }
    ensures value { result ≡ 10 ^ (12 - digits) }
    ensures bound { result * 10 ^ digits ≡ 10 ^ 12 }
{
    10_u64.pow((12 - digits) as u32)
}

fn find_point(text: &[u8]) -> Option<usize>
    ensures { result ≡ position is_point text.now }
{
    text.iter().position(|byte| *byte == b'.')
}

/// 1 to 3 digits before a point and 1 to 12 behind it, in units of 10^-12.
fn read_parts(whole: &[u8], fraction: &[u8]) -> Option<u64>
    ensures value { result ≡ some_if (is_digits 3 whole.now && is_digits 12 fraction.now)
        (digits_value 10 whole.now * 10 ^ 12 + digits_value 10 fraction.now * 10 ^ (12 - length fraction.now)) }
    ensures bound { IfSome result (λ value. value < 10 ^ 15) }
{
    match (read_digits(whole, 3), read_digits(fraction, 12)) {
        (Some(degrees), Some(parts)) => {
            Some(degrees * DEGREE + parts * last_digit(fraction.len()))
        }
        _ => None,
    }
}

/// 1 to 3 digits in units of 10^-12.
fn read_whole(text: &[u8]) -> Option<u64>
    ensures value { result ≡ some_if (is_digits 3 text.now) (digits_value 10 text.now * 10 ^ 12) }
    ensures bound { IfSome result (λ value. value < 10 ^ 15) }
{
    match read_digits(text, 3) {
        Some(degrees) => Some(degrees * DEGREE),
        None => None,
    }
}

/// 1 to 3 digits, and then nothing, or a point and 1 to 12 digits, in units of 10^-12.
fn read_decimal(text: &[u8]) -> Option<u64>
    ensures value { result ≡ some_if (is_decimal text.now) (decimal_value text.now) }
    ensures bound { IfSome result (λ value. value < 10 ^ 15) }
{
    match find_point(text) {
        Some(at) => read_parts(&text[..at], &text[at + 1..]),
        None => read_whole(text),
    }
}

/// A coordinate in units of 10^-12 degree, at most `max` degrees in size: an optional minus, 1 to 3 digits, and then
/// nothing, or a point and 1 to 12 digits. The export's readme asks for decimal degrees; this form of them, with no
/// exponent and no plus, is this project's own.
pub fn read_degrees(text: &[u8], max: u8) -> Option<i64>
    ensures { result ≡ degrees_in max text.now }
{
    let (minus, text) = split_minus(text);
    match read_decimal(text) {
        Some(size) if size > max as u64 * DEGREE => None,
        Some(size) if minus => Some(-(size as i64)),
        Some(size) => Some(size as i64),
        None => None,
    }
}
