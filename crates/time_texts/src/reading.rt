//! The times that texts write.

ghost use Rattle.std.specs.Prelude.{◌≡◌, ℕ, ◌+◌, ◌^◌, ◌*◌, ◌<◌, ◌≤◌, ◌↔◌, true, length, Some, IfSome, option_map};
ghost use Rattle.std.specs.Char.{is_ascii_digit};
ghost use Rattle.std.specs.List.{list_all, prefix_len};
ghost use Rattle.std.specs.Str.Parse.{digits_value};
ghost use Rattle.time_texts.specs.Reading.{IsTime, after_digits, digits_before, fraction_of, places_of_unit, time_from, time_of_text};

use crate::{NANOS_LIMIT, WHOLE_LIMIT};

/// Most decimal places of a unit.
const PLACES_LIMIT: u32 = 9;

/// The time that the text writes, in nanoseconds, or None exactly where it writes none.
pub fn time_of(text: &[u8]) -> Option<u64>
    ensures reading { result ≡ time_of_text text.now }
    ensures exact { (time : ℕ) → (result ≡ Some time) ↔ IsTime text.now time }
    ensures bound { IfSome result (λ time. time < NANOS_LIMIT) }
{
    read_time(text)
}

/// The same, by its parts.
fn read_time(text: &[u8]) -> Option<u64>
    ensures reading { result ≡ time_of_text text.now }
    ensures bound { IfSome result (λ time. time < NANOS_LIMIT) }
{
    let (whole, rest) = split_digits(text);
    let (fraction, unit) = fraction_of(rest)?;
    let places = places_of_unit(unit)?;
    time_from(whole, fraction, places)
}

/// How many digits stand in front of the text.
fn digit_count(text: &[u8]) -> usize
    ensures { result ≡ prefix_len is_ascii_digit text.now }
{
    text.iter().take_while(|byte| byte.is_ascii_digit()).count()
}

/// The digits in front of the text, and what stands after them.
fn split_digits(text: &[u8]) -> (&[u8], &[u8])
    ensures front { result.0.now ≡ digits_before text.now }
    ensures rest { result.1.now ≡ after_digits text.now }
    ensures digits { list_all is_ascii_digit result.0.now ≡ true }
    ensures count { length result.0.now ≡ prefix_len is_ascii_digit text.now }
{
    text.split_at(digit_count(text))
}

/// The digits of a fraction, and what stands after them.
fn fraction_of(text: &[u8]) -> Option<(&[u8], &[u8])>
    ensures parts { option_map (λ parts. (parts.0.now, parts.1.now)) result ≡ fraction_of text.now }
    ensures digits { IfSome result (λ parts. list_all is_ascii_digit parts.0.now ≡ true) }
{
    match text {
        [b'.', rest @ ..] => {
            let (fraction, unit) = split_digits(rest);
            if fraction.is_empty() {
                None
            } else {
                Some((fraction, unit))
            }
        }
        _ => Some((&[], text)),
    }
}

/// How many decimal places the unit has above a nanosecond.
fn places_of_unit(unit: &[u8]) -> Option<u32>
    ensures places { result ≡ places_of_unit unit.now }
    ensures few { IfSome result (λ places. places ≤ PLACES_LIMIT) }
{
    match unit {
        b"ns" => Some(0),
        b"us" => Some(3),
        b"ms" => Some(6),
        b"s" => Some(9),
        _ => None,
    }
}

/// The time of these digits and this fraction of a unit, where there are neither too few nor too
/// many of them.
fn time_from(whole: &[u8], fraction: &[u8], places: u32) -> Option<u64>
    requires whole { list_all is_ascii_digit whole.now ≡ true }
    requires fraction { list_all is_ascii_digit fraction.now ≡ true }
    requires few { places ≤ PLACES_LIMIT }
    ensures time { result ≡ time_from whole.now fraction.now places }
    ensures bound { IfSome result (λ time. time < NANOS_LIMIT) }
{
    let exact = fraction.len() <= places as usize;
    if whole.is_empty() || whole.len() > WHOLE_LIMIT || !exact {
        return None;
    }
    let rest = scaled(fraction, places - fraction.len() as u32);
    Some(scaled(whole, places) + rest)
}

/// The number that the digits write, times this power of ten.
fn scaled(digits: &[u8], places: u32) -> u64
    requires digits { list_all is_ascii_digit digits.now ≡ true }
    requires short { length digits.now ≤ WHOLE_LIMIT }
    requires few { places ≤ PLACES_LIMIT }
    ensures value { result ≡ digits_value 10 digits.now * 10 ^ places }
    ensures below { result + 10 ^ places ≤ 10 ^ (length digits.now + places) }
{
    value_of(digits) * 10u64.pow(places)
}

/// The number that the digits write.
fn value_of(digits: &[u8]) -> u64
    requires digits { list_all is_ascii_digit digits.now ≡ true }
    requires short { length digits.now ≤ WHOLE_LIMIT }
    ensures value { result ≡ digits_value 10 digits.now }
    ensures below { result < 10 ^ length digits.now }
{
    let mut value = 0;
    for digit in digits {
        value = value * 10 + u64::from(*digit - b'0');
    }
    value
}
