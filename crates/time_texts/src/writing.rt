//! The text of a time.

ghost use Rattle.std.specs.Prelude.{◌≡◌, ◌<◌, ◌≤◌, ◌^◌, ◌++◌, decimal, OnOk};
ghost use Rattle.time_texts.specs.Reading.{with_point};
ghost use Rattle.time_texts.specs.Writing.{fraction_text, places_of_time, time_text, unit_of_places};

use itoa::Buffer;
use slot_core::Memory;

/// Most decimal places of a unit.
const PLACES_LIMIT: u32 = 9;

/// Appends the time, in nanoseconds, in the greatest unit that is no longer than it: `250us`,
/// `20.5ms`. A time of 0 is written as `0ns`. A time of `NANOS_LIMIT` or more is written too, but
/// with more digits than `time_of` reads.
pub fn push_time(text: &mut Vec<u8>, time: u64) -> Result<(), Memory>
    ensures { OnOk result (text.new.items ≡ text.old.items ++ time_text time) }
{
    let places = places_of_time(time);
    let unit = 10u64.pow(places);
    push_number(text, time / unit)?;
    push_fraction(text, places, time % unit)?;
    text.extend_from_slice(unit_of_places(places))?;
    Ok(())
}

/// How many decimal places the greatest unit has that is no longer than the time; none where that
/// is 0.
fn places_of_time(time: u64) -> u32
    ensures places { result ≡ places_of_time time }
    ensures few { result ≤ PLACES_LIMIT }
{
    match time {
        0..=999 => 0,
        1_000..=999_999 => 3,
        1_000_000..=999_999_999 => 6,
        _ => 9,
    }
}

/// The unit of this many decimal places.
fn unit_of_places(places: u32) -> &'static [u8]
    ensures { result.now ≡ unit_of_places places }
{
    match places {
        0 => b"ns",
        3 => b"us",
        6 => b"ms",
        _ => b"s",
    }
}

/// Appends the number in decimal digits.
fn push_number(text: &mut Vec<u8>, number: u64) -> Result<(), Memory>
    ensures { OnOk result (text.new.items ≡ text.old.items ++ decimal number) }
{
    let mut digits = Buffer::new();
    text.extend_from_slice(digits.format(number).as_bytes())?;
    Ok(())
}

/// Appends a fraction in this many places, with its point, where it is not 0.
fn push_fraction(text: &mut Vec<u8>, places: u32, fraction: u64) -> Result<(), Memory>
    requires few { places ≤ PLACES_LIMIT }
    requires below { fraction < 10 ^ places }
    ensures { OnOk result
        (text.new.items ≡ text.old.items ++ with_point (fraction_text places fraction)) }
{
    if fraction == 0 {
        return Ok(());
    }
    text.push(b'.')?;
    push_digits(text, places, fraction)
}

/// Appends the digits of a fraction in this many places, up to its last one that is not 0.
fn push_digits(text: &mut Vec<u8>, places: u32, fraction: u64) -> Result<(), Memory>
    requires few { places ≤ PLACES_LIMIT }
    requires below { fraction < 10 ^ places }
    ensures { OnOk result (text.new.items ≡ text.old.items ++ fraction_text places fraction) }
{
    let mut left = places;
    let mut rest = fraction;
    while rest > 0 {
        left -= 1;
        let unit = 10u64.pow(left);
        text.push(b'0' + (rest / unit) as u8)?;
        rest %= unit;
    }
    Ok(())
}
