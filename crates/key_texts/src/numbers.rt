//! The numbers that texts write.

ghost use Rattle.std.specs.Prelude.{◌≡◌, ◌≤◌, ◌↔◌, ℕ, Some, None, decimal, length, if◌then◌else◌};
ghost use Rattle.std.specs.Char.{is_ascii_digit};
ghost use Rattle.std.specs.List.{list_all};
ghost use Rattle.std.specs.Str.Parse.{digits_value};
ghost use Rattle.key_texts.specs.Numbers.{is_plain, within, number_between, number_of, row_number};

use crate::DIGIT_LIMIT;
use slot_core::{ARRIVAL_LIMIT, NUMBER_LIMIT};

/// The number that the text writes.
pub fn number_of(text: &[u8]) -> Option<u32>
    ensures reading { result ≡ number_of text.now }
    ensures exact { (n : ℕ) → (result ≡ Some n) ↔ ((n ≤ NUMBER_LIMIT) × (text.now ≡ decimal n)) }
{
    number_between(text, 0, NUMBER_LIMIT)
}

/// The row of an arrival that the text writes.
pub fn row_number(text: &[u8]) -> Option<u32>
    ensures { result ≡ row_number text.now }
{
    number_between(text, 1, ARRIVAL_LIMIT)
}

/// The number that the text writes, from `low` to `high`.
pub fn number_between(text: &[u8], low: u32, high: u32) -> Option<u32>
    ensures { result ≡ number_between low high text.now }
{
    if !is_plain(text) {
        return None;
    }
    value_of(text).filter(|value| (low..=high).contains(value))
}

/// The number that the bytes write, where each of them is a digit.
fn value_of(bytes: &[u8]) -> Option<u32>
    requires few { length bytes.now ≤ DIGIT_LIMIT }
    ensures { result ≡ (if list_all is_ascii_digit bytes.now
        then within 0 NUMBER_LIMIT (digits_value 10 bytes.now) else None) }
{
    let mut value = 0u64;
    for byte in bytes {
        if !byte.is_ascii_digit() {
            return None;
        }
        value = value * 10 + u64::from(*byte - b'0');
    }
    u32::try_from(value).ok()
}

/// Whether there are bytes, up to the limit of digits, of which the first is 0 only where it stands
/// alone.
fn is_plain(bytes: &[u8]) -> bool
    ensures { result ≡ is_plain bytes.now }
{
    match bytes {
        [] => false,
        [first, rest @ ..] => rest.len() < DIGIT_LIMIT && (rest.is_empty() || *first != b'0'),
    }
}
