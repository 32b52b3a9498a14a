//! What stands at a key of a table of a file of units.

ghost use Rattle.std.specs.Prelude.{◌≡◌, ◌&&◌, pos, nat_abs, int_le, Ok, Err, option_map};
ghost use Rattle.std.specs.Prelude.{if◌then◌else◌, MatchResult};
ghost use Rattle.unit_toml.specs.FaultTexts.{key_word};
ghost use Rattle.unit_toml.specs.UnitFields.{at_key, boundaries_at, boundaries_of, known_keys, knows_key, name_at, number_at, some_time_at, time_at, time_within};
ghost use Rattle.toml.specs.View.{table_view, view};

use crate::faults::UnitsFault;
use crate::keys::{UnitKey, UnitPlace};
use slot_core::{Name, Part};
use time_texts::time_of;
use toml::{Table, Value};

/// What stands at the key.
pub(crate) fn value_at(table: &Table, key: UnitKey) -> Option<&Value>
    ensures { option_map (λ v. view v.now) result ≡ at_key key (table_view table.now) }
{
    table.get(key.word())
}

/// Whether the key is one that a table of this part knows.
fn knows_key(part: Part, text: &str) -> bool
    ensures { result ≡ knows_key part text.now }
{
    match UnitKey::of(text) {
        Some(key) => knows(part, key),
        None => false,
    }
}

/// Whether a table of this part knows the key.
fn knows(part: Part, key: UnitKey) -> bool
    ensures { result ≡ knows_key part (key_word key) }
{
    match part {
        Part::Top => matches!(
            key,
            UnitKey::Slot | UnitKey::Overhead | UnitKey::Soft | UnitKey::Graph | UnitKey::Sporadic
        ),
        Part::Graph(_) => matches!(
            key,
            UnitKey::Name | UnitKey::Period | UnitKey::Offset | UnitKey::Deadline | UnitKey::Task
        ),
        Part::Task(..) => matches!(key, UnitKey::Name | UnitKey::Wcet | UnitKey::After),
        Part::Sporadic(_) => matches!(
            key,
            UnitKey::Name
                | UnitKey::Wcet
                | UnitKey::Separation
                | UnitKey::Plan
                | UnitKey::Deadline
                | UnitKey::Arrives
        ),
    }
}

/// The number at the key, from `low` to `high`, or `absent` where the key is not there.
pub(crate) fn number_at(
    table: &Table,
    part: Part,
    key: UnitKey,
    low: u32,
    high: u32,
    absent: u32,
) -> Result<u32, UnitsFault>
    ensures { result ≡ number_at (record { part = part; key = key }) low high absent
        (at_key key (table_view table.now)) }
{
    let place = UnitPlace { part, key };
    match value_at(table, key) {
        None => Ok(absent),
        Some(Value::Integer(number)) => in_range(place, low, high, *number),
        Some(_) => Err(UnitsFault::WrongKind(place)),
    }
}

/// The number, where it is from `low` to `high`.
fn in_range(place: UnitPlace, low: u32, high: u32, number: i64) -> Result<u32, UnitsFault>
    ensures { result ≡ (if int_le (pos low) number && int_le number (pos high)
        then Ok (nat_abs number)
        else Err (UnitsFault.OutOfRange place number)) }
{
    if number < i64::from(low) || number > i64::from(high) {
        return Err(UnitsFault::OutOfRange(place, number));
    }
    Ok(number as u32)
}

/// The time at the key, or `absent` where the key is not there.
pub(crate) fn time_at(
    table: &Table,
    part: Part,
    key: UnitKey,
    absent: Option<u64>,
) -> Result<u64, UnitsFault>
    ensures { result ≡ time_at (record { part = part; key = key }) absent
        (at_key key (table_view table.now)) }
{
    let place = UnitPlace { part, key };
    match value_at(table, key) {
        None => absent.ok_or(UnitsFault::Missing(place)),
        Some(Value::String(text)) => time_of(text.as_bytes()).ok_or(UnitsFault::BadTime(place)),
        Some(_) => Err(UnitsFault::WrongKind(place)),
    }
}

/// The time at the key, which is above 0.
pub(crate) fn some_time_at(table: &Table, part: Part, key: UnitKey) -> Result<u64, UnitsFault>
    ensures { result ≡ some_time_at (record { part = part; key = key })
        (at_key key (table_view table.now)) }
{
    let time = time_at(table, part, key, None)?;
    if time == 0 {
        return Err(UnitsFault::OutOfRange(UnitPlace { part, key }, 0));
    }
    Ok(time)
}

/// The time at the key, which is no longer than `most`, or that where the key is not there.
pub(crate) fn time_within(
    table: &Table,
    part: Part,
    key: UnitKey,
    most: u64,
) -> Result<u64, UnitsFault>
    ensures { result ≡ time_within (record { part = part; key = key }) most
        (at_key key (table_view table.now)) }
{
    let time = time_at(table, part, key, Some(most))?;
    if most < time {
        return Err(UnitsFault::TooLong(UnitPlace { part, key }));
    }
    Ok(time)
}

/// The name at the key.
pub(crate) fn name_at(table: &Table, part: Part, key: UnitKey) -> Result<Name, UnitsFault>
    ensures { result ≡ name_at (record { part = part; key = key })
        (at_key key (table_view table.now)) }
{
    let place = UnitPlace { part, key };
    match value_at(table, key) {
        None => Err(UnitsFault::Missing(place)),
        Some(Value::String(text)) => Name::of(text.as_bytes()).ok_or(UnitsFault::BadName(place)),
        Some(_) => Err(UnitsFault::WrongKind(place)),
    }
}

/// Whether arrivals come at boundaries alone, as the word at the key says.
pub(crate) fn boundaries_at(table: &Table, part: Part, key: UnitKey) -> Result<bool, UnitsFault>
    ensures { result ≡ boundaries_at (record { part = part; key = key })
        (at_key key (table_view table.now)) }
{
    let place = UnitPlace { part, key };
    match value_at(table, key) {
        None => Ok(false),
        Some(Value::String(text)) => {
            boundaries_of(text.as_str()).ok_or(UnitsFault::BadWord(place))
        }
        Some(_) => Err(UnitsFault::WrongKind(place)),
    }
}

/// Whether arrivals come at boundaries alone, as the word says.
fn boundaries_of(word: &str) -> Option<bool>
    ensures { result ≡ boundaries_of word.now }
{
    match word {
        "anywhere" => Some(false),
        "boundaries" => Some(true),
        _ => None,
    }
}

/// Refuses a table that has a key which a table of this part does not know.
pub(crate) fn check_keys(table: &Table, part: Part) -> Result<(), UnitsFault>
    ensures { MatchResult result
        (λ _. known_keys part (table_view table.now) ≡ Ok (table_view table.now))
        (λ e. known_keys part (table_view table.now) ≡ Err e) }
{
    for (key, _) in table {
        if !knows_key(part, key.as_str()) {
            return Err(UnitsFault::UnknownKey(part));
        }
    }
    Ok(())
}
