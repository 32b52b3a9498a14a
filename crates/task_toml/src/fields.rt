//! What stands at a key of a table of the task file.

ghost use Rattle.std.specs.Prelude.{◌≡◌, ◌≤◌, ◌&&◌, pos, nat_abs, int_le, Ok, Err, option_map};
ghost use Rattle.std.specs.Prelude.{if◌then◌else◌, IfOk, MatchResult};
ghost use Rattle.std.specs.Option.{ForSome};
ghost use Rattle.slot_core.specs.Output.FaultTexts.{field_word};
ghost use Rattle.task_toml.specs.TomlFields.{known_keys, knows_key, number_at, name_at, at_key};
ghost use Rattle.toml.specs.View.{table_view, view};

use slot_core::{Field, Name, Part, Place, TaskFault};
use toml::{Table, Value};

/// What stands at the key.
pub(crate) fn value_at(table: &Table, field: Field) -> Option<&Value>
    ensures { option_map (λ v. view v.now) result ≡ at_key field (table_view table.now) }
{
    table.get(field.word())
}

/// Whether the key is one that a table of this part knows.
fn knows_key(part: Part, key: &str) -> bool
    ensures { result ≡ knows_key part key.now }
{
    match Field::of(key) {
        Some(field) => knows_field(part, field),
        None => false,
    }
}

/// Whether the field is one that a table of this part knows.
fn knows_field(part: Part, field: Field) -> bool
    ensures { result ≡ knows_key part (field_word field) }
{
    match part {
        Part::Top => matches!(field, Field::Soft | Field::Graph | Field::Sporadic),
        Part::Graph(_) => matches!(
            field,
            Field::Name | Field::Period | Field::Offset | Field::Deadline | Field::Task
        ),
        Part::Task(..) => matches!(field, Field::Name | Field::Wcet | Field::After),
        Part::Sporadic(_) => matches!(
            field,
            Field::Name | Field::Wcet | Field::Separation | Field::Deadline
        ),
    }
}

/// The number at the key, from `low` to `high`, or `absent` where the key is not there.
pub(crate) fn number_at(
    table: &Table,
    part: Part,
    field: Field,
    low: u32,
    high: u32,
    absent: Option<u32>,
) -> Result<u32, TaskFault>
    requires { ForSome absent (λ n. (low ≤ n) × (n ≤ high)) }
    ensures reading { result ≡ number_at (record { part = part; field = field }) low high absent
        (at_key field (table_view table.now)) }
    ensures range { IfOk result (λ n. (low ≤ n) × (n ≤ high)) }
{
    let place = Place { part, field };
    match value_at(table, field) {
        None => absent.ok_or(TaskFault::Missing(place)),
        Some(Value::Integer(number)) => in_range(place, low, high, *number),
        Some(_) => Err(TaskFault::WrongKind(place)),
    }
}

/// The number, where it is from `low` to `high`.
fn in_range(place: Place, low: u32, high: u32, number: i64) -> Result<u32, TaskFault>
    ensures range { IfOk result (λ n. (low ≤ n) × (n ≤ high)) }
    ensures reading { result ≡ (if int_le (pos low) number && int_le number (pos high)
        then Ok (nat_abs number)
        else Err (TaskFault.OutOfRange place number)) }
{
    if number < i64::from(low) || number > i64::from(high) {
        return Err(TaskFault::OutOfRange(place, number));
    }
    Ok(number as u32)
}

/// The name at the key.
pub(crate) fn name_at(table: &Table, part: Part, field: Field) -> Result<Name, TaskFault>
    ensures { result ≡ name_at (record { part = part; field = field })
        (at_key field (table_view table.now)) }
{
    let place = Place { part, field };
    match value_at(table, field) {
        None => Err(TaskFault::Missing(place)),
        Some(Value::String(text)) => Name::of(text.as_bytes()).ok_or(TaskFault::BadName(place)),
        Some(_) => Err(TaskFault::WrongKind(place)),
    }
}

/// Refuses a table that has a key which a table of this part does not know.
pub(crate) fn check_keys(table: &Table, part: Part) -> Result<(), TaskFault>
    ensures { MatchResult result
        (λ _. known_keys part (table_view table.now) ≡ Ok (table_view table.now))
        (λ e. known_keys part (table_view table.now) ≡ Err e) }
{
    for (key, _) in table {
        if !knows_key(part, key.as_str()) {
            return Err(TaskFault::UnknownKey(part));
        }
    }
    Ok(())
}
