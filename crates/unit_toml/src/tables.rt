//! Arrays of a file of units: tables, and texts.

ghost use Rattle.std.specs.Prelude.{◌≡◌, ◌≤◌, ◌++◌, [], ◌∷◌, length, map, min, nat_lt, true, false};
ghost use Rattle.std.specs.Prelude.{IfOk, IfErr, OnOk, MatchResult};
ghost use Rattle.slot_core.specs.declared.TheConstants.{NUMBER_LIMIT};
ghost use Rattle.unit_toml.specs.Reading.{all_tables, all_texts};
ghost use Rattle.unit_toml.specs.Reading.{items_at, tables_at, some_tables_at, texts_at};
ghost use Rattle.unit_toml.specs.UnitFields.{AnswersAs, at_key, or_fault};
ghost use Rattle.toml.specs.View.{items_view, table_view};

use crate::faults::UnitsFault;
use crate::fields::value_at;
use crate::keys::{UnitKey, UnitPlace};
use slot_core::{List, Part};
use std::alloc::Global;
use toml::{Table, Value};

/// The items as tables.
fn all_tables<'a>(
    alloc: Global,
    place: UnitPlace,
    items: &'a [Value],
) -> Result<List<&'a Table>, UnitsFault>
    ensures { AnswersAs (map (λ t. table_view t.now)) result
        (or_fault (UnitsFault.WrongKind place) (all_tables (items_view items.now))) }
{
    let mut tables = List::new(alloc);
    for item in items {
        let Value::Table(table) = item else {
            return Err(UnitsFault::WrongKind(place));
        };
        tables.push(table)?;
    }
    Ok(tables)
}

/// The items as texts.
fn all_texts<'a>(
    alloc: Global,
    place: UnitPlace,
    items: &'a [Value],
) -> Result<List<&'a str>, UnitsFault>
    ensures { AnswersAs (map (λ t. t.now)) result
        (or_fault (UnitsFault.WrongKind place) (all_texts (items_view items.now))) }
{
    let mut texts = List::new(alloc);
    for item in items {
        let Value::String(text) = item else {
            return Err(UnitsFault::WrongKind(place));
        };
        texts.push(text.as_str())?;
    }
    Ok(texts)
}

/// Refuses a count above the limit.
fn check_count(place: UnitPlace, limit: usize, count: usize) -> Result<(), UnitsFault>
    ensures { MatchResult result
        (λ _. nat_lt limit count ≡ false)
        (λ e. (nat_lt limit count ≡ true)
        × (e ≡ UnitsFault.TooMany place (min count NUMBER_LIMIT))) }
{
    if limit < count {
        let told = u32::try_from(count).unwrap_or(u32::MAX);
        return Err(UnitsFault::TooMany(place, told));
    }
    Ok(())
}

/// The items of the array at the key; none where the key is not there.
fn items_at<'a>(table: &'a Table, part: Part, key: UnitKey) -> Result<&'a [Value], UnitsFault>
    ensures { AnswersAs (λ items. items_view items.now) result
        (items_at (record { part = part; key = key }) (at_key key (table_view table.now))) }
{
    match value_at(table, key) {
        None => Ok(&[]),
        Some(Value::Array(items)) => Ok(items),
        Some(_) => Err(UnitsFault::WrongKind(UnitPlace { part, key })),
    }
}

/// The tables of the array at the key, at most `limit` of them; none where the key is not there.
pub(crate) fn tables_at<'a>(
    alloc: Global,
    table: &'a Table,
    part: Part,
    key: UnitKey,
    limit: usize,
) -> Result<List<&'a Table>, UnitsFault>
    ensures reading { AnswersAs (map (λ t. table_view t.now)) result
        (tables_at (record { part = part; key = key }) limit
        (at_key key (table_view table.now))) }
    ensures limit { IfOk result (λ tables. length tables ≤ limit) }
{
    let place = UnitPlace { part, key };
    let tables = all_tables(alloc, place, items_at(table, part, key)?)?;
    check_count(place, limit, tables.len())?;
    Ok(tables)
}

/// The tables of the array at the key, 1 to `limit` of them.
pub(crate) fn some_tables_at<'a>(
    alloc: Global,
    table: &'a Table,
    part: Part,
    key: UnitKey,
    limit: usize,
) -> Result<List<&'a Table>, UnitsFault>
    ensures reading { AnswersAs (map (λ t. table_view t.now)) result
        (some_tables_at (record { part = part; key = key }) limit
        (at_key key (table_view table.now))) }
    ensures limit { IfOk result (λ tables. length tables ≤ limit) }
{
    let tables = tables_at(alloc, table, part, key, limit)?;
    if tables.is_empty() {
        return Err(UnitsFault::Missing(UnitPlace { part, key }));
    }
    Ok(tables)
}

/// The texts of the array at the key, at most `limit` of them; none where the key is not there.
pub(crate) fn texts_at<'a>(
    alloc: Global,
    table: &'a Table,
    part: Part,
    key: UnitKey,
    limit: usize,
) -> Result<List<&'a str>, UnitsFault>
    ensures reading { AnswersAs (map (λ t. t.now)) result
        (texts_at (record { part = part; key = key }) limit
        (at_key key (table_view table.now))) }
    ensures limit { IfOk result (λ texts. length texts ≤ limit) }
{
    let place = UnitPlace { part, key };
    let texts = all_texts(alloc, place, items_at(table, part, key)?)?;
    check_count(place, limit, texts.len())?;
    Ok(texts)
}
