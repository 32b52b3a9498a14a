//! The lines of all lengths of a slot.

ghost use Rattle.std.specs.Prelude.{◌≡◌, true, flat_map, map, IfOk, IsPermutation};
ghost use Rattle.std.specs.List.Sorted.{IsNonDecreasingBy};
ghost use Rattle.clock_units.specs.Derived.{is_shaped};
ghost use Rattle.slot_lengths.specs.declared.checks.LengthRow.{LengthRow};
ghost use Rattle.slot_lengths.specs.Checks.{row_of};
ghost use Rattle.slot_lengths.specs.Lengths.{slot_lengths};
ghost use Rattle.slot_lengths.specs.Lines.{row_line, IsLengthsText};

use crate::checks::{LengthRow, row_at};
use crate::lengths::slot_lengths;
use crate::lines::push_row;
use clock_units::PhysicalSet;
use slot_core::{List, Memory};
use std::alloc::Global;

/// A line for each length of a slot from `from` to `to` nanoseconds that divides all periods: first
/// those whose set fits, by the share of the cycle that is needed, and then the others. Of those with
/// one share, and of the others, the longest comes first. The set stays as it is.
pub fn lengths_text(
    alloc: Global,
    set: &mut PhysicalSet,
    from: u64,
    to: u64,
) -> Result<Vec<u8>, Memory>
    requires { is_shaped set.old ≡ true }
    ensures { IfOk result (λ text. IsLengthsText from to set.old text.items) }
{
    let rows = ordered_rows(alloc, set, from, to)?;
    text_of(alloc, &rows)
}

/// The rows in their order.
fn ordered_rows(
    alloc: Global,
    set: &mut PhysicalSet,
    from: u64,
    to: u64,
) -> Result<Vec<LengthRow>, Memory>
    requires { is_shaped set.old ≡ true }
    ensures all { IfOk result (λ rows.
        IsPermutation (map (row_of set.old) (slot_lengths from to set.old.graphs)) rows.items) }
    ensures ordered { IfOk result (λ rows.
        IsNonDecreasingBy (λ (row : LengthRow). row.place) rows.items) }
{
    let rows = rows_between(alloc, set, from, to)?;
    sorted(rows)
}

/// The rows of all lengths, the longest first.
fn rows_between(
    alloc: Global,
    set: &mut PhysicalSet,
    from: u64,
    to: u64,
) -> Result<Vec<LengthRow>, Memory>
    requires { is_shaped set.old ≡ true }
    ensures { IfOk result (λ rows.
        rows.items ≡ map (row_of set.old) (slot_lengths from to set.old.graphs)) }
{
    let lengths = slot_lengths(alloc, set.graphs.items(), from, to)?;
    rows_of(alloc, set, lengths.items())
}

/// The rows by their places.
fn sorted(rows: Vec<LengthRow>) -> Result<Vec<LengthRow>, Memory>
    ensures all { IfOk result (λ sorted. IsPermutation rows.items sorted.items) }
    ensures ordered { IfOk result (λ sorted.
        IsNonDecreasingBy (λ (row : LengthRow). row.place) sorted.items) }
{
    let mut rows = rows;
    rows.sort_by_key(|row: &LengthRow| row.place)?;
    Ok(rows)
}

/// The rows of these lengths.
fn rows_of(alloc: Global, set: &mut PhysicalSet, lengths: &[u64]) -> Result<Vec<LengthRow>, Memory>
    requires { is_shaped set.old ≡ true }
    ensures { IfOk result (λ rows. rows.items ≡ map (row_of set.old) lengths.now) }
{
    let mut rows = Vec::new(alloc);
    for slot in lengths {
        rows.push(row_at(alloc, set, *slot)?)?;
    }
    Ok(rows)
}

/// The lines of these rows.
fn text_of(alloc: Global, rows: &[LengthRow]) -> Result<Vec<u8>, Memory>
    ensures { IfOk result (λ text. text.items ≡ flat_map row_line rows.now) }
{
    let mut text = Vec::new(alloc);
    for row in rows {
        push_row(alloc, &mut text, *row)?;
    }
    Ok(text)
}
