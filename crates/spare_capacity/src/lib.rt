//! Spare capacities of consecutive spans (Fohler 1995; Isovic and Fohler 2000).
//!
//! All times, lengths and works are in slots.
#![tactic(auto)]

ghost use Rattle.std.specs.Prelude.{◌≡◌, ◌+◌, ◌≤◌, ◌<◌, ◌^◌, ◌++◌, length, take, drop, pos, neg_ℤ, ◌≤ℤ◌};
ghost use Rattle.slot_core.specs.declared.jobs.Span.{Span};
ghost use Rattle.spare_capacity.specs.Recurrence.{filled, first_spare, with_spare, AreConsecutive};
ghost use Rattle.spare_capacity.specs.Refill.{refilled, CanRefill, IsShort};

mod deadlines;
pub mod laws;

pub use deadlines::{available, free_until};
use slot_core::Span;

/// Sets each `spare` by the recurrence, from the last span to the first, and leaves the rest. A
/// span's capacity is its slots less its work, less what the span after it lacks.
///
/// Lengths and works are at most 2^40 slots, and there are at most 2^20 spans.
pub fn fill(rows: &mut [Span])
    requires consecutive { AreConsecutive rows.old }
    requires few { length rows.old ≤ 2 ^ 20 }
    ensures { rows.new ≡ filled rows.old }
{
    fill_front(rows, rows.len());
}

/// Sets the `spare` of the first `count` spans by the recurrence, where the others have theirs
/// already.
pub fn fill_front(rows: &mut [Span], count: usize)
    requires consecutive { AreConsecutive rows.old }
    requires few { length rows.old ≤ 2 ^ 20 }
    requires later { drop count rows.old ≡ filled (drop count rows.old) }
    ensures { rows.new ≡ filled rows.old }
{
    for at in (0..count.min(rows.len())).rev() {
        refill(rows, at);
    }
}

/// Sets the capacity of the row at this place by that of the row after it.
fn refill(rows: &mut [Span], at: usize)
    requires within { at < length rows.old }
    requires short { CanRefill (drop at rows.old) }
    ensures { rows.new ≡ take at rows.old ++ refilled (drop at rows.old) }
{
    let later = spare_from(rows, at + 1);
    rows[at] = with_spare(rows[at], later);
}

/// The capacity of the row at this place, or 0 where there is none.
fn spare_from(rows: &[Span], at: usize) -> i64
    ensures { result ≡ first_spare (drop at rows.now) }
{
    if at < rows.len() { rows[at].spare } else { 0 }
}

/// The row with its capacity, where the row after it has this one.
pub fn with_spare(row: Span, later: i64) -> Span
    requires short { IsShort row }
    requires borrows_few { neg_ℤ (pos (2 ^ 61)) ≤ℤ later }
    ensures { result ≡ with_spare row later }
{
    let slots = row.end - row.start;
    Span {
        spare: (slots as i64 - row.work as i64) + later.min(0),
        ..row
    }
}
