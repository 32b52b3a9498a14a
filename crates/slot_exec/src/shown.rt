//! The spans that an executive shows.

ghost use Rattle.std.specs.Prelude.{◌≡◌, ◌+◌, ◌-◌, ◌≤◌, length, take};
ghost use Rattle.slot_core.specs.declared.TheConstants.{SHOWN_LIMIT};

use interval_row::SpareTable;
use slot_core::{SHOWN_LIMIT, Shown, Steps};
use std::sync::ledger::Ledger;

/// The first spans, as many as an entry shows or all, and the number of the others.
pub(crate) fn first_spans<T: SpareTable, L: Ledger>(table: &T, steps: &mut Steps<L>) -> Shown
    ensures shown { result
        ≡ record {
          spans = take SHOWN_LIMIT (T.spans table.now);
          more = length (T.spans table.now) - SHOWN_LIMIT;
        } }
    ensures steps { steps.old ≤ steps.new }
    ensures few_steps { steps.new ≤ steps.old + SHOWN_LIMIT }
{
    let count = table.count();
    let mut shown = Shown::new(count.saturating_sub(SHOWN_LIMIT as u32));
    for index in 0..count.min(SHOWN_LIMIT as u32) {
        shown.push(table.read(table.spot(index), steps));
    }
    shown
}
