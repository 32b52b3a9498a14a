//! How a control unit in Rattle calls the executive: it opens a table, offers work, lets slots pass
//! and reads spans.

ghost use Rattle.std.specs.Prelude.{◌≡◌, ◌+◌, ◌≤◌, ◌<◌, IfOk, Some, slice_get};
ghost use Rattle.slot_core.specs.declared.TheConstants.{TIME_LIMIT};
ghost use Rattle.slot_core.specs.declared.events.Event.{Event};
ghost use Rattle.slot_core.specs.declared.events.What.{What};
ghost use Rattle.slot_core.specs.Keeping.Executives.{Does, StandsFor};
ghost use Rattle.slot_core.specs.Runs.Spans.{spans_of};
ghost use Rattle.slot_core.specs.Runs.Traces.{arrive, started};
ghost use Rattle.table_codec.specs.Grammar.{Spells};

use interval_row::ChainTable;
use slot_core::{Firm, Span, Steps};
use slot_exec::Exec;
use std::alloc::Global;
use std::sync::ledger::Ledger;
use table_codec::{TableFault, decode};

/// Opens the plan of a table, before its first slot.
pub fn open(alloc: Global, table: &[u8]) -> Result<Exec<ChainTable>, TableFault>
    ensures spelled { IfOk result (λ exec. Spells table.now exec.plan) }
    ensures started { IfOk result (λ exec. StandsFor exec started) }
{
    let plan = decode(alloc, table)?;
    Ok(Exec::start(alloc, plan)?)
}

/// Offers a diagnosis of 9 slots within 20, in this row.
pub fn diagnose<L: Ledger>(exec: &mut Exec<ChainTable>, row: u32, steps: &mut Steps<L>) -> Firm
    requires { exec.old.last_row < row }
    ensures { Does exec.old exec.new (arrive row (Event.Firm 9 20)) (What.Firm row 9 20 result) }
{
    exec.firm(row, 9, 20, steps)
}

/// Lets this many slots pass.
pub fn pass<L: Ledger>(exec: &mut Exec<ChainTable>, count: u32, steps: &mut Steps<L>)
    requires { exec.old.scene.time + count ≤ TIME_LIMIT }
    ensures { exec.new.scene.time ≡ exec.old.scene.time + count }
{
    for _passed in 0..count {
        exec.slot(steps);
    }
}

/// The first span ahead. There always is one.
pub fn first_span<L: Ledger>(exec: &Exec<ChainTable>, steps: &mut Steps<L>) -> Span
    ensures { slice_get (spans_of exec.now.plan.cycle exec.now.scene) 0 ≡ Some result }
{
    // (so that the prover knows what every executive is)
    let _count = exec.span_count();
    exec.span(0, steps)
}
