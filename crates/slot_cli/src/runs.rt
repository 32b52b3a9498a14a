//! What is written of the run of an executive: its trace, the chart or the counts of it, or one
//! row.

ghost use Rattle.std.specs.Prelude.{◌≡◌, true, []};
ghost use Rattle.slot_core.specs.Keeping.Executives.{StandsFor};
ghost use Rattle.slot_core.specs.Runs.Arrivals.{are_fitting};
ghost use Rattle.command_line.specs.Writings.{IsPartWriting};
ghost use Rattle.command_line.specs.Commands.{tells_in_parts, IsRunOutputInRange};
ghost use Rattle.slot_cli.specs.RunTexts.{run_writing, HasRow};

use crate::rows::tell_row;
use crate::traces::{count_trace, draw_trace, tell_trace};
use command_line::{Refusal, RunOutput};
use cycle_plan::Plan;
use interval_row::ChainTable;
use slot_core::Arrival;
use slot_exec::Exec;
use slot_io::Sink;
use std::alloc::Global;

/// Writes this of the run of the plan with these arrivals over this many slots. The executive takes
/// all its memory when it starts, and each part of the text takes its own before its first put.
pub(crate) fn write_run<K: Sink>(
    alloc: Global,
    output: RunOutput,
    slots: u32,
    plan: Plan,
    arrivals: &[Arrival],
    out: &mut K,
) -> Result<(), Refusal>
    requires in_range { IsRunOutputInRange slots output }
    requires fitting { are_fitting plan.tasks slots arrivals.now ≡ true }
    requires there { HasRow output arrivals.now }
    ensures { IsPartWriting K.written K.faults (tells_in_parts output)
        (run_writing output slots plan arrivals.now) result out.old out.new }
{
    let mut exec = Exec::start(alloc, plan)?;
    tell_run(alloc, &mut exec, output, slots, arrivals, out)
}

/// The same with an executive that has just started.
fn tell_run<K: Sink>(
    alloc: Global,
    exec: &mut Exec<ChainTable>,
    output: RunOutput,
    slots: u32,
    arrivals: &[Arrival],
    out: &mut K,
) -> Result<(), Refusal>
    requires started { StandsFor exec.old [] }
    requires in_range { IsRunOutputInRange slots output }
    requires fitting { are_fitting exec.old.plan.tasks slots arrivals.now ≡ true }
    requires there { HasRow output arrivals.now }
    ensures { IsPartWriting K.written K.faults (tells_in_parts output)
        (run_writing output slots exec.old.plan arrivals.now) result out.old out.new }
{
    match output {
        RunOutput::Trace => tell_trace(exec, arrivals, slots, out),
        RunOutput::Chart => draw_trace(alloc, exec, arrivals, slots, out),
        RunOutput::Tally(n) => count_trace(exec, arrivals, n, slots, out),
        RunOutput::Explanation(row) => tell_row(alloc, exec, arrivals, slots, row, out),
    }
}
