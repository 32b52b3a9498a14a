//! What is told of a whole run.

ghost use Rattle.std.specs.Prelude.{◌≡◌, ◌≤◌, true, []};
ghost use Rattle.slot_core.specs.declared.TheConstants.{CHART_LIMIT, REPLAY_LIMIT};
ghost use Rattle.slot_core.specs.Keeping.Executives.{StandsFor};
ghost use Rattle.slot_core.specs.Output.Charts.{chart_text, tally_text};
ghost use Rattle.slot_core.specs.Output.Texts.{trace_text};
ghost use Rattle.slot_core.specs.Runs.Arrivals.{are_fitting};
ghost use Rattle.slot_core.specs.Runs.Traces.{trace};
ghost use Rattle.gantt_print.specs.Drawings.{empty_chart};
ghost use Rattle.command_line.specs.Writings.{IsWriting};

use arrival_replay::{drive, replay};
use command_line::Refusal;
use gantt_print::Chart;
use interval_row::ChainTable;
use load_gen::Tally;
use slot_core::Arrival;
use slot_exec::Exec;
use slot_io::Sink;
use std::alloc::Global;

/// Drives an executive that has just started, and writes its trace.
pub(crate) fn tell_trace<K: Sink>(
    exec: &mut Exec<ChainTable>,
    arrivals: &[Arrival],
    slots: u32,
    out: &mut K,
) -> Result<(), Refusal>
    requires started { StandsFor exec.old [] }
    requires some { 1 ≤ slots }
    requires few { slots ≤ REPLAY_LIMIT }
    requires fitting { are_fitting exec.old.plan.tasks slots arrivals.now ≡ true }
    ensures { IsWriting K.written K.faults
        (trace_text exec.old.plan.tasks (trace exec.old.plan.tasks arrivals.now slots)) result
        out.old out.new }
{
    replay(exec, arrivals, u64::from(slots), out)?;
    Ok(())
}

/// Drives an executive that has just started, and writes the chart of its trace.
pub(crate) fn draw_trace<K: Sink>(
    alloc: Global,
    exec: &mut Exec<ChainTable>,
    arrivals: &[Arrival],
    slots: u32,
    out: &mut K,
) -> Result<(), Refusal>
    requires started { StandsFor exec.old [] }
    requires some { 1 ≤ slots }
    requires few { slots ≤ CHART_LIMIT }
    requires fitting { are_fitting exec.old.plan.tasks slots arrivals.now ≡ true }
    ensures { IsWriting K.written K.faults
        (chart_text exec.old.plan.tasks slots (trace exec.old.plan.tasks arrivals.now slots)) result
        out.old out.new }
{
    let mut chart = Chart::with_room(alloc, exec.tasks(), slots)?;
    fill_chart(exec, arrivals, slots, &mut chart, out)
}

/// Drives an executive that has just started, draws what runs into an empty chart, and writes it.
fn fill_chart<K: Sink>(
    exec: &mut Exec<ChainTable>,
    arrivals: &[Arrival],
    slots: u32,
    chart: &mut Chart,
    out: &mut K,
) -> Result<(), Refusal>
    requires started { StandsFor exec.old [] }
    requires some { 1 ≤ slots }
    requires few { slots ≤ CHART_LIMIT }
    requires fitting { are_fitting exec.old.plan.tasks slots arrivals.now ≡ true }
    requires empty { chart.old ≡ empty_chart exec.old.plan.tasks slots }
    ensures { IsWriting K.written K.faults
        (chart_text exec.old.plan.tasks slots (trace exec.old.plan.tasks arrivals.now slots)) result
        out.old out.new }
{
    drive(exec, arrivals, u64::from(slots), chart)?;
    chart.print(exec.tasks(), out)?;
    Ok(())
}

/// Drives an executive that has just started, and writes the line of the counts of its trace.
pub(crate) fn count_trace<K: Sink>(
    exec: &mut Exec<ChainTable>,
    arrivals: &[Arrival],
    n: u32,
    slots: u32,
    out: &mut K,
) -> Result<(), Refusal>
    requires started { StandsFor exec.old [] }
    requires some { 1 ≤ slots }
    requires few { slots ≤ REPLAY_LIMIT }
    requires fitting { are_fitting exec.old.plan.tasks slots arrivals.now ≡ true }
    ensures { IsWriting K.written K.faults
        (tally_text n slots (trace exec.old.plan.tasks arrivals.now slots)) result
        out.old out.new }
{
    let mut tally = Tally::new();
    drive(exec, arrivals, u64::from(slots), &mut tally)?;
    out.put(tally.line(n, slots).bytes())?;
    Ok(())
}
