//! The work of the commands.

ghost use Rattle.std.specs.Prelude.{◌≡◌, true, Some};
ghost use Rattle.slot_core.specs.Runs.Arrivals.{are_fitting};
ghost use Rattle.command_line.specs.Writings.{IsPartWriting};
ghost use Rattle.command_line.specs.Commands.{command_of, writes_in_parts, IsInRange, IsOutputInRange};
ghost use Rattle.slot_cli.specs.Due.{output_due, MayBeWritten};
ghost use Rattle.slot_cli.specs.Work.{IsWork};

use crate::change::change_plan;
use crate::runs::write_run;
use command_line::{Command, Output, Refusal, command_of};
use cycle_plan::Plan;
use plan_reports::write_plan;
use run_steps::{arrivals_from, check_arrivals, plan_from, second_from};
use slot_core::{Arrival, Words};
use slot_io::{Files, Sink};
use std::alloc::Global;

/// Does the work that the words ask for.
pub(crate) fn work<F: Files, K: Sink>(
    alloc: Global,
    words: &Words,
    files: &mut F,
    out: &mut K,
) -> Result<(), Refusal>
    ensures { IsWork F.held F.faults F.blamed F.given K.written K.faults files.old files.new
        out.old out.new words.now (command_of words.now) result }
{
    match command_of(words) {
        Some(command) => carry_out(alloc, words, files, command, out),
        None => Err(Refusal::Usage),
    }
}

/// Does the work of a command: makes the plans, gathers the arrivals, checks, and writes.
fn carry_out<F: Files, K: Sink>(
    alloc: Global,
    words: &Words,
    files: &mut F,
    command: Command,
    out: &mut K,
) -> Result<(), Refusal>
    requires { IsInRange command }
    ensures { IsWork F.held F.faults F.blamed F.given K.written K.faults files.old files.new
        out.old out.new words.now (Some command) result }
{
    let plan = plan_from(alloc, words, files, command.source)?;
    let second = second_from(alloc, words, files, command.second)?;
    let arrivals = arrivals_from(alloc, words, files, command.arrivals, plan.tasks())?;
    let slots = command.arrivals.slots();
    let rows = arrivals.as_slice();
    check_arrivals(alloc, words, files, command.check, slots, &plan, rows)?;
    write(alloc, command.output, slots, plan, second, rows, out)
}

/// Writes this of the plans and the arrivals, over this many slots. All memory of a part is taken
/// before its first put.
fn write<K: Sink>(
    alloc: Global,
    output: Output,
    slots: u32,
    plan: Plan,
    second: Option<Plan>,
    arrivals: &[Arrival],
    out: &mut K,
) -> Result<(), Refusal>
    requires in_range { IsOutputInRange slots output }
    requires fitting { are_fitting plan.tasks slots arrivals.now ≡ true }
    requires checked { MayBeWritten output slots plan arrivals.now }
    ensures { IsPartWriting K.written K.faults (writes_in_parts output)
        (output_due output slots plan second arrivals.now) result out.old out.new }
{
    match output {
        Output::OfPlan(output) => write_plan(alloc, output, slots, &plan, arrivals, out),
        Output::OfRun(output) => write_run(alloc, output, slots, plan, arrivals, out),
        Output::Change(until) => change_plan(alloc, plan, second, arrivals, slots, until, out),
    }
}
