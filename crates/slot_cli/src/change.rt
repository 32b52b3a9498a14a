//! A change of plan, whose text is written in two parts.

ghost use Rattle.std.specs.Prelude.{◌≡◌, ◌≤◌, ◌<◌, ◌%◌, [], true, All};
ghost use Rattle.slot_core.specs.declared.TheConstants.{REPLAY_LIMIT};
ghost use Rattle.slot_core.specs.Keeping.Executives.{StandsFor};
ghost use Rattle.slot_core.specs.declared.jobs.Job.{Job};
ghost use Rattle.slot_core.specs.Runs.Arrivals.{are_fitting, key_in_set};
ghost use Rattle.slot_core.specs.Runs.Histories.{History};
ghost use Rattle.command_line.specs.Writings.{IsPartWriting, IsRestWriting, IsWriting};
ghost use Rattle.mode_switch.specs.Texts.{change_text};
ghost use Rattle.command_line.specs.declared.commands.Output.{Output};
ghost use Rattle.slot_cli.specs.Changed.{carried_after, change_due, changed};
ghost use Rattle.slot_cli.specs.Due.{output_due};

use arrival_replay::replay;
use command_line::Refusal;
use cycle_plan::Plan;
use interval_row::ChainTable;
use mode_switch::{Change, ChangeFault, put_change};
use slot_core::{Arrival, TaskSet};
use slot_exec::Exec;
use slot_io::Sink;
use std::alloc::Global;

/// Writes the trace of the plan with these arrivals, and then the run up to the time `until` after
/// a change to the second plan. Both parts take their memory before their first put.
pub(crate) fn change_plan<K: Sink>(
    alloc: Global,
    plan: Plan,
    second: Option<Plan>,
    arrivals: &[Arrival],
    slots: u32,
    until: u32,
    out: &mut K,
) -> Result<(), Refusal>
    requires some { 1 ≤ slots }
    requires before { slots < until }
    requires few { until ≤ REPLAY_LIMIT }
    requires turn { slots % plan.cycle ≡ 0 }
    requires fitting { are_fitting plan.tasks slots arrivals.now ≡ true }
    ensures { IsPartWriting K.written K.faults true
        (output_due (Output.Change until) slots plan second arrivals.now) result out.old out.new }
{
    match second {
        Some(other) => change_to(alloc, plan, other, arrivals, slots, until, out),
        None => Ok(()),
    }
}

/// The same for a second plan that there is.
fn change_to<K: Sink>(
    alloc: Global,
    plan: Plan,
    second: Plan,
    arrivals: &[Arrival],
    slots: u32,
    until: u32,
    out: &mut K,
) -> Result<(), Refusal>
    requires some { 1 ≤ slots }
    requires before { slots < until }
    requires few { until ≤ REPLAY_LIMIT }
    requires turn { slots % plan.cycle ≡ 0 }
    requires fitting { are_fitting plan.tasks slots arrivals.now ≡ true }
    ensures { IsPartWriting K.written K.faults true (changed plan second arrivals.now slots until)
        result out.old out.new }
{
    let mut exec = Exec::start(alloc, plan)?;
    tell_change(alloc, &mut exec, second, arrivals, slots, until, out)
}

/// Drives an executive that has just started, writes its trace, and changes to the second plan.
fn tell_change<K: Sink>(
    alloc: Global,
    exec: &mut Exec<ChainTable>,
    second: Plan,
    arrivals: &[Arrival],
    slots: u32,
    until: u32,
    out: &mut K,
) -> Result<(), Refusal>
    requires started { StandsFor exec.old [] }
    requires some { 1 ≤ slots }
    requires before { slots < until }
    requires few { until ≤ REPLAY_LIMIT }
    requires turn { slots % exec.old.plan.cycle ≡ 0 }
    requires fitting { are_fitting exec.old.plan.tasks slots arrivals.now ≡ true }
    ensures { IsPartWriting K.written K.faults true
        (changed exec.old.plan second arrivals.now slots until) result out.old out.new }
{
    replay(exec, arrivals, u64::from(slots), out)?;
    put_rest(alloc, exec, second, until, out)
}

/// Changes from an executive to the second plan, and writes the run after it.
fn put_rest<K: Sink>(
    alloc: Global,
    exec: &Exec<ChainTable>,
    second: Plan,
    until: u32,
    out: &mut K,
) -> Result<(), Refusal>
    requires some { 0 < exec.now.scene.time }
    requires before { exec.now.scene.time < until }
    requires few { until ≤ REPLAY_LIMIT }
    requires turn { exec.now.scene.time % exec.now.plan.cycle ≡ 0 }
    ensures { (h : History) → StandsFor exec.now h → IsRestWriting K.written K.faults
        (change_due exec.now.plan second exec.now.scene.time (carried_after exec.now.plan h) until)
        result out.old out.new }
{
    match Change::open(alloc, exec, second) {
        Ok(mut change) => put_run(&mut change, exec.tasks(), until, out),
        Err(ChangeFault::Memory) => Err(Refusal::Memory),
        Err(ChangeFault::NoRoom(evidence)) => Err(Refusal::NoChange(evidence)),
    }
}

/// Writes the run after a change that has just been granted.
fn put_run<K: Sink>(
    change: &mut Change,
    first: &TaskSet,
    until: u32,
    out: &mut K,
) -> Result<(), Refusal>
    requires fresh { change.old.passed ≡ 0 }
    requires before { change.old.at ≤ until }
    requires few { until ≤ REPLAY_LIMIT }
    requires named { All (λ (j : Job). key_in_set first.now j.key ≡ true) change.old.carried }
    ensures { IsWriting K.written K.faults
        (change_text first.now change.old.plan.tasks change.old.at change.old.carried until) result
        out.old out.new }
{
    put_change(change, first, u64::from(until), out)?;
    Ok(())
}
