//! What is written of a plan and of a recorded trace, without an executive. Each call takes all its
//! memory before the first put.
#![tactic(auto)]

ghost use Rattle.std.specs.Prelude.{◌≡◌, ◌≤◌, ◌++◌, ◌∷◌, [], true, codes, length, flat_map, All, IfOk, OnErr, OnOk};
ghost use Rattle.std.specs.Io.KnownBytes.{Appends};
ghost use Rattle.slot_core.specs.declared.jobs.Job.{Job};
ghost use Rattle.slot_core.specs.Runs.Arrivals.{are_fitting, key_in_set};
ghost use Rattle.slot_core.specs.Calls.Counts.{Rose};
ghost use Rattle.slot_core.specs.Output.Reports.{check_line, counts_line, job_line, plan_line, show_text, span_line};
ghost use Rattle.slot_core.specs.Output.Texts.{worded};
ghost use Rattle.slot_core.specs.declared.TheConstants.{ARRIVAL_LIMIT, REPLAY_LIMIT};
ghost use Rattle.slot_io.specs.Sinks.{AppendsPart};
ghost use Rattle.table_codec.specs.Grammar.{spelling};
ghost use Rattle.command_line.specs.Writings.{IsWriting};
ghost use Rattle.command_line.specs.Commands.{IsPlanOutputInRange};
ghost use Rattle.plan_reports.specs.Lines.{verified_line};
ghost use Rattle.plan_reports.specs.MarginLines.{margin_text};
ghost use Rattle.plan_reports.specs.Texts.{plan_text};

mod margins;

use command_line::append::{push, push_worded};
use command_line::{PlanOutput, Refusal};
use cycle_plan::Plan;
use margin_find::find_margins;
use margins::put_margins;
use slot_core::{Arrival, Failed, Job, Memory, Span, TaskSet};
use slot_io::Sink;
use std::alloc::Global;
use trace_text::{Line, job_line, span_line};

/// Writes this of the plan, and of these arrivals over this many slots.
pub fn write_plan<K: Sink>(
    alloc: Global,
    output: PlanOutput,
    slots: u32,
    plan: &Plan,
    arrivals: &[Arrival],
    out: &mut K,
) -> Result<(), Refusal>
    requires in_range { IsPlanOutputInRange slots output }
    requires fitting { are_fitting plan.now.tasks slots arrivals.now ≡ true }
    ensures { IsWriting K.written K.faults (plan_text output slots plan.now arrivals.now) result
        out.old out.new }
{
    match output {
        PlanOutput::Counts => check_plan(alloc, plan, out),
        PlanOutput::Table => write_table(alloc, plan, out),
        PlanOutput::Listing => show_plan(alloc, plan, out),
        PlanOutput::Margins => write_margins(alloc, plan, out),
        PlanOutput::Lines => put_lines(slots, arrivals, out),
    }
}

/// Writes the numbers of the plan, in one put.
fn check_plan<K: Sink>(alloc: Global, plan: &Plan, out: &mut K) -> Result<(), Refusal>
    ensures { IsWriting K.written K.faults (check_line plan.now.tasks) result out.old out.new }
{
    let line = check_line(alloc, plan)?;
    out.put(line.as_slice())?;
    Ok(())
}

/// The line of a check: the cycle in slots, and the numbers of jobs and spans of one cycle.
fn check_line(alloc: Global, plan: &Plan) -> Result<Vec<u8>, Memory>
    ensures { IfOk result (λ line. line.items ≡ check_line plan.now.tasks) }
{
    let jobs = plan.jobs().len();
    let spans = plan.spans().len();
    counts_line(alloc, plan.cycle(), jobs as u64, spans as u64)
}

/// The line of these numbers.
fn counts_line(alloc: Global, cycle: u32, jobs: u64, spans: u64) -> Result<Vec<u8>, Memory>
    ensures { IfOk result (λ line. line.items ≡ counts_line cycle jobs spans) }
{
    let mut line = Vec::new(alloc);
    push_worded(&mut line, b"feasible cycle", u64::from(cycle))?;
    push_worded(&mut line, b" jobs", jobs)?;
    push_worded(&mut line, b" spans", spans)?;
    push(&mut line, b"\n")?;
    Ok(line)
}

/// Writes the table of the plan, in one put.
fn write_table<K: Sink>(alloc: Global, plan: &Plan, out: &mut K) -> Result<(), Refusal>
    ensures { IsWriting K.written K.faults (spelling plan.now) result out.old out.new }
{
    let bytes = table_codec::encode(alloc, plan)?;
    out.put(bytes.as_slice())?;
    Ok(())
}

/// Writes how much each task of the plan may grow, one put a line. All margins are found before the
/// first put.
fn write_margins<K: Sink>(alloc: Global, plan: &Plan, out: &mut K) -> Result<(), Refusal>
    ensures { IsWriting K.written K.faults (margin_text plan.now.tasks) result out.old out.new }
{
    let margins = find_margins(alloc, plan)?;
    put_margins(plan.tasks(), margins.items(), out)?;
    Ok(())
}

/// Writes the plan: its numbers, its jobs in deadline order, and its spans, one put a line. It
/// takes no memory after the first put.
fn show_plan<K: Sink>(alloc: Global, plan: &Plan, out: &mut K) -> Result<(), Refusal>
    ensures { IsWriting K.written K.faults (show_text plan.now) result out.old out.new }
{
    let line = plan_line(alloc, plan)?;
    out.put(line.as_slice())?;
    show_jobs(plan.tasks(), plan.jobs(), out)?;
    show_spans(plan.spans(), out)?;
    Ok(())
}

/// The line of the numbers of the plan.
fn plan_line(alloc: Global, plan: &Plan) -> Result<Vec<u8>, Memory>
    ensures { IfOk result (λ line. line.items ≡ plan_line plan.now) }
{
    let mut line = Vec::new(alloc);
    push_worded(&mut line, b"plan cycle", u64::from(plan.cycle()))?;
    push_set(&mut line, plan.tasks())?;
    push_lengths(&mut line, plan)?;
    Ok(line)
}

/// Appends the numbers of the task set.
fn push_set(line: &mut Vec<u8>, tasks: &TaskSet) -> Result<(), Memory>
    ensures { OnOk result (line.new.items ≡ line.old.items
        ++ (worded (codes " soft") tasks.now.soft_limit
        ++ worded (codes " graphs") (length tasks.now.graphs)
        ++ worded (codes " sporadics") (length tasks.now.sporadics))) }
{
    push_worded(line, b" soft", u64::from(tasks.soft_limit))?;
    push_worded(line, b" graphs", tasks.graphs.len() as u64)?;
    push_worded(line, b" sporadics", tasks.sporadics.len() as u64)
}

/// Appends the numbers of jobs and spans of the plan, and the line feed.
fn push_lengths(line: &mut Vec<u8>, plan: &Plan) -> Result<(), Memory>
    ensures { OnOk result (line.new.items ≡ line.old.items
        ++ (worded (codes " jobs") (length plan.now.jobs)
        ++ worded (codes " spans") (length plan.now.spans)
        ++ 10 ∷ [])) }
{
    push_worded(line, b" jobs", plan.jobs().len() as u64)?;
    push_worded(line, b" spans", plan.spans().len() as u64)?;
    push(line, b"\n")
}

/// Writes the jobs, one put a line.
fn show_jobs<K: Sink>(tasks: &TaskSet, jobs: &[Job], out: &mut K) -> Result<(), Failed>
    requires { All (λ (j : Job). key_in_set tasks.now j.key ≡ true) jobs.now }
    ensures text { OnOk result (Appends (K.written out.old) (K.written out.new)
        (flat_map (job_line tasks.now) jobs.now)) }
    ensures part { OnErr result (AppendsPart (K.written out.old) (K.written out.new)
        (flat_map (job_line tasks.now) jobs.now)) }
    ensures counted { K.faults out.old ≤ K.faults out.new }
    ensures failed { OnErr result (Rose (K.faults out.old) (K.faults out.new)) }
{
    for job in jobs {
        out.put(job_line(job, tasks).bytes())?;
    }
    Ok(())
}

/// Writes the spans, one put a line.
fn show_spans<K: Sink>(spans: &[Span], out: &mut K) -> Result<(), Failed>
    ensures text { OnOk result (Appends (K.written out.old) (K.written out.new)
        (flat_map span_line spans.now)) }
    ensures part { OnErr result (AppendsPart (K.written out.old) (K.written out.new)
        (flat_map span_line spans.now)) }
    ensures counted { K.faults out.old ≤ K.faults out.new }
    ensures failed { OnErr result (Rose (K.faults out.old) (K.faults out.new)) }
{
    for span in spans {
        out.put(span_line(span).bytes())?;
    }
    Ok(())
}

/// Writes how many lines the trace of this many slots and these arrivals has, in one put.
fn put_lines<K: Sink>(slots: u32, arrivals: &[Arrival], out: &mut K) -> Result<(), Refusal>
    requires slots { slots ≤ REPLAY_LIMIT }
    requires arrivals { length arrivals.now ≤ ARRIVAL_LIMIT }
    ensures { IsWriting K.written K.faults (verified_line slots (length arrivals.now)) result
        out.old out.new }
{
    let line = verified_line(u64::from(slots) + arrivals.len() as u64 + 2);
    out.put(line.bytes())?;
    Ok(())
}

/// The line that tells the number of lines.
fn verified_line(lines: u64) -> Line
    ensures { result ≡ worded (codes "verified lines") lines ++ 10 ∷ [] }
{
    let mut line = Line::new();
    line.push(b"verified lines ");
    line.number(lines);
    line.push(b"\n");
    line
}
