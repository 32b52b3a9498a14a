//! What a change of plan would carry over.

ghost use Rattle.std.specs.Prelude.{◌≡◌, ◌≤◌, ◌+◌, ◌∷◌, ◌++◌, [], All, codes, flat_map, length, true, IfErr, OnErr, OnOk};
ghost use Rattle.std.specs.Io.KnownBytes.{Appends};
ghost use Rattle.slot_core.specs.declared.jobs.Job.{Job};
ghost use Rattle.slot_core.specs.Calls.Counts.{Rose};
ghost use Rattle.slot_core.specs.Keeping.Executives.{StandsFor};
ghost use Rattle.slot_core.specs.Output.Texts.{worded};
ghost use Rattle.slot_core.specs.Runs.Arrivals.{key_in_set};
ghost use Rattle.slot_core.specs.Runs.Histories.{History};
ghost use Rattle.slot_io.specs.Sinks.{AppendsPart};
ghost use Rattle.trace_text.specs.declared.TheConstants.{DECIMAL_LIMIT, LINE_LIMIT};
ghost use Rattle.live_run.specs.Carried.{carried_line, carried_lines, carried_text};

use crate::puts::put_answer;
use crate::streams::DialogueFault;
use interval_row::SpareTable;
use plan_change::{CarriedList, Keep, list_jobs};
use slot_core::{Job, TaskSet};
use slot_exec::Exec;
use slot_io::Sink;
use trace_text::{Line, key_text};

/// Tells which jobs a change of plan now would carry over: how many, and a line for each. It takes
/// no memory.
pub(crate) fn tell_carried<T: SpareTable, K: Sink>(
    exec: &Exec<T>,
    list: &mut CarriedList,
    keep: Keep,
    out: &mut K,
) -> Result<(), DialogueFault>
    requires { exec.now.plan.cycle ≤ list.old.places }
    ensures put { OnOk result ((h : History) → StandsFor exec.now h → Appends
        (K.written out.old)
        (K.written out.new)
        (carried_text exec.now.plan.tasks exec.now.plan.cycle keep h)) }
    ensures part { OnErr result ((h : History) → StandsFor exec.now h → AppendsPart
        (K.written out.old)
        (K.written out.new)
        (carried_text exec.now.plan.tasks exec.now.plan.cycle keep h)) }
    ensures places { list.new.places ≡ list.old.places }
    ensures counted { K.faults out.old ≤ K.faults out.new }
    ensures failed { OnErr result (Rose (K.faults out.old) (K.faults out.new)) }
    ensures fault { IfErr result (λ fault. fault ≡ DialogueFault.Output) }
{
    list_jobs(exec, list, keep);
    put_jobs(exec.tasks(), exec.now(), list.jobs(), out)
}

/// Puts how many jobs there are at this time, and the line of each.
fn put_jobs<K: Sink>(
    tasks: &TaskSet,
    now: u64,
    jobs: &[Job],
    out: &mut K,
) -> Result<(), DialogueFault>
    requires { All (λ (j : Job). key_in_set tasks.now j.key ≡ true) jobs.now }
    ensures put { OnOk result (Appends (K.written out.old) (K.written out.new)
        (carried_lines tasks.now now jobs.now)) }
    ensures part { OnErr result (AppendsPart (K.written out.old) (K.written out.new)
        (carried_lines tasks.now now jobs.now)) }
    ensures counted { K.faults out.old ≤ K.faults out.new }
    ensures failed { OnErr result (Rose (K.faults out.old) (K.faults out.new)) }
    ensures fault { IfErr result (λ fault. fault ≡ DialogueFault.Output) }
{
    let count = count_line(jobs.len() as u64);
    put_answer(out, count.bytes())?;
    put_each(tasks, now, jobs, out)
}

/// The line that tells how many jobs there are.
fn count_line(count: u64) -> Line
    ensures { result ≡ worded (codes "carried") count ++ 10 ∷ [] }
{
    let mut line = Line::new();
    line.push(b"carried");
    push_number(&mut line, count);
    line.push(b"\n");
    line
}

/// Puts the line of each of these jobs.
fn put_each<K: Sink>(
    tasks: &TaskSet,
    now: u64,
    jobs: &[Job],
    out: &mut K,
) -> Result<(), DialogueFault>
    requires { All (λ (j : Job). key_in_set tasks.now j.key ≡ true) jobs.now }
    ensures put { OnOk result (Appends (K.written out.old) (K.written out.new)
        (flat_map (carried_line tasks.now now) jobs.now)) }
    ensures part { OnErr result (AppendsPart (K.written out.old) (K.written out.new)
        (flat_map (carried_line tasks.now now) jobs.now)) }
    ensures counted { K.faults out.old ≤ K.faults out.new }
    ensures failed { OnErr result (Rose (K.faults out.old) (K.faults out.new)) }
    ensures fault { IfErr result (λ fault. fault ≡ DialogueFault.Output) }
{
    for job in jobs {
        let line = carried_line(tasks, now, job);
        put_answer(out, line.bytes())?;
    }
    Ok(())
}

/// The line of a job at this time.
fn carried_line(tasks: &TaskSet, now: u64, job: &Job) -> Line
    requires named { key_in_set tasks.now job.now.key ≡ true }
    ensures { result ≡ carried_line tasks.now now job.now }
{
    let mut line = Line::new();
    line.push(b"carried ");
    line.push(key_text(job.key, tasks).bytes());
    push_number(&mut line, u64::from(job.left));
    push_number(&mut line, job.dl.saturating_sub(now));
    line.push(b"\n");
    line
}

/// Appends a space and the number.
fn push_number(line: &mut Line, n: u64)
    requires { length line.old + 1 + DECIMAL_LIMIT ≤ LINE_LIMIT }
    ensures text { line.new ≡ worded line.old n }
    ensures short { length line.new ≤ length line.old + 1 + DECIMAL_LIMIT }
{
    line.push(b" ");
    line.number(n);
}
