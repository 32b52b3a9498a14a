//! The lines that tell what stands against an offer.

ghost use Rattle.std.specs.Prelude.{◌≡◌, ℕ, ◌≤◌, ◌<◌, ◌+◌, [], All, flat_map, length, true, OnErr, OnOk};
ghost use Rattle.std.specs.Io.KnownBytes.{Appends};
ghost use Rattle.slot_core.specs.declared.jobs.Job.{Job};
ghost use Rattle.slot_core.specs.Calls.Counts.{Rose};
ghost use Rattle.slot_core.specs.Output.Texts.{worded};
ghost use Rattle.slot_core.specs.Runs.Arrivals.{key_in_set};
ghost use Rattle.slot_io.specs.Sinks.{AppendsPart};
ghost use Rattle.trace_text.specs.declared.TheConstants.{DECIMAL_LIMIT, LINE_LIMIT};
ghost use Rattle.future_check.specs.Explanations.{arrival_line, job_line, lines_of, offer_line};

use crate::arrivals::Coming;
use slot_core::{Failed, Job, TaskSet};
use slot_io::Sink;
use trace_text::{Line, key_text};

/// Writes the lines of these jobs and arrivals and of the offer, by one put a line, up to the first
/// that fails.
pub(crate) fn put_lines<K: Sink>(
    tasks: &TaskSet,
    jobs: &[Job],
    arrivals: &[Coming],
    c: u32,
    dl: u64,
    out: &mut K,
) -> Result<(), Failed>
    requires keys { All (λ (j : Job). key_in_set tasks.now j.key ≡ true) jobs.now }
    requires named { All (λ (a : ℕ × ℕ). a.0 < length tasks.now.sporadics) arrivals.now }
    ensures text { OnOk result (Appends (K.written out.old) (K.written out.new)
        (lines_of tasks.now jobs.now arrivals.now c dl)) }
    ensures part { OnErr result (AppendsPart (K.written out.old) (K.written out.new)
        (lines_of tasks.now jobs.now arrivals.now c dl)) }
    ensures counted { K.faults out.old ≤ K.faults out.new }
    ensures failed { OnErr result (Rose (K.faults out.old) (K.faults out.new)) }
{
    put_jobs(tasks, jobs, out)?;
    put_arrivals(tasks, arrivals, out)?;
    put_offer(c, dl, out)
}

/// Writes a line for each of these jobs.
fn put_jobs<K: Sink>(tasks: &TaskSet, jobs: &[Job], out: &mut K) -> Result<(), Failed>
    requires { All (λ (j : Job). key_in_set tasks.now j.key ≡ true) jobs.now }
    ensures text { OnOk result (Appends (K.written out.old) (K.written out.new)
        (flat_map (job_line tasks.now) jobs.now)) }
    ensures part { OnErr result (AppendsPart (K.written out.old) (K.written out.new)
        (flat_map (job_line tasks.now) jobs.now)) }
    ensures counted { K.faults out.old ≤ K.faults out.new }
    ensures failed { OnErr result (Rose (K.faults out.old) (K.faults out.new)) }
{
    let mut line = Line::new();
    for job in jobs {
        line.clear();
        push_job(&mut line, job, tasks);
        out.put(line.bytes())?;
    }
    Ok(())
}

/// Writes a line for each of these arrivals.
fn put_arrivals<K: Sink>(tasks: &TaskSet, arrivals: &[Coming], out: &mut K) -> Result<(), Failed>
    requires { All (λ (a : ℕ × ℕ). a.0 < length tasks.now.sporadics) arrivals.now }
    ensures text { OnOk result (Appends (K.written out.old) (K.written out.new)
        (flat_map (arrival_line tasks.now) arrivals.now)) }
    ensures part { OnErr result (AppendsPart (K.written out.old) (K.written out.new)
        (flat_map (arrival_line tasks.now) arrivals.now)) }
    ensures counted { K.faults out.old ≤ K.faults out.new }
    ensures failed { OnErr result (Rose (K.faults out.old) (K.faults out.new)) }
{
    let mut line = Line::new();
    for arrival in arrivals {
        line.clear();
        push_arrival(&mut line, *arrival, tasks);
        out.put(line.bytes())?;
    }
    Ok(())
}

/// Writes the line of the offer.
fn put_offer<K: Sink>(c: u32, dl: u64, out: &mut K) -> Result<(), Failed>
    ensures text { OnOk result
        (Appends (K.written out.old) (K.written out.new) (offer_line c dl)) }
    ensures part { OnErr result
        (AppendsPart (K.written out.old) (K.written out.new) (offer_line c dl)) }
    ensures counted { K.faults out.old ≤ K.faults out.new }
    ensures failed { OnErr result (Rose (K.faults out.old) (K.faults out.new)) }
{
    let mut line = Line::new();
    line.push(b"offer");
    push_number(&mut line, u64::from(c));
    push_number(&mut line, dl);
    line.push(b"\n");
    out.put(line.bytes())
}

/// Writes the line of a job into an empty line.
fn push_job(line: &mut Line, job: &Job, tasks: &TaskSet)
    requires empty { line.old ≡ [] }
    requires named { key_in_set tasks.now job.now.key ≡ true }
    ensures { line.new ≡ job_line tasks.now job.now }
{
    line.push(b"job ");
    line.push(key_text(job.key, tasks).bytes());
    push_number(line, u64::from(job.left));
    push_number(line, job.dl);
    line.push(b"\n");
}

/// Writes the line of an arrival into an empty line.
fn push_arrival(line: &mut Line, arrival: Coming, tasks: &TaskSet)
    requires empty { line.old ≡ [] }
    requires named { arrival.0 < length tasks.now.sporadics }
    ensures { line.new ≡ arrival_line tasks.now arrival }
{
    let (index, time) = arrival;
    line.push(b"arrival ");
    line.push(tasks.sporadics.items()[usize::from(index)].name.bytes());
    push_number(line, time);
    line.push(b"\n");
}

/// Appends a space and the number.
fn push_number(line: &mut Line, n: u64)
    requires { length line.old + 1 + DECIMAL_LIMIT ≤ LINE_LIMIT }
    ensures text { line.new ≡ worded line.old n }
    ensures short { length line.new ≤ length line.old + 1 + DECIMAL_LIMIT }
{
    line.push(b" ");
    line.number(n);
}
