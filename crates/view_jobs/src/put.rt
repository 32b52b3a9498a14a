//! The table of jobs.

ghost use Rattle.std.specs.Prelude.{◌≡◌, ℕ, ◌≤◌, ◌+◌, ◌++◌, List, Some, Err, IfOk, OnOk, OnErr};
ghost use Rattle.std.specs.Io.KnownBytes.{Appends};
ghost use Rattle.slot_core.specs.Calls.Counts.{Rose};
ghost use Rattle.slot_io.specs.Sinks.{AppendsPart};
ghost use Rattle.csv_table.specs.Tables.{rows_text};
ghost use Rattle.view_jobs.specs.Tables.{first_unknown, jobs_text, listed_text, rows_with};
ghost use Rattle.view_jobs.specs.Tallies.{tally_in};

use crate::deeds::{deeds_of, first_unknown};
use crate::faults::JobsFault;
use crate::jobs::{Listed, listed_jobs};
use crate::rows::{job_names, push_job};
use crate::tallies::{Tallies, tallies_of, tally_in};
use csv_table::{CsvFault, Rows};
use cycle_plan::Plan;
use slot_core::{Memory, TaskSet};
use slot_io::Sink;
use std::alloc::Global;
use trace_lines::{TraceLine, time_of_last};
use trace_text::Line;

/// Writes a header and a row for each job of the trace, by one put of the whole text: the offline
/// jobs of the plan that are released before its end, and the jobs that arrive and are taken. Where
/// a line names a task that the plan's set does not have, and where memory runs out, nothing is
/// written. Where the sink failed, a part of the text is written, from its front.
pub fn put_jobs<K: Sink>(
    alloc: Global,
    plan: &Plan,
    lines: &[TraceLine],
    out: &mut K,
) -> Result<(), JobsFault>
    ensures text { OnOk result
        (Appends (K.written out.old) (K.written out.new) (jobs_text plan.now lines.now)) }
    ensures part { OnErr result
        (AppendsPart (K.written out.old) (K.written out.new) (jobs_text plan.now lines.now)) }
    ensures memory { result ≡ Err (JobsFault.Memory) → out.new ≡ out.old }
    ensures counted { K.faults out.old ≤ K.faults out.new }
    ensures failed { result ≡ Err (JobsFault.Failed)
        → Rose (K.faults out.old) (K.faults out.new) }

    // The line of number n, counted from 1, is told exactly where it is the first that names an
    // unknown task.
    ensures no_line { (n : ℕ) → result ≡ Err (JobsFault.NoLine n)
        → (place : ℕ) × (n ≡ place + 1) × (first_unknown plan.now.tasks lines.now ≡ Some place) }
    ensures unknown { (place : ℕ) → first_unknown plan.now.tasks lines.now ≡ Some place
        → result ≡ Err (JobsFault.NoLine (place + 1)) }
    ensures untouched { (n : ℕ) → result ≡ Err (JobsFault.NoLine n) → out.new ≡ out.old }
{
    match first_unknown(plan.tasks(), lines) {
        Some(place) => Err(JobsFault::NoLine(place as u64 + 1)),
        None => match put_known(alloc, plan, lines, out) {
            Ok(()) => Ok(()),
            Err(CsvFault::Memory) => Err(JobsFault::Memory),
            Err(CsvFault::Failed) => Err(JobsFault::Failed),
        },
    }
}

/// Writes the table of lines that name no unknown task.
fn put_known<K: Sink>(
    alloc: Global,
    plan: &Plan,
    lines: &[TraceLine],
    out: &mut K,
) -> Result<(), CsvFault>
    ensures text { OnOk result
        (Appends (K.written out.old) (K.written out.new) (jobs_text plan.now lines.now)) }
    ensures part { OnErr result
        (AppendsPart (K.written out.old) (K.written out.new) (jobs_text plan.now lines.now)) }
    ensures memory { result ≡ Err (CsvFault.Memory) → out.new ≡ out.old }
    ensures counted { K.faults out.old ≤ K.faults out.new }
    ensures failed { result ≡ Err (CsvFault.Failed)
        → Rose (K.faults out.old) (K.faults out.new) }
{
    let rows = jobs_table(alloc, plan, lines)?;
    rows.put(out)
}

/// The table of lines that name no unknown task.
fn jobs_table(alloc: Global, plan: &Plan, lines: &[TraceLine]) -> Result<Rows, Memory>
    ensures { IfOk result (λ rows. rows ≡ Some (jobs_text plan.now lines.now)) }
{
    let deeds = deeds_of(alloc, plan.tasks(), lines)?;
    let jobs = listed_jobs(alloc, plan, time_of_last(lines), &deeds)?;
    let tallies = tallies_of(alloc, &deeds)?;
    listed_table(alloc, plan.tasks(), &jobs, &tallies)
}

/// The header and the rows of the jobs.
fn listed_table(
    alloc: Global,
    tasks: &TaskSet,
    jobs: &[Listed],
    tallies: &Tallies,
) -> Result<Rows, Memory>
    ensures { IfOk result (λ rows.
        rows ≡ Some (listed_text tasks.now (tally_in tallies.now) jobs.now)) }
{
    let mut rows = Rows::new(alloc);
    rows.push(&job_names())?;
    push_jobs(&mut rows, tasks, jobs, tallies)?;
    Ok(rows)
}

/// Appends the rows of these jobs.
fn push_jobs(
    rows: &mut Rows,
    tasks: &TaskSet,
    jobs: &[Listed],
    tallies: &Tallies,
) -> Result<(), Memory>
    ensures { (text : List ℕ) → rows.old ≡ Some text → OnOk result (rows.new
        ≡ Some (text ++ rows_text (rows_with tasks.now (tally_in tallies.now) jobs.now))) }
{
    let mut text = Line::new();
    for job in jobs {
        let tally = tally_in(tallies, job.key);
        push_job(rows, tasks, job, tally, &mut text)?;
    }
    Ok(())
}
