//! What came of each job of a trace.

ghost use Rattle.std.specs.Prelude.{◌≡◌, ◌-◌, option_map, IfOk};
ghost use Rattle.view_stats.specs.Outcomes.{both, outcome_of, outcomes_of, outcomes_with};
ghost use Rattle.view_jobs.specs.Tallies.{tally_in};

use cycle_plan::Plan;
use slot_core::{Key, Memory};
use std::alloc::Global;
use trace_lines::{TraceLine, time_of_last};
use view_jobs::deeds::deeds_of;
use view_jobs::jobs::{Listed, listed_jobs};
use view_jobs::rows::end_of;
use view_jobs::tallies::{Tallies, Tally, tallies_of, tally_in};

/// What came of a job. Times and lengths are in slots.
#[derive(Clone, Copy, PartialEq, Eq)]
pub struct Outcome {
    /// Its name.
    pub key: Key,
    /// How many slots it ran.
    pub ran: u64,
    /// From its release to its end, where it has ended.
    pub response: Option<u64>,
    /// Its deadline and its end, where it has both.
    pub due: Option<(u64, u64)>,
    /// The first slot in which it ran.
    pub start: Option<u32>,
    /// How often it went on after a gap.
    pub preemptions: u64,
}

/// What came of the jobs of a trace whose lines name no unknown task, in the order of the table of
/// jobs.
pub(crate) fn outcomes_of(
    alloc: Global,
    plan: &Plan,
    lines: &[TraceLine],
) -> Result<Vec<Outcome>, Memory>
    ensures { IfOk result (λ outcomes. outcomes.items ≡ outcomes_of plan.now lines.now) }
{
    let deeds = deeds_of(alloc, plan.tasks(), lines)?;
    let jobs = listed_jobs(alloc, plan, time_of_last(lines), &deeds)?;
    let tallies = tallies_of(alloc, &deeds)?;
    outcomes_with(alloc, &tallies, &jobs)
}

/// What came of these jobs.
fn outcomes_with(alloc: Global, tallies: &Tallies, jobs: &[Listed]) -> Result<Vec<Outcome>, Memory>
    ensures { IfOk result
        (λ outcomes. outcomes.items ≡ outcomes_with (tally_in tallies.now) jobs.now) }
{
    let mut outcomes = Vec::new(alloc);
    for job in jobs {
        outcomes.push(outcome_of(job, tally_in(tallies, job.key)))?;
    }
    Ok(outcomes)
}

/// What came of a job of which this is told.
fn outcome_of(job: &Listed, tally: Tally) -> Outcome
    ensures { result ≡ outcome_of job.now tally }
{
    let end = end_of(job, tally);
    Outcome {
        key: job.key,
        ran: tally.ran,
        response: response_of(job.release, end),
        due: both(job.deadline, end),
        start: tally.first,
        preemptions: tally.gaps,
    }
}

/// From the release to the end, and 0 where it ended before.
fn response_of(release: u64, end: Option<u64>) -> Option<u64>
    ensures { result ≡ option_map (λ end. end - release) end }
{
    match end {
        Some(end) => Some(end.saturating_sub(release)),
        None => None,
    }
}

/// Two numbers, where there are both.
fn both(a: Option<u64>, b: Option<u64>) -> Option<(u64, u64)>
    ensures { result ≡ both a b }
{
    match (a, b) {
        (Some(a), Some(b)) => Some((a, b)),
        _ => None,
    }
}
