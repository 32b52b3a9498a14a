//! Spans built from the points and the jobs due in them (Fohler 1995). All times are in slots.
#![tactic(auto)]

ghost use Rattle.std.specs.Prelude.{◌≡◌, ◌≤◌, ◌<◌, ◌^◌, length, sum_by, filter, nat_le, nat_lt, All, Contains, IfOk};
ghost use Rattle.std.specs.List.{prefix_len};
ghost use Rattle.slot_core.specs.declared.jobs.Job.{Job};
ghost use Rattle.slot_core.specs.declared.tasks.TaskSet.{TaskSet};
ghost use Rattle.slot_core.specs.Sets.Cycles.{cycle_of};
ghost use Rattle.slot_core.specs.Keeping.Plans.{AreInDeadlineOrder, plan_spans};
ghost use Rattle.slot_core.specs.Runs.Spans.{spans_between};
ghost use Rattle.slot_core.specs.Runs.Rising.{AreRising, last_point};
ghost use Rattle.spare_capacity.specs.PlanSpans.{ArePlanSpans};
ghost use Rattle.spare_capacity.specs.Recurrence.{last_end};
ghost use Rattle.interval_build.specs.FirstJobs.{AreFirstJobs, IsFirstCycle};
ghost use Rattle.interval_build.specs.Rows.{rows_between};

mod points;

use crate::points::cycle_points;
use slot_core::{Job, Memory, Span};
use std::alloc::Global;

/// The spans of a cycle before its first slot: between the points of its jobs, each with the work
/// due in it and its spare capacity as the least slack from its start up to the end of the third
/// cycle. The jobs are those of the first cycle of a feasible set, in deadline order, and no others
/// are looked at, since the slack of the next cycle is at least 0. Each job is looked at three
/// times, and each slot twice.
pub fn build(alloc: Global, jobs: &[Job], cycle: u32) -> Result<Vec<Span>, Memory>
    requires { IsFirstCycle cycle jobs.now }
    ensures spans { (set : TaskSet) → cycle ≡ cycle_of set → AreFirstJobs set jobs.now
        → IfOk result (λ spans. spans.items ≡ plan_spans set cycle) }
    ensures proper { IfOk result (λ spans. ArePlanSpans spans.items) }
    ensures whole { IfOk result (λ spans. last_end 0 spans.items ≡ cycle) }
{
    let points = cycle_points(alloc, jobs, cycle)?;
    spans_until(alloc, 0, &points, jobs)
}

/// The spans between neighbouring points, the first from `start`, each with the work due in it and
/// its spare capacity as the least slack up to the last point. The jobs are in deadline order, and
/// each is due at one of the points. Each job is looked at twice, and each point once.
pub fn spans_until(
    alloc: Global,
    start: u64,
    points: &[u64],
    jobs: &[Job],
) -> Result<Vec<Span>, Memory>
    requires rising { AreRising start points.now }
    requires near { last_point start points.now ≤ 2 ^ 40 }
    requires few { length points.now ≤ 2 ^ 20 }
    requires ordered { AreInDeadlineOrder jobs.now }
    requires due { All (λ (j : Job). Contains points.now j.dl) jobs.now }
    requires small { sum_by (λ (j : Job). j.left) jobs.now ≤ 2 ^ 40 }
    ensures { IfOk result (λ spans.
        spans.items ≡ spans_between jobs.now (last_point start points.now) start points.now) }
{
    let mut rows = rows_until(alloc, start, points, jobs)?;
    spare_capacity::fill(&mut rows);
    Ok(rows)
}

/// The spans between neighbouring points with the work due in each, and with no capacities yet. A
/// job that is due by the start lies in none.
pub fn rows_until(
    alloc: Global,
    start: u64,
    points: &[u64],
    jobs: &[Job],
) -> Result<Vec<Span>, Memory>
    requires rising { AreRising start points.now }
    requires ordered { AreInDeadlineOrder jobs.now }
    requires small { sum_by (λ (j : Job). j.left) jobs.now ≤ 2 ^ 40 }
    ensures { IfOk result (λ rows. rows.items ≡ rows_between jobs.now start points.now) }
{
    let mut rows = Vec::new(alloc);
    let mut from = start;
    let mut rest = due_after(jobs, start);
    for point in points {
        let (due, later) = rest.split_at(count_due(rest, *point));
        rows.push(Span {
            start: from,
            end: *point,
            work: work_of(due),
            spare: 0,
        })?;
        from = *point;
        rest = later;
    }
    Ok(rows)
}

/// Of jobs in deadline order, those that are due after `point`.
pub fn due_after(jobs: &[Job], point: u64) -> &[Job]
    requires { AreInDeadlineOrder jobs.now }
    ensures jobs { result.now ≡ filter (λ (j : Job). nat_lt point j.dl) jobs.now }
    ensures ordered { AreInDeadlineOrder result.now }
{
    let (_due, after) = jobs.split_at(count_due(jobs, point));
    after
}

/// The number of jobs at the front that are due by `point`.
fn count_due(jobs: &[Job], point: u64) -> usize
    ensures count { result ≡ prefix_len (λ (j : Job). nat_le j.dl point) jobs.now }
    ensures within { result ≤ length jobs.now }
{
    jobs.iter().take_while(|job| job.dl <= point).count()
}

/// The slots that the jobs have still to run.
fn work_of(jobs: &[Job]) -> u64
    requires { sum_by (λ (j : Job). j.left) jobs.now ≤ 2 ^ 40 }
    ensures { result ≡ sum_by (λ (j : Job). j.left) jobs.now }
{
    jobs.iter().map(|job| u64::from(job.left)).sum()
}
