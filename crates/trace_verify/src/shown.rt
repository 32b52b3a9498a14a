//! The first spans of a scene, from its jobs alone.

ghost use Rattle.std.specs.Prelude.{◌≡◌, ◌+◌, ◌-◌, ◌≤◌, ◌<◌, ◌⊎◌, ◌^◌, ◌++◌, ◌∷◌, [], pos, length, sum_by, take, All, Contains, IfOk};
ghost use Rattle.slot_core.specs.declared.TheConstants.{SHOWN_LIMIT};
ghost use Rattle.slot_core.specs.declared.jobs.Job.{Job};
ghost use Rattle.slot_core.specs.Keeping.Plans.{AreInDeadlineOrder};
ghost use Rattle.slot_core.specs.Runs.Rising.{AreRising, last_point};
ghost use Rattle.slot_core.specs.Runs.Spans.{spans_between};

use crate::jobs::JobList;
use interval_build::rows_until;
use slot_core::{Memory, SHOWN_LIMIT, Shown, Span};
use spare_capacity::fill;
use std::alloc::Global;

/// The first spans from a time on between rising points, as many as an entry shows or all, each
/// with the slots that are left of the jobs due in it and its capacity up to the last point, and
/// the number of the others. The jobs stand in deadline order; one that is past its deadline lies
/// in no span. The jobs that are due by the last of these spans are looked at once.
pub(crate) fn shown(
    alloc: Global,
    time: u64,
    points: &[u64],
    jobs: &JobList,
) -> Result<Shown, Memory>
    requires rising { AreRising time points.now }
    requires near { last_point time points.now ≤ 2 ^ 40 }
    requires ordered { AreInDeadlineOrder jobs.now }
    requires due { All (λ (j : Job). (j.dl ≤ time) ⊎ Contains points.now j.dl) jobs.now }
    requires small { sum_by (λ (j : Job). j.left) jobs.now ≤ 2 ^ 36 }
    requires few { length points.now ≤ 2 ^ 20 }
    ensures { IfOk result (λ shown. shown
        ≡ record {
          spans = spans_between
              jobs.now
              (last_point time points.now)
              time
              (take SHOWN_LIMIT points.now);
          more = length points.now - SHOWN_LIMIT;
        }) }
{
    let count = points.len().min(SHOWN_LIMIT);
    let spans = first_spans(alloc, time, points, count, jobs)?;
    let mut shown = Shown::new((points.len() - count) as u32);
    push_spans(&mut shown, &spans);
    Ok(shown)
}

/// Appends the spans.
fn push_spans(shown: &mut Shown, spans: &[Span])
    requires { length shown.old.spans + length spans.now ≤ SHOWN_LIMIT }
    ensures { shown.new ≡ record shown.old { spans = shown.old.spans ++ spans.now } }
{
    for span in spans {
        shown.push(*span);
    }
}

/// The first spans, so many of them.
fn first_spans(
    alloc: Global,
    time: u64,
    points: &[u64],
    count: usize,
    jobs: &JobList,
) -> Result<Vec<Span>, Memory>
    requires rising { AreRising time points.now }
    requires near { last_point time points.now ≤ 2 ^ 40 }
    requires ordered { AreInDeadlineOrder jobs.now }
    requires due { All (λ (j : Job). (j.dl ≤ time) ⊎ Contains points.now j.dl) jobs.now }
    requires small { sum_by (λ (j : Job). j.left) jobs.now ≤ 2 ^ 36 }
    requires few { count ≤ 2 ^ 10 }
    requires within { count ≤ length points.now }
    ensures { IfOk result (λ spans. spans.items
        ≡ spans_between
        jobs.now
        (last_point time points.now)
        time
        (take count points.now)) }
{
    let front = &points[..count];
    let mut spans = rows_until(alloc, time, front, jobs.items())?;
    let end = last_end(time, front);
    spans.push(lacking(end, jobs.lack_after(end)))?;
    fill(&mut spans);
    spans.truncate(count);
    Ok(spans)
}

/// The last of the points, or the time where there is none.
fn last_end(time: u64, points: &[u64]) -> u64
    ensures { result ≡ last_point time points.now }
{
    points.last().copied().unwrap_or(time)
}

/// A span of one slot that borrows so many.
fn lacking(start: u64, slots: u64) -> Span
    requires near { start ≤ 2 ^ 40 }
    requires few { slots ≤ 2 ^ 36 }
    ensures { result
        ≡ record { start = start; end = start + 1; work = slots + 1; spare = pos 0 } }
{
    Span {
        start,
        end: start + 1,
        work: slots + 1,
        spare: 0,
    }
}
