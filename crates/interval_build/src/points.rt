//! The points of the first cycle: where its intervals end, and where they start above 0.

ghost use Rattle.std.specs.Prelude.{◌≡◌, ◌+◌, ◌<◌, ◌≤◌, ◌++◌, ◌∷◌, [], All, Contains, cond, filter, length, map, nat_lt, slice_index, IfOk, OnOk};
ghost use Rattle.std.specs.List.{range_with_len};
ghost use Rattle.slot_core.specs.declared.jobs.Job.{Job};
ghost use Rattle.slot_core.specs.Runs.Points.{is_point, least_start, plan_points};

use slot_core::{Job, Memory};
use std::alloc::Global;

/// The points of the first cycle, rising, of its jobs: the ends of their intervals, the starts of
/// these above 0, and the cycle. One pass over the jobs, and one over the slots.
pub(crate) fn cycle_points(alloc: Global, jobs: &[Job], cycle: u32) -> Result<Vec<u64>, Memory>
    requires some { 1 ≤ cycle }
    requires started { All (λ (j : Job). j.est < j.dl) jobs.now }
    requires due { All (λ (j : Job). j.dl ≤ cycle) jobs.now }
    ensures { IfOk result (λ points. points.items
        ≡ filter (is_point cycle (plan_points cycle jobs.now) []) (range_with_len 1 cycle)) }
{
    let starts = least_starts(alloc, jobs, cycle)?;
    let mut points = Vec::new(alloc);
    let mut before = 0;
    for (end, start) in starts.iter().enumerate() {
        let end = end as u64;
        if *start < end {
            push_interval(&mut points, before, *start, end)?;
            before = end;
        }
    }
    if before < u64::from(cycle) {
        points.push(u64::from(cycle))?;
    }
    Ok(points)
}

/// For each slot of the cycle, and its end, the least start of the jobs due there, or the slot
/// itself where no job is due.
fn least_starts(alloc: Global, jobs: &[Job], cycle: u32) -> Result<Vec<u64>, Memory>
    requires due { All (λ (j : Job). j.dl ≤ cycle) jobs.now }
    ensures { IfOk result (λ starts.
        starts.items ≡ map (λ end. least_start jobs.now end end) (range_with_len 0 (cycle + 1))) }
{
    let mut starts = slots_before(alloc, u64::from(cycle) + 1)?;
    for job in jobs {
        let start = &mut starts[job.dl as usize];
        *start = job.est.min(*start);
    }
    Ok(starts)
}

/// The slots from 0 to before the end.
fn slots_before(alloc: Global, end: u64) -> Result<Vec<u64>, Memory>
    ensures { IfOk result (λ slots. slots.items ≡ range_with_len 0 end) }
{
    let mut slots = Vec::new(alloc);
    for slot in 0..end {
        slots.push(slot)?;
    }
    Ok(slots)
}

/// Appends an interval's start where it is above the end before it, and then its end.
fn push_interval(points: &mut Vec<u64>, before: u64, start: u64, end: u64) -> Result<(), Memory>
    ensures { OnOk result (points.new.items
        ≡ points.old.items ++ (cond (nat_lt before start) (start ∷ []) [] ++ end ∷ [])) }
{
    if before < start {
        points.push(start)?;
    }
    points.push(end)?;
    Ok(())
}
