//! The cycle test: whether every window has slots for the work that must run in it.
#![tactic(auto)]

ghost use Rattle.std.specs.Prelude.{◌≡◌, ℕ, ◌*◌, ◌^◌, ◌<◌, ◌≤◌, true, [], All, IfOk, IsTrue, slice_index};
ghost use Rattle.std.specs.List.Sorted.{IsNonDecreasingBy};
ghost use Rattle.slot_core.specs.declared.TheConstants.{SLOT_LIMIT};
ghost use Rattle.slot_core.specs.declared.jobs.Job.{Job};
ghost use Rattle.slot_core.specs.declared.tasks.TaskSet.{TaskSet};
ghost use Rattle.slot_core.specs.Sets.Cycles.{cycle_of};
ghost use Rattle.slot_core.specs.Feasibility.Feasible.{demand, window_demand, counterexample_in};
ghost use Rattle.slot_core.specs.Feasibility.Sporadics.{sporadic_demand};
ghost use Rattle.slot_core.specs.Sets.Ranges.{is_sound};
ghost use Rattle.demand_test.specs.Verdicts.{verdict_of, AreOfSet, MeansSchedules};

mod arrivals;
mod ends;
mod offline;
mod windows;

use arrivals::needed_by;
pub use arrivals::{arrivals_by, needed_table};
use offline::offline_slots;
use slot_core::{Job, Memory, Sporadic, TaskSet, Window};
use std::alloc::Global;
use windows::first_failing;

/// The outcome of the cycle test.
#[derive(Clone, Copy, PartialEq, Eq)]
pub enum Verdict {
    /// No window has more demand than slots.
    Fits,
    /// The failing window of least start, and then of least end.
    Fails(Window),
}

/// The demand of the whole cycle, in slots: the offline work of one cycle and the densest sporadic
/// arrivals.
pub fn total(tasks: &TaskSet, cycle: u32) -> u64
    requires sound { is_sound tasks.now ≡ true }
    requires cycle { cycle ≡ cycle_of tasks.now }
    ensures { result ≡ demand tasks.now cycle 0 cycle }
{
    let arriving = needed_by(tasks.sporadics.items(), cycle).unwrap();
    offline_slots(tasks.graphs.items(), cycle) + arriving
}

/// Tries every window that starts in the first cycle and ends in the first two. The jobs are those
/// of one cycle, whose demand as a whole fits it. Memory is also the answer where 63 bits do not
/// hold the slots that the arrivals of two cycles need, which no sound task set has.
pub fn test(
    alloc: Global,
    jobs: &[Job],
    sporadics: &[Sporadic],
    cycle: u32,
) -> Result<Verdict, Memory>
    requires cycle { cycle ≤ SLOT_LIMIT }
    requires within { All (λ (j : Job). j.dl ≤ cycle) jobs.now }
    requires fits { window_demand jobs.now sporadics.now cycle 0 cycle ≤ cycle }
    ensures verdict { IfOk result
        (λ v. v ≡ verdict_of (counterexample_in jobs.now sporadics.now cycle)) }
    ensures schedules { IfOk result (λ v. (set : TaskSet)
        → AreOfSet set jobs.now sporadics.now cycle
        → MeansSchedules set v) }
{
    // An empty cycle has no window, and the table of ends has no place for a next cycle.
    if cycle == 0 {
        return Ok(Verdict::Fits);
    }
    // Jobs in the order of their starts are not copied.
    if are_in_order(jobs) {
        return test_ordered(alloc, jobs, sporadics, cycle);
    }
    test_sorted(alloc, jobs, sporadics, cycle)
}

/// Whether the jobs are in the order of their starts.
fn are_in_order(jobs: &[Job]) -> bool
    ensures { IsTrue result → IsNonDecreasingBy (λ (j : Job). j.est) jobs.now }
{
    for place in 1..jobs.len() {
        if jobs[place].est < jobs[place - 1].est {
            return false;
        }
    }
    true
}

/// The test of a copy of the jobs, in the order of their starts.
fn test_sorted(
    alloc: Global,
    jobs: &[Job],
    sporadics: &[Sporadic],
    cycle: u32,
) -> Result<Verdict, Memory>
    requires positive { 0 < cycle }
    requires cycle { cycle ≤ SLOT_LIMIT }
    requires within { All (λ (j : Job). j.dl ≤ cycle) jobs.now }
    requires fits { window_demand jobs.now sporadics.now cycle 0 cycle ≤ cycle }
    ensures { IfOk result
        (λ v. v ≡ verdict_of (counterexample_in jobs.now sporadics.now cycle)) }
{
    let mut ordered = Vec::from_slice(alloc, jobs)?;
    ordered.sort_unstable_by_key(|job| job.est);
    test_ordered(alloc, ordered.as_slice(), sporadics, cycle)
}

/// The test of jobs that are in the order of their starts.
fn test_ordered(
    alloc: Global,
    jobs: &[Job],
    sporadics: &[Sporadic],
    cycle: u32,
) -> Result<Verdict, Memory>
    requires positive { 0 < cycle }
    requires cycle { cycle ≤ SLOT_LIMIT }
    requires within { All (λ (j : Job). j.dl ≤ cycle) jobs.now }
    requires fits { window_demand jobs.now sporadics.now cycle 0 cycle ≤ cycle }
    requires ordered { IsNonDecreasingBy (λ (j : Job). j.est) jobs.now }
    ensures { IfOk result
        (λ v. v ≡ verdict_of (counterexample_in jobs.now sporadics.now cycle)) }
{
    let needed = needed_table(alloc, sporadics, 2 * cycle)?;
    test_with(alloc, jobs, sporadics, needed.items(), cycle)
}

/// The test of jobs that are in the order of their starts, where `arrivals` has for each length, 0
/// to two cycles, the slots that the sporadic tasks need in a window of that length, as
/// `needed_table` gives them. Who tests many lists of jobs beside the same arrivals makes it once.
pub fn test_with(
    alloc: Global,
    jobs: &[Job],
    sporadics: &[Sporadic],
    arrivals: &[u64],
    cycle: u32,
) -> Result<Verdict, Memory>
    requires positive { 0 < cycle }
    requires cycle { cycle ≤ SLOT_LIMIT }
    requires within { All (λ (j : Job). j.dl ≤ cycle) jobs.now }
    requires fits { window_demand jobs.now sporadics.now cycle 0 cycle ≤ cycle }
    requires ordered { IsNonDecreasingBy (λ (j : Job). j.est) jobs.now }
    requires needed { (x : ℕ) → x ≤ 2 * cycle
        → slice_index arrivals.now x ≡ sporadic_demand sporadics.now [] 0 x }
    requires small { All (λ n. n < 2 ^ 63) arrivals.now }
    ensures { IfOk result
        (λ v. v ≡ verdict_of (counterexample_in jobs.now sporadics.now cycle)) }
{
    match first_failing(alloc, jobs, sporadics, arrivals, cycle)? {
        Some(window) => Ok(Verdict::Fails(window)),
        None => Ok(Verdict::Fits),
    }
}
