//! The work that is due after a change of plan.

ghost use Rattle.std.specs.Prelude.{◌≡◌, ℕ, ◌+◌, ◌*◌, ◌-◌, ◌<◌, ◌≤◌, ◌^◌, All, IfOk, MatchOption, length, map, nat_le, replicate, sum, if◌then◌else◌};
ghost use Rattle.slot_core.specs.declared.TheConstants.{SLOT_LIMIT};
ghost use Rattle.slot_core.specs.declared.jobs.Job.{Job};
ghost use Rattle.slot_core.specs.Keeping.Plans.{IsPlan};
ghost use Rattle.slot_core.specs.Offline.OfflineJobs.{cycle_jobs, offline_jobs};
ghost use Rattle.slot_core.specs.Runs.Demand.{work_by};
ghost use Rattle.slot_core.specs.Sets.Cycles.{cycle_of};
ghost use Rattle.change_laws.specs.Carried.{cycles_of_change, jobs_after, since};
ghost use Rattle.change_laws.specs.Demand.{FitsFor, ShowsNoRoom};
ghost use Rattle.mode_switch.specs.DueTables.{FitsBy, IsDueTable, IsFirstShort, needed_by, sum_to};

use crate::cycles::cycles_of;
use cycle_plan::Plan;
use slot_core::{Evidence, Job, Memory};
use sporadic_reserve::Reserve;
use std::alloc::Global;

/// So many zeros.
fn zeros(alloc: Global, count: usize) -> Result<Vec<u64>, Memory>
    ensures { IfOk result (λ zeros. zeros.items ≡ replicate count 0) }
{
    Ok(vec![in alloc; 0u64; count]?)
}

/// Counts this many slots at the time at which they are due, where the table reaches it.
fn count(due: &mut Vec<u64>, time: u64, slots: u32)
    requires { sum due.old.items < 2 ^ 63 }
    ensures len { length due.new.items ≡ length due.old.items }
    ensures sums { (x : ℕ) → x < length due.old.items → sum_to due.new.items x
        ≡ sum_to due.old.items x + (if nat_le time x then slots else 0) }
    ensures small { sum due.new.items ≤ sum due.old.items + slots }
{
    let place = time as usize;
    if place < due.len() {
        due[place] += u64::from(slots);
    }
}

/// Counts the slots left of the carried jobs.
fn count_carried(due: &mut Vec<u64>, carried: &[Job], at: u64)
    requires few { length carried.now ≤ 2 ^ 15 }
    requires small { sum due.old.items < 2 ^ 61 }
    ensures len { length due.new.items ≡ length due.old.items }
    ensures sums { (x : ℕ) → x < length due.old.items → sum_to due.new.items x
        ≡ sum_to due.old.items x + work_by (map (since at) carried.now) x }
    ensures small { sum due.new.items ≤ sum due.old.items + 2 ^ 47 }
{
    for job in carried {
        count(due, job.dl.saturating_sub(at), job.left);
    }
}

/// Counts the jobs of this cycle of the plan.
fn count_cycle(due: &mut Vec<u64>, plan: &Plan, n: u64)
    requires near { n ≤ 2 ^ 14 }
    requires small { sum due.old.items < 2 ^ 61 }
    ensures len { length due.new.items ≡ length due.old.items }
    ensures sums { (x : ℕ) → x < length due.old.items → sum_to due.new.items x
        ≡ sum_to due.old.items x + work_by (cycle_jobs plan.now.tasks plan.now.cycle n) x }
    ensures small { sum due.new.items ≤ sum due.old.items + 2 ^ 45 }
{
    for place in 0..plan.jobs().len() {
        let job = plan.job_in_cycle(place, n);
        count(due, job.dl, job.left);
    }
}

/// Counts the jobs of this many cycles of the plan.
fn count_cycles(due: &mut Vec<u64>, plan: &Plan, cycles: u64)
    requires few { cycles ≤ 2 ^ 14 }
    requires small { sum due.old.items < 2 ^ 60 }
    ensures len { length due.new.items ≡ length due.old.items }
    ensures sums { (x : ℕ) → x < length due.old.items → sum_to due.new.items x
        ≡ sum_to due.old.items x + work_by (offline_jobs plan.now.tasks plan.now.cycle cycles) x }
    ensures small { sum due.new.items < 2 ^ 62 }
{
    for n in 0..cycles {
        count_cycle(due, plan, n);
    }
}

/// For each time up to the end of this many cycles, counted from the change on, the slots left of
/// the jobs due then.
fn due_table(
    alloc: Global,
    plan: &Plan,
    carried: &[Job],
    at: u64,
    cycles: u64,
) -> Result<Vec<u64>, Memory>
    requires few { length carried.now ≤ 2 ^ 15 }
    requires cycles { cycles ≤ 2 ^ 14 }
    ensures { IfOk result (λ due. IsDueTable
        (jobs_after plan.now.tasks at carried.now cycles)
        (cycles * cycle_of plan.now.tasks)
        due.items) }
{
    let last = cycles * u64::from(plan.cycle());
    let mut due = zeros(alloc, last as usize + 1)?;
    count_carried(&mut due, carried, at);
    count_cycles(&mut due, plan, cycles);
    Ok(due)
}

/// The evidence of the first time at which what is due, with the densest arrivals, is more than the
/// slots up to it; or none.
fn first_short(due: &Vec<u64>, reserve: &Reserve, at: u64) -> Option<Evidence>
    requires some { 1 ≤ length due.now.items }
    requires near { length due.now.items ≤ 2 ^ 40 }
    requires small { sum due.now.items < 2 ^ 62 }
    requires early { at ≤ 2 ^ 62 }
    ensures { MatchOption result
        (FitsBy (needed_by due.now.items reserve.now) (length due.now.items - 1))
        (IsFirstShort (needed_by due.now.items reserve.now) (length due.now.items - 1) at) }
{
    let mut work = due[0];
    for time in 1..due.len() {
        work += due[time];
        let room = time as u64;
        let need = work + reserve.demand(0, room);
        if room < need {
            return Some(Evidence {
                until: at + room,
                need,
                room,
            });
        }
    }
    None
}

/// Why the change to this plan is refused, or none where it fits.
pub(crate) fn refusal(
    alloc: Global,
    plan: &Plan,
    carried: &[Job],
    at: u64,
) -> Result<Option<Evidence>, Memory>
    requires few { length carried.now ≤ 2 ^ 15 }
    requires near { All (λ (j : Job). j.dl ≤ at + SLOT_LIMIT) carried.now }
    requires early { at ≤ 2 ^ 62 }
    ensures plan { IsPlan plan.now }
    ensures refused { IfOk result (λ refused. MatchOption refused
        (FitsFor
        plan.now.tasks
        at
        carried.now
        (cycles_of_change (cycle_of plan.now.tasks) at carried.now))
        (ShowsNoRoom plan.now.tasks at carried.now)) }
{
    let cycles = cycles_of(carried, at, plan.cycle());
    let due = due_table(alloc, plan, carried, at, cycles)?;
    let reserve = Reserve::new(plan.sporadics());
    Ok(first_short(&due, &reserve, at))
}
