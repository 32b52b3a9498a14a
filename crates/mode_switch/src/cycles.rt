//! Cycles of the second plan: how many are looked at, and how their jobs come in.

ghost use Rattle.std.specs.Prelude.{◌≡◌, ◌+◌, ◌-◌, ◌/◌, ◌%◌, ◌≤◌, ◌<◌, ◌^◌, ◌++◌, ◌==◌, All, IfOk, length, if◌then◌else◌};
ghost use Rattle.slot_core.specs.declared.TheConstants.{CYCLES_LIMIT, SLOT_LIMIT};
ghost use Rattle.slot_core.specs.declared.jobs.Job.{Job};
ghost use Rattle.slot_core.specs.Keeping.Kept.{AreApart};
ghost use Rattle.slot_core.specs.Keeping.Plans.{IsPlan};
ghost use Rattle.slot_core.specs.Runs.Matches.{HaveSameItems};
ghost use Rattle.slot_exec.specs.Changes.{jobs_in_cycle};
ghost use Rattle.change_laws.specs.Carried.{cycles_of_change};

use cycle_plan::Plan;
use job_queue::JobQueue;
use slot_core::{Job, Memory, Steps};
use slot_exec::insert_cycle;
use std::alloc::Global;
use std::marker::Brand;
use std::sync::ledger::{Blank, Ledger};

/// How many cycles are looked at before a change to a plan of this cycle is granted.
pub(crate) fn cycles_of(carried: &[Job], at: u64, cycle: u32) -> u64
    requires some { 1 ≤ cycle }
    requires near { All (λ (j : Job). j.dl ≤ at + SLOT_LIMIT) carried.now }
    ensures cycles { result ≡ cycles_of_change cycle at carried.now }
    ensures few { result ≤ 2 ^ 14 }
{
    let mut cycles = 3;
    for job in carried {
        cycles = cycles.max(cycles_to(job.dl.saturating_sub(at), u64::from(cycle)));
    }
    cycles
}

/// How many cycles it takes that a deadline this many slots away lies in those before the last.
fn cycles_to(within: u64, cycle: u64) -> u64
    requires some { 1 ≤ cycle }
    requires short { cycle < 2 ^ 32 }
    requires near { within ≤ SLOT_LIMIT }
    ensures cycles { result ≡ (within + (cycle - 1)) / cycle + 1 }
    ensures few { result ≤ 2 ^ 14 }
{
    (within + (cycle - 1)) / cycle + 1
}

/// The queue of the jobs of the first cycle, with room for the jobs of one cycle.
pub(crate) fn first_cycle(alloc: Global, plan: &Plan) -> Result<JobQueue, Memory>
    ensures plan { IsPlan plan.now }
    ensures jobs { IfOk result (λ queue. HaveSameItems queue.jobs (jobs_in_cycle plan.now 0)) }
    ensures capacity { IfOk result (λ queue. queue.capacity ≡ plan.now.cycle) }
{
    insert_first::<Brand>(alloc, plan, Blank::new(1))
}

/// The same, with steps that nobody asks for.
fn insert_first<L: Ledger>(alloc: Global, plan: &Plan, blank: Blank) -> Result<JobQueue, Memory>
    requires name { blank.name ≡ L.name }
    requires parts { blank.parts ≡ L.parts }
    requires some { 0 < L.parts }
    ensures plan { IsPlan plan.now }
    ensures jobs { IfOk result (λ queue. HaveSameItems queue.jobs (jobs_in_cycle plan.now 0)) }
    ensures capacity { IfOk result (λ queue. queue.capacity ≡ plan.now.cycle) }
{
    let mut steps: Steps<L> = Steps::new(blank);
    let mut queue = JobQueue::with_capacity(alloc, plan.cycle())?;
    insert_cycle(&mut queue, plan, 0, &mut steps);
    Ok(queue)
}

/// Time goes on to this many slots after the change. At the end of a cycle, which leaves no job,
/// those of the next one come in.
pub(crate) fn pass<L: Ledger>(plan: &Plan, passed: u64, queue: &mut JobQueue, steps: &mut Steps<L>)
    requires few { passed ≤ 2 ^ 32 }
    requires none { passed % plan.now.cycle ≡ 0 → length queue.old.jobs ≡ 0 }
    requires room { queue.old.capacity ≡ plan.now.cycle }
    ensures jobs { HaveSameItems queue.new.jobs
        (if passed % plan.now.cycle == 0 then jobs_in_cycle plan.now (passed / plan.now.cycle)
        else queue.old.jobs) }
    ensures capacity { queue.new.capacity ≡ queue.old.capacity }
{
    let cycle = u64::from(plan.cycle());
    if passed % cycle == 0 {
        insert_cycle(queue, plan, passed / cycle, steps);
    }
}
