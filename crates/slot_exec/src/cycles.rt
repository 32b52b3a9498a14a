//! The cycles of a plan: how they begin and how they go on.

ghost use Rattle.std.specs.Prelude.{◌≡◌, ◌+◌, ◌-◌, ◌/◌, ◌%◌, ◌≤◌, ◌<◌, ◌^◌, ◌++◌, ◌==◌, length, IfOk};
ghost use Rattle.slot_core.specs.declared.TheConstants.{CYCLES_LIMIT, TIME_LIMIT};
ghost use Rattle.slot_core.specs.Keeping.Kept.{AreApart};
ghost use Rattle.slot_core.specs.Runs.Matches.{HaveSameItems};
ghost use Rattle.slot_core.specs.Runs.Scenes.{horizon};
ghost use Rattle.spare_capacity.specs.Recurrence.{last_end};
ghost use Rattle.slot_exec.specs.Changes.{jobs_at, jobs_in_cycle, spans_at, HasPlaces};
ghost use Rattle.slot_exec.specs.Parts.{job_room};

use cycle_plan::Plan;
use interval_row::SpareTable;
use job_queue::JobQueue;
use slot_core::{Memory, Steps};
use std::alloc::Global;
use std::marker::Brand;
use std::sync::ledger::{Blank, Ledger};

/// The queue of the jobs of the first three cycles, with room for three cycles of jobs. No more
/// jobs of the plan stand listed at a time than those of three cycles.
pub(crate) fn first_jobs(alloc: Global, plan: &Plan) -> Result<JobQueue, Memory>
    ensures jobs { IfOk result (λ queue. HaveSameItems
        queue.jobs
        (jobs_in_cycle plan.now 0 ++ jobs_in_cycle plan.now 1 ++ jobs_in_cycle plan.now 2)) }
    ensures capacity { IfOk result (λ queue. queue.capacity ≡ job_room plan.now.cycle) }
{
    insert_first::<Brand>(alloc, plan, Blank::new(1))
}

/// The same, with steps that nobody asks for.
fn insert_first<L: Ledger>(alloc: Global, plan: &Plan, blank: Blank) -> Result<JobQueue, Memory>
    requires name { blank.name ≡ L.name }
    requires parts { blank.parts ≡ L.parts }
    requires some { 0 < L.parts }
    ensures jobs { IfOk result (λ queue. HaveSameItems
        queue.jobs
        (jobs_in_cycle plan.now 0 ++ jobs_in_cycle plan.now 1 ++ jobs_in_cycle plan.now 2)) }
    ensures capacity { IfOk result (λ queue. queue.capacity ≡ job_room plan.now.cycle) }
{
    let mut steps: Steps<L> = Steps::new(blank);
    let mut queue = JobQueue::with_listed(alloc, 3 * plan.cycle(), 3 * plan.jobs().len())?;
    for n in 0..3 {
        insert_cycle(&mut queue, plan, n, &mut steps);
    }
    Ok(queue)
}

/// Time goes on by one slot. At the end of a cycle the plan's spans and jobs of one more cycle come
/// in; that it has ended is told. The jobs that may start then are put in order.
pub(crate) fn pass<T: SpareTable, L: Ledger>(
    plan: &Plan,
    table: &mut T,
    queue: &mut JobQueue,
    steps: &mut Steps<L>,
) -> bool
    requires goes_on { T.time table.old + 1 < last_end (T.time table.old) (T.spans table.old) }
    requires horizon { last_end (T.time table.old) (T.spans table.old)
        ≡ horizon plan.now.cycle (T.time table.old) }
    requires early { T.time table.old < TIME_LIMIT }
    requires places { (T.time table.old + 1) % plan.now.cycle ≡ 0
        → HasPlaces
        plan.now
        ((T.time table.old + 1) / plan.now.cycle + 2)
        (T.spans table.old)
        queue.old.jobs
        (T.limit table.old)
        queue.old.capacity }
    ensures turned { result ≡ ((T.time table.old + 1) % plan.now.cycle == 0) }
    ensures spans { T.spans table.new
        ≡ spans_at plan.now (T.time table.old + 1) (T.spans table.old) }
    ensures time { T.time table.new ≡ T.time table.old + 1 }
    ensures places { T.limit table.new ≡ T.limit table.old }
    ensures jobs { HaveSameItems
        queue.new.jobs
        (jobs_at plan.now (T.time table.old + 1) queue.old.jobs) }
    ensures capacity { queue.new.capacity ≡ queue.old.capacity }
    ensures steps { steps.old ≤ steps.new }
{
    table.pass_slot(steps);
    let time = table.time();
    let cycle = u64::from(plan.cycle());
    if ends_cycle(time, table.last_end(), cycle) {
        table.append_cycle(plan.spans(), steps);
        insert_cycle(queue, plan, time / cycle + 2, steps);
        queue.come(time, steps);
        return true;
    }
    queue.come(time, steps);
    false
}

/// Whether a cycle ends at this time: just then two cycles are left of the spans, which end with
/// the third one from that of the slot before. So a slot that ends none divides nothing here.
#[inline(always)]
fn ends_cycle(time: u64, end: u64, cycle: u64) -> bool
    requires later { 1 ≤ time }
    requires some { 1 ≤ cycle }
    requires few { cycle < 2 ^ 32 }
    requires end { end ≡ horizon cycle (time - 1) }
    ensures { result ≡ (time % cycle == 0) }
{
    end - time == 2 * cycle
}

/// The plan's jobs of this cycle come in, in the order in which they start.
pub fn insert_cycle<L: Ledger>(queue: &mut JobQueue, plan: &Plan, n: u64, steps: &mut Steps<L>)
    requires few { n ≤ CYCLES_LIMIT }
    requires free { length queue.old.jobs + length plan.now.jobs ≤ queue.old.capacity }
    requires apart { AreApart (queue.old.jobs ++ jobs_in_cycle plan.now n) }
    ensures jobs { HaveSameItems queue.new.jobs (queue.old.jobs ++ jobs_in_cycle plan.now n) }
    ensures capacity { queue.new.capacity ≡ queue.old.capacity }
    ensures steps { steps.old ≤ steps.new }
{
    for job in plan.jobs_by_start() {
        queue.insert(plan.later_job(*job, n), steps);
    }
}
