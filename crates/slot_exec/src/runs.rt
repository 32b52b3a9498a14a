//! What a slot runs.

ghost use Rattle.std.specs.Prelude.{◌≡◌, ◌≢◌, ◌≤◌, [], false, true, drop, length, take};
ghost use Rattle.slot_core.specs.declared.TheConstants.{SHOWN_LIMIT};
ghost use Rattle.slot_core.specs.Runs.Choice.{earliest, ready};
ghost use Rattle.slot_core.specs.Runs.Matches.{HaveSameItems};
ghost use Rattle.slot_core.specs.Runs.Traces.{told_of_slot};
ghost use Rattle.guarantee.specs.Offers.{soft_fits};
ghost use Rattle.slot_exec.specs.Ahead.{IsTightFor};
ghost use Rattle.slot_exec.specs.Rooms.{MaySearch, RemembersSpans};
ghost use Rattle.slot_exec.specs.Changes.{chosen_job, chosen_of, front_run, jobs_after, ran_of, soft_after, spans_after, MayRun};

use crate::rooms::{Remembered, may_run};
use circular_buffer::HeapCircularBuffer;
use interval_row::SpareTable;
use job_queue::JobQueue;
use slot_core::{Job, Key, Ran, SoftJob, Steps, What};
use sporadic_reserve::Reserve;
use std::sync::ledger::Ledger;

/// What is chosen for a slot.
#[derive(Clone, Copy, PartialEq, Eq)]
pub enum Chosen {
    /// No job may run.
    Nothing,
    /// The first soft job, of this row.
    Soft(u32),
    /// This guaranteed job.
    Guaranteed(Job),
}

impl Chosen {
    /// What an entry tells of it.
    pub(crate) fn told(self) -> What
        ensures { result ≡ told_of_slot (ran_of self) }
    {
        match self {
            Chosen::Nothing => What::Idle,
            Chosen::Soft(row) => What::Run(Key::Soft(row)),
            Chosen::Guaranteed(job) => What::Run(job.key),
        }
    }

    /// What runs.
    pub(crate) fn ran(self) -> Ran
        ensures { result ≡ ran_of self }
    {
        match self {
            Chosen::Nothing => Ran::Idle,
            Chosen::Soft(row) => Ran::Key(Key::Soft(row)),
            Chosen::Guaranteed(job) => Ran::Key(job.key),
        }
    }
}

/// The first soft job where soft work may run, else the earliest job that is ready, else nothing.
/// And what is remembered then, for arrivals of sporadic tasks after the slot.
pub(crate) fn choose<T: SpareTable, L: Ledger>(
    table: &T,
    reserve: &Reserve,
    queue: &JobQueue,
    soft: &HeapCircularBuffer<SoftJob>,
    room: Remembered,
    steps: &mut Steps<L>,
) -> (Chosen, Remembered)
    requires { MaySearch (T.spans table.now) reserve.now (T.time table.now) room }
    ensures chosen { result.0
        ≡ chosen_of
        soft.now.items
        (soft_fits (T.spans table.now) reserve.now (T.time table.now))
        (earliest (ready (T.time table.now) queue.now.jobs)) }
    ensures room { RemembersSpans (T.spans table.now) reserve.now (T.time table.now) result.1 }
    ensures tight { soft.now.items ≢ [] → reserve.now.sporadics ≢ []
        → soft_fits (T.spans table.now) reserve.now (T.time table.now) ≡ false
        → IsTightFor
        (T.spans table.now)
        reserve.now
        (T.time table.now)
        1
        result.1 }
    ensures steps { steps.old ≤ steps.new }
{
    let Some(first) = soft.front() else {
        return (earliest_job(queue, table.time(), steps), room);
    };
    let (fits, room) = may_run(table, reserve, room, steps);
    if fits {
        return (Chosen::Soft(first.row), room);
    }
    (earliest_job(queue, table.time(), steps), room)
}

/// The earliest job that is ready, if there is one.
fn earliest_job<L: Ledger>(queue: &JobQueue, time: u64, steps: &mut Steps<L>) -> Chosen
    ensures chosen { result ≡ chosen_job (earliest (ready time queue.now.jobs)) }
    ensures steps { steps.old ≤ steps.new }
{
    match queue.earliest(time, steps) {
        Some(job) => Chosen::Guaranteed(job),
        None => Chosen::Nothing,
    }
}

/// What is chosen runs one slot. True only where the first spans, as many as an entry shows, stay,
/// but for the very first.
pub(crate) fn run<T: SpareTable, L: Ledger>(
    chosen: Chosen,
    table: &mut T,
    queue: &mut JobQueue,
    soft: &mut HeapCircularBuffer<SoftJob>,
    steps: &mut Steps<L>,
) -> bool
    requires { MayRun chosen (T.spans table.old) queue.old.jobs soft.old.items }
    ensures spans { T.spans table.new ≡ spans_after chosen (T.spans table.old) }
    ensures others { result ≡ true
        → drop 1 (take SHOWN_LIMIT (T.spans table.new))
        ≡ drop 1 (take SHOWN_LIMIT (T.spans table.old)) }
    ensures time { T.time table.new ≡ T.time table.old }
    ensures places { T.limit table.new ≡ T.limit table.old }
    ensures jobs { HaveSameItems queue.new.jobs (jobs_after chosen queue.old.jobs) }
    ensures capacity { queue.new.capacity ≡ queue.old.capacity }
    ensures soft { soft.new.items ≡ soft_after chosen soft.old.items }
    ensures ring { soft.new.capacity ≡ soft.old.capacity }
    ensures steps { steps.old ≤ steps.new }
{
    match chosen {
        Chosen::Nothing => true,
        Chosen::Soft(_) => {
            run_front(soft);
            true
        }
        Chosen::Guaranteed(job) => {
            queue.ran(job.key, steps);
            table.give_back(job.dl, 1, steps)
        }
    }
}

/// The first soft job runs one slot, and goes where that was its last.
fn run_front(soft: &mut HeapCircularBuffer<SoftJob>)
    requires { 1 ≤ length soft.old.items }
    ensures soft { soft.new.items ≡ front_run soft.old.items }
    ensures ring { soft.new.capacity ≡ soft.old.capacity }
{
    if let Some(first) = soft.get_mut(0) {
        if first.left > 1 {
            first.left -= 1;
            return;
        }
    }
    soft.pop_front();
}
