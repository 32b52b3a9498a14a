//! For how many slots a choice stays, where nothing arrives.

ghost use Rattle.std.specs.Prelude.{◌≡◌, ◌+◌, ◌-◌, ◌≤◌, ◌<◌, ◌⊎◌, ◌≢◌, [], IsTrue, Some, true, min};
ghost use Rattle.std.specs.Option.{option_copied};
ghost use Rattle.slot_core.specs.declared.TheConstants.{HORIZON_LIMIT, OFFER_LIMIT};
ghost use Rattle.slot_core.specs.Feasibility.Sporadics.{sporadic_demand};
ghost use Rattle.spare_capacity.specs.Recurrence.{last_end};
ghost use Rattle.guarantee.specs.Offers.{soft_fits, IsShortAfter};
ghost use Rattle.slot_exec.specs.Ahead.{first_left, slots_to_start, AreFree, IsTightFor, JobStays, MayTell, SoftStays, Stays};

use crate::rooms::Remembered;
use crate::runs::Chosen;
use circular_buffer::HeapCircularBuffer;
use guarantee::soft_slots;
use interval_row::SpareTable;
use job_queue::JobQueue;
use slot_core::{Job, SoftJob, Steps};
use sporadic_reserve::Reserve;
use std::sync::ledger::Ledger;

/// For how many slots, at most `most`, what is chosen now stays so.
pub(crate) fn slots_of<T: SpareTable, L: Ledger>(
    chosen: Chosen,
    table: &T,
    reserve: &Reserve,
    queue: &JobQueue,
    soft: &HeapCircularBuffer<SoftJob>,
    room: Remembered,
    most: u32,
    steps: &mut Steps<L>,
) -> u32
    requires some { 1 ≤ most }
    requires few { most ≤ OFFER_LIMIT }
    requires within { T.time table.now + most < last_end (T.time table.now) (T.spans table.now) }
    requires near { last_end (T.time table.now) (T.spans table.now) < HORIZON_LIMIT }
    requires chosen { MayTell
        chosen
        (T.spans table.now)
        reserve.now
        (T.time table.now)
        soft.now.items
        room }
    ensures some { 1 ≤ result }
    ensures few { result ≤ most }
    ensures stays { Stays
        chosen
        (T.spans table.now)
        reserve.now
        (T.time table.now)
        queue.now.jobs
        soft.now.items
        most
        result }
    ensures steps { steps.old ≤ steps.new }
{
    match chosen {
        Chosen::Nothing => slots_to_start(queue, table.time(), None, most, steps),
        Chosen::Soft(_) => slots_of_soft(table, reserve, soft, most, steps),
        Chosen::Guaranteed(job) => {
            slots_of_job(table, reserve, queue, soft, &job, room, most, steps)
        }
    }
}

/// How many slots, at most `most`, pass before a job starts that goes before this one, or any job
/// where none is given.
fn slots_to_start<L: Ledger>(
    queue: &JobQueue,
    now: u64,
    other: Option<&Job>,
    most: u32,
    steps: &mut Steps<L>,
) -> u32
    requires some { 1 ≤ most }
    requires near { now + most < HORIZON_LIMIT }
    ensures slots { result ≡ slots_to_start now (option_copied other.entry) queue.now.jobs most }
    ensures some { 1 ≤ result }
    ensures few { result ≤ most }
    ensures steps { steps.old ≤ steps.new }
{
    match queue.next_start(now, now + u64::from(most), other, steps) {
        Some(start) => (start - now) as u32,
        None => most,
    }
}

/// How many slots the first soft job runs, at most `most`.
fn slots_of_soft<T: SpareTable, L: Ledger>(
    table: &T,
    reserve: &Reserve,
    soft: &HeapCircularBuffer<SoftJob>,
    most: u32,
    steps: &mut Steps<L>,
) -> u32
    requires some { 1 ≤ most }
    requires few { most ≤ OFFER_LIMIT }
    requires within { T.time table.now + most < last_end (T.time table.now) (T.spans table.now) }
    requires near { last_end (T.time table.now) (T.spans table.now) < HORIZON_LIMIT }
    requires left { 1 ≤ first_left soft.now.items }
    requires fits { soft_fits (T.spans table.now) reserve.now (T.time table.now) ≡ true }
    ensures some { 1 ≤ result }
    ensures few { result ≤ most }
    ensures stays { SoftStays
        (T.spans table.now)
        reserve.now
        (T.time table.now)
        most
        soft.now.items
        result }
    ensures steps { steps.old ≤ steps.new }
{
    let left = left_of_first(soft);
    slots_free(table, reserve, most.min(left), steps)
}

/// The slots that the first soft job has left, 0 where none waits.
fn left_of_first(soft: &HeapCircularBuffer<SoftJob>) -> u32
    ensures { result ≡ first_left soft.now.items }
{
    match soft.front() {
        Some(first) => first.left,
        None => 0,
    }
}

/// How many of the next slots, at most `most`, soft work may take one after the other.
fn slots_free<T: SpareTable, L: Ledger>(
    table: &T,
    reserve: &Reserve,
    most: u32,
    steps: &mut Steps<L>,
) -> u32
    requires some { 1 ≤ most }
    requires few { most ≤ OFFER_LIMIT }
    requires within { T.time table.now + most < last_end (T.time table.now) (T.spans table.now) }
    requires near { last_end (T.time table.now) (T.spans table.now) < HORIZON_LIMIT }
    requires fits { soft_fits (T.spans table.now) reserve.now (T.time table.now) ≡ true }
    ensures some { 1 ≤ result }
    ensures few { result ≤ most }
    ensures free { AreFree (T.spans table.now) reserve.now (T.time table.now) result }
    ensures short { result < most → IsShortAfter
        (T.spans table.now)
        reserve.now
        (T.time table.now)
        result }
    ensures steps { steps.old ≤ steps.new }
{
    let mut taken = 1;
    while taken < most {
        let more = soft_slots(table, reserve, taken, steps);
        if more == 0 {
            return taken;
        }
        taken += more.min(u64::from(most - taken)) as u32;
    }
    taken
}

/// How many slots a guaranteed job runs, at most `most`: no more than it has left, and than pass
/// before one starts that goes before it, or before soft work beside it may run.
fn slots_of_job<T: SpareTable, L: Ledger>(
    table: &T,
    reserve: &Reserve,
    queue: &JobQueue,
    soft: &HeapCircularBuffer<SoftJob>,
    job: &Job,
    room: Remembered,
    most: u32,
    steps: &mut Steps<L>,
) -> u32
    requires some { 1 ≤ most }
    requires within { T.time table.now + most < last_end (T.time table.now) (T.spans table.now) }
    requires near { last_end (T.time table.now) (T.spans table.now) < HORIZON_LIMIT }
    requires left { 1 ≤ job.now.left }
    requires tight { soft.now.items ≢ [] → reserve.now.sporadics ≢ []
        → IsTightFor
        (T.spans table.now)
        reserve.now
        (T.time table.now)
        1
        room }
    ensures some { 1 ≤ result }
    ensures few { result ≤ most }
    ensures stays { JobStays
        (T.spans table.now)
        reserve.now
        (T.time table.now)
        most
        queue.now.jobs
        soft.now.items
        job.now
        result }
    ensures steps { steps.old ≤ steps.new }
{
    let now = table.time();
    let count = slots_to_start(queue, now, Some(job), most.min(job.left), steps);
    if soft.is_empty() || reserve.is_empty() {
        return count;
    }
    slots_tight(table, reserve, room, count)
}

/// For how many slots, at most `most`, the time that is remembered stays tight. It halves the
/// numbers that are left.
fn slots_tight<T: SpareTable>(table: &T, reserve: &Reserve, room: Remembered, most: u32) -> u32
    requires some { 1 ≤ most }
    requires within { T.time table.now + most < last_end (T.time table.now) (T.spans table.now) }
    requires near { last_end (T.time table.now) (T.spans table.now) < HORIZON_LIMIT }
    requires tight { IsTightFor (T.spans table.now) reserve.now (T.time table.now) 1 room }
    ensures some { 1 ≤ result }
    ensures few { result ≤ most }
    ensures tight { IsTightFor (T.spans table.now) reserve.now (T.time table.now) result room }
{
    let now = table.time();
    let mut low = 1;
    let mut high = most;
    while low < high {
        let middle = high - (high - low) / 2;
        if is_tight(reserve, now, room, middle) {
            low = middle;
        } else {
            high = middle - 1;
        }
    }
    low
}

/// Whether with the arrivals after so many slots the time that is remembered is tight.
fn is_tight(reserve: &Reserve, now: u64, room: Remembered, slots: u32) -> bool
    requires near { now + slots < HORIZON_LIMIT }
    requires soon { room.tight < HORIZON_LIMIT }
    requires later { now ≤ room.tight }
    ensures { IsTrue result → room.tight - now
        ≤ room.due
        + sporadic_demand reserve.now.sporadics reserve.now.nexts (now + slots) room.tight }
{
    let demand = reserve.demand(now + u64::from(slots), room.tight);
    (room.tight - now).saturating_sub(room.due) <= demand
}
