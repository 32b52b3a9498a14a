//! What an executive remembers of the room for soft work, so that few slots search for it.

ghost use Rattle.std.specs.Prelude.{◌≡◌, ◌≢◌, ℕ, [], false, ◌≤◌, ◌<◌, ◌^◌, IsTrue};
ghost use Rattle.guarantee.specs.Offers.{soft_fits};
ghost use Rattle.slot_exec.specs.Ahead.{IsTightFor};
ghost use Rattle.slot_exec.specs.Rooms.{due_told, due_with, due_without, free_beside, room_after, MaySearch, RemembersSpans};

use crate::runs::Chosen;
use guarantee::{SoftRoom, may_run_soft, soft_room};
use interval_row::SpareTable;
use slot_core::{Job, Spo, Steps};
use sporadic_reserve::Reserve;
use std::sync::ledger::Ledger;

/// What is remembered of the room for soft work.
#[derive(Clone, Copy, PartialEq, Eq)]
pub struct Remembered {
    /// Up to each later time by which something is needed, so many slots are free.
    pub free: u64,
    /// A time that a search found short of room, which counts while it is to come, or 0.
    pub tight: u64,
    /// The slots of guaranteed jobs that are due by then.
    pub due: u64,
}

/// Whether soft work may take this slot, and what is remembered then, for arrivals of sporadic
/// tasks after the slot. The spans are searched only where what is remembered does not decide.
pub(crate) fn may_run<T: SpareTable, L: Ledger>(
    table: &T,
    reserve: &Reserve,
    room: Remembered,
    steps: &mut Steps<L>,
) -> (bool, Remembered)
    requires { MaySearch (T.spans table.now) reserve.now (T.time table.now) room }
    ensures answer { result.0 ≡ soft_fits (T.spans table.now) reserve.now (T.time table.now) }
    ensures room { RemembersSpans (T.spans table.now) reserve.now (T.time table.now) result.1 }
    ensures tight { result.0 ≡ false → reserve.now.sporadics ≢ [] → IsTightFor
        (T.spans table.now)
        reserve.now
        (T.time table.now)
        1
        result.1 }
    ensures steps { steps.old ≤ steps.new }
{
    if reserve.is_empty() {
        return (may_run_soft(table, reserve, steps), room);
    }
    if room.free >= 1 {
        return (true, room);
    }
    if is_short(table, reserve, room) {
        return (false, room);
    }
    search(table, reserve, room, steps)
}

/// Whether up to the time that was short there is still no room for a slot more.
fn is_short<T: SpareTable>(table: &T, reserve: &Reserve, room: Remembered) -> bool
    requires { MaySearch (T.spans table.now) reserve.now (T.time table.now) room }
    ensures short { IsTrue result
        → soft_fits (T.spans table.now) reserve.now (T.time table.now) ≡ false }
    ensures tight { IsTrue result → IsTightFor
        (T.spans table.now)
        reserve.now
        (T.time table.now)
        1
        room }
{
    let now = table.time();
    if room.tight <= now {
        return false;
    }
    (room.tight - now).saturating_sub(room.due) <= reserve.demand(now + 1, room.tight)
}

/// What a search of the spans tells.
fn search<T: SpareTable, L: Ledger>(
    table: &T,
    reserve: &Reserve,
    room: Remembered,
    steps: &mut Steps<L>,
) -> (bool, Remembered)
    requires { MaySearch (T.spans table.now) reserve.now (T.time table.now) room }
    ensures answer { result.0 ≡ soft_fits (T.spans table.now) reserve.now (T.time table.now) }
    ensures room { RemembersSpans (T.spans table.now) reserve.now (T.time table.now) result.1 }
    ensures tight { result.0 ≡ false → IsTightFor
        (T.spans table.now)
        reserve.now
        (T.time table.now)
        1
        result.1 }
    ensures steps { steps.old ≤ steps.new }
{
    match soft_room(table, reserve, steps) {
        SoftRoom::Free(free) => (true, Remembered { free, ..room }),
        SoftRoom::Short { until, due } => (
            false,
            Remembered {
                tight: until,
                due,
                ..room
            },
        ),
    }
}

/// What is remembered after a slot in which this ran, and after which a cycle turned or not.
pub(crate) fn after_slot(room: Remembered, chosen: Chosen, turned: bool) -> Remembered
    ensures { result ≡ room_after chosen turned room }
{
    let free = if turned {
        0
    } else {
        room.free.saturating_sub(1)
    };
    let due = match chosen {
        Chosen::Guaranteed(job) if job.dl <= room.tight => room.due.saturating_sub(1),
        _ => room.due,
    };
    Remembered { free, due, ..room }
}

/// How many slots are free beside an offer that is accepted, where so many are free now.
pub(crate) fn free_beside(job: Job, free: u64) -> u64
    requires { job.est ≤ job.dl }
    ensures { result ≡ free_beside job free }
{
    free.min(job.dl - job.est)
        .saturating_sub(u64::from(job.left))
}

/// The slots of guaranteed jobs that are due by `tight` with this job, where `due` are now.
pub(crate) fn due_with(job: Job, tight: u64, due: u64) -> u64
    requires { job.dl ≤ tight → due < 2 ^ 63 }
    ensures { result ≡ due_with job tight due }
{
    if job.dl <= tight {
        due + u64::from(job.left)
    } else {
        due
    }
}

/// The same with the job of an arrival, where it is taken.
pub(crate) fn due_told(answer: Spo, job: Job, tight: u64, due: u64) -> u64
    requires { (deadline : ℕ) → answer ≡ Spo.Taken deadline → job.dl ≤ tight → due < 2 ^ 63 }
    ensures { result ≡ due_told answer job tight due }
{
    match answer {
        Spo::Soon(_) => due,
        Spo::Taken(_) => due_with(job, tight, due),
    }
}

/// The same without a job that goes.
pub(crate) fn due_without(job: Job, tight: u64, due: u64) -> u64
    ensures { result ≡ due_without job tight due }
{
    if job.dl <= tight {
        due.saturating_sub(u64::from(job.left))
    } else {
        due
    }
}
