//! Sporadic arrivals.

ghost use Rattle.std.specs.Prelude.{◌≡◌, ℕ, ◌≤◌, ◌<◌, false, length};
ghost use Rattle.slot_core.specs.declared.TheConstants.{HORIZON_LIMIT, TIME_LIMIT};
ghost use Rattle.slot_core.specs.Runs.Histories.{sporadic_job};
ghost use Rattle.slot_core.specs.Runs.Matches.{HaveSameItems};
ghost use Rattle.scene_steps.specs.Joins.{HavePlace};
ghost use Rattle.scene_steps.specs.SporadicArrivals.{arrival_answer, is_too_soon, jobs_after_arrival, nexts_after, spans_after_arrival};

use crate::offers::admit;
use interval_row::SpareTable;
use job_queue::JobQueue;
use slot_core::{Job, Key, Spo, Sporadic, Steps};
use sporadic_reserve::Reserve;
use std::sync::ledger::Ledger;

/// The job of the sporadic task of this index that arrives in this row at `time`.
pub(crate) fn arriving_job(sporadics: &[Sporadic], index: u8, row: u32, time: u64) -> Job
    requires known { index < length sporadics.now }
    requires near { time < HORIZON_LIMIT }
    ensures { result ≡ sporadic_job sporadics.now index row time }
{
    let task = &sporadics[index as usize];
    Job {
        key: Key::Sporadic(index, row),
        est: time,
        dl: time + u64::from(task.deadline),
        left: task.wcet,
        declared: task.wcet,
    }
}

/// The sporadic task of this index comes now, with this job, which comes in where that is not too
/// soon.
pub(crate) fn take_arrival<T: SpareTable, L: Ledger>(
    table: &mut T,
    reserve: &mut Reserve,
    queue: &mut JobQueue,
    index: u8,
    job: Job,
    steps: &mut Steps<L>,
) -> Spo
    requires known { index < length reserve.old.sporadics }
    requires near { T.time table.old ≤ TIME_LIMIT }
    requires place { is_too_soon reserve.old.nexts (T.time table.old) index ≡ false
        → HavePlace
        job
        (T.time table.old)
        (T.spans table.old)
        (T.limit table.old)
        queue.old.jobs
        queue.old.capacity }
    ensures answer { result
        ≡ arrival_answer reserve.old.sporadics reserve.old.nexts (T.time table.old) index }
    ensures spans { T.spans table.new
        ≡ spans_after_arrival
        (is_too_soon reserve.old.nexts (T.time table.old) index)
        job
        (T.spans table.old) }
    ensures time { T.time table.new ≡ T.time table.old }
    ensures places { T.limit table.new ≡ T.limit table.old }
    ensures nexts { reserve.new.nexts
        ≡ nexts_after reserve.old.sporadics reserve.old.nexts (T.time table.old) index }
    ensures tasks { reserve.new.sporadics ≡ reserve.old.sporadics }
    ensures jobs { HaveSameItems
        queue.new.jobs
        (jobs_after_arrival
        (is_too_soon reserve.old.nexts (T.time table.old) index)
        job
        queue.old.jobs) }
    ensures capacity { queue.new.capacity ≡ queue.old.capacity }
    ensures stays { (n : ℕ) → result ≡ Spo.Soon n → queue.new ≡ queue.old }
    ensures steps { steps.old ≤ steps.new }
{
    match reserve.arrive(index, table.time()) {
        Ok(due) => {
            admit(table, queue, job, steps);
            Spo::Taken(due)
        }
        Err(next) => Spo::Soon(next),
    }
}
