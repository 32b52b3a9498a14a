//! Early ends.

ghost use Rattle.std.specs.Prelude.{◌≡◌, ◌≤◌, false, true, if◌then◌else◌};
ghost use Rattle.std.specs.Option.{option_map_or};
ghost use Rattle.slot_core.specs.Offline.Keys.{is_soft};
ghost use Rattle.slot_core.specs.Runs.Matches.{HaveSameItems};
ghost use Rattle.scene_steps.specs.Ends.{ending_job, ending_soft, freed, jobs_left, soft_left, spans_left, AreDueInSpans};
ghost use Rattle.slot_exec.specs.Rooms.{due_left};

use crate::rooms::due_without;
use circular_buffer::HeapCircularBuffer;
use interval_row::SpareTable;
use job_queue::JobQueue;
use slot_core::{Done, Job, Key, SoftJob, Steps};
use std::sync::ledger::Ledger;

/// The job of this key ends, where it has started: it goes, and the slots that it had left are due
/// no more, also not among those that are due by `tight`.
pub(crate) fn end_early<T: SpareTable, L: Ledger>(
    table: &mut T,
    queue: &mut JobQueue,
    soft: &mut HeapCircularBuffer<SoftJob>,
    key: Key,
    tight: u64,
    due: &mut u64,
    steps: &mut Steps<L>,
) -> Done
    requires { AreDueInSpans queue.old.jobs (T.spans table.old) }
    ensures freed { result ≡ freed (T.time table.old) key queue.old.jobs soft.old.items }
    ensures spans { T.spans table.new
        ≡ (if is_soft key then T.spans table.old
        else spans_left
        (T.time table.old)
        key
        queue.old.jobs
        (T.spans table.old)) }
    ensures time { T.time table.new ≡ T.time table.old }
    ensures places { T.limit table.new ≡ T.limit table.old }
    ensures jobs { HaveSameItems
        queue.new.jobs
        (if is_soft key then queue.old.jobs else jobs_left (T.time table.old) key queue.old.jobs) }
    ensures capacity { queue.new.capacity ≡ queue.old.capacity }
    ensures stays { result ≡ Done.NotRunning → queue.new ≡ queue.old }
    ensures due { due.new
        ≡ (if is_soft key then due.old
        else due_left (ending_job (T.time table.old) key queue.old.jobs) tight due.old) }
    ensures soft { soft.new.items
        ≡ (if is_soft key then soft_left key soft.old.items else soft.old.items) }
    ensures ring { soft.new.capacity ≡ soft.old.capacity }
    ensures steps { steps.old ≤ steps.new }
{
    if let Key::Soft(row) = key {
        return end_soft(soft, row);
    }
    let Some(job) = started_job(queue, table.time(), key, steps) else {
        return Done::NotRunning;
    };
    queue.take(key, steps);
    table.give_back(job.dl, job.left, steps);
    *due = due_without(job, tight, *due);
    Done::Freed(job.left)
}

/// The soft job of this row ends, where it is the first and has started. Only the first can have.
fn end_soft(soft: &mut HeapCircularBuffer<SoftJob>, row: u32) -> Done
    ensures freed { result
        ≡ option_map_or (λ (s : SoftJob). Done.Freed s.left)
        (ending_soft (Key.Soft row) soft.old.items)
        Done.NotRunning }
    ensures soft { soft.new.items ≡ soft_left (Key.Soft row) soft.old.items }
    ensures ring { soft.new.capacity ≡ soft.old.capacity }
{
    match soft.front().copied() {
        Some(first) if first.row == row && first.left < first.declared => {
            soft.pop_front();
            Done::Freed(first.left)
        }
        _ => Done::NotRunning,
    }
}

/// The job of this key, where it is ready and has started.
fn started_job<L: Ledger>(
    queue: &JobQueue,
    time: u64,
    key: Key,
    steps: &mut Steps<L>,
) -> Option<Job>
    ensures job { result ≡ ending_job time key queue.now.jobs }
    ensures steps { steps.old ≤ steps.new }
{
    match queue.find_ready(time, key, steps) {
        Some(job) if job.left < job.declared => Some(job),
        _ => None,
    }
}
