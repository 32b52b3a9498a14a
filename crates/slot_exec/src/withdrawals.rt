//! Withdrawals.

ghost use Rattle.std.specs.Prelude.{◌≡◌, ◌+◌, ◌*◌, ◌≤◌, length, None, Some, IsTrue};
ghost use Rattle.slot_core.specs.declared.jobs.Job.{Job};
ghost use Rattle.slot_core.specs.Runs.Matches.{HaveSameItems};
ghost use Rattle.interval_row.specs.Changes.{ends_before};
ghost use Rattle.scene_steps.specs.Ends.{AreDueInSpans};
ghost use Rattle.scene_steps.specs.Withdrawals.{jobs_without, spans_without, withdrawn, withdrawn_job};
ghost use Rattle.slot_exec.specs.Rooms.{due_left};

use crate::rooms::due_without;
use interval_row::SpareTable;
use job_queue::JobQueue;
use slot_core::{Gone, Job, Key, Steps};
use std::sync::ledger::Ledger;

/// The firm job of this row is taken back, whether it has started or not: it goes, and the slots
/// that it had left are due no more, also not among those that are due by `tight`.
pub(crate) fn take_back<T: SpareTable, L: Ledger>(
    table: &mut T,
    queue: &mut JobQueue,
    firm: u32,
    tight: u64,
    due: &mut u64,
    steps: &mut Steps<L>,
) -> Gone
    requires due { AreDueInSpans queue.old.jobs (T.spans table.old) }
    requires come { (job : Job) → withdrawn_job firm queue.old.jobs ≡ Some job
        → job.est ≤ T.time table.old }
    ensures gone { result ≡ withdrawn firm queue.old.jobs }
    ensures spans { T.spans table.new ≡ spans_without firm queue.old.jobs (T.spans table.old) }
    ensures time { T.time table.new ≡ T.time table.old }
    ensures places { T.limit table.new ≡ T.limit table.old }
    ensures jobs { HaveSameItems queue.new.jobs (jobs_without firm queue.old.jobs) }
    ensures due { due.new ≡ due_left (withdrawn_job firm queue.old.jobs) tight due.old }
    ensures stays { result ≡ Gone.NoJob → queue.new ≡ queue.old }
    ensures capacity { queue.new.capacity ≡ queue.old.capacity }
    ensures steps { steps.old ≤ steps.new }
    ensures few_steps { IsTrue T.counted → (job : Job)
        → withdrawn_job firm queue.old.jobs ≡ Some job
        → steps.new
        ≤ steps.old + length queue.old.jobs
        + 3 * ends_before job.dl (T.spans table.old)
        + 3 }
    ensures no_job_steps { result ≡ Gone.NoJob → steps.new ≤ steps.old + length queue.old.jobs }
{
    match take_firm(queue, table.time(), firm, steps) {
        Some(job) => {
            table.give_back(job.dl, job.left, steps);
            *due = due_without(job, tight, *due);
            Gone::Freed(job.left)
        }
        None => Gone::NoJob,
    }
}

/// Removes the firm job of this row, and returns it. A firm job may start from its arrival on, so
/// only the jobs that may start by now are looked at.
fn take_firm<L: Ledger>(
    queue: &mut JobQueue,
    time: u64,
    firm: u32,
    steps: &mut Steps<L>,
) -> Option<Job>
    requires come { (job : Job) → withdrawn_job firm queue.old.jobs ≡ Some job → job.est ≤ time }
    ensures job { result ≡ withdrawn_job firm queue.old.jobs }
    ensures jobs { HaveSameItems queue.new.jobs (jobs_without firm queue.old.jobs) }
    ensures none { result ≡ None → queue.new ≡ queue.old }
    ensures capacity { queue.new.capacity ≡ queue.old.capacity }
    ensures steps { steps.old ≤ steps.new }
    ensures few_steps { steps.new ≤ steps.old + length queue.old.jobs }
{
    queue.take_ready(time, Key::Firm(firm), steps)
}
