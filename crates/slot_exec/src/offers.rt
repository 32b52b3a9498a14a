//! Offers of firm tasks, and jobs that come in at run time.

ghost use Rattle.std.specs.Prelude.{◌≡◌, ◌⊎◌, ◌+◌, ◌-◌, ◌≤◌, ◌<◌, [], ◌∷◌, ◌++◌, ◌*◌, pos, ◌≤ℤ◌, IsTrue};
ghost use Rattle.slot_core.specs.declared.TheConstants.{HORIZON_LIMIT, OFFER_LIMIT};
ghost use Rattle.slot_core.specs.Runs.Histories.{offered_job};
ghost use Rattle.slot_core.specs.Runs.Matches.{HaveSameItems};
ghost use Rattle.spare_capacity.specs.Recurrence.{first_spare, last_end};
ghost use Rattle.interval_row.specs.Changes.{ends_before};
ghost use Rattle.scene_steps.specs.Joins.{spans_with_job, HavePlace};
ghost use Rattle.slot_exec.specs.Offers.{offer_answer};

use guarantee::{Answer, test};
use interval_row::SpareTable;
use job_queue::JobQueue;
use slot_core::{Firm, Job, Key, Steps};
use sporadic_reserve::Reserve;
use std::sync::ledger::Ledger;

/// The answer to an offer of `c` slots within `d` slots, in a plan of this cycle.
pub(crate) fn answer_offer<T: SpareTable, L: Ledger>(
    table: &T,
    reserve: &Reserve,
    cycle: u32,
    c: u32,
    d: u32,
    steps: &mut Steps<L>,
) -> Firm
    requires first { pos 0 ≤ℤ first_spare (T.spans table.now) }
    requires reach { T.time table.now + cycle ≤ last_end (T.time table.now) (T.spans table.now) }
    requires near { last_end (T.time table.now) (T.spans table.now) < HORIZON_LIMIT }
    requires some { 1 ≤ c }
    requires few { c ≤ OFFER_LIMIT }
    ensures answer { result
        ≡ offer_answer
        (T.spans table.now)
        reserve.now
        (T.time table.now)
        cycle
        c
        d }
    ensures no_steps { (d ≡ 0) ⊎ (cycle < d) → steps.new ≡ steps.old }
    ensures steps { steps.old ≤ steps.new }
    ensures accepts_soon { reserve.now.sporadics ≡ [] → result ≡ Firm.Accepted
        → steps.new
        ≤ steps.old
        + ends_before (T.time table.now + d) (T.spans table.now)
        + 1 }
{
    if d == 0 {
        return Firm::Late;
    }
    if cycle < d {
        return Firm::Far;
    }
    match test(table, reserve, table.time() + u64::from(d), c, steps) {
        Answer::Accept => Firm::Accepted,
        Answer::Refuse(evidence) => Firm::NoRoom(evidence),
    }
}

/// The job of an offer of `c` slots within `d` slots that was accepted at `time` in this row.
pub(crate) fn offered(row: u32, time: u64, c: u32, d: u32) -> Job
    requires { time < HORIZON_LIMIT }
    ensures { result ≡ offered_job row time c d }
{
    Job {
        key: Key::Firm(row),
        est: time,
        dl: time + u64::from(d),
        left: c,
        declared: c,
    }
}

/// The job comes in: its deadline ends a span, at which its slots are due.
pub(crate) fn admit<T: SpareTable, L: Ledger>(
    table: &mut T,
    queue: &mut JobQueue,
    job: Job,
    steps: &mut Steps<L>,
)
    requires { HavePlace
        job
        (T.time table.old)
        (T.spans table.old)
        (T.limit table.old)
        queue.old.jobs
        queue.old.capacity }
    ensures spans { T.spans table.new ≡ spans_with_job job (T.spans table.old) }
    ensures time { T.time table.new ≡ T.time table.old }
    ensures places { T.limit table.new ≡ T.limit table.old }
    ensures jobs { HaveSameItems queue.new.jobs (queue.old.jobs ++ job ∷ []) }
    ensures capacity { queue.new.capacity ≡ queue.old.capacity }
    ensures steps { steps.old ≤ steps.new }
    ensures few_steps { IsTrue T.counted
        → steps.new
        ≤ steps.old + 4 * ends_before job.dl (T.spans table.old) + 9 }
{
    table.split(job.dl, steps);
    table.charge(job.dl, job.left, steps);
    queue.insert(job, steps);
}
