//! What runs in a slot after a change of plan.

ghost use Rattle.std.specs.Prelude.{◌≡◌, ℕ, ◌≤◌, All, length, slice_get};
ghost use Rattle.slot_core.specs.declared.jobs.Job.{Job};
ghost use Rattle.slot_core.specs.Runs.Matches.{HaveSameItems};
ghost use Rattle.mode_switch.specs.Keeping.{HasItsJob, carried_after, carried_left, front_run, own_after};
ghost use Rattle.mode_switch.specs.Runs.{turn_between};

use job_queue::JobQueue;
use slot_core::{Job, Key, Steps};
use std::sync::ledger::Ledger;

/// The turn of a slot after a change of plan.
#[derive(Clone, Copy, PartialEq, Eq)]
pub enum Turn {
    /// No job is ready.
    Idle,
    /// The carried job of this key runs.
    Old(Key),
    /// The job of the second set of this key runs.
    New(Key),
}

/// The turn between the earliest carried job that is ready and the earliest job of the second set:
/// that of the earlier deadline, the carried one where they are level.
pub(crate) fn turn_between(carried: Option<Job>, own: Option<Job>) -> Turn
    ensures { result ≡ turn_between carried own }
{
    match (carried, own) {
        (None, None) => Turn::Idle,
        (Some(carried), None) => Turn::Old(carried.key),
        (None, Some(own)) => Turn::New(own.key),
        (Some(carried), Some(own)) => {
            if carried.dl <= own.dl {
                Turn::Old(carried.key)
            } else {
                Turn::New(own.key)
            }
        }
    }
}

/// The carried job that is next, where this many have ended and it has run this many slots; with
/// its times counted from the change on.
pub(crate) fn next_carried(carried: &[Job], at: u64, ended: usize, ran: u32) -> Option<Job>
    requires { All (λ (j : Job). 1 ≤ j.left) (carried_left at carried.now ended ran) }
    ensures { result ≡ slice_get (carried_left at carried.now ended ran) 0 }
{
    let job = carried.get(ended)?;
    Some(Job {
        key: job.key,
        est: job.est.saturating_sub(at),
        dl: job.dl.saturating_sub(at),
        left: job.left - ran,
        declared: job.left,
    })
}

/// The carried job that is next has run one slot: this many have ended then, and the next one has
/// run this many.
fn run_carried(carried: &[Job], ended: usize, ran: u32) -> (usize, u32)
    requires some { 1 ≤ length (carried_left 0 carried.now ended ran) }
    requires left { All (λ (j : Job). 1 ≤ j.left) (carried_left 0 carried.now ended ran) }
    ensures { (c : ℕ) → carried_left c carried.now result.0 result.1
        ≡ front_run (carried_left c carried.now ended ran) }
{
    let left = carried[ended].left - ran;
    if left > 1 {
        (ended, ran + 1)
    } else {
        (ended + 1, 0)
    }
}

/// The turn runs one slot. Told is how many carried jobs have ended then, and how many slots the
/// next one has run.
pub(crate) fn run<L: Ledger>(
    turn: Turn,
    carried: &[Job],
    ended: usize,
    ran: u32,
    own: &mut JobQueue,
    steps: &mut Steps<L>,
) -> (usize, u32)
    requires left { All (λ (j : Job). 1 ≤ j.left) (carried_left 0 carried.now ended ran) }
    requires may { HasItsJob turn (carried_left 0 carried.now ended ran) own.old.jobs }
    ensures carried { (c : ℕ) → carried_left c carried.now result.0 result.1
        ≡ carried_after turn (carried_left c carried.now ended ran) }
    ensures own { HaveSameItems own.new.jobs (own_after turn own.old.jobs) }
    ensures capacity { own.new.capacity ≡ own.old.capacity }
{
    match turn {
        Turn::Idle => (ended, ran),
        Turn::Old(_) => run_carried(carried, ended, ran),
        Turn::New(key) => {
            own.ran(key, steps);
            (ended, ran)
        }
    }
}
