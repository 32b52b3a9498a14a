//! The jobs of one graph with a task of it longer, beside those of the others.

ghost use Rattle.std.specs.Prelude.{◌≡◌, ◌++◌, ◌≤◌, true, IfOk, IsPermutation, length, nat_le};
ghost use Rattle.std.specs.List.{prefix_len};
ghost use Rattle.slot_core.specs.declared.jobs.Job.{Job};
ghost use Rattle.slot_core.specs.Offline.OfflineJobs.{cycle_jobs};
ghost use Rattle.slot_core.specs.Runs.Matches.{HaveSameItems};
ghost use Rattle.slot_core.specs.Sets.Cycles.{cycle_of};
ghost use Rattle.slot_core.specs.Sets.Ranges.{is_sound};
ghost use Rattle.margin_find.specs.Kept.{StartInOrder};

use graph_unroll::unroll;
use slot_core::{Job, Memory, TaskSet};
use std::alloc::Global;
use window_derive::derive;

/// The jobs of the first cycle of a set, in the order of their starts.
pub(crate) fn jobs_by_start(alloc: Global, tasks: &TaskSet) -> Result<Vec<Job>, Memory>
    requires { is_sound tasks.now ≡ true }
    ensures listed { IfOk result (λ jobs.
        IsPermutation (cycle_jobs tasks.now (cycle_of tasks.now) 0) jobs.items) }
    ensures ordered { IfOk result (λ jobs. StartInOrder jobs.items) }
{
    let raw = unroll(alloc, tasks)?;
    let mut jobs = derive(alloc, tasks, &raw)?;
    jobs.sort_unstable_by_key(|job| job.est);
    Ok(jobs)
}

/// The number of jobs at the front that start by this slot.
fn count_by(jobs: &[Job], slot: u64) -> usize
    ensures count { result ≡ prefix_len (λ (j : Job). nat_le j.est slot) jobs.now }
    ensures within { result ≤ length jobs.now }
{
    jobs.iter().take_while(|job| job.est <= slot).count()
}

/// The jobs of both lists, which are each in the order of their starts, in that order.
pub(crate) fn joined(alloc: Global, kept: &[Job], own: &[Job]) -> Result<Vec<Job>, Memory>
    requires kept { StartInOrder kept.now }
    requires own { StartInOrder own.now }
    ensures items { IfOk result (λ jobs. HaveSameItems (kept.now ++ own.now) jobs.items) }
    ensures ordered { IfOk result (λ jobs. StartInOrder jobs.items) }
{
    let mut jobs = Vec::with_capacity(alloc, kept.len() + own.len())?;
    let mut rest = kept;
    for job in own {
        let (before, after) = rest.split_at(count_by(rest, job.est));
        jobs.extend_from_slice(before)?;
        jobs.push(*job)?;
        rest = after;
    }
    jobs.extend_from_slice(rest)?;
    Ok(jobs)
}
