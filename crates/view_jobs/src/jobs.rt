//! The jobs of a trace.

ghost use Rattle.std.specs.Prelude.{◌≡◌, ℕ, ◌≤◌, ◌<◌, ◌+◌, ◌^◌, ◌/◌, ◌++◌, length, slice_get, IfSome, IfOk, OnOk};
ghost use Rattle.slot_core.specs.declared.TheConstants.{CYCLES_LIMIT};
ghost use Rattle.slot_core.specs.Offline.OfflineJobs.{deadline_of, release_of};
ghost use Rattle.slot_core.specs.Offline.Windows.{raw_deadline, raw_release};
ghost use Rattle.view_jobs.specs.Listing.{arrived_listed, brought_at, cycle_listed, listed_in, listed_jobs, listed_of, offline_listed};

use crate::deeds::{Deed, Does};
use cycle_plan::Plan;
use slot_core::{Graph, Job, Key, Memory, TaskSet};
use std::alloc::Global;

/// A job of a trace.
#[derive(Clone, Copy, PartialEq, Eq)]
pub struct Listed {
    /// Its name.
    pub key: Key,
    /// Its release, or the slot in which it arrives.
    pub release: u64,
    /// The first slot in which it may run.
    pub start: u64,
    /// The first slot in which it may no more; soft work has none.
    pub deadline: Option<u64>,
    /// Its slots.
    pub declared: u32,
}

/// The offline jobs that are released in the first `slots` slots, cycle by cycle, and then the
/// jobs that arrive.
pub fn listed_jobs(
    alloc: Global,
    plan: &Plan,
    slots: u32,
    deeds: &[Deed],
) -> Result<Vec<Listed>, Memory>
    ensures { IfOk result (λ jobs. jobs.items ≡ listed_jobs plan.now slots deeds.now) }
{
    let mut jobs = Vec::new(alloc);
    push_offline(&mut jobs, plan, slots)?;
    push_arrived(&mut jobs, deeds)?;
    Ok(jobs)
}

/// Appends the offline jobs that are released in the first `slots` slots.
fn push_offline(jobs: &mut Vec<Listed>, plan: &Plan, slots: u32) -> Result<(), Memory>
    ensures { OnOk result (jobs.new.items ≡ jobs.old.items ++ offline_listed plan.now slots) }
{
    for number in 0..u64::from(slots / plan.cycle()) + 1 {
        push_cycle(jobs, plan, slots, number)?;
    }
    Ok(())
}

/// Appends the jobs of the cycle of this number that are released in the first `slots` slots.
fn push_cycle(jobs: &mut Vec<Listed>, plan: &Plan, slots: u32, number: u64) -> Result<(), Memory>
    requires { number ≤ CYCLES_LIMIT }
    ensures { OnOk result
        (jobs.new.items ≡ jobs.old.items ++ cycle_listed plan.now slots number) }
{
    for i in 0..plan.jobs().len() {
        let listed = listed_in(plan, i, number);
        if listed.release < u64::from(slots) {
            jobs.push(listed)?;
        }
    }
    Ok(())
}

/// The job at this place of the first cycle, so many cycles later.
fn listed_in(plan: &Plan, i: usize, cycles: u64) -> Listed
    requires place { i < length plan.now.jobs }
    requires few { cycles ≤ CYCLES_LIMIT }
    ensures { IfSome (slice_get plan.now.jobs i) (λ job. result ≡ listed_in plan.now cycles job) }
{
    listed_of(plan.tasks(), plan.job_in_cycle(i, cycles))
}

/// An offline job with its raw window.
fn listed_of(tasks: &TaskSet, job: Job) -> Listed
    requires { raw_deadline tasks.now job < 2 ^ 64 }
    ensures { result ≡ listed_of tasks.now job }
{
    let (release, deadline) = raw_window(tasks, job);
    Listed {
        key: job.key,
        release,
        start: job.est,
        deadline: Some(deadline),
        declared: job.declared,
    }
}

/// The release and the end-to-end deadline of an offline job of the set.
fn raw_window(tasks: &TaskSet, job: Job) -> (u64, u64)
    requires { raw_deadline tasks.now job < 2 ^ 64 }
    ensures { result ≡ (raw_release tasks.now job, raw_deadline tasks.now job) }
{
    match job.key {
        Key::Offline(graph, _, instance) => match tasks.graphs.items().get(usize::from(graph)) {
            Some(graph) => window_in(graph, instance),
            None => (job.est, job.dl),
        },
        _ => (job.est, job.dl),
    }
}

/// The release and the end-to-end deadline of an instance of a graph.
fn window_in(graph: &Graph, instance: u64) -> (u64, u64)
    requires { deadline_of graph.now instance < 2 ^ 64 }
    ensures { result ≡ (release_of graph.now instance, deadline_of graph.now instance) }
{
    let release = instance * u64::from(graph.period) + u64::from(graph.offset);
    (release, release + u64::from(graph.deadline))
}

/// Appends the jobs that arrive.
fn push_arrived(jobs: &mut Vec<Listed>, deeds: &[Deed]) -> Result<(), Memory>
    ensures { OnOk result (jobs.new.items ≡ jobs.old.items ++ arrived_listed deeds.now) }
{
    for deed in deeds {
        if let Some(job) = brought_at(deed.time, deed.does) {
            jobs.push(job)?;
        }
    }
    Ok(())
}

/// The job that a deed of this time brings.
fn brought_at(time: u32, does: Does) -> Option<Listed>
    ensures { result ≡ brought_at time does }
{
    match does {
        Does::Brings(job) => Some(Listed {
            key: job.key,
            release: u64::from(time),
            start: u64::from(time),
            deadline: job.deadline,
            declared: job.declared,
        }),
        _ => None,
    }
}
