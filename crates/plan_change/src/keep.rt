//! Which remaining jobs go on at a change of plan.

ghost use Rattle.std.specs.Prelude.{◌≡◌, ◌+◌, ◌*◌, nat_lt};
ghost use Rattle.slot_core.specs.Offline.Keys.{is_offline};
ghost use Rattle.slot_core.specs.Offline.OfflineJobs.{release_of};
ghost use Rattle.slot_core.specs.Offline.Windows.{raw_release};
ghost use Rattle.plan_change.specs.Carrying.{goes_on, is_kept};

use slot_core::{Graph, Job, Key, TaskSet};

/// Which offline jobs of the first plan go on at a change. Firm and sporadic jobs always do.
#[derive(Clone, Copy, PartialEq, Eq)]
pub enum Keep {
    /// None.
    Drop,
    /// Those that have run a slot.
    Started,
    /// All that remains of each instance of a graph that was released before this slot. What is
    /// released in this very slot is left to the second plan.
    Graphs,
}

/// Whether the key is that of an offline job.
pub(crate) fn is_offline(key: Key) -> bool
    ensures { result ≡ is_offline key }
{
    matches!(key, Key::Offline(_, _, _))
}

/// Whether a remaining job goes on at a change at this time.
pub(crate) fn goes_on(keep: Keep, tasks: &TaskSet, at: u64, job: &Job) -> bool
    ensures { result ≡ goes_on keep tasks.now at job.now }
{
    !is_offline(job.key) || is_kept(keep, tasks, at, job)
}

/// Whether an offline job goes on.
fn is_kept(keep: Keep, tasks: &TaskSet, at: u64, job: &Job) -> bool
    ensures { result ≡ is_kept keep tasks.now at job.now }
{
    match keep {
        Keep::Drop => false,
        Keep::Started => job.left < job.declared,
        Keep::Graphs => is_released(tasks, at, job),
    }
}

/// Whether the instance of the job's graph was released before this time.
fn is_released(tasks: &TaskSet, at: u64, job: &Job) -> bool
    ensures { result ≡ nat_lt (raw_release tasks.now job.now) at }
{
    match job.key {
        Key::Offline(graph, _, instance) => match tasks.graphs.items().get(usize::from(graph)) {
            Some(graph) => release_of(graph, instance) < u128::from(at),
            None => job.est < at,
        },
        _ => job.est < at,
    }
}

/// The release of an instance of a graph.
fn release_of(graph: &Graph, instance: u64) -> u128
    ensures { result ≡ release_of graph.now instance }
{
    release_at(instance, graph.period, graph.offset)
}

/// The release of an instance, with this period and offset.
fn release_at(instance: u64, period: u32, offset: u32) -> u128
    ensures { result ≡ instance * period + offset }
{
    u128::from(instance) * u128::from(period) + u128::from(offset)
}
