//! Jobs of later cycles.

ghost use Rattle.std.specs.Prelude.{◌≡◌, ◌+◌, ◌*◌, ◌/◌, ◌≤◌, true, slice_get};
ghost use Rattle.std.specs.Option.{option_map_or};
ghost use Rattle.slot_core.specs.declared.TheConstants.{CYCLES_LIMIT, SLOT_LIMIT};
ghost use Rattle.slot_core.specs.declared.tasks.Graph.{Graph};
ghost use Rattle.slot_core.specs.Offline.OfflineJobs.{later_job, later_key};
ghost use Rattle.slot_core.specs.Sets.Ranges.{is_sound};
ghost use Rattle.cycle_plan.specs.NearJobs.{IsNear, instance_of};

use slot_core::{Job, Key, TaskSet};

/// The job of the same task this many cycles later.
pub(crate) fn later_job(tasks: &TaskSet, cycle: u32, cycles: u64, job: Job) -> Job
    requires sound { is_sound tasks.now ≡ true }
    requires cycle { cycle ≤ SLOT_LIMIT }
    requires cycles { cycles ≤ CYCLES_LIMIT }
    requires near { IsNear job }
    ensures { result ≡ later_job tasks.now cycle cycles job }
{
    let by = cycles * u64::from(cycle);
    Job {
        key: later_key(tasks, cycle, cycles, job.key),
        est: job.est + by,
        dl: job.dl + by,
        left: job.left,
        declared: job.declared,
    }
}

/// The key of the same task this many cycles later.
fn later_key(tasks: &TaskSet, cycle: u32, cycles: u64, key: Key) -> Key
    requires sound { is_sound tasks.now ≡ true }
    requires cycle { cycle ≤ SLOT_LIMIT }
    requires cycles { cycles ≤ CYCLES_LIMIT }
    requires near { instance_of key ≤ SLOT_LIMIT }
    ensures { result ≡ later_key tasks.now cycle cycles key }
{
    match key {
        Key::Offline(graph, task, instance) => {
            let more = cycles * instances(tasks, cycle, graph);
            Key::Offline(graph, task, instance + more)
        }
        other => other,
    }
}

/// How many instances of the graph of this index start in a cycle; 0 where the set has no such
/// graph.
pub fn instances(tasks: &TaskSet, cycle: u32, graph: u16) -> u64
    requires { is_sound tasks.now ≡ true }
    ensures count { result
        ≡ option_map_or (λ (g : Graph). cycle / g.period) (slice_get tasks.now.graphs graph) 0 }
    ensures few { result ≤ cycle }
{
    match tasks.graphs.items().get(usize::from(graph)) {
        Some(graph) => u64::from(cycle / graph.period),
        None => 0,
    }
}
