//! The cycle of a task set, and the raw jobs of its first cycle.
#![tactic(auto)]

ghost use Rattle.std.specs.Prelude.{◌≡◌, ◌≤◌, ◌<◌, ◌↔◌, ◌++◌, true, Some, IsOk, IfOk, IfErr, OnOk};
ghost use Rattle.std.specs.List.{list_all};
ghost use Rattle.slot_core.specs.Sets.Cycles.{cycle_lengths, cycle_of, first_multiple_above, least_common_multiple};
ghost use Rattle.slot_core.specs.Offline.OfflineJobs.{raw_jobs, graph_jobs, instance_jobs};
ghost use Rattle.slot_core.specs.Sets.Ranges.{graph_in_range, is_between, is_sound};
ghost use Rattle.graph_unroll.specs.Multiples.{periods_of, separations_of, within_limit, multiple_along, times_to_common};

use slot_core::{Graph, Key, Memory, RawJob, SLOT_LIMIT, Sporadic, TaskSet};
use std::alloc::Global;

/// The cycle in slots: the least common multiple of all periods and separations. Where it is above
/// `SLOT_LIMIT`, the error is the running multiple (graphs in order, then sporadic tasks) at the
/// first place where it is.
pub fn cycle_of(tasks: &TaskSet) -> Result<u32, u64>
    requires { list_all (is_between 1 SLOT_LIMIT) (cycle_lengths tasks.now) ≡ true }
    ensures cycle { IfOk result (λ n. n ≡ cycle_of tasks.now) }
    ensures exact { IsOk result ↔ (cycle_of tasks.now ≤ SLOT_LIMIT) }
    ensures multiple { IfErr result (λ n.
        first_multiple_above SLOT_LIMIT 1 (cycle_lengths tasks.now) ≡ Some n) }
{
    let cycle = multiple_of_lengths(tasks)?;
    Ok(cycle as u32)
}

/// The running multiple of all periods and separations.
fn multiple_of_lengths(tasks: &TaskSet) -> Result<u64, u64>
    requires { list_all (is_between 1 SLOT_LIMIT) (cycle_lengths tasks.now) ≡ true }
    ensures { result ≡ multiple_along 1 (cycle_lengths tasks.now) }
{
    let periods = multiple_of_periods(tasks.graphs.items())?;
    multiple_with_separations(periods, tasks.sporadics.items())
}

/// The running multiple of all periods.
fn multiple_of_periods(graphs: &[Graph]) -> Result<u64, u64>
    requires { list_all (is_between 1 SLOT_LIMIT) (periods_of graphs.now) ≡ true }
    ensures { result ≡ multiple_along 1 (periods_of graphs.now) }
{
    let mut multiple = 1;
    for graph in graphs {
        multiple = common_multiple(multiple, graph.period)?;
    }
    Ok(multiple)
}

/// The running multiple of the first one and all separations.
fn multiple_with_separations(first: u64, sporadics: &[Sporadic]) -> Result<u64, u64>
    requires multiple { is_between 1 SLOT_LIMIT first ≡ true }
    requires lengths { list_all (is_between 1 SLOT_LIMIT) (separations_of sporadics.now) ≡ true }
    ensures { result ≡ multiple_along first (separations_of sporadics.now) }
{
    let mut multiple = first;
    for sporadic in sporadics {
        multiple = common_multiple(multiple, sporadic.separation)?;
    }
    Ok(multiple)
}

/// The least common multiple, where it is at most `SLOT_LIMIT`.
fn common_multiple(multiple: u64, length: u32) -> Result<u64, u64>
    requires multiple { is_between 1 SLOT_LIMIT multiple ≡ true }
    requires length { is_between 1 SLOT_LIMIT length ≡ true }
    ensures { result ≡ within_limit (least_common_multiple multiple length) }
{
    let next = multiple * times_to_common(multiple, u64::from(length));
    if next > u64::from(SLOT_LIMIT) {
        Err(next)
    } else {
        Ok(next)
    }
}

/// How many times the multiple makes their least common multiple.
fn times_to_common(multiple: u64, length: u64) -> u64
    requires multiple { is_between 1 SLOT_LIMIT multiple ≡ true }
    requires length { is_between 1 SLOT_LIMIT length ≡ true }
    ensures times { result ≡ times_to_common multiple length }
    ensures bound { is_between 1 length result ≡ true }
{
    for times in 1..length {
        if (multiple * times) % length == 0 {
            return times;
        }
    }
    length
}

/// The raw jobs of the first cycle, by graph, instance and task.
pub fn unroll(alloc: Global, tasks: &TaskSet) -> Result<Vec<RawJob>, Memory>
    requires { is_sound tasks.now ≡ true }
    ensures { IfOk result (λ jobs. jobs.items ≡ raw_jobs tasks.now (cycle_of tasks.now) 0) }
{
    let cycle = cycle_of(tasks).unwrap();
    let mut jobs = Vec::new(alloc);
    for (index, graph) in tasks.graphs.items().iter().enumerate() {
        push_graph(&mut jobs, index as u16, graph, cycle)?;
    }
    Ok(jobs)
}

/// Appends the raw jobs of a graph that are released in the first cycle.
fn push_graph(jobs: &mut Vec<RawJob>, index: u16, graph: &Graph, cycle: u32) -> Result<(), Memory>
    requires cycle { cycle ≤ SLOT_LIMIT }
    requires graph { graph_in_range graph.now ≡ true }
    ensures { OnOk result
        (jobs.new.items ≡ jobs.old.items ++ graph_jobs cycle 0 (index, graph.now)) }
{
    for instance in 0..cycle / graph.period {
        push_instance(jobs, index, graph, u64::from(instance))?;
    }
    Ok(())
}

/// Appends the raw jobs of an instance of a graph.
fn push_instance(
    jobs: &mut Vec<RawJob>,
    index: u16,
    graph: &Graph,
    instance: u64,
) -> Result<(), Memory>
    requires instance { instance ≤ SLOT_LIMIT }
    requires graph { graph_in_range graph.now ≡ true }
    ensures { OnOk result
        (jobs.new.items ≡ jobs.old.items ++ instance_jobs index graph.now instance) }
{
    let release = instance * u64::from(graph.period) + u64::from(graph.offset);
    let deadline = release + u64::from(graph.deadline);
    for (place, task) in graph.tasks.items().iter().enumerate() {
        let job = RawJob {
            key: Key::Offline(index, place as u16, instance),
            release,
            deadline,
            wcet: task.wcet,
        };
        jobs.push(job)?;
    }
    Ok(())
}
