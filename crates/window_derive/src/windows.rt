//! The jobs of a cycle with their derived windows.

ghost use Rattle.std.specs.Prelude.{◌≡◌, ◌<◌, ℕ, length, map, All, IfOk};
ghost use Rattle.std.specs.Ordering.{nat_cmp};
ghost use Rattle.std.specs.Cmp.Lexicographic.{slice_cmp};
ghost use Rattle.slot_core.specs.declared.TheConstants.{TASK_LIMIT};
ghost use Rattle.slot_core.specs.Offline.Keys.{deadline_order};
ghost use Rattle.window_derive.specs.Chains.{AreOrderable};
ghost use Rattle.window_derive.specs.GraphChains.{AreChainsOf, AreChainsOfGraphs, HasChains, before_in, after_in, job_by};

use crate::chains::{chains_after, chains_before};
use crate::{OrderFault, order};
use slot_core::{Graph, Job, Key, Memory, RawJob, TASK_LIMIT};
use std::alloc::Global;
use std::cmp::Ordering;

/// The slots of the longest chains before and after each task of a graph.
#[derive(Clone, Copy)]
pub struct Chains {
    pub before: [u32; TASK_LIMIT],
    pub after: [u32; TASK_LIMIT],
}

/// The longest chains of each graph.
pub(crate) fn chains_of_graphs(alloc: Global, graphs: &[Graph]) -> Result<Vec<Chains>, Memory>
    requires { All (λ g. AreOrderable g.tasks) graphs.now }
    ensures { IfOk result (λ chains. AreChainsOfGraphs graphs.now chains.items) }
{
    let mut chains = Vec::new(alloc);
    for graph in graphs {
        chains.push(chains_of_graph(alloc, graph)?)?;
    }
    Ok(chains)
}

/// The longest chains of a graph.
fn chains_of_graph(alloc: Global, graph: &Graph) -> Result<Chains, Memory>
    requires { AreOrderable graph.now.tasks }
    ensures { IfOk result (λ chains. AreChainsOf graph.now.tasks chains) }
{
    let order = match order(alloc, graph) {
        Ok(order) => order,
        Err(OrderFault::Memory) => return Err(Memory),
        Err(OrderFault::Loop(_)) => unreachable!(),
    };
    let tasks = graph.tasks.items();
    Ok(Chains {
        before: chains_before(tasks, order.as_slice()),
        after: chains_after(tasks, order.as_slice()),
    })
}

/// The jobs with their derived windows, in the same order.
pub(crate) fn windows_of(
    alloc: Global,
    raw: &[RawJob],
    chains: &[Chains],
) -> Result<Vec<Job>, Memory>
    requires { All (HasChains chains.now) raw.now }
    ensures { IfOk result (λ jobs. jobs.items ≡ map (job_by chains.now) raw.now) }
{
    let mut jobs = Vec::new(alloc);
    for job in raw {
        jobs.push(window_of(job, chains))?;
    }
    Ok(jobs)
}

/// The job with its derived window.
fn window_of(raw: &RawJob, chains: &[Chains]) -> Job
    requires { HasChains chains.now raw.now }
    ensures { result ≡ job_by chains.now raw.now }
{
    let (before, after) = chains_of_key(raw.key, chains);
    Job {
        key: raw.key,
        est: raw.release + u64::from(before),
        dl: raw.deadline.saturating_sub(u64::from(after)),
        left: raw.wcet,
        declared: raw.wcet,
    }
}

/// The longest chains before and after the job of this key.
fn chains_of_key(key: Key, chains: &[Chains]) -> (u32, u32)
    requires { (g t k : ℕ) → key ≡ Key.Offline g t k → (g < length chains.now) × (t < TASK_LIMIT) }
    ensures before { result.0 ≡ before_in chains.now key }
    ensures after { result.1 ≡ after_in chains.now key }
{
    match key {
        Key::Offline(graph, task, _) => {
            let chains = &chains[usize::from(graph)];
            let task = usize::from(task);
            (chains.before[task], chains.after[task])
        }
        _ => (0, 0),
    }
}

/// By deadline, then by key.
pub(crate) fn by_deadline(a: &Job, b: &Job) -> Ordering
    ensures { result ≡ slice_cmp nat_cmp (deadline_order a.now) (deadline_order b.now) }
{
    (a.dl, a.key).cmp(&(b.dl, b.key))
}
