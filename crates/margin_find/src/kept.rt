//! What the tests of longer tasks of one graph share.

ghost use Rattle.std.specs.Prelude.{◌≡◌, not, filter, IfOk};
ghost use Rattle.slot_core.specs.declared.jobs.Job.{Job};
ghost use Rattle.margin_find.specs.Kept.{is_of, IsKept, IsLeftOut, ServesFor};

use cycle_plan::Plan;
use demand_test::needed_table;
use slot_core::{Job, Key, List, Memory, Part};
use std::alloc::Global;

/// The arrivals of a set, and the jobs of all its graphs but one.
#[derive(Drop)]
pub struct Kept {
    /// The cycle of the set, in slots.
    pub cycle: u32,
    /// The slots that the densest arrivals need in a window, by its length: 0 to two cycles.
    pub arrivals: List<u64>,
    /// The graph that is left out.
    pub graph: u16,
    /// The jobs of the other graphs in the first cycle, in the order of their starts.
    pub others: Vec<Job>,
}

/// Whether the job is of this graph.
fn is_of(graph: u16, job: &Job) -> bool
    ensures { result ≡ is_of graph job.now.key }
{
    match job.key {
        Key::Offline(of, _, _) => of == graph,
        _ => false,
    }
}

/// The jobs that are not of this graph, in the same order.
fn jobs_of_others(alloc: Global, jobs: &[Job], graph: u16) -> Result<Vec<Job>, Memory>
    ensures { IfOk result (λ others. others.items
        ≡ filter (λ (j : Job). not (is_of graph j.key)) jobs.now) }
{
    let mut others = Vec::with_capacity(alloc, jobs.len())?;
    for job in jobs {
        if !is_of(graph, job) {
            others.push(*job)?;
        }
    }
    Ok(others)
}

/// The graph of a task; of a sporadic task, which is of no graph, the first.
fn graph_of(at: Part) -> u16
    ensures { IsLeftOut at result }
{
    match at {
        Part::Task(graph, _) => graph,
        _ => 0,
    }
}

impl Kept {
    /// What serves the tests of this task.
    pub(crate) fn of(alloc: Global, plan: &Plan, at: Part) -> Result<Kept, Memory>
        ensures { IfOk result (ServesFor plan.now.tasks at) }
    {
        let graph = graph_of(at);
        let arrivals = needed_table(alloc, plan.sporadics(), 2 * plan.cycle())?;
        let others = jobs_of_others(alloc, plan.jobs_by_start(), graph)?;
        Ok(Kept {
            cycle: plan.cycle(),
            arrivals,
            graph,
            others,
        })
    }

    /// What serves the tests of this task: of a task of the same graph, what there is.
    pub(crate) fn turned(self, alloc: Global, plan: &Plan, at: Part) -> Result<Kept, Memory>
        requires { IsKept plan.now.tasks self }
        ensures { IfOk result (ServesFor plan.now.tasks at) }
    {
        let graph = graph_of(at);
        if graph == self.graph {
            return Ok(self);
        }
        let others = jobs_of_others(alloc, plan.jobs_by_start(), graph)?;
        Ok(Kept {
            cycle: self.cycle,
            arrivals: self.arrivals,
            graph,
            others,
        })
    }
}
