//! The groups of jobs that have a row each.

ghost use Rattle.std.specs.Prelude.{◌≡◌, IfOk};
ghost use Rattle.view_stats.specs.Groups.{group_graph, group_kind, group_task, holds, is_of_graph, outcomes_in, outcomes_of_graph};

use crate::outcomes::Outcome;
use slot_core::{Key, Memory, TaskSet};
use std::alloc::Global;
use view_jobs::rows::{graph_name, sporadic_name, task_name};

/// The jobs that a row is of.
#[derive(Clone, Copy, PartialEq, Eq)]
pub enum Group {
    /// Those of a task of a graph, by the indexes of both.
    Task(u16, u16),
    /// Those of the sporadic task of this index.
    Sporadic(u8),
    /// All firm jobs.
    Firm,
    /// All soft jobs.
    Soft,
    /// All jobs.
    All,
}

impl Group {
    /// Whether it has the job of this key.
    pub(crate) fn holds(self, key: Key) -> bool
        ensures { result ≡ holds self key }
    {
        match (self, key) {
            (Group::Task(graph, task), Key::Offline(g, t, _)) => g == graph && t == task,
            (Group::Sporadic(index), Key::Sporadic(i, _)) => i == index,
            (Group::Firm, Key::Firm(_)) => true,
            (Group::Soft, Key::Soft(_)) => true,
            (Group::All, _) => true,
            _ => false,
        }
    }

    /// The kind of its jobs.
    pub(crate) fn kind(self) -> &'static [u8]
        ensures { result.now ≡ group_kind self }
    {
        match self {
            Group::Task(_, _) => b"offline",
            Group::Sporadic(_) => b"sporadic",
            Group::Firm => b"firm",
            Group::Soft => b"soft",
            Group::All => b"all",
        }
    }

    /// The name of the graph of its task.
    pub(crate) fn graph(self, tasks: &TaskSet) -> &[u8]
        ensures { result.now ≡ group_graph tasks.now self }
    {
        match self {
            Group::Task(graph, _) => graph_name(tasks, graph),
            _ => b"",
        }
    }

    /// The name of its task, or of its sporadic task.
    pub(crate) fn task(self, tasks: &TaskSet) -> &[u8]
        ensures { result.now ≡ group_task tasks.now self }
    {
        match self {
            Group::Task(graph, task) => task_name(tasks, graph, task),
            Group::Sporadic(index) => sporadic_name(tasks, index),
            _ => b"",
        }
    }
}

/// The outcomes of the jobs of the group.
pub(crate) fn outcomes_in(
    alloc: Global,
    group: Group,
    outcomes: &[Outcome],
) -> Result<Vec<Outcome>, Memory>
    ensures { IfOk result (λ own. own.items ≡ outcomes_in group outcomes.now) }
{
    let mut own = Vec::new(alloc);
    for outcome in outcomes {
        if group.holds(outcome.key) {
            own.push(*outcome)?;
        }
    }
    Ok(own)
}

/// The outcomes of the jobs of the graph.
pub(crate) fn outcomes_of_graph(
    alloc: Global,
    graph: u16,
    outcomes: &[Outcome],
) -> Result<Vec<Outcome>, Memory>
    ensures { IfOk result (λ own. own.items ≡ outcomes_of_graph graph outcomes.now) }
{
    let mut own = Vec::new(alloc);
    for outcome in outcomes {
        if is_of_graph(graph, outcome.key) {
            own.push(*outcome)?;
        }
    }
    Ok(own)
}

/// Whether the job is one of this graph.
fn is_of_graph(graph: u16, key: Key) -> bool
    ensures { result ≡ is_of_graph graph key }
{
    match key {
        Key::Offline(g, _, _) => g == graph,
        _ => false,
    }
}
