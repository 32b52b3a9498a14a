//! Task sets. All numbers are in slots.

use crate::jobs::{Job, Span};
use crate::list::List;
use crate::name::Name;

/// Indexes of the tasks that a task comes after.
pub type Afters = List<u16>;

/// The tasks of a graph.
pub type Tasks = List<Task>;

/// The graphs of a task set.
pub type Graphs = List<Graph>;

/// The sporadic tasks of a task set.
pub type Sporadics = List<Sporadic>;

/// A list of jobs.
pub type Jobs = List<Job>;

/// A list of spans.
pub type Spans = List<Span>;

/// A task of a graph.
#[derive(Drop)]
pub struct Task {
    /// Its name, which no other task of the graph has.
    pub name: Name,
    /// Worst-case execution time: 1 to `SLOT_LIMIT`.
    pub wcet: u32,
    /// Its direct predecessors in the graph.
    pub after: Afters,
}

/// A periodic task graph. Instance k is released at `k * period + offset` and due `deadline` later.
#[derive(Drop)]
pub struct Graph {
    /// Its name, which no other graph has.
    pub name: Name,
    /// 1 to `SLOT_LIMIT`.
    pub period: u32,
    /// Below the period.
    pub offset: u32,
    /// 1 to `period - offset`.
    pub deadline: u32,
    /// Its tasks: 1 to `TASK_LIMIT`.
    pub tasks: Tasks,
}

/// A task whose jobs arrive at run time, at least `separation` apart.
#[derive(Drop)]
pub struct Sporadic {
    /// Its name, which no other sporadic task has.
    pub name: Name,
    /// Worst-case execution time: 1 to `SLOT_LIMIT`.
    pub wcet: u32,
    /// 1 to `SLOT_LIMIT`.
    pub separation: u32,
    /// 1 to `separation`, from the arrival.
    pub deadline: u32,
}

/// What a task file says.
#[derive(Drop)]
pub struct TaskSet {
    /// Most soft jobs that wait at one time: 1 to `SOFT_LIMIT`.
    pub soft_limit: u32,
    /// Its graphs: 1 to `GRAPH_LIMIT`.
    pub graphs: Graphs,
    /// Its sporadic tasks: at most `SPORADIC_LIMIT`.
    pub sporadics: Sporadics,
}
