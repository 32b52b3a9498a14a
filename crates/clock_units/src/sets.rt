//! Task sets in physical time. All times are in nanoseconds.

use slot_core::{Afters, List, Name};

/// The tasks of a graph.
pub type PhysicalTasks = List<PhysicalTask>;

/// The graphs of a set.
pub type PhysicalGraphs = List<PhysicalGraph>;

/// The sporadic tasks of a set.
pub type PhysicalSporadics = List<PhysicalSporadic>;

/// A task of a graph.
#[derive(Drop)]
pub struct PhysicalTask {
    /// Its name, which no other task of the graph has.
    pub name: Name,
    /// Worst-case execution time, without the overhead of slots.
    pub wcet: u64,
    /// Its direct predecessors in the graph.
    pub after: Afters,
}

/// A periodic task graph. Instance k is released at `k * period + offset` and due `deadline` later.
#[derive(Drop)]
pub struct PhysicalGraph {
    /// Its name, which no other graph has.
    pub name: Name,
    /// A whole number of slots.
    pub period: u64,
    /// From the start of a period to the release.
    pub offset: u64,
    /// From the release.
    pub deadline: u64,
    /// Its tasks.
    pub tasks: PhysicalTasks,
}

/// A task whose jobs arrive at run time, at least `separation` apart.
#[derive(Drop)]
pub struct PhysicalSporadic {
    /// Its name, which no other sporadic task has.
    pub name: Name,
    /// Worst-case execution time, without the overhead of slots.
    pub wcet: u64,
    /// The least time between two arrivals.
    pub separation: u64,
    /// The separation that is planned for: no longer than `separation`, as a longer one is taken for
    /// it. The cycle is a multiple of its slots, rounded down.
    pub planned: u64,
    /// From the arrival, whenever it comes.
    pub deadline: u64,
    /// Whether arrivals come at boundaries of slots alone, as where events are polled there. The
    /// deadline then counts from the boundary, not from the event.
    pub at_boundaries: bool,
}

/// A set of tasks on one processor, with the length of its slots.
#[derive(Drop)]
pub struct PhysicalSet {
    /// The length of a slot.
    pub slot: u64,
    /// The part of each slot that the job which has it does not get: below the slot.
    pub overhead: u64,
    /// Most soft jobs that wait at one time.
    pub soft_limit: u32,
    /// Its graphs.
    pub graphs: PhysicalGraphs,
    /// Its sporadic tasks.
    pub sporadics: PhysicalSporadics,
}
