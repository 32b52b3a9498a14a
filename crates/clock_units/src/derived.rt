//! The set in slots that stands for a set in physical time.

ghost use Rattle.std.specs.Prelude.{◌≡◌, ◌<◌, ◌≤◌, ◌^◌, length, nat_lt, true, false, IfOk, MatchResult};
ghost use Rattle.slot_core.specs.Sets.Ranges.{is_in_range};
ghost use Rattle.clock_units.specs.Derived.{Answers, derived_set, each, graph_of, in_range, is_shaped, period_of, sporadic_of, task_of, wcet_of, worth_of};

use crate::faults::UnitFault;
use crate::rounding::{down, graph_deadline, separation, sporadic_deadline, up};
use crate::sets::{PhysicalGraph, PhysicalSet, PhysicalSporadic, PhysicalTask};
use slot_core::{
    Field, GRAPH_LIMIT, Graph, Graphs, Name, Part, Place, SLOT_LIMIT, SOFT_LIMIT, SPORADIC_LIMIT,
    Sporadic, Sporadics, TASK_LIMIT, Task, TaskSet, Tasks,
};
use std::alloc::Global;

/// The set in slots that stands for the set in physical time. Any fault but want of memory is its
/// first: the slot, the limit of soft jobs, then graph by graph, and then the sporadic tasks. Names
/// are taken as they are, and so are `after` entries.
pub fn slots_of(alloc: Global, set: &PhysicalSet) -> Result<TaskSet, UnitFault>
    ensures derived { Answers result (derived_set set.now) }
    ensures range { IfOk result (λ slots. is_shaped set.now ≡ true → is_in_range slots ≡ true) }
{
    derive_set(alloc, set)
}

/// The same, but for the ranges.
fn derive_set(alloc: Global, set: &PhysicalSet) -> Result<TaskSet, UnitFault>
    ensures { Answers result (derived_set set.now) }
{
    let worth = worth_of(set)?;
    let soft_limit = in_range(
        Part::Top,
        Field::Soft,
        1,
        SOFT_LIMIT,
        u64::from(set.soft_limit),
    )?;
    let graphs = set.graphs.items();
    check_count(Part::Top, Field::Graph, GRAPH_LIMIT, graphs.len())?;
    let graphs = graphs_of(alloc, set.slot, worth, graphs)?;
    let sporadics = set.sporadics.items();
    check_count(Part::Top, Field::Sporadic, SPORADIC_LIMIT, sporadics.len())?;
    let sporadics = sporadics_of(alloc, set.slot, worth, sporadics)?;
    Ok(TaskSet {
        soft_limit,
        graphs,
        sporadics,
    })
}

/// What a slot is worth to the job that has it.
fn worth_of(set: &PhysicalSet) -> Result<u64, UnitFault>
    ensures worth { result ≡ worth_of set.now }
    ensures some { IfOk result (λ worth. (0 < worth) × (0 < set.now.slot)) }
{
    if set.overhead >= set.slot {
        return Err(UnitFault::NoWorth);
    }
    Ok(set.slot - set.overhead)
}

/// So many slots, where they are from `low` to `high`.
fn in_range(part: Part, field: Field, low: u32, high: u32, slots: u64) -> Result<u32, UnitFault>
    ensures reading { result ≡ in_range (record { part = part; field = field }) low high slots }
    ensures range { IfOk result (λ n. (low ≤ n) × (n ≤ high)) }
{
    if slots < u64::from(low) || slots > u64::from(high) {
        return Err(UnitFault::OutOfRange(Place { part, field }, slots));
    }
    Ok(slots as u32)
}

/// Refuses a count above the limit.
fn check_count(part: Part, field: Field, limit: usize, count: usize) -> Result<(), UnitFault>
    ensures { MatchResult result
        (λ _. nat_lt limit count ≡ false)
        (λ e. (nat_lt limit count ≡ true)
        × (e ≡ UnitFault.TooMany (record { part = part; field = field }) count)) }
{
    if limit < count {
        return Err(UnitFault::TooMany(Place { part, field }, count as u64));
    }
    Ok(())
}

/// The slots that reach a worst case, where each is worth so much.
fn wcet_of(part: Part, worth: u64, wcet: u64) -> Result<u32, UnitFault>
    requires { 0 < worth }
    ensures { result ≡ wcet_of part worth wcet }
{
    in_range(part, Field::Wcet, 1, SLOT_LIMIT, up(worth, wcet))
}

/// A second name like this one.
fn copy_name(name: &Name) -> Name
    ensures { result ≡ name.now }
{
    Name::of(name.bytes()).unwrap()
}

/// Task `task` of graph `graph`.
fn task_of(
    alloc: Global,
    worth: u64,
    graph: u16,
    task: u16,
    physical: &PhysicalTask,
) -> Result<Task, UnitFault>
    requires { 0 < worth }
    ensures { Answers result (task_of worth graph task physical.now) }
{
    let wcet = wcet_of(Part::Task(graph, task), worth, physical.wcet)?;
    let after = physical.after.copy(alloc)?;
    Ok(Task {
        name: copy_name(&physical.name),
        wcet,
        after,
    })
}

/// The tasks of graph `graph`.
fn tasks_of(
    alloc: Global,
    worth: u64,
    graph: u16,
    physical: &[PhysicalTask],
) -> Result<Tasks, UnitFault>
    requires worth { 0 < worth }
    requires few { length physical.now ≤ TASK_LIMIT }
    ensures { Answers result (each (task_of worth graph) 0 physical.now) }
{
    let mut tasks = Tasks::new(alloc);
    for (t, task) in physical.iter().enumerate() {
        let task = task_of(alloc, worth, graph, t as u16, task)?;
        tasks.push(task)?;
    }
    Ok(tasks)
}

/// The slots of a period, which are a whole number.
fn period_of(slot: u64, part: Part, period: u64) -> Result<u32, UnitFault>
    requires { 0 < slot }
    ensures reading { result ≡ period_of part slot period }
    ensures range { IfOk result (λ n. (1 ≤ n) × (n ≤ SLOT_LIMIT)) }
{
    if period % slot != 0 {
        return Err(UnitFault::NotWhole(Place {
            part,
            field: Field::Period,
        }));
    }
    in_range(part, Field::Period, 1, SLOT_LIMIT, down(slot, period))
}

/// Graph `graph`.
fn graph_of(
    alloc: Global,
    slot: u64,
    worth: u64,
    graph: u16,
    physical: &PhysicalGraph,
) -> Result<Graph, UnitFault>
    requires slot { 0 < slot }
    requires worth { 0 < worth }
    ensures { Answers result (graph_of slot worth graph physical.now) }
{
    let part = Part::Graph(graph);
    let period = period_of(slot, part, physical.period)?;
    let offset = in_range(
        part,
        Field::Offset,
        0,
        period - 1,
        up(slot, physical.offset),
    )?;
    let longest = period - offset;
    let deadline = graph_deadline(slot, physical);
    let deadline = in_range(part, Field::Deadline, 1, longest, deadline)?;
    let tasks = physical.tasks.items();
    check_count(part, Field::Task, TASK_LIMIT, tasks.len())?;
    let tasks = tasks_of(alloc, worth, graph, tasks)?;
    Ok(Graph {
        name: copy_name(&physical.name),
        period,
        offset,
        deadline,
        tasks,
    })
}

/// The graphs.
fn graphs_of(
    alloc: Global,
    slot: u64,
    worth: u64,
    physical: &[PhysicalGraph],
) -> Result<Graphs, UnitFault>
    requires slot { 0 < slot }
    requires worth { 0 < worth }
    requires few { length physical.now ≤ GRAPH_LIMIT }
    ensures { Answers result (each (graph_of slot worth) 0 physical.now) }
{
    let mut graphs = Graphs::new(alloc);
    for (g, graph) in physical.iter().enumerate() {
        let graph = graph_of(alloc, slot, worth, g as u16, graph)?;
        graphs.push(graph)?;
    }
    Ok(graphs)
}

/// Sporadic task `index`.
fn sporadic_of(
    slot: u64,
    worth: u64,
    index: u8,
    physical: &PhysicalSporadic,
) -> Result<Sporadic, UnitFault>
    requires slot { 0 < slot }
    requires worth { 0 < worth }
    ensures { result ≡ sporadic_of slot worth index physical.now }
{
    let part = Part::Sporadic(index);
    let wcet = wcet_of(part, worth, physical.wcet)?;
    let apart = separation(slot, physical);
    let separation = in_range(part, Field::Separation, 1, SLOT_LIMIT, apart)?;
    let due = sporadic_deadline(slot, physical);
    let deadline = in_range(part, Field::Deadline, 1, separation, due)?;
    Ok(Sporadic {
        name: copy_name(&physical.name),
        wcet,
        separation,
        deadline,
    })
}

/// The sporadic tasks.
fn sporadics_of(
    alloc: Global,
    slot: u64,
    worth: u64,
    physical: &[PhysicalSporadic],
) -> Result<Sporadics, UnitFault>
    requires slot { 0 < slot }
    requires worth { 0 < worth }
    requires few { length physical.now ≤ SPORADIC_LIMIT }
    ensures { Answers result (each (sporadic_of slot worth) 0 physical.now) }
{
    let mut sporadics = Sporadics::new(alloc);
    for (s, sporadic) in physical.iter().enumerate() {
        let sporadic = sporadic_of(slot, worth, s as u8, sporadic)?;
        sporadics.push(sporadic)?;
    }
    Ok(sporadics)
}
