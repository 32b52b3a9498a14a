//! A task file with the times behind its numbers.

use crate::pieces::{Change, push, push_name, push_number, push_quoted, push_slots};
use clock_units::{PhysicalGraph, PhysicalSet, PhysicalSporadic, PhysicalTask};
use slot_core::{Graph, Memory, Sporadic, Task, TaskSet};
use time_texts::push_time;

/// Appends the task file of the set in slots of a physical one.
pub(crate) fn push_set(
    text: &mut Vec<u8>,
    physical: &PhysicalSet,
    set: &TaskSet,
) -> Result<(), Memory> {
    push_head(text, physical)?;
    push_number(text, "soft", set.soft_limit)?;
    push(text, "\n")?;
    let worth = physical.slot.saturating_sub(physical.overhead);
    for (own, graph) in physical.graphs.items().iter().zip(set.graphs.items()) {
        push_graph(text, physical.slot, worth, own, graph)?;
    }
    for (own, sporadic) in physical.sporadics.items().iter().zip(set.sporadics.items()) {
        push_sporadic(text, physical.slot, worth, own, sporadic)?;
    }
    Ok(())
}

/// Appends what a slot is.
fn push_head(text: &mut Vec<u8>, physical: &PhysicalSet) -> Result<(), Memory> {
    push(text, "# a slot is ")?;
    push_time(text, physical.slot)?;
    push(text, ", of which ")?;
    push_time(text, physical.overhead)?;
    push(text, " are overhead\n")
}

/// What this many slots have more than a time.
fn more(slots: u32, size: u64, time: u64) -> Change {
    Change::More(u64::from(slots).saturating_mul(size).saturating_sub(time))
}

/// What this many slots have less than a time.
fn less(slots: u32, size: u64, time: u64) -> Change {
    Change::Less(time.saturating_sub(u64::from(slots).saturating_mul(size)))
}

/// Appends a graph.
fn push_graph(
    text: &mut Vec<u8>,
    slot: u64,
    worth: u64,
    own: &PhysicalGraph,
    graph: &Graph,
) -> Result<(), Memory> {
    push(text, "\n[[graph]]\n")?;
    push_name(text, &graph.name)?;
    push_slots(text, "period", graph.period, own.period, Change::More(0))?;
    let offset = more(graph.offset, slot, own.offset);
    push_slots(text, "offset", graph.offset, own.offset, offset)?;
    let deadline = less(graph.deadline, slot, own.deadline);
    push_slots(text, "deadline", graph.deadline, own.deadline, deadline)?;
    let tasks = graph.tasks.items();
    for (own, task) in own.tasks.items().iter().zip(tasks) {
        push_task(text, worth, own, tasks, task)?;
    }
    Ok(())
}

/// Appends a task of a graph of these tasks.
fn push_task(
    text: &mut Vec<u8>,
    worth: u64,
    own: &PhysicalTask,
    tasks: &[Task],
    task: &Task,
) -> Result<(), Memory> {
    push(text, "\n[[graph.task]]\n")?;
    push_name(text, &task.name)?;
    let wcet = more(task.wcet, worth, own.wcet);
    push_slots(text, "wcet", task.wcet, own.wcet, wcet)?;
    if task.after.is_empty() {
        return Ok(());
    }
    push(text, "after = [")?;
    push_after(text, tasks, task.after.items())?;
    push(text, "]\n")
}

/// Appends the names of the tasks at these places.
fn push_after(text: &mut Vec<u8>, tasks: &[Task], after: &[u16]) -> Result<(), Memory> {
    for (i, place) in after.iter().enumerate() {
        if i > 0 {
            push(text, ", ")?;
        }
        if let Some(task) = tasks.get(usize::from(*place)) {
            push_quoted(text, &task.name)?;
        }
    }
    Ok(())
}

/// Appends a sporadic task.
fn push_sporadic(
    text: &mut Vec<u8>,
    slot: u64,
    worth: u64,
    own: &PhysicalSporadic,
    sporadic: &Sporadic,
) -> Result<(), Memory> {
    push(text, "\n[[sporadic]]\n")?;
    push_name(text, &sporadic.name)?;
    let wcet = more(sporadic.wcet, worth, own.wcet);
    push_slots(text, "wcet", sporadic.wcet, own.wcet, wcet)?;
    let separation = less(sporadic.separation, slot, own.separation);
    push_slots(
        text,
        "separation",
        sporadic.separation,
        own.separation,
        separation,
    )?;
    let deadline = less(sporadic.deadline, slot, own.deadline);
    push_slots(text, "deadline", sporadic.deadline, own.deadline, deadline)
}
