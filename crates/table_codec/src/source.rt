//! The task set of a table.

ghost use Rattle.std.specs.Prelude.{◌≡◌, ◌≤◌, true, IfOk};
ghost use Rattle.slot_core.specs.declared.TheConstants.{GRAPH_LIMIT, SPORADIC_LIMIT, TASK_LIMIT};
ghost use Rattle.table_codec.specs.Readers.{Reads};
ghost use Rattle.table_codec.specs.Forms.{each};
ghost use Rattle.table_codec.specs.Grammar.{graph_form, index_form, set_form, sporadic_form, task_form};

use crate::TableFault;
use crate::layout::Layout;
use crate::reader::Input;
use slot_core::{
    AFTER_LIMIT, Afters, Field, GRAPH_LIMIT, Graph, Graphs, Part, SLOT_LIMIT, SOFT_LIMIT,
    SPORADIC_LIMIT, Sporadic, Sporadics, TASK_LIMIT, Task, TaskSet, Tasks,
};
use std::alloc::Global;

/// The indexes of the tasks that a task comes after.
fn read_after(alloc: Global, input: &mut Input, count: u16) -> Result<Afters, TableFault>
    ensures { Reads (each (λ _. index_form) count).read result input.old input.new }
{
    let mut after = Afters::new(alloc);
    for _ in 0..count {
        let task = input.index()?;
        after.push(task)?;
    }
    Ok(after)
}

/// A task of a graph.
fn read_task(
    alloc: Global,
    input: &mut Input,
    layout: Layout,
    graph: u16,
    task: u16,
) -> Result<Task, TableFault>
    ensures { Reads (task_form layout graph task).read result input.old input.new }
{
    let part = Part::Task(graph, task);
    let name = input.name(part)?;
    let wcet = input.within(layout, part, Field::Wcet, 1, SLOT_LIMIT)?;
    let count = input.count(part, Field::After, AFTER_LIMIT)?;
    let after = read_after(alloc, input, count)?;
    Ok(Task { name, wcet, after })
}

/// The tasks of a graph, this many.
fn read_tasks(
    alloc: Global,
    input: &mut Input,
    layout: Layout,
    graph: u16,
    count: u16,
) -> Result<Tasks, TableFault>
    ensures { Reads (each (task_form layout graph) count).read result input.old input.new }
{
    let mut tasks = Tasks::new(alloc);
    for t in 0..count {
        let task = read_task(alloc, input, layout, graph, t)?;
        tasks.push(task)?;
    }
    Ok(tasks)
}

/// A graph.
fn read_graph(
    alloc: Global,
    input: &mut Input,
    layout: Layout,
    graph: u16,
) -> Result<Graph, TableFault>
    ensures { Reads (graph_form layout graph).read result input.old input.new }
{
    let part = Part::Graph(graph);
    let name = input.name(part)?;
    let period = input.within(layout, part, Field::Period, 1, SLOT_LIMIT)?;
    let offset = input.within(layout, part, Field::Offset, 0, period - 1)?;
    let deadline = input.within(layout, part, Field::Deadline, 1, period - offset)?;
    let count = input.some(part, Field::Task, TASK_LIMIT)?;
    let tasks = read_tasks(alloc, input, layout, graph, count)?;
    Ok(Graph {
        name,
        period,
        offset,
        deadline,
        tasks,
    })
}

/// The graphs of a set, this many.
fn read_graphs(
    alloc: Global,
    input: &mut Input,
    layout: Layout,
    count: u16,
) -> Result<Graphs, TableFault>
    ensures { Reads (each (graph_form layout) count).read result input.old input.new }
{
    let mut graphs = Graphs::new(alloc);
    for g in 0..count {
        let graph = read_graph(alloc, input, layout, g)?;
        graphs.push(graph)?;
    }
    Ok(graphs)
}

/// A sporadic task.
fn read_sporadic(input: &mut Input, layout: Layout, sporadic: u8) -> Result<Sporadic, TableFault>
    ensures { Reads (sporadic_form layout sporadic).read result input.old input.new }
{
    let part = Part::Sporadic(sporadic);
    let name = input.name(part)?;
    let wcet = input.within(layout, part, Field::Wcet, 1, SLOT_LIMIT)?;
    let separation = input.within(layout, part, Field::Separation, 1, SLOT_LIMIT)?;
    let deadline = input.within(layout, part, Field::Deadline, 1, separation)?;
    Ok(Sporadic {
        name,
        wcet,
        separation,
        deadline,
    })
}

/// The sporadic tasks of a set, this many.
fn read_sporadics(
    alloc: Global,
    input: &mut Input,
    layout: Layout,
    count: u8,
) -> Result<Sporadics, TableFault>
    ensures { Reads (each (sporadic_form layout) count).read result input.old input.new }
{
    let mut sporadics = Sporadics::new(alloc);
    for s in 0..count {
        let sporadic = read_sporadic(input, layout, s)?;
        sporadics.push(sporadic)?;
    }
    Ok(sporadics)
}

/// The task set, each number and name in its range.
pub(crate) fn read_set(
    alloc: Global,
    input: &mut Input,
    layout: Layout,
) -> Result<TaskSet, TableFault>
    ensures { Reads (set_form layout).read result input.old input.new }
{
    let soft_limit = input.within(layout, Part::Top, Field::Soft, 1, SOFT_LIMIT)?;
    let count = input.some(Part::Top, Field::Graph, GRAPH_LIMIT)?;
    let graphs = read_graphs(alloc, input, layout, count)?;
    let count = input.count(Part::Top, Field::Sporadic, SPORADIC_LIMIT)?;
    let sporadics = read_sporadics(alloc, input, layout, count as u8)?;
    Ok(TaskSet {
        soft_limit,
        graphs,
        sporadics,
    })
}
