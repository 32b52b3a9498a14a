//! Marks in the rows of tasks, at the release and at the deadline of each job.

ghost use Rattle.std.specs.Prelude.{◌≡◌, ◌≤◌, ◌<◌, ◌^◌, ◌++◌, true, OnOk, IfOk, flat_map};
ghost use Rattle.slot_core.specs.Sets.Ranges.{graph_in_range, is_sound};
ghost use Rattle.task_rows.specs.Marks.{first_instance, graph_marks, instance_count, job_marks, line_marks, marks_of, row_of_sporadic, row_of_task, task_marks, window_marks};

use crate::rows::copy_of;
use run_blocks::{Row, row_at};
use slot_core::{Graph, Memory, Name, Spo, Task, TaskSet};
use std::alloc::Global;
use trace_lines::{KeyName, TraceLine, Words, time_of_first, time_of_last};
use view_picture::{Moment, RowMark};

/// The times at which a picture begins and ends.
#[derive(Clone, Copy)]
pub(crate) struct Edges {
    pub first: u32,
    pub last: u32,
}

/// The marks of the jobs of the tasks of the set, whose rows these are, that touch the slots of the
/// lines; and of the sporadic jobs that are taken in them.
pub(crate) fn marks_of(
    alloc: Global,
    tasks: &TaskSet,
    rows: &[Row],
    lines: &[TraceLine],
) -> Result<Vec<RowMark>, Memory>
    requires { is_sound tasks.now ≡ true }
    ensures { IfOk result (λ marks. marks.items ≡ marks_of tasks.now rows.now lines.now) }
{
    let edges = Edges {
        first: time_of_first(lines),
        last: time_of_last(lines),
    };
    let mut marks = Vec::new(alloc);
    push_graphs(&mut marks, tasks, rows, edges)?;
    push_taken(&mut marks, rows, lines)?;
    Ok(marks)
}

/// Appends the marks of the jobs of graphs.
fn push_graphs(
    marks: &mut Vec<RowMark>,
    tasks: &TaskSet,
    rows: &[Row],
    edges: Edges,
) -> Result<(), Memory>
    requires { is_sound tasks.now ≡ true }
    ensures { OnOk result (marks.new.items
        ≡ marks.old.items ++ flat_map (graph_marks rows.now edges) tasks.now.graphs) }
{
    for graph in tasks.graphs.items() {
        push_graph(marks, graph, rows, edges)?;
    }
    Ok(())
}

/// Appends the marks of the jobs of a graph.
fn push_graph(
    marks: &mut Vec<RowMark>,
    graph: &Graph,
    rows: &[Row],
    edges: Edges,
) -> Result<(), Memory>
    requires { graph_in_range graph.now ≡ true }
    ensures { OnOk result (marks.new.items
        ≡ marks.old.items ++ graph_marks rows.now edges graph.now) }
{
    for task in graph.tasks.items() {
        push_task(marks, graph, row_of_task(rows, graph, task), edges)?;
    }
    Ok(())
}

/// The place of the row of a task of the graph.
fn row_of_task(rows: &[Row], graph: &Graph, task: &Task) -> usize
    ensures { result ≡ row_of_task rows.now graph.now task.now }
{
    let key = KeyName::Offline(copy_of(&graph.name), copy_of(&task.name), 0);
    row_at(rows, &key)
}

/// Appends the marks of the jobs of a task of the graph, in its row.
fn push_task(
    marks: &mut Vec<RowMark>,
    graph: &Graph,
    row: usize,
    edges: Edges,
) -> Result<(), Memory>
    requires { graph_in_range graph.now ≡ true }
    ensures { OnOk result (marks.new.items
        ≡ marks.old.items ++ task_marks graph.now edges row) }
{
    let first = first_instance(graph, edges);
    for n in 0..instance_count(graph, edges) {
        push_window(marks, graph, row, first + n)?;
    }
    Ok(())
}

/// The first instance of which marks are wanted: that before the one in whose period the picture
/// begins.
fn first_instance(graph: &Graph, edges: Edges) -> u64
    requires { graph_in_range graph.now ≡ true }
    ensures first { result ≡ first_instance graph.now edges }
    ensures few { result < 2 ^ 32 }
{
    u64::from(edges.first / graph.period).saturating_sub(1)
}

/// How many are wanted: up to the one in whose period the picture ends.
fn instance_count(graph: &Graph, edges: Edges) -> u64
    requires { graph_in_range graph.now ≡ true }
    ensures count { result ≡ instance_count graph.now edges }
    ensures few { result ≤ 2 ^ 32 }
{
    let end = u64::from(edges.last / graph.period) + 1;
    end.saturating_sub(first_instance(graph, edges))
}

/// Appends the marks of an instance of the graph, in this row.
fn push_window(
    marks: &mut Vec<RowMark>,
    graph: &Graph,
    row: usize,
    instance: u64,
) -> Result<(), Memory>
    requires graph { graph_in_range graph.now ≡ true }
    requires instance { instance < 2 ^ 34 }
    ensures { OnOk result (marks.new.items
        ≡ marks.old.items ++ window_marks graph.now row instance) }
{
    let release = instance * u64::from(graph.period) + u64::from(graph.offset);
    let deadline = release + u64::from(graph.deadline);
    push_both(marks, row, release, deadline)
}

/// Appends the marks of a job in its row.
fn push_both(
    marks: &mut Vec<RowMark>,
    row: usize,
    release: u64,
    deadline: u64,
) -> Result<(), Memory>
    ensures { OnOk result (marks.new.items ≡ marks.old.items ++ job_marks row release deadline) }
{
    marks.push(RowMark {
        row,
        time: release,
        moment: Moment::Release,
    })?;
    marks.push(RowMark {
        row,
        time: deadline,
        moment: Moment::Deadline,
    })?;
    Ok(())
}

/// Appends the marks of the sporadic jobs that are taken in the lines.
fn push_taken(marks: &mut Vec<RowMark>, rows: &[Row], lines: &[TraceLine]) -> Result<(), Memory>
    ensures { OnOk result (marks.new.items
        ≡ marks.old.items ++ flat_map (line_marks rows.now) lines.now) }
{
    for line in lines {
        push_line(marks, rows, line)?;
    }
    Ok(())
}

/// Appends the marks of the sporadic job that is taken in the line, if one is.
fn push_line(marks: &mut Vec<RowMark>, rows: &[Row], line: &TraceLine) -> Result<(), Memory>
    ensures { OnOk result (marks.new.items ≡ marks.old.items ++ line_marks rows.now line.now) }
{
    match &line.words {
        Words::Sporadic(row, name, Spo::Taken(due)) => {
            let place = row_of_sporadic(rows, name, *row);
            push_both(marks, place, u64::from(line.time), *due)
        }
        _ => Ok(()),
    }
}

/// The place of the row of a sporadic job.
fn row_of_sporadic(rows: &[Row], name: &Name, row: u32) -> usize
    ensures { result ≡ row_of_sporadic rows.now name.now row }
{
    row_at(rows, &KeyName::Sporadic(copy_of(name), row))
}
