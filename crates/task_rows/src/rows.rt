//! Rows of the tasks of a set, and of what arrives beside them.

ghost use Rattle.std.specs.Prelude.{◌≡◌, ◌∷◌, [], ◌++◌, Err, IfOk, OnOk, filter, flat_map, map};
ghost use Rattle.run_blocks.specs.declared.faults.RowsFault.TheVariants.{TooMany};
ghost use Rattle.run_blocks.specs.Rows.{AreCrowded, has_row};
ghost use Rattle.task_rows.specs.Rows.{AreTaskRows, first_of_no_task, graph_rows, is_of_no_task, is_for_arrivals, rows_of_tasks, runs_no_task, sporadic_row, task_row};

use run_blocks::{Row, RowsFault, rows_of};
use slot_core::{Graph, Memory, Name, Sporadic, Task, TaskSet};
use std::alloc::Global;
use trace_lines::{KeyName, TraceLine, Words};

/// The rows of the tasks of the set, in its order: those of graphs, and then the sporadic ones.
pub(crate) fn rows_of_tasks(alloc: Global, tasks: &TaskSet) -> Result<Vec<Row>, Memory>
    ensures { IfOk result (λ rows. rows.items ≡ rows_of_tasks tasks.now) }
{
    let mut rows = Vec::new(alloc);
    push_graphs(&mut rows, tasks.graphs.items())?;
    push_sporadics(&mut rows, tasks.sporadics.items())?;
    Ok(rows)
}

/// Appends the rows of the tasks of graphs.
fn push_graphs(rows: &mut Vec<Row>, graphs: &[Graph]) -> Result<(), Memory>
    ensures { OnOk result (rows.new.items ≡ rows.old.items ++ flat_map graph_rows graphs.now) }
{
    for graph in graphs {
        push_graph(rows, graph)?;
    }
    Ok(())
}

/// Appends the rows of the tasks of a graph.
fn push_graph(rows: &mut Vec<Row>, graph: &Graph) -> Result<(), Memory>
    ensures { OnOk result (rows.new.items ≡ rows.old.items ++ graph_rows graph.now) }
{
    for task in graph.tasks.items() {
        rows.push(task_row(&graph.name, &task.name))?;
    }
    Ok(())
}

/// The row of the task of this name of a graph.
pub(crate) fn task_row(graph: &Name, task: &Name) -> Row
    ensures { result ≡ task_row graph.now task.now }
{
    Row::Task(copy_of(graph), copy_of(task))
}

/// Appends the rows of sporadic tasks.
fn push_sporadics(rows: &mut Vec<Row>, sporadics: &[Sporadic]) -> Result<(), Memory>
    ensures { OnOk result (rows.new.items ≡ rows.old.items ++ map sporadic_row sporadics.now) }
{
    for sporadic in sporadics {
        rows.push(Row::Sporadic(copy_of(&sporadic.name)))?;
    }
    Ok(())
}

/// A second name like this one.
pub(crate) fn copy_of(name: &Name) -> Name
    ensures { result ≡ name.now }
{
    Name::of(name.bytes()).unwrap()
}

/// The place of the first line that runs a job for which none of the rows of tasks is.
pub(crate) fn first_of_no_task(rows: &[Row], lines: &[TraceLine]) -> Option<usize>
    ensures { result ≡ first_of_no_task rows.now lines.now }
{
    lines.iter().position(|line| runs_no_task(rows, line))
}

/// Whether the line runs a job of a task for which none of the rows is.
fn runs_no_task(rows: &[Row], line: &TraceLine) -> bool
    ensures { result ≡ runs_no_task rows.now line.now }
{
    match &line.words {
        Words::Run(key) => is_of_no_task(rows, key),
        _ => false,
    }
}

/// Whether the job is of a task for which none of the rows is.
fn is_of_no_task(rows: &[Row], key: &KeyName) -> bool
    ensures { result ≡ is_of_no_task rows.now key.now }
{
    match key {
        KeyName::Offline(_, _, _) | KeyName::Sporadic(_, _) => !has_row(rows, key),
        KeyName::Firm(_) | KeyName::Soft(_) => false,
    }
}

/// Whether one of the rows holds the job.
fn has_row(rows: &[Row], key: &KeyName) -> bool
    ensures { result ≡ has_row rows.now key.now }
{
    rows.iter().any(|row| row.holds(key))
}

/// Appends the rows of firm jobs and of soft work that run in the lines to those of tasks.
pub(crate) fn push_arrivals(
    rows: &mut Vec<Row>,
    alloc: Global,
    lines: &[TraceLine],
) -> Result<(), RowsFault>
    ensures rows { OnOk result (AreTaskRows rows.old.items lines.now rows.new.items) }
    ensures too_many { result ≡ Err TooMany → AreCrowded lines.now }
{
    let shown = rows_of(alloc, lines)?;
    push_those(rows, &shown)?;
    Ok(())
}

/// Appends those of the rows that are of firm jobs or of soft work.
fn push_those(rows: &mut Vec<Row>, run: &[Row]) -> Result<(), Memory>
    ensures { OnOk result
        (rows.new.items ≡ rows.old.items ++ filter is_for_arrivals run.now) }
{
    for row in run {
        push_arrival(rows, row)?;
    }
    Ok(())
}

/// Appends a row like this one, where it is of firm jobs or of soft work.
fn push_arrival(rows: &mut Vec<Row>, row: &Row) -> Result<(), Memory>
    ensures { OnOk result
        (rows.new.items ≡ rows.old.items ++ filter is_for_arrivals (row.now ∷ [])) }
{
    match row {
        Row::Task(_, _) | Row::Sporadic(_) => {}
        Row::FirmJob(number) => rows.push(Row::FirmJob(*number))?,
        Row::Firm => rows.push(Row::Firm)?,
        Row::Soft => rows.push(Row::Soft)?,
    }
    Ok(())
}
