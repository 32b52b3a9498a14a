//! The labels of rows.

ghost use Rattle.std.specs.Prelude.{◌≡◌, ◌≤◌, ◌+◌, ◌++◌, true, length};
ghost use Rattle.std.specs.List.{list_all};
ghost use Rattle.slot_core.specs.declared.TheConstants.{NAME_LIMIT};
ghost use Rattle.slot_core.specs.Output.Charts.{row_label, task_row};
ghost use Rattle.trace_text.specs.declared.TheConstants.{LINE_LIMIT};
ghost use Rattle.gantt_print.specs.declared.labels.TheConstants.{LABEL_LIMIT};
ghost use Rattle.gantt_print.specs.Drawings.{MarkedRow, rows_width};
ghost use Rattle.gantt_print.specs.Rows.{is_row_of, row_of};

use crate::rows::{Row, Track};
use slot_core::{NAME_LIMIT, Name, TaskSet};
use trace_text::Line;

/// Most bytes of a label: two names and a point.
pub const LABEL_LIMIT: usize = 2 * NAME_LIMIT + 1;

/// Appends the label of a row of the task set.
pub fn push_label(line: &mut Line, row: Row, tasks: &TaskSet)
    requires named { is_row_of tasks.now (row_of row) ≡ true }
    requires room { length line.old + LABEL_LIMIT ≤ LINE_LIMIT }
    ensures text { line.new ≡ line.old ++ row_label tasks.now (row_of row) }
    ensures short { length line.new ≤ length line.old + LABEL_LIMIT }
{
    match row {
        Row::Task(graph, task) => push_task(line, graph, task, tasks),
        Row::Sporadic(index) => push_name(line, &tasks.sporadics.items()[usize::from(index)].name),
        Row::Firm => line.push(b"firm"),
        Row::Soft => line.push(b"soft"),
    }
}

/// Appends the names of the graph and of the task, a point between them.
fn push_task(line: &mut Line, graph: u16, task: u16, tasks: &TaskSet)
    requires named { is_row_of tasks.now (task_row graph task) ≡ true }
    requires room { length line.old + LABEL_LIMIT ≤ LINE_LIMIT }
    ensures text { line.new ≡ line.old ++ row_label tasks.now (task_row graph task) }
    ensures short { length line.new ≤ length line.old + LABEL_LIMIT }
{
    let graph = &tasks.graphs.items()[usize::from(graph)];
    push_name(line, &graph.name);
    line.push(b".");
    push_name(line, &graph.tasks.items()[usize::from(task)].name);
}

/// Appends the name.
fn push_name(line: &mut Line, name: &Name)
    requires { length line.old + NAME_LIMIT ≤ LINE_LIMIT }
    ensures text { line.new ≡ line.old ++ name.now }
    ensures short { length line.new ≤ length line.old + NAME_LIMIT }
{
    line.push(name.bytes());
}

/// The length of the longest label of these rows of the task set.
pub(crate) fn label_width(tracks: &[Track], tasks: &TaskSet) -> usize
    requires { list_all (λ (t : MarkedRow). is_row_of tasks.now t.row) tracks.now ≡ true }
    ensures width { result ≡ rows_width tasks.now tracks.now }
    ensures short { result ≤ LABEL_LIMIT }
{
    let mut width = 0;
    let mut line = Line::new();
    for track in tracks {
        line.clear();
        push_label(&mut line, track.row(), tasks);
        width = width.max(line.bytes().len());
    }
    width
}
