//! The row of a job.

ghost use Rattle.std.specs.Prelude.{◌≡◌, ℕ, ◌≤◌, ◌++◌, List, [], length, slice_get, Some, OnOk};
ghost use Rattle.std.specs.Option.{option_map_or};
ghost use Rattle.slot_core.specs.declared.tasks.Task.{Task};
ghost use Rattle.slot_core.specs.declared.TheConstants.{NAME_LIMIT};
ghost use Rattle.slot_core.specs.Output.Texts.{graph_name, key_text, sporadic_name, task_name};
ghost use Rattle.csv_table.specs.Tables.{row_line};
ghost use Rattle.view_jobs.specs.JobRows.{end_after, end_of, end_with, freed_by, graph_of, job_names, job_row, job_kind, less_text, number_of, task_of};

use crate::jobs::Listed;
use crate::tallies::Tally;
use csv_table::{Cell, Rows};
use slot_core::{Graph, Key, Memory, TaskSet};
use trace_text::Line;

/// Appends the row of a job of which this is told.
pub(crate) fn push_job(
    rows: &mut Rows,
    tasks: &TaskSet,
    job: &Listed,
    tally: Tally,
    text: &mut Line,
) -> Result<(), Memory>
    ensures { (before : List ℕ) → rows.old ≡ Some before → OnOk result
        (rows.new ≡ Some (before ++ row_line (job_row tasks.now job.now tally))) }
{
    text.clear();
    push_key(text, tasks, job.key);
    rows.push(&job_cells(tasks, job, tally, text.bytes()))
}

/// The names of the fields.
pub(crate) fn job_names() -> [Cell<'static>; 16]
    ensures { result ≡ job_names }
{
    [
        Cell::text(b"key"),
        Cell::text(b"kind"),
        Cell::text(b"graph"),
        Cell::text(b"task"),
        Cell::text(b"number"),
        Cell::text(b"release"),
        Cell::text(b"start"),
        Cell::text(b"deadline"),
        Cell::text(b"declared"),
        Cell::text(b"ran"),
        Cell::text(b"freed"),
        Cell::text(b"first"),
        Cell::text(b"end"),
        Cell::text(b"response"),
        Cell::text(b"slack"),
        Cell::text(b"preemptions"),
    ]
}

/// The fields of the row of a job, with the text of its key.
fn job_cells<'a>(tasks: &'a TaskSet, job: &Listed, tally: Tally, key: &'a [u8]) -> [Cell<'a>; 16]
    requires { key.now ≡ key_text tasks.now job.now.key }
    ensures { result ≡ job_row tasks.now job.now tally }
{
    let end = end_of(job, tally);
    [
        Cell::text(key),
        Cell::text(job_kind(job.key)),
        Cell::text(graph_of(tasks, job.key)),
        Cell::text(task_of(tasks, job.key)),
        Cell::number(number_of(job.key)),
        Cell::number(job.release),
        Cell::number(job.start),
        Cell::optional(job.deadline),
        Cell::number(u64::from(job.declared)),
        Cell::number(tally.ran),
        Cell::number(freed_of(tally)),
        Cell::optional(tally.first.map(u64::from)),
        Cell::optional(end),
        less(end, Some(job.release)),
        less(job.deadline, end),
        Cell::number(tally.gaps),
    ]
}

/// The first number less the second, or the empty field where one is missing.
fn less(a: Option<u64>, b: Option<u64>) -> Cell<'static>
    ensures { result ≡ less_text a b }
{
    match (a, b) {
        (Some(a), Some(b)) => Cell::difference(a, b),
        _ => Cell::empty(),
    }
}

/// When the job has ended: where it ended early, then, else after its last slot.
pub fn end_of(job: &Listed, tally: Tally) -> Option<u64>
    ensures { result ≡ end_of job.now tally }
{
    match tally.ended {
        Some((time, _)) => Some(u64::from(time)),
        None => end_after(job.declared, tally.ran, tally.last),
    }
}

/// When a job has ended that ran so many slots, the last of them then.
fn end_after(declared: u32, ran: u64, last: Option<u32>) -> Option<u64>
    ensures { result ≡ end_after declared ran last }
{
    match last {
        Some(last) if u64::from(declared) <= ran => Some(u64::from(last) + 1),
        _ => None,
    }
}

/// The slots that its early end freed.
fn freed_of(tally: Tally) -> u64
    ensures { result ≡ freed_by tally.ended }
{
    match tally.ended {
        Some((_, freed)) => u64::from(freed),
        None => 0,
    }
}

/// The kind of the job.
fn job_kind(key: Key) -> &'static [u8]
    ensures { result.now ≡ job_kind key }
{
    match key {
        Key::Offline(_, _, _) => b"offline",
        Key::Sporadic(_, _) => b"sporadic",
        Key::Firm(_) => b"firm",
        Key::Soft(_) => b"soft",
    }
}

/// The instance of an offline job, else the row of the arrival.
fn number_of(key: Key) -> u64
    ensures { result ≡ number_of key }
{
    match key {
        Key::Offline(_, _, instance) => instance,
        Key::Sporadic(_, row) | Key::Firm(row) | Key::Soft(row) => u64::from(row),
    }
}

/// The name of the graph of an offline job.
fn graph_of(tasks: &TaskSet, key: Key) -> &[u8]
    ensures { result.now ≡ graph_of tasks.now key }
{
    match key {
        Key::Offline(graph, _, _) => graph_name(tasks, graph),
        _ => b"",
    }
}

/// The name of the task of an offline job, or of the sporadic task.
fn task_of(tasks: &TaskSet, key: Key) -> &[u8]
    ensures { result.now ≡ task_of tasks.now key }
{
    match key {
        Key::Offline(graph, task, _) => task_name(tasks, graph, task),
        Key::Sporadic(index, _) => sporadic_name(tasks, index),
        Key::Firm(_) | Key::Soft(_) => b"",
    }
}

/// The name of a graph of the set.
pub fn graph_name(tasks: &TaskSet, graph: u16) -> &[u8]
    ensures name { result.now ≡ graph_name tasks.now graph }
    ensures short { length result.now ≤ NAME_LIMIT }
{
    match tasks.graphs.items().get(usize::from(graph)) {
        Some(graph) => graph.name.bytes(),
        None => b"",
    }
}

/// The name of a task of the set.
pub fn task_name(tasks: &TaskSet, graph: u16, task: u16) -> &[u8]
    ensures name { result.now ≡ task_name tasks.now graph task }
    ensures short { length result.now ≤ NAME_LIMIT }
{
    match tasks.graphs.items().get(usize::from(graph)) {
        Some(graph) => task_name_in(graph, task),
        None => b"",
    }
}

/// The name of a task of the graph.
fn task_name_in(graph: &Graph, task: u16) -> &[u8]
    ensures name { result.now
        ≡ option_map_or (λ (t : Task). t.name) (slice_get graph.now.tasks task) [] }
    ensures short { length result.now ≤ NAME_LIMIT }
{
    match graph.tasks.items().get(usize::from(task)) {
        Some(task) => task.name.bytes(),
        None => b"",
    }
}

/// The name of a sporadic task of the set.
pub fn sporadic_name(tasks: &TaskSet, index: u8) -> &[u8]
    ensures name { result.now ≡ sporadic_name tasks.now index }
    ensures short { length result.now ≤ NAME_LIMIT }
{
    match tasks.sporadics.items().get(usize::from(index)) {
        Some(sporadic) => sporadic.name.bytes(),
        None => b"",
    }
}

/// Appends the text of the key.
fn push_key(text: &mut Line, tasks: &TaskSet, key: Key)
    requires { text.old ≡ [] }
    ensures { text.new ≡ key_text tasks.now key }
{
    match key {
        Key::Offline(graph, task, instance) => {
            text.push(graph_name(tasks, graph));
            text.push(b".");
            text.push(task_name(tasks, graph, task));
            text.push(b"#");
            text.number(instance);
        }
        Key::Sporadic(index, row) => {
            text.push(sporadic_name(tasks, index));
            text.push(b"@");
            text.number(u64::from(row));
        }
        Key::Firm(row) => {
            text.push(b"firm:");
            text.number(u64::from(row));
        }
        Key::Soft(row) => {
            text.push(b"soft:");
            text.number(u64::from(row));
        }
    }
}
