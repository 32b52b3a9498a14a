//! The table of figures.

ghost use Rattle.std.specs.Prelude.{◌≡◌, ℕ, ◌≤◌, ◌+◌, ◌++◌, List, true, map, length, Some, Err, IfOk, OnOk, OnErr};
ghost use Rattle.std.specs.Io.KnownBytes.{Appends};
ghost use Rattle.slot_core.specs.Calls.Counts.{Rose};
ghost use Rattle.slot_core.specs.Offline.OfflineJobs.{tasks_of};
ghost use Rattle.slot_core.specs.Sets.Ranges.{is_sound};
ghost use Rattle.slot_io.specs.Sinks.{AppendsPart};
ghost use Rattle.csv_table.specs.Tables.{row_line, rows_text};
ghost use Rattle.view_jobs.specs.Tables.{first_unknown};
ghost use Rattle.view_stats.specs.declared.outcomes.Outcome.{Outcome};
ghost use Rattle.view_stats.specs.Groups.{graph_groups, groups_of, sporadic_groups, task_groups};
ghost use Rattle.view_stats.specs.Tables.{group_row, groups_text, stats_text};

use crate::figures::figures_of;
use crate::groups::{Group, outcomes_in, outcomes_of_graph};
use crate::outcomes::{Outcome, outcomes_of};
use crate::rows::{push_figures, stat_names};
use csv_table::{CsvFault, Rows};
use cycle_plan::Plan;
use slot_core::{Memory, Task, TaskSet};
use slot_io::Sink;
use std::alloc::Global;
use trace_lines::{TraceLine, time_of_last};
use view_jobs::JobsFault;
use view_jobs::deeds::first_unknown;

/// Writes a header and a row of figures for each task of the plan's set, each sporadic task, firm
/// jobs, soft jobs and all jobs, by one put of the whole text. They are of the jobs of the table of
/// jobs. Where a line names a task that the set does not have, and where memory runs out, nothing
/// is written. Where the sink failed, a part of the text is written, from its front.
pub fn put_stats<K: Sink>(
    alloc: Global,
    plan: &Plan,
    lines: &[TraceLine],
    out: &mut K,
) -> Result<(), JobsFault>
    ensures text { OnOk result
        (Appends (K.written out.old) (K.written out.new) (stats_text plan.now lines.now)) }
    ensures part { OnErr result
        (AppendsPart (K.written out.old) (K.written out.new) (stats_text plan.now lines.now)) }
    ensures memory { result ≡ Err (JobsFault.Memory) → out.new ≡ out.old }
    ensures counted { K.faults out.old ≤ K.faults out.new }
    ensures failed { result ≡ Err (JobsFault.Failed)
        → Rose (K.faults out.old) (K.faults out.new) }

    // The line of number n, counted from 1, is told exactly where it is the first that names an
    // unknown task.
    ensures no_line { (n : ℕ) → result ≡ Err (JobsFault.NoLine n)
        → (place : ℕ) × (n ≡ place + 1) × (first_unknown plan.now.tasks lines.now ≡ Some place) }
    ensures unknown { (place : ℕ) → first_unknown plan.now.tasks lines.now ≡ Some place
        → result ≡ Err (JobsFault.NoLine (place + 1)) }
    ensures untouched { (n : ℕ) → result ≡ Err (JobsFault.NoLine n) → out.new ≡ out.old }
{
    match first_unknown(plan.tasks(), lines) {
        Some(place) => Err(JobsFault::NoLine(place as u64 + 1)),
        None => match put_known(alloc, plan, lines, out) {
            Ok(()) => Ok(()),
            Err(CsvFault::Memory) => Err(JobsFault::Memory),
            Err(CsvFault::Failed) => Err(JobsFault::Failed),
        },
    }
}

/// Writes the table of lines that name no unknown task.
fn put_known<K: Sink>(
    alloc: Global,
    plan: &Plan,
    lines: &[TraceLine],
    out: &mut K,
) -> Result<(), CsvFault>
    ensures text { OnOk result
        (Appends (K.written out.old) (K.written out.new) (stats_text plan.now lines.now)) }
    ensures part { OnErr result
        (AppendsPart (K.written out.old) (K.written out.new) (stats_text plan.now lines.now)) }
    ensures memory { result ≡ Err (CsvFault.Memory) → out.new ≡ out.old }
    ensures counted { K.faults out.old ≤ K.faults out.new }
    ensures failed { result ≡ Err (CsvFault.Failed)
        → Rose (K.faults out.old) (K.faults out.new) }
{
    let rows = stats_table(alloc, plan, lines)?;
    rows.put(out)
}

/// The table of lines that name no unknown task.
fn stats_table(alloc: Global, plan: &Plan, lines: &[TraceLine]) -> Result<Rows, Memory>
    ensures { IfOk result (λ rows. rows ≡ Some (stats_text plan.now lines.now)) }
{
    let outcomes = outcomes_of(alloc, plan, lines)?;
    groups_table(alloc, plan.tasks(), time_of_last(lines), &outcomes)
}

/// The header and the rows of the groups.
fn groups_table(
    alloc: Global,
    tasks: &TaskSet,
    slots: u32,
    outcomes: &[Outcome],
) -> Result<Rows, Memory>
    requires { is_sound tasks.now ≡ true }
    ensures { IfOk result (λ rows. rows ≡ Some (groups_text tasks.now slots outcomes.now)) }
{
    let mut rows = Rows::new(alloc);
    rows.push(&stat_names())?;
    push_groups(alloc, &mut rows, tasks, slots, outcomes)?;
    Ok(rows)
}

/// Appends the rows of the groups.
fn push_groups(
    alloc: Global,
    rows: &mut Rows,
    tasks: &TaskSet,
    slots: u32,
    outcomes: &[Outcome],
) -> Result<(), Memory>
    requires { is_sound tasks.now ≡ true }
    ensures { (text : List ℕ) → rows.old ≡ Some text → OnOk result (rows.new ≡ Some (text
        ++ rows_text (map (group_row tasks.now slots outcomes.now) (groups_of tasks.now)))) }
{
    push_graphs(alloc, rows, tasks, slots, outcomes)?;
    push_sporadics(alloc, rows, tasks, slots, outcomes)?;
    push_group(alloc, rows, tasks, slots, outcomes, Group::Firm)?;
    push_group(alloc, rows, tasks, slots, outcomes, Group::Soft)?;
    push_group(alloc, rows, tasks, slots, outcomes, Group::All)
}

/// Appends the rows of the tasks of the graphs.
fn push_graphs(
    alloc: Global,
    rows: &mut Rows,
    tasks: &TaskSet,
    slots: u32,
    outcomes: &[Outcome],
) -> Result<(), Memory>
    requires { is_sound tasks.now ≡ true }
    ensures { (text : List ℕ) → rows.old ≡ Some text → OnOk result (rows.new ≡ Some (text
        ++ rows_text (map (group_row tasks.now slots outcomes.now) (graph_groups tasks.now)))) }
{
    for graph in 0..graph_count(tasks) {
        let own = outcomes_of_graph(alloc, graph, outcomes)?;
        push_tasks(alloc, rows, tasks, slots, &own, graph)?;
    }
    Ok(())
}

/// Appends the rows of the tasks of a graph, of these outcomes.
fn push_tasks(
    alloc: Global,
    rows: &mut Rows,
    tasks: &TaskSet,
    slots: u32,
    outcomes: &[Outcome],
    graph: u16,
) -> Result<(), Memory>
    requires { is_sound tasks.now ≡ true }
    ensures { (text : List ℕ) → rows.old ≡ Some text → OnOk result (rows.new ≡ Some (text
        ++ rows_text (map (group_row tasks.now slots outcomes.now)
        (task_groups tasks.now graph)))) }
{
    for task in 0..task_count(tasks, graph) {
        push_group(
            alloc,
            rows,
            tasks,
            slots,
            outcomes,
            Group::Task(graph, task),
        )?;
    }
    Ok(())
}

/// Appends the rows of the sporadic tasks.
fn push_sporadics(
    alloc: Global,
    rows: &mut Rows,
    tasks: &TaskSet,
    slots: u32,
    outcomes: &[Outcome],
) -> Result<(), Memory>
    requires { is_sound tasks.now ≡ true }
    ensures { (text : List ℕ) → rows.old ≡ Some text → OnOk result (rows.new ≡ Some (text
        ++ rows_text (map (group_row tasks.now slots outcomes.now)
        (sporadic_groups tasks.now)))) }
{
    for index in 0..sporadic_count(tasks) {
        push_group(alloc, rows, tasks, slots, outcomes, Group::Sporadic(index))?;
    }
    Ok(())
}

/// Appends the row of a group.
fn push_group(
    alloc: Global,
    rows: &mut Rows,
    tasks: &TaskSet,
    slots: u32,
    outcomes: &[Outcome],
    group: Group,
) -> Result<(), Memory>
    ensures { (text : List ℕ) → rows.old ≡ Some text → OnOk result (rows.new
        ≡ Some (text ++ row_line (group_row tasks.now slots outcomes.now group))) }
{
    let own = outcomes_in(alloc, group, outcomes)?;
    let figures = figures_of(alloc, slots, &own)?;
    push_figures(rows, tasks, group, figures)
}

/// The number of graphs.
fn graph_count(tasks: &TaskSet) -> u16
    requires { is_sound tasks.now ≡ true }
    ensures { result ≡ length tasks.now.graphs }
{
    tasks.graphs.len() as u16
}

/// The number of tasks of a graph.
fn task_count(tasks: &TaskSet, graph: u16) -> u16
    requires { is_sound tasks.now ≡ true }
    ensures { result ≡ length (tasks_of tasks.now graph) }
{
    tasks_of(tasks, graph).len() as u16
}

/// The tasks of a graph.
fn tasks_of(tasks: &TaskSet, graph: u16) -> &[Task]
    ensures { result.now ≡ tasks_of tasks.now graph }
{
    match tasks.graphs.items().get(usize::from(graph)) {
        Some(graph) => graph.tasks.items(),
        None => &[],
    }
}

/// The number of sporadic tasks.
fn sporadic_count(tasks: &TaskSet) -> u8
    requires { is_sound tasks.now ≡ true }
    ensures { result ≡ length tasks.now.sporadics }
{
    tasks.sporadics.len() as u8
}
