//! Tasks, graphs and sporadic tasks of a file of units.

ghost use Rattle.std.specs.Prelude.{◌≡◌, ◌≢◌, ◌≤◌, length, map, IfOk, IfErr, OnOk};
ghost use Rattle.std.specs.Str.{bytes_eq};
ghost use Rattle.unit_toml.specs.Reading.{each, task_of, graph_of, sporadic_of};
ghost use Rattle.unit_toml.specs.Reading.{place_of_name, with_indexes};
ghost use Rattle.unit_toml.specs.UnitFields.{Answers, AnswersAs};
ghost use Rattle.toml.specs.View.{table_view};

use crate::faults::UnitsFault;
use crate::fields::{boundaries_at, check_keys, name_at, time_at, time_within};
use crate::keys::UnitKey;
use crate::tables::{some_tables_at, texts_at};
use clock_units::{
    PhysicalGraph, PhysicalGraphs, PhysicalSporadic, PhysicalSporadics, PhysicalTask, PhysicalTasks,
};
use slot_core::{AFTER_LIMIT, Afters, GRAPH_LIMIT, List, Name, Part, SPORADIC_LIMIT, TASK_LIMIT};
use std::alloc::Global;
use std::marker::Model;
use toml::Table;

/// A task whose `after` entries are still names.
#[derive(Drop)]
struct NamedTask<'a> {
    name: Name,
    wcet: u64,
    after: List<&'a str>,
}

impl<'a> Model for NamedTask<'a> {
    ghost use Rattle.std.specs.Prelude.{map};
    ghost use Rattle.unit_toml.specs.Reading.{NamedTask};

    ghost Value = { NamedTask };

    ghost view = { λ t. record { name = t.name; wcet = t.wcet; after = map (λ s. s.now) t.after } };
}

/// The task of a table.
fn read_task<'a>(
    alloc: Global,
    graph: u16,
    task: u16,
    table: &'a Table,
) -> Result<NamedTask<'a>, UnitsFault>
    ensures { Answers result (task_of graph task (table_view table.now)) }
{
    let part = Part::Task(graph, task);
    check_keys(table, part)?;
    let name = name_at(table, part, UnitKey::Name)?;
    let wcet = time_at(table, part, UnitKey::Wcet, None)?;
    let after = texts_at(alloc, table, part, UnitKey::After, AFTER_LIMIT)?;
    Ok(NamedTask { name, wcet, after })
}

/// The tasks of the tables of a graph.
fn read_named_tasks<'a>(
    alloc: Global,
    graph: u16,
    tables: &[&'a Table],
) -> Result<Vec<NamedTask<'a>>, UnitsFault>
    requires { length tables.now ≤ TASK_LIMIT }
    ensures reading { AnswersAs (λ tasks. tasks.items) result
        (each (task_of graph) 0 (map (λ t. table_view t.now) tables.now)) }
    ensures count { IfOk result (λ tasks. length tasks.items ≡ length tables.now) }
{
    let mut tasks = Vec::new(alloc);
    for (t, table) in tables.iter().enumerate() {
        tasks.push(read_task(alloc, graph, t as u16, table)?)?;
    }
    Ok(tasks)
}

/// Whether the task has this name.
fn is_named(task: &NamedTask, name: &str) -> bool
    ensures { result ≡ bytes_eq task.now.name name.now }
{
    task.name.bytes() == name.as_bytes()
}

/// The place of the first task of this name, or the number of tasks where there is none.
fn place_of_name(tasks: &[NamedTask], name: &str) -> u16
    requires { length tasks.now ≤ TASK_LIMIT }
    ensures { result ≡ place_of_name tasks.now name.now }
{
    for (t, task) in tasks.iter().enumerate() {
        if is_named(task, name) {
            return t as u16;
        }
    }
    tasks.len() as u16
}

/// The places of the tasks of these names.
fn places_of_names(alloc: Global, tasks: &[NamedTask], names: &[&str]) -> Result<Afters, UnitsFault>
    requires { length tasks.now ≤ TASK_LIMIT }
    ensures ok { IfOk result
        (λ places. places ≡ map (place_of_name tasks.now) (map (λ name. name.now) names.now)) }
    ensures memory { IfErr result (λ e. e ≡ UnitsFault.Memory) }
{
    let mut places = Afters::new(alloc);
    for name in names {
        places.push(place_of_name(tasks, name))?;
    }
    Ok(places)
}

/// The `after` lists of the tasks as places.
fn places_after(alloc: Global, tasks: &[NamedTask]) -> Result<Vec<Afters>, UnitsFault>
    requires { length tasks.now ≤ TASK_LIMIT }
    ensures ok { IfOk result
        (λ lists. lists.items ≡ map (λ t. map (place_of_name tasks.now) t.after) tasks.now) }
    ensures memory { IfErr result (λ e. e ≡ UnitsFault.Memory) }
{
    let mut lists = Vec::new(alloc);
    for task in tasks {
        lists.push(places_of_names(alloc, tasks, task.after.items())?)?;
    }
    Ok(lists)
}

/// The tasks, with places in their `after` lists.
fn with_indexes(alloc: Global, named: Vec<NamedTask>) -> Result<PhysicalTasks, UnitsFault>
    requires { length named.items ≤ TASK_LIMIT }
    ensures ok { IfOk result
        (λ tasks. tasks ≡ map (with_indexes named.entry.items) named.entry.items) }
    ensures memory { IfErr result (λ e. e ≡ UnitsFault.Memory) }
{
    let lists = places_after(alloc, &named)?;
    let mut tasks = PhysicalTasks::new(alloc);
    for (task, after) in named.into_iter().zip(lists) {
        let NamedTask {
            name,
            wcet,
            after: _,
        } = task;
        tasks.push(PhysicalTask { name, wcet, after })?;
    }
    Ok(tasks)
}

/// The graph of a table.
fn read_graph(alloc: Global, graph: u16, table: &Table) -> Result<PhysicalGraph, UnitsFault>
    ensures { Answers result (graph_of graph (table_view table.now)) }
{
    let part = Part::Graph(graph);
    check_keys(table, part)?;
    let name = name_at(table, part, UnitKey::Name)?;
    let period = time_at(table, part, UnitKey::Period, None)?;
    let offset = time_at(table, part, UnitKey::Offset, Some(0))?;
    let rest = period.saturating_sub(offset);
    let deadline = time_at(table, part, UnitKey::Deadline, Some(rest))?;
    let tables = some_tables_at(alloc, table, part, UnitKey::Task, TASK_LIMIT)?;
    let named = read_named_tasks(alloc, graph, tables.items())?;
    let tasks = with_indexes(alloc, named)?;
    Ok(PhysicalGraph {
        name,
        period,
        offset,
        deadline,
        tasks,
    })
}

/// The graphs of the tables.
pub(crate) fn read_graphs(alloc: Global, tables: &[&Table]) -> Result<PhysicalGraphs, UnitsFault>
    requires { length tables.now ≤ GRAPH_LIMIT }
    ensures { Answers result (each graph_of 0 (map (λ t. table_view t.now) tables.now)) }
{
    let mut graphs = PhysicalGraphs::new(alloc);
    for (g, table) in tables.iter().enumerate() {
        let graph = read_graph(alloc, g as u16, table)?;
        graphs.push(graph)?;
    }
    Ok(graphs)
}

/// The sporadic task of a table.
fn read_sporadic(sporadic: u8, table: &Table) -> Result<PhysicalSporadic, UnitsFault>
    ensures { result ≡ sporadic_of sporadic (table_view table.now) }
{
    let part = Part::Sporadic(sporadic);
    check_keys(table, part)?;
    let name = name_at(table, part, UnitKey::Name)?;
    let wcet = time_at(table, part, UnitKey::Wcet, None)?;
    let separation = time_at(table, part, UnitKey::Separation, None)?;
    let planned = time_within(table, part, UnitKey::Plan, separation)?;
    let deadline = time_at(table, part, UnitKey::Deadline, Some(separation))?;
    let at_boundaries = boundaries_at(table, part, UnitKey::Arrives)?;
    Ok(PhysicalSporadic {
        name,
        wcet,
        separation,
        planned,
        deadline,
        at_boundaries,
    })
}

/// The sporadic tasks of the tables.
pub(crate) fn read_sporadics(
    alloc: Global,
    tables: &[&Table],
) -> Result<PhysicalSporadics, UnitsFault>
    requires { length tables.now ≤ SPORADIC_LIMIT }
    ensures { Answers result (each sporadic_of 0 (map (λ t. table_view t.now) tables.now)) }
{
    let mut sporadics = PhysicalSporadics::new(alloc);
    for (s, table) in tables.iter().enumerate() {
        let sporadic = read_sporadic(s as u8, table)?;
        sporadics.push(sporadic)?;
    }
    Ok(sporadics)
}
