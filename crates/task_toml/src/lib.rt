//! Task files: TOML documents that write a task set.
#![tactic(auto)]

ghost use Rattle.std.specs.Prelude.{◌≡◌, ◌≢◌, Ok, Err, true, IfOk, IfErr};
ghost use Rattle.slot_core.specs.Sets.Ranges.{is_sound};
ghost use Rattle.task_toml.specs.Reading.{document_of, reading_of_tasks};
ghost use Rattle.task_toml.specs.Reading.{graphs_at, shaped_set, sporadics_at};
ghost use Rattle.task_toml.specs.TomlFields.{Answers, AnswersAs};
ghost use Rattle.toml.specs.View.{table_view};

mod fields;
mod graphs;
mod tables;

use fields::{check_keys, number_at};
use graphs::{read_graphs, read_sporadics};
use slot_core::{
    Field, GRAPH_LIMIT, Graphs, Part, SOFT_DEFAULT, SOFT_LIMIT, SPORADIC_LIMIT, Sporadics,
    TaskFault, TaskSet,
};
use source_check::check;
use std::alloc::Global;
use tables::{some_tables_at, tables_at};
use toml::Table;

/// The task set that the bytes of a task file write. Any fault but want of memory is the first
/// fault of the file: its shape table by table, then doubled names, wrong `after` entries, loops
/// and the cycle.
pub fn read_tasks(alloc: Global, bytes: &[u8]) -> Result<TaskSet, TaskFault>
    ensures reading { IfOk result (λ set. reading_of_tasks bytes.now ≡ Ok set) }
    ensures sound { IfOk result (λ set. is_sound set ≡ true) }
    ensures fault { IfErr result (λ e. e ≢ TaskFault.Memory → reading_of_tasks bytes.now ≡ Err e) }
{
    let document = read_document(alloc, bytes)?;
    let set = read_set(alloc, &document)?;
    check(alloc, &set)?;
    Ok(set)
}

/// The top table of the bytes.
fn read_document(alloc: Global, bytes: &[u8]) -> Result<Table, TaskFault>
    ensures { AnswersAs table_view result (document_of bytes.now) }
{
    match toml::table_from_slice(alloc, bytes) {
        Ok(table) => Ok(table),
        Err(error) if error.is_memory() => Err(TaskFault::Memory),
        Err(_) => Err(TaskFault::NotToml),
    }
}

/// The task set of the whole table, its shape alone checked.
fn read_set(alloc: Global, table: &Table) -> Result<TaskSet, TaskFault>
    ensures { Answers result (shaped_set (table_view table.now)) }
{
    let part = Part::Top;
    check_keys(table, part)?;
    let soft_limit = number_at(table, part, Field::Soft, 1, SOFT_LIMIT, Some(SOFT_DEFAULT))?;
    let graphs = graphs_at(alloc, table)?;
    let sporadics = sporadics_at(alloc, table)?;
    Ok(TaskSet {
        soft_limit,
        graphs,
        sporadics,
    })
}

/// The graphs of the whole table.
fn graphs_at(alloc: Global, table: &Table) -> Result<Graphs, TaskFault>
    ensures { Answers result (graphs_at (table_view table.now)) }
{
    let tables = some_tables_at(alloc, table, Part::Top, Field::Graph, GRAPH_LIMIT)?;
    read_graphs(alloc, tables.items())
}

/// The sporadic tasks of the whole table.
fn sporadics_at(alloc: Global, table: &Table) -> Result<Sporadics, TaskFault>
    ensures { Answers result (sporadics_at (table_view table.now)) }
{
    let tables = tables_at(alloc, table, Part::Top, Field::Sporadic, SPORADIC_LIMIT)?;
    read_sporadics(alloc, tables.items())
}
