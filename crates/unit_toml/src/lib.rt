//! Files of units: TOML documents that write a set in physical time, with the length of its slots.
#![tactic(auto)]

ghost use Rattle.std.specs.Prelude.{◌≡◌, ◌≢◌, Ok, Err, true, IfOk, IfErr};
ghost use Rattle.clock_units.specs.Derived.{is_shaped};
ghost use Rattle.toml.specs.View.{table_view};
ghost use Rattle.unit_toml.specs.Reading.{document_of, graphs_at, reading_of_units, shaped_set, sporadics_at};
ghost use Rattle.unit_toml.specs.UnitFields.{Answers, AnswersAs};

pub mod faults;
mod fields;
mod graphs;
pub mod keys;
mod tables;

use clock_units::{PhysicalGraphs, PhysicalSet, PhysicalSporadics};
pub use faults::UnitsFault;
use fields::{check_keys, number_at, some_time_at, time_at};
use graphs::{read_graphs, read_sporadics};
pub use keys::{UnitKey, UnitPlace};
use slot_core::{GRAPH_LIMIT, Part, SOFT_DEFAULT, SOFT_LIMIT, SPORADIC_LIMIT};
use std::alloc::Global;
use tables::{some_tables_at, tables_at};
use toml::Table;

/// The set in physical time that the bytes of a file of units write. Any fault but want of memory
/// is the first fault of the file, table by table.
pub fn read_units(alloc: Global, bytes: &[u8]) -> Result<PhysicalSet, UnitsFault>
    ensures reading { IfOk result (λ set. reading_of_units bytes.now ≡ Ok set) }
    ensures shaped { IfOk result (λ set. is_shaped set ≡ true) }
    ensures fault { IfErr result
        (λ e. e ≢ UnitsFault.Memory → reading_of_units bytes.now ≡ Err e) }
{
    let document = read_document(alloc, bytes)?;
    read_set(alloc, &document)
}

/// The top table of the bytes.
fn read_document(alloc: Global, bytes: &[u8]) -> Result<Table, UnitsFault>
    ensures { AnswersAs table_view result (document_of bytes.now) }
{
    match toml::table_from_slice(alloc, bytes) {
        Ok(table) => Ok(table),
        Err(error) if error.is_memory() => Err(UnitsFault::Memory),
        Err(_) => Err(UnitsFault::NotToml),
    }
}

/// The set of the whole table.
fn read_set(alloc: Global, table: &Table) -> Result<PhysicalSet, UnitsFault>
    ensures { Answers result (shaped_set (table_view table.now)) }
{
    let part = Part::Top;
    check_keys(table, part)?;
    let slot = some_time_at(table, part, UnitKey::Slot)?;
    let overhead = time_at(table, part, UnitKey::Overhead, Some(0))?;
    let soft_limit = number_at(table, part, UnitKey::Soft, 1, SOFT_LIMIT, SOFT_DEFAULT)?;
    let graphs = graphs_at(alloc, table)?;
    let sporadics = sporadics_at(alloc, table)?;
    Ok(PhysicalSet {
        slot,
        overhead,
        soft_limit,
        graphs,
        sporadics,
    })
}

/// The graphs of the whole table.
fn graphs_at(alloc: Global, table: &Table) -> Result<PhysicalGraphs, UnitsFault>
    ensures { Answers result (graphs_at (table_view table.now)) }
{
    let tables = some_tables_at(alloc, table, Part::Top, UnitKey::Graph, GRAPH_LIMIT)?;
    read_graphs(alloc, tables.items())
}

/// The sporadic tasks of the whole table.
fn sporadics_at(alloc: Global, table: &Table) -> Result<PhysicalSporadics, UnitsFault>
    ensures { Answers result (sporadics_at (table_view table.now)) }
{
    let tables = tables_at(alloc, table, Part::Top, UnitKey::Sporadic, SPORADIC_LIMIT)?;
    read_sporadics(alloc, tables.items())
}
