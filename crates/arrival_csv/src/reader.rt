//! The rows of an arrivals file, one after the other.

ghost use Rattle.std.specs.Prelude.{ℕ, List, IfOk};
ghost use Rattle.csv.specs.Reading.{default_config, records, strip_bom};
ghost use Rattle.csv.specs.Records.{fields_of};
ghost use Rattle.arrival_csv.specs.Rows.{HasRows, TakesRow};

use csv::{ByteRecord, Reader, ReaderBuilder};
use slot_core::Memory;
use std::alloc::Global;

/// A reader of rows of any length, none of them a header.
pub(crate) fn reader_of(alloc: Global, bytes: &[u8]) -> Reader<&[u8]>
    ensures { HasRows result (records default_config (strip_bom bytes.now)) }
{
    ReaderBuilder::new()
        .has_headers(false)
        .flexible(true)
        .from_reader(alloc, bytes)
}

/// Takes the next row, if there is one.
pub(crate) fn next_row(reader: &mut Reader<&[u8]>, fields: &mut ByteRecord) -> Result<bool, Memory>
    ensures { IfOk result (λ found. (rows : List (List (List ℕ))) → HasRows reader.old rows
        → TakesRow reader.new found (fields_of fields.new) rows) }
{
    let Ok(found) = reader.read_byte_record(fields) else {
        // Where rows may have any length and fields any bytes, the clauses of `csv` leave want of
        // memory and a failed read. None rules the latter out, but bytes in memory have none.
        return Err(Memory);
    };
    Ok(found)
}
