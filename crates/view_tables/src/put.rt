//! Tables of the lines of a trace.

ghost use Rattle.std.specs.Prelude.{◌≡◌, ℕ, ◌≤◌, ◌<◌, ◌+◌, ◌^◌, ◌++◌, List, length, All, Some, Err, IfOk, OnOk, OnErr};
ghost use Rattle.std.specs.Io.KnownBytes.{Appends};
ghost use Rattle.slot_core.specs.Calls.Counts.{Rose};
ghost use Rattle.slot_io.specs.Sinks.{AppendsPart};
ghost use Rattle.csv_table.specs.Tables.{row_line, rows_text};
ghost use Rattle.view_tables.specs.Tables.{header, part_rows, part_text, rows_from, rows_of_line, table_rows, table_text};

use crate::events::{event_names, push_event};
use crate::spans::{push_spans, span_names};
use csv_table::{CsvFault, Rows};
use slot_core::Memory;
use slot_io::Sink;
use std::alloc::Global;
use trace_lines::TraceLine;
use trace_text::Line;

/// What a table has rows of.
#[derive(Clone, Copy, PartialEq, Eq)]
pub enum Table {
    /// Arrivals.
    Events,
    /// The spans that each line shows.
    Spans,
}

/// Writes a header and the rows of the lines, by one put of the whole text. Want of memory comes
/// before it, with nothing written. Where the sink failed, a part of the text is written, from its
/// front, and it has counted a fault.
pub fn put_table<K: Sink>(
    alloc: Global,
    table: Table,
    lines: &[TraceLine],
    out: &mut K,
) -> Result<(), CsvFault>
    ensures text { OnOk result
        (Appends (K.written out.old) (K.written out.new) (table_text table lines.now)) }
    ensures part { OnErr result
        (AppendsPart (K.written out.old) (K.written out.new) (table_text table lines.now)) }
    ensures memory { result ≡ Err (CsvFault.Memory) → out.new ≡ out.old }
    ensures counted { K.faults out.old ≤ K.faults out.new }
    ensures failed { result ≡ Err (CsvFault.Failed)
        → Rose (K.faults out.old) (K.faults out.new) }

    // Each row has a field for each name of the header.
    ensures square { All
        (λ row. length row ≡ length (header table))
        (table_rows table lines.now) }
{
    put_part(alloc, table, 1, lines, out)
}

/// The same of the lines of a part of a trace, of which the first has this number, from 1 on.
pub fn put_part<K: Sink>(
    alloc: Global,
    table: Table,
    number: u64,
    lines: &[TraceLine],
    out: &mut K,
) -> Result<(), CsvFault>
    requires counted { number + length lines.now < 2 ^ 64 }
    ensures text { OnOk result
        (Appends (K.written out.old) (K.written out.new) (part_text table number lines.now)) }
    ensures part { OnErr result
        (AppendsPart (K.written out.old) (K.written out.new) (part_text table number lines.now)) }
    ensures memory { result ≡ Err (CsvFault.Memory) → out.new ≡ out.old }
    ensures counted { K.faults out.old ≤ K.faults out.new }
    ensures failed { result ≡ Err (CsvFault.Failed)
        → Rose (K.faults out.old) (K.faults out.new) }
    ensures square { All
        (λ row. length row ≡ length (header table))
        (part_rows table number lines.now) }
{
    let rows = whole_table(alloc, table, number, lines)?;
    rows.put(out)
}

/// The header and the rows of the lines, of which the first has this number.
fn whole_table(
    alloc: Global,
    table: Table,
    number: u64,
    lines: &[TraceLine],
) -> Result<Rows, Memory>
    requires { number + length lines.now < 2 ^ 64 }
    ensures { IfOk result (λ rows. rows ≡ Some (part_text table number lines.now)) }
{
    let mut rows = Rows::new(alloc);
    push_header(&mut rows, table)?;
    push_lines(&mut rows, table, number, lines)?;
    Ok(rows)
}

/// Appends the header.
fn push_header(rows: &mut Rows, table: Table) -> Result<(), Memory>
    ensures { (text : List ℕ) → rows.old ≡ Some text → OnOk result
        (rows.new ≡ Some (text ++ row_line (header table))) }
{
    match table {
        Table::Events => rows.push(&event_names()),
        Table::Spans => rows.push(&span_names()),
    }
}

/// Appends the rows of the lines, of which the first has this number.
fn push_lines(rows: &mut Rows, table: Table, number: u64, lines: &[TraceLine]) -> Result<(), Memory>
    requires { number + length lines.now < 2 ^ 64 }
    ensures { (text : List ℕ) → rows.old ≡ Some text → OnOk result
        (rows.new ≡ Some (text ++ rows_text (rows_from table number lines.now))) }
{
    let mut job = Line::new();
    for (i, line) in lines.iter().enumerate() {
        push_line(rows, table, number + i as u64, line, &mut job)?;
    }
    Ok(())
}

/// Appends the rows of the line of this number.
fn push_line(
    rows: &mut Rows,
    table: Table,
    number: u64,
    line: &TraceLine,
    job: &mut Line,
) -> Result<(), Memory>
    ensures { (text : List ℕ) → rows.old ≡ Some text → OnOk result
        (rows.new ≡ Some (text ++ rows_text (rows_of_line table (number, line.now)))) }
{
    match table {
        Table::Events => push_event(rows, line, job),
        Table::Spans => push_spans(rows, number, line),
    }
}
