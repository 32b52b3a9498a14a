//! The rows of the spans of a line.

ghost use Rattle.std.specs.Prelude.{◌≡◌, ℕ, ◌++◌, List, Some, OnOk};
ghost use Rattle.csv_table.specs.Tables.{rows_text};
ghost use Rattle.view_tables.specs.LineRows.{span_fields, span_names, span_rows};

use csv_table::{Cell, Rows};
use slot_core::Memory;
use trace_lines::{ShownSpan, TraceLine};

/// Appends a row for each span that the line of this number shows.
pub(crate) fn push_spans(rows: &mut Rows, number: u64, line: &TraceLine) -> Result<(), Memory>
    ensures { (text : List ℕ) → rows.old ≡ Some text → OnOk result
        (rows.new ≡ Some (text ++ rows_text (span_rows number line.now))) }
{
    let spans = line.spans.items();
    for (i, span) in spans.iter().enumerate() {
        let cells = span_cells(number, line, i as u64 + 1, span);
        rows.push(&cells)?;
    }
    Ok(())
}

/// The names of the fields of the row of a span.
pub(crate) fn span_names() -> [Cell<'static>; 6]
    ensures { result ≡ span_names }
{
    [
        Cell::text(b"line"),
        Cell::text(b"time"),
        Cell::text(b"place"),
        Cell::text(b"start"),
        Cell::text(b"end"),
        Cell::text(b"spare"),
    ]
}

/// The fields of the row of a span, which is the one of this place in its line, from 1 on.
fn span_cells(number: u64, line: &TraceLine, place: u64, span: &ShownSpan) -> [Cell<'static>; 6]
    ensures { result ≡ span_fields number line.now (place, span.now) }
{
    [
        Cell::number(number),
        Cell::number(u64::from(line.time)),
        Cell::number(place),
        Cell::number(u64::from(span.start)),
        Cell::number(u64::from(span.end)),
        Cell::signed(span.spare),
    ]
}
