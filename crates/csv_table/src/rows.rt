//! Rows as text.

ghost use Rattle.std.specs.Prelude.{◌≡◌, ℕ, ◌≤◌, ◌+◌, ◌++◌, ◌-◌, ◌^◌, ◌==◌, List, [], true, false, not, min, length, Some, None, Err, OnOk, OnErr, IfOk, IsErr};
ghost use Rattle.std.specs.Io.KnownBytes.{Appends};
ghost use Rattle.csv.specs.Writing.{field_text, fields_written, has_written, next_sep, text_written, writer_setup};
ghost use Rattle.slot_core.specs.Calls.Counts.{Rose};
ghost use Rattle.slot_io.specs.Sinks.{AppendsPart};
ghost use Rattle.csv_table.specs.Tables.{comma_separated, row_line};
ghost use Rattle.csv_table.specs.Writers.{IsAtRow};

use crate::cells::Cell;
use crate::faults::CsvFault;
use csv::{Terminator, Writer, WriterBuilder};
use itoa::Buffer;
use slot_core::Memory;
use slot_io::Sink;
use std::alloc::Global;
use std::io::Write;
use std::marker::Model;

/// Rows of a table in memory, which contracts see as their text, or none where memory ran out
/// within a row.
#[derive(Drop)]
pub struct Rows {
    writer: Writer<Vec<u8>>,
    broken: bool,
}

impl Model for Rows {
    ghost use Rattle.std.specs.Prelude.{◌≡◌, ℕ, List, Option, Some, None, false, if◌then◌else◌};
    ghost use Rattle.csv.specs.Writing.{text_written};
    ghost use Rattle.csv_table.specs.Writers.{IsAtRow};

    ghost Value = { Option (List ℕ) };

    ghost view = { λ r. if r.broken then None else text_written (λ v. Some v.items) r.writer };

    ghost invariant = { λ r. r.broken ≡ false → IsAtRow r.writer };
}

impl Rows {
    /// No rows.
    pub fn new(alloc: Global) -> Rows
        ensures { result ≡ Some [] }
    {
        let writer = writer_of(alloc);
        Rows {
            writer,
            broken: false,
        }
    }

    /// Appends a row of these fields. After Memory each call answers Memory.
    pub fn push(&mut self, cells: &[Cell<'_>]) -> Result<(), Memory>
        ensures text { (text : List ℕ) → self.old ≡ Some text
            → OnOk result (self.new ≡ Some (text ++ row_line cells.now)) }
        ensures memory { OnErr result (self.new ≡ None) }
        ensures broken { self.old ≡ None → IsErr result }
    {
        if self.broken {
            return Err(Memory);
        }
        self.broken = true;
        push_row(&mut self.writer, cells)?;
        self.broken = false;
        Ok(())
    }

    /// Writes the text of the rows by one put. Want of memory comes before it.
    pub fn put<K: Sink>(self, out: &mut K) -> Result<(), CsvFault>
        ensures text { (text : List ℕ) → self ≡ Some text
            → OnOk result (Appends (K.written out.old) (K.written out.new) text) }
        ensures memory { result ≡ Err (CsvFault.Memory) → out.new ≡ out.old }
        ensures part { (text : List ℕ) → self ≡ Some text
            → OnErr result (AppendsPart (K.written out.old) (K.written out.new) text) }
        ensures counted { K.faults out.old ≤ K.faults out.new }
        ensures failed { result ≡ Err (CsvFault.Failed)
            → Rose (K.faults out.old) (K.faults out.new) }
    {
        let text = self.into_text()?;
        out.put(text.as_slice())?;
        Ok(())
    }

    /// The text of the rows.
    fn into_text(self) -> Result<Vec<u8>, Memory>
        ensures { (text : List ℕ) → self ≡ Some text → IfOk result (λ bytes. bytes.items ≡ text) }
    {
        match self.writer.into_inner() {
            Ok(text) => Ok(text),
            Err(_) => Err(Memory),
        }
    }
}

/// A writer into memory, at its first row. Rows may have any length.
fn writer_of(alloc: Global) -> Writer<Vec<u8>>
    ensures start { IsAtRow result }
    ensures empty { text_written (λ v. Some v.items) result ≡ Some [] }
{
    WriterBuilder::new()
        .terminator(Terminator::Any(b'\n'))
        .flexible(true)
        .from_writer(Vec::new(alloc))
}

/// Writes a row of these fields.
fn push_row<W: Write + Drop>(writer: &mut Writer<W>, cells: &[Cell<'_>]) -> Result<(), Memory>
    requires { IsAtRow writer.old }
    ensures text { OnOk result (Appends
        (text_written W.contents writer.old)
        (text_written W.contents writer.new)
        (row_line cells.now)) }
    ensures start { OnOk result (IsAtRow writer.new) }
{
    let mut digits = Buffer::new();
    for cell in cells {
        push_field(writer, cell.bytes(&mut digits))?;
    }
    // `csv` leaves a failed write beside want of memory, but bytes in memory have none.
    writer.end_record().or(Err(Memory))
}

/// Writes one field more of a row.
fn push_field<W: Write + Drop>(writer: &mut Writer<W>, field: &[u8]) -> Result<(), Memory>
    requires { writer_setup writer.old ≡ comma_separated }
    ensures text { OnOk result (Appends
        (text_written W.contents writer.old)
        (text_written W.contents writer.new)
        (next_sep comma_separated (fields_written writer.old) ++ field_text comma_separated field.now)) }
    ensures setup { OnOk result (writer_setup writer.new ≡ comma_separated) }
    ensures count { OnOk result
        (fields_written writer.new ≡ min (fields_written writer.old + 1) (2 ^ 64 - 1)) }
    ensures wrote { OnOk result (has_written writer.old ≡ false
        → has_written writer.new ≡ not (length (field_text comma_separated field.now) == 0)) }
    ensures stays { OnOk result (has_written writer.old ≡ true → has_written writer.new ≡ true) }
{
    writer.write_field(field).or(Err(Memory))
}
