//! The declarations and the first values.

ghost use Rattle.std.specs.Prelude.{◌≡◌, ℕ, ◌≤◌, ◌+◌, ◌++◌, ◌==◌, List, length, codes, flat_map, OnOk, OnErr};
ghost use Rattle.std.specs.List.{enumerate_from, range_with_len};
ghost use Rattle.std.specs.Io.KnownBytes.{Appends};
ghost use Rattle.slot_core.specs.Calls.Counts.{Rose};
ghost use Rattle.slot_io.specs.Sinks.{AppendsPart};
ghost use Rattle.trace_lines.specs.Traces.{time_of_first};
ghost use Rattle.view_waves.specs.WaveTexts.{after_wires, first_text, first_time_text, head_text, levels_text, before_wires, row_text, shown_text};

use crate::lines::{push_after_wires, push_capacity, push_first_time, push_level, push_row};
use crate::steps::Wave;
use run_blocks::Row;
use slot_core::Failed;
use slot_io::Sink;
use trace_lines::TraceLine;
use trace_text::Line;

/// What stands before the wires.
const BEFORE_WIRES: &[u8] = b"$comment One unit of time is one slot. $end\n$timescale 1 us $end\n\
      $scope module trace $end\n";

/// Writes the declarations: a wire for each row, one for idle slots, and the capacity.
pub(crate) fn put_head<K: Sink>(rows: &[Row], out: &mut K) -> Result<(), Failed>
    ensures text { OnOk result
        (Appends (K.written out.old) (K.written out.new) (head_text rows.now)) }
    ensures part { OnErr result
        (AppendsPart (K.written out.old) (K.written out.new) (head_text rows.now)) }
    ensures counted { K.faults out.old ≤ K.faults out.new }
    ensures failed { OnErr result (Rose (K.faults out.old) (K.faults out.new)) }
{
    put_before_wires(out)?;
    put_row_wires(rows, out)?;
    put_after_wires(rows.len(), out)
}

/// Writes what stands before the wires.
fn put_before_wires<K: Sink>(out: &mut K) -> Result<(), Failed>
    ensures text { OnOk result
        (Appends (K.written out.old) (K.written out.new) (before_wires)) }
    ensures part { OnErr result
        (AppendsPart (K.written out.old) (K.written out.new) (before_wires)) }
    ensures counted { K.faults out.old ≤ K.faults out.new }
    ensures failed { OnErr result (Rose (K.faults out.old) (K.faults out.new)) }
{
    out.put(BEFORE_WIRES)
}

/// Writes the wires of the rows.
fn put_row_wires<K: Sink>(rows: &[Row], out: &mut K) -> Result<(), Failed>
    ensures text { OnOk result
        (Appends (K.written out.old) (K.written out.new)
        (flat_map row_text (enumerate_from 0 rows.now))) }
    ensures part { OnErr result
        (AppendsPart (K.written out.old) (K.written out.new)
        (flat_map row_text (enumerate_from 0 rows.now))) }
    ensures counted { K.faults out.old ≤ K.faults out.new }
    ensures failed { OnErr result (Rose (K.faults out.old) (K.faults out.new)) }
{
    let mut line = Line::new();
    for (wire, row) in rows.iter().enumerate() {
        line.clear();
        push_row(&mut line, wire, row);
        out.put(line.bytes())?;
    }
    Ok(())
}

/// Writes what stands after the wires of the rows.
fn put_after_wires<K: Sink>(idle: usize, out: &mut K) -> Result<(), Failed>
    ensures text { OnOk result
        (Appends (K.written out.old) (K.written out.new) (after_wires idle)) }
    ensures part { OnErr result
        (AppendsPart (K.written out.old) (K.written out.new) (after_wires idle)) }
    ensures counted { K.faults out.old ≤ K.faults out.new }
    ensures failed { OnErr result (Rose (K.faults out.old) (K.faults out.new)) }
{
    let mut line = Line::new();
    push_after_wires(&mut line, idle);
    out.put(line.bytes())
}

/// Writes the first values of so many wires and of the capacity, which stand from the time of the
/// first line on.
pub(crate) fn put_first<K: Sink>(
    wires: usize,
    lines: &[TraceLine],
    wave: Wave,
    out: &mut K,
) -> Result<(), Failed>
    ensures text { OnOk result
        (Appends (K.written out.old) (K.written out.new) (first_text wires (time_of_first lines.now) wave)) }
    ensures part { OnErr result
        (AppendsPart (K.written out.old) (K.written out.new) (first_text wires (time_of_first lines.now) wave)) }
    ensures counted { K.faults out.old ≤ K.faults out.new }
    ensures failed { OnErr result (Rose (K.faults out.old) (K.faults out.new)) }
{
    put_first_time(lines, out)?;
    put_levels(wires, wave.on, out)?;
    put_first_capacity(wave.shown, out)
}

/// Writes the time of the first values.
fn put_first_time<K: Sink>(lines: &[TraceLine], out: &mut K) -> Result<(), Failed>
    ensures text { OnOk result
        (Appends (K.written out.old) (K.written out.new) (first_time_text (time_of_first lines.now))) }
    ensures part { OnErr result
        (AppendsPart (K.written out.old) (K.written out.new) (first_time_text (time_of_first lines.now))) }
    ensures counted { K.faults out.old ≤ K.faults out.new }
    ensures failed { OnErr result (Rose (K.faults out.old) (K.faults out.new)) }
{
    let mut line = Line::new();
    push_first_time(&mut line, lines);
    out.put(line.bytes())
}

/// Writes the values of so many wires, of which this one is on.
fn put_levels<K: Sink>(wires: usize, on: usize, out: &mut K) -> Result<(), Failed>
    ensures text { OnOk result
        (Appends (K.written out.old) (K.written out.new) (levels_text wires on)) }
    ensures part { OnErr result
        (AppendsPart (K.written out.old) (K.written out.new) (levels_text wires on)) }
    ensures counted { K.faults out.old ≤ K.faults out.new }
    ensures failed { OnErr result (Rose (K.faults out.old) (K.faults out.new)) }
{
    let mut line = Line::new();
    for wire in 0..wires {
        line.clear();
        push_level(&mut line, wire, wire == on);
        out.put(line.bytes())?;
    }
    Ok(())
}

/// Writes the first value of the capacity, of these bits, and the end of the first values.
fn put_first_capacity<K: Sink>(bits: u64, out: &mut K) -> Result<(), Failed>
    ensures text { OnOk result
        (Appends (K.written out.old) (K.written out.new) (shown_text bits)) }
    ensures part { OnErr result
        (AppendsPart (K.written out.old) (K.written out.new) (shown_text bits)) }
    ensures counted { K.faults out.old ≤ K.faults out.new }
    ensures failed { OnErr result (Rose (K.faults out.old) (K.faults out.new)) }
{
    let mut line = Line::new();
    push_capacity(&mut line, bits);
    line.push(b"$end\n");
    out.put(line.bytes())
}
