//! The text of waves.

ghost use Rattle.std.specs.Prelude.{◌≡◌, ℕ, ◌≤◌, ◌+◌, ◌++◌, List, length, flat_map, OnOk, OnErr};
ghost use Rattle.std.specs.Io.KnownBytes.{Appends};
ghost use Rattle.slot_core.specs.Calls.Counts.{Rose};
ghost use Rattle.slot_io.specs.Sinks.{AppendsPart};
ghost use Rattle.view_waves.specs.Steps.{step_if_any};
ghost use Rattle.view_waves.specs.WaveTexts.{first_text, head_text, step_text, steps_text, waves_text};

use crate::head::{put_first, put_head};
use crate::lines::push_step;
use crate::steps::{Step, Wave, first_wave};
use run_blocks::Row;
use slot_core::Failed;
use slot_io::Sink;
use trace_lines::TraceLine;
use trace_text::Line;

/// Writes the waves of the lines: a wire for each of these rows, one for idle slots, and the
/// capacity of the first span after each slot. After an error a part of that text is written, from
/// its front, and the sink has counted a fault.
///
/// It is done by one put a line of the declarations and of the first values, and one for each slot.
pub fn put_waves<K: Sink>(rows: &[Row], lines: &[TraceLine], out: &mut K) -> Result<(), Failed>
    ensures text { OnOk result
        (Appends (K.written out.old) (K.written out.new) (waves_text rows.now lines.now)) }
    ensures part { OnErr result
        (AppendsPart (K.written out.old) (K.written out.new) (waves_text rows.now lines.now)) }
    ensures counted { K.faults out.old ≤ K.faults out.new }
    ensures failed { OnErr result (Rose (K.faults out.old) (K.faults out.new)) }
{
    let wave = first_wave(rows, lines);
    put_head(rows, out)?;
    put_first(rows.len() + 1, lines, wave, out)?;
    put_steps(rows, lines, wave, out)
}

/// Writes what changes from these values on.
fn put_steps<K: Sink>(
    rows: &[Row],
    lines: &[TraceLine],
    first: Wave,
    out: &mut K,
) -> Result<(), Failed>
    ensures text { OnOk result
        (Appends (K.written out.old) (K.written out.new) (steps_text rows.now first lines.now)) }
    ensures part { OnErr result
        (AppendsPart (K.written out.old) (K.written out.new)
        (steps_text rows.now first lines.now)) }
    ensures counted { K.faults out.old ≤ K.faults out.new }
    ensures failed { OnErr result (Rose (K.faults out.old) (K.faults out.new)) }
{
    let mut wave = first;
    let mut text = Line::new();
    for line in lines {
        let (next, step) = wave.after(rows, line);
        put_step(step, &mut text, out)?;
        wave = next;
    }
    Ok(())
}

/// Writes what changes at a time, if there is something.
fn put_step<K: Sink>(step: Option<Step>, line: &mut Line, out: &mut K) -> Result<(), Failed>
    ensures text { OnOk result
        (Appends (K.written out.old) (K.written out.new) (flat_map step_text (step_if_any step))) }
    ensures part { OnErr result
        (AppendsPart (K.written out.old) (K.written out.new)
        (flat_map step_text (step_if_any step))) }
    ensures counted { K.faults out.old ≤ K.faults out.new }
    ensures failed { OnErr result (Rose (K.faults out.old) (K.faults out.new)) }
{
    let Some(step) = step else {
        return Ok(());
    };
    line.clear();
    push_step(line, step);
    out.put(line.bytes())
}
