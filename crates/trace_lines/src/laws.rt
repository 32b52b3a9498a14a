//! Laws on the lines of a trace.

ghost use Rattle.trace_lines.specs.Laws.{EntriesAreLines};
ghost use Rattle.trace_lines.specs.Parts.{PartsRunTheirSlots};

/// The line that an executive prints of an entry is the text of the line of this crate that has the
/// names of the task set.
pub fn entries_are_lines()
    ensures { EntriesAreLines }
{}

/// A part of a trace runs, slot by slot, what the trace runs in these slots, and nothing else.
pub fn parts_run_their_slots()
    ensures { PartsRunTheirSlots }
{}
