//! What the lines of a trace tell.

ghost use Rattle.slot_facts.specs.Lines.{LinesTellEntries};

/// Two entries of one sound set with the same line agree but for the works of their spans, which
/// are not printed, and for what an end entry shows.
pub fn lines_tell_entries()
    ensures { LinesTellEntries }
{}
