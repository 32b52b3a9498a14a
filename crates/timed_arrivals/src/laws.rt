//! What a trace in times says.

ghost use Rattle.timed_arrivals.specs.Laws.{SlotsAreReadBack};

/// A line of a trace in times begins with a time from which its slot is read back, and goes on as
/// the line did.
pub fn slots_are_read_back()
    ensures { SlotsAreReadBack }
{}
