//! A law on the texts of times.

ghost use Rattle.time_texts.specs.Writing.{TimesAreReadBack};

/// The text that `push_time` writes of a time below `NANOS_LIMIT` is one that `time_of` reads as
/// this time.
pub fn times_are_read_back()
    ensures { TimesAreReadBack }
{}
