//! What holds of every run.

ghost use Rattle.slot_cli.specs.Recordings.{AReplayedTraceIsVerified};
ghost use Rattle.slot_cli.specs.Tables.{AWrittenTableReplaysTheSame, EachSpellingReplaysTheSame};

/// A table that is written of a task file replays as that file does: with the same arrivals and the
/// same number of slots, what is due is the same trace or the same refusal.
pub fn a_written_table_replays_the_same()
    ensures { AWrittenTableReplaysTheSame }
{}

/// So does each table that spells the plan of that file, in the first version or the second.
pub fn each_spelling_replays_the_same()
    ensures { EachSpellingReplaysTheSame }
{}

/// A trace that is replayed is verified: its text, held as the trace file beside the same task file
/// and arrivals, is that of a lawful trace, and the line of it is due.
pub fn a_replayed_trace_is_verified()
    ensures { AReplayedTraceIsVerified }
{}
