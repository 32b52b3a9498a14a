//! What holds of every dialogue.

ghost use Rattle.live_run.specs.Replays.{DialoguesAreReplays};

/// The answers of a dialogue that is over, without those of lines that are refused, of looks ahead
/// and of what a change would carry over, are the trace of its arrivals over its slots, where a slot
/// passes after each arrival.
pub fn dialogues_are_replays()
    ensures { DialoguesAreReplays }
{}
