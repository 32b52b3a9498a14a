//! Laws on what is told of a job: it is what the lines of a trace that run and end it say.

ghost use Rattle.view_jobs.specs.Laws.{FirstEndIsTold, FirstIsTold, GapsAreBetweenStretches, LastIsTold, NamesAreOfKeys, NoRunHasNoGap, RunsAreCounted, TimesRise};

/// As many slots are told as lines run the job by its name, and the first and the last of their
/// times, which rise.
pub fn runs_are_told()
    ensures names { NamesAreOfKeys }
    ensures rise { TimesRise }
    ensures ran { RunsAreCounted }
    ensures first { FirstIsTold }
    ensures last { LastIsTold }
{}

/// The gaps are those between the stretches of times that follow one another.
pub fn gaps_are_told()
    ensures between { GapsAreBetweenStretches }
    ensures none { NoRunHasNoGap }
{}

/// The end that is told is the first.
pub fn first_end_is_told()
    ensures { FirstEndIsTold }
{}
