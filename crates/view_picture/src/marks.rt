//! The marks of what arrives.

ghost use Rattle.std.specs.Prelude.{◌≡◌, true};
ghost use Rattle.svg_text.specs.Content.{is_name};

use slot_core::{Done, Firm, Gone, Soft, Spo};
use trace_lines::Words;

/// The mark of an arrival, by its answer.
#[derive(Clone, Copy, PartialEq, Eq)]
pub(crate) enum Mark {
    Accepted,
    Refused,
    OffRange,
    Alarm,
    TooSoon,
    Soft,
    Full,
    Ended,
    NotRunning,
    Withdrawn,
    NoJob,
}

/// What arrives in one group of lanes.
#[derive(Clone, Copy, PartialEq, Eq)]
pub(crate) enum Group {
    Firm,
    Alarm,
    Soft,
    Ended,
    Withdrawn,
}

/// The groups, from the top.
pub(crate) const GROUPS: [Group; 5] = [
    Group::Firm,
    Group::Alarm,
    Group::Soft,
    Group::Ended,
    Group::Withdrawn,
];

/// The marks in the order of the legend.
pub(crate) const MARKS: [Mark; 11] = [
    Mark::Accepted,
    Mark::Refused,
    Mark::OffRange,
    Mark::Alarm,
    Mark::TooSoon,
    Mark::Soft,
    Mark::Full,
    Mark::Ended,
    Mark::NotRunning,
    Mark::Withdrawn,
    Mark::NoJob,
];

impl Group {
    /// The label of its lanes.
    pub(crate) fn label(self) -> &'static str {
        match self {
            Group::Firm => "firm offers",
            Group::Alarm => "alarms",
            Group::Soft => "soft work",
            Group::Ended => "early ends",
            Group::Withdrawn => "withdrawals",
        }
    }
}

impl Mark {
    /// The mark of what a line tells, or none where nothing arrives.
    pub(crate) fn of(words: &Words) -> Option<Mark> {
        match words {
            Words::Firm(_, _, _, answer) => Some(firm_mark(*answer)),
            Words::Soft(_, _, Soft::Taken) => Some(Mark::Soft),
            Words::Soft(_, _, Soft::Full(_)) => Some(Mark::Full),
            Words::Sporadic(_, _, Spo::Taken(_)) => Some(Mark::Alarm),
            Words::Sporadic(_, _, Spo::Soon(_)) => Some(Mark::TooSoon),
            Words::Done(_, _, Done::Freed(_)) => Some(Mark::Ended),
            Words::Done(_, _, Done::NotRunning) => Some(Mark::NotRunning),
            Words::Withdraw(_, _, Gone::Freed(_)) => Some(Mark::Withdrawn),
            Words::Withdraw(_, _, Gone::NoJob) => Some(Mark::NoJob),
            Words::Start | Words::Run(_) | Words::Idle | Words::End => None,
        }
    }

    /// The group in whose lanes it stands.
    pub(crate) fn group(self) -> Group {
        match self {
            Mark::Accepted | Mark::Refused | Mark::OffRange => Group::Firm,
            Mark::Alarm | Mark::TooSoon => Group::Alarm,
            Mark::Soft | Mark::Full => Group::Soft,
            Mark::Ended | Mark::NotRunning => Group::Ended,
            Mark::Withdrawn | Mark::NoJob => Group::Withdrawn,
        }
    }

    /// What it stands for.
    pub(crate) fn words(self) -> &'static str {
        match self {
            Mark::Accepted => "accepted, until due",
            Mark::Refused => "refused",
            Mark::OffRange => "late or far",
            Mark::Alarm => "alarm",
            Mark::TooSoon => "alarm too soon",
            Mark::Soft => "soft work",
            Mark::Full => "soft work refused",
            Mark::Ended => "early end",
            Mark::NotRunning => "end of no job",
            Mark::Withdrawn => "withdrawn",
            Mark::NoJob => "no job to withdraw",
        }
    }

    /// The class of its strokes.
    pub(crate) fn class(self) -> &'static str
        ensures { is_name result.now ≡ true }
    {
        match self {
            Mark::Alarm | Mark::Soft | Mark::Ended => "mark",
            Mark::Accepted | Mark::Refused | Mark::TooSoon => "open",
            Mark::Full | Mark::Withdrawn => "open",
            Mark::OffRange | Mark::NotRunning | Mark::NoJob => "grey",
        }
    }

    /// Its strokes, in a square of 8 by 10 from the upper left corner on.
    pub(crate) fn strokes(self) -> &'static str {
        match self {
            Mark::Accepted => "m4 0v10m-3 -4l3 4l3 -4",
            Mark::Refused | Mark::OffRange => "m0 1l8 8m0 -8l-8 8",
            Mark::Alarm | Mark::TooSoon => "m4 1l4 8h-8z",
            Mark::Soft => "m0 5a4 4 0 1 0 8 0a4 4 0 1 0 -8 0",
            Mark::Full => "m0 5a4 4 0 1 0 8 0a4 4 0 1 0 -8 0m1.2 -2.8l5.6 5.6",
            Mark::Ended | Mark::NotRunning => "m1 2h6v6h-6z",
            Mark::Withdrawn | Mark::NoJob => "m8 9l-7 -7m0 6v-6h6",
        }
    }
}

/// The mark of an answer to a firm offer.
fn firm_mark(answer: Firm) -> Mark {
    match answer {
        Firm::Accepted => Mark::Accepted,
        Firm::NoRoom(_) => Mark::Refused,
        Firm::Late | Firm::Far => Mark::OffRange,
    }
}
