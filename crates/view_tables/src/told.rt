//! What a line tells of an arrival.

ghost use Rattle.std.specs.Prelude.{◌≡◌};
ghost use Rattle.view_tables.specs.Columns.{bare, done_told, firm_told, gone_told, soft_told, sporadic_told, told_of};

use slot_core::{Done, Firm, Gone, Soft, Spo};
use trace_lines::Words;

/// The numbers of an arrival and of its answer, each where the line has it.
#[derive(Clone, Copy, PartialEq, Eq, Default)]
pub struct Told {
    /// Its row.
    pub row: u64,
    /// Slots of soft or firm work.
    pub slots: Option<u64>,
    /// Within how many slots from now a firm task is due.
    pub within: Option<u64>,
    /// How many soft jobs wait where there may be no more.
    pub waiting: Option<u64>,
    /// The time by which there is no room for a firm task.
    pub until: Option<u64>,
    /// The slots that are needed by then.
    pub need: Option<u64>,
    /// The slots that there are up to then.
    pub room: Option<u64>,
    /// The deadline of a sporadic job.
    pub deadline: Option<u64>,
    /// The next slot in which a sporadic job may come.
    pub next: Option<u64>,
    /// The slots that an end frees.
    pub freed: Option<u64>,
}

/// What the words tell of an arrival, or None of a line that tells none.
pub(crate) fn told_of(words: &Words) -> Option<Told>
    ensures { result ≡ told_of words.now }
{
    match words {
        Words::Soft(row, slots, answer) => Some(Told {
            slots: Some(u64::from(*slots)),
            ..soft_told(*row, *answer)
        }),
        Words::Firm(row, slots, within, answer) => Some(Told {
            slots: Some(u64::from(*slots)),
            within: Some(u64::from(*within)),
            ..firm_told(*row, *answer)
        }),
        Words::Sporadic(row, _, answer) => Some(sporadic_told(*row, *answer)),
        Words::Done(row, _, answer) => Some(done_told(*row, *answer)),
        Words::Withdraw(row, _, answer) => Some(gone_told(*row, *answer)),
        Words::Start | Words::Run(_) | Words::Idle | Words::End => None,
    }
}

/// An arrival in this row, with no more numbers.
fn bare(row: u32) -> Told
    ensures { result ≡ bare row }
{
    Told {
        row: u64::from(row),
        ..Told::default()
    }
}

/// With the answer to soft work.
fn soft_told(row: u32, answer: Soft) -> Told
    ensures { result ≡ soft_told row answer }
{
    match answer {
        Soft::Taken => bare(row),
        Soft::Full(waiting) => Told {
            waiting: Some(u64::from(waiting)),
            ..bare(row)
        },
    }
}

/// With the answer to a firm task.
fn firm_told(row: u32, answer: Firm) -> Told
    ensures { result ≡ firm_told row answer }
{
    match answer {
        Firm::Accepted | Firm::Late | Firm::Far => bare(row),
        Firm::NoRoom(evidence) => Told {
            until: Some(evidence.until),
            need: Some(evidence.need),
            room: Some(evidence.room),
            ..bare(row)
        },
    }
}

/// With the answer to a sporadic arrival.
fn sporadic_told(row: u32, answer: Spo) -> Told
    ensures { result ≡ sporadic_told row answer }
{
    match answer {
        Spo::Taken(deadline) => Told {
            deadline: Some(deadline),
            ..bare(row)
        },
        Spo::Soon(next) => Told {
            next: Some(next),
            ..bare(row)
        },
    }
}

/// With the answer to an early end.
fn done_told(row: u32, answer: Done) -> Told
    ensures { result ≡ done_told row answer }
{
    match answer {
        Done::Freed(freed) => Told {
            freed: Some(u64::from(freed)),
            ..bare(row)
        },
        Done::NotRunning => bare(row),
    }
}

/// With the answer to a withdrawal.
fn gone_told(row: u32, answer: Gone) -> Told
    ensures { result ≡ gone_told row answer }
{
    match answer {
        Gone::Freed(freed) => Told {
            freed: Some(u64::from(freed)),
            ..bare(row)
        },
        Gone::NoJob => bare(row),
    }
}
