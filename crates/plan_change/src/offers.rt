//! The offers of jobs that are carried over.

ghost use Rattle.std.specs.Prelude.{◌≡◌, ◌+◌, ◌-◌, ◌<◌, ◌^◌, true, nat_lt};
ghost use Rattle.slot_core.specs.Offline.Keys.{is_offline};
ghost use Rattle.plan_change.specs.Carrying.{next_row, offer_of, row_in};

use crate::keep::is_offline;
use slot_core::{Job, Key};

/// A firm offer before the first slot.
#[derive(Clone, Copy, PartialEq, Eq)]
pub struct Offer {
    /// Its row.
    pub row: u32,
    /// Its slots.
    pub slots: u32,
    /// The slots up to its deadline.
    pub within: u32,
}

/// The offer of a job in this row, to a plan with this cycle: its deadline is counted from the time
/// of the change on, and cut to the cycle.
pub(crate) fn offer_of(job: &Job, at: u64, cycle: u32, row: u32) -> Offer
    ensures { result ≡ offer_of at cycle row job.now }
{
    Offer {
        row,
        slots: job.left,
        within: job.dl.saturating_sub(at).min(u64::from(cycle)) as u32,
    }
}

/// Whether the deadline of a job is cut.
pub(crate) fn is_cut(job: &Job, at: u64, cycle: u32) -> bool
    ensures { result ≡ nat_lt cycle (job.now.dl - at) }
{
    u64::from(cycle) < job.dl.saturating_sub(at)
}

/// The row of a job that is carried over: its own, of an offline job the next one that is free.
pub(crate) fn row_in(next: u32, job: &Job) -> u32
    ensures { result ≡ row_in next job.now }
{
    match job.key {
        Key::Offline(_, _, _) => next,
        Key::Sporadic(_, row) | Key::Firm(row) | Key::Soft(row) => row,
    }
}

/// The next one that is free then.
pub(crate) fn next_row(next: u32, job: &Job) -> u32
    requires { is_offline job.now.key ≡ true → next + 1 < 2 ^ 32 }
    ensures { result ≡ next_row next job.now }
{
    if is_offline(job.key) { next + 1 } else { next }
}
