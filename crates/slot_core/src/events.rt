//! Arrivals, their answers and the entries of a trace.

use crate::jobs::{Evidence, Key};
use crate::shown::Shown;

/// What arrives.
#[derive(Clone, Copy, PartialEq, Eq)]
pub enum Event {
    /// Soft work of this many slots.
    Soft(u32),
    /// A firm task: slots, and within how many slots from now.
    Firm(u32, u32),
    /// A job of the sporadic task of this index.
    Sporadic(u8),
    /// The job of this key has ended.
    Done(Key),
    /// The firm job of this row of the arrivals is taken back.
    Withdraw(u32),
}

/// One row of the arrivals file.
#[derive(Clone, Copy, PartialEq, Eq)]
pub struct Arrival {
    /// Row in the file, from 1.
    pub row: u32,
    /// The slot in which it arrives.
    pub slot: u64,
    /// What arrives.
    pub event: Event,
}

/// The answer to soft work.
#[derive(Clone, Copy, PartialEq, Eq)]
pub enum Soft {
    Taken,
    /// So many soft jobs wait already, which is the limit.
    Full(u32),
}

/// The answer to a firm task.
#[derive(Clone, Copy, PartialEq, Eq)]
pub enum Firm {
    Accepted,
    /// Its deadline is now.
    Late,
    /// Its deadline is more than one cycle ahead.
    Far,
    /// For some sporadic arrivals that may still come, no schedule serves it beside them and the
    /// remaining jobs; the evidence is the first time by which more is needed than there are slots.
    NoRoom(Evidence),
}

/// The answer to a sporadic arrival.
#[derive(Clone, Copy, PartialEq, Eq)]
pub enum Spo {
    /// The job is taken, with this deadline.
    Taken(u64),
    /// It comes before its separation is over, which ends at this slot.
    Soon(u64),
}

/// The answer to an early end.
#[derive(Clone, Copy, PartialEq, Eq)]
pub enum Done {
    /// The job ends, and this many slots are free.
    Freed(u32),
    /// No unfinished job of that key has run.
    NotRunning,
}

/// The answer to a withdrawal.
#[derive(Clone, Copy, PartialEq, Eq)]
pub enum Gone {
    /// The job ends, and this many slots are free.
    Freed(u32),
    /// No remaining firm job has that row.
    NoJob,
}

/// What ran in a slot.
#[derive(Clone, Copy, PartialEq, Eq)]
pub enum Ran {
    Idle,
    Key(Key),
}

/// What an entry of a trace tells. The first number of an arrival is its row, then stand the
/// numbers of its event, then its answer.
#[derive(Clone, Copy, PartialEq, Eq)]
pub enum What {
    Start,
    Soft(u32, u32, Soft),
    Firm(u32, u32, u32, Firm),
    Sporadic(u32, u8, Spo),
    Done(u32, Key, Done),
    Withdraw(u32, u32, Gone),
    Run(Key),
    Idle,
    End,
}

/// One line of a trace, with the first spans after it.
#[derive(Drop)]
pub struct Entry {
    /// The slot in which it happens.
    pub time: u64,
    /// What it tells.
    pub what: What,
    /// The first spans after it.
    pub shown: Shown,
}
