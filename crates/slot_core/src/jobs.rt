//! Jobs, spans and windows. All times are in slots.

/// The name of a job. Keys are ordered by kind, then by their numbers.
#[derive(Clone, Copy, PartialEq, Eq, PartialOrd, Ord)]
pub enum Key {
    /// Graph, task and instance of an offline job.
    Offline(u16, u16, u64),
    /// Index of the sporadic task, and row of the arrival.
    Sporadic(u8, u32),
    /// Row of the arrival of a firm job.
    Firm(u32),
    /// Row of the arrival of a soft job.
    Soft(u32),
}

/// An offline job with its raw window [release, deadline).
#[derive(Clone, Copy, PartialEq, Eq)]
pub struct RawJob {
    /// Its name.
    pub key: Key,
    /// The first slot in which it may run.
    pub release: u64,
    /// The first slot in which it may no more.
    pub deadline: u64,
    /// Declared slots.
    pub wcet: u32,
}

/// A guaranteed job with its derived window [est, dl).
#[derive(Clone, Copy, PartialEq, Eq)]
pub struct Job {
    /// Its name.
    pub key: Key,
    /// The first slot in which it may run.
    pub est: u64,
    /// The first slot in which it may no more.
    pub dl: u64,
    /// Slots that it has still to run.
    pub left: u32,
    /// Slots that it has in all.
    pub declared: u32,
}

/// A soft job that waits.
#[derive(Clone, Copy, PartialEq, Eq, Default)]
pub struct SoftJob {
    /// Row of its arrival.
    pub row: u32,
    /// Slots that it has still to run.
    pub left: u32,
    /// Slots that it has in all.
    pub declared: u32,
}

/// A stretch [start, end) between two neighbouring points.
#[derive(Clone, Copy, PartialEq, Eq, Default)]
pub struct Span {
    /// Its first slot.
    pub start: u64,
    /// The first slot after it.
    pub end: u64,
    /// Slots left of the remaining jobs that are due after its start and by its end.
    pub work: u64,
    /// Spare capacity in slots, below 0 where the span borrows from earlier ones.
    pub spare: i64,
}

/// A window [from, until) with the slots that the cycle test counts in it.
#[derive(Clone, Copy, PartialEq, Eq)]
pub struct Window {
    /// Its first slot.
    pub from: u64,
    /// The first slot after it.
    pub until: u64,
    /// The slots that are needed in it.
    pub demand: u64,
}

/// Why an offer is refused: up to `until` it needs `need` slots, and there are `room`.
#[derive(Clone, Copy, PartialEq, Eq)]
pub struct Evidence {
    /// The time by which more is needed than there are slots.
    pub until: u64,
    /// The slots that are needed by then, those of the offer among them.
    pub need: u64,
    /// The slots from now to then.
    pub room: u64,
}
