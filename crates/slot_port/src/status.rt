//! The statuses of the calls.

/// How a call ended. Where it is not `OK`, nothing has changed but the fault that opening tells, and
/// where a change of plan is `REFUSED`.
pub type Status = u32;

/// The call did what it says.
pub const OK: Status = 0;

/// Memory ran out.
pub const MEMORY: Status = 1;

/// The bytes are no table, or not the one of their task set.
pub const BAD_TABLE: Status = 2;

/// The row of an arrival is not above that of the last one, or, of an early end or a withdrawal, is
/// below it.
pub const BAD_ROW: Status = 3;

/// A number, an index, a key or a name is none that may come, or a text has no room.
pub const BAD_NUMBER: Status = 4;

/// The time is at its limit.
pub const AT_END: Status = 5;

/// The handle has no executive.
pub const CLOSED: Status = 6;

/// The handle has one already.
pub const STILL_OPEN: Status = 7;

/// What is carried over cannot be served.
pub const REFUSED: Status = 8;

/// The second executive has seen a slot or an arrival.
pub const NOT_FRESH: Status = 9;
