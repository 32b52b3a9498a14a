//! Times as texts: `250us`, `20.5ms`, `1s`. A time is a number of nanoseconds.
//!
//! A text has 1 to `WHOLE_LIMIT` digits, where there is a fraction a point and its digits, and one
//! of the units `ns`, `us`, `ms` and `s`. It has no space and no sign, and no more of a fraction
//! than gives whole nanoseconds.
#![tactic(auto)]

pub mod laws;
pub mod reading;
pub mod writing;

pub use laws::times_are_read_back;
pub use reading::time_of;
pub use writing::push_time;

/// Most digits of a time before its point.
pub const WHOLE_LIMIT: usize = 10;

/// A text writes no time of this many nanoseconds or more: some 317 years.
pub const NANOS_LIMIT: u64 = 10_000_000_000_000_000_000;
