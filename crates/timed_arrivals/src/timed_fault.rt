//! Why arrivals with times, or a trace, are refused.

ghost use Rattle.std.specs.Prelude.{◌≡◌};
ghost use Rattle.timed_arrivals.specs.declared.timed_fault.TimedFault.TheVariants.{Memory as MemoryFault};

use slot_core::Memory;
use std::error::Error;
use std::fmt;

/// Why arrivals with times, or a trace, are refused. Rows and lines count from 1, fields too.
#[derive(Clone, Copy, PartialEq, Eq)]
pub enum TimedFault {
    /// Memory ran out.
    Memory,
    /// A row has too few fields.
    BadRow(u32),
    /// A field of a row is no time.
    BadTime(u32, u8),
    /// The second field of a row names no kind.
    UnknownKind(u32),
    /// There are too many rows.
    TooMany,
    /// A line of a trace begins with no number and a space.
    NoLine(u32),
    /// The time of a line is past the times that texts write.
    TooLate(u32),
}

impl fmt::Display for TimedFault {
    ghost use Rattle.std.specs.Prelude.{Some};
    ghost use Rattle.timed_arrivals.specs.FaultTexts.{timed_fault_text};

    ghost output = { λ fault. Some (timed_fault_text fault) };

    fn fmt<W: fmt::Write>(&self, f: &mut fmt::Formatter<W>) -> fmt::Result {
        match self {
            TimedFault::Memory => write!(f, "out of memory"),
            TimedFault::BadRow(row) => write!(f, "bad row {row}"),
            TimedFault::BadTime(row, field) => write!(f, "bad time {row} {field}"),
            TimedFault::UnknownKind(row) => write!(f, "unknown kind {row}"),
            TimedFault::TooMany => write!(f, "too many"),
            TimedFault::NoLine(line) => write!(f, "no line {line}"),
            TimedFault::TooLate(line) => write!(f, "too late {line}"),
        }
    }
}

impl fmt::Debug for TimedFault {
    fn fmt<W: fmt::Write>(&self, f: &mut fmt::Formatter<W>) -> fmt::Result {
        fmt::Display::fmt(self, f)
    }
}

impl Error for TimedFault {}

impl From<Memory> for TimedFault {
    ghost from_gives = { λ _ fault. fault ≡ MemoryFault };

    fn from(_: Memory) -> TimedFault {
        TimedFault::Memory
    }
}
