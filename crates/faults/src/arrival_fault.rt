//! Why an arrivals file is refused.

ghost use Rattle.std.specs.Prelude.{◌≡◌};
ghost use Rattle.faults.specs.ArrivalNumbers.{fault_number};
ghost use Rattle.faults.specs.declared.arrival_fault.ArrivalFault.TheVariants.{Memory as MemoryFault};

use slot_core::Memory;
use std::alloc::AllocFailed;
use std::error::Error;
use std::fmt;

/// Why an arrivals file is refused. The first number of a fault is its row, from 1 on.
#[derive(Clone, Copy)]
pub enum ArrivalFault {
    /// Memory ran out.
    Memory,
    /// A row has fewer than two fields, or does not have the number of fields of its kind.
    BadRow(u32),
    /// The second field names no kind.
    UnknownKind(u32),
    /// A field, counted from 1, is no number in its range.
    BadNumber(u32, u32),
    /// A slot is below that of the row before: its row, the slot before, and its slot.
    OutOfOrder(u32, u64, u64),
    /// A slot is not below the number of slots: its row, and its slot.
    PastEnd(u32, u64),
    /// A name is that of no sporadic task.
    UnknownSporadic(u32),
    /// A text is no key of the task set.
    BadKey(u32),
    /// There are more than `ARRIVAL_LIMIT` rows.
    TooMany,
}

impl ArrivalFault {
    /// The fault's number, from 1 on in the order of the variants.
    pub fn number(self) -> u8
        ensures { result ≡ fault_number self }
    {
        match self {
            ArrivalFault::Memory => 1,
            ArrivalFault::BadRow(_) => 2,
            ArrivalFault::UnknownKind(_) => 3,
            ArrivalFault::BadNumber(_, _) => 4,
            ArrivalFault::OutOfOrder(_, _, _) => 5,
            ArrivalFault::PastEnd(_, _) => 6,
            ArrivalFault::UnknownSporadic(_) => 7,
            ArrivalFault::BadKey(_) => 8,
            ArrivalFault::TooMany => 9,
        }
    }
}

impl fmt::Display for ArrivalFault {
    ghost use Rattle.std.specs.Prelude.{Some};
    ghost use Rattle.faults.specs.ArrivalTexts.{arrival_fault_text};

    ghost output = { λ fault. Some (arrival_fault_text fault) };

    fn fmt<W: fmt::Write>(&self, f: &mut fmt::Formatter<W>) -> fmt::Result {
        match self {
            ArrivalFault::Memory => write!(f, "out of memory"),
            ArrivalFault::BadRow(row) => write!(f, "bad row {row}"),
            ArrivalFault::UnknownKind(row) => write!(f, "unknown kind {row}"),
            ArrivalFault::BadNumber(row, field) => write!(f, "bad number {row} {field}"),
            ArrivalFault::OutOfOrder(row, before, slot) => {
                write!(f, "out of order {row} {before} {slot}")
            }
            ArrivalFault::PastEnd(row, slot) => write!(f, "past end {row} {slot}"),
            ArrivalFault::UnknownSporadic(row) => write!(f, "unknown sporadic {row}"),
            ArrivalFault::BadKey(row) => write!(f, "bad key {row}"),
            ArrivalFault::TooMany => write!(f, "too many"),
        }
    }
}

impl fmt::Debug for ArrivalFault {
    fn fmt<W: fmt::Write>(&self, f: &mut fmt::Formatter<W>) -> fmt::Result {
        fmt::Display::fmt(self, f)
    }
}

impl Error for ArrivalFault {}

impl From<Memory> for ArrivalFault {
    ghost from_gives = { λ _ fault. fault ≡ MemoryFault };

    fn from(_: Memory) -> ArrivalFault {
        ArrivalFault::Memory
    }
}

impl<T: Drop> From<AllocFailed<T>> for ArrivalFault {
    ghost from_gives = { λ _ fault. fault ≡ MemoryFault };

    fn from(_: AllocFailed<T>) -> ArrivalFault {
        ArrivalFault::Memory
    }
}
