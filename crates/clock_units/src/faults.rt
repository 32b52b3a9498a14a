//! Why a set in physical time has no set in slots.

ghost use Rattle.std.specs.Prelude.{◌≡◌};
ghost use Rattle.clock_units.specs.declared.faults.UnitFault.TheVariants.{Memory as MemoryFault};

use slot_core::{Memory, Place};
use std::error::Error;
use std::fmt;

/// Why a set in physical time has no set in slots.
#[derive(Clone, Copy, PartialEq, Eq)]
pub enum UnitFault {
    /// Memory ran out.
    Memory,
    /// The overhead leaves nothing of a slot.
    NoWorth,
    /// A period is no whole number of slots.
    NotWhole(Place),
    /// A number of slots, with its value, is outside its range.
    OutOfRange(Place, u64),
    /// A list, with its length, is longer than its limit.
    TooMany(Place, u64),
}

impl fmt::Display for UnitFault {
    ghost use Rattle.std.specs.Prelude.{Some};
    ghost use Rattle.clock_units.specs.FaultTexts.{unit_fault_text};

    ghost output = { λ fault. Some (unit_fault_text fault) };

    fn fmt<W: fmt::Write>(&self, f: &mut fmt::Formatter<W>) -> fmt::Result {
        match self {
            UnitFault::Memory => write!(f, "out of memory"),
            UnitFault::NoWorth => write!(f, "overhead not below slot"),
            UnitFault::NotWhole(place) => write!(f, "not whole {place}"),
            UnitFault::OutOfRange(place, slots) => write!(f, "out of range {place} {slots}"),
            UnitFault::TooMany(place, count) => write!(f, "too many {place} {count}"),
        }
    }
}

impl fmt::Debug for UnitFault {
    fn fmt<W: fmt::Write>(&self, f: &mut fmt::Formatter<W>) -> fmt::Result {
        fmt::Display::fmt(self, f)
    }
}

impl Error for UnitFault {}

impl From<Memory> for UnitFault {
    ghost from_gives = { λ _ fault. fault ≡ MemoryFault };

    fn from(_: Memory) -> UnitFault {
        UnitFault::Memory
    }
}
