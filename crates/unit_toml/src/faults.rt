//! Why a file of units is refused.

ghost use Rattle.std.specs.Prelude.{◌≡◌};
ghost use Rattle.unit_toml.specs.declared.faults.UnitsFault.TheVariants.{Memory as MemoryFault};

use crate::keys::UnitPlace;
use slot_core::{Memory, Part};
use std::alloc::AllocFailed;
use std::error::Error;
use std::fmt;

/// Why a file of units is refused.
#[derive(Clone, Copy, PartialEq, Eq)]
pub enum UnitsFault {
    /// Memory ran out.
    Memory,
    /// The bytes are no TOML document.
    NotToml,
    /// A table has a key that it does not know.
    UnknownKey(Part),
    /// A key that must be there is not.
    Missing(UnitPlace),
    /// The value at a key is of another kind.
    WrongKind(UnitPlace),
    /// A number, with its value, is outside its range.
    OutOfRange(UnitPlace, i64),
    /// A text is no name.
    BadName(UnitPlace),
    /// A text is no time.
    BadTime(UnitPlace),
    /// A text is none of the words that may stand there.
    BadWord(UnitPlace),
    /// A planned separation is longer than the separation.
    TooLong(UnitPlace),
    /// A list, with its length, is longer than its limit.
    TooMany(UnitPlace, u32),
}

impl fmt::Display for UnitsFault {
    ghost use Rattle.std.specs.Prelude.{Some};
    ghost use Rattle.unit_toml.specs.FaultTexts.{units_fault_text};

    ghost output = { λ fault. Some (units_fault_text fault) };

    fn fmt<W: fmt::Write>(&self, f: &mut fmt::Formatter<W>) -> fmt::Result {
        match self {
            UnitsFault::Memory => write!(f, "out of memory"),
            UnitsFault::NotToml => write!(f, "not toml"),
            UnitsFault::UnknownKey(part) => write!(f, "unknown key in {part}"),
            UnitsFault::Missing(place) => write!(f, "missing {place}"),
            UnitsFault::WrongKind(place) => write!(f, "wrong kind {place}"),
            UnitsFault::OutOfRange(place, value) => write!(f, "out of range {place} {value}"),
            UnitsFault::BadName(place) => write!(f, "bad name {place}"),
            UnitsFault::BadTime(place) => write!(f, "bad time {place}"),
            UnitsFault::BadWord(place) => write!(f, "bad word {place}"),
            UnitsFault::TooLong(place) => write!(f, "too long {place}"),
            UnitsFault::TooMany(place, count) => write!(f, "too many {place} {count}"),
        }
    }
}

impl fmt::Debug for UnitsFault {
    fn fmt<W: fmt::Write>(&self, f: &mut fmt::Formatter<W>) -> fmt::Result {
        fmt::Display::fmt(self, f)
    }
}

impl Error for UnitsFault {}

impl From<Memory> for UnitsFault {
    ghost from_gives = { λ _ fault. fault ≡ MemoryFault };

    fn from(_: Memory) -> UnitsFault {
        UnitsFault::Memory
    }
}

impl<T: Drop> From<AllocFailed<T>> for UnitsFault {
    ghost from_gives = { λ _ fault. fault ≡ MemoryFault };

    fn from(_: AllocFailed<T>) -> UnitsFault {
        UnitsFault::Memory
    }
}
