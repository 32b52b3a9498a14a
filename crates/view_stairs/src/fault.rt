//! Why a text is no staircase.

use slot_core::Memory;
use std::alloc::{AllocError, AllocFailed};
use std::error::Error;
use std::fmt;

/// Why a text has no lines of a supply.
#[derive(Clone, Copy, PartialEq, Eq, Debug)]
pub enum StairsFault {
    /// Memory ran out.
    Memory,
    /// The line of this number, counted from 1, is none of a supply, or does not follow.
    NoLine(u64),
}

impl From<AllocError> for StairsFault {
    ghost use Rattle.std.specs.Prelude.{◌≡◌};
    ghost use Rattle.view_stairs.specs.declared.fault.StairsFault.TheVariants.{Memory as MemoryFault};

    ghost from_gives = { λ _ fault. fault ≡ MemoryFault };

    fn from(_: AllocError) -> StairsFault {
        StairsFault::Memory
    }
}

impl<T: Drop> From<AllocFailed<T>> for StairsFault {
    ghost use Rattle.std.specs.Prelude.{◌≡◌};
    ghost use Rattle.view_stairs.specs.declared.fault.StairsFault.TheVariants.{Memory as MemoryFault};

    ghost from_gives = { λ _ fault. fault ≡ MemoryFault };

    fn from(_: AllocFailed<T>) -> StairsFault {
        StairsFault::Memory
    }
}

impl fmt::Display for StairsFault {
    fn fmt<W: fmt::Write>(&self, f: &mut fmt::Formatter<W>) -> fmt::Result {
        match self {
            StairsFault::Memory => f.write_str("out of memory"),
            StairsFault::NoLine(number) => write!(f, "no line {number}"),
        }
    }
}

impl Error for StairsFault {}
