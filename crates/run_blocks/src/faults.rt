//! Why there are no rows.

use crate::ROW_LIMIT;
use slot_core::Memory;
use std::error::Error;
use std::fmt;

/// Why there are no rows.
#[derive(Clone, Copy, PartialEq, Eq, Debug)]
pub enum RowsFault {
    /// Memory ran out.
    Memory,
    /// The jobs that run ask for more than `ROW_LIMIT` rows.
    TooMany,
}

impl fmt::Display for RowsFault {
    fn fmt<W: fmt::Write>(&self, f: &mut fmt::Formatter<W>) -> fmt::Result {
        match self {
            RowsFault::Memory => write!(f, "out of memory"),
            RowsFault::TooMany => write!(f, "too many rows {ROW_LIMIT}"),
        }
    }
}

impl Error for RowsFault {}

impl From<Memory> for RowsFault {
    ghost use Rattle.std.specs.Prelude.{◌≡◌};
    ghost use Rattle.run_blocks.specs.declared.faults.RowsFault.TheVariants.{Memory as MemoryFault};

    ghost from_gives = { λ _ fault. fault ≡ MemoryFault };

    fn from(_: Memory) -> RowsFault {
        RowsFault::Memory
    }
}
