//! Why there is no picture.

use crate::PICTURE_LIMIT;
use run_blocks::ROW_LIMIT;
use slot_core::Memory;
use std::error::Error;
use std::fmt;

/// Why a trace has no picture.
#[derive(Clone, Copy, PartialEq, Eq, Debug)]
pub enum PictureFault {
    /// Memory ran out.
    Memory,
    /// The trace has more than `PICTURE_LIMIT` slots.
    TooLong,
    /// The jobs that run ask for more than `ROW_LIMIT` rows.
    TooManyRows,
}

impl From<Memory> for PictureFault {
    ghost use Rattle.std.specs.Prelude.{◌≡◌};
    ghost use Rattle.view_picture.specs.declared.faults.PictureFault.TheVariants.{Memory as MemoryFault};

    ghost from_gives = { λ _ fault. fault ≡ MemoryFault };

    fn from(_: Memory) -> PictureFault {
        PictureFault::Memory
    }
}

impl fmt::Display for PictureFault {
    ghost use Rattle.std.specs.Prelude.{Some};
    ghost use Rattle.view_picture.specs.FaultTexts.{picture_fault_text};

    ghost output = { λ fault. Some (picture_fault_text fault) };

    fn fmt<W: fmt::Write>(&self, f: &mut fmt::Formatter<W>) -> fmt::Result {
        match self {
            PictureFault::Memory => f.write_str("out of memory"),
            PictureFault::TooLong => write!(f, "trace too long {PICTURE_LIMIT}"),
            PictureFault::TooManyRows => write!(f, "trace too many rows {ROW_LIMIT}"),
        }
    }
}

impl Error for PictureFault {}
