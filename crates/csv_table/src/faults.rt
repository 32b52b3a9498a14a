//! Why a table is not written in whole.

use slot_core::{Failed, Memory};
use std::error::Error;
use std::fmt;

/// Why a table is not written in whole.
#[derive(Clone, Copy, PartialEq, Eq, Debug)]
pub enum CsvFault {
    /// Memory ran out.
    Memory,
    /// The sink failed.
    Failed,
}

impl fmt::Display for CsvFault {
    ghost use Rattle.std.specs.Prelude.{Some};
    ghost use Rattle.csv_table.specs.FaultTexts.{fault_text};

    ghost output = { λ fault. Some (fault_text fault) };

    fn fmt<W: fmt::Write>(&self, f: &mut fmt::Formatter<W>) -> fmt::Result {
        f.write_str(match self {
            CsvFault::Memory => "out of memory",
            CsvFault::Failed => "failed",
        })
    }
}

impl Error for CsvFault {}

impl From<Memory> for CsvFault {
    ghost use Rattle.std.specs.Prelude.{◌≡◌};
    ghost use Rattle.csv_table.specs.declared.faults.CsvFault.TheVariants.{Memory as MemoryFault};

    ghost from_gives = { λ _ fault. fault ≡ MemoryFault };

    fn from(_: Memory) -> CsvFault {
        CsvFault::Memory
    }
}

impl From<Failed> for CsvFault {
    ghost use Rattle.std.specs.Prelude.{◌≡◌};
    ghost use Rattle.csv_table.specs.declared.faults.CsvFault.TheVariants.{Failed as FailedFault};

    ghost from_gives = { λ _ fault. fault ≡ FailedFault };

    fn from(_: Failed) -> CsvFault {
        CsvFault::Failed
    }
}
