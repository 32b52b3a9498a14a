//! Why an explanation is not told in whole.

use slot_core::{Failed, Memory};
use std::error::Error;
use std::fmt;

/// Why an explanation is not told in whole.
#[derive(Clone, Copy, PartialEq, Eq, Debug)]
pub enum ExplainFault {
    /// Memory ran out, and nothing is told.
    Memory,
    /// The sink failed, and a part is told.
    Failed,
}

impl fmt::Display for ExplainFault {
    ghost use Rattle.std.specs.Prelude.{Some};
    ghost use Rattle.future_check.specs.Explanations.{fault_text};

    ghost output = { λ fault. Some (fault_text fault) };

    fn fmt<W: fmt::Write>(&self, f: &mut fmt::Formatter<W>) -> fmt::Result {
        f.write_str(match self {
            ExplainFault::Memory => "out of memory",
            ExplainFault::Failed => "failed",
        })
    }
}

impl Error for ExplainFault {}

impl From<Memory> for ExplainFault {
    ghost use Rattle.std.specs.Prelude.{◌≡◌};
    ghost use Rattle.future_check.specs.declared.faults.ExplainFault.TheVariants.{Memory as MemoryFault};

    ghost from_gives = { λ _ fault. fault ≡ MemoryFault };

    fn from(_: Memory) -> ExplainFault {
        ExplainFault::Memory
    }
}

impl From<Failed> for ExplainFault {
    ghost use Rattle.std.specs.Prelude.{◌≡◌};
    ghost use Rattle.future_check.specs.declared.faults.ExplainFault.TheVariants.{Failed as FailedFault};

    ghost from_gives = { λ _ fault. fault ≡ FailedFault };

    fn from(_: Failed) -> ExplainFault {
        ExplainFault::Failed
    }
}
