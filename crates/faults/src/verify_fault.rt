//! The faults of a recorded trace.

ghost use Rattle.std.specs.Prelude.{◌≡◌};
ghost use Rattle.faults.specs.VerifyTexts.{verify_fault_number};
ghost use Rattle.faults.specs.declared.verify_fault.VerifyFault.TheVariants.{Memory as MemoryFault};

use slot_core::{Key, Memory};

/// Why a recorded trace is no lawful one. Lines count from 1.
#[derive(Clone, Copy)]
pub enum VerifyFault {
    /// Memory ran out.
    Memory,
    /// This line is needed and has no line feed.
    Short(u64),
    /// This line stands for a slot, and it is not a number, a space, `idle` or `run` with a key,
    /// and a space before the rest.
    NoRun(u64),
    /// This line runs the job of a key that may not run in its slot.
    NotReady(u64, Key),
    /// This line is not that of the entry which the lines before it, the arrivals and, for a slot,
    /// what it runs fix.
    Differs(u64),
    /// After the slot of this line the remaining job of this key is past its deadline.
    Late(u64, Key),
    /// Bytes follow the line of the end, where this line would begin.
    Trailing(u64),
}

impl VerifyFault {
    /// The fault's number, from 1 on in the order of the variants.
    pub fn number(self) -> u8
        ensures { result ≡ verify_fault_number self }
    {
        match self {
            VerifyFault::Memory => 1,
            VerifyFault::Short(_) => 2,
            VerifyFault::NoRun(_) => 3,
            VerifyFault::NotReady(_, _) => 4,
            VerifyFault::Differs(_) => 5,
            VerifyFault::Late(_, _) => 6,
            VerifyFault::Trailing(_) => 7,
        }
    }
}

impl From<Memory> for VerifyFault {
    ghost from_gives = { λ _ fault. fault ≡ MemoryFault };

    fn from(_memory: Memory) -> VerifyFault {
        VerifyFault::Memory
    }
}
