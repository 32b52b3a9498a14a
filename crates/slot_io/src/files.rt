//! Files that are read whole up to a limit.

ghost use Rattle.std.specs.Prelude.{◌≡◌, ◌≢◌, ℕ, ◌+◌, ◌≤◌, List, Option, Some, IfSome, IfOk, OnErr, vec_len};
ghost use Rattle.slot_core.specs.Calls.Counts.{Rose};
ghost use Rattle.slot_io.specs.Files.{Held, first_bytes};
ghost use Rattle.slot_io.specs.declared.files.ReadFault.TheVariants.{Memory as MemoryFault};

use slot_core::READ_LIMIT;
use std::alloc::{AllocError, Global};
use std::error::Error;
use std::fmt;

/// Why a read gives no bytes.
#[derive(Clone, Copy, PartialEq, Eq, Debug)]
pub enum ReadFault {
    /// Memory ran out.
    Memory,
    /// The file could not be read.
    Failed,
}

impl fmt::Display for ReadFault {
    ghost use Rattle.std.specs.Prelude.{Some};
    ghost use Rattle.slot_io.specs.FaultTexts.{read_fault_text};

    ghost output = { λ fault. Some (read_fault_text fault) };

    fn fmt<W: fmt::Write>(&self, f: &mut fmt::Formatter<W>) -> fmt::Result {
        match self {
            ReadFault::Memory => write!(f, "out of memory"),
            ReadFault::Failed => write!(f, "failed"),
        }
    }
}

impl Error for ReadFault {}

impl From<AllocError> for ReadFault {
    ghost from_gives = { λ _ fault. fault ≡ MemoryFault };

    fn from(_: AllocError) -> ReadFault {
        ReadFault::Memory
    }
}

/// Files that are read whole up to a limit.
pub trait Files {
    /// The bytes under each name, where they are told.
    ghost held: { Self → Option Held };

    /// How many reads failed, up to the last value of a `u64`.
    ghost faults: { Self → ℕ };

    /// The name of the last read that failed, or none.
    ghost blamed: { Self → Option (List ℕ) };

    /// The name of the last read that gave bytes, and how many, or none.
    ghost given: { Self → Option (List ℕ × ℕ) };

    /// The first bytes of a file: at most one more than `limit`, so that a caller sees whether the
    /// file is longer. After a fault the last read that gave bytes is the one before.
    fn read(&mut self, alloc: Global, name: &str, limit: usize) -> Result<Vec<u8>, ReadFault>
        requires { limit ≤ READ_LIMIT }
        ensures short { IfOk result (λ bytes. vec_len bytes ≤ limit + 1) }
        ensures first { IfOk result (λ bytes. IfSome (held self.old)
            (λ files. first_bytes files name.now limit ≡ Some bytes.items)) }
        ensures keeps { held self.new ≡ held self.old }
        ensures counted { faults self.old ≤ faults self.new }
        ensures failed { result ≡ Err ReadFault.Failed → Rose (faults self.old) (faults self.new) }
        ensures named { result ≡ Err ReadFault.Failed → blamed self.new ≡ Some name.now }
        ensures no_fault { result ≢ Err ReadFault.Failed → faults self.new ≡ faults self.old }
        ensures no_blame { result ≢ Err ReadFault.Failed → blamed self.new ≡ blamed self.old }
        ensures gives { IfOk result (λ bytes. given self.new ≡ Some (name.now, vec_len bytes)) }
        ensures gives_none { OnErr result (given self.new ≡ given self.old) };
}
