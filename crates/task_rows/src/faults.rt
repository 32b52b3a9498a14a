//! Why there is no picture over the tasks of a set.

use slot_core::Memory;

/// Why a trace has no picture over the tasks of a set.
#[derive(Clone, Copy, PartialEq, Eq)]
pub enum TaskPictureFault {
    /// Memory ran out.
    Memory,
    /// The trace has more than `PICTURE_LIMIT` slots.
    TooLong,
    /// The jobs that run ask for more than `ROW_LIMIT` rows.
    TooManyRows,
    /// The line of this number is the first that runs a job of a task which the set does not have.
    NoLine(u64),
}

impl From<Memory> for TaskPictureFault {
    ghost use Rattle.std.specs.Prelude.{◌≡◌};
    ghost use Rattle.task_rows.specs.declared.faults.TaskPictureFault.TheVariants.{Memory as MemoryFault};

    ghost from_gives = { λ _ fault. fault ≡ MemoryFault };

    fn from(_: Memory) -> TaskPictureFault {
        TaskPictureFault::Memory
    }
}
