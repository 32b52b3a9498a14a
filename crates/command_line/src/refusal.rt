//! Every way in which a run ends that is not Done.

ghost use Rattle.std.specs.Prelude.{◌≡◌};
ghost use Rattle.command_line.specs.Refusals.{refusal_status, refusal_of_task_fault, refusal_of_table_fault, refusal_of_arrival_fault};
ghost use Rattle.command_line.specs.declared.refusal.Refusal.TheVariants.{WriteFault as WriteRefusal, Memory as MemoryRefusal};

use crate::{File, Reason, Status};
use faults::{ArrivalFault, TableFault};
use slot_core::{Evidence, Failed, Memory, TaskFault, Window};

/// Why a run is not done, with the values that its line on standard error tells.
#[derive(Drop)]
pub enum Refusal {
    /// The words are none of the forms.
    Usage,
    /// The file cannot be read.
    Unreadable(File),
    /// The file has more bytes than its limit.
    TooLarge(File),
    /// The bytes of the task file write no sound set.
    BadTasks(TaskFault),
    /// A window has more demand than slots.
    Infeasible(Window),
    /// The bytes of the table file spell no plan.
    BadTable(TableFault),
    /// The bytes of the arrivals file write no arrivals that fit the set and the slots.
    BadArrivals(ArrivalFault),
    /// The bytes of the trace file are no lawful trace, for this reason.
    NotVerified(Reason),
    /// The bytes of the second task file write no sound set.
    BadSecond(TaskFault),
    /// A window of the second set has more demand than slots.
    SecondInfeasible(Window),
    /// The arrivals file has fewer rows than this.
    NoRow(u32),
    /// The plan is to be changed where no cycle of this many slots ends.
    NotCycleEnd(u32),
    /// The second plan has no room for the jobs that are carried over.
    NoChange(Evidence),
    /// The output takes no more.
    WriteFault,
    /// Memory ran out.
    Memory,
}

impl Refusal {
    /// The status of the run.
    pub fn status(&self) -> Status
        ensures { result ≡ refusal_status self.now }
    {
        match self {
            Refusal::Usage => Status::Usage,
            Refusal::Unreadable(_) => Status::FileFault,
            Refusal::TooLarge(_) => Status::TooLarge,
            Refusal::BadTasks(_) => Status::BadTasks,
            Refusal::Infeasible(_) => Status::Infeasible,
            Refusal::BadTable(_) => Status::BadTable,
            Refusal::BadArrivals(_) => Status::BadArrivals,
            Refusal::NotVerified(_) => Status::NotVerified,
            Refusal::BadSecond(_) => Status::BadTasks,
            Refusal::SecondInfeasible(_) => Status::Infeasible,
            Refusal::NoRow(_) => Status::NoRow,
            Refusal::NotCycleEnd(_) | Refusal::NoChange(_) => Status::SwitchRefused,
            Refusal::WriteFault => Status::WriteFault,
            Refusal::Memory => Status::Memory,
        }
    }
}

impl From<Memory> for Refusal {
    ghost from_gives = { λ _ refusal. refusal ≡ MemoryRefusal };

    fn from(_memory: Memory) -> Refusal {
        Refusal::Memory
    }
}

impl From<Failed> for Refusal {
    ghost from_gives = { λ _ refusal. refusal ≡ WriteRefusal };

    fn from(_failed: Failed) -> Refusal {
        Refusal::WriteFault
    }
}

impl From<TaskFault> for Refusal {
    ghost from_gives = { λ fault refusal. refusal ≡ refusal_of_task_fault fault };

    fn from(fault: TaskFault) -> Refusal {
        match fault {
            TaskFault::Memory => Refusal::Memory,
            other => Refusal::BadTasks(other),
        }
    }
}

impl From<ArrivalFault> for Refusal {
    ghost from_gives = { λ fault refusal. refusal ≡ refusal_of_arrival_fault fault };

    fn from(fault: ArrivalFault) -> Refusal {
        match fault {
            ArrivalFault::Memory => Refusal::Memory,
            other => Refusal::BadArrivals(other),
        }
    }
}

impl From<TableFault> for Refusal {
    ghost from_gives = { λ fault refusal. refusal ≡ refusal_of_table_fault fault };

    fn from(fault: TableFault) -> Refusal {
        match fault {
            TableFault::Memory => Refusal::Memory,
            other => Refusal::BadTable(other),
        }
    }
}
