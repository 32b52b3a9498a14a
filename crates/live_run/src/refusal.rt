//! Every way in which a live run ends that is not Done.

ghost use Rattle.std.specs.Prelude.{◌≡◌};
ghost use Rattle.command_line.specs.declared.refusal.Refusal.TheVariants.{Memory as NoMemory};
ghost use Rattle.live_run.specs.Refusals.{live_status, of_dialogue};
ghost use Rattle.live_run.specs.declared.refusal.LiveRefusal.TheVariants.{Run as RunRefusal};

use crate::streams::DialogueFault;
use command_line::{Refusal, Status};
use slot_core::Memory;

/// Why a live run is not done.
#[derive(Drop)]
pub enum LiveRefusal {
    /// The words are none of the forms.
    Usage,
    /// As a run of slotshift is refused: its plan, the output, or want of memory.
    Run(Refusal),
    /// The record cannot be made.
    Unmade,
    /// The record takes no more.
    Unrecorded,
    /// No more lines can be read.
    Unheard,
}

impl LiveRefusal {
    /// The status of the run.
    pub fn status(&self) -> Status
        ensures { result ≡ live_status self.now }
    {
        match self {
            LiveRefusal::Usage => Status::Usage,
            LiveRefusal::Run(refusal) => refusal.status(),
            LiveRefusal::Unmade | LiveRefusal::Unrecorded => Status::WriteFault,
            LiveRefusal::Unheard => Status::FileFault,
        }
    }
}

impl From<Refusal> for LiveRefusal {
    ghost from_gives = { λ refusal live. live ≡ RunRefusal refusal };

    fn from(refusal: Refusal) -> LiveRefusal {
        LiveRefusal::Run(refusal)
    }
}

impl From<Memory> for LiveRefusal {
    ghost from_gives = { λ _ live. live ≡ RunRefusal NoMemory };

    fn from(_memory: Memory) -> LiveRefusal {
        LiveRefusal::Run(Refusal::Memory)
    }
}

impl From<DialogueFault> for LiveRefusal {
    ghost from_gives = { λ fault live. live ≡ of_dialogue fault };

    fn from(fault: DialogueFault) -> LiveRefusal {
        match fault {
            DialogueFault::Input => LiveRefusal::Unheard,
            DialogueFault::Record => LiveRefusal::Unrecorded,
            DialogueFault::Output => LiveRefusal::Run(Refusal::WriteFault),
        }
    }
}
