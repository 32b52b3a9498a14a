//! Why a table of jobs is not written in whole.

use std::error::Error;
use std::fmt;

/// Why a table of jobs is not written in whole.
#[derive(Clone, Copy, PartialEq, Eq, Debug)]
pub enum JobsFault {
    /// Memory ran out.
    Memory,
    /// The sink failed.
    Failed,
    /// The line of this number, counted from 1, names a task that the set does not have.
    NoLine(u64),
}

impl fmt::Display for JobsFault {
    ghost use Rattle.std.specs.Prelude.{Some};
    ghost use Rattle.view_jobs.specs.FaultTexts.{fault_text};

    ghost output = { λ fault. Some (fault_text fault) };

    fn fmt<W: fmt::Write>(&self, f: &mut fmt::Formatter<W>) -> fmt::Result {
        match self {
            JobsFault::Memory => write!(f, "out of memory"),
            JobsFault::Failed => write!(f, "failed"),
            JobsFault::NoLine(number) => write!(f, "no line {number}"),
        }
    }
}

impl Error for JobsFault {}
