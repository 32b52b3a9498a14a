//! Why a table is refused.

ghost use Rattle.std.specs.Prelude.{◌≡◌};
ghost use Rattle.faults.specs.TableNumbers.{fault_number};
ghost use Rattle.faults.specs.TableSources.{set_refused};
ghost use Rattle.faults.specs.declared.table_fault.TableFault.TheVariants.{Memory as MemoryFault};

use slot_core::{Job, Key, Memory, Span, TaskFault, Window};
use std::alloc::AllocFailed;
use std::error::Error;
use std::fmt;

/// Why a table is refused. Jobs and spans count from 0. Of a pair the first is stored in the table,
/// and the second computed from its task set.
#[derive(Clone, Copy)]
pub enum TableFault {
    /// Memory ran out.
    Memory,
    /// The bytes, this many of them, end before a field that is due, or inside it.
    Short(u64),
    /// The first four bytes are not `SLOT`.
    BadMagic,
    /// The version is not known.
    BadVersion(u16),
    /// The task set is refused.
    BadSource(TaskFault),
    /// The task set is not feasible: a window with more demand than slots.
    Infeasible(Window),
    /// The number of jobs.
    WrongJobCount(u32, u32),
    /// A job, by its place.
    WrongJob(u32, Job, Job),
    /// The number of spans.
    WrongSpanCount(u32, u32),
    /// A span, by its place.
    WrongSpan(u32, Span, Span),
    /// Bytes follow the table, which has this many.
    Trailing(u64),
}

impl TableFault {
    /// The fault's number, from 1 on in the order of the variants.
    pub fn number(self) -> u8
        ensures { result ≡ fault_number self }
    {
        match self {
            TableFault::Memory => 1,
            TableFault::Short(_) => 2,
            TableFault::BadMagic => 3,
            TableFault::BadVersion(_) => 4,
            TableFault::BadSource(_) => 5,
            TableFault::Infeasible(_) => 6,
            TableFault::WrongJobCount(_, _) => 7,
            TableFault::WrongJob(_, _, _) => 8,
            TableFault::WrongSpanCount(_, _) => 9,
            TableFault::WrongSpan(_, _, _) => 10,
            TableFault::Trailing(_) => 11,
        }
    }
}

impl fmt::Display for TableFault {
    ghost use Rattle.std.specs.Prelude.{Some};
    ghost use Rattle.faults.specs.TableTexts.{table_fault_text};

    ghost output = { λ fault. Some (table_fault_text fault) };

    fn fmt<W: fmt::Write>(&self, f: &mut fmt::Formatter<W>) -> fmt::Result {
        match self {
            TableFault::Memory => write!(f, "out of memory"),
            TableFault::Short(at) => write!(f, "short {at}"),
            TableFault::BadMagic => write!(f, "bad magic"),
            TableFault::BadVersion(version) => write!(f, "bad version {version}"),
            TableFault::BadSource(fault) => write!(f, "source {fault}"),
            TableFault::Infeasible(w) => write!(
                f,
                "infeasible {} {} {}",
                w.from, w.until, w.demand
            ),
            TableFault::WrongJobCount(stored, computed) => {
                write!(f, "wrong job count {stored} {computed}")
            }
            TableFault::WrongJob(place, stored, computed) => {
                write!(
                    f,
                    "wrong job {place} {} {}",
                    JobText(*stored),
                    JobText(*computed)
                )
            }
            TableFault::WrongSpanCount(stored, computed) => {
                write!(f, "wrong span count {stored} {computed}")
            }
            TableFault::WrongSpan(place, stored, computed) => {
                write!(
                    f,
                    "wrong span {place} {} {}",
                    SpanText(*stored),
                    SpanText(*computed)
                )
            }
            TableFault::Trailing(at) => write!(f, "trailing {at}"),
        }
    }
}

impl fmt::Debug for TableFault {
    fn fmt<W: fmt::Write>(&self, f: &mut fmt::Formatter<W>) -> fmt::Result {
        fmt::Display::fmt(self, f)
    }
}

impl Error for TableFault {}

/// The numbers of a job as text.
#[derive(Clone, Copy)]
struct JobText(Job);

impl fmt::Display for JobText {
    ghost use Rattle.std.specs.Prelude.{Some};
    ghost use Rattle.faults.specs.TableTexts.{job_text};

    ghost output = { λ text. Some (job_text text.0) };

    fn fmt<W: fmt::Write>(&self, f: &mut fmt::Formatter<W>) -> fmt::Result {
        let job = self.0;
        if let Key::Offline(graph, task, instance) = job.key {
            write!(f, "{graph} {task} {instance} ")?;
        }
        write!(f, "{} {} {}", job.est, job.dl, job.declared)
    }
}

/// The numbers of a span as text.
#[derive(Clone, Copy)]
struct SpanText(Span);

impl fmt::Display for SpanText {
    ghost use Rattle.std.specs.Prelude.{Some};
    ghost use Rattle.faults.specs.TableTexts.{span_text};

    ghost output = { λ text. Some (span_text text.0) };

    fn fmt<W: fmt::Write>(&self, f: &mut fmt::Formatter<W>) -> fmt::Result {
        let span = self.0;
        write!(
            f,
            "{} {} {} {}",
            span.start, span.end, span.work, span.spare
        )
    }
}

impl From<Memory> for TableFault {
    ghost from_gives = { λ _ fault. fault ≡ MemoryFault };

    fn from(_: Memory) -> TableFault {
        TableFault::Memory
    }
}

impl<T: Drop> From<AllocFailed<T>> for TableFault {
    ghost from_gives = { λ _ fault. fault ≡ MemoryFault };

    fn from(_: AllocFailed<T>) -> TableFault {
        TableFault::Memory
    }
}

impl From<TaskFault> for TableFault {
    ghost from_gives = { λ refused fault. fault ≡ set_refused refused };

    fn from(fault: TaskFault) -> TableFault {
        match fault {
            TaskFault::Memory => TableFault::Memory,
            fault => TableFault::BadSource(fault),
        }
    }
}
