//! Every way in which a run ends that is not Done.

ghost use Rattle.std.specs.Prelude.{◌≡◌, ◌++◌, IfOk, OnOk, codes};
ghost use Rattle.clock_units.specs.FaultTexts.{unit_fault_text};
ghost use Rattle.slot_core.specs.Output.FaultTexts.{task_fault_text};
ghost use Rattle.slot_core.specs.Output.Texts.{worded};
ghost use Rattle.timed_arrivals.specs.FaultTexts.{timed_fault_text};
ghost use Rattle.unit_toml.specs.FaultTexts.{units_fault_text};
ghost use Rattle.units_run.specs.Lines.{reason_of, refusal_line};
ghost use Rattle.units_run.specs.Runs.{refusal_status};

use crate::work::rows_limit;
use clock_units::UnitFault;
use command_line::Status;
use command_line::append::{push, push_worded};
use slot_core::{Memory, TASK_FILE_LIMIT, TaskFault};
use std::alloc::Global;
use timed_arrivals::{Form, TimedFault};
use unit_toml::UnitsFault;

/// Why a run is not done.
#[derive(Clone, Copy)]
pub enum UnitsRefusal {
    /// The file cannot be read.
    Unreadable,
    /// The file has more bytes than its limit.
    TooLarge,
    /// The bytes write no set in physical time.
    BadUnits(UnitsFault),
    /// The set in physical time has no set in slots.
    NoSlots(UnitFault),
    /// The set in slots has a fault.
    BadTasks(TaskFault),
    /// The text that was made is read as another set.
    ReadsOtherwise,
    /// The file of arrivals, or the trace, cannot be read.
    UnreadableRows,
    /// It has more bytes than its limit.
    TooLargeRows(Form),
    /// A row or a line of it has a fault.
    BadRows(Form, TimedFault),
    /// The output takes no more.
    WriteFault,
    /// Memory ran out.
    Memory,
}

impl UnitsRefusal {
    /// The status of the run.
    pub fn status(self) -> Status
        ensures { result ≡ refusal_status self }
    {
        match self {
            UnitsRefusal::Unreadable | UnitsRefusal::UnreadableRows => Status::FileFault,
            UnitsRefusal::TooLarge | UnitsRefusal::TooLargeRows(_) => Status::TooLarge,
            UnitsRefusal::BadRows(Form::Arrivals, _) => Status::BadArrivals,
            UnitsRefusal::BadRows(Form::Trace, _) => Status::NotVerified,
            UnitsRefusal::BadUnits(_)
            | UnitsRefusal::NoSlots(_)
            | UnitsRefusal::BadTasks(_)
            | UnitsRefusal::ReadsOtherwise => Status::BadTasks,
            UnitsRefusal::WriteFault => Status::WriteFault,
            UnitsRefusal::Memory => Status::Memory,
        }
    }
}

/// The line of the refusal, of files of these names.
pub(crate) fn refusal_line(
    alloc: Global,
    name: &str,
    other: &str,
    refusal: UnitsRefusal,
) -> Result<Vec<u8>, Memory>
    ensures { IfOk result (λ line. line.items ≡ refusal_line name.now other.now refusal) }
{
    let mut line = Vec::new(alloc);
    push_reason(alloc, &mut line, name, other, refusal)?;
    push(&mut line, b"\n")?;
    Ok(line)
}

/// Appends why the run is refused.
fn push_reason(
    alloc: Global,
    line: &mut Vec<u8>,
    name: &str,
    other: &str,
    refusal: UnitsRefusal,
) -> Result<(), Memory>
    ensures { OnOk result
        (line.new.items ≡ line.old.items ++ reason_of name.now other.now refusal) }
{
    match refusal {
        UnitsRefusal::Unreadable => push_unreadable(line, name),
        UnitsRefusal::TooLarge => push_too_large(line, name, TASK_FILE_LIMIT),
        UnitsRefusal::UnreadableRows => push_unreadable(line, other),
        UnitsRefusal::TooLargeRows(form) => push_too_large(line, other, rows_limit(form)),
        UnitsRefusal::BadRows(Form::Arrivals, fault) => push_bad_arrivals(alloc, line, fault),
        UnitsRefusal::BadRows(Form::Trace, fault) => push_bad_trace(alloc, line, fault),
        UnitsRefusal::BadUnits(fault) => push_bad_units(alloc, line, fault),
        UnitsRefusal::NoSlots(fault) => push_no_slots(alloc, line, fault),
        UnitsRefusal::BadTasks(fault) => push_bad_tasks(alloc, line, fault),
        UnitsRefusal::ReadsOtherwise => push(line, b"tasks read otherwise"),
        UnitsRefusal::WriteFault => push(line, b"cannot write"),
        UnitsRefusal::Memory => push(line, b"out of memory"),
    }
}

/// Appends that the file cannot be read.
fn push_unreadable(line: &mut Vec<u8>, name: &str) -> Result<(), Memory>
    ensures { OnOk result (line.new.items ≡ line.old.items ++ (codes "cannot read " ++ name.now)) }
{
    push(line, b"cannot read ")?;
    push(line, name.as_bytes())
}

/// Appends that the file has more bytes than its limit.
fn push_too_large(line: &mut Vec<u8>, name: &str, limit: usize) -> Result<(), Memory>
    ensures { OnOk result (line.new.items ≡ line.old.items
        ++ (codes "too large " ++ worded name.now limit)) }
{
    push(line, b"too large ")?;
    push_worded(line, name.as_bytes(), limit as u64)
}

/// Appends what is wrong with a row of arrivals.
fn push_bad_arrivals(alloc: Global, line: &mut Vec<u8>, fault: TimedFault) -> Result<(), Memory>
    ensures { OnOk result
        (line.new.items ≡ line.old.items ++ (codes "arrivals " ++ timed_fault_text fault)) }
{
    let words = format!(in alloc; "arrivals {fault}")?;
    push(line, words.as_bytes())
}

/// Appends what is wrong with a line of a trace.
fn push_bad_trace(alloc: Global, line: &mut Vec<u8>, fault: TimedFault) -> Result<(), Memory>
    ensures { OnOk result
        (line.new.items ≡ line.old.items ++ (codes "trace " ++ timed_fault_text fault)) }
{
    let words = format!(in alloc; "trace {fault}")?;
    push(line, words.as_bytes())
}

/// Appends what is wrong with the file of units.
fn push_bad_units(alloc: Global, line: &mut Vec<u8>, fault: UnitsFault) -> Result<(), Memory>
    ensures { OnOk result
        (line.new.items ≡ line.old.items ++ (codes "units " ++ units_fault_text fault)) }
{
    let words = format!(in alloc; "units {fault}")?;
    push(line, words.as_bytes())
}

/// Appends why the set in physical time has no set in slots.
fn push_no_slots(alloc: Global, line: &mut Vec<u8>, fault: UnitFault) -> Result<(), Memory>
    ensures { OnOk result
        (line.new.items ≡ line.old.items ++ (codes "units " ++ unit_fault_text fault)) }
{
    let words = format!(in alloc; "units {fault}")?;
    push(line, words.as_bytes())
}

/// Appends what is wrong with the set in slots.
fn push_bad_tasks(alloc: Global, line: &mut Vec<u8>, fault: TaskFault) -> Result<(), Memory>
    ensures { OnOk result
        (line.new.items ≡ line.old.items ++ (codes "tasks " ++ task_fault_text fault)) }
{
    let words = format!(in alloc; "tasks {fault}")?;
    push(line, words.as_bytes())
}
