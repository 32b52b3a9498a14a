//! The work of a run: what is read, and what is written of it.

ghost use Rattle.std.specs.Prelude.{◌≡◌, ◌≢◌, ◌<◌, ◌≤◌, true, Ok, Err, IfOk, IfErr, OnOk};
ghost use Rattle.slot_core.specs.declared.TheConstants.{READ_LIMIT};
ghost use Rattle.slot_core.specs.declared.tasks.TaskSet.{TaskSet};
ghost use Rattle.slot_core.specs.Sets.Ranges.{is_in_range, is_sound};
ghost use Rattle.clock_units.specs.Derived.{derived_set, is_shaped};
ghost use Rattle.task_toml.specs.Reading.{reading_of_tasks};
ghost use Rattle.timed_arrivals.specs.Texts.{timed_text};
ghost use Rattle.unit_toml.specs.Reading.{reading_of_units};
ghost use Rattle.units_run.specs.Runs.{AreLengths, AreRows, AreTimed, IsAnswer, IsAnswerRefusal, IsTimedRefusal, IsDue, IsDueRefusal, IsFileRefusal, IsRowRefusal, IsRowsRefusal, IsSlotsRefusal, IsRead, IsPartWritten, IsReadingRefusal, IsRefused, IsSetRefusal, IsText, IsTextRefusal, IsUnitsRefusal, IsWritten, rows_limit, seen};
ghost use Rattle.units_run.specs.declared.refusal.UnitsRefusal.TheVariants.{WriteFault as WriteRefusal};
ghost use Rattle.units_run.specs.declared.refusal.UnitsRefusal.{UnitsRefusal};

use crate::questions::Question;
use crate::refusal::UnitsRefusal;
use clock_units::{PhysicalSet, UnitFault, slots_of};
use slot_core::{
    ARRIVALS_FILE_LIMIT, Failed, Memory, READ_LIMIT, TASK_FILE_LIMIT, TaskFault, TaskSet,
};
use slot_io::{Files, ReadFault, Sink};
use slot_lengths::lengths_text;
use source_check::check;
use std::alloc::Global;
use task_text::{TextFault, text_of};
use timed_arrivals::{Form, TimedFault, timed_text};
use unit_toml::{UnitsFault, read_units};

/// Reads the file of units of this name, and writes the answer to the question, which may read the
/// other file or standard input too.
pub(crate) fn work<F: Files, I: Files, K: Sink>(
    alloc: Global,
    question: Question,
    name: &str,
    other: &str,
    files: &mut F,
    input: &mut I,
    out: &mut K,
) -> Result<(), UnitsRefusal>
    ensures written { OnOk result (IsWritten question (F.held files.old) (I.held input.old)
        name.now other.now (K.written out.old) (K.written out.new)) }
    ensures part { result ≡ Err WriteRefusal → IsPartWritten question (F.held files.old)
        (I.held input.old) name.now other.now (K.written out.old) (K.written out.new) }
    ensures reads_well { OnOk result ((F.faults files.new ≡ F.faults files.old)
        × (I.faults input.new ≡ I.faults input.old)) }
    ensures refused { IfErr result (IsRefused question name.now other.now
        (seen F.held F.blamed F.given F.faults files.old files.new)
        (seen I.held I.blamed I.given I.faults input.old input.new)
        (K.faults out.old, K.faults out.new)) }
    ensures untouched { (e : UnitsRefusal) → result ≡ Err e → e ≢ WriteRefusal
        → out.new ≡ out.old }
{
    let text = answer(alloc, question, name, other, files, input)?;
    match out.put(text.as_slice()) {
        Ok(()) => Ok(()),
        Err(Failed) => Err(UnitsRefusal::WriteFault),
    }
}

/// The answer to the question of the file of units of this name.
fn answer<F: Files, I: Files>(
    alloc: Global,
    question: Question,
    name: &str,
    other: &str,
    files: &mut F,
    input: &mut I,
) -> Result<Vec<u8>, UnitsRefusal>
    ensures due { IfOk result (λ text.
        IsDue question (F.held files.old) (I.held input.old) name.now other.now text.items) }
    ensures reads_well { OnOk result ((F.faults files.new ≡ F.faults files.old)
        × (I.faults input.new ≡ I.faults input.old)) }
    ensures refused { IfErr result (IsDueRefusal question name.now other.now
        (seen F.held F.blamed F.given F.faults files.old files.new)
        (seen I.held I.blamed I.given I.faults input.old input.new)) }
    ensures writes_well { result ≢ Err WriteRefusal }
{
    let bytes = read_file(alloc, name, files)?;
    answer_to(alloc, question, bytes.as_slice(), other, files, input)
}

/// The bytes of the file, where they are within the limit.
fn read_file<F: Files>(alloc: Global, name: &str, files: &mut F) -> Result<Vec<u8>, UnitsRefusal>
    ensures read { IfOk result (λ bytes. IsRead (F.held files.old) name.now bytes.items) }
    ensures reads_well { OnOk result (F.faults files.new ≡ F.faults files.old) }
    ensures keeps { F.held files.new ≡ F.held files.old }
    ensures refused { IfErr result (IsFileRefusal name.now
        (seen F.held F.blamed F.given F.faults files.old files.new)) }
{
    match files.read(alloc, name, TASK_FILE_LIMIT) {
        Ok(bytes) => {
            if bytes.len() > TASK_FILE_LIMIT {
                return Err(UnitsRefusal::TooLarge);
            }
            Ok(bytes)
        }
        Err(ReadFault::Memory) => Err(UnitsRefusal::Memory),
        Err(ReadFault::Failed) => Err(UnitsRefusal::Unreadable),
    }
}

/// The answer to the question of the bytes of a file of units.
fn answer_to<F: Files, I: Files>(
    alloc: Global,
    question: Question,
    bytes: &[u8],
    other: &str,
    files: &mut F,
    input: &mut I,
) -> Result<Vec<u8>, UnitsRefusal>
    ensures answer { IfOk result (λ text.
        IsAnswer question (F.held files.old) (I.held input.old) other.now bytes.now text.items) }
    ensures reads_well { OnOk result ((F.faults files.new ≡ F.faults files.old)
        × (I.faults input.new ≡ I.faults input.old)) }
    ensures refused { IfErr result (IsAnswerRefusal question other.now bytes.now
        (seen F.held F.blamed F.given F.faults files.old files.new)
        (seen I.held I.blamed I.given I.faults input.old input.new)) }
{
    match question {
        Question::Tasks => text_from(alloc, bytes),
        Question::Check(from, to) => lengths_from(alloc, bytes, from, to),
        Question::Arrivals => timed_from(alloc, Form::Arrivals, bytes, other, files),
        Question::Trace => timed_from(alloc, Form::Trace, bytes, other, input),
    }
}

/// The arrivals file of the file of arrivals with times of this name, or the trace with times of
/// the trace.
fn timed_from<F: Files>(
    alloc: Global,
    form: Form,
    bytes: &[u8],
    other: &str,
    files: &mut F,
) -> Result<Vec<u8>, UnitsRefusal>
    ensures timed { IfOk result (λ text.
        AreTimed form (F.held files.old) other.now bytes.now text.items) }
    ensures reads_well { OnOk result (F.faults files.new ≡ F.faults files.old) }
    ensures refused { IfErr result (IsTimedRefusal form other.now bytes.now
        (seen F.held F.blamed F.given F.faults files.old files.new)) }
{
    let physical = units_of(alloc, bytes)?;
    check_slots(alloc, &physical)?;
    let rows = read_rows(alloc, form, other, files)?;
    timed_rows(alloc, form, &physical, rows.as_slice())
}

/// Refuses a set in physical time that has no set in slots.
fn check_slots(alloc: Global, physical: &PhysicalSet) -> Result<(), UnitsRefusal>
    ensures slots { OnOk result ((set : TaskSet) × (derived_set physical.now ≡ Ok set)) }
    ensures below { OnOk result (physical.now.overhead < physical.now.slot) }
    ensures refused { IfErr result (IsSlotsRefusal physical.now) }
{
    match slots_of(alloc, physical) {
        Ok(_) => Ok(()),
        Err(UnitFault::Memory) => Err(UnitsRefusal::Memory),
        Err(fault) => Err(UnitsRefusal::NoSlots(fault)),
    }
}

/// Most bytes of arrivals with times, and of a trace.
pub(crate) fn rows_limit(form: Form) -> usize
    ensures limit { result ≡ rows_limit form }
    ensures few { result ≤ READ_LIMIT }
{
    match form {
        Form::Arrivals => ARRIVALS_FILE_LIMIT,
        Form::Trace => READ_LIMIT,
    }
}

/// The bytes of the file of arrivals, or of the trace, where they are within the limit.
fn read_rows<F: Files>(
    alloc: Global,
    form: Form,
    name: &str,
    files: &mut F,
) -> Result<Vec<u8>, UnitsRefusal>
    ensures read { IfOk result (λ rows. AreRows form (F.held files.old) name.now rows.items) }
    ensures reads_well { OnOk result (F.faults files.new ≡ F.faults files.old) }
    ensures refused { IfErr result (IsRowsRefusal form name.now
        (seen F.held F.blamed F.given F.faults files.old files.new)) }
{
    let limit = rows_limit(form);
    match files.read(alloc, name, limit) {
        Ok(rows) => {
            if rows.len() > limit {
                return Err(UnitsRefusal::TooLargeRows(form));
            }
            Ok(rows)
        }
        Err(ReadFault::Memory) => Err(UnitsRefusal::Memory),
        Err(ReadFault::Failed) => Err(UnitsRefusal::UnreadableRows),
    }
}

/// What stands for these rows or lines.
fn timed_rows(
    alloc: Global,
    form: Form,
    physical: &PhysicalSet,
    rows: &[u8],
) -> Result<Vec<u8>, UnitsRefusal>
    requires { physical.now.overhead < physical.now.slot }
    ensures text { IfOk result (λ text. timed_text form physical.now rows.now ≡ Ok text.items) }
    ensures refused { IfErr result (IsRowRefusal form physical.now rows.now) }
{
    match timed_text(alloc, form, physical, rows) {
        Ok(text) => Ok(text),
        Err(TimedFault::Memory) => Err(UnitsRefusal::Memory),
        Err(fault) => Err(UnitsRefusal::BadRows(form, fault)),
    }
}

/// The lines of the lengths of a slot for the bytes of a file of units.
fn lengths_from(alloc: Global, bytes: &[u8], from: u64, to: u64) -> Result<Vec<u8>, UnitsRefusal>
    ensures lengths { IfOk result (λ text. AreLengths from to bytes.now text.items) }
    ensures refused { IfErr result (IsReadingRefusal bytes.now) }
{
    let mut physical = units_of(alloc, bytes)?;
    match lengths_text(alloc, &mut physical, from, to) {
        Ok(text) => Ok(text),
        Err(Memory) => Err(UnitsRefusal::Memory),
    }
}

/// The task file of the bytes of a file of units.
fn text_from(alloc: Global, bytes: &[u8]) -> Result<Vec<u8>, UnitsRefusal>
    ensures text { IfOk result (λ text. IsText bytes.now text.items) }
    ensures refused { IfErr result (IsTextRefusal bytes.now) }
{
    let physical = units_of(alloc, bytes)?;
    text_of_units(alloc, &physical)
}

/// The set in physical time that the bytes write.
fn units_of(alloc: Global, bytes: &[u8]) -> Result<PhysicalSet, UnitsRefusal>
    ensures units { IfOk result (λ physical. reading_of_units bytes.now ≡ Ok physical) }
    ensures shaped { IfOk result (λ physical. is_shaped physical ≡ true) }
    ensures refused { IfErr result (IsReadingRefusal bytes.now) }
{
    match read_units(alloc, bytes) {
        Ok(physical) => Ok(physical),
        Err(UnitsFault::Memory) => Err(UnitsRefusal::Memory),
        Err(fault) => Err(UnitsRefusal::BadUnits(fault)),
    }
}

/// The task file of the set in physical time.
fn text_of_units(alloc: Global, physical: &PhysicalSet) -> Result<Vec<u8>, UnitsRefusal>
    requires { is_shaped physical.now ≡ true }
    ensures text { IfOk result (λ text. (set : TaskSet)
        × (derived_set physical.now ≡ Ok set)
        × (is_sound set ≡ true)
        × (reading_of_tasks text.items ≡ Ok set)) }
    ensures refused { IfErr result (IsUnitsRefusal physical.now) }
{
    let set = set_of(alloc, physical)?;
    text_of_set(alloc, physical, &set)
}

/// The set in slots of the set in physical time.
fn set_of(alloc: Global, physical: &PhysicalSet) -> Result<TaskSet, UnitsRefusal>
    requires { is_shaped physical.now ≡ true }
    ensures slots { IfOk result (λ set. derived_set physical.now ≡ Ok set) }
    ensures range { IfOk result (λ set. is_in_range set ≡ true) }
    ensures refused { IfErr result (IsUnitsRefusal physical.now) }
{
    match slots_of(alloc, physical) {
        Ok(set) => Ok(set),
        Err(UnitFault::Memory) => Err(UnitsRefusal::Memory),
        Err(fault) => Err(UnitsRefusal::NoSlots(fault)),
    }
}

/// The task file of the set in slots.
fn text_of_set(
    alloc: Global,
    physical: &PhysicalSet,
    set: &TaskSet,
) -> Result<Vec<u8>, UnitsRefusal>
    requires { is_in_range set.now ≡ true }
    ensures sound { IfOk result (λ _. is_sound set.now ≡ true) }
    ensures text { IfOk result (λ text. reading_of_tasks text.items ≡ Ok set.now) }
    ensures refused { IfErr result (IsSetRefusal set.now) }
{
    check_set(alloc, set)?;
    match text_of(alloc, physical, set) {
        Ok(text) => Ok(text),
        Err(TextFault::Memory) => Err(UnitsRefusal::Memory),
        Err(TextFault::ReadsOtherwise) => Err(UnitsRefusal::ReadsOtherwise),
    }
}

/// Refuses a set in slots that has a fault.
fn check_set(alloc: Global, set: &TaskSet) -> Result<(), UnitsRefusal>
    requires { is_in_range set.now ≡ true }
    ensures refused { IfErr result (IsSetRefusal set.now) }
{
    match check(alloc, set) {
        Ok(()) => Ok(()),
        Err(TaskFault::Memory) => Err(UnitsRefusal::Memory),
        Err(fault) => Err(UnitsRefusal::BadTasks(fault)),
    }
}
