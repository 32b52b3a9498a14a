//! The line that tells why a run is refused.

ghost use Rattle.std.specs.Prelude.{◌≡◌, ◌++◌, ℕ, List, false, IfOk, IfSome, OnOk, codes, is_some};
ghost use Rattle.slot_core.specs.Output.FaultTexts.{task_fault_text};
ghost use Rattle.slot_core.specs.Output.Texts.{worded};
ghost use Rattle.faults.specs.ArrivalTexts.{arrival_fault_text};
ghost use Rattle.faults.specs.TableTexts.{table_fault_text};
ghost use Rattle.command_line.specs.Refusals.{reason_of, refusal_line, has_fixed_line};
ghost use Rattle.command_line.specs.Reports.{IsTold, IsReport};

use crate::append::{push, push_number, push_window, push_worded};
use crate::{CANNOT_WRITE, OUT_OF_MEMORY, Refusal};
use faults::{ArrivalFault, TableFault};
use slot_core::{Evidence, Memory, TaskFault, Words};
use slot_io::Sink;
use std::alloc::Global;

/// Puts the line of the refusal on `err`, in one put, and answers why the run is refused: as it
/// was, or for want of memory where there is none for the line. A failing put changes nothing of
/// it.
pub fn report<E: Sink>(alloc: Global, words: &Words, refusal: Refusal, err: &mut E) -> Refusal
    ensures { IsReport words.now refusal result
        (E.written err.old) (E.written err.new) (E.faults err.old) (E.faults err.new) }
{
    if let Some(line) = fixed_line(&refusal) {
        put_line(err, line);
        return refusal;
    }
    match refusal_line(alloc, words, &refusal) {
        Ok(line) => {
            put_line(err, line.as_slice());
            refusal
        }
        Err(Memory) => {
            put_line(err, OUT_OF_MEMORY);
            Refusal::Memory
        }
    }
}

/// Puts the line. A failure is left to the sink's count of faults.
pub(crate) fn put_line<E: Sink>(err: &mut E, line: &[u8])
    ensures { IsTold line.now
        (E.written err.old) (E.written err.new) (E.faults err.old) (E.faults err.new) }
{
    match err.put(line) {
        Ok(()) | Err(_) => {}
    }
}

/// The line of a refusal without values.
fn fixed_line(refusal: &Refusal) -> Option<&'static [u8]>
    ensures line { IfSome result
        (λ line. (words : List (List ℕ)) → line.now ≡ refusal_line words refusal.now) }
    ensures none { has_fixed_line refusal.now ≡ is_some result }
{
    match refusal {
        Refusal::Usage => Some(
            b"usage: slotshift check T, table T, show B, replay T A N, \
              replay-table B A N, gantt T A N, selfrun N, migrate B, verify T A X N, \
              explain T A N R, switch T U A N C, margin T\n",
        ),
        Refusal::WriteFault => Some(CANNOT_WRITE),
        Refusal::Memory => Some(OUT_OF_MEMORY),
        _ => None,
    }
}

/// The line of a refusal with values.
fn refusal_line(alloc: Global, words: &Words, refusal: &Refusal) -> Result<Vec<u8>, Memory>
    requires { has_fixed_line refusal.now ≡ false }
    ensures { IfOk result (λ line. line.items ≡ refusal_line words.now refusal.now) }
{
    let mut line = Vec::new(alloc);
    push_reason(alloc, &mut line, words, refusal)?;
    push(&mut line, b"\n")?;
    Ok(line)
}

/// Appends the reason of a refusal with values.
fn push_reason(
    alloc: Global,
    line: &mut Vec<u8>,
    words: &Words,
    refusal: &Refusal,
) -> Result<(), Memory>
    requires { has_fixed_line refusal.now ≡ false }
    ensures { OnOk result (line.new.items ≡ line.old.items ++ reason_of words.now refusal.now) }
{
    match refusal {
        Refusal::Unreadable(file) => push_both(line, b"cannot read ", file.name(words).as_bytes()),
        Refusal::TooLarge(file) => push_too_large(line, file.name(words).as_bytes(), file.limit()),
        Refusal::BadTasks(fault) | Refusal::BadSecond(fault) => {
            push_bad_tasks(alloc, line, *fault)
        }
        Refusal::BadTable(fault) => push_bad_table(alloc, line, *fault),
        Refusal::BadArrivals(fault) => push_bad_arrivals(alloc, line, *fault),
        Refusal::Infeasible(window) | Refusal::SecondInfeasible(window) => {
            push_window(line, *window)
        }
        Refusal::NotVerified(reason) => push(line, reason.bytes()),
        Refusal::NoRow(row) => push_worded(line, b"no row", u64::from(*row)),
        Refusal::NotCycleEnd(cycle) => {
            push_worded(line, b"switch not at cycle end", u64::from(*cycle))
        }
        Refusal::NoChange(evidence) => push_no_change(line, *evidence),
        _ => Ok(()),
    }
}

/// Appends why the plan is not changed: until which time there is no room, what it needs and has.
fn push_no_change(line: &mut Vec<u8>, evidence: Evidence) -> Result<(), Memory>
    ensures { OnOk result (line.new.items ≡ line.old.items
        ++ worded
        (worded (worded (codes "switch noroom") evidence.until) evidence.need)
        evidence.room) }
{
    push_worded(line, b"switch noroom", evidence.until)?;
    push_number(line, evidence.need)?;
    push_number(line, evidence.room)
}

/// Appends the bytes of both.
fn push_both(line: &mut Vec<u8>, first: &[u8], second: &[u8]) -> Result<(), Memory>
    ensures { OnOk result (line.new.items ≡ line.old.items ++ (first.now ++ second.now)) }
{
    push(line, first)?;
    push(line, second)
}

/// Appends that the file of this name has more bytes than its limit.
fn push_too_large(line: &mut Vec<u8>, name: &[u8], limit: usize) -> Result<(), Memory>
    ensures { OnOk result
        (line.new.items ≡ line.old.items ++ (codes "too large " ++ worded name.now limit)) }
{
    push(line, b"too large ")?;
    push_worded(line, name, limit as u64)
}

/// Appends what is wrong with the task file.
fn push_bad_tasks(alloc: Global, line: &mut Vec<u8>, fault: TaskFault) -> Result<(), Memory>
    ensures { OnOk result
        (line.new.items ≡ line.old.items ++ (codes "tasks " ++ task_fault_text fault)) }
{
    let words = format!(in alloc; "tasks {fault}")?;
    push(line, words.as_bytes())
}

/// Appends what is wrong with the table file.
fn push_bad_table(alloc: Global, line: &mut Vec<u8>, fault: TableFault) -> Result<(), Memory>
    ensures { OnOk result
        (line.new.items ≡ line.old.items ++ (codes "table " ++ table_fault_text fault)) }
{
    let words = format!(in alloc; "table {fault}")?;
    push(line, words.as_bytes())
}

/// Appends what is wrong with the arrivals file.
fn push_bad_arrivals(alloc: Global, line: &mut Vec<u8>, fault: ArrivalFault) -> Result<(), Memory>
    ensures { OnOk result
        (line.new.items ≡ line.old.items ++ (codes "arrivals " ++ arrival_fault_text fault)) }
{
    let words = format!(in alloc; "arrivals {fault}")?;
    push(line, words.as_bytes())
}
