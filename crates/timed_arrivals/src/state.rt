//! What is read so far of arrivals with times, or of a trace.

ghost use Rattle.std.specs.Prelude.{◌≡◌, ◌≢◌, ◌<◌, ◌-◌, ◌^◌, ◌==◌, ◌++◌, ◌∷◌, ℕ, List, [], false, length, Ok, Err, OnOk, MatchResult};
ghost use Rattle.timed_arrivals.specs.declared.timed_fault.TimedFault.{TimedFault};
ghost use Rattle.timed_arrivals.specs.Rows.{row_in_slots};
ghost use Rattle.timed_arrivals.specs.Traces.{line_in_times};
ghost use Rattle.timed_arrivals.specs.Texts.{timed_line, TakesByte, TakesLine};

use crate::form::{Form, limit_of};
use crate::rounding::up;
use crate::row::{event_of, head_of, push_row};
use crate::timed_fault::TimedFault;
use crate::trace::{front_of, push_line, time_at};
use slot_core::Memory;

/// The text of the rows so far, and the front of the line at hand.
#[derive(Drop)]
pub(crate) struct SoFar {
    /// What the lines are.
    pub(crate) form: Form,
    /// The length of a slot.
    pub(crate) slot: u64,
    /// What a slot is worth to its job.
    pub(crate) worth: u64,
    /// The number of the next row.
    pub(crate) row: u32,
    /// The rows so far.
    pub(crate) text: Vec<u8>,
    /// The front of the line at hand.
    pub(crate) line: Vec<u8>,
}

impl SoFar {
    /// Takes the next byte.
    pub(crate) fn take(&mut self, byte: u8) -> Result<(), TimedFault>
        requires slot { 0 < self.old.slot }
        requires worth { 0 < self.old.worth }
        ensures takes { TakesByte self.old self.new byte result }
        ensures form { self.new.form ≡ self.old.form }
        ensures slot { self.new.slot ≡ self.old.slot }
        ensures worth { self.new.worth ≡ self.old.worth }
    {
        if byte == b'\n' {
            self.end_line()?;
            return Ok(());
        }
        keep(&mut self.line, byte)?;
        Ok(())
    }

    /// Takes the end of the line at hand. An empty line is no row.
    pub(crate) fn end_line(&mut self) -> Result<(), TimedFault>
        requires slot { 0 < self.old.slot }
        requires worth { 0 < self.old.worth }
        ensures takes { TakesLine self.old self.new result }
        ensures empty { OnOk result (self.new.line.items ≡ []) }
        ensures form { self.new.form ≡ self.old.form }
        ensures slot { self.new.slot ≡ self.old.slot }
        ensures worth { self.new.worth ≡ self.old.worth }
    {
        if self.line.is_empty() {
            return Ok(());
        }
        self.take_line()?;
        self.line.clear();
        Ok(())
    }

    /// Takes the line at hand, which is not empty.
    fn take_line(&mut self) -> Result<(), TimedFault>
        requires slot { 0 < self.old.slot }
        requires worth { 0 < self.old.worth }
        requires some { (length self.old.line.items == 0) ≡ false }
        ensures takes { TakesLine self.old self.new result }
        ensures form { self.new.form ≡ self.old.form }
        ensures slot { self.new.slot ≡ self.old.slot }
        ensures worth { self.new.worth ≡ self.old.worth }
    {
        let line = self.line.as_slice();
        append_line(
            &mut self.text,
            self.form,
            self.slot,
            self.worth,
            self.row,
            line,
        )?;
        self.row += 1;
        Ok(())
    }
}

/// Appends the byte.
fn keep(line: &mut Vec<u8>, byte: u8) -> Result<(), Memory>
    ensures { OnOk result (line.new.items ≡ line.old.items ++ byte ∷ []) }
{
    line.push(byte)?;
    Ok(())
}

/// Appends what stands for the line of this number.
fn append_line(
    text: &mut Vec<u8>,
    form: Form,
    slot: u64,
    worth: u64,
    row: u32,
    line: &[u8],
) -> Result<(), TimedFault>
    requires slot { 0 < slot }
    requires worth { 0 < worth }
    ensures line { MatchResult result
        (λ _. (added : List ℕ) × (timed_line form slot worth row line.now ≡ Ok added)
        × (text.new.items ≡ text.old.items ++ added))
        (λ e. e ≢ TimedFault.Memory → timed_line form slot worth row line.now ≡ Err e) }
    ensures few { OnOk result (row < 2 ^ 32 - 1) }
{
    if row > limit_of(form) {
        return Err(TimedFault::TooMany);
    }
    match form {
        Form::Arrivals => append_row(text, slot, worth, row, line),
        Form::Trace => append_traced(text, slot, row, line),
    }
}

/// Appends the row in slots of the row of this number.
fn append_row(
    text: &mut Vec<u8>,
    slot: u64,
    worth: u64,
    row: u32,
    line: &[u8],
) -> Result<(), TimedFault>
    requires slot { 0 < slot }
    requires worth { 0 < worth }
    ensures { MatchResult result
        (λ _. (added : List ℕ) × (row_in_slots slot worth row line.now ≡ Ok added)
        × (text.new.items ≡ text.old.items ++ added))
        (λ e. e ≢ TimedFault.Memory → row_in_slots slot worth row line.now ≡ Err e) }
{
    let head = head_of(row, line)?;
    let event = event_of(slot, worth, row, head.at, head.kind, head.fields)?;
    push_row(text, up(slot, head.at), head.kind, event, head.fields)?;
    Ok(())
}

/// Appends the line in times of the line of this number.
fn append_traced(text: &mut Vec<u8>, slot: u64, number: u32, line: &[u8]) -> Result<(), TimedFault>
    ensures { MatchResult result
        (λ _. (added : List ℕ) × (line_in_times slot number line.now ≡ Ok added)
        × (text.new.items ≡ text.old.items ++ added))
        (λ e. e ≢ TimedFault.Memory → line_in_times slot number line.now ≡ Err e) }
{
    let front = front_of(number, line)?;
    let time = time_at(number, slot, front.slot)?;
    push_line(text, time, front.told)?;
    Ok(())
}
