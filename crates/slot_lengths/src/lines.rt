//! The line of a length of a slot.

ghost use Rattle.std.specs.Prelude.{◌≡◌, ◌++◌, OnOk, codes};
ghost use Rattle.clock_units.specs.FaultTexts.{unit_fault_text};
ghost use Rattle.slot_core.specs.Output.FaultTexts.{task_fault_text};
ghost use Rattle.slot_core.specs.Output.Texts.{worded};
ghost use Rattle.slot_lengths.specs.declared.checks.SlotCheck.{SlotCheck};
ghost use Rattle.slot_lengths.specs.Lines.{check_text, load_text, row_line, shorter_text, slots_time};

use crate::checks::{LengthRow, SlotCheck};
use crate::loads::{Load, millionths};
use crate::shorter::Shorter;
use clock_units::UnitFault;
use command_line::append::{push, push_worded};
use slot_core::{Memory, TaskFault, Window};
use std::alloc::Global;
use time_texts::push_time;

/// Appends the line of the row.
pub(crate) fn push_row(alloc: Global, text: &mut Vec<u8>, row: LengthRow) -> Result<(), Memory>
    ensures { OnOk result (text.new.items ≡ text.old.items ++ row_line row) }
{
    push(text, b"slot ")?;
    push_time(text, row.slot)?;
    push_check(alloc, text, row.slot, row.check)?;
    push(text, b"\n")
}

/// Appends what a length comes to.
fn push_check(alloc: Global, text: &mut Vec<u8>, slot: u64, check: SlotCheck) -> Result<(), Memory>
    ensures { OnOk result (text.new.items ≡ text.old.items ++ check_text slot check) }
{
    match check {
        SlotCheck::Fits(load, growth) => push_fits(text, load, growth),
        SlotCheck::Infeasible(load, window) => push_infeasible(text, load, window),
        SlotCheck::BadTasks(fault, shorter) => push_bad_tasks(alloc, text, slot, fault, shorter),
        SlotCheck::NoSlots(fault) => push_no_slots(alloc, text, fault),
    }
}

/// Appends what is needed in a cycle.
fn push_load(text: &mut Vec<u8>, load: Load) -> Result<(), Memory>
    ensures { OnOk result (text.new.items ≡ text.old.items ++ load_text load) }
{
    let after = millionths(u128::from(load.cycle), u128::from(load.needed));
    push_worded(text, b" cycle", u64::from(load.cycle))?;
    push_worded(text, b" load", load.before)?;
    push_worded(text, b"", after)
}

/// Appends what a set needs that fits, and its least margin.
fn push_fits(text: &mut Vec<u8>, load: Load, growth: u32) -> Result<(), Memory>
    ensures { OnOk result
        (text.new.items ≡ text.old.items ++ check_text 0 (SlotCheck.Fits load growth)) }
{
    push_load(text, load)?;
    push_worded(text, b" fits", load.needed)?;
    push_worded(text, b" margin", u64::from(growth))
}

/// Appends what a set needs that does not fit, and the window that fails.
fn push_infeasible(text: &mut Vec<u8>, load: Load, window: Window) -> Result<(), Memory>
    ensures { OnOk result (text.new.items
        ≡ text.old.items ++ check_text 0 (SlotCheck.Infeasible load window)) }
{
    push_load(text, load)?;
    push_worded(text, b" infeasible", window.from)?;
    push_worded(text, b"", window.until)?;
    push_worded(text, b"", window.demand)
}

/// Appends what is wrong with the set in slots.
fn push_bad_tasks(
    alloc: Global,
    text: &mut Vec<u8>,
    slot: u64,
    fault: TaskFault,
    shorter: Option<Shorter>,
) -> Result<(), Memory>
    ensures { OnOk result (text.new.items ≡ text.old.items
        ++ (codes " tasks " ++ task_fault_text fault ++ shorter_text slot shorter)) }
{
    push_fault(alloc, text, fault)?;
    push_shorter(text, slot, shorter)
}

/// Appends its fault.
fn push_fault(alloc: Global, text: &mut Vec<u8>, fault: TaskFault) -> Result<(), Memory>
    ensures { OnOk result
        (text.new.items ≡ text.old.items ++ (codes " tasks " ++ task_fault_text fault)) }
{
    let words = format!(in alloc; " tasks {fault}")?;
    push(text, words.as_bytes())
}

/// Appends a shorter separation that may be planned for.
fn push_shorter(text: &mut Vec<u8>, slot: u64, shorter: Option<Shorter>) -> Result<(), Memory>
    ensures { OnOk result (text.new.items ≡ text.old.items ++ shorter_text slot shorter) }
{
    let Some(shorter) = shorter else {
        return Ok(());
    };
    let time = slots_time(slot, shorter.separation);
    push_worded(text, b" plan sporadic", u64::from(shorter.sporadic))?;
    push(text, b" ")?;
    push_time(text, time)
}

/// The time of so many slots.
fn slots_time(slot: u64, slots: u32) -> u64
    ensures { result ≡ slots_time slot slots }
{
    u64::from(slots).saturating_mul(slot)
}

/// Appends why there is no set in slots.
fn push_no_slots(alloc: Global, text: &mut Vec<u8>, fault: UnitFault) -> Result<(), Memory>
    ensures { OnOk result
        (text.new.items ≡ text.old.items ++ (codes " units " ++ unit_fault_text fault)) }
{
    let words = format!(in alloc; " units {fault}")?;
    push(text, words.as_bytes())
}
