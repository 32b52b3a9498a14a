//! The lines of a supply.

ghost use Rattle.std.specs.Prelude.{◌≡◌, ◌<◌, ◌≤◌, ◌++◌, All, IfOk, OnOk, flat_map, length};
ghost use Rattle.slot_core.specs.Sets.Cycles.{cycle_of};
ghost use Rattle.supply_find.specs.Found.{supply_of};
ghost use Rattle.supply_lines.specs.Lines.{far_line, line_of, line_in, supply_text, within_text};

use command_line::append::{push, push_worded};
use cycle_plan::Plan;
use slot_core::Memory;
use std::alloc::Global;
use supply_find::{Supply, find_supply, flat_ends, slots_of};

/// The lines of the supply of a plan: one for each flat end of the staircase.
pub fn supply_text(alloc: Global, plan: &Plan) -> Result<Vec<u8>, Memory>
    ensures { IfOk result (λ text. text.items ≡ supply_text plan.now.tasks) }
{
    // (a plan has a short cycle, and so a short table)
    let _cycle = plan.cycle();
    let table = find_supply(alloc, plan)?;
    let slots = slots_of(alloc, table.items())?;
    let ends = flat_ends(alloc, slots.items())?;
    let mut text = Vec::new(alloc);
    push_ends(&mut text, ends.items(), table.items())?;
    Ok(text)
}

/// The one line within so many slots: the supply, or that a request is too far ahead.
pub fn within_text(alloc: Global, plan: &Plan, within: u32) -> Result<Vec<u8>, Memory>
    ensures { IfOk result (λ text. text.items ≡ within_text plan.now.tasks within) }
{
    let cycle = plan.cycle();
    if cycle < within {
        far_text(alloc, within, cycle)
    } else {
        near_text(alloc, plan, within)
    }
}

/// The line of a request that is due past the cycle.
fn far_text(alloc: Global, within: u32, cycle: u32) -> Result<Vec<u8>, Memory>
    ensures { IfOk result (λ text. text.items ≡ far_line within cycle) }
{
    let mut text = Vec::new(alloc);
    push(&mut text, b"far")?;
    push_worded(&mut text, b"", u64::from(within))?;
    push_worded(&mut text, b"", u64::from(cycle))?;
    push(&mut text, b"\n")?;
    Ok(text)
}

/// The line of the supply within so many slots of a cycle.
fn near_text(alloc: Global, plan: &Plan, within: u32) -> Result<Vec<u8>, Memory>
    requires { within ≤ cycle_of plan.now.tasks }
    ensures { IfOk result (λ text.
        text.items ≡ line_of (within, supply_of plan.now.tasks within)) }
{
    let table = find_supply(alloc, plan)?;
    let mut text = Vec::new(alloc);
    push_line(&mut text, within, table.items()[within as usize])?;
    Ok(text)
}

/// Appends the lines of these numbers of slots.
fn push_ends(text: &mut Vec<u8>, ends: &[u32], table: &[Supply]) -> Result<(), Memory>
    requires { All (λ end. end < length table.now) ends.now }
    ensures { OnOk result
        (text.new.items ≡ text.old.items ++ flat_map (line_in table.now) ends.now) }
{
    for end in ends {
        push_line(text, *end, table[*end as usize])?;
    }
    Ok(())
}

/// Appends the line of a number of slots.
fn push_line(text: &mut Vec<u8>, within: u32, supply: Supply) -> Result<(), Memory>
    ensures { OnOk result (text.new.items ≡ text.old.items ++ line_of (within, supply)) }
{
    push(text, b"supply")?;
    push_worded(text, b"", u64::from(within))?;
    push_worded(text, b"", u64::from(supply.slots))?;
    push_worded(text, b"", u64::from(supply.from))?;
    push_worded(text, b"", u64::from(supply.until))?;
    push(text, b"\n")
}
