//! The bars of a staircase.

ghost use Rattle.std.specs.Prelude.{◌≡◌, ◌≤◌, ◌++◌, ◌+◌, All, IfOk, OnOk, flat_map, map};
ghost use Rattle.std.specs.List.{range_with_len};
ghost use Rattle.slot_core.specs.declared.TheConstants.{SLOT_LIMIT};
ghost use Rattle.supply_lines.specs.Lines.{read_at};
ghost use Rattle.view_stairs.specs.declared.lines.Step.{Step};
ghost use Rattle.view_stairs.specs.Bars.{bar_text, bar_title, bars_text};
ghost use Rattle.view_stairs.specs.Steps.{pair_of};

use crate::curve::slots_within;
use crate::lines::Step;
use crate::scale::Scale;
use slot_core::Memory;
use std::alloc::Global;
use svg_text::Drawing;
use svg_text::pieces::{push, push_number};

/// Draws a bar for each number of slots from 1 to that of the last line.
pub(crate) fn draw_bars(
    alloc: Global,
    drawing: &mut Drawing,
    steps: &[Step],
    scale: &Scale,
) -> Result<(), Memory>
    requires wide { scale.now.slot ≤ 16 }
    requires high { scale.now.level ≤ 16 }
    requires few { (scale.now.slots ≤ SLOT_LIMIT) × (scale.now.levels ≤ SLOT_LIMIT) }
    requires small { All (λ (s : Step). s.supply.slots ≤ scale.now.levels) steps.now }
    ensures { OnOk result (drawing.new ≡ drawing.old ++ bars_text scale.now steps.now) }
{
    for within in 1..scale.slots + 1 {
        draw_bar(alloc, drawing, scale, within, slots_within(steps, within))?;
    }
    Ok(())
}

/// Draws the bar of a number of slots and the supply within them.
fn draw_bar(
    alloc: Global,
    drawing: &mut Drawing,
    scale: &Scale,
    within: u32,
    supply: u32,
) -> Result<(), Memory>
    requires wide { scale.now.slot ≤ 16 }
    requires high { scale.now.level ≤ 16 }
    requires few { (within ≤ SLOT_LIMIT) × (supply ≤ SLOT_LIMIT) }
    requires low { scale.now.levels ≤ SLOT_LIMIT }
    ensures { OnOk result (drawing.new ≡ drawing.old ++ bar_text scale.now within supply) }
{
    let title = bar_title(alloc, within, supply)?;
    drawing.rect("bar", scale.bar(within, supply), title.as_slice())
}

/// The title of a bar: the supply, and within how many slots.
fn bar_title(alloc: Global, within: u32, supply: u32) -> Result<Vec<u8>, Memory>
    ensures { IfOk result (λ title. title.items ≡ bar_title within supply) }
{
    let mut text = Vec::new(alloc);
    push_number(&mut text, supply)?;
    push(&mut text, " within ")?;
    push_number(&mut text, within)?;
    Ok(text)
}
