//! The picture of a staircase.

ghost use Rattle.std.specs.Prelude.{◌≡◌, ◌≤◌, ◌<◌, All, IfOk};
ghost use Rattle.slot_core.specs.declared.TheConstants.{SLOT_LIMIT};
ghost use Rattle.svg_text.specs.Content.{IsDocument};
ghost use Rattle.view_stairs.specs.declared.lines.Step.{Step};
ghost use Rattle.view_stairs.specs.Bars.{ShowsStairs, height_of};
ghost use Rattle.view_stairs.specs.Steps.{IsSmall, last_within};

use crate::bars::draw_bars;
use crate::curve::{last_within, most_slots};
use crate::lines::Step;
use crate::scale::{LEFT, MARGIN, Scale, TOP};
use crate::style::STYLE;
use itoa::Buffer;
use slot_core::Memory;
use std::alloc::Global;
use svg_text::{Document, Drawing, Frame};

/// The distances between ticks, of which the first is taken that leaves room for numbers.
const STEPS: [u32; 10] = [1, 2, 5, 10, 20, 50, 100, 200, 500, 1_000];

/// The room that a number wants to the right, and below.
const ROOM: (u32, u32) = (36, 14);

/// The picture of the lines of a supply: to the right the slots up to the deadline, upwards the
/// supply within them, a bar for each number of slots up to the cycle.
pub fn stairs(alloc: Global, steps: &[Step]) -> Result<Document, Memory>
    requires { All IsSmall steps.now }
    ensures formed { IfOk result (λ document. IsDocument document) }
    ensures shows { IfOk result (λ document. ShowsStairs steps.now document) }
{
    let scale = scale_of(steps);
    let mut drawing = Drawing::new(alloc);
    draw_page(&mut drawing, &scale)?;
    draw_columns(&mut drawing, &scale)?;
    draw_levels(&mut drawing, &scale)?;
    draw_bars(alloc, &mut drawing, steps, &scale)?;
    Document::new(alloc, scale.width(), height_of(&scale), STYLE, &drawing)
}

/// The scale of so many slots and levels as the lines tell.
fn scale_of(steps: &[Step]) -> Scale
    requires { All IsSmall steps.now }
    ensures slots { result.slots ≡ last_within steps.now }
    ensures wide { (1 ≤ result.slot) × (result.slot ≤ 16) }
    ensures high { (1 ≤ result.level) × (result.level ≤ 16) }
    ensures few { (result.slots ≤ SLOT_LIMIT) × (result.levels ≤ SLOT_LIMIT) }
    ensures most { All (λ (s : Step). s.supply.slots ≤ result.levels) steps.now }
{
    Scale::new(last_within(steps), most_slots(steps))
}

/// The height of the picture.
fn height_of(scale: &Scale) -> u32
    requires high { scale.now.level ≤ 16 }
    requires few { scale.now.levels ≤ SLOT_LIMIT }
    ensures { result ≡ height_of scale.now }
{
    scale.bottom() + MARGIN
}

/// Draws the page, and says what the axes are.
fn draw_page(drawing: &mut Drawing, scale: &Scale) -> Result<(), Memory>
    requires wide { scale.now.slot ≤ 16 }
    requires high { scale.now.level ≤ 16 }
    requires few { (scale.now.slots ≤ SLOT_LIMIT) × (scale.now.levels ≤ SLOT_LIMIT) }
{
    let frame = Frame {
        x: 0,
        y: 0,
        width: scale.width(),
        height: height_of(scale),
    };
    drawing.rect("page", frame, b"")?;
    drawing.label("what", 8, TOP - 20, b"slots that are always accepted")?;
    drawing.label(
        "what",
        LEFT,
        scale.bottom() + MARGIN - 8,
        b"slots up to the deadline",
    )
}

/// Draws a number below each tick of the slots.
fn draw_columns(drawing: &mut Drawing, scale: &Scale) -> Result<(), Memory>
    requires wide { scale.now.slot ≤ 16 }
    requires high { scale.now.level ≤ 16 }
    requires few { (scale.now.slots ≤ SLOT_LIMIT) × (scale.now.levels ≤ SLOT_LIMIT) }
{
    let step = step_of(scale.slot, ROOM.0);
    let y = scale.bottom() + 12;
    for tick in 1..scale.slots / step + 1 {
        let within = tick.saturating_mul(step).min(scale.slots);
        let mut buffer = Buffer::new();
        let number = buffer.format(within).as_bytes();
        drawing.label("tick", scale.x(within) + scale.slot / 2, y, number)?;
    }
    Ok(())
}

/// Draws a line across the picture at each tick of the supply, and its number to the left.
fn draw_levels(drawing: &mut Drawing, scale: &Scale) -> Result<(), Memory>
    requires wide { scale.now.slot ≤ 16 }
    requires high { scale.now.level ≤ 16 }
    requires few { (scale.now.slots ≤ SLOT_LIMIT) × (scale.now.levels ≤ SLOT_LIMIT) }
{
    let step = step_of(scale.level, ROOM.1);
    for tick in 0..scale.levels / step + 1 {
        draw_level(drawing, scale, tick.saturating_mul(step).min(scale.levels))?;
    }
    Ok(())
}

/// Draws the line of a level, and its number.
fn draw_level(drawing: &mut Drawing, scale: &Scale, level: u32) -> Result<(), Memory>
    requires wide { scale.now.slot ≤ 16 }
    requires high { scale.now.level ≤ 16 }
    requires few { (scale.now.slots ≤ SLOT_LIMIT) × (scale.now.levels ≤ SLOT_LIMIT) }
    requires inside { level ≤ scale.now.levels }
{
    let y = scale.bottom().saturating_sub(level * scale.level);
    let frame = Frame {
        x: LEFT,
        y,
        width: scale.slots * scale.slot,
        height: 1,
    };
    drawing.rect(class_of(level), frame, b"")?;
    let mut buffer = Buffer::new();
    let number = buffer.format(level).as_bytes();
    drawing.label("side", LEFT - 6, y.saturating_add(4), number)
}

/// The class of the line of a level.
fn class_of(level: u32) -> &'static str {
    if level == 0 { "zero" } else { "grid" }
}

/// The distance between ticks where each takes so many pixels and a number wants so many.
fn step_of(size: u32, room: u32) -> u32
    ensures { 0 < result }
{
    let found = STEPS
        .iter()
        .copied()
        .find(|step| step.saturating_mul(size) >= room);
    found.unwrap_or(1_000).max(1)
}
