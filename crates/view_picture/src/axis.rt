//! The axis of time.

ghost use Rattle.std.specs.Prelude.{◌<◌};

use crate::backdrop::Backdrop;
use crate::layout::{Heights, MARGIN, Times};
use itoa::Buffer;
use slot_core::Memory;
use svg_text::Frame;

/// The distances between ticks, of which the first is taken that leaves room for numbers.
const STEPS: [u32; 8] = [1, 2, 5, 10, 20, 50, 100, 200];

/// The room that a number wants.
const ROOM: u32 = 36;

/// Draws a line down the picture at each tick, and its time above and below.
pub(crate) fn draw_axis(
    backdrop: &mut Backdrop,
    times: &Times,
    heights: &Heights,
) -> Result<(), Memory> {
    let x = times.left.saturating_sub(MARGIN);
    backdrop.label("what", x, heights.lanes.saturating_sub(5), b"slot")?;
    let step = u64::from(step_of(times.slot));
    let first = u64::from(times.first).div_ceil(step);
    for tick in first..=times.end() / step {
        draw_tick(backdrop, times, heights, tick.saturating_mul(step))?;
    }
    Ok(())
}

/// Draws the tick of this time.
fn draw_tick(
    backdrop: &mut Backdrop,
    times: &Times,
    heights: &Heights,
    time: u64,
) -> Result<(), Memory> {
    let x = times.x(time);
    let frame = Frame {
        x,
        y: heights.lanes,
        width: 1,
        height: heights.bottom.saturating_sub(heights.lanes),
    };
    backdrop.fill("grid", frame)?;
    let mut buffer = Buffer::new();
    let number = buffer.format(time).as_bytes();
    backdrop.label("tick", x, heights.lanes.saturating_sub(5), number)?;
    backdrop.label("tick", x, heights.bottom.saturating_add(14), number)
}

/// The distance between ticks where a slot is so wide.
fn step_of(slot: u32) -> u32
    ensures { 0 < result }
{
    let found = STEPS
        .iter()
        .copied()
        .find(|step| step.saturating_mul(slot) >= ROOM);
    found.unwrap_or(200).max(1)
}
