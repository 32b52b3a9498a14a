//! The spare capacity of the first span after each slot, and the least that is shown.

use crate::backdrop::Backdrop;
use crate::layout::{CAPACITIES, Heights, MARGIN, Times};
use crate::titles::{level_title, push_signed};
use slot_core::Memory;
use std::alloc::Global;
use svg_text::Frame;
use trace_lines::{TraceLine, Words};

/// Slots after each of which the first capacity and the least one are the same.
#[derive(Clone, Copy)]
pub(crate) struct Level {
    start: u64,
    end: u64,
    first: i64,
    least: i64,
}

/// The capacities after each slot, those that are the same as one.
pub(crate) fn levels_of(alloc: Global, lines: &[TraceLine]) -> Result<Vec<Level>, Memory> {
    let mut levels: Vec<Level> = Vec::new(alloc);
    for line in lines {
        if let Words::Run(_) | Words::Idle = &line.words {
            push_level(&mut levels, level_of(line))?;
        }
    }
    Ok(levels)
}

/// The capacities after the slot that a line tells.
fn level_of(line: &TraceLine) -> Level {
    let start = u64::from(line.time);
    Level {
        start,
        end: start + 1,
        first: line.first_spare(),
        least: line.least_spare(),
    }
}

/// Adds a level: to the last one where that has the same capacities.
fn push_level(levels: &mut Vec<Level>, level: Level) -> Result<(), Memory> {
    match levels.last_mut() {
        Some(last) if last.first == level.first && last.least == level.least => {
            last.end = level.end;
        }
        _ => levels.push(level)?,
    }
    Ok(())
}

/// The capacities that are drawn at the upper and at the lower edge.
#[derive(Clone, Copy)]
struct Scale {
    top: u32,
    high: i64,
    low: i64,
}

impl Scale {
    /// A scale for all of the levels, and for 0.
    fn new(levels: &[Level], heights: &Heights) -> Scale {
        Scale {
            top: heights.capacities,
            high: levels
                .iter()
                .map(|level| level.first)
                .max()
                .unwrap_or(0)
                .max(1),
            low: levels
                .iter()
                .map(|level| level.least)
                .min()
                .unwrap_or(0)
                .min(0),
        }
    }

    /// How far down a capacity is drawn.
    fn y(&self, capacity: i64) -> u32 {
        let whole = self.high.saturating_sub(self.low).max(1);
        let part = self.high.saturating_sub(capacity).max(0);
        let down = part.saturating_mul(i64::from(CAPACITIES)) / whole;
        self.top
            .saturating_add(u32::try_from(down).unwrap_or(CAPACITIES).min(CAPACITIES))
    }
}

/// Draws the capacities.
pub(crate) fn draw_capacities(
    alloc: Global,
    backdrop: &mut Backdrop,
    times: &Times,
    heights: &Heights,
    levels: &[Level],
) -> Result<(), Memory> {
    let scale = Scale::new(levels, heights);
    for level in levels {
        draw_first(alloc, backdrop, times, &scale, level)?;
    }
    draw_zero(backdrop, times, &scale)?;
    draw_least(alloc, backdrop, times, &scale, levels)?;
    draw_numbers(alloc, backdrop, times, &scale)
}

/// Draws the first capacity of a level, from the zero line on.
fn draw_first(
    alloc: Global,
    backdrop: &mut Backdrop,
    times: &Times,
    scale: &Scale,
    level: &Level,
) -> Result<(), Memory> {
    let title = level_title(alloc, (level.start, level.end), level.first, level.least)?;
    let (zero, value) = (scale.y(0), scale.y(level.first));
    let frame = Frame {
        x: times.x(level.start),
        y: zero.min(value),
        width: times.width(level.start, level.end),
        height: zero.abs_diff(value),
    };
    backdrop.rect("first", frame, title.as_slice())
}

/// Draws the zero line.
fn draw_zero(backdrop: &mut Backdrop, times: &Times, scale: &Scale) -> Result<(), Memory> {
    let frame = Frame {
        x: times.left,
        y: scale.y(0),
        width: times.right().saturating_sub(times.left),
        height: 1,
    };
    backdrop.fill("zero", frame)
}

/// Draws the least capacities as a line of steps.
fn draw_least(
    alloc: Global,
    backdrop: &mut Backdrop,
    times: &Times,
    scale: &Scale,
    levels: &[Level],
) -> Result<(), Memory> {
    let mut before = None;
    for level in levels {
        let title = level_title(alloc, (level.start, level.end), level.first, level.least)?;
        let (x, y) = (times.x(level.start), scale.y(level.least));
        let flat = Frame {
            x,
            y,
            width: times.width(level.start, level.end),
            height: 2,
        };
        backdrop.rect("least", flat, title.as_slice())?;
        draw_rise(backdrop, x, before.unwrap_or(y), y)?;
        before = Some(y);
    }
    Ok(())
}

/// Draws a step from one height to another.
fn draw_rise(backdrop: &mut Backdrop, x: u32, from: u32, to: u32) -> Result<(), Memory> {
    if from == to {
        return Ok(());
    }
    let frame = Frame {
        x,
        y: from.min(to),
        width: 2,
        height: from.abs_diff(to).saturating_add(2),
    };
    backdrop.fill("least", frame)
}

/// Draws the numbers at the upper edge, at the zero line and at the lower edge.
fn draw_numbers(
    alloc: Global,
    backdrop: &mut Backdrop,
    times: &Times,
    scale: &Scale,
) -> Result<(), Memory> {
    draw_number(alloc, backdrop, times, scale, "capacity ", scale.high)?;
    draw_number(alloc, backdrop, times, scale, "", 0)?;
    if scale.low < 0 {
        draw_number(alloc, backdrop, times, scale, "", scale.low)?;
    }
    Ok(())
}

/// Draws the number of a capacity beside it, after words.
fn draw_number(
    alloc: Global,
    backdrop: &mut Backdrop,
    times: &Times,
    scale: &Scale,
    words: &str,
    capacity: i64,
) -> Result<(), Memory> {
    let mut text = Vec::new(alloc);
    push_signed(&mut text, words, capacity)?;
    let x = times.left.saturating_sub(MARGIN);
    let y = scale.y(capacity).saturating_add(4);
    backdrop.label("what", x, y, text.as_slice())
}
