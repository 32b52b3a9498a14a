//! The rows of tasks.

ghost use Rattle.std.specs.Prelude.{◌≡◌, true};
ghost use Rattle.svg_text.specs.Content.{is_name};

use crate::backdrop::Backdrop;
use crate::layout::{Heights, LABEL_SLOTS, MARGIN, ROW, Times, down};
use crate::titles::row_label;
use run_blocks::Row;
use slot_core::Memory;
use std::alloc::Global;
use svg_text::Frame;

/// Draws the labels and edges of the rows.
pub(crate) fn draw_rows(
    alloc: Global,
    backdrop: &mut Backdrop,
    times: &Times,
    heights: &Heights,
    rows: &[Row],
) -> Result<(), Memory> {
    for (place, row) in rows.iter().enumerate() {
        let y = down(heights.rows, place, ROW);
        draw_edge(backdrop, times, y, begins_group(rows, place))?;
        draw_labels(alloc, backdrop, times, y, row)?;
    }
    draw_edge(backdrop, times, down(heights.rows, rows.len(), ROW), true)
}

/// Draws the label of a row to its left; in a long picture also to its right, and in it each
/// `LABEL_SLOTS` slots.
fn draw_labels(
    alloc: Global,
    backdrop: &mut Backdrop,
    times: &Times,
    y: u32,
    row: &Row,
) -> Result<(), Memory> {
    let label = row_label(alloc, row)?;
    let y = y.saturating_add(13);
    let left = times.left.saturating_sub(MARGIN);
    backdrop.label("name", left, y, label.as_slice())?;
    if !times.is_long() {
        return Ok(());
    }
    let right = times.right().saturating_add(MARGIN);
    backdrop.label("again", right, y, label.as_slice())?;
    for part in 1..times.slots / LABEL_SLOTS {
        let slots = u64::from(part) * u64::from(LABEL_SLOTS);
        let x = times.x(u64::from(times.first) + slots).saturating_add(3);
        backdrop.label("again", x, y, label.as_slice())?;
    }
    Ok(())
}

/// Draws the upper edge of a row, strong where another graph or kind begins.
fn draw_edge(backdrop: &mut Backdrop, times: &Times, y: u32, strong: bool) -> Result<(), Memory> {
    let width = times.right().saturating_sub(times.left);
    let frame = Frame {
        x: times.left,
        y,
        width,
        height: 1,
    };
    backdrop.fill(class_of_edge(strong), frame)
}

/// The class of an edge.
fn class_of_edge(strong: bool) -> &'static str
    ensures { is_name result.now ≡ true }
{
    if strong { "edge" } else { "grid" }
}

/// Whether a row is the first of its graph or kind.
fn begins_group(rows: &[Row], place: usize) -> bool {
    if place == 0 || place >= rows.len() {
        return true;
    }
    match (&rows[place - 1], &rows[place]) {
        (Row::Task(before, _), Row::Task(graph, _)) => before.bytes() != graph.bytes(),
        (Row::Sporadic(_), Row::Sporadic(_)) => false,
        (Row::FirmJob(_), Row::FirmJob(_)) => false,
        _ => true,
    }
}
