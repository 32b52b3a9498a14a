//! The picture.

ghost use Rattle.std.specs.Prelude.{◌≡◌, ◌≢◌, ◌≤◌, ◌<◌, ◌+◌, List, [], length, Err, IfOk, IsOk};
ghost use Rattle.svg_text.specs.Content.{IsDocument};
ghost use Rattle.run_blocks.specs.declared.rows.Row.{Row};
ghost use Rattle.run_blocks.specs.Rows.{AreCrowded};
ghost use Rattle.trace_lines.specs.Traces.{slots_of};
ghost use Rattle.view_picture.specs.declared.faults.PictureFault.TheVariants.{TooLong, TooManyRows};
ghost use Rattle.view_picture.specs.declared.TheConstants.{MOST_ROWS, PICTURE_LIMIT};
ghost use Rattle.view_picture.specs.declared.layout.TheConstants.{MOST_LETTERS};
ghost use Rattle.view_picture.specs.Blocks.{AreRows, ShowsRuns};
ghost use Rattle.view_picture.specs.Places.{x_of};

use crate::PICTURE_LIMIT;
use crate::arrivals::{arrivals_of, draw_arrivals};
use crate::axis::draw_axis;
use crate::backdrop::Backdrop;
use crate::blocks::draw_runs;
use crate::capacity::{draw_capacities, levels_of};
use crate::faults::PictureFault;
use crate::layout::{Heights, MARGIN, MOST_LETTERS, Times};
use crate::legend::{Legend, legend_of};
use crate::row_marks::RowMark;
use crate::rows::draw_rows;
use crate::style::STYLE;
use crate::titles::row_label;
use run_blocks::{Row, RowsFault, rows_of};
use slot_core::Memory;
use std::alloc::Global;
use svg_text::{Document, Frame};
use trace_lines::{TraceLine, time_of_first, time_of_last};

/// The least width of a picture, and the greatest of its legend.
const WIDTHS: (u32, u32) = (480, 1_400);

/// The letters that the labels of lanes and capacities want.
const LETTERS: usize = 14;

/// The picture of the lines of a trace or of a part of one, which have at most `PICTURE_LIMIT`
/// slots: what arrived, a row for each task, firm job or kind of jobs that ran, with a block for
/// each run of slots of one job, and the capacities after each slot.
pub fn picture(alloc: Global, lines: &[TraceLine]) -> Result<Document, PictureFault>
    ensures formed { IfOk result (λ document. IsDocument document) }
    ensures shows { IfOk result (λ document. (rows : List Row) × AreRows rows lines.now
        × ShowsRuns rows [] lines.now document) }
    ensures short { IsOk result → slots_of lines.now ≤ PICTURE_LIMIT }
    ensures refused { PICTURE_LIMIT < slots_of lines.now → result ≡ Err TooLong }
    ensures cause { result ≡ Err TooLong → PICTURE_LIMIT < slots_of lines.now }
    ensures too_many { result ≡ Err TooManyRows → AreCrowded lines.now }
{
    let slots = slots_of(lines);
    if slots > PICTURE_LIMIT {
        return Err(PictureFault::TooLong);
    }
    match rows_of(alloc, lines) {
        Ok(rows) => {
            let document = drawn(alloc, lines, slots, &rows, &[])?;
            Ok(document)
        }
        Err(RowsFault::Memory) => Err(PictureFault::Memory),
        Err(RowsFault::TooMany) => Err(PictureFault::TooManyRows),
    }
}

/// The same over these rows, which hold the jobs that run, with these marks in them.
pub fn picture_over(
    alloc: Global,
    lines: &[TraceLine],
    rows: &[Row],
    marks: &[RowMark],
) -> Result<Document, PictureFault>
    requires few { length rows.now ≤ MOST_ROWS }
    ensures formed { IfOk result (λ document. IsDocument document) }
    ensures shows { IfOk result (λ document. ShowsRuns rows.now marks.now lines.now document) }
    ensures short { IsOk result → slots_of lines.now ≤ PICTURE_LIMIT }
    ensures refused { PICTURE_LIMIT < slots_of lines.now → result ≡ Err TooLong }
    ensures cause { result ≡ Err TooLong → PICTURE_LIMIT < slots_of lines.now }
    ensures rows { result ≢ Err TooManyRows }
{
    let slots = slots_of(lines);
    if slots <= PICTURE_LIMIT {
        let document = drawn(alloc, lines, slots, rows, marks)?;
        Ok(document)
    } else {
        Err(PictureFault::TooLong)
    }
}

/// The slots between the first line and the last.
fn slots_of(lines: &[TraceLine]) -> u32
    ensures { result ≡ slots_of lines.now }
{
    time_of_last(lines).saturating_sub(time_of_first(lines))
}

/// The picture of so many slots over these rows.
fn drawn(
    alloc: Global,
    lines: &[TraceLine],
    slots: u32,
    rows: &[Row],
    marks: &[RowMark],
) -> Result<Document, Memory>
    requires count { slots ≡ slots_of lines.now }
    requires short { slots ≤ PICTURE_LIMIT }
    requires few { length rows.now ≤ MOST_ROWS }
    ensures formed { IfOk result (λ document. IsDocument document) }
    ensures shows { IfOk result (λ document. ShowsRuns rows.now marks.now lines.now document) }
{
    let letters = letters_of(alloc, rows)?;
    let times = Times::new(time_of_first(lines), slots, letters);
    let width = width_of(&times);
    let legend = legend_of(alloc, lines, marks, width.min(WIDTHS.1))?;
    let arrivals = arrivals_of(alloc, lines, &times)?;
    let heights = Heights::new(legend.lines, arrivals.count, rows.len());
    let mut backdrop = Backdrop::new(alloc);
    let height = height_of(&heights);
    draw_page(&mut backdrop, width, height)?;
    legend.draw(&mut backdrop)?;
    draw_axis(&mut backdrop, &times, &heights)?;
    draw_arrivals(alloc, &mut backdrop, &times, &heights, &arrivals)?;
    draw_rows(alloc, &mut backdrop, &times, &heights, rows)?;
    let levels = levels_of(alloc, lines)?;
    draw_capacities(alloc, &mut backdrop, &times, &heights, levels.as_slice())?;
    let top = heights.rows;
    let drawing = draw_runs(alloc, backdrop, lines, rows, marks, &times, top)?;
    Document::new(alloc, width, height, STYLE, &drawing)
}

/// The width of a picture: a margin lies to the right of its slots, and in a long one labels.
fn width_of(times: &Times) -> u32
    ensures { x_of times.now (times.now.first + times.now.slots) ≤ result }
{
    let labels = if times.is_long() { times.left } else { 0 };
    (times.right() + 2 * MARGIN)
        .saturating_add(labels)
        .max(WIDTHS.0)
}

/// The height of a picture: a margin lies below.
fn height_of(heights: &Heights) -> u32
    ensures { heights.now.bottom ≤ result }
{
    heights.bottom.saturating_add(2 * MARGIN)
}

/// The most letters of a label, or `MOST_LETTERS` where one has more.
fn letters_of(alloc: Global, rows: &[Row]) -> Result<usize, Memory>
    ensures { IfOk result (λ letters. letters ≤ MOST_LETTERS) }
{
    let mut letters = LETTERS;
    for row in rows {
        letters = letters.max(row_label(alloc, row)?.len());
    }
    Ok(letters.min(MOST_LETTERS))
}

/// Draws the page.
fn draw_page(backdrop: &mut Backdrop, width: u32, height: u32) -> Result<(), Memory> {
    let frame = Frame {
        x: 0,
        y: 0,
        width,
        height,
    };
    backdrop.fill("page", frame)
}
