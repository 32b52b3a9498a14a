//! The blocks of slots in which one job runs.

ghost use Rattle.std.specs.Prelude.{◌≡◌, ◌+◌, ◌*◌, ◌≤◌, ◌++◌, ℕ, length, IfOk, OnOk};
ghost use Rattle.svg_text.specs.Shapes.{document_text};
ghost use Rattle.trace_lines.specs.Traces.{slots_of, time_of_first};
ghost use Rattle.view_picture.specs.declared.layout.TheConstants.{FAR, LEAST_SLOT, ROW, TOP_LIMIT};
ghost use Rattle.view_picture.specs.declared.TheConstants.{MOST_ROWS};
ghost use Rattle.view_picture.specs.declared.style.TheConstants.{STYLE};
ghost use Rattle.view_picture.specs.Backdrops.{HasNoBlock};
ghost use Rattle.view_picture.specs.Blocks.{AreDrawn, ShowsRuns, block_text, shade_of};
ghost use Rattle.view_picture.specs.Marks.{marks_text};
ghost use Rattle.view_picture.specs.Places.{after_steps, x_of};

use crate::backdrop::Backdrop;
use crate::layout::{ABOVE, BLOCK, ROW, Times, down};
use crate::row_marks::{RowMark, draw_row_marks};
use crate::titles::block_title;
use run_blocks::{Block, Row, blocks_of};
use slot_core::Memory;
use std::alloc::Global;
use svg_text::{Drawing, Frame};
use trace_lines::{KeyName, TraceLine};

/// The last job that was drawn in a row, and whether it has the second shade.
#[derive(Clone, Copy)]
struct Last<'a> {
    key: Option<&'a KeyName>,
    second: bool,
}

/// Draws the marks in rows from this place on, and then the blocks of what the lines run.
pub(crate) fn draw_runs(
    alloc: Global,
    backdrop: Backdrop,
    lines: &[TraceLine],
    rows: &[Row],
    marks: &[RowMark],
    times: &Times,
    top: u32,
) -> Result<Drawing, Memory>
    requires few { length rows.now ≤ MOST_ROWS }
    requires first { times.now.first ≡ time_of_first lines.now }
    requires count { times.now.slots ≡ slots_of lines.now }
    requires wide { LEAST_SLOT ≤ times.now.slot }
    requires high { top ≤ TOP_LIMIT }
    requires whole { times.now.left + slots_of lines.now * times.now.slot ≤ FAR }
    ensures { IfOk result (λ drawing. (width height : ℕ)
        → x_of times.now (times.now.first + times.now.slots) ≤ width
        → after_steps top (length rows.now) ROW ≤ height
        → ShowsRuns rows.now marks.now lines.now
        (document_text width height STYLE.now drawing)) }
{
    let mut drawing = marked(backdrop, times, top, marks)?;
    let blocks = blocks_of(alloc, lines, rows)?;
    draw_blocks(
        alloc,
        &mut drawing,
        times,
        top,
        rows.len(),
        blocks.as_slice(),
    )?;
    Ok(drawing)
}

/// The backdrop with these marks.
fn marked(backdrop: Backdrop, times: &Times, top: u32, marks: &[RowMark]) -> Result<Drawing, Memory>
    ensures bare { IfOk result HasNoBlock }
    ensures marked { IfOk result (λ drawing.
        drawing ≡ backdrop ++ marks_text times.now top marks.now) }
{
    let mut backdrop = backdrop;
    draw_row_marks(&mut backdrop, times, top, marks)?;
    Ok(backdrop.into_drawing())
}

/// Draws the blocks in rows from this place on. The first block of a row has the first shade, and
/// after that the shade of a row changes where its job does.
fn draw_blocks(
    alloc: Global,
    drawing: &mut Drawing,
    times: &Times,
    top: u32,
    rows: usize,
    blocks: &[Block<'_>],
) -> Result<(), Memory>
    ensures { OnOk result (AreDrawn times.now top blocks.now drawing.old drawing.new) }
{
    let none = Last {
        key: None,
        second: true,
    };
    let mut last = vec![in alloc; none; rows]?;
    for block in blocks {
        let second = is_second(&mut last, block);
        draw_block(alloc, drawing, times, top, block, second)?;
    }
    Ok(())
}

/// Whether a block has the second shade: not that of the job that was drawn in its row before.
fn is_second<'a>(last: &mut [Last<'a>], block: &Block<'a>) -> bool {
    match last.get_mut(block.row) {
        Some(last) => {
            let same = last.key.map_or(false, |key| key.is(block.key));
            last.second ^= !same;
            last.key = Some(block.key);
            last.second
        }
        None => false,
    }
}

/// Draws a block in the first or in the second shade.
fn draw_block(
    alloc: Global,
    drawing: &mut Drawing,
    times: &Times,
    top: u32,
    block: &Block<'_>,
    second: bool,
) -> Result<(), Memory>
    ensures { OnOk result (drawing.new ≡ drawing.old ++ block_text times.now top block.now second) }
{
    let title = block_title(alloc, block)?;
    let frame = Frame {
        x: times.x(block.start),
        y: down(top, block.row, ROW) + ABOVE,
        width: times.width(block.start, block.end).saturating_sub(1),
        height: BLOCK,
    };
    drawing.rect(shade_of(block.key, second), frame, title.as_slice())
}

/// The first or the second shade of the kind of a job, as the class of its block.
fn shade_of(key: &KeyName, second: bool) -> &'static str
    ensures { result.now ≡ shade_of key.now second }
{
    match (key, second) {
        (KeyName::Offline(_, _, _), false) => "task-a",
        (KeyName::Offline(_, _, _), true) => "task-b",
        (KeyName::Sporadic(_, _), false) => "alarm-a",
        (KeyName::Sporadic(_, _), true) => "alarm-b",
        (KeyName::Firm(_), false) => "firm-a",
        (KeyName::Firm(_), true) => "firm-b",
        (KeyName::Soft(_), false) => "soft-a",
        (KeyName::Soft(_), true) => "soft-b",
    }
}
