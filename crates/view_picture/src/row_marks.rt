//! Marks in rows: when a job is released, and when it is due.

ghost use Rattle.std.specs.Prelude.{◌≡◌, ◌++◌, true, if◌then◌else◌, OnOk};
ghost use Rattle.svg_text.specs.Content.{is_name};
ghost use Rattle.view_picture.specs.Marks.{class_of, is_seen, mark_text, marks_text, strokes_of};

use crate::backdrop::Backdrop;
use crate::layout::{ROW, Times, down};
use slot_core::Memory;

/// What a mark in a row tells.
#[derive(Clone, Copy, PartialEq, Eq)]
pub enum Moment {
    /// A job is released: it may run from then on.
    Release,
    /// A job is due: it has run before.
    Deadline,
}

/// The moments, in the order of the legend.
pub(crate) const MOMENTS: [Moment; 2] = [Moment::Release, Moment::Deadline];

/// A mark in a row.
#[derive(Clone, Copy, PartialEq, Eq)]
pub struct RowMark {
    /// The place of the row.
    pub row: usize,
    /// The time, in slots.
    pub time: u64,
    /// What it tells.
    pub moment: Moment,
}

impl Moment {
    /// The class of its strokes.
    pub(crate) fn class(self) -> &'static str
        ensures class { result.now ≡ class_of self }
        ensures named { is_name result.now ≡ true }
    {
        match self {
            Moment::Release => "release",
            Moment::Deadline => "deadline",
        }
    }

    /// Its strokes, from the upper edge of the row on: an arrow upwards, or one downwards.
    fn strokes(self) -> &'static str
        ensures { result.now ≡ strokes_of self }
    {
        match self {
            Moment::Release => "m0 17v-16m-2.5 3l2.5 -3l2.5 3",
            Moment::Deadline => "m0 1v16m-2.5 -3l2.5 3l2.5 -3",
        }
    }

    /// What it stands for.
    pub(crate) fn words(self) -> &'static str {
        match self {
            Moment::Release => "released",
            Moment::Deadline => "due",
        }
    }

    /// Its strokes in the legend, in a square of 6 by 10.
    pub(crate) fn short_strokes(self) -> &'static str {
        match self {
            Moment::Release => "m3 10v-10m-2.5 3l2.5 -3l2.5 3",
            Moment::Deadline => "m3 0v10m-2.5 -3l2.5 3l2.5 -3",
        }
    }
}

/// Draws the marks that lie in the picture, in rows from this place on.
pub(crate) fn draw_row_marks(
    backdrop: &mut Backdrop,
    times: &Times,
    top: u32,
    marks: &[RowMark],
) -> Result<(), Memory>
    ensures { OnOk result (backdrop.new ≡ backdrop.old ++ marks_text times.now top marks.now) }
{
    for mark in marks {
        draw_row_mark(backdrop, times, top, mark)?;
    }
    Ok(())
}

/// Draws a mark, where it lies in the picture.
fn draw_row_mark(
    backdrop: &mut Backdrop,
    times: &Times,
    top: u32,
    mark: &RowMark,
) -> Result<(), Memory>
    ensures { OnOk result (backdrop.new ≡ backdrop.old ++ mark_text times.now top mark.now) }
{
    if !is_seen(times, mark) {
        return Ok(());
    }
    let y = down(top, mark.row, ROW);
    let moment = mark.moment;
    backdrop.path(moment.class(), times.x(mark.time), y, moment.strokes(), b"")
}

/// Whether a mark lies in the picture.
fn is_seen(times: &Times, mark: &RowMark) -> bool
    ensures { result ≡ is_seen times.now mark.now }
{
    u64::from(times.first) <= mark.time && mark.time <= times.end()
}
