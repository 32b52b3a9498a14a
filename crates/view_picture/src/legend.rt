//! The legend: what the shades and marks stand for.

ghost use Rattle.std.specs.Prelude.{◌≡◌, ◌≤◌, true, nat_lt};
ghost use Rattle.view_picture.specs.declared.layout.TheConstants.{BLOCK};
ghost use Rattle.view_picture.specs.declared.legend.TheConstants.{SIGN};

use crate::arrivals::draw_due;
use crate::backdrop::Backdrop;
use crate::layout::{LEGEND, LETTER, MARGIN, down};
use crate::marks::{MARKS, Mark};
use crate::row_marks::{MOMENTS, Moment, RowMark};
use slot_core::Memory;
use std::alloc::Global;
use svg_text::Frame;
use trace_lines::TraceLine;

/// What is explained.
#[derive(Clone, Copy)]
enum Sign {
    /// The blocks of jobs one after the other, in two shades.
    Jobs,
    /// A mark of arrivals.
    Mark(Mark),
    /// A mark in rows.
    Moment(Moment),
    /// The first capacity.
    First,
    /// The least capacity of those that a line shows.
    Least,
}

impl Sign {
    /// What it stands for.
    fn words(self) -> &'static str {
        match self {
            Sign::Jobs => "one job, the next",
            Sign::Mark(mark) => mark.words(),
            Sign::Moment(moment) => moment.words(),
            Sign::First => "capacity of the first span",
            Sign::Least => "least of the 8 spans that a line shows",
        }
    }

    /// The width of its drawn part.
    fn drawn(self) -> u32
        ensures { result ≤ SIGN }
    {
        match self {
            Sign::Mark(Mark::Accepted) | Sign::Jobs | Sign::First | Sign::Least => SIGN,
            Sign::Mark(_) => 10,
            Sign::Moment(_) => 6,
        }
    }

    /// The width that it takes.
    fn width(self) -> u32 {
        down(self.drawn() + 4 * LETTER, self.words().len(), LETTER)
    }
}

/// The width of the drawn part of the signs that are not a mark alone.
const SIGN: u32 = 26;

/// A sign and its place.
#[derive(Clone, Copy)]
struct Explained {
    sign: Sign,
    x: u32,
    line: usize,
}

/// The signs of a picture, line by line.
#[derive(Drop)]
pub(crate) struct Legend {
    signs: Vec<Explained>,
    /// The width of a line.
    width: u32,
    /// The end of the last sign.
    end: u32,
    /// The number of lines.
    pub lines: usize,
}

/// The legend of the lines of a trace and of these marks in this width: shades, the marks that
/// stand in it, and capacities.
pub(crate) fn legend_of(
    alloc: Global,
    lines: &[TraceLine],
    marks: &[RowMark],
    width: u32,
) -> Result<Legend, Memory> {
    let mut legend = Legend {
        signs: Vec::new(alloc),
        width,
        end: MARGIN,
        lines: 1,
    };
    legend.push(Sign::Jobs)?;
    push_moments(&mut legend, marks)?;
    for mark in MARKS {
        if lines.iter().any(|line| Mark::of(&line.words) == Some(mark)) {
            legend.push(Sign::Mark(mark))?;
        }
    }
    legend.push(Sign::First)?;
    legend.push(Sign::Least)?;
    Ok(legend)
}

/// Adds the moments of which there are marks.
fn push_moments(legend: &mut Legend, marks: &[RowMark]) -> Result<(), Memory> {
    for moment in MOMENTS {
        if marks.iter().any(|mark| mark.moment == moment) {
            legend.push(Sign::Moment(moment))?;
        }
    }
    Ok(())
}

impl Legend {
    /// Adds a sign, in a new line where it has no room in the last.
    fn push(&mut self, sign: Sign) -> Result<(), Memory> {
        let width = sign.width();
        if self.end.saturating_add(width) > self.width && self.end > MARGIN {
            self.end = MARGIN;
            self.lines = self.lines.saturating_add(1);
        }
        self.signs.push(Explained {
            sign,
            x: self.end,
            line: self.lines,
        })?;
        self.end = self.end.saturating_add(width);
        Ok(())
    }

    /// Draws the signs.
    pub(crate) fn draw(&self, backdrop: &mut Backdrop) -> Result<(), Memory> {
        for explained in &self.signs {
            let y = down(MARGIN, explained.line.saturating_sub(1), LEGEND);
            draw_sign(backdrop, explained.sign, explained.x, y)?;
            let words = explained.sign.words().as_bytes();
            let x = explained.x.saturating_add(explained.sign.drawn() + LETTER);
            backdrop.label("sign", x, y.saturating_add(10), words)?;
        }
        Ok(())
    }
}

/// Draws a sign.
fn draw_sign(backdrop: &mut Backdrop, sign: Sign, x: u32, y: u32) -> Result<(), Memory> {
    match sign {
        Sign::Jobs => {
            draw_box(backdrop, "task-a", (x, y), (12, 12))?;
            draw_box(backdrop, "task-b", (x.saturating_add(13), y), (12, 12))
        }
        Sign::Mark(mark) => {
            if mark == Mark::Accepted {
                draw_due(backdrop, x.saturating_add(5), y, 21, true, b"")?;
            }
            backdrop.path(mark.class(), x.saturating_add(1), y, mark.strokes(), b"")
        }
        Sign::Moment(moment) => { backdrop.path(moment.class(), x, y, moment.short_strokes(), b"") }
        Sign::First => draw_box(backdrop, "first", (x, y), (SIGN, 12)),
        Sign::Least => draw_box(backdrop, "least", (x, y.saturating_add(5)), (SIGN, 2)),
    }
}

/// Draws a box of this class, place and size, which is lower than a block.
fn draw_box(
    backdrop: &mut Backdrop,
    class: &str,
    place: (u32, u32),
    size: (u32, u32),
) -> Result<(), Memory>
    requires { nat_lt size.1 BLOCK ≡ true }
{
    let frame = Frame {
        x: place.0,
        y: place.1,
        width: size.0,
        height: size.1,
    };
    backdrop.sample(class, frame)
}
