//! What arrived, in lanes above the rows.

use crate::backdrop::Backdrop;
use crate::layout::{Heights, LANE, MARGIN, Times, down};
use crate::marks::{GROUPS, Group, Mark};
use crate::titles::arrival_title;
use slot_core::Memory;
use std::alloc::Global;
use svg_text::Frame;
use trace_lines::{TraceLine, Words};

/// Most lanes of a group: where more things overlap, they are drawn over one another.
const LANES: usize = 20;

/// The width of a mark.
const MARK: u32 = 8;

/// An arrival, with its mark and its lane.
#[derive(Drop)]
pub(crate) struct Arrived<'a> {
    line: &'a TraceLine,
    mark: Mark,
    lane: usize,
}

/// The lanes of a group: its label stands at the first of them.
#[derive(Clone, Copy)]
pub(crate) struct Lanes {
    group: Group,
    first: usize,
}

/// What arrives, with its lanes.
#[derive(Drop)]
pub(crate) struct Arrivals<'a> {
    arrived: Vec<Arrived<'a>>,
    labels: Vec<Lanes>,
    /// The number of lanes.
    pub count: usize,
}

/// What arrives in the lines, group by group. A lane is free again where a mark or a deadline ends.
pub(crate) fn arrivals_of<'a>(
    alloc: Global,
    lines: &'a [TraceLine],
    times: &Times,
) -> Result<Arrivals<'a>, Memory> {
    let mut arrivals = Arrivals {
        arrived: Vec::new(alloc),
        labels: Vec::new(alloc),
        count: 0,
    };
    for group in GROUPS {
        push_group(&mut arrivals, lines, times, group)?;
    }
    Ok(arrivals)
}

/// Adds the arrivals of a group, in lanes below those that are there.
fn push_group<'a>(
    arrivals: &mut Arrivals<'a>,
    lines: &'a [TraceLine],
    times: &Times,
    group: Group,
) -> Result<(), Memory> {
    let first = arrivals.count;
    let mut free = [0; LANES];
    for line in lines {
        if let Some(mark) = mark_in(group, line) {
            let place = take_lane(&mut free, u64::from(line.time), end_of(line, times));
            let lane = first.saturating_add(place);
            arrivals.count = arrivals.count.max(lane.saturating_add(1));
            arrivals.arrived.push(Arrived { line, mark, lane })?;
        }
    }
    if arrivals.count > first {
        arrivals.labels.push(Lanes { group, first })?;
    }
    Ok(())
}

/// The mark of what the line tells, where it is of this group.
fn mark_in(group: Group, line: &TraceLine) -> Option<Mark> {
    Mark::of(&line.words).filter(|mark| mark.group() == group)
}

/// Takes the first lane that is free from this time on, or the one that is free first, until the
/// end.
fn take_lane(free: &mut [u64; LANES], from: u64, end: u64) -> usize {
    let mut best = 0;
    for (lane, time) in free.iter().enumerate() {
        if free[best] > from && *time < free[best] {
            best = lane;
        }
    }
    free[best] = end;
    best
}

/// The time at which the mark of a line ends, and the line to its deadline.
fn end_of(line: &TraceLine, times: &Times) -> u64 {
    let marked = u64::from(line.time).saturating_add(u64::from(MARK / times.slot.max(1)) + 1);
    due_of(line).map_or(marked, |due| due.max(marked))
}

/// The deadline of an accepted offer.
fn due_of(line: &TraceLine) -> Option<u64> {
    match &line.words {
        Words::Firm(_, _, within, slot_core::Firm::Accepted) => {
            Some(u64::from(line.time).saturating_add(u64::from(*within)))
        }
        _ => None,
    }
}

/// Draws what arrives.
pub(crate) fn draw_arrivals(
    alloc: Global,
    backdrop: &mut Backdrop,
    times: &Times,
    heights: &Heights,
    arrivals: &Arrivals<'_>,
) -> Result<(), Memory> {
    let x = times.left.saturating_sub(MARGIN);
    for lanes in &arrivals.labels {
        let y = down(heights.lanes, lanes.first, LANE);
        backdrop.label(
            "what",
            x,
            y.saturating_add(13),
            lanes.group.label().as_bytes(),
        )?;
    }
    for arrived in &arrivals.arrived {
        draw_arrived(alloc, backdrop, times, heights, arrived)?;
    }
    Ok(())
}

/// Draws an arrival.
fn draw_arrived(
    alloc: Global,
    backdrop: &mut Backdrop,
    times: &Times,
    heights: &Heights,
    arrived: &Arrived<'_>,
) -> Result<(), Memory> {
    let title = arrival_title(alloc, arrived.line)?;
    let y = down(heights.lanes, arrived.lane, LANE);
    let x = times.x(u64::from(arrived.line.time));
    if let Some(due) = due_of(arrived.line) {
        let end = times.x(due.min(times.end()));
        draw_due(
            backdrop,
            x,
            y.saturating_add(3),
            end.saturating_sub(x),
            due <= times.end(),
            title.as_slice(),
        )?;
    }
    let (x, y, mark) = (
        x.saturating_sub(MARK / 2),
        y.saturating_add(3),
        arrived.mark,
    );
    backdrop.path(mark.class(), x, y, mark.strokes(), title.as_slice())
}

/// Draws the line of this width to the deadline of an accepted offer, with a foot where that lies
/// in the picture.
pub(crate) fn draw_due(
    backdrop: &mut Backdrop,
    x: u32,
    y: u32,
    width: u32,
    foot: bool,
    title: &[u8],
) -> Result<(), Memory> {
    let long = Frame {
        x,
        y: y.saturating_add(4),
        width,
        height: 2,
    };
    backdrop.rect("due", long, title)?;
    if !foot {
        return Ok(());
    }
    let tick = Frame {
        x: x.saturating_add(width).saturating_sub(1),
        y,
        width: 2,
        height: 10,
    };
    backdrop.rect("due", tick, title)
}
