//! The lines of a whole trace.

ghost use Rattle.std.specs.Prelude.{◌≡◌, ◌≢◌, ◌≤◌, ◌<◌, ◌+◌, ◌^◌, ◌⊎◌, ℕ, true, List, [], ◌∷◌, ◌++◌, Some, None, Err, IfOk, OnOk, length, max};
ghost use Rattle.slot_core.specs.declared.TheConstants.{NUMBER_LIMIT};
ghost use Rattle.trace_lines.specs.declared.line.TraceLine.{TraceLine};
ghost use Rattle.trace_lines.specs.declared.trace.TraceFault.TheVariants.{Memory as MemoryFault, NoLine, NoSlot, TooMany};
ghost use Rattle.trace_lines.specs.declared.TheConstants.{LINE_LIMIT};
ghost use Rattle.trace_lines.specs.declared.part.TheConstants.{ALL_SLOTS};
ghost use Rattle.trace_lines.specs.Parts.{closing, is_within, IsKept, IsLong, IsTraceText, number_of_first, opening, part_of, start_at};
ghost use Rattle.trace_lines.specs.Readings.{short_line};
ghost use Rattle.trace_lines.specs.Texts.{lines_text};
ghost use Rattle.trace_lines.specs.Traces.{AreTrace, Breaks, follows, IsRead, reached_after, reached_by, reached_by_start, time_of_first, time_of_last};

use crate::line::{TraceLine, Words};
use crate::part::{ALL_SLOTS, Kept, Part, Slots};
use crate::reading::{end_line, line_of};
use crate::{LINE_LIMIT, READ_LINE_LIMIT};
use key_texts::cut_at;
use slot_core::Memory;
use std::alloc::{AllocError, AllocFailed, Global};
use std::error::Error;
use std::fmt;

/// Why a text is no trace.
#[derive(Clone, Copy, PartialEq, Eq, Debug)]
pub enum TraceFault {
    /// Memory ran out.
    Memory,
    /// The line of this number, counted from 1, is none of a trace, or does not follow.
    NoLine(u64),
    /// More than `LINE_LIMIT` lines tell of the slots.
    TooMany,
    /// The trace ends before the first of the slots, which is this one, has passed.
    NoSlot(u64),
}

impl fmt::Display for TraceFault {
    fn fmt<W: fmt::Write>(&self, f: &mut fmt::Formatter<W>) -> fmt::Result {
        match self {
            TraceFault::Memory => write!(f, "out of memory"),
            TraceFault::NoLine(number) => write!(f, "no line {number}"),
            TraceFault::TooMany => write!(f, "too many lines {LINE_LIMIT}"),
            TraceFault::NoSlot(slot) => write!(f, "no slot {slot}"),
        }
    }
}

impl Error for TraceFault {}

impl From<AllocError> for TraceFault {
    ghost from_gives = { λ _ fault. fault ≡ MemoryFault };

    fn from(_: AllocError) -> TraceFault {
        TraceFault::Memory
    }
}

impl<T: Drop> From<AllocFailed<T>> for TraceFault {
    ghost from_gives = { λ _ fault. fault ≡ MemoryFault };

    fn from(_: AllocFailed<T>) -> TraceFault {
        TraceFault::Memory
    }
}

/// How far a trace has come.
#[derive(Clone, Copy, PartialEq, Eq)]
pub enum Reached {
    /// Its first line is still to come.
    Nothing,
    /// So many slots have passed.
    Slot(u64),
    /// Its last line has come.
    End,
}

impl Reached {
    /// How far it has come after the line, or None where the line does not follow.
    pub fn after(self, line: &TraceLine) -> Option<Reached>
        ensures { result ≡ reached_after self line.now }
    {
        match self {
            Reached::Nothing => reached_by_start(line),
            Reached::Slot(time) => {
                if u64::from(line.time) == time {
                    reached_by(time, &line.words)
                } else {
                    None
                }
            }
            Reached::End => None,
        }
    }
}

/// How far the first line of a trace comes.
fn reached_by_start(line: &TraceLine) -> Option<Reached>
    ensures { result ≡ reached_by_start line.now.time line.now.words }
{
    match &line.words {
        Words::Start if line.time == 0 => Some(Reached::Slot(0)),
        _ => None,
    }
}

/// How far a later line comes, at this time.
fn reached_by(time: u64, words: &Words) -> Option<Reached>
    requires { time ≤ NUMBER_LIMIT }
    ensures { result ≡ reached_by time words.now }
{
    match words {
        Words::Start => None,
        Words::Run(_) | Words::Idle => Some(Reached::Slot(time + 1)),
        Words::End => Some(Reached::End),
        _ => Some(Reached::Slot(time)),
    }
}

/// The lines of the text of a trace, each with a line feed at its end. There are at most
/// `LINE_LIMIT`.
pub fn read_trace(alloc: Global, text: &[u8]) -> Result<Vec<TraceLine>, TraceFault>
    ensures trace { IfOk result (λ lines. AreTrace lines.items) }
    ensures text { IfOk result (λ lines. text.now ≡ lines_text lines.items) }
    ensures fault { (n : ℕ) → result ≡ Err (TraceFault.NoLine n) → Breaks text.now n }
    ensures too_many { result ≡ Err TooMany → IsLong ALL_SLOTS text.now }
    ensures no_slot { (n : ℕ) → result ≢ Err (NoSlot n) }
{
    let kept = keep_lines(alloc, text, ALL_SLOTS)?;
    Ok(kept.within)
}

/// The part that tells of these slots, of the trace that the text is. The trace may have any number
/// of lines, of which at most `LINE_LIMIT` tell of the slots.
pub fn read_part(alloc: Global, text: &[u8], slots: Slots) -> Result<Part, TraceFault>
    ensures part { IfOk result (λ part. (lines : List TraceLine) × IsTraceText text.now lines
        × (part.lines.items ≡ part_of slots lines) × (part.number ≡ number_of_first slots lines)
        × ((slots.from ≡ 0) ⊎ (slots.from < time_of_last lines))) }
    ensures number { IfOk result (λ part. part.number ≤ length text.now + 1) }
    ensures fault { (n : ℕ) → result ≡ Err (TraceFault.NoLine n) → Breaks text.now n }
    ensures too_many { result ≡ Err TooMany → IsLong slots text.now }
    ensures no_slot { (n : ℕ) → result ≡ Err (NoSlot n) → (n ≡ slots.from)
        × ((lines : List TraceLine) × IsTraceText text.now lines
        × (time_of_last lines ≤ slots.from)) }
{
    let kept = keep_lines(alloc, text, slots)?;
    if slots.from > 0 && slots.from >= kept.end {
        return Err(TraceFault::NoSlot(u64::from(slots.from)));
    }
    match part_from(kept, slots) {
        Ok(part) => Ok(part),
        Err(Memory) => Err(TraceFault::Memory),
    }
}

/// What is kept of the lines of the text of a trace.
fn keep_lines(alloc: Global, text: &[u8], slots: Slots) -> Result<Kept, TraceFault>
    ensures kept { IfOk result (λ kept. (lines : List TraceLine) × IsTraceText text.now lines
        × IsKept slots lines kept.before kept.last kept.within.items kept.end kept.count) }
    ensures number { IfOk result (λ kept. kept.before ≤ length text.now) }
    ensures fault { (n : ℕ) → result ≡ Err (TraceFault.NoLine n) → Breaks text.now n }
    ensures too_many { result ≡ Err TooMany → IsLong slots text.now }
    ensures in_range { (n : ℕ) → result ≢ Err (NoSlot n) }
{
    let mut kept = Kept::new(alloc);
    push_lines(&mut kept, text, slots)?;
    Ok(kept)
}

/// Keeps what tells of the slots, of the lines of the text of a trace.
fn push_lines(kept: &mut Kept, text: &[u8], slots: Slots) -> Result<(), TraceFault>
    requires { IsKept slots [] kept.old.before kept.old.last kept.old.within.items
        kept.old.end kept.old.count }
    ensures ok { OnOk result ((lines : List TraceLine) × IsRead text.now lines Reached.End []
        × IsKept slots lines kept.new.before kept.new.last kept.new.within.items
        kept.new.end kept.new.count) }
    ensures number { OnOk result (kept.new.before ≤ length text.now) }
    ensures fault { (n : ℕ) → result ≡ Err (TraceFault.NoLine n) → Breaks text.now n }
    ensures too_many { result ≡ Err TooMany → IsLong slots text.now }
    ensures in_range { (n : ℕ) → result ≢ Err (NoSlot n) }
{
    let mut rest = text;
    let mut reached = Reached::Nothing;
    while !rest.is_empty() {
        let Some((line, after)) = cut_at(rest, b'\n') else {
            return Err(no_line(kept.count));
        };
        reached = push_line(kept, slots, line, reached)?;
        rest = after;
    }
    if reached == Reached::End {
        Ok(())
    } else {
        Err(no_line(kept.count))
    }
}

/// Keeps what the bytes write, if it tells of the slots, and answers how far the trace has then
/// come.
fn push_line(
    kept: &mut Kept,
    slots: Slots,
    bytes: &[u8],
    reached: Reached,
) -> Result<Reached, TraceFault>
    requires room { kept.old.count + 1 < 2 ^ 64 }
    requires part { kept.old.before ≤ kept.old.count }
    ensures ok { IfOk result (λ next. (line : TraceLine)
        × (short_line bytes.now ≡ Some line)
        × (reached_after reached line ≡ Some next)
        × ((lines : List TraceLine) → IsKept slots lines kept.old.before kept.old.last
        kept.old.within.items kept.old.end kept.old.count
        → IsKept slots (lines ++ line ∷ []) kept.new.before kept.new.last
        kept.new.within.items kept.new.end kept.new.count)) }
    ensures count { OnOk result (kept.new.count ≡ kept.old.count + 1) }
    ensures fault { (n : ℕ) → result ≡ Err (TraceFault.NoLine n)
        → (n ≡ kept.old.count + 1) × (follows reached bytes.now ≡ None) }
    ensures too_many { result ≡ Err TooMany → (line : TraceLine) × ((next : Reached)
        × (short_line bytes.now ≡ Some line) × (reached_after reached line ≡ Some next)
        × (is_within slots line ≡ true) × (LINE_LIMIT ≤ length kept.old.within.items)) }
    ensures in_range { (n : ℕ) → result ≢ Err (NoSlot n) }
{
    let Some(line) = short_line(bytes) else {
        return Err(no_line(kept.count));
    };
    let Some(next) = reached.after(&line) else {
        return Err(no_line(kept.count));
    };
    kept.push(slots, line)?;
    Ok(next)
}

/// The part of a trace of which this is kept.
fn part_from(kept: Kept, slots: Slots) -> Result<Part, Memory>
    ensures part { (lines : List TraceLine) → IsKept slots lines kept.before kept.last
        kept.within.items kept.end kept.count → IfOk result (λ part.
        (part.lines.items ≡ part_of slots lines) × (part.number ≡ number_of_first slots lines)) }
    ensures number { IfOk result (λ part. part.number ≡ max 1 kept.before) }
{
    let number = number_of(kept.before);
    let mut lines = kept.within;
    close(&mut lines, slots.until, kept.end)?;
    open(&mut lines, slots.from, kept.last)?;
    Ok(Part { lines, number })
}

/// The number of the first line of a part, where so many lines tell of a time before.
fn number_of(before: usize) -> u64
    ensures { result ≡ max 1 before }
{
    (before as u64).max(1)
}

/// Appends the end of a part, if its trace does not end before.
fn close(lines: &mut Vec<TraceLine>, until: u64, end: u32) -> Result<(), Memory>
    ensures { OnOk result (lines.new.items ≡ lines.old.items ++ closing until end) }
{
    if until <= u64::from(end) {
        lines.push(end_line(until as u32))?;
    }
    Ok(())
}

/// Puts the start of a part before its lines, if there is a line before them.
fn open(lines: &mut Vec<TraceLine>, from: u32, last: Option<TraceLine>) -> Result<(), Memory>
    ensures { OnOk result (lines.new.items ≡ opening from last ++ lines.old.items) }
{
    if let Some(line) = last {
        lines.insert(0, start_at(from, line))?;
    }
    Ok(())
}

/// A start at this time, which shows the spans of the line.
fn start_at(time: u32, line: TraceLine) -> TraceLine
    ensures { result ≡ start_at time line }
{
    TraceLine {
        time,
        words: Words::Start,
        spans: line.spans,
        more: line.more,
    }
}

/// The time of the last line, or 0 where there is none: a whole trace has so many slots.
pub fn time_of_last(lines: &[TraceLine]) -> u32
    ensures { result ≡ time_of_last lines.now }
{
    match lines.last() {
        Some(line) => line.time,
        None => 0,
    }
}

/// The time of the first line, or 0 where there is none.
pub fn time_of_first(lines: &[TraceLine]) -> u32
    ensures { result ≡ time_of_first lines.now }
{
    match lines {
        [] => 0,
        [line, ..] => line.time,
    }
}

/// The line that the bytes write, where they are not too many.
fn short_line(bytes: &[u8]) -> Option<TraceLine>
    ensures { result ≡ short_line bytes.now }
{
    if bytes.len() > READ_LINE_LIMIT {
        return None;
    }
    line_of(bytes)
}

/// The fault of the line after so many.
fn no_line(count: usize) -> TraceFault
    requires { count + 1 < 2 ^ 64 }
    ensures { result ≡ NoLine (count + 1) }
{
    TraceFault::NoLine(count as u64 + 1)
}
