//! Parts of a trace: what it tells of the slots from one on and before another.

ghost use Rattle.std.specs.Prelude.{◌≡◌, ◌≢◌, true, ◌≤◌, ◌<◌, ◌+◌, ◌^◌, ℕ, [], ◌∷◌, ◌++◌, List, Some, None, OnOk, IfOk, Err, if◌then◌else◌, length, max};
ghost use Rattle.trace_lines.specs.declared.TheConstants.{LINE_LIMIT};
ghost use Rattle.trace_lines.specs.declared.line.TraceLine.{TraceLine};
ghost use Rattle.trace_lines.specs.declared.trace.TraceFault.TheVariants.{NoLine, NoSlot, TooMany};
ghost use Rattle.trace_lines.specs.Parts.{closing, is_before, is_within, opening, start_at};
ghost use Rattle.trace_lines.specs.Readings.{end_line};

use crate::LINE_LIMIT;
use crate::line::{TraceLine, Words};
use crate::reading::end_line;
use crate::trace::TraceFault;
use slot_core::Memory;
use std::alloc::Global;

/// Slots from one on and before another.
#[derive(Clone, Copy, PartialEq, Eq)]
pub struct Slots {
    /// The first.
    pub from: u32,
    /// The one after the last.
    pub until: u64,
}

/// All slots that a trace may have, and its end.
pub const ALL_SLOTS: Slots = Slots {
    from: 0,
    until: 1 << 32,
};

impl Slots {
    /// Whether the line tells of a time before.
    fn is_before(self, line: &TraceLine) -> bool
        ensures { result ≡ is_before self line.now }
    {
        line.time < self.from
    }

    /// Whether the line tells of one of the slots.
    fn is_within(self, line: &TraceLine) -> bool
        ensures { result ≡ is_within self line.now }
    {
        self.from <= line.time && u64::from(line.time) < self.until
    }
}

/// A part of a trace.
#[derive(Drop)]
pub struct Part {
    /// Its lines, of which the first is a start and the last is an end.
    pub lines: Vec<TraceLine>,
    /// The number of the first of them in the trace, from 1 on.
    pub number: u64,
}

/// What is kept of the lines so far.
#[derive(Drop)]
pub(crate) struct Kept {
    /// How many lines tell of a time before.
    pub before: usize,
    /// The last of them.
    pub last: Option<TraceLine>,
    /// The lines that tell of the slots.
    pub within: Vec<TraceLine>,
    /// The time of the last line.
    pub end: u32,
    /// How many lines there are.
    pub count: usize,
}

impl Kept {
    /// Of no lines.
    pub(crate) fn new(alloc: Global) -> Kept
        ensures before { result.before ≡ 0 }
        ensures last { result.last ≡ None }
        ensures within { result.within.items ≡ [] }
        ensures end { result.end ≡ 0 }
        ensures count { result.count ≡ 0 }
    {
        Kept {
            before: 0,
            last: None,
            within: Vec::new(alloc),
            end: 0,
            count: 0,
        }
    }

    /// With one line more.
    pub(crate) fn push(&mut self, slots: Slots, line: TraceLine) -> Result<(), TraceFault>
        requires room { self.old.count + 1 < 2 ^ 64 }
        requires part { self.old.before ≤ self.old.count }
        ensures before { OnOk result (self.new.before
            ≡ (if is_before slots line then self.old.before + 1 else self.old.before)) }
        ensures last { OnOk result (self.new.last
            ≡ (if is_before slots line then Some line else self.old.last)) }
        ensures within { OnOk result (self.new.within.items
            ≡ (if is_within slots line then self.old.within.items ++ line ∷ []
            else self.old.within.items)) }
        ensures end { OnOk result (self.new.end ≡ line.time) }
        ensures count { OnOk result (self.new.count ≡ self.old.count + 1) }
        ensures few { length self.old.within.items ≤ LINE_LIMIT
            → OnOk result (length self.new.within.items ≤ LINE_LIMIT) }
        ensures many { result ≡ Err TooMany
            → (is_within slots line ≡ true) × (LINE_LIMIT ≤ length self.old.within.items) }
        ensures no_other { (n : ℕ) → result ≢ Err (NoLine n) }
        ensures in_range { (n : ℕ) → result ≢ Err (NoSlot n) }
    {
        self.count += 1;
        self.end = line.time;
        if slots.is_before(&line) {
            self.before += 1;
            self.last = Some(line);
            return Ok(());
        }
        if slots.is_within(&line) {
            push_within(&mut self.within, line)?;
        }
        Ok(())
    }
}

/// Appends a line, where there are not too many.
fn push_within(within: &mut Vec<TraceLine>, line: TraceLine) -> Result<(), TraceFault>
    ensures within { OnOk result (within.new.items ≡ within.old.items ++ line ∷ []) }
    ensures few { OnOk result (length within.new.items ≤ LINE_LIMIT) }
    ensures many { result ≡ Err TooMany → LINE_LIMIT ≤ length within.old.items }
    ensures no_other { (n : ℕ) → result ≢ Err (NoLine n) }
    ensures in_range { (n : ℕ) → result ≢ Err (NoSlot n) }
{
    if within.len() >= LINE_LIMIT {
        return Err(TraceFault::TooMany);
    }
    within.push(line)?;
    Ok(())
}
