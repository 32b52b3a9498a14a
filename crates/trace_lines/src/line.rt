//! What a line of a trace says, with the names that stand in it. Times and lengths are in slots.

ghost use Rattle.std.specs.Prelude.{◌≡◌, ◌<◌, ◌≤◌, [], ◌∷◌, ◌++◌, length};
ghost use Rattle.slot_core.specs.declared.TheConstants.{SHOWN_LIMIT};
ghost use Rattle.trace_lines.specs.Capacities.{first_spare, least_from, least_spare};

use arrayvec::ArrayVec;
use slot_core::{Done, Firm, Gone, Name, SHOWN_LIMIT, Soft, Spo};
use std::marker::Model;

/// The name of a job, by the names of its graph and tasks.
#[derive(Drop)]
pub enum KeyName {
    /// Graph, task and instance of an offline job.
    Offline(Name, Name, u32),
    /// The sporadic task, and the row of the arrival.
    Sporadic(Name, u32),
    /// Row of the arrival of a firm job.
    Firm(u32),
    /// Row of the arrival of a soft job.
    Soft(u32),
}

/// What a line tells. The first number of an arrival is its row, then stands what arrived, then the
/// answer.
#[derive(Drop)]
pub enum Words {
    Start,
    /// Slots.
    Soft(u32, u32, Soft),
    /// Slots, and within how many slots from now.
    Firm(u32, u32, u32, Firm),
    /// The sporadic task.
    Sporadic(u32, Name, Spo),
    /// The job that has ended early.
    Done(u32, KeyName, Done),
    /// The row of the firm job that is taken back.
    Withdraw(u32, u32, Gone),
    Run(KeyName),
    Idle,
    End,
}

/// A span [start, end) as a line shows it.
#[derive(Clone, Copy, PartialEq, Eq, Default)]
pub struct ShownSpan {
    /// Its first slot.
    pub start: u32,
    /// The first slot after it.
    pub end: u32,
    /// Spare capacity in slots, below 0 where the span borrows from earlier ones.
    pub spare: i64,
}

/// At most `SHOWN_LIMIT` spans, which contracts see as a list. It takes no memory.
#[derive(Drop)]
pub struct SpanList {
    spans: ArrayVec<ShownSpan, SHOWN_LIMIT>,
}

impl Model for SpanList {
    ghost use Rattle.std.specs.Prelude.{List};
    ghost use Rattle.trace_lines.specs.declared.line.ShownSpan.{ShownSpan};

    ghost Value = { List ShownSpan };

    ghost view = { λ l. l.spans.items };
}

impl SpanList {
    /// No spans.
    pub fn new() -> SpanList
        ensures { result ≡ [] }
    {
        SpanList {
            spans: ArrayVec::new(),
        }
    }

    /// Appends a span.
    pub(crate) fn push(&mut self, span: ShownSpan)
        requires { length self.old < SHOWN_LIMIT }
        ensures { self.new ≡ self.old ++ span ∷ [] }
    {
        self.spans.push(span);
    }

    /// The spans, in order.
    pub fn items(&self) -> &[ShownSpan]
        ensures spans { result.now ≡ self.now }
        ensures few { length self.now ≤ SHOWN_LIMIT }
    {
        self.spans.as_slice()
    }
}

/// One line of a trace.
#[derive(Drop)]
pub struct TraceLine {
    /// The slot in which it happens.
    pub time: u32,
    /// What it tells.
    pub words: Words,
    /// The first spans after it: at least one, but for the end, which shows none.
    pub spans: SpanList,
    /// The number of the spans that are not shown.
    pub more: u32,
}

impl TraceLine {
    /// The spare capacity of the first span that the line shows, or 0 where it shows none.
    pub fn first_spare(&self) -> i64
        ensures { result ≡ first_spare self.now.spans }
    {
        match self.spans.items() {
            [] => 0,
            [first, ..] => first.spare,
        }
    }

    /// The least spare capacity of the spans that the line shows, or 0 where it shows none.
    pub fn least_spare(&self) -> i64
        ensures { result ≡ least_spare self.now.spans }
    {
        least_from(self.first_spare(), self.spans.items())
    }
}

/// The least of a capacity and those of the spans.
fn least_from(least: i64, spans: &[ShownSpan]) -> i64
    ensures { result ≡ least_from least spans.now }
{
    match spans {
        [] => least,
        [first, rest @ ..] => least_from(least.min(first.spare), rest),
    }
}
