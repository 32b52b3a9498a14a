//! A taker that writes lines.

ghost use Rattle.std.specs.Prelude.{◌≡◌, ◌≢◌, ◌≤◌, ◌+◌, [], ◌∷◌, ◌++◌, codes, length, true, OnErr, OnOk};
ghost use Rattle.std.specs.Io.KnownBytes.{Appends};
ghost use Rattle.slot_core.specs.Calls.Counts.{Rose};
ghost use Rattle.slot_core.specs.Output.Texts.{entry_line, shown_text};
ghost use Rattle.slot_core.specs.Runs.ShownSpans.{ShownSpans, others_of};
ghost use Rattle.slot_core.specs.declared.events.What.{What};
ghost use Rattle.slot_core.specs.Runs.Arrivals.{what_in_set};
ghost use Rattle.trace_text.specs.Takers.{AppendsBroken, EndsIn, TellsSpans, kept_line};
ghost use Rattle.trace_text.specs.declared.TheConstants.{SPAN_LIMIT, SPANS_LIMIT};

use crate::entries::{push_head, push_tail};
use crate::extents::Cells;
use crate::line::Line;
use crate::spans::push_to_first;
use crate::teller::Teller;
use slot_core::{Entry, Failed, Taker, TaskSet};
use slot_io::Sink;

/// Hands the line of each entry to a sink, in one put. It takes no memory.
#[derive(Drop)]
pub struct TextTaker<'s, K: Sink> {
    out: &'s mut K,
    /// Two lines, in turns: the one with spans of which the text is kept, and the one that is
    /// written next, into which it is copied.
    even: Line,
    odd: Line,
    /// Whether the one that is kept is the odd one.
    turned: bool,
    /// Where the spans of that line begin.
    tail: usize,
    /// Where those after the first begin.
    others: usize,
    /// Texts that stay from line to line.
    cells: Cells,
}

impl<'s, K: Sink> TextTaker<'s, K> {
    /// A taker over this sink.
    pub fn over(out: &'s mut K) -> TextTaker<'s, K>
        ensures same { result.out.ghost_name ≡ out.entry.ghost_name }
        ensures sink { result.out.now ≡ out.entry.now }
    {
        TextTaker {
            out,
            even: Line::new(),
            odd: Line::new(),
            turned: false,
            tail: 0,
            others: 0,
            cells: Cells::new(),
        }
    }

    /// Takes an entry, and keeps the text of its spans.
    fn put_new(&mut self, entry: &Entry, tasks: &TaskSet) -> Result<(), Failed>
        requires { what_in_set tasks.now entry.now.what ≡ true }
        ensures same { self.new.out.ghost_name ≡ self.old.out.ghost_name }
        ensures put { OnOk result (Appends
            (K.written self.old.out.now)
            (K.written self.new.out.now)
            (entry_line tasks.now entry.now)) }
        ensures part { OnErr result (AppendsBroken
            (K.written self.old.out.now)
            (K.written self.new.out.now)
            tasks.now
            (entry.now ∷ [])) }
        ensures counted { K.faults self.old.out.now ≤ K.faults self.new.out.now }
        ensures failed { OnErr result (Rose
            (K.faults self.old.out.now)
            (K.faults self.new.out.now)) }
        ensures kept { entry.now.what ≢ What.End → TellsSpans
            (kept_line self.new.turned self.new.even self.new.odd)
            self.new.tail
            self.new.others
            entry.now.shown }
    {
        self.turned = false;
        self.even.clear();
        push_head(&mut self.even, entry, tasks);
        self.tail = self.even.bytes().len();
        self.others = push_tail(&mut self.even, &mut self.cells, entry.what, &entry.shown);
        self.out.put(self.even.bytes())
    }
}

/// Where the spans of a line begin, and those after the first.
#[derive(Clone, Copy)]
struct SpanPlaces {
    tail: usize,
    others: usize,
}

/// The line becomes that of the entry, of which the spans after the first stand in the kept line
/// from this place on.
#[inline(always)]
fn push_line_with(
    line: &mut Line,
    cells: &mut Cells,
    entry: &Entry,
    tasks: &TaskSet,
    kept: &Line,
    others: usize,
) -> SpanPlaces
    requires named { what_in_set tasks.now entry.now.what ≡ true }
    requires some { entry.now.what ≢ What.End }
    requires kept { EndsIn kept.now others (shown_text (others_of entry.now.shown)) }
    requires room { length kept.now + 2 + SPAN_LIMIT ≤ others + SPANS_LIMIT + 1 }
    ensures line { line.new ≡ entry_line tasks.now entry.now }
    ensures tells { TellsSpans line.new result.tail result.others entry.now.shown }
{
    line.clear();
    push_head(line, entry, tasks);
    let tail = line.bytes().len();
    push_to_first(line, cells, &entry.shown);
    let after_first = line.bytes().len();
    line.push_from(kept, others);
    SpanPlaces {
        tail,
        others: after_first,
    }
}

/// The line becomes that of the entry, of which the spans stand in the kept line from this place
/// on.
#[inline(always)]
fn push_line_again(line: &mut Line, entry: &Entry, tasks: &TaskSet, kept: &Line, tail: usize)
    requires named { what_in_set tasks.now entry.now.what ≡ true }
    requires some { entry.now.what ≢ What.End }
    requires kept { EndsIn kept.now tail (codes " |" ++ shown_text entry.now.shown) }
    ensures { line.new ≡ entry_line tasks.now entry.now }
{
    line.clear();
    push_head(line, entry, tasks);
    line.push_from(kept, tail);
}

impl<'s, K: Sink> Taker for TextTaker<'s, K> {
    ghost use Rattle.std.specs.Prelude.{refl};
    ghost use Rattle.std.proofs.Common.{◌∙◌};
    ghost use Rattle.std.proofs.KnownBytes.{Appends-nil};
    ghost use Rattle.std.specs.Io.KnownBytes.{Appends};
    ghost use Rattle.slot_core.specs.Output.Texts.{trace_text};
    ghost use Rattle.trace_text.specs.TakerLaws.{broken-later, broken-some, text-more};
    ghost use Rattle.trace_text.specs.Takers.{AppendsBroken};

    ghost faults = { λ t. K.faults t.out.now };

    // Both have the same sink, whose bytes, where they are told, grow by the lines.
    ghost took = { λ set a b entries.
        (b.out.ghost_name ≡ a.out.ghost_name)
        × Appends (K.written a.out.now) (K.written b.out.now) (trace_text set entries) };

    // And here by the lines before the last one, and a part of that one from its front.
    ghost broke = { λ set a b entries.
        (b.out.ghost_name ≡ a.out.ghost_name)
        × AppendsBroken (K.written a.out.now) (K.written b.out.now) set entries };

    fn take(&mut self, entry: &Entry, tasks: &TaskSet) -> Result<(), Failed> {
        self.put_new(entry, tasks)
    }

    ghost broke_some = { λ set a b broken.
        broken-some (K.written a.out.now) (K.written b.out.now) set broken.1 };

    ghost took_none = { λ set a. (refl, Appends-nil (K.written a.out.now)) };

    ghost took_more = { λ set a b c es fs first then_. (
      then_.0 ∙ first.0,
      text-more
          (K.written a.out.now)
          (K.written b.out.now)
          (K.written c.out.now)
          set
          es
          fs
          first.1
          then_.1,
    ) };

    ghost broke_later = { λ set a b c es fs first then_. (
      then_.0 ∙ first.0,
      broken-later
          (K.written a.out.now)
          (K.written b.out.now)
          (K.written c.out.now)
          set
          es
          fs
          first.1
          then_.1,
    ) };
}

impl<'s, K: Sink> Teller for TextTaker<'s, K> {
    ghost use Rattle.trace_text.specs.Takers.{TellsSpans, kept_line};

    ghost keeps = { λ t shown. TellsSpans (kept_line t.turned t.even t.odd) t.tail t.others shown };

    fn take_new(&mut self, entry: &Entry, tasks: &TaskSet) -> Result<(), Failed> {
        self.put_new(entry, tasks)
    }

    // The text of the spans after the first is kept, and copied.
    fn take_others(&mut self, entry: &Entry, tasks: &TaskSet) -> Result<(), Failed> {
        if self.turned {
            let places = push_line_with(
                &mut self.even,
                &mut self.cells,
                entry,
                tasks,
                &self.odd,
                self.others,
            );
            self.turned = false;
            self.tail = places.tail;
            self.others = places.others;
            self.out.put(self.even.bytes())
        } else {
            let places = push_line_with(
                &mut self.odd,
                &mut self.cells,
                entry,
                tasks,
                &self.even,
                self.others,
            );
            self.turned = true;
            self.tail = places.tail;
            self.others = places.others;
            self.out.put(self.odd.bytes())
        }
    }

    // The text of all spans is kept, and copied.
    fn take_again(&mut self, entry: &Entry, tasks: &TaskSet) -> Result<(), Failed> {
        if self.turned {
            push_line_again(&mut self.even, entry, tasks, &self.odd, self.tail);
            self.out.put(self.even.bytes())
        } else {
            push_line_again(&mut self.odd, entry, tasks, &self.even, self.tail);
            self.out.put(self.odd.bytes())
        }
    }
}
