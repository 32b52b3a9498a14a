//! The texts of entries and keys.

ghost use Rattle.std.specs.Prelude.{◌≡◌, ◌≢◌, ◌≤◌, ◌+◌, [], ◌++◌, ◌∷◌, true, drop, length, decimal};
ghost use Rattle.slot_core.specs.Runs.Arrivals.{key_in_set, what_in_set};
ghost use Rattle.slot_core.specs.Output.Texts.{entry_line, key_text, shown_text, spans_text, what_text};
ghost use Rattle.slot_core.specs.Runs.ShownSpans.{others_of};
ghost use Rattle.slot_core.specs.declared.events.What.{What};
ghost use Rattle.trace_text.specs.declared.TheConstants.{DECIMAL_LIMIT, KEY_LIMIT, LINE_LIMIT, SPAN_LIMIT, SPANS_LIMIT, WORDS_LIMIT};

use crate::extents::{Anew, SpanWriter};
use crate::keys::push_key;
use crate::line::Line;
use crate::spans::push_shown;
use crate::words::push_what;
use slot_core::{Entry, Key, Shown, TaskSet, What};

/// The line of an entry, with its line feed. What it names lies in the task set.
pub fn entry_line(entry: &Entry, tasks: &TaskSet) -> Line
    requires named { what_in_set tasks.now entry.now.what ≡ true }
    ensures { result ≡ entry_line tasks.now entry.now }
{
    let mut line = Line::new();
    push_head(&mut line, entry, tasks);
    push_tail(&mut line, &mut Anew, entry.what, &entry.shown);
    line
}

/// Writes what stands before the spans of an entry into an empty line: its time and its words.
#[inline(always)]
pub(crate) fn push_head(line: &mut Line, entry: &Entry, tasks: &TaskSet)
    requires empty { line.old ≡ [] }
    requires named { what_in_set tasks.now entry.now.what ≡ true }
    ensures text { line.new ≡ decimal entry.now.time ++ 32 ∷ what_text tasks.now entry.now.what }
    ensures short { length line.new ≤ DECIMAL_LIMIT + 1 + WORDS_LIMIT }
{
    line.number(entry.time);
    line.push(b" ");
    push_what(line, &entry.what, tasks);
}

/// Appends what stands after the words of an entry: nothing at the end, else the spans, and a line
/// feed. Returns where the spans after the first begin.
#[inline(always)]
pub(crate) fn push_tail<W: SpanWriter>(
    line: &mut Line,
    writer: &mut W,
    what: What,
    shown: &Shown,
) -> usize
    requires { length line.old + SPANS_LIMIT + 1 ≤ LINE_LIMIT }
    ensures text { line.new ≡ line.old ++ spans_text what shown.now ++ 10 ∷ [] }
    ensures others { what ≢ What.End
        → drop result line.new ≡ shown_text (others_of shown.now) ++ 10 ∷ [] }
    ensures inside { length line.old ≤ result }
    ensures room { what ≢ What.End
        → length line.new + 2 + SPAN_LIMIT ≤ result + SPANS_LIMIT + 1 }
    ensures short { length line.new ≤ length line.old + SPANS_LIMIT + 1 }
{
    let mut others = line.bytes().len();
    if what != What::End {
        others = push_shown(line, writer, shown);
    }
    line.push(b"\n");
    others
}

/// The text of a key, whose graph, task or sporadic task lies in the task set.
pub fn key_text(key: Key, tasks: &TaskSet) -> Line
    requires { key_in_set tasks.now key ≡ true }
    ensures text { result ≡ key_text tasks.now key }
    ensures short { length result ≤ KEY_LIMIT }
{
    let mut line = Line::new();
    push_key(&mut line, &key, tasks);
    line
}
