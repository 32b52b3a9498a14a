//! One line of a trace.

ghost use Rattle.std.specs.Prelude.{◌≡◌, ◌↔◌, true, Some, option_map};
ghost use Rattle.trace_lines.specs.declared.line.TraceLine.{TraceLine};
ghost use Rattle.trace_lines.specs.Ranges.{line_fits};
ghost use Rattle.trace_lines.specs.Readings.{end_line, line_of, shown_line, told_and_shown};
ghost use Rattle.trace_lines.specs.Texts.{line_text};

use crate::line::{SpanList, TraceLine, Words};
use crate::spans::{after_space, before_space, shown_and_more, span_list};
use crate::words::words_of;
use key_texts::{cut_at, number_of};

/// The line that the bytes write, without its line feed.
pub fn line_of(bytes: &[u8]) -> Option<TraceLine>
    ensures reading { result ≡ line_of bytes.now }
    ensures exact { (line : TraceLine) → (result ≡ Some line)
        ↔ ((line_fits line ≡ true) × (bytes.now ≡ line_text line)) }
{
    read_line(bytes)
}

/// The line, read from its front.
#[tactic(auto, unfolding(crate::specs::Readings::line_of))]
fn read_line(bytes: &[u8]) -> Option<TraceLine>
    ensures { result ≡ line_of bytes.now }
{
    let (time, told) = cut_at(bytes, b' ')?;
    let time = number_of(time)?;
    match told {
        b"end" => Some(end_line(time)),
        _ => shown_line(time, told),
    }
}

/// The line of the end, which shows no spans.
pub(crate) fn end_line(time: u32) -> TraceLine
    ensures { result ≡ end_line time }
{
    TraceLine {
        time,
        words: Words::End,
        spans: SpanList::new(),
        more: 0,
    }
}

/// A line that shows spans.
fn shown_line(time: u32, told: &[u8]) -> Option<TraceLine>
    ensures { result ≡ shown_line time told.now }
{
    let (words, shown) = told_and_shown(told)?;
    let (spans, more) = shown_and_more(shown)?;
    let words = words_of(words)?;
    let spans = span_list(spans)?;
    Some(TraceLine {
        time,
        words,
        spans,
        more,
    })
}

/// What stands before ` | ` and what stands after it.
fn told_and_shown(told: &[u8]) -> Option<(&[u8], &[u8])>
    ensures { option_map (λ parts. (parts.0.now, parts.1.now)) result ≡ told_and_shown told.now }
{
    let (words, shown) = cut_at(told, b'|')?;
    Some((before_space(words)?, after_space(shown)?))
}
