//! Spans at the end of a line.

ghost use Rattle.std.specs.Prelude.{◌≡◌, ◌≤◌, ◌<◌, ◌+◌, ◌-◌, ◌*◌, drop, length, codes, ◌++◌, ◌∷◌, flat_map};
ghost use Rattle.slot_core.specs.declared.TheConstants.{SHOWN_LIMIT};
ghost use Rattle.slot_core.specs.declared.jobs.Span.{Span};
ghost use Rattle.slot_core.specs.Output.Texts.{span_text, shown_text};
ghost use Rattle.slot_core.specs.Runs.ShownSpans.{others_of};
ghost use Rattle.trace_text.specs.declared.TheConstants.{DECIMAL_LIMIT, LINE_LIMIT, SPAN_LIMIT, SPANS_LIMIT};

use crate::extents::SpanWriter;
use crate::line::Line;
use slot_core::{Shown, Span};

/// Appends a space and the span to a line of this length. Returns its length afterwards.
fn push_span<W: SpanWriter>(line: &mut Line, len: usize, writer: &mut W, span: &Span) -> usize
    requires length { len ≡ length line.old }
    requires room { length line.old + SPAN_LIMIT ≤ LINE_LIMIT }
    ensures text { line.new ≡ line.old ++ 32 ∷ span_text span.now }
    ensures length { result ≡ length line.new }
    ensures short { length line.new ≤ length line.old + SPAN_LIMIT }
{
    writer.push_span(line, len, span)
}

/// Appends a space and the first span.
#[inline(always)]
fn push_first<W: SpanWriter>(line: &mut Line, writer: &mut W, span: &Span)
    requires { length line.old + SPAN_LIMIT ≤ LINE_LIMIT }
    ensures text { line.new ≡ line.old ++ 32 ∷ span_text span.now }
    ensures short { length line.new ≤ length line.old + SPAN_LIMIT }
{
    writer.push_first(line, span);
}

/// Appends the spans after the first, a space before each.
#[inline(always)]
fn push_others<W: SpanWriter>(line: &mut Line, writer: &mut W, spans: &[Span])
    requires few { length spans.now < SHOWN_LIMIT }
    requires room { length line.old + (SHOWN_LIMIT - 1) * SPAN_LIMIT ≤ LINE_LIMIT }
    ensures text { line.new ≡ line.old ++ flat_map (λ (s : Span). 32 ∷ span_text s) spans.now }
    ensures short { length line.new ≤ length line.old + (SHOWN_LIMIT - 1) * SPAN_LIMIT }
{
    let mut len = line.bytes().len();
    for span in spans {
        len = push_span(line, len, writer, span);
    }
}

/// Appends a bar, the spans that an entry shows, and how many more there are. Returns where those
/// after the first begin.
pub(crate) fn push_shown<W: SpanWriter>(line: &mut Line, writer: &mut W, shown: &Shown) -> usize
    requires { length line.old + SPANS_LIMIT ≤ LINE_LIMIT }
    ensures text { line.new ≡ line.old ++ codes " |" ++ shown_text shown.now }
    ensures others { drop result line.new ≡ shown_text (others_of shown.now) }
    ensures after { length line.old ≤ result }
    ensures inside { result ≤ length line.new }
    ensures room { length line.new + 2 + SPAN_LIMIT ≤ result + SPANS_LIMIT }
    ensures short { length line.new ≤ length line.old + SPANS_LIMIT }
{
    push_to_first(line, writer, shown);
    let others = line.bytes().len();
    push_after_first(line, writer, shown);
    others
}

/// Appends a bar and the first span, where there is one.
#[inline(always)]
pub(crate) fn push_to_first<W: SpanWriter>(line: &mut Line, writer: &mut W, shown: &Shown)
    requires { length line.old + 2 + SPAN_LIMIT ≤ LINE_LIMIT }
    ensures text { line.new ++ shown_text (others_of shown.now)
        ≡ line.old ++ codes " |" ++ shown_text shown.now }
    ensures short { length line.new ≤ length line.old + 2 + SPAN_LIMIT }
    ensures after { length line.old ≤ length line.new }
{
    line.push(b" |");
    if let Some(first) = shown.spans().first() {
        push_first(line, writer, first);
    }
}

/// Appends the spans after the first, and how many more there are.
#[inline(always)]
fn push_after_first<W: SpanWriter>(line: &mut Line, writer: &mut W, shown: &Shown)
    requires { length line.old + (SHOWN_LIMIT - 1) * SPAN_LIMIT + 2 + DECIMAL_LIMIT ≤ LINE_LIMIT }
    ensures text { line.new ≡ line.old ++ shown_text (others_of shown.now) }
    ensures short { length line.new
        ≤ length line.old + (SHOWN_LIMIT - 1) * SPAN_LIMIT + 2 + DECIMAL_LIMIT }
{
    if let Some((_first, others)) = shown.spans().split_first() {
        push_others(line, writer, others);
    }
    let more = shown.more();
    if more > 0 {
        line.push(b" +");
        writer.push_more(line, more);
    }
}
