//! The spans of a line.

ghost use Rattle.std.specs.Prelude.{◌≡◌, [], option_map};
ghost use Rattle.slot_core.specs.declared.TheConstants.{SHOWN_LIMIT};
ghost use Rattle.trace_lines.specs.Readings.{after_space, before_space, shown_and_more, signed_number, span_of, spans_within};

use crate::line::{ShownSpan, SpanList};
use key_texts::{cut_at, number_between, number_of};
use slot_core::{NUMBER_LIMIT, SHOWN_LIMIT};

/// The number with its sign: a `-` stands before one below 0.
fn signed_number(text: &[u8]) -> Option<i64>
    ensures { result ≡ signed_number text.now }
{
    match text {
        [b'-', digits @ ..] => number_between(digits, 1, NUMBER_LIMIT).map(|n| -i64::from(n)),
        _ => number_of(text).map(i64::from),
    }
}

/// One span: `START-END:SPARE`.
fn span_of(text: &[u8]) -> Option<ShownSpan>
    ensures { result ≡ span_of text.now }
{
    let (ends, spare) = cut_at(text, b':')?;
    let (start, end) = cut_at(ends, b'-')?;
    let start = number_of(start)?;
    let end = number_of(end)?;
    let spare = signed_number(spare)?;
    Some(ShownSpan { start, end, spare })
}

/// The spans of the text, of which there are 1 to `SHOWN_LIMIT`, with one space between two.
pub(crate) fn span_list(text: &[u8]) -> Option<SpanList>
    ensures { result ≡ spans_within SHOWN_LIMIT text.now }
{
    let mut spans = SpanList::new();
    push_spans(&mut spans, text)?;
    Some(spans)
}

/// Appends the spans of the text.
fn push_spans(spans: &mut SpanList, text: &[u8]) -> Option<()>
    requires { spans.old ≡ [] }
    ensures { option_map (λ _. spans.new) result ≡ spans_within SHOWN_LIMIT text.now }
{
    let mut rest = text;
    for _ in 0..SHOWN_LIMIT {
        match cut_at(rest, b' ') {
            Some((span, after)) => {
                spans.push(span_of(span)?);
                rest = after;
            }
            None => {
                spans.push(span_of(rest)?);
                return Some(());
            }
        }
    }
    None
}

/// The text of the spans that are shown, and the number of the others, which stands after them as
/// ` +N` where there are any.
pub(crate) fn shown_and_more(text: &[u8]) -> Option<(&[u8], u32)>
    ensures { option_map (λ parts. (parts.0.now, parts.1)) result ≡ shown_and_more text.now }
{
    match cut_at(text, b'+') {
        Some((spans, digits)) => {
            let more = number_between(digits, 1, NUMBER_LIMIT)?;
            Some((before_space(spans)?, more))
        }
        None => Some((text, 0)),
    }
}

/// What stands before the space at the end of the text.
pub(crate) fn before_space(text: &[u8]) -> Option<&[u8]>
    ensures { option_map (λ front. front.now) result ≡ before_space text.now }
{
    text.strip_suffix(b" ")
}

/// What stands after the space at the front of the text.
pub(crate) fn after_space(text: &[u8]) -> Option<&[u8]>
    ensures { option_map (λ rest. rest.now) result ≡ after_space text.now }
{
    match text {
        [b' ', rest @ ..] => Some(rest),
        _ => None,
    }
}
