//! The answers to arrivals, as a line writes them.

ghost use Rattle.std.specs.Prelude.{◌≡◌};
ghost use Rattle.std.specs.Str.{bytes_eq};
ghost use Rattle.trace_lines.specs.Readings.{done_answer, firm_answer, gone_answer, no_room, number_after, soft_answer, sporadic_answer};

use key_texts::{cut_at, number_of};
use slot_core::{Done, Evidence, Firm, Gone, Soft, Spo};

/// Whether the text is this word.
pub(crate) fn is_word(text: &[u8], word: &[u8]) -> bool
    ensures { result ≡ bytes_eq text.now word.now }
{
    text == word
}

/// The number that stands after the word and a space.
fn number_after(word: &[u8], text: &[u8]) -> Option<u32>
    ensures { result ≡ number_after word.now text.now }
{
    let (front, digits) = cut_at(text, b' ')?;
    if is_word(front, word) {
        number_of(digits)
    } else {
        None
    }
}

/// The answer to soft work.
pub(crate) fn soft_answer(text: &[u8]) -> Option<Soft>
    ensures { result ≡ soft_answer text.now }
{
    if is_word(text, b"taken") {
        return Some(Soft::Taken);
    }
    number_after(b"full", text).map(Soft::Full)
}

/// The answer to a firm task.
pub(crate) fn firm_answer(text: &[u8]) -> Option<Firm>
    ensures { result ≡ firm_answer text.now }
{
    if is_word(text, b"accepted") {
        return Some(Firm::Accepted);
    }
    match text {
        b"late" => Some(Firm::Late),
        b"far" => Some(Firm::Far),
        _ => no_room(text),
    }
}

/// A refusal for want of room.
fn no_room(text: &[u8]) -> Option<Firm>
    ensures { result ≡ no_room text.now }
{
    let (word, numbers) = cut_at(text, b' ')?;
    let (until, rest) = cut_at(numbers, b' ')?;
    let (need, room) = cut_at(rest, b' ')?;
    let until = u64::from(number_of(until)?);
    let need = u64::from(number_of(need)?);
    let room = u64::from(number_of(room)?);
    match word {
        b"noroom" => Some(Firm::NoRoom(Evidence { until, need, room })),
        _ => None,
    }
}

/// The answer to a sporadic arrival.
pub(crate) fn sporadic_answer(text: &[u8]) -> Option<Spo>
    ensures { result ≡ sporadic_answer text.now }
{
    let (word, digits) = cut_at(text, b' ')?;
    let time = u64::from(number_of(digits)?);
    match word {
        b"taken" => Some(Spo::Taken(time)),
        b"soon" => Some(Spo::Soon(time)),
        _ => None,
    }
}

/// The answer to an early end.
pub(crate) fn done_answer(text: &[u8]) -> Option<Done>
    ensures { result ≡ done_answer text.now }
{
    if is_word(text, b"notrunning") {
        return Some(Done::NotRunning);
    }
    number_after(b"freed", text).map(Done::Freed)
}

/// The answer to a withdrawal.
pub(crate) fn gone_answer(text: &[u8]) -> Option<Gone>
    ensures { result ≡ gone_answer text.now }
{
    if is_word(text, b"nojob") {
        return Some(Gone::NoJob);
    }
    number_after(b"freed", text).map(Gone::Freed)
}
