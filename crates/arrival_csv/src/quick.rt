//! The rows of a text that are well-formed, read in one pass.

ghost use Rattle.std.specs.Prelude.{◌≡◌, ◌≤◌, true, IfSome, length};
ghost use Rattle.slot_core.specs.declared.tasks.TaskSet.{TaskSet};
ghost use Rattle.slot_core.specs.Sets.Ranges.{is_sound};
ghost use Rattle.arrival_csv.specs.declared.kinds.Kind.TheVariants.{Soft, Firm, Sporadic, Done, Withdraw};
ghost use Rattle.arrival_csv.specs.Quick.{AreDigitsAt, EndsRow, GoesOn, IsKindAt, IsNumberAt, StartsWithEvent, StartsWithRow};

use crate::kinds::Kind;
use crate::plain::last_field;
use key_texts::{DIGIT_LIMIT, key_of, sporadic_named};
use slot_core::{ARRIVAL_LIMIT, Event, NUMBER_LIMIT, OFFER_LIMIT, TaskSet};

/// A row, and what is after it.
#[derive(Clone, Copy)]
pub(crate) struct QuickRow<'a> {
    /// The slot that the row writes.
    pub(crate) slot: u32,
    /// The event that it writes.
    pub(crate) event: Event,
    /// The bytes after the row.
    pub(crate) rest: &'a [u8],
}

/// An event of a row, and what is after the row.
#[derive(Clone, Copy)]
struct QuickEvent<'a> {
    /// The event that the row writes.
    event: Event,
    /// The bytes after the row.
    rest: &'a [u8],
}

/// A number in a text.
#[derive(Clone, Copy)]
struct NumberAt {
    /// The number.
    value: u32,
    /// The place after its last digit.
    end: usize,
}

/// Digits in a text.
#[derive(Clone, Copy)]
struct DigitsAt {
    /// The number that they write.
    value: u64,
    /// The place after the last of them.
    end: usize,
}

/// The row at the start of the text, where it is well-formed.
pub(crate) fn quick_row<'a>(tasks: &TaskSet, text: &'a [u8]) -> Option<QuickRow<'a>>
    requires { is_sound tasks.now ≡ true }
    ensures { IfSome result (λ row.
        StartsWithRow tasks.now text.now row.slot row.event row.rest.now) }
{
    let slot = number_at(text, 0, 0, NUMBER_LIMIT)?;
    let (kind, start) = kind_at(text, after_comma(text, slot.end)?)?;
    let told = quick_event(tasks, kind, text, start)?;
    Some(QuickRow {
        slot: slot.value,
        event: told.event,
        rest: told.rest,
    })
}

/// The event of a row of this kind, whose third field starts at this place of the text.
fn quick_event<'a>(
    tasks: &TaskSet,
    kind: Kind,
    text: &'a [u8],
    start: usize,
) -> Option<QuickEvent<'a>>
    requires sound { is_sound tasks.now ≡ true }
    requires within { start ≤ length text.now }
    ensures { IfSome result (λ told.
        StartsWithEvent tasks.now kind text.now start told.event told.rest.now) }
{
    match kind {
        Kind::Soft => quick_soft(text, start),
        Kind::Firm => quick_firm(text, start),
        Kind::Sporadic => quick_sporadic(tasks, text, start),
        Kind::Done => quick_done(tasks, text, start),
        Kind::Withdraw => quick_withdraw(text, start),
    }
}

/// Soft work, whose third field starts at this place of the text.
fn quick_soft(text: &[u8], start: usize) -> Option<QuickEvent<'_>>
    requires { start ≤ length text.now }
    ensures { (set : TaskSet) → IfSome result (λ told.
        StartsWithEvent set Soft text.now start told.event told.rest.now) }
{
    let slots = number_at(text, start, 1, OFFER_LIMIT)?;
    Some(QuickEvent {
        event: Event::Soft(slots.value),
        rest: after_row(text, slots.end)?,
    })
}

/// A firm task, whose third field starts at this place of the text.
fn quick_firm(text: &[u8], start: usize) -> Option<QuickEvent<'_>>
    requires { start ≤ length text.now }
    ensures { (set : TaskSet) → IfSome result (λ told.
        StartsWithEvent set Firm text.now start told.event told.rest.now) }
{
    let slots = number_at(text, start, 1, OFFER_LIMIT)?;
    let next = after_comma(text, slots.end)?;
    let within = number_at(text, next, 0, OFFER_LIMIT)?;
    Some(QuickEvent {
        event: Event::Firm(slots.value, within.value),
        rest: after_row(text, within.end)?,
    })
}

/// A withdrawal, whose third field starts at this place of the text.
fn quick_withdraw(text: &[u8], start: usize) -> Option<QuickEvent<'_>>
    requires { start ≤ length text.now }
    ensures { (set : TaskSet) → IfSome result (λ told.
        StartsWithEvent set Withdraw text.now start told.event told.rest.now) }
{
    let firm = number_at(text, start, 1, ARRIVAL_LIMIT)?;
    Some(QuickEvent {
        event: Event::Withdraw(firm.value),
        rest: after_row(text, firm.end)?,
    })
}

/// A job of a sporadic task, whose third field starts at this place of the text.
fn quick_sporadic<'a>(tasks: &TaskSet, text: &'a [u8], start: usize) -> Option<QuickEvent<'a>>
    requires sound { is_sound tasks.now ≡ true }
    requires within { start ≤ length text.now }
    ensures { IfSome result (λ told.
        StartsWithEvent tasks.now Sporadic text.now start told.event told.rest.now) }
{
    let (name, rest) = last_field(text, start)?;
    let index = sporadic_named(tasks.sporadics.items(), name)?;
    let event = Event::Sporadic(index as u8);
    Some(QuickEvent { event, rest })
}

/// The early end of a job, whose third field starts at this place of the text.
fn quick_done<'a>(tasks: &TaskSet, text: &'a [u8], start: usize) -> Option<QuickEvent<'a>>
    requires sound { is_sound tasks.now ≡ true }
    requires within { start ≤ length text.now }
    ensures { IfSome result (λ told.
        StartsWithEvent tasks.now Done text.now start told.event told.rest.now) }
{
    let (key, rest) = last_field(text, start)?;
    let event = Event::Done(key_of(tasks, key)?);
    Some(QuickEvent { event, rest })
}

/// The kind whose word is the field that starts at this place of the text, and the place after the
/// comma that ends the word.
#[inline(always)]
fn kind_at(text: &[u8], start: usize) -> Option<(Kind, usize)>
    requires { start ≤ length text.now }
    ensures { IfSome result (λ word. IsKindAt text.now start word.0 word.1) }
{
    match &text[start..] {
        [b's', b'o', b'f', b't', b',', ..] => Some((Kind::Soft, start + 5)),
        [b'f', b'i', b'r', b'm', b',', ..] => Some((Kind::Firm, start + 5)),
        [b's', b'p', b'o', b'r', b'a', b'd', b'i', b'c', b',', ..] => Some((
            Kind::Sporadic,
            start + 9,
        )),
        [b'd', b'o', b'n', b'e', b',', ..] => Some((Kind::Done, start + 5)),
        [b'w', b'i', b't', b'h', b'd', b'r', b'a', b'w', b',', ..] => Some((
            Kind::Withdraw,
            start + 9,
        )),
        _ => None,
    }
}

/// The number from `low` to `high` that starts at this place of the text.
#[inline(always)]
fn number_at(text: &[u8], start: usize, low: u32, high: u32) -> Option<NumberAt>
    requires { start ≤ length text.now }
    ensures { IfSome result (λ number.
        IsNumberAt text.now start low high number.value number.end) }
{
    let digits = digits_at(text, start);
    if digits.end == start || (digits.end > start + 1 && text[start] == b'0') {
        return None;
    }
    if digits.value < u64::from(low) || digits.value > u64::from(high) {
        return None;
    }
    Some(NumberAt {
        value: digits.value as u32,
        end: digits.end,
    })
}

/// The digits that start at this place of the text, up to the limit of digits.
#[inline(always)]
fn digits_at(text: &[u8], start: usize) -> DigitsAt
    requires { start ≤ length text.now }
    ensures { AreDigitsAt text.now start result.value result.end }
{
    let limit = text.len().min(start + DIGIT_LIMIT);
    let mut value = 0u64;
    let mut end = start;
    while end < limit && text[end].is_ascii_digit() {
        value = value * 10 + u64::from(text[end] - b'0');
        end += 1;
    }
    DigitsAt { value, end }
}

/// The place after a comma, where one stands at this place of the text.
#[inline(always)]
fn after_comma(text: &[u8], place: usize) -> Option<usize>
    ensures { IfSome result (λ next. GoesOn text.now place next) }
{
    if place >= text.len() || text[place] != b',' {
        return None;
    }
    Some(place + 1)
}

/// The bytes after the row, where it ends at this place of the text.
#[inline(always)]
fn after_row(text: &[u8], place: usize) -> Option<&[u8]>
    requires { place ≤ length text.now }
    ensures { IfSome result (λ rest. EndsRow text.now place rest.now) }
{
    if place == text.len() {
        return Some(&text[place..]);
    }
    if text[place] != b'\n' {
        return None;
    }
    Some(&text[place + 1..])
}
