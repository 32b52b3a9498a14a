//! The rows of arrivals with times.

ghost use Rattle.std.specs.Prelude.{◌≡◌, ◌<◌, ◌++◌, ◌∷◌, Ok, Err, OnOk, MatchResult, codes, decimal};
ghost use Rattle.arrival_csv.specs.Kinds.{kind_word};
ghost use Rattle.timed_arrivals.specs.Rows.{event_of, event_text, firm_of, head_of, row_text, time_in, HeadParts};

use crate::rounding::{slots_within, up};
use crate::timed_fault::TimedFault;
use arrival_csv::Kind;
use itoa::Buffer;
use key_texts::cut_at;
use slot_core::Memory;
use time_texts::time_of;

/// The front of a row.
#[derive(Clone, Copy)]
pub(crate) struct RowHead<'a> {
    /// When it comes, in nanoseconds.
    pub(crate) at: u64,
    /// What comes.
    pub(crate) kind: Kind,
    /// The fields after the second, with the commas between them.
    pub(crate) fields: &'a [u8],
}

/// What stands in slots for the fields after the second.
#[derive(Clone, Copy, PartialEq, Eq)]
pub enum SlotEvent {
    /// Soft work of so many slots.
    Slots(u64),
    /// A firm request for so many slots, within so many.
    Offer(u64, u64),
    /// The fields as they are.
    Copied,
}

/// The time in a field.
fn time_in(row: u32, field: u8, text: &[u8]) -> Result<u64, TimedFault>
    ensures { result ≡ time_in row field text.now }
{
    time_of(text).ok_or(TimedFault::BadTime(row, field))
}

/// The front of the row of this number.
pub(crate) fn head_of(row: u32, line: &[u8]) -> Result<RowHead<'_>, TimedFault>
    ensures { MatchResult result
        (λ head. head_of row line.now
        ≡ Ok (record { at = head.at; kind = head.kind; fields = head.fields.now }))
        (λ e. head_of row line.now ≡ Err e) }
{
    let Some((time, rest)) = cut_at(line, b',') else {
        return Err(TimedFault::BadRow(row));
    };
    let at = time_in(row, 1, time)?;
    let Some((word, fields)) = cut_at(rest, b',') else {
        return Err(TimedFault::BadRow(row));
    };
    let Some(kind) = Kind::of(word) else {
        return Err(TimedFault::UnknownKind(row));
    };
    Ok(RowHead { at, kind, fields })
}

/// What stands for the fields of the row of this number, in slots of this length and worth.
pub(crate) fn event_of(
    slot: u64,
    worth: u64,
    row: u32,
    at: u64,
    kind: Kind,
    fields: &[u8],
) -> Result<SlotEvent, TimedFault>
    requires slot { 0 < slot }
    requires worth { 0 < worth }
    ensures { result ≡ event_of slot worth row at kind fields.now }
{
    match kind {
        Kind::Soft => {
            let wcet = time_in(row, 3, fields)?;
            Ok(SlotEvent::Slots(up(worth, wcet)))
        }
        Kind::Firm => firm_of(slot, worth, row, at, fields),
        Kind::Sporadic | Kind::Done | Kind::Withdraw => Ok(SlotEvent::Copied),
    }
}

/// A firm request of these fields.
fn firm_of(slot: u64, worth: u64, row: u32, at: u64, fields: &[u8]) -> Result<SlotEvent, TimedFault>
    requires slot { 0 < slot }
    requires worth { 0 < worth }
    ensures { result ≡ firm_of slot worth row at fields.now }
{
    let Some((first, second)) = cut_at(fields, b',') else {
        return Err(TimedFault::BadRow(row));
    };
    let wcet = time_in(row, 3, first)?;
    let deadline = time_in(row, 4, second)?;
    let within = slots_within(slot, at, deadline);
    Ok(SlotEvent::Offer(up(worth, wcet), within))
}

/// Appends the bytes.
fn push(text: &mut Vec<u8>, bytes: &[u8]) -> Result<(), Memory>
    ensures { OnOk result (text.new.items ≡ text.old.items ++ bytes.now) }
{
    text.extend_from_slice(bytes)?;
    Ok(())
}

/// Appends the number.
fn push_number(text: &mut Vec<u8>, number: u64) -> Result<(), Memory>
    ensures { OnOk result (text.new.items ≡ text.old.items ++ decimal number) }
{
    let mut buffer = Buffer::new();
    push(text, buffer.format(number).as_bytes())
}

/// The word of the kind.
fn kind_word(kind: Kind) -> &'static [u8]
    ensures { result.now ≡ kind_word kind }
{
    match kind {
        Kind::Soft => b"soft",
        Kind::Firm => b"firm",
        Kind::Sporadic => b"sporadic",
        Kind::Done => b"done",
        Kind::Withdraw => b"withdraw",
    }
}

/// Appends the row of an arrivals file.
pub(crate) fn push_row(
    text: &mut Vec<u8>,
    at: u64,
    kind: Kind,
    event: SlotEvent,
    fields: &[u8],
) -> Result<(), Memory>
    ensures { OnOk result
        (text.new.items ≡ text.old.items ++ row_text at kind event fields.now) }
{
    push_number(text, at)?;
    push(text, b",")?;
    push(text, kind_word(kind))?;
    push(text, b",")?;
    push_event(text, event, fields)?;
    push(text, b"\n")
}

/// Appends what stands for the fields.
fn push_event(text: &mut Vec<u8>, event: SlotEvent, fields: &[u8]) -> Result<(), Memory>
    ensures { OnOk result (text.new.items ≡ text.old.items ++ event_text event fields.now) }
{
    match event {
        SlotEvent::Slots(slots) => push_number(text, slots),
        SlotEvent::Offer(slots, within) => push_offer(text, slots, within),
        SlotEvent::Copied => push(text, fields),
    }
}

/// Appends the slots of a firm request.
fn push_offer(text: &mut Vec<u8>, slots: u64, within: u64) -> Result<(), Memory>
    ensures { OnOk result
        (text.new.items ≡ text.old.items ++ (decimal slots ++ codes "," ++ decimal within)) }
{
    push_number(text, slots)?;
    push(text, b",")?;
    push_number(text, within)
}
