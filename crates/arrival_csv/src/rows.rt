//! The rows of an arrivals file as arrivals.

ghost use Rattle.std.specs.Prelude.{List, ℕ, ◌≡◌, ◌≤◌, true, drop, Ok, Err, IfOk, MatchResult};
ghost use Rattle.slot_core.specs.Sets.Ranges.{is_sound};
ghost use Rattle.arrival_csv.specs.Quick.{arrival_in_turn};
ghost use Rattle.arrival_csv.specs.Rows.{IsRowOf};
ghost use Rattle.arrival_csv.specs.Reading.{arrival_of, done_of, event_of, firm_of, first_fields, one_field, slot_in_turn, slots_of, soft_of, sporadic_of, two_fields, withdraw_of};

use crate::ArrivalFault;
use crate::kinds::Kind;
use crate::row::Row;
use key_texts::{key_of, number_between, number_of, row_number, sporadic_named};
use slot_core::{ARRIVAL_LIMIT, Arrival, Event, OFFER_LIMIT, TaskSet};

/// The arrival of a row of these fields, where the row before has this slot.
pub(crate) fn arrival_of(
    tasks: &TaskSet,
    slots: u64,
    row: u32,
    before: u64,
    fields: &Row<'_>,
) -> Result<Arrival, ArrivalFault>
    requires { is_sound tasks.now ≡ true }
    ensures reading { (told : List (List ℕ)) → IsRowOf fields.now told
        → result ≡ arrival_of tasks.now slots row before told }
    ensures few { IfOk result (λ arrival. row ≤ ARRIVAL_LIMIT) }
{
    if row > ARRIVAL_LIMIT {
        return Err(ArrivalFault::TooMany);
    }
    let (slot, word) = first_fields(row, fields)?;
    let number = number_of(slot).ok_or(ArrivalFault::BadNumber(row, 1))?;
    let kind = Kind::of(word).ok_or(ArrivalFault::UnknownKind(row))?;
    let event = event_of(tasks, row, kind, fields)?;
    let slot = slot_in_turn(slots, row, before, u64::from(number))?;
    Ok(Arrival { row, slot, event })
}

/// The arrival of a row that writes this slot and event, after a row of the slot `before`.
#[inline(always)]
pub(crate) fn arrival_in_turn(
    slots: u64,
    row: u32,
    before: u64,
    slot: u64,
    event: Event,
) -> Result<Arrival, ArrivalFault>
    ensures reading { result ≡ arrival_in_turn slots row before slot event }
    ensures few { IfOk result (λ arrival. row ≤ ARRIVAL_LIMIT) }
{
    if row > ARRIVAL_LIMIT {
        return Err(ArrivalFault::TooMany);
    }
    let slot = slot_in_turn(slots, row, before, slot)?;
    Ok(Arrival { row, slot, event })
}

/// The slot and the word of a row, where it has two fields or more.
fn first_fields<'a>(row: u32, fields: &Row<'a>) -> Result<(&'a [u8], &'a [u8]), ArrivalFault>
    ensures { (told : List (List ℕ)) → IsRowOf fields.now told → MatchResult result
        (λ first. first_fields row told ≡ Ok (first.0.now, first.1.now))
        (λ e. first_fields row told ≡ Err e) }
{
    match *fields {
        Row::Two(slot, word)
        | Row::Three(slot, word, _)
        | Row::Four(slot, word, ..)
        | Row::Longer(slot, word) => Ok((slot, word)),
        Row::Empty | Row::One(_) => Err(ArrivalFault::BadRow(row)),
    }
}

/// The event of a row of this kind.
fn event_of(tasks: &TaskSet, row: u32, kind: Kind, fields: &Row<'_>) -> Result<Event, ArrivalFault>
    requires { is_sound tasks.now ≡ true }
    ensures { (told : List (List ℕ)) → IsRowOf fields.now told
        → result ≡ event_of tasks.now row kind (drop 2 told) }
{
    match kind {
        Kind::Soft => soft_of(row, one_field(row, fields)?),
        Kind::Firm => {
            let (slots, within) = two_fields(row, fields)?;
            firm_of(row, slots, within)
        }
        Kind::Sporadic => sporadic_of(tasks, row, one_field(row, fields)?),
        Kind::Done => done_of(tasks, row, one_field(row, fields)?),
        Kind::Withdraw => withdraw_of(row, one_field(row, fields)?),
    }
}

/// The field after the second, where there is one.
fn one_field<'a>(row: u32, fields: &Row<'a>) -> Result<&'a [u8], ArrivalFault>
    ensures { (told : List (List ℕ)) → IsRowOf fields.now told → MatchResult result
        (λ field. one_field row (drop 2 told) ≡ Ok field.now)
        (λ e. one_field row (drop 2 told) ≡ Err e) }
{
    match *fields {
        Row::Three(_, _, field) => Ok(field),
        _ => Err(ArrivalFault::BadRow(row)),
    }
}

/// The two fields after the second, where there are two.
fn two_fields<'a>(row: u32, fields: &Row<'a>) -> Result<(&'a [u8], &'a [u8]), ArrivalFault>
    ensures { (told : List (List ℕ)) → IsRowOf fields.now told → MatchResult result
        (λ both. two_fields row (drop 2 told) ≡ Ok (both.0.now, both.1.now))
        (λ e. two_fields row (drop 2 told) ≡ Err e) }
{
    match *fields {
        Row::Four(_, _, first, second) => Ok((first, second)),
        _ => Err(ArrivalFault::BadRow(row)),
    }
}

/// Soft work of these slots.
pub fn soft_of(row: u32, slots: &[u8]) -> Result<Event, ArrivalFault>
    ensures { result ≡ soft_of row slots.now }
{
    Ok(Event::Soft(slots_of(row, slots)?))
}

/// The slots of soft or firm work, in the third field.
fn slots_of(row: u32, field: &[u8]) -> Result<u32, ArrivalFault>
    ensures { result ≡ slots_of row field.now }
{
    number_between(field, 1, OFFER_LIMIT).ok_or(ArrivalFault::BadNumber(row, 3))
}

/// A firm task of these slots, due within so many from now.
pub fn firm_of(row: u32, slots: &[u8], within: &[u8]) -> Result<Event, ArrivalFault>
    ensures { result ≡ firm_of row (slots.now, within.now) }
{
    let slots = slots_of(row, slots)?;
    let within = number_between(within, 0, OFFER_LIMIT).ok_or(ArrivalFault::BadNumber(row, 4))?;
    Ok(Event::Firm(slots, within))
}

/// A job of the sporadic task of this name.
pub fn sporadic_of(tasks: &TaskSet, row: u32, name: &[u8]) -> Result<Event, ArrivalFault>
    requires { is_sound tasks.now ≡ true }
    ensures { result ≡ sporadic_of tasks.now row name.now }
{
    let found = sporadic_named(tasks.sporadics.items(), name);
    let index = found.ok_or(ArrivalFault::UnknownSporadic(row))?;
    Ok(Event::Sporadic(index as u8))
}

/// The withdrawal of the firm job that arrived in this row.
pub fn withdraw_of(row: u32, firm: &[u8]) -> Result<Event, ArrivalFault>
    ensures { result ≡ withdraw_of row firm.now }
{
    let firm = row_number(firm).ok_or(ArrivalFault::BadNumber(row, 3))?;
    Ok(Event::Withdraw(firm))
}

/// The early end of the job of this key.
pub fn done_of(tasks: &TaskSet, row: u32, text: &[u8]) -> Result<Event, ArrivalFault>
    requires { is_sound tasks.now ≡ true }
    ensures { result ≡ done_of tasks.now row text.now }
{
    let key = key_of(tasks, text).ok_or(ArrivalFault::BadKey(row))?;
    Ok(Event::Done(key))
}

/// The slot, where it is not below the one before and not at or past the end.
fn slot_in_turn(slots: u64, row: u32, before: u64, slot: u64) -> Result<u64, ArrivalFault>
    ensures { result ≡ slot_in_turn slots row before slot }
{
    if slot < before {
        return Err(ArrivalFault::OutOfOrder(row, before, slot));
    }
    if slot >= slots {
        return Err(ArrivalFault::PastEnd(row, slot));
    }
    Ok(slot)
}
