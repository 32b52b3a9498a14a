//! Answers, keys, spans and faults in numbers.

ghost use Rattle.std.specs.Prelude.{◌≡◌};
ghost use Rattle.slot_port.specs.Answers.{done_numbers, firm_numbers, gone_numbers, soft_numbers, sporadic_numbers, one_number, three_numbers};
ghost use Rattle.slot_port.specs.Faults.{fault_numbers};
ghost use Rattle.slot_port.specs.Keys.{firm_key, key_named, key_numbers, offline_key, ran_numbers, row_fits, soft_key, sporadic_key};
ghost use Rattle.slot_port.specs.Spans.{span_numbers};

use crate::{INDEX_LIMIT, SPORADIC_INDEX_LIMIT};
use slot_core::{Done, Firm, Gone, Key, NUMBER_LIMIT, Ran, Soft, Span, Spo};
use table_codec::TableFault;

/// An answer: its number among those of its call, from 0, and up to three numbers that it tells, 0
/// where it tells fewer. Of a fault, the number of the fault and what it tells.
#[repr(C)]
#[derive(Clone, Copy)]
pub struct Told {
    pub answer: u32,
    pub first: u64,
    pub second: u64,
    pub third: u64,
}

/// The name of a job, by its kind. What a kind has no use for is 0.
#[repr(C)]
#[derive(Clone, Copy)]
pub struct KeyNumbers {
    /// `NO_JOB`, `OFFLINE`, `SPORADIC`, `FIRM` or `SOFT`.
    pub kind: u32,
    /// The graph of an offline job; the index of a sporadic task.
    pub group: u32,
    /// The task of an offline job in its graph.
    pub task: u32,
    /// The instance of an offline job, from 0; the row of the arrival of any other.
    pub number: u64,
}

/// A span [start, end), with the slots due in it and its spare capacity.
#[repr(C)]
#[derive(Clone, Copy)]
pub struct SpanNumbers {
    pub start: u64,
    pub end: u64,
    pub work: u64,
    pub spare: i64,
}

/// The kind of no job.
pub const NO_JOB: u32 = 0;

/// The kind of an offline job.
pub const OFFLINE: u32 = 1;

/// The kind of a sporadic job.
pub const SPORADIC: u32 = 2;

/// The kind of a firm job.
pub const FIRM: u32 = 3;

/// The kind of a soft job.
pub const SOFT: u32 = 4;

/// An answer with one number.
fn one_number(answer: u32, first: u64) -> Told
    ensures { result ≡ one_number answer first }
{
    three_numbers(answer, first, 0, 0)
}

/// An answer with three numbers.
pub(crate) fn three_numbers(answer: u32, first: u64, second: u64, third: u64) -> Told
    ensures { result ≡ three_numbers answer first second third }
{
    Told {
        answer,
        first,
        second,
        third,
    }
}

/// The answer to soft work: 0 taken; 1 full, with the limit.
pub(crate) fn soft_numbers(answer: Soft) -> Told
    ensures { result ≡ soft_numbers answer }
{
    match answer {
        Soft::Taken => one_number(0, 0),
        Soft::Full(limit) => one_number(1, u64::from(limit)),
    }
}

/// The answer to a firm task: 0 accepted; 1 late; 2 far; 3 no room, with the time, the need and the
/// room.
pub(crate) fn firm_numbers(answer: Firm) -> Told
    ensures { result ≡ firm_numbers answer }
{
    match answer {
        Firm::Accepted => one_number(0, 0),
        Firm::Late => one_number(1, 0),
        Firm::Far => one_number(2, 0),
        Firm::NoRoom(evidence) => three_numbers(3, evidence.until, evidence.need, evidence.room),
    }
}

/// The answer to a sporadic arrival: 0 taken, with its deadline; 1 too soon, with its next legal
/// arrival.
pub(crate) fn sporadic_numbers(answer: Spo) -> Told
    ensures { result ≡ sporadic_numbers answer }
{
    match answer {
        Spo::Taken(deadline) => one_number(0, deadline),
        Spo::Soon(next) => one_number(1, next),
    }
}

/// The answer to an early end: 0 freed, with the slots; 1 not running.
pub(crate) fn done_numbers(answer: Done) -> Told
    ensures { result ≡ done_numbers answer }
{
    match answer {
        Done::Freed(slots) => one_number(0, u64::from(slots)),
        Done::NotRunning => one_number(1, 0),
    }
}

/// The answer to a withdrawal: 0 freed, with the slots; 1 no job.
pub(crate) fn gone_numbers(answer: Gone) -> Told
    ensures { result ≡ gone_numbers answer }
{
    match answer {
        Gone::Freed(slots) => one_number(0, u64::from(slots)),
        Gone::NoJob => one_number(1, 0),
    }
}

/// The fault of a table: its number, and up to three of the numbers that it tells.
pub(crate) fn fault_numbers(fault: TableFault) -> Told
    ensures { result ≡ fault_numbers fault }
{
    match fault {
        TableFault::Memory => one_number(1, 0),
        TableFault::Short(at) => one_number(2, at),
        TableFault::BadMagic => one_number(3, 0),
        TableFault::BadVersion(version) => one_number(4, u64::from(version)),
        TableFault::BadSource(source) => one_number(5, u64::from(source.number())),
        TableFault::Infeasible(w) => three_numbers(6, w.from, w.until, w.demand),
        TableFault::WrongJobCount(stored, computed) => {
            three_numbers(7, u64::from(stored), u64::from(computed), 0)
        }
        TableFault::WrongJob(place, _, _) => one_number(8, u64::from(place)),
        TableFault::WrongSpanCount(stored, computed) => {
            three_numbers(9, u64::from(stored), u64::from(computed), 0)
        }
        TableFault::WrongSpan(place, _, _) => one_number(10, u64::from(place)),
        TableFault::Trailing(at) => one_number(11, at),
    }
}

/// A span in numbers.
pub(crate) fn span_numbers(span: Span) -> SpanNumbers
    ensures { result ≡ span_numbers span }
{
    SpanNumbers {
        start: span.start,
        end: span.end,
        work: span.work,
        spare: span.spare,
    }
}

/// What ran in numbers, none of which is above 0 where no job did.
pub(crate) fn ran_numbers(ran: Ran) -> KeyNumbers
    ensures { result ≡ ran_numbers ran }
{
    match ran {
        Ran::Idle => named(NO_JOB, 0, 0, 0),
        Ran::Key(key) => key_numbers(key),
    }
}

/// A key in numbers.
pub(crate) fn key_numbers(key: Key) -> KeyNumbers
    ensures { result ≡ key_numbers key }
{
    match key {
        Key::Offline(graph, task, instance) => {
            named(OFFLINE, u32::from(graph), u32::from(task), instance)
        }
        Key::Sporadic(index, row) => named(SPORADIC, u32::from(index), 0, u64::from(row)),
        Key::Firm(row) => named(FIRM, 0, 0, u64::from(row)),
        Key::Soft(row) => named(SOFT, 0, 0, u64::from(row)),
    }
}

/// These numbers.
fn named(kind: u32, group: u32, task: u32, number: u64) -> KeyNumbers
    ensures { result ≡ record { kind = kind; group = group; task = task; number = number } }
{
    KeyNumbers {
        kind,
        group,
        task,
        number,
    }
}

/// The key that these numbers name, where they name one.
pub(crate) fn key_named(key: KeyNumbers) -> Option<Key>
    ensures { result ≡ key_named key }
{
    match key.kind {
        OFFLINE => offline_key(key),
        SPORADIC => sporadic_key(key),
        FIRM => firm_key(key),
        SOFT => soft_key(key),
        _ => None,
    }
}

/// The key of an offline job, where the indexes are in range.
fn offline_key(key: KeyNumbers) -> Option<Key>
    ensures { result ≡ offline_key key }
{
    if key.group <= INDEX_LIMIT && key.task <= INDEX_LIMIT {
        return Some(Key::Offline(key.group as u16, key.task as u16, key.number));
    }
    None
}

/// Whether the number is a row, and no task is told.
fn row_fits(key: KeyNumbers) -> bool
    ensures { result ≡ row_fits key }
{
    key.task == 0 && key.number <= u64::from(NUMBER_LIMIT)
}

/// The key of a sporadic job, where its numbers are in range.
fn sporadic_key(key: KeyNumbers) -> Option<Key>
    ensures { result ≡ sporadic_key key }
{
    if row_fits(key) && key.group <= SPORADIC_INDEX_LIMIT {
        return Some(Key::Sporadic(key.group as u8, key.number as u32));
    }
    None
}

/// The key of a firm job, where its numbers are in range.
fn firm_key(key: KeyNumbers) -> Option<Key>
    ensures { result ≡ firm_key key }
{
    if row_fits(key) && key.group == 0 {
        return Some(Key::Firm(key.number as u32));
    }
    None
}

/// The key of a soft job, where its numbers are in range.
fn soft_key(key: KeyNumbers) -> Option<Key>
    ensures { result ≡ soft_key key }
{
    if row_fits(key) && key.group == 0 {
        return Some(Key::Soft(key.number as u32));
    }
    None
}
