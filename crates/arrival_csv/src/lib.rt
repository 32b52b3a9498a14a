//! Arrivals files: comma-separated rows that write the arrivals of a run.
#![tactic(auto)]

ghost use Rattle.std.specs.Prelude.{◌≡◌, ◌≢◌, ◌≤◌, true, IfSome, Ok, Err, IfOk, IfErr, MatchResult};
ghost use Rattle.csv.specs.Reading.{strip_bom};
ghost use Rattle.slot_core.specs.declared.TheConstants.{REPLAY_LIMIT};
ghost use Rattle.slot_core.specs.Runs.Arrivals.{are_fitting};
ghost use Rattle.slot_core.specs.Sets.Ranges.{is_sound};
ghost use Rattle.arrival_csv.specs.Reading.{AnswersAs, reading_of_arrivals};
ghost use Rattle.faults.specs.declared.arrival_fault.ArrivalFault.TheVariants.{Memory};

mod kinds;
mod plain;
mod quick;
mod reader;
mod row;
mod rows;
mod so_far;

use csv::ByteRecord;
pub use faults::ArrivalFault;
pub use kinds::Kind;
use plain::{after_empty_lines, is_unmarked};
use quick::quick_row;
use reader::{next_row, reader_of};
use row::Row;
pub use rows::{done_of, firm_of, soft_of, sporadic_of, withdraw_of};
use slot_core::{Arrival, TaskSet};
use so_far::SoFar;
use std::alloc::Global;

/// The arrivals that the bytes of an arrivals file write, for a run of so many slots of the set.
/// Any fault but want of memory is the first of the file: row by row, and in a row the limit of
/// rows, that there are two fields at least, the slot, the kind, the number of fields of that kind,
/// the further fields, and then the order of slots and their end. A row is a record of the file: an
/// empty line is none, and a line feed in quotes does not end one. Fields are not trimmed.
pub fn read_arrivals(
    alloc: Global,
    bytes: &[u8],
    slots: u64,
    tasks: &TaskSet,
) -> Result<Vec<Arrival>, ArrivalFault>
    requires some { 1 ≤ slots }
    requires few { slots ≤ REPLAY_LIMIT }
    requires sound { is_sound tasks.now ≡ true }
    ensures reading { AnswersAs (λ arrivals. arrivals.items) result
        (reading_of_arrivals bytes.now slots tasks.now) }
    ensures fitting { IfOk result (λ arrivals. are_fitting tasks.now slots arrivals.items ≡ true) }
{
    if is_unmarked(bytes) {
        if let Some(arrivals) = read_plain(alloc, bytes, slots, tasks)? {
            return Ok(arrivals);
        }
    }
    read_records(alloc, bytes, slots, tasks)
}

/// The arrivals that the bytes write, which start with no byte order mark, where each row writes an
/// arrival without a quote or a carriage return; or the first fault of number, order and end of
/// rows. It stands apart, so that its loop keeps its numbers in registers.
#[inline(never)]
fn read_plain(
    alloc: Global,
    bytes: &[u8],
    slots: u64,
    tasks: &TaskSet,
) -> Result<Option<Vec<Arrival>>, ArrivalFault>
    requires sound { is_sound tasks.now ≡ true }
    requires unmarked { strip_bom bytes.now ≡ bytes.now }
    ensures { MatchResult result
        (λ read. IfSome read (λ arrivals.
        reading_of_arrivals bytes.now slots tasks.now ≡ Ok arrivals.items))
        (λ e. e ≢ Memory → reading_of_arrivals bytes.now slots tasks.now ≡ Err e) }
{
    let mut so_far = SoFar::none(alloc);
    let mut left = bytes;
    loop {
        let text = after_empty_lines(left);
        if text.is_empty() {
            return Ok(Some(so_far.arrivals));
        }
        let Some(row) = quick_row(tasks, text) else {
            return Ok(None);
        };
        so_far.take_event(slots, u64::from(row.slot), row.event)?;
        left = row.rest;
    }
}

/// The arrivals that the bytes of any file write. It stands apart, so that the stack of its reader is
/// given back before the arrivals are replayed.
#[inline(never)]
fn read_records(
    alloc: Global,
    bytes: &[u8],
    slots: u64,
    tasks: &TaskSet,
) -> Result<Vec<Arrival>, ArrivalFault>
    requires { is_sound tasks.now ≡ true }
    ensures { AnswersAs (λ arrivals. arrivals.items) result
        (reading_of_arrivals bytes.now slots tasks.now) }
{
    let mut reader = reader_of(alloc, bytes);
    let mut record = ByteRecord::new(alloc);
    let mut so_far = SoFar::none(alloc);
    while next_row(&mut reader, &mut record)? {
        so_far.take(tasks, slots, &Row::of(&record))?;
    }
    Ok(so_far.arrivals)
}
