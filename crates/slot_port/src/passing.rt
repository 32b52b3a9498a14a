//! Slots that pass, and the spans ahead.

ghost use Rattle.std.specs.Prelude.{◌≡◌, ◌≢◌, ◌<◌, ◌≤◌, length, slice_get, Some};
ghost use Rattle.slot_core.specs.declared.TheConstants.{TIME_LIMIT};
ghost use Rattle.slot_core.specs.Keeping.Executives.{Does};
ghost use Rattle.slot_core.specs.Runs.Choice.{choice};
ghost use Rattle.slot_core.specs.Runs.Spans.{spans_of};
ghost use Rattle.slot_core.specs.Runs.Traces.{slot as slot_passes, told_of_slot};
ghost use Rattle.slot_port.specs.declared.status.TheConstants.{OK};
ghost use Rattle.slot_port.specs.Calls.{Passes, PassesSame, ran_in, StaysAhead};
ghost use Rattle.slot_port.specs.Keys.{ran_numbers};
ghost use Rattle.slot_port.specs.Spans.{spans_in};
ghost use Rattle.slot_port.specs.Statuses.{ahead_status, pass_status, slot_status, span_status};

use crate::numbers::{KeyNumbers, SpanNumbers, ran_numbers, span_numbers};
use crate::status::{AT_END, BAD_NUMBER, OK, Status};
use interval_row::SpareTable;
use slot_core::{Ran, Span, Steps, TIME_LIMIT};
use slot_exec::Exec;
use std::marker::Brand;
use std::sync::ledger::{Blank, Ledger};

/// One slot passes, and what runs in it is told. `AT_END` where the time is at its limit.
pub fn slot<T: SpareTable>(exec: &mut Exec<T>, ran: &mut KeyNumbers) -> Status
    ensures status { result ≡ slot_status exec.old }
    ensures stays { result ≢ OK → exec.new ≡ exec.old }
    ensures silent { result ≢ OK → ran.new ≡ ran.old }
    ensures passes { result ≡ OK → Passes exec.old exec.new }
    ensures tells { result ≡ OK → ran.new ≡ ran_numbers (ran_in exec.old) }
{
    if exec.now() >= TIME_LIMIT {
        return AT_END;
    }
    *ran = ran_numbers(slot_counted::<T, Brand>(exec, Blank::new(1)));
    OK
}

/// Slots pass, at most `most`, while what is to run is what is to run in the first of them, and it
/// is told how many have passed. `BAD_NUMBER` where `most` is 0, else `AT_END` where the time is at
/// its limit. It ends before a slot in which something else is to run.
pub fn pass<T: SpareTable>(exec: &mut Exec<T>, most: u32, passed: &mut u32) -> Status
    ensures status { result ≡ pass_status exec.old most }
    ensures stays { result ≢ OK → exec.new ≡ exec.old }
    ensures silent { result ≢ OK → passed.new ≡ passed.old }
    ensures passes { result ≡ OK → PassesSame exec.old exec.new most passed.new }
{
    if most == 0 {
        return BAD_NUMBER;
    }
    if exec.now() == TIME_LIMIT {
        return AT_END;
    }
    *passed = pass_counted::<T, Brand>(exec, most, Blank::new(1));
    OK
}

/// What runs in the next slot, and for how many slots, at most `most`, that stays so where nothing
/// arrives. `BAD_NUMBER` where `most` is 0.
pub fn ahead<T: SpareTable>(
    exec: &Exec<T>,
    most: u32,
    ran: &mut KeyNumbers,
    count: &mut u32,
) -> Status
    ensures status { result ≡ ahead_status most }
    ensures silent { result ≢ OK → ran.new ≡ ran.old }
    ensures untold { result ≢ OK → count.new ≡ count.old }
    ensures tells { result ≡ OK → ran.new ≡ ran_numbers (ran_in exec.now) }
    ensures stays { result ≡ OK → StaysAhead exec.now most count.new }
{
    if most == 0 {
        return BAD_NUMBER;
    }
    let (next, slots) = ahead_counted::<T, Brand>(exec, most, Blank::new(1));
    *ran = ran_numbers(next);
    *count = slots;
    OK
}

/// The span at this place, from 0. `BAD_NUMBER` where there is none.
pub fn span<T: SpareTable>(exec: &Exec<T>, place: u32, span: &mut SpanNumbers) -> Status
    ensures status { result ≡ span_status exec.now place }
    ensures silent { result ≢ OK → span.new ≡ span.old }
    ensures tells { result ≡ OK → slice_get (spans_in exec.now) place ≡ Some span.new }
{
    if place >= exec.span_count() {
        return BAD_NUMBER;
    }
    *span = span_numbers(span_counted::<T, Brand>(exec, place, Blank::new(1)));
    OK
}

/// What runs in the slot that passes, with steps that nobody asks for.
fn slot_counted<T: SpareTable, L: Ledger>(exec: &mut Exec<T>, blank: Blank) -> Ran
    requires name { blank.name ≡ L.name }
    requires parts { blank.parts ≡ L.parts }
    requires ledger { 0 < L.parts }
    requires early { exec.old.scene.time < TIME_LIMIT }
    ensures does { Does exec.old exec.new slot_passes (told_of_slot result) }
    ensures answer { result
        ≡ choice exec.old.plan.tasks.sporadics exec.old.plan.cycle exec.old.scene }
    ensures row { exec.new.last_row ≡ exec.old.last_row }
{
    let mut steps: Steps<L> = Steps::new(blank);
    exec.slot(&mut steps)
}

/// How many slots have passed in which the same runs, at most `most`.
fn pass_counted<T: SpareTable, L: Ledger>(exec: &mut Exec<T>, most: u32, blank: Blank) -> u32
    requires name { blank.name ≡ L.name }
    requires parts { blank.parts ≡ L.parts }
    requires ledger { 0 < L.parts }
    requires some { 1 ≤ most }
    requires early { exec.old.scene.time < TIME_LIMIT }
    ensures { PassesSame exec.old exec.new most result }
{
    let mut steps: Steps<L> = Steps::new(blank);
    let first = exec.slot(&mut steps);
    let mut passed = 1;
    while passed < most {
        if exec.now() == TIME_LIMIT {
            return passed;
        }
        let (next, _slots) = exec.ahead(1, &mut steps);
        if next != first {
            return passed;
        }
        exec.slot(&mut steps);
        passed += 1;
    }
    passed
}

/// What runs in the next slot, and for how many slots that stays so.
fn ahead_counted<T: SpareTable, L: Ledger>(exec: &Exec<T>, most: u32, blank: Blank) -> (Ran, u32)
    requires name { blank.name ≡ L.name }
    requires parts { blank.parts ≡ L.parts }
    requires ledger { 0 < L.parts }
    requires some { 1 ≤ most }
    ensures answer { result.0 ≡ ran_in exec.now }
    ensures stays { StaysAhead exec.now most result.1 }
{
    let mut steps: Steps<L> = Steps::new(blank);
    exec.ahead(most, &mut steps)
}

/// The span at this place.
fn span_counted<T: SpareTable, L: Ledger>(exec: &Exec<T>, place: u32, blank: Blank) -> Span
    requires name { blank.name ≡ L.name }
    requires parts { blank.parts ≡ L.parts }
    requires ledger { 0 < L.parts }
    requires there { place < length exec.now.scene.points }
    ensures { slice_get (spans_of exec.now.plan.cycle exec.now.scene) place ≡ Some result }
{
    let mut steps: Steps<L> = Steps::new(blank);
    exec.span(place, &mut steps)
}
