//! Arrivals: soft, firm and sporadic work, early ends and withdrawals.
//!
//! Each has its row. That of soft, firm and sporadic work lies above the row of the last arrival; an
//! early end or a withdrawal, which brings no job, may come in the last row too. The status is
//! `BAD_ROW` where the row lies lower, else `BAD_NUMBER` where another number is out of range, else
//! `OK`: then its answer is told.

ghost use Rattle.std.specs.Prelude.{◌≡◌, ◌≢◌, ◌≤◌, ◌<◌, ◌^◌, true, length, Some};
ghost use Rattle.slot_core.specs.declared.TheConstants.{OFFER_LIMIT};
ghost use Rattle.slot_core.specs.declared.events.Event.{Event};
ghost use Rattle.slot_core.specs.declared.events.What.{What};
ghost use Rattle.slot_core.specs.declared.jobs.Key.{Key};
ghost use Rattle.slot_core.specs.Keeping.Executives.{Does};
ghost use Rattle.slot_core.specs.Runs.Answers.{done_answer, firm_answer, sporadic_answer, withdraw_answer};
ghost use Rattle.slot_core.specs.Runs.Traces.{arrive};
ghost use Rattle.slot_port.specs.declared.status.TheConstants.{OK};
ghost use Rattle.slot_port.specs.Calls.{Takes, numbers_in};
ghost use Rattle.slot_port.specs.Keys.{key_named};
ghost use Rattle.slot_port.specs.Statuses.{done_status, event_status};

use crate::numbers::{
    KeyNumbers, Told, done_numbers, firm_numbers, gone_numbers, key_named, soft_numbers,
    sporadic_numbers,
};
use crate::status::{BAD_NUMBER, BAD_ROW, OK, Status};
use interval_row::SpareTable;
use slot_core::{Done, Firm, Gone, Key, OFFER_LIMIT, Spo, Steps};
use slot_exec::Exec;
use std::marker::Brand;
use std::sync::ledger::{Blank, Ledger};

/// Soft work of 1 to `OFFER_LIMIT` slots.
pub fn soft<T: SpareTable>(exec: &mut Exec<T>, row: u32, slots: u32, told: &mut Told) -> Status
    ensures status { result ≡ event_status exec.old row (Event.Soft slots) }
    ensures stays { result ≢ OK → exec.new ≡ exec.old }
    ensures silent { result ≢ OK → told.new ≡ told.old }
    ensures does { result ≡ OK → Takes exec.old exec.new row (Event.Soft slots) }
    ensures tells { result ≡ OK → told.new ≡ numbers_in exec.old row (Event.Soft slots) }
{
    if row <= exec.last_row() {
        return BAD_ROW;
    }
    if slots < 1 || slots > OFFER_LIMIT {
        return BAD_NUMBER;
    }
    *told = soft_numbers(exec.soft(row, slots));
    OK
}

/// A firm task of 1 to `OFFER_LIMIT` slots, due within at most `OFFER_LIMIT` slots from now.
pub fn firm<T: SpareTable>(
    exec: &mut Exec<T>,
    row: u32,
    slots: u32,
    within: u32,
    told: &mut Told,
) -> Status
    ensures status { result ≡ event_status exec.old row (Event.Firm slots within) }
    ensures stays { result ≢ OK → exec.new ≡ exec.old }
    ensures silent { result ≢ OK → told.new ≡ told.old }
    ensures does { result ≡ OK → Takes exec.old exec.new row (Event.Firm slots within) }
    ensures tells { result ≡ OK → told.new ≡ numbers_in exec.old row (Event.Firm slots within) }
{
    if row <= exec.last_row() {
        return BAD_ROW;
    }
    if slots < 1 || slots > OFFER_LIMIT || within > OFFER_LIMIT {
        return BAD_NUMBER;
    }
    *told = firm_numbers(firm_counted::<T, Brand>(exec, row, slots, within, Blank::new(1)));
    OK
}

/// A job of the sporadic task of this index.
pub fn sporadic<T: SpareTable>(exec: &mut Exec<T>, row: u32, index: u32, told: &mut Told) -> Status
    ensures status { result ≡ event_status exec.old row (Event.Sporadic index) }
    ensures stays { result ≢ OK → exec.new ≡ exec.old }
    ensures silent { result ≢ OK → told.new ≡ told.old }
    ensures does { result ≡ OK → Takes exec.old exec.new row (Event.Sporadic index) }
    ensures tells { result ≡ OK → told.new ≡ numbers_in exec.old row (Event.Sporadic index) }
{
    if row <= exec.last_row() {
        return BAD_ROW;
    }
    if index as usize >= exec.tasks().sporadics.len() {
        return BAD_NUMBER;
    }
    *told = sporadic_numbers(sporadic_counted::<T, Brand>(exec, row, index as u8, Blank::new(1)));
    OK
}

/// The job of this key has ended, before it ran all its slots.
pub fn done<T: SpareTable>(exec: &mut Exec<T>, row: u32, key: KeyNumbers, told: &mut Told) -> Status
    ensures status { result ≡ done_status exec.old row key }
    ensures stays { result ≢ OK → exec.new ≡ exec.old }
    ensures silent { result ≢ OK → told.new ≡ told.old }
    ensures does { (k : Key) → key_named key ≡ Some k → result ≡ OK
        → Takes exec.old exec.new row (Event.Done k) }
    ensures tells { (k : Key) → key_named key ≡ Some k → result ≡ OK
        → told.new ≡ numbers_in exec.old row (Event.Done k) }
{
    if row < exec.last_row() {
        return BAD_ROW;
    }
    let Some(key) = key_named(key) else {
        return BAD_NUMBER;
    };
    *told = done_numbers(done_counted::<T, Brand>(exec, row, key, Blank::new(1)));
    OK
}

/// The firm job that arrived in row `firm` is taken back before it has ended.
pub fn withdraw<T: SpareTable>(exec: &mut Exec<T>, row: u32, firm: u32, told: &mut Told) -> Status
    ensures status { result ≡ event_status exec.old row (Event.Withdraw firm) }
    ensures stays { result ≢ OK → exec.new ≡ exec.old }
    ensures silent { result ≢ OK → told.new ≡ told.old }
    ensures does { result ≡ OK → Takes exec.old exec.new row (Event.Withdraw firm) }
    ensures tells { result ≡ OK → told.new ≡ numbers_in exec.old row (Event.Withdraw firm) }
{
    if row >= exec.last_row() {
        *told = gone_numbers(withdraw_counted::<T, Brand>(exec, row, firm, Blank::new(1)));
        return OK;
    }
    BAD_ROW
}

/// The answer to a firm task, with steps that nobody asks for.
fn firm_counted<T: SpareTable, L: Ledger>(
    exec: &mut Exec<T>,
    row: u32,
    slots: u32,
    within: u32,
    blank: Blank,
) -> Firm
    requires name { blank.name ≡ L.name }
    requires parts { blank.parts ≡ L.parts }
    requires ledger { 0 < L.parts }
    requires later { exec.old.last_row < row }
    requires some { 1 ≤ slots }
    requires few { slots ≤ OFFER_LIMIT }
    requires near { within ≤ OFFER_LIMIT }
    ensures does { Does
        exec.old
        exec.new
        (arrive row (Event.Firm slots within))
        (What.Firm row slots within result) }
    ensures answer { result
        ≡ firm_answer
        exec.old.plan.tasks.sporadics
        exec.old.plan.cycle
        exec.old.scene
        slots
        within }
{
    let mut steps: Steps<L> = Steps::new(blank);
    exec.firm(row, slots, within, &mut steps)
}

/// The answer to a sporadic arrival.
fn sporadic_counted<T: SpareTable, L: Ledger>(
    exec: &mut Exec<T>,
    row: u32,
    index: u8,
    blank: Blank,
) -> Spo
    requires name { blank.name ≡ L.name }
    requires parts { blank.parts ≡ L.parts }
    requires ledger { 0 < L.parts }
    requires later { exec.old.last_row < row }
    requires known { index < length exec.old.plan.tasks.sporadics }
    ensures does { Does
        exec.old
        exec.new
        (arrive row (Event.Sporadic index))
        (What.Sporadic row index result) }
    ensures answer { result ≡ sporadic_answer exec.old.plan.tasks.sporadics exec.old.scene index }
{
    let mut steps: Steps<L> = Steps::new(blank);
    exec.sporadic(row, index, &mut steps)
}

/// The answer to an early end.
fn done_counted<T: SpareTable, L: Ledger>(
    exec: &mut Exec<T>,
    row: u32,
    key: Key,
    blank: Blank,
) -> Done
    requires name { blank.name ≡ L.name }
    requires parts { blank.parts ≡ L.parts }
    requires ledger { 0 < L.parts }
    requires later { exec.old.last_row ≤ row }
    ensures does { Does
        exec.old
        exec.new
        (arrive row (Event.Done key))
        (What.Done row key result) }
    ensures answer { result ≡ done_answer exec.old.scene key }
{
    let mut steps: Steps<L> = Steps::new(blank);
    exec.done(row, key, &mut steps)
}

/// The answer to a withdrawal.
fn withdraw_counted<T: SpareTable, L: Ledger>(
    exec: &mut Exec<T>,
    row: u32,
    firm: u32,
    blank: Blank,
) -> Gone
    requires name { blank.name ≡ L.name }
    requires parts { blank.parts ≡ L.parts }
    requires ledger { 0 < L.parts }
    requires later { exec.old.last_row ≤ row }
    ensures does { Does
        exec.old
        exec.new
        (arrive row (Event.Withdraw firm))
        (What.Withdraw row firm result) }
    ensures answer { result ≡ withdraw_answer exec.old.scene firm }
{
    let mut steps: Steps<L> = Steps::new(blank);
    exec.withdraw(row, firm, &mut steps)
}
