//! The jobs that remain, and changes of plan: an executive goes on as one of another plan.

ghost use Rattle.std.specs.Prelude.{◌≡◌, ◌≢◌, ◌⊎◌, ◌≤◌, ◌<◌, true, length, slice_get, Err, IfErr, IfOk, OnOk, Some};
ghost use Rattle.slot_core.specs.Keeping.Executives.{StandsFor};
ghost use Rattle.slot_core.specs.Keeping.Plans.{IsPlan, PlanParts};
ghost use Rattle.slot_core.specs.Runs.Traces.{started};
ghost use Rattle.table_codec.specs.Grammar.{Spells};
ghost use Rattle.slot_port.specs.declared.status.TheConstants.{BAD_TABLE, MEMORY, OK, REFUSED};
ghost use Rattle.slot_port.specs.Answers.{three_numbers};
ghost use Rattle.slot_port.specs.Changes.{CannotCarry, CannotCarryWithSoft, CannotChange, Carries, CarriesWithSoft, Changes, ChangesWithSoft, asked_status, carry_status, first_fits, job_numbers, job_status, jobs_in, keep_named, refusal_numbers};
ghost use Rattle.slot_port.specs.Faults.{TellsFault};

use crate::numbers::{KeyNumbers, Told, key_numbers, three_numbers};
use crate::opening::open;
use crate::status::{BAD_NUMBER, BAD_ROW, NOT_FRESH, OK, REFUSED, Status};
use interval_row::SpareTable;
use plan_change::{CarriedList, Keep, Moved, MovedWithSoft, Refusal, is_fresh};
use slot_core::{Job, Steps};
use slot_exec::Exec;
use std::alloc::Global;
use std::marker::Brand;
use std::sync::ledger::{Blank, Ledger};

/// A remaining job: its name, the slots that it has left, its deadline, and the time from which it
/// may run.
#[repr(C)]
#[derive(Clone, Copy)]
pub struct JobNumbers {
    pub key: KeyNumbers,
    pub left: u32,
    pub deadline: u64,
    pub start: u64,
}

/// No offline job goes on.
pub const DROP: u32 = 0;

/// Offline jobs go on that have run a slot.
pub const STARTED: u32 = 1;

/// All that remains of the instances goes on that were released before this slot.
pub const GRAPHS: u32 = 2;

/// The remaining job at this place, from 0: they stand in no order. `BAD_NUMBER` where there is
/// none.
pub fn job<T: SpareTable>(exec: &Exec<T>, place: u32, job: &mut JobNumbers) -> Status
    ensures status { result ≡ job_status exec.now place }
    ensures silent { result ≢ OK → job.new ≡ job.old }
    ensures tells { result ≡ OK → slice_get (jobs_in exec.now) place ≡ Some job.new }
{
    if place >= exec.job_count() {
        return BAD_NUMBER;
    }
    *job = job_numbers(job_counted::<T, Brand>(exec, place, Blank::new(1)));
    OK
}

/// Carries what an executive has left over to a second one, before its first slot, as
/// `plan_change::carry` does. `NOT_FRESH` where that has seen a slot, or an arrival in a row above
/// 0; else `BAD_NUMBER` where `keep` is no number of `DROP`, `STARTED` and `GRAPHS`; else `BAD_ROW`
/// where offline jobs may go on and `first` is not above the last row of the first executive, or
/// fewer rows follow it than a cycle has slots. Else it is made, or `REFUSED`: then the second
/// executive has accepted some of the offers, and is to be opened anew.
pub fn carry<T: SpareTable>(
    from: &Exec<T>,
    into: &mut Exec<T>,
    list: &mut CarriedList,
    first: u32,
    keep: u32,
    told: &mut Told,
) -> Status
    requires { from.now.plan.cycle ≤ list.old.places }
    ensures asked { carry_status from.now into.old first keep ≢ OK
        → result ≡ carry_status from.now into.old first keep }
    ensures stays { carry_status from.now into.old first keep ≢ OK → into.new ≡ into.old }
    ensures silent { carry_status from.now into.old first keep ≢ OK → told.new ≡ told.old }
    ensures done { carry_status from.now into.old first keep ≡ OK
        → (result ≡ OK) ⊎ (result ≡ REFUSED) }
    ensures carries { (k : Keep) → keep_named keep ≡ Some k → result ≡ OK
        → Carries k first from.now into.old into.new told.new }
    ensures refused { (k : Keep) → keep_named keep ≡ Some k → result ≡ REFUSED
        → CannotCarry k first from.now into.old into.new told.new }
    ensures plan { into.new.plan ≡ into.old.plan }
    ensures places { list.new.places ≡ list.old.places }
{
    match asked_of_both(from, into, first, keep) {
        Ok(keep) => carry_asked(from, into, list, first, keep, told),
        Err(status) => status,
    }
}

/// `carry`, where soft work goes over too, as with `plan_change::carry_with_soft`. After `OK` the
/// answer in `told` is how many soft jobs go over, and its last number how many are left behind.
pub fn carry_with_soft<T: SpareTable>(
    from: &Exec<T>,
    into: &mut Exec<T>,
    list: &mut CarriedList,
    first: u32,
    keep: u32,
    told: &mut Told,
) -> Status
    requires { from.now.plan.cycle ≤ list.old.places }
    ensures asked { carry_status from.now into.old first keep ≢ OK
        → result ≡ carry_status from.now into.old first keep }
    ensures stays { carry_status from.now into.old first keep ≢ OK → into.new ≡ into.old }
    ensures silent { carry_status from.now into.old first keep ≢ OK → told.new ≡ told.old }
    ensures done { carry_status from.now into.old first keep ≡ OK
        → (result ≡ OK) ⊎ (result ≡ REFUSED) }
    ensures carries { (k : Keep) → keep_named keep ≡ Some k → result ≡ OK
        → CarriesWithSoft k first from.now into.old into.new told.new }
    ensures refused { (k : Keep) → keep_named keep ≡ Some k → result ≡ REFUSED
        → CannotCarryWithSoft k first from.now into.old into.new told.new }
    ensures plan { into.new.plan ≡ into.old.plan }
    ensures places { list.new.places ≡ list.old.places }
{
    match asked_of_both(from, into, first, keep) {
        Ok(keep) => carry_asked_with_soft(from, into, list, first, keep, told),
        Err(status) => status,
    }
}

/// Opens the plan that the bytes spell, and carries over to its executive what another one has
/// left, as `carry` does. `BAD_NUMBER` or `BAD_ROW` as there; `BAD_TABLE` where the bytes have a
/// fault, which is told; `MEMORY` where memory ran out; `REFUSED`.
pub fn change<T: SpareTable>(
    alloc: Global,
    from: &Exec<T>,
    list: &mut CarriedList,
    table: &[u8],
    first: u32,
    keep: u32,
    told: &mut Told,
) -> Result<Exec<T>, Status>
    requires { from.now.plan.cycle ≤ list.old.places }
    ensures asked { asked_status from.now first (keep_named keep) ≢ OK
        → result ≡ Err (asked_status from.now first (keep_named keep)) }
    ensures silent { asked_status from.now first (keep_named keep) ≢ OK → told.new ≡ told.old }
    ensures statuses { asked_status from.now first (keep_named keep) ≡ OK
        → IfErr result (λ status. (status ≡ MEMORY) ⊎ (status ≡ BAD_TABLE) ⊎ (status ≡ REFUSED)) }
    ensures changes { (k : Keep) → keep_named keep ≡ Some k
        → IfOk result (λ exec. Changes k first from.now table.now exec told.new) }
    ensures refused { (k : Keep) → keep_named keep ≡ Some k → result ≡ Err REFUSED
        → CannotChange k first from.now table.now told.new }
    ensures faulty { result ≡ Err BAD_TABLE → TellsFault table.now told.new }
    ensures every { (plan : PlanParts) → IsPlan plan → Spells table.now plan → IfOk
        result
        (λ exec. exec.plan ≡ plan) }
    ensures spelled { (plan : PlanParts) → IsPlan plan → Spells table.now plan
        → result ≢ Err BAD_TABLE }
    ensures places { list.new.places ≡ list.old.places }
{
    let keep = asked(from, first, keep)?;
    let mut into = open(alloc, table, told)?;
    match carry_asked(from, &mut into, list, first, keep, told) {
        OK => Ok(into),
        status => Err(status),
    }
}

/// `change`, where soft work goes over too, as with `carry_with_soft`.
pub fn change_with_soft<T: SpareTable>(
    alloc: Global,
    from: &Exec<T>,
    list: &mut CarriedList,
    table: &[u8],
    first: u32,
    keep: u32,
    told: &mut Told,
) -> Result<Exec<T>, Status>
    requires { from.now.plan.cycle ≤ list.old.places }
    ensures asked { asked_status from.now first (keep_named keep) ≢ OK
        → result ≡ Err (asked_status from.now first (keep_named keep)) }
    ensures silent { asked_status from.now first (keep_named keep) ≢ OK → told.new ≡ told.old }
    ensures statuses { asked_status from.now first (keep_named keep) ≡ OK
        → IfErr result (λ status. (status ≡ MEMORY) ⊎ (status ≡ BAD_TABLE) ⊎ (status ≡ REFUSED)) }
    ensures changes { (k : Keep) → keep_named keep ≡ Some k
        → IfOk result (λ exec. ChangesWithSoft k first from.now table.now exec told.new) }
    ensures refused { (k : Keep) → keep_named keep ≡ Some k → result ≡ Err REFUSED
        → CannotChange k first from.now table.now told.new }
    ensures faulty { result ≡ Err BAD_TABLE → TellsFault table.now told.new }
    ensures every { (plan : PlanParts) → IsPlan plan → Spells table.now plan → IfOk
        result
        (λ exec. exec.plan ≡ plan) }
    ensures spelled { (plan : PlanParts) → IsPlan plan → Spells table.now plan
        → result ≢ Err BAD_TABLE }
    ensures places { list.new.places ≡ list.old.places }
{
    let keep = asked(from, first, keep)?;
    let mut into = open(alloc, table, told)?;
    match carry_asked_with_soft(from, &mut into, list, first, keep, told) {
        OK => Ok(into),
        status => Err(status),
    }
}

/// Which offline jobs go on, where the numbers of a change are in range; else its status.
fn asked<T: SpareTable>(from: &Exec<T>, first: u32, keep: u32) -> Result<Keep, Status>
    ensures fits { IfOk result (λ k. (keep_named keep ≡ Some k)
        × (first_fits from.now first k ≡ true)) }
    ensures status { IfErr result (λ status. (status ≡ asked_status from.now first (keep_named keep))
        × (status ≢ OK)) }
{
    let Some(keep) = keep_named(keep) else {
        return Err(BAD_NUMBER);
    };
    if !first_fits(from, first, keep) {
        return Err(BAD_ROW);
    }
    Ok(keep)
}

/// The same of a change between two executives, of which the second one has to be fresh.
fn asked_of_both<T: SpareTable>(
    from: &Exec<T>,
    into: &Exec<T>,
    first: u32,
    keep: u32,
) -> Result<Keep, Status>
    ensures fresh { OnOk result (StandsFor into.now started) }
    ensures fits { IfOk result (λ k. (keep_named keep ≡ Some k)
        × (first_fits from.now first k ≡ true)) }
    ensures none { OnOk result (carry_status from.now into.now first keep ≡ OK) }
    ensures status { IfErr result (λ status. (status ≡ carry_status from.now into.now first keep)
        × (status ≢ OK)) }
{
    if !is_fresh(into) {
        return Err(NOT_FRESH);
    }
    asked(from, first, keep)
}

/// Carries over what goes on, with numbers that are in range.
fn carry_asked<T: SpareTable>(
    from: &Exec<T>,
    into: &mut Exec<T>,
    list: &mut CarriedList,
    first: u32,
    keep: Keep,
    told: &mut Told,
) -> Status
    requires fresh { StandsFor into.old started }
    requires fits { first_fits from.now first keep ≡ true }
    requires places { from.now.plan.cycle ≤ list.old.places }
    ensures done { (result ≡ OK) ⊎ (result ≡ REFUSED) }
    ensures carries { result ≡ OK → Carries keep first from.now into.old into.new told.new }
    ensures refused { result ≡ REFUSED
        → CannotCarry keep first from.now into.old into.new told.new }
    ensures plan { into.new.plan ≡ into.old.plan }
    ensures places { list.new.places ≡ list.old.places }
{
    match plan_change::carry(from, into, list, keep, first) {
        Ok(moved) => {
            *told = moved_numbers(moved);
            OK
        }
        Err(refusal) => {
            *told = refusal_numbers(refusal);
            REFUSED
        }
    }
}

/// Carries over what goes on with soft work, with numbers that are in range.
fn carry_asked_with_soft<T: SpareTable>(
    from: &Exec<T>,
    into: &mut Exec<T>,
    list: &mut CarriedList,
    first: u32,
    keep: Keep,
    told: &mut Told,
) -> Status
    requires fresh { StandsFor into.old started }
    requires fits { first_fits from.now first keep ≡ true }
    requires places { from.now.plan.cycle ≤ list.old.places }
    ensures done { (result ≡ OK) ⊎ (result ≡ REFUSED) }
    ensures carries { result ≡ OK
        → CarriesWithSoft keep first from.now into.old into.new told.new }
    ensures refused { result ≡ REFUSED
        → CannotCarryWithSoft keep first from.now into.old into.new told.new }
    ensures plan { into.new.plan ≡ into.old.plan }
    ensures places { list.new.places ≡ list.old.places }
{
    match plan_change::carry_with_soft(from, into, list, keep, first) {
        Ok(moved) => {
            *told = moved_with_soft_numbers(moved);
            OK
        }
        Err(refusal) => {
            *told = refusal_numbers(refusal);
            REFUSED
        }
    }
}

/// The remaining job at this place, with steps that nobody asks for.
fn job_counted<T: SpareTable, L: Ledger>(exec: &Exec<T>, place: u32, blank: Blank) -> Job
    requires name { blank.name ≡ L.name }
    requires parts { blank.parts ≡ L.parts }
    requires ledger { 0 < L.parts }
    requires there { place < length exec.now.scene.jobs }
    ensures { slice_get exec.now.scene.jobs place ≡ Some result }
{
    let mut steps: Steps<L> = Steps::new(blank);
    exec.job(place, &mut steps)
}

/// A job in numbers.
fn job_numbers(job: Job) -> JobNumbers
    ensures { result ≡ job_numbers job }
{
    JobNumbers {
        key: key_numbers(job.key),
        left: job.left,
        deadline: job.dl,
        start: job.est,
    }
}

/// Which offline jobs go on, where the number names it.
fn keep_named(keep: u32) -> Option<Keep>
    ensures { result ≡ keep_named keep }
{
    match keep {
        DROP => Some(Keep::Drop),
        STARTED => Some(Keep::Started),
        GRAPHS => Some(Keep::Graphs),
        _ => None,
    }
}

/// Whether offline jobs may have rows from this one on.
fn first_fits<T: SpareTable>(from: &Exec<T>, first: u32, keep: Keep) -> bool
    ensures { result ≡ first_fits from.now first keep }
{
    match keep {
        Keep::Drop => true,
        Keep::Started | Keep::Graphs => {
            from.last_row() < first && u64::from(first) + u64::from(from.cycle()) < 1 << 32
        }
    }
}

/// What was carried over in numbers.
fn moved_numbers(moved: Moved) -> Told
    ensures { result ≡ three_numbers 0 moved.carried moved.cut 0 }
{
    three_numbers(0, u64::from(moved.carried), u64::from(moved.cut), 0)
}

/// What was carried over with soft work in numbers.
fn moved_with_soft_numbers(moved: MovedWithSoft) -> Told
    ensures { result
        ≡ three_numbers moved.soft moved.jobs.carried moved.jobs.cut moved.behind }
{
    let jobs = moved.jobs;
    three_numbers(
        moved.soft,
        u64::from(jobs.carried),
        u64::from(jobs.cut),
        u64::from(moved.behind),
    )
}

/// A refusal in numbers.
fn refusal_numbers(refusal: Refusal) -> Told
    ensures { result ≡ refusal_numbers refusal }
{
    let evidence = refusal.evidence;
    three_numbers(refusal.row, evidence.until, evidence.need, evidence.room)
}
