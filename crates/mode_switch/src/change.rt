//! A change of plan, and the run after it.

ghost use Rattle.std.specs.Prelude.{◌≡◌, ◌↔◌, ℕ, ◌+◌, ◌*◌, ◌%◌, ◌≤◌, ◌<◌, ◌^◌, true, All, Contains, IfOk, OnOk, None, Some, length};
ghost use Rattle.slot_core.specs.declared.TheConstants.{REPLAY_LIMIT};
ghost use Rattle.slot_core.specs.declared.jobs.Evidence.{Evidence};
ghost use Rattle.slot_core.specs.declared.jobs.Job.{Job};
ghost use Rattle.slot_core.specs.declared.jobs.Key.{Key};
ghost use Rattle.slot_core.specs.Keeping.Executives.{IsKept, StandsFor};
ghost use Rattle.slot_core.specs.Keeping.Plans.{AreInDeadlineOrder, IsPlan};
ghost use Rattle.slot_core.specs.Runs.Arrivals.{key_in_set};
ghost use Rattle.slot_core.specs.Runs.Histories.{History};
ghost use Rattle.slot_core.specs.Runs.Scenes.{remaining};
ghost use Rattle.change_laws.specs.Carried.{AreCarried, jobs_after};
ghost use Rattle.change_laws.specs.Demand.{ShowsNoRoom, refusal_of};
ghost use Rattle.change_laws.specs.Grants.{CanChange};
ghost use Rattle.mode_switch.specs.Keeping.{NoneIsReady, carried_from, change_from, history_of_change};
ghost use Rattle.mode_switch.specs.Parts.{time_of_change};
ghost use Rattle.mode_switch.specs.Runs.{IsServedAfter, turn_at};
ghost use Rattle.mode_switch.specs.declared.change.ChangeFault.TheVariants.{Memory as MemoryFault};

use crate::carried::carried_jobs;
use crate::cycles::{first_cycle, pass};
use crate::due::refusal;
use crate::turns::{Turn, next_carried, run, turn_between};
use cycle_plan::Plan;
use interval_row::SpareTable;
use job_queue::JobQueue;
use slot_core::{Evidence, Job, Memory, Steps, TaskSet};
use slot_exec::Exec;
use std::alloc::Global;
use std::error::Error;
use std::fmt;
use std::marker::{Brand, Model};
use std::sync::ledger::{Blank, Ledger};

/// Why a change of plan is refused.
#[derive(Clone, Copy, PartialEq, Eq)]
pub enum ChangeFault {
    /// Memory ran out.
    Memory,
    /// For some sporadic arrivals that may still come, no schedule serves it: the evidence is the
    /// first time by which more is needed than there are slots from the change on.
    NoRoom(Evidence),
}

impl fmt::Display for ChangeFault {
    ghost use Rattle.std.specs.Prelude.{Some};
    ghost use Rattle.mode_switch.specs.FaultTexts.{change_fault_text};

    ghost output = { λ fault. Some (change_fault_text fault) };

    fn fmt<W: fmt::Write>(&self, f: &mut fmt::Formatter<W>) -> fmt::Result {
        match self {
            ChangeFault::Memory => write!(f, "out of memory"),
            ChangeFault::NoRoom(e) => write!(f, "noroom {} {} {}", e.until, e.need, e.room),
        }
    }
}

impl fmt::Debug for ChangeFault {
    fn fmt<W: fmt::Write>(&self, f: &mut fmt::Formatter<W>) -> fmt::Result {
        fmt::Display::fmt(self, f)
    }
}

impl Error for ChangeFault {}

impl From<Memory> for ChangeFault {
    ghost from_gives = { λ _ fault. fault ≡ MemoryFault };

    fn from(_memory: Memory) -> ChangeFault {
        ChangeFault::Memory
    }
}

/// A change to a second plan, made at the end of a cycle of the first, and the run after it.
///
/// Contracts see the second plan, the time of the change, the jobs that were carried over as they
/// stood then, and the slots that have passed since. All times are in slots. `open` takes all
/// memory, and no later call takes any.
///
/// The carried jobs stand by deadline and may all start, so they end one after the other from the
/// front; the jobs of the second set that may come are those of the cycle that has begun.
#[derive(Drop)]
pub struct Change {
    plan: Plan,
    at: u64,
    carried: Vec<Job>,
    passed: u64,
    /// So many of the carried jobs have ended.
    ended: usize,
    /// The next one has run this many slots since the change.
    ran: u32,
    own: JobQueue,
}

impl Model for Change {
    ghost use Rattle.mode_switch.specs.Keeping.{KeepsChange};
    ghost use Rattle.mode_switch.specs.Parts.{ChangeParts};

    ghost Value = { ChangeParts };

    ghost view = { λ c. record {
      plan = c.plan;
      at = c.at;
      carried = c.carried.items;
      passed = c.passed;
    } };

    ghost invariant = { λ c. KeepsChange
        (record { plan = c.plan; at = c.at; carried = c.carried.items; passed = c.passed })
        c.ended
        c.ran
        c.own };
}

impl Change {
    /// Changes from an executive, whose time is the end of a cycle of its plan, to a second plan.
    /// It carries the firm and sporadic jobs that remain. NoRoom exactly where the change cannot be
    /// served: where for some legal arrivals of the second set's sporadic tasks no slot schedule
    /// serves them beside the carried jobs and the offline jobs of the second plan.
    pub fn open<T: SpareTable>(
        alloc: Global,
        exec: &Exec<T>,
        plan: Plan,
    ) -> Result<Change, ChangeFault>
        requires later { 0 < exec.now.scene.time }
        requires turn { exec.now.scene.time % exec.now.plan.cycle ≡ 0 }
        requires early { exec.now.scene.time ≤ REPLAY_LIMIT }

        // A grant: the change, which can be served.
        ensures granted { IfOk result (λ change. change ≡ change_from exec.now plan) }
        ensures served { OnOk result (CanChange
            plan.tasks
            exec.now.scene.time
            (carried_from exec.now.scene.jobs)
            (exec.now.last_row + 1)) }
        ensures fits { OnOk result
            (refusal_of plan.tasks exec.now.scene.time (carried_from exec.now.scene.jobs) ≡ None) }

        // A refusal: it cannot be served, and the evidence is that of the least time that shows it.
        ensures refused { (e : Evidence) → result ≡ Err (ChangeFault.NoRoom e)
            → ¬ (CanChange
            plan.tasks
            exec.now.scene.time
            (carried_from exec.now.scene.jobs)
            (exec.now.last_row + 1)) }
        ensures no_room { (e : Evidence) → result ≡ Err (ChangeFault.NoRoom e)
            → ShowsNoRoom
            plan.tasks
            exec.now.scene.time
            (carried_from exec.now.scene.jobs)
            e }
        ensures evidence { (e : Evidence) → result ≡ Err (ChangeFault.NoRoom e)
            → refusal_of plan.tasks exec.now.scene.time (carried_from exec.now.scene.jobs)
            ≡ Some e }

        // The carried jobs are those of each history for which the executive stands, and have keys
        // of its set.
        ensures of_history { (h : History) → StandsFor exec.now h
            → carried_from exec.now.scene.jobs
            ≡ carried_from (remaining exec.now.plan.tasks exec.now.plan.cycle h) }
        ensures named { All
            (λ (j : Job). key_in_set exec.now.plan.tasks j.key ≡ true)
            (carried_from exec.now.scene.jobs) }
    {
        open_at(alloc, exec, plan, exec.now())
    }

    /// The time in slots. This call also tells what every change keeps: at all times each job that
    /// is due has run its slots in its window and in order, however many cycles are looked at.
    pub fn now(&self) -> u64
        ensures time { result ≡ time_of_change self.now }
        ensures early { result ≤ 2 ^ 32 }
        ensures plan { IsPlan self.now.plan }
        ensures carried { (row : ℕ)
            × AreCarried self.now.at row self.now.carried
            × CanChange self.now.plan.tasks self.now.at self.now.carried (row + 1) }
        ensures ordered { AreInDeadlineOrder self.now.carried }
        ensures served { (cycles : ℕ) → IsServedAfter
            self.now.plan.tasks
            (jobs_after self.now.plan.tasks self.now.at self.now.carried cycles)
            (history_of_change self.now) }
    {
        self.at + self.passed
    }

    /// The task set of the second plan, which names the keys of `Turn::New`.
    pub fn tasks(&self) -> &TaskSet
        ensures tasks { result.now ≡ self.now.plan.tasks }
        ensures plan { IsPlan self.now.plan }
    {
        self.plan.tasks()
    }

    /// One slot passes. The ready job of the least deadline runs, of a carried and another one with
    /// the same deadline the carried one; else by kind, then by key. Idle exactly where no job is
    /// ready.
    pub fn slot(&mut self) -> Turn
        requires { time_of_change self.old < 2 ^ 32 }
        ensures turn { result
            ≡ turn_at self.old.plan.tasks self.old.at self.old.carried self.old.passed }
        ensures idle { (result ≡ Turn.Idle) ↔ NoneIsReady
            self.old.plan.tasks
            self.old.at
            self.old.carried
            (history_of_change self.old) }
        ensures old_key { (key : Key) → result ≡ Turn.Old key
            → (job : Job) × Contains self.old.carried job × (job.key ≡ key) }
        ensures new_key { (key : Key) → result ≡ Turn.New key
            → key_in_set self.old.plan.tasks key ≡ true }
        ensures passes { self.new ≡ record self.old { passed = self.old.passed + 1 } }
    {
        self.slot_counted::<Brand>(Blank::new(1))
    }

    /// `slot`, with steps that nobody asks for.
    fn slot_counted<L: Ledger>(&mut self, blank: Blank) -> Turn
        requires name { blank.name ≡ L.name }
        requires parts { blank.parts ≡ L.parts }
        requires some { 0 < L.parts }
        requires early { time_of_change self.old < 2 ^ 32 }
        ensures turn { result
            ≡ turn_at self.old.plan.tasks self.old.at self.old.carried self.old.passed }
        ensures idle { (result ≡ Turn.Idle) ↔ NoneIsReady
            self.old.plan.tasks
            self.old.at
            self.old.carried
            (history_of_change self.old) }
        ensures old_key { (key : Key) → result ≡ Turn.Old key
            → (job : Job) × Contains self.old.carried job × (job.key ≡ key) }
        ensures new_key { (key : Key) → result ≡ Turn.New key
            → key_in_set self.old.plan.tasks key ≡ true }
        ensures passes { self.new ≡ record self.old { passed = self.old.passed + 1 } }
    {
        let mut steps: Steps<L> = Steps::new(blank);
        let carried = next_carried(&self.carried, self.at, self.ended, self.ran);
        let own = self.own.earliest(self.passed, &mut steps);
        let turn = turn_between(carried, own);
        let (ended, ran) = run(
            turn,
            &self.carried,
            self.ended,
            self.ran,
            &mut self.own,
            &mut steps,
        );
        self.ended = ended;
        self.ran = ran;
        self.passed += 1;
        pass(&self.plan, self.passed, &mut self.own, &mut steps);
        turn
    }
}

/// Changes from an executive at its time `at` to a second plan.
fn open_at<T: SpareTable>(
    alloc: Global,
    exec: &Exec<T>,
    plan: Plan,
    at: u64,
) -> Result<Change, ChangeFault>
    requires now { at ≡ exec.now.scene.time }
    requires early { at ≤ REPLAY_LIMIT }
    requires kept { IsKept exec.now }
    requires few_jobs { length exec.now.scene.jobs ≤ 3 * exec.now.plan.cycle }
    ensures granted { IfOk result (λ change. change ≡ change_from exec.now plan) }
    ensures served { OnOk result (CanChange
        plan.tasks
        exec.now.scene.time
        (carried_from exec.now.scene.jobs)
        (exec.now.last_row + 1)) }
    ensures fits { OnOk result
        (refusal_of plan.tasks exec.now.scene.time (carried_from exec.now.scene.jobs) ≡ None) }
    ensures refused { (e : Evidence) → result ≡ Err (ChangeFault.NoRoom e)
        → ¬ (CanChange
        plan.tasks
        exec.now.scene.time
        (carried_from exec.now.scene.jobs)
        (exec.now.last_row + 1)) }
    ensures no_room { (e : Evidence) → result ≡ Err (ChangeFault.NoRoom e)
        → ShowsNoRoom plan.tasks exec.now.scene.time (carried_from exec.now.scene.jobs) e }
    ensures evidence { (e : Evidence) → result ≡ Err (ChangeFault.NoRoom e)
        → refusal_of plan.tasks exec.now.scene.time (carried_from exec.now.scene.jobs)
        ≡ Some e }
{
    let carried = carried_jobs(alloc, exec)?;
    let refused = refusal(alloc, &plan, &carried, at)?;
    match refused {
        Some(evidence) => Err(ChangeFault::NoRoom(evidence)),
        None => Ok(grant(alloc, plan, at, carried)?),
    }
}

/// The change at time `at`, which can be served with these carried jobs, before its first slot.
fn grant(alloc: Global, plan: Plan, at: u64, carried: Vec<Job>) -> Result<Change, Memory>
    requires early { at ≤ REPLAY_LIMIT }
    requires ordered { AreInDeadlineOrder carried.items }
    requires served { (row : ℕ)
        × AreCarried at row carried.items
        × CanChange plan.tasks at carried.items (row + 1) }
    ensures { IfOk result (λ change. change
        ≡ record { plan = plan; at = at; carried = carried.items; passed = 0 }) }
{
    let own = first_cycle(alloc, &plan)?;
    Ok(Change {
        plan,
        at,
        carried,
        passed: 0,
        ended: 0,
        ran: 0,
        own,
    })
}
