//! Plans and how they are made.

ghost use Rattle.std.specs.Prelude.{◌≡◌, ℕ, ◌≤◌, ◌<◌, true, All, Some, None, length, slice_get, IfOk, IfSome, IsPermutation};
ghost use Rattle.slot_core.specs.declared.TheConstants.{CYCLES_LIMIT};
ghost use Rattle.slot_core.specs.declared.jobs.Job.{Job};
ghost use Rattle.slot_core.specs.declared.jobs.Window.{Window};
ghost use Rattle.slot_core.specs.Sets.Cycles.{cycle_of};
ghost use Rattle.slot_core.specs.Feasibility.Feasible.{counterexample, demand};
ghost use Rattle.slot_core.specs.Claims.Futures.{CyclesCanBeServed, DensestLeavesNone};
ghost use Rattle.slot_core.specs.Offline.OfflineJobs.{cycle_jobs, later_job};
ghost use Rattle.slot_core.specs.Keeping.Plans.{AreInDeadlineOrder, IsPlan};
ghost use Rattle.slot_core.specs.Sets.Ranges.{is_sound};
ghost use Rattle.demand_test.specs.Verdicts.{verdict_of};
ghost use Rattle.cycle_plan.specs.NearJobs.{IsNear};
ghost use Rattle.interval_build.specs.FirstJobs.{AreFirstJobs};
ghost use Rattle.spare_capacity.specs.PlanSpans.{ArePlanSpans};
ghost use Rattle.spare_capacity.specs.Recurrence.{last_end};
ghost use Rattle.cycle_plan.specs.StartOrder.{AreInStartOrder, StartsRise};
ghost use Rattle.cycle_plan.specs.declared.plan.PlanFault.TheVariants.{Memory as MemoryFault};

use crate::later::later_job;
use crate::starts::sorted_by_start;
use demand_test::{Verdict, test, total};
use graph_unroll::{cycle_of, unroll};
use interval_build::build;
use slot_core::{Job, Memory, Span, Sporadic, TaskSet, Window};
use std::alloc::Global;
use std::error::Error;
use std::fmt;
use std::marker::Model;
use window_derive::derive;

/// A sound and feasible task set with its cycle, the offline jobs of the first cycle in deadline
/// order and once more by start, and the spans of the first cycle before the first slot. Its type
/// keeps that all agree.
#[derive(Drop)]
pub struct Plan {
    tasks: TaskSet,
    cycle: u32,
    jobs: Vec<Job>,
    by_start: Vec<Job>,
    spans: Vec<Span>,
}

impl Model for Plan {
    ghost use Rattle.slot_core.specs.Keeping.Plans.{PlanParts};
    ghost use Rattle.cycle_plan.specs.StartOrder.{KeepsPlan};

    ghost Value = { PlanParts };

    ghost view = { λ p. record {
      tasks = p.tasks;
      cycle = p.cycle;
      jobs = p.jobs.items;
      spans = p.spans.items;
    } };

    ghost invariant = { λ p. KeepsPlan
        (record { tasks = p.tasks; cycle = p.cycle; jobs = p.jobs.items; spans = p.spans.items })
        p.by_start.items };
}

/// Why a set has no plan.
#[derive(Clone, Copy, PartialEq, Eq)]
pub enum PlanFault {
    /// Memory ran out.
    Memory,
    /// A window with more demand than slots: the whole cycle where it is too short, else the first
    /// one.
    Infeasible(Window),
}

impl fmt::Display for PlanFault {
    ghost use Rattle.std.specs.Prelude.{Some};
    ghost use Rattle.cycle_plan.specs.FaultTexts.{plan_fault_text};

    ghost output = { λ fault. Some (plan_fault_text fault) };

    fn fmt<W: fmt::Write>(&self, f: &mut fmt::Formatter<W>) -> fmt::Result {
        match self {
            PlanFault::Memory => write!(f, "out of memory"),
            PlanFault::Infeasible(w) => write!(f, "infeasible {} {} {}", w.from, w.until, w.demand),
        }
    }
}

impl fmt::Debug for PlanFault {
    fn fmt<W: fmt::Write>(&self, f: &mut fmt::Formatter<W>) -> fmt::Result {
        fmt::Display::fmt(self, f)
    }
}

impl Error for PlanFault {}

impl From<Memory> for PlanFault {
    ghost from_gives = { λ _ fault. fault ≡ MemoryFault };

    fn from(_memory: Memory) -> PlanFault {
        PlanFault::Memory
    }
}

/// The plan of a sound set, or the counterexample to its feasibility.
pub fn make_plan(alloc: Global, tasks: TaskSet) -> Result<Plan, PlanFault>
    requires { is_sound tasks ≡ true }
    ensures tasks { IfOk result (λ plan. plan.tasks ≡ tasks) }
    ensures plan { IfOk result IsPlan }
    ensures infeasible { (w : Window) → result ≡ Err (PlanFault.Infeasible w)
        → counterexample tasks (cycle_of tasks) ≡ Some w }

    // What it means over slot schedules.
    ensures schedules { IfOk result (λ plan. (cycles : ℕ) → CyclesCanBeServed plan.tasks cycles) }
    ensures none { (w : Window) → result ≡ Err (PlanFault.Infeasible w)
        → ¬ (CyclesCanBeServed tasks 3) × DensestLeavesNone tasks w.from }
{
    let cycle = cycle_of(&tasks).unwrap();
    let (jobs, by_start) = feasible_jobs(alloc, &tasks, cycle)?;
    let spans = build(alloc, &jobs, cycle)?;
    Ok(Plan {
        tasks,
        cycle,
        jobs,
        by_start,
        spans,
    })
}

/// The counterexample to the feasibility of a sound set, or none.
pub fn counterexample(alloc: Global, tasks: &TaskSet) -> Result<Option<Window>, Memory>
    requires { is_sound tasks.now ≡ true }
    ensures { IfOk result (λ window. window ≡ counterexample tasks.now (cycle_of tasks.now)) }
{
    let cycle = cycle_of(tasks).unwrap();
    match feasible_jobs(alloc, tasks, cycle) {
        Ok(_) => Ok(None),
        Err(PlanFault::Infeasible(window)) => Ok(Some(window)),
        Err(PlanFault::Memory) => Err(Memory),
    }
}

/// The offline jobs of the first cycle of a sound and feasible set, by deadline and then by key,
/// and the same jobs by start, or the counterexample to its feasibility.
fn feasible_jobs(
    alloc: Global,
    tasks: &TaskSet,
    cycle: u32,
) -> Result<(Vec<Job>, Vec<Job>), PlanFault>
    requires sound { is_sound tasks.now ≡ true }
    requires cycle { cycle ≡ cycle_of tasks.now }
    ensures listed { IfOk result (λ jobs. AreFirstJobs tasks.now jobs.0.items) }
    ensures by_start { IfOk result (λ jobs. IsPermutation jobs.0.items jobs.1.items) }
    ensures ordered { IfOk result (λ jobs. AreInStartOrder jobs.1.items) }
    ensures none { IfOk result (λ _. counterexample tasks.now cycle ≡ None) }
    ensures infeasible { (w : Window) → result ≡ Err (PlanFault.Infeasible w)
        → counterexample tasks.now cycle ≡ Some w }
{
    let demand = total(tasks, cycle);
    if demand > u64::from(cycle) {
        return Err(PlanFault::Infeasible(Window {
            from: 0,
            until: u64::from(cycle),
            demand,
        }));
    }
    let jobs = first_jobs(alloc, tasks)?;
    // By start, as the test wants them, so that it sorts no copy.
    let by_start = sorted_by_start(alloc, &jobs)?;
    match verdict(alloc, tasks, cycle, &by_start)? {
        Verdict::Fits => Ok((jobs, by_start)),
        Verdict::Fails(window) => Err(PlanFault::Infeasible(window)),
    }
}

/// The offline jobs of the first cycle, by deadline and then by key.
fn first_jobs(alloc: Global, tasks: &TaskSet) -> Result<Vec<Job>, Memory>
    requires { is_sound tasks.now ≡ true }
    ensures listed { IfOk result (λ jobs.
        IsPermutation (cycle_jobs tasks.now (cycle_of tasks.now) 0) jobs.items) }
    ensures ordered { IfOk result (λ jobs. AreInDeadlineOrder jobs.items) }
{
    let raw = unroll(alloc, tasks)?;
    derive(alloc, tasks, &raw)
}

/// The cycle test of a set whose demand fits the cycle as a whole, with the jobs of its first
/// cycle.
fn verdict(alloc: Global, tasks: &TaskSet, cycle: u32, jobs: &[Job]) -> Result<Verdict, Memory>
    requires sound { is_sound tasks.now ≡ true }
    requires cycle { cycle ≡ cycle_of tasks.now }
    requires listed { IsPermutation (cycle_jobs tasks.now cycle 0) jobs.now }
    requires fits { demand tasks.now cycle 0 cycle ≤ cycle }
    ensures { IfOk result (λ v. v ≡ verdict_of (counterexample tasks.now cycle)) }
{
    test(alloc, jobs, tasks.sporadics.items(), cycle)
}

impl Plan {
    /// The cycle in slots: 1 to `SLOT_LIMIT`.
    pub fn cycle(&self) -> u32
        ensures cycle { result ≡ self.now.cycle }
        ensures plan { IsPlan self.now }
    {
        self.cycle
    }

    /// The task set that the plan was made of.
    pub fn tasks(&self) -> &TaskSet
        ensures tasks { result.now ≡ self.now.tasks }
        ensures plan { IsPlan self.now }
    {
        &self.tasks
    }

    /// The offline jobs of the first cycle, by deadline and then by key.
    pub fn jobs(&self) -> &[Job]
        ensures jobs { result.now ≡ self.now.jobs }
        ensures plan { IsPlan self.now }
    {
        self.jobs.as_slice()
    }

    /// The same jobs in the order in which they come: by start, and those of one start backwards
    /// by deadline and key.
    pub fn jobs_by_start(&self) -> &[Job]
        ensures items { IsPermutation self.now.jobs result.now }
        ensures ordered { AreInStartOrder result.now }
        ensures starts { StartsRise result.now }
        ensures near { All IsNear result.now }
        ensures plan { IsPlan self.now }
    {
        self.by_start.as_slice()
    }

    /// The spans of the first cycle before the first slot.
    pub fn spans(&self) -> &[Span]
        ensures spans { result.now ≡ self.now.spans }
        ensures plan { IsPlan self.now }
        ensures proper { ArePlanSpans self.now.spans }
        ensures whole { last_end 0 self.now.spans ≡ self.now.cycle }
    {
        self.spans.as_slice()
    }

    /// The sporadic tasks of the set.
    pub fn sporadics(&self) -> &[Sporadic]
        ensures sporadics { result.now ≡ self.now.tasks.sporadics }
    {
        self.tasks.sporadics.items()
    }

    /// A job of the first cycle, as it stands this many cycles later.
    pub fn later_job(&self, job: Job, cycles: u64) -> Job
        requires near { IsNear job }
        requires few { cycles ≤ CYCLES_LIMIT }
        ensures { result ≡ later_job self.now.tasks self.now.cycle cycles job }
    {
        later_job(&self.tasks, self.cycle, cycles, job)
    }

    /// The job at this place of the first cycle, as it stands this many cycles later.
    pub fn job_in_cycle(&self, i: usize, cycles: u64) -> Job
        requires place { i < length self.now.jobs }
        requires near { cycles ≤ CYCLES_LIMIT }
        ensures { IfSome (slice_get self.now.jobs i) (λ job. result
            ≡ later_job self.now.tasks self.now.cycle cycles job) }
    {
        later_job(&self.tasks, self.cycle, cycles, self.jobs[i])
    }
}
