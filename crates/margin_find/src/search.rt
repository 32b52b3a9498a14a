//! The search for the greatest growth with which a set still fits.

ghost use Rattle.std.specs.Prelude.{◌≡◌, ℕ, ◌+◌, ◌-◌, ◌≤◌, ◌<◌, IfOk};
ghost use Rattle.slot_core.specs.declared.faults.Part.TheVariants.{Task as TaskPart, Sporadic as SporadicPart};
ghost use Rattle.demand_test.specs.Verdicts.{verdict_of};
ghost use Rattle.margin_find.specs.Kept.{ServesFor};
ghost use Rattle.margin_find.specs.Parts.{IsTaskOf};
ghost use Rattle.margin_find.specs.Search.{counterexample_of, AreBounds, StaysSound};

use crate::copies::{longer_alone, longer_sporadics};
use crate::kept::Kept;
use crate::own::{jobs_by_start, joined};
use cycle_plan::Plan;
use demand_test::{Verdict, needed_table, test_with};
use slot_core::{Memory, Part, Window};
use std::alloc::Global;

/// A growth with which the set fits, a greater one with which it does not, and the counterexample
/// to that one.
#[derive(Clone, Copy)]
pub struct Bounds {
    pub fits: u32,
    pub fails: u32,
    pub window: Window,
}

/// The window of a verdict that fails, or none.
fn window_of(verdict: Verdict) -> Option<Window>
    ensures { verdict ≡ verdict_of result }
{
    match verdict {
        Verdict::Fits => None,
        Verdict::Fails(window) => Some(window),
    }
}

/// The counterexample with this growth of a task of a graph, or none: beside the other graphs'
/// jobs, which stay as they are, the jobs of its graph are made anew.
fn refusal_of_task(
    alloc: Global,
    plan: &Plan,
    kept: &Kept,
    graph: u16,
    task: u16,
    growth: u32,
) -> Result<Option<Window>, Memory>
    requires of { IsTaskOf plan.now.tasks (TaskPart graph task) }
    requires sound { StaysSound plan.now.tasks (TaskPart graph task) growth }
    requires kept { ServesFor plan.now.tasks (TaskPart graph task) kept.now }
    ensures { IfOk result (λ window. window
        ≡ counterexample_of plan.now.tasks (TaskPart graph task) growth) }
{
    let tasks = plan.tasks();
    let graph = &tasks.graphs.items()[usize::from(graph)];
    let alone = longer_alone(
        alloc,
        tasks.soft_limit,
        kept.cycle,
        graph,
        usize::from(task),
        growth,
    )?;
    let own = jobs_by_start(alloc, &alone)?;
    let jobs = joined(alloc, kept.others.as_slice(), own.as_slice())?;
    let arrivals = kept.arrivals.items();
    let verdict = test_with(
        alloc,
        jobs.as_slice(),
        plan.sporadics(),
        arrivals,
        kept.cycle,
    )?;
    Ok(window_of(verdict))
}

/// The counterexample with this growth of a sporadic task, or none: the jobs of the graphs stay as
/// they are.
fn refusal_of_sporadic(
    alloc: Global,
    plan: &Plan,
    index: u8,
    growth: u32,
) -> Result<Option<Window>, Memory>
    requires of { IsTaskOf plan.now.tasks (SporadicPart index) }
    requires sound { StaysSound plan.now.tasks (SporadicPart index) growth }
    ensures { IfOk result (λ window. window
        ≡ counterexample_of plan.now.tasks (SporadicPart index) growth) }
{
    let cycle = plan.cycle();
    let longer = longer_sporadics(alloc, plan.sporadics(), usize::from(index), growth)?;
    let arrivals = needed_table(alloc, longer.items(), 2 * cycle)?;
    let jobs = plan.jobs_by_start();
    let verdict = test_with(alloc, jobs, longer.items(), arrivals.items(), cycle)?;
    Ok(window_of(verdict))
}

/// The counterexample with this growth, or none.
fn refusal(
    alloc: Global,
    plan: &Plan,
    kept: &Kept,
    at: Part,
    growth: u32,
) -> Result<Option<Window>, Memory>
    requires of { IsTaskOf plan.now.tasks at }
    requires sound { StaysSound plan.now.tasks at growth }
    requires kept { ServesFor plan.now.tasks at kept.now }
    ensures { IfOk result (λ window. window ≡ counterexample_of plan.now.tasks at growth) }
{
    match at {
        Part::Task(graph, task) => refusal_of_task(alloc, plan, kept, graph, task, growth),
        Part::Sporadic(index) => refusal_of_sporadic(alloc, plan, index, growth),
        _ => Ok(None),
    }
}

/// The growth to try next: first the one that is likely and one slot more, then the greatest for
/// which the whole cycle has slots, then halves.
fn next_try(fits: u32, fails: u32, whole: u32, likely: u32) -> u32
    requires { fits + 1 < fails }
    ensures { (fits < result) × (result < fails) }
{
    if fits < likely && likely < fails {
        return likely;
    }
    if fits == likely {
        return fits + 1;
    }
    if fails >= whole {
        return fails - 1;
    }
    fits + (fails - fits) / 2
}

/// Bounds that are nearer, after a growth between them was tried.
fn nearer(
    alloc: Global,
    plan: &Plan,
    kept: &Kept,
    at: Part,
    bounds: Bounds,
    growth: u32,
) -> Result<Bounds, Memory>
    requires of { IsTaskOf plan.now.tasks at }
    requires bounds { AreBounds plan.now.tasks at bounds }
    requires sound { StaysSound plan.now.tasks at growth }
    requires kept { ServesFor plan.now.tasks at kept.now }
    requires between { (bounds.fits < growth) × (growth < bounds.fails) }
    ensures bounds { IfOk result (AreBounds plan.now.tasks at) }
    ensures nearer { IfOk result (λ b. b.fails - b.fits < bounds.fails - bounds.fits) }
    ensures fails { IfOk result (λ b. b.fails ≤ bounds.fails) }
{
    match refusal(alloc, plan, kept, at, growth)? {
        None => Ok(Bounds {
            fits: growth,
            fails: bounds.fails,
            window: bounds.window,
        }),
        Some(window) => Ok(Bounds {
            fits: bounds.fits,
            fails: growth,
            window,
        }),
    }
}

/// Bounds one slot apart.
pub(crate) fn narrowed(
    alloc: Global,
    plan: &Plan,
    kept: &Kept,
    at: Part,
    whole: Bounds,
    likely: u32,
) -> Result<Bounds, Memory>
    requires of { IsTaskOf plan.now.tasks at }
    requires bounds { AreBounds plan.now.tasks at whole }
    requires sound { (growth : ℕ) → growth < whole.fails → StaysSound plan.now.tasks at growth }
    requires kept { ServesFor plan.now.tasks at kept.now }
    ensures bounds { IfOk result (AreBounds plan.now.tasks at) }
    ensures near { IfOk result (λ b. b.fails ≡ b.fits + 1) }
{
    let mut bounds = whole;
    while bounds.fails - bounds.fits > 1 {
        let growth = next_try(bounds.fits, bounds.fails, whole.fails, likely);
        bounds = nearer(alloc, plan, kept, at, bounds, growth)?;
    }
    Ok(bounds)
}
