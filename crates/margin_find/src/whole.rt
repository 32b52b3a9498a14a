//! How much growth the whole cycle has slots for.

ghost use Rattle.std.specs.Prelude.{◌≡◌, ℕ, ◌<◌, true, slice_get};
ghost use Rattle.std.specs.Option.{option_map_or};
ghost use Rattle.slot_core.specs.declared.tasks.Sporadic.{Sporadic};
ghost use Rattle.slot_core.specs.Feasibility.Sporadics.{arrivals_due};
ghost use Rattle.slot_core.specs.Sets.Cycles.{cycle_of};
ghost use Rattle.slot_core.specs.Sets.Ranges.{is_sound};
ghost use Rattle.slot_core.specs.Feasibility.Feasible.{IsFeasible};
ghost use Rattle.margin_find.specs.Parts.{IsTaskOf, jobs_in_cycle};
ghost use Rattle.margin_find.specs.Search.{AreBounds, StaysSound};

use crate::search::Bounds;
use cycle_plan::instances;
use demand_test::{arrivals_by, total};
use slot_core::{Part, Sporadic, TaskSet, Window};

/// How many of the densest arrivals of the sporadic task at this place are due in a cycle; 0 where
/// there is no such task.
fn arrivals_in(sporadics: &[Sporadic], index: usize, cycle: u32) -> u64
    ensures { result ≡ option_map_or
        (λ (s : Sporadic). arrivals_due s 0 0 cycle) (slice_get sporadics.now index) 0 }
{
    match sporadics.get(index) {
        Some(sporadic) => arrivals_by(sporadic, cycle),
        None => 0,
    }
}

/// How many jobs of the task the demand of a cycle counts.
fn jobs_of(tasks: &TaskSet, cycle: u32, at: Part) -> u64
    requires sound { is_sound tasks.now ≡ true }
    requires of { IsTaskOf tasks.now at }
    ensures { result ≡ jobs_in_cycle tasks.now cycle at }
{
    match at {
        Part::Task(graph, _) => instances(tasks, cycle, graph),
        Part::Sporadic(index) => { arrivals_in(tasks.sporadics.items(), usize::from(index), cycle) }
        _ => 0,
    }
}

/// What the whole cycle leaves over bounds the growth: each job of the task takes one slot more.
pub(crate) fn by_whole_cycle(tasks: &TaskSet, cycle: u32, at: Part) -> Bounds
    requires sound { is_sound tasks.now ≡ true }
    requires cycle { cycle ≡ cycle_of tasks.now }
    requires feasible { IsFeasible tasks.now cycle }
    requires of { IsTaskOf tasks.now at }
    ensures bounds { AreBounds tasks.now at result }
    ensures sound { (growth : ℕ) → growth < result.fails → StaysSound tasks.now at growth }
{
    let jobs = jobs_of(tasks, cycle, at);
    let total = total(tasks, cycle);
    let most = (u64::from(cycle) - total) / jobs;
    Bounds {
        fits: 0,
        fails: most as u32 + 1,
        window: Window {
            from: 0,
            until: u64::from(cycle),
            demand: total + jobs * (most + 1),
        },
    }
}
