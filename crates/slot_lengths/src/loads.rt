//! What a set needs in a cycle, before rounding and after.

ghost use Rattle.std.specs.Prelude.{◌≡◌, ◌*◌, ◌^◌, ◌≤◌, ◌<◌, true, All, Ok, length, sum_by};
ghost use Rattle.clock_units.specs.declared.sets.PhysicalSporadic.{PhysicalSporadic};
ghost use Rattle.clock_units.specs.Derived.{derived_set};
ghost use Rattle.clock_units.specs.Rounding.{up};
ghost use Rattle.slot_core.specs.declared.TheConstants.{GRAPH_LIMIT, SPORADIC_LIMIT, TASK_LIMIT};
ghost use Rattle.slot_core.specs.Sets.Ranges.{is_sound};
ghost use Rattle.slot_lengths.specs.Loads.{alarm_work, graph_work, load_of, millionths, tasks_time, work_in, HasFewJobs, HasLittleWork, IsFewTimes};

use clock_units::{PhysicalGraph, PhysicalSet, PhysicalSporadic, PhysicalTask};
use demand_test::total;
use graph_unroll::cycle_of;
use slot_core::TaskSet;

/// What a set needs in a cycle.
#[derive(Clone, Copy, PartialEq, Eq)]
pub struct Load {
    /// The cycle, in slots.
    pub cycle: u32,
    /// The slots of it that are needed, alarms as often as they may come.
    pub needed: u64,
    /// The share of it that is needed before rounding, in millionths, down.
    pub before: u64,
}

/// What the set needs in a cycle of its set in slots.
pub(crate) fn load_of(physical: &PhysicalSet, tasks: &TaskSet) -> Load
    requires sound { is_sound tasks.now ≡ true }
    requires derived { derived_set physical.now ≡ Ok tasks.now }
    ensures { result ≡ load_of physical.now tasks.now }
{
    let cycle = cycle_of(tasks).unwrap();
    let lasts = u128::from(cycle) * u128::from(physical.slot);
    let needed = total(tasks, cycle);
    let before = millionths(lasts, work_in(physical, lasts));
    Load {
        cycle,
        needed,
        before,
    }
}

/// A share of a whole in millionths.
pub(crate) fn millionths(whole: u128, part: u128) -> u64
    requires { part < 2 ^ 100 }
    ensures { result ≡ millionths whole part }
{
    let share = (part * 1_000_000).checked_div(whole).unwrap_or(0);
    share.min(u128::from(u64::MAX)) as u64
}

/// The time that jobs and alarms take within so long, before rounding: each graph once a period,
/// and alarms as often as they may come.
fn work_in(set: &PhysicalSet, time: u128) -> u128
    requires { HasLittleWork time set.now }
    ensures work { result ≡ work_in time set.now }
    ensures small { result < 2 ^ 100 }
{
    graphs_work(set.graphs.items(), time) + alarms_work(set.sporadics.items(), time)
}

/// The time that the jobs of the graphs take that are released within so long.
fn graphs_work(graphs: &[PhysicalGraph], time: u128) -> u128
    requires few { length graphs.now ≤ GRAPH_LIMIT }
    requires jobs { All (HasFewJobs time) graphs.now }
    ensures work { result ≡ sum_by (graph_work time) graphs.now }
    ensures small { result ≤ 2 ^ 90 }
{
    let mut work = 0u128;
    for graph in graphs {
        work += times_within(graph.period, time) * tasks_time(graph.tasks.items());
    }
    work
}

/// The worst cases of tasks, one after the other.
fn tasks_time(tasks: &[PhysicalTask]) -> u128
    requires { length tasks.now ≤ TASK_LIMIT }
    ensures time { result ≡ tasks_time tasks.now }
    ensures small { result ≤ TASK_LIMIT * 2 ^ 64 }
{
    let mut time = 0u128;
    for task in tasks {
        time += u128::from(task.wcet);
    }
    time
}

/// The time that the arrivals take that may come within so long.
fn alarms_work(sporadics: &[PhysicalSporadic], time: u128) -> u128
    requires few { length sporadics.now ≤ SPORADIC_LIMIT }
    requires alarms { All (λ (s : PhysicalSporadic). IsFewTimes s.separation time) sporadics.now }
    ensures work { result ≡ sum_by (alarm_work time) sporadics.now }
    ensures small { result ≤ 2 ^ 90 }
{
    let mut work = 0u128;
    for sporadic in sporadics {
        work += times_within(sporadic.separation, time) * u128::from(sporadic.wcet);
    }
    work
}

/// How often within a time something begins that comes so far apart.
fn times_within(apart: u64, time: u128) -> u128
    requires { IsFewTimes apart time }
    ensures times { result ≡ up apart time }
    ensures few { result ≤ 2 ^ 14 }
{
    time.div_ceil(u128::from(apart))
}
