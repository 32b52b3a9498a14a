//! By how much a task may grow.

ghost use Rattle.std.specs.Prelude.{◌≡◌};
ghost use Rattle.sample_sets.specs.Sets.{alarm_set};

use cycle_plan::{Plan, make_plan};
use margin_find::{Margin, find_margin};
use sample_sets::alarm_set;
use slot_core::{Memory, Part, Window};
use std::alloc::Global;
use std::test::Fail;

#[test]
fn tells_the_margin_of_a_task(rt: HostRuntime) -> Result<(), Fail> {
    let tasks = alarm_set(rt.alloc())?;
    let plan = make_plan(rt.alloc(), tasks).ok().ok_or("no plan")?;
    assert!(rt; are_margins(rt.alloc(), &plan) == Ok(true));
    Ok(())
}

/// Of two tasks with three slots in eight the second may grow by four, which with the slot of the
/// alarm fills the cycle; the alarm, of one slot within two, may grow by one.
fn are_margins(alloc: Global, plan: &Plan) -> Result<bool, Memory>
    requires { plan.now.tasks ≡ alarm_set }
{
    let task = find_margin(alloc, plan, Part::Task(0, 1))?;
    let alarm = find_margin(alloc, plan, Part::Sporadic(0))?;
    Ok(is_margin(&task, 4, (0, 8, 9)) && is_margin(&alarm, 1, (0, 2, 3)))
}

/// Whether a task may grow by this many slots, and with one more this window fails.
fn is_margin(margin: &Margin, growth: u32, (from, until, demand): (u64, u64, u64)) -> bool {
    let window = Window {
        from,
        until,
        demand,
    };
    margin.growth == growth && margin.window == window
}
