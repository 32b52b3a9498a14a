//! The margin of a task of a plan.

ghost use Rattle.std.specs.Prelude.{IfOk};
ghost use Rattle.slot_core.specs.Claims.Growth.{IsMargin};
ghost use Rattle.margin_find.specs.Kept.{ServesFor};
ghost use Rattle.margin_find.specs.Parts.{IsTaskOf};

use crate::kept::Kept;
use crate::search::narrowed;
use crate::whole::by_whole_cycle;
use cycle_plan::Plan;
use slot_core::{Memory, Part, Window};
use std::alloc::Global;

/// How much the worst case of a task may grow.
#[derive(Clone, Copy, PartialEq, Eq)]
pub struct Margin {
    /// The greatest growth with which the set still fits, in slots.
    pub growth: u32,
    /// The counterexample with one slot more.
    pub window: Window,
}

/// The margin of a task, with its place in the set.
#[derive(Drop)]
pub struct TaskMargin {
    pub at: Part,
    pub margin: Margin,
}

/// The margin of a task or sporadic task of the plan's set.
pub fn find_margin(alloc: Global, plan: &Plan, at: Part) -> Result<Margin, Memory>
    requires { IsTaskOf plan.now.tasks at }
    ensures { IfOk result (λ m. IsMargin plan.now.tasks at m.growth m.window) }
{
    margin_near(alloc, plan, at, 0)
}

/// The same, found faster where the margin is near a growth that is likely, as that of a neighbour.
pub fn margin_near(alloc: Global, plan: &Plan, at: Part, likely: u32) -> Result<Margin, Memory>
    requires { IsTaskOf plan.now.tasks at }
    ensures { IfOk result (λ m. IsMargin plan.now.tasks at m.growth m.window) }
{
    let kept = Kept::of(alloc, plan, at)?;
    margin_beside(alloc, plan, &kept, at, likely)
}

/// The same, with what the tests of this task share.
pub(crate) fn margin_beside(
    alloc: Global,
    plan: &Plan,
    kept: &Kept,
    at: Part,
    likely: u32,
) -> Result<Margin, Memory>
    requires of { IsTaskOf plan.now.tasks at }
    requires kept { ServesFor plan.now.tasks at kept.now }
    ensures { IfOk result (λ m. IsMargin plan.now.tasks at m.growth m.window) }
{
    let whole = by_whole_cycle(plan.tasks(), plan.cycle(), at);
    let bounds = narrowed(alloc, plan, kept, at, whole, likely)?;
    Ok(Margin {
        growth: bounds.fits,
        window: bounds.window,
    })
}
