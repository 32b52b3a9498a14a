//! The jobs of one cycle.

ghost use Rattle.std.specs.Prelude.{◌≡◌, true, IfOk};
ghost use Rattle.slot_core.specs.Sets.Ranges.{is_sound};
ghost use Rattle.plan_answers.specs.Who.{ordered_jobs};

use graph_unroll::unroll;
use slot_core::{Job, Memory, TaskSet};
use std::alloc::Global;
use window_derive::derive;

/// The offline jobs of the first cycle of a sound set, in deadline order, whether it fits or not.
pub(crate) fn ordered_jobs(alloc: Global, tasks: &TaskSet) -> Result<Vec<Job>, Memory>
    requires { is_sound tasks.now ≡ true }
    ensures { IfOk result (λ jobs. jobs.items ≡ ordered_jobs tasks.now) }
{
    let raw = unroll(alloc, tasks)?;
    derive(alloc, tasks, &raw)
}
