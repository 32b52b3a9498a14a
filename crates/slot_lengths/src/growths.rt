//! The least margin of the tasks of a set.

ghost use Rattle.std.specs.Prelude.{◌≡◌, map, true, IfOk};
ghost use Rattle.slot_core.specs.Sets.Ranges.{is_sound};
ghost use Rattle.slot_lengths.specs.Growths.{growth_in, least_growth, least_of};

use cycle_plan::Plan;
use margin_find::{TaskMargin, find_margins};
use slot_core::{Memory, SLOT_LIMIT};
use std::alloc::Global;

/// By how many slots each task and sporadic task of the plan may grow alone.
pub(crate) fn least_growth(alloc: Global, plan: &Plan) -> Result<u32, Memory>
    requires { is_sound plan.now.tasks ≡ true }
    ensures { IfOk result (λ growth. growth ≡ least_growth plan.now.tasks) }
{
    let margins = find_margins(alloc, plan)?;
    Ok(least_of(margins.items()))
}

/// The least of these margins.
fn least_of(margins: &[TaskMargin]) -> u32
    ensures { result ≡ least_of (map growth_in margins.now) }
{
    let mut least = SLOT_LIMIT;
    for found in margins {
        least = least.min(found.margin.growth);
    }
    least
}
