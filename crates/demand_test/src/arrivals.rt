//! The densest arrivals of sporadic tasks.

ghost use Rattle.std.specs.Prelude.{◌≡◌, ◌+◌, ◌-◌, ◌*◌, ◌^◌, ◌<◌, ◌≤◌, [], All, IfOk, MatchOption, ℕ, map, slice_index};
ghost use Rattle.std.specs.List.{range_with_len};
ghost use Rattle.slot_core.specs.Feasibility.Sporadics.{arrivals_due, sporadic_demand};

use slot_core::{List, Memory, Sporadic};
use std::alloc::Global;

/// Demand from here on is not counted, so that sums with it fit 64 bits.
const DEMAND_LIMIT: u64 = 1 << 63;

/// How many arrivals from slot 0 on, each a separation after the one before, are due by `end`.
pub fn arrivals_by(task: &Sporadic, end: u32) -> u64
    ensures { result ≡ arrivals_due task.now 0 0 end }
{
    if task.deadline > end {
        return 0;
    }
    let later = (end - task.deadline)
        .checked_div(task.separation)
        .unwrap_or(end);
    u64::from(later) + 1
}

/// The slots that the densest arrivals from slot 0 on need by `end`, or none from the limit on.
pub(crate) fn needed_by(sporadics: &[Sporadic], end: u32) -> Option<u64>
    ensures { MatchOption result
        (2 ^ 63 ≤ sporadic_demand sporadics.now [] 0 end)
        (λ n. (n ≡ sporadic_demand sporadics.now [] 0 end) × (n < 2 ^ 63)) }
{
    let mut needed = 0u64;
    for task in sporadics {
        let more = u64::from(task.wcet) * arrivals_by(task, end);
        if DEMAND_LIMIT - needed <= more {
            return None;
        }
        needed += more;
    }
    Some(needed)
}

/// The slots that the densest arrivals from slot 0 on need by each end from 0 to `last`; where no
/// task arrives, an empty table.
pub fn needed_table(alloc: Global, sporadics: &[Sporadic], last: u32) -> Result<List<u64>, Memory>
    requires { last < 2 ^ 32 - 1 }
    ensures values { IfOk result (λ table. (x : ℕ) → x ≤ last
        → slice_index table x ≡ sporadic_demand sporadics.now [] 0 x) }
    ensures small { IfOk result (λ table. All (λ n. n < 2 ^ 63) table) }
{
    if sporadics.is_empty() {
        return Ok(List::new(alloc));
    }
    each_needed(alloc, sporadics, last)
}

/// The slots that the densest arrivals from slot 0 on need by each end from 0 to `last`.
fn each_needed(alloc: Global, sporadics: &[Sporadic], last: u32) -> Result<List<u64>, Memory>
    requires { last < 2 ^ 32 - 1 }
    ensures values { IfOk result (λ table. table
        ≡ map (λ x. sporadic_demand sporadics.now [] 0 x) (range_with_len 0 (last + 1))) }
    ensures small { IfOk result (λ table. All (λ n. n < 2 ^ 63) table) }
{
    let mut table = List::new(alloc);
    for end in 0..last + 1 {
        let Some(needed) = needed_by(sporadics, end) else {
            return Err(Memory);
        };
        table.push(needed)?;
    }
    Ok(table)
}
