//! The slots that are due by each time.

ghost use Rattle.std.specs.Prelude.{◌≡◌, ℕ, ◌+◌, ◌-◌, ◌*◌, ◌^◌, ◌<◌, ◌≤◌, All, IfOk, length, replicate, map, min, nat_le, sum_by, slice_index, if◌then◌else◌};
ghost use Rattle.std.specs.List.{range_with_len};
ghost use Rattle.slot_core.specs.declared.TheConstants.{SLOT_LIMIT};
ghost use Rattle.slot_core.specs.declared.jobs.Job.{Job};
ghost use Rattle.supply_find.specs.Due.{due_by};

use slot_core::{Job, Memory};
use std::alloc::Global;

/// So many zeros.
pub(crate) fn zeros(alloc: Global, count: usize) -> Result<Vec<u32>, Memory>
    ensures { IfOk result (λ zeros. zeros.items ≡ replicate count 0) }
{
    Ok(vec![in alloc; 0u32; count]?)
}

/// Raises the numbers from this place on.
pub(crate) fn raise(numbers: &mut Vec<u32>, from: usize, by: u32)
    requires small { (k : ℕ) → k < length numbers.old.items
        → slice_index numbers.old.items k + by < 2 ^ 32 }
    ensures len { length numbers.new.items ≡ length numbers.old.items }
    ensures raised { (k : ℕ) → k < length numbers.old.items → slice_index numbers.new.items k
        ≡ slice_index numbers.old.items k + (if nat_le from k then by else 0) }
{
    for place in from..numbers.len() {
        numbers[place] += by;
    }
}

/// For each time of one cycle the slots of the jobs that are due by it.
pub(crate) fn due_table(alloc: Global, jobs: &[Job], cycle: u32) -> Result<Vec<u32>, Memory>
    requires cycle { cycle ≤ SLOT_LIMIT }
    requires few { sum_by (λ (j : Job). j.declared) jobs.now ≤ cycle }
    ensures len { IfOk result (λ due. length due.items ≡ cycle + 1) }
    ensures due { IfOk result (λ due. (b : ℕ) → b ≤ cycle
        → slice_index due.items b ≡ due_by jobs.now b) }
{
    let mut due = zeros(alloc, cycle as usize + 1)?;
    for job in jobs {
        raise(&mut due, job.dl as usize, job.declared);
    }
    Ok(due)
}

/// The slots of the jobs of the second cycle and of the third that are due by a time, from the table
/// of what is due by each time of a cycle.
fn later_at(due: &[u32], time: usize, cycle: usize) -> u32
    requires cycle { cycle ≤ SLOT_LIMIT }
    requires len { length due.now ≡ cycle + 1 }
    requires time { time ≤ 3 * cycle }
    requires small { (b : ℕ) → slice_index due.now b ≤ SLOT_LIMIT }
    ensures { result ≡ slice_index due.now (min (time - cycle) cycle)
        + slice_index due.now (time - 2 * cycle) }
{
    let second = time.saturating_sub(cycle).min(cycle);
    let third = time.saturating_sub(2 * cycle);
    due[second] + due[third]
}

/// The same for each time of three cycles.
pub(crate) fn later_table(alloc: Global, due: &[u32], cycle: u32) -> Result<Vec<u32>, Memory>
    requires cycle { cycle ≤ SLOT_LIMIT }
    requires len { length due.now ≡ cycle + 1 }
    requires small { (b : ℕ) → slice_index due.now b ≤ SLOT_LIMIT }
    ensures { IfOk result (λ later. later.items ≡ map
        (λ b. slice_index due.now (min (b - cycle) cycle)
        + slice_index due.now (b - 2 * cycle))
        (range_with_len 0 (3 * cycle + 1))) }
{
    let length = cycle as usize;
    let mut later = Vec::new(alloc);
    for time in 0..3 * length + 1 {
        later.push(later_at(due, time, length))?;
    }
    Ok(later)
}
