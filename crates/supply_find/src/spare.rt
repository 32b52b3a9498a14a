//! What is spare within each number of slots, whatever soft work ran.

ghost use Rattle.std.specs.Prelude.{◌≡◌, ℕ, true, ◌+◌, ◌-◌, ◌*◌, ◌/◌, ◌^◌, ◌<◌, ◌≤◌, All, IfOk, length, map, max, min, slice_index};
ghost use Rattle.std.specs.List.{range_with_len};
ghost use Rattle.slot_core.specs.declared.TheConstants.{SLOT_LIMIT, SPORADIC_LIMIT};
ghost use Rattle.slot_core.specs.Sets.Ranges.{sporadic_in_range};
ghost use Rattle.supply_laws.specs.Spare.{arrivals_within};
ghost use Rattle.supply_find.specs.Spare.{least_by, most_by, spare_by, spares_of};

use crate::due::due_table;
use cycle_plan::Plan;
use slot_core::{Memory, Sporadic};
use std::alloc::Global;

/// The slots that are spare within each number of slots from 0 to the cycle: a firm request is
/// always accepted where it and the slots that firm jobs have left are no more.
pub fn find_spare(alloc: Global, plan: &Plan) -> Result<Vec<u32>, Memory>
    ensures { IfOk result (λ table. table.items ≡ spares_of plan.now.tasks) }
{
    let cycle = plan.cycle();
    let first = due_table(alloc, plan.jobs(), cycle)?;
    let due = two_cycles(alloc, &first, cycle)?;
    let arriving = arriving_table(alloc, plan.sporadics(), cycle)?;
    spares(alloc, &due, &arriving, cycle)
}

/// The slots of the jobs of two cycles that are due by a time, from the table of what is due by
/// each time of a cycle.
fn due_at(first: &[u32], time: usize, cycle: usize) -> u32
    requires cycle { cycle ≤ SLOT_LIMIT }
    requires len { length first.now ≡ cycle + 1 }
    requires time { time ≤ 2 * cycle }
    requires small { (b : ℕ) → slice_index first.now b ≤ SLOT_LIMIT }
    ensures { result ≡ slice_index first.now (min time cycle)
        + slice_index first.now (time - cycle) }
{
    first[time.min(cycle)] + first[time.saturating_sub(cycle)]
}

/// The same for each time of two cycles.
fn two_cycles(alloc: Global, first: &[u32], cycle: u32) -> Result<Vec<u32>, Memory>
    requires cycle { cycle ≤ SLOT_LIMIT }
    requires len { length first.now ≡ cycle + 1 }
    requires small { (b : ℕ) → slice_index first.now b ≤ SLOT_LIMIT }
    ensures { IfOk result (λ due. due.items ≡ map
        (λ b. slice_index first.now (min b cycle) + slice_index first.now (b - cycle))
        (range_with_len 0 (2 * cycle + 1))) }
{
    let length = cycle as usize;
    let mut due = Vec::new(alloc);
    for time in 0..2 * length + 1 {
        due.push(due_at(first, time, length))?;
    }
    Ok(due)
}

/// The slots of the jobs of a sporadic task that can be due in so many slots.
fn arrivals_of(task: &Sporadic, slots: u32) -> u32
    requires slots { slots ≤ SLOT_LIMIT }
    requires in_range { sporadic_in_range task.now ≡ true }
    ensures value { result
        ≡ task.now.wcet * ((slots + (task.now.separation - 1)) / task.now.separation) }
    ensures small { result ≤ 2 ^ 28 }
{
    task.wcet * ((slots + (task.separation - 1)) / task.separation)
}

/// The slots of the jobs of these sporadic tasks that can be due in so many slots.
fn arrivals_within(sporadics: &[Sporadic], slots: u32) -> u32
    requires few { length sporadics.now ≤ SPORADIC_LIMIT }
    requires slots { slots ≤ SLOT_LIMIT }
    requires in_range { All (λ s. sporadic_in_range s ≡ true) sporadics.now }
    ensures value { result ≡ arrivals_within sporadics.now slots }
    ensures small { result ≤ 2 ^ 31 }
{
    let mut sum = 0u32;
    for task in sporadics {
        sum += arrivals_of(task, slots);
    }
    sum
}

/// The same for each number of slots up to the cycle.
fn arriving_table(alloc: Global, sporadics: &[Sporadic], cycle: u32) -> Result<Vec<u32>, Memory>
    requires few { length sporadics.now ≤ SPORADIC_LIMIT }
    requires cycle { cycle ≤ SLOT_LIMIT }
    requires in_range { All (λ s. sporadic_in_range s ≡ true) sporadics.now }
    ensures table { IfOk result (λ arriving. arriving.items ≡ map
        (arrivals_within sporadics.now) (range_with_len 0 (cycle + 1))) }
    ensures small { IfOk result (λ arriving. (b : ℕ) → slice_index arriving.items b ≤ 2 ^ 31) }
{
    let mut arriving = Vec::new(alloc);
    for slots in 0..cycle + 1 {
        arriving.push(arrivals_within(sporadics, slots))?;
    }
    Ok(arriving)
}

/// The slots that the last slots up to a time leave free.
fn spare_at(due: &[u32], arriving: &[u32], time: usize, slots: usize) -> u32
    requires time { time < length due.now }
    requires few { slots < 2 ^ 32 }
    requires slots { slots < length arriving.now }
    requires due { (b : ℕ) → slice_index due.now b ≤ 2 * SLOT_LIMIT }
    requires arriving { (b : ℕ) → slice_index arriving.now b ≤ 2 ^ 31 }
    ensures { result ≡ spare_by due.now arriving.now time slots }
{
    let before = due[time.saturating_sub(slots)];
    let need = due[time].saturating_sub(before) + arriving[slots];
    (slots as u32).saturating_sub(need)
}

/// The greater of two numbers.
fn greater(first: u32, second: u32) -> u32
    ensures { result ≡ max first second }
{
    first.max(second)
}

/// The lesser of two numbers.
fn lesser(first: u32, second: u32) -> u32
    ensures { result ≡ min first second }
{
    first.min(second)
}

/// Keeps, for each number of slots, the lesser of the number of before and the most that the last
/// slots up to a time leave free.
fn keep_lesser(table: &mut Vec<u32>, due: &[u32], arriving: &[u32], time: usize)
    requires len { length table.old.items ≡ length arriving.now }
    requires few { length arriving.now < 2 ^ 32 }
    requires time { time < length due.now }
    requires due { (b : ℕ) → slice_index due.now b ≤ 2 * SLOT_LIMIT }
    requires arriving { (b : ℕ) → slice_index arriving.now b ≤ 2 ^ 31 }
    ensures len { length table.new.items ≡ length table.old.items }
    ensures kept { (n : ℕ) → n < length table.old.items → slice_index table.new.items n
        ≡ min (slice_index table.old.items n) (most_by due.now arriving.now n time) }
{
    let mut most = 0;
    for slots in 0..table.len() {
        most = greater(most, spare_at(due, arriving, time, slots));
        table[slots] = lesser(table[slots], most);
    }
}

/// The numbers from 0 to the last.
fn numbers_to(alloc: Global, last: u32) -> Result<Vec<u32>, Memory>
    requires { last ≤ SLOT_LIMIT }
    ensures { IfOk result (λ numbers. numbers.items ≡ map (λ n. n) (range_with_len 0 (last + 1))) }
{
    let mut numbers = Vec::new(alloc);
    for number in 0..last + 1 {
        numbers.push(number)?;
    }
    Ok(numbers)
}

/// The table of what is spare.
fn spares(alloc: Global, due: &[u32], arriving: &[u32], cycle: u32) -> Result<Vec<u32>, Memory>
    requires cycle { cycle ≤ SLOT_LIMIT }
    requires len { length due.now ≡ 2 * cycle + 1 }
    requires len_arriving { length arriving.now ≡ cycle + 1 }
    requires due { (b : ℕ) → slice_index due.now b ≤ 2 * SLOT_LIMIT }
    requires arriving { (b : ℕ) → slice_index arriving.now b ≤ 2 ^ 31 }
    ensures len { IfOk result (λ table. length table.items ≡ cycle + 1) }
    ensures least { IfOk result (λ table. (n : ℕ) → n ≤ cycle → slice_index table.items n
        ≡ least_by due.now arriving.now cycle cycle n) }
{
    let length = cycle as usize;
    let mut table = numbers_to(alloc, cycle)?;
    for time in length..2 * length {
        keep_lesser(&mut table, due, arriving, time);
    }
    Ok(table)
}
