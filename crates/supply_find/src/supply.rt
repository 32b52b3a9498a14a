//! The guaranteed supply within each number of slots.

ghost use Rattle.std.specs.Prelude.{◌≡◌, ℕ, ◌+◌, ◌-◌, ◌*◌, ◌/◌, ◌%◌, ◌^◌, ◌<◌, ◌≤◌, ◌&&◌, All, IfOk, length, map, max, nat_le, nat_lt, sum_by, slice_index, if◌then◌else◌};
ghost use Rattle.std.specs.List.{range_with_len};
ghost use Rattle.slot_core.specs.declared.TheConstants.{SLOT_LIMIT};
ghost use Rattle.slot_core.specs.declared.jobs.Job.{Job};
ghost use Rattle.cycle_plan.specs.StartOrder.{StartsRise};
ghost use Rattle.supply_find.specs.Due.{due_by};
ghost use Rattle.supply_find.specs.Found.{supplies_of};
ghost use Rattle.supply_find.specs.Keys.{key_of, window_key, IsCounted, IsSplit, IsGreatest, IsShortest, entry_of};

use crate::due::{due_table, later_table, raise, zeros};
use cycle_plan::Plan;
use demand_test::needed_table;
use slot_core::{Job, List, Memory};
use std::alloc::Global;

/// A window's key counts its work so many times, and its start once: of two windows the one with
/// more work has the greater key, and of two with as much work the one that starts first.
const WEIGHT: u32 = 16_384;

/// The guaranteed supply within a number of slots, with a window that leaves no more free: the
/// shortest one, and of these the first.
#[derive(Clone, Copy, PartialEq, Eq, Default)]
pub struct Supply {
    /// The slots that every window of so many slots or more leaves free.
    pub slots: u32,
    /// The first slot of the window.
    pub from: u32,
    /// The first slot after it.
    pub until: u32,
}

/// The guaranteed supply within each number of slots from 0 to the cycle, after Shin and Lee 2003:
/// a firm request of no more is always accepted, where no firm job remains and no request ran since
/// the processor last was idle.
pub fn find_supply(alloc: Global, plan: &Plan) -> Result<List<Supply>, Memory>
    ensures { IfOk result (λ table. table ≡ supplies_of plan.now.tasks) }
{
    let cycle = plan.cycle();
    let arriving = needed_table(alloc, plan.sporadics(), 2 * cycle)?;
    let most = most_keys(alloc, plan.jobs_by_start(), cycle)?;
    let free = free_table(alloc, &most, arriving.items())?;
    let shortest = shortest_table(alloc, &free)?;
    supplies(alloc, &most, &free, &shortest, cycle)
}

/// Counts the jobs of the front that start at `from` or later, the last first. Answers how many are
/// left in front.
fn count_from(due: &mut Vec<u32>, jobs: &[Job], front: usize, from: u32) -> usize
    requires front { front ≤ length jobs.now }
    requires few { sum_by (λ (j : Job). j.declared) jobs.now ≤ SLOT_LIMIT }
    requires counted { IsCounted jobs.now front due.old.items }
    requires ordered { StartsRise jobs.now }
    requires split { IsSplit jobs.now (from + 1) front }
    ensures front { result ≤ length jobs.now }
    ensures len { length due.new.items ≡ length due.old.items }
    ensures counted { IsCounted jobs.now result due.new.items }
    ensures split { IsSplit jobs.now from result }
{
    let mut left = front;
    while left > 0 && jobs[left - 1].est >= u64::from(from) {
        left -= 1;
        raise(due, jobs[left].dl as usize, jobs[left].declared);
    }
    left
}

/// Keeps the greater of two keys for each length from `low` to below `high`: that of before, and
/// that of the window of this length from `from` on, whose work is `work` and the number at its
/// end.
fn keep_greater(
    most: &mut Vec<u32>,
    numbers: &[u32],
    from: usize,
    low: usize,
    high: usize,
    work: u32,
    early: u32,
)
    requires low { low ≤ high }
    requires high { high ≤ length most.old.items }
    requires ends { from + high ≤ length numbers.now }
    requires small { (b : ℕ) → slice_index numbers.now b ≤ 2 * SLOT_LIMIT }
    requires work { work ≤ SLOT_LIMIT }
    requires early { early ≤ SLOT_LIMIT }
    ensures len { length most.new.items ≡ length most.old.items }
    ensures kept { (n : ℕ) → slice_index most.new.items n
        ≡ (if nat_le low n && nat_lt n high
        then max (slice_index most.old.items n)
        ((slice_index numbers.now (from + n) + work) * WEIGHT + early)
        else slice_index most.old.items n) }
{
    for slots in low..high {
        let key = (numbers[from + slots] + work) * WEIGHT + early;
        most[slots] = most[slots].max(key);
    }
}

/// Keeps the greater keys, with those of the windows from `from` on: of windows that end in the
/// first cycle, and of longer ones.
fn keep_start(most: &mut Vec<u32>, due: &[u32], later: &[u32], from: u32, cycle: u32)
    requires cycle { cycle ≤ SLOT_LIMIT }
    requires from { from < cycle }
    requires most { length most.old.items ≡ 2 * cycle + 1 }
    requires due { length due.now ≡ cycle + 1 }
    requires later { length later.now ≡ 3 * cycle + 1 }
    requires small { (b : ℕ) → slice_index due.now b ≤ SLOT_LIMIT }
    requires small_later { (b : ℕ) → slice_index later.now b ≤ 2 * SLOT_LIMIT }
    ensures len { length most.new.items ≡ length most.old.items }
    ensures kept { (n : ℕ) → n ≤ 2 * cycle → slice_index most.new.items n
        ≡ max (slice_index most.old.items n)
        (key_of cycle (if nat_le (from + n) cycle
        then slice_index due.now (from + n)
        else slice_index due.now cycle + slice_index later.now (from + n)) from) }
{
    let length = cycle as usize;
    let start = from as usize;
    let near = length - start + 1;
    let early = cycle - from;
    keep_greater(most, due, start, 0, near, 0, early);
    let whole = due[length];
    keep_greater(most, later, start, near, 2 * length + 1, whole, early);
}

/// For each length up to two cycles the greatest key of a window that starts in the first cycle.
fn most_keys(alloc: Global, jobs: &[Job], cycle: u32) -> Result<Vec<u32>, Memory>
    requires positive { 1 ≤ cycle }
    requires cycle { cycle ≤ SLOT_LIMIT }
    requires few { sum_by (λ (j : Job). j.declared) jobs.now ≤ cycle }
    requires within { All (λ (j : Job). (1 ≤ j.dl) × (j.dl ≤ cycle) × (j.est < cycle)) jobs.now }
    requires ordered { StartsRise jobs.now }
    ensures len { IfOk result (λ most. length most.items ≡ 2 * cycle + 1) }
    ensures greatest { IfOk result (λ most. (n : ℕ) → n ≤ 2 * cycle
        → IsGreatest (window_key jobs.now cycle n) 0 cycle (slice_index most.items n)) }
{
    let length = cycle as usize;
    let whole = due_table(alloc, jobs, cycle)?;
    let later = later_table(alloc, &whole, cycle)?;
    let mut due = zeros(alloc, length + 1)?;
    let mut most = zeros(alloc, 2 * length + 1)?;
    let mut front = jobs.len();
    let mut from = cycle;
    while from > 0 {
        from -= 1;
        front = count_from(&mut due, jobs, front, from);
        keep_start(&mut most, &due, &later, from, cycle);
    }
    Ok(most)
}

/// The least that windows of so many slots leave free beside the densest arrivals.
fn free_at(most: &[u32], arriving: &[u64], slots: usize) -> u32
    requires within { slots < length most.now }
    requires few { length most.now < 2 ^ 32 }
    requires small { All (λ n. n < 2 ^ 63) arriving.now }
    ensures { result ≡ slots
        - (slice_index most.now slots / WEIGHT + slice_index arriving.now slots) }
{
    let arrivals = arriving.get(slots).copied().unwrap_or(0);
    let need = u64::from(most[slots] / WEIGHT) + arrivals;
    (slots as u64).saturating_sub(need) as u32
}

/// The same for each length.
fn free_table(alloc: Global, most: &[u32], arriving: &[u64]) -> Result<Vec<u32>, Memory>
    requires few { length most.now < 2 ^ 32 }
    requires small { All (λ n. n < 2 ^ 63) arriving.now }
    ensures { IfOk result (λ free. free.items ≡ map
        (λ n. n - (slice_index most.now n / WEIGHT + slice_index arriving.now n))
        (range_with_len 0 (length most.now))) }
{
    let mut free = Vec::new(alloc);
    for slots in 0..most.len() {
        free.push(free_at(most, arriving, slots))?;
    }
    Ok(free)
}

/// The first of two places where its number is no greater, else the second.
fn lesser_of(numbers: &[u32], first: usize, second: usize) -> usize
    requires first { first < length numbers.now }
    requires second { second < length numbers.now }
    ensures { result ≡ (if nat_le (slice_index numbers.now first) (slice_index numbers.now second)
        then first else second) }
{
    if numbers[first] <= numbers[second] {
        first
    } else {
        second
    }
}

/// For each place the first one from it on at which the number is least.
fn shortest_table(alloc: Global, numbers: &[u32]) -> Result<Vec<u32>, Memory>
    requires some { 1 ≤ length numbers.now }
    requires few { length numbers.now < 2 ^ 32 }
    ensures len { IfOk result (λ shortest. length shortest.items ≡ length numbers.now) }
    ensures shortest { IfOk result (λ shortest. (n : ℕ) → n < length numbers.now
        → IsShortest numbers.now n (slice_index shortest.items n)) }
{
    let mut shortest = zeros(alloc, numbers.len())?;
    let mut best = numbers.len() - 1;
    let mut place = numbers.len();
    while place > 0 {
        place -= 1;
        best = lesser_of(numbers, place, best);
        shortest[place] = best as u32;
    }
    Ok(shortest)
}

/// The supply within so many slots, as the tables tell it.
fn entry_at(most: &[u32], free: &[u32], shortest: &[u32], cycle: u32, within: usize) -> Supply
    requires cycle { cycle ≤ SLOT_LIMIT }
    requires within { within < length shortest.now }
    requires length { slice_index shortest.now within ≤ 2 * cycle }
    requires most { length most.now ≡ 2 * cycle + 1 }
    requires free { length free.now ≡ 2 * cycle + 1 }
    requires start { slice_index most.now (slice_index shortest.now within) % WEIGHT ≤ cycle }
    ensures { result ≡ entry_of most.now free.now shortest.now cycle within }
{
    let length = shortest[within];
    let from = cycle - most[length as usize] % WEIGHT;
    Supply {
        slots: free[length as usize],
        from,
        until: from + length,
    }
}

/// The table of the supply.
fn supplies(
    alloc: Global,
    most: &[u32],
    free: &[u32],
    shortest: &[u32],
    cycle: u32,
) -> Result<List<Supply>, Memory>
    requires cycle { cycle ≤ SLOT_LIMIT }
    requires most { length most.now ≡ 2 * cycle + 1 }
    requires free { length free.now ≡ 2 * cycle + 1 }
    requires shortest { length shortest.now ≡ 2 * cycle + 1 }
    requires lengths { (n : ℕ) → n ≤ cycle → slice_index shortest.now n ≤ 2 * cycle }
    requires starts { (n : ℕ) → n ≤ 2 * cycle → slice_index most.now n % WEIGHT ≤ cycle }
    ensures { IfOk result (λ table. table ≡ map
        (entry_of most.now free.now shortest.now cycle)
        (range_with_len 0 (cycle + 1))) }
{
    let mut table = List::new(alloc);
    for within in 0..cycle as usize + 1 {
        table.push(entry_at(most, free, shortest, cycle, within))?;
    }
    Ok(table)
}
