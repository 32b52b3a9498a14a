//! The longest chains before and after the tasks of a graph.

ghost use Rattle.std.specs.Prelude.{◌≡◌, ◌+◌, ◌*◌, ◌<◌, ◌≤◌, ◌==◌, ℕ, length, All, map, max, fold, slice_index, if◌then◌else◌};
ghost use Rattle.std.specs.List.{list_any};
ghost use Rattle.slot_core.specs.declared.TheConstants.{SLOT_LIMIT, TASK_LIMIT};
ghost use Rattle.slot_core.specs.Offline.Precedence.{after_of, comes_after, wcet_of};
ghost use Rattle.window_derive.specs.Orders.{IsOrder};
ghost use Rattle.window_derive.specs.Chains.{AreOrderable, AreChainsBefore, AreChainsAfter};

use slot_core::{TASK_LIMIT, Task};

/// The slots of the longest chain before each task.
pub(crate) fn chains_before(tasks: &[Task], order: &[u16]) -> [u32; TASK_LIMIT]
    requires orderable { AreOrderable tasks.now }
    requires order { IsOrder tasks.now order.now }
    ensures { AreChainsBefore tasks.now result }
{
    let mut before = [0; TASK_LIMIT];
    for task in order {
        before[usize::from(*task)] = longest_before(tasks, *task, &before);
    }
    before
}

/// The slots of the longest chain before a task, by the chains before its predecessors.
fn longest_before(tasks: &[Task], task: u16, before: &[u32; TASK_LIMIT]) -> u32
    requires orderable { AreOrderable tasks.now }
    requires task { task < length tasks.now }
    requires small { (p : ℕ) → slice_index before.now p ≤ TASK_LIMIT * SLOT_LIMIT }
    ensures { result ≡ fold max 0
        (map (λ p. slice_index before.now p + wcet_of tasks.now p) (after_of tasks.now task)) }
{
    longest_of(tasks, tasks[usize::from(task)].after.items(), before)
}

/// The slots of the longest chain that ends in one of the entries, by the chains before them.
fn longest_of(tasks: &[Task], entries: &[u16], before: &[u32; TASK_LIMIT]) -> u32
    requires orderable { AreOrderable tasks.now }
    requires entries { All (λ p. p < length tasks.now) entries.now }
    requires small { (p : ℕ) → slice_index before.now p ≤ TASK_LIMIT * SLOT_LIMIT }
    ensures { result ≡ fold max 0
        (map (λ p. slice_index before.now p + wcet_of tasks.now p) entries.now) }
{
    let mut longest = 0;
    for entry in entries {
        let entry = usize::from(*entry);
        longest = longest.max(before[entry] + tasks[entry].wcet);
    }
    longest
}

/// The slots of the longest chain after each task.
pub(crate) fn chains_after(tasks: &[Task], order: &[u16]) -> [u32; TASK_LIMIT]
    requires orderable { AreOrderable tasks.now }
    requires order { IsOrder tasks.now order.now }
    ensures { AreChainsAfter tasks.now result }
{
    let mut after = [0; TASK_LIMIT];
    for place in (0..order.len()).rev() {
        raise_predecessors(tasks, order[place], &mut after);
    }
    after
}

/// Makes the longest chain after each predecessor of a task no shorter than the task and the
/// longest chain after it.
fn raise_predecessors(tasks: &[Task], task: u16, after: &mut [u32; TASK_LIMIT])
    requires orderable { AreOrderable tasks.now }
    requires task { task < length tasks.now }
    requires small { slice_index after.old task ≤ TASK_LIMIT * SLOT_LIMIT }
    ensures { (t : ℕ) → slice_index after.new t
        ≡ (if comes_after tasks.now task t
        then max (slice_index after.old t)
        (slice_index after.old task + wcet_of tasks.now task)
        else slice_index after.old t) }
{
    let place = usize::from(task);
    let chain = after[place] + tasks[place].wcet;
    raise(tasks[place].after.items(), chain, after);
}

/// Makes the longest chain after each of the entries no shorter than this one.
fn raise(entries: &[u16], chain: u32, after: &mut [u32; TASK_LIMIT])
    requires { All (λ p. p < TASK_LIMIT) entries.now }
    ensures { (t : ℕ) → slice_index after.new t
        ≡ (if list_any (λ a. a == t) entries.now
        then max (slice_index after.old t) chain
        else slice_index after.old t) }
{
    for entry in entries {
        let entry = usize::from(*entry);
        after[entry] = after[entry].max(chain);
    }
}
