//! The next task of an order.

ghost use Rattle.std.specs.Prelude.{◌≡◌, ◌≤◌, ◌<◌, ◌&&◌, ℕ, true, not, length, All};
ghost use Rattle.std.specs.List.{list_all};
ghost use Rattle.slot_core.specs.declared.TheConstants.{TASK_LIMIT};
ghost use Rattle.slot_core.specs.Offline.Precedence.{comes_after};
ghost use Rattle.window_derive.specs.Marks.{is_marked, is_next_by, next_by};

use slot_core::{TASK_LIMIT, Task};

/// The least task that has no place and whose predecessors all have one.
pub(crate) fn next_task(tasks: &[Task], placed: &[bool; TASK_LIMIT]) -> Option<u16>
    requires count { length tasks.now ≤ TASK_LIMIT }
    requires named { (t p : ℕ) → comes_after tasks.now t p ≡ true → p < length tasks.now }
    ensures { result ≡ next_by tasks.now placed.now }
{
    for task in 0..tasks.len() {
        if is_next(tasks, task, placed) {
            return Some(task as u16);
        }
    }
    None
}

/// Whether the task has no place, and its predecessors all have one.
fn is_next(tasks: &[Task], task: usize, placed: &[bool; TASK_LIMIT]) -> bool
    requires count { length tasks.now ≤ TASK_LIMIT }
    requires named { (t p : ℕ) → comes_after tasks.now t p ≡ true → p < length tasks.now }
    requires task { task < length tasks.now }
    ensures { result ≡ is_next_by tasks.now placed.now task }
{
    !placed[task] && are_placed(tasks[task].after.items(), placed)
}

/// Whether all of the entries have a place.
fn are_placed(entries: &[u16], placed: &[bool; TASK_LIMIT]) -> bool
    requires { All (λ p. p < TASK_LIMIT) entries.now }
    ensures { result ≡ list_all (is_marked placed.now) entries.now }
{
    entries.iter().all(|entry| placed[usize::from(*entry)])
}
