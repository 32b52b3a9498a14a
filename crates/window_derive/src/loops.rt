//! Tasks that lead back to themselves along `after` entries.

ghost use Rattle.std.specs.Prelude.{◌≡◌, ◌≤◌, ◌<◌, ◌==◌, ℕ, true, false, length, All};
ghost use Rattle.std.specs.List.{list_any};
ghost use Rattle.slot_core.specs.declared.TheConstants.{TASK_LIMIT};
ghost use Rattle.slot_core.specs.Offline.Precedence.{after_of, comes_after, is_on_loop};
ghost use Rattle.window_derive.specs.Orders.{first_on_loop};
ghost use Rattle.window_derive.specs.Marks.{is_marked};

use slot_core::{TASK_LIMIT, Task};

/// The least task on a loop.
pub(crate) fn first_on_loop(tasks: &[Task]) -> Option<u16>
    requires count { length tasks.now ≤ TASK_LIMIT }
    requires named { (t p : ℕ) → comes_after tasks.now t p ≡ true → p < length tasks.now }
    ensures { result ≡ first_on_loop tasks.now }
{
    for task in 0..tasks.len() {
        if is_on_loop(tasks, task) {
            return Some(task as u16);
        }
    }
    None
}

/// Whether a path of one or more entries leads from the task back to it.
fn is_on_loop(tasks: &[Task], task: usize) -> bool
    requires count { length tasks.now ≤ TASK_LIMIT }
    requires named { (t p : ℕ) → comes_after tasks.now t p ≡ true → p < length tasks.now }
    requires task { task < length tasks.now }
    ensures { result ≡ is_on_loop tasks.now task }
{
    let mut leading = [false; TASK_LIMIT];
    leading[task] = true;
    for _entries in 0..tasks.len() {
        leading = one_entry_before(tasks, &leading);
        if leading[task] {
            return true;
        }
    }
    false
}

/// The tasks from which one entry leads to one of these.
fn one_entry_before(tasks: &[Task], leading: &[bool; TASK_LIMIT]) -> [bool; TASK_LIMIT]
    requires count { length tasks.now ≤ TASK_LIMIT }
    requires named { (t p : ℕ) → comes_after tasks.now t p ≡ true → p < length tasks.now }
    ensures { (t : ℕ) → is_marked result t
        ≡ list_any (is_marked leading.now) (after_of tasks.now t) }
{
    let mut before = [false; TASK_LIMIT];
    for (place, task) in tasks.iter().enumerate() {
        before[place] = leads_to_one(task.after.items(), leading);
    }
    before
}

/// Whether one of the entries is marked.
fn leads_to_one(entries: &[u16], leading: &[bool; TASK_LIMIT]) -> bool
    requires { All (λ p. p < TASK_LIMIT) entries.now }
    ensures { result ≡ list_any (is_marked leading.now) entries.now }
{
    entries.iter().any(|entry| leading[usize::from(*entry)])
}
