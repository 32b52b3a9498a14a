//! Whether two task sets are the same.

ghost use Rattle.std.specs.Prelude.{◌≡◌, true};

use slot_core::{Graph, Sporadic, Task, TaskSet};

/// Whether the sets are the same.
pub fn is_same_set(a: &TaskSet, b: &TaskSet) -> bool
    ensures same { result ≡ true → a.now ≡ b.now }
    ensures every { a.now ≡ b.now → result ≡ true }
{
    a.soft_limit == b.soft_limit
        && are_same_graphs(a.graphs.items(), b.graphs.items())
        && are_same_sporadics(a.sporadics.items(), b.sporadics.items())
}

/// Whether the graphs are the same, in the same order.
fn are_same_graphs(a: &[Graph], b: &[Graph]) -> bool
    ensures same { result ≡ true → a.now ≡ b.now }
    ensures every { a.now ≡ b.now → result ≡ true }
{
    if a.len() != b.len() {
        return false;
    }
    for i in 0..a.len() {
        if !is_same_graph(&a[i], &b[i]) {
            return false;
        }
    }
    true
}

/// Whether the graphs are the same.
fn is_same_graph(a: &Graph, b: &Graph) -> bool
    ensures same { result ≡ true → a.now ≡ b.now }
    ensures every { a.now ≡ b.now → result ≡ true }
{
    a.name.bytes() == b.name.bytes()
        && a.period == b.period
        && a.offset == b.offset
        && a.deadline == b.deadline
        && are_same_tasks(a.tasks.items(), b.tasks.items())
}

/// Whether the tasks are the same, in the same order.
fn are_same_tasks(a: &[Task], b: &[Task]) -> bool
    ensures same { result ≡ true → a.now ≡ b.now }
    ensures every { a.now ≡ b.now → result ≡ true }
{
    if a.len() != b.len() {
        return false;
    }
    for i in 0..a.len() {
        if !is_same_task(&a[i], &b[i]) {
            return false;
        }
    }
    true
}

/// Whether the tasks are the same.
fn is_same_task(a: &Task, b: &Task) -> bool
    ensures same { result ≡ true → a.now ≡ b.now }
    ensures every { a.now ≡ b.now → result ≡ true }
{
    a.name.bytes() == b.name.bytes() && a.wcet == b.wcet && a.after.items() == b.after.items()
}

/// Whether the sporadic tasks are the same, in the same order.
fn are_same_sporadics(a: &[Sporadic], b: &[Sporadic]) -> bool
    ensures same { result ≡ true → a.now ≡ b.now }
    ensures every { a.now ≡ b.now → result ≡ true }
{
    if a.len() != b.len() {
        return false;
    }
    for i in 0..a.len() {
        if !is_same_sporadic(&a[i], &b[i]) {
            return false;
        }
    }
    true
}

/// Whether the sporadic tasks are the same.
fn is_same_sporadic(a: &Sporadic, b: &Sporadic) -> bool
    ensures same { result ≡ true → a.now ≡ b.now }
    ensures every { a.now ≡ b.now → result ≡ true }
{
    a.name.bytes() == b.name.bytes()
        && a.wcet == b.wcet
        && a.separation == b.separation
        && a.deadline == b.deadline
}
