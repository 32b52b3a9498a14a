//! Whether what is told lies in a task set.

ghost use Rattle.std.specs.Prelude.{◌≡◌};
ghost use Rattle.slot_core.specs.Runs.Arrivals.{key_in_set, what_in_set};

use slot_core::{Key, TaskSet, What};

/// Whether the key lies in the task set.
pub(crate) fn is_key_of(key: Key, tasks: &TaskSet) -> bool
    ensures { result ≡ key_in_set tasks.now key }
{
    match key {
        Key::Offline(graph, task, _) => {
            usize::from(graph) < tasks.graphs.len()
                && usize::from(task) < tasks.graphs.items()[usize::from(graph)].tasks.len()
        }
        Key::Sporadic(index, _) => usize::from(index) < tasks.sporadics.len(),
        Key::Firm(_) | Key::Soft(_) => true,
    }
}

/// Whether what an entry names lies in the task set.
pub(crate) fn is_what_of(what: What, tasks: &TaskSet) -> bool
    ensures { result ≡ what_in_set tasks.now what }
{
    match what {
        What::Sporadic(_, index, _) => usize::from(index) < tasks.sporadics.len(),
        What::Done(_, key, _) => is_key_of(key, tasks),
        What::Run(key) => is_key_of(key, tasks),
        _ => true,
    }
}
