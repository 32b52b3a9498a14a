//! `after` entries that name no task, or stand twice.

ghost use Rattle.std.specs.Prelude.{◌≡◌, ◌≤◌, ◌==◌, [], length};
ghost use Rattle.std.specs.List.{list_any};
ghost use Rattle.slot_core.specs.declared.TheConstants.{TASK_LIMIT};
ghost use Rattle.slot_core.specs.Sets.Faults.{after_fault, entries_fault, first_fault};
ghost use Rattle.source_check.specs.Checks.{AreFew, Tells};

use slot_core::{Field, Graph, Part, Place, TaskFault};

/// Whether the `after` entries of each task name distinct tasks of its graph.
pub(crate) fn check_entries(graphs: &[Graph]) -> Result<(), TaskFault>
    requires { AreFew graphs.now }
    ensures { Tells result (first_fault after_fault 0 graphs.now) }
{
    for (place, graph) in graphs.iter().enumerate() {
        check_graph_entries(place as u16, graph)?;
    }
    Ok(())
}

/// Whether the `after` entries of each task of a graph name distinct tasks of it.
fn check_graph_entries(index: u16, graph: &Graph) -> Result<(), TaskFault>
    requires { length graph.now.tasks ≤ TASK_LIMIT }
    ensures { Tells result (after_fault index graph.now) }
{
    let tasks = graph.tasks.items();
    for (place, task) in tasks.iter().enumerate() {
        let place = Place {
            part: Part::Task(index, place as u16),
            field: Field::After,
        };
        check_task_entries(place, tasks.len(), task.after.items())?;
    }
    Ok(())
}

/// Whether the entries are distinct, and each below the number of tasks.
fn check_task_entries(place: Place, count: usize, entries: &[u16]) -> Result<(), TaskFault>
    ensures { Tells result (entries_fault place count [] entries.now) }
{
    for (index, entry) in entries.iter().enumerate() {
        if usize::from(*entry) >= count {
            return Err(TaskFault::NoSuchTask(place));
        }
        if is_entry(&entries[..index], *entry) {
            return Err(TaskFault::Doubled(place));
        }
    }
    Ok(())
}

/// Whether the entry stands among these.
fn is_entry(entries: &[u16], entry: u16) -> bool
    ensures { result ≡ list_any (λ e. entry == e) entries.now }
{
    entries.iter().any(|other| entry == *other)
}
