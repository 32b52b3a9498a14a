//! Tasks that lead back to themselves along `after` entries.

ghost use Rattle.std.specs.Prelude.{◌≡◌, ◌≤◌, ◌<◌, ℕ, true, None, length};
ghost use Rattle.slot_core.specs.declared.TheConstants.{TASK_LIMIT};
ghost use Rattle.slot_core.specs.Sets.Faults.{after_fault, first_fault, loop_fault};
ghost use Rattle.source_check.specs.Checks.{AreFew, TellsInMemory};

use slot_core::{Graph, TaskFault};
use std::alloc::Global;
use window_derive::{OrderFault, order};

/// Whether no task of the graphs stands on a loop.
pub(crate) fn check_loops(alloc: Global, graphs: &[Graph]) -> Result<(), TaskFault>
    requires few { AreFew graphs.now }
    requires named { first_fault after_fault 0 graphs.now ≡ None }
    ensures { TellsInMemory result (first_fault loop_fault 0 graphs.now) }
{
    for (place, graph) in graphs.iter().enumerate() {
        check_graph_loops(alloc, place as u16, graph)?;
    }
    Ok(())
}

/// Whether no task of a graph stands on a loop.
fn check_graph_loops(alloc: Global, index: u16, graph: &Graph) -> Result<(), TaskFault>
    requires count { length graph.now.tasks ≤ TASK_LIMIT }
    requires named { after_fault index graph.now ≡ None }
    ensures { TellsInMemory result (loop_fault index graph.now) }
{
    match order(alloc, graph) {
        Ok(_) => Ok(()),
        Err(OrderFault::Memory) => Err(TaskFault::Memory),
        Err(OrderFault::Loop(task)) => Err(TaskFault::Loop(index, task)),
    }
}
