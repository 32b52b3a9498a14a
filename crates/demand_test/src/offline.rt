//! The offline work of one cycle.

ghost use Rattle.std.specs.Prelude.{◌≡◌, ◌^◌, ◌<◌, ◌≤◌, true, All, length, sum_by};
ghost use Rattle.slot_core.specs.declared.TheConstants.{GRAPH_LIMIT};
ghost use Rattle.slot_core.specs.declared.tasks.Task.{Task};
ghost use Rattle.slot_core.specs.Sets.Ranges.{graph_in_range};
ghost use Rattle.demand_test.specs.Totals.{graph_work};

use slot_core::{Graph, Task};

/// The declared slots of the tasks.
fn declared_slots(tasks: &[Task]) -> u64
    requires { sum_by (λ (t : Task). t.wcet) tasks.now < 2 ^ 64 }
    ensures { result ≡ sum_by (λ (t : Task). t.wcet) tasks.now }
{
    tasks.iter().map(|task| u64::from(task.wcet)).sum()
}

/// The declared slots of all jobs that the graphs release in one cycle.
pub(crate) fn offline_slots(graphs: &[Graph], cycle: u32) -> u64
    requires few { length graphs.now ≤ GRAPH_LIMIT }
    requires in_range { All (λ graph. graph_in_range graph ≡ true) graphs.now }
    ensures value { result ≡ sum_by (graph_work cycle) graphs.now }
    ensures small { result < 2 ^ 63 }
{
    let mut slots = 0u64;
    for graph in graphs {
        slots += u64::from(cycle / graph.period) * declared_slots(graph.tasks.items());
    }
    slots
}
