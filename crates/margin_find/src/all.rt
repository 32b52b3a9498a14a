//! The margins of all tasks of a plan.

ghost use Rattle.std.specs.Prelude.{◌≡◌, ℕ, ◌++◌, ◌≤◌, true, All, IfOk, OnOk, length, map, flat_map};
ghost use Rattle.std.specs.List.{enumerate_from};
ghost use Rattle.slot_core.specs.declared.TheConstants.{GRAPH_LIMIT, SPORADIC_LIMIT, TASK_LIMIT};
ghost use Rattle.slot_core.specs.declared.faults.Part.TheVariants.{Sporadic as SporadicPart};
ghost use Rattle.slot_core.specs.declared.tasks.Graph.{Graph};
ghost use Rattle.slot_core.specs.declared.tasks.Sporadic.{Sporadic};
ghost use Rattle.slot_core.specs.Sets.Ranges.{is_sound};
ghost use Rattle.margin_find.specs.Parts.{IsTaskOf};
ghost use Rattle.margin_find.specs.Margins.{AreMargins, graph_parts, parts_of};

use crate::kept::Kept;
use crate::margin::{TaskMargin, margin_beside};
use cycle_plan::Plan;
use slot_core::{Graph, List, Memory, Part, Sporadic, TaskSet};
use std::alloc::Global;

/// Appends the tasks of the graph of this index.
fn push_tasks(parts: &mut List<Part>, index: u16, graph: &Graph) -> Result<(), Memory>
    requires { length graph.now.tasks ≤ TASK_LIMIT }
    ensures { OnOk result (parts.new ≡ parts.old ++ graph_parts (index, graph.now)) }
{
    for (task, _) in graph.tasks.items().iter().enumerate() {
        parts.push(Part::Task(index, task as u16))?;
    }
    Ok(())
}

/// Appends the tasks of these graphs.
fn push_graphs(parts: &mut List<Part>, graphs: &[Graph]) -> Result<(), Memory>
    requires few { length graphs.now ≤ GRAPH_LIMIT }
    requires tasks { All (λ (g : Graph). length g.tasks ≤ TASK_LIMIT) graphs.now }
    ensures { OnOk result (parts.new
        ≡ parts.old ++ flat_map graph_parts (enumerate_from 0 graphs.now)) }
{
    for (index, graph) in graphs.iter().enumerate() {
        push_tasks(parts, index as u16, graph)?;
    }
    Ok(())
}

/// Appends these sporadic tasks.
fn push_sporadics(parts: &mut List<Part>, sporadics: &[Sporadic]) -> Result<(), Memory>
    requires { length sporadics.now ≤ SPORADIC_LIMIT }
    ensures { OnOk result (parts.new ≡ parts.old
        ++ map (λ (s : ℕ × Sporadic). SporadicPart s.0) (enumerate_from 0 sporadics.now)) }
{
    for (index, _) in sporadics.iter().enumerate() {
        parts.push(Part::Sporadic(index as u8))?;
    }
    Ok(())
}

/// The tasks of each graph and then the sporadic tasks, in the order of the file.
fn parts_of(alloc: Global, tasks: &TaskSet) -> Result<List<Part>, Memory>
    requires { is_sound tasks.now ≡ true }
    ensures { IfOk result (λ parts. parts ≡ parts_of tasks.now) }
{
    let mut parts = List::new(alloc);
    push_graphs(&mut parts, tasks.graphs.items())?;
    push_sporadics(&mut parts, tasks.sporadics.items())?;
    Ok(parts)
}

/// The margins of these tasks, each looked for near that of the one before.
fn find_each(alloc: Global, plan: &Plan, parts: &[Part]) -> Result<List<TaskMargin>, Memory>
    requires { All (IsTaskOf plan.now.tasks) parts.now }
    ensures { IfOk result (λ found. AreMargins plan.now.tasks parts.now found) }
{
    let mut found = List::new(alloc);
    let mut kept = Kept::of(alloc, plan, Part::Top)?;
    let mut likely = 0;
    for part in parts {
        kept = kept.turned(alloc, plan, *part)?;
        let margin = margin_beside(alloc, plan, &kept, *part, likely)?;
        likely = margin.growth;
        found.push(TaskMargin { at: *part, margin })?;
    }
    Ok(found)
}

/// The margins of all tasks of the plan's set and then of its sporadic tasks, in the order of the
/// file.
pub fn find_margins(alloc: Global, plan: &Plan) -> Result<List<TaskMargin>, Memory>
    ensures { IfOk result (λ found. AreMargins plan.now.tasks (parts_of plan.now.tasks) found) }
{
    let parts = parts_of(alloc, plan.tasks())?;
    find_each(alloc, plan, parts.items())
}
