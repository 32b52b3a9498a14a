//! Names that stand twice.

ghost use Rattle.std.specs.Prelude.{◌≡◌, ◌≤◌, [], length, map};
ghost use Rattle.std.specs.List.{list_any};
ghost use Rattle.std.specs.Str.{bytes_eq};
ghost use Rattle.slot_core.specs.declared.TheConstants.{SPORADIC_LIMIT, TASK_LIMIT};
ghost use Rattle.slot_core.specs.Sets.Faults.{graph_names_fault, names_fault};
ghost use Rattle.source_check.specs.Checks.{AreFew, Tells};

use slot_core::{Field, Graph, Name, Part, Place, Sporadic, Task, TaskFault};

/// Whether the graphs have distinct names, and the tasks of each graph too.
pub(crate) fn check_graph_names(graphs: &[Graph]) -> Result<(), TaskFault>
    requires { AreFew graphs.now }
    ensures { Tells result (graph_names_fault [] 0 graphs.now) }
{
    for (place, graph) in graphs.iter().enumerate() {
        if is_graph_name(&graphs[..place], &graph.name) {
            return Err(doubled_name(Part::Graph(place as u16)));
        }
        check_task_names(place as u16, graph.tasks.items())?;
    }
    Ok(())
}

/// Whether the tasks of a graph have distinct names.
fn check_task_names(graph: u16, tasks: &[Task]) -> Result<(), TaskFault>
    requires { length tasks.now ≤ TASK_LIMIT }
    ensures { Tells result (names_fault (Part.Task graph) [] 0 (map (λ t. t.name) tasks.now)) }
{
    for (place, task) in tasks.iter().enumerate() {
        if is_task_name(&tasks[..place], &task.name) {
            return Err(doubled_name(Part::Task(graph, place as u16)));
        }
    }
    Ok(())
}

/// Whether the sporadic tasks have distinct names.
pub(crate) fn check_sporadic_names(sporadics: &[Sporadic]) -> Result<(), TaskFault>
    requires { length sporadics.now ≤ SPORADIC_LIMIT }
    ensures { Tells result (names_fault Part.Sporadic [] 0 (map (λ s. s.name) sporadics.now)) }
{
    for (place, sporadic) in sporadics.iter().enumerate() {
        if is_sporadic_name(&sporadics[..place], &sporadic.name) {
            return Err(doubled_name(Part::Sporadic(place as u8)));
        }
    }
    Ok(())
}

/// Whether one of the graphs has the name.
fn is_graph_name(graphs: &[Graph], name: &Name) -> bool
    ensures { result ≡ list_any (λ g. bytes_eq name.now g.name) graphs.now }
{
    graphs.iter().any(|graph| are_same(name, &graph.name))
}

/// Whether one of the tasks has the name.
fn is_task_name(tasks: &[Task], name: &Name) -> bool
    ensures { result ≡ list_any (λ t. bytes_eq name.now t.name) tasks.now }
{
    tasks.iter().any(|task| are_same(name, &task.name))
}

/// Whether one of the sporadic tasks has the name.
fn is_sporadic_name(sporadics: &[Sporadic], name: &Name) -> bool
    ensures { result ≡ list_any (λ s. bytes_eq name.now s.name) sporadics.now }
{
    sporadics
        .iter()
        .any(|sporadic| are_same(name, &sporadic.name))
}

/// Whether the names have the same bytes.
fn are_same(name: &Name, other: &Name) -> bool
    ensures { result ≡ bytes_eq name.now other.now }
{
    name.bytes() == other.bytes()
}

/// The fault of a name that stands a second time.
fn doubled_name(part: Part) -> TaskFault
    ensures { result ≡ TaskFault.Doubled (record { part = part; field = Field.Name }) }
{
    TaskFault::Doubled(Place {
        part,
        field: Field::Name,
    })
}
