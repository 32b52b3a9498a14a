//! Copies of graphs and of sporadic tasks with one task longer.

ghost use Rattle.std.specs.Prelude.{◌≡◌, ◌+◌, ◌^◌, ◌<◌, [], ◌∷◌, length, IfOk};
ghost use Rattle.slot_core.specs.Claims.Growth.{changed_at, longer_task, with_longer_task, longer_sporadic};
ghost use Rattle.slot_core.specs.Offline.Precedence.{wcet_of};
ghost use Rattle.margin_find.specs.Kept.{alone, once_a_cycle};
ghost use Rattle.margin_find.specs.Parts.{sporadic_wcet};

use slot_core::{Graph, Graphs, Memory, Name, Sporadic, Sporadics, Task, TaskSet, Tasks};
use std::alloc::Global;

/// A second name like this one.
fn copy_name(name: &Name) -> Name
    ensures { result ≡ name.now }
{
    Name::of(name.bytes()).unwrap()
}

/// A second task like this one.
fn copy_task(alloc: Global, task: &Task) -> Result<Task, Memory>
    ensures { IfOk result (λ copy. copy ≡ task.now) }
{
    let after = task.after.copy(alloc)?;
    Ok(Task {
        name: copy_name(&task.name),
        wcet: task.wcet,
        after,
    })
}

/// A second list of such tasks.
fn copy_tasks(alloc: Global, tasks: &[Task]) -> Result<Tasks, Memory>
    ensures { IfOk result (λ copies. copies ≡ tasks.now) }
{
    let mut copies = Tasks::new(alloc);
    for task in tasks {
        copies.push(copy_task(alloc, task)?)?;
    }
    Ok(copies)
}

/// A second graph like this one.
fn copy_graph(alloc: Global, graph: &Graph) -> Result<Graph, Memory>
    ensures { IfOk result (λ copy. copy ≡ graph.now) }
{
    let tasks = copy_tasks(alloc, graph.tasks.items())?;
    Ok(Graph {
        name: copy_name(&graph.name),
        period: graph.period,
        offset: graph.offset,
        deadline: graph.deadline,
        tasks,
    })
}

/// A second sporadic task like this one.
fn copy_sporadic(sporadic: &Sporadic) -> Sporadic
    ensures { result ≡ sporadic.now }
{
    Sporadic {
        name: copy_name(&sporadic.name),
        wcet: sporadic.wcet,
        separation: sporadic.separation,
        deadline: sporadic.deadline,
    }
}

/// A second list of such sporadic tasks.
fn copy_sporadics(alloc: Global, sporadics: &[Sporadic]) -> Result<Sporadics, Memory>
    ensures { IfOk result (λ copies. copies ≡ sporadics.now) }
{
    let mut copies = Sporadics::new(alloc);
    for sporadic in sporadics {
        copies.push(copy_sporadic(sporadic))?;
    }
    Ok(copies)
}

/// Gives the task at this place this many slots more.
fn lengthen_task(tasks: &mut Tasks, task: usize, by: u32)
    requires of { task < length tasks.old }
    requires few { wcet_of tasks.old task + by < 2 ^ 32 }
    ensures { tasks.new ≡ changed_at (longer_task by) task tasks.old }
{
    tasks.item_mut(task).wcet += by;
}

/// Gives the sporadic task at this place this many slots more.
fn lengthen_sporadic(sporadics: &mut Sporadics, index: usize, by: u32)
    requires of { index < length sporadics.old }
    requires few { sporadic_wcet sporadics.old index + by < 2 ^ 32 }
    ensures { sporadics.new ≡ changed_at (longer_sporadic by) index sporadics.old }
{
    sporadics.item_mut(index).wcet += by;
}

/// Copies of the sporadic tasks, the one at this place with this many slots more.
pub(crate) fn longer_sporadics(
    alloc: Global,
    sporadics: &[Sporadic],
    index: usize,
    by: u32,
) -> Result<Sporadics, Memory>
    requires of { index < length sporadics.now }
    requires few { sporadic_wcet sporadics.now index + by < 2 ^ 32 }
    ensures { IfOk result (λ longer.
        longer ≡ changed_at (longer_sporadic by) index sporadics.now) }
{
    let mut longer = copy_sporadics(alloc, sporadics)?;
    lengthen_sporadic(&mut longer, index, by);
    Ok(longer)
}

/// A copy of the graph, its task at this place with this many slots more.
fn longer_graph(alloc: Global, graph: &Graph, task: usize, by: u32) -> Result<Graph, Memory>
    requires of { task < length graph.now.tasks }
    requires few { wcet_of graph.now.tasks task + by < 2 ^ 32 }
    ensures { IfOk result (λ longer. longer ≡ with_longer_task task by graph.now) }
{
    let mut longer = copy_graph(alloc, graph)?;
    lengthen_task(&mut longer.tasks, task, by);
    Ok(longer)
}

/// A list of one sporadic task, which comes once a cycle and takes one slot.
fn once_a_cycle(alloc: Global, name: &Name, cycle: u32) -> Result<Sporadics, Memory>
    ensures { IfOk result (λ sporadics. sporadics ≡ once_a_cycle name.now cycle ∷ []) }
{
    let mut sporadics = Sporadics::new(alloc);
    sporadics.push(Sporadic {
        name: copy_name(name),
        wcet: 1,
        separation: cycle,
        deadline: 1,
    })?;
    Ok(sporadics)
}

/// The set that has this graph alone, its task at this place with this many slots more.
pub(crate) fn longer_alone(
    alloc: Global,
    soft_limit: u32,
    cycle: u32,
    graph: &Graph,
    task: usize,
    by: u32,
) -> Result<TaskSet, Memory>
    requires of { task < length graph.now.tasks }
    requires few { wcet_of graph.now.tasks task + by < 2 ^ 32 }
    ensures { IfOk result (λ set.
        set ≡ alone soft_limit cycle (with_longer_task task by graph.now)) }
{
    let longer = longer_graph(alloc, graph, task, by)?;
    let sporadics = once_a_cycle(alloc, &graph.name, cycle)?;
    let mut graphs = Graphs::new(alloc);
    graphs.push(longer)?;
    Ok(TaskSet {
        soft_limit,
        graphs,
        sporadics,
    })
}
