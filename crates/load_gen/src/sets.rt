//! The task sets of a generated load.

ghost use Rattle.std.specs.Prelude.{◌≡◌, ◌≤◌, ◌<◌, ◌++◌, ◌∷◌, [], true, codes, decimal, map, IfOk, OnOk};
ghost use Rattle.std.specs.List.{range_with_len};
ghost use Rattle.slot_core.specs.declared.TheConstants.{LOAD_LIMIT};
ghost use Rattle.slot_core.specs.Sets.Cycles.{cycle_of};
ghost use Rattle.slot_core.specs.Feasibility.Feasible.{IsFeasible};
ghost use Rattle.slot_core.specs.Sets.Names.{is_name};
ghost use Rattle.slot_core.specs.Sets.Ranges.{is_sound};
ghost use Rattle.load_gen.specs.Loads.{load_graph, load_period, load_set, load_sporadic, load_task, load_tasks};

use slot_core::{Afters, Graph, Graphs, Memory, Name, Sporadic, Sporadics, Task, TaskSet, Tasks};
use std::alloc::Global;
use trace_text::Line;

/// The task set of load `n`, from 1 to `LOAD_LIMIT`: this many graphs of three tasks in a row, with
/// periods of 64, 128 and 256 slots in turn, and a sporadic task. It is sound and feasible.
pub fn tasks_of(alloc: Global, n: u32) -> Result<TaskSet, Memory>
    requires some { 1 ≤ n }
    requires few { n ≤ LOAD_LIMIT }
    ensures set { IfOk result (λ set. set ≡ load_set n) }
    ensures sound { IfOk result (λ set. is_sound set ≡ true) }
    ensures feasible { IfOk result (λ set. IsFeasible set (cycle_of set)) }
{
    let mut sporadics = Sporadics::new(alloc);
    sporadics.push(sporadic())?;
    Ok(TaskSet {
        soft_limit: 8,
        graphs: graphs(alloc, n)?,
        sporadics,
    })
}

/// The first `n` graphs.
fn graphs(alloc: Global, n: u32) -> Result<Graphs, Memory>
    requires { n ≤ LOAD_LIMIT }
    ensures { IfOk result (λ graphs. graphs ≡ map load_graph (range_with_len 0 n)) }
{
    let mut graphs = Graphs::new(alloc);
    for i in 0..n {
        graphs.push(graph(alloc, i)?)?;
    }
    Ok(graphs)
}

/// The graph of this index.
fn graph(alloc: Global, i: u32) -> Result<Graph, Memory>
    requires { i < LOAD_LIMIT }
    ensures { IfOk result (λ graph. graph ≡ load_graph i) }
{
    let period = period(i);
    Ok(Graph {
        name: graph_name(i),
        period,
        offset: 0,
        deadline: period,
        tasks: tasks(alloc)?,
    })
}

/// Its period in slots.
fn period(i: u32) -> u32
    ensures { result ≡ load_period i }
{
    match i % 3 {
        0 => 64,
        1 => 128,
        _ => 256,
    }
}

/// Its name.
fn graph_name(i: u32) -> Name
    requires { i < LOAD_LIMIT }
    ensures { result ≡ codes "g" ++ decimal i }
{
    let mut text = Line::new();
    text.push(b"g");
    text.number(u64::from(i));
    Name::of(text.bytes()).unwrap()
}

/// Its three tasks.
fn tasks(alloc: Global) -> Result<Tasks, Memory>
    ensures { IfOk result (λ tasks. tasks ≡ load_tasks) }
{
    let mut tasks = Tasks::new(alloc);
    push_task(alloc, &mut tasks, b"a", &[])?;
    push_task(alloc, &mut tasks, b"b", &[0])?;
    push_task(alloc, &mut tasks, b"c", &[1])?;
    Ok(tasks)
}

/// Appends a task of one slot, with the tasks that it comes after.
fn push_task(alloc: Global, tasks: &mut Tasks, name: &[u8], after: &[u16]) -> Result<(), Memory>
    requires { is_name name.now ≡ true }
    ensures { OnOk result (tasks.new ≡ tasks.old ++ load_task name.now after.now ∷ []) }
{
    let task = task(alloc, name, after)?;
    tasks.push(task)
}

/// A task of one slot, with the tasks that it comes after.
fn task(alloc: Global, name: &[u8], after: &[u16]) -> Result<Task, Memory>
    requires { is_name name.now ≡ true }
    ensures { IfOk result (λ task. task ≡ load_task name.now after.now) }
{
    let mut entries = Afters::new(alloc);
    for entry in after {
        entries.push(*entry)?;
    }
    Ok(Task {
        name: Name::of(name).unwrap(),
        wcet: 1,
        after: entries,
    })
}

/// The sporadic task.
fn sporadic() -> Sporadic
    ensures { result ≡ load_sporadic }
{
    Sporadic {
        name: Name::of(b"s").unwrap(),
        wcet: 1,
        separation: 64,
        deadline: 32,
    }
}
