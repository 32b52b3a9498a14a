//! Tasks and graphs.

ghost use Rattle.std.specs.Prelude.{◌≡◌, ◌<◌, ℕ, [], ◌∷◌, true, codes, length, All, IfOk};
ghost use Rattle.slot_core.specs.Sets.Names.{is_name};
ghost use Rattle.slot_core.specs.Offline.Precedence.{comes_after};
ghost use Rattle.sample_sets.specs.Sets.{lone_task, plain_graph, task};

use slot_core::{Afters, Graph, Memory, Name, Task, Tasks};
use std::alloc::Global;

/// A task with its declared slots and the tasks that it comes after.
pub(crate) fn task(alloc: Global, name: &[u8], wcet: u32, after: &[u16]) -> Result<Task, Memory>
    requires { is_name name.now ≡ true }
    ensures { IfOk result (λ t. t ≡ task name.now wcet after.now) }
{
    let mut entries = Afters::new(alloc);
    for entry in after {
        entries.push(*entry)?;
    }
    Ok(Task {
        name: Name::of(name).unwrap(),
        wcet,
        after: entries,
    })
}

/// A graph without offset whose deadline is its period.
pub(crate) fn plain_graph(name: &[u8], period: u32, tasks: Tasks) -> Graph
    requires { is_name name.now ≡ true }
    ensures { result ≡ plain_graph name.now period tasks }
{
    Graph {
        name: Name::of(name).unwrap(),
        period,
        offset: 0,
        deadline: period,
        tasks,
    }
}

/// A graph of one task.
pub(crate) fn lone_task(
    alloc: Global,
    name: &[u8],
    period: u32,
    offset: u32,
    deadline: u32,
    wcet: u32,
) -> Result<Graph, Memory>
    requires { is_name name.now ≡ true }
    ensures { IfOk result (λ g. g ≡ lone_task name.now period offset deadline wcet) }
{
    let mut tasks = Tasks::new(alloc);
    tasks.push(task(alloc, b"w", wcet, &[])?)?;
    Ok(Graph {
        name: Name::of(name).unwrap(),
        period,
        offset,
        deadline,
        tasks,
    })
}

/// Such a graph of two tasks.
pub(crate) fn graph_of_two(
    alloc: Global,
    name: &[u8],
    period: u32,
    first: Task,
    second: Task,
) -> Result<Graph, Memory>
    requires { is_name name.now ≡ true }
    ensures { IfOk result (λ g. g ≡ plain_graph name.now period (first ∷ second ∷ [])) }
{
    let mut tasks = Tasks::new(alloc);
    tasks.push(first)?;
    tasks.push(second)?;
    Ok(plain_graph(name, period, tasks))
}

/// Such a graph of three tasks.
pub(crate) fn graph_of_three(
    alloc: Global,
    name: &[u8],
    period: u32,
    first: Task,
    second: Task,
    third: Task,
) -> Result<Graph, Memory>
    requires { is_name name.now ≡ true }
    ensures { IfOk result (λ g. g ≡ plain_graph name.now period (first ∷ second ∷ third ∷ [])) }
{
    let mut tasks = Tasks::new(alloc);
    tasks.push(first)?;
    tasks.push(second)?;
    tasks.push(third)?;
    Ok(plain_graph(name, period, tasks))
}

/// A graph of four tasks of one slot with these entries.
pub fn four_tasks(
    alloc: Global,
    a: &[u16],
    b: &[u16],
    c: &[u16],
    d: &[u16],
) -> Result<Graph, Memory>
    requires a { All (λ p. p < 4) a.now }
    requires b { All (λ p. p < 4) b.now }
    requires c { All (λ p. p < 4) c.now }
    requires d { All (λ p. p < 4) d.now }
    ensures count { IfOk result (λ g. length g.tasks ≡ 4) }
    ensures named { IfOk result
        (λ g. (t p : ℕ) → comes_after g.tasks t p ≡ true → p < length g.tasks) }
{
    let mut tasks = Tasks::new(alloc);
    tasks.push(task(alloc, b"a", 1, a)?)?;
    tasks.push(task(alloc, b"b", 1, b)?)?;
    tasks.push(task(alloc, b"c", 1, c)?)?;
    tasks.push(task(alloc, b"d", 1, d)?)?;
    Ok(plain_graph(b"g", 8, tasks))
}
