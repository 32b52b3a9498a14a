//! Task sets of the tests, as their definitions write them.

ghost use Rattle.std.specs.Prelude.{◌≡◌, [], ◌∷◌, true, codes, IfOk};
ghost use Rattle.slot_core.specs.Sets.Names.{is_name};
ghost use Rattle.slot_exec.specs.TestSets.{alarm_set, flight_set, row, row_set, set_of, task};

use slot_core::{Afters, Graph, Graphs, Memory, Name, Sporadic, Sporadics, Task, TaskSet, Tasks};
use std::alloc::Global;

/// The first task of a row.
fn first_task(alloc: Global, wcet: u32) -> Task
    ensures { result ≡ task (codes "a") wcet [] }
{
    Task {
        name: Name::of(b"a").unwrap(),
        wcet,
        after: Afters::new(alloc),
    }
}

/// A task after the one of this number.
fn later_task(alloc: Global, name: &[u8], wcet: u32, before: u16) -> Result<Task, Memory>
    requires { is_name name.now ≡ true }
    ensures { IfOk result (λ t. t ≡ task name.now wcet (before ∷ [])) }
{
    let mut after = Afters::new(alloc);
    after.push(before)?;
    Ok(Task {
        name: Name::of(name).unwrap(),
        wcet,
        after,
    })
}

/// Three tasks of these slots, each after the one before.
fn row(
    alloc: Global,
    name: &[u8],
    period: u32,
    first: u32,
    second: u32,
    third: u32,
) -> Result<Graph, Memory>
    requires { is_name name.now ≡ true }
    ensures { IfOk result (λ g. g ≡ row name.now period first second third) }
{
    let mut tasks = Tasks::new(alloc);
    tasks.push(first_task(alloc, first))?;
    tasks.push(later_task(alloc, b"b", second, 0)?)?;
    tasks.push(later_task(alloc, b"c", third, 1)?)?;
    Ok(Graph {
        name: Name::of(name).unwrap(),
        period,
        offset: 0,
        deadline: period,
        tasks,
    })
}

/// A set of these graphs.
fn set_of(alloc: Global, graphs: Graphs) -> TaskSet
    ensures { result ≡ set_of graphs [] }
{
    TaskSet {
        soft_limit: 64,
        graphs,
        sporadics: Sporadics::new(alloc),
    }
}

/// Three slots of work in eight.
pub(crate) fn row_set(alloc: Global) -> Result<TaskSet, Memory>
    ensures { IfOk result (λ set. set ≡ row_set) }
{
    let mut graphs = Graphs::new(alloc);
    graphs.push(row(alloc, b"g", 8, 1, 1, 1)?)?;
    Ok(set_of(alloc, graphs))
}

/// The same beside a sporadic alarm of one slot.
pub(crate) fn alarm_set(alloc: Global) -> Result<TaskSet, Memory>
    ensures { IfOk result (λ set. set ≡ alarm_set) }
{
    let mut set = row_set(alloc)?;
    set.sporadics.push(Sporadic {
        name: Name::of(b"alarm").unwrap(),
        wcet: 1,
        separation: 8,
        deadline: 2,
    })?;
    Ok(set)
}

/// A flight controller: its inertial unit, its receiver of positions, its radio link.
pub(crate) fn flight_set(alloc: Global) -> Result<TaskSet, Memory>
    ensures { IfOk result (λ set. set ≡ flight_set) }
{
    let mut graphs = Graphs::new(alloc);
    graphs.push(row(alloc, b"imu", 10, 1, 1, 1)?)?;
    graphs.push(row(alloc, b"gps", 20, 1, 2, 1)?)?;
    graphs.push(row(alloc, b"link", 40, 2, 3, 1)?)?;
    Ok(set_of(alloc, graphs))
}
