//! Task sets.

ghost use Rattle.std.specs.Prelude.{◌≡◌, [], ◌∷◌, true, codes, IfOk};
ghost use Rattle.slot_core.specs.Sets.Names.{is_name};
ghost use Rattle.sample_sets.specs.Sets.{alarm_set, borrowing_set, gps_graph, imu_graph, link_graph, long_names_set, pair_set, plain_graph, set_of, sporadic, task, two_periods_set, unmanned_flight_set};

use crate::graphs::{graph_of_three, graph_of_two, lone_task, task};
use slot_core::{Graph, Graphs, Memory, Name, Sporadic, Sporadics, TaskSet};
use std::alloc::Global;

/// A set of these graphs, with room for 64 soft jobs.
fn set_of(alloc: Global, graphs: Graphs) -> TaskSet
    ensures { result ≡ set_of 64 graphs [] }
{
    TaskSet {
        soft_limit: 64,
        graphs,
        sporadics: Sporadics::new(alloc),
    }
}

/// A set of one graph.
fn set_of_one(alloc: Global, graph: Graph) -> Result<TaskSet, Memory>
    ensures { IfOk result (λ set. set ≡ set_of 64 (graph ∷ []) []) }
{
    let mut graphs = Graphs::new(alloc);
    graphs.push(graph)?;
    Ok(set_of(alloc, graphs))
}

/// A set of two graphs.
pub(crate) fn set_of_two(alloc: Global, first: Graph, second: Graph) -> Result<TaskSet, Memory>
    ensures { IfOk result (λ set. set ≡ set_of 64 (first ∷ second ∷ []) []) }
{
    let mut graphs = Graphs::new(alloc);
    graphs.push(first)?;
    graphs.push(second)?;
    Ok(set_of(alloc, graphs))
}

/// Two tasks in a row, period 8.
pub fn pair_set(alloc: Global) -> Result<TaskSet, Memory>
    ensures { IfOk result (λ set. set ≡ pair_set) }
{
    let a = task(alloc, b"a", 2, &[])?;
    let b = task(alloc, b"b", 1, &[0])?;
    set_of_one(alloc, graph_of_two(alloc, b"g", 8, a, b)?)
}

/// The pair beside a sporadic alarm.
pub fn alarm_set(alloc: Global) -> Result<TaskSet, Memory>
    ensures { IfOk result (λ set. set ≡ alarm_set) }
{
    let mut tasks = pair_set(alloc)?;
    tasks.sporadics.push(sporadic(b"alarm"))?;
    Ok(tasks)
}

/// A short deadline beside long work, which borrows from it.
pub fn borrowing_set(alloc: Global) -> Result<TaskSet, Memory>
    ensures { IfOk result (λ set. set ≡ borrowing_set) }
{
    let p = lone_task(alloc, b"p", 10, 0, 4, 1)?;
    let q = lone_task(alloc, b"q", 10, 0, 10, 8)?;
    set_of_two(alloc, p, q)
}

/// Two tasks of one slot with these periods.
pub fn two_periods_set(alloc: Global, first: u32, second: u32) -> Result<TaskSet, Memory>
    ensures { IfOk result (λ set. set ≡ two_periods_set first second) }
{
    let g = lone_task(alloc, b"g", first, 0, first, 1)?;
    let h = lone_task(alloc, b"h", second, 0, second, 1)?;
    set_of_two(alloc, g, h)
}

/// The graph of a flight controller's inertial unit.
fn imu(alloc: Global) -> Result<Graph, Memory>
    ensures { IfOk result (λ graph. graph ≡ imu_graph) }
{
    let read = task(alloc, b"read", 1, &[])?;
    let fuse = task(alloc, b"fuse", 1, &[0])?;
    let ctl = task(alloc, b"ctl", 1, &[1])?;
    graph_of_three(alloc, b"imu", 10, read, fuse, ctl)
}

/// That of its receiver of positions.
fn gps(alloc: Global) -> Result<Graph, Memory>
    ensures { IfOk result (λ graph. graph ≡ gps_graph) }
{
    let read = task(alloc, b"read", 1, &[])?;
    let fix = task(alloc, b"fix", 2, &[0])?;
    let nav = task(alloc, b"nav", 1, &[1])?;
    graph_of_three(alloc, b"gps", 20, read, fix, nav)
}

/// That of its radio link.
fn link(alloc: Global) -> Result<Graph, Memory>
    ensures { IfOk result (λ graph. graph ≡ link_graph) }
{
    let recv = task(alloc, b"recv", 2, &[])?;
    let plan = task(alloc, b"plan", 3, &[0])?;
    let send = task(alloc, b"send", 1, &[1])?;
    graph_of_three(alloc, b"link", 40, recv, plan, send)
}

/// The flight controller without its remote control.
pub fn unmanned_flight_set(alloc: Global) -> Result<TaskSet, Memory>
    ensures { IfOk result (λ set. set ≡ unmanned_flight_set) }
{
    let mut graphs = Graphs::new(alloc);
    graphs.push(imu(alloc)?)?;
    graphs.push(gps(alloc)?)?;
    graphs.push(link(alloc)?)?;
    Ok(set_of(alloc, graphs))
}

/// A sporadic task of one slot, due within two.
fn sporadic(name: &[u8]) -> Sporadic
    requires { is_name name.now ≡ true }
    ensures { result ≡ sporadic name.now 1 8 2 }
{
    Sporadic {
        name: Name::of(name).unwrap(),
        wcet: 1,
        separation: 8,
        deadline: 2,
    }
}

/// A graph of two tasks of one slot, the first of them a.
fn pair(alloc: Global, name: &[u8], second: &[u8]) -> Result<Graph, Memory>
    requires name { is_name name.now ≡ true }
    requires second { is_name second.now ≡ true }
    ensures { IfOk result (λ g. g
        ≡ plain_graph name.now 8 (task (codes "a") 1 [] ∷ task second.now 1 [] ∷ [])) }
{
    let a = task(alloc, b"a", 1, &[])?;
    let b = task(alloc, second, 1, &[])?;
    graph_of_two(alloc, name, 8, a, b)
}

/// Two graphs of two tasks, and two sporadic tasks. Of each two the second has the longest name.
pub fn long_names_set(alloc: Global) -> Result<TaskSet, Memory>
    ensures { IfOk result (λ set. set ≡ long_names_set) }
{
    let g = pair(alloc, b"g", b"b")?;
    let h = pair(
        alloc,
        b"graph-name-of-24-bytes_x",
        b"Task_name-of-24-bytes-yz",
    )?;
    let mut set = set_of_two(alloc, g, h)?;
    set.sporadics.push(sporadic(b"alarm"))?;
    set.sporadics.push(sporadic(b"sporadic-of-24-bytes_abc"))?;
    Ok(set)
}
