//! Names and keys at the end of a line.

ghost use Rattle.std.specs.Prelude.{◌≡◌, ◌≤◌, ◌+◌, true, length, codes, decimal, ◌&&◌, ◌++◌, ◌∷◌, Some, slice_get, nat_lt};
ghost use Rattle.slot_core.specs.declared.TheConstants.{NAME_LIMIT};
ghost use Rattle.slot_core.specs.Runs.Arrivals.{key_in_set};
ghost use Rattle.slot_core.specs.Offline.OfflineJobs.{tasks_of};
ghost use Rattle.slot_core.specs.Output.Texts.{key_text, graph_name, task_name, sporadic_name};
ghost use Rattle.trace_text.specs.declared.TheConstants.{KEY_LIMIT, LINE_LIMIT};

use crate::line::Line;
use slot_core::{Graph, Key, Name, TaskSet};

/// Appends the name. A name of two or three bytes, as many have, gets code of its own without a
/// loop.
fn push_name(line: &mut Line, name: &Name)
    requires { length line.old + NAME_LIMIT ≤ LINE_LIMIT }
    ensures text { line.new ≡ line.old ++ name.now }
    ensures short { length line.new ≤ length line.old + NAME_LIMIT }
{
    match name.bytes() {
        [first, second] => line.push(&[*first, *second]),
        [first, second, third] => line.push(&[*first, *second, *third]),
        bytes => line.push(bytes),
    }
}

/// The graph of this index.
fn graph_at(tasks: &TaskSet, graph: u16) -> &Graph
    requires { nat_lt graph (length tasks.now.graphs) ≡ true }
    ensures { slice_get tasks.now.graphs graph ≡ Some result.now }
{
    &tasks.graphs.items()[usize::from(graph)]
}

/// Appends the name of the graph of this index.
fn push_graph(line: &mut Line, graph: u16, tasks: &TaskSet)
    requires named { nat_lt graph (length tasks.now.graphs) ≡ true }
    requires room { length line.old + NAME_LIMIT ≤ LINE_LIMIT }
    ensures text { line.new ≡ line.old ++ graph_name tasks.now graph }
    ensures short { length line.new ≤ length line.old + NAME_LIMIT }
{
    push_name(line, &graph_at(tasks, graph).name);
}

/// Appends the name of the task of this index in the graph.
fn push_task(line: &mut Line, graph: u16, task: u16, tasks: &TaskSet)
    requires graph { nat_lt graph (length tasks.now.graphs) ≡ true }
    requires task { nat_lt task (length (tasks_of tasks.now graph)) ≡ true }
    requires room { length line.old + NAME_LIMIT ≤ LINE_LIMIT }
    ensures text { line.new ≡ line.old ++ task_name tasks.now graph task }
    ensures short { length line.new ≤ length line.old + NAME_LIMIT }
{
    let graph = graph_at(tasks, graph);
    push_name(line, &graph.tasks.items()[usize::from(task)].name);
}

/// Appends the name of the sporadic task of this index.
pub(crate) fn push_sporadic(line: &mut Line, index: u8, tasks: &TaskSet)
    requires named { nat_lt index (length tasks.now.sporadics) ≡ true }
    requires room { length line.old + NAME_LIMIT ≤ LINE_LIMIT }
    ensures text { line.new ≡ line.old ++ sporadic_name tasks.now index }
    ensures short { length line.new ≤ length line.old + NAME_LIMIT }
{
    push_name(line, &tasks.sporadics.items()[usize::from(index)].name);
}

/// Appends the key of an instance of a task of a graph.
fn push_offline(line: &mut Line, graph: u16, task: u16, instance: u64, tasks: &TaskSet)
    requires named { (nat_lt graph (length tasks.now.graphs)
        && nat_lt task (length (tasks_of tasks.now graph))) ≡ true }
    requires room { length line.old + KEY_LIMIT ≤ LINE_LIMIT }
    ensures text { line.new ≡ line.old ++ (graph_name tasks.now graph ++ codes "."
        ++ task_name tasks.now graph task ++ codes "#" ++ decimal instance) }
    ensures short { length line.new ≤ length line.old + KEY_LIMIT }
{
    push_graph(line, graph, tasks);
    line.push(b".");
    push_task(line, graph, task, tasks);
    line.push(b"#");
    line.number(instance);
}

/// Appends the key.
pub(crate) fn push_key(line: &mut Line, key: &Key, tasks: &TaskSet)
    requires named { key_in_set tasks.now key.now ≡ true }
    requires room { length line.old + KEY_LIMIT ≤ LINE_LIMIT }
    ensures text { line.new ≡ line.old ++ key_text tasks.now key.now }
    ensures short { length line.new ≤ length line.old + KEY_LIMIT }
{
    match *key {
        Key::Offline(graph, task, instance) => push_offline(line, graph, task, instance, tasks),
        Key::Sporadic(index, row) => {
            push_sporadic(line, index, tasks);
            line.push(b"@");
            line.number(u64::from(row));
        }
        Key::Firm(row) => {
            line.push(b"firm:");
            line.number(u64::from(row));
        }
        Key::Soft(row) => {
            line.push(b"soft:");
            line.number(u64::from(row));
        }
    }
}
