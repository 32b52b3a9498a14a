//! The header of a plan for a program in C.

ghost use Rattle.std.specs.Prelude.{◌≡◌, ◌++◌, ◌<◌, ◌≤◌, ◌^◌, ◌*◌, ℕ, List, true, All, IfOk, OnOk, codes, flat_map, length, sum_by};
ghost use Rattle.std.specs.List.{enumerate_from};
ghost use Rattle.slot_core.specs.declared.TheConstants.{GRAPH_LIMIT, SPORADIC_LIMIT, TASK_LIMIT};
ghost use Rattle.slot_core.specs.declared.tasks.Graph.{Graph};
ghost use Rattle.slot_core.specs.Sets.Ranges.{is_sound};
ghost use Rattle.table_codec.specs.Grammar.{spelling};
ghost use Rattle.plan_answers.specs.Headers.{arena_bytes, array_bytes, array_text, c_byte, c_name, c_task, end_text, enumerator, graph_lines, head_text, header_text, middle_text, number_lines, parts_in, plan_lines, set_lines, sporadic_lines, task_lines};

use crate::array::push_array;
use command_line::append::{push, push_worded};
use cycle_plan::Plan;
use slot_core::{Graph, Memory, Name, Sporadic, Task, TaskSet};
use std::alloc::Global;
use table_codec::encode;

/// The header of the plan for a program in C: the indexes and worst cases of its tasks, its
/// numbers, and the bytes of its table.
pub fn header_text(alloc: Global, plan: &Plan) -> Result<Vec<u8>, Memory>
    ensures text { IfOk result (λ text. text.items ≡ header_text plan.now) }

    // The array that stands in it is the table.
    ensures array { IfOk result (λ _.
        array_bytes (array_text (spelling plan.now)) ≡ spelling plan.now) }
{
    let table = encode(alloc, plan)?;
    let mut text = Vec::new(alloc);
    push(&mut text, HEAD)?;
    push_plan(&mut text, plan, table.len())?;
    push_set(&mut text, plan.tasks())?;
    push(&mut text, MIDDLE)?;
    push_array(&mut text, &table)?;
    push(&mut text, END)?;
    Ok(text)
}

/// Appends the enumerators of the plan as a whole.
fn push_plan(text: &mut Vec<u8>, plan: &Plan, table: usize) -> Result<(), Memory>
    requires { table ≡ length (spelling plan.now) }
    ensures { OnOk result (text.new.items ≡ text.old.items ++ plan_lines plan.now) }
{
    let cycle = u64::from(plan.cycle());
    let soft = u64::from(plan.tasks().soft_limit);
    push_numbers(text, cycle, soft, arena_bytes(plan), table as u64)
}

/// Appends the enumerators of these numbers of a plan.
fn push_numbers(
    text: &mut Vec<u8>,
    cycle: u64,
    soft: u64,
    arena: u64,
    table: u64,
) -> Result<(), Memory>
    ensures { OnOk result (text.new.items ≡ text.old.items ++ number_lines cycle soft arena table) }
{
    push_number(text, b"CYCLE", cycle)?;
    push_number(text, b"SOFT", soft)?;
    push_number(text, b"ARENA", arena)?;
    push_number(text, b"TABLE_BYTES", table)
}

/// Appends an enumerator of this name and number.
fn push_number(text: &mut Vec<u8>, name: &[u8], number: u64) -> Result<(), Memory>
    ensures { OnOk result (text.new.items ≡ text.old.items ++ enumerator name.now number) }
{
    push(text, b"    PLAN_")?;
    push(text, name)?;
    push_worded(text, b" =", number)?;
    push(text, b",\n")
}

/// The bytes of an arena that suffice for the plan, as library/arena.h counts them.
fn arena_bytes(plan: &Plan) -> u64
    ensures { result ≡ arena_bytes plan.now }
{
    let tasks = plan.tasks();
    24_640
        + 412 * u64::from(plan.cycle())
        + 320 * plan.jobs().len() as u64
        + 128 * plan.spans().len() as u64
        + 12 * u64::from(tasks.soft_limit)
        + 512 * parts_in(tasks)
}

/// The graphs, tasks and sporadic tasks of the set together.
fn parts_in(tasks: &TaskSet) -> u64
    requires { is_sound tasks.now ≡ true }
    ensures value { result ≡ parts_in tasks.now }
    ensures small { result < 2 ^ 32 }
{
    let graphs = tasks.graphs.items();
    graphs.len() as u64 + tasks_in(graphs) + tasks.sporadics.len() as u64
}

/// The tasks of these graphs.
fn tasks_in(graphs: &[Graph]) -> u64
    requires few { length graphs.now ≤ GRAPH_LIMIT }
    requires tasks { All (λ (g : Graph). length g.tasks ≤ TASK_LIMIT) graphs.now }
    ensures value { result ≡ sum_by (λ (g : Graph). length g.tasks) graphs.now }
    ensures small { result ≤ GRAPH_LIMIT * TASK_LIMIT }
{
    let mut count = 0u64;
    for graph in graphs {
        count += graph.tasks.len() as u64;
    }
    count
}

/// Appends the enumerators of the set.
fn push_set(text: &mut Vec<u8>, tasks: &TaskSet) -> Result<(), Memory>
    ensures { OnOk result (text.new.items ≡ text.old.items ++ set_lines tasks.now) }
{
    push_graphs(text, tasks.graphs.items())?;
    push_sporadics(text, tasks.sporadics.items())
}

/// Appends the enumerators of these graphs and of their tasks.
fn push_graphs(text: &mut Vec<u8>, graphs: &[Graph]) -> Result<(), Memory>
    ensures { OnOk result (text.new.items
        ≡ text.old.items ++ flat_map graph_lines (enumerate_from 0 graphs.now)) }
{
    for (index, graph) in graphs.iter().enumerate() {
        push_graph(text, index, graph)?;
    }
    Ok(())
}

/// Appends the enumerators of the graph and of its tasks.
fn push_graph(text: &mut Vec<u8>, index: usize, graph: &Graph) -> Result<(), Memory>
    ensures { OnOk result
        (text.new.items ≡ text.old.items ++ graph_lines (index, graph.now)) }
{
    push_named(text, b"GRAPH_", &graph.name, index as u64)?;
    push_tasks(text, graph, graph.tasks.items())
}

/// Appends an enumerator of a name in C after this word.
fn push_named(text: &mut Vec<u8>, word: &[u8], name: &Name, number: u64) -> Result<(), Memory>
    ensures { OnOk result (text.new.items
        ≡ text.old.items ++ enumerator (word.now ++ c_name name.now) number) }
{
    push(text, b"    PLAN_")?;
    push(text, word)?;
    push_name(text, name.bytes())?;
    push_worded(text, b" =", number)?;
    push(text, b",\n")
}

/// Appends the name in C.
fn push_name(text: &mut Vec<u8>, name: &[u8]) -> Result<(), Memory>
    ensures { OnOk result (text.new.items ≡ text.old.items ++ c_name name.now) }
{
    for byte in name {
        push(text, &[c_byte(*byte)])?;
    }
    Ok(())
}

/// The byte in C: a dash is an underscore.
fn c_byte(byte: u8) -> u8
    ensures { result ≡ c_byte byte }
{
    if byte == b'-' { b'_' } else { byte }
}

/// Appends the enumerators of these tasks of the graph.
fn push_tasks(text: &mut Vec<u8>, graph: &Graph, tasks: &[Task]) -> Result<(), Memory>
    ensures { OnOk result (text.new.items
        ≡ text.old.items ++ flat_map (task_lines graph.now) (enumerate_from 0 tasks.now)) }
{
    for (index, task) in tasks.iter().enumerate() {
        push_both(text, graph, index, task)?;
    }
    Ok(())
}

/// Appends the enumerators of the task of the graph.
fn push_both(text: &mut Vec<u8>, graph: &Graph, index: usize, task: &Task) -> Result<(), Memory>
    ensures { OnOk result
        (text.new.items ≡ text.old.items ++ task_lines graph.now (index, task.now)) }
{
    push_task(text, b"TASK_", graph, task, index as u64)?;
    push_task(text, b"WCET_", graph, task, u64::from(task.wcet))
}

/// Appends an enumerator of the task of the graph after this word.
fn push_task(
    text: &mut Vec<u8>,
    word: &[u8],
    graph: &Graph,
    task: &Task,
    number: u64,
) -> Result<(), Memory>
    ensures { OnOk result (text.new.items
        ≡ text.old.items ++ enumerator (word.now ++ c_task graph.now task.now) number) }
{
    push(text, b"    PLAN_")?;
    push(text, word)?;
    push_name(text, graph.name.bytes())?;
    push(text, b"__")?;
    push_name(text, task.name.bytes())?;
    push_worded(text, b" =", number)?;
    push(text, b",\n")
}

/// Appends the enumerators of these sporadic tasks.
fn push_sporadics(text: &mut Vec<u8>, sporadics: &[Sporadic]) -> Result<(), Memory>
    ensures { OnOk result (text.new.items
        ≡ text.old.items ++ flat_map sporadic_lines (enumerate_from 0 sporadics.now)) }
{
    for (index, sporadic) in sporadics.iter().enumerate() {
        push_sporadic(text, index, sporadic)?;
    }
    Ok(())
}

/// Appends the enumerators of the sporadic task.
fn push_sporadic(text: &mut Vec<u8>, index: usize, sporadic: &Sporadic) -> Result<(), Memory>
    ensures { OnOk result
        (text.new.items ≡ text.old.items ++ sporadic_lines (index, sporadic.now)) }
{
    push_named(text, b"SPORADIC_", &sporadic.name, index as u64)?;
    push_named(text, b"WCET_", &sporadic.name, u64::from(sporadic.wcet))
}

/// What stands before the enumerators.
const HEAD: &[u8] = b"\
/* A plan for library/slotexec.h, as slotplan header writes it: do not edit.
 * Indexes are those that the calls take, worst cases are in slots, and an arena
 * of PLAN_ARENA bytes suffices. */
#ifndef SLOTPLAN_HEADER
#define SLOTPLAN_HEADER

#include <stdint.h>

enum {
";

/// What stands between them and the array.
const MIDDLE: &[u8] = b"\
};

static const uint8_t plan_table[PLAN_TABLE_BYTES] = {";

/// What stands after the array.
const END: &[u8] = b"
};

#endif
";
