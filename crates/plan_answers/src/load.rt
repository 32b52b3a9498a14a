//! The load of a task set.

ghost use Rattle.std.specs.Prelude.{◌≡◌, ◌^◌, ◌<◌, ◌≤◌, ◌++◌, [], true, All, IfOk, OnOk, codes, flat_map, sum_by};
ghost use Rattle.std.specs.Option.{option_map_or};
ghost use Rattle.slot_core.specs.declared.TheConstants.{SLOT_LIMIT};
ghost use Rattle.slot_core.specs.declared.tasks.Task.{Task};
ghost use Rattle.slot_core.specs.declared.tasks.Graph.{Graph};
ghost use Rattle.slot_core.specs.Sets.Cycles.{cycle_of};
ghost use Rattle.slot_core.specs.Sets.Ranges.{graph_in_range, is_sound, sporadic_in_range};
ghost use Rattle.slot_core.specs.Feasibility.Feasible.{demand};
ghost use Rattle.plan_answers.specs.Loads.{graph_lines, load_text, number_lines, slack_line, slack_word, sporadic_line, sporadic_load, sum_lines};
ghost use Rattle.plan_answers.specs.Tightest.{tightest};

use crate::lines::{push_label, push_line};
use crate::tightest::tightest;
use command_line::append::{push, push_worded};
use demand_test::{arrivals_by, total};
use graph_unroll::cycle_of;
use slot_core::{Graph, Memory, Sporadic, TaskSet, Window};
use std::alloc::Global;

/// The load of a sound set, whether it fits or not: a line a task and a sporadic task with its
/// slots in a cycle, the sums, and the window with the least slack.
pub fn load_text(alloc: Global, tasks: &TaskSet) -> Result<Vec<u8>, Memory>
    requires { is_sound tasks.now ≡ true }
    ensures { IfOk result (λ text. text.items ≡ load_text tasks.now) }
{
    let cycle = cycle_of(tasks).unwrap();
    let window = tightest(alloc, tasks, cycle)?;
    let mut text = Vec::new(alloc);
    push_graphs(&mut text, tasks.graphs.items(), cycle)?;
    push_sporadics(&mut text, tasks.sporadics.items(), cycle)?;
    push_sums(&mut text, tasks, cycle)?;
    push_window(&mut text, window)?;
    Ok(text)
}

/// Appends the lines of the tasks of these graphs.
fn push_graphs(text: &mut Vec<u8>, graphs: &[Graph], cycle: u32) -> Result<(), Memory>
    requires { All (λ graph. graph_in_range graph ≡ true) graphs.now }
    ensures { OnOk result
        (text.new.items ≡ text.old.items ++ flat_map (graph_lines cycle) graphs.now) }
{
    for graph in graphs {
        push_graph(text, graph, cycle)?;
    }
    Ok(())
}

/// Appends the lines of the tasks of the graph.
fn push_graph(text: &mut Vec<u8>, graph: &Graph, cycle: u32) -> Result<(), Memory>
    requires { graph_in_range graph.now ≡ true }
    ensures { OnOk result (text.new.items ≡ text.old.items ++ graph_lines cycle graph.now) }
{
    let instances = cycle / graph.period;
    for task in graph.tasks.items() {
        push(text, b"load ")?;
        push_label(text, &graph.name, &task.name)?;
        push_line(text, b"", u64::from(instances) * u64::from(task.wcet))?;
    }
    Ok(())
}

/// Appends the lines of these sporadic tasks.
fn push_sporadics(text: &mut Vec<u8>, sporadics: &[Sporadic], cycle: u32) -> Result<(), Memory>
    requires cycle { cycle ≤ SLOT_LIMIT }
    requires in_range { All (λ s. sporadic_in_range s ≡ true) sporadics.now }
    ensures { OnOk result
        (text.new.items ≡ text.old.items ++ flat_map (sporadic_line cycle) sporadics.now) }
{
    for sporadic in sporadics {
        push_sporadic(text, sporadic, cycle)?;
    }
    Ok(())
}

/// Appends the line of the sporadic task.
fn push_sporadic(text: &mut Vec<u8>, sporadic: &Sporadic, cycle: u32) -> Result<(), Memory>
    requires cycle { cycle ≤ SLOT_LIMIT }
    requires in_range { sporadic_in_range sporadic.now ≡ true }
    ensures { OnOk result (text.new.items ≡ text.old.items ++ sporadic_line cycle sporadic.now) }
{
    push(text, b"load ")?;
    push_line(text, sporadic.name.bytes(), sporadic_load(sporadic, cycle))
}

/// The slots that are reserved for a sporadic task in a cycle.
fn sporadic_load(sporadic: &Sporadic, cycle: u32) -> u64
    requires cycle { cycle ≤ SLOT_LIMIT }
    requires in_range { sporadic_in_range sporadic.now ≡ true }
    ensures { result ≡ sporadic_load cycle sporadic.now }
{
    u64::from(sporadic.wcet) * arrivals_by(sporadic, cycle)
}

/// The slots that are reserved for all sporadic tasks.
fn reserved_load(sporadics: &[Sporadic], cycle: u32) -> u64
    requires cycle { cycle ≤ SLOT_LIMIT }
    requires in_range { All (λ s. sporadic_in_range s ≡ true) sporadics.now }
    requires small { sum_by (sporadic_load cycle) sporadics.now < 2 ^ 63 }
    ensures { result ≡ sum_by (sporadic_load cycle) sporadics.now }
{
    let mut slots = 0u64;
    for sporadic in sporadics {
        slots += sporadic_load(sporadic, cycle);
    }
    slots
}

/// Appends the sums, and the cycle.
fn push_sums(text: &mut Vec<u8>, tasks: &TaskSet, cycle: u32) -> Result<(), Memory>
    requires sound { is_sound tasks.now ≡ true }
    requires cycle { cycle ≡ cycle_of tasks.now }
    ensures { OnOk result (text.new.items ≡ text.old.items ++ sum_lines tasks.now cycle) }
{
    let both = total(tasks, cycle);
    let reserved = reserved_load(tasks.sporadics.items(), cycle);
    push_numbers(text, both - reserved, reserved, both, u64::from(cycle))
}

/// Appends these sums, and the cycle.
fn push_numbers(
    text: &mut Vec<u8>,
    planned: u64,
    reserved: u64,
    both: u64,
    cycle: u64,
) -> Result<(), Memory>
    ensures { OnOk result
        (text.new.items ≡ text.old.items ++ number_lines planned reserved both cycle) }
{
    push_line(text, b"planned", planned)?;
    push_line(text, b"reserved", reserved)?;
    push_line(text, b"both", both)?;
    push_line(text, b"cycle", cycle)
}

/// Appends the line of the window, if there is one.
fn push_window(text: &mut Vec<u8>, window: Option<Window>) -> Result<(), Memory>
    ensures { OnOk result
        (text.new.items ≡ text.old.items ++ option_map_or slack_line window []) }
{
    match window {
        Some(window) => push_slack_line(text, window),
        None => Ok(()),
    }
}

/// Appends the line of the window: its slack, its bounds, and what is needed in it.
fn push_slack_line(text: &mut Vec<u8>, window: Window) -> Result<(), Memory>
    ensures { OnOk result (text.new.items ≡ text.old.items ++ slack_line window) }
{
    push_slack(
        text,
        window.until.saturating_sub(window.from),
        window.demand,
    )?;
    push_worded(text, b"", window.from)?;
    push_worded(text, b"", window.until)?;
    push_line(text, b"", window.demand)
}

/// Appends how many slots there are more than are needed, or fewer.
fn push_slack(text: &mut Vec<u8>, slots: u64, needed: u64) -> Result<(), Memory>
    ensures { OnOk result (text.new.items ≡ text.old.items ++ slack_word slots needed) }
{
    if needed <= slots {
        push_worded(text, b"slack", slots - needed)
    } else {
        push_worded(text, b"short", needed - slots)
    }
}
