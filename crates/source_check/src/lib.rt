//! Whether a task set whose numbers are in range is sound.
#![tactic(auto)]

ghost use Rattle.std.specs.Prelude.{◌≡◌, ◌≢◌, true, Some, None, OnOk, IfErr, option_map};
ghost use Rattle.std.specs.List.{list_all};
ghost use Rattle.slot_core.specs.Sets.Cycles.{cycle_lengths, first_multiple_above};
ghost use Rattle.slot_core.specs.Sets.Faults.{set_fault};
ghost use Rattle.slot_core.specs.Sets.Ranges.{is_between, is_in_range};
ghost use Rattle.source_check.specs.Checks.{Tells};

mod entries;
mod loops;
mod names;

use entries::check_entries;
use graph_unroll::cycle_of;
use loops::check_loops;
use names::{check_graph_names, check_sporadic_names};
use slot_core::{SLOT_LIMIT, TaskFault, TaskSet};
use std::alloc::Global;

/// Ok where the set is sound. Else the first fault: doubled names, wrong `after` entries, loops,
/// the cycle. An entry that is not below its graph's number of tasks names no task.
pub fn check(alloc: Global, tasks: &TaskSet) -> Result<(), TaskFault>
    requires { is_in_range tasks.now ≡ true }
    ensures ok { OnOk result (set_fault tasks.now ≡ None) }
    ensures fault { IfErr result (λ e. e ≢ TaskFault.Memory → set_fault tasks.now ≡ Some e) }
{
    let graphs = tasks.graphs.items();
    check_graph_names(graphs)?;
    check_sporadic_names(tasks.sporadics.items())?;
    check_entries(graphs)?;
    check_loops(alloc, graphs)?;
    check_cycle(tasks)
}

/// Whether the cycle is at most `SLOT_LIMIT` slots.
fn check_cycle(tasks: &TaskSet) -> Result<(), TaskFault>
    requires { list_all (is_between 1 SLOT_LIMIT) (cycle_lengths tasks.now) ≡ true }
    ensures { Tells result (option_map TaskFault.CycleTooLong
        (first_multiple_above SLOT_LIMIT 1 (cycle_lengths tasks.now))) }
{
    match cycle_of(tasks) {
        Ok(_) => Ok(()),
        Err(multiple) => Err(TaskFault::CycleTooLong(multiple)),
    }
}
