//! The order of the tasks of a graph, and the windows derived from precedence.
#![tactic(auto)]

ghost use Rattle.std.specs.Prelude.{◌≡◌, ◌≤◌, ◌<◌, ℕ, true, Some, None, length, map, IfOk, IsPermutation, OnOk};
ghost use Rattle.slot_core.specs.declared.TheConstants.{TASK_LIMIT};
ghost use Rattle.slot_core.specs.Sets.Cycles.{cycle_of};
ghost use Rattle.slot_core.specs.Offline.OfflineJobs.{raw_jobs, derived_job};
ghost use Rattle.slot_core.specs.Keeping.Plans.{AreInDeadlineOrder};
ghost use Rattle.slot_core.specs.Offline.Precedence.{comes_after};
ghost use Rattle.slot_core.specs.Sets.Ranges.{is_sound};
ghost use Rattle.window_derive.specs.declared.OrderFault.TheVariants.{Memory as MemoryFault};
ghost use Rattle.window_derive.specs.Orders.{IsOrder, first_on_loop};
ghost use Rattle.window_derive.specs.PrecedenceKept.{KeepsPrecedence};

mod chains;
mod loops;
mod places;
mod windows;

use loops::first_on_loop;
use places::next_task;
use slot_core::{Graph, Job, Memory, RawJob, TASK_LIMIT, TaskSet};
use std::alloc::{AllocFailed, Global};
use std::error::Error;
use std::fmt;
use windows::{by_deadline, chains_of_graphs, windows_of};

/// Why a graph has no order.
#[derive(Clone, Copy, PartialEq, Eq)]
pub enum OrderFault {
    /// Memory ran out.
    Memory,
    /// The least task on a loop of `after` entries.
    Loop(u16),
}

impl fmt::Display for OrderFault {
    ghost use Rattle.std.specs.Prelude.{Some};
    ghost use Rattle.window_derive.specs.FaultTexts.{order_fault_text};

    ghost output = { λ fault. Some (order_fault_text fault) };

    fn fmt<W: fmt::Write>(&self, f: &mut fmt::Formatter<W>) -> fmt::Result {
        match self {
            OrderFault::Memory => write!(f, "out of memory"),
            OrderFault::Loop(task) => write!(f, "loop task {task}"),
        }
    }
}

impl fmt::Debug for OrderFault {
    fn fmt<W: fmt::Write>(&self, f: &mut fmt::Formatter<W>) -> fmt::Result {
        fmt::Display::fmt(self, f)
    }
}

impl Error for OrderFault {}

impl<T: Drop> From<AllocFailed<T>> for OrderFault {
    ghost from_gives = { λ _ fault. fault ≡ MemoryFault };

    fn from(_: AllocFailed<T>) -> OrderFault {
        OrderFault::Memory
    }
}

/// Every task once, at each place the least one whose predecessors all stand before it. A loop is
/// told exactly where there is one.
pub fn order(alloc: Global, graph: &Graph) -> Result<Vec<u16>, OrderFault>
    requires count { length graph.now.tasks ≤ TASK_LIMIT }
    requires named { (t p : ℕ) → comes_after graph.now.tasks t p ≡ true
        → p < length graph.now.tasks }
    ensures order { IfOk result (λ tasks. IsOrder graph.now.tasks tasks.items) }
    ensures loopless { OnOk result (first_on_loop graph.now.tasks ≡ None) }
    ensures looped { (t : ℕ) → result ≡ Err (OrderFault.Loop t)
        → first_on_loop graph.now.tasks ≡ Some t }
{
    let tasks = graph.tasks.items();
    let mut placed = [false; TASK_LIMIT];
    let mut order = Vec::new(alloc);
    for _place in 0..tasks.len() {
        let Some(task) = next_task(tasks, &placed) else {
            return Err(OrderFault::Loop(first_on_loop(tasks).unwrap()));
        };
        order.push(task)?;
        placed[usize::from(task)] = true;
    }
    Ok(order)
}

/// The jobs of the first cycle with their derived windows, by deadline and then by key.
pub fn derive(alloc: Global, tasks: &TaskSet, raw: &[RawJob]) -> Result<Vec<Job>, Memory>
    requires sound { is_sound tasks.now ≡ true }
    requires unrolled { raw.now ≡ raw_jobs tasks.now (cycle_of tasks.now) 0 }
    ensures jobs { IfOk result (λ jobs.
        IsPermutation (map (derived_job tasks.now) raw.now) jobs.items) }
    ensures ordered { IfOk result (λ jobs. AreInDeadlineOrder jobs.items) }
    ensures precedence { IfOk result (λ jobs. KeepsPrecedence tasks.now jobs.items) }
{
    let chains = chains_of_graphs(alloc, tasks.graphs.items())?;
    let mut jobs = windows_of(alloc, raw, chains.as_slice())?;
    jobs.sort_unstable_by(by_deadline);
    Ok(jobs)
}
