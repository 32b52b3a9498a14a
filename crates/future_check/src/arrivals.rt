//! The densest sporadic arrivals that are due by a time.

ghost use Rattle.std.specs.Prelude.{◌≡◌, ◌≤◌, ◌<◌, ◌+◌, ◌++◌, IfOk, OnOk, true};
ghost use Rattle.std.specs.Cmp.Lexicographic.{slice_cmp};
ghost use Rattle.std.specs.Ordering.{nat_cmp};
ghost use Rattle.slot_core.specs.declared.TheConstants.{HORIZON_LIMIT};
ghost use Rattle.slot_core.specs.Claims.Futures.{densest_until};
ghost use Rattle.slot_core.specs.Feasibility.Sporadics.{densest_arrivals};
ghost use Rattle.slot_core.specs.Sets.Ranges.{sporadic_in_range};
ghost use Rattle.future_check.specs.Explanations.{arrival_order, shown_arrivals};

use interval_row::SpareTable;
use slot_core::{Memory, Sporadic};
use slot_exec::Exec;
use std::alloc::Global;
use std::cmp::Ordering;

/// An arrival that may come: the index of its sporadic task, and its time.
pub(crate) type Coming = (u8, u64);

/// The densest arrivals from now on that are due by `until`, by time, then by task.
pub(crate) fn due_arrivals<T: SpareTable>(
    alloc: Global,
    exec: &Exec<T>,
    until: u64,
) -> Result<Vec<Coming>, Memory>
    requires { until < HORIZON_LIMIT }
    ensures { IfOk result (λ arrivals.
        arrivals.items ≡ shown_arrivals exec.now.plan.tasks exec.now.scene until) }
{
    let mut arrivals = Vec::new(alloc);
    push_all(exec, until, &mut arrivals)?;
    arrivals.sort_unstable_by(by_time);
    Ok(arrivals)
}

/// Appends the densest arrivals of all sporadic tasks.
fn push_all<T: SpareTable>(
    exec: &Exec<T>,
    until: u64,
    arrivals: &mut Vec<Coming>,
) -> Result<(), Memory>
    requires { until < HORIZON_LIMIT }
    ensures { OnOk result (arrivals.new.items ≡ arrivals.old.items
        ++ densest_until exec.now.plan.tasks exec.now.scene until) }
{
    let now = exec.now();
    let reserve = exec.reserve();
    for (index, task) in exec.tasks().sporadics.items().iter().enumerate() {
        let next = reserve.next_of(index as u8);
        push_task(index as u8, task, next, now, until, arrivals)?;
    }
    Ok(())
}

/// Appends the densest arrivals of a sporadic task with this next legal arrival: the first as soon
/// as it may come, each later one a separation after the one before, up to the last that is due by
/// `until`.
fn push_task(
    index: u8,
    task: &Sporadic,
    next: u64,
    now: u64,
    until: u64,
    arrivals: &mut Vec<Coming>,
) -> Result<(), Memory>
    requires in_range { sporadic_in_range task.now ≡ true }
    requires near { next < HORIZON_LIMIT }
    requires early { now < HORIZON_LIMIT }
    requires soon { until < HORIZON_LIMIT }
    ensures { OnOk result (arrivals.new.items ≡ arrivals.old.items
        ++ densest_arrivals index task.now next now until) }
{
    let within = u64::from(task.deadline);
    let apart = u64::from(task.separation);
    let mut time = now.max(next);
    while time + within <= until {
        arrivals.push((index, time))?;
        time += apart;
    }
    Ok(())
}

/// By time, then by task.
fn by_time(a: &Coming, b: &Coming) -> Ordering
    ensures { result ≡ slice_cmp nat_cmp (arrival_order a.now) (arrival_order b.now) }
{
    (a.1, a.0).cmp(&(b.1, b.0))
}
