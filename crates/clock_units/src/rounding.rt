//! Whole slots of a time.

ghost use Rattle.std.specs.Prelude.{◌≡◌, ◌<◌, ◌+◌, ◌*◌};
ghost use Rattle.clock_units.specs.Rounding.{down, up};
ghost use Rattle.clock_units.specs.Derived.{graph_deadline, planned_separation, sporadic_deadline};

use crate::sets::{PhysicalGraph, PhysicalSporadic};

/// The pieces of this size that fit into the time.
pub(crate) fn down(size: u64, time: u64) -> u64
    requires { 0 < size }
    ensures { result ≡ down size time }
{
    time / size
}

/// The pieces of this size that reach the time.
pub(crate) fn up(size: u64, time: u64) -> u64
    requires { 0 < size }
    ensures { result ≡ up size time }
{
    time.div_ceil(size)
}

/// The time from this one to the next boundary of slots.
fn wait_after(slot: u64, time: u64) -> u64
    requires { 0 < slot }
    ensures { time + result ≡ up slot time * slot }
{
    let passed = time % slot;
    if passed == 0 { 0 } else { slot - passed }
}

/// The slots of a graph's deadline.
pub(crate) fn graph_deadline(slot: u64, graph: &PhysicalGraph) -> u64
    requires { 0 < slot }
    ensures { result ≡ graph_deadline slot graph.now }
{
    let wait = wait_after(slot, graph.offset);
    down(slot, graph.deadline.saturating_sub(wait))
}

/// The slots of a sporadic task's separation.
pub(crate) fn separation(slot: u64, sporadic: &PhysicalSporadic) -> u64
    requires { 0 < slot }
    ensures { result ≡ down slot (planned_separation sporadic.now) }
{
    down(slot, sporadic.separation.min(sporadic.planned))
}

/// The slots of a sporadic task's deadline.
pub(crate) fn sporadic_deadline(slot: u64, sporadic: &PhysicalSporadic) -> u64
    requires { 0 < slot }
    ensures { result ≡ sporadic_deadline slot sporadic.now }
{
    let wait = if sporadic.at_boundaries { 0 } else { slot };
    let due = down(slot, sporadic.deadline.saturating_sub(wait));
    separation(slot, sporadic).min(due)
}
