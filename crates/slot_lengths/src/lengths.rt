//! The lengths of a slot that divide all periods.

ghost use Rattle.std.specs.Prelude.{◌≡◌, ◌<◌, ◌++◌, IfOk, OnOk};
ghost use Rattle.slot_lengths.specs.Lengths.{divides_all, first_period, is_length, length_at, lengths_in, slot_lengths};

use clock_units::PhysicalGraph;
use slot_core::{List, Memory, SLOT_LIMIT};
use std::alloc::Global;

/// The lengths of a slot from `from` to `to` nanoseconds that divide all periods, the longest
/// first: the first period has 1 to `SLOT_LIMIT` of them.
pub(crate) fn slot_lengths(
    alloc: Global,
    graphs: &[PhysicalGraph],
    from: u64,
    to: u64,
) -> Result<List<u64>, Memory>
    ensures { IfOk result (λ lengths. lengths ≡ slot_lengths from to graphs.now) }
{
    lengths_in(alloc, graphs, from, to, SLOT_LIMIT)
}

/// Those of which the first period has 1 to `most`.
fn lengths_in(
    alloc: Global,
    graphs: &[PhysicalGraph],
    from: u64,
    to: u64,
    most: u32,
) -> Result<List<u64>, Memory>
    ensures { IfOk result (λ lengths. lengths ≡ lengths_in most from to graphs.now) }
{
    let mut lengths = List::new(alloc);
    for place in 0..most {
        push_length(&mut lengths, graphs, from, to, place + 1)?;
    }
    Ok(lengths)
}

/// Appends the length of which the first period has so many, where it is one.
fn push_length(
    lengths: &mut List<u64>,
    graphs: &[PhysicalGraph],
    from: u64,
    to: u64,
    parts: u32,
) -> Result<(), Memory>
    requires { 0 < parts }
    ensures { OnOk result (lengths.new ≡ lengths.old ++ length_at from to graphs.now parts) }
{
    let period = first_period(graphs);
    let parts = u64::from(parts);
    let slot = period / parts;
    if slot * parts == period && is_length(graphs, from, to, slot) {
        return lengths.push(slot);
    }
    Ok(())
}

/// The period of the first graph.
fn first_period(graphs: &[PhysicalGraph]) -> u64
    ensures { result ≡ first_period graphs.now }
{
    match graphs {
        [graph, ..] => graph.period,
        [] => 0,
    }
}

/// Whether a slot of this length is within the range, and divides all periods.
fn is_length(graphs: &[PhysicalGraph], from: u64, to: u64, slot: u64) -> bool
    ensures { result ≡ is_length from to graphs.now slot }
{
    0 < slot && from <= slot && slot <= to && divides_all(graphs, slot)
}

/// Whether the slot divides all periods.
fn divides_all(graphs: &[PhysicalGraph], slot: u64) -> bool
    requires { 0 < slot }
    ensures { result ≡ divides_all slot graphs.now }
{
    for graph in graphs {
        if graph.period % slot != 0 {
            return false;
        }
    }
    true
}
