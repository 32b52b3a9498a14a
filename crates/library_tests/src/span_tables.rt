//! Capacities after each call, on spans that borrow.

ghost use Rattle.std.specs.Prelude.{◌≡◌, ◌<◌};

use interval_row::{ChainTable, RowTable, SpareTable};
use slot_core::{Span, Steps};
use std::alloc::Global;
use std::marker::Brand;
use std::process::Abort;
use std::sync::ledger::{Blank, Ledger};
use std::test::Fail;

#[test]
fn keeps_capacities(rt: HostRuntime) -> Result<(), Fail> {
    each_call::<RowTable, HostRuntime, Brand>(&rt, rt.alloc(), Blank::new(1))?;
    each_call::<ChainTable, HostRuntime, Brand>(&rt, rt.alloc(), Blank::new(1))
}

fn each_call<T: SpareTable, R: Abort, L: Ledger>(
    rt: &R,
    alloc: Global,
    blank: Blank,
) -> Result<(), Fail>
    requires name { blank.name ≡ L.name }
    requires parts { blank.parts ≡ L.parts }
    requires some { 0 < L.parts }
{
    let cycle = [span(0, 4, 1, 1), span(4, 10, 8, -2)];
    let mut steps: Steps<L> = Steps::new(blank);
    let mut table = T::with_room(alloc, &cycle, 3, 7)?;
    let points = [0, 4, 10, 14, 20, 24, 30];
    expect(rt, &table, &points, &[1, -2, 1, -2, 1, -2], &mut steps);
    table.split(2, &mut steps);
    let points = [0, 2, 4, 10, 14, 20, 24, 30];
    expect(rt, &table, &points, &[1, -1, -2, 1, -2, 1, -2], &mut steps);
    table.charge(2, 1, &mut steps);
    expect(rt, &table, &points, &[0, -1, -2, 1, -2, 1, -2], &mut steps);
    table.give_back(2, 1, &mut steps);
    expect(rt, &table, &points, &[1, -1, -2, 1, -2, 1, -2], &mut steps);
    table.pass_slot(&mut steps);
    let points = [1, 2, 4, 10, 14, 20, 24, 30];
    expect(rt, &table, &points, &[0, -1, -2, 1, -2, 1, -2], &mut steps);
    Ok(())
}

/// The table has the spans between these points, with these capacities.
fn expect<T: SpareTable, R: Abort, L: Ledger>(
    rt: &R,
    table: &T,
    points: &[u64],
    spares: &[i64],
    steps: &mut Steps<L>,
) {
    assert!(rt; table.count() as usize == spares.len());
    let mut spot = table.first();
    for (ends, spare) in points.windows(2).zip(spares) {
        let row = table.read(spot, steps);
        assert!(rt; [row.start, row.end].as_slice() == ends && row.spare == *spare);
        if let Some(next) = table.next(spot) {
            spot = next;
        }
    }
}

/// The span of these numbers.
pub(crate) fn span(start: u64, end: u64, work: u64, spare: i64) -> Span
    ensures { result ≡ record { start = start; end = end; work = work; spare = spare } }
{
    Span {
        start,
        end,
        work,
        spare,
    }
}
