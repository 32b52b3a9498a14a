//! What a table keeps beside its store.

ghost use Rattle.std.specs.Prelude.{◌≡◌, ◌<◌};
ghost use Rattle.node_chain.specs.declared.marks.TheConstants.{LAP};

use crate::lifted::Lifted;
use crate::pages::Times;
use crate::span_table::ChainTable;
use crate::store::Store;
use crate::table::SpareTable;
use node_chain::Chain;
use slot_core::{Span, Steps};
use std::alloc::Global;
use std::marker::Brand;
use std::process::Abort;
use std::sync::ledger::{Blank, Ledger};
use std::test::Fail;

// Beside the chain a table keeps whole numbers alone: no second copy of the spans.
#[test]
fn fields_are_whole(rt: HostRuntime) -> Result<(), Fail> {
    let table = ChainTable::with_room(rt.alloc(), &[span(0, 4, 1, 3)], 1, 1)?;
    let ChainTable { chain, times, hint } = &table;
    let Lifted { shelf } = chain;
    let Times { start, end } = times;
    let fields: (&Chain, &u64, &u64, &u32) = (shelf, start, end, hint);
    assert_eq!(rt;
        (fields.0.len(), *fields.1, *fields.2, *fields.3),
        (1, 0, 4, 0)
    );
    Ok(())
}

// Where so much is due at the last end that no span can give more, the pages before are told to
// have no capacity, but for that of the first of all spans: the next change raises them at once,
// and reads none of their spans.
#[test]
fn pages_without_capacity_are_told(rt: HostRuntime) -> Result<(), Fail> {
    charges_last::<HostRuntime, Brand>(&rt, rt.alloc(), Blank::new(1))
}

fn charges_last<R: Abort, L: Ledger>(rt: &R, alloc: Global, blank: Blank) -> Result<(), Fail>
    requires name { blank.name ≡ L.name }
    requires parts { blank.parts ≡ L.parts }
    requires some { 0 < L.parts }
{
    let mut steps: Steps<L> = Steps::new(blank);
    let mut table = ChainTable::with_room(alloc, &[span(0, 3, 1, 2)], 200, 200)?;
    assert!(rt; !has_none_to_give(&table, 3, 0));
    charge_last(&mut table, 700, &mut steps);
    assert!(rt; has_none_to_give(&table, 0, 302) && !has_none_to_give(&table, 0, 303));
    charge_last(&mut table, 1, &mut steps);
    assert!(rt; has_none_to_give(&table, 0, 303) && !has_none_to_give(&table, 0, 304));
    Ok(())
}

/// No span that ends in the pages of a mark, but for the first of all, is told to have any
/// capacity, before or after so much more.
fn has_none_to_give(table: &ChainTable, mark_index: u32, more: i64) -> bool
    requires { mark_index < LAP }
{
    let high = table.chain.shelf.lift(mark_index).high;
    !(0 < high.max(high.wrapping_add(more)))
}

/// So many slots more for the last span.
fn charge_last<L: Ledger>(table: &mut ChainTable, slots: u32, steps: &mut Steps<L>) {
    let last = table.spot(table.count() - 1);
    let span = table.read(last, steps);
    if span.work <= 1000 {
        table.charge(span.end, slots, steps);
    }
}

// Where work has changed the next change looks first, so one there finds its span in one step.
#[test]
fn the_place_of_a_change_is_kept(rt: HostRuntime) -> Result<(), Fail> {
    changes_there::<HostRuntime, Brand>(&rt, rt.alloc(), Blank::new(1))
}

fn changes_there<R: Abort, L: Ledger>(rt: &R, alloc: Global, blank: Blank) -> Result<(), Fail>
    requires name { blank.name ≡ L.name }
    requires parts { blank.parts ≡ L.parts }
    requires some { 0 < L.parts }
{
    let mut steps: Steps<L> = Steps::new(blank);
    let plan = [span(0, 4, 1, 3), span(4, 10, 2, 4)];
    let mut table = ChainTable::with_room(alloc, &plan, 1, 3)?;
    table.charge(10, 1, &mut steps);
    assert!(rt; table.hint == 1);
    table.give_back(10, 1, &mut steps);
    assert!(rt; table.hint == 1);
    table.split(2, &mut steps);
    assert!(rt; table.hint == 0);
    Ok(())
}

fn span(start: u64, end: u64, work: u64, spare: i64) -> Span
    ensures { result ≡ record { start = start; end = end; work = work; spare = spare } }
{
    Span {
        start,
        end,
        work,
        spare,
    }
}
