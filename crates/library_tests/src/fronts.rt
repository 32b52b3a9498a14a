//! Spots and fronts of a table, against what a plain list says.

ghost use Rattle.std.specs.Prelude.{◌≡◌, ◌<◌};
ghost use Rattle.interval_row.specs.Tables.{IsFront};

use crate::span_tables::span;
use interval_row::{ChainTable, Front, SpareTable};
use slot_core::{Memory, Span, Steps};
use std::alloc::Global;
use std::marker::Brand;
use std::process::Abort;
use std::sync::ledger::{Blank, Ledger};
use std::test::Fail;

// Where spans are shorter than a page on average, all that end in the pages before are told.
#[test]
fn pages_before_are_told(rt: HostRuntime) -> Result<(), Fail> {
    let near = near_of_short(rt.alloc())?;
    assert!(rt; near == Some((127, 127)));
    Ok(())
}

/// Of a table whose spans end at 2, 4, .. 400 with a slot of work each.
fn near_of_short(alloc: Global) -> Result<Option<(u32, u64)>, Memory> {
    let table = ChainTable::with_room(alloc, &[span(0, 2, 1, 1)], 200, 200)?;
    Ok(near_300(&table))
}

/// How many spans are told to end before slot 300, and what is due in them.
fn near_300<T: SpareTable>(table: &T) -> Option<(u32, u64)> {
    if 300 <= table.time() || table.last_end() < 300 {
        return None;
    }
    let near = table.near(300);
    Some((near.count, near.works))
}

// Pages whose times leave room are passed whole: of spans that end at 3, 6, .. 600 with a slot of
// work each, those from 256 to 575.
#[test]
fn pages_with_room_are_passed(rt: HostRuntime) -> Result<(), Fail> {
    let passed = passed_of_short::<Brand>(rt.alloc(), Blank::new(1))?;
    assert!(rt; passed == Some((85, 191)));
    Ok(())
}

fn passed_of_short<L: Ledger>(alloc: Global, blank: Blank) -> Result<Option<(u32, u32)>, Memory>
    requires name { blank.name ≡ L.name }
    requires parts { blank.parts ≡ L.parts }
    requires some { 0 < L.parts }
{
    let table = ChainTable::with_room(alloc, &[span(0, 3, 1, 2)], 200, 200)?;
    let mut steps: Steps<L> = Steps::new(blank);
    Ok(counts_passed(&table, &mut steps))
}

/// How many spans end in the pages before slot 300, and how many are passed from there to 600 where
/// 100 slots are asked for.
fn counts_passed<T: SpareTable, L: Ledger>(table: &T, steps: &mut Steps<L>) -> Option<(u32, u32)> {
    if 300 <= table.time() || table.last_end() < 600 {
        return None;
    }
    let front = table.near(300);
    if table.count() <= front.count {
        return None;
    }
    let span = table.read(table.spot(front.count), steps);
    let passed = table.skip(front, span, 600, 100);
    Some((front.count, passed.count))
}

/// Spots and fronts at times that a word draws, against the list of the table's spans.
pub(crate) fn expect_fronts<R: Abort, T: SpareTable, L: Ledger>(
    rt: &R,
    table: &T,
    list: &[Span],
    word: u64,
    steps: &mut Steps<L>,
) {
    let time = table.time();
    let x = time.saturating_add(1 + word % 256);
    expect_spot(rt, table, (word % 32) as u32, list, steps);
    if x <= time || table.last_end() < x {
        return;
    }
    let near = table.near(x);
    expect_near(rt, near, x, list);
    let once = expect_skip(rt, table, near, word / 256, list, steps);
    let _twice = expect_skip(rt, table, once, word / 4096, list, steps);
}

/// The spot of a place names the span there.
fn expect_spot<R: Abort, T: SpareTable, L: Ledger>(
    rt: &R,
    table: &T,
    index: u32,
    list: &[Span],
    steps: &mut Steps<L>,
) {
    if index < table.count() {
        let row = table.read(table.spot(index), steps);
        let listed = list
            .get(index as usize)
            .map(|row| (row.start, row.end, row.work));
        assert!(rt; listed == Some((row.start, row.end, row.work)));
    }
}

/// All spans of the front end before `x`, and their works are those of the list.
fn expect_near<R: Abort>(rt: &R, near: Front, x: u64, list: &[Span]) {
    let ended = list.iter().filter(|row| row.end < x).count();
    assert!(rt; near.count as usize <= ended);
    assert!(rt; near.works == works_of(list, near.count));
}

/// Passes spans from the front on, and returns the front where that ends.
fn expect_skip<R: Abort, T: SpareTable, L: Ledger>(
    rt: &R,
    table: &T,
    front: Front,
    word: u64,
    list: &[Span],
    steps: &mut Steps<L>,
) -> Front
    requires { IsFront (T.spans table.now) front }
    ensures { IsFront (T.spans table.now) result }
{
    let until = table
        .time()
        .saturating_add(word / 16 % 512)
        .min(table.last_end());
    let asked = table.time().saturating_add(1 + word % 16).min(1 << 62);
    if table.count() <= front.count {
        return front;
    }
    let place = table.read(table.spot(front.count), steps);
    let later = table.skip(front, place, until, asked);
    expect_passed(rt, front, later, until, list);
    expect_room(rt, place.end, later, asked, list);
    later
}

/// No span is given back, and where some were passed, the next starts before a time.
fn expect_passed<R: Abort>(rt: &R, front: Front, later: Front, until: u64, list: &[Span]) {
    assert!(rt; front.count <= later.count && (later.count as usize) < list.len());
    assert!(rt; later.works == works_of(list, later.count));
    let start = list.get(later.count as usize).map_or(0, |row| row.start);
    assert!(rt; later.count == front.count || start < until);
}

/// From a time on, and before the span after the front ends, so much room is left by each time.
fn expect_room<R: Abort>(rt: &R, from: u64, front: Front, asked: u64, list: &[Span]) {
    let end = list.get(front.count as usize).map_or(0, |row| row.end);
    for x in from..end {
        assert!(rt; asked.saturating_add(work_until(list, x)) <= x);
    }
}

/// The works of this many spans.
fn works_of(list: &[Span], count: u32) -> u64 {
    let mut works: u64 = 0;
    for row in list.iter().take(count as usize) {
        works = works.saturating_add(row.work);
    }
    works
}

/// The works of the spans that end by then.
fn work_until(list: &[Span], x: u64) -> u64 {
    let mut works: u64 = 0;
    for row in list {
        if row.end <= x {
            works = works.saturating_add(row.work);
        }
    }
    works
}
