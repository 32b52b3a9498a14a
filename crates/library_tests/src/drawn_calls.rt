//! Calls that a generator draws, each time against a plain list with capacities from nothing, on
//! spans of several pages of time.

ghost use Rattle.std.specs.Prelude.{◌≡◌, ◌<◌, length};

use crate::fronts::expect_fronts;
use interval_row::{ChainTable, RowTable, SpareTable, Spot};
use slot_core::{Memory, Span, Steps};
use std::alloc::Global;
use std::marker::Brand;
use std::process::Abort;
use std::sync::ledger::{Blank, Ledger};
use std::test::Fail;

/// How many spans the table has room for.
const ROOM: u32 = 24;

#[test]
fn drawn_calls_keep_capacities(rt: HostRuntime) -> Result<(), Fail> {
    on_a_table::<RowTable, HostRuntime, Brand>(&rt, rt.alloc(), Blank::new(1))?;
    on_a_table::<ChainTable, HostRuntime, Brand>(&rt, rt.alloc(), Blank::new(1))?;
    Ok(())
}

/// A table of three cycles.
fn on_a_table<T: SpareTable, R: Abort, L: Ledger>(
    rt: &R,
    alloc: Global,
    blank: Blank,
) -> Result<(), Memory>
    requires name { blank.name ≡ L.name }
    requires parts { blank.parts ≡ L.parts }
    requires some { 0 < L.parts }
{
    let mut steps: Steps<L> = Steps::new(blank);
    let cycle = [span(0, 16, 4, 4), span(16, 40, 32, -8)];
    let mut table = T::with_room(alloc, &cycle, 3, ROOM)?;
    beside_a_list(rt, alloc, &mut table, &mut steps)
}

/// The same spans on a list.
fn beside_a_list<T: SpareTable, R: Abort, L: Ledger>(
    rt: &R,
    alloc: Global,
    table: &mut T,
    steps: &mut Steps<L>,
) -> Result<(), Memory>
    requires { T.limit table.old ≡ 24 }
{
    let mut list = Vec::new(alloc);
    drawn_calls(rt, table, &mut list, steps)
}

/// Each call is made on both, after which they have the same spans.
fn drawn_calls<T: SpareTable, R: Abort, L: Ledger>(
    rt: &R,
    table: &mut T,
    list: &mut Vec<Span>,
    steps: &mut Steps<L>,
) -> Result<(), Memory>
    requires { T.limit table.old ≡ 24 }
{
    for copy in 0..3 {
        append(list, 40 * copy)?;
    }
    let mut word: u64 = 1;
    for _call in 0..3000 {
        word = word.wrapping_mul(6_364_136_223_846_793_005).wrapping_add(1);
        call(table, word >> 32, steps);
        plain_call(list, word >> 32)?;
        refill(list);
        assert!(rt; has_spans(table, list, steps));
        expect_fronts(rt, table, list, word >> 35, steps);
    }
    Ok(())
}

/// The capacities of the spans, from the last one back.
fn refill(list: &mut [Span]) {
    let mut later: i64 = 0;
    for i in (0..list.len()).rev() {
        let row = list[i];
        let length = i64::try_from(row.end.saturating_sub(row.start)).unwrap_or(0);
        let work = i64::try_from(row.work).unwrap_or(0);
        list[i].spare = length.saturating_sub(work).saturating_add(later.min(0));
        later = list[i].spare;
    }
}

/// Whether these are the spans of the table.
fn has_spans<T: SpareTable, L: Ledger>(table: &T, list: &[Span], steps: &mut Steps<L>) -> bool {
    let mut spot = table.first();
    for row in list {
        if table.read(spot, steps) != *row {
            return false;
        }
        if let Some(next) = table.next(spot) {
            spot = next;
        }
    }
    let ends = (table.time(), table.last_end());
    table.count() as usize == list.len() && ends == ends_of(list)
}

/// Where the list starts and ends.
fn ends_of(list: &[Span]) -> (u64, u64) {
    let start = list.first().map_or(0, |row| row.start);
    (start, list.last().map_or(0, |row| row.end))
}

/// The call that this word names, where its conditions hold.
fn call<T: SpareTable, L: Ledger>(table: &mut T, word: u64, steps: &mut Steps<L>)
    requires { T.limit table.old ≡ 24 }
    ensures { T.limit table.new ≡ 24 }
{
    let time = table.time();
    let end = table.last_end();
    let free = table.count() <= ROOM - 2;
    let amount = (word / 8 % 64) as u32;
    match word % 8 {
        0 => change_work(table, amount, true, steps),
        1 => change_work(table, amount, false, steps),
        2 | 3 => {
            let at = time.saturating_add(u64::from(amount));
            if free && time < at && at <= end {
                table.split(at, steps);
            }
        }
        4 => {
            if free && end <= 1_000_000 {
                table.append_cycle(&[span(0, 16, 4, 4), span(16, 40, 32, -8)], steps);
            }
        }
        _ => {
            if time < end && 1 < end - time {
                table.pass_slot(steps);
            }
        }
    }
}

/// More or fewer slots of work for the span at a place, where it can have them.
fn change_work<T: SpareTable, L: Ledger>(
    table: &mut T,
    amount: u32,
    more: bool,
    steps: &mut Steps<L>,
)
    ensures { T.limit table.new ≡ T.limit table.old }
{
    let spot = spot_near(table, amount % table.count());
    let row = table.read(spot, steps);
    let slots = amount % 8;
    if more && row.work <= 1_000_000 {
        table.charge(row.end, slots, steps);
    } else if !more && u64::from(slots) <= row.work {
        table.give_back(row.end, slots, steps);
    }
}

/// The same call on a plain list of spans, but for their capacities.
fn plain_call(list: &mut Vec<Span>, word: u64) -> Result<(), Memory> {
    let (time, end) = ends_of(list);
    let free = list.len() <= ROOM as usize - 2;
    let amount = (word / 8 % 64) as u32;
    match word % 8 {
        0 => plain_work(list, amount, true),
        1 => plain_work(list, amount, false),
        2 | 3 => {
            let at = time.saturating_add(u64::from(amount));
            if free && time < at && at <= end {
                plain_split(list, at)?;
            }
        }
        4 => {
            if free && end <= 1_000_000 {
                append(list, end)?;
            }
        }
        _ => {
            if time < end && 1 < end - time {
                plain_pass(list);
            }
        }
    }
    Ok(())
}

fn plain_work(list: &mut [Span], amount: u32, more: bool) {
    if list.is_empty() {
        return;
    }
    let place = amount as usize % list.len();
    let slots = u64::from(amount % 8);
    let work = list[place].work;
    if more && work <= 1_000_000 {
        list[place].work = work + slots;
    } else if !more && slots <= work {
        list[place].work = work - slots;
    }
}

fn plain_split(list: &mut Vec<Span>, at: u64) -> Result<(), Memory> {
    for place in 0..list.len() {
        let row = list[place];
        if row.start < at && at < row.end {
            list[place].start = at;
            list.insert(
                place,
                Span {
                    end: at,
                    work: 0,
                    ..row
                },
            )?;
            return Ok(());
        }
    }
    Ok(())
}

fn plain_pass(list: &mut Vec<Span>) {
    if list.is_empty() {
        return;
    }
    let start = list[0].start.saturating_add(1);
    if start == list[0].end {
        let _passed = list.remove(0);
    } else {
        list[0].start = start;
    }
}

/// Appends the cycle, this many slots later.
fn append(list: &mut Vec<Span>, by: u64) -> Result<(), Memory> {
    list.push(span(by, by.saturating_add(16), 4, 0))?;
    list.push(span(by.saturating_add(16), by.saturating_add(40), 32, 0))?;
    Ok(())
}

/// The spot of the span at this place, or of the last one.
fn spot_near<T: SpareTable>(table: &T, place: u32) -> Spot
    ensures { result.0 < length (T.spans table.now) }
{
    let mut spot = table.first();
    for _place in 0..place {
        if let Some(next) = table.next(spot) {
            spot = next;
        }
    }
    spot
}

fn span(start: u64, end: u64, work: u64, spare: i64) -> Span
    ensures { result ≡ record { start = start; end = end; work = work; spare = spare } }
{
    Span {
        start,
        end,
        work,
        spare,
    }
}
