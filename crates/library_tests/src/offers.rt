//! Offers and soft work over small tables, with values from the definitions.

ghost use Rattle.std.specs.Prelude.{◌≡◌, ◌<◌, ◌≤◌, pos, ◌≤ℤ◌};
ghost use Rattle.spare_capacity.specs.Recurrence.{first_spare};

use guarantee::{Answer, SoftRoom, may_run_soft, soft_room, test};
use interval_row::{RowTable, SpareTable};
use slot_core::{Evidence, HORIZON_LIMIT, Name, OFFER_LIMIT, Span, Sporadic, Steps};
use sporadic_reserve::Reserve;
use std::alloc::Global;
use std::marker::Brand;
use std::process::Abort;
use std::sync::ledger::{Blank, Ledger};
use std::test::Fail;

#[test]
fn capacities_decide(rt: HostRuntime) -> Result<(), Fail> {
    without_arrivals::<HostRuntime, Brand>(&rt, rt.alloc(), Blank::new(1))
}

#[test]
fn arrivals_to_come_are_counted(rt: HostRuntime) -> Result<(), Fail> {
    with_an_alarm::<HostRuntime, Brand>(&rt, rt.alloc(), Blank::new(1))
}

#[test]
fn a_rise_inside_a_span_is_tried(rt: HostRuntime) -> Result<(), Fail> {
    with_a_rise::<HostRuntime, Brand>(&rt, rt.alloc(), Blank::new(1))
}

/// Six spans, of which every second borrows, and one span that is full.
fn without_arrivals<R: Abort, L: Ledger>(rt: &R, alloc: Global, blank: Blank) -> Result<(), Fail>
    requires name { blank.name ≡ L.name }
    requires parts { blank.parts ≡ L.parts }
    requires some { 0 < L.parts }
{
    let mut steps: Steps<L> = Steps::new(blank);
    let spans = [
        span(0, 4, 1, 1),
        span(4, 10, 8, -2),
        span(10, 14, 1, 1),
        span(14, 20, 8, -2),
        span(20, 24, 1, 1),
        span(24, 30, 8, -2),
    ];
    let offers = [
        (2, 1, Answer::Accept),
        (2, 2, refused(10, 11, 10)),
        (5, 1, Answer::Accept),
        (5, 2, refused(10, 11, 10)),
        (24, 3, Answer::Accept),
        (30, 3, Answer::Accept),
        (30, 4, refused(30, 31, 30)),
    ];
    let reserve = Reserve::new(&[]);
    let table = RowTable::with_room(alloc, &spans, 1, 6)?;
    expect_offers(rt, &table, &reserve, &offers, &mut steps);
    expect_room(rt, &table, &reserve, SoftRoom::Free(1), &mut steps);
    let full = RowTable::with_room(alloc, &[span(0, 4, 4, 0)], 1, 1)?;
    expect_room(rt, &full, &reserve, short(4, 4), &mut steps);
    Ok(())
}

/// Two spans a cycle, and a task of one slot every 8 within 2.
fn with_an_alarm<R: Abort, L: Ledger>(rt: &R, alloc: Global, blank: Blank) -> Result<(), Fail>
    requires name { blank.name ≡ L.name }
    requires parts { blank.parts ≡ L.parts }
    requires some { 0 < L.parts }
{
    let mut steps: Steps<L> = Steps::new(blank);
    let offers = [
        (7, 5, refused(7, 8, 7)),
        (7, 4, Answer::Accept),
        (8, 4, Answer::Accept),
        (8, 5, refused(8, 9, 8)),
    ];
    let reserve = reserve_of(1, 2).ok_or("no name")?;
    let spans = [span(0, 7, 2, 5), span(7, 8, 1, 0)];
    let table = RowTable::with_room(alloc, &spans, 3, 6)?;
    expect_offers(rt, &table, &reserve, &offers, &mut steps);
    expect_room(rt, &table, &reserve, SoftRoom::Free(2), &mut steps);
    Ok(())
}

/// A span without work, and a task of four slots every 8 within 4, whose demand rises at 4, 12
/// and 20. Such a task may take the other half of a span that is half full.
fn with_a_rise<R: Abort, L: Ledger>(rt: &R, alloc: Global, blank: Blank) -> Result<(), Fail>
    requires name { blank.name ≡ L.name }
    requires parts { blank.parts ≡ L.parts }
    requires some { 0 < L.parts }
{
    let mut steps: Steps<L> = Steps::new(blank);
    let offers = [
        (11, 4, Answer::Accept),
        (11, 5, refused(12, 13, 12)),
        (13, 5, Answer::Accept),
    ];
    let reserve = reserve_of(4, 4).ok_or("no name")?;
    let table = RowTable::with_room(alloc, &[span(0, 24, 0, 24)], 1, 1)?;
    expect_offers(rt, &table, &reserve, &offers, &mut steps);
    expect_room(rt, &table, &reserve, SoftRoom::Free(1), &mut steps);
    let half = RowTable::with_room(alloc, &[span(0, 24, 12, 12)], 1, 1)?;
    expect_room(rt, &half, &reserve, short(24, 12), &mut steps);
    Ok(())
}

/// A task of this many slots, every 8 within this deadline.
fn reserve_of(wcet: u32, deadline: u32) -> Option<Reserve>
    requires some { 1 ≤ wcet }
    requires fits { wcet ≤ deadline }
    requires close { deadline ≤ 8 }
{
    let task = Sporadic {
        name: Name::of(b"alarm")?,
        wcet,
        separation: 8,
        deadline,
    };
    Some(Reserve::new(&[task]))
}

/// The offers of this many slots by these times have these answers.
fn expect_offers<R: Abort, T: SpareTable, L: Ledger>(
    rt: &R,
    table: &T,
    reserve: &Reserve,
    offers: &[(u64, u32, Answer)],
    steps: &mut Steps<L>,
)
    requires { pos 0 ≤ℤ first_spare (T.spans table.now) }
{
    for (dl, c, answer) in offers {
        assert!(rt;
            answer_of(table, reserve, *dl, *c, steps) == Some(*answer),
            "{c} by {dl}"
        );
    }
}

/// The answer to an offer, where its numbers are in their ranges.
fn answer_of<T: SpareTable, L: Ledger>(
    table: &T,
    reserve: &Reserve,
    dl: u64,
    c: u32,
    steps: &mut Steps<L>,
) -> Option<Answer>
    requires { pos 0 ≤ℤ first_spare (T.spans table.now) }
{
    let end = table.last_end();
    if dl <= table.time() || end < dl || HORIZON_LIMIT <= end || c < 1 || OFFER_LIMIT < c {
        return None;
    }
    Some(test(table, reserve, dl, c, steps))
}

/// There is this room for soft work.
fn expect_room<R: Abort, T: SpareTable, L: Ledger>(
    rt: &R,
    table: &T,
    reserve: &Reserve,
    room: SoftRoom,
    steps: &mut Steps<L>,
) {
    assert!(rt; room_of(table, reserve, steps) == Some(room));
}

/// The room for soft work, where both calls tell the same.
fn room_of<T: SpareTable, L: Ledger>(
    table: &T,
    reserve: &Reserve,
    steps: &mut Steps<L>,
) -> Option<SoftRoom> {
    let end = table.last_end();
    if end <= table.time() || HORIZON_LIMIT <= end {
        return None;
    }
    let may_run = may_run_soft(table, reserve, steps);
    let room = soft_room(table, reserve, steps);
    if may_run == matches!(room, SoftRoom::Free(_)) {
        Some(room)
    } else {
        None
    }
}

/// The answer that up to a time more is needed than there is room.
fn refused(until: u64, need: u64, room: u64) -> Answer {
    Answer::Refuse(Evidence { until, need, room })
}

/// The room of a slot that soft work may not take.
fn short(until: u64, due: u64) -> SoftRoom {
    SoftRoom::Short { until, due }
}

/// A span with its work and its spare capacity.
fn span(start: u64, end: u64, work: u64, spare: i64) -> Span
    ensures { result ≡ record { start = start; end = end; work = work; spare = spare } }
{
    Span {
        start,
        end,
        work,
        spare,
    }
}
