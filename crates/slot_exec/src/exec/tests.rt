//! What an executive consists of, and how often offers and soft work read its table.

ghost use Rattle.std.specs.Prelude.{◌≡◌, ◌≤◌, ◌<◌, true};
ghost use Rattle.slot_core.specs.declared.TheConstants.{OFFER_LIMIT};
ghost use Rattle.slot_core.specs.Sets.Ranges.{is_sound};

use crate::Exec;
use crate::exec::test_sets::{alarm_set, flight_set, row_set};
use circular_buffer::HeapCircularBuffer;
use cycle_plan::{Plan, make_plan};
use guarantee::{Answer, test};
use interval_row::{ChainTable, Front, RowTable, Short, SpareTable, Spot};
use job_queue::JobQueue;
use slot_core::{Firm, Key, Memory, Ran, Soft, SoftJob, Span, Steps, TIME_LIMIT, TaskSet};
use sporadic_reserve::Reserve;
use std::alloc::Global;
use std::cell::Cell;
use std::marker::Brand;
use std::process::Abort;
use std::sync::ledger::{Blank, Ledger};
use std::test::Fail;

#[test]
fn fields_are_whole(rt: HostRuntime) -> Result<(), Fail> {
    let rows: Exec<RowTable> = start(rt.alloc(), row_set(rt.alloc())?)?;
    named(&rt, rows);
    let chain: Exec<ChainTable> = start(rt.alloc(), row_set(rt.alloc())?)?;
    named(&rt, chain);
    Ok(())
}

/// Names the type of each field of an executive over this table, before its first slot.
fn named<R: Abort, T: SpareTable>(rt: &R, exec: Exec<T>) {
    let Exec {
        plan,
        table,
        reserve,
        queue,
        soft,
        last_row,
        free,
        tight,
        due,
    } = exec;
    let plan: Plan = plan;
    let table: T = table;
    let reserve: Reserve = reserve;
    let queue: JobQueue = queue;
    let soft: HeapCircularBuffer<SoftJob> = soft;
    let last_row: u32 = last_row;
    let (free, tight, due): (u64, u64, u64) = (free, tight, due);
    let times = (plan.cycle(), table.time(), last_row);
    let kept = (reserve.is_empty(), queue.len(), soft.len());
    assert!(rt; times == (8, 0, 0) && kept == (true, 9, 0) && (free, tight, due) == (0, 0, 0));
}

/// The executive of a set before the first slot.
fn start<T: SpareTable>(alloc: Global, tasks: TaskSet) -> Result<Exec<T>, Fail>
    requires { is_sound tasks ≡ true }
{
    let plan = make_plan(alloc, tasks).ok().ok_or("no plan")?;
    Ok(Exec::start(alloc, plan)?)
}

#[test]
fn offers_read_the_table(rt: HostRuntime) -> Result<(), Fail> {
    reads::<HostRuntime, Brand, RowTable>(&rt, rt.alloc(), Blank::new(1))
}

#[test]
fn offers_read_the_chain(rt: HostRuntime) -> Result<(), Fail> {
    reads::<HostRuntime, Brand, ChainTable>(&rt, rt.alloc(), Blank::new(1))
}

/// A flight controller's offer of 9 slots within 20. The ends of spans before 20 are 8, 9, 10, 17,
/// 18 and 19, and the table has 45 spans.
fn reads<R: Abort, L: Ledger, T: SpareTable>(
    rt: &R,
    alloc: Global,
    blank: Blank,
) -> Result<(), Fail>
    requires name { blank.name ≡ L.name }
    requires parts { blank.parts ≡ L.parts }
    requires some { 0 < L.parts }
{
    let mut exec: Exec<ReadTable<T>> = start(alloc, flight_set(alloc)?)?;
    let mut steps: Steps<L> = Steps::new(blank);
    expect_reads(rt, &mut exec, &mut steps);
    Ok(())
}

/// How often its table is read for the test, for what is shown, and for the offer.
fn expect_reads<R: Abort, L: Ledger, T: SpareTable>(
    rt: &R,
    exec: &mut Exec<ReadTable<T>>,
    steps: &mut Steps<L>,
) {
    assert!(rt; exec.span_count() == 45);

    exec.table.reads.set(0);
    assert!(rt; tested(exec, steps) == Some(Answer::Accept));
    assert!(rt; (2..=7).contains(&exec.table.reads.get()));

    exec.table.reads.set(0);
    let shown = exec.shown(steps);
    assert!(rt; (shown.spans().len(), exec.table.reads.get()) == (8, 8));

    exec.table.reads.set(0);
    assert!(rt; offered(exec, 9, 20, steps) == Some(Firm::Accepted));
    assert!(rt; (2..=43).contains(&exec.table.reads.get()));
}

/// What the first arrival, an offer of so many slots within so many, is answered.
fn offered<T: SpareTable, L: Ledger>(
    exec: &mut Exec<T>,
    slots: u32,
    within: u32,
    steps: &mut Steps<L>,
) -> Option<Firm>
    requires some { 1 ≤ slots }
    requires few { slots ≤ OFFER_LIMIT }
    requires near { within ≤ OFFER_LIMIT }
{
    if exec.last_row() != 0 {
        return None;
    }
    Some(exec.firm(1, slots, within, steps))
}

/// What soft work of 3 slots in this row is answered.
fn asked<T: SpareTable>(exec: &mut Exec<T>, row: u32) -> Option<Soft> {
    if row <= exec.last_row() {
        return None;
    }
    Some(exec.soft(row, 3))
}

/// A cycle of 8 slots with 3 of jobs, 4 of an offer and 1 held for an alarm that does not come.
/// Soft work may run in slot 6, from which on no alarm is due by 8.
#[test]
fn waiting_soft_work_is_searched_for_once(rt: HostRuntime) -> Result<(), Fail> {
    let slots = [
        (false, true),
        (false, false),
        (false, false),
        (false, false),
        (false, false),
        (false, false),
        (true, true),
        (false, false),
    ];
    searches::<HostRuntime, Brand, RowTable>(&rt, rt.alloc(), Blank::new(1), true, &slots)
}

/// The same cycle without the offer. By 3, when an alarm of slot 1 would be due, two slots are free
/// at 0, so the search at 0 serves slot 1 too; at 2 two are free again by 5.
#[test]
fn free_slots_are_remembered(rt: HostRuntime) -> Result<(), Fail> {
    let slots = [(true, true), (true, false), (true, true)];
    searches::<HostRuntime, Brand, RowTable>(&rt, rt.alloc(), Blank::new(1), false, &slots)
}

/// Over the set with an alarm, with an offer before the soft work or without.
fn searches<R: Abort, L: Ledger, T: SpareTable>(
    rt: &R,
    alloc: Global,
    blank: Blank,
    offer: bool,
    slots: &[(bool, bool)],
) -> Result<(), Fail>
    requires name { blank.name ≡ L.name }
    requires parts { blank.parts ≡ L.parts }
    requires some { 0 < L.parts }
{
    let mut exec: Exec<ReadTable<T>> = start(alloc, alarm_set(alloc)?)?;
    let mut steps: Steps<L> = Steps::new(blank);
    expect_slots(rt, &mut exec, offer, slots, &mut steps);
    Ok(())
}

/// Soft work comes, in the first row or after an offer. For each slot: whether it runs, and whether
/// spans are read.
fn expect_slots<R: Abort, L: Ledger, T: SpareTable>(
    rt: &R,
    exec: &mut Exec<ReadTable<T>>,
    offer: bool,
    slots: &[(bool, bool)],
    steps: &mut Steps<L>,
) {
    if offer {
        assert!(rt; offered(exec, 4, 8, steps) == Some(Firm::Accepted));
    }
    let row = 1 + u32::from(offer);
    assert!(rt; asked(exec, row) == Some(Soft::Taken));
    for &(runs, reads) in slots {
        exec.table.reads.set(0);
        let ran = slot(exec, steps) == Some(Ran::Key(Key::Soft(row)));
        assert!(rt; (ran, exec.table.reads.get() > 0) == (runs, reads));
    }
}

/// A slot, where the time is in its range.
fn slot<T: SpareTable, L: Ledger>(exec: &mut Exec<T>, steps: &mut Steps<L>) -> Option<Ran> {
    if TIME_LIMIT <= exec.now() {
        return None;
    }
    Some(exec.slot(steps))
}

/// What the test answers at time 0, where a cycle has 20 slots.
fn tested<T: SpareTable, L: Ledger>(exec: &Exec<T>, steps: &mut Steps<L>) -> Option<Answer> {
    let cycle = exec.plan.cycle();
    if exec.table.time() != 0 || cycle < 20 {
        return None;
    }
    Some(test(&exec.table, &exec.reserve, 20, 9, steps))
}

/// A table that counts its reads.
#[derive(Drop)]
struct ReadTable<T: SpareTable> {
    table: T,
    reads: Cell<u32>,
}

impl<T: SpareTable> SpareTable for ReadTable<T> {
    ghost time = { λ t. T.time t.table };

    ghost spans = { λ t. T.spans t.table };

    ghost limit = { λ t. T.limit t.table };

    ghost counted = { T.counted };

    fn with_room(alloc: Global, cycle: &[Span], copies: u32, room: u32) -> Result<Self, Memory> {
        let table = T::with_room(alloc, cycle, copies, room)?;
        let reads = Cell::new(0);
        Ok(ReadTable { table, reads })
    }

    fn count(&self) -> u32 {
        self.table.count()
    }

    fn time(&self) -> u64 {
        self.table.time()
    }

    fn last_end(&self) -> u64 {
        self.table.last_end()
    }

    fn first(&self) -> Spot {
        self.table.first()
    }

    fn next(&self, at: Spot) -> Option<Spot> {
        self.table.next(at)
    }

    fn spot(&self, index: u32) -> Spot {
        self.table.spot(index)
    }

    fn near(&self, x: u64) -> Front {
        self.table.near(x)
    }

    fn skip(&self, front: Front, span: Span, until: u64, asked: u64) -> Front {
        self.table.skip(front, span, until, asked)
    }

    fn first_short<L: Ledger>(
        &self,
        front: Front,
        span: Span,
        asked: u64,
        steps: &mut Steps<L>,
    ) -> Short {
        self.table.first_short(front, span, asked, steps)
    }

    fn read<L: Ledger>(&self, at: Spot, steps: &mut Steps<L>) -> Span {
        self.reads.set(self.reads.get().saturating_add(1));
        self.table.read(at, steps)
    }

    fn pass_slot<L: Ledger>(&mut self, steps: &mut Steps<L>) {
        self.table.pass_slot(steps);
    }

    fn charge<L: Ledger>(&mut self, deadline: u64, slots: u32, steps: &mut Steps<L>) {
        self.table.charge(deadline, slots, steps);
    }

    fn give_back<L: Ledger>(&mut self, deadline: u64, slots: u32, steps: &mut Steps<L>) -> bool {
        self.table.give_back(deadline, slots, steps)
    }

    fn split<L: Ledger>(&mut self, at: u64, steps: &mut Steps<L>) {
        self.table.split(at, steps);
    }

    fn append_cycle<L: Ledger>(&mut self, cycle: &[Span], steps: &mut Steps<L>) {
        self.table.append_cycle(cycle, steps);
    }
}
