//! Executives of small sets, with each kind of arrival.

ghost use Rattle.std.specs.Prelude.{◌≡◌, ◌<◌, true, IfOk};
ghost use Rattle.slot_core.specs.Sets.Ranges.{is_sound};

use cycle_plan::make_plan;
use interval_row::{ChainTable, RowTable, SpareTable};
use sample_sets::{alarm_set, borrowing_set, pair_set};
use slot_core::{
    Done, Evidence, Firm, Gone, Key, Memory, OFFER_LIMIT, Ran, Soft, Span, Spo, Steps, TIME_LIMIT,
    TaskSet, What,
};
use slot_exec::Exec;
use std::alloc::Global;
use std::marker::Brand;
use std::process::Abort;
use std::sync::ledger::{Blank, Ledger};

/// The first job of the pair.
const FIRST: Key = Key::Offline(0, 0, 0);

/// Its successor.
const SECOND: Key = Key::Offline(0, 1, 0);

/// The start, the end, the work and the capacity of a span.
type Row = (u64, u64, u64, i64);

/// What is told of an entry's event, and the first two spans then.
type Told = (What, Row, Row);

/// The first job ends a slot early, and its successor does not start before its time. Soft work
/// takes the slots to spare, first come, first served.
const PLAN: [Told; 10] = [
    (What::Run(FIRST), (1, 7, 1, 5), (7, 8, 1, 0)),
    (
        What::Done(1, FIRST, Done::Freed(1)),
        (1, 7, 0, 6),
        (7, 8, 1, 0),
    ),
    (
        What::Done(2, FIRST, Done::NotRunning),
        (1, 7, 0, 6),
        (7, 8, 1, 0),
    ),
    (What::Idle, (2, 7, 0, 5), (7, 8, 1, 0)),
    (What::Run(SECOND), (3, 7, 0, 4), (7, 8, 0, 1)),
    (What::Soft(3, 1, Soft::Taken), (3, 7, 0, 4), (7, 8, 0, 1)),
    (What::Soft(4, 1, Soft::Taken), (3, 7, 0, 4), (7, 8, 0, 1)),
    (
        What::Done(5, Key::Soft(4), Done::NotRunning),
        (3, 7, 0, 4),
        (7, 8, 0, 1),
    ),
    (What::Run(Key::Soft(3)), (4, 7, 0, 3), (7, 8, 0, 1)),
    (What::Run(Key::Soft(4)), (5, 7, 0, 2), (7, 8, 0, 1)),
];

const ALARM: [Told; 3] = [
    (
        What::Sporadic(1, 0, Spo::Taken(2)),
        (0, 2, 1, 1),
        (2, 7, 2, 3),
    ),
    (What::Run(Key::Sporadic(0, 1)), (1, 2, 0, 1), (2, 7, 2, 3)),
    (
        What::Sporadic(2, 0, Spo::Soon(8)),
        (1, 2, 0, 1),
        (2, 7, 2, 3),
    ),
];

/// Up to 7, and up to 14, more is needed than there is room.
const NO_ROOM: Firm = Firm::NoRoom(Evidence {
    until: 7,
    need: 8,
    room: 7,
});

const NO_ROOM_AHEAD: Firm = Firm::NoRoom(Evidence {
    until: 8,
    need: 14,
    room: 8,
});

/// Where a span ends, the slots that fit and one more. Taken back, they leave room for an offer
/// that is due a cycle ahead. Past a cycle, and now. Then the pair runs; its second job is due with
/// the offer, so what is borrowed falls.
const OFFERS: [Told; 11] = [
    (What::Firm(1, 6, 7, NO_ROOM), (0, 7, 2, 5), (7, 8, 1, 0)),
    (
        What::Firm(2, 5, 7, Firm::Accepted),
        (0, 7, 7, 0),
        (7, 8, 1, 0),
    ),
    (
        What::Withdraw(3, 2, Gone::Freed(5)),
        (0, 7, 2, 5),
        (7, 8, 1, 0),
    ),
    (
        What::Withdraw(4, 2, Gone::NoJob),
        (0, 7, 2, 5),
        (7, 8, 1, 0),
    ),
    (
        What::Firm(5, 5, 8, Firm::Accepted),
        (0, 7, 2, 0),
        (7, 8, 6, -5),
    ),
    (
        What::Firm(6, 6, 8, NO_ROOM_AHEAD),
        (0, 7, 2, 0),
        (7, 8, 6, -5),
    ),
    (What::Firm(7, 1, 9, Firm::Far), (0, 7, 2, 0), (7, 8, 6, -5)),
    (What::Firm(8, 1, 0, Firm::Late), (0, 7, 2, 0), (7, 8, 6, -5)),
    (What::Run(FIRST), (1, 7, 1, 0), (7, 8, 6, -5)),
    (What::Run(FIRST), (2, 7, 0, 0), (7, 8, 6, -5)),
    (What::Run(SECOND), (3, 7, 0, 0), (7, 8, 5, -4)),
];

/// A deadline inside a span that borrows, and inside the first one.
const CUTS: [Told; 3] = [
    (
        What::Firm(1, 1, 5, Firm::Accepted),
        (0, 4, 1, 0),
        (4, 5, 1, -3),
    ),
    (
        What::Withdraw(2, 1, Gone::Freed(1)),
        (0, 4, 1, 1),
        (4, 5, 0, -2),
    ),
    (
        What::Firm(3, 1, 2, Firm::Accepted),
        (0, 2, 1, 0),
        (2, 4, 1, -1),
    ),
];

#[test]
fn tells_each_entry(rt: HostRuntime) {
    for case in [Case::Plan, Case::Alarm, Case::Offers, Case::Cuts] {
        let told = tell::<HostRuntime, Brand, ChainTable>(&rt, rt.alloc(), case, Blank::new(1));
        assert!(rt; told.is_some());
    }
    let told = tell::<HostRuntime, Brand, RowTable>(&rt, rt.alloc(), Case::Offers, Blank::new(1));
    assert!(rt; told.is_some());
}

/// The entries, each of a set.
#[derive(Clone, Copy)]
enum Case {
    Plan,
    Alarm,
    Offers,
    Cuts,
}

/// The task set of the entries.
fn set_of(alloc: Global, case: Case) -> Result<TaskSet, Memory>
    ensures { IfOk result (λ tasks. is_sound tasks ≡ true) }
{
    match case {
        Case::Plan | Case::Offers => pair_set(alloc),
        Case::Alarm => alarm_set(alloc),
        Case::Cuts => borrowing_set(alloc),
    }
}

/// The entries.
fn entries_of(case: Case) -> &'static [Told] {
    match case {
        Case::Plan => &PLAN,
        Case::Alarm => &ALARM,
        Case::Offers => &OFFERS,
        Case::Cuts => &CUTS,
    }
}

/// An executive of the set that has just started tells the entries.
fn tell<R: Abort, L: Ledger, T: SpareTable>(
    rt: &R,
    alloc: Global,
    case: Case,
    blank: Blank,
) -> Option<()>
    requires name { blank.name ≡ L.name }
    requires parts { blank.parts ≡ L.parts }
    requires some { 0 < L.parts }
{
    let mut steps: Steps<L> = Steps::new(blank);
    let mut exec: Exec<T> = start(alloc, set_of(alloc, case).ok()?)?;
    at_start(rt, &exec, case, &mut steps);
    each_entry(rt, &mut exec, entries_of(case), &mut steps);
    Some(())
}

/// Makes each entry happen, and compares what is told, and the first two spans then.
fn each_entry<R: Abort, L: Ledger, T: SpareTable>(
    rt: &R,
    exec: &mut Exec<T>,
    entries: &[Told],
    steps: &mut Steps<L>,
) {
    for (entry, first, second) in entries {
        let told = told(exec, *entry, steps);
        let spans = first_two(exec, steps);
        assert!(rt; told == Some(*entry) && spans == Some((*first, *second)));
    }
}

/// What is told of an entry's event, where that is in its range.
fn told<L: Ledger, T: SpareTable>(
    exec: &mut Exec<T>,
    entry: What,
    steps: &mut Steps<L>,
) -> Option<What> {
    match entry {
        What::Soft(row, c, _) => soft(exec, row, c),
        What::Firm(row, c, d, _) => firm(exec, row, c, d, steps),
        What::Sporadic(row, index, _) => sporadic(exec, row, index, steps),
        What::Done(row, key, _) => done(exec, row, key, steps),
        What::Withdraw(row, firm, _) => withdraw(exec, row, firm, steps),
        What::Run(_) | What::Idle => slot(exec, steps),
        What::Start | What::End => None,
    }
}

/// What is told of a soft arrival.
fn soft<T: SpareTable>(exec: &mut Exec<T>, row: u32, c: u32) -> Option<What> {
    if row <= exec.last_row() || c < 1 || OFFER_LIMIT < c {
        return None;
    }
    Some(What::Soft(row, c, exec.soft(row, c)))
}

/// What is told of a firm offer.
fn firm<L: Ledger, T: SpareTable>(
    exec: &mut Exec<T>,
    row: u32,
    c: u32,
    d: u32,
    steps: &mut Steps<L>,
) -> Option<What> {
    if row <= exec.last_row() || c < 1 || OFFER_LIMIT < c || OFFER_LIMIT < d {
        return None;
    }
    Some(What::Firm(row, c, d, exec.firm(row, c, d, steps)))
}

/// What is told of a sporadic arrival.
fn sporadic<L: Ledger, T: SpareTable>(
    exec: &mut Exec<T>,
    row: u32,
    index: u8,
    steps: &mut Steps<L>,
) -> Option<What> {
    if row <= exec.last_row() || exec.tasks().sporadics.len() <= usize::from(index) {
        return None;
    }
    Some(What::Sporadic(row, index, exec.sporadic(row, index, steps)))
}

/// What is told of an early end.
fn done<L: Ledger, T: SpareTable>(
    exec: &mut Exec<T>,
    row: u32,
    key: Key,
    steps: &mut Steps<L>,
) -> Option<What> {
    if row <= exec.last_row() {
        return None;
    }
    Some(What::Done(row, key, exec.done(row, key, steps)))
}

/// What is told of a withdrawal.
fn withdraw<L: Ledger, T: SpareTable>(
    exec: &mut Exec<T>,
    row: u32,
    firm: u32,
    steps: &mut Steps<L>,
) -> Option<What> {
    if row <= exec.last_row() {
        return None;
    }
    Some(What::Withdraw(row, firm, exec.withdraw(row, firm, steps)))
}

/// What is told of a slot.
fn slot<L: Ledger, T: SpareTable>(exec: &mut Exec<T>, steps: &mut Steps<L>) -> Option<What> {
    if TIME_LIMIT <= exec.now() {
        return None;
    }
    Some(match exec.slot(steps) {
        Ran::Idle => What::Idle,
        Ran::Key(key) => What::Run(key),
    })
}

/// What an executive of the pair keeps: six spans up to the horizon, of which the last has a job of
/// one slot.
fn at_start<R: Abort, L: Ledger, T: SpareTable>(
    rt: &R,
    exec: &Exec<T>,
    case: Case,
    steps: &mut Steps<L>,
) {
    let count = exec.span_count();
    let told = (
        exec.now(),
        exec.last_row(),
        count,
        exec.tasks().graphs.len(),
    );
    let last = row_of(&exec.span(count - 1, steps));
    assert!(rt; !matches!(case, Case::Plan) || (told == (0, 0, 6, 1) && last == (23, 24, 1, 0)));
}

/// The executive of a set before the first slot.
fn start<T: SpareTable>(alloc: Global, tasks: TaskSet) -> Option<Exec<T>>
    requires { is_sound tasks ≡ true }
{
    Exec::start(alloc, make_plan(alloc, tasks).ok()?).ok()
}

/// The first two of its spans, where there are two.
fn first_two<L: Ledger, T: SpareTable>(exec: &Exec<T>, steps: &mut Steps<L>) -> Option<(Row, Row)> {
    let shown = exec.shown(steps);
    match shown.spans() {
        [first, second, ..] => Some((row_of(first), row_of(second))),
        _ => None,
    }
}

/// The start, the end, the work and the capacity of the span.
fn row_of(span: &Span) -> Row {
    (span.start, span.end, span.work, span.spare)
}
