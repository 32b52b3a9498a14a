//! The marks of a store: how they follow its spans.

ghost use Rattle.std.specs.Prelude.{◌≡◌, ◌+◌, ◌%◌, ◌≤◌, ◌<◌, ◌^◌, List, [], length, IfSome, Some, slice_get, slice_set};
ghost use Rattle.slot_core.specs.declared.jobs.Span.{Span};
ghost use Rattle.node_chain.specs.declared.marks.TheConstants.{LAP};
ghost use Rattle.interval_row.specs.Marks.{mark_index, passed, with_change, with_cut, with_end, without_end, AreMarked};
ghost use Rattle.interval_row.specs.Stores.{KeepsSpans};

use crate::spans::Change;
use crate::store::Store;
use node_chain::{LAP, Mark};
use slot_core::Span;

/// How many slots a page has.
pub const PAGE: u64 = 64;

/// The index of the mark of a time.
pub(crate) fn mark_index(x: u64) -> u32
    ensures { result ≡ mark_index x }
{
    (x / PAGE % u64::from(LAP)) as u32
}

/// The index of the mark of a page.
pub(crate) fn index_of_page(page: u64) -> u32
    ensures { result ≡ page % LAP }
{
    (page % u64::from(LAP)) as u32
}

/// The mark of a page.
pub(crate) fn mark_at<S: Store>(store: &S, page: u64) -> Mark
    requires { length (S.marks store.now) ≡ LAP }
    ensures { slice_get (S.marks store.now) (page % LAP) ≡ Some result }
{
    store.mark(index_of_page(page))
}

/// The marks before any span, from time 0 on.
pub(crate) fn put_first_marks<S: Store>(store: &mut S)
    requires marks { length (S.marks store.old) ≡ LAP }
    ensures marked { AreMarked 0 [] (S.marks store.new) }
    ensures kept { KeepsSpans S.spans S.room store.old store.new }
{
    for index in 0..LAP {
        let mark = Mark {
            count: 0,
            works: 0,
            low: u64::from(index) * PAGE,
        };
        store.set_mark(index, mark);
    }
}

/// A span more ends there, with its work.
pub(crate) fn add_span<S: Store>(store: &mut S, span: Span)
    requires marks { length (S.marks store.old) ≡ LAP }
    requires counts { IfSome (slice_get (S.marks store.old) (mark_index span.end))
        (λ m. m.count ≤ 2 ^ 20) }
    requires works { IfSome (slice_get (S.marks store.old) (mark_index span.end))
        (λ m. m.works ≤ 2 ^ 60) }
    requires few { span.work ≤ 2 ^ 40 }
    ensures marks { IfSome (slice_get (S.marks store.old) (mark_index span.end)) (λ m.
        S.marks store.new ≡ slice_set (S.marks store.old) (mark_index span.end)
        (with_end span.end span.work m)) }
    ensures kept { KeepsSpans S.spans S.room store.old store.new }
{
    let index = mark_index(span.end);
    let mark = store.mark(index);
    let works = mark.works + span.work;
    let after = Mark {
        count: mark.count + 1,
        works,
        low: mark.low.min(span.end.saturating_sub(works)),
    };
    store.set_mark(index, after);
}

/// A span less ends there, with its work.
pub(crate) fn drop_span<S: Store>(store: &mut S, span: Span)
    requires marks { length (S.marks store.old) ≡ LAP }
    ensures marks { IfSome (slice_get (S.marks store.old) (mark_index span.end)) (λ m.
        S.marks store.new ≡ slice_set (S.marks store.old) (mark_index span.end)
        (without_end span.work m)) }
    ensures kept { KeepsSpans S.spans S.room store.old store.new }
{
    let index = mark_index(span.end);
    let mark = store.mark(index);
    let after = Mark {
        count: mark.count.saturating_sub(1),
        works: mark.works.saturating_sub(span.work),
        ..mark
    };
    store.set_mark(index, after);
}

/// A span more ends at `at`, without work.
pub(crate) fn cut_span<S: Store>(store: &mut S, at: u64)
    requires marks { length (S.marks store.old) ≡ LAP }
    requires counts { IfSome (slice_get (S.marks store.old) (mark_index at))
        (λ m. m.count ≤ 2 ^ 20) }
    ensures marks { IfSome (slice_get (S.marks store.old) (mark_index at)) (λ m.
        S.marks store.new ≡ slice_set (S.marks store.old) (mark_index at) (with_cut m)) }
    ensures kept { KeepsSpans S.spans S.room store.old store.new }
{
    let index = mark_index(at);
    let mark = store.mark(index);
    let after = Mark {
        count: mark.count + 1,
        ..mark
    };
    store.set_mark(index, after);
}

/// The work of the span that ends there changes.
pub(crate) fn change_span<S: Store>(store: &mut S, end: u64, change: Change)
    requires marks { length (S.marks store.old) ≡ LAP }
    requires works { IfSome (slice_get (S.marks store.old) (mark_index end))
        (λ m. m.works ≤ 2 ^ 60) }
    ensures marks { IfSome (slice_get (S.marks store.old) (mark_index end)) (λ m.
        S.marks store.new ≡ slice_set (S.marks store.old) (mark_index end) (with_change change m)) }
    ensures kept { KeepsSpans S.spans S.room store.old store.new }
{
    let index = mark_index(end);
    let after = changed(store.mark(index), change);
    store.set_mark(index, after);
}

/// The mark with this many slots of work more or fewer.
fn changed(mark: Mark, change: Change) -> Mark
    requires { mark.works ≤ 2 ^ 60 }
    ensures { result ≡ with_change change mark }
{
    match change {
        Change::More(slots) => Mark {
            works: mark.works + u64::from(slots),
            low: mark.low.saturating_sub(u64::from(slots)),
            ..mark
        },
        Change::Fewer(slots) => Mark {
            works: mark.works.saturating_sub(u64::from(slots)),
            ..mark
        },
    }
}

/// The time goes on by one slot.
pub(crate) fn pass_time<S: Store>(store: &mut S, time: u64)
    requires marked { AreMarked time (S.spans store.old) (S.marks store.old) }
    requires near { time ≤ 2 ^ 60 }
    ensures marked { (spans : List Span) → AreMarked time spans (S.marks store.old)
        → AreMarked (time + 1) spans (S.marks store.new) }
    ensures kept { KeepsSpans S.spans S.room store.old store.new }
{
    if (time + 1) % PAGE == 0 {
        leave_page(store, time);
    }
}

/// The page of a time has passed. Where no span has its mark, the mark is from then on that of the
/// page a lap later, and its bound starts anew.
fn leave_page<S: Store>(store: &mut S, time: u64)
    requires marked { AreMarked time (S.spans store.old) (S.marks store.old) }
    requires near { time ≤ 2 ^ 60 }
    ensures marks { IfSome (slice_get (S.marks store.old) (mark_index time)) (λ m.
        S.marks store.new ≡ slice_set (S.marks store.old) (mark_index time) (passed time m)) }
    ensures kept { KeepsSpans S.spans S.room store.old store.new }
{
    let index = mark_index(time);
    let mark = store.mark(index);
    if mark.count == 0 {
        let low = (time / PAGE + u64::from(LAP)) * PAGE;
        store.set_mark(index, Mark { low, ..mark });
        store.set_high(index, i64::MIN);
    }
}
