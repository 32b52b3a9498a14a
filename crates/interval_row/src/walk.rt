//! Spans of a store: how they are found, and how work changes at one.

ghost use Rattle.std.specs.Prelude.{◌≡◌, ℕ, ◌+◌, ◌*◌, ◌≤◌, ◌<◌, ◌^◌, length, drop, take, IsSome, Some, slice_get};
ghost use Rattle.spare_capacity.specs.Recurrence.{filled, first_spare, with_spare};
ghost use Rattle.interval_row.specs.Changes.{span_ending};
ghost use Rattle.interval_row.specs.Marks.{AreTimed};
ghost use Rattle.interval_row.specs.Spans.{place_of, with_work_at, AreFilled};
ghost use Rattle.interval_row.specs.Stores.{Keeps};
ghost use Rattle.interval_row.specs.Walks.{after_walk};

use crate::marks::PAGE;
use crate::pages::{self, Times};
use crate::spans;
use crate::store::Store;
use crate::walk_back::{PageWalk, Walk, follow_all, follow_pages, follow_rest};
use slot_core::{Span, Steps};
use std::sync::ledger::Ledger;

/// A span of a store: how many stand before it, and what it is.
#[derive(Clone, Copy)]
pub struct FoundSpan {
    pub index: u32,
    pub span: Span,
}

/// The first span that ends at `x` or later. At most one step for each that ends before, and one:
/// those that the marks tell of are not read.
pub(crate) fn find<S: Store, L: Ledger>(
    store: &S,
    times: Times,
    x: u64,
    steps: &mut Steps<L>,
) -> FoundSpan
    requires timed { AreTimed times.start times.end (S.spans store.now) (S.marks store.now) }
    requires within { place_of x (S.spans store.now) < length (S.spans store.now) }
    ensures index { result.index ≡ place_of x (S.spans store.now) }
    ensures span { slice_get (S.spans store.now) result.index ≡ Some result.span }
    ensures steps { steps.old ≤ steps.new }
    ensures few_steps { steps.new ≤ steps.old + result.index + 1 }
{
    let front = pages::near(store, times, x);
    for index in front.count..store.len() {
        let span = store.at(index, steps);
        if x <= span.end {
            return FoundSpan { index, span };
        }
    }
    unreachable!()
}

/// The same. The span at the hint is looked at first: where that is the one, and ends at `x`, one
/// step. At most one step more than without a hint.
pub(crate) fn find_hinted<S: Store, L: Ledger>(
    store: &S,
    times: Times,
    hint: u32,
    x: u64,
    steps: &mut Steps<L>,
) -> FoundSpan
    requires timed { AreTimed times.start times.end (S.spans store.now) (S.marks store.now) }
    requires within { place_of x (S.spans store.now) < length (S.spans store.now) }
    ensures index { result.index ≡ place_of x (S.spans store.now) }
    ensures span { slice_get (S.spans store.now) result.index ≡ Some result.span }
    ensures steps { steps.old ≤ steps.new }
    ensures few_steps { steps.new ≤ steps.old + result.index + 2 }
    ensures hinted { hint ≡ place_of x (S.spans store.now)
        → IsSome (span_ending x (S.spans store.now)) → steps.new ≡ steps.old + 1 }
{
    if hint < store.len() {
        let span = store.at(hint, steps);
        if span.end == x {
            return FoundSpan { index: hint, span };
        }
    }
    find(store, times, x, steps)
}

/// The span at a place becomes this one, with another work and its capacity. Those before it are
/// yet to follow. One step.
fn set_span<S: Store, L: Ledger>(
    store: &mut S,
    place: FoundSpan,
    span: Span,
    steps: &mut Steps<L>,
) -> Walk
    requires filled { AreFilled (S.spans store.old) }
    requires span { slice_get (S.spans store.old) place.index ≡ Some place.span }
    requires spare { span ≡ with_spare
        (record place.span { work = span.work })
        (first_spare (drop (place.index + 1) (S.spans store.old))) }
    ensures spans { after_walk result (S.spans store.new)
        ≡ filled (with_work_at place.index span.work (S.spans store.old)) }
    ensures front { take place.index (S.spans store.new) ≡ take place.index (S.spans store.old) }
    ensures index { result.index ≡ place.index }
    ensures placed { slice_get (S.spans store.new) place.index ≡ Some span }
    ensures kept { Keeps S.room S.marks store.old store.new }
    ensures one_step { steps.new ≡ steps.old + 1 }
{
    store.set(place.index, span, steps);
    let more = spans::repaid(place.span.spare, span.spare);
    Walk {
        index: place.index,
        more,
    }
}

/// The span at a place becomes this one, with another work and its capacity, and those before it
/// follow, up to the first that is repaid nothing: by whole pages where no two share a mark. At
/// most one step, and two for each span before. Returns how many of the first spans it has left.
pub(crate) fn set_work<S: Store, L: Ledger>(
    store: &mut S,
    times: Times,
    place: FoundSpan,
    span: Span,
    steps: &mut Steps<L>,
) -> u32
    requires timed { AreTimed times.start times.end (S.spans store.old) (S.marks store.old) }
    requires span { slice_get (S.spans store.old) place.index ≡ Some place.span }
    requires few { span.work ≤ 2 ^ 40 }
    requires spare { span ≡ with_spare
        (record place.span { work = span.work })
        (first_spare (drop (place.index + 1) (S.spans store.old))) }
    ensures spans { S.spans store.new
        ≡ filled (with_work_at place.index span.work (S.spans store.old)) }
    ensures front { take result (S.spans store.new) ≡ take result (S.spans store.old) }
    ensures kept { Keeps S.room S.marks store.old store.new }
    ensures steps { steps.old ≤ steps.new }
    ensures few_steps { steps.new ≤ steps.old + 2 * place.index + 1 }
{
    let from = set_span(store, place, span, steps);
    if !pages::are_in_lap(times) {
        return follow_all(store, from, span.start, steps);
    }
    let page = span.end / PAGE;
    let walk = follow_rest(store, from, span.start, page, steps);
    follow_pages(store, times.start / PAGE, PageWalk { page, walk }, steps)
}
