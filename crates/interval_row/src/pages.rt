//! Places that the marks of a store tell, without a walk through its spans.

ghost use Rattle.std.specs.Prelude.{◌≡◌, ◌+◌, ◌*◌, ◌/◌, ◌≤◌, ◌<◌, ◌^◌, ℕ, length, IsTrue, Some, slice_get};
ghost use Rattle.slot_core.specs.declared.jobs.Span.{Span};
ghost use Rattle.node_chain.specs.declared.marks.TheConstants.{LAP};
ghost use Rattle.spare_capacity.specs.Laws.{work_until};
ghost use Rattle.spare_capacity.specs.Recurrence.{last_end};
ghost use Rattle.interval_row.specs.declared.marks.TheConstants.{PAGE};
ghost use Rattle.interval_row.specs.Changes.{ends_before};
ghost use Rattle.interval_row.specs.Marks.{AreTimed};
ghost use Rattle.interval_row.specs.Tables.{IsFront};

use crate::marks::{PAGE, mark_at};
use crate::store::Store;
use crate::table::{Front, Short};
use node_chain::{LAP, Mark, Search};
use slot_core::{Span, Steps};
use std::sync::ledger::Ledger;

/// The first start and the last end of the spans of a store.
#[derive(Clone, Copy)]
pub struct Times {
    pub start: u64,
    pub end: u64,
}

/// True only where no two pages of the spans share a mark.
pub(crate) fn are_in_lap(times: Times) -> bool
    requires near { times.end ≤ 2 ^ 60 }
    requires rising { times.start ≤ times.end }
    ensures { IsTrue result → times.end < (times.start / PAGE + LAP) * PAGE }
{
    times.end < (times.start / PAGE + u64::from(LAP)) * PAGE
}

/// The same. Where spans are as long as a page or longer on average it is false too, since marks
/// would spare no reads.
pub(crate) fn tell_pages(times: Times, count: u32) -> bool
    requires near { times.end ≤ 2 ^ 60 }
    requires rising { times.start ≤ times.end }
    ensures { IsTrue result → times.end < (times.start / PAGE + LAP) * PAGE }
{
    are_in_lap(times) && times.end - times.start < u64::from(count) * PAGE
}

/// The first spans, and those of the next page.
fn with_page(front: Front, mark: Mark) -> Front
    requires count { front.count + mark.count < 2 ^ 32 }
    requires works { front.works + mark.works < 2 ^ 64 }
    ensures { result ≡ record {
      count = front.count + mark.count;
      works = front.works + mark.works;
    } }
{
    Front {
        count: front.count + mark.count,
        works: front.works + mark.works,
    }
}

/// Some of the first spans, which all end before `x`. No span is read.
pub(crate) fn near<S: Store>(store: &S, times: Times, x: u64) -> Front
    requires timed { AreTimed times.start times.end (S.spans store.now) (S.marks store.now) }
    requires within { x ≤ times.end }
    ensures front { IsFront (S.spans store.now) result }
    ensures early { result.count ≤ ends_before x (S.spans store.now) }
{
    let mut front = Front { count: 0, works: 0 };
    if !tell_pages(times, store.len()) {
        return front;
    }
    for page in times.start / PAGE..x / PAGE {
        front = with_page(front, mark_at(store, page));
    }
    front
}

/// Some of the first spans, and the page in which those after them are looked at next.
#[derive(Clone, Copy)]
struct PageFront {
    page: u64,
    front: Front,
}

/// Passes spans from `span` on, the one after the front, as long as each time leaves room for
/// `asked` slots beside the works due by then. These count from slot 0. Where none is passed the
/// same front. The page is the first that is not passed. No span is read.
fn skip_pages<S: Store>(
    store: &S,
    times: Times,
    front: Front,
    span: Span,
    until: u64,
    asked: u64,
) -> PageFront
    requires timed { AreTimed times.start times.end (S.spans store.now) (S.marks store.now) }
    requires front { IsFront (S.spans store.now) front }
    requires span { slice_get (S.spans store.now) front.count ≡ Some span }
    requires until { until ≤ times.end }
    requires some { 1 ≤ asked }
    requires few { asked ≤ 2 ^ 62 }
    ensures front { IsFront (S.spans store.now) result.front }
    ensures later { front.count ≤ result.front.count }
    ensures within { result.front.count < length (S.spans store.now) }
    ensures reached { (later : Span)
        → slice_get (S.spans store.now) result.front.count ≡ Some later
        → front.count < result.front.count → later.start < until }
    ensures leaves { (later : Span)
        → slice_get (S.spans store.now) result.front.count ≡ Some later
        → (x : ℕ) → span.end ≤ x → x < later.end
        → asked + work_until (S.spans store.now) x ≤ x }
    ensures page { result.page ≤ times.end / PAGE }
{
    let first = span.end / PAGE;
    if span.start / PAGE == first || !tell_pages(times, store.len()) {
        return PageFront { page: first, front };
    }
    let mut passed = front;
    for page in first..until / PAGE {
        let mark = mark_at(store, page);
        if mark.low < asked + passed.works {
            return PageFront {
                page,
                front: passed,
            };
        }
        passed = with_page(passed, mark);
    }
    PageFront {
        page: first.max(until / PAGE),
        front: passed,
    }
}

/// The same, without the page.
pub(crate) fn skip<S: Store>(
    store: &S,
    times: Times,
    front: Front,
    span: Span,
    until: u64,
    asked: u64,
) -> Front
    requires timed { AreTimed times.start times.end (S.spans store.now) (S.marks store.now) }
    requires front { IsFront (S.spans store.now) front }
    requires span { slice_get (S.spans store.now) front.count ≡ Some span }
    requires until { until ≤ times.end }
    requires some { 1 ≤ asked }
    requires few { asked ≤ 2 ^ 62 }
    ensures front { IsFront (S.spans store.now) result }
    ensures later { front.count ≤ result.count }
    ensures within { result.count < length (S.spans store.now) }
    ensures reached { (later : Span) → slice_get (S.spans store.now) result.count ≡ Some later
        → front.count < result.count → later.start < until }
    ensures leaves { (later : Span) → slice_get (S.spans store.now) result.count ≡ Some later
        → (x : ℕ) → span.end ≤ x → x < later.end
        → asked + work_until (S.spans store.now) x ≤ x }
{
    skip_pages(store, times, front, span, until, asked).front
}

/// The front with the span after it: one span more, and its work.
fn past_span(front: Front, span: Span) -> Front
    requires count { front.count + 1 < 2 ^ 32 }
    requires works { front.works + span.work < 2 ^ 64 }
    ensures { result ≡ record { count = front.count + 1; works = front.works + span.work } }
{
    Front {
        count: front.count + 1,
        works: front.works + span.work,
    }
}

/// The spans before the place where a search goes on from `span`, the one after the front: up to
/// its start each time from the end of `span` on leaves room for what is asked. No span is read.
fn onward<S: Store>(store: &S, times: Times, front: Front, span: Span, asked: u64) -> PageFront
    requires timed { AreTimed times.start times.end (S.spans store.now) (S.marks store.now) }
    requires front { IsFront (S.spans store.now) front }
    requires span { slice_get (S.spans store.now) front.count ≡ Some span }
    requires some { 1 ≤ asked }
    requires few { asked ≤ 2 ^ 62 }
    ensures front { IsFront (S.spans store.now) result.front }
    ensures later { front.count < result.front.count }
    ensures within { result.front.count ≤ length (S.spans store.now) }
    ensures leaves { (next : Span)
        → slice_get (S.spans store.now) result.front.count ≡ Some next
        → (x : ℕ) → span.end ≤ x → x < next.start
        → asked + work_until (S.spans store.now) x ≤ x }
    ensures last { result.front.count ≡ length (S.spans store.now) → span.end ≡ times.end }
    ensures page { result.page ≤ times.end / PAGE }
{
    let passed = skip_pages(store, times, front, span, times.end, asked);
    if passed.front.count != front.count {
        return passed;
    }
    PageFront {
        front: past_span(front, span),
        ..passed
    }
}

/// The first time from the end of `span` on, the one after the front, by which not `asked` slots
/// are left beside what is due; `asked` counts from slot 0. Where there is none, the last end. At
/// most one step a span after this one. It stands apart, so that its loop keeps its numbers in
/// registers.
#[inline(never)]
pub(crate) fn first_short<S: Store, L: Ledger>(
    store: &S,
    times: Times,
    front: Front,
    span: Span,
    asked: u64,
    steps: &mut Steps<L>,
) -> Short
    requires timed { AreTimed times.start times.end (S.spans store.now) (S.marks store.now) }
    requires front { IsFront (S.spans store.now) front }
    requires span { slice_get (S.spans store.now) front.count ≡ Some span }
    requires some { 1 ≤ asked }
    requires few { asked ≤ 2 ^ 62 }
    ensures from { span.end ≤ result.until }
    ensures within { result.until ≤ times.end }
    ensures works { result.works ≡ work_until (S.spans store.now) result.until }
    ensures leaves { (x : ℕ) → span.end ≤ x → x < result.until
        → asked + work_until (S.spans store.now) x ≤ x }
    ensures short { result.until < times.end → result.until < asked + result.works }
    ensures steps { steps.old ≤ steps.new }
    ensures reads_once { steps.new + front.count + 1
        ≤ steps.old + length (S.spans store.now) }
{
    let mut front = front;
    let mut span = span;
    loop {
        let from = onward(store, times, front, span, asked);
        let search = Search {
            asked,
            border: (from.page + 1) * PAGE,
        };
        let found = store.search(from.front.count, from.front.works, search, steps);
        let Some(next) = found.span else {
            return Short {
                until: times.end,
                works: found.works,
            };
        };
        if next.start < asked + found.works {
            return Short {
                until: next.start,
                works: found.works,
            };
        }
        front = Front {
            count: found.index,
            works: found.works,
        };
        span = next;
    }
}
