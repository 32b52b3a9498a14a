//! The calls of a table, over a store.

ghost use Rattle.std.specs.List.{AllByRecursion};
ghost use Rattle.std.specs.Prelude.{◌≡◌, ◌+◌, ◌-◌, ◌*◌, ◌≤◌, ◌<◌, ◌^◌, length, take, IsSome, IsSomeAnd, Some, slice_get};
ghost use Rattle.slot_core.specs.declared.jobs.Span.{Span};
ghost use Rattle.spare_capacity.specs.Recurrence.{filled, first_start, last_end};
ghost use Rattle.interval_row.specs.Changes.{after_pass, appended, cut, ends_before, span_ending, with_work};
ghost use Rattle.interval_row.specs.Marks.{AreMarked, AreTimed};
ghost use Rattle.interval_row.specs.Spans.{place_of, AreFilled, HoldsInside};
ghost use Rattle.interval_row.specs.Stores.{Keeps};
ghost use Rattle.interval_row.specs.Works.{changed_by, MayChangeBy};

use crate::marks;
use crate::pages::Times;
use crate::spans::{self, Change};
use crate::store::Store;
use crate::walk::{FoundSpan, find, find_hinted, set_work};
use slot_core::{Span, Steps};
use std::sync::ledger::Ledger;

/// Takes the first slot from the first span, which goes where that was its last. Returns the hint,
/// and one less where the span went. At most three steps.
pub(crate) fn pass<S: Store, L: Ledger>(store: &mut S, hint: u32, steps: &mut Steps<L>) -> u32
    requires filled { AreFilled (S.spans store.old) }
    requires goes_on { first_start (S.spans store.old) + 1 < last_end 0 (S.spans store.old) }
    requires marked { AreMarked (first_start (S.spans store.old)) (S.spans store.old)
        (S.marks store.old) }
    ensures spans { S.spans store.new ≡ filled (after_pass (S.spans store.old)) }
    ensures marked { AreMarked (first_start (S.spans store.old)) (S.spans store.new)
        (S.marks store.new) }
    ensures hint { result ≡ hint - (length (S.spans store.old) - length (S.spans store.new)) }
    ensures room { S.room store.new ≡ S.room store.old }
    ensures steps { steps.old ≤ steps.new }
    ensures few_steps { steps.new ≤ steps.old + 3 }
{
    let span = store.at(0, steps);
    if span.start + 1 == span.end {
        let passed = store.pop_front(steps);
        marks::drop_span(store, passed);
        return hint.saturating_sub(1);
    }
    store.set(0, spans::later_start(span), steps);
    hint
}

/// Where the work of a span changed.
#[derive(Clone, Copy)]
pub(crate) struct ChangedPlace {
    /// How many spans stand before it.
    pub(crate) index: u32,
    /// How many of the first spans were left.
    pub(crate) stay: u32,
}

/// Another work of the span that ends there, which is looked for at the hint first.
pub(crate) fn change_work<S: Store, L: Ledger>(
    store: &mut S,
    times: Times,
    hint: u32,
    deadline: u64,
    change: Change,
    steps: &mut Steps<L>,
) -> ChangedPlace
    requires timed { AreTimed times.start times.end (S.spans store.old) (S.marks store.old) }
    requires due { IsSomeAnd (span_ending deadline (S.spans store.old))
        (λ s. MayChangeBy change s.work) }
    ensures spans { S.spans store.new
        ≡ filled (with_work (changed_by change) deadline (S.spans store.old)) }
    ensures marked { AreMarked times.start (S.spans store.new) (S.marks store.new) }
    ensures place { result.index ≡ place_of deadline (S.spans store.old) }
    ensures front { take result.stay (S.spans store.new) ≡ take result.stay (S.spans store.old) }
    ensures room { S.room store.new ≡ S.room store.old }
    ensures steps { steps.old ≤ steps.new }
    ensures few_steps { steps.new ≤ steps.old
        + 3 * ends_before deadline (S.spans store.old) + 3 }
{
    let place = find_hinted(store, times, hint, deadline, steps);
    let span = spans::changed(place.span, change);
    let stay = set_work(store, times, place, span, steps);
    marks::change_span(store, place.span.end, change);
    ChangedPlace {
        index: place.index,
        stay,
    }
}

/// Makes `at` the end of a span. Returns how many spans stand before it.
pub(crate) fn split<S: Store, L: Ledger>(
    store: &mut S,
    times: Times,
    at: u64,
    steps: &mut Steps<L>,
) -> u32
    requires timed { AreTimed times.start times.end (S.spans store.old) (S.marks store.old) }
    requires free { length (S.spans store.old) < S.room store.old }
    requires after { first_start (S.spans store.old) < at }
    requires reached { at ≤ last_end 0 (S.spans store.old) }
    ensures spans { S.spans store.new ≡ filled (cut at (S.spans store.old)) }
    ensures marked { AreMarked times.start (S.spans store.new) (S.marks store.new) }
    ensures nothing { IsSome (span_ending at (S.spans store.old))
        → S.spans store.new ≡ S.spans store.old }
    ensures place { result ≡ place_of at (S.spans store.old) }
    ensures room { S.room store.new ≡ S.room store.old }
    ensures steps { steps.old ≤ steps.new }
    ensures few_steps { steps.new ≤ steps.old + ends_before at (S.spans store.old) + 5 }
{
    let place = find(store, times, at, steps);
    if place.span.end != at {
        halve(store, place, at, steps);
        marks::cut_span(store, at);
    }
    place.index
}

/// The span at a place becomes two at `at`, with their capacities. Four steps.
fn halve<S: Store, L: Ledger>(store: &mut S, place: FoundSpan, at: u64, steps: &mut Steps<L>)
    requires filled { AreFilled (S.spans store.old) }
    requires free { length (S.spans store.old) < S.room store.old }
    requires found { place.index ≡ place_of at (S.spans store.old) }
    requires span { slice_get (S.spans store.old) place.index ≡ Some place.span }
    requires inside { HoldsInside at place.index (S.spans store.old) }
    ensures spans { S.spans store.new ≡ filled (cut at (S.spans store.old)) }
    ensures kept { Keeps S.room S.marks store.old store.new }
    ensures steps { steps.new ≡ steps.old + 4 }
{
    let span = place.span;
    let second = spans::lowered(spans::part_from(span, at), at - span.start);
    let first = spans::refilled(spans::part_before(span, at), second);
    store.insert(place.index, first, span, steps);
    store.set(place.index + 1, second, steps);
}

/// Appends the spans, this many slots later. Two steps each.
pub(crate) fn append<S: Store, L: Ledger>(
    store: &mut S,
    spans: &[Span],
    by: u64,
    steps: &mut Steps<L>,
)
    requires free { length (S.spans store.old) + length spans.now ≤ S.room store.old }
    requires spans { AreFilled spans.now }
    requires end { by ≡ last_end 0 (S.spans store.old) }
    requires near { by + last_end 0 spans.now < 2 ^ 64 }
    requires few { length (S.spans store.old) + length spans.now ≤ 2 ^ 20 }
    requires small { AllByRecursion (λ (s : Span). s.work ≤ 2 ^ 40) (S.spans store.old) }
    requires marked { AreMarked (first_start (S.spans store.old)) (S.spans store.old)
        (S.marks store.old) }
    ensures spans { S.spans store.new ≡ appended spans.now (S.spans store.old) }
    ensures marked { AreMarked (first_start (S.spans store.old)) (S.spans store.new)
        (S.marks store.new) }
    ensures room { S.room store.new ≡ S.room store.old }
    ensures steps { steps.new ≡ steps.old + 2 * length spans.now }
{
    for span in spans {
        let later = spans::shifted(*span, by);
        store.push(later, steps);
        marks::add_span(store, later);
    }
}
