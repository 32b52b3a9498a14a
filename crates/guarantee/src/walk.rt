//! Places in a table: spans, with the works before them.

ghost use Rattle.std.specs.Prelude.{◌≡◌, ◌+◌, ◌≤◌, ◌<◌, ◌^◌, length, max, IfSome, MatchOption, Some, slice_get};
ghost use Rattle.slot_core.specs.declared.jobs.Span.{Span};
ghost use Rattle.spare_capacity.specs.Recurrence.{last_end};
ghost use Rattle.interval_row.specs.Tables.{IsFront, IsTable};
ghost use Rattle.guarantee.specs.Places.{IsPlace, MayPass};

use interval_row::{Front, SpareTable, Spot};
use slot_core::{Span, Steps};
use std::sync::ledger::Ledger;

/// A place in a table: a span, and what is due before it.
#[derive(Clone, Copy, PartialEq, Eq)]
pub struct SpanPlace {
    /// The spot of the span.
    pub at: Spot,
    /// The works of the spans before it, in slots.
    pub due: u64,
    /// How many spans are before it.
    pub index: u32,
    /// The span.
    pub span: Span,
}

/// The place of the first span that ends at a time or later. The spans before it are read once at
/// most, and only ends are compared.
#[inline(always)]
pub(crate) fn place_of<T: SpareTable, L: Ledger>(
    table: &T,
    time: u64,
    steps: &mut Steps<L>,
) -> SpanPlace
    requires after { T.time table.now < time }
    requires within { time ≤ last_end (T.time table.now) (T.spans table.now) }
    ensures table { IsTable (T.time table.now) (T.spans table.now) (T.limit table.now) }
    ensures place { IsPlace (T.spans table.now) result }
    ensures early { result.span.start < time }
    ensures reached { time ≤ result.span.end }
    ensures steps { steps.old ≤ steps.new }
    ensures few_steps { steps.new ≤ steps.old + result.index + 1 }
{
    let count = table.count();
    let front = table.near(time);
    let mut due = front.works;
    for index in front.count..count {
        let at = table.spot(index);
        let span = table.read(at, steps);
        if time <= span.end {
            return SpanPlace {
                at,
                due,
                index,
                span,
            };
        }
        due += span.work;
    }
    unreachable!()
}

/// The place after some of the first spans. One read.
#[inline(always)]
fn place_at<T: SpareTable, L: Ledger>(table: &T, front: Front, steps: &mut Steps<L>) -> SpanPlace
    requires front { IsFront (T.spans table.now) front }
    requires within { front.count < length (T.spans table.now) }
    ensures place { IsPlace (T.spans table.now) result }
    ensures index { result.index ≡ front.count }
    ensures one_step { steps.new ≡ steps.old + 1 }
{
    let at = table.spot(front.count);
    SpanPlace {
        at,
        index: front.count,
        span: table.read(at, steps),
        due: front.works,
    }
}

/// The spans before the first that is not passed: up to its start the times from the end of the
/// place on leave room for what is asked, all before `until`. Where none is passed, those before
/// the place. No span is read.
#[inline(always)]
pub(crate) fn passed<T: SpareTable>(table: &T, place: SpanPlace, until: u64, asked: u64) -> Front
    requires table { IsTable (T.time table.now) (T.spans table.now) (T.limit table.now) }
    requires place { IsPlace (T.spans table.now) place }
    requires until { until ≤ last_end (T.time table.now) (T.spans table.now) }
    requires some { 1 ≤ asked }
    requires few { asked ≤ 2 ^ 62 }
    ensures front { IsFront (T.spans table.now) result }
    ensures later { place.index ≤ result.count }
    ensures within { result.count < length (T.spans table.now) }
    ensures passed { (later : Span) → slice_get (T.spans table.now) result.count ≡ Some later
        → MayPass (T.spans table.now) asked until place.span.end later.start }
{
    let front = Front {
        count: place.index,
        works: place.due,
    };
    table.skip(front, place.span, until, asked)
}

/// The place after the spans that are passed, or after this one where none is. One read, and none
/// exactly after the last.
#[inline(always)]
pub(crate) fn past<T: SpareTable, L: Ledger>(
    table: &T,
    place: SpanPlace,
    passed: Front,
    steps: &mut Steps<L>,
) -> Option<SpanPlace>
    requires place { IsPlace (T.spans table.now) place }
    requires front { IsFront (T.spans table.now) passed }
    requires later { place.index ≤ passed.count }
    requires within { passed.count < length (T.spans table.now) }
    ensures last { MatchOption result
        (place.index + 1 ≡ length (T.spans table.now))
        (λ later. place.index < later.index) }
    ensures place { IfSome result (λ later. IsPlace (T.spans table.now) later) }
    ensures index { IfSome result (λ later. later.index ≡ max (place.index + 1) passed.count) }
    ensures steps { MatchOption result
        (steps.new ≡ steps.old)
        (λ later. steps.new ≡ steps.old + 1) }
{
    if passed.count == place.index {
        return after(table, place, steps);
    }
    Some(place_at(table, passed, steps))
}

/// The place of the span after one. None exactly after the last.
#[inline(always)]
pub(crate) fn after<T: SpareTable, L: Ledger>(
    table: &T,
    place: SpanPlace,
    steps: &mut Steps<L>,
) -> Option<SpanPlace>
    requires place { IsPlace (T.spans table.now) place }
    ensures last { MatchOption result
        (place.index + 1 ≡ length (T.spans table.now))
        (λ later. later.index ≡ place.index + 1) }
    ensures place { IfSome result (λ later. IsPlace (T.spans table.now) later) }
    ensures steps { MatchOption result
        (steps.new ≡ steps.old)
        (λ later. steps.new ≡ steps.old + 1) }
{
    let count = table.count();
    let index = place.index + 1;
    if count <= index {
        return None;
    }
    let at = table.spot(index);
    Some(SpanPlace {
        at,
        index,
        span: table.read(at, steps),
        due: place.due + place.span.work,
    })
}
