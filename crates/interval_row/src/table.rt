//! What a table of spans does.

ghost use Rattle.std.specs.Prelude.{◌≡◌, ℕ, ◌+◌, ◌*◌, ◌≤◌, ◌<◌, ◌^◌, Bool, true, List, drop, length, take, Option, Some, IfOk, IsSome, IsSomeAnd, IsTrue, MatchOption, slice_get};
ghost use Rattle.slot_core.specs.declared.TheConstants.{SHOWN_LIMIT};
ghost use Rattle.slot_core.specs.declared.jobs.Span.{Span};
ghost use Rattle.spare_capacity.specs.Laws.{work_until};
ghost use Rattle.spare_capacity.specs.PlanSpans.{ArePlanSpans};
ghost use Rattle.spare_capacity.specs.Recurrence.{filled, last_end};
ghost use Rattle.interval_row.specs.Changes.{after_pass, appended, apart_from, copies_of, cut, ends_before, span_ending, with_less, with_more};
ghost use Rattle.interval_row.specs.Tables.{IsFront, IsTable, Stays};

use slot_core::{Memory, Span, Steps};
use std::alloc::Global;
use std::sync::ledger::Ledger;

/// The place of a span in a table: how many stand before it. It stays good until the table changes.
#[derive(Clone, Copy, PartialEq, Eq)]
pub struct Spot(pub u32);

/// Some of the first spans of a table: how many, and what is due in them.
#[derive(Clone, Copy, PartialEq, Eq)]
pub struct Front {
    pub count: u32,
    /// In slots.
    pub works: u64,
}

/// A time by which so much is due that too few slots are left beside it, or the end of the spans.
#[derive(Clone, Copy, PartialEq, Eq)]
pub struct Short {
    pub until: u64,
    /// What is due by then, in slots.
    pub works: u64,
}

/// A table of consecutive spans from a time on, with their capacities by the recurrence. All times,
/// lengths and works are in slots.
///
/// A table has at least one and at most 2^20 spans. Each is at most 2^40 slots long, with a work of
/// at most 2^40 slots. Only `with_room` takes memory, and no call but it refuses. The bounds on
/// steps hold where the table is counted; those of `read` and `first_short` hold for each table.
pub trait SpareTable: Drop {
    /// The slot in which the first span starts.
    ghost time: { Self → ℕ };

    /// The spans in order.
    ghost spans: { Self → List Span };

    /// How many spans it has room for.
    ghost limit: { Self → ℕ };

    /// Whether it promises a bound on the steps of each call.
    ghost counted: { Bool };

    /// A table at time 0 of this many copies of a plan's spans, one after the other, with room for
    /// `room` spans, and 18 KB of marks and lifts.
    fn with_room(alloc: Global, cycle: &[Span], copies: u32, room: u32) -> Result<Self, Memory>
        requires plan { ArePlanSpans cycle.now }
        requires some { 1 ≤ copies }
        requires fits { copies * length cycle.now ≤ room }
        requires few { room ≤ 2 ^ 20 }
        ensures table { IfOk result (λ made. IsTable (time made) (spans made) (limit made)) }
        ensures time { IfOk result (λ made. time made ≡ 0) }
        ensures spans { IfOk result (λ made. spans made ≡ copies_of cycle.now copies) }
        ensures room { IfOk result (λ made. limit made ≡ room) };

    /// How many spans there are. This call also tells what every table is.
    fn count(&self) -> u32
        ensures count { result ≡ length (spans self.now) }
        ensures table { IsTable (time self.now) (spans self.now) (limit self.now) };

    /// The time: the slot in which the first span starts.
    fn time(&self) -> u64
        ensures { result ≡ time self.now };

    /// The end of the last span.
    fn last_end(&self) -> u64
        ensures { result ≡ last_end (time self.now) (spans self.now) };

    /// The spot of the first span.
    fn first(&self) -> Spot
        ensures first { result.0 ≡ 0 }
        ensures some { 0 < length (spans self.now) };

    /// The spot of the span after this one. None exactly at the last.
    fn next(&self, at: Spot) -> Option<Spot>
        requires { at.0 < length (spans self.now) }
        ensures { MatchOption result
            (at.0 + 1 ≡ length (spans self.now))
            (λ next. (next.0 ≡ at.0 + 1) × (next.0 < length (spans self.now))) };

    /// The spot of the span with this many before it.
    fn spot(&self, index: u32) -> Spot
        requires { index < length (spans self.now) }
        ensures { result.0 ≡ index };

    /// Some of the first spans, which all end before `x`. No span is read.
    fn near(&self, x: u64) -> Front
        requires after { time self.now < x }
        requires within { x ≤ last_end (time self.now) (spans self.now) }
        ensures front { IsFront (spans self.now) result }
        ensures early { result.count ≤ ends_before x (spans self.now) };

    /// Passes spans from `span` on, the one after the front, as long as each time leaves room for
    /// `asked` slots beside the works due by then. These count from slot 0, not from the time of
    /// the table. Where none is passed the same front. No span is read.
    fn skip(&self, front: Front, span: Span, until: u64, asked: u64) -> Front
        requires front { IsFront (spans self.now) front }
        requires span { slice_get (spans self.now) front.count ≡ Some span }
        requires until { until ≤ last_end (time self.now) (spans self.now) }
        requires some { 1 ≤ asked }
        requires few { asked ≤ 2 ^ 62 }
        ensures front { IsFront (spans self.now) result }
        ensures later { front.count ≤ result.count }
        ensures within { result.count < length (spans self.now) }
        ensures reached { (later : Span) → slice_get (spans self.now) result.count ≡ Some later
            → front.count < result.count → later.start < until }
        ensures leaves { (later : Span) → slice_get (spans self.now) result.count ≡ Some later
            → (x : ℕ) → span.end ≤ x → x < later.end
            → asked + work_until (spans self.now) x ≤ x };

    /// The first time from the end of `span` on, the one after the front, by which not `asked`
    /// slots are left beside what is due; `asked` counts from slot 0. Where there is none, the last
    /// end. At most one step a span after this one.
    fn first_short<L: Ledger>(
        &self,
        front: Front,
        span: Span,
        asked: u64,
        steps: &mut Steps<L>,
    ) -> Short
        requires front { IsFront (spans self.now) front }
        requires span { slice_get (spans self.now) front.count ≡ Some span }
        requires some { 1 ≤ asked }
        requires few { asked ≤ 2 ^ 62 }
        ensures from { span.end ≤ result.until }
        ensures within { result.until ≤ last_end (time self.now) (spans self.now) }
        ensures works { result.works ≡ work_until (spans self.now) result.until }
        ensures leaves { (x : ℕ) → span.end ≤ x → x < result.until
            → asked + work_until (spans self.now) x ≤ x }
        ensures short { result.until < last_end (time self.now) (spans self.now)
            → result.until < asked + result.works }
        ensures steps { steps.old ≤ steps.new }
        ensures reads_once { steps.new + front.count + 1 ≤ steps.old + length (spans self.now) };

    /// The span at this spot. One step.
    fn read<L: Ledger>(&self, at: Spot, steps: &mut Steps<L>) -> Span
        requires { at.0 < length (spans self.now) }
        ensures span { slice_get (spans self.now) at.0 ≡ Some result }
        ensures one_step { steps.new ≡ steps.old + 1 };

    /// Time goes on by one slot, and the first span loses it. At most four steps.
    fn pass_slot<L: Ledger>(&mut self, steps: &mut Steps<L>)
        requires { time self.old + 1 < last_end (time self.old) (spans self.old) }
        ensures table { IsTable (time self.new) (spans self.new) (limit self.new) }
        ensures time { time self.new ≡ time self.old + 1 }
        ensures spans { spans self.new ≡ filled (after_pass (spans self.old)) }
        ensures room { limit self.new ≡ limit self.old }
        ensures steps { steps.old ≤ steps.new }
        ensures few_steps { IsTrue counted → steps.new ≤ steps.old + 4 };

    /// So many slots more are due at the end of a span. At most three steps a span that ends
    /// before, and three.
    fn charge<L: Ledger>(&mut self, deadline: u64, slots: u32, steps: &mut Steps<L>)
        requires { IsSomeAnd (span_ending deadline (spans self.old))
            (λ s. s.work + slots ≤ 2 ^ 40) }
        ensures stays { Stays time spans limit self.old self.new }
        ensures spans { spans self.new ≡ filled (with_more deadline slots (spans self.old)) }
        ensures steps { steps.old ≤ steps.new }
        ensures few_steps { IsTrue counted
            → steps.new ≤ steps.old
            + 3 * ends_before deadline (spans self.old) + 3 };

    /// So many slots less are due at the end of a span. At most three steps a span that ends
    /// before, and three. True only where the spans that an entry shows after its first one stay:
    /// where the work is that of the first, or where no capacity changes so far back.
    fn give_back<L: Ledger>(&mut self, deadline: u64, slots: u32, steps: &mut Steps<L>) -> bool
        requires { IsSomeAnd (span_ending deadline (spans self.old)) (λ s. slots ≤ s.work) }
        ensures stays { Stays time spans limit self.old self.new }
        ensures spans { spans self.new ≡ filled (with_less deadline slots (spans self.old)) }
        ensures others { result ≡ true
            → drop 1 (take SHOWN_LIMIT (spans self.new))
            ≡ drop 1 (take SHOWN_LIMIT (spans self.old)) }
        ensures steps { steps.old ≤ steps.new }
        ensures few_steps { IsTrue counted
            → steps.new ≤ steps.old
            + 3 * ends_before deadline (spans self.old) + 3 };

    /// Makes `at` the end of a span. The span that holds it inside becomes two, and all work is due
    /// at the end of the second. Where a span ends there already, nothing changes. At most one step
    /// a span that ends before, and five.
    fn split<L: Ledger>(&mut self, at: u64, steps: &mut Steps<L>)
        requires after { time self.old < at }
        requires within { at ≤ last_end (time self.old) (spans self.old) }
        requires free { length (spans self.old) < limit self.old }
        ensures stays { Stays time spans limit self.old self.new }
        ensures spans { spans self.new ≡ filled (cut at (spans self.old)) }
        ensures others { apart_from at (spans self.new) ≡ apart_from at (spans self.old) }
        ensures nothing { IsSome (span_ending at (spans self.old))
            → spans self.new ≡ spans self.old }
        ensures steps { steps.old ≤ steps.new }
        ensures few_steps { IsTrue counted
            → steps.new ≤ steps.old + ends_before at (spans self.old) + 5 };

    /// Appends a plan's spans, shifted to the last end. At most two steps an appended span.
    fn append_cycle<L: Ledger>(&mut self, cycle: &[Span], steps: &mut Steps<L>)
        requires plan { ArePlanSpans cycle.now }
        requires free { length (spans self.old) + length cycle.now ≤ limit self.old }
        requires near { last_end (time self.old) (spans self.old) + last_end 0 cycle.now ≤ 2 ^ 60 }
        ensures stays { Stays time spans limit self.old self.new }
        ensures spans { spans self.new ≡ appended cycle.now (spans self.old) }
        ensures steps { steps.old ≤ steps.new }
        ensures few_steps { IsTrue counted → steps.new ≤ steps.old + 2 * length cycle.now };
}
