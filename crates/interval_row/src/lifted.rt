//! A shelf whose capacities are lifted by pages.

ghost use Rattle.std.specs.Int.{w64, int_max};
ghost use Rattle.std.specs.Prelude.{◌≡◌, ◌+◌, ◌-◌, ◌*◌, ◌/◌, ◌%◌, ◌≤◌, ◌<◌, ◌^◌, ◌+ℤ◌, ◌≤ℤ◌, pos, drop, take, FitsSigned, IfSome, Some, slice_get, slice_set};
ghost use Rattle.node_chain.specs.declared.marks.TheConstants.{LAP};
ghost use Rattle.interval_row.specs.declared.marks.TheConstants.{PAGE};
ghost use Rattle.spare_capacity.specs.Recurrence.{first_start, last_end};
ghost use Rattle.interval_row.specs.Changes.{ends_before};
ghost use Rattle.interval_row.specs.Lifts.{lifted, lifted_by, lowered_by, AreCovered};
ghost use Rattle.interval_row.specs.Marks.{mark_index, page_of};
ghost use Rattle.interval_row.specs.Spans.{AreFilled};
ghost use Rattle.interval_row.specs.Stores.{Keeps, KeepsSpans};
ghost use Rattle.interval_row.specs.Walks.{after_walk, others_between, AreInPages, HaveAtMost};

use crate::marks::{PAGE, index_of_page, mark_index};
use crate::shelf::Shelf;
use crate::spans;
use crate::store::Store;
use crate::walk_back::{Followed, PageWalk, Walk};
use node_chain::{Found, LAP, Lift, Mark, Pass, Raise, Search};
use slot_core::{Memory, Span, Steps};
use std::alloc::Global;
use std::marker::Model;
use std::sync::ledger::Ledger;

/// A store over a shelf. The capacity of a span is what the shelf has of it and the `add` of the
/// lift of the page in which the span ends, so that all capacities of a page change by one number.
/// What the shelf has wraps round where it leaves the range of its type, and so does the sum, which
/// is the capacity all the same. No capacity is above the `high` of its lift, but for that of the
/// first span: a walk back ends there, so that its page may be passed whatever it has to give.
#[derive(Drop)]
pub struct Lifted<S: Shelf> {
    pub(crate) shelf: S,
}

impl<S: Shelf> Model for Lifted<S> {
    ghost use Rattle.std.specs.Prelude.{drop};
    ghost use Rattle.interval_row.specs.Lifts.{lifted, AreCovered};
    ghost use Rattle.interval_row.specs.Stores.{StoreParts};

    ghost Value = { StoreParts };

    ghost view = { λ l. record {
      spans = lifted (S.laps l.shelf).lifts (S.spans l.shelf);
      room = S.room l.shelf;
      marks = (S.laps l.shelf).marks;
    } };

    ghost invariant = { λ l. AreCovered (S.laps l.shelf).lifts (drop 1 (S.spans l.shelf)) };
}

impl<S: Shelf> Store for Lifted<S> {
    ghost spans = { λ l. l.spans };

    ghost room = { λ l. l.room };

    ghost marks = { λ l. l.marks };

    ghost counted = { S.counted };

    fn with_room(alloc: Global, places: u32) -> Result<Self, Memory> {
        Ok(Lifted {
            shelf: S::with_room(alloc, places)?,
        })
    }

    fn len(&self) -> u32 {
        self.shelf.len()
    }

    fn at<L: Ledger>(&self, index: u32, steps: &mut Steps<L>) -> Span {
        let span = self.shelf.at(index, steps);
        lifted_by(self.shelf.lift(mark_index(span.end)), span)
    }

    #[inline(always)]
    fn search<L: Ledger>(
        &self,
        from: u32,
        works: u64,
        search: Search,
        steps: &mut Steps<L>,
    ) -> Found {
        let found = self.shelf.search(from, works, search, steps);
        let Some(span) = found.span else {
            return found;
        };
        Found {
            span: Some(lifted_by(self.shelf.lift(mark_index(span.end)), span)),
            ..found
        }
    }

    fn set<L: Ledger>(&mut self, index: u32, span: Span, steps: &mut Steps<L>) {
        let lift = if index == 0 {
            self.shelf.lift(mark_index(span.end))
        } else {
            cover(&mut self.shelf, span)
        };
        self.shelf.set(index, lowered_by(lift, span), steps);
    }

    // It stands apart, so that its loop keeps its numbers in registers.
    #[inline(never)]
    fn follow_spans<L: Ledger>(&mut self, from: Walk, page: u64, steps: &mut Steps<L>) -> Followed {
        let index = index_of_page(page);
        let lift = self.shelf.lift(index);
        let followed = follow_back(&mut self.shelf, lift, from, page, steps);
        let high = lift.high.max(followed.high);
        self.shelf.set_lift(index, Lift { high, ..lift });
        followed
    }

    fn insert<L: Ledger>(&mut self, index: u32, span: Span, there: Span, steps: &mut Steps<L>) {
        // It may have been the first, and is so no more.
        cover(&mut self.shelf, there);
        let lift = cover(&mut self.shelf, span);
        self.shelf.insert(index, lowered_by(lift, span), steps);
    }

    fn push<L: Ledger>(&mut self, span: Span, steps: &mut Steps<L>) {
        let lift = cover(&mut self.shelf, span);
        self.shelf.push(lowered_by(lift, span), steps);
    }

    fn pop_front<L: Ledger>(&mut self, steps: &mut Steps<L>) -> Span {
        let span = self.shelf.pop_front(steps);
        lifted_by(self.shelf.lift(mark_index(span.end)), span)
    }

    fn mark(&self, index: u32) -> Mark {
        self.shelf.mark(index)
    }

    fn set_mark(&mut self, index: u32, mark: Mark) {
        self.shelf.set_mark(index, mark);
    }

    fn set_high(&mut self, index: u32, high: i64) {
        let lift = self.shelf.lift(index);
        self.shelf.set_lift(index, Lift { high, ..lift });
    }

    fn pass_pages(&mut self, first_page: u64, from: PageWalk) -> PageWalk {
        let mut last = from;
        while first_page < last.page {
            let low = first_page.max((last.page - 1) / u64::from(LAP) * u64::from(LAP));
            last = pass_run(&mut self.shelf, low, last);
            if low < last.page {
                return last;
            }
        }
        last
    }
}

/// Pages follow in a walk back as `pass_pages` says, down to the page `low`, where their lifts
/// stand side by side.
#[inline(always)]
fn pass_run<S: Shelf>(shelf: &mut S, low: u64, from: PageWalk) -> PageWalk
    requires pages { AreInPages
        (after_walk from.walk (lifted (S.laps shelf.old).lifts (S.spans shelf.old)))
        (S.laps shelf.old).marks }
    requires covered { AreCovered (S.laps shelf.old).lifts (drop 1 (S.spans shelf.old)) }
    requires first { page_of (first_start
        (after_walk from.walk (lifted (S.laps shelf.old).lifts (S.spans shelf.old)))) ≤ low }
    requires end { from.page ≤ page_of (last_end 0
        (after_walk from.walk (lifted (S.laps shelf.old).lifts (S.spans shelf.old)))) }
    requires rising { low < from.page }
    requires lap { low / LAP ≡ (from.page - 1) / LAP }
    requires place { from.walk.index ≡ ends_before (from.page * PAGE) (S.spans shelf.old) }
    ensures spans { after_walk result.walk (lifted (S.laps shelf.new).lifts (S.spans shelf.new))
        ≡ after_walk from.walk (lifted (S.laps shelf.old).lifts (S.spans shelf.old)) }
    ensures covered { AreCovered (S.laps shelf.new).lifts (drop 1 (S.spans shelf.new)) }
    ensures more { result.walk.more ≡ from.walk.more }
    ensures place { result.walk.index ≡ ends_before (result.page * PAGE) (S.spans shelf.new) }
    ensures first { low ≤ result.page }
    ensures last { result.page ≤ from.page }
    ensures before { result.walk.index ≤ from.walk.index }
    ensures ended { low < result.page
        → ends_before ((result.page - 1) * PAGE) (S.spans shelf.new) < result.walk.index }
    ensures front { take result.walk.index (lifted (S.laps shelf.new).lifts (S.spans shelf.new))
        ≡ take result.walk.index (lifted (S.laps shelf.old).lifts (S.spans shelf.old)) }
    ensures kept { KeepsSpans S.spans S.room shelf.old shelf.new }
    ensures marks { (S.laps shelf.new).marks ≡ (S.laps shelf.old).marks }
{
    let more = from.walk.more;
    let pass = Pass {
        more,
        limit: most_to_pass_on(more),
    };
    let last = index_of_page(from.page - 1);
    // There is a lift at this index, and so at each before it.
    let _lift = shelf.lift(last);
    let end = last + 1;
    let passed = shelf.pass_back(index_of_page(low), end, pass);
    PageWalk {
        page: from.page - u64::from(end - passed.index),
        walk: Walk {
            index: from.walk.index - passed.count as u32,
            more,
        },
    }
}

/// A capacity so low that a span with no more passes on what it is repaid as a whole: then it has
/// none to give, before and after.
fn most_to_pass_on(more: i64) -> i64
    ensures before { result ≤ℤ pos 0 }
    ensures after { (result +ℤ more) ≤ℤ pos 0 }
{
    more.wrapping_neg().min(0)
}

/// The last spans that are yet to follow do: those that end in the page and are under this lift, up
/// to the first that is repaid more or less than the span after it. Two steps each.
#[inline(always)]
fn follow_run<S: Shelf, L: Ledger>(
    shelf: &mut S,
    lift: Lift,
    from: Walk,
    page: u64,
    steps: &mut Steps<L>,
) -> Followed
    requires lift { slice_get (S.laps shelf.old).lifts (page % LAP) ≡ Some lift }
    requires near { page * PAGE < 2 ^ 64 }
    requires some { ends_before (page * PAGE) (S.spans shelf.old) < from.index }
    requires place { from.index ≤ ends_before ((page + 1) * PAGE) (S.spans shelf.old) }
    requires filled { AreFilled
        (after_walk from (lifted (S.laps shelf.old).lifts (S.spans shelf.old))) }
    ensures spans { after_walk
        result.walk
        (lifted (S.laps shelf.old).lifts (S.spans shelf.new))
        ≡ after_walk from (lifted (S.laps shelf.old).lifts (S.spans shelf.old)) }
    ensures before { result.walk.index < from.index }
    ensures reached { ends_before (page * PAGE) (S.spans shelf.old) ≤ result.walk.index }
    ensures start { IfSome (slice_get (S.spans shelf.new) result.walk.index)
        (λ s. s.start ≡ result.start) }
    ensures high { HaveAtMost result.high (others_between result.walk.index from.index
        (lifted (S.laps shelf.old).lifts (S.spans shelf.new))) }
    ensures front { take result.walk.index (S.spans shelf.new)
        ≡ take result.walk.index (S.spans shelf.old) }
    ensures rest { drop from.index (S.spans shelf.new) ≡ drop from.index (S.spans shelf.old) }
    ensures kept { Keeps S.room S.laps shelf.old shelf.new }
    ensures two_steps { steps.new + 2 * result.walk.index ≡ steps.old + 2 * from.index }
{
    let raise = Raise {
        more: from.more,
        border: page * PAGE,
        limit: most_to_pass_on(from.more),
        add: lift.add,
    };
    let raised = shelf.raise_back(from.index, raise, steps);
    let more = spans::repaid(raised.spare, raised.spare + from.more);
    Followed {
        walk: Walk {
            index: raised.index,
            more,
        },
        start: raised.start,
        high: raised.high,
    }
}

/// The last spans that are yet to follow do: those that end in the page and are under this lift, as
/// long as something is repaid. Two steps each.
#[inline(always)]
fn follow_back<S: Shelf, L: Ledger>(
    shelf: &mut S,
    lift: Lift,
    from: Walk,
    page: u64,
    steps: &mut Steps<L>,
) -> Followed
    requires lift { slice_get (S.laps shelf.old).lifts (page % LAP) ≡ Some lift }
    requires near { page * PAGE < 2 ^ 64 }
    requires some { ends_before (page * PAGE) (S.spans shelf.old) < from.index }
    requires place { from.index ≤ ends_before ((page + 1) * PAGE) (S.spans shelf.old) }
    requires filled { AreFilled
        (after_walk from (lifted (S.laps shelf.old).lifts (S.spans shelf.old))) }
    requires more { from.more ≡ pos 0 → ⊥ }
    ensures spans { after_walk
        result.walk
        (lifted (S.laps shelf.old).lifts (S.spans shelf.new))
        ≡ after_walk from (lifted (S.laps shelf.old).lifts (S.spans shelf.old)) }
    ensures place { (result.walk.more ≡ pos 0 → ⊥)
        → result.walk.index ≡ ends_before (page * PAGE) (S.spans shelf.old) }
    ensures before { result.walk.index < from.index }
    ensures reached { ends_before (page * PAGE) (S.spans shelf.old) ≤ result.walk.index }
    ensures start { IfSome (slice_get (S.spans shelf.new) result.walk.index)
        (λ s. s.start ≡ result.start) }
    ensures high { HaveAtMost result.high (others_between result.walk.index from.index
        (lifted (S.laps shelf.old).lifts (S.spans shelf.new))) }
    ensures front { take result.walk.index (S.spans shelf.new)
        ≡ take result.walk.index (S.spans shelf.old) }
    ensures rest { drop from.index (S.spans shelf.new) ≡ drop from.index (S.spans shelf.old) }
    ensures kept { Keeps S.room S.laps shelf.old shelf.new }
    ensures two_steps { steps.new + 2 * result.walk.index ≡ steps.old + 2 * from.index }
{
    let mut last = Followed {
        walk: from,
        start: page * PAGE,
        high: i64::MIN,
    };
    while 0 < last.walk.index && last.walk.more != 0 && page * PAGE <= last.start {
        let next = follow_run(shelf, lift, last.walk, page, steps);
        last = Followed {
            high: last.high.max(next.high),
            ..next
        };
    }
    last
}

/// The span by what a shelf has of it, under its lift.
fn lifted_by(lift: Lift, span: Span) -> Span
    ensures { result ≡ lifted_by lift.add span }
{
    Span {
        spare: span.spare.wrapping_add(lift.add),
        ..span
    }
}

/// What a shelf has of a span, under its lift.
fn lowered_by(lift: Lift, span: Span) -> Span
    ensures { result ≡ lowered_by lift.add span }
{
    Span {
        spare: span.spare.wrapping_sub(lift.add),
        ..span
    }
}

/// The `high` of the lift of a span is no longer below its capacity. Returns the lift as it was.
fn cover<S: Shelf>(shelf: &mut S, span: Span) -> Lift
    ensures lift { slice_get (S.laps shelf.old).lifts (mark_index span.end) ≡ Some result }
    ensures laps { S.laps shelf.new ≡ record (S.laps shelf.old) {
      lifts = slice_set (S.laps shelf.old).lifts (mark_index span.end)
          (record result { high = int_max result.high span.spare });
    } }
    ensures kept { KeepsSpans S.spans S.room shelf.old shelf.new }
{
    let index = mark_index(span.end);
    let lift = shelf.lift(index);
    if lift.high < span.spare {
        let after = Lift {
            high: span.spare,
            ..lift
        };
        shelf.set_lift(index, after);
    }
    lift
}
