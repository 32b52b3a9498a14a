//! What a table sees of what it keeps its spans in.

ghost use Rattle.std.specs.Prelude.{◌≡◌, ℕ, ◌+◌, ◌-◌, ◌*◌, ◌≤◌, ◌<◌, ◌^◌, pos, Bool, List, [], ◌∷◌, ◌++◌, drop, insert, length, replicate, take, Some, IfOk, IfSome, MatchOption, slice_get, slice_set};
ghost use Rattle.slot_core.specs.declared.jobs.Span.{Span};
ghost use Rattle.spare_capacity.specs.Recurrence.{first_start, last_end};
ghost use Rattle.node_chain.specs.Laps.{blank_mark};
ghost use Rattle.node_chain.specs.Searches.{works_of_first};
ghost use Rattle.node_chain.specs.declared.marks.Mark.{Mark};
ghost use Rattle.node_chain.specs.declared.marks.TheConstants.{LAP};
ghost use Rattle.interval_row.specs.declared.marks.TheConstants.{PAGE};
ghost use Rattle.interval_row.specs.Changes.{ends_before};
ghost use Rattle.interval_row.specs.Lifts.{AreAtMost};
ghost use Rattle.interval_row.specs.Marks.{page_of};
ghost use Rattle.interval_row.specs.Spans.{AreFilled};
ghost use Rattle.interval_row.specs.Stores.{Keeps, KeepsSpans};
ghost use Rattle.interval_row.specs.Walks.{after_walk, others_between, AreInPages, HaveAtMost};

use crate::walk_back::{Followed, PageWalk, Walk};
use node_chain::{Found, Mark, Search};
use slot_core::{Memory, Span, Steps};
use std::alloc::Global;
use std::sync::ledger::Ledger;

/// Spans in order, each found by how many stand before it, with room for at most 2^20, and a lap of
/// marks, whose numbers are the table's. A walk back goes by whole pages whose spans have no
/// capacity, but for the first of all, and takes the count of a mark for that of the spans that end
/// in its page. Only `with_room` takes memory, and no call but it refuses.
pub trait Store: Drop {
    /// The spans in order.
    ghost spans: { Self → List Span };

    /// How many it has room for.
    ghost room: { Self → ℕ };

    /// The marks, which no call on spans changes.
    ghost marks: { Self → List Mark };

    /// Whether a table over it promises a bound on the steps of each call.
    ghost counted: { Bool };

    /// No spans, room for this many, and marks without numbers.
    fn with_room(alloc: Global, places: u32) -> Result<Self, Memory>
        requires some { 1 ≤ places }
        requires few { places ≤ 2 ^ 20 }
        ensures empty { IfOk result (λ made. spans made ≡ []) }
        ensures room { IfOk result (λ made. room made ≡ places) }
        ensures marks { IfOk result (λ made. marks made ≡ replicate LAP blank_mark) };

    /// How many spans there are.
    fn len(&self) -> u32
        ensures { result ≡ length (spans self.now) };

    /// The span with this many before it. One step.
    fn at<L: Ledger>(&self, index: u32, steps: &mut Steps<L>) -> Span
        requires { index < length (spans self.now) }
        ensures span { slice_get (spans self.now) index ≡ Some result }
        ensures one_step { steps.new ≡ steps.old + 1 };

    /// Passes spans from an index on, with the works of those before it, up to the first that
    /// starts too early for what is asked, or ends at the border or later. One step a span that is
    /// read.
    fn search<L: Ledger>(
        &self,
        from: u32,
        works: u64,
        search: Search,
        steps: &mut Steps<L>,
    ) -> Found
        requires within { from ≤ length (spans self.now) }
        requires works { works ≡ works_of_first from (spans self.now) }
        requires fits { search.asked
            + works_of_first (length (spans self.now)) (spans self.now) < 2 ^ 64 }
        ensures from { from ≤ result.index }
        ensures works { result.works ≡ works_of_first result.index (spans self.now) }
        ensures span { result.span ≡ slice_get (spans self.now) result.index }
        ensures passed { (i : ℕ) → (s : Span) → from ≤ i → i < result.index
            → slice_get (spans self.now) i ≡ Some s
            → (search.asked + works_of_first i (spans self.now) ≤ s.start)
            × (s.end < search.border) }
        ensures stopped { IfSome result.span (λ s. s.end < search.border
            → s.start < search.asked + result.works) }
        ensures end { result.index ≤ length (spans self.now) }
        ensures steps { MatchOption result.span
            (steps.new ≡ steps.old + (result.index - from))
            (λ _. steps.new ≡ steps.old + (result.index - from) + 1) };

    /// Puts another span there. One step.
    fn set<L: Ledger>(&mut self, index: u32, span: Span, steps: &mut Steps<L>)
        requires { index < length (spans self.old) }
        ensures spans { spans self.new ≡ slice_set (spans self.old) index span }
        ensures kept { Keeps room marks self.old self.new }
        ensures one_step { steps.new ≡ steps.old + 1 };

    /// The last spans that are yet to follow in a walk back do: those that end in the page, as long
    /// as something is repaid. Two steps each.
    fn follow_spans<L: Ledger>(&mut self, from: Walk, page: u64, steps: &mut Steps<L>) -> Followed
        requires near { page * PAGE < 2 ^ 64 }
        requires some { ends_before (page * PAGE) (spans self.old) < from.index }
        requires place { from.index ≤ ends_before ((page + 1) * PAGE) (spans self.old) }
        requires filled { AreFilled (after_walk from (spans self.old)) }
        requires more { from.more ≡ pos 0 → ⊥ }
        ensures spans { after_walk result.walk (spans self.new) ≡ after_walk from (spans self.old) }
        ensures place { (result.walk.more ≡ pos 0 → ⊥)
            → result.walk.index ≡ ends_before (page * PAGE) (spans self.new) }
        ensures before { result.walk.index < from.index }
        ensures reached { ends_before (page * PAGE) (spans self.old) ≤ result.walk.index }
        ensures front { take result.walk.index (spans self.new)
            ≡ take result.walk.index (spans self.old) }
        ensures start { IfSome (slice_get (spans self.new) result.walk.index)
            (λ s. s.start ≡ result.start) }
        ensures high { HaveAtMost result.high
            (others_between result.walk.index from.index (spans self.new)) }
        ensures kept { Keeps room marks self.old self.new }
        ensures two_steps { steps.new + 2 * result.walk.index ≡ steps.old + 2 * from.index };

    /// Puts a span in before the one that stands there. Three steps.
    fn insert<L: Ledger>(&mut self, index: u32, span: Span, there: Span, steps: &mut Steps<L>)
        requires there { slice_get (spans self.old) index ≡ Some there }
        requires free { length (spans self.old) < room self.old }
        ensures spans { spans self.new ≡ insert (spans self.old) index span }
        ensures kept { Keeps room marks self.old self.new }
        ensures three_steps { steps.new ≡ steps.old + 3 };

    /// Appends a span. Two steps.
    fn push<L: Ledger>(&mut self, span: Span, steps: &mut Steps<L>)
        requires { length (spans self.old) < room self.old }
        ensures spans { spans self.new ≡ spans self.old ++ span ∷ [] }
        ensures kept { Keeps room marks self.old self.new }
        ensures two_steps { steps.new ≡ steps.old + 2 };

    /// Takes the first span out. Two steps.
    fn pop_front<L: Ledger>(&mut self, steps: &mut Steps<L>) -> Span
        requires { 0 < length (spans self.old) }
        ensures first { slice_get (spans self.old) 0 ≡ Some result }
        ensures rest { spans self.new ≡ drop 1 (spans self.old) }
        ensures kept { Keeps room marks self.old self.new }
        ensures two_steps { steps.new ≡ steps.old + 2 };

    /// The mark at an index.
    fn mark(&self, index: u32) -> Mark
        requires { index < LAP }
        ensures { slice_get (marks self.now) index ≡ Some result };

    /// Puts another mark at an index.
    fn set_mark(&mut self, index: u32, mark: Mark)
        requires { index < LAP }
        ensures kept { KeepsSpans spans room self.old self.new }
        ensures marks { marks self.new ≡ slice_set (marks self.old) index mark };

    /// It is told that no capacity of the spans that end in the pages of this mark is above this
    /// number, but for that of the first span. It may spare later walks the reading of them.
    fn set_high(&mut self, index: u32, high: i64)
        requires index { index < LAP }
        requires below { AreAtMost index high (drop 1 (spans self.old)) }
        ensures spans { spans self.new ≡ spans self.old }
        ensures kept { Keeps room marks self.old self.new };

    /// Pages follow in a walk back, the last first, without a step: those in which no span ends,
    /// and such of which the spans, but for the first of all, are known to have no capacity, before
    /// and after. It ends at a page in which a span ends, or at the first page.
    fn pass_pages(&mut self, first_page: u64, from: PageWalk) -> PageWalk
        requires pages { AreInPages (after_walk from.walk (spans self.old)) (marks self.old) }
        requires first { first_page
            ≡ page_of (first_start (after_walk from.walk (spans self.old))) }
        requires end { from.page ≤ page_of (last_end 0 (after_walk from.walk (spans self.old))) }
        requires rising { first_page ≤ from.page }
        requires place { from.walk.index ≡ ends_before (from.page * PAGE) (spans self.old) }
        ensures spans { after_walk result.walk (spans self.new)
            ≡ after_walk from.walk (spans self.old) }
        ensures more { result.walk.more ≡ from.walk.more }
        ensures place { result.walk.index ≡ ends_before (result.page * PAGE) (spans self.new) }
        ensures first { first_page ≤ result.page }
        ensures last { result.page ≤ from.page }
        ensures before { result.walk.index ≤ from.walk.index }
        ensures ended { first_page < result.page
            → ends_before ((result.page - 1) * PAGE) (spans self.new) < result.walk.index }
        ensures front { take result.walk.index (spans self.new)
            ≡ take result.walk.index (spans self.old) }
        ensures kept { Keeps room marks self.old self.new };
}
