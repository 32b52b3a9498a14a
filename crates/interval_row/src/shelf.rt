//! What spans and numbers lie in.

ghost use Rattle.std.specs.Prelude.{◌≡◌, ℕ, ◌+◌, ◌-◌, ◌*◌, ◌≤◌, ◌<◌, ◌^◌, ◌≤ℤ◌, ◌<ℤ◌, Bool, true, false, List, [], ◌∷◌, ◌++◌, drop, insert, length, Some, IfOk, IfSome, MatchOption, slice_get, slice_set};
ghost use Rattle.slot_core.specs.declared.jobs.Span.{Span};
ghost use Rattle.node_chain.specs.Laps.{blank_laps, Laps};
ghost use Rattle.node_chain.specs.declared.marks.TheConstants.{LAP};
ghost use Rattle.node_chain.specs.declared.marks.Lift.{Lift};
ghost use Rattle.node_chain.specs.declared.marks.Mark.{Mark};
ghost use Rattle.node_chain.specs.Passes.{lifts_passed, spans_ending};
ghost use Rattle.node_chain.specs.Searches.{works_of_first};
ghost use Rattle.node_chain.specs.Raises.{lifted_by, map_between, passes_on, spare_after, spare_under};
ghost use Rattle.interval_row.specs.Stores.{Keeps, KeepsSpans};

use node_chain::{Chain, Found, Lift, Mark, Pass, Passed, Raise, Raised, Search};
use slot_core::{Memory, Span, Steps};
use std::alloc::Global;
use std::sync::ledger::Ledger;

/// Spans in order, each found by how many stand before it, with room for at most 2^20, and laps of
/// marks and lifts, of which only `pass_back` asks what they say. Only `with_room` takes memory,
/// and no call but it refuses.
pub trait Shelf: Drop {
    /// The spans in order.
    ghost spans: { Self → List Span };

    /// How many it has room for.
    ghost room: { Self → ℕ };

    /// The marks and lifts, which no call on spans changes.
    ghost laps: { Self → Laps };

    /// Whether a table over it promises a bound on the steps of each call.
    ghost counted: { Bool };

    /// No spans, room for this many, and laps without numbers.
    fn with_room(alloc: Global, places: u32) -> Result<Self, Memory>
        requires some { 1 ≤ places }
        requires few { places ≤ 2 ^ 20 }
        ensures empty { IfOk result (λ made. spans made ≡ []) }
        ensures room { IfOk result (λ made. room made ≡ places) }
        ensures laps { IfOk result (λ made. laps made ≡ blank_laps) };

    /// How many spans there are.
    fn len(&self) -> u32
        ensures { result ≡ length (spans self.now) };

    /// The span with this many before it. One step.
    fn at<L: Ledger>(&self, index: u32, steps: &mut Steps<L>) -> Span
        requires { index < length (spans self.now) }
        ensures span { slice_get (spans self.now) index ≡ Some result }
        ensures one_step { steps.new ≡ steps.old + 1 };

    /// Passes spans from an index on, with the works of those before it, up to the first that
    /// starts too early for what is asked, or ends at the border or later. One step a span that is
    /// read.
    fn search<L: Ledger>(
        &self,
        from: u32,
        works: u64,
        search: Search,
        steps: &mut Steps<L>,
    ) -> Found
        requires within { from ≤ length (spans self.now) }
        requires works { works ≡ works_of_first from (spans self.now) }
        requires fits { search.asked
            + works_of_first (length (spans self.now)) (spans self.now) < 2 ^ 64 }
        ensures from { from ≤ result.index }
        ensures works { result.works ≡ works_of_first result.index (spans self.now) }
        ensures span { result.span ≡ slice_get (spans self.now) result.index }
        ensures passed { (i : ℕ) → (s : Span) → from ≤ i → i < result.index
            → slice_get (spans self.now) i ≡ Some s
            → (search.asked + works_of_first i (spans self.now) ≤ s.start)
            × (s.end < search.border) }
        ensures stopped { IfSome result.span (λ s. s.end < search.border
            → s.start < search.asked + result.works) }
        ensures end { result.index ≤ length (spans self.now) }
        ensures steps { MatchOption result.span
            (steps.new ≡ steps.old + (result.index - from))
            (λ _. steps.new ≡ steps.old + (result.index - from) + 1) };

    /// Puts another span there. One step.
    fn set<L: Ledger>(&mut self, index: u32, span: Span, steps: &mut Steps<L>)
        requires { index < length (spans self.old) }
        ensures spans { spans self.new ≡ slice_set (spans self.old) index span }
        ensures kept { Keeps room laps self.old self.new }
        ensures one_step { steps.new ≡ steps.old + 1 };

    /// Gives the spans before an index, the last first, so much more capacity each, up to the first
    /// that does not pass it on, which gets it too. Two steps each.
    fn raise_back<L: Ledger>(&mut self, from: u32, raise: Raise, steps: &mut Steps<L>) -> Raised
        requires some { 1 ≤ from }
        requires within { from ≤ length (spans self.old) }
        ensures spans { spans self.new
            ≡ map_between (lifted_by raise.more) result.index from (spans self.old) }
        ensures before { result.index < from }
        ensures first { IfSome (slice_get (spans self.old) result.index)
            (λ s. (result.start ≡ s.start) × (result.spare ≡ spare_under raise.add s)) }
        ensures passed { (i : ℕ) → (s : Span) → result.index < i → i < from
            → slice_get (spans self.old) i ≡ Some s → passes_on raise s ≡ true }
        ensures ended { 1 ≤ result.index → IfSome (slice_get (spans self.old) result.index)
            (λ s. passes_on raise s ≡ false) }
        ensures high { (i : ℕ) → (s : Span) → 1 ≤ i → result.index ≤ i → i < from
            → slice_get (spans self.old) i ≡ Some s → spare_after raise s ≤ℤ result.high }
        ensures kept { Keeps room laps self.old self.new }
        ensures two_steps { steps.new ≡ steps.old + 2 * (from - result.index) };

    /// Puts a span in before the one there. Three steps.
    fn insert<L: Ledger>(&mut self, index: u32, span: Span, steps: &mut Steps<L>)
        requires within { index < length (spans self.old) }
        requires free { length (spans self.old) < room self.old }
        ensures spans { spans self.new ≡ insert (spans self.old) index span }
        ensures kept { Keeps room laps self.old self.new }
        ensures three_steps { steps.new ≡ steps.old + 3 };

    /// Appends a span. Two steps.
    fn push<L: Ledger>(&mut self, span: Span, steps: &mut Steps<L>)
        requires { length (spans self.old) < room self.old }
        ensures spans { spans self.new ≡ spans self.old ++ span ∷ [] }
        ensures kept { Keeps room laps self.old self.new }
        ensures two_steps { steps.new ≡ steps.old + 2 };

    /// Takes the first span out. Two steps.
    fn pop_front<L: Ledger>(&mut self, steps: &mut Steps<L>) -> Span
        requires { 0 < length (spans self.old) }
        ensures first { slice_get (spans self.old) 0 ≡ Some result }
        ensures rest { spans self.new ≡ drop 1 (spans self.old) }
        ensures kept { Keeps room laps self.old self.new }
        ensures two_steps { steps.new ≡ steps.old + 2 };

    /// The mark at an index.
    fn mark(&self, index: u32) -> Mark
        requires { index < LAP }
        ensures { slice_get (laps self.now).marks index ≡ Some result };

    /// Puts another mark at an index.
    fn set_mark(&mut self, index: u32, mark: Mark)
        requires { index < LAP }
        ensures kept { KeepsSpans spans room self.old self.new }
        ensures laps { laps self.new
            ≡ record (laps self.old) { marks = slice_set (laps self.old).marks index mark } };

    /// The lift at an index.
    fn lift(&self, index: u32) -> Lift
        requires { index < LAP }
        ensures { slice_get (laps self.now).lifts index ≡ Some result };

    /// Passes the lifts before an index and from `first` on, the last first: those in whose pages a
    /// span ends get so much more, until one of these is above the limit, which stays.
    fn pass_back(&mut self, first: u32, end: u32, pass: Pass) -> Passed
        requires rising { first ≤ end }
        requires within { end ≤ LAP }
        ensures lifts { laps self.new ≡ record (laps self.old) {
          lifts = lifts_passed
              pass.more
              (laps self.old).marks
              result.index
              (end - result.index)
              (laps self.old).lifts;
        } }
        ensures first { first ≤ result.index }
        ensures last { result.index ≤ end }
        ensures passed { (i : ℕ) → (mark : Mark) → (lift : Lift) → result.index ≤ i → i < end
            → slice_get (laps self.old).marks i ≡ Some mark
            → slice_get (laps self.old).lifts i ≡ Some lift
            → 1 ≤ mark.count → lift.high ≤ℤ pass.limit }
        ensures ended { first < result.index
            → IfSome (slice_get (laps self.old).marks (result.index - 1)) (λ mark. 1 ≤ mark.count) }
        ensures above { first < result.index
            → IfSome (slice_get (laps self.old).lifts (result.index - 1))
            (λ lift. pass.limit <ℤ lift.high) }
        ensures count { result.count
            ≡ spans_ending (laps self.old).marks result.index (end - result.index) }
        ensures kept { KeepsSpans spans room self.old self.new };

    /// Puts another lift at an index.
    fn set_lift(&mut self, index: u32, lift: Lift)
        requires { index < LAP }
        ensures kept { KeepsSpans spans room self.old self.new }
        ensures laps { laps self.new
            ≡ record (laps self.old) { lifts = slice_set (laps self.old).lifts index lift } };
}

/// The chain, where each step is a node. A table over it bounds its steps.
impl Shelf for Chain {
    ghost use Rattle.std.specs.Prelude.{true};
    ghost use Rattle.interval_row.specs.Stores.{chain_spans};

    ghost spans = { λ c. chain_spans c.pairs };

    ghost room = { λ c. c.capacity };

    ghost laps = { λ c. c.laps };

    ghost counted = { true };

    fn with_room(alloc: Global, places: u32) -> Result<Self, Memory> {
        Chain::with_capacity(alloc, places)
    }

    fn len(&self) -> u32 {
        self.len()
    }

    fn at<L: Ledger>(&self, index: u32, steps: &mut Steps<L>) -> Span {
        self.get(self.at(index), steps)
    }

    #[inline(always)]
    fn search<L: Ledger>(
        &self,
        from: u32,
        works: u64,
        search: Search,
        steps: &mut Steps<L>,
    ) -> Found {
        self.search(from, works, search, steps)
    }

    fn set<L: Ledger>(&mut self, index: u32, span: Span, steps: &mut Steps<L>) {
        self.set(self.at(index), span, steps);
    }

    #[inline(always)]
    fn raise_back<L: Ledger>(&mut self, from: u32, raise: Raise, steps: &mut Steps<L>) -> Raised {
        self.raise_back(from, raise, steps)
    }

    fn insert<L: Ledger>(&mut self, index: u32, span: Span, steps: &mut Steps<L>) {
        let _id = self.insert_at(index, span, steps);
    }

    fn push<L: Ledger>(&mut self, span: Span, steps: &mut Steps<L>) {
        let _id = self.push_back(span, steps);
    }

    fn pop_front<L: Ledger>(&mut self, steps: &mut Steps<L>) -> Span {
        self.pop_front(steps)
    }

    fn mark(&self, index: u32) -> Mark {
        self.mark(index)
    }

    fn set_mark(&mut self, index: u32, mark: Mark) {
        self.set_mark(index, mark);
    }

    fn lift(&self, index: u32) -> Lift {
        self.lift(index)
    }

    #[inline(always)]
    fn pass_back(&mut self, first: u32, end: u32, pass: Pass) -> Passed {
        self.pass_back(first, end, pass)
    }

    fn set_lift(&mut self, index: u32, lift: Lift) {
        self.set_lift(index, lift);
    }
}
