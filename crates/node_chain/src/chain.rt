//! The chain.

ghost use Rattle.std.specs.Prelude.{◌≡◌, ℕ, ◌+◌, ◌*◌, ◌-◌, ◌≤◌, ◌<◌, ◌^◌, ◌≤ℤ◌, ◌<ℤ◌, [], ◌∷◌, ◌++◌, drop, insert, length, Some, None, IfOk, IfSome, MatchOption, slice_get, slice_set, true, false};
ghost use Rattle.slot_core.specs.declared.jobs.Span.{Span};
ghost use Rattle.node_chain.specs.declared.marks.TheConstants.{LAP};
ghost use Rattle.node_chain.specs.Chains.{id_at, id_of, span_at, IsChain, IsListed};
ghost use Rattle.node_chain.specs.Laps.{blank_laps};
ghost use Rattle.node_chain.specs.declared.marks.Lift.{Lift};
ghost use Rattle.node_chain.specs.declared.marks.Mark.{Mark};
ghost use Rattle.node_chain.specs.Passes.{lifts_passed, spans_ending};
ghost use Rattle.node_chain.specs.Raises.{map_between, pair_lifted_by, passes_on, spare_after, spare_under};
ghost use Rattle.node_chain.specs.Searches.{chain_spans, works_of_first};

use crate::block::Block;
use crate::links::{ENDS, join, part, set_next};
use crate::marks::{Lift, Mark, Marks, Pass, Passed};
use crate::order::Order;
use crate::raises::{Raise, Raised};
use crate::searches::{Found, Search};
use slot_core::{Memory, Span, Steps};
use std::alloc::Global;
use std::marker::Model;
use std::sync::ledger::Ledger;

/// The name of a span in a chain. It stays good until the span is taken out.
#[derive(Clone, Copy, PartialEq, Eq)]
pub struct NodeId(pub u32);

/// Spans in order, each with an id of its own. All memory is taken when the chain is made, and
/// given back when it is dropped.
///
/// Beside the nodes it keeps their ids in order, so that a span is found by how many stand before
/// it. A step is a node that is read or written. Ids are not counted: an insertion moves those
/// before it by one place of 4 bytes, or those behind it where none is free in front, and looks
/// through those before it where it is told an id. An append moves all of them to the front of
/// their places where none is free behind.
///
/// It also keeps a lap of marks and one of lifts, which no call on spans changes.
#[derive(Drop)]
pub struct Chain {
    block: Block,
    ids: Order<NodeId>,
    /// The first unused place, where there is one.
    free: u32,
    len: u32,
    laps: Marks,
}

impl Model for Chain {
    ghost use Rattle.std.specs.Prelude.{◌-◌, length};
    ghost use Rattle.node_chain.specs.Chains.{Chained, pairs_of};
    ghost use Rattle.node_chain.specs.Links.{order, IsLinked};
    ghost use Rattle.node_chain.specs.Orders.{KeepsOrder};

    ghost Value = { Chained };

    ghost view = { λ c. record {
      pairs = pairs_of c.block (order c.block c.len);
      capacity = length c.block - 1;
      laps = c.laps;
    } };

    ghost invariant = { λ c. IsLinked c.block c.free c.len
        × KeepsOrder (pairs_of c.block (order c.block c.len)) (length c.block - 1) c.ids };
}

impl Chain {
    /// An empty chain with room for `n` spans, of about 44 bytes each, and 18 KB of marks and lifts
    /// without numbers.
    pub fn with_capacity(alloc: Global, n: u32) -> Result<Chain, Memory>
        requires some { 1 ≤ n }
        requires small { n ≤ 2 ^ 20 }
        ensures empty { IfOk result (λ made. made.pairs ≡ []) }
        ensures capacity { IfOk result (λ made. made.capacity ≡ n) }
        ensures laps { IfOk result (λ made. made.laps ≡ blank_laps) }
    {
        let mut block = Block::new(alloc, n + 1)?;
        set_next(&mut block, ENDS, ENDS);
        Ok(Chain {
            block,
            ids: Order::with_capacity(alloc, n)?,
            free: 1,
            len: 0,
            laps: Marks::new(alloc)?,
        })
    }

    /// Does nothing. Its clause tells what every chain is.
    pub fn audit(&self)
        ensures { IsChain self.now.pairs self.now.capacity }
    {
        // It only tells the prover what the parts of a chain are.
        let _kept = &self.block;
    }

    /// How many spans there are.
    pub fn len(&self) -> u32
        ensures { result ≡ length self.now.pairs }
    {
        self.len
    }

    /// How many spans it has room for.
    pub fn capacity(&self) -> u32
        ensures { result ≡ self.now.capacity }
    {
        self.block.count() - 1
    }

    /// The id of the span with this many before it.
    pub fn at(&self, index: u32) -> NodeId
        requires { index < length self.now.pairs }
        ensures { id_at self.now.pairs index ≡ Some result }
    {
        self.ids.at(index)
    }

    /// The id of the first span. None exactly where there is none.
    pub fn first(&self) -> Option<NodeId>
        ensures { result ≡ id_at self.now.pairs 0 }
    {
        id_of(self.block.node(ENDS).next)
    }

    /// The id of the last span. None exactly where there is none.
    pub fn last(&self) -> Option<NodeId>
        ensures none { self.now.pairs ≡ [] → result ≡ None }
        ensures last { (i : ℕ) → i + 1 ≡ length self.now.pairs → result ≡ id_at self.now.pairs i }
    {
        id_of(self.block.node(ENDS).prev)
    }

    /// The id of the span after this one. None exactly at the last.
    pub fn next(&self, id: NodeId) -> Option<NodeId>
        requires { IsListed self.now.pairs id }
        ensures { (i : ℕ) → id_at self.now.pairs i ≡ Some id
            → result ≡ id_at self.now.pairs (i + 1) }
    {
        let NodeId(place) = id;
        id_of(self.block.node(place).next)
    }

    /// The id of the span before this one. None exactly at the first.
    pub fn prev(&self, id: NodeId) -> Option<NodeId>
        requires { IsListed self.now.pairs id }
        ensures none { id_at self.now.pairs 0 ≡ Some id → result ≡ None }
        ensures before { (i : ℕ) → id_at self.now.pairs (i + 1) ≡ Some id
            → result ≡ id_at self.now.pairs i }
    {
        let NodeId(place) = id;
        id_of(self.block.node(place).prev)
    }

    /// The span of this id. One step.
    pub fn get<L: Ledger>(&self, id: NodeId, steps: &mut Steps<L>) -> Span
        requires { IsListed self.now.pairs id }
        ensures span { (i : ℕ) → id_at self.now.pairs i ≡ Some id
            → span_at self.now.pairs i ≡ Some result }
        ensures one_step { steps.new ≡ steps.old + 1 }
    {
        let NodeId(place) = id;
        steps.tick();
        self.block.node(place).span
    }

    /// Puts another span under this id. One step.
    pub fn set<L: Ledger>(&mut self, id: NodeId, span: Span, steps: &mut Steps<L>)
        requires { IsListed self.old.pairs id }
        ensures span { (i : ℕ) → id_at self.old.pairs i ≡ Some id
            → self.new.pairs ≡ slice_set self.old.pairs i (id, span) }
        ensures capacity { self.new.capacity ≡ self.old.capacity }
        ensures laps { self.new.laps ≡ self.old.laps }
        ensures one_step { steps.new ≡ steps.old + 1 }
    {
        let NodeId(place) = id;
        steps.tick();
        self.block.set_span(place, span);
    }

    /// Gives the spans before an index, the last first, so much more capacity each, up to the first
    /// that does not pass it on, which gets it too. Two steps each.
    #[inline(always)]
    pub fn raise_back<L: Ledger>(&mut self, from: u32, raise: Raise, steps: &mut Steps<L>) -> Raised
        requires some { 1 ≤ from }
        requires within { from ≤ length self.old.pairs }
        ensures pairs { self.new.pairs
            ≡ map_between (pair_lifted_by raise.more) result.index from self.old.pairs }
        ensures before { result.index < from }
        ensures first { IfSome (span_at self.old.pairs result.index)
            (λ s. (result.start ≡ s.start) × (result.spare ≡ spare_under raise.add s)) }
        ensures passed { (i : ℕ) → (s : Span) → result.index < i → i < from
            → span_at self.old.pairs i ≡ Some s → passes_on raise s ≡ true }
        ensures ended { 1 ≤ result.index → IfSome (span_at self.old.pairs result.index)
            (λ s. passes_on raise s ≡ false) }
        ensures high { (i : ℕ) → (s : Span) → 1 ≤ i → result.index ≤ i → i < from
            → span_at self.old.pairs i ≡ Some s → spare_after raise s ≤ℤ result.high }
        ensures capacity { self.new.capacity ≡ self.old.capacity }
        ensures laps { self.new.laps ≡ self.old.laps }
        ensures two_steps { steps.new ≡ steps.old + 2 * (from - result.index) }
    {
        let ids = self.ids.items();
        let mut high = i64::MIN;
        for index in (0..from).rev() {
            let NodeId(place) = ids[index as usize];
            let span = self.block.node(place).span;
            steps.tick();
            steps.tick();
            self.block.set_spare(place, raise.raised(span).spare);
            if index > 0 {
                high = high.max(raise.spare_after(span));
            }
            if index == 0 || !raise.passes_on(span) {
                return Raised {
                    index,
                    start: span.start,
                    spare: raise.spare(span),
                    high,
                };
            }
        }
        unreachable!()
    }

    /// Passes spans from an index on, with the works of those before it, up to the first that
    /// starts too early for what is asked, or ends at the border or later. One step a span that is
    /// read.
    #[inline(always)]
    pub fn search<L: Ledger>(
        &self,
        from: u32,
        works: u64,
        search: Search,
        steps: &mut Steps<L>,
    ) -> Found
        requires within { from ≤ length self.now.pairs }
        requires works { works ≡ works_of_first from (chain_spans self.now.pairs) }
        requires fits { search.asked
            + works_of_first (length self.now.pairs) (chain_spans self.now.pairs) < 2 ^ 64 }
        ensures from { from ≤ result.index }
        ensures works { result.works ≡ works_of_first result.index (chain_spans self.now.pairs) }
        ensures span { result.span ≡ span_at self.now.pairs result.index }
        ensures passed { (i : ℕ) → (s : Span) → from ≤ i → i < result.index
            → span_at self.now.pairs i ≡ Some s
            → (search.asked + works_of_first i (chain_spans self.now.pairs) ≤ s.start)
            × (s.end < search.border) }
        ensures stopped { IfSome result.span (λ s. s.end < search.border
            → s.start < search.asked + result.works) }
        ensures end { result.index ≤ length self.now.pairs }
        ensures steps { MatchOption result.span
            (steps.new ≡ steps.old + (result.index - from))
            (λ _. steps.new ≡ steps.old + (result.index - from) + 1) }
    {
        let ids = self.ids.items();
        let mut works = works;
        for index in from as usize..ids.len() {
            let NodeId(place) = ids[index];
            steps.tick();
            let span = self.block.node(place).span;
            if span.start < search.asked + works || search.border <= span.end {
                return Found {
                    index: index as u32,
                    works,
                    span: Some(span),
                };
            }
            works += span.work;
        }
        Found {
            index: self.len,
            works,
            span: None,
        }
    }

    /// Inserts a span before the one of this id, and returns its id, which no span in the chain
    /// had. Three steps.
    pub fn insert_before<L: Ledger>(
        &mut self,
        id: NodeId,
        span: Span,
        steps: &mut Steps<L>,
    ) -> NodeId
        requires listed { IsListed self.old.pairs id }
        requires room { length self.old.pairs < self.old.capacity }
        ensures span { (i : ℕ) → id_at self.old.pairs i ≡ Some id
            → self.new.pairs ≡ insert self.old.pairs i (result, span) }
        ensures fresh { IsListed self.old.pairs result → ⊥ }
        ensures capacity { self.new.capacity ≡ self.old.capacity }
        ensures laps { self.new.laps ≡ self.old.laps }
        ensures three_steps { steps.new ≡ steps.old + 3 }
    {
        let index = self.ids.index_of(id);
        self.insert_at(index as u32, span, steps)
    }

    /// Inserts a span before the one with this many before it, and returns its id, which no span in
    /// the chain had. Three steps.
    pub fn insert_at<L: Ledger>(&mut self, index: u32, span: Span, steps: &mut Steps<L>) -> NodeId
        requires within { index < length self.old.pairs }
        requires room { length self.old.pairs < self.old.capacity }
        ensures span { self.new.pairs ≡ insert self.old.pairs index (result, span) }
        ensures fresh { IsListed self.old.pairs result → ⊥ }
        ensures capacity { self.new.capacity ≡ self.old.capacity }
        ensures laps { self.new.laps ≡ self.old.laps }
        ensures three_steps { steps.new ≡ steps.old + 3 }
    {
        let NodeId(after) = self.at(index);
        steps.tick();
        let place = self.free;
        self.free = join(&mut self.block, place, after, span, steps);
        self.ids.insert(index as usize, NodeId(place));
        self.len += 1;
        NodeId(place)
    }

    /// Appends a span, and returns its id, which no span in the chain had. Two steps.
    pub fn push_back<L: Ledger>(&mut self, span: Span, steps: &mut Steps<L>) -> NodeId
        requires { length self.old.pairs < self.old.capacity }
        ensures span { self.new.pairs ≡ self.old.pairs ++ (result, span) ∷ [] }
        ensures fresh { IsListed self.old.pairs result → ⊥ }
        ensures capacity { self.new.capacity ≡ self.old.capacity }
        ensures laps { self.new.laps ≡ self.old.laps }
        ensures two_steps { steps.new ≡ steps.old + 2 }
    {
        let place = self.free;
        self.free = join(&mut self.block, place, ENDS, span, steps);
        self.ids.push(NodeId(place));
        self.len += 1;
        NodeId(place)
    }

    /// Takes the first span out. Its id is free for use again. Two steps.
    pub fn pop_front<L: Ledger>(&mut self, steps: &mut Steps<L>) -> Span
        requires { 0 < length self.old.pairs }
        ensures span { span_at self.old.pairs 0 ≡ Some result }
        ensures rest { self.new.pairs ≡ drop 1 self.old.pairs }
        ensures capacity { self.new.capacity ≡ self.old.capacity }
        ensures laps { self.new.laps ≡ self.old.laps }
        ensures two_steps { steps.new ≡ steps.old + 2 }
    {
        let place = self.block.node(ENDS).next;
        let node = part(&mut self.block, self.free, steps);
        self.ids.pop_front();
        self.free = place;
        self.len -= 1;
        node.span
    }

    /// The mark at an index.
    pub fn mark(&self, index: u32) -> Mark
        requires { index < LAP }
        ensures { slice_get self.now.laps.marks index ≡ Some result }
    {
        self.laps.at(index)
    }

    /// Puts another mark at an index.
    pub fn set_mark(&mut self, index: u32, mark: Mark)
        requires { index < LAP }
        ensures pairs { self.new.pairs ≡ self.old.pairs }
        ensures capacity { self.new.capacity ≡ self.old.capacity }
        ensures laps { self.new.laps
            ≡ record self.old.laps { marks = slice_set self.old.laps.marks index mark } }
    {
        self.laps.set(index, mark);
    }

    /// The lift at an index.
    pub fn lift(&self, index: u32) -> Lift
        requires { index < LAP }
        ensures { slice_get self.now.laps.lifts index ≡ Some result }
    {
        self.laps.lift_at(index)
    }

    /// Passes the lifts before an index and from `first` on, the last first: those in whose pages a
    /// span ends get so much more, until one of these is above the limit, which stays.
    #[inline(always)]
    pub fn pass_back(&mut self, first: u32, end: u32, pass: Pass) -> Passed
        requires rising { first ≤ end }
        requires within { end ≤ LAP }
        ensures lifts { self.new.laps ≡ record self.old.laps {
          lifts = lifts_passed
              pass.more self.old.laps.marks result.index (end - result.index) self.old.laps.lifts;
        } }
        ensures first { first ≤ result.index }
        ensures last { result.index ≤ end }
        ensures passed { (i : ℕ) → (mark : Mark) → (lift : Lift) → result.index ≤ i → i < end
            → slice_get self.old.laps.marks i ≡ Some mark
            → slice_get self.old.laps.lifts i ≡ Some lift
            → 1 ≤ mark.count → lift.high ≤ℤ pass.limit }
        ensures ended { first < result.index
            → IfSome (slice_get self.old.laps.marks (result.index - 1)) (λ mark. 1 ≤ mark.count) }
        ensures above { first < result.index
            → IfSome (slice_get self.old.laps.lifts (result.index - 1))
            (λ lift. pass.limit <ℤ lift.high) }
        ensures count { result.count
            ≡ spans_ending self.old.laps.marks result.index (end - result.index) }
        ensures pairs { self.new.pairs ≡ self.old.pairs }
        ensures capacity { self.new.capacity ≡ self.old.capacity }
    {
        self.laps.pass_back(first, end, pass)
    }

    /// Puts another lift at an index.
    pub fn set_lift(&mut self, index: u32, lift: Lift)
        requires { index < LAP }
        ensures pairs { self.new.pairs ≡ self.old.pairs }
        ensures capacity { self.new.capacity ≡ self.old.capacity }
        ensures laps { self.new.laps
            ≡ record self.old.laps { lifts = slice_set self.old.laps.lifts index lift } }
    {
        self.laps.set_lift(index, lift);
    }
}

/// The id of a place, but for the ends.
fn id_of(place: u32) -> Option<NodeId>
    ensures { result ≡ id_of place }
{
    if place == ENDS {
        None
    } else {
        Some(NodeId(place))
    }
}
