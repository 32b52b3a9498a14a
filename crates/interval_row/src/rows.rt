//! Spans in a plain list.

use crate::shelf::Shelf;
use node_chain::order::Order;
use node_chain::{Found, Lift, Mark, Marks, Pass, Passed, Raise, Raised, Search};
use slot_core::{Memory, Span, Steps};
use std::alloc::Global;
use std::marker::Model;
use std::sync::ledger::Ledger;

/// Spans in a list whose places are reserved once, and laps of marks and lifts. A table
/// over it answers as every table does, and promises no bounds on steps but those of `read` and
/// `first_short`.
#[derive(Drop)]
pub struct Rows {
    spans: Order<Span>,
    room: u32,
    laps: Marks,
}

impl Model for Rows {
    ghost use Rattle.interval_row.specs.Stores.{FitRoom, Listed};

    ghost Value = { Listed };

    ghost view = { λ r. record { spans = r.spans.items; room = r.room; laps = r.laps } };

    ghost invariant = { λ r. FitRoom r.spans r.room };
}

impl Shelf for Rows {
    ghost use Rattle.std.specs.Prelude.{false};

    ghost spans = { λ r. r.spans };

    ghost room = { λ r. r.room };

    ghost laps = { λ r. r.laps };

    ghost counted = { false };

    fn with_room(alloc: Global, places: u32) -> Result<Self, Memory> {
        Ok(Rows {
            spans: Order::with_capacity(alloc, places)?,
            room: places,
            laps: Marks::new(alloc)?,
        })
    }

    fn len(&self) -> u32 {
        self.spans.len() as u32
    }

    fn at<L: Ledger>(&self, index: u32, steps: &mut Steps<L>) -> Span {
        steps.tick();
        self.spans.at(index)
    }

    fn search<L: Ledger>(
        &self,
        from: u32,
        works: u64,
        search: Search,
        steps: &mut Steps<L>,
    ) -> Found {
        let mut works = works;
        for index in from..self.len() {
            let span = self.at(index, steps);
            if span.start < search.asked + works || search.border <= span.end {
                return Found {
                    index,
                    works,
                    span: Some(span),
                };
            }
            works += span.work;
        }
        Found {
            index: self.len(),
            works,
            span: None,
        }
    }

    fn set<L: Ledger>(&mut self, index: u32, span: Span, steps: &mut Steps<L>) {
        steps.tick();
        self.spans.set(index, span);
    }

    fn raise_back<L: Ledger>(&mut self, from: u32, raise: Raise, steps: &mut Steps<L>) -> Raised {
        let mut high = i64::MIN;
        for index in (0..from).rev() {
            let span = self.at(index, steps);
            self.set(index, raise.raised(span), steps);
            if index > 0 {
                high = high.max(raise.spare_after(span));
            }
            if index == 0 || !raise.passes_on(span) {
                return Raised {
                    index,
                    start: span.start,
                    spare: raise.spare(span),
                    high,
                };
            }
        }
        unreachable!()
    }

    fn insert<L: Ledger>(&mut self, index: u32, span: Span, steps: &mut Steps<L>) {
        steps.tick();
        steps.tick();
        steps.tick();
        self.spans.insert(index as usize, span);
    }

    fn push<L: Ledger>(&mut self, span: Span, steps: &mut Steps<L>) {
        steps.tick();
        steps.tick();
        self.spans.push(span);
    }

    fn pop_front<L: Ledger>(&mut self, steps: &mut Steps<L>) -> Span {
        let first = self.at(0, steps);
        steps.tick();
        self.spans.pop_front();
        first
    }

    fn mark(&self, index: u32) -> Mark {
        self.laps.at(index)
    }

    fn set_mark(&mut self, index: u32, mark: Mark) {
        self.laps.set(index, mark);
    }

    fn lift(&self, index: u32) -> Lift {
        self.laps.lift_at(index)
    }

    fn pass_back(&mut self, first: u32, end: u32, pass: Pass) -> Passed {
        self.laps.pass_back(first, end, pass)
    }

    fn set_lift(&mut self, index: u32, lift: Lift) {
        self.laps.set_lift(index, lift);
    }
}
