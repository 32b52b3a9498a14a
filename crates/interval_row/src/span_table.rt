//! A table over a store.

ghost use Rattle.std.specs.Prelude.{◌≡◌, ◌+◌, ◌*◌, ◌≤◌, ◌<◌, ◌^◌, true, drop, length, take, IfOk, IsSomeAnd};
ghost use Rattle.slot_core.specs.declared.TheConstants.{SHOWN_LIMIT};
ghost use Rattle.spare_capacity.specs.PlanSpans.{ArePlanSpans};
ghost use Rattle.spare_capacity.specs.Recurrence.{filled, first_start};
ghost use Rattle.interval_row.specs.Changes.{copies_of, ends_before, span_ending, with_work};
ghost use Rattle.interval_row.specs.Tables.{IsTable};
ghost use Rattle.interval_row.specs.Works.{changed_by, MayChangeBy};

use crate::lifted::Lifted;
use crate::pages::{self, Times};
use crate::rows::Rows;
use crate::spans::{self, Change};
use crate::store::Store;
use crate::table::{Front, Short, SpareTable, Spot};
use crate::{changes, marks};
use node_chain::Chain;
use slot_core::{Memory, SHOWN_LIMIT, Span, Steps};
use std::alloc::Global;
use std::marker::{Brand, Model};
use std::sync::ledger::{Blank, Ledger};

#[cfg(test)]
mod tests;

/// A table over a chain of spans, whose steps are bounded.
pub type ChainTable = Table<Lifted<Chain>>;

/// A table over a plain list.
pub type RowTable = Table<Lifted<Rows>>;

/// A table over a store of spans. A spot is how many spans stand before the one that it names.
///
/// It keeps the first start and the last end beside the store, and a hint: the span of the last
/// `charge`, `give_back` or `split`, or the first where that one has gone. A change of work looks
/// there first: the job that ran in a slot mostly runs in the next, and the slots of an offer are
/// due at the end that was made for it. Capacities are followed back from such a change only as far
/// as they change, and by whole pages where no span of those, but for the first of all, has any to
/// give. Each call keeps the marks of the store those of its spans: from them a search starts near
/// its span, where all spans lie within a lap of pages and are shorter than a page on average.
#[derive(Drop)]
pub struct Table<S: Store> {
    chain: S,
    times: Times,
    /// How many spans stand before the one that is looked at first. Only steps depend on it.
    hint: u32,
}

impl<S: Store> Model for Table<S> {
    ghost use Rattle.interval_row.specs.Stores.{AreKeptMarked, Stored};

    ghost Value = { Stored };

    ghost view = { λ t. record { spans = S.spans t.chain; room = S.room t.chain } };

    ghost invariant = { λ t.
        AreKeptMarked (S.spans t.chain) (S.room t.chain) (S.marks t.chain)
        t.times.start t.times.end };
}

impl<S: Store> Table<S> {
    /// The work that is due at the end of a span changes. True only where the spans that an entry
    /// shows after its first one stay.
    fn change_work<L: Ledger>(
        &mut self,
        deadline: u64,
        change: Change,
        steps: &mut Steps<L>,
    ) -> bool
        requires { IsSomeAnd (span_ending deadline self.old.spans)
            (λ s. MayChangeBy change s.work) }
        ensures table { IsTable (first_start self.new.spans) self.new.spans self.new.room }
        ensures time { first_start self.new.spans ≡ first_start self.old.spans }
        ensures spans { self.new.spans
            ≡ filled (with_work (changed_by change) deadline self.old.spans) }
        ensures others { result ≡ true → drop 1 (take SHOWN_LIMIT self.new.spans)
            ≡ drop 1 (take SHOWN_LIMIT self.old.spans) }
        ensures room { self.new.room ≡ self.old.room }
        ensures steps { steps.old ≤ steps.new }
        ensures few_steps { steps.new ≤ steps.old + 3 * ends_before deadline self.old.spans + 3 }
    {
        let changed = changes::change_work(
            &mut self.chain,
            self.times,
            self.hint,
            deadline,
            change,
            steps,
        );
        self.hint = changed.index;
        changed.index == 0 || SHOWN_LIMIT as u32 <= changed.stay
    }
}

impl<S: Store> SpareTable for Table<S> {
    ghost use Rattle.spare_capacity.specs.Recurrence.{first_start};

    ghost time = { λ t. first_start t.spans };

    ghost spans = { λ t. t.spans };

    ghost limit = { λ t. t.room };

    ghost counted = { S.counted };

    fn with_room(alloc: Global, cycle: &[Span], copies: u32, room: u32) -> Result<Self, Memory> {
        filled_table::<S, Brand>(alloc, cycle, copies, room, Blank::new(1))
    }

    fn count(&self) -> u32 {
        self.chain.len()
    }

    fn time(&self) -> u64 {
        self.times.start
    }

    fn last_end(&self) -> u64 {
        self.times.end
    }

    fn first(&self) -> Spot {
        // It only tells the prover that there is a span.
        let _kept = &self.chain;
        Spot(0)
    }

    fn next(&self, at: Spot) -> Option<Spot> {
        let Spot(index) = at;
        let count = self.count();
        if index + 1 < count {
            Some(Spot(index + 1))
        } else {
            None
        }
    }

    fn spot(&self, index: u32) -> Spot {
        Spot(index)
    }

    fn near(&self, x: u64) -> Front {
        pages::near(&self.chain, self.times, x)
    }

    fn skip(&self, front: Front, span: Span, until: u64, asked: u64) -> Front {
        pages::skip(&self.chain, self.times, front, span, until, asked)
    }

    fn first_short<L: Ledger>(
        &self,
        front: Front,
        span: Span,
        asked: u64,
        steps: &mut Steps<L>,
    ) -> Short {
        pages::first_short(&self.chain, self.times, front, span, asked, steps)
    }

    fn read<L: Ledger>(&self, at: Spot, steps: &mut Steps<L>) -> Span {
        let Spot(index) = at;
        self.chain.at(index, steps)
    }

    fn pass_slot<L: Ledger>(&mut self, steps: &mut Steps<L>) {
        self.hint = changes::pass(&mut self.chain, self.hint, steps);
        marks::pass_time(&mut self.chain, self.times.start);
        self.times.start += 1;
    }

    fn charge<L: Ledger>(&mut self, deadline: u64, slots: u32, steps: &mut Steps<L>) {
        self.change_work(deadline, Change::More(slots), steps);
    }

    fn give_back<L: Ledger>(&mut self, deadline: u64, slots: u32, steps: &mut Steps<L>) -> bool {
        self.change_work(deadline, Change::Fewer(slots), steps)
    }

    fn split<L: Ledger>(&mut self, at: u64, steps: &mut Steps<L>) {
        self.hint = changes::split(&mut self.chain, self.times, at, steps);
    }

    fn append_cycle<L: Ledger>(&mut self, cycle: &[Span], steps: &mut Steps<L>) {
        changes::append(&mut self.chain, cycle, self.times.end, steps);
        self.times.end += spans::last_end(cycle);
    }
}

/// A table of this many copies of a plan's spans. Its steps are counted and thrown away.
fn filled_table<S: Store, L: Ledger>(
    alloc: Global,
    spans: &[Span],
    copies: u32,
    room: u32,
    blank: Blank,
) -> Result<Table<S>, Memory>
    requires name { blank.name ≡ L.name }
    requires parts { blank.parts ≡ L.parts }
    requires ledger { 0 < L.parts }
    requires plan { ArePlanSpans spans.now }
    requires some { 1 ≤ copies }
    requires fits { copies * length spans.now ≤ room }
    requires few { room ≤ 2 ^ 20 }
    ensures table { IfOk result (λ made. IsTable (first_start made.spans) made.spans made.room) }
    ensures time { IfOk result (λ made. first_start made.spans ≡ 0) }
    ensures spans { IfOk result (λ made. made.spans ≡ copies_of spans.now copies) }
    ensures room { IfOk result (λ made. made.room ≡ room) }
{
    let mut steps: Steps<L> = Steps::new(blank);
    let mut chain = S::with_room(alloc, room)?;
    marks::put_first_marks(&mut chain);
    let mut end = 0;
    let cycle = spans::last_end(spans);
    for _copy in 0..copies {
        changes::append(&mut chain, spans, end, &mut steps);
        end += cycle;
    }
    Ok(Table {
        chain,
        times: Times { start: 0, end },
        hint: 0,
    })
}
