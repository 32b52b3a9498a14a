//! Numbers beside spans, for each page of time.

ghost use Rattle.std.specs.Prelude.{◌≡◌, ℕ, ◌-◌, ◌≤◌, ◌<◌, ◌≤ℤ◌, ◌<ℤ◌, Some, IfOk, IfSome, slice_get, slice_set};
ghost use Rattle.node_chain.specs.declared.marks.Lift.{Lift};
ghost use Rattle.node_chain.specs.declared.marks.Mark.{Mark};
ghost use Rattle.node_chain.specs.declared.marks.TheConstants.{LAP};
ghost use Rattle.node_chain.specs.Laps.{blank_laps};
ghost use Rattle.node_chain.specs.Passes.{lifts_passed, spans_ending};

use slot_core::Memory;
use std::alloc::Global;
use std::marker::Model;

/// How many marks there are, and how many lifts: the pages of a lap.
pub const LAP: u32 = 512;

/// Plain numbers about the pages of time that share an index. What they mean is up to whoever puts
/// them, but that `pass_back` goes by `count`; here is what a table of spans puts.
#[derive(Clone, Copy)]
pub struct Mark {
    /// How many spans end in the pages.
    pub count: u32,
    /// How many slots are due at their ends.
    pub works: u64,
    /// At least this many slots each time in the pages, from the table's time on, is above what is
    /// due in its page by then. 0 says nothing.
    pub low: u64,
}

/// Two plain numbers more about these pages. What they mean is up to whoever puts them, but that
/// `pass_back` goes by `high` and changes both; here is what a table of spans puts.
#[derive(Clone, Copy)]
pub struct Lift {
    /// No capacity of the spans that end in the pages is above this, but for that of the first of
    /// all spans.
    pub high: i64,
    /// The capacity of each of these spans is what is kept in the span and this, a sum that wraps.
    pub add: i64,
}

/// How lifts are passed, the last first: each in whose pages a span ends gets so much more, until
/// one of these is above the limit.
#[derive(Clone, Copy)]
pub struct Pass {
    /// In slots, below 0 where each gets less. The sums wrap round.
    pub more: i64,
    /// A lift with a greater `high` ends it, where a span ends in its pages.
    pub limit: i64,
}

/// The lifts that were passed: those from an index on.
#[derive(Clone, Copy)]
pub struct Passed {
    pub index: u32,
    /// How many spans end in their pages.
    pub count: u64,
}

/// What a mark tells beside its count.
#[derive(Clone, Copy)]
struct Rest {
    /// How many slots are due, as in the mark.
    works: u64,
    /// The bound of the mark.
    low: u64,
}

/// A lap of marks and a lap of lifts, each found by its index. Each kind of number lies in a list
/// of its own, so that a walk over many pages takes one index for all.
#[derive(Drop)]
pub struct Marks {
    counts: Vec<u32>,
    rests: Vec<Rest>,
    /// The `high` of each lift without its `add`, a difference that wraps: so a lift that is passed
    /// gets both by one write.
    tops: Vec<i64>,
    adds: Vec<i64>,
}

impl Model for Marks {
    ghost use Rattle.std.specs.Prelude.{◌≡◌, length};
    ghost use Rattle.node_chain.specs.Laps.{Laps, paired, lift_over, made_mark};
    ghost use Rattle.node_chain.specs.declared.marks.TheConstants.{LAP};

    ghost Value = { Laps };

    ghost view = { λ m. record {
      marks = paired made_mark m.counts.items m.rests.items;
      lifts = paired lift_over m.tops.items m.adds.items;
    } };

    ghost invariant = { λ m. (length m.counts.items ≡ LAP) × (length m.rests.items ≡ LAP)
        × (length m.tops.items ≡ LAP) × (length m.adds.items ≡ LAP) };
}

impl Marks {
    /// Laps without numbers.
    pub fn new(alloc: Global) -> Result<Marks, Memory>
        ensures { IfOk result (λ made. made ≡ blank_laps) }
    {
        let rest = Rest { works: 0, low: 0 };
        Ok(Marks {
            counts: vec![in alloc; 0; LAP as usize]?,
            rests: vec![in alloc; rest; LAP as usize]?,
            tops: vec![in alloc; i64::MIN; LAP as usize]?,
            adds: vec![in alloc; 0; LAP as usize]?,
        })
    }

    /// The mark at an index.
    pub fn at(&self, index: u32) -> Mark
        requires { index < LAP }
        ensures { slice_get self.now.marks index ≡ Some result }
    {
        let rest = self.rests[index as usize];
        Mark {
            count: self.counts[index as usize],
            works: rest.works,
            low: rest.low,
        }
    }

    /// Puts another mark at an index.
    pub fn set(&mut self, index: u32, mark: Mark)
        requires { index < LAP }
        ensures { self.new ≡ record self.old { marks = slice_set self.old.marks index mark } }
    {
        self.counts[index as usize] = mark.count;
        self.rests[index as usize] = Rest {
            works: mark.works,
            low: mark.low,
        };
    }

    /// The lift at an index.
    pub fn lift_at(&self, index: u32) -> Lift
        requires { index < LAP }
        ensures { slice_get self.now.lifts index ≡ Some result }
    {
        let add = self.adds[index as usize];
        Lift {
            high: self.tops[index as usize].wrapping_add(add),
            add,
        }
    }

    /// Puts another lift at an index.
    pub fn set_lift(&mut self, index: u32, lift: Lift)
        requires { index < LAP }
        ensures { self.new ≡ record self.old { lifts = slice_set self.old.lifts index lift } }
    {
        self.tops[index as usize] = lift.high.wrapping_sub(lift.add);
        self.adds[index as usize] = lift.add;
    }

    /// Passes the lifts before an index and from `first` on, the last first: those in whose pages a
    /// span ends get so much more, until one of these is above the limit, which stays.
    pub fn pass_back(&mut self, first: u32, end: u32, pass: Pass) -> Passed
        requires rising { first ≤ end }
        requires within { end ≤ LAP }
        ensures lifts { self.new ≡ record self.old {
          lifts = lifts_passed
              pass.more self.old.marks result.index (end - result.index) self.old.lifts;
        } }
        ensures first { first ≤ result.index }
        ensures last { result.index ≤ end }
        ensures passed { (i : ℕ) → (mark : Mark) → (lift : Lift) → result.index ≤ i → i < end
            → slice_get self.old.marks i ≡ Some mark → slice_get self.old.lifts i ≡ Some lift
            → 1 ≤ mark.count → lift.high ≤ℤ pass.limit }
        ensures ended { first < result.index → IfSome (slice_get self.old.marks (result.index - 1))
            (λ mark. 1 ≤ mark.count) }
        ensures above { first < result.index → IfSome (slice_get self.old.lifts (result.index - 1))
            (λ lift. pass.limit <ℤ lift.high) }
        ensures count { result.count
            ≡ spans_ending self.old.marks result.index (end - result.index) }
    {
        let counts = self.counts.as_slice();
        let tops = self.tops.as_slice();
        let adds = self.adds.as_mut_slice();
        let mut count = 0;
        for index in (first as usize..end as usize).rev() {
            let spans = counts[index];
            if spans != 0 {
                let add = adds[index];
                if pass.limit < tops[index].wrapping_add(add) {
                    return Passed {
                        index: index as u32 + 1,
                        count,
                    };
                }
                adds[index] = add.wrapping_add(pass.more);
                count += u64::from(spans);
            }
        }
        Passed {
            index: first,
            count,
        }
    }
}
