//! What sporadic tasks may still ask for.

ghost use Rattle.std.specs.Prelude.{◌≡◌, ℕ, ◌↔◌, ◌+◌, ◌≤◌, ◌<◌, [], length, map, Some, IsTrue, IfErr, IfOk, IfSome, MatchOption, OnErr, OnOk, slice_get, slice_index, slice_set, true};
ghost use Rattle.std.specs.List.{list_all};
ghost use Rattle.slot_core.specs.declared.TheConstants.{HORIZON_LIMIT, SPORADIC_LIMIT, TIME_LIMIT};
ghost use Rattle.slot_core.specs.declared.tasks.Sporadic.{Sporadic};
ghost use Rattle.slot_core.specs.Sets.Ranges.{sporadic_in_range};
ghost use Rattle.slot_core.specs.Feasibility.Sporadics.{sporadic_demand};
ghost use Rattle.sporadic_reserve.specs.Reserves.{demand_limit, without_name, IsGrowth, IsNextRise};
ghost use Rattle.sporadic_reserve.specs.Rates.{first_rate};

use crate::rates::{
    Growth, Rate, demand_and_rise, demand_of, growth_of, inverse_of, move_next, next_rise,
};
use arrayvec::ArrayVec;
use slot_core::{SPORADIC_LIMIT, Sporadic};
use std::marker::Model;

/// Sporadic tasks, at most `SPORADIC_LIMIT`, each with its next legal arrival. No call takes
/// memory.
#[derive(Drop)]
pub struct Reserve {
    rates: ArrayVec<Rate, SPORADIC_LIMIT>,
}

impl Model for Reserve {
    ghost use Rattle.sporadic_reserve.specs.Reserves.{Reserved};
    ghost use Rattle.sporadic_reserve.specs.Rates.{reserved, AreSporadicRates};

    ghost Value = { Reserved };

    ghost view = { λ r. reserved r.rates.items };

    ghost invariant = { λ r. AreSporadicRates r.rates.items };
}

impl Reserve {
    /// The reserve of these tasks, which may all arrive from slot 0 on.
    pub fn new(tasks: &[Sporadic]) -> Reserve
        requires few { length tasks.now ≤ SPORADIC_LIMIT }
        requires in_range { list_all sporadic_in_range tasks.now ≡ true }
        ensures { result
            ≡ record {
              sporadics = map without_name tasks.now;
              nexts = map (λ (s : Sporadic). 0) tasks.now;
            } }
    {
        let mut kept = ArrayVec::new();
        for task in tasks {
            kept.push(rate_of(task));
        }
        Reserve { rates: kept }
    }

    /// Whether it has no task. Each task has one next legal arrival.
    pub fn is_empty(&self) -> bool
        ensures empty { IsTrue result ↔ (self.now.sporadics ≡ []) }
        ensures as_many { length self.now.nexts ≡ length self.now.sporadics }
    {
        self.rates.is_empty()
    }

    /// The task of this index arrives at `t`. Ok is the deadline of its job, and its next legal
    /// arrival is a separation later. Err is that next legal arrival, exactly where `t` is before
    /// it.
    pub fn arrive(&mut self, index: u8, t: u64) -> Result<u64, u64>
        requires index { index < length self.old.sporadics }
        requires near { t ≤ TIME_LIMIT }
        ensures came { OnOk result (slice_index self.old.nexts index ≤ t) }
        ensures due { IfOk result (λ due.
            IfSome (slice_get self.old.sporadics index) (λ s. due ≡ t + s.deadline)) }
        ensures next { OnOk result (IfSome (slice_get self.old.sporadics index) (λ s.
            self.new
            ≡ record self.old { nexts = slice_set self.old.nexts index (t + s.separation) })) }
        ensures soon { IfErr result (λ next.
            (next ≡ slice_index self.old.nexts index) × (t < next)) }
        ensures stays { OnErr result (self.new ≡ self.old) }
        ensures tasks { self.new.sporadics ≡ self.old.sporadics }
    {
        let rate = self.rates[index as usize];
        if t < rate.next {
            return Err(rate.next);
        }
        move_next(
            &mut self.rates,
            index as usize,
            t + u64::from(rate.separation),
        );
        Ok(t + u64::from(rate.deadline))
    }

    /// The next legal arrival of the task of this index.
    pub fn next_of(&self, index: u8) -> u64
        requires { index < length self.now.nexts }
        ensures { slice_get self.now.nexts index ≡ Some result }
    {
        self.rates[usize::from(index)].next
    }

    /// The slots that the densest legal arrivals from `r` on need by `x`.
    pub fn demand(&self, r: u64, x: u64) -> u64
        requires near { r < HORIZON_LIMIT }
        requires soon { x < HORIZON_LIMIT }
        ensures demand { result ≡ sporadic_demand self.now.sporadics self.now.nexts r x }
        ensures small { result ≤ demand_limit }
        ensures most { (z : ℕ) → z ≤ x
            → sporadic_demand self.now.sporadics self.now.nexts r z ≤ result }
    {
        demand_of(&self.rates, r, x)
    }

    /// The first time after `x` at which that demand rises. None exactly where there is no task.
    pub fn next_deadline(&self, r: u64, x: u64) -> Option<u64>
        requires near { r < HORIZON_LIMIT }
        requires soon { x < HORIZON_LIMIT }
        ensures { MatchOption result
            (self.now.sporadics ≡ [])
            (λ y. IsNextRise (λ z. sporadic_demand self.now.sporadics self.now.nexts r z) x y) }
    {
        next_rise(&self.rates, r, x)
    }

    /// That demand, and the first time after `x` at which it rises, in one pass over the tasks. No
    /// time exactly where there is no task.
    pub fn demand_and_rise(&self, r: u64, x: u64) -> (u64, Option<u64>)
        requires near { r < HORIZON_LIMIT }
        requires soon { x < HORIZON_LIMIT }
        ensures demand { result.0 ≡ sporadic_demand self.now.sporadics self.now.nexts r x }
        ensures small { result.0 ≤ demand_limit }
        ensures most { (z : ℕ) → z ≤ x
            → sporadic_demand self.now.sporadics self.now.nexts r z ≤ result.0 }
        ensures rise { MatchOption result.1
            (self.now.sporadics ≡ [])
            (λ y. IsNextRise (λ z. sporadic_demand self.now.sporadics self.now.nexts r z) x y) }
    {
        demand_and_rise(&self.rates, r, x)
    }

    /// How fast that demand grows, from whatever time on tasks may arrive.
    pub fn growth(&self) -> Growth
        ensures { IsGrowth self.now result }
    {
        growth_of(&self.rates)
    }
}

/// The rate of a task that may arrive from slot 0 on.
fn rate_of(task: &Sporadic) -> Rate
    requires { 1 ≤ task.now.separation }
    ensures { result ≡ first_rate task.now }
{
    Rate {
        wcet: task.wcet,
        separation: task.separation,
        deadline: task.deadline,
        inverse: inverse_of(task.separation),
        next: 0,
    }
}
