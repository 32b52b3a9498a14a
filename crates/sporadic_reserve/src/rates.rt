//! The demand of sporadic tasks, each given by its rate.

ghost use Rattle.std.specs.Prelude.{◌≡◌, ℕ, ◌+◌, ◌*◌, ◌/◌, ◌≤◌, ◌<◌, ◌^◌, [], length, max, min, slice_set, MatchOption};
ghost use Rattle.std.specs.Int.{div_ceil};
ghost use Rattle.slot_core.specs.declared.TheConstants.{HORIZON_LIMIT, SPORADIC_LIMIT};
ghost use Rattle.slot_core.specs.Feasibility.Sporadics.{arrivals_due, sporadic_demand};
ghost use Rattle.sporadic_reserve.specs.declared.rates.TheConstants.{GROWTH_REACH, INVERSE_SCALE};
ghost use Rattle.sporadic_reserve.specs.Reserves.{burst_limit, demand_limit, growth_limit, most_within, IsGrowth, IsNextRise};
ghost use Rattle.sporadic_reserve.specs.Rates.{reserved, task_of, AreSporadicRates, IsRate};

/// By how much the inverse of a separation is scaled.
pub const INVERSE_SCALE: u64 = 1 << 32;

/// Below this a number of slots is divided by the inverse of a separation.
pub const INVERSE_REACH: u64 = 1 << 18;

/// Within fewer slots than these the growth of a demand is told.
pub const GROWTH_REACH: u64 = 1 << 14;

/// How often a sporadic task may come and what it takes then, and its next legal arrival.
#[derive(Clone, Copy, PartialEq, Eq, Default)]
pub struct Rate {
    pub wcet: u32,
    pub separation: u32,
    pub deadline: u32,
    /// `INVERSE_SCALE` by the separation, rounded up.
    pub inverse: u64,
    pub next: u64,
}

/// How fast a demand grows: by so much a slot, scaled by `INVERSE_SCALE`, and by so much at once.
#[derive(Clone, Copy, PartialEq, Eq)]
pub struct Growth {
    pub scaled: u64,
    pub burst: u64,
}

impl Growth {
    /// The most by which such a demand rises within so many slots.
    pub fn most_within(self, slots: u64) -> u64
        requires few { slots < GROWTH_REACH }
        requires scaled { self.scaled ≤ growth_limit }
        requires burst { self.burst ≤ burst_limit }
        ensures most { result ≡ most_within self slots }
        ensures small { result ≤ 2 ^ 40 }
    {
        slots * self.scaled / INVERSE_SCALE + self.burst
    }
}

/// How fast the demand of rates grows.
pub(crate) fn growth_of(rates: &[Rate]) -> Growth
    requires rates { AreSporadicRates rates.now }
    requires few { length rates.now ≤ SPORADIC_LIMIT }
    ensures { IsGrowth (reserved rates.now) result }
{
    let mut growth = Growth {
        scaled: 0,
        burst: 0,
    };
    for rate in rates {
        let wcet = u64::from(rate.wcet);
        growth.scaled += wcet * rate.inverse;
        growth.burst += wcet;
    }
    growth
}

/// How many whole separations there are in this many slots. A multiplication serves where there are
/// fewer than `INVERSE_REACH`.
fn separations_in(rate: Rate, slots: u64) -> u64
    requires { IsRate rate }
    ensures { result ≡ slots / rate.separation }
{
    if slots < INVERSE_REACH {
        slots * rate.inverse / INVERSE_SCALE
    } else {
        slots / u64::from(rate.separation)
    }
}

/// `INVERSE_SCALE` by a separation, rounded up.
pub(crate) fn inverse_of(separation: u32) -> u64
    requires { 1 ≤ separation }
    ensures { result ≡ div_ceil INVERSE_SCALE separation }
{
    INVERSE_SCALE.div_ceil(u64::from(separation))
}

/// The deadline of the first arrival from `r` on.
fn first_due(rate: Rate, r: u64) -> u64
    requires rate { IsRate rate }
    requires near { r < HORIZON_LIMIT }
    ensures due { result ≡ max r rate.next + rate.deadline }
    ensures near { result < 2 * HORIZON_LIMIT }
{
    r.max(rate.next) + u64::from(rate.deadline)
}

/// How many of the densest arrivals from `r` on are due by `x`.
fn arrivals_due(rate: Rate, r: u64, x: u64) -> u64
    requires rate { IsRate rate }
    requires near { r < HORIZON_LIMIT }
    requires soon { x < HORIZON_LIMIT }
    ensures due { result ≡ arrivals_due (task_of rate) rate.next r x }
    ensures few { result ≤ x + 1 }
{
    let first = first_due(rate, r);
    if x < first {
        return 0;
    }
    separations_in(rate, x - first) + 1
}

/// The deadline of the first of them that is due after `x`, where this many are due by then.
fn due_after(rate: Rate, r: u64, x: u64, count: u64) -> u64
    requires rate { IsRate rate }
    requires near { r < HORIZON_LIMIT }
    requires soon { x < HORIZON_LIMIT }
    requires count { count ≡ arrivals_due (task_of rate) rate.next r x }
    requires few { count ≤ x + 1 }
    ensures { IsNextRise (λ z. arrivals_due (task_of rate) rate.next r z) x result }
{
    first_due(rate, r) + count * u64::from(rate.separation)
}

/// The slots that the densest arrivals from `r` on need by `x`.
pub(crate) fn demand_of(rates: &[Rate], r: u64, x: u64) -> u64
    requires rates { AreSporadicRates rates.now }
    requires few { length rates.now ≤ SPORADIC_LIMIT }
    requires near { r < HORIZON_LIMIT }
    requires soon { x < HORIZON_LIMIT }
    ensures demand { let reserve = reserved rates.now in
        result ≡ sporadic_demand reserve.sporadics reserve.nexts r x }
    ensures small { result ≤ demand_limit }
    ensures most { let reserve = reserved rates.now in
        (z : ℕ) → z ≤ x → sporadic_demand reserve.sporadics reserve.nexts r z ≤ result }
{
    let mut needed = 0;
    for rate in rates {
        needed += u64::from(rate.wcet) * arrivals_due(*rate, r, x);
    }
    needed
}

/// The first time after `x` at which that demand rises, or none where there are none.
pub(crate) fn next_rise(rates: &[Rate], r: u64, x: u64) -> Option<u64>
    requires rates { AreSporadicRates rates.now }
    requires near { r < HORIZON_LIMIT }
    requires soon { x < HORIZON_LIMIT }
    ensures { let reserve = reserved rates.now in
        MatchOption result
        (rates.now ≡ [])
        (λ y. IsNextRise (λ z. sporadic_demand reserve.sporadics reserve.nexts r z) x y) }
{
    let mut first = None;
    for rate in rates {
        let count = arrivals_due(*rate, r, x);
        first = Some(earlier(first, due_after(*rate, r, x, count)));
    }
    first
}

/// What rates need by a time, and the first time after it at which that rises, in one pass.
pub(crate) fn demand_and_rise(rates: &[Rate], r: u64, x: u64) -> (u64, Option<u64>)
    requires rates { AreSporadicRates rates.now }
    requires few { length rates.now ≤ SPORADIC_LIMIT }
    requires near { r < HORIZON_LIMIT }
    requires soon { x < HORIZON_LIMIT }
    ensures demand { let reserve = reserved rates.now in
        result.0 ≡ sporadic_demand reserve.sporadics reserve.nexts r x }
    ensures small { result.0 ≤ demand_limit }
    ensures most { let reserve = reserved rates.now in
        (z : ℕ) → z ≤ x → sporadic_demand reserve.sporadics reserve.nexts r z ≤ result.0 }
    ensures rise { let reserve = reserved rates.now in
        MatchOption result.1
        (rates.now ≡ [])
        (λ y. IsNextRise (λ z. sporadic_demand reserve.sporadics reserve.nexts r z) x y) }
{
    let mut needed = 0;
    let mut first = None;
    for rate in rates {
        let count = arrivals_due(*rate, r, x);
        needed += u64::from(rate.wcet) * count;
        first = Some(earlier(first, due_after(*rate, r, x, count)));
    }
    (needed, first)
}

/// The earlier of two times, the second where there is no first.
fn earlier(first: Option<u64>, due: u64) -> u64
    ensures { MatchOption first (result ≡ due) (λ y. result ≡ min y due) }
{
    first.map_or(due, |y| y.min(due))
}

/// From now on the next legal arrival of the rate at this place is `next`.
pub(crate) fn move_next(rates: &mut [Rate], at: usize, next: u64)
    requires rates { AreSporadicRates rates.old }
    requires within { at < length rates.old }
    requires near { next ≤ HORIZON_LIMIT }
    ensures rates { AreSporadicRates rates.new }
    ensures tasks { (reserved rates.new).sporadics ≡ (reserved rates.old).sporadics }
    ensures nexts { (reserved rates.new).nexts ≡ slice_set (reserved rates.old).nexts at next }
{
    rates[at].next = next;
}
