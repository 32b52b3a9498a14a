//! Answers to firm offers, from the remaining jobs and what sporadic tasks may still ask for.

ghost use Rattle.std.specs.Prelude.{◌≡◌, ◌+◌, ◌-◌, ◌*◌, ◌/◌, ◌≤◌, ◌<◌, ◌^◌, ℕ, find, sum_by};
ghost use Rattle.std.specs.List.{range_with_len};
ghost use Rattle.std.specs.Option.{option_map};
ghost use Rattle.slot_core.specs.declared.TheConstants.{OFFER_LIMIT};
ghost use Rattle.slot_core.specs.declared.jobs.Job.{Job};
ghost use Rattle.slot_core.specs.Feasibility.Sporadics.{sporadic_demand};
ghost use Rattle.slot_core.specs.Runs.Answers.{evidence_at, firm_answer};
ghost use Rattle.slot_core.specs.Runs.Demand.{is_overloaded};
ghost use Rattle.sporadic_reserve.specs.Reserves.{demand_limit};
ghost use Rattle.trace_verify.specs.Dues.{block_end, left_before};
ghost use Rattle.trace_verify.specs.Offers.{offer_scene};

use crate::dues::block_end;
use crate::jobs::JobList;
use slot_core::{Evidence, Firm};
use sporadic_reserve::Reserve;

/// The answer to an offer of so many slots within so many from now, in a plan of this cycle.
pub(crate) fn offer_answer(
    jobs: &JobList,
    reserve: &Reserve,
    now: u64,
    cycle: u32,
    slots: u32,
    within: u32,
) -> Firm
    requires cycle { 1 ≤ cycle }
    requires early { now ≤ 2 ^ 32 }
    requires small { sum_by (λ (j : Job). j.left) jobs.now ≤ 2 ^ 40 }
    ensures { result
        ≡ firm_answer
        reserve.now.sporadics
        cycle
        (offer_scene now jobs.now reserve.now.nexts)
        slots
        within }
{
    if within == 0 {
        return Firm::Late;
    }
    if cycle < within {
        return Firm::Far;
    }
    let end = (now / u64::from(cycle) + 3) * u64::from(cycle);
    match first_short(jobs, reserve, now, end, slots, now + u64::from(within)) {
        Some(evidence) => Firm::NoRoom(evidence),
        None => Firm::Accepted,
    }
}

/// The first time from `from` to the end by which an offer of so many slots, the jobs and the
/// densest sporadic arrivals need more than there are slots. Each block of times is looked at once,
/// but for those that may hold such a time.
fn first_short(
    jobs: &JobList,
    reserve: &Reserve,
    now: u64,
    end: u64,
    slots: u32,
    from: u64,
) -> Option<Evidence>
    requires near { end < 2 ^ 40 }
    requires early { from ≤ 2 ^ 40 }
    requires later { now ≤ from }
    requires small { sum_by (λ (j : Job). j.left) jobs.now ≤ 2 ^ 40 }
    ensures { result
        ≡ option_map
        (evidence_at reserve.now.sporadics (offer_scene now jobs.now reserve.now.nexts) slots)
        (find
        (is_overloaded
        reserve.now.sporadics
        (offer_scene now jobs.now reserve.now.nexts)
        slots
        now)
        (range_with_len from (end + 1 - from))) }
{
    let mut x = from;
    let mut work = u64::from(slots) + jobs.work_before(from);
    while x <= end {
        let next = block_end(x);
        let last = end.min(next - 1);
        if let Some(evidence) = short_in_block(jobs, reserve, now, slots, work, (x, last)) {
            return Some(evidence);
        }
        work += jobs.to_block_end(x).work;
        x = next;
    }
    None
}

/// The same of times of one block, from a first to a last one, where so much work is due before the
/// first with the slots of the offer. The times are looked at only where what is due in the block,
/// with all that sporadic arrivals need by the last of them, does not fit.
fn short_in_block(
    jobs: &JobList,
    reserve: &Reserve,
    now: u64,
    slots: u32,
    work: u64,
    times: (u64, u64),
) -> Option<Evidence>
    requires near { times.1 < 2 ^ 40 }
    requires rising { times.0 ≤ times.1 }
    requires block { times.1 < block_end times.0 }
    requires later { now ≤ times.0 }
    requires small { sum_by (λ (j : Job). j.left) jobs.now ≤ 2 ^ 40 }
    requires work { work ≡ slots + left_before jobs.now times.0 }
    ensures { result
        ≡ option_map
        (evidence_at reserve.now.sporadics (offer_scene now jobs.now reserve.now.nexts) slots)
        (find
        (is_overloaded
        reserve.now.sporadics
        (offer_scene now jobs.now reserve.now.nexts)
        slots
        now)
        (range_with_len times.0 (times.1 + 1 - times.0))) }
{
    let (first, last) = times;
    let most = jobs.to_block_end(first).lack + reserve.demand(now, last);
    if work + most <= first - now {
        return None;
    }
    short_from(jobs, reserve, now, slots, work, times)
}

/// The same, where each of the times is looked at.
fn short_from(
    jobs: &JobList,
    reserve: &Reserve,
    now: u64,
    slots: u32,
    work: u64,
    times: (u64, u64),
) -> Option<Evidence>
    requires near { times.1 < 2 ^ 40 }
    requires rising { times.0 ≤ times.1 }
    requires later { now ≤ times.0 }
    requires small { sum_by (λ (j : Job). j.left) jobs.now ≤ 2 ^ 40 }
    requires work { work ≡ slots + left_before jobs.now times.0 }
    ensures { result
        ≡ option_map
        (evidence_at reserve.now.sporadics (offer_scene now jobs.now reserve.now.nexts) slots)
        (find
        (is_overloaded
        reserve.now.sporadics
        (offer_scene now jobs.now reserve.now.nexts)
        slots
        now)
        (range_with_len times.0 (times.1 + 1 - times.0))) }
{
    let (first, last) = times;
    let mut work = work;
    let mut known = (0, first);
    for x in first..last + 1 {
        known = demand_from(reserve, now, x, last, known);
        work += jobs.due_at(x);
        let evidence = Evidence {
            until: x,
            need: work + known.0,
            room: x - now,
        };
        if evidence.room < evidence.need {
            return Some(evidence);
        }
    }
    None
}

/// What the densest sporadic arrivals need by a time, and the time until which they need no more:
/// what is known before that time, and else computed.
fn demand_from(reserve: &Reserve, now: u64, x: u64, end: u64, known: (u64, u64)) -> (u64, u64)
    requires near { end < 2 ^ 40 }
    requires within { x ≤ end }
    requires later { now ≤ x }
    requires flat { (z : ℕ) → x ≤ z → z < known.1
        → sporadic_demand reserve.now.sporadics reserve.now.nexts now z ≡ known.0 }
    requires small { known.0 ≤ demand_limit }
    ensures demand { (z : ℕ) → x ≤ z → z < result.1
        → sporadic_demand reserve.now.sporadics reserve.now.nexts now z ≡ result.0 }
    ensures small { result.0 ≤ demand_limit }
    ensures after { x < result.1 }
{
    if x < known.1 {
        return known;
    }
    demand_until(reserve, now, x, end)
}

/// What the densest sporadic arrivals need by a time, and the time until which they need no more.
fn demand_until(reserve: &Reserve, now: u64, x: u64, end: u64) -> (u64, u64)
    requires near { end < 2 ^ 40 }
    requires within { x ≤ end }
    requires later { now ≤ x }
    ensures demand { (z : ℕ) → x ≤ z → z < result.1
        → sporadic_demand reserve.now.sporadics reserve.now.nexts now z ≡ result.0 }
    ensures small { result.0 ≤ demand_limit }
    ensures after { x < result.1 }
{
    let (demand, rise) = reserve.demand_and_rise(now, x);
    (demand, rise.unwrap_or(end + 1))
}
