//! The search for a window with more demand than slots.

ghost use Rattle.std.specs.Prelude.{◌≡◌, ℕ, ◌+◌, ◌-◌, ◌*◌, ◌^◌, ◌<◌, ◌≤◌, ◌↔◌, [], All, IfOk, IsTrue, length, max, nat_le, sum_by, slice_index};
ghost use Rattle.std.specs.List.{prefix_len, range_with_len};
ghost use Rattle.std.specs.List.Sorted.{IsNonDecreasingBy};
ghost use Rattle.slot_core.specs.declared.TheConstants.{SLOT_LIMIT};
ghost use Rattle.slot_core.specs.declared.jobs.Job.{Job};
ghost use Rattle.slot_core.specs.Feasibility.Feasible.{first_some, first_failing_from};
ghost use Rattle.slot_core.specs.Feasibility.Sporadics.{sporadic_demand};
ghost use Rattle.demand_test.specs.EndTables.{first_end, ending_by, needed_in, failing_in, AreReadable, IsKnown, AreKnown};

use crate::ends::Ends;
use slot_core::{Job, Memory, Sporadic, Window};
use std::alloc::Global;

/// So many slots are to spare in the windows that a search for them leaves out.
const MARGIN: u64 = 16;

/// What is known of the windows from one start: those that end after `after` have at least `spare`
/// slots more than they need.
#[derive(Clone, Copy)]
struct Known {
    after: usize,
    spare: u64,
}

/// What is known of the windows from one start, by two ways: `sought` from a search for windows
/// with slots to spare, and `before` from the start before, from which no window fails.
#[derive(Clone, Copy)]
struct Bounds {
    sought: Known,
    before: Known,
}

/// The number of jobs at the front that start by `from`.
fn count_started(jobs: &[Job], from: u32) -> usize
    ensures count { result ≡ prefix_len (λ (j : Job). nat_le j.est from) jobs.now }
    ensures within { result ≤ length jobs.now }
{
    jobs.iter()
        .take_while(|job| job.est <= u64::from(from))
        .count()
}

/// The slots that the arrivals need in a window of this many slots: an empty table is one of zeros.
fn arriving_in(arrivals: &[u64], slots: usize) -> u64
    requires small { All (λ n. n < 2 ^ 63) arrivals.now }
    ensures value { result ≡ slice_index arrivals.now slots }
    ensures small { result < 2 ^ 63 }
{
    arrivals.get(slots).copied().unwrap_or(0)
}

/// The slots that the window needs.
fn need_of(ends: &Ends, arrivals: &[u64], from: usize, until: usize) -> u64
    requires until { until < length ends.now.sums.items }
    requires from { from ≤ until }
    requires readable { AreReadable ends.now }
    requires small { All (λ n. n < 2 ^ 63) arrivals.now }
    ensures value { result ≡ needed_in ends.now arrivals.now from until }
    ensures small { result < 2 ^ 63 + 2 ^ 32 }
{
    ends.due_by(until) + arriving_in(arrivals, until - from)
}

/// Whether no window from `from` that ends by `last` fails. A longer window needs no less, so where
/// the need of one fits it, each shorter one that has this many slots fits too: the next to look at
/// is the longest that has fewer.
fn fits_by(ends: &Ends, arrivals: &[u64], from: usize, last: usize) -> bool
    requires last { last < length ends.now.sums.items }
    requires readable { AreReadable ends.now }
    requires small { All (λ n. n < 2 ^ 63) arrivals.now }
    requires rising { (b c : ℕ) → from < b → b ≤ c → c ≤ last
        → needed_in ends.now arrivals.now from b ≤ needed_in ends.now arrivals.now from c }
    ensures { IsTrue result ↔ ((b : ℕ) → from < b → b ≤ last
        → needed_in ends.now arrivals.now from b ≤ b - from) }
{
    let mut until = last;
    while until > from {
        let needed = need_of(ends, arrivals, from, until);
        if needed > (until - from) as u64 {
            return false;
        }
        until = (from + needed as usize).min(until - 1);
    }
    true
}

/// The failing window of least end from `from`, or none: every end is tried.
fn first_by_ends(ends: &Ends, arrivals: &[u64], from: usize) -> Option<Window>
    requires from { from < length ends.now.sums.items }
    requires readable { AreReadable ends.now }
    requires small { All (λ n. n < 2 ^ 63) arrivals.now }
    ensures { result ≡ first_some
        (failing_in ends.now arrivals.now from)
        (range_with_len (from + 1) (length ends.now.sums.items - 1 - from)) }
{
    for until in from + 1..ends.count() {
        let slots = until - from;
        let needed = need_of(ends, arrivals, from, until);
        if (slots as u64) < needed {
            return Some(Window {
                from: from as u64,
                until: until as u64,
                demand: needed,
            });
        }
    }
    None
}

/// The failing window of least end from `from`, or none, where no window from `from` that ends
/// after `last` fails.
fn failing_from(ends: &Ends, arrivals: &[u64], from: usize, last: usize) -> Option<Window>
    requires from { from < length ends.now.sums.items }
    requires last { last < length ends.now.sums.items }
    requires readable { AreReadable ends.now }
    requires small { All (λ n. n < 2 ^ 63) arrivals.now }
    requires rising { (b c : ℕ) → from < b → b ≤ c → c ≤ last
        → needed_in ends.now arrivals.now from b ≤ needed_in ends.now arrivals.now from c }
    requires known { (b : ℕ) → last < b → from < b → b < length ends.now.sums.items
        → needed_in ends.now arrivals.now from b ≤ b - from }
    ensures { result ≡ first_some
        (failing_in ends.now arrivals.now from)
        (range_with_len (from + 1) (length ends.now.sums.items - 1 - from)) }
{
    if fits_by(ends, arrivals, from, last) {
        return None;
    }
    first_by_ends(ends, arrivals, from)
}

/// The declared slots of the jobs.
fn slots_of(jobs: &[Job]) -> u64
    requires { sum_by (λ (j : Job). j.declared) jobs.now < 2 ^ 64 }
    ensures { result ≡ sum_by (λ (j : Job). j.declared) jobs.now }
{
    jobs.iter().map(|job| u64::from(job.declared)).sum()
}

/// The latest deadline of the jobs, or 0 where there is none.
fn latest_of(jobs: &[Job]) -> usize
    ensures among { (m : ℕ) → All (λ (j : Job). j.dl ≤ m) jobs.now → result ≤ m }
    ensures latest { All (λ (j : Job). j.dl ≤ result) jobs.now }
{
    let mut latest = 0usize;
    for job in jobs {
        latest = latest.max(job.dl as usize);
    }
    latest
}

/// What is known after a search from the end on: it stops at the first window that it looks at with
/// fewer slots to spare.
fn known_beyond(ends: &Ends, arrivals: &[u64], from: usize, last: usize) -> Known
    requires last { last < length ends.now.sums.items }
    requires readable { AreReadable ends.now }
    requires small { All (λ n. n < 2 ^ 63) arrivals.now }
    requires rising { (b c : ℕ) → from < b → b ≤ c → c ≤ last
        → needed_in ends.now arrivals.now from b ≤ needed_in ends.now arrivals.now from c }
    ensures { IsKnown (needed_in ends.now arrivals.now from) from last result }
{
    let mut after = last;
    while after > from {
        let wanted = need_of(ends, arrivals, from, after) + MARGIN;
        if wanted > (after - from) as u64 {
            break;
        }
        after = (from + wanted as usize).min(after - 1);
    }
    Known {
        after,
        spare: MARGIN,
    }
}

/// What is known, with the bound of a search renewed where it has no slot to spare.
fn renewed(bounds: Bounds, ends: &Ends, arrivals: &[u64], from: usize, last: usize) -> Bounds
    requires last { last < length ends.now.sums.items }
    requires readable { AreReadable ends.now }
    requires small { All (λ n. n < 2 ^ 63) arrivals.now }
    requires rising { (b c : ℕ) → from < b → b ≤ c → c ≤ last
        → needed_in ends.now arrivals.now from b ≤ needed_in ends.now arrivals.now from c }
    requires known { AreKnown (needed_in ends.now arrivals.now from) from last bounds }
    ensures { AreKnown (needed_in ends.now arrivals.now from) from last result }
{
    if bounds.sought.spare > 0 {
        return bounds;
    }
    Bounds {
        sought: known_beyond(ends, arrivals, from, last),
        before: bounds.before,
    }
}

/// What is known of the windows from the next start, where these slots are passed that are due by
/// `latest`: a window from the next start is one slot shorter, and where it ends after `latest`, it
/// needs the slots no more.
fn next_known(known: Known, slots: u64, latest: usize, last: usize) -> Known
    requires latest { latest ≤ last }
    ensures { (need next : ℕ → ℕ) (from : ℕ)
        → IsKnown need from last known
        → ((b : ℕ) → from < b → latest < b → b ≤ last → next b + slots ≤ need b)
        → IsKnown next (from + 1) last result }
{
    let spare = known.spare.saturating_add(slots);
    if spare == 0 {
        return Known {
            after: last,
            spare: 0,
        };
    }
    Known {
        after: latest.max(known.after),
        spare: spare - 1,
    }
}

/// The least end after which the windows are known to fit.
fn least_after(bounds: &Bounds) -> usize
    ensures within { (need : ℕ → ℕ) (from last : ℕ)
        → AreKnown need from last bounds.now → result ≤ last }
    ensures known { (need : ℕ → ℕ) (from last : ℕ) → AreKnown need from last bounds.now
        → (b : ℕ) → result < b → from < b → b ≤ last → need b ≤ b - from }
{
    bounds.sought.after.min(bounds.before.after)
}

/// What is known of the windows from the next start, where no window from `from` fails and these
/// jobs start at `from`.
fn next_bounds(bounds: &Bounds, from: usize, last: usize, started: &[Job]) -> Bounds
    requires from { from < last }
    requires few { sum_by (λ (j : Job). j.declared) started.now < 2 ^ 64 }
    requires within { All (λ (j : Job). j.dl ≤ last) started.now }
    ensures { (need next : ℕ → ℕ)
        → AreKnown need from last bounds.now
        → ((b : ℕ) → from < b → b ≤ last → need b ≤ b - from)
        → ((b : ℕ) → from < b → b ≤ last
        → next b + ending_by first_end started.now b ≤ need b)
        → AreKnown next (from + 1) last result }
{
    let slots = slots_of(started);
    let latest = latest_of(started);
    let here = Known {
        after: from,
        spare: 0,
    };
    Bounds {
        sought: next_known(bounds.sought, slots, latest, last),
        before: next_known(here, slots, latest, last),
    }
}

/// Nothing: no window ends after the last end.
fn nothing_known(last: usize) -> Bounds
    ensures { (need : ℕ → ℕ) (from : ℕ) → AreKnown need from last result }
{
    let known = Known {
        after: last,
        spare: 0,
    };
    Bounds {
        sought: known,
        before: known,
    }
}

/// The failing window of least start, and then of least end, or none: every start is tried. The
/// jobs are in the order of their starts, and `arrivals` has what the sporadic tasks need.
pub(crate) fn first_failing(
    alloc: Global,
    jobs: &[Job],
    sporadics: &[Sporadic],
    arrivals: &[u64],
    cycle: u32,
) -> Result<Option<Window>, Memory>
    requires positive { 0 < cycle }
    requires cycle { cycle ≤ SLOT_LIMIT }
    requires within { All (λ (j : Job). j.dl ≤ cycle) jobs.now }
    requires few { sum_by (λ (j : Job). j.declared) jobs.now ≤ cycle }
    requires ordered { IsNonDecreasingBy (λ (j : Job). j.est) jobs.now }
    requires needed { (x : ℕ) → x ≤ 2 * cycle
        → slice_index arrivals.now x ≡ sporadic_demand sporadics.now [] 0 x }
    requires small { All (λ n. n < 2 ^ 63) arrivals.now }
    ensures { IfOk result (λ w. w ≡ first_some
        (first_failing_from jobs.now sporadics.now cycle) (range_with_len 0 cycle)) }
{
    let last = 2 * cycle as usize;
    let mut ends = Ends::of(alloc, jobs, cycle)?;
    let mut bounds = nothing_known(last);
    let mut rest = jobs;
    for from in 0..cycle {
        bounds = renewed(bounds, &ends, arrivals, from as usize, last);
        let failing = failing_from(&ends, arrivals, from as usize, least_after(&bounds));
        if failing.is_some() {
            return Ok(failing);
        }
        let (started, others) = rest.split_at(count_started(rest, from));
        ends.pass_all(started, last);
        bounds = next_bounds(&bounds, from as usize, last, started);
        rest = others;
    }
    Ok(None)
}
