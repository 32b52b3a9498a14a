//! The search for the first time that is too short.

ghost use Rattle.std.specs.Prelude.{◌≡◌, ℕ, [], None, Some, ◌+◌, ◌-◌, ◌*◌, ◌≤◌, ◌<◌, ◌^◌, ◌↔◌, pos, ◌+ℤ◌, ◌≤ℤ◌, ◌<ℤ◌, IfOk, IfSome, IsTrue, MatchOption, OnOk, find, length, max, min, slice_get};
ghost use Rattle.std.specs.List.{range_with_len};
ghost use Rattle.std.specs.Option.{option_map};
ghost use Rattle.std.specs.Result.{result_err};
ghost use Rattle.slot_core.specs.declared.TheConstants.{HORIZON_LIMIT, OFFER_LIMIT};
ghost use Rattle.slot_core.specs.declared.jobs.Span.{Span};
ghost use Rattle.slot_core.specs.Feasibility.Sporadics.{sporadic_demand};
ghost use Rattle.spare_capacity.specs.Recurrence.{last_end};
ghost use Rattle.interval_row.specs.declared.marks.TheConstants.{PAGE};
ghost use Rattle.interval_row.specs.Changes.{ends_before};
ghost use Rattle.interval_row.specs.Tables.{IsFront, IsTable};
ghost use Rattle.sporadic_reserve.specs.Reserves.{burst_limit, demand_limit, growth_limit, IsGrowth, Reserved};
ghost use Rattle.guarantee.specs.Offers.{evidence_at, first_short, need_until};
ghost use Rattle.guarantee.specs.Places.{IsPlace};
ghost use Rattle.guarantee.specs.Stretches.{exceeds, evidence_of, IsLevelFrom, LeavesAll, LeavesAllBetween, LeavesBetween, LeavesFrom, MostBetween, MostFrom, NeedsNone};

use crate::walk::{SpanPlace, after, passed, past, place_of};
use interval_row::{Front, PAGE, SpareTable};
use slot_core::{Evidence, Span, Steps};
use sporadic_reserve::{GROWTH_REACH, Growth, Reserve};
use std::sync::ledger::Ledger;

/// So many rises of the sporadic demand in a span are tried one by one before its later times are
/// looked at.
const FEW_RISES: u64 = 2;

/// A look from the end of a span goes on while it passes at least one of so many parts of what is
/// left of it.
const FEW_PARTS: u64 = 16;

/// What a search asks: whether there is room for `slots` slots more, counted from `now` on, where
/// sporadic tasks arrive from `arrivals` on and their demand grows so.
#[derive(Clone, Copy, PartialEq, Eq)]
struct Ask {
    now: u64,
    arrivals: u64,
    slots: u64,
    growth: Growth,
}

/// The sporadic demand from a time up to the next time at which it may be more.
#[derive(Clone, Copy, PartialEq, Eq)]
struct Level {
    demand: u64,
    until: u64,
}

/// What a search keeps from one time to the next: the level, and the least that is left beside the
/// slots asked for at the times so far by which something is needed.
#[derive(Clone, Copy, PartialEq, Eq)]
struct Tried {
    level: Level,
    left: u64,
}

/// Err tells the first time from `from` to the last end by which more is needed than there are
/// slots, where `slots` slots more are due and sporadic tasks arrive from `arrivals` on. Each span
/// is read once at most.
///
/// Where there is no such time, Ok tells the greatest number of slots that are left beside all that
/// at each time from `from` on by which something is needed; but no greater one than `told`, nor
/// than the slots up to the last end without `slots`.
#[inline(always)]
pub(crate) fn short_or_left<T: SpareTable, L: Ledger>(
    table: &T,
    reserve: &Reserve,
    arrivals: u64,
    slots: u32,
    from: u64,
    told: u64,
    steps: &mut Steps<L>,
) -> Result<u64, Evidence>
    requires after { T.time table.now < from }
    requires within { from ≤ last_end (T.time table.now) (T.spans table.now) }
    requires arrivals { arrivals < HORIZON_LIMIT }
    requires near { last_end (T.time table.now) (T.spans table.now) < HORIZON_LIMIT }
    requires some { 1 ≤ slots }
    requires few { slots ≤ OFFER_LIMIT }
    ensures first { let spans = T.spans table.now in
        let t = T.time table.now in
        result_err result ≡ option_map (evidence_at spans reserve.now t arrivals slots)
        (first_short spans reserve.now t arrivals slots from) }
    ensures left { IfOk result (λ left. LeavesFrom (T.spans table.now)
        reserve.now (T.time table.now) arrivals slots left from) }
    ensures greatest { let spans = T.spans table.now in
        let t = T.time table.now in
        IfOk result (λ left. MostFrom spans reserve.now t arrivals slots
        (min told (last_end t spans - t - slots)) left from) }
    ensures small { IfOk result (λ left. left < HORIZON_LIMIT) }
    ensures told { IfOk result (λ left. left
        ≤ min told (last_end (T.time table.now) (T.spans table.now)
        - T.time table.now - slots)) }
    ensures steps { steps.old ≤ steps.new }
    ensures reads_once { steps.new ≤ steps.old + length (T.spans table.now) }
    ensures none_soon { told ≡ 0 → reserve.now.sporadics ≡ [] → OnOk result (steps.new
        ≤ steps.old + ends_before from (T.spans table.now) + 1) }
    ensures places { ends_before from (T.spans table.now) + 1 + T.time table.now ≤ from }
{
    let ask = Ask {
        now: table.time(),
        arrivals,
        slots: u64::from(slots),
        growth: reserve.growth(),
    };
    let place = place_of(table, from, steps);
    short_or_left_on(table, reserve, ask, from, told, place, steps)
}

/// The same, from the place of the first span that ends at `from` or later.
///
/// Between two ends and without a rise of the sporadic demand nothing more is due, so only such
/// times are tried. Pages whose times leave as much as those before are passed, and so are such
/// times in a span of many rises, which is looked at from its end. The search ends
/// at a span whose capacity, with the slack before it, covers what may come up to the last end and
/// the least that is left so far: no later time leaves less.
/// Without sporadic tasks a span that does not cover what is due tells that a later time is short.
#[inline(always)]
fn short_or_left_on<T: SpareTable, L: Ledger>(
    table: &T,
    reserve: &Reserve,
    ask: Ask,
    from: u64,
    told: u64,
    place: SpanPlace,
    steps: &mut Steps<L>,
) -> Result<u64, Evidence>
    requires table { IsTable (T.time table.now) (T.spans table.now) (T.limit table.now) }
    requires place { IsPlace (T.spans table.now) place }
    requires early { place.span.start < from }
    requires reached { from ≤ place.span.end }
    requires now { ask.now ≡ T.time table.now }
    requires arrivals { ask.arrivals < HORIZON_LIMIT }
    requires growth { IsGrowth reserve.now ask.growth }
    requires near { last_end (T.time table.now) (T.spans table.now) < HORIZON_LIMIT }
    requires some { 1 ≤ ask.slots }
    requires few { ask.slots ≤ OFFER_LIMIT }
    ensures first { let spans = T.spans table.now in
        let t = T.time table.now in
        result_err result ≡ option_map (evidence_at spans reserve.now t ask.arrivals ask.slots)
        (first_short spans reserve.now t ask.arrivals ask.slots from) }
    ensures left { IfOk result (λ left. LeavesFrom (T.spans table.now)
        reserve.now (T.time table.now) ask.arrivals ask.slots left from) }
    ensures greatest { let spans = T.spans table.now in
        let t = T.time table.now in
        IfOk result (λ left. MostFrom spans reserve.now t ask.arrivals ask.slots
        (min told (last_end t spans - t - ask.slots)) left from) }
    ensures small { IfOk result (λ left. left < HORIZON_LIMIT) }
    ensures told { IfOk result (λ left. left
        ≤ min told (last_end (T.time table.now) (T.spans table.now)
        - T.time table.now - ask.slots)) }
    ensures steps { steps.old ≤ steps.new }
    ensures reads_once { steps.new + place.index + 1 ≤ steps.old + length (T.spans table.now) }
    ensures none_soon { told ≡ 0 → reserve.now.sporadics ≡ []
        → OnOk result (steps.new ≡ steps.old) }
{
    let last = table.last_end();
    let most = reserve.demand(ask.arrivals, last);
    let mut tried = untried(ask, last, told);
    let mut place = place;
    loop {
        let first = from.max(place.span.start);
        if let Some(evidence) = short_between(
            reserve,
            ask,
            place.due,
            first,
            place.span.end,
            &mut tried,
        ) {
            return Err(evidence);
        }
        let due = ask.slots + place.due;
        if covers(place.span, ask.now, due + most + tried.left) {
            return Ok(tried.left);
        }
        if most == 0 && !covers(place.span, ask.now, due) {
            return Err(first_short_start(table, ask, place, steps));
        }
        let demand = likely_demand(ask, tried.level, place.span.end);
        let Some(next) = onward(table, reserve, ask, place, demand, tried.left, steps) else {
            let all = place.due + place.span.work;
            return left_between(reserve, ask, all, from.max(last), last + 1, tried);
        };
        place = next;
    }
}

/// The place from which a search goes on, where `left` slots are left at the times so far: the next
/// span, or a later one. None exactly after the last.
///
/// Where the span crosses the border of a page, those after it are passed whose times leave `left`
/// slots too. Only steps depend on `demand`, which is about the sporadic demand at its end.
#[inline(always)]
fn onward<T: SpareTable, L: Ledger>(
    table: &T,
    reserve: &Reserve,
    ask: Ask,
    place: SpanPlace,
    demand: u64,
    left: u64,
    steps: &mut Steps<L>,
) -> Option<SpanPlace>
    requires table { IsTable (T.time table.now) (T.spans table.now) (T.limit table.now) }
    requires place { IsPlace (T.spans table.now) place }
    requires now { ask.now ≡ T.time table.now }
    requires arrivals { ask.arrivals < HORIZON_LIMIT }
    requires near { last_end (T.time table.now) (T.spans table.now) < HORIZON_LIMIT }
    requires some { 1 ≤ ask.slots }
    requires few { ask.slots ≤ OFFER_LIMIT }
    requires small { left < HORIZON_LIMIT }
    requires demand { demand ≤ 2 * demand_limit }
    ensures last { MatchOption result
        (place.index + 1 ≡ length (T.spans table.now))
        (λ later. place.index < later.index) }
    ensures place { IfSome result (λ later. IsPlace (T.spans table.now) later) }
    ensures left { IfSome result (λ later. LeavesAll
        (need_until (T.spans table.now) reserve.now ask.arrivals)
        (T.time table.now)
        ask.slots
        left
        place.span.end
        later.span.start) }
    ensures steps { MatchOption result
        (steps.new ≡ steps.old)
        (λ later. steps.new ≡ steps.old + 1) }
{
    if place.span.start / PAGE == place.span.end / PAGE || has_long_spans(table, ask.now) {
        return after(table, place, steps);
    }
    let front = passed_at_once(table, reserve, ask, place, demand, left);
    past(table, place, front, steps)
}

/// Whether spans are a page long or longer on average: there `skip` of our tables passes none.
#[inline(always)]
fn has_long_spans<T: SpareTable>(table: &T, now: u64) -> bool
    requires after { now ≤ last_end (T.time table.now) (T.spans table.now) }
    ensures { IsTrue result ↔ (length (T.spans table.now) * PAGE
        ≤ last_end (T.time table.now) (T.spans table.now) - now) }
{
    u64::from(table.count()) * PAGE <= table.last_end() - now
}

/// The spans before the first that is not passed. Those are passed whose times leave `left` slots,
/// even beside the sporadic demand up to `far_end`, or, where that passes none, up to the end of
/// the page in which the span ends.
#[inline(always)]
fn passed_at_once<T: SpareTable>(
    table: &T,
    reserve: &Reserve,
    ask: Ask,
    place: SpanPlace,
    demand: u64,
    left: u64,
) -> Front
    requires table { IsTable (T.time table.now) (T.spans table.now) (T.limit table.now) }
    requires place { IsPlace (T.spans table.now) place }
    requires now { ask.now ≡ T.time table.now }
    requires arrivals { ask.arrivals < HORIZON_LIMIT }
    requires near { last_end (T.time table.now) (T.spans table.now) < HORIZON_LIMIT }
    requires some { 1 ≤ ask.slots }
    requires few { ask.slots ≤ OFFER_LIMIT }
    requires small { left < HORIZON_LIMIT }
    requires demand { demand ≤ 2 * demand_limit }
    ensures front { IsFront (T.spans table.now) result }
    ensures later { place.index ≤ result.count }
    ensures within { result.count < length (T.spans table.now) }
    ensures left { (later : Span) → slice_get (T.spans table.now) result.count ≡ Some later
        → LeavesAll
        (need_until (T.spans table.now) reserve.now ask.arrivals)
        (T.time table.now)
        ask.slots
        left
        place.span.end
        later.start }
{
    let far = far_end(ask, place, demand, left);
    let front = passed_before(table, reserve, ask, place, left, far);
    if place.index < front.count {
        return front;
    }
    let near = (place.span.end / PAGE + 1) * PAGE;
    passed_before(table, reserve, ask, place, left, near)
}

/// A time up to which spans may be passed at once: a page after the end of the span, and a part of
/// the slots so far that is the smaller, the fewer are left beside all that is needed by then. In
/// that part the sporadic demand, at its rate so far, takes at most half of what is left.
#[inline(always)]
fn far_end(ask: Ask, place: SpanPlace, demand: u64, left: u64) -> u64
    requires after { ask.now ≤ place.span.end }
    requires near { place.span.end < HORIZON_LIMIT }
    requires few { ask.slots ≤ OFFER_LIMIT }
    requires due { place.due ≤ 2 ^ 60 }
    requires work { place.span.work ≤ 2 ^ 40 }
    requires small { left < HORIZON_LIMIT }
    requires demand { demand ≤ 2 * demand_limit }
    ensures after { place.span.end + PAGE ≤ result }
{
    let so_far = place.span.end - ask.now;
    let need = ask.slots + place.due + place.span.work + demand + left;
    let spare = so_far.saturating_sub(need);
    place.span.end + PAGE + so_far / (2 * demand / (spare + 1) + 1)
}

/// The spans before the first that is not passed. Those are passed whose times are before `far` and
/// leave `left` slots, even beside the sporadic demand up to then.
#[inline(always)]
fn passed_before<T: SpareTable>(
    table: &T,
    reserve: &Reserve,
    ask: Ask,
    place: SpanPlace,
    left: u64,
    far: u64,
) -> Front
    requires table { IsTable (T.time table.now) (T.spans table.now) (T.limit table.now) }
    requires place { IsPlace (T.spans table.now) place }
    requires now { ask.now ≡ T.time table.now }
    requires arrivals { ask.arrivals < HORIZON_LIMIT }
    requires near { last_end (T.time table.now) (T.spans table.now) < HORIZON_LIMIT }
    requires some { 1 ≤ ask.slots }
    requires few { ask.slots ≤ OFFER_LIMIT }
    requires small { left < HORIZON_LIMIT }
    ensures front { IsFront (T.spans table.now) result }
    ensures later { place.index ≤ result.count }
    ensures within { result.count < length (T.spans table.now) }
    ensures left { (later : Span) → slice_get (T.spans table.now) result.count ≡ Some later
        → LeavesAll
        (need_until (T.spans table.now) reserve.now ask.arrivals)
        (T.time table.now)
        ask.slots
        left
        place.span.end
        later.start }
{
    let until = table.last_end().min(far);
    let most = reserve.demand(ask.arrivals, until);
    passed(table, place, until, ask.now + ask.slots + left + most)
}

/// About how many slots sporadic tasks need by a time: those of a level before it, and what the
/// demand grows by at the mean.
#[inline(always)]
fn likely_demand(ask: Ask, level: Level, at: u64) -> u64
    requires demand { level.demand ≤ demand_limit }
    requires scaled { ask.growth.scaled ≤ growth_limit }
    requires burst { ask.growth.burst ≤ burst_limit }
    ensures { result ≤ 2 * demand_limit }
{
    let slots = at.saturating_sub(level.until);
    if GROWTH_REACH <= slots {
        return level.demand;
    }
    level.demand + ask.growth.most_within(slots) - ask.growth.burst
}

/// The first time from the end of a span on that is too short, where no sporadic task may need
/// anything up to the last end. The span does not cover what is due, so such a time exists.
///
/// The table searches for it, with the slots counted from slot 0 on.
#[inline(never)]
fn first_short_start<T: SpareTable, L: Ledger>(
    table: &T,
    ask: Ask,
    place: SpanPlace,
    steps: &mut Steps<L>,
) -> Evidence
    requires table { IsTable (T.time table.now) (T.spans table.now) (T.limit table.now) }
    requires place { IsPlace (T.spans table.now) place }
    requires now { ask.now ≡ T.time table.now }
    requires near { last_end (T.time table.now) (T.spans table.now) < HORIZON_LIMIT }
    requires some { 1 ≤ ask.slots }
    requires few { ask.slots ≤ OFFER_LIMIT }
    requires uncovered { (pos (place.span.start - ask.now) +ℤ place.span.spare)
        <ℤ pos (ask.slots + place.due) }
    ensures first { let spans = T.spans table.now in
        let t = T.time table.now in
        (reserve : Reserved) → NeedsNone reserve ask.arrivals (last_end t spans)
        → Some result ≡ option_map (evidence_at spans reserve t ask.arrivals ask.slots)
        (first_short spans reserve t ask.arrivals ask.slots place.span.end) }
    ensures steps { steps.old ≤ steps.new }
    ensures reads_once { steps.new + place.index + 1 ≤ steps.old + length (T.spans table.now) }
{
    let front = Front {
        count: place.index,
        works: place.due,
    };
    let short = table.first_short(front, place.span, ask.now + ask.slots, steps);
    Evidence {
        until: short.until,
        need: ask.slots + short.works,
        room: short.until - ask.now,
    }
}

/// Nothing tried so far: no level, and all slots up to the last end are left, but no more than are
/// to be told.
#[inline(always)]
fn untried(ask: Ask, last: u64, told: u64) -> Tried
    requires after { ask.now ≤ last }
    ensures level { result.level.until ≡ 0 }
    ensures none { result.level.demand ≡ 0 }
    ensures left { result.left ≡ min told (last - ask.now - ask.slots) }
{
    Tried {
        level: Level {
            demand: 0,
            until: 0,
        },
        left: told.min((last - ask.now).saturating_sub(ask.slots)),
    }
}

/// Whether the slots from now to the start of a span, and its capacity, are together so many or
/// more. Then by each time from its end on so many are left beside the works of this span and of
/// those after it.
#[inline(always)]
fn covers(span: Span, now: u64, slots: u64) -> bool
    requires after { now ≤ span.start }
    requires near { span.start < HORIZON_LIMIT }
    requires few { slots < 2 ^ 62 }
    requires short { span.spare ≤ℤ pos (2 ^ 40) }
    ensures { IsTrue result ↔ (pos slots ≤ℤ (pos (span.start - now) +ℤ span.spare)) }
{
    let room = (span.start - now) as i64 + span.spare;
    slots as i64 <= room
}

/// The first time from `from` to before `until` that is too short, or what is left at all so far.
#[inline(always)]
fn left_between(
    reserve: &Reserve,
    ask: Ask,
    due: u64,
    from: u64,
    until: u64,
    tried: Tried,
) -> Result<u64, Evidence>
    requires from { ask.now ≤ from }
    requires arrivals { ask.arrivals < HORIZON_LIMIT }
    requires growth { IsGrowth reserve.now ask.growth }
    requires near { until ≤ HORIZON_LIMIT }
    requires few { ask.slots + due < 2 ^ 62 }
    requires small { tried.left < HORIZON_LIMIT }
    requires level { IsLevelFrom reserve.now ask.arrivals from tried.level }
    ensures short { result_err result
        ≡ option_map (evidence_of reserve.now ask.now ask.arrivals (ask.slots + due))
        (find (exceeds reserve.now ask.now ask.arrivals (ask.slots + due))
        (range_with_len from (until - from))) }
    ensures left { IfOk result (λ left. LeavesBetween reserve.now ask due left from until) }
    ensures greatest { IfOk result (λ left. MostBetween
        reserve.now ask due tried.left left from until) }
    ensures least { IfOk result (λ left. left ≤ tried.left) }
{
    let mut tried = tried;
    match short_between(reserve, ask, due, from, until, &mut tried) {
        Some(evidence) => Err(evidence),
        None => Ok(tried.left),
    }
}

/// The first time from `from` to before `until` by which more is needed than there are slots, where
/// `due` slots are due beside the ones asked for and the sporadic demand. The level is kept for the
/// search from `until` on, and where no time is short the least that is left.
#[inline(always)]
fn short_between(
    reserve: &Reserve,
    ask: Ask,
    due: u64,
    from: u64,
    until: u64,
    tried: &mut Tried,
) -> Option<Evidence>
    requires from { ask.now ≤ from }
    requires arrivals { ask.arrivals < HORIZON_LIMIT }
    requires growth { IsGrowth reserve.now ask.growth }
    requires near { until ≤ HORIZON_LIMIT }
    requires few { ask.slots + due < 2 ^ 62 }
    requires small { tried.old.left < HORIZON_LIMIT }
    requires level { IsLevelFrom reserve.now ask.arrivals from tried.old.level }
    ensures short { result
        ≡ option_map (evidence_of reserve.now ask.now ask.arrivals (ask.slots + due))
        (find (exceeds reserve.now ask.now ask.arrivals (ask.slots + due))
        (range_with_len from (until - from))) }
    ensures level { IsLevelFrom reserve.now ask.arrivals (max from until) tried.new.level }
    ensures left { result ≡ None → LeavesBetween reserve.now ask due tried.new.left from until }
    ensures greatest { result ≡ None → MostBetween
        reserve.now ask due tried.old.left tried.new.left from until }
    ensures least { tried.new.left ≤ tried.old.left }
{
    if until <= from.max(tried.level.until) {
        return short_before(ask, due, from, until, tried);
    }
    short_by_levels(reserve, ask, due, from, until, tried)
}

/// The same, where the level ends before `until`. What is due by the last time leaves as much at each
/// time before it that has room for as much, so only the times before these are tried.
#[inline(always)]
fn short_by_levels(
    reserve: &Reserve,
    ask: Ask,
    due: u64,
    from: u64,
    until: u64,
    tried: &mut Tried,
) -> Option<Evidence>
    requires from { ask.now ≤ from }
    requires some { from < until }
    requires ends { tried.old.level.until < until }
    requires arrivals { ask.arrivals < HORIZON_LIMIT }
    requires growth { IsGrowth reserve.now ask.growth }
    requires near { until ≤ HORIZON_LIMIT }
    requires few { ask.slots + due < 2 ^ 62 }
    requires small { tried.old.left < HORIZON_LIMIT }
    requires level { IsLevelFrom reserve.now ask.arrivals from tried.old.level }
    ensures short { result
        ≡ option_map (evidence_of reserve.now ask.now ask.arrivals (ask.slots + due))
        (find (exceeds reserve.now ask.now ask.arrivals (ask.slots + due))
        (range_with_len from (until - from))) }
    ensures level { IsLevelFrom reserve.now ask.arrivals (max from until) tried.new.level }
    ensures left { result ≡ None → LeavesBetween reserve.now ask due tried.new.left from until }
    ensures greatest { result ≡ None → MostBetween
        reserve.now ask due tried.old.left tried.new.left from until }
    ensures least { tried.new.left ≤ tried.old.left }
{
    let at = from.max(tried.level.until);
    if let Some(evidence) = short_before(ask, due, from, at, tried) {
        return Some(evidence);
    }
    if leaves_by_growth(ask, due, at, until, *tried) {
        return None;
    }
    let last = risen(reserve, ask.arrivals, until - 1);
    let end = until.min(ask.now + ask.slots + due + tried.left + last.demand);
    let short = short_by_rises(reserve, ask, due, at, end, tried);
    tried.level = last;
    short
}

/// Whether the level, and the most that the demand may rise after it, tell that the times from `at`
/// to before `until` leave as much as is left so far.
#[inline(always)]
fn leaves_by_growth(ask: Ask, due: u64, at: u64, until: u64, tried: Tried) -> bool
    requires now { ask.now ≤ at }
    requires before { at ≤ until }
    requires ends { tried.level.until ≤ until }
    requires near { until ≤ HORIZON_LIMIT }
    requires few { ask.slots + due < 2 ^ 62 }
    requires small { tried.left < HORIZON_LIMIT }
    requires demand { tried.level.demand ≤ demand_limit }
    requires scaled { ask.growth.scaled ≤ growth_limit }
    requires burst { ask.growth.burst ≤ burst_limit }
    ensures leaves { (reserve : Reserved) → IsTrue result → IsGrowth reserve ask.growth
        → IsLevelFrom reserve ask.arrivals at tried.level
        → LeavesAllBetween reserve ask due tried.left at until }
{
    let level = tried.level;
    let slots = until - level.until;
    if level.until == 0 || GROWTH_REACH <= slots {
        return false;
    }
    let most = level.demand + ask.growth.most_within(slots);
    ask.now + ask.slots + due + tried.left + most <= at
}

/// The same, where the level holds before `until`.
#[inline(always)]
fn short_before(ask: Ask, due: u64, from: u64, until: u64, tried: &mut Tried) -> Option<Evidence>
    requires from { ask.now ≤ from }
    requires few { ask.slots + due < 2 ^ 62 }
    requires small { tried.old.level.demand ≤ demand_limit }
    requires holds { until ≤ max from tried.old.level.until }
    ensures short { (reserve : Reserved) → IsLevelFrom reserve ask.arrivals from tried.old.level
        → result ≡ option_map (evidence_of reserve ask.now ask.arrivals (ask.slots + due))
        (find (exceeds reserve ask.now ask.arrivals (ask.slots + due))
        (range_with_len from (until - from))) }
    ensures level { tried.new.level ≡ tried.old.level }
    ensures left { (reserve : Reserved) → IsLevelFrom reserve ask.arrivals from tried.old.level
        → result ≡ None → LeavesBetween reserve ask due tried.new.left from until }
    ensures greatest { (reserve : Reserved)
        → IsLevelFrom reserve ask.arrivals from tried.old.level → result ≡ None
        → MostBetween reserve ask due tried.old.left tried.new.left from until }
    ensures least { tried.new.left ≤ tried.old.left }
{
    if until <= from {
        return None;
    }
    short_at(ask, due, from, tried)
}

/// The same, tried at `from` and at each rise of the sporadic demand. After some rises the later
/// times are looked at from the last one on, and those that leave as much are not tried. The level
/// is that of the last time that was tried.
#[inline(always)]
fn short_by_rises(
    reserve: &Reserve,
    ask: Ask,
    due: u64,
    from: u64,
    until: u64,
    tried: &mut Tried,
) -> Option<Evidence>
    requires from { ask.now ≤ from }
    requires arrivals { ask.arrivals < HORIZON_LIMIT }
    requires near { until ≤ HORIZON_LIMIT }
    requires few { ask.slots + due < 2 ^ 62 }
    requires small { tried.old.left < HORIZON_LIMIT }
    requires level { IsLevelFrom reserve.now ask.arrivals from tried.old.level }
    ensures short { result
        ≡ option_map (evidence_of reserve.now ask.now ask.arrivals (ask.slots + due))
        (find (exceeds reserve.now ask.now ask.arrivals (ask.slots + due))
        (range_with_len from (until - from))) }
    ensures left { result ≡ None → LeavesBetween reserve.now ask due tried.new.left from until }
    ensures greatest { result ≡ None → MostBetween
        reserve.now ask due tried.old.left tried.new.left from until }
    ensures least { tried.new.left ≤ tried.old.left }
{
    let mut at = from;
    let mut end = until;
    let mut rises = 0;
    while at < end {
        tried.level = level_at(tried.level, reserve, ask.arrivals, at);
        if let Some(evidence) = short_at(ask, due, at, tried) {
            return Some(evidence);
        }
        at = tried.level.until;
        rises += 1;
        end = end_after(reserve, ask, due, at, end, tried.left, rises);
    }
    None
}

/// The end of the times that are still to be tried after so many rises. Those from there on to
/// `end` leave `left` slots. They are looked at each time that twice as many rises are tried, so
/// that the looks are few beside them.
#[inline(always)]
fn end_after(reserve: &Reserve, ask: Ask, due: u64, at: u64, end: u64, left: u64, rises: u64) -> u64
    requires now { ask.now ≤ at }
    requires arrivals { ask.arrivals < HORIZON_LIMIT }
    requires near { end ≤ HORIZON_LIMIT }
    requires few { ask.slots + due < 2 ^ 62 }
    requires small { left < HORIZON_LIMIT }
    ensures end { result ≤ end }
    ensures left { LeavesAllBetween reserve.now ask due left result end }
{
    if at < end && FEW_RISES <= rises && rises.is_power_of_two() {
        left_from(reserve, ask, due, at, end, left)
    } else {
        end
    }
}

/// A time from which on to `end` so many slots are left, found from the end on: what is due by the
/// last time leaves so many at each time before it that has room for as much, so these are passed
/// at once. It ends at `at`, where the last time leaves fewer, and where a look passes few times.
#[inline(never)]
fn left_from(reserve: &Reserve, ask: Ask, due: u64, at: u64, end: u64, left: u64) -> u64
    requires now { ask.now ≤ at }
    requires some { at < end }
    requires arrivals { ask.arrivals < HORIZON_LIMIT }
    requires near { end ≤ HORIZON_LIMIT }
    requires few { ask.slots + due < 2 ^ 62 }
    requires small { left < HORIZON_LIMIT }
    ensures end { result ≤ end }
    ensures left { LeavesAllBetween reserve.now ask due left result end }
{
    let needed = ask.now + ask.slots + due + left;
    let mut first = end;
    while at < first {
        let next = needed + reserve.demand(ask.arrivals, first - 1);
        if first <= next {
            break;
        }
        let passes_few = first - next < (first - at) / FEW_PARTS;
        first = next;
        if passes_few {
            break;
        }
    }
    first
}

/// Whether a time is too short at the level that holds there. Where it is not, and something is
/// needed by then, the least that is left is kept.
#[inline(always)]
fn short_at(ask: Ask, due: u64, at: u64, tried: &mut Tried) -> Option<Evidence>
    requires from { ask.now ≤ at }
    requires few { ask.slots + due < 2 ^ 62 }
    requires small { tried.old.level.demand ≤ demand_limit }
    ensures short { let need = ask.slots + due + tried.old.level.demand in
        let room = at - ask.now in
        MatchOption result (need ≤ room) (λ evidence. (room < need)
        × (evidence ≡ record { until = at; need = need; room = room })) }
    ensures level { tried.new.level ≡ tried.old.level }
    ensures left { result ≡ None → 1 ≤ due + tried.old.level.demand
        → tried.new.left + (ask.slots + due + tried.old.level.demand) ≤ at - ask.now }
    ensures greatest { result ≡ None → (more : ℕ) → more ≤ tried.old.left
        → (1 ≤ due + tried.old.level.demand
        → more + (ask.slots + due + tried.old.level.demand) ≤ at - ask.now)
        → more ≤ tried.new.left }
    ensures least { tried.new.left ≤ tried.old.left }
{
    let need = ask.slots + due + tried.level.demand;
    let room = at - ask.now;
    if room < need {
        return Some(Evidence {
            until: at,
            need,
            room,
        });
    }
    if ask.slots < need {
        tried.left = tried.left.min(room - need);
    }
    None
}

/// The level at a time: this one up to its end, and a new one from there on.
fn level_at(level: Level, reserve: &Reserve, arrivals: u64, at: u64) -> Level
    requires arrivals { arrivals < HORIZON_LIMIT }
    requires near { at < HORIZON_LIMIT }
    requires level { IsLevelFrom reserve.now arrivals at level }
    ensures level { IsLevelFrom reserve.now arrivals at result }
    ensures after { at < result.until }
{
    if at < level.until {
        level
    } else {
        risen(reserve, arrivals, at)
    }
}

/// The level that begins at a time, up to the next rise.
#[inline(never)]
fn risen(reserve: &Reserve, arrivals: u64, at: u64) -> Level
    requires arrivals { arrivals < HORIZON_LIMIT }
    requires near { at < HORIZON_LIMIT }
    ensures level { IsLevelFrom reserve.now arrivals at result }
    ensures most { (z : ℕ) → z ≤ at
        → sporadic_demand reserve.now.sporadics reserve.now.nexts arrivals z ≤ result.demand }
    ensures after { at < result.until }
{
    let (demand, rise) = reserve.demand_and_rise(arrivals, at);
    Level {
        demand,
        until: up_to(rise),
    }
}

/// A time, or the end of time where there is none.
fn up_to(time: Option<u64>) -> u64
    ensures { MatchOption time (result ≡ 2 ^ 64 - 1) (λ y. result ≡ y) }
{
    time.unwrap_or(u64::MAX)
}
