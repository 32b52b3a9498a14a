//! Whether a firm offer, or a slot of soft work, leaves room for all that is guaranteed (Fohler
//! 1995; Isovic and Fohler 2000).
//!
//! Both tests read the spans of a table, with their works and capacities, and the reserve of
//! sporadic tasks. They are handed no job. All times are in slots.
#![tactic(auto)]

ghost use Rattle.std.specs.Prelude.{◌≡◌, ℕ, Some, ◌+◌, ◌-◌, ◌≤◌, ◌<◌, ◌↔◌, [], length, pos, ◌≤ℤ◌, IsTrue};
ghost use Rattle.slot_core.specs.declared.TheConstants.{HORIZON_LIMIT, OFFER_LIMIT};
ghost use Rattle.spare_capacity.specs.Laws.{work_until};
ghost use Rattle.spare_capacity.specs.Recurrence.{first_spare, last_end};
ghost use Rattle.interval_row.specs.Changes.{ends_before};
ghost use Rattle.interval_row.specs.Tables.{IsTable};
ghost use Rattle.guarantee.specs.Offers.{answer_to, first_short, lets_run, need_until, soft_fits, IsShortAfter, LeavesFree, LeavesSlots};

mod search;
mod walk;

use interval_row::SpareTable;
use search::short_or_left;
use slot_core::{Evidence, Steps};
use sporadic_reserve::Reserve;
use std::sync::ledger::Ledger;

/// The answer to an offer.
#[derive(Clone, Copy, PartialEq, Eq)]
pub enum Answer {
    /// Up to each time there is room for it.
    Accept,
    /// Up to this time there is not.
    Refuse(Evidence),
}

/// What is known of the room for soft work in a slot.
#[derive(Clone, Copy, PartialEq, Eq)]
pub enum SoftRoom {
    /// Soft work may take the slot. Up to each later time by which something is needed, so many
    /// slots are free, this one among them, and no greater number is. Where nothing is needed, all
    /// slots up to the last end are.
    Free(u64),
    /// It may not: with one slot more too much is needed up to a time.
    Short {
        /// The first such time.
        until: u64,
        /// The works of the spans that end by then, in slots.
        due: u64,
    },
}

/// Whether `c` slots more may be due by `dl`: whether at no time from `dl` to the last end more is
/// needed than there are slots, with the densest arrivals of sporadic tasks from now on. A refusal
/// tells the first time that is too short.
///
/// It reads at most as many spans as there are. Without sporadic tasks an accepted offer reads at
/// most the spans that end before its deadline, and one more; that is at most the slots up to it.
pub fn test<T: SpareTable, L: Ledger>(
    table: &T,
    reserve: &Reserve,
    dl: u64,
    c: u32,
    steps: &mut Steps<L>,
) -> Answer
    requires first { pos 0 ≤ℤ first_spare (T.spans table.now) }
    requires after { T.time table.now < dl }
    requires within { dl ≤ last_end (T.time table.now) (T.spans table.now) }
    requires near { last_end (T.time table.now) (T.spans table.now) < HORIZON_LIMIT }
    requires some { 1 ≤ c }
    requires few { c ≤ OFFER_LIMIT }
    ensures answer { result ≡ answer_to (T.spans table.now) reserve.now (T.time table.now) c dl }
    ensures steps { steps.old ≤ steps.new }
    ensures accepts_soon { reserve.now.sporadics ≡ [] → result ≡ Answer.Accept
        → steps.new ≤ steps.old + ends_before dl (T.spans table.now) + 1 }
    ensures places { ends_before dl (T.spans table.now) + 1 + T.time table.now ≤ dl }
    ensures reads_once { steps.new ≤ steps.old + length (T.spans table.now) }
{
    match short_or_left(table, reserve, table.time(), c, dl, 0, steps) {
        Ok(_left) => Answer::Accept,
        Err(evidence) => Answer::Refuse(evidence),
    }
}

/// Whether soft work may take this slot: whether with one slot more, no later time needs more than
/// there are slots, with the densest arrivals of sporadic tasks after the slot.
///
/// Without sporadic tasks the capacity of the first span decides.
pub fn may_run_soft<T: SpareTable, L: Ledger>(
    table: &T,
    reserve: &Reserve,
    steps: &mut Steps<L>,
) -> bool
    requires after { T.time table.now < last_end (T.time table.now) (T.spans table.now) }
    requires near { last_end (T.time table.now) (T.spans table.now) < HORIZON_LIMIT }
    ensures answer { result ≡ soft_fits (T.spans table.now) reserve.now (T.time table.now) }
    ensures steps { steps.old ≤ steps.new }
    ensures one_step { reserve.now.sporadics ≡ [] → steps.new ≡ steps.old + 1 }
    ensures reads_once { steps.new ≤ steps.old + length (T.spans table.now) }
{
    if reserve.is_empty() {
        return has_spare(table, steps);
    }
    lets_run(soft_room(table, reserve, steps))
}

/// Whether the room lets soft work run.
fn lets_run(room: SoftRoom) -> bool
    ensures { result ≡ lets_run room }
{
    matches!(room, SoftRoom::Free(_))
}

/// What is known of the room for soft work in this slot, with the densest arrivals of sporadic
/// tasks after it.
pub fn soft_room<T: SpareTable, L: Ledger>(
    table: &T,
    reserve: &Reserve,
    steps: &mut Steps<L>,
) -> SoftRoom
    requires after { T.time table.now < last_end (T.time table.now) (T.spans table.now) }
    requires near { last_end (T.time table.now) (T.spans table.now) < HORIZON_LIMIT }
    ensures answer { lets_run result
        ≡ soft_fits (T.spans table.now) reserve.now (T.time table.now) }
    ensures free { (free : ℕ) → result ≡ SoftRoom.Free free
        → LeavesFree (T.spans table.now) reserve.now (T.time table.now) free }
    ensures greatest { let spans = T.spans table.now in
        let t = T.time table.now in
        (free more : ℕ) → result ≡ SoftRoom.Free free
        → 1 ≤ need_until spans reserve.now (t + 1) (last_end t spans)
        → LeavesFree spans reserve.now t more → more ≤ free }
    ensures all_free { let spans = T.spans table.now in
        let t = T.time table.now in
        (free : ℕ) → result ≡ SoftRoom.Free free
        → ((x : ℕ) → t < x → x ≤ last_end t spans → need_until spans reserve.now (t + 1) x ≡ 0)
        → free ≡ last_end t spans - t }
    ensures short { let spans = T.spans table.now in
        let t = T.time table.now in
        (until due : ℕ) → result ≡ SoftRoom.Short until due
        → (first_short spans reserve.now t (t + 1) 1 (t + 1) ≡ Some until)
        × (t < until) × (until ≤ last_end t spans) × (due ≡ work_until spans until) }
    ensures steps { steps.old ≤ steps.new }
    ensures reads_once { steps.new ≤ steps.old + length (T.spans table.now) }
{
    let next = table.time() + 1;
    match short_or_left(table, reserve, next, 1, next, u64::MAX, steps) {
        Ok(left) => SoftRoom::Free(left + 1),
        Err(evidence) => {
            let demand = reserve.demand(next, evidence.until);
            SoftRoom::Short {
                until: evidence.until,
                due: evidence.need - 1 - demand,
            }
        }
    }
}

/// Once soft work has taken so many slots from now on, how many more slots it may take one after the
/// other, with the densest arrivals of sporadic tasks after those that are taken. There may be more
/// than these, as later slots leave fewer arrivals; 0 exactly where it may not take the next one.
pub fn soft_slots<T: SpareTable, L: Ledger>(
    table: &T,
    reserve: &Reserve,
    taken: u32,
    steps: &mut Steps<L>,
) -> u64
    requires within { T.time table.now + taken < last_end (T.time table.now) (T.spans table.now) }
    requires near { last_end (T.time table.now) (T.spans table.now) < HORIZON_LIMIT }
    requires few { taken < OFFER_LIMIT }
    ensures leaves { 1 ≤ result
        → LeavesSlots
        (T.spans table.now)
        reserve.now
        (T.time table.now)
        taken
        result }
    ensures short { result ≡ 0 → IsShortAfter
        (T.spans table.now)
        reserve.now
        (T.time table.now)
        taken }
    ensures steps { steps.old ≤ steps.new }
    ensures reads_once { steps.new ≤ steps.old + length (T.spans table.now) }
{
    let from = table.time() + u64::from(taken) + 1;
    match short_or_left(table, reserve, from, taken + 1, from, u64::MAX, steps) {
        Ok(left) => left + 1,
        Err(_evidence) => 0,
    }
}

/// Whether the first span has a slot to spare.
fn has_spare<T: SpareTable, L: Ledger>(table: &T, steps: &mut Steps<L>) -> bool
    ensures answer { IsTrue result ↔ (pos 1 ≤ℤ first_spare (T.spans table.now)) }
    ensures one_step { steps.new ≡ steps.old + 1 }
    ensures table { IsTable (T.time table.now) (T.spans table.now) (T.limit table.now) }
{
    // (so that the prover knows what every table is)
    let _count = table.count();
    table.read(table.first(), steps).spare >= 1
}
