//! What every legal history keeps, and what one slot, one arrival and one cycle change.

ghost use Rattle.slot_facts.specs.Bounds.{EveryLegalHistoryIsKept, EveryExecutiveIsKept, OneSlotKeepsTheBounds, ATakenArrivalKeepsTheBounds, OneCycleLaterHasNoLessRoom, KeptScenesAreSafe, NoSoftJobWaitsThroughAnIdleSlot};

/// Every legal history of a feasible set keeps its bounds: what is needed by each later time fits
/// the slots up to it, every remaining job is due later, the successors of a remaining job wait,
/// and the soft jobs stand in their order. It holds with the jobs of any number of cycles that
/// reaches the horizon. Slot shifting calls it spare capacities that never run out (Fohler 1995;
/// Isovic and Fohler 2000).
pub fn every_legal_history_is_kept()
    ensures { EveryLegalHistoryIsKept }
{}

/// An executive keeps the same where some legal history exists that it stands for: an executive
/// that does what the model does need not carry the bounds from event to event.
pub fn every_executive_is_kept()
    ensures { EveryExecutiveIsKept }
{}

/// A scene that keeps its bounds is safe: no deadline is at risk, nor any of the jobs to come,
/// since those are jobs of the set with no more than their slots left, and the cycle test has
/// passed each window (Baruah, Rosier and Howell 1990).
pub fn kept_scenes_are_safe()
    ensures { KeptScenesAreSafe }
{}

/// One slot of earliest deadline first keeps the bounds up to a fixed end, and so does an idle slot
/// where no job is ready: the step in which earliest deadline first is optimal (Liu and Layland
/// 1973; Dertouzos 1974), told in terms of processor demand (Baruah, Rosier and Howell 1990).
pub fn one_slot_keeps_the_bounds()
    ensures { OneSlotKeepsTheBounds }
{}

/// A sporadic arrival at or after its next legal time keeps the bounds: its slots were counted
/// beforehand, in the densest arrivals (Mok 1983).
pub fn a_taken_arrival_keeps_the_bounds()
    ensures { ATakenArrivalKeepsTheBounds }
{}

/// One cycle later there is no less room: where jobs are planned or have come, from a cycle after
/// now on, between two times a cycle apart, at most a cycle more is needed. So what fits up to the
/// horizon fits for ever, as a periodic schedule that fits one cycle repeats (Leung and Merrill
/// 1980).
pub fn one_cycle_later_has_no_less_room()
    ensures { OneCycleLaterHasNoLessRoom }
{}

/// A slot is idle only where no soft job waits: what is left of the processor goes to soft work
/// (Isovic and Fohler 2000).
pub fn no_soft_job_waits_through_an_idle_slot()
    ensures { NoSoftJobWaitsThroughAnIdleSlot }
{}
