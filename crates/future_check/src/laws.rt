//! What is shown against an offer, what it needs, and what it refuses.
//!
//! Each law is the contract of a public function with no parameters and an empty body.

ghost use Rattle.future_check.specs.Laws.{AllIsShown, ShownSlotsAreNeeded, ShownFuturesRefuse, RefusalsAddUp};

/// All remaining jobs and all of the densest arrivals that are due by a time are shown, and no
/// others.
pub fn all_is_shown()
    ensures { AllIsShown }
{}

/// The slots of what is shown add up to what is needed.
pub fn shown_slots_are_needed()
    ensures { ShownSlotsAreNeeded }
{}

/// Where with the offer they are more than there are slots, the shown arrivals are legal and leave
/// no slot schedule.
pub fn shown_futures_refuse()
    ensures { ShownFuturesRefuse }
{}

/// The numbers of a refusal for want of room are those of what is shown and of the offer.
pub fn refusals_add_up()
    ensures { RefusalsAddUp }
{}
