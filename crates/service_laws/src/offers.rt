//! What can be served: every legal history for ever, and an offer exactly where there is room for
//! it.

ghost use Rattle.slot_facts.specs.Offers.{EveryLegalHistoryCanBeServed, RoomIsExact, RoomGivesASchedule, TheDensestPatternShowsIt, OffersAreAlwaysExact};

/// Whatever legal arrivals follow, what a legal history of a feasible set has taken on can be
/// served, up to any number of cycles past its horizon.
pub fn every_legal_history_can_be_served()
    ensures { EveryLegalHistoryCanBeServed }
{}

/// There is room for an offer exactly where a slot schedule of the remaining jobs, the offer and
/// whatever legal arrivals follow exists: the acceptance test of slot shifting (Fohler 1995; Isovic
/// and Fohler 2000) is exact.
pub fn room_is_exact()
    ensures { RoomIsExact }
{}

/// From any scene that keeps its bounds, whether some history leads to it or not, room for an offer
/// gives a slot schedule of the scene's jobs, the offer and whatever legal arrivals follow: the
/// acceptance test of slot shifting is safe (Fohler 1995; Isovic and Fohler 2000).
pub fn room_gives_a_schedule()
    ensures { RoomGivesASchedule }
{}

/// Where there is no room, the arrivals that come as soon as they may from now on are legal and
/// leave no slot schedule.
pub fn the_densest_pattern_shows_it()
    ensures { TheDensestPatternShowsIt }
{}

/// So each offer of a legal history that was accepted could be served whatever followed. One in
/// reach, due later and at most a cycle ahead, was accepted or refused for want of room, and
/// refused exactly where some legal pattern of arrivals left no slot schedule: the arrivals from
/// then on that come as soon as they may and are due by the time of the evidence are one. In a set
/// without sporadic tasks it was refused exactly where no slot schedule served it.
pub fn offers_are_always_exact()
    ensures { OffersAreAlwaysExact }
{}
