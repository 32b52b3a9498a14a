//! What the outcome of the cycle test means, over slot schedules, whatever the scheduler.

ghost use Rattle.slot_facts.specs.Verdicts.{TheVerdictMeansSchedules, FeasibleSetsCanBeServedForEver, TheDensestPatternShowsTheFailure};

/// A set passes the cycle test exactly where three cycles of it have a slot schedule, whatever
/// legal arrivals come: processor demand is sufficient and necessary (Baruah, Rosier and Howell
/// 1990).
pub fn the_verdict_means_schedules()
    ensures { TheVerdictMeansSchedules }
{}

/// A set that passes has a slot schedule of any number of cycles, so the windows of one cycle are
/// enough to look at (Leung and Merrill 1980).
pub fn feasible_sets_can_be_served_for_ever()
    ensures { FeasibleSetsCanBeServedForEver }
{}

/// Where a set fails, the arrivals that come as soon as they may from the failing window's start
/// leave no slot schedule of three cycles.
pub fn the_densest_pattern_shows_the_failure()
    ensures { TheDensestPatternShowsTheFailure }
{}
