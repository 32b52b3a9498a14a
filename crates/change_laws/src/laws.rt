//! Laws of a change of plan: when it can be served. Each is the contract of a function with no
//! parameters and an empty body.

ghost use Rattle.change_laws.specs.Laws.{TheCyclesAreLeast, WhatRemainsIsCarried, ChangesAreExact, RefusalsAreExact, TheDensestPatternShowsNoRoom, FitsForEver, ChangesCanBeServedForEver, SlotsLieInDerivedWindows, AScheduleFitsEachWindow, ChangesAtAreExact};

/// As many cycles of the second set are looked at as reach each carried deadline a cycle before
/// their end, and at least three: no lesser number does.
pub fn the_cycles_are_least()
    ensures { TheCyclesAreLeast }
{}

/// The firm and sporadic jobs that remain at an executive may be carried over: they have come, are
/// due later, and have a slot left.
pub fn what_remains_is_carried()
    ensures { WhatRemainsIsCarried }
{}

/// A change can be served, whatever legal arrivals of the second set follow, exactly where at no
/// time more is due than there are slots: processor demand is sufficient and necessary here too
/// (Baruah, Rosier and Howell 1990).
pub fn changes_are_exact()
    ensures { ChangesAreExact }
{}

/// A change is refused exactly where it cannot be served, by the least time that has no room.
pub fn refusals_are_exact()
    ensures { RefusalsAreExact }
{}

/// Where a change is refused, the arrivals of the second set that come as soon as they may and are
/// due by the time of the evidence leave no slot schedule.
pub fn the_densest_pattern_shows_no_room()
    ensures { TheDensestPatternShowsNoRoom }
{}

/// What fits up to the end of the cycles that are looked at fits for ever: past the carried
/// deadlines a cycle later at most a cycle more is due (Leung and Merrill 1980).
pub fn fits_for_ever()
    ensures { FitsForEver }
{}

/// So a change that can be served for the cycles that are looked at can be for any number.
pub fn changes_can_be_served_for_ever()
    ensures { ChangesCanBeServedForEver }
{}

/// In any slot schedule after a change a job's slots lie in its derived window: chains of
/// predecessors and successors need their slots (Chetto, Silly and Bouchentouf 1990).
pub fn slots_lie_in_derived_windows()
    ensures { SlotsLieInDerivedWindows }
{}

/// So in each window, whatever its start, the work that lies in it has no more slots than it.
pub fn a_schedule_fits_each_window()
    ensures { AScheduleFitsEachWindow }
{}

/// The same change with no time shifted: carried jobs keep their windows, the jobs of the second
/// set and its arrivals come from the time of the change on. It can be served exactly where it can
/// be with times counted from the change, and as much is due by each time.
pub fn changes_at_are_exact()
    ensures { ChangesAtAreExact }
{}
