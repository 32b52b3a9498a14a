//! A processor that gives each slot no more than it has to.

ghost use Rattle.clock_laws.specs.Exact.{EveryHistoryIsCarried, FewerSlotsAreTooFew, SparingIsExact};

/// Some processor carries each history, so that what the laws of service assume can be met.
pub fn every_history_is_carried()
    ensures { EveryHistoryIsCarried }
{}

/// It gives a job no less and no more than its slots are worth.
pub fn sparing_is_exact()
    ensures { SparingIsExact }
{}

/// So a job that has had fewer slots than its worst case rounded up has had less than its worst
/// case: rounding up is the best.
pub fn fewer_slots_are_too_few()
    ensures { FewerSlotsAreTooFew }
{}
