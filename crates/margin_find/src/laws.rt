//! What growth does to demand and to feasibility.
//!
//! Each law is the contract of a public function with no parameters and an empty body.

ghost use Rattle.margin_find.specs.Laws.{WindowsOnlyShrink, DemandOnlyRises, CycleStays, LessGrowthFits, MarginsAreUnique, EachTaskHasItsMargin};

/// With more growth, job by job, derived starts only rise, derived deadlines only fall, and
/// declared slots only rise.
pub fn windows_only_shrink()
    ensures { WindowsOnlyShrink }
{}

/// So with more growth no window needs less.
pub fn demand_only_rises()
    ensures { DemandOnlyRises }
{}

/// With any growth the cycle stays.
pub fn cycle_stays()
    ensures { CycleStays }
{}

/// A set that fits with more growth fits with less.
pub fn less_growth_fits()
    ensures { LessGrowthFits }
{}

/// A task has at most one margin.
pub fn margins_are_unique()
    ensures { MarginsAreUnique }
{}

/// Each task and sporadic task of a sound feasible set has a margin, and it is the one that its
/// line tells.
pub fn each_task_has_its_margin()
    ensures { EachTaskHasItsMargin }
{}
