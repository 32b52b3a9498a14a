//! Sporadic arrivals: no legal pattern needs more than the densest one (Mok 1983).

ghost use Rattle.slot_facts.specs.Patterns.{PatternsNeedNoMore, TheDensestPatternNeedsAll};

/// What the jobs of any legal pattern of arrivals need by a time, from any start on, is at most the
/// sporadic demand.
pub fn patterns_need_no_more()
    ensures { PatternsNeedNoMore }
{}

/// The arrivals that come as soon as they may are legal and need all of the sporadic demand, so
/// that it is no larger than it has to be.
pub fn the_densest_pattern_needs_all()
    ensures { TheDensestPatternNeedsAll }
{}
