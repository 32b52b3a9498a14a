//! Laws of the guaranteed supply. Each is the contract of a function with no parameters and an
//! empty body.

ghost use Rattle.supply_laws.specs.Laws.{SupplyIsGuaranteed, SupplyIsExact, TheseWindowsAreAll, SupplyIsTheMost, SupplyIsABudget, SpareIsGuaranteed, TheseTimesAreAll};

/// What every window leaves free is a budget for requests: at every legal history an offer is
/// accepted where it fits beside the slots that firm jobs have left and those that requested jobs
/// ran since the processor last was idle.
pub fn supply_is_guaranteed()
    ensures { SupplyIsGuaranteed }
{}

/// No more is sure: an offer of more than a window leaves free is refused after the slots up to the
/// start of the window in which nothing arrives.
pub fn supply_is_exact()
    ensures { SupplyIsExact }
{}

/// Windows that start in the first cycle and end in the first three are all that count (a cycle
/// later at most a cycle more is needed; Leung and Merrill 1980).
pub fn these_windows_are_all()
    ensures { TheseWindowsAreAll }
{}

/// So the supply is the most that is always accepted where no firm job remains and none of what was
/// requested ran since the processor last was idle.
pub fn supply_is_the_most()
    ensures { SupplyIsTheMost }
{}

/// And it is a budget: at every legal history an offer is accepted where it, the slots that firm
/// jobs have left and those that requested jobs ran since the processor last was idle are no more
/// than the supply within its time.
pub fn supply_is_a_budget()
    ensures { SupplyIsABudget }
{}

/// What is spare is accepted whatever soft work ran.
pub fn spare_is_guaranteed()
    ensures { SpareIsGuaranteed }
{}

/// The times of one cycle are all that count for what is spare.
pub fn these_times_are_all()
    ensures { TheseTimesAreAll }
{}
