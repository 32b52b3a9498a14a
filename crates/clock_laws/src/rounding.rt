//! Rounding to slots is exact.

ghost use Rattle.clock_laws.specs.Rounding.{SeparationsRoundDown, WindowsRoundInwards, WorstCasesRoundUp};

/// So many slots of one worth hold a worst case exactly where they are no fewer than it rounded up.
pub fn worst_cases_round_up()
    ensures { WorstCasesRoundUp }
{}

/// A slot lies inside a physical window exactly where it lies between the start rounded up and the
/// end rounded down.
pub fn windows_round_inwards()
    ensures { WindowsRoundInwards }
{}

/// Times that are a separation apart are handed over this many slots apart, whenever they come,
/// exactly where these are no more than the separation rounded down.
pub fn separations_round_down()
    ensures { SeparationsRoundDown }
{}
