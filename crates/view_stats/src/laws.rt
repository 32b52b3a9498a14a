//! Laws on figures.

ghost use Rattle.view_stats.specs.Laws.{MostDoNotExceed, OrderKeepsNumbers, OrderRises, SumsAreExact};

/// Numbers in ascending order are the same numbers, and at least 95 of 100 do not exceed the one of
/// the nearest rank.
pub fn ranks_are_nearest()
    ensures numbers { OrderKeepsNumbers }
    ensures rise { OrderRises }
    ensures most { MostDoNotExceed }
{}

/// A sum that a counter holds is exact.
pub fn sums_are_exact()
    ensures { SumsAreExact }
{}
