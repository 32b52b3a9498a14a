//! Laws of what the search finds. Each is the contract of a function with no parameters and an
//! empty body.

ghost use Rattle.supply_find.specs.Found.{SupplyIsFound, SupplyRisesSlowly};
ghost use Rattle.supply_find.specs.Spare.{SpareIsFound, SpareRisesSlowly};
ghost use Rattle.supply_find.specs.Stairs.{NumbersAreReadBetween};

use supply_laws::laws::these_times_are_all;

/// What is found within each number of slots up to the cycle is the supply, and its window leaves
/// no more free.
pub fn supply_is_found()
    ensures { SupplyIsFound }
{}

/// With one slot more the supply is as much, or one slot more.
pub fn supply_rises_slowly()
    ensures { SupplyRisesSlowly }
{}

/// What is found within each number of slots up to the cycle is spare, and no more is.
pub fn spare_is_found()
    ensures { SpareIsFound }
{
    these_times_are_all();
}

/// With one slot more as much is spare, or one slot more.
pub fn spare_rises_slowly()
    ensures { SpareRisesSlowly }
{}

/// How the numbers between two lines of a table are read.
pub fn numbers_are_read_between()
    ensures { NumbersAreReadBetween }
{}
