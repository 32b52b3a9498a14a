//! The law of the lines of a supply as steps. It is the contract of a function with no parameters.

ghost use Rattle.view_stairs.specs.Steps.{LinesAreStairs};

use supply_find::laws::{supply_is_found, supply_rises_slowly};

/// The lines of each set that fits are those of a staircase: so their text is read.
pub fn lines_are_stairs()
    ensures { LinesAreStairs }
{
    supply_is_found();
    supply_rises_slowly();
}
