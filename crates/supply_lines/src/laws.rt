//! The laws of the lines of a supply. Each is the contract of a function with no parameters.

ghost use Rattle.supply_lines.specs.Lines.{LineTellsWithin, LinesTellSupply};

use supply_find::laws::{numbers_are_read_between, supply_is_found, supply_rises_slowly};
use supply_laws::laws::supply_is_the_most;

/// The lines of a set tell its supply within every number of slots up to the cycle, which is the
/// most that is always accepted.
pub fn lines_tell_supply()
    ensures { LinesTellSupply }
{
    supply_is_found();
    supply_rises_slowly();
    numbers_are_read_between();
    supply_is_the_most();
}

/// The line within a number of slots up to the cycle tells the supply, which is the most that is
/// always accepted.
pub fn line_tells_within()
    ensures { LineTellsWithin }
{
    supply_is_found();
    supply_is_the_most();
}
