//! Laws on waves: what a viewer of those of a trace sees.

ghost use Rattle.view_waves.specs.Laws.{CapacitiesAreShown, FirstCapacityIsShown, IdleSlotsAreOn, IdleSlotsHaveOneWire, OneWireIsOn, RunsAreOn, StepsAreSlots, TurnsFollow, WiresAreOnWhereTheyRun};

/// In each slot of a trace the last turn is to the wire that the line of the slot tells: that of
/// the row of its job, or the idle one.
pub fn turns_are_to_what_runs()
    ensures runs { RunsAreOn }
    ensures idle { IdleSlotsAreOn }
{}

/// A wire is on in exactly those slots in which a job of its row runs, and the idle one in the
/// idle slots.
pub fn wires_are_on_where_they_run()
    ensures runs { WiresAreOnWhereTheyRun }
    ensures idle { IdleSlotsHaveOneWire }
{}

/// One wire is on at a time: each turn is from that wire to another, and the steps stand in the
/// order of time.
pub fn one_wire_is_on()
    ensures wires { OneWireIsOn }
    ensures turns { TurnsFollow }
    ensures times { StepsAreSlots }
{}

/// The capacity that is shown in a slot is that after the slot before.
pub fn capacities_are_shown()
    ensures first { FirstCapacityIsShown }
    ensures later { CapacitiesAreShown }
{}
