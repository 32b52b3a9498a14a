//! Alarms in physical time, each handed over at the next boundary of slots.

ghost use Rattle.clock_laws.specs.Handed.{AlarmsAreInTime, AlarmsAreTaken, AlarmsStayLegal};

/// Alarms that keep their separations in nanoseconds are, handed over, a legal pattern of arrivals
/// of the set in slots.
pub fn alarms_stay_legal()
    ensures { AlarmsStayLegal }
{}

/// An alarm whose job ends by its deadline in slots, counted from where it is handed over, ends by
/// its physical deadline.
pub fn alarms_are_in_time()
    ensures { AlarmsAreInTime }
{}

/// At run time an alarm that keeps its separation is taken, and never told to come later.
pub fn alarms_are_taken()
    ensures { AlarmsAreTaken }
{}
