//! What a run in slots gives to the jobs in physical time.

ghost use Rattle.clock_laws.specs.Service.{AlarmsAreServed, GraphsAreServed, OrderIsKept, RequestsAreServed, SlotsGiveTime};

/// In a history that serves its jobs, each guaranteed job that is due and was not ended early has
/// had all its slots, less their overheads, between the boundaries of its raw window.
pub fn slots_give_time()
    ensures { SlotsGiveTime }
{}

/// Each job of a graph that is due and was not ended early has had its worst case between its
/// physical release and its physical deadline.
pub fn graphs_are_served()
    ensures { GraphsAreServed }
{}

/// Each alarm that was taken, is due and was not ended early has had its worst case between the
/// time at which it came and its physical deadline.
pub fn alarms_are_served()
    ensures { AlarmsAreServed }
{}

/// Each firm request that was offered with enough slots and within no more than its time, was
/// accepted, is due and was not ended early or withdrawn has had its worst case between the time at
/// which it came and its physical deadline.
pub fn requests_are_served()
    ensures { RequestsAreServed }
{}

/// Before now no task has the processor before each task that it comes after has had its worst
/// case, where that was not ended early. This law alone asks that no job has the processor outside
/// its slots.
pub fn order_is_kept()
    ensures { OrderIsKept }
{}
