//! Lawful histories: those of any executive that runs only what may run, and lets no deadline pass,
//! are served and ordered; legal histories and traces are lawful.

ghost use Rattle.slot_facts.specs.Lawful.{EveryLawfulHistoryIsServed, EveryLawfulTraceIsServed, EveryLegalHistoryIsLawful, EveryTraceIsLawful};

/// In every lawful history of a feasible set each guaranteed job runs its slots inside its window
/// and has ended by its deadline, no job runs past its end, and each job runs after all its
/// predecessors, in whatever order the jobs that were ready ran. In a set that is not feasible a
/// deadline may be cut to 0: its job may run and end in slot 0, and yet ran outside its window.
pub fn every_lawful_history_is_served()
    ensures { EveryLawfulHistoryIsServed }
{}

/// Every lawful trace of a feasible set and fitting arrivals is served and ordered, for every
/// length: what a checker of recorded traces may conclude.
pub fn every_lawful_trace_is_served()
    ensures { EveryLawfulTraceIsServed }
{}

/// Every legal history of a feasible set is lawful: the choice of each slot may run, and no
/// deadline passes.
pub fn every_legal_history_is_lawful()
    ensures { EveryLegalHistoryIsLawful }
{}

/// The trace of every feasible set and fitting arrivals is a lawful trace, for every length.
pub fn every_trace_is_lawful()
    ensures { EveryTraceIsLawful }
{}
