//! Every legal history is served and ordered, and every trace is a legal history.

ghost use Rattle.slot_facts.specs.Service.{EveryLegalHistoryIsServed, EveryTraceIsLegal, EveryTraceIsServed};

/// In every legal history of a feasible set each guaranteed job runs its slots inside its window
/// and has ended by its deadline, no job runs past its end, and each job runs after all its
/// predecessors: the guarantee of slot shifting (Fohler 1995), with precedence by derived windows
/// (Chetto, Silly and Bouchentouf 1990).
pub fn every_legal_history_is_served()
    ensures { EveryLegalHistoryIsServed }
{}

/// The history of each front part of a trace of fitting arrivals is legal, so that the laws of
/// legal histories speak of every moment of a run.
pub fn every_trace_is_legal()
    ensures { EveryTraceIsLegal }
{}

/// Every trace of a feasible set and fitting arrivals is served and ordered, for every length.
pub fn every_trace_is_served()
    ensures { EveryTraceIsServed }
{}
