//! Jobs nest like stack frames: the guaranteed ones among themselves, and the soft ones among
//! themselves.

ghost use Rattle.service_laws.specs.Nesting.{EveryLegalHistoryIsNested, EveryTraceIsNested};

/// In every legal history of a feasible set the guaranteed jobs nest: where one goes on, each other
/// one that ran since it had started has ended, so all of them can share one stack. Of two jobs
/// that have started and not ended, one has its derived window within the other's: the preemption
/// levels of the stack resource policy (Baker 1991). Soft jobs run one after the other, so that
/// they need one frame at a time, on a stack of their own: one stack for both kinds would not do.
pub fn every_legal_history_is_nested()
    ensures { EveryLegalHistoryIsNested }
{}

/// So every trace of a feasible set and fitting arrivals is nested, for every length.
pub fn every_trace_is_nested()
    ensures { EveryTraceIsNested }
{}
