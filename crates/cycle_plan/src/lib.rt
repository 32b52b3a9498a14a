//! The plan of a feasible task set.
#![tactic(auto)]

mod later;
pub mod plan;
mod starts;

pub use later::instances;
pub use plan::{Plan, PlanFault, counterexample, make_plan};
