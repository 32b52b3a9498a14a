//! Task sets for tests and worked examples.
//!
//! The sets stand in `specs/Sets`. The functions build the same sets.
#![tactic(auto)]

mod graphs;
mod sets;

pub use graphs::four_tasks;
pub use sets::{
    alarm_set, borrowing_set, long_names_set, pair_set, two_periods_set, unmanned_flight_set,
};
