//! The lines of the guaranteed supply of a plan: one for each flat end of the staircase, from which
//! the supply within every number of slots is read.
#![tactic(auto)]

pub mod laws;
mod lines;

pub use lines::{supply_text, within_text};
