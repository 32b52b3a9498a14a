//! Figures of the tasks of a trace: how often they ran, their responses, slack and starts.
#![tactic(auto)]

mod figures;
mod groups;
pub mod laws;
mod ordered;
mod outcomes;
mod put;
mod rows;

pub use put::put_stats;
