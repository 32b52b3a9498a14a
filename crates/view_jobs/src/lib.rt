//! A table of the jobs of a trace, over the plan of its task set.
#![tactic(auto)]

pub mod deeds;
mod faults;
pub mod jobs;
pub mod laws;
mod put;
pub mod rows;
pub mod tallies;

pub use faults::JobsFault;
pub use put::put_jobs;
