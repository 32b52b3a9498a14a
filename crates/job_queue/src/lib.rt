//! The remaining jobs of an executive, of which earliest deadline first takes the next.
//!
//! A queue keeps its jobs in three parts: those that are listed in order of start, as the jobs of a
//! plan come cycle after cycle, those that came at run time, beside them, and those of both that
//! may start, in order of earliest deadline first. So the job of a slot is the first of these, and
//! is found without a walk through the others or through the jobs of later cycles.
#![tactic(auto)]

mod marked;
mod order;
pub mod queue;

pub use queue::JobQueue;
