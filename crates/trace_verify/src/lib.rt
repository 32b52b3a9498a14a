//! A checker of recorded traces: whether an executive, which may choose among ready jobs as it
//! likes, has kept to what a lawful trace is.
//!
//! It keeps a list of the remaining jobs of its own, with the slots due at each time, and computes
//! the shown capacities anew from these for each line. It names neither the executive nor its queue
//! or its table of spans; the plan, the recurrence of capacities and the reserve of arrivals are
//! those that the executive has too.
#![tactic(auto)]

pub mod checker;
mod dues;
mod front;
mod jobs;
pub mod laws;
mod lines;
mod offers;
mod points;
mod shown;
mod soft;
pub mod texts;
pub mod walk;

pub use faults::VerifyFault;
pub use texts::{FAULT_LIMIT, fault_text};
pub use walk::verify;
