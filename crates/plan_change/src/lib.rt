//! A change of plan at any slot: what the first executive has left is offered to the executive of
//! the second plan before its first slot, job by job.
//!
//! The offers are accepted all the way exactly where all of them together can be served. The second
//! executive then stands for a legal history of its plan, in which these offers were accepted, and
//! goes on as any other.
#![tactic(auto)]

pub mod change;
pub mod keep;
pub mod laws;
pub mod list;
pub mod listing;
pub mod moves;
pub mod offers;
pub mod with_soft;

pub use change::{ChangeFault, change_plan, change_plan_with_soft};
pub use keep::Keep;
pub use list::CarriedList;
pub use listing::list_jobs;
pub use moves::{Moved, Refusal, carry, is_fresh};
pub use offers::Offer;
pub use with_soft::{MovedWithSoft, carry_with_soft};
