//! A change of plan at the end of a cycle: firm and sporadic jobs are carried over, and the offline
//! jobs of a second plan begin.
//!
//! A change is granted exactly where it can be served, whatever sporadic jobs of the second set may
//! be asked for later. After a grant each carried job ends by its deadline, and so does each job of
//! the second plan.
#![tactic(auto)]

mod carried;
pub mod change;
mod cycles;
mod due;
pub mod laws;
mod text;
mod turns;

pub use change::{Change, ChangeFault};
pub use text::put_change;
pub use turns::Turn;
