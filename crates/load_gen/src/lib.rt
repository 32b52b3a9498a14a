//! Generated load: task sets and arrivals made from a number, and the tally of a replay of them.
#![tactic(auto)]

mod arrivals;
mod sets;
mod tally;

pub use arrivals::arrivals_of;
pub use sets::tasks_of;
pub use tally::Tally;
