//! The executive: it follows a plan slot by slot, and answers each arrival (Fohler 1995; Isovic and
//! Fohler 2000).
//!
//! All times are in slots. All memory that an executive needs is taken when it starts.
#![tactic(auto)]

mod ahead;
mod cycles;
mod ends;
pub mod exec;
mod offers;
mod rooms;
mod runs;
mod shown;
mod sporadic_arrivals;
mod withdrawals;

pub use cycles::insert_cycle;
pub use exec::Exec;
