//! Laws of the model: what every legal history keeps, how it is served, and what the cycle test
//! means.
//!
//! Each law is the contract of a public function with no parameters and an empty body. Its
//! statement stands in the `specs/` of slot_facts or of this crate, over the definitions of
//! slot_core alone.
#![tactic(auto)]

pub mod bounds;
pub mod lawful;
pub mod lines;
pub mod nesting;
pub mod offers;
pub mod patterns;
pub mod schedules;
pub mod service;
pub mod soft_work;
pub mod verdicts;
