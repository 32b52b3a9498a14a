//! Laws of the guaranteed supply: which firm requests are always accepted, without code.
//!
//! Each law is the contract of a public function with no parameters and an empty body. Its statement
//! stands in the `specs/` of this crate, over the definitions of slot_core.
#![tactic(auto)]

pub mod laws;
