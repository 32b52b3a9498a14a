//! Laws that tie a set in physical time to its set in slots, without code.
//!
//! Each law is the contract of a public function with no parameters and an empty body. Its
//! statement stands in the `specs/` of this crate. A processor is a function from nanoseconds to
//! the job that has each, and knows no slots; that it gives the slots of a history to their jobs is
//! the one assumption of the laws of service, but for that of order.
#![tactic(auto)]

pub mod alarms;
pub mod exact;
pub mod rounding;
pub mod service;
