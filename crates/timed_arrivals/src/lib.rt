//! Arrivals with times: rows of an arrivals file whose slots are written as times, turned into an
//! arrivals file. Each arrival is handed over at the next boundary of slots. And the other way
//! round a trace, whose lines begin with times then.
#![tactic(auto)]

pub mod form;
pub mod laws;
mod rounding;
mod row;
mod state;
mod text;
pub mod timed_fault;
mod trace;

pub use form::Form;
pub use row::SlotEvent;
pub use text::timed_text;
pub use timed_fault::TimedFault;
