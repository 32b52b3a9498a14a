//! The lines of a trace as tables: a row for each arrival, or one for each span of each line.
#![tactic(auto)]

mod events;
mod put;
mod spans;
mod told;

pub use put::{Table, put_part, put_table};
