//! The slots of a trace as waves: a value change dump (IEEE 1364), as GTKWave opens it.
#![tactic(auto)]

mod head;
pub mod laws;
mod lines;
mod put;
mod steps;

pub use put::put_waves;
