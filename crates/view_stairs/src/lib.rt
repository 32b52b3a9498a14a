//! The staircase of a guaranteed supply: its lines, read, and a picture of them.
#![tactic(auto)]

mod bars;
mod curve;
mod fault;
pub mod laws;
mod lines;
mod picture;
mod scale;
mod style;

pub use fault::StairsFault;
pub use lines::{Step, read_stairs};
pub use picture::stairs;
