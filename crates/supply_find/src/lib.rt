//! The guaranteed supply of a plan: how many slots every window leaves free for requests, what of
//! it is spare whatever soft work ran, and the ends at which such a table is flat.
#![tactic(auto)]

mod due;
pub mod laws;
mod spare;
mod stairs;
mod supply;

pub use spare::find_spare;
pub use stairs::{flat_ends, slots_of};
pub use supply::{Supply, find_supply};
