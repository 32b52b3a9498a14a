//! Which lengths of a slot suit a set in physical time: each that divides all periods, with the set
//! in slots that it gives, what that needs, whether it fits, and with what margin.
#![tactic(auto)]

pub mod checks;
mod growths;
pub mod laws;
mod lengths;
mod lines;
pub mod loads;
pub mod shorter;
mod text;

pub use checks::{LengthRow, SlotCheck};
pub use loads::Load;
pub use shorter::Shorter;
pub use text::lengths_text;
