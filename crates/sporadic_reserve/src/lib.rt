//! The demand of sporadic tasks at its densest, and their next legal arrivals (Isovic and Fohler
//! 2000).
//!
//! A sporadic task may arrive at or after its next legal arrival, and each time at least its
//! separation after the time before. Until it has come, its work is held in reserve: a guaranteed
//! job may only use what the densest of those arrivals leave. All times are in slots.
#![tactic(auto)]

mod rates;
pub mod reserve;

pub use rates::{GROWTH_REACH, Growth};
pub use reserve::Reserve;
