//! Keys and numbers as texts: the key of a set, or the number, that a text writes.
#![tactic(auto)]

pub mod keys;
pub mod numbers;

pub use keys::{cut_at, key_of, sporadic_named};
pub use numbers::{number_between, number_of, row_number};

/// Most digits of a number.
pub const DIGIT_LIMIT: usize = 10;
