//! Task files in slots, written of a set in physical time.
//!
//! A file is written with the times behind the numbers of slots, and is then read as any task file
//! is: no text leaves that reads as another set.
#![tactic(auto)]

mod pieces;
pub mod same;
pub mod text;
mod writing;

pub use text::{TextFault, check_text, text_of};
