//! What a designer asks of a task set before run time, as texts: how loaded it is, who is in the
//! window that fails, and what a program in C needs of its plan. Each call takes its memory and
//! writes nothing.
#![tactic(auto)]

mod array;
mod header;
mod jobs;
pub mod laws;
mod lines;
mod load;
mod tightest;
mod who;

pub use header::header_text;
pub use load::load_text;
pub use who::who_text;
