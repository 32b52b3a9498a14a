//! Charts of a replay: a row for each task, with a mark in each slot in which a job of it ran.
#![tactic(auto)]

mod chart;
mod labels;
mod rows;

pub use chart::Chart;
pub use labels::{LABEL_LIMIT, push_label};
pub use rows::Row;
