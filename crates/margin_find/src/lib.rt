//! The margin of a task: by how many slots its worst case may grow while the set still fits, and
//! the window that fails first with one slot more.
#![tactic(auto)]

mod all;
mod copies;
mod kept;
pub mod laws;
mod margin;
mod own;
mod search;
mod whole;

pub use all::find_margins;
pub use margin::{Margin, TaskMargin, find_margin, margin_near};
