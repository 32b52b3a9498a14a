//! Which slots each job of a trace runs: rows of tasks, and blocks of slots.
#![tactic(auto)]

pub mod blocks;
pub mod faults;
pub mod rows;

pub use blocks::{Block, blocks_of};
pub use faults::RowsFault;
pub use rows::{Row, row_at, rows_of};
use slot_core::{GRAPH_LIMIT, SPORADIC_LIMIT, TASK_LIMIT};

/// Most firm jobs that have a row each.
pub const FIRM_ROW_LIMIT: usize = 12;

/// Most rows: those of as many tasks of graphs and sporadic tasks as a task set has at most, of the
/// firm jobs that have a row each, and of soft work.
pub const ROW_LIMIT: usize = GRAPH_LIMIT * TASK_LIMIT + SPORADIC_LIMIT + FIRM_ROW_LIMIT + 1;
