//! The picture of a trace: time to the right, what arrived above, a row for each task, and the
//! spare capacity below.
#![tactic(auto)]

mod arrivals;
mod axis;
mod backdrop;
mod blocks;
mod capacity;
mod faults;
mod layout;
mod legend;
mod marks;
mod row_marks;
mod rows;
mod style;
mod titles;
mod trace_picture;

pub use faults::PictureFault;
pub use row_marks::{Moment, RowMark};
use run_blocks::ROW_LIMIT;
pub use trace_picture::{picture, picture_over};

/// Most slots of a picture.
pub const PICTURE_LIMIT: u32 = 10_000;

/// Most rows of a picture over given rows: as many for tasks, and as many for jobs that run.
pub const MOST_ROWS: usize = 2 * ROW_LIMIT;
