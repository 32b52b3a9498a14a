//! The picture of a trace over the tasks of a set: a row for each task, also for one that never
//! runs, with marks at the release and at the deadline of each of its jobs.
#![tactic(auto)]

mod faults;
pub mod laws;
mod marks;
mod picture;
mod rows;

pub use faults::TaskPictureFault;
pub use picture::task_picture;
