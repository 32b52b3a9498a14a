//! The command line: which words write which command, what a run is refused for, the lines that
//! tell it, and the statuses.
#![tactic(auto)]

pub mod append;
pub mod commands;
pub mod file;
pub mod pages;
pub mod reason;
pub mod refusal;
pub mod reports;
pub mod status;

pub use commands::{
    Arrivals, Check, Command, Output, PlanOutput, RunOutput, Second, Source, command_of,
};
pub use file::File;
pub use pages::{Page, page_of, tell_page};
pub use reason::{REASON_LIMIT, Reason};
pub use refusal::Refusal;
pub use reports::report;
pub use status::Status;

/// How many slots of a load are run.
pub const LOAD_SLOTS: u32 = 1024;

/// Most digits of a number that a word of a command writes.
pub const WORD_DIGIT_LIMIT: usize = 6;

/// The version of the tables that are written.
pub const TABLE_VERSION: u16 = 2;

/// The line of a failed write.
const CANNOT_WRITE: &[u8] = b"cannot write\n";

/// The line of want of memory.
pub const OUT_OF_MEMORY: &[u8] = b"out of memory\n";
