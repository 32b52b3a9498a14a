//! The lines of a live run: where they come from, the commands that they write, the faults of those
//! that write none, and the rows of an arrivals file that record what arrived.
#![tactic(auto)]

pub mod commands;
pub mod input;
pub mod line_fault;
pub mod rows;
pub mod source;

pub use commands::{LiveCommand, live_command_of};
pub use input::InputLines;
pub use line_fault::{LineFault, fault_line};
pub use rows::record_row;
pub use source::{Given, LineSource};
use trace_text::{DECIMAL_LIMIT, KEY_LIMIT};

/// Most bytes of a line that is heard, without its line feed.
pub const HEARD_LIMIT: usize = 256;

/// Most bytes of the text of a fault: `bad number `, of 11 bytes, and a number.
const FAULT_TEXT_LIMIT: usize = 11 + DECIMAL_LIMIT;

/// Most bytes of what stands before a number: `withdraw` and the comma before it.
const ROW_WORD_LIMIT: usize = 9;

/// Most bytes of a word, a comma and a number.
const WORDED_LIMIT: usize = ROW_WORD_LIMIT + 1 + DECIMAL_LIMIT;

/// Most bytes of an event: `done`, the commas around it, and a key.
const EVENT_LIMIT: usize = 6 + KEY_LIMIT;
