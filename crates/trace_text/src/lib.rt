//! The lines of a trace, written and read.
#![tactic(auto)]

pub mod entries;
mod extents;
mod keys;
pub mod line;
mod reports;
pub mod run_lines;
mod spans;
pub mod taker;
pub mod teller;
mod threes;
mod words;

pub use entries::{entry_line, key_text};
use extents::END_LIMIT;
pub use line::Line;
pub use reports::{job_line, span_line};
pub use run_lines::read_run;
use slot_core::{NAME_LIMIT, SHOWN_LIMIT};
pub use taker::TextTaker;
pub use teller::Teller;

/// Most bytes of a line.
pub const LINE_LIMIT: usize = 1024;

/// Most bytes of a number of 64 bits in decimal digits, its sign among them.
pub const DECIMAL_LIMIT: usize = 20;

/// Most bytes of a key: two names, a point, a `#` and a number.
pub const KEY_LIMIT: usize = 2 * NAME_LIMIT + 2 + DECIMAL_LIMIT;

/// Most bytes of an answer: a word of 6 bytes and three numbers, a space before each.
const ANSWER_LIMIT: usize = 6 + 3 * (1 + DECIMAL_LIMIT);

/// Most bytes of the words of an entry: one of 8 bytes, a row, a key and an answer, a space between
/// them.
const WORDS_LIMIT: usize = 8 + 1 + DECIMAL_LIMIT + 1 + KEY_LIMIT + 1 + ANSWER_LIMIT;

/// Most bytes of the extent of a span: a space, its start, and what tells its end.
const EXTENT_LIMIT: usize = 1 + DECIMAL_LIMIT + END_LIMIT;

/// Most bytes of a span and the space before it.
const SPAN_LIMIT: usize = EXTENT_LIMIT + DECIMAL_LIMIT;

/// Most bytes of the spans of an entry: a bar, the spans, and how many more there are.
const SPANS_LIMIT: usize = 2 + SHOWN_LIMIT * SPAN_LIMIT + 2 + DECIMAL_LIMIT;
