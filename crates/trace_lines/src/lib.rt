//! The text of a trace as lines, read without the task set that it is of.
#![tactic(auto)]

mod answers;
pub mod keys;
pub mod laws;
pub mod line;
pub mod part;
pub mod reading;
mod spans;
pub mod trace;
mod words;

use key_texts::DIGIT_LIMIT;
pub use keys::{KeyText, key_named, key_text};
pub use laws::{entries_are_lines, parts_run_their_slots};
pub use line::{KeyName, ShownSpan, SpanList, TraceLine, Words};
pub use part::{ALL_SLOTS, Part, Slots};
pub use reading::line_of;
use slot_core::NAME_LIMIT;
pub use trace::{Reached, TraceFault, read_part, read_trace, time_of_first, time_of_last};

/// Most bytes of a line that is read, without its line feed.
pub const READ_LINE_LIMIT: usize = 1024;

/// Most lines that tell of the slots of a part.
pub const LINE_LIMIT: usize = 262_144;

/// Most bytes of the text of a `KeyName`: two names, the signs after them, and a number.
pub const KEY_NAME_LIMIT: usize = 2 * NAME_LIMIT + 2 + DIGIT_LIMIT;
