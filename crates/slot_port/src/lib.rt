//! The calls of an executive over numbers: what other languages hand over and are told.
//!
//! Each call has a status. No condition is left to its caller: where a number is out of its range
//! or a row does not rise, the call says so and changes nothing. All times are in slots.
#![tactic(auto)]

mod arrivals;
pub mod changes;
mod keys;
pub mod numbers;
mod opening;
mod passing;
pub mod status;
mod versions;

pub use arrivals::{done, firm, soft, sporadic, withdraw};
pub use changes::{
    DROP, GRAPHS, JobNumbers, STARTED, carry, carry_with_soft, change, change_with_soft, job,
};
pub use keys::{key_text, sporadic_index};
pub use numbers::{KeyNumbers, SpanNumbers, Told};
pub use opening::open;
pub use passing::{ahead, pass, slot, span};
pub use status::{
    AT_END, BAD_NUMBER, BAD_ROW, BAD_TABLE, CLOSED, MEMORY, NOT_FRESH, OK, REFUSED, STILL_OPEN,
    Status,
};
use trace_text::KEY_LIMIT;
pub use versions::version;

/// The greatest index of a graph, or of a task in one, that a key has room for.
pub const INDEX_LIMIT: u32 = 65_535;

/// The greatest index of a sporadic task that a key has room for.
pub const SPORADIC_INDEX_LIMIT: u32 = 255;

/// The most bytes of the text of a key.
pub const KEY_TEXT_LIMIT: usize = KEY_LIMIT;
