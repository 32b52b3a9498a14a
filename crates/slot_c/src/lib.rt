//! The calls of an executive for C. `library/slotexec.h` declares them.
//!
//! C keeps a `Slots` and hands it to each call. Beside pointers that are valid and lie apart, one
//! thread and the heap's three functions, all that it has to meet is `valid`: there is an executive
//! exactly where the handle is open. So it is where all is zero, and as each call leaves it.
#![tactic(auto)]

mod arrivals;
mod asking;
mod box_parts;
mod changes;
pub mod handle;
mod opening;
mod passing;
pub mod unit;
mod versions;
