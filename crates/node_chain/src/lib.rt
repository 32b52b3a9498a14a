//! A chain of spans in one block of raw memory.
//!
//! The nodes of the chain are linked both ways by their places in the block, and each unused node
//! names the next. Place 0 holds no span: it stands before the first node and after the last, so
//! that the ends need no case of their own. The block has the links of all nodes side by side, then
//! their spans. Beside the block a chain keeps the ids of its spans in order, so that a span is
//! found by how many stand before it, without a walk, and marks and lifts: numbers about pages of
//! time for whoever keeps a chain. Four functions of `raw` hold pointers; all else is plain code
//! over a row of words, a list of nodes and a list of ids.
#![tactic(auto)]

mod block;
pub mod chain;
mod front;
mod links;
pub mod marks;
pub mod order;
pub mod raises;
mod raw;
pub mod searches;
mod words;

pub use chain::{Chain, NodeId};
pub use marks::{LAP, Lift, Mark, Marks, Pass, Passed};
pub use raises::{Raise, Raised};
pub use searches::{Found, Search};
