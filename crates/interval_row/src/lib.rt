//! Tables of spans that keep their spare capacities (Fohler 1995; Isovic and Fohler 2000).
//!
//! A table holds the consecutive spans from the time on. Each call changes the spans by one small
//! function of `specs/Changes.antt`, and the capacities are those of the recurrence of slot
//! shifting afterwards. Nothing here knows of jobs.
//!
//! There is one table, over any store of spans: a shelf, which is the chain of `node_chain` or a
//! plain list, with capacities that are lifted by pages.
#![tactic(auto)]

mod changes;
pub mod lifted;
mod marks;
mod pages;
pub mod rows;
pub mod shelf;
pub mod span_table;
mod spans;
pub mod store;
pub mod table;
mod walk;
mod walk_back;

pub use lifted::Lifted;
pub use marks::PAGE;
pub use rows::Rows;
pub use shelf::Shelf;
pub use span_table::{ChainTable, RowTable, Table};
pub use store::Store;
pub use table::{Front, Short, SpareTable, Spot};
pub use walk_back::{Followed, PageWalk, Walk};
