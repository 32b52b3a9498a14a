//! How spans are searched through from a place on.

use slot_core::Span;

/// What a search passes: spans that end before a border, and start so late that what is due before
/// them leaves room.
#[derive(Clone, Copy)]
pub struct Search {
    /// So many slots are to be left at each start beside what is due by then, counted from slot 0.
    pub asked: u64,
    /// A span that ends then or later is not passed.
    pub border: u64,
}

/// Where a search has come to.
#[derive(Clone, Copy)]
pub struct Found {
    /// How many spans are before that place.
    pub index: u32,
    /// What is due in them, in slots.
    pub works: u64,
    /// The span there, which is not passed. None exactly after the last.
    pub span: Option<Span>,
}
