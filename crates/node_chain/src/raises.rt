//! How capacities are raised back from a place.

ghost use Rattle.std.specs.Prelude.{◌≡◌};
ghost use Rattle.node_chain.specs.Raises.{lifted_by, passes_on, spare_after, spare_under};

use slot_core::Span;

/// How the spans before a place are raised, the last first: each gets so much more capacity, up to
/// one that does not pass it on.
#[derive(Clone, Copy)]
pub struct Raise {
    /// In slots, below 0 where each gets less. The sum wraps round.
    pub more: i64,
    /// A span that starts before this time does not pass it on.
    pub border: u64,
    /// Nor does one that had more capacity than this.
    pub limit: i64,
    /// The capacity of a span is what is kept in it and this, a sum that wraps round.
    pub add: i64,
}

/// The spans that were raised: those from an index on.
#[derive(Clone, Copy)]
pub struct Raised {
    pub index: u32,
    /// When the first of them starts.
    pub start: u64,
    /// Its capacity before.
    pub spare: i64,
    /// None of them, but the first of all spans, has more capacity than this afterwards.
    pub high: i64,
}

impl Raise {
    /// The capacity of a span before.
    pub fn spare(self, span: Span) -> i64
        ensures { result ≡ spare_under self.add span }
    {
        span.spare.wrapping_add(self.add)
    }

    /// The capacity of a span afterwards.
    pub fn spare_after(self, span: Span) -> i64
        ensures { result ≡ spare_after self span }
    {
        self.spare(span).wrapping_add(self.more)
    }

    /// Whether the span before this one is raised too.
    pub fn passes_on(self, span: Span) -> bool
        ensures { result ≡ passes_on self span }
    {
        self.border <= span.start && self.spare(span) <= self.limit
    }

    /// What is kept of a span afterwards.
    pub fn raised(self, span: Span) -> Span
        ensures { result ≡ lifted_by self.more span }
    {
        Span {
            spare: span.spare.wrapping_add(self.more),
            ..span
        }
    }
}
