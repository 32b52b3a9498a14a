//! What the verdict means.

ghost use Rattle.trace_verify.specs.Laws.{VerdictIsExact};

/// The verdict on a text is Ok exactly where the text is that of a lawful trace of the set, the
/// arrivals and so many slots: no lawful trace is refused, and no other text passes. The set may be
/// one that is not feasible.
pub fn verdict_is_exact()
    ensures { VerdictIsExact }
{}
