//! Sources that tell which lines they gave.

ghost use Rattle.std.specs.Prelude.{◌≡◌, ℕ, ◌≤◌, List, [], ◌∷◌, ◌++◌, OnErr, IfOk};
ghost use Rattle.slot_core.specs.Calls.Counts.{Rose};
ghost use Rattle.live_lines.specs.Lines.{Heard, heard};

use slot_core::Failed;

/// What a source gives next.
#[derive(Clone, Copy, PartialEq, Eq)]
pub enum Given {
    /// A line of at most `HEARD_LIMIT` bytes, which `line` has.
    Line,
    /// A line of more bytes, all of which are passed.
    TooLong,
    /// No line, since all were given.
    NoMore,
}

/// Gives lines one by one. No source has to keep the list: what it gave is told by a relation
/// between two of its values.
pub trait LineSource {
    /// The second value is what the first becomes by giving these, in order.
    ghost gave: { Self → Self → List Heard → Type 0 };

    /// The bytes of the line that it gave last.
    ghost last: { Self → List ℕ };

    /// How many reads failed, up to the last value of a `u64`.
    ghost faults: { Self → ℕ };

    /// The second value is what the first becomes where a read fails: no line is given, and none is
    /// lost but the next one.
    ghost broke: { Self → Self → Type 0 };

    /// Gives what comes next: a line, or that there are no more. After Failed nothing is told of
    /// what was read of that line.
    fn next(&mut self) -> Result<Given, Failed>
        ensures gives { IfOk result
            (λ next. gave self.old self.new (heard next (last self.new) ∷ [])) }
        ensures broken { OnErr result (broke self.old self.new) }
        ensures counted { faults self.old ≤ faults self.new }
        ensures failed { OnErr result (Rose (faults self.old) (faults self.new)) };

    /// The bytes of the line that it gave last, without its line feed.
    fn line(&self) -> &[u8]
        ensures { result.now ≡ last self.now };

    /// To give nothing changes nothing.
    ghost gave_none: { (a : Self) → gave a a [] };

    /// To give some and then others is to give them all.
    ghost gave_more: { (a b c : Self) (hs ks : List Heard)
        → gave a b hs → gave b c ks → gave a c (hs ++ ks) };
}
