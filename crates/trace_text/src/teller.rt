//! Takers that are told which of its spans an entry shows as the last one did.

ghost use Rattle.std.specs.Prelude.{◌≡◌, ◌≢◌, ◌≤◌, true, [], ◌∷◌, OnErr, OnOk};
ghost use Rattle.slot_core.specs.Calls.Counts.{Rose};
ghost use Rattle.slot_core.specs.declared.events.What.{What};
ghost use Rattle.slot_core.specs.Runs.ShownSpans.{ShownSpans, others_of};
ghost use Rattle.slot_core.specs.Runs.Arrivals.{what_in_set};

use slot_core::{Entry, Failed, Taker, TaskSet};

/// A taker with calls of its own for entries that show the spans of the last one, or all of them
/// but the first. No entry of these calls is the end.
pub trait Teller: Taker {
    /// It keeps the text of these spans, which are those of the last entry, or it needs none.
    ghost keeps: { Self → ShownSpans → Type 0 };

    /// Takes an entry that may show other spans.
    fn take_new(&mut self, entry: &Entry, tasks: &TaskSet) -> Result<(), Failed>
        requires named { what_in_set tasks.now entry.now.what ≡ true }
        requires some { entry.now.what ≢ What.End }
        ensures took { OnOk result (Self.took tasks.now self.old self.new (entry.now ∷ [])) }
        ensures broke { OnErr result (Self.broke tasks.now self.old self.new (entry.now ∷ [])) }
        ensures counted { Self.faults self.old ≤ Self.faults self.new }
        ensures failed { OnErr result (Rose (Self.faults self.old) (Self.faults self.new)) }
        ensures keeps { Self.keeps self.new entry.now.shown };

    /// Takes an entry that shows another first span, and the same after it.
    fn take_others(&mut self, entry: &Entry, tasks: &TaskSet) -> Result<(), Failed>
        requires named { what_in_set tasks.now entry.now.what ≡ true }
        requires some { entry.now.what ≢ What.End }
        requires kept { (before : ShownSpans) × (others_of before ≡ others_of entry.now.shown)
            × Self.keeps self.old before }
        ensures took { OnOk result (Self.took tasks.now self.old self.new (entry.now ∷ [])) }
        ensures broke { OnErr result (Self.broke tasks.now self.old self.new (entry.now ∷ [])) }
        ensures counted { Self.faults self.old ≤ Self.faults self.new }
        ensures failed { OnErr result (Rose (Self.faults self.old) (Self.faults self.new)) }
        ensures keeps { Self.keeps self.new entry.now.shown };

    /// Takes an entry that shows the same.
    fn take_again(&mut self, entry: &Entry, tasks: &TaskSet) -> Result<(), Failed>
        requires named { what_in_set tasks.now entry.now.what ≡ true }
        requires some { entry.now.what ≢ What.End }
        requires kept { Self.keeps self.old entry.now.shown }
        ensures took { OnOk result (Self.took tasks.now self.old self.new (entry.now ∷ [])) }
        ensures broke { OnErr result (Self.broke tasks.now self.old self.new (entry.now ∷ [])) }
        ensures counted { Self.faults self.old ≤ Self.faults self.new }
        ensures failed { OnErr result (Rose (Self.faults self.old) (Self.faults self.new)) }
        ensures keeps { Self.keeps self.new entry.now.shown };
}
