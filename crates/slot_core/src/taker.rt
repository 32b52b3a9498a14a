//! Takers of the entries of a trace.

ghost use Rattle.std.specs.Prelude.{◌≡◌, ℕ, ◌≤◌, true, List, [], ◌∷◌, ◌++◌, OnOk, OnErr};
ghost use Rattle.slot_core.specs.declared.events.Entry.{Entry};
ghost use Rattle.slot_core.specs.declared.tasks.TaskSet.{TaskSet};
ghost use Rattle.slot_core.specs.Runs.Arrivals.{what_in_set};
ghost use Rattle.slot_core.specs.Calls.Counts.{Rose};

use crate::events::Entry;
use crate::faults::Failed;
use crate::tasks::TaskSet;

/// Takes the entries of a trace one by one. No taker has to keep the list: what it has taken is
/// told by two relations between two of its values.
pub trait Taker {
    /// How many entries were not taken, up to the last value of a `u64`.
    ghost faults: { Self → ℕ };

    /// The second value is what the first becomes by taking all of the entries.
    ghost took: { TaskSet → Self → Self → List Entry → Type 0 };

    /// There is a last entry, and the second value is what the first becomes by taking all before
    /// it, and of that last one a part or nothing.
    ghost broke: { TaskSet → Self → Self → List Entry → Type 0 };

    /// Takes one entry. After Failed a part of it or nothing is taken.
    fn take(&mut self, entry: &Entry, tasks: &TaskSet) -> Result<(), Failed>
        requires { what_in_set tasks.now entry.now.what ≡ true }
        ensures ok { OnOk result (took tasks.now self.old self.new (entry.now ∷ [])) }
        ensures part { OnErr result (broke tasks.now self.old self.new (entry.now ∷ [])) }
        ensures counted { faults self.old ≤ faults self.new }
        ensures failed { OnErr result (Rose (faults self.old) (faults self.new)) };

    /// Where entries broke off, there is a last one.
    ghost broke_some: { (set : TaskSet) (a b : Self) → broke set a b [] → ⊥ };

    /// To take no entries changes nothing.
    ghost took_none: { (set : TaskSet) (a : Self) → took set a a [] };

    /// To take entries and then others is to take them all.
    ghost took_more: { (set : TaskSet) (a b c : Self) (es fs : List Entry)
        → took set a b es → took set b c fs → took set a c (es ++ fs) };

    /// Where the later ones break off, the whole does.
    ghost broke_later: { (set : TaskSet) (a b c : Self) (es fs : List Entry)
        → took set a b es → broke set b c fs → broke set a c (es ++ fs) };
}
