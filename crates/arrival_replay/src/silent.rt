//! A taker that tells nobody.

use slot_core::{Entry, Failed, Taker, TaskSet};

/// Takes every entry and keeps none.
#[derive(Drop)]
pub struct Silent;

impl Taker for Silent {
    ghost use Rattle.std.specs.Prelude.{⊤};

    ghost faults = { λ _. 0 };

    ghost took = { λ set a b entries. ⊤ };

    ghost broke = { λ set a b entries. ⊥ };

    fn take(&mut self, _entry: &Entry, _tasks: &TaskSet) -> Result<(), Failed> {
        Ok(())
    }

    ghost broke_some = { λ set a b broken. broken };

    ghost took_none = { λ set a. tt };

    ghost took_more = { λ set a b c es fs first then_. tt };

    ghost broke_later = { λ set a b c es fs first broken. broken };
}
