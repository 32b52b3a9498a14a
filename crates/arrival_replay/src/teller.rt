//! The takers of this crate that are told which spans stay.

ghost use Rattle.std.specs.Prelude.{◌≡◌};

use crate::silent::Silent;
use slot_core::{Entry, Failed, Taker, TaskSet};
use trace_text::Teller;

impl Teller for Silent {
    ghost use Rattle.std.specs.Prelude.{⊤};

    ghost keeps = { λ t shown. ⊤ };

    #[inline(always)]
    fn take_new(&mut self, _entry: &Entry, _tasks: &TaskSet) -> Result<(), Failed> {
        Ok(())
    }

    #[inline(always)]
    fn take_others(&mut self, _entry: &Entry, _tasks: &TaskSet) -> Result<(), Failed> {
        Ok(())
    }

    #[inline(always)]
    fn take_again(&mut self, _entry: &Entry, _tasks: &TaskSet) -> Result<(), Failed> {
        Ok(())
    }
}

/// A taker that takes each entry alike.
#[derive(Drop)]
pub(crate) struct Each<'t, W: Taker> {
    /// The taker.
    pub(crate) taker: &'t mut W,
}

impl<'t, W: Taker> Taker for Each<'t, W> {
    ghost use Rattle.std.specs.Prelude.{refl};
    ghost use Rattle.std.proofs.Common.{◌∙◌};

    ghost faults = { λ t. W.faults t.taker.now };

    // Both have the same taker.
    ghost took = { λ set a b entries.
        (b.taker.ghost_name ≡ a.taker.ghost_name) × W.took set a.taker.now b.taker.now entries };

    ghost broke = { λ set a b entries.
        (b.taker.ghost_name ≡ a.taker.ghost_name) × W.broke set a.taker.now b.taker.now entries };

    #[inline(always)]
    fn take(&mut self, entry: &Entry, tasks: &TaskSet) -> Result<(), Failed> {
        self.taker.take(entry, tasks)
    }

    ghost broke_some = { λ set a b broken.
        W.broke_some set a.taker.now b.taker.now broken.1 };

    ghost took_none = { λ set a. (refl, W.took_none set a.taker.now) };

    ghost took_more = { λ set a b c es fs first then_. (
      then_.0 ∙ first.0,
      W.took_more set a.taker.now b.taker.now c.taker.now es fs first.1 then_.1,
    ) };

    ghost broke_later = { λ set a b c es fs first then_. (
      then_.0 ∙ first.0,
      W.broke_later set a.taker.now b.taker.now c.taker.now es fs first.1 then_.1,
    ) };
}

impl<'t, W: Taker> Teller for Each<'t, W> {
    ghost use Rattle.std.specs.Prelude.{⊤};

    ghost keeps = { λ t shown. ⊤ };

    #[inline(always)]
    fn take_new(&mut self, entry: &Entry, tasks: &TaskSet) -> Result<(), Failed> {
        self.taker.take(entry, tasks)
    }

    #[inline(always)]
    fn take_others(&mut self, entry: &Entry, tasks: &TaskSet) -> Result<(), Failed> {
        self.taker.take(entry, tasks)
    }

    #[inline(always)]
    fn take_again(&mut self, entry: &Entry, tasks: &TaskSet) -> Result<(), Failed> {
        self.taker.take(entry, tasks)
    }
}
