//! The first spans after an entry.

ghost use Rattle.std.specs.Prelude.{◌≡◌, ◌<◌, ◌≤◌, [], ◌∷◌, ◌++◌, drop, length};
ghost use Rattle.slot_core.specs.declared.TheConstants.{SHOWN_LIMIT};

use crate::SHOWN_LIMIT;
use crate::jobs::Span;
use arrayvec::ArrayVec;
use std::marker::Model;

/// At most `SHOWN_LIMIT` spans, and the number of the spans that are not shown.
#[derive(Drop)]
pub struct Shown {
    first: ArrayVec<Span, SHOWN_LIMIT>,
    others: u32,
}

impl Model for Shown {
    ghost use Rattle.slot_core.specs.Runs.ShownSpans.{ShownSpans};

    ghost Value = { ShownSpans };

    ghost view = { λ s. record { spans = s.first.items; more = s.others } };
}

impl Shown {
    /// No spans, beside `more` that are not shown.
    pub fn new(more: u32) -> Shown
        ensures { result ≡ record { spans = []; more = more } }
    {
        Shown {
            first: ArrayVec::new(),
            others: more,
        }
    }

    /// Appends a span.
    pub fn push(&mut self, span: Span)
        requires { length self.old.spans < SHOWN_LIMIT }
        ensures { self.new ≡ record self.old { spans = self.old.spans ++ span ∷ [] } }
    {
        self.first.push(span);
    }

    /// Puts another span in the place of the first.
    pub fn set_first(&mut self, span: Span)
        requires { 1 ≤ length self.old.spans }
        ensures first { self.new.spans ≡ span ∷ drop 1 self.old.spans }
        ensures more { self.new.more ≡ self.old.more }
    {
        self.first.as_mut_slice()[0] = span;
    }

    /// The spans that are shown.
    pub fn spans(&self) -> &[Span]
        ensures spans { result.now ≡ self.now.spans }
        ensures few { length self.now.spans ≤ SHOWN_LIMIT }
    {
        self.first.as_slice()
    }

    /// The number of the spans that are not shown.
    pub fn more(&self) -> u32
        ensures { result ≡ self.now.more }
    {
        self.others
    }
}
