//! What is drawn behind the blocks.

ghost use Rattle.std.specs.Prelude.{◌≡◌, ◌++◌, true, nat_lt, OnOk};
ghost use Rattle.svg_text.specs.Content.{is_name};
ghost use Rattle.svg_text.specs.Shapes.{path_text};
ghost use Rattle.view_picture.specs.declared.layout.TheConstants.{BLOCK};
ghost use Rattle.view_picture.specs.Backdrops.{HasNoBlock};

use slot_core::Memory;
use std::alloc::Global;
use std::marker::Model;
use svg_text::{Drawing, Frame};

/// A drawing in which no element is a block. Contracts see its text.
#[derive(Drop)]
pub(crate) struct Backdrop {
    drawing: Drawing,
}

impl Model for Backdrop {
    ghost use Rattle.std.specs.Prelude.{ℕ, List};
    ghost use Rattle.view_picture.specs.Backdrops.{HasNoBlock};

    ghost Value = { List ℕ };

    ghost view = { λ b. b.drawing };

    ghost invariant = { λ b. HasNoBlock b.drawing };
}

impl Backdrop {
    /// A backdrop with no element.
    pub(crate) fn new(alloc: Global) -> Backdrop {
        Backdrop {
            drawing: Drawing::new(alloc),
        }
    }

    /// Draws a filled rectangle with a title.
    pub(crate) fn rect(&mut self, class: &str, frame: Frame, title: &[u8]) -> Result<(), Memory>
        requires named { is_name class.now ≡ true }
    {
        self.drawing.rect(class, frame, title)
    }

    /// Draws a filled rectangle with no title.
    pub(crate) fn fill(&mut self, class: &str, frame: Frame) -> Result<(), Memory>
        requires named { is_name class.now ≡ true }
    {
        self.drawing.rect(class, frame, b"")
    }

    /// Draws a filled rectangle with no title, of any class: it is lower than a block.
    pub(crate) fn sample(&mut self, class: &str, frame: Frame) -> Result<(), Memory>
        requires low { nat_lt frame.height BLOCK ≡ true }
    {
        self.drawing.rect(class, frame, b"")
    }

    /// Draws strokes from a point on, with a title where it is not empty.
    pub(crate) fn path(
        &mut self,
        class: &str,
        x: u32,
        y: u32,
        strokes: &str,
        title: &[u8],
    ) -> Result<(), Memory>
        requires named { is_name class.now ≡ true }
        ensures { OnOk result (self.new
            ≡ self.old ++ path_text class.now x y strokes.now title.now) }
    {
        self.drawing.path(class, x, y, strokes, title)
    }

    /// Draws words at a point.
    pub(crate) fn label(&mut self, class: &str, x: u32, y: u32, words: &[u8]) -> Result<(), Memory>
        requires named { is_name class.now ≡ true }
    {
        self.drawing.label(class, x, y, words)
    }

    /// The drawing, on which blocks may be drawn.
    pub(crate) fn into_drawing(self) -> Drawing
        ensures same { result ≡ self }
        ensures bare { HasNoBlock result }
    {
        self.drawing
    }
}
