//! A drawing in the making.

ghost use Rattle.std.specs.Prelude.{◌≡◌, ◌∷◌, [], ◌++◌, codes, flat_map, OnErr, OnOk};
ghost use Rattle.svg_text.specs.Content.{IsContent, attribute_text, closing, opening};
ghost use Rattle.svg_text.specs.Shapes.{classed, framed, label_text, path_text, placed, rect_text, strokes_text};

use crate::pieces::{
    push, push_attribute, push_escaped, push_line, push_number, push_numbered, push_title,
};
use slot_core::Memory;
use std::alloc::Global;
use std::marker::Model;

/// Where a rectangle lies: its upper left corner and its size, in pixels.
#[derive(Clone, Copy)]
pub struct Frame {
    pub x: u32,
    pub y: u32,
    pub width: u32,
    pub height: u32,
}

/// Elements of a drawing, one a line, in the order in which they are drawn. Contracts see their
/// text.
#[derive(Drop)]
pub struct Drawing {
    text: Vec<u8>,
    pen: Pen,
}

/// The parts of the element that is drawn last, kept so that no room has to be taken anew.
#[derive(Drop)]
struct Pen {
    attributes: Vec<u8>,
    inside: Vec<u8>,
    value: Vec<u8>,
    line: Vec<u8>,
}

impl Model for Drawing {
    ghost use Rattle.std.specs.Prelude.{ℕ, List};
    ghost use Rattle.svg_text.specs.Content.{IsContent};

    ghost Value = { List ℕ };

    ghost view = { λ d. d.text.items };

    ghost invariant = { λ d. IsContent d.text.items };
}

impl Drawing {
    /// A drawing with no element.
    pub fn new(alloc: Global) -> Drawing
        ensures { result ≡ [] }
    {
        Drawing {
            text: Vec::new(alloc),
            pen: Pen::new(alloc),
        }
    }

    /// Draws a filled rectangle, with a title where it is not empty. After Memory nothing has
    /// changed.
    pub fn rect(&mut self, class: &str, frame: Frame, title: &[u8]) -> Result<(), Memory>
        ensures drawn { OnOk result (self.new ≡ self.old ++ rect_text class.now frame title.now) }
        ensures memory { OnErr result (self.new ≡ self.old) }
    {
        self.pen.rect(class, frame, title)?;
        self.text.extend_from_slice(self.pen.line.as_slice())?;
        Ok(())
    }

    /// Draws strokes from a point on, with a title where it is not empty. After Memory nothing has
    /// changed.
    pub fn path(
        &mut self,
        class: &str,
        x: u32,
        y: u32,
        strokes: &str,
        title: &[u8],
    ) -> Result<(), Memory>
        ensures drawn { OnOk result
            (self.new ≡ self.old ++ path_text class.now x y strokes.now title.now) }
        ensures memory { OnErr result (self.new ≡ self.old) }
    {
        self.pen.path(class, x, y, strokes, title)?;
        self.text.extend_from_slice(self.pen.line.as_slice())?;
        Ok(())
    }

    /// Draws words at a point. After Memory nothing has changed.
    pub fn label(&mut self, class: &str, x: u32, y: u32, words: &[u8]) -> Result<(), Memory>
        ensures drawn { OnOk result (self.new ≡ self.old ++ label_text class.now x y words.now) }
        ensures memory { OnErr result (self.new ≡ self.old) }
    {
        self.pen.label(class, x, y, words)?;
        self.text.extend_from_slice(self.pen.line.as_slice())?;
        Ok(())
    }

    /// The text of the elements.
    pub(crate) fn text(&self) -> &[u8]
        ensures text { result.now ≡ self.now }
        ensures content { IsContent result.now }
    {
        self.text.as_slice()
    }
}

impl Pen {
    /// A pen that has drawn nothing.
    fn new(alloc: Global) -> Pen {
        Pen {
            attributes: Vec::new(alloc),
            inside: Vec::new(alloc),
            value: Vec::new(alloc),
            line: Vec::new(alloc),
        }
    }

    /// Begins an element of this class.
    fn begin(&mut self, class: &str) -> Result<(), Memory>
        ensures { OnOk result ((self.new.attributes.items ≡ attribute_text (classed class.now))
            × (self.new.inside.items ≡ []) × (self.new.value.items ≡ [])) }
    {
        self.attributes.clear();
        self.inside.clear();
        self.value.clear();
        push_attribute(&mut self.attributes, "class", class.as_bytes())
    }

    /// Ends an element of this name: its line stands alone.
    fn end(&mut self, name: &str) -> Result<(), Memory>
        ensures { OnOk result (self.new.line.items ≡ opening name.now self.old.attributes.items
            ++ self.old.inside.items ++ closing name.now ++ 10 ∷ []) }
    {
        self.line.clear();
        push_line(
            &mut self.line,
            name,
            self.attributes.as_slice(),
            self.inside.as_slice(),
        )
    }

    /// The line of a rectangle.
    fn rect(&mut self, class: &str, frame: Frame, title: &[u8]) -> Result<(), Memory>
        ensures { OnOk result (self.new.line.items ≡ rect_text class.now frame title.now) }
    {
        self.begin(class)?;
        push_frame(&mut self.attributes, frame)?;
        push_title(&mut self.inside, title)?;
        self.end("rect")
    }

    /// The line of strokes.
    fn path(
        &mut self,
        class: &str,
        x: u32,
        y: u32,
        strokes: &str,
        title: &[u8],
    ) -> Result<(), Memory>
        ensures { OnOk result
            (self.new.line.items ≡ path_text class.now x y strokes.now title.now) }
    {
        self.begin(class)?;
        push_strokes(&mut self.value, x, y, strokes)?;
        push_attribute(&mut self.attributes, "d", self.value.as_slice())?;
        push_title(&mut self.inside, title)?;
        self.end("path")
    }

    /// The line of words.
    fn label(&mut self, class: &str, x: u32, y: u32, words: &[u8]) -> Result<(), Memory>
        ensures { OnOk result (self.new.line.items ≡ label_text class.now x y words.now) }
    {
        self.begin(class)?;
        push_place(&mut self.attributes, x, y)?;
        push_escaped(&mut self.inside, words)?;
        self.end("text")
    }
}

/// Appends the attributes of a point.
fn push_place(text: &mut Vec<u8>, x: u32, y: u32) -> Result<(), Memory>
    ensures { OnOk result
        (text.new.items ≡ text.old.items ++ flat_map attribute_text (placed x y)) }
{
    push_numbered(text, "x", x)?;
    push_numbered(text, "y", y)
}

/// Appends the attributes of a frame.
fn push_frame(text: &mut Vec<u8>, frame: Frame) -> Result<(), Memory>
    ensures { OnOk result
        (text.new.items ≡ text.old.items ++ flat_map attribute_text (framed frame)) }
{
    push_numbered(text, "x", frame.x)?;
    push_numbered(text, "y", frame.y)?;
    push_numbered(text, "width", frame.width)?;
    push_numbered(text, "height", frame.height)
}

/// Appends what leads from a point on.
fn push_strokes(value: &mut Vec<u8>, x: u32, y: u32, strokes: &str) -> Result<(), Memory>
    ensures { OnOk result (value.new.items ≡ value.old.items ++ strokes_text x y strokes.now) }
{
    push(value, "M")?;
    push_number(value, x)?;
    push(value, " ")?;
    push_number(value, y)?;
    push(value, strokes)
}
