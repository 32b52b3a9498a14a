//! A finished drawing.

ghost use Rattle.std.specs.Prelude.{◌≡◌, ◌≤◌, ◌++◌, ◌∷◌, [], codes, decimal, flat_map, IfOk, OnErr, OnOk};
ghost use Rattle.std.specs.Io.KnownBytes.{Appends};
ghost use Rattle.std.specs.Str.{IsAscii};
ghost use Rattle.slot_core.specs.Calls.Counts.{Rose};
ghost use Rattle.slot_io.specs.Sinks.{AppendsPart};
ghost use Rattle.svg_text.specs.Content.{IsDocument, attribute_text, escaped, opening};
ghost use Rattle.svg_text.specs.Shapes.{document_text, line_text, size, sized};

use crate::drawing::Drawing;
use crate::pieces::{
    push, push_attribute, push_end, push_escaped, push_number, push_numbered, push_opening,
};
use slot_core::{Failed, Memory};
use slot_io::Sink;
use std::alloc::Global;
use std::marker::Model;

/// An SVG document. Contracts see its text.
#[derive(Drop)]
pub struct Document {
    text: Vec<u8>,
}

impl Model for Document {
    ghost use Rattle.std.specs.Prelude.{ℕ, List};
    ghost use Rattle.svg_text.specs.Content.{IsDocument};

    ghost Value = { List ℕ };

    ghost view = { λ d. d.text.items };

    ghost invariant = { λ d. IsDocument d.text.items };
}

impl Document {
    /// The document of this width and height, in pixels, with a style sheet that says how each
    /// class of elements looks, and with the drawing.
    pub fn new(
        alloc: Global,
        width: u32,
        height: u32,
        style: &str,
        drawing: &Drawing,
    ) -> Result<Document, Memory>
        ensures text { IfOk result
            (λ document. document ≡ document_text width height style.now drawing.now) }
        ensures formed { IfOk result (λ document. IsDocument document) }
    {
        let mut text = Vec::new(alloc);
        push_document(alloc, &mut text, width, height, style, drawing.text())?;
        Ok(Document { text })
    }

    /// Its bytes, which are well-formed and ASCII.
    pub fn bytes(&self) -> &[u8]
        ensures text { result.now ≡ self.now }
        ensures formed { IsDocument result.now }
        ensures ascii { IsAscii result.now }
    {
        self.text.as_slice()
    }

    /// Writes it in one put. After Failed a part of it from the front is written, and the sink has
    /// counted a fault.
    pub fn put<K: Sink>(&self, out: &mut K) -> Result<(), Failed>
        ensures text { OnOk result (Appends (K.written out.old) (K.written out.new) self.now) }
        ensures part { OnErr result (AppendsPart (K.written out.old) (K.written out.new) self.now) }
        ensures counted { K.faults out.old ≤ K.faults out.new }
        ensures failed { OnErr result (Rose (K.faults out.old) (K.faults out.new)) }
        ensures formed { IsDocument self.now }
    {
        out.put(self.bytes())
    }
}

/// Appends a document.
fn push_document(
    alloc: Global,
    text: &mut Vec<u8>,
    width: u32,
    height: u32,
    style: &str,
    drawing: &[u8],
) -> Result<(), Memory>
    ensures { OnOk result
        (text.new.items ≡ text.old.items ++ document_text width height style.now drawing.now) }
{
    push_head(alloc, text, width, height)?;
    push_inside(text, style, drawing)?;
    push_end(text, "svg")?;
    Ok(())
}

/// Appends the tag that opens a document.
fn push_head(alloc: Global, text: &mut Vec<u8>, width: u32, height: u32) -> Result<(), Memory>
    ensures { OnOk result (text.new.items ≡ text.old.items
        ++ opening (codes "svg") (flat_map attribute_text (sized width height))) }
{
    let mut attributes = Vec::new(alloc);
    push_sized(alloc, &mut attributes, width, height)?;
    push_opening(text, "svg", attributes.as_slice())
}

/// Appends the attributes of a document.
fn push_sized(alloc: Global, text: &mut Vec<u8>, width: u32, height: u32) -> Result<(), Memory>
    ensures { OnOk result
        (text.new.items ≡ text.old.items ++ flat_map attribute_text (sized width height)) }
{
    push_attribute(text, "xmlns", b"http://www.w3.org/2000/svg")?;
    push_size(alloc, text, width, height)
}

/// Appends the attributes of a size, all of which is seen.
fn push_size(alloc: Global, text: &mut Vec<u8>, width: u32, height: u32) -> Result<(), Memory>
    ensures { OnOk result
        (text.new.items ≡ text.old.items ++ flat_map attribute_text (size width height)) }
{
    push_numbered(text, "width", width)?;
    push_numbered(text, "height", height)?;
    push_view(alloc, text, width, height)?;
    Ok(())
}

/// Appends the attribute that says which part of the drawing is seen: all of it.
fn push_view(alloc: Global, text: &mut Vec<u8>, width: u32, height: u32) -> Result<(), Memory>
    ensures { OnOk result (text.new.items ≡ text.old.items ++ attribute_text
        (codes "viewBox", codes "0 0 " ++ decimal width ++ codes " " ++ decimal height)) }
{
    let mut value = Vec::new(alloc);
    push(&mut value, "0 0 ")?;
    push_number(&mut value, width)?;
    push(&mut value, " ")?;
    push_number(&mut value, height)?;
    push_attribute(text, "viewBox", value.as_slice())
}

/// Appends the style sheet and the drawing.
fn push_inside(text: &mut Vec<u8>, style: &str, drawing: &[u8]) -> Result<(), Memory>
    ensures { OnOk result (text.new.items ≡ text.old.items
        ++ (10 ∷ line_text (codes "style") [] (escaped style.now) ++ drawing.now)) }
{
    push(text, "\n")?;
    push_opening(text, "style", b"")?;
    push_escaped(text, style.as_bytes())?;
    push_end(text, "style")?;
    text.extend_from_slice(drawing)?;
    Ok(())
}
