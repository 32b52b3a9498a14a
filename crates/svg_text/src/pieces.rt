//! The pieces that elements are written of.

ghost use Rattle.std.specs.Prelude.{◌≡◌, [], ◌∷◌, ◌++◌, decimal, flat_map, OnOk};
ghost use Rattle.svg_text.specs.Content.{attribute_text, closing, escaped, escaped_byte, opening};
ghost use Rattle.svg_text.specs.Shapes.{numbered, title_text};

use itoa::Buffer;
use slot_core::Memory;

/// Appends the bytes as they are.
pub fn push(text: &mut Vec<u8>, bytes: &str) -> Result<(), Memory>
    ensures { OnOk result (text.new.items ≡ text.old.items ++ bytes.now) }
{
    text.extend_from_slice(bytes.as_bytes())?;
    Ok(())
}

/// Appends the number in decimal digits.
pub fn push_number(text: &mut Vec<u8>, n: u32) -> Result<(), Memory>
    ensures { OnOk result (text.new.items ≡ text.old.items ++ decimal n) }
{
    push(text, Buffer::new().format(n))
}

/// Appends the bytes as they stand in a text or in quotes.
pub(crate) fn push_escaped(text: &mut Vec<u8>, bytes: &[u8]) -> Result<(), Memory>
    ensures { OnOk result (text.new.items ≡ text.old.items ++ escaped bytes.now) }
{
    for byte in bytes {
        push_byte(text, *byte)?;
    }
    Ok(())
}

/// Appends the byte as it stands in a text or in quotes.
fn push_byte(text: &mut Vec<u8>, byte: u8) -> Result<(), Memory>
    ensures { OnOk result (text.new.items ≡ text.old.items ++ escaped_byte byte) }
{
    match byte {
        b'&' => push(text, "&amp;"),
        b'<' => push(text, "&lt;"),
        b'>' => push(text, "&gt;"),
        b'"' => push(text, "&quot;"),
        b'\n' | b' '..=b'~' => {
            text.push(byte)?;
            Ok(())
        }
        _ => push(text, "?"),
    }
}

/// Appends an attribute.
pub(crate) fn push_attribute(text: &mut Vec<u8>, name: &str, value: &[u8]) -> Result<(), Memory>
    ensures { OnOk result
        (text.new.items ≡ text.old.items ++ attribute_text (name.now, value.now)) }
{
    push(text, " ")?;
    push(text, name)?;
    push(text, "=\"")?;
    push_escaped(text, value)?;
    push(text, "\"")
}

/// Appends an attribute whose value is the number.
pub(crate) fn push_numbered(text: &mut Vec<u8>, name: &str, n: u32) -> Result<(), Memory>
    ensures { OnOk result
        (text.new.items ≡ text.old.items ++ attribute_text (numbered name.now n)) }
{
    push_attribute(text, name, Buffer::new().format(n).as_bytes())
}

/// Appends the tag that opens an element, with the text of its attributes.
pub(crate) fn push_opening(text: &mut Vec<u8>, name: &str, attributes: &[u8]) -> Result<(), Memory>
    ensures { OnOk result (text.new.items ≡ text.old.items ++ opening name.now attributes.now) }
{
    push(text, "<")?;
    push(text, name)?;
    text.extend_from_slice(attributes)?;
    push(text, ">")
}

/// Appends the tag that closes an element.
fn push_closing(text: &mut Vec<u8>, name: &str) -> Result<(), Memory>
    ensures { OnOk result (text.new.items ≡ text.old.items ++ closing name.now) }
{
    push(text, "</")?;
    push(text, name)?;
    push(text, ">")
}

/// Appends the tag that closes an element, and a line feed.
pub(crate) fn push_end(text: &mut Vec<u8>, name: &str) -> Result<(), Memory>
    ensures { OnOk result (text.new.items ≡ text.old.items ++ (closing name.now ++ 10 ∷ [])) }
{
    push_closing(text, name)?;
    push(text, "\n")
}

/// Appends an element on a line of its own, with the text of its attributes and what stands in it.
pub(crate) fn push_line(
    text: &mut Vec<u8>,
    name: &str,
    attributes: &[u8],
    inside: &[u8],
) -> Result<(), Memory>
    ensures { OnOk result (text.new.items ≡ text.old.items
        ++ (opening name.now attributes.now ++ inside.now ++ closing name.now ++ 10 ∷ [])) }
{
    push_opening(text, name, attributes)?;
    text.extend_from_slice(inside)?;
    push_end(text, name)
}

/// Appends the title, where it has any bytes.
pub(crate) fn push_title(text: &mut Vec<u8>, title: &[u8]) -> Result<(), Memory>
    ensures { OnOk result (text.new.items ≡ text.old.items ++ title_text title.now) }
{
    if title.is_empty() {
        return Ok(());
    }
    push(text, "<title>")?;
    push_escaped(text, title)?;
    push(text, "</title>")
}
