//! The items of an array in C.

ghost use Rattle.std.specs.Prelude.{◌≡◌, ◌<◌, ◌++◌, OnOk};
ghost use Rattle.plan_answers.specs.Headers.{array_bytes, array_text, break_text, byte_text, hex_digit, item_text};

use command_line::append::push;
use slot_core::Memory;

/// How many bytes stand in a line.
const ROW: usize = 12;

/// Appends the items of an array of these bytes.
pub(crate) fn push_array(text: &mut Vec<u8>, bytes: &[u8]) -> Result<(), Memory>
    ensures text { OnOk result (text.new.items ≡ text.old.items ++ array_text bytes.now) }
    ensures read { OnOk result (array_bytes (array_text bytes.now) ≡ bytes.now) }
{
    for (place, byte) in bytes.iter().enumerate() {
        push_item(text, place, *byte)?;
    }
    Ok(())
}

/// Appends the item at this place.
fn push_item(text: &mut Vec<u8>, place: usize, byte: u8) -> Result<(), Memory>
    ensures { OnOk result (text.new.items ≡ text.old.items ++ item_text (place, byte)) }
{
    push_break(text, place)?;
    push_byte(text, byte)
}

/// Appends the byte in two digits, and a comma.
fn push_byte(text: &mut Vec<u8>, byte: u8) -> Result<(), Memory>
    ensures { OnOk result (text.new.items ≡ text.old.items ++ byte_text byte) }
{
    push(text, b" 0x")?;
    push(text, &[hex_digit(byte / 16), hex_digit(byte % 16)])?;
    push(text, b",")
}

/// Appends the beginning of a line before the first byte that stands in it.
fn push_break(text: &mut Vec<u8>, place: usize) -> Result<(), Memory>
    ensures { OnOk result (text.new.items ≡ text.old.items ++ break_text place) }
{
    if place % ROW == 0 {
        push(text, b"\n   ")
    } else {
        Ok(())
    }
}

/// A digit of a number below 16.
fn hex_digit(number: u8) -> u8
    requires { number < 16 }
    ensures { result ≡ hex_digit number }
{
    if number < 10 {
        b'0' + number
    } else {
        b'a' - 10 + number
    }
}
