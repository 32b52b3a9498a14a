//! The pieces of a task file.

use itoa::Buffer;
use slot_core::{Memory, Name};
use time_texts::push_time;

/// Appends the text.
pub(crate) fn push(text: &mut Vec<u8>, piece: &str) -> Result<(), Memory> {
    text.extend_from_slice(piece.as_bytes())?;
    Ok(())
}

/// Appends a key with a name.
pub(crate) fn push_name(text: &mut Vec<u8>, name: &Name) -> Result<(), Memory> {
    push(text, "name = ")?;
    push_quoted(text, name)?;
    push(text, "\n")
}

/// Appends the name as a string.
pub(crate) fn push_quoted(text: &mut Vec<u8>, name: &Name) -> Result<(), Memory> {
    push(text, "\"")?;
    text.extend_from_slice(name.bytes())?;
    push(text, "\"")
}

/// Appends a key with a number.
pub(crate) fn push_number(text: &mut Vec<u8>, key: &str, number: u32) -> Result<(), Memory> {
    let mut digits = Buffer::new();
    push(text, key)?;
    push(text, " = ")?;
    push(text, digits.format(number))
}

/// Appends a key with a number of slots and, as a comment, the time that they stand for and the
/// time that they add to it or take from it.
pub(crate) fn push_slots(
    text: &mut Vec<u8>,
    key: &str,
    slots: u32,
    time: u64,
    change: Change,
) -> Result<(), Memory> {
    push_number(text, key, slots)?;
    push(text, "  # ")?;
    push_time(text, time)?;
    push_change(text, change)?;
    push(text, "\n")
}

/// What rounding does to a time.
#[derive(Clone, Copy)]
pub(crate) enum Change {
    /// It adds so much.
    More(u64),
    /// It takes so much away.
    Less(u64),
}

/// Appends what rounding does, where it does something.
fn push_change(text: &mut Vec<u8>, change: Change) -> Result<(), Memory> {
    match change {
        Change::More(0) | Change::Less(0) => Ok(()),
        Change::More(by) => push_by(text, by, " more"),
        Change::Less(by) => push_by(text, by, " less"),
    }
}

/// Appends a time and a word after it.
fn push_by(text: &mut Vec<u8>, by: u64, word: &str) -> Result<(), Memory> {
    push(text, ", ")?;
    push_time(text, by)?;
    push(text, word)
}
