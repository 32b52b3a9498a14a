//! Texts at the end of a line.

ghost use Rattle.std.specs.Prelude.{◌≡◌, ◌∷◌, ◌++◌, OnOk, decimal};
ghost use Rattle.slot_core.specs.Output.FaultTexts.{infeasible_text};
ghost use Rattle.slot_core.specs.Output.Texts.{worded};

use itoa::Buffer;
use slot_core::{Memory, Window};

/// Appends the bytes.
pub fn push(line: &mut Vec<u8>, bytes: &[u8]) -> Result<(), Memory>
    ensures { OnOk result (line.new.items ≡ line.old.items ++ bytes.now) }
{
    line.extend_from_slice(bytes)?;
    Ok(())
}

/// Appends a space and the number.
pub(crate) fn push_number(line: &mut Vec<u8>, number: u64) -> Result<(), Memory>
    ensures { OnOk result (line.new.items ≡ line.old.items ++ 32 ∷ decimal number) }
{
    let mut buffer = Buffer::new();
    push(line, b" ")?;
    push(line, buffer.format(number).as_bytes())
}

/// Appends the word, a space and the number.
pub fn push_worded(line: &mut Vec<u8>, word: &[u8], number: u64) -> Result<(), Memory>
    ensures { OnOk result (line.new.items ≡ line.old.items ++ worded word.now number) }
{
    push(line, word)?;
    push_number(line, number)
}

/// Appends the window that fails.
pub(crate) fn push_window(line: &mut Vec<u8>, window: Window) -> Result<(), Memory>
    ensures { OnOk result (line.new.items ≡ line.old.items ++ infeasible_text window) }
{
    push_worded(line, b"infeasible", window.from)?;
    push_number(line, window.until)?;
    push_number(line, window.demand)
}
