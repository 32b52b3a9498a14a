//! Lines at the end of a text.

ghost use Rattle.std.specs.Prelude.{◌≡◌, ◌∷◌, ◌++◌, [], OnOk, codes};
ghost use Rattle.slot_core.specs.Output.Texts.{worded};

use command_line::append::{push, push_worded};
use slot_core::{Memory, Name};

/// Appends the line of a word and a number.
pub(crate) fn push_line(text: &mut Vec<u8>, word: &[u8], number: u64) -> Result<(), Memory>
    ensures { OnOk result (text.new.items ≡ text.old.items ++ (worded word.now number ++ 10 ∷ [])) }
{
    push_worded(text, word, number)?;
    push(text, b"\n")
}

/// Appends two names, a point between them.
pub(crate) fn push_label(text: &mut Vec<u8>, graph: &Name, task: &Name) -> Result<(), Memory>
    ensures { OnOk result
        (text.new.items ≡ text.old.items ++ (graph.now ++ codes "." ++ task.now)) }
{
    push(text, graph.bytes())?;
    push(text, b".")?;
    push(text, task.bytes())
}
