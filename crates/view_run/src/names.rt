//! The names of the files of a view.

ghost use Rattle.std.specs.Prelude.{◌≡◌, IfOk};
ghost use Rattle.command_line.specs.Refusals.{word_at};
ghost use Rattle.view_run.specs.Names.{names_of, plan_name};

use crate::INPUT_NAME;
use crate::views::{Source, View};
use slot_core::{Memory, Words};
use std::alloc::Global;

/// Words that name the files of a view in the places that `File` gives them: the task file or table
/// in the second place, and standard input, which holds the trace or supply, in the fourth.
pub(crate) type Names = Words;

/// The names of the files of the view.
pub(crate) fn names_of(alloc: Global, words: &Words, view: View) -> Result<Names, Memory>
    ensures { IfOk result (λ names. names ≡ names_of words.now view) }
{
    let mut names = Words::new(alloc);
    names.push("slotview")?;
    names.push(plan_name(words, view))?;
    names.push("")?;
    names.push(INPUT_NAME)?;
    Ok(names)
}

/// The name of the file of the plan, or nothing where the view has none.
fn plan_name(words: &Words, view: View) -> &str
    ensures { result.now ≡ plan_name words.now view }
{
    match view {
        View::Planned(_, Source::Tasks) => word_or_nothing(words, 1),
        View::Planned(_, Source::Table) => word_or_nothing(words, 2),
        View::Lines(_, _) | View::Stairs => "",
    }
}

/// The word at this place, counted from 0, or the empty word.
fn word_or_nothing(words: &Words, i: usize) -> &str
    ensures { result.now ≡ word_at words.now i }
{
    if i < words.len() { words.word(i) } else { "" }
}
