//! The files of the command line.

ghost use Rattle.std.specs.Prelude.{◌≡◌, ◌≤◌};
ghost use Rattle.command_line.specs.Refusals.{arrivals_place, word_at, name_of, limit_of};

use slot_core::{ARRIVALS_FILE_LIMIT, READ_LIMIT, TABLE_FILE_LIMIT, TASK_FILE_LIMIT, Words};

/// How many words ask for a change of plan, which names a second task file.
pub const CHANGE_WORDS: usize = 6;

/// A file of the command line.
#[derive(Clone, Copy)]
pub enum File {
    /// The task file, the second word.
    Tasks,
    /// The table file, the second word.
    Table,
    /// The second task file, of a change of plan: the third word.
    Second,
    /// The arrivals file: the third word, or the one after the second task file.
    Arrivals,
    /// The file of a recorded trace, the fourth word.
    Trace,
}

impl File {
    /// The name of the file among the words, empty where there is no such word.
    pub fn name(self, words: &Words) -> &str
        ensures { result.now ≡ name_of words.now self }
    {
        match self {
            File::Tasks | File::Table => word_or_nothing(words, 1),
            File::Second => word_or_nothing(words, 2),
            File::Arrivals => word_or_nothing(words, arrivals_place(words.len())),
            File::Trace => word_or_nothing(words, 3),
        }
    }

    /// Most bytes of the file.
    pub fn limit(self) -> usize
        ensures limit { result ≡ limit_of self }
        ensures small { result ≤ READ_LIMIT }
    {
        match self {
            File::Tasks | File::Second => TASK_FILE_LIMIT,
            File::Table => TABLE_FILE_LIMIT,
            File::Arrivals => ARRIVALS_FILE_LIMIT,
            File::Trace => READ_LIMIT,
        }
    }
}

/// The place of the arrivals file among this many words, counted from 0.
fn arrivals_place(words: usize) -> usize
    ensures { result ≡ arrivals_place words }
{
    if words == CHANGE_WORDS { 3 } else { 2 }
}

/// The word at this place, counted from 0, or the empty word.
fn word_or_nothing(words: &Words, i: usize) -> &str
    ensures { result.now ≡ word_at words.now i }
{
    if i < words.len() { words.word(i) } else { "" }
}
