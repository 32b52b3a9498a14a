//! The command line: which words ask which question.

ghost use Rattle.std.specs.Prelude.{◌≡◌};
ghost use Rattle.plan_run.specs.Questions.{question_named, question_numbered, question_of, within_question};

use key_texts::number_between;
use slot_core::{OFFER_LIMIT, Words};

/// What is asked of a task file, the second word.
#[derive(Clone, Copy, PartialEq, Eq)]
pub enum Question {
    /// The slots of each task in a cycle, and their sums.
    Load,
    /// Who is in the window that fails.
    Who,
    /// A header for a program in C.
    Header,
    /// The guaranteed supply, a line for each flat end of its staircase.
    Supply,
    /// The guaranteed supply within so many slots.
    SupplyWithin(u32),
}

/// The question that the words ask, or None where they ask none.
pub fn question_of(words: &Words) -> Option<Question>
    ensures { result ≡ question_of words.now }
{
    match words.len() {
        2 => question_named(words.word(0)),
        3 => question_numbered(words.word(0), words.word(2)),
        _ => None,
    }
}

/// The question of this name.
fn question_named(word: &str) -> Option<Question>
    ensures { result ≡ question_named word.now }
{
    match word {
        "load" => Some(Question::Load),
        "who" => Some(Question::Who),
        "header" => Some(Question::Header),
        "supply" => Some(Question::Supply),
        _ => None,
    }
}

/// The question of this name and this number of slots.
fn question_numbered(word: &str, number: &str) -> Option<Question>
    ensures { result ≡ question_numbered word.now number.now }
{
    match word {
        "supply" => within_question(number),
        _ => None,
    }
}

/// The question for the supply within this number of slots.
fn within_question(number: &str) -> Option<Question>
    ensures { result ≡ within_question number.now }
{
    let within = number_between(number.as_bytes(), 1, OFFER_LIMIT)?;
    Some(Question::SupplyWithin(within))
}
