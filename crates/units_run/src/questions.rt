//! The command line: which words ask which question.

ghost use Rattle.std.specs.Prelude.{◌≡◌};
ghost use Rattle.units_run.specs.Questions.{plain_question, question_of, range_question};

use slot_core::Words;
use time_texts::time_of;

/// What is asked of a file of units.
#[derive(Clone, Copy, PartialEq, Eq)]
pub enum Question {
    /// The task file of its set in slots.
    Tasks,
    /// The lengths of a slot, from one to another in nanoseconds.
    Check(u64, u64),
    /// The arrivals file of a file of arrivals with times.
    Arrivals,
    /// The trace with times of a trace on standard input.
    Trace,
}

/// The question that the words ask, or None where they ask none.
pub fn question_of(words: &Words) -> Option<Question>
    ensures { result ≡ question_of words.now }
{
    if words.len() == 2 {
        return plain_question(words.word(0));
    }
    if words.len() == 3 && words.word(0) == "arrivals" {
        return Some(Question::Arrivals);
    }
    if words.len() == 4 && words.word(0) == "check" {
        return range_question(words.word(2), words.word(3));
    }
    None
}

/// The question of this name, with no range.
fn plain_question(word: &str) -> Option<Question>
    ensures { result ≡ plain_question word.now }
{
    match word {
        "tasks" => Some(Question::Tasks),
        "check" => Some(Question::Check(0, u64::MAX)),
        "trace" => Some(Question::Trace),
        _ => None,
    }
}

/// The question with a range, where both words are times.
fn range_question(from: &str, to: &str) -> Option<Question>
    ensures { result ≡ range_question from.now to.now }
{
    let from = time_of(from.as_bytes())?;
    let to = time_of(to.as_bytes())?;
    Some(Question::Check(from, to))
}
