//! What the words of the command line ask for.

ghost use Rattle.std.specs.Prelude.{◌≡◌, IfOk, IfSome};
ghost use Rattle.command_line.specs.Refusals.{word_at};
ghost use Rattle.live_run.specs.Calls.{live_call_of, of_table, of_tasks, plan_name, plan_words, recorded_call, record_name, HasPlan};

use command_line::Source;
use slot_core::{Memory, Words};
use std::alloc::Global;

/// What a live run is asked for.
#[derive(Clone, Copy)]
pub struct LiveCall {
    /// Where the plan comes from: the task file, or the table file.
    pub source: Source,
    /// Whether the arrivals are recorded.
    pub is_recorded: bool,
}

/// The call that the words write, or None where they are none of the forms.
pub fn live_call_of(words: &Words) -> Option<LiveCall>
    ensures call { result ≡ live_call_of words.now }
    ensures plan { IfSome result HasPlan }
{
    match words.len() {
        1 => of_tasks(words.word(0), false),
        2 => of_table(words.word(0), false),
        3 => recorded_call(
            words.word(0),
            words.word(1),
            words.word(2),
            of_tasks(words.word(0), true),
        ),
        4 => recorded_call(
            words.word(1),
            words.word(2),
            words.word(3),
            of_table(words.word(0), true),
        ),
        _ => None,
    }
}

/// The call over the task file of this name, which is no option.
fn of_tasks(name: &str, is_recorded: bool) -> Option<LiveCall>
    ensures call { result ≡ of_tasks name.now is_recorded }
    ensures plan { IfSome result HasPlan }
{
    if name.as_bytes().starts_with(b"--") {
        return None;
    }
    Some(LiveCall {
        source: Source::Tasks,
        is_recorded,
    })
}

/// The call over a table file, where this word asks for one.
fn of_table(word: &str, is_recorded: bool) -> Option<LiveCall>
    ensures call { result ≡ of_table word.now is_recorded }
    ensures plan { IfSome result HasPlan }
{
    match word {
        "--table" => Some(LiveCall {
            source: Source::Spelled,
            is_recorded,
        }),
        _ => None,
    }
}

/// The call over the plan of a file, where this word asks for a record in a file of another name.
fn recorded_call(plan: &str, word: &str, file: &str, call: Option<LiveCall>) -> Option<LiveCall>
    requires { IfSome call HasPlan }
    ensures call { result ≡ recorded_call plan.now word.now file.now call }
    ensures plan { IfSome result HasPlan }
{
    if file == plan {
        return None;
    }
    match word {
        "--record" => call,
        _ => None,
    }
}

/// The words by which the plan is read and blamed: one that nobody reads, and the name of its file.
pub(crate) fn plan_words(alloc: Global, words: &Words, call: LiveCall) -> Result<Words, Memory>
    ensures { IfOk result (λ names. names ≡ plan_words words.now call) }
{
    let mut names = Words::new(alloc);
    names.push("")?;
    names.push(plan_name(words, call))?;
    Ok(names)
}

/// The name of the plan's file.
pub(crate) fn plan_name(words: &Words, call: LiveCall) -> &str
    ensures { result.now ≡ plan_name words.now call }
{
    match call.source {
        Source::Spelled => word_or_nothing(words, 1),
        _ => word_or_nothing(words, 0),
    }
}

/// The name of the record, the last word.
pub(crate) fn record_name(words: &Words) -> &str
    ensures { result.now ≡ record_name words.now }
{
    word_or_nothing(words, words.len().saturating_sub(1))
}

/// The word at this place, counted from 0, or the empty word.
fn word_or_nothing(words: &Words, i: usize) -> &str
    ensures { result.now ≡ word_at words.now i }
{
    if i < words.len() { words.word(i) } else { "" }
}
