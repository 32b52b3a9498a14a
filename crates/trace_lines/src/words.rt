//! The words of a line: what it tells.

ghost use Rattle.std.specs.Prelude.{◌≡◌};
ghost use Rattle.trace_lines.specs.Readings.{arrival_words, done_words, firm_words, longer_words, soft_words, sporadic_words, withdraw_words, worded_arrival, words_of};

use crate::answers::{
    done_answer, firm_answer, gone_answer, is_word, soft_answer, sporadic_answer,
};
use crate::keys::{firm_row, key_named};
use crate::line::Words;
use key_texts::{cut_at, number_of, row_number};
use slot_core::Name;

/// What the words tell, of a line that is not the end.
pub(crate) fn words_of(text: &[u8]) -> Option<Words>
    ensures { result ≡ words_of text.now }
{
    match text {
        b"start" => Some(Words::Start),
        b"idle" => Some(Words::Idle),
        _ => longer_words(text),
    }
}

/// What the words tell where there are more than one.
fn longer_words(text: &[u8]) -> Option<Words>
    ensures { result ≡ longer_words text.now }
{
    let (word, rest) = cut_at(text, b' ')?;
    match word {
        b"run" => key_named(rest).map(Words::Run),
        _ => arrival_words(word, rest),
    }
}

/// What is told of an arrival, by the word of its kind, from its row on.
fn arrival_words(word: &[u8], text: &[u8]) -> Option<Words>
    ensures { result ≡ arrival_words word.now text.now }
{
    let (row, rest) = cut_at(text, b' ')?;
    let row = row_number(row)?;
    worded_arrival(word, row, rest)
}

/// What is told of the arrival in this row, by the word of its kind.
fn worded_arrival(word: &[u8], row: u32, text: &[u8]) -> Option<Words>
    ensures { result ≡ worded_arrival word.now row text.now }
{
    if is_word(word, b"sporadic") {
        return sporadic_words(row, text);
    }
    if is_word(word, b"withdraw") {
        return withdraw_words(row, text);
    }
    match word {
        b"soft" => soft_words(row, text),
        b"firm" => firm_words(row, text),
        b"done" => done_words(row, text),
        _ => None,
    }
}

/// What is told of soft work in this row.
fn soft_words(row: u32, text: &[u8]) -> Option<Words>
    ensures { result ≡ soft_words row text.now }
{
    let (slots, answer) = cut_at(text, b' ')?;
    let slots = number_of(slots)?;
    let answer = soft_answer(answer)?;
    Some(Words::Soft(row, slots, answer))
}

/// What is told of a firm task in this row.
fn firm_words(row: u32, text: &[u8]) -> Option<Words>
    ensures { result ≡ firm_words row text.now }
{
    let (slots, rest) = cut_at(text, b' ')?;
    let (within, answer) = cut_at(rest, b' ')?;
    let slots = number_of(slots)?;
    let within = number_of(within)?;
    let answer = firm_answer(answer)?;
    Some(Words::Firm(row, slots, within, answer))
}

/// What is told of a sporadic arrival in this row.
fn sporadic_words(row: u32, text: &[u8]) -> Option<Words>
    ensures { result ≡ sporadic_words row text.now }
{
    let (name, answer) = cut_at(text, b' ')?;
    let answer = sporadic_answer(answer)?;
    let name = Name::of(name)?;
    Some(Words::Sporadic(row, name, answer))
}

/// What is told of an early end in this row.
fn done_words(row: u32, text: &[u8]) -> Option<Words>
    ensures { result ≡ done_words row text.now }
{
    let (key, answer) = cut_at(text, b' ')?;
    let answer = done_answer(answer)?;
    let key = key_named(key)?;
    Some(Words::Done(row, key, answer))
}

/// What is told of a withdrawal in this row.
fn withdraw_words(row: u32, text: &[u8]) -> Option<Words>
    ensures { result ≡ withdraw_words row text.now }
{
    let (key, answer) = cut_at(text, b' ')?;
    let answer = gone_answer(answer)?;
    let firm = firm_row(key)?;
    Some(Words::Withdraw(row, firm, answer))
}
