//! Words of an entry at the end of a line.

ghost use Rattle.std.specs.Prelude.{◌≡◌, ◌≤◌, ◌+◌, true, length, codes, decimal, ◌++◌, ◌∷◌, nat_lt};
ghost use Rattle.slot_core.specs.declared.jobs.Key.TheVariants.{Firm as FirmKey};
ghost use Rattle.slot_core.specs.Runs.Arrivals.{key_in_set, what_in_set};
ghost use Rattle.slot_core.specs.Output.Texts.{key_text, sporadic_name, worded, soft_text, firm_text, sporadic_text, done_text, gone_text, what_text};
ghost use Rattle.trace_text.specs.declared.TheConstants.{ANSWER_LIMIT, DECIMAL_LIMIT, LINE_LIMIT, WORDS_LIMIT};

use crate::keys::{push_key, push_sporadic};
use crate::line::Line;
use slot_core::{Done, Firm, Gone, Key, Soft, Spo, TaskSet, What};

/// Appends a space and the number.
pub(crate) fn push_number(line: &mut Line, n: u64)
    requires { length line.old + 1 + DECIMAL_LIMIT ≤ LINE_LIMIT }
    ensures text { line.new ≡ line.old ++ 32 ∷ decimal n }
    ensures short { length line.new ≤ length line.old + 1 + DECIMAL_LIMIT }
{
    line.push(b" ");
    line.number(n);
}

/// Appends the answer to soft work.
fn push_soft(line: &mut Line, answer: Soft)
    requires { length line.old + ANSWER_LIMIT ≤ LINE_LIMIT }
    ensures text { line.new ≡ line.old ++ soft_text answer }
    ensures short { length line.new ≤ length line.old + ANSWER_LIMIT }
{
    match answer {
        Soft::Taken => line.push(b"taken"),
        Soft::Full(jobs) => {
            line.push(b"full");
            push_number(line, u64::from(jobs));
        }
    }
}

/// Appends the answer to a firm task.
fn push_firm(line: &mut Line, answer: &Firm)
    requires { length line.old + ANSWER_LIMIT ≤ LINE_LIMIT }
    ensures text { line.new ≡ line.old ++ firm_text answer.now }
    ensures short { length line.new ≤ length line.old + ANSWER_LIMIT }
{
    match *answer {
        Firm::Accepted => line.push(b"accepted"),
        Firm::Late => line.push(b"late"),
        Firm::Far => line.push(b"far"),
        Firm::NoRoom(evidence) => {
            line.push(b"noroom");
            push_number(line, evidence.until);
            push_number(line, evidence.need);
            push_number(line, evidence.room);
        }
    }
}

/// Appends the answer to a sporadic arrival.
fn push_spo(line: &mut Line, answer: Spo)
    requires { length line.old + ANSWER_LIMIT ≤ LINE_LIMIT }
    ensures text { line.new ≡ line.old ++ sporadic_text answer }
    ensures short { length line.new ≤ length line.old + ANSWER_LIMIT }
{
    match answer {
        Spo::Taken(due) => {
            line.push(b"taken");
            push_number(line, due);
        }
        Spo::Soon(next) => {
            line.push(b"soon");
            push_number(line, next);
        }
    }
}

/// Appends the answer to an early end.
fn push_done(line: &mut Line, answer: Done)
    requires { length line.old + ANSWER_LIMIT ≤ LINE_LIMIT }
    ensures text { line.new ≡ line.old ++ done_text answer }
    ensures short { length line.new ≤ length line.old + ANSWER_LIMIT }
{
    match answer {
        Done::Freed(slots) => {
            line.push(b"freed");
            push_number(line, u64::from(slots));
        }
        Done::NotRunning => line.push(b"notrunning"),
    }
}

/// Appends the words of soft work.
fn push_soft_words(line: &mut Line, row: u32, slots: u32, answer: Soft)
    requires { length line.old + WORDS_LIMIT ≤ LINE_LIMIT }
    ensures text { line.new ≡ line.old
        ++ (worded (worded (codes "soft") row) slots ++ 32 ∷ soft_text answer) }
    ensures short { length line.new ≤ length line.old + WORDS_LIMIT }
{
    line.push(b"soft");
    push_number(line, u64::from(row));
    push_number(line, u64::from(slots));
    line.push(b" ");
    push_soft(line, answer);
}

/// Appends the words of a firm task.
fn push_firm_words(line: &mut Line, row: u32, slots: u32, within: u32, answer: &Firm)
    requires { length line.old + WORDS_LIMIT ≤ LINE_LIMIT }
    ensures text { line.new ≡ line.old
        ++ (worded (worded (worded (codes "firm") row) slots) within ++ 32 ∷ firm_text answer.now) }
    ensures short { length line.new ≤ length line.old + WORDS_LIMIT }
{
    line.push(b"firm");
    push_number(line, u64::from(row));
    push_number(line, u64::from(slots));
    push_number(line, u64::from(within));
    line.push(b" ");
    push_firm(line, answer);
}

/// Appends the words of a sporadic arrival.
fn push_sporadic_words(line: &mut Line, row: u32, index: u8, answer: Spo, tasks: &TaskSet)
    requires named { nat_lt index (length tasks.now.sporadics) ≡ true }
    requires room { length line.old + WORDS_LIMIT ≤ LINE_LIMIT }
    ensures text { line.new ≡ line.old ++ (worded (codes "sporadic") row
        ++ 32 ∷ sporadic_name tasks.now index ++ 32 ∷ sporadic_text answer) }
    ensures short { length line.new ≤ length line.old + WORDS_LIMIT }
{
    line.push(b"sporadic");
    push_number(line, u64::from(row));
    line.push(b" ");
    push_sporadic(line, index, tasks);
    line.push(b" ");
    push_spo(line, answer);
}

/// Appends the words of an early end.
fn push_done_words(line: &mut Line, row: u32, key: &Key, answer: Done, tasks: &TaskSet)
    requires named { key_in_set tasks.now key.now ≡ true }
    requires room { length line.old + WORDS_LIMIT ≤ LINE_LIMIT }
    ensures text { line.new ≡ line.old ++ (worded (codes "done") row
        ++ 32 ∷ key_text tasks.now key.now ++ 32 ∷ done_text answer) }
    ensures short { length line.new ≤ length line.old + WORDS_LIMIT }
{
    line.push(b"done");
    push_number(line, u64::from(row));
    line.push(b" ");
    push_key(line, key, tasks);
    line.push(b" ");
    push_done(line, answer);
}

/// Appends the answer to a withdrawal.
fn push_gone(line: &mut Line, answer: Gone)
    requires { length line.old + ANSWER_LIMIT ≤ LINE_LIMIT }
    ensures text { line.new ≡ line.old ++ gone_text answer }
    ensures short { length line.new ≤ length line.old + ANSWER_LIMIT }
{
    match answer {
        Gone::Freed(slots) => {
            line.push(b"freed");
            push_number(line, u64::from(slots));
        }
        Gone::NoJob => line.push(b"nojob"),
    }
}

/// Appends the words of a withdrawal.
fn push_withdraw_words(line: &mut Line, row: u32, firm: u32, answer: Gone, tasks: &TaskSet)
    requires { length line.old + WORDS_LIMIT ≤ LINE_LIMIT }
    ensures text { line.new ≡ line.old ++ (worded (codes "withdraw") row
        ++ 32 ∷ key_text tasks.now (FirmKey firm) ++ 32 ∷ gone_text answer) }
    ensures short { length line.new ≤ length line.old + WORDS_LIMIT }
{
    line.push(b"withdraw");
    push_number(line, u64::from(row));
    line.push(b" ");
    push_key(line, &Key::Firm(firm), tasks);
    line.push(b" ");
    push_gone(line, answer);
}

/// Appends the words of an entry.
#[inline(always)]
pub(crate) fn push_what(line: &mut Line, what: &What, tasks: &TaskSet)
    requires named { what_in_set tasks.now what.now ≡ true }
    requires room { length line.old + WORDS_LIMIT ≤ LINE_LIMIT }
    ensures text { line.new ≡ line.old ++ what_text tasks.now what.now }
    ensures short { length line.new ≤ length line.old + WORDS_LIMIT }
{
    match *what {
        What::Start => line.push(b"start"),
        What::Soft(row, slots, answer) => push_soft_words(line, row, slots, answer),
        What::Firm(row, slots, within, ref answer) => push_firm_words(
            line, row, slots, within, answer,
        ),
        What::Sporadic(row, index, answer) => push_sporadic_words(line, row, index, answer, tasks),
        What::Done(row, ref key, answer) => push_done_words(line, row, key, answer, tasks),
        What::Withdraw(row, firm, answer) => push_withdraw_words(line, row, firm, answer, tasks),
        What::Run(ref key) => {
            line.push(b"run ");
            push_key(line, key, tasks);
        }
        What::Idle => line.push(b"idle"),
        What::End => line.push(b"end"),
    }
}
