//! The titles of what is drawn, and the labels of rows.

ghost use Rattle.std.specs.Prelude.{◌≡◌, ◌++◌, decimal, IfOk, OnOk};
ghost use Rattle.trace_lines.specs.Texts.{key_text};
ghost use Rattle.view_picture.specs.Titles.{block_title, slots_words};

use itoa::Buffer;
use run_blocks::{Block, Row};
use slot_core::{Done, Firm, Gone, Memory, Soft, Spo};
use std::alloc::Global;
use svg_text::pieces::{push, push_number};
use trace_lines::{KeyName, TraceLine, Words, key_text};

/// The label of a row.
pub(crate) fn row_label(alloc: Global, row: &Row) -> Result<Vec<u8>, Memory> {
    let mut text = Vec::new(alloc);
    match row {
        Row::Task(graph, task) => {
            text.extend_from_slice(graph.bytes())?;
            push(&mut text, ".")?;
            text.extend_from_slice(task.bytes())?;
        }
        Row::Sporadic(name) => text.extend_from_slice(name.bytes())?,
        Row::FirmJob(row) => push_numbered(&mut text, "firm:", u64::from(*row))?,
        Row::Firm => push(&mut text, "firm")?,
        Row::Soft => push(&mut text, "soft")?,
    }
    Ok(text)
}

/// The title of a block: its key, how many slots, and which.
pub(crate) fn block_title(alloc: Global, block: &Block<'_>) -> Result<Vec<u8>, Memory>
    ensures { IfOk result (λ title. title.items ≡ block_title block.now) }
{
    let mut text = Vec::new(alloc);
    push_key(&mut text, block.key)?;
    push_slots(&mut text, ": ", block.end.saturating_sub(block.start))?;
    push_numbered(&mut text, ", ", block.start)?;
    push_numbered(&mut text, "-", block.end)?;
    Ok(text)
}

/// The title of capacities that are the same after the slots [start, end).
pub(crate) fn level_title(
    alloc: Global,
    slots: (u64, u64),
    first: i64,
    least: i64,
) -> Result<Vec<u8>, Memory> {
    let mut text = Vec::new(alloc);
    push_numbered(&mut text, "after slots ", slots.0)?;
    push_numbered(&mut text, "-", slots.1)?;
    push_signed(&mut text, ": first ", first)?;
    push_signed(&mut text, ", least ", least)?;
    Ok(text)
}

/// The title of what a line tells that arrived: its row and time, what it is, and the answer.
pub(crate) fn arrival_title(alloc: Global, line: &TraceLine) -> Result<Vec<u8>, Memory> {
    let mut text = Vec::new(alloc);
    match &line.words {
        Words::Soft(row, slots, answer) => push_soft(&mut text, *row, line.time, *slots, *answer)?,
        Words::Firm(row, slots, within, answer) => {
            push_row(&mut text, *row, line.time)?;
            push_slots(&mut text, "firm offer of ", u64::from(*slots))?;
            push_numbered(&mut text, " within ", u64::from(*within))?;
            push_firm(&mut text, *answer)?;
        }
        Words::Sporadic(row, name, answer) => {
            push_row(&mut text, *row, line.time)?;
            push(&mut text, "alarm ")?;
            text.extend_from_slice(name.bytes())?;
            push_sporadic(&mut text, *answer)?;
        }
        Words::Done(row, key, answer) => {
            push_row(&mut text, *row, line.time)?;
            push(&mut text, "early end of ")?;
            push_key(&mut text, key)?;
            push_done(&mut text, *answer)?;
        }
        Words::Withdraw(row, firm, answer) => {
            push_row(&mut text, *row, line.time)?;
            push_numbered(&mut text, "withdrawal of firm:", u64::from(*firm))?;
            push_gone(&mut text, *answer)?;
        }
        Words::Start | Words::Run(_) | Words::Idle | Words::End => {}
    }
    Ok(text)
}

/// Appends soft work and the answer to it.
fn push_soft(
    text: &mut Vec<u8>,
    row: u32,
    time: u32,
    slots: u32,
    answer: Soft,
) -> Result<(), Memory> {
    push_row(text, row, time)?;
    push_slots(text, "soft work of ", u64::from(slots))?;
    match answer {
        Soft::Taken => push(text, ": taken"),
        Soft::Full(waiting) => {
            push_numbered(text, ": refused, ", u64::from(waiting))?;
            push(text, " wait already")
        }
    }
}

/// Appends the answer to a firm offer.
fn push_firm(text: &mut Vec<u8>, answer: Firm) -> Result<(), Memory> {
    match answer {
        Firm::Accepted => push(text, ": accepted"),
        Firm::Late => push(text, ": late, its deadline is now"),
        Firm::Far => push(text, ": far, its deadline is more than a cycle ahead"),
        Firm::NoRoom(evidence) => {
            push_numbered(text, ": refused, by ", evidence.until)?;
            push_numbered(text, " it needs ", evidence.need)?;
            push_slots(text, " of ", evidence.room)
        }
    }
}

/// Appends the answer to an alarm.
fn push_sporadic(text: &mut Vec<u8>, answer: Spo) -> Result<(), Memory> {
    match answer {
        Spo::Taken(due) => push_numbered(text, ": taken, due at ", due),
        Spo::Soon(next) => push_numbered(text, ": too soon, may come at ", next),
    }
}

/// Appends the answer to an early end.
fn push_done(text: &mut Vec<u8>, answer: Done) -> Result<(), Memory> {
    match answer {
        Done::Freed(slots) => push_free(text, slots),
        Done::NotRunning => push(text, ": not running"),
    }
}

/// Appends the answer to a withdrawal.
fn push_gone(text: &mut Vec<u8>, answer: Gone) -> Result<(), Memory> {
    match answer {
        Gone::Freed(slots) => push_free(text, slots),
        Gone::NoJob => push(text, ": no such job"),
    }
}

/// Appends how many slots are free.
fn push_free(text: &mut Vec<u8>, slots: u32) -> Result<(), Memory> {
    push_slots(text, ": ", u64::from(slots))?;
    push(text, " free")
}

/// Appends the row of an arrival and its time.
fn push_row(text: &mut Vec<u8>, row: u32, time: u32) -> Result<(), Memory> {
    push_numbered(text, "row ", u64::from(row))?;
    push_numbered(text, " at ", u64::from(time))?;
    push(text, ", ")
}

/// Appends words and so many slots.
fn push_slots(text: &mut Vec<u8>, words: &str, slots: u64) -> Result<(), Memory>
    ensures { OnOk result
        (text.new.items ≡ text.old.items ++ (words.now ++ slots_words slots)) }
{
    push_numbered(text, words, slots)?;
    if slots == 1 {
        push(text, " slot")
    } else {
        push(text, " slots")
    }
}

/// Appends a key.
fn push_key(text: &mut Vec<u8>, key: &KeyName) -> Result<(), Memory>
    ensures { OnOk result (text.new.items ≡ text.old.items ++ key_text key.now) }
{
    text.extend_from_slice(key_text(key).bytes())?;
    Ok(())
}

/// Appends words and a number.
pub(crate) fn push_numbered(text: &mut Vec<u8>, words: &str, n: u64) -> Result<(), Memory>
    ensures { OnOk result (text.new.items ≡ text.old.items ++ (words.now ++ decimal n)) }
{
    push(text, words)?;
    push(text, Buffer::new().format(n))
}

/// Appends words and a number that may be below 0.
pub(crate) fn push_signed(text: &mut Vec<u8>, words: &str, n: i64) -> Result<(), Memory> {
    push(text, words)?;
    push(text, Buffer::new().format(n))
}
