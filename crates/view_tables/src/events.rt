//! The row of an arrival.

ghost use Rattle.std.specs.Prelude.{◌≡◌, ℕ, ◌≤◌, ◌+◌, ◌++◌, List, [], length, Some, OnOk};
ghost use Rattle.csv_table.specs.Tables.{rows_text};
ghost use Rattle.view_tables.specs.Columns.{answer_word, done_word, firm_word, gone_word, job_text, kind_word, soft_word, sporadic_word, told_of};
ghost use Rattle.view_tables.specs.LineRows.{event_fields, event_names, event_row};
ghost use Rattle.view_tables.specs.Tables.{row_if_any};
ghost use Rattle.trace_lines.specs.Texts.{key_text};

use crate::told::{Told, told_of};
use csv_table::{Cell, Rows};
use slot_core::{Done, Firm, Gone, Memory, Soft, Spo};
use trace_lines::{KeyName, TraceLine, Words, key_text};
use trace_text::Line;

/// Appends the row of the arrival that the line tells, if it tells one.
pub(crate) fn push_event(rows: &mut Rows, line: &TraceLine, job: &mut Line) -> Result<(), Memory>
    ensures { (text : List ℕ) → rows.old ≡ Some text → OnOk result
        (rows.new ≡ Some (text ++ rows_text (row_if_any (event_row line.now)))) }
{
    let Some(told) = told_of(&line.words) else {
        return Ok(());
    };
    job.clear();
    push_job(job, &line.words);
    rows.push(&event_cells(line, told, job.bytes()))
}

/// The names of the fields of the row of an arrival.
pub(crate) fn event_names() -> [Cell<'static>; 14]
    ensures { result ≡ event_names }
{
    [
        Cell::text(b"time"),
        Cell::text(b"row"),
        Cell::text(b"kind"),
        Cell::text(b"job"),
        Cell::text(b"slots"),
        Cell::text(b"within"),
        Cell::text(b"answer"),
        Cell::text(b"waiting"),
        Cell::text(b"until"),
        Cell::text(b"need"),
        Cell::text(b"room"),
        Cell::text(b"deadline"),
        Cell::text(b"next"),
        Cell::text(b"freed"),
    ]
}

/// The fields of the row of an arrival, which is of the job of this key.
fn event_cells<'a>(line: &TraceLine, told: Told, job: &'a [u8]) -> [Cell<'a>; 14]
    requires { job.now ≡ job_text line.now.words }
    ensures { result ≡ event_fields line.now told }
{
    [
        Cell::number(u64::from(line.time)),
        Cell::number(told.row),
        Cell::text(kind_word(&line.words)),
        Cell::text(job),
        Cell::optional(told.slots),
        Cell::optional(told.within),
        Cell::text(answer_word(&line.words)),
        Cell::optional(told.waiting),
        Cell::optional(told.until),
        Cell::optional(told.need),
        Cell::optional(told.room),
        Cell::optional(told.deadline),
        Cell::optional(told.next),
        Cell::optional(told.freed),
    ]
}

/// The kind of the arrival.
fn kind_word(words: &Words) -> &'static [u8]
    ensures { result.now ≡ kind_word words.now }
{
    match words {
        Words::Soft(_, _, _) => b"soft",
        Words::Firm(_, _, _, _) => b"firm",
        Words::Sporadic(_, _, _) => b"sporadic",
        Words::Done(_, _, _) => b"done",
        Words::Withdraw(_, _, _) => b"withdraw",
        Words::Start | Words::Run(_) | Words::Idle | Words::End => b"",
    }
}

/// The word of the answer.
fn answer_word(words: &Words) -> &'static [u8]
    ensures { result.now ≡ answer_word words.now }
{
    match words {
        Words::Soft(_, _, answer) => soft_word(*answer),
        Words::Firm(_, _, _, answer) => firm_word(*answer),
        Words::Sporadic(_, _, answer) => sporadic_word(*answer),
        Words::Done(_, _, answer) => done_word(*answer),
        Words::Withdraw(_, _, answer) => gone_word(*answer),
        Words::Start | Words::Run(_) | Words::Idle | Words::End => b"",
    }
}

/// The word of the answer to soft work.
fn soft_word(answer: Soft) -> &'static [u8]
    ensures { result.now ≡ soft_word answer }
{
    match answer {
        Soft::Taken => b"taken",
        Soft::Full(_) => b"full",
    }
}

/// The word of the answer to a firm task.
fn firm_word(answer: Firm) -> &'static [u8]
    ensures { result.now ≡ firm_word answer }
{
    match answer {
        Firm::Accepted => b"accepted",
        Firm::Late => b"late",
        Firm::Far => b"far",
        Firm::NoRoom(_) => b"noroom",
    }
}

/// The word of the answer to a sporadic arrival.
fn sporadic_word(answer: Spo) -> &'static [u8]
    ensures { result.now ≡ sporadic_word answer }
{
    match answer {
        Spo::Taken(_) => b"taken",
        Spo::Soon(_) => b"soon",
    }
}

/// The word of the answer to an early end.
fn done_word(answer: Done) -> &'static [u8]
    ensures { result.now ≡ done_word answer }
{
    match answer {
        Done::Freed(_) => b"freed",
        Done::NotRunning => b"notrunning",
    }
}

/// The word of the answer to a withdrawal.
fn gone_word(answer: Gone) -> &'static [u8]
    ensures { result.now ≡ gone_word answer }
{
    match answer {
        Gone::Freed(_) => b"freed",
        Gone::NoJob => b"nojob",
    }
}

/// Appends the key of the job that the arrival brings, ends or takes back.
fn push_job(job: &mut Line, words: &Words)
    requires { job.old ≡ [] }
    ensures { job.new ≡ job_text words.now }
{
    match words {
        Words::Soft(row, _, _) => push_key(job, &KeyName::Soft(*row)),
        Words::Firm(row, _, _, _) => push_key(job, &KeyName::Firm(*row)),
        Words::Sporadic(row, name, _) => {
            job.push(name.bytes());
            job.push(b"@");
            job.number(u64::from(*row));
        }
        Words::Done(_, key, _) => push_key(job, key),
        Words::Withdraw(_, firm, _) => push_key(job, &KeyName::Firm(*firm)),
        Words::Start | Words::Run(_) | Words::Idle | Words::End => {}
    }
}

/// Appends the text of the key.
fn push_key(job: &mut Line, key: &KeyName)
    requires { job.old ≡ [] }
    ensures { job.new ≡ key_text key.now }
{
    job.push(key_text(key).bytes());
}
