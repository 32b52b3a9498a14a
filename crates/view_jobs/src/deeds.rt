//! What each line of a trace does to a job of the set.

ghost use Rattle.std.specs.Prelude.{◌≡◌, ◌<◌, ◌+◌, true, length, is_none, position, IfOk, OnOk};
ghost use Rattle.slot_core.specs.Sets.Ranges.{is_sound};
ghost use Rattle.view_jobs.specs.Deeds.{brought_firm, brought_job, brought_soft, deed_of, deeds_of, done_by, ended, key_in, taken_back};
ghost use Rattle.key_texts.specs.KeyTexts.{sporadic_named};
ghost use Rattle.std.specs.Prelude.{option_map};
ghost use Rattle.view_jobs.specs.Tables.{first_unknown};

use key_texts::{key_of, sporadic_named};
use slot_core::{Done, Firm, Gone, Key, Memory, Soft, Spo, TaskSet};
use std::alloc::Global;
use trace_lines::{KeyName, TraceLine, Words, key_text};

/// A job that arrives and is taken.
#[derive(Clone, Copy, PartialEq, Eq)]
pub struct Arrived {
    /// Its name.
    pub key: Key,
    /// Its deadline; soft work has none.
    pub deadline: Option<u64>,
    /// Its slots.
    pub declared: u32,
}

/// What a line does.
#[derive(Clone, Copy, PartialEq, Eq)]
pub enum Does {
    /// Nothing to a job.
    Nothing,
    /// It brings the job.
    Brings(Arrived),
    /// It runs the job in the slot.
    Runs(Key),
    /// It ends the job early, and so many slots are free.
    Ends(Key, u32),
}

/// What a line does, and when.
#[derive(Clone, Copy, PartialEq, Eq)]
pub struct Deed {
    /// The slot.
    pub time: u32,
    /// What is done.
    pub does: Does,
}

/// The place of the first line that names a task which the set does not have.
pub fn first_unknown(tasks: &TaskSet, lines: &[TraceLine]) -> Option<usize>
    requires { is_sound tasks.now ≡ true }
    ensures { result ≡ first_unknown tasks.now lines.now }
{
    lines.iter().position(|line| deed_of(tasks, line).is_none())
}

/// What the lines do, each that names no unknown task.
pub fn deeds_of(alloc: Global, tasks: &TaskSet, lines: &[TraceLine]) -> Result<Vec<Deed>, Memory>
    requires { is_sound tasks.now ≡ true }
    ensures { IfOk result (λ deeds. deeds.items ≡ deeds_of tasks.now lines.now) }
{
    let mut deeds = Vec::new(alloc);
    for line in lines {
        if let Some(deed) = deed_of(tasks, line) {
            deeds.push(deed)?;
        }
    }
    Ok(deeds)
}

/// What the line does, or None where it names a task that the set does not have.
pub fn deed_of(tasks: &TaskSet, line: &TraceLine) -> Option<Deed>
    requires { is_sound tasks.now ≡ true }
    ensures { result ≡ deed_of tasks.now line.now }
{
    let does = done_by(tasks, line.time, &line.words)?;
    Some(Deed {
        time: line.time,
        does,
    })
}

/// What the words of a line of this time do.
fn done_by(tasks: &TaskSet, time: u32, words: &Words) -> Option<Does>
    requires { is_sound tasks.now ≡ true }
    ensures { result ≡ done_by tasks.now time words.now }
{
    match words {
        Words::Start | Words::Idle | Words::End => Some(Does::Nothing),
        Words::Soft(row, slots, answer) => Some(brought_soft(*row, *slots, *answer)),
        Words::Firm(row, slots, within, answer) => {
            Some(brought_firm(*row, *slots, u64::from(time) + u64::from(*within), *answer))
        }
        Words::Sporadic(row, name, answer) => brought_sporadic(tasks, *row, name.bytes(), *answer),
        Words::Done(_, key, answer) => Some(ended(key_in(tasks, key)?, *answer)),
        Words::Withdraw(_, firm, answer) => Some(taken_back(*firm, *answer)),
        Words::Run(key) => Some(Does::Runs(key_in(tasks, key)?)),
    }
}

/// The key of the set that has this text.
fn key_in(tasks: &TaskSet, key: &KeyName) -> Option<Key>
    requires { is_sound tasks.now ≡ true }
    ensures { result ≡ key_in tasks.now key.now }
{
    key_of(tasks, key_text(key).bytes())
}

/// Soft work that is taken.
fn brought_soft(row: u32, slots: u32, answer: Soft) -> Does
    ensures { result ≡ brought_soft row slots answer }
{
    match answer {
        Soft::Taken => Does::Brings(Arrived {
            key: Key::Soft(row),
            deadline: None,
            declared: slots,
        }),
        Soft::Full(_) => Does::Nothing,
    }
}

/// A firm task that is accepted.
fn brought_firm(row: u32, slots: u32, deadline: u64, answer: Firm) -> Does
    ensures { result ≡ brought_firm row slots deadline answer }
{
    match answer {
        Firm::Accepted => Does::Brings(Arrived {
            key: Key::Firm(row),
            deadline: Some(deadline),
            declared: slots,
        }),
        Firm::Late | Firm::Far | Firm::NoRoom(_) => Does::Nothing,
    }
}

/// A sporadic job that is taken.
fn brought_sporadic(tasks: &TaskSet, row: u32, name: &[u8], answer: Spo) -> Option<Does>
    requires { is_sound tasks.now ≡ true }
    ensures { result ≡ option_map (λ index. brought_job tasks.now row index answer)
        (sporadic_named tasks.now.sporadics name.now) }
{
    let index = sporadic_named(tasks.sporadics.items(), name)?;
    Some(brought_job(tasks, row, index, answer))
}

/// A job of the sporadic task of this index that is taken.
fn brought_job(tasks: &TaskSet, row: u32, index: usize, answer: Spo) -> Does
    requires sound { is_sound tasks.now ≡ true }
    requires there { index < length tasks.now.sporadics }
    ensures { result ≡ brought_job tasks.now row index answer }
{
    let declared = tasks.sporadics.items()[index].wcet;
    match answer {
        Spo::Taken(deadline) => Does::Brings(Arrived {
            key: Key::Sporadic(index as u8, row),
            deadline: Some(deadline),
            declared,
        }),
        Spo::Soon(_) => Does::Nothing,
    }
}

/// An early end.
fn ended(key: Key, answer: Done) -> Does
    ensures { result ≡ ended answer key }
{
    match answer {
        Done::Freed(slots) => Does::Ends(key, slots),
        Done::NotRunning => Does::Nothing,
    }
}

/// A withdrawal.
fn taken_back(firm: u32, answer: Gone) -> Does
    ensures { result ≡ taken_back firm answer }
{
    match answer {
        Gone::Freed(slots) => Does::Ends(Key::Firm(firm), slots),
        Gone::NoJob => Does::Nothing,
    }
}
