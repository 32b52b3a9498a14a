//! The commands that lines write.

ghost use Rattle.std.specs.Prelude.{◌≡◌, [], ◌∷◌, true, IfOk};
ghost use Rattle.std.specs.Str.{is_utf8};
ghost use Rattle.slot_core.specs.Sets.Ranges.{is_sound};
ghost use Rattle.arrival_csv.specs.Reading.{event_of};
ghost use Rattle.live_lines.specs.Commands.{ahead_command, arrival_command, carried_command, command_of_text, command_of_two, command_of_word, event_of_fields, fields_of, fits_set, keep_of, live_command_of, slot_count, slots_command};

use crate::line_fault::LineFault;
use arrival_csv::{Kind, done_of, firm_of, soft_of, sporadic_of, withdraw_of};
use faults::ArrivalFault;
use key_texts::{cut_at, number_between};
use plan_change::Keep;
use slot_core::{Event, REPLAY_LIMIT, TaskSet};

/// What a line of a live run asks for.
#[derive(Clone, Copy)]
pub enum LiveCommand {
    /// This arrives now.
    Arrive(Event),
    /// So many slots pass.
    Pass(u32),
    /// What comes next is told, at most so many slots ahead. No slot passes.
    Ahead(u32),
    /// What a change of plan would carry over is told. Nothing changes.
    Carried(Keep),
    /// The run ends.
    End,
}

/// The command that a line without its line feed writes: its words, with one space between two. A
/// command names only what the set has, and its numbers are in range. Any fault is the first of
/// the line: that it is UTF-8, that it has the words of a command, and then its words in order.
pub fn live_command_of(tasks: &TaskSet, line: &[u8]) -> Result<LiveCommand, LineFault>
    requires sound { is_sound tasks.now ≡ true }
    ensures reading { result ≡ live_command_of tasks.now line.now }
    ensures fits { IfOk result (λ command. fits_set tasks.now command ≡ true) }
{
    if !is_utf8(line) {
        return Err(LineFault::NotUtf8);
    }
    command_of_text(tasks, line)
}

/// Whether the bytes are UTF-8.
fn is_utf8(bytes: &[u8]) -> bool
    ensures { result ≡ is_utf8 bytes.now }
{
    std::str::from_utf8(bytes).is_ok()
}

/// The command of a line that is UTF-8.
fn command_of_text(tasks: &TaskSet, line: &[u8]) -> Result<LiveCommand, LineFault>
    requires { is_sound tasks.now ≡ true }
    ensures { result ≡ command_of_text tasks.now line.now }
{
    match cut_at(line, b' ') {
        Some((word, rest)) => command_of_two(tasks, word, rest),
        None => command_of_word(line),
    }
}

/// The command of one word.
fn command_of_word(word: &[u8]) -> Result<LiveCommand, LineFault>
    ensures { result ≡ command_of_word word.now }
{
    match word {
        b"slot" => Ok(LiveCommand::Pass(1)),
        b"end" => Ok(LiveCommand::End),
        _ => Err(LineFault::NoCommand),
    }
}

/// The command of a word and of what stands after it.
fn command_of_two(tasks: &TaskSet, word: &[u8], rest: &[u8]) -> Result<LiveCommand, LineFault>
    requires { is_sound tasks.now ≡ true }
    ensures { result ≡ command_of_two tasks.now word.now rest.now }
{
    if word == b"slots".as_slice() {
        return slots_command(rest);
    }
    if word == b"ahead".as_slice() {
        return ahead_command(rest);
    }
    if word == b"carried".as_slice() {
        return carried_command(rest);
    }
    arrival_command(tasks, word, rest)
}

/// The command of an arrival, of whose kind and fields these are the words.
fn arrival_command(tasks: &TaskSet, word: &[u8], rest: &[u8]) -> Result<LiveCommand, LineFault>
    requires { is_sound tasks.now ≡ true }
    ensures { result ≡ arrival_command tasks.now word.now rest.now }
{
    let kind = Kind::of(word).ok_or(LineFault::NoCommand)?;
    let event = event_of_fields(tasks, kind, rest)?;
    Ok(LiveCommand::Arrive(event))
}

/// The command that lets so many slots pass.
fn slots_command(number: &[u8]) -> Result<LiveCommand, LineFault>
    ensures { result ≡ slots_command number.now }
{
    let slots = slot_count(number)?;
    Ok(LiveCommand::Pass(slots))
}

/// The command that looks at most so many slots ahead.
fn ahead_command(number: &[u8]) -> Result<LiveCommand, LineFault>
    ensures { result ≡ ahead_command number.now }
{
    let slots = slot_count(number)?;
    Ok(LiveCommand::Ahead(slots))
}

/// The command that asks what a change of plan would carry over.
fn carried_command(word: &[u8]) -> Result<LiveCommand, LineFault>
    ensures { result ≡ carried_command word.now }
{
    let keep = keep_of(word).ok_or(LineFault::NoCommand)?;
    Ok(LiveCommand::Carried(keep))
}

/// Which offline jobs go on at a change of plan, by its word.
fn keep_of(word: &[u8]) -> Option<Keep>
    ensures { result ≡ keep_of word.now }
{
    if word == b"drop".as_slice() {
        return Some(Keep::Drop);
    }
    if word == b"started".as_slice() {
        return Some(Keep::Started);
    }
    if word == b"graphs".as_slice() {
        return Some(Keep::Graphs);
    }
    None
}

/// A number of slots, at least one and at most those of a replay.
fn slot_count(number: &[u8]) -> Result<u32, LineFault>
    ensures { result ≡ slot_count number.now }
{
    number_between(number, 1, REPLAY_LIMIT).ok_or(LineFault::BadNumber(2))
}

/// The event of this kind, from what stands after the word: one field, or two.
fn event_of_fields(tasks: &TaskSet, kind: Kind, rest: &[u8]) -> Result<Event, ArrivalFault>
    requires { is_sound tasks.now ≡ true }
    ensures { result ≡ event_of_fields tasks.now kind rest.now }
{
    match cut_at(rest, b' ') {
        Some((first, second)) => event_of_two(tasks, kind, first, second),
        None => event_of_one(tasks, kind, rest),
    }
}

/// The event of this kind and these two fields. The line tells no row.
fn event_of_two(
    tasks: &TaskSet,
    kind: Kind,
    first: &[u8],
    second: &[u8],
) -> Result<Event, ArrivalFault>
    ensures { result ≡ event_of tasks.now 0 kind (first.now ∷ second.now ∷ []) }
{
    match kind {
        Kind::Firm => firm_of(0, first, second),
        _ => Err(ArrivalFault::BadRow(0)),
    }
}

/// The event of this kind and this one field.
fn event_of_one(tasks: &TaskSet, kind: Kind, field: &[u8]) -> Result<Event, ArrivalFault>
    requires { is_sound tasks.now ≡ true }
    ensures { result ≡ event_of tasks.now 0 kind (field.now ∷ []) }
{
    match kind {
        Kind::Soft => soft_of(0, field),
        Kind::Firm => Err(ArrivalFault::BadRow(0)),
        Kind::Sporadic => sporadic_of(tasks, 0, field),
        Kind::Done => done_of(tasks, 0, field),
        Kind::Withdraw => withdraw_of(0, field),
    }
}
