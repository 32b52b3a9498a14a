//! What changes from one slot to the next.

ghost use Rattle.std.specs.Prelude.{◌≡◌};
ghost use Rattle.view_waves.specs.Steps.{capacity_of, first_on, first_shown, first_wave, next_on, change_between, step_at, step_of, turn_between, wave_after, wave_at, wire_on};

use run_blocks::{Row, row_at};
use trace_lines::{TraceLine, Words};

/// The values as they stand: the wire that is on, the capacity that is shown, and the one to be
/// shown next. The wires are the rows and, after them, the idle one.
#[derive(Clone, Copy, PartialEq, Eq)]
pub struct Wave {
    /// The wire that is on.
    pub on: usize,
    /// The bits of the capacity that is shown.
    pub shown: u64,
    /// Those of the capacity after the slot, to be shown at the next.
    pub next: u64,
}

/// What changes at a time.
#[derive(Clone, Copy, PartialEq, Eq)]
pub struct Step {
    /// The time.
    pub time: u32,
    /// From which wire to which it turns.
    pub turn: Option<(usize, usize)>,
    /// The bits of the capacity, if it is another.
    pub change: Option<u64>,
}

/// The values before the first slot: its wire is on already.
pub(crate) fn first_wave(rows: &[Row], lines: &[TraceLine]) -> Wave
    ensures { result ≡ first_wave rows.now lines.now }
{
    let shown = first_shown(lines);
    Wave {
        on: first_on(rows, lines),
        shown,
        next: shown,
    }
}

/// The bits of the capacity of the first span that the first line shows.
fn first_shown(lines: &[TraceLine]) -> u64
    ensures { result ≡ first_shown lines.now }
{
    match lines {
        [] => 0,
        [line, ..] => capacity_of(line),
    }
}

/// The bits of the capacity of the first span that the line shows.
fn capacity_of(line: &TraceLine) -> u64
    ensures { result ≡ capacity_of line.now }
{
    line.first_spare().cast_unsigned()
}

/// The wire that is on in the first slot of the lines, or a number that no wire has.
fn first_on(rows: &[Row], lines: &[TraceLine]) -> usize
    ensures { result ≡ first_on rows.now lines.now }
{
    for line in lines {
        if let Some(wire) = wire_on(rows, &line.words) {
            return wire;
        }
    }
    rows.len() + 1
}

/// The wire that is on in the slot that the words tell, or None where they tell no slot.
fn wire_on(rows: &[Row], words: &Words) -> Option<usize>
    ensures { result ≡ wire_on rows.now words.now }
{
    match words {
        Words::Run(key) => Some(row_at(rows, key)),
        Words::Idle => Some(rows.len()),
        _ => None,
    }
}

/// The wire that is on after the words, where they tell a slot or the end.
fn next_on(rows: &[Row], on: usize, words: &Words) -> Option<usize>
    ensures { result ≡ next_on rows.now on words.now }
{
    match words {
        Words::End => Some(on),
        _ => wire_on(rows, words),
    }
}

impl Wave {
    /// The values after the line, and what changes at it.
    pub(crate) fn after(self, rows: &[Row], line: &TraceLine) -> (Wave, Option<Step>)
        ensures wave { result.0 ≡ wave_after rows.now self line.now }
        ensures step { result.1 ≡ step_of rows.now self line.now }
    {
        match next_on(rows, self.on, &line.words) {
            Some(on) => (self.wave_at(line, on), Some(self.step_at(line, on))),
            None => (self, None),
        }
    }

    /// The values after the line, where this wire is on then.
    fn wave_at(self, line: &TraceLine, on: usize) -> Wave
        ensures { result ≡ wave_at self line.now on }
    {
        Wave {
            on,
            shown: self.next,
            next: capacity_of(line),
        }
    }

    /// What changes at the line, where this wire is on then.
    fn step_at(self, line: &TraceLine, on: usize) -> Step
        ensures { result ≡ step_at self line.now on }
    {
        Step {
            time: line.time,
            turn: turn_between(self.on, on),
            change: change_between(self.shown, self.next),
        }
    }
}

/// From which wire to which it turns, if it does.
fn turn_between(from: usize, to: usize) -> Option<(usize, usize)>
    ensures { result ≡ turn_between from to }
{
    if from == to { None } else { Some((from, to)) }
}

/// The capacity that is shown now, if it is another.
fn change_between(shown: u64, next: u64) -> Option<u64>
    ensures { result ≡ change_between shown next }
{
    if shown == next { None } else { Some(next) }
}
