//! The text of a change of plan and of the run after it.

ghost use Rattle.std.specs.Prelude.{◌≡◌, ℕ, ◌+◌, ◌-◌, ◌++◌, ◌≤◌, [], true, All, Contains, OnErr, OnOk, length};
ghost use Rattle.std.specs.Io.KnownBytes.{Appends};
ghost use Rattle.slot_core.specs.declared.TheConstants.{REPLAY_LIMIT};
ghost use Rattle.slot_core.specs.declared.jobs.Job.{Job};
ghost use Rattle.slot_core.specs.Calls.Counts.{Rose};
ghost use Rattle.slot_core.specs.Runs.Arrivals.{key_in_set};
ghost use Rattle.slot_io.specs.Sinks.{AppendsPart};
ghost use Rattle.trace_text.specs.declared.TheConstants.{LINE_LIMIT};
ghost use Rattle.mode_switch.specs.declared.text.TheConstants.{TOLD_LIMIT};
ghost use Rattle.mode_switch.specs.Naming.{turn_in_sets};
ghost use Rattle.mode_switch.specs.Texts.{change_text, end_line, granted_line, turn_line, turn_lines, turn_text};

use crate::change::Change;
use crate::turns::Turn;
use slot_core::{Failed, TaskSet};
use slot_io::Sink;
use trace_text::{KEY_LIMIT, Line, key_text};

/// Most bytes of what a turn tells: a word of 3 bytes, a space and a key.
const TOLD_LIMIT: usize = 4 + KEY_LIMIT;

/// Writes the text of a change that has just been opened and of the run after it up to time
/// `slots`: a line for the grant, one for each slot, and one for the end. Keys of carried jobs are
/// printed by the names of the first set. After an error a part of that text is written, from its
/// front, and the sink has counted a fault.
///
/// It is done by one put a line, up to the first that fails, and takes no memory.
pub fn put_change<K: Sink>(
    change: &mut Change,
    first: &TaskSet,
    slots: u64,
    out: &mut K,
) -> Result<(), Failed>
    requires fresh { change.old.passed ≡ 0 }
    requires later { change.old.at ≤ slots }
    requires few { slots ≤ REPLAY_LIMIT }
    requires named { All (λ (j : Job). key_in_set first.now j.key ≡ true) change.old.carried }
    ensures text { OnOk result (Appends (K.written out.old) (K.written out.new)
        (change_text
        first.now
        change.old.plan.tasks
        change.old.at
        change.old.carried
        slots)) }
    ensures part { OnErr result (AppendsPart (K.written out.old) (K.written out.new)
        (change_text
        first.now
        change.old.plan.tasks
        change.old.at
        change.old.carried
        slots)) }
    ensures counted { K.faults out.old ≤ K.faults out.new }
    ensures failed { OnErr result (Rose (K.faults out.old) (K.faults out.new)) }
    ensures passes { OnOk result
        (change.new ≡ record change.old { passed = slots - change.old.at }) }
{
    let at = change.now();
    put_granted(at, out)?;
    put_turns(change, first, at, slots - at, out)?;
    put_end(slots, out)
}

/// Writes the line of the grant.
fn put_granted<K: Sink>(at: u64, out: &mut K) -> Result<(), Failed>
    ensures text { OnOk result
        (Appends (K.written out.old) (K.written out.new) (granted_line at)) }
    ensures part { OnErr result
        (AppendsPart (K.written out.old) (K.written out.new) (granted_line at)) }
    ensures counted { K.faults out.old ≤ K.faults out.new }
    ensures failed { OnErr result (Rose (K.faults out.old) (K.faults out.new)) }
{
    let line = granted_line(at);
    out.put(line.bytes())
}

/// The line of the grant.
fn granted_line(at: u64) -> Line
    ensures { result ≡ granted_line at }
{
    let mut line = Line::new();
    line.number(at);
    line.push(b" switch granted");
    line.push(b"\n");
    line
}

/// Writes the line of the end.
fn put_end<K: Sink>(slots: u64, out: &mut K) -> Result<(), Failed>
    ensures text { OnOk result
        (Appends (K.written out.old) (K.written out.new) (end_line slots)) }
    ensures part { OnErr result
        (AppendsPart (K.written out.old) (K.written out.new) (end_line slots)) }
    ensures counted { K.faults out.old ≤ K.faults out.new }
    ensures failed { OnErr result (Rose (K.faults out.old) (K.faults out.new)) }
{
    let mut line = Line::new();
    line.number(slots);
    line.push(b" end");
    line.push(b"\n");
    out.put(line.bytes())
}

/// Writes a line for each of the first slots after the change.
fn put_turns<K: Sink>(
    change: &mut Change,
    first: &TaskSet,
    at: u64,
    slots: u64,
    out: &mut K,
) -> Result<(), Failed>
    requires fresh { change.old.passed ≡ 0 }
    requires at { at ≡ change.old.at }
    requires few { at + slots ≤ REPLAY_LIMIT }
    requires named { All (λ (j : Job). key_in_set first.now j.key ≡ true) change.old.carried }
    ensures text { OnOk result (Appends (K.written out.old) (K.written out.new)
        (turn_lines
        first.now
        change.old.plan.tasks
        change.old.at
        change.old.carried
        slots)) }
    ensures part { OnErr result (AppendsPart (K.written out.old) (K.written out.new)
        (turn_lines
        first.now
        change.old.plan.tasks
        change.old.at
        change.old.carried
        slots)) }
    ensures counted { K.faults out.old ≤ K.faults out.new }
    ensures failed { OnErr result (Rose (K.faults out.old) (K.faults out.new)) }
    ensures passes { OnOk result (change.new ≡ record change.old { passed = slots }) }
{
    let mut line = Line::new();
    for passed in 0..slots {
        line.clear();
        let turn = change.slot();
        push_turn(&mut line, at + passed, turn, first, change.tasks());
        out.put(line.bytes())?;
    }
    Ok(())
}

/// Writes the line of a turn at this time into an empty line.
fn push_turn(line: &mut Line, time: u64, turn: Turn, first: &TaskSet, second: &TaskSet)
    requires empty { line.old ≡ [] }
    requires named { turn_in_sets first.now second.now turn ≡ true }
    ensures { line.new ≡ turn_line first.now second.now time turn }
{
    line.number(time);
    line.push(b" ");
    push_told(line, turn, first, second);
    line.push(b"\n");
}

/// Appends what a turn tells.
fn push_told(line: &mut Line, turn: Turn, first: &TaskSet, second: &TaskSet)
    requires room { length line.old + TOLD_LIMIT ≤ LINE_LIMIT }
    requires named { turn_in_sets first.now second.now turn ≡ true }
    ensures text { line.new ≡ line.old ++ turn_text first.now second.now turn }
    ensures short { length line.new ≤ length line.old + TOLD_LIMIT }
{
    match turn {
        Turn::Idle => line.push(b"idle"),
        Turn::Old(key) => {
            line.push(b"old ");
            line.push(key_text(key, first).bytes());
        }
        Turn::New(key) => {
            line.push(b"new ");
            line.push(key_text(key, second).bytes());
        }
    }
}
