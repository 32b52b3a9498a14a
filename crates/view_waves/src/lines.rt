//! Lines of waves.

ghost use Rattle.std.specs.Prelude.{◌≡◌, ℕ, ◌≤◌, ◌<◌, ◌+◌, ◌-◌, ◌++◌, List, [], length, map, codes};
ghost use Rattle.std.specs.List.{range_with_len};
ghost use Rattle.trace_text.specs.declared.TheConstants.{LINE_LIMIT};
ghost use Rattle.view_waves.specs.declared.lines.TheConstants.{BITS, CAPACITY_SIZE, LABEL_LIMIT, LEVEL_LIMIT, TURN_LIMIT};
ghost use Rattle.trace_lines.specs.Traces.{time_of_first};
ghost use Rattle.view_waves.specs.WaveTexts.{bit_digit, change_text, after_wires, first_time_text, level_text, row_label, row_text, capacity_text, step_text, turn_text};

use crate::steps::Step;
use run_blocks::Row;
use slot_core::NAME_LIMIT;
use trace_lines::{TraceLine, time_of_first};
use trace_text::{DECIMAL_LIMIT, Line};

/// Most bytes of the name of a row: two names and a point.
const LABEL_LIMIT: usize = 2 * NAME_LIMIT + 1;

/// The bits of a capacity.
const BITS: usize = 64;

/// Most bytes of the value of a wire: two letters, a number and a line feed.
const LEVEL_LIMIT: usize = 2 + DECIMAL_LIMIT + 1;

/// Most bytes of a wire that falls and one that rises.
const TURN_LIMIT: usize = 2 * LEVEL_LIMIT;

/// The bytes of the value of a capacity: a letter, its bits, a space, its name and a line feed.
const CAPACITY_SIZE: usize = 1 + BITS + 3;

/// Writes the declaration of the wire of a row into an empty line.
pub(crate) fn push_row(line: &mut Line, wire: usize, row: &Row)
    requires { line.old ≡ [] }
    ensures { line.new ≡ row_text (wire, row.now) }
{
    line.push(b"$var wire 1 w");
    line.number(wire as u64);
    line.push(b" ");
    push_label(line, row);
    line.push(b" $end\n");
}

/// Writes the declarations of the idle wire and of the capacity into an empty line.
pub(crate) fn push_after_wires(line: &mut Line, idle: usize)
    requires { line.old ≡ [] }
    ensures { line.new ≡ after_wires idle }
{
    line.push(b"$var wire 1 w");
    line.number(idle as u64);
    line.push(b" idle $end\n");
    line.push(b"$var integer 64 c capacity $end\n$upscope $end\n$enddefinitions $end\n");
}

/// Writes the time of the first values, that of the first line, into an empty line.
pub(crate) fn push_first_time(line: &mut Line, lines: &[TraceLine])
    requires { line.old ≡ [] }
    ensures { line.new ≡ first_time_text (time_of_first lines.now) }
{
    line.push(b"#");
    line.number(u64::from(time_of_first(lines)));
    line.push(b"\n$dumpvars\n");
}

/// Appends the name of a row.
fn push_label(line: &mut Line, row: &Row)
    requires { length line.old + LABEL_LIMIT ≤ LINE_LIMIT }
    ensures text { line.new ≡ line.old ++ row_label row.now }
    ensures short { length line.new ≤ length line.old + LABEL_LIMIT }
{
    match row {
        Row::Task(graph, task) => {
            line.push(graph.bytes());
            line.push(b".");
            line.push(task.bytes());
        }
        Row::Sporadic(name) => line.push(name.bytes()),
        Row::FirmJob(job) => {
            line.push(b"firm.");
            line.number(u64::from(*job));
        }
        Row::Firm => line.push(b"firm"),
        Row::Soft => line.push(b"soft"),
    }
}

/// Appends the value of a wire.
pub(crate) fn push_level(line: &mut Line, wire: usize, is_on: bool)
    requires { length line.old + LEVEL_LIMIT ≤ LINE_LIMIT }
    ensures text { line.new ≡ line.old ++ level_text wire is_on }
    ensures short { length line.new ≤ length line.old + LEVEL_LIMIT }
{
    if is_on {
        line.push(b"1w");
    } else {
        line.push(b"0w");
    }
    line.number(wire as u64);
    line.push(b"\n");
}

/// Appends the value of a capacity of these bits.
pub(crate) fn push_capacity(line: &mut Line, bits: u64)
    requires { length line.old + CAPACITY_SIZE ≤ LINE_LIMIT }
    ensures text { line.new ≡ line.old ++ capacity_text bits }
    ensures short { length line.new ≤ length line.old + CAPACITY_SIZE }
{
    line.push(b"b");
    push_bits(line, bits);
    line.push(b" c\n");
}

/// Appends the bits of the number, the highest first.
fn push_bits(line: &mut Line, n: u64)
    requires { length line.old + BITS ≤ LINE_LIMIT }
    ensures text { line.new ≡ line.old
        ++ map (λ i. bit_digit n (BITS - 1 - i)) (range_with_len 0 BITS) }
    ensures short { length line.new ≤ length line.old + BITS }
{
    for i in 0..BITS {
        line.push(&[bit_digit(n, BITS - 1 - i)]);
    }
}

/// A bit of the number, as a digit.
fn bit_digit(n: u64, place: usize) -> u8
    requires { place < BITS }
    ensures { result ≡ bit_digit n place }
{
    b'0' + ((n >> place) % 2) as u8
}

/// Writes the time of a step and what changes in it into an empty line.
pub(crate) fn push_step(line: &mut Line, step: Step)
    requires { line.old ≡ [] }
    ensures { line.new ≡ step_text step }
{
    line.push(b"#");
    line.number(u64::from(step.time));
    line.push(b"\n");
    push_turn(line, step.turn);
    push_change(line, step.change);
}

/// Appends a wire that falls, and one that rises.
fn push_turn(line: &mut Line, turn: Option<(usize, usize)>)
    requires { length line.old + TURN_LIMIT ≤ LINE_LIMIT }
    ensures text { line.new ≡ line.old ++ turn_text turn }
    ensures short { length line.new ≤ length line.old + TURN_LIMIT }
{
    if let Some((from, to)) = turn {
        push_level(line, from, false);
        push_level(line, to, true);
    }
}

/// Appends another capacity.
fn push_change(line: &mut Line, change: Option<u64>)
    requires { length line.old + CAPACITY_SIZE ≤ LINE_LIMIT }
    ensures { line.new ≡ line.old ++ change_text change }
{
    if let Some(bits) = change {
        push_capacity(line, bits);
    }
}
