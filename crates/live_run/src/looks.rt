//! What is told ahead of slots.

ghost use Rattle.std.specs.Prelude.{◌≡◌, ◌≤◌, ◌+◌, ◌++◌, ℕ, true, List, length, IfErr, OnErr, OnOk};
ghost use Rattle.std.specs.Io.KnownBytes.{Appends};
ghost use Rattle.slot_core.specs.Calls.Counts.{Rose};
ghost use Rattle.slot_core.specs.Keeping.Executives.{StandsFor};
ghost use Rattle.slot_core.specs.Output.Texts.{what_text};
ghost use Rattle.slot_core.specs.Runs.Arrivals.{what_in_set};
ghost use Rattle.slot_core.specs.Runs.Histories.{History};
ghost use Rattle.slot_core.specs.Runs.Traces.{told_of_slot};
ghost use Rattle.slot_io.specs.Sinks.{AppendsPart};
ghost use Rattle.trace_text.specs.declared.TheConstants.{LINE_LIMIT};
ghost use Rattle.live_run.specs.declared.looks.TheConstants.{RAN_LIMIT};
ghost use Rattle.live_run.specs.Looks.{look_line, TellsLook};

use crate::puts::put_answer;
use crate::streams::DialogueFault;
use interval_row::SpareTable;
use slot_core::{Ran, Steps, TaskSet};
use slot_exec::Exec;
use slot_io::Sink;
use std::sync::ledger::Ledger;
use trace_text::{KEY_LIMIT, Line, key_text};

/// Most bytes of what a slot runs: `run`, a space and a key.
const RAN_LIMIT: usize = 4 + KEY_LIMIT;

/// Tells what the next slot runs, and for how many slots, at most `most`, that stays so where
/// nothing arrives. No slot passes.
pub(crate) fn look<T: SpareTable, K: Sink, L: Ledger>(
    exec: &Exec<T>,
    most: u32,
    out: &mut K,
    steps: &mut Steps<L>,
) -> Result<(), DialogueFault>
    requires { 1 ≤ most }
    ensures put { OnOk result ((h : History) → StandsFor exec.now h → (text : List ℕ)
        × TellsLook exec.now.plan.tasks exec.now.plan.cycle h most text
        × Appends (K.written out.old) (K.written out.new) text) }
    ensures part { OnErr result ((h : History) → StandsFor exec.now h → (text : List ℕ)
        × TellsLook exec.now.plan.tasks exec.now.plan.cycle h most text
        × AppendsPart (K.written out.old) (K.written out.new) text) }
    ensures counted { K.faults out.old ≤ K.faults out.new }
    ensures failed { OnErr result (Rose (K.faults out.old) (K.faults out.new)) }
    ensures fault { IfErr result (λ fault. fault ≡ DialogueFault.Output) }
{
    let _now = exec.now();
    let (ran, count) = exec.ahead(most, steps);
    let line = look_line(exec.tasks(), ran, count);
    put_answer(out, line.bytes())
}

/// The line of a look: what the next slot runs, and the number of slots.
fn look_line(tasks: &TaskSet, ran: Ran, count: u32) -> Line
    requires named { what_in_set tasks.now (told_of_slot ran) ≡ true }
    ensures { result ≡ look_line tasks.now (told_of_slot ran) count }
{
    let mut line = Line::new();
    line.push(b"ahead ");
    push_ran(&mut line, tasks, ran);
    line.push(b" ");
    line.number(u64::from(count));
    line.push(b"\n");
    line
}

/// Appends what a slot runs.
fn push_ran(line: &mut Line, tasks: &TaskSet, ran: Ran)
    requires named { what_in_set tasks.now (told_of_slot ran) ≡ true }
    requires room { length line.old + RAN_LIMIT ≤ LINE_LIMIT }
    ensures text { line.new ≡ line.old ++ what_text tasks.now (told_of_slot ran) }
    ensures short { length line.new ≤ length line.old + RAN_LIMIT }
{
    match ran {
        Ran::Key(key) => {
            line.push(b"run ");
            line.push(key_text(key, tasks).bytes());
        }
        Ran::Idle => line.push(b"idle"),
    }
}
