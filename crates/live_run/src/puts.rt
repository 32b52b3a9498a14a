//! Texts that are put on the streams of a dialogue.

ghost use Rattle.std.specs.Prelude.{◌≡◌, ◌⊎◌, ◌≤◌, true, IfErr, OnErr, OnOk};
ghost use Rattle.std.specs.Io.KnownBytes.{Appends};
ghost use Rattle.slot_core.specs.Calls.Counts.{Rose};
ghost use Rattle.slot_core.specs.Keeping.Executives.{StandsFor};
ghost use Rattle.slot_core.specs.Output.Texts.{entry_line};
ghost use Rattle.slot_core.specs.Runs.Arrivals.{event_fits, what_in_set};
ghost use Rattle.slot_core.specs.Runs.Histories.{History};
ghost use Rattle.slot_core.specs.Runs.Traces.{end_entry, shown_entry};
ghost use Rattle.slot_io.specs.Sinks.{AppendsPart};
ghost use Rattle.live_lines.specs.FaultTexts.{fault_line};
ghost use Rattle.live_lines.specs.Rows.{record_row};

use crate::record::RecordFile;
use crate::streams::DialogueFault;
use interval_row::SpareTable;
use live_lines::{LineFault, fault_line, record_row};
use slot_core::{Arrival, Entry, Shown, Steps, TaskSet, What};
use slot_exec::Exec;
use slot_io::Sink;
use std::sync::ledger::Ledger;
use trace_text::entry_line;

/// Puts a text of the answers.
pub(crate) fn put_answer<K: Sink>(out: &mut K, text: &[u8]) -> Result<(), DialogueFault>
    ensures put { OnOk result (Appends (K.written out.old) (K.written out.new) text.now) }
    ensures part { OnErr result (AppendsPart (K.written out.old) (K.written out.new) text.now) }
    ensures counted { K.faults out.old ≤ K.faults out.new }
    ensures failed { OnErr result (Rose (K.faults out.old) (K.faults out.new)) }
    ensures fault { IfErr result (λ fault. fault ≡ DialogueFault.Output) }
{
    out.put(text).or(Err(DialogueFault::Output))
}

/// Puts the row of an arrival.
pub(crate) fn put_row<R: RecordFile>(
    rows: &mut R,
    tasks: &TaskSet,
    arrival: Arrival,
) -> Result<(), DialogueFault>
    requires { event_fits tasks.now arrival.event ≡ true }
    ensures put { OnOk result (Appends (R.written rows.old) (R.written rows.new)
        (record_row tasks.now arrival)) }
    ensures part { OnErr result (AppendsPart (R.written rows.old) (R.written rows.new)
        (record_row tasks.now arrival)) }
    ensures same { R.made rows.new ≡ R.made rows.old }
    ensures counted { R.faults rows.old ≤ R.faults rows.new }
    ensures failed { OnErr result (Rose (R.faults rows.old) (R.faults rows.new)) }
    ensures fault { IfErr result (λ fault. fault ≡ DialogueFault.Record) }
{
    let row = record_row(tasks, arrival);
    rows.put(row.bytes()).or(Err(DialogueFault::Record))
}

/// Puts the line of a fault. A failure is left to the sink's count of faults.
pub(crate) fn put_fault<E: Sink>(err: &mut E, number: u64, fault: LineFault)
    ensures told { Appends (E.written err.old) (E.written err.new) (fault_line number fault)
        ⊎ Rose (E.faults err.old) (E.faults err.new) }
    ensures counted { E.faults err.old ≤ E.faults err.new }
{
    let line = fault_line(number, fault);
    match err.put(line.bytes()) {
        Ok(()) | Err(_) => {}
    }
}

/// Puts the line of what happened at this time, with the first spans after it.
pub(crate) fn put_entry<T: SpareTable, K: Sink, L: Ledger>(
    exec: &Exec<T>,
    time: u64,
    what: What,
    out: &mut K,
    steps: &mut Steps<L>,
) -> Result<(), DialogueFault>
    requires named { what_in_set exec.now.plan.tasks what ≡ true }
    ensures put { OnOk result ((h : History) → StandsFor exec.now h
        → Appends (K.written out.old) (K.written out.new) (entry_line exec.now.plan.tasks
        (shown_entry exec.now.plan.tasks exec.now.plan.cycle time what h))) }
    ensures part { OnErr result ((h : History) → StandsFor exec.now h
        → AppendsPart (K.written out.old) (K.written out.new) (entry_line exec.now.plan.tasks
        (shown_entry exec.now.plan.tasks exec.now.plan.cycle time what h))) }
    ensures counted { K.faults out.old ≤ K.faults out.new }
    ensures failed { OnErr result (Rose (K.faults out.old) (K.faults out.new)) }
    ensures fault { IfErr result (λ fault. fault ≡ DialogueFault.Output) }
{
    let entry = entry_at(exec, time, what, steps);
    let line = entry_line(&entry, exec.tasks());
    put_answer(out, line.bytes())
}

/// The entry of what happened at this time, with the first spans after it.
fn entry_at<T: SpareTable, L: Ledger>(
    exec: &Exec<T>,
    time: u64,
    what: What,
    steps: &mut Steps<L>,
) -> Entry
    ensures what { result.what ≡ what }
    ensures entry { (h : History) → StandsFor exec.now h
        → result ≡ shown_entry exec.now.plan.tasks exec.now.plan.cycle time what h }
{
    let shown = exec.shown(steps);
    Entry { time, what, shown }
}

/// Puts the line of the end.
pub(crate) fn put_end<T: SpareTable, K: Sink>(
    exec: &Exec<T>,
    out: &mut K,
) -> Result<(), DialogueFault>
    ensures put { OnOk result (Appends (K.written out.old) (K.written out.new)
        (entry_line exec.now.plan.tasks (end_entry exec.now.scene.time))) }
    ensures part { OnErr result (AppendsPart (K.written out.old) (K.written out.new)
        (entry_line exec.now.plan.tasks (end_entry exec.now.scene.time))) }
    ensures counted { K.faults out.old ≤ K.faults out.new }
    ensures failed { OnErr result (Rose (K.faults out.old) (K.faults out.new)) }
    ensures fault { IfErr result (λ fault. fault ≡ DialogueFault.Output) }
{
    let entry = Entry {
        time: exec.now(),
        what: What::End,
        shown: Shown::new(0),
    };
    let line = entry_line(&entry, exec.tasks());
    put_answer(out, line.bytes())
}
