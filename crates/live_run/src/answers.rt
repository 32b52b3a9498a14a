//! What answers one line.

ghost use Rattle.std.specs.Prelude.{◌≡◌, ℕ, ◌<◌, ◌≤◌, ◌+◌, ◌^◌, ◌∷◌, [], true, Ok, Err, IfErr, IfOk, IfSome, OnErr, OnOk};
ghost use Rattle.std.proofs.Math.ListN.{replicate};
ghost use Rattle.std.specs.Io.KnownBytes.{Appends};
ghost use Rattle.slot_core.specs.declared.TheConstants.{TIME_LIMIT};
ghost use Rattle.slot_core.specs.Calls.Counts.{Rose};
ghost use Rattle.slot_core.specs.Keeping.Executives.{StandsFor};
ghost use Rattle.slot_core.specs.Output.Texts.{trace_text};
ghost use Rattle.slot_core.specs.Runs.Arrivals.{event_fits};
ghost use Rattle.slot_core.specs.Runs.Histories.{History};
ghost use Rattle.slot_core.specs.Sets.Ranges.{is_sound};
ghost use Rattle.slot_core.specs.declared.tasks.TaskSet.{TaskSet};
ghost use Rattle.slot_core.specs.Runs.Traces.{arrive, entries, history_after, slot};
ghost use Rattle.slot_io.specs.Sinks.{AppendsPart};
ghost use Rattle.live_lines.specs.Commands.{fits_set};
ghost use Rattle.live_lines.specs.Lines.{heard};
ghost use Rattle.live_run.specs.Dialogues.{allowed, asked, command_heard, next_history};
ghost use Rattle.live_run.specs.Streams.{exchange_texts, seen, ArePut, ArePutInPart, FitsNow, IsAnswered, IsAnsweredInPart};

use crate::carried::tell_carried;
use crate::looks::look;
use crate::puts::{put_answer, put_end, put_entry, put_fault, put_row};
use crate::record::RecordFile;
use crate::streams::{DialogueFault, Streams};
use arrival_replay::{happen, tell_arrival};
use interval_row::SpareTable;
use live_lines::{Given, LineFault, LineSource, LiveCommand, live_command_of};
use plan_change::CarriedList;
use slot_core::{ARRIVAL_LIMIT, Arrival, Event, Failed, Steps, TIME_LIMIT, TaskSet};
use slot_exec::Exec;
use slot_io::Sink;
use std::sync::ledger::Ledger;

/// What is asked for now by what the source gave: a command, or why it is refused.
pub(crate) fn asked_now<T: SpareTable, S: LineSource>(
    exec: &Exec<T>,
    source: &S,
    given: Given,
) -> Result<LiveCommand, LineFault>
    ensures asked { (h : History) → StandsFor exec.now h
        → result ≡ asked exec.now.plan.tasks h (heard given (S.last source.now)) }
    ensures fits { FitsNow exec.now result }
{
    let command = command_heard(exec.tasks(), given, source.line())?;
    allowed(exec.last_row(), exec.now(), command)
}

/// The command that is heard where a source gives this, and has these bytes.
fn command_heard(tasks: &TaskSet, given: Given, line: &[u8]) -> Result<LiveCommand, LineFault>
    requires { is_sound tasks.now ≡ true }
    ensures heard { result ≡ command_heard tasks.now (heard given line.now) }
    ensures fits { IfOk result (λ command. fits_set tasks.now command ≡ true) }
{
    match given {
        Given::Line => live_command_of(tasks, line),
        Given::TooLong => Err(LineFault::TooLong),
        Given::NoMore => Ok(LiveCommand::End),
    }
}

/// The command, where after this last row and at this time there are rows and slots for it.
fn allowed(row: u32, time: u64, command: LiveCommand) -> Result<LiveCommand, LineFault>
    requires { time ≤ TIME_LIMIT }
    ensures { result ≡ allowed row time command }
{
    match command {
        LiveCommand::Arrive(_) if row >= ARRIVAL_LIMIT => Err(LineFault::NoMoreRows),
        LiveCommand::Pass(slots) if time + u64::from(slots) > TIME_LIMIT => {
            Err(LineFault::NoMoreSlots)
        }
        other => Ok(other),
    }
}

/// Answers what is asked for: the fault or the row of the record is put first, and then the answer.
pub(crate) fn answer<T: SpareTable, K: Sink, R: RecordFile, E: Sink, L: Ledger>(
    exec: &mut Exec<T>,
    list: &mut CarriedList,
    number: u64,
    asked: Result<LiveCommand, LineFault>,
    streams: &mut Streams<K, R, E>,
    steps: &mut Steps<L>,
) -> Result<(), DialogueFault>
    requires fits { FitsNow exec.old asked }
    requires places { exec.old.plan.cycle ≤ list.old.places }
    ensures put { OnOk result ((h : History) → StandsFor exec.old h → IsAnswered
        exec.old.plan.tasks exec.old.plan.cycle number h asked
        (seen K.written K.faults R.written R.faults E.written E.faults streams.old)
        (seen K.written K.faults R.written R.faults E.written E.faults streams.new)) }
    ensures part { IfErr result (λ fault. (h : History) → StandsFor exec.old h
        → IsAnsweredInPart
        exec.old.plan.tasks exec.old.plan.cycle number fault h asked
        (seen K.written K.faults R.written R.faults E.written E.faults streams.old)
        (seen K.written K.faults R.written R.faults E.written E.faults streams.new)) }
    ensures stands { OnOk result ((h : History) → StandsFor exec.old h → StandsFor
        exec.new
        (next_history exec.old.plan.tasks exec.old.plan.cycle h asked)) }
    ensures same { R.made streams.new.rows ≡ R.made streams.old.rows }
    ensures plan { exec.new.plan ≡ exec.old.plan }
    ensures places { list.new.places ≡ list.old.places }
{
    match asked {
        Ok(LiveCommand::Arrive(event)) => take(exec, event, streams),
        Ok(LiveCommand::Pass(slots)) => pass(exec, slots, &mut streams.answers, steps),
        Ok(LiveCommand::Ahead(most)) => look(exec, most, &mut streams.answers, steps),
        Ok(LiveCommand::Carried(keep)) => tell_carried(exec, list, keep, &mut streams.answers),
        Ok(LiveCommand::End) => put_end(exec, &mut streams.answers),
        Err(fault) => refuse(number, fault, streams),
    }
}

/// The event arrives in the next row.
fn take<T: SpareTable, K: Sink, R: RecordFile, E: Sink>(
    exec: &mut Exec<T>,
    event: Event,
    streams: &mut Streams<K, R, E>,
) -> Result<(), DialogueFault>
    requires { FitsNow exec.old (Ok (LiveCommand.Arrive event)) }
    ensures put { OnOk result ((h : History) → StandsFor exec.old h → ArePut
        (seen K.written K.faults R.written R.faults E.written E.faults streams.old)
        (seen K.written K.faults R.written R.faults E.written E.faults streams.new)
        (exchange_texts exec.old.plan.tasks exec.old.plan.cycle 0 h
        (Ok (LiveCommand.Arrive event)))) }
    ensures part { IfErr result (λ fault. (h : History) → StandsFor exec.old h → ArePutInPart
        fault
        (seen K.written K.faults R.written R.faults E.written E.faults streams.old)
        (seen K.written K.faults R.written R.faults E.written E.faults streams.new)
        (exchange_texts exec.old.plan.tasks exec.old.plan.cycle 0 h
        (Ok (LiveCommand.Arrive event)))) }
    ensures stands { OnOk result ((h : History) → StandsFor exec.old h → StandsFor
        exec.new
        (next_history exec.old.plan.tasks exec.old.plan.cycle h
        (Ok (LiveCommand.Arrive event)))) }
    ensures same { R.made streams.new.rows ≡ R.made streams.old.rows }
    ensures plan { exec.new.plan ≡ exec.old.plan }
{
    let arrival = Arrival {
        row: exec.last_row() + 1,
        slot: exec.now(),
        event,
    };
    put_row(&mut streams.rows, exec.tasks(), arrival)?;
    put_arrival(exec, arrival, &mut streams.answers)
}

/// The arrival is answered now, and the line of its entry is put.
fn put_arrival<T: SpareTable, K: Sink>(
    exec: &mut Exec<T>,
    arrival: Arrival,
    out: &mut K,
) -> Result<(), DialogueFault>
    requires later { exec.old.last_row < arrival.row }
    requires fits { event_fits exec.old.plan.tasks arrival.event ≡ true }
    ensures put { OnOk result ((h : History) → StandsFor exec.old h → Appends
        (K.written out.old)
        (K.written out.new)
        (trace_text exec.old.plan.tasks (entries exec.old.plan.tasks exec.old.plan.cycle h
        (arrive arrival.row arrival.event ∷ [])))) }
    ensures part { OnErr result ((h : History) → StandsFor exec.old h → AppendsPart
        (K.written out.old)
        (K.written out.new)
        (trace_text exec.old.plan.tasks (entries exec.old.plan.tasks exec.old.plan.cycle h
        (arrive arrival.row arrival.event ∷ [])))) }
    ensures stands { (h : History) → StandsFor exec.old h → StandsFor
        exec.new
        (history_after exec.old.plan.tasks exec.old.plan.cycle h
        (arrive arrival.row arrival.event ∷ [])) }
    ensures plan { exec.new.plan ≡ exec.old.plan }
    ensures counted { K.faults out.old ≤ K.faults out.new }
    ensures failed { OnErr result (Rose (K.faults out.old) (K.faults out.new)) }
    ensures fault { IfErr result (λ fault. fault ≡ DialogueFault.Output) }
{
    match tell_arrival(exec, arrival, out) {
        Ok(_) => Ok(()),
        Err(Failed) => Err(DialogueFault::Output),
    }
}

/// So many slots pass.
fn pass<T: SpareTable, K: Sink, L: Ledger>(
    exec: &mut Exec<T>,
    slots: u32,
    out: &mut K,
    steps: &mut Steps<L>,
) -> Result<(), DialogueFault>
    requires { exec.old.scene.time + slots ≤ TIME_LIMIT }
    ensures put { OnOk result ((h : History) → StandsFor exec.old h → Appends
        (K.written out.old)
        (K.written out.new)
        (trace_text exec.old.plan.tasks
        (entries exec.old.plan.tasks exec.old.plan.cycle h (replicate slots slot)))) }
    ensures part { OnErr result ((h : History) → StandsFor exec.old h → AppendsPart
        (K.written out.old)
        (K.written out.new)
        (trace_text exec.old.plan.tasks
        (entries exec.old.plan.tasks exec.old.plan.cycle h (replicate slots slot)))) }
    ensures stands { OnOk result ((h : History) → StandsFor exec.old h → StandsFor
        exec.new
        (history_after exec.old.plan.tasks exec.old.plan.cycle h (replicate slots slot))) }
    ensures plan { exec.new.plan ≡ exec.old.plan }
    ensures counted { K.faults out.old ≤ K.faults out.new }
    ensures failed { OnErr result (Rose (K.faults out.old) (K.faults out.new)) }
    ensures fault { IfErr result (λ fault. fault ≡ DialogueFault.Output) }
{
    for _passed in 0..slots {
        put_slot(exec, out, steps)?;
    }
    Ok(())
}

/// A slot passes, and the line of its entry is put.
fn put_slot<T: SpareTable, K: Sink, L: Ledger>(
    exec: &mut Exec<T>,
    out: &mut K,
    steps: &mut Steps<L>,
) -> Result<(), DialogueFault>
    requires { exec.old.scene.time < TIME_LIMIT }
    ensures put { OnOk result ((h : History) → StandsFor exec.old h → Appends
        (K.written out.old)
        (K.written out.new)
        (trace_text exec.old.plan.tasks
        (entries exec.old.plan.tasks exec.old.plan.cycle h (slot ∷ [])))) }
    ensures part { OnErr result ((h : History) → StandsFor exec.old h → AppendsPart
        (K.written out.old)
        (K.written out.new)
        (trace_text exec.old.plan.tasks
        (entries exec.old.plan.tasks exec.old.plan.cycle h (slot ∷ [])))) }
    ensures stands { (h : History) → StandsFor exec.old h → StandsFor
        exec.new
        (history_after exec.old.plan.tasks exec.old.plan.cycle h (slot ∷ [])) }
    ensures plan { exec.new.plan ≡ exec.old.plan }
    ensures time { exec.new.scene.time ≡ exec.old.scene.time + 1 }
    ensures counted { K.faults out.old ≤ K.faults out.new }
    ensures failed { OnErr result (Rose (K.faults out.old) (K.faults out.new)) }
    ensures fault { IfErr result (λ fault. fault ≡ DialogueFault.Output) }
{
    let time = exec.now();
    let what = happen(exec, None, steps);
    put_entry(exec, time, what, out, steps)
}

/// The line of this number is refused: its fault is told, and then the answer is put.
fn refuse<K: Sink, R: RecordFile, E: Sink>(
    number: u64,
    fault: LineFault,
    streams: &mut Streams<K, R, E>,
) -> Result<(), DialogueFault>
    ensures put { OnOk result ((set : TaskSet) (cycle : ℕ) (h : History) → ArePut
        (seen K.written K.faults R.written R.faults E.written E.faults streams.old)
        (seen K.written K.faults R.written R.faults E.written E.faults streams.new)
        (exchange_texts set cycle number h (Err fault))) }
    ensures part { IfErr result (λ broken. (set : TaskSet) (cycle : ℕ) (h : History) → ArePutInPart
        broken
        (seen K.written K.faults R.written R.faults E.written E.faults streams.old)
        (seen K.written K.faults R.written R.faults E.written E.faults streams.new)
        (exchange_texts set cycle number h (Err fault))) }
    ensures same { R.made streams.new.rows ≡ R.made streams.old.rows }
{
    put_fault(&mut streams.faults, number, fault);
    put_answer(&mut streams.answers, b"refused\n")
}
