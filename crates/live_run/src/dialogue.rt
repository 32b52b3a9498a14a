//! A dialogue with an executive.

ghost use Rattle.std.specs.Prelude.{◌≡◌, ◌≤◌, ◌<◌, [], ◌∷◌, IfErr, IfOk, OnErr, OnOk};
ghost use Rattle.slot_core.specs.Calls.Counts.{Rose};
ghost use Rattle.slot_core.specs.Keeping.Executives.{StandsFor};
ghost use Rattle.slot_core.specs.Runs.Traces.{started};
ghost use Rattle.live_lines.specs.Lines.{heard};
ghost use Rattle.live_run.specs.Dialogues.{is_end};
ghost use Rattle.live_run.specs.Streams.{seen, IsBroken, IsDialogue};

use crate::answers::{answer, asked_now};
use crate::puts::put_entry;
use crate::record::RecordFile;
use crate::streams::{DialogueFault, Streams};
use interval_row::SpareTable;
use live_lines::{Given, LineFault, LineSource, LiveCommand};
use plan_change::CarriedList;
use slot_core::{Steps, What};
use slot_exec::Exec;
use slot_io::Sink;
use std::marker::Brand;
use std::sync::ledger::{Blank, Ledger};

/// Answers the lines of a source until the end is asked for. First the line of the start is put;
/// each line is answered before the next one is read, at the history so far. It takes no memory:
/// the list has as many places as a cycle of the plan has slots.
pub fn converse<T: SpareTable, S: LineSource, K: Sink, R: RecordFile, E: Sink>(
    exec: &mut Exec<T>,
    list: &mut CarriedList,
    source: &mut S,
    streams: &mut Streams<K, R, E>,
) -> Result<(), DialogueFault>
    requires started { StandsFor exec.old started }
    requires places { exec.old.plan.cycle ≤ list.old.places }
    ensures over { OnOk result (IsDialogue
        exec.old.plan.tasks
        exec.old.plan.cycle
        (S.gave source.old source.new)
        (seen K.written K.faults R.written R.faults E.written E.faults streams.old)
        (seen K.written K.faults R.written R.faults E.written E.faults streams.new)) }
    ensures broken { IfErr result (λ fault. IsBroken
        S.gave
        S.broke
        S.faults
        exec.old.plan.tasks
        exec.old.plan.cycle
        fault
        source.old
        source.new
        (seen K.written K.faults R.written R.faults E.written E.faults streams.old)
        (seen K.written K.faults R.written R.faults E.written E.faults streams.new)) }
    ensures same { R.made streams.new.rows ≡ R.made streams.old.rows }
{
    converse_counted::<T, S, K, R, E, Brand>(exec, list, source, streams, Blank::new(1))
}

/// `converse`, with steps that nobody asks for.
fn converse_counted<T: SpareTable, S: LineSource, K: Sink, R: RecordFile, E: Sink, L: Ledger>(
    exec: &mut Exec<T>,
    list: &mut CarriedList,
    source: &mut S,
    streams: &mut Streams<K, R, E>,
    blank: Blank,
) -> Result<(), DialogueFault>
    requires name { blank.name ≡ L.name }
    requires parts { blank.parts ≡ L.parts }
    requires ledger { 0 < L.parts }
    requires started { StandsFor exec.old started }
    requires places { exec.old.plan.cycle ≤ list.old.places }
    ensures over { OnOk result (IsDialogue
        exec.old.plan.tasks
        exec.old.plan.cycle
        (S.gave source.old source.new)
        (seen K.written K.faults R.written R.faults E.written E.faults streams.old)
        (seen K.written K.faults R.written R.faults E.written E.faults streams.new)) }
    ensures broken { IfErr result (λ fault. IsBroken
        S.gave
        S.broke
        S.faults
        exec.old.plan.tasks
        exec.old.plan.cycle
        fault
        source.old
        source.new
        (seen K.written K.faults R.written R.faults E.written E.faults streams.old)
        (seen K.written K.faults R.written R.faults E.written E.faults streams.new)) }
    ensures same { R.made streams.new.rows ≡ R.made streams.old.rows }
{
    let mut steps: Steps<L> = Steps::new(blank);
    put_entry(exec, 0, What::Start, &mut streams.answers, &mut steps)?;
    for heard in 0..u64::MAX {
        let given = hear(source)?;
        let asked = asked_now(exec, source, given);
        answer(exec, list, heard + 1, asked, streams, &mut steps)?;
        if is_end(asked) {
            return Ok(());
        }
    }
    Err(DialogueFault::Input)
}

/// Hears what the source gives next.
fn hear<S: LineSource>(source: &mut S) -> Result<Given, DialogueFault>
    ensures gives { IfOk result
        (λ next. S.gave source.old source.new (heard next (S.last source.new) ∷ [])) }
    ensures broken { OnErr result (S.broke source.old source.new) }
    ensures counted { S.faults source.old ≤ S.faults source.new }
    ensures failed { OnErr result (Rose (S.faults source.old) (S.faults source.new)) }
    ensures fault { IfErr result (λ fault. fault ≡ DialogueFault.Input) }
{
    source.next().or(Err(DialogueFault::Input))
}

/// Whether the end is asked for.
fn is_end(asked: Result<LiveCommand, LineFault>) -> bool
    ensures { result ≡ is_end asked }
{
    match asked {
        Ok(LiveCommand::End) => true,
        Ok(_) | Err(_) => false,
    }
}
