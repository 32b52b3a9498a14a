//! The work of a live run.

ghost use Rattle.std.specs.Prelude.{◌≡◌, ◌≤◌, ◌⊎◌, Err, IsErr, Some, OnErr, OnOk};
ghost use Rattle.slot_core.specs.Calls.Counts.{Rose};
ghost use Rattle.slot_core.specs.Keeping.Executives.{StandsFor};
ghost use Rattle.slot_core.specs.Runs.Traces.{started};
ghost use Rattle.live_run.specs.Streams.{seen};
ghost use Rattle.live_run.specs.Calls.{record_names, HasPlan};
ghost use Rattle.live_run.specs.Records.{made_by, IsEmpty};
ghost use Rattle.live_run.specs.Runs.{IsLiveWork, IsTalk};

use crate::call::LiveCall;
use crate::dialogue::converse;
use crate::record::{RecordFile, RecordNames};
use crate::refusal::LiveRefusal;
use crate::streams::Streams;
use cycle_plan::Plan;
use interval_row::ChainTable;
use live_lines::LineSource;
use plan_change::CarriedList;
use run_steps::plan_from;
use slot_core::{Failed, Words};
use slot_exec::Exec;
use slot_io::{Files, Sink};
use std::alloc::Global;

/// Does the work of a call: makes the plan and starts its executive, makes the record where there
/// is to be one, and answers the lines. All memory is taken before the first line is answered.
pub(crate) fn work<F: Files, S: LineSource, K: Sink, R: RecordFile, E: Sink>(
    alloc: Global,
    words: &Words,
    names: &Words,
    call: LiveCall,
    files: &mut F,
    source: &mut S,
    streams: &mut Streams<K, R, E>,
) -> Result<(), LiveRefusal>
    requires plan { HasPlan call }
    ensures whole { IsLiveWork F.held F.faults F.blamed F.given S.gave S.broke S.faults
        files.old files.new names.now call source.old source.new
        (seen K.written K.faults R.written R.faults E.written E.faults streams.old)
        (seen K.written K.faults R.written R.faults E.written E.faults streams.new) result }
    ensures record { (R.made streams.new.rows
        ≡ made_by call.is_recorded (record_names words.now call) (R.made streams.old.rows))
        ⊎ (IsErr result × (streams.new.answers ≡ streams.old.answers)
        × (R.made streams.new.rows ≡ R.made streams.old.rows)) }
{
    let plan = plan_from(alloc, names, files, call.source)?;
    talk(alloc, words, call, plan, source, streams)
}

/// Answers the lines by the executive of a plan.
fn talk<S: LineSource, K: Sink, R: RecordFile, E: Sink>(
    alloc: Global,
    words: &Words,
    call: LiveCall,
    plan: Plan,
    source: &mut S,
    streams: &mut Streams<K, R, E>,
) -> Result<(), LiveRefusal>
    ensures whole { IsTalk S.gave S.broke S.faults plan call.is_recorded source.old source.new
        (seen K.written K.faults R.written R.faults E.written E.faults streams.old)
        (seen K.written K.faults R.written R.faults E.written E.faults streams.new) result }
    ensures record { (R.made streams.new.rows
        ≡ made_by call.is_recorded (record_names words.now call) (R.made streams.old.rows))
        ⊎ (IsErr result × (streams.new.answers ≡ streams.old.answers)
        × (R.made streams.new.rows ≡ R.made streams.old.rows)) }
{
    let mut exec: Exec<ChainTable> = Exec::start(alloc, plan)?;
    let mut list = CarriedList::with_places(alloc, exec.cycle() as usize)?;
    talk_with(alloc, words, call, &mut exec, &mut list, source, streams)
}

/// Answers the lines by an executive that has just started.
fn talk_with<S: LineSource, K: Sink, R: RecordFile, E: Sink>(
    alloc: Global,
    words: &Words,
    call: LiveCall,
    exec: &mut Exec<ChainTable>,
    list: &mut CarriedList,
    source: &mut S,
    streams: &mut Streams<K, R, E>,
) -> Result<(), LiveRefusal>
    requires started { StandsFor exec.old started }
    requires places { exec.old.plan.cycle ≤ list.old.places }
    ensures whole { IsTalk S.gave S.broke S.faults exec.old.plan call.is_recorded source.old source.new
        (seen K.written K.faults R.written R.faults E.written E.faults streams.old)
        (seen K.written K.faults R.written R.faults E.written E.faults streams.new) result }
    ensures record { (R.made streams.new.rows
        ≡ made_by call.is_recorded (record_names words.now call) (R.made streams.old.rows))
        ⊎ (IsErr result × (streams.new.answers ≡ streams.old.answers)
        × (R.made streams.new.rows ≡ R.made streams.old.rows)) }
{
    if call.is_recorded {
        let names = RecordNames::of(alloc, words, call)?;
        make_record(names, &mut streams.rows)?;
    }
    converse(exec, list, source, streams)?;
    Ok(())
}

/// Makes the record of these names.
fn make_record<R: RecordFile>(names: RecordNames, rows: &mut R) -> Result<(), LiveRefusal>
    ensures made { OnOk result (R.made rows.new ≡ Some names) }
    ensures empty { OnOk result (IsEmpty (R.written rows.new)) }
    ensures kept { OnOk result (R.faults rows.new ≡ R.faults rows.old) }
    ensures same { OnErr result (R.made rows.new ≡ R.made rows.old) }
    ensures stays { OnErr result (R.written rows.new ≡ R.written rows.old) }
    ensures counted { R.faults rows.old ≤ R.faults rows.new }
    ensures unmade { OnErr result (result ≡ Err LiveRefusal.Unmade) }
    ensures failed { OnErr result (Rose (R.faults rows.old) (R.faults rows.new)) }
{
    match rows.make(names) {
        Ok(()) => Ok(()),
        Err(Failed) => Err(LiveRefusal::Unmade),
    }
}
