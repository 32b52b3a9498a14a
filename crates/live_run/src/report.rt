//! The line that tells why a live run is refused.

ghost use Rattle.std.specs.Prelude.{◌≡◌, ◌++◌, ◌∷◌, [], IfOk, codes};
ghost use Rattle.command_line.specs.Reports.{IsTold};
ghost use Rattle.live_run.specs.Calls.{record_name};
ghost use Rattle.live_run.specs.Runs.{IsLiveReport, IsRecordReport};

use crate::call::record_name;
use crate::refusal::LiveRefusal;
use command_line::append::push;
use command_line::{OUT_OF_MEMORY, Refusal, report};
use slot_core::{Memory, Words};
use slot_io::Sink;
use std::alloc::Global;

/// Puts the line of the refusal, in one put, and answers why the run is refused: as it was, or for
/// want of memory where there is none for the line. A failing put changes nothing of it.
pub(crate) fn tell<E: Sink>(
    alloc: Global,
    words: &Words,
    names: &Words,
    refusal: LiveRefusal,
    err: &mut E,
) -> LiveRefusal
    ensures { IsLiveReport words.now names.now refusal result
        (E.written err.old) (E.written err.new) (E.faults err.old) (E.faults err.new) }
{
    match refusal {
        LiveRefusal::Usage => {
            put_line(
                err,
                b"usage: slotlive T [--record FILE], slotlive --table B [--record FILE]\n",
            );
            LiveRefusal::Usage
        }
        LiveRefusal::Run(refusal) => LiveRefusal::Run(report(alloc, names, refusal, err)),
        LiveRefusal::Unmade => tell_record(alloc, words, LiveRefusal::Unmade, err),
        LiveRefusal::Unrecorded => tell_record(alloc, words, LiveRefusal::Unrecorded, err),
        LiveRefusal::Unheard => {
            put_line(err, b"cannot read standard input\n");
            LiveRefusal::Unheard
        }
    }
}

/// Tells that the record cannot be written, or that there is no memory to tell it.
fn tell_record<E: Sink>(
    alloc: Global,
    words: &Words,
    refusal: LiveRefusal,
    err: &mut E,
) -> LiveRefusal
    ensures { IsRecordReport words.now refusal result
        (E.written err.old) (E.written err.new) (E.faults err.old) (E.faults err.new) }
{
    match record_line(alloc, record_name(words)) {
        Ok(line) => {
            put_line(err, line.as_slice());
            refusal
        }
        Err(Memory) => {
            put_line(err, OUT_OF_MEMORY);
            LiveRefusal::Run(Refusal::Memory)
        }
    }
}

/// The line of a record of this name that cannot be written.
fn record_line(alloc: Global, name: &str) -> Result<Vec<u8>, Memory>
    ensures { IfOk result (λ line. line.items ≡ codes "cannot write " ++ name.now ++ 10 ∷ []) }
{
    let mut line = Vec::new(alloc);
    push(&mut line, b"cannot write ")?;
    push(&mut line, name.as_bytes())?;
    push(&mut line, b"\n")?;
    Ok(line)
}

/// Puts the line. A failure is left to the sink's count of faults.
fn put_line<E: Sink>(err: &mut E, line: &[u8])
    ensures { IsTold line.now
        (E.written err.old) (E.written err.new) (E.faults err.old) (E.faults err.new) }
{
    match err.put(line) {
        Ok(()) | Err(_) => {}
    }
}
