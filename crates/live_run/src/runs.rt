//! A live run as a whole.

ghost use Rattle.std.specs.Prelude.{◌≡◌, ◌≢◌, ◌↔◌, ◌⊎◌, ◌++◌, ◌∷◌, [], ℕ, List, None, Some, codes};
ghost use Rattle.command_line.specs.Pages.{page_of, page_text, IsPageTold};
ghost use Rattle.command_line.specs.Reports.{IsTold};
ghost use Rattle.command_line.specs.declared.pages.Page.{Page};
ghost use Rattle.command_line.specs.declared.status.Status.{Status};
ghost use Rattle.live_run.specs.Streams.{seen};
ghost use Rattle.live_run.specs.Calls.{live_call_of, plan_words, record_names, AsksRecord, HasPlan, IsRecordOverPlan};
ghost use Rattle.live_run.specs.Pages.{live_help};
ghost use Rattle.live_run.specs.Records.{made_by};
ghost use Rattle.live_run.specs.Refusals.{live_usage};
ghost use Rattle.live_run.specs.Runs.{IsLiveRun, IsRunOf, IsStatusTold};

use crate::call::{LiveCall, live_call_of, plan_words};
use crate::pages::tell_live_page;
use crate::record::RecordFile;
use crate::refusal::LiveRefusal;
use crate::report::tell;
use crate::streams::Streams;
use crate::work::work;
use command_line::{Status, page_of};
use live_lines::LineSource;
use slot_core::{Memory, Words};
use slot_io::{Files, Sink};
use std::alloc::Global;

/// Does what the words ask for: tells the help or the version; or reads the plan that they name,
/// makes the record where they ask for one, answers the lines of the source until the end is asked
/// for, and puts one line more on the sink of the faults where it ends otherwise than Done.
pub fn run<F: Files, S: LineSource, K: Sink, R: RecordFile, E: Sink>(
    alloc: Global,
    words: &Words,
    files: &mut F,
    source: &mut S,
    streams: &mut Streams<K, R, E>,
) -> Status
    ensures whole { page_of words.now ≡ None
        → IsLiveRun F.held F.faults F.blamed F.given S.gave S.broke S.faults files.old files.new
        words.now source.old source.new
        (seen K.written K.faults R.written R.faults E.written E.faults streams.old)
        (seen K.written K.faults R.written R.faults E.written E.faults streams.new) result }
    ensures usage { (result ≡ Status.Usage)
        ↔ ((page_of words.now ≡ None) × (live_call_of words.now ≡ None)) }
    ensures usage_touches_nothing { result ≡ Status.Usage
        → (files.new ≡ files.old) × (source.new ≡ source.old)
        × (streams.new.answers ≡ streams.old.answers) × (streams.new.rows ≡ streams.old.rows) }
    ensures usage_line { result ≡ Status.Usage → IsTold (live_usage ++ 10 ∷ [])
        (E.written streams.old.faults) (E.written streams.new.faults)
        (E.faults streams.old.faults) (E.faults streams.new.faults) }

    // The record is the file of the word after --record, and is made before the first answer; no
    // other file is made.
    ensures record { (plan name : List ℕ) → AsksRecord words.now plan name
        → (R.made streams.new.rows ≡ Some (name, plan))
        ⊎ ((result ≢ Status.Done) × (streams.new.answers ≡ streams.old.answers)
        × (R.made streams.new.rows ≡ R.made streams.old.rows)) }
    ensures no_other_record { (R.made streams.new.rows ≡ R.made streams.old.rows)
        ⊎ ((plan : List ℕ) × (name : List ℕ) × AsksRecord words.now plan name
        × (R.made streams.new.rows ≡ Some (name, plan))) }

    // The file of the plan is no record: such words are faulty.
    ensures plan_kept { (name : List ℕ) → IsRecordOverPlan words.now name → result ≡ Status.Usage }

    // The words --help and --version are answered by these texts, and nothing is read.
    ensures page { (page : Page) → page_of words.now ≡ Some page
        → IsPageTold (page_text (codes "slotlive") live_help page)
        (K.written streams.old.answers) (K.written streams.new.answers)
        (K.faults streams.old.answers) (K.faults streams.new.answers)
        (E.written streams.old.faults) (E.written streams.new.faults)
        (E.faults streams.old.faults) (E.faults streams.new.faults) result }
    ensures page_says_nothing { (page : Page) → page_of words.now ≡ Some page
        → result ≡ Status.Done → streams.new.faults ≡ streams.old.faults }
    ensures page_reads_nothing { (page : Page) → page_of words.now ≡ Some page
        → (files.new ≡ files.old) × (source.new ≡ source.old)
        × (streams.new.rows ≡ streams.old.rows) }
{
    match page_of(words) {
        Some(page) => tell_live_page(page, streams),
        None => run_call_of(alloc, words, files, source, streams),
    }
}

/// Does the call that the words write.
fn run_call_of<F: Files, S: LineSource, K: Sink, R: RecordFile, E: Sink>(
    alloc: Global,
    words: &Words,
    files: &mut F,
    source: &mut S,
    streams: &mut Streams<K, R, E>,
) -> Status
    ensures whole { IsLiveRun F.held F.faults F.blamed F.given S.gave S.broke S.faults
        files.old files.new words.now source.old source.new
        (seen K.written K.faults R.written R.faults E.written E.faults streams.old)
        (seen K.written K.faults R.written R.faults E.written E.faults streams.new) result }
    ensures usage { (result ≡ Status.Usage) ↔ (live_call_of words.now ≡ None) }
    ensures usage_touches_nothing { result ≡ Status.Usage
        → (files.new ≡ files.old) × (source.new ≡ source.old)
        × (streams.new.answers ≡ streams.old.answers) × (streams.new.rows ≡ streams.old.rows) }
    ensures usage_line { result ≡ Status.Usage → IsTold (live_usage ++ 10 ∷ [])
        (E.written streams.old.faults) (E.written streams.new.faults)
        (E.faults streams.old.faults) (E.faults streams.new.faults) }
    ensures record { (plan name : List ℕ) → AsksRecord words.now plan name
        → (R.made streams.new.rows ≡ Some (name, plan))
        ⊎ ((result ≢ Status.Done) × (streams.new.answers ≡ streams.old.answers)
        × (R.made streams.new.rows ≡ R.made streams.old.rows)) }
    ensures no_other_record { (R.made streams.new.rows ≡ R.made streams.old.rows)
        ⊎ ((plan : List ℕ) × (name : List ℕ) × AsksRecord words.now plan name
        × (R.made streams.new.rows ≡ Some (name, plan))) }
{
    match live_call_of(words) {
        Some(call) => run_call(alloc, words, call, files, source, streams),
        None => tell_unnamed(alloc, words, LiveRefusal::Usage, &mut streams.faults),
    }
}

/// Does what a call asks for.
fn run_call<F: Files, S: LineSource, K: Sink, R: RecordFile, E: Sink>(
    alloc: Global,
    words: &Words,
    call: LiveCall,
    files: &mut F,
    source: &mut S,
    streams: &mut Streams<K, R, E>,
) -> Status
    requires { HasPlan call }
    ensures whole { IsRunOf F.held F.faults F.blamed F.given S.gave S.broke S.faults
        files.old files.new words.now
        (Some call) (plan_words words.now call) source.old source.new
        (seen K.written K.faults R.written R.faults E.written E.faults streams.old)
        (seen K.written K.faults R.written R.faults E.written E.faults streams.new) result }
    ensures record { (R.made streams.new.rows
        ≡ made_by call.is_recorded (record_names words.now call) (R.made streams.old.rows))
        ⊎ ((result ≢ Status.Done) × (streams.new.answers ≡ streams.old.answers)
        × (R.made streams.new.rows ≡ R.made streams.old.rows)) }
{
    match plan_words(alloc, words, call) {
        Ok(names) => run_named(alloc, words, &names, call, files, source, streams),
        Err(Memory) => tell_unnamed(alloc, words, LiveRefusal::from(Memory), &mut streams.faults),
    }
}

/// Does what a call asks for, where the plan's file has this name.
fn run_named<F: Files, S: LineSource, K: Sink, R: RecordFile, E: Sink>(
    alloc: Global,
    words: &Words,
    names: &Words,
    call: LiveCall,
    files: &mut F,
    source: &mut S,
    streams: &mut Streams<K, R, E>,
) -> Status
    requires plan { HasPlan call }
    requires names { names.now ≡ plan_words words.now call }
    ensures whole { IsRunOf F.held F.faults F.blamed F.given S.gave S.broke S.faults
        files.old files.new words.now
        (Some call) (plan_words words.now call) source.old source.new
        (seen K.written K.faults R.written R.faults E.written E.faults streams.old)
        (seen K.written K.faults R.written R.faults E.written E.faults streams.new) result }
    ensures record { (R.made streams.new.rows
        ≡ made_by call.is_recorded (record_names words.now call) (R.made streams.old.rows))
        ⊎ ((result ≢ Status.Done) × (streams.new.answers ≡ streams.old.answers)
        × (R.made streams.new.rows ≡ R.made streams.old.rows)) }
{
    match work(alloc, words, names, call, files, source, streams) {
        Ok(()) => Status::Done,
        Err(refusal) => tell_status(alloc, words, names, refusal, &mut streams.faults),
    }
}

/// Tells the refusal of a run whose plan has no name yet, and gives the status.
fn tell_unnamed<E: Sink>(alloc: Global, words: &Words, refusal: LiveRefusal, err: &mut E) -> Status
    ensures told { IsStatusTold words.now [] refusal
        (E.written err.old) (E.written err.new) (E.faults err.old) (E.faults err.new) result }
    ensures undone { result ≢ Status.Done }
{
    let names = Words::new(alloc);
    tell_status(alloc, words, &names, refusal, err)
}

/// Tells the refusal, and gives the status.
fn tell_status<E: Sink>(
    alloc: Global,
    words: &Words,
    names: &Words,
    refusal: LiveRefusal,
    err: &mut E,
) -> Status
    ensures told { IsStatusTold words.now names.now refusal
        (E.written err.old) (E.written err.new) (E.faults err.old) (E.faults err.new) result }
    ensures undone { result ≢ Status.Done }
{
    tell(alloc, words, names, refusal, err).status()
}
