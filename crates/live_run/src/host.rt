//! `run` over a host: its arguments, its files and its standard streams.

ghost use Rattle.std.specs.Prelude.{◌≡◌, ◌⊎◌, None, Some, IfOk, IsErr, codes};
ghost use Rattle.std.specs.Process.{exit_status};
ghost use Rattle.command_line.specs.declared.pages.Page.{Page};
ghost use Rattle.command_line.specs.declared.status.Status.{Status};
ghost use Rattle.command_line.specs.Pages.{page_of, page_text, IsPageTold};
ghost use Rattle.command_line.specs.Statuses.{exit_number};
ghost use Rattle.live_run.specs.Calls.{live_call_of};
ghost use Rattle.live_run.specs.Pages.{live_help};

use crate::pages::tell_live_page;
use crate::record::HostRecord;
use crate::runs::run;
use crate::streams::Streams;
use command_line::{Status, page_of};
use live_lines::InputLines;
use slot_core::{Memory, Words};
use slot_io::{HostFiles, HostSink, words_of};
use std::io::{BufReader, Input, Write};
use std::process::ExitCode;
use std::rt::{Env, Files};

/// Runs over these streams and the arguments, the files and the standard input of the host, and
/// gives the number of the status. Where memory ran out before `run`, that number alone tells it,
/// and nothing is printed.
pub fn run_on_host<O, E, R>(out: O, err: E, rt: R) -> ExitCode
where
    O: Write + Drop,
    E: Write + Drop,
    R: Files + Env + Input + AllocGlobal + Drop,
    ensures { (status : Status) × (exit_status result ≡ exit_number status) }
{
    let words = words_of(&rt);
    exit_of(run_words(out, err, &rt, words))
}

/// The exit status of the program.
fn exit_of(status: Status) -> ExitCode
    ensures { exit_status result ≡ exit_number status }
{
    ExitCode::from(status.number())
}

/// The status of a run of these words, where memory sufficed for them and for what is read ahead.
fn run_words<O, E, R>(out: O, err: E, rt: &R, words: Result<Words, Memory>) -> Status
where
    O: Write + Drop,
    E: Write + Drop,
    R: Files + Input + AllocGlobal,
    ensures memory { IsErr words → result ≡ Status.Memory }
    ensures usage { IfOk words (λ words. result ≡ Status.Usage
        → (page_of words ≡ None) × (live_call_of words ≡ None)) }
    ensures no_form { IfOk words (λ words. page_of words ≡ None → live_call_of words ≡ None
        → (result ≡ Status.Usage) ⊎ (result ≡ Status.Memory)) }
    ensures page { IfOk words (λ words. (page : Page) → page_of words ≡ Some page
        → (result ≡ Status.Done) ⊎ (result ≡ Status.WriteFault)) }
{
    match words {
        Ok(words) => run_over(out, err, rt, &words),
        Err(Memory) => Status::Memory,
    }
}

/// The status of a run of these words over these streams and the files and the input of the host.
/// A page is told before any memory is taken.
fn run_over<O, E, R>(out: O, err: E, rt: &R, words: &Words) -> Status
where
    O: Write + Drop,
    E: Write + Drop,
    R: Files + Input + AllocGlobal,
    ensures usage { result ≡ Status.Usage
        → (page_of words.now ≡ None) × (live_call_of words.now ≡ None) }
    ensures no_form { page_of words.now ≡ None → live_call_of words.now ≡ None
        → (result ≡ Status.Usage) ⊎ (result ≡ Status.Memory) }
    ensures page { (page : Page) → page_of words.now ≡ Some page
        → (result ≡ Status.Done) ⊎ (result ≡ Status.WriteFault) }
{
    let mut streams = Streams {
        answers: HostSink::new(out),
        rows: HostRecord::new(rt),
        faults: HostSink::new(err),
    };
    run_streams(rt, words, &mut streams)
}

/// The status of a run of these words over these streams. A page is told as `run` tells it.
fn run_streams<O, E, R>(
    rt: &R,
    words: &Words,
    streams: &mut Streams<HostSink<O>, HostRecord<&R>, HostSink<E>>,
) -> Status
where
    O: Write + Drop,
    E: Write + Drop,
    R: Files + Input + AllocGlobal,
    ensures usage { result ≡ Status.Usage
        → (page_of words.now ≡ None) × (live_call_of words.now ≡ None) }
    ensures no_form { page_of words.now ≡ None → live_call_of words.now ≡ None
        → (result ≡ Status.Usage) ⊎ (result ≡ Status.Memory) }
    ensures page { (page : Page) → page_of words.now ≡ Some page
        → IsPageTold (page_text (codes "slotlive") live_help page)
        (O.contents streams.old.answers.writer) (O.contents streams.new.answers.writer)
        streams.old.answers.faults streams.new.answers.faults
        (E.contents streams.old.faults.writer) (E.contents streams.new.faults.writer)
        streams.old.faults.faults streams.new.faults.faults result }
    ensures page_says_nothing { (page : Page) → page_of words.now ≡ Some page
        → result ≡ Status.Done → streams.new.faults ≡ streams.old.faults }
    ensures page_records_nothing { (page : Page) → page_of words.now ≡ Some page
        → streams.new.rows ≡ streams.old.rows }
{
    match page_of(words) {
        Some(page) => tell_live_page(page, streams),
        None => run_read(rt, words, streams),
    }
}

/// The status of a run of these words, which ask for no page, over these streams.
fn run_read<O, E, R>(
    rt: &R,
    words: &Words,
    streams: &mut Streams<HostSink<O>, HostRecord<&R>, HostSink<E>>,
) -> Status
where
    O: Write + Drop,
    E: Write + Drop,
    R: Files + Input + AllocGlobal,
    ensures usage { result ≡ Status.Usage
        → (page_of words.now ≡ None) × (live_call_of words.now ≡ None) }
    ensures no_form { page_of words.now ≡ None → live_call_of words.now ≡ None
        → (result ≡ Status.Usage) ⊎ (result ≡ Status.Memory) }
{
    let alloc = rt.alloc();
    match BufReader::new(alloc, rt.reader()) {
        Ok(reader) => {
            let mut source = InputLines::new(reader);
            let mut files = HostFiles::new(rt);
            run(alloc, words, &mut files, &mut source, streams)
        }
        Err(_) => Status::Memory,
    }
}
