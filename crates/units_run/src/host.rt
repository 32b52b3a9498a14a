//! `run` over a host: its arguments, its files and its standard streams.

ghost use Rattle.std.specs.Prelude.{◌≡◌, ◌↔◌, None, IfOk, IsErr};
ghost use Rattle.std.specs.Process.{exit_status};
ghost use Rattle.command_line.specs.declared.status.Status.{Status};
ghost use Rattle.command_line.specs.Pages.{page_of};
ghost use Rattle.command_line.specs.Statuses.{exit_number};
ghost use Rattle.units_run.specs.Questions.{question_of};

use crate::run;
use command_line::Status;
use host_input::HostInput;
use slot_core::{Memory, Words};
use slot_io::{HostFiles, HostSink, words_of};
use std::io::{Read, Write};
use std::process::ExitCode;
use std::rt::{Env, Files};

/// Runs over these streams and the arguments and files of the host, and gives the number of the
/// status. Where memory ran out before `run`, that number alone tells it, and nothing is printed.
pub fn run_on_host<I, O, E, R>(input: I, out: O, err: E, rt: R) -> ExitCode
where
    I: Read + Drop,
    O: Write + Drop,
    E: Write + Drop,
    R: Files + Env + AllocGlobal + Drop,
    ensures { (status : Status) × (exit_status result ≡ exit_number status) }
{
    let words = words_of(&rt);
    exit_of(run_words(input, out, err, rt, words))
}

/// The exit status of the program.
fn exit_of(status: Status) -> ExitCode
    ensures { exit_status result ≡ exit_number status }
{
    ExitCode::from(status.number())
}

/// The status of a run of these words, where memory sufficed for them.
fn run_words<I, O, E, R>(input: I, out: O, err: E, rt: R, words: Result<Words, Memory>) -> Status
where
    I: Read + Drop,
    O: Write + Drop,
    E: Write + Drop,
    R: Files + AllocGlobal + Drop,
    ensures memory { IsErr words → result ≡ Status.Memory }
    ensures usage { IfOk words (λ words. (result ≡ Status.Usage)
        ↔ ((page_of words ≡ None) × (question_of words ≡ None))) }
{
    match words {
        Ok(words) => run_over(input, out, err, rt, &words),
        Err(Memory) => Status::Memory,
    }
}

/// The status of a run of these words over these streams and the files of the host.
fn run_over<I, O, E, R>(input: I, out: O, err: E, rt: R, words: &Words) -> Status
where
    I: Read + Drop,
    O: Write + Drop,
    E: Write + Drop,
    R: Files + AllocGlobal + Drop,
    ensures { (result ≡ Status.Usage)
        ↔ ((page_of words.now ≡ None) × (question_of words.now ≡ None)) }
{
    let alloc = rt.alloc();
    let mut input = HostInput::new(input);
    let mut out = HostSink::new(out);
    let mut err = HostSink::new(err);
    let mut files = HostFiles::new(rt);
    run(alloc, words, &mut files, &mut input, &mut out, &mut err)
}
