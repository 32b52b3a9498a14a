//! What slotunits does, over any files and sinks: a file of units to a task file in slots, or to
//! the lengths of a slot that suit it, arrivals with times to an arrivals file, and a trace to
//! times.
#![tactic(auto)]

ghost use Rattle.std.specs.Prelude.{◌≡◌, ◌≢◌, ◌↔◌, ◌⊎◌, None, Some, codes};
ghost use Rattle.command_line.specs.Pages.{IsPageTold, page_of, page_text};
ghost use Rattle.command_line.specs.Refusals.{word_at};
ghost use Rattle.command_line.specs.Reports.{IsTold};
ghost use Rattle.command_line.specs.declared.pages.Page.{Page};
ghost use Rattle.units_run.specs.Lines.{refusal_line, units_help, units_usage};
ghost use Rattle.units_run.specs.Questions.{other_of, question_of};
ghost use Rattle.units_run.specs.Runs.{IsPartWritten, IsRefused, IsWritten, refusal_status, seen};
ghost use Rattle.units_run.specs.declared.questions.Question.{Question};
ghost use Rattle.units_run.specs.declared.refusal.UnitsRefusal.{UnitsRefusal};

pub mod host;
mod pages;
pub mod questions;
pub mod refusal;
mod work;

use command_line::{Status, page_of};
pub use host::run_on_host;
use pages::tell_units_page;
pub use questions::{Question, question_of};
pub use refusal::UnitsRefusal;
use refusal::refusal_line;
use slot_core::{Memory, Words};
use slot_io::{Files, Sink};
use std::alloc::Global;
use work::work;

/// The usage line.
const USAGE: &[u8] = b"usage: slotunits tasks U | check U [FROM TO] | arrivals U A | trace U\n";

/// The name of standard input in fault lines.
const INPUT_NAME: &str = "standard input";

/// Does what the words ask for: tells the help or the version; or reads the file of units, and
/// writes the answer in one put: the task file of its set in slots, a line for each length of a
/// slot, the arrivals file of a file of arrivals with times, or the trace with times of the trace
/// that `input` gives. It puts one line on `err` where it ends otherwise than Done.
pub fn run<F: Files, I: Files, K: Sink, E: Sink>(
    alloc: Global,
    words: &Words,
    files: &mut F,
    input: &mut I,
    out: &mut K,
    err: &mut E,
) -> Status
    ensures usage { (result ≡ Status.Usage)
        ↔ ((page_of words.now ≡ None) × (question_of words.now ≡ None)) }
    ensures usage_touches_nothing { result ≡ Status.Usage
        → (files.new ≡ files.old) × (input.new ≡ input.old) × (out.new ≡ out.old) }
    ensures usage_line { result ≡ Status.Usage → IsTold units_usage
        (E.written err.old) (E.written err.new) (E.faults err.old) (E.faults err.new) }

    // The words --help and --version are answered by these texts, and nothing is read.
    ensures page { (page : Page) → page_of words.now ≡ Some page
        → IsPageTold (page_text (codes "slotunits") units_help page)
        (K.written out.old) (K.written out.new) (K.faults out.old) (K.faults out.new)
        (E.written err.old) (E.written err.new) (E.faults err.old) (E.faults err.new) result }
    ensures page_reads_nothing { (page : Page) → page_of words.now ≡ Some page
        → (files.new ≡ files.old) × (input.new ≡ input.old) }

    // For other words, where it is done, the file writes a set in physical time. For a task file
    // its set in slots is sound, and what was written is read as that set; for the lengths of a
    // slot what was written are their lines; and for arrivals with times and for a trace
    // it is what stands for their rows and lines.
    ensures done { page_of words.now ≡ None → result ≡ Status.Done
        → (question : Question) × (question_of words.now ≡ Some question)
        × IsWritten question (F.held files.old) (I.held input.old) (word_at words.now 1)
        (other_of words.now) (K.written out.old) (K.written out.new) }
    ensures done_says_nothing { result ≡ Status.Done → err.new ≡ err.old }
    ensures done_reads_well { result ≡ Status.Done → (F.faults files.new ≡ F.faults files.old)
        × (I.faults input.new ≡ I.faults input.old) }

    // Where they are refused, the refusal has its cause, and its line is told.
    ensures refused { page_of words.now ≡ None → result ≢ Status.Done → result ≢ Status.Usage
        → (question : Question) × (question_of words.now ≡ Some question)
        × ((e : UnitsRefusal) × (result ≡ refusal_status e)
        × IsRefused question (word_at words.now 1) (other_of words.now)
        (seen F.held F.blamed F.given F.faults files.old files.new)
        (seen I.held I.blamed I.given I.faults input.old input.new)
        (K.faults out.old, K.faults out.new) e
        × IsTold (refusal_line (word_at words.now 1) (other_of words.now) e)
        (E.written err.old) (E.written err.new) (E.faults err.old) (E.faults err.new)) }
    ensures refusal_writes_nothing { result ≢ Status.Done → result ≢ Status.WriteFault
        → out.new ≡ out.old }

    // Where the write fails, a part of the answer is on the output, from its front.
    ensures part { page_of words.now ≡ None → result ≡ Status.WriteFault
        → (question : Question) × (question_of words.now ≡ Some question)
        × IsPartWritten question (F.held files.old) (I.held input.old) (word_at words.now 1)
        (other_of words.now) (K.written out.old) (K.written out.new) }
{
    match page_of(words) {
        Some(page) => tell_units_page(page, out, err),
        None => run_file_of(alloc, words, files, input, out, err),
    }
}

/// Answers the question that the words ask.
fn run_file_of<F: Files, I: Files, K: Sink, E: Sink>(
    alloc: Global,
    words: &Words,
    files: &mut F,
    input: &mut I,
    out: &mut K,
    err: &mut E,
) -> Status
    ensures usage { (result ≡ Status.Usage) ↔ (question_of words.now ≡ None) }
    ensures usage_touches_nothing { result ≡ Status.Usage
        → (files.new ≡ files.old) × (input.new ≡ input.old) × (out.new ≡ out.old) }
    ensures usage_line { result ≡ Status.Usage → IsTold units_usage
        (E.written err.old) (E.written err.new) (E.faults err.old) (E.faults err.new) }
    ensures done { result ≡ Status.Done
        → (question : Question) × (question_of words.now ≡ Some question)
        × IsWritten question (F.held files.old) (I.held input.old) (word_at words.now 1)
        (other_of words.now) (K.written out.old) (K.written out.new) }
    ensures done_says_nothing { result ≡ Status.Done → err.new ≡ err.old }
    ensures done_reads_well { result ≡ Status.Done → (F.faults files.new ≡ F.faults files.old)
        × (I.faults input.new ≡ I.faults input.old) }
    ensures refused { result ≢ Status.Done → result ≢ Status.Usage
        → (question : Question) × (question_of words.now ≡ Some question)
        × ((e : UnitsRefusal) × (result ≡ refusal_status e)
        × IsRefused question (word_at words.now 1) (other_of words.now)
        (seen F.held F.blamed F.given F.faults files.old files.new)
        (seen I.held I.blamed I.given I.faults input.old input.new)
        (K.faults out.old, K.faults out.new) e
        × IsTold (refusal_line (word_at words.now 1) (other_of words.now) e)
        (E.written err.old) (E.written err.new) (E.faults err.old) (E.faults err.new)) }
    ensures refusal_writes_nothing { result ≢ Status.Done → result ≢ Status.WriteFault
        → out.new ≡ out.old }
    ensures part { result ≡ Status.WriteFault
        → (question : Question) × (question_of words.now ≡ Some question)
        × IsPartWritten question (F.held files.old) (I.held input.old) (word_at words.now 1)
        (other_of words.now) (K.written out.old) (K.written out.new) }
{
    match question_of(words) {
        Some(question) => run_files(
            alloc,
            question,
            name_of(words),
            other_of(words),
            files,
            input,
            out,
            err,
        ),
        None => refuse(err),
    }
}

/// The name of the file of units.
fn name_of(words: &Words) -> &str
    ensures { result.now ≡ word_at words.now 1 }
{
    if words.len() > 1 { words.word(1) } else { "" }
}

/// The name of the other file, or of standard input.
fn other_of(words: &Words) -> &str
    ensures { result.now ≡ other_of words.now }
{
    if words.len() > 2 {
        words.word(2)
    } else {
        INPUT_NAME
    }
}

/// Answers the question of the files of these names.
fn run_files<F: Files, I: Files, K: Sink, E: Sink>(
    alloc: Global,
    question: Question,
    name: &str,
    other: &str,
    files: &mut F,
    input: &mut I,
    out: &mut K,
    err: &mut E,
) -> Status
    ensures known { result ≢ Status.Usage }
    ensures done { result ≡ Status.Done → IsWritten question (F.held files.old) (I.held input.old)
        name.now other.now (K.written out.old) (K.written out.new) }
    ensures done_says_nothing { result ≡ Status.Done → err.new ≡ err.old }
    ensures done_reads_well { result ≡ Status.Done → (F.faults files.new ≡ F.faults files.old)
        × (I.faults input.new ≡ I.faults input.old) }
    ensures refused { result ≢ Status.Done → (e : UnitsRefusal) × (result ≡ refusal_status e)
        × IsRefused question name.now other.now
        (seen F.held F.blamed F.given F.faults files.old files.new)
        (seen I.held I.blamed I.given I.faults input.old input.new)
        (K.faults out.old, K.faults out.new) e
        × IsTold (refusal_line name.now other.now e)
        (E.written err.old) (E.written err.new) (E.faults err.old) (E.faults err.new) }
    ensures refusal_writes_nothing { result ≢ Status.Done → result ≢ Status.WriteFault
        → out.new ≡ out.old }
    ensures part { result ≡ Status.WriteFault → IsPartWritten question (F.held files.old)
        (I.held input.old) name.now other.now (K.written out.old) (K.written out.new) }
{
    match work(alloc, question, name, other, files, input, out) {
        Ok(()) => Status::Done,
        Err(refusal) => report(alloc, name, other, refusal, err).status(),
    }
}

/// Puts the line of the refusal, and answers why the run is refused: as it was, or for want of
/// memory where there is none for the line.
fn report<E: Sink>(
    alloc: Global,
    name: &str,
    other: &str,
    refusal: UnitsRefusal,
    err: &mut E,
) -> UnitsRefusal
    ensures kept { (result ≡ refusal) ⊎ ((result ≡ UnitsRefusal.Memory)
        × (refusal ≢ UnitsRefusal.WriteFault)) }
    ensures told { IsTold (refusal_line name.now other.now result)
        (E.written err.old) (E.written err.new) (E.faults err.old) (E.faults err.new) }
{
    if let UnitsRefusal::WriteFault = refusal {
        put_line(err, b"cannot write\n");
        return refusal;
    }
    match refusal_line(alloc, name, other, refusal) {
        Ok(line) => {
            put_line(err, line.as_slice());
            refusal
        }
        Err(Memory) => {
            put_line(err, b"out of memory\n");
            UnitsRefusal::Memory
        }
    }
}

/// Puts the line. A failure is left to the sink's count of faults.
fn put_line<E: Sink>(err: &mut E, line: &[u8])
    ensures { IsTold line.now
        (E.written err.old) (E.written err.new) (E.faults err.old) (E.faults err.new) }
{
    match err.put(line) {
        Ok(()) | Err(_) => {}
    }
}

/// Puts the usage, and answers the status of faulty words.
fn refuse<E: Sink>(err: &mut E) -> Status
    ensures status { result ≡ Status.Usage }
    ensures told { IsTold units_usage
        (E.written err.old) (E.written err.new) (E.faults err.old) (E.faults err.new) }
{
    put_line(err, USAGE);
    Status::Usage
}
