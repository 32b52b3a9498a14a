//! The questions of slotplan, over any files and sinks: what a designer asks of a task file before
//! run time.
#![tactic(auto)]

ghost use Rattle.std.specs.Prelude.{◌≡◌, ◌≢◌, ◌↔◌, ◌++◌, ◌∷◌, ℕ, List, [], None, Some, Ok, codes, IfSome};
ghost use Rattle.std.specs.Io.KnownBytes.{Appends};
ghost use Rattle.slot_io.specs.Sinks.{AppendsPart};
ghost use Rattle.command_line.specs.Pages.{page_of, page_text, IsPageTold};
ghost use Rattle.command_line.specs.declared.pages.Page.{Page};
ghost use Rattle.command_line.specs.declared.refusal.Refusal.{Refusal};
ghost use Rattle.command_line.specs.Refusals.{refusal_line, refusal_status};
ghost use Rattle.command_line.specs.Reports.{IsTold};
ghost use Rattle.plan_run.specs.Answers.{answer_due, answer_from};
ghost use Rattle.plan_run.specs.Causes.{IsCause};
ghost use Rattle.plan_run.specs.Pages.{plan_help, plan_usage};
ghost use Rattle.plan_run.specs.Questions.{question_of};
ghost use Rattle.plan_run.specs.Supplies.{SupplyIsTold, SupplyIsToldWithin};

pub mod host;
mod pages;
pub mod questions;
mod work;

use command_line::{Status, page_of, report};
pub use host::run_on_host;
use pages::tell_plan_page;
pub use questions::{Question, question_of};
use slot_core::Words;
use slot_io::{Files, Sink};
use std::alloc::Global;
use supply_lines::laws::{line_tells_within, lines_tell_supply};
use work::work;

/// The usage line.
pub const USAGE: &[u8] = b"usage: slotplan load T | who T | header T | supply T | supply T D\n";

/// Does what the words ask for: tells the help or the version; or reads the task file from `files`,
/// and writes the answer to `out` in one put. It puts one line on `err` where it ends otherwise
/// than Done. All memory is taken before the put on `out`.
pub fn run<F: Files, K: Sink, E: Sink>(
    alloc: Global,
    words: &Words,
    files: &mut F,
    out: &mut K,
    err: &mut E,
) -> Status
    ensures usage { (result ≡ Status.Usage)
        ↔ ((page_of words.now ≡ None) × (question_of words.now ≡ None)) }
    ensures usage_touches_nothing { result ≡ Status.Usage
        → (files.new ≡ files.old) × (out.new ≡ out.old) }
    ensures usage_line { result ≡ Status.Usage → IsTold (plan_usage ++ 10 ∷ [])
        (E.written err.old) (E.written err.new) (E.faults err.old) (E.faults err.new) }

    // The words --help and --version are answered by these texts, and nothing is read.
    ensures page { (page : Page) → page_of words.now ≡ Some page
        → IsPageTold (page_text (codes "slotplan") plan_help page)
        (K.written out.old) (K.written out.new) (K.faults out.old) (K.faults out.new)
        (E.written err.old) (E.written err.new) (E.faults err.old) (E.faults err.new) result }
    ensures page_reads_nothing { (page : Page) → page_of words.now ≡ Some page
        → files.new ≡ files.old }

    // For other words, where it is done, the answer is written that the bytes of the task file call
    // for.
    ensures done { page_of words.now ≡ None → result ≡ Status.Done
        → IfSome (F.held files.old) (λ held. (text : List ℕ) × (answer_due held words.now ≡ Ok text)
        × Appends (K.written out.old) (K.written out.new) text) }
    ensures done_says_nothing { result ≡ Status.Done → err.new ≡ err.old }
    ensures done_reads_well { result ≡ Status.Done → F.faults files.new ≡ F.faults files.old }

    // Where they are refused, the refusal has its cause, and its line is told.
    ensures refused { page_of words.now ≡ None → result ≢ Status.Done → result ≢ Status.Usage
        → (e : Refusal) × (result ≡ refusal_status e)
        × IsCause words.now (λ held. answer_due held words.now) (F.held files.old)
        (F.blamed files.new) (F.faults files.old, F.faults files.new)
        (K.faults out.old, K.faults out.new) e
        × IsTold (refusal_line words.now e)
        (E.written err.old) (E.written err.new) (E.faults err.old) (E.faults err.new) }
    ensures refusal_writes_nothing { result ≢ Status.Done → result ≢ Status.WriteFault
        → out.new ≡ out.old }

    // Where the write fails, a part of the answer is on the output, from its front.
    ensures part { page_of words.now ≡ None → result ≡ Status.WriteFault
        → IfSome (F.held files.old) (λ held. (text : List ℕ) × (answer_due held words.now ≡ Ok text)
        × AppendsPart (K.written out.old) (K.written out.new) text) }

    // What is written of the supply tells which requests are always accepted.
    ensures supply { page_of words.now ≡ None → result ≡ Status.Done
        → question_of words.now ≡ Some Question.Supply
        → IfSome (F.held files.old) (λ held. (text : List ℕ) × SupplyIsTold held words.now text
        × Appends (K.written out.old) (K.written out.new) text) }
    ensures supply_within { (within : ℕ) → page_of words.now ≡ None → result ≡ Status.Done
        → question_of words.now ≡ Some (Question.SupplyWithin within)
        → IfSome (F.held files.old) (λ held. (text : List ℕ)
        × SupplyIsToldWithin held words.now within text
        × Appends (K.written out.old) (K.written out.new) text) }
{
    lines_tell_supply();
    line_tells_within();
    match page_of(words) {
        Some(page) => tell_plan_page(page, out, err),
        None => answer_words(alloc, words, files, out, err),
    }
}

/// Answers the question that the words ask.
fn answer_words<F: Files, K: Sink, E: Sink>(
    alloc: Global,
    words: &Words,
    files: &mut F,
    out: &mut K,
    err: &mut E,
) -> Status
    ensures usage { (result ≡ Status.Usage) ↔ (question_of words.now ≡ None) }
    ensures usage_touches_nothing { result ≡ Status.Usage
        → (files.new ≡ files.old) × (out.new ≡ out.old) }
    ensures usage_line { result ≡ Status.Usage → IsTold (plan_usage ++ 10 ∷ [])
        (E.written err.old) (E.written err.new) (E.faults err.old) (E.faults err.new) }
    ensures done { result ≡ Status.Done
        → IfSome (F.held files.old) (λ held. (text : List ℕ) × (answer_due held words.now ≡ Ok text)
        × Appends (K.written out.old) (K.written out.new) text) }
    ensures done_says_nothing { result ≡ Status.Done → err.new ≡ err.old }
    ensures done_reads_well { result ≡ Status.Done → F.faults files.new ≡ F.faults files.old }
    ensures refused { result ≢ Status.Done → result ≢ Status.Usage
        → (e : Refusal) × (result ≡ refusal_status e)
        × IsCause words.now (λ held. answer_due held words.now) (F.held files.old)
        (F.blamed files.new) (F.faults files.old, F.faults files.new)
        (K.faults out.old, K.faults out.new) e
        × IsTold (refusal_line words.now e)
        (E.written err.old) (E.written err.new) (E.faults err.old) (E.faults err.new) }
    ensures refusal_writes_nothing { result ≢ Status.Done → result ≢ Status.WriteFault
        → out.new ≡ out.old }
    ensures part { result ≡ Status.WriteFault
        → IfSome (F.held files.old) (λ held. (text : List ℕ) × (answer_due held words.now ≡ Ok text)
        × AppendsPart (K.written out.old) (K.written out.new) text) }
{
    match question_of(words) {
        Some(question) => answer(alloc, words, question, files, out, err),
        None => refuse(err),
    }
}

/// Answers the question.
fn answer<F: Files, K: Sink, E: Sink>(
    alloc: Global,
    words: &Words,
    question: Question,
    files: &mut F,
    out: &mut K,
    err: &mut E,
) -> Status
    ensures answers { result ≢ Status.Usage }
    ensures done { result ≡ Status.Done
        → IfSome (F.held files.old) (λ held. (text : List ℕ)
        × (answer_from held words.now question ≡ Ok text)
        × Appends (K.written out.old) (K.written out.new) text) }
    ensures done_says_nothing { result ≡ Status.Done → err.new ≡ err.old }
    ensures done_reads_well { result ≡ Status.Done → F.faults files.new ≡ F.faults files.old }
    ensures refused { result ≢ Status.Done → (e : Refusal) × (result ≡ refusal_status e)
        × IsCause words.now (λ held. answer_from held words.now question) (F.held files.old)
        (F.blamed files.new) (F.faults files.old, F.faults files.new)
        (K.faults out.old, K.faults out.new) e
        × IsTold (refusal_line words.now e)
        (E.written err.old) (E.written err.new) (E.faults err.old) (E.faults err.new) }
    ensures refusal_writes_nothing { result ≢ Status.Done → result ≢ Status.WriteFault
        → out.new ≡ out.old }
    ensures part { result ≡ Status.WriteFault
        → IfSome (F.held files.old) (λ held. (text : List ℕ)
        × (answer_from held words.now question ≡ Ok text)
        × AppendsPart (K.written out.old) (K.written out.new) text) }
{
    match work(alloc, words, question, files, out) {
        Ok(()) => Status::Done,
        Err(refusal) => report(alloc, words, refusal, err).status(),
    }
}

/// Puts the usage, and answers the status of faulty words.
fn refuse<E: Sink>(err: &mut E) -> Status
    ensures status { result ≡ Status.Usage }
    ensures told { IsTold (plan_usage ++ 10 ∷ [])
        (E.written err.old) (E.written err.new) (E.faults err.old) (E.faults err.new) }
{
    match err.put(USAGE) {
        Ok(()) | Err(_) => Status::Usage,
    }
}
