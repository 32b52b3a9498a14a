//! The work of a question: what is read, and what is written of it.

ghost use Rattle.std.specs.Prelude.{◌≡◌, ◌≢◌, ℕ, List, Ok, Err, IfErr, IfSome, OnErr, OnOk};
ghost use Rattle.std.specs.Io.KnownBytes.{Appends};
ghost use Rattle.slot_core.specs.Calls.Counts.{Rose};
ghost use Rattle.slot_io.specs.Sinks.{AppendsPart};
ghost use Rattle.command_line.specs.declared.refusal.Refusal.{Refusal};
ghost use Rattle.command_line.specs.declared.refusal.Refusal.TheVariants.{WriteFault as WriteRefusal};
ghost use Rattle.command_line.specs.declared.file.File.{File};
ghost use Rattle.command_line.specs.Refusals.{same_file};
ghost use Rattle.run_steps.specs.Steps.{IsReading};
ghost use Rattle.plan_run.specs.Answers.{answer_from};
ghost use Rattle.plan_run.specs.Causes.{IsCause};

use crate::questions::Question;
use command_line::{Refusal, Source};
use plan_answers::{header_text, load_text, who_text};
use run_steps::{plan_from, tasks_from};
use slot_core::Words;
use slot_io::{Files, Sink};
use std::alloc::Global;
use supply_lines::{supply_text, within_text};

/// Reads the task file, and writes the answer in one put.
pub(crate) fn work<F: Files, K: Sink>(
    alloc: Global,
    words: &Words,
    question: Question,
    files: &mut F,
    out: &mut K,
) -> Result<(), Refusal>
    ensures done { OnOk result (IfSome (F.held files.old) (λ held. (text : List ℕ)
        × (answer_from held words.now question ≡ Ok text)
        × Appends (K.written out.old) (K.written out.new) text)) }
    ensures part { result ≡ Err WriteRefusal → IfSome (F.held files.old) (λ held. (text : List ℕ)
        × (answer_from held words.now question ≡ Ok text)
        × AppendsPart (K.written out.old) (K.written out.new) text) }
    ensures reads_well { OnOk result (F.faults files.new ≡ F.faults files.old) }
    ensures refused { IfErr result (IsCause words.now
        (λ held. answer_from held words.now question) (F.held files.old) (F.blamed files.new)
        (F.faults files.old, F.faults files.new) (K.faults out.old, K.faults out.new)) }
    ensures untouched { (e : Refusal) → result ≡ Err e → e ≢ WriteRefusal → out.new ≡ out.old }
{
    let text = answer(alloc, words, question, files)?;
    put_text(&text, out)
}

/// Writes the text, in one put.
fn put_text<K: Sink>(text: &[u8], out: &mut K) -> Result<(), Refusal>
    ensures done { OnOk result (Appends (K.written out.old) (K.written out.new) text.now) }
    ensures part { OnErr result (AppendsPart (K.written out.old) (K.written out.new) text.now) }
    ensures refused { IfErr result (λ e.
        (e ≡ WriteRefusal) × Rose (K.faults out.old) (K.faults out.new)) }
{
    out.put(text)?;
    Ok(())
}

/// The text of the answer.
fn answer<F: Files>(
    alloc: Global,
    words: &Words,
    question: Question,
    files: &mut F,
) -> Result<Vec<u8>, Refusal>
    ensures { IsReading F.held F.faults F.blamed F.given files.old files.new words.now
        (same_file File.Tasks) (λ held. answer_from held words.now question) result
        (λ text. text.items) }
{
    match question {
        Question::Load => load(alloc, words, files),
        Question::Who => who(alloc, words, files),
        Question::Header => header(alloc, words, files),
        Question::Supply => supply(alloc, words, files),
        Question::SupplyWithin(within) => supply_within(alloc, words, within, files),
    }
}

/// The load of the set of the task file.
fn load<F: Files>(alloc: Global, words: &Words, files: &mut F) -> Result<Vec<u8>, Refusal>
    ensures { IsReading F.held F.faults F.blamed F.given files.old files.new words.now
        (same_file File.Tasks) (λ held. answer_from held words.now Question.Load) result
        (λ text. text.items) }
{
    let tasks = tasks_from(alloc, words, files)?;
    let text = load_text(alloc, &tasks)?;
    Ok(text)
}

/// Who is in the window that fails of the set of the task file.
fn who<F: Files>(alloc: Global, words: &Words, files: &mut F) -> Result<Vec<u8>, Refusal>
    ensures { IsReading F.held F.faults F.blamed F.given files.old files.new words.now
        (same_file File.Tasks) (λ held. answer_from held words.now Question.Who) result
        (λ text. text.items) }
{
    let tasks = tasks_from(alloc, words, files)?;
    let text = who_text(alloc, &tasks)?;
    Ok(text)
}

/// The header of the plan of the task file.
fn header<F: Files>(alloc: Global, words: &Words, files: &mut F) -> Result<Vec<u8>, Refusal>
    ensures { IsReading F.held F.faults F.blamed F.given files.old files.new words.now
        (same_file File.Tasks) (λ held. answer_from held words.now Question.Header) result
        (λ text. text.items) }
{
    let plan = plan_from(alloc, words, files, Source::Tasks)?;
    let text = header_text(alloc, &plan)?;
    Ok(text)
}

/// The lines of the supply of the plan of the task file.
fn supply<F: Files>(alloc: Global, words: &Words, files: &mut F) -> Result<Vec<u8>, Refusal>
    ensures { IsReading F.held F.faults F.blamed F.given files.old files.new words.now
        (same_file File.Tasks) (λ held. answer_from held words.now Question.Supply) result
        (λ text. text.items) }
{
    let plan = plan_from(alloc, words, files, Source::Tasks)?;
    let text = supply_text(alloc, &plan)?;
    Ok(text)
}

/// The line of the supply within so many slots.
fn supply_within<F: Files>(
    alloc: Global,
    words: &Words,
    within: u32,
    files: &mut F,
) -> Result<Vec<u8>, Refusal>
    ensures { IsReading F.held F.faults F.blamed F.given files.old files.new words.now
        (same_file File.Tasks) (λ held. answer_from held words.now (Question.SupplyWithin within))
        result (λ text. text.items) }
{
    let plan = plan_from(alloc, words, files, Source::Tasks)?;
    let text = within_text(alloc, &plan, within)?;
    Ok(text)
}
