//! The views of slotview, over any files and sinks: a trace on standard input as a picture, as
//! tables or as waves, or a supply as a staircase.
#![tactic(auto)]

ghost use Rattle.std.specs.Prelude.{◌≡◌, ◌≢◌, ◌↔◌, ◌++◌, ◌∷◌, [], None, Some, codes};
ghost use Rattle.command_line.specs.Pages.{page_of, page_text, IsPageTold};
ghost use Rattle.command_line.specs.declared.pages.Page.{Page};
ghost use Rattle.command_line.specs.declared.refusal.Refusal.{Refusal};
ghost use Rattle.command_line.specs.Refusals.{refusal_line, refusal_status};
ghost use Rattle.command_line.specs.Reports.{IsTold};
ghost use Rattle.view_run.specs.declared.views.View.{View};
ghost use Rattle.view_run.specs.Names.{names_of};
ghost use Rattle.view_run.specs.Pages.{view_help};
ghost use Rattle.view_run.specs.Refusals.{view_usage};
ghost use Rattle.view_run.specs.Runs.{IsRefused, IsTextDue};
ghost use Rattle.view_run.specs.Shown.{Shows, ShowsPart};
ghost use Rattle.view_run.specs.Views.{view_of};

pub mod host;
pub mod input;
mod names;
mod pages;
mod refusals;
mod supply;
pub mod views;
mod work;

use command_line::{OUT_OF_MEMORY, Status, page_of, report};
pub use host::run_on_host;
pub use input::HostInput;
use names::{Names, names_of};
use pages::tell_view_page;
use slot_core::{Memory, Words};
use slot_io::{Files, Sink};
use std::alloc::Global;
pub use views::{LineView, PlanView, Source, View, view_of};
use work::work;

/// The name by which standard input is told.
pub const INPUT_NAME: &str = "standard input";

/// Most bytes of a trace, or of a supply, on standard input.
pub const INPUT_LIMIT: usize = slot_core::READ_LIMIT;

/// The usage line.
pub const USAGE: &[u8] =
    b"usage: slotview picture [T | --table B] [FROM UNTIL] | jobs T | jobs --table B, \
      slotview events [FROM UNTIL] | spans [FROM UNTIL] | waves [FROM UNTIL] | stairs\n";

/// Does what the words ask for: tells the help or the version; or reads the plan that the view
/// wants from `files`, then the trace or supply from `input`, and writes the view of it to
/// `out`. It puts one line on `err` where it ends otherwise than Done. All memory is taken before
/// the first put on `out`.
pub fn run<F: Files, I: Files, K: Sink, E: Sink>(
    alloc: Global,
    words: &Words,
    files: &mut F,
    input: &mut I,
    out: &mut K,
    err: &mut E,
) -> Status
    ensures usage { (result ≡ Status.Usage)
        ↔ ((page_of words.now ≡ None) × (view_of words.now ≡ None)) }
    ensures usage_touches_nothing { result ≡ Status.Usage
        → (files.new ≡ files.old) × (input.new ≡ input.old) × (out.new ≡ out.old) }
    ensures usage_line { result ≡ Status.Usage → IsTold (view_usage ++ 10 ∷ [])
        (E.written err.old) (E.written err.new) (E.faults err.old) (E.faults err.new) }

    // The words --help and --version are answered by these texts, and nothing is read.
    ensures page { (page : Page) → page_of words.now ≡ Some page
        → IsPageTold (page_text (codes "slotview") view_help page)
        (K.written out.old) (K.written out.new) (K.faults out.old) (K.faults out.new)
        (E.written err.old) (E.written err.new) (E.faults err.old) (E.faults err.new) result }
    ensures page_reads_nothing { (page : Page) → page_of words.now ≡ Some page
        → (files.new ≡ files.old) × (input.new ≡ input.old) }

    // For other words, where it is done, standard input is a trace, and the view of its lines is
    // written: of jobs, their table over the plan that its file calls for, and of tasks, the picture
    // over those of that plan. Of a staircase it is the text of a supply, and the picture of its
    // lines is written.
    ensures done { page_of words.now ≡ None → result ≡ Status.Done
        → (view : View) × (view_of words.now ≡ Some view)
        × Shows (IsTextDue view (names_of words.now view) (F.held files.old) (I.held input.old))
        (K.written out.old) (K.written out.new) }
    ensures done_says_nothing { result ≡ Status.Done → err.new ≡ err.old }
    ensures done_reads_well { result ≡ Status.Done
        → (F.faults files.new ≡ F.faults files.old) × (I.faults input.new ≡ I.faults input.old) }

    // Where they are refused, the refusal has its cause, and its line is told.
    ensures refused { page_of words.now ≡ None → result ≢ Status.Done → result ≢ Status.Usage
        → (view : View) × (view_of words.now ≡ Some view)
        × ((e : Refusal) × (result ≡ refusal_status e)
        × IsRefused view (names_of words.now view) (F.held files.old) (I.held input.old)
        (F.blamed files.new, F.given files.new) (I.blamed input.new, I.given input.new)
        (F.faults files.old, F.faults files.new) (I.faults input.old, I.faults input.new)
        (K.faults out.old, K.faults out.new) e
        × IsTold (refusal_line (names_of words.now view) e)
        (E.written err.old) (E.written err.new) (E.faults err.old) (E.faults err.new)) }
    ensures refusal_writes_nothing { result ≢ Status.Done → result ≢ Status.WriteFault
        → out.new ≡ out.old }

    // Where a write of a view fails, a part of it is on the output, from its front.
    ensures part { page_of words.now ≡ None → result ≡ Status.WriteFault
        → (view : View) × (view_of words.now ≡ Some view)
        × ShowsPart (IsTextDue view (names_of words.now view) (F.held files.old) (I.held input.old))
        (K.written out.old) (K.written out.new) }
{
    match page_of(words) {
        Some(page) => tell_view_page(page, out, err),
        None => run_view_of(alloc, words, files, input, out, err),
    }
}

/// Shows the view that the words ask for.
fn run_view_of<F: Files, I: Files, K: Sink, E: Sink>(
    alloc: Global,
    words: &Words,
    files: &mut F,
    input: &mut I,
    out: &mut K,
    err: &mut E,
) -> Status
    ensures usage { (result ≡ Status.Usage) ↔ (view_of words.now ≡ None) }
    ensures usage_touches_nothing { result ≡ Status.Usage
        → (files.new ≡ files.old) × (input.new ≡ input.old) × (out.new ≡ out.old) }
    ensures usage_line { result ≡ Status.Usage → IsTold (view_usage ++ 10 ∷ [])
        (E.written err.old) (E.written err.new) (E.faults err.old) (E.faults err.new) }
    ensures done { result ≡ Status.Done → (view : View) × (view_of words.now ≡ Some view)
        × Shows (IsTextDue view (names_of words.now view) (F.held files.old) (I.held input.old))
        (K.written out.old) (K.written out.new) }
    ensures done_says_nothing { result ≡ Status.Done → err.new ≡ err.old }
    ensures done_reads_well { result ≡ Status.Done
        → (F.faults files.new ≡ F.faults files.old) × (I.faults input.new ≡ I.faults input.old) }
    ensures refused { result ≢ Status.Done → result ≢ Status.Usage
        → (view : View) × (view_of words.now ≡ Some view)
        × ((e : Refusal) × (result ≡ refusal_status e)
        × IsRefused view (names_of words.now view) (F.held files.old) (I.held input.old)
        (F.blamed files.new, F.given files.new) (I.blamed input.new, I.given input.new)
        (F.faults files.old, F.faults files.new) (I.faults input.old, I.faults input.new)
        (K.faults out.old, K.faults out.new) e
        × IsTold (refusal_line (names_of words.now view) e)
        (E.written err.old) (E.written err.new) (E.faults err.old) (E.faults err.new)) }
    ensures refusal_writes_nothing { result ≢ Status.Done → result ≢ Status.WriteFault
        → out.new ≡ out.old }
    ensures part { result ≡ Status.WriteFault
        → (view : View) × (view_of words.now ≡ Some view)
        × ShowsPart (IsTextDue view (names_of words.now view) (F.held files.old) (I.held input.old))
        (K.written out.old) (K.written out.new) }
{
    match view_of(words) {
        Some(view) => run_view(alloc, words, view, files, input, out, err),
        None => refuse(err, USAGE, Status::Usage),
    }
}

/// Shows the view.
fn run_view<F: Files, I: Files, K: Sink, E: Sink>(
    alloc: Global,
    words: &Words,
    view: View,
    files: &mut F,
    input: &mut I,
    out: &mut K,
    err: &mut E,
) -> Status
    ensures shows { result ≢ Status.Usage }
    ensures done { result ≡ Status.Done
        → Shows (IsTextDue view (names_of words.now view) (F.held files.old) (I.held input.old))
        (K.written out.old) (K.written out.new) }
    ensures done_says_nothing { result ≡ Status.Done → err.new ≡ err.old }
    ensures done_reads_well { result ≡ Status.Done
        → (F.faults files.new ≡ F.faults files.old) × (I.faults input.new ≡ I.faults input.old) }
    ensures refused { result ≢ Status.Done → (e : Refusal) × (result ≡ refusal_status e)
        × IsRefused view (names_of words.now view) (F.held files.old) (I.held input.old)
        (F.blamed files.new, F.given files.new) (I.blamed input.new, I.given input.new)
        (F.faults files.old, F.faults files.new) (I.faults input.old, I.faults input.new)
        (K.faults out.old, K.faults out.new) e
        × IsTold (refusal_line (names_of words.now view) e)
        (E.written err.old) (E.written err.new) (E.faults err.old) (E.faults err.new) }
    ensures refusal_writes_nothing { result ≢ Status.Done → result ≢ Status.WriteFault
        → out.new ≡ out.old }
    ensures part { result ≡ Status.WriteFault
        → ShowsPart (IsTextDue view (names_of words.now view) (F.held files.old) (I.held input.old))
        (K.written out.old) (K.written out.new) }
{
    match names_of(alloc, words, view) {
        Ok(names) => run_named(alloc, &names, view, files, input, out, err),
        Err(Memory) => refuse(err, OUT_OF_MEMORY, Status::Memory),
    }
}

/// Shows the view, of files of these names.
fn run_named<F: Files, I: Files, K: Sink, E: Sink>(
    alloc: Global,
    names: &Names,
    view: View,
    files: &mut F,
    input: &mut I,
    out: &mut K,
    err: &mut E,
) -> Status
    ensures shows { result ≢ Status.Usage }
    ensures done { result ≡ Status.Done
        → Shows (IsTextDue view names.now (F.held files.old) (I.held input.old))
        (K.written out.old) (K.written out.new) }
    ensures done_says_nothing { result ≡ Status.Done → err.new ≡ err.old }
    ensures done_reads_well { result ≡ Status.Done
        → (F.faults files.new ≡ F.faults files.old) × (I.faults input.new ≡ I.faults input.old) }
    ensures refused { result ≢ Status.Done → (e : Refusal) × (result ≡ refusal_status e)
        × IsRefused view names.now (F.held files.old) (I.held input.old)
        (F.blamed files.new, F.given files.new) (I.blamed input.new, I.given input.new)
        (F.faults files.old, F.faults files.new) (I.faults input.old, I.faults input.new)
        (K.faults out.old, K.faults out.new) e
        × IsTold (refusal_line names.now e)
        (E.written err.old) (E.written err.new) (E.faults err.old) (E.faults err.new) }
    ensures refusal_writes_nothing { result ≢ Status.Done → result ≢ Status.WriteFault
        → out.new ≡ out.old }
    ensures part { result ≡ Status.WriteFault
        → ShowsPart (IsTextDue view names.now (F.held files.old) (I.held input.old))
        (K.written out.old) (K.written out.new) }
{
    match work(alloc, names, view, files, input, out) {
        Ok(()) => Status::Done,
        Err(refusal) => report(alloc, names, refusal, err).status(),
    }
}

/// Puts the line, and answers the status.
fn refuse<E: Sink>(err: &mut E, line: &[u8], status: Status) -> Status
    ensures status { result ≡ status }
    ensures told { IsTold line.now
        (E.written err.old) (E.written err.new) (E.faults err.old) (E.faults err.new) }
{
    match err.put(line) {
        Ok(()) | Err(_) => status,
    }
}
