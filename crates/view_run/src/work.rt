//! The work of a view: what is read, and what is written of it.

ghost use Rattle.std.specs.Prelude.{◌≡◌, ◌≢◌, ◌⊎◌, ◌≤◌, ◌+◌, nat_le, length, List, None, Some, Err, IfOk, IfErr, IfSome, OnOk, OnErr};
ghost use Rattle.std.specs.Io.KnownBytes.{Appends};
ghost use Rattle.slot_core.specs.Calls.Counts.{Rose};
ghost use Rattle.slot_io.specs.Sinks.{AppendsPart};
ghost use Rattle.command_line.specs.declared.refusal.Refusal.TheVariants.{Memory as MemoryRefusal, WriteFault as WriteRefusal};
ghost use Rattle.command_line.specs.declared.refusal.Refusal.{Refusal};
ghost use Rattle.view_tables.specs.Tables.{part_text};
ghost use Rattle.view_waves.specs.WaveTexts.{waves_text};
ghost use Rattle.trace_lines.specs.declared.line.TraceLine.{TraceLine};
ghost use Rattle.trace_lines.specs.Parts.{IsTraceText};
ghost use Rattle.view_run.specs.Inputs.{HasFirst, Holds, IsByteRefusal, IsInputRefusal, IsShown, IsUnread, shown_lines, shown_number};
ghost use Rattle.view_run.specs.Plans.{IsPlanOf, IsPlanRefusal};
ghost use Rattle.view_run.specs.declared.TheConstants.{INPUT_LIMIT};
ghost use Rattle.view_run.specs.Runs.{AreInput, IsRefused, IsTextDue};
ghost use Rattle.view_run.specs.Shown.{IsJobsRefusal, IsJobsText, IsLinesRefusal, IsLinesText, IsPicture, IsPlanText, IsPlanViewRefusal, IsTaskPicture, IsTaskPictureRefusal, Shows, ShowsPart};
ghost use Rattle.view_run.specs.Views.{plan_source};

use crate::names::Names;
use crate::refusals::{of_jobs, of_picture, of_rows, of_table, of_tasks, of_text};
use crate::supply::work_of_stairs;
use crate::views::{LineView, PlanView, Source, View};
use crate::{INPUT_LIMIT, INPUT_NAME};
use command_line::{File, Refusal, Source as PlanSource};
use cycle_plan::Plan;
use run_blocks::{Row, rows_of};
use run_steps::plan_from;
use slot_core::Failed;
use slot_io::{Files, ReadFault, Sink};
use std::alloc::Global;
use svg_text::Document;
use task_rows::task_picture;
use trace_lines::{Part, Slots, TraceLine, read_part, read_trace};
use view_jobs::put_jobs;
use view_picture::picture;
use view_tables::{Table, put_part};
use view_waves::put_waves;

/// Reads the plan of the view, if it has one, then standard input, and writes the view.
pub(crate) fn work<F: Files, I: Files, K: Sink>(
    alloc: Global,
    names: &Names,
    view: View,
    files: &mut F,
    input: &mut I,
    out: &mut K,
) -> Result<(), Refusal>
    ensures shown { OnOk result
        (Shows (IsTextDue view names.now (F.held files.old) (I.held input.old))
        (K.written out.old) (K.written out.new)) }
    ensures part { result ≡ Err WriteRefusal
        → ShowsPart (IsTextDue view names.now (F.held files.old) (I.held input.old))
        (K.written out.old) (K.written out.new) }
    ensures reads_well { OnOk result
        ((F.faults files.new ≡ F.faults files.old) × (I.faults input.new ≡ I.faults input.old)) }
    ensures refused { IfErr result
        (IsRefused view names.now (F.held files.old) (I.held input.old)
        (F.blamed files.new, F.given files.new) (I.blamed input.new, I.given input.new)
        (F.faults files.old, F.faults files.new) (I.faults input.old, I.faults input.new)
        (K.faults out.old, K.faults out.new)) }
    ensures untouched { (e : Refusal) → result ≡ Err e → e ≢ WriteRefusal → out.new ≡ out.old }
{
    match view {
        View::Lines(view, slots) => work_of_lines(alloc, view, slots, input, out),
        View::Planned(view, source) => work_of_plan(alloc, names, view, source, files, input, out),
        View::Stairs => work_of_stairs(alloc, input, out),
    }
}

/// Reads the trace, and writes the view of its lines, or of those of the slots.
fn work_of_lines<I: Files, K: Sink>(
    alloc: Global,
    view: LineView,
    slots: Option<Slots>,
    input: &mut I,
    out: &mut K,
) -> Result<(), Refusal>
    ensures shown { OnOk result
        (Shows (λ text. (lines : List TraceLine) × AreInput (I.held input.old) lines
        × HasFirst slots lines
        × IsLinesText view (shown_number slots lines) (shown_lines slots lines) text)
        (K.written out.old) (K.written out.new)) }
    ensures part { result ≡ Err WriteRefusal
        → ShowsPart (λ text. (lines : List TraceLine) × AreInput (I.held input.old) lines
        × HasFirst slots lines
        × IsLinesText view (shown_number slots lines) (shown_lines slots lines) text)
        (K.written out.old) (K.written out.new) }
    ensures reads_well { OnOk result (I.faults input.new ≡ I.faults input.old) }
    ensures refused { IfErr result (λ e.
        IsInputRefusal slots (I.held input.old) (I.blamed input.new, I.given input.new)
        (I.faults input.old) (I.faults input.new) e
        ⊎ ((lines : List TraceLine) × AreInput (I.held input.old) lines
        × IsLinesRefusal view (shown_lines slots lines) (K.faults out.old) (K.faults out.new) e)) }
    ensures untouched { (e : Refusal) → result ≡ Err e → e ≢ WriteRefusal → out.new ≡ out.old }
{
    let part = read_lines(alloc, slots, input)?;
    show_lines(alloc, view, part.number, &part.lines, out)
}

/// Reads the plan and the trace, and writes the view of its lines beside the plan.
fn work_of_plan<F: Files, I: Files, K: Sink>(
    alloc: Global,
    names: &Names,
    view: PlanView,
    source: Source,
    files: &mut F,
    input: &mut I,
    out: &mut K,
) -> Result<(), Refusal>
    ensures shown { OnOk result
        (Shows (IsTextDue (View.Planned view source) names.now (F.held files.old) (I.held input.old))
        (K.written out.old) (K.written out.new)) }
    ensures part { result ≡ Err WriteRefusal
        → ShowsPart (IsTextDue (View.Planned view source) names.now (F.held files.old) (I.held input.old))
        (K.written out.old) (K.written out.new) }
    ensures reads_well { OnOk result
        ((F.faults files.new ≡ F.faults files.old) × (I.faults input.new ≡ I.faults input.old)) }
    ensures refused { IfErr result
        (IsRefused (View.Planned view source) names.now (F.held files.old) (I.held input.old)
        (F.blamed files.new, F.given files.new) (I.blamed input.new, I.given input.new)
        (F.faults files.old, F.faults files.new) (I.faults input.old, I.faults input.new)
        (K.faults out.old, K.faults out.new)) }
    ensures untouched { (e : Refusal) → result ≡ Err e → e ≢ WriteRefusal → out.new ≡ out.old }
{
    let plan = planned(alloc, names, source, files)?;
    let part = read_lines(alloc, view.slots(), input)?;
    show_planned(alloc, view, &plan, part.number, &part.lines, out)
}

/// The plan of a view beside one.
fn planned<F: Files>(
    alloc: Global,
    names: &Names,
    source: Source,
    files: &mut F,
) -> Result<Plan, Refusal>
    ensures plan { IfOk result (IsPlanOf source names.now (F.held files.old)) }
    ensures refused { IfErr result (IsPlanRefusal source names.now (F.held files.old)
        (F.blamed files.new, F.given files.new) (F.faults files.old) (F.faults files.new)) }
    ensures reads_well { OnOk result (F.faults files.new ≡ F.faults files.old) }
{
    plan_from(alloc, names, files, plan_source(source))
}

/// Where the plan comes from.
fn plan_source(source: Source) -> PlanSource
    ensures { result ≡ plan_source source }
{
    match source {
        Source::Tasks => PlanSource::Tasks,
        Source::Table => PlanSource::Spelled,
    }
}

/// The lines of the trace on standard input, or of those of the slots.
fn read_lines<I: Files>(alloc: Global, slots: Option<Slots>, input: &mut I) -> Result<Part, Refusal>
    ensures shown { IfOk result (λ part. (lines : List TraceLine)
        × AreInput (I.held input.old) lines
        × IsShown slots lines part.lines.items part.number) }
    ensures number { IfOk result (λ part. part.number ≤ INPUT_LIMIT + 1) }
    ensures refused { IfErr result
        (IsInputRefusal slots (I.held input.old) (I.blamed input.new, I.given input.new)
        (I.faults input.old) (I.faults input.new)) }
    ensures reads_well { OnOk result (I.faults input.new ≡ I.faults input.old) }
{
    let bytes = read_input(alloc, input)?;
    lines_of(alloc, slots, &bytes)
}

/// The lines of the trace that the bytes write, or of those of the slots.
fn lines_of(alloc: Global, slots: Option<Slots>, bytes: &[u8]) -> Result<Part, Refusal>
    ensures shown { IfOk result (λ part. (lines : List TraceLine) × IsTraceText bytes.now lines
        × IsShown slots lines part.lines.items part.number) }
    ensures number { IfOk result (λ part. part.number ≤ length bytes.now + 1) }
    ensures refused { IfErr result (λ e. (e ≡ MemoryRefusal)
        ⊎ IsUnread slots (λ IsSo. IsSo bytes.now) e) }
{
    match slots {
        None => all_lines(alloc, bytes),
        Some(slots) => lines_of_part(alloc, slots, bytes),
    }
}

/// The lines of the trace that the bytes write.
fn all_lines(alloc: Global, bytes: &[u8]) -> Result<Part, Refusal>
    ensures shown { IfOk result (λ part. (lines : List TraceLine) × IsTraceText bytes.now lines
        × IsShown None lines part.lines.items part.number) }
    ensures number { IfOk result (λ part. part.number ≤ length bytes.now + 1) }
    ensures refused { IfErr result (λ e. (e ≡ MemoryRefusal)
        ⊎ IsUnread None (λ IsSo. IsSo bytes.now) e) }
{
    match read_trace(alloc, bytes) {
        Ok(lines) => Ok(Part { lines, number: 1 }),
        Err(fault) => Err(of_text(fault)),
    }
}

/// The lines of the part that tells of the slots, of the trace that the bytes write.
fn lines_of_part(alloc: Global, slots: Slots, bytes: &[u8]) -> Result<Part, Refusal>
    ensures shown { IfOk result (λ part. (lines : List TraceLine) × IsTraceText bytes.now lines
        × IsShown (Some slots) lines part.lines.items part.number) }
    ensures number { IfOk result (λ part. part.number ≤ length bytes.now + 1) }
    ensures refused { IfErr result (λ e. (e ≡ MemoryRefusal)
        ⊎ IsUnread (Some slots) (λ IsSo. IsSo bytes.now) e) }
{
    match read_part(alloc, bytes, slots) {
        Ok(part) => Ok(part),
        Err(fault) => Err(of_text(fault)),
    }
}

/// The bytes of standard input, where they are within the limit.
pub(crate) fn read_input<I: Files>(alloc: Global, input: &mut I) -> Result<Vec<u8>, Refusal>
    ensures bytes { IfOk result (λ bytes. IfSome (I.held input.old)
        (λ held. Holds held bytes.items)) }
    ensures short { IfOk result (λ bytes. length bytes.items ≤ INPUT_LIMIT) }
    ensures refused { IfErr result
        (IsByteRefusal (I.held input.old) (I.blamed input.new, I.given input.new)
        (I.faults input.old) (I.faults input.new)) }
    ensures reads_well { OnOk result (I.faults input.new ≡ I.faults input.old) }
{
    match input.read(alloc, INPUT_NAME, INPUT_LIMIT) {
        Ok(bytes) => {
            if is_within_limit(bytes.len()) {
                Ok(bytes)
            } else {
                Err(Refusal::TooLarge(File::Trace))
            }
        }
        Err(ReadFault::Memory) => Err(Refusal::Memory),
        Err(ReadFault::Failed) => Err(Refusal::Unreadable(File::Trace)),
    }
}

/// Whether standard input may have so many bytes.
fn is_within_limit(count: usize) -> bool
    ensures { result ≡ nat_le count INPUT_LIMIT }
{
    count <= INPUT_LIMIT
}

/// Writes the view of the lines, of which the first has this number.
fn show_lines<K: Sink>(
    alloc: Global,
    view: LineView,
    number: u64,
    lines: &[TraceLine],
    out: &mut K,
) -> Result<(), Refusal>
    requires { number ≤ INPUT_LIMIT + 1 }
    ensures shown { OnOk result
        (Shows (IsLinesText view number lines.now) (K.written out.old) (K.written out.new)) }
    ensures part { result ≡ Err WriteRefusal
        → ShowsPart (IsLinesText view number lines.now) (K.written out.old) (K.written out.new) }
    ensures refused { IfErr result
        (IsLinesRefusal view lines.now (K.faults out.old) (K.faults out.new)) }
    ensures untouched { (e : Refusal) → result ≡ Err e → e ≢ WriteRefusal → out.new ≡ out.old }
{
    match view {
        LineView::Picture => show_picture(alloc, lines, out),
        LineView::Events => show_table(alloc, Table::Events, number, lines, out),
        LineView::Spans => show_table(alloc, Table::Spans, number, lines, out),
        LineView::Waves => show_waves(alloc, lines, out),
    }
}

/// Writes the picture of the lines.
fn show_picture<K: Sink>(alloc: Global, lines: &[TraceLine], out: &mut K) -> Result<(), Refusal>
    ensures shown { OnOk result
        (Shows (IsPicture lines.now) (K.written out.old) (K.written out.new)) }
    ensures part { result ≡ Err WriteRefusal
        → ShowsPart (IsPicture lines.now) (K.written out.old) (K.written out.new) }
    ensures refused { IfErr result
        (IsLinesRefusal LineView.Picture lines.now (K.faults out.old) (K.faults out.new)) }
    ensures untouched { (e : Refusal) → result ≡ Err e → e ≢ WriteRefusal → out.new ≡ out.old }
{
    match picture(alloc, lines) {
        Ok(document) => put_document(lines, &document, out),
        Err(fault) => Err(of_picture(fault)),
    }
}

/// Writes the document, a picture of the lines.
fn put_document<K: Sink>(
    lines: &[TraceLine],
    document: &Document,
    out: &mut K,
) -> Result<(), Refusal>
    requires { IsPicture lines.now document.now }
    ensures shown { OnOk result
        (Shows (IsPicture lines.now) (K.written out.old) (K.written out.new)) }
    ensures part { result ≡ Err WriteRefusal
        → ShowsPart (IsPicture lines.now) (K.written out.old) (K.written out.new) }
    ensures refused { (e : Refusal) → result ≡ Err e
        → (e ≡ WriteRefusal) × Rose (K.faults out.old) (K.faults out.new) }
{
    match document.put(out) {
        Ok(()) => Ok(()),
        Err(Failed) => Err(Refusal::WriteFault),
    }
}

/// Writes a table of the lines, of which the first has this number.
fn show_table<K: Sink>(
    alloc: Global,
    table: Table,
    number: u64,
    lines: &[TraceLine],
    out: &mut K,
) -> Result<(), Refusal>
    requires { number ≤ INPUT_LIMIT + 1 }
    ensures shown { OnOk result
        (Appends (K.written out.old) (K.written out.new) (part_text table number lines.now)) }
    ensures part { OnErr result
        (AppendsPart (K.written out.old) (K.written out.new) (part_text table number lines.now)) }
    ensures untouched { (e : Refusal) → result ≡ Err e → e ≢ WriteRefusal → out.new ≡ out.old }
    ensures refused { (e : Refusal) → result ≡ Err e → (e ≡ MemoryRefusal)
        ⊎ ((e ≡ WriteRefusal) × Rose (K.faults out.old) (K.faults out.new)) }
{
    match put_part(alloc, table, number, lines, out) {
        Ok(()) => Ok(()),
        Err(fault) => Err(of_table(fault)),
    }
}

/// Writes the waves of the lines.
fn show_waves<K: Sink>(alloc: Global, lines: &[TraceLine], out: &mut K) -> Result<(), Refusal>
    ensures shown { OnOk result
        (Shows (IsLinesText LineView.Waves 1 lines.now) (K.written out.old) (K.written out.new)) }
    ensures part { result ≡ Err WriteRefusal
        → ShowsPart (IsLinesText LineView.Waves 1 lines.now)
        (K.written out.old) (K.written out.new) }
    ensures untouched { (e : Refusal) → result ≡ Err e → e ≢ WriteRefusal → out.new ≡ out.old }
    ensures refused { IfErr result
        (IsLinesRefusal LineView.Waves lines.now (K.faults out.old) (K.faults out.new)) }
{
    match rows_of(alloc, lines) {
        Ok(rows) => put_rows(&rows, lines, out),
        Err(fault) => Err(of_rows(fault)),
    }
}

/// Writes the waves of these rows.
fn put_rows<K: Sink>(rows: &[Row], lines: &[TraceLine], out: &mut K) -> Result<(), Refusal>
    ensures shown { OnOk result
        (Appends (K.written out.old) (K.written out.new) (waves_text rows.now lines.now)) }
    ensures part { OnErr result
        (AppendsPart (K.written out.old) (K.written out.new) (waves_text rows.now lines.now)) }
    ensures refused { (e : Refusal) → result ≡ Err e
        → (e ≡ WriteRefusal) × Rose (K.faults out.old) (K.faults out.new) }
{
    match put_waves(rows, lines, out) {
        Ok(()) => Ok(()),
        Err(Failed) => Err(Refusal::WriteFault),
    }
}

/// Writes the view of the lines beside the plan. The first of them has this number.
fn show_planned<K: Sink>(
    alloc: Global,
    view: PlanView,
    plan: &Plan,
    number: u64,
    lines: &[TraceLine],
    out: &mut K,
) -> Result<(), Refusal>
    requires { number ≤ INPUT_LIMIT + 1 }
    ensures shown { OnOk result
        (Shows (IsPlanText view plan.now lines.now) (K.written out.old) (K.written out.new)) }
    ensures part { result ≡ Err WriteRefusal
        → ShowsPart (IsPlanText view plan.now lines.now) (K.written out.old) (K.written out.new) }
    ensures refused { IfErr result
        (IsPlanViewRefusal view plan.now number lines.now (K.faults out.old) (K.faults out.new)) }
    ensures untouched { (e : Refusal) → result ≡ Err e → e ≢ WriteRefusal → out.new ≡ out.old }
{
    match view {
        PlanView::Jobs => show_jobs(alloc, plan, lines, out),
        PlanView::Tasks(_) => show_tasks(alloc, plan, number, lines, out),
    }
}

/// Writes the picture of the lines over the tasks of the plan. The first of them has this number.
fn show_tasks<K: Sink>(
    alloc: Global,
    plan: &Plan,
    number: u64,
    lines: &[TraceLine],
    out: &mut K,
) -> Result<(), Refusal>
    requires { number ≤ INPUT_LIMIT + 1 }
    ensures shown { OnOk result
        (Shows (IsTaskPicture plan.now lines.now) (K.written out.old) (K.written out.new)) }
    ensures part { result ≡ Err WriteRefusal
        → ShowsPart (IsTaskPicture plan.now lines.now) (K.written out.old) (K.written out.new) }
    ensures refused { IfErr result (IsTaskPictureRefusal plan.now number lines.now
        (K.faults out.old) (K.faults out.new)) }
    ensures untouched { (e : Refusal) → result ≡ Err e → e ≢ WriteRefusal → out.new ≡ out.old }
{
    match task_picture(alloc, plan.tasks(), number, lines) {
        Ok(document) => put_task_picture(plan, lines, &document, out),
        Err(fault) => Err(of_tasks(fault)),
    }
}

/// Writes the document, a picture of the lines over the tasks of the plan.
fn put_task_picture<K: Sink>(
    plan: &Plan,
    lines: &[TraceLine],
    document: &Document,
    out: &mut K,
) -> Result<(), Refusal>
    requires { IsTaskPicture plan.now lines.now document.now }
    ensures shown { OnOk result
        (Shows (IsTaskPicture plan.now lines.now) (K.written out.old) (K.written out.new)) }
    ensures part { result ≡ Err WriteRefusal
        → ShowsPart (IsTaskPicture plan.now lines.now) (K.written out.old) (K.written out.new) }
    ensures refused { (e : Refusal) → result ≡ Err e
        → (e ≡ WriteRefusal) × Rose (K.faults out.old) (K.faults out.new) }
{
    match document.put(out) {
        Ok(()) => Ok(()),
        Err(Failed) => Err(Refusal::WriteFault),
    }
}

/// Writes the table of the jobs of the lines.
fn show_jobs<K: Sink>(
    alloc: Global,
    plan: &Plan,
    lines: &[TraceLine],
    out: &mut K,
) -> Result<(), Refusal>
    ensures shown { OnOk result
        (Shows (IsJobsText plan.now lines.now) (K.written out.old) (K.written out.new)) }
    ensures part { result ≡ Err WriteRefusal
        → ShowsPart (IsJobsText plan.now lines.now) (K.written out.old) (K.written out.new) }
    ensures refused { IfErr result
        (IsJobsRefusal plan.now lines.now (K.faults out.old) (K.faults out.new)) }
    ensures untouched { (e : Refusal) → result ≡ Err e → e ≢ WriteRefusal → out.new ≡ out.old }
{
    match put_jobs(alloc, plan, lines, out) {
        Ok(()) => Ok(()),
        Err(fault) => Err(of_jobs(fault)),
    }
}
