//! The picture of a trace over the tasks of a set.

ghost use Rattle.std.specs.Prelude.{◌≡◌, ◌≢◌, ◌≤◌, ◌<◌, ◌+◌, ◌^◌, ℕ, true, None, Some, Err, IfOk, IsOk};
ghost use Rattle.slot_core.specs.Sets.Ranges.{is_sound};
ghost use Rattle.run_blocks.specs.Rows.{AreCrowded};
ghost use Rattle.svg_text.specs.Content.{IsDocument};
ghost use Rattle.trace_lines.specs.Traces.{slots_of};
ghost use Rattle.view_picture.specs.declared.TheConstants.{PICTURE_LIMIT};
ghost use Rattle.task_rows.specs.declared.faults.TaskPictureFault.TheVariants.{NoLine, TooLong, TooManyRows};
ghost use Rattle.task_rows.specs.Pictures.{ShowsTasks};
ghost use Rattle.task_rows.specs.Rows.{AreTaskRows, first_of_no_task, rows_of_tasks};

use crate::faults::TaskPictureFault;
use crate::marks::marks_of;
use crate::rows::{first_of_no_task, push_arrivals, rows_of_tasks};
use run_blocks::{Row, RowsFault};
use slot_core::TaskSet;
use std::alloc::Global;
use svg_text::Document;
use trace_lines::TraceLine;
use view_picture::{PictureFault, picture_over};

/// The picture of the lines of a trace or of a part of one, which have at most `PICTURE_LIMIT`
/// slots, over the tasks of a sound set: a row for each task in the order of the set, then those of
/// firm jobs and of soft work as `picture` has them, with a block for each run of slots of one job,
/// and a mark at the release and at the deadline of each job of a task. The first line has this
/// number.
pub fn task_picture(
    alloc: Global,
    tasks: &TaskSet,
    number: u64,
    lines: &[TraceLine],
) -> Result<Document, TaskPictureFault>
    requires sound { is_sound tasks.now ≡ true }
    requires number { number ≤ 2 ^ 32 }
    ensures formed { IfOk result (λ document. IsDocument document) }
    ensures shows { IfOk result (λ document. ShowsTasks tasks.now lines.now document) }
    ensures short { IsOk result → slots_of lines.now ≤ PICTURE_LIMIT }
    ensures cause { result ≡ Err TooLong → PICTURE_LIMIT < slots_of lines.now }
    ensures too_many { result ≡ Err TooManyRows → AreCrowded lines.now }
    ensures no_task { (n : ℕ) → result ≡ Err (NoLine n) → (place : ℕ) × (n ≡ number + place)
        × (first_of_no_task (rows_of_tasks tasks.now) lines.now ≡ Some place) }
{
    let mut rows = rows_of_tasks(alloc, tasks)?;
    if let Some(place) = first_of_no_task(&rows, lines) {
        return Err(TaskPictureFault::NoLine(number + place as u64));
    }
    match push_arrivals(&mut rows, alloc, lines) {
        Ok(()) => drawn_over(alloc, tasks, &rows, lines),
        Err(RowsFault::Memory) => Err(TaskPictureFault::Memory),
        Err(RowsFault::TooMany) => Err(TaskPictureFault::TooManyRows),
    }
}

/// The picture over these rows.
fn drawn_over(
    alloc: Global,
    tasks: &TaskSet,
    rows: &[Row],
    lines: &[TraceLine],
) -> Result<Document, TaskPictureFault>
    requires sound { is_sound tasks.now ≡ true }
    requires rows { AreTaskRows (rows_of_tasks tasks.now) lines.now rows.now }
    requires known { first_of_no_task (rows_of_tasks tasks.now) lines.now ≡ None }
    ensures formed { IfOk result (λ document. IsDocument document) }
    ensures shows { IfOk result (λ document. ShowsTasks tasks.now lines.now document) }
    ensures short { IsOk result → slots_of lines.now ≤ PICTURE_LIMIT }
    ensures cause { result ≡ Err TooLong → PICTURE_LIMIT < slots_of lines.now }
    ensures rows { result ≢ Err TooManyRows }
    ensures known { (n : ℕ) → result ≢ Err (NoLine n) }
{
    let marks = marks_of(alloc, tasks, rows, lines)?;
    match picture_over(alloc, lines, rows, &marks) {
        Ok(document) => Ok(document),
        Err(PictureFault::Memory) => Err(TaskPictureFault::Memory),
        Err(PictureFault::TooLong) => Err(TaskPictureFault::TooLong),
        Err(PictureFault::TooManyRows) => Err(TaskPictureFault::TooManyRows),
    }
}
