//! Why a trace or a supply is not shown.

ghost use Rattle.std.specs.Prelude.{◌≡◌, ◌≤◌, length};
ghost use Rattle.slot_core.specs.Output.Texts.{worded};
ghost use Rattle.command_line.specs.declared.refusal.Refusal.TheVariants.{NotVerified};
ghost use Rattle.view_run.specs.declared.refusals.TheConstants.{WORDS_LIMIT};
ghost use Rattle.view_run.specs.Refusals.{of_jobs, of_picture, of_rows, of_supply, of_table, of_tasks, of_text, too_long, too_many_rows};

use command_line::{Reason, Refusal};
use csv_table::CsvFault;
use run_blocks::{ROW_LIMIT, RowsFault};
use task_rows::TaskPictureFault;
use trace_lines::{LINE_LIMIT, TraceFault};
use trace_text::Line;
use view_jobs::JobsFault;
use view_picture::{PICTURE_LIMIT, PictureFault};
use view_stairs::StairsFault;

/// Most bytes of the words of a fault, of which a number is told.
const WORDS_LIMIT: usize = 100;

/// The refusal of standard input, by these words and a number.
fn numbered(words: &[u8], number: u64) -> Refusal
    requires { length words.now ≤ WORDS_LIMIT }
    ensures { result ≡ NotVerified (worded words.now number) }
{
    let mut line = Line::new();
    line.push(words);
    line.push(b" ");
    line.number(number);
    Refusal::NotVerified(Reason::of(line.bytes()))
}

/// The refusal of a text that is no trace.
pub(crate) fn of_text(fault: TraceFault) -> Refusal
    ensures { result ≡ of_text fault }
{
    match fault {
        TraceFault::Memory => Refusal::Memory,
        TraceFault::NoLine(number) => numbered(b"trace no line", number),
        TraceFault::TooMany => numbered(b"trace too many lines", LINE_LIMIT as u64),
        TraceFault::NoSlot(slot) => numbered(b"trace no slot", slot),
    }
}

/// The refusal of a trace that has no picture.
pub(crate) fn of_picture(fault: PictureFault) -> Refusal
    ensures { result ≡ of_picture fault }
{
    match fault {
        PictureFault::Memory => Refusal::Memory,
        PictureFault::TooLong => too_long(),
        PictureFault::TooManyRows => too_many_rows(),
    }
}

/// The refusal of a trace that is too long for a picture.
fn too_long() -> Refusal
    ensures { result ≡ too_long }
{
    numbered(b"trace too long", u64::from(PICTURE_LIMIT))
}

/// The refusal of rows that are not made.
pub(crate) fn of_rows(fault: RowsFault) -> Refusal
    ensures { result ≡ of_rows fault }
{
    match fault {
        RowsFault::Memory => Refusal::Memory,
        RowsFault::TooMany => too_many_rows(),
    }
}

/// The refusal of a trace that asks for too many rows.
fn too_many_rows() -> Refusal
    ensures { result ≡ too_many_rows }
{
    numbered(b"trace too many rows", ROW_LIMIT as u64)
}

/// The refusal of a table that is not written.
pub(crate) fn of_table(fault: CsvFault) -> Refusal
    ensures { result ≡ of_table fault }
{
    match fault {
        CsvFault::Memory => Refusal::Memory,
        CsvFault::Failed => Refusal::WriteFault,
    }
}

/// The refusal of a table of jobs that is not written.
pub(crate) fn of_jobs(fault: JobsFault) -> Refusal
    ensures { result ≡ of_jobs fault }
{
    match fault {
        JobsFault::Memory => Refusal::Memory,
        JobsFault::Failed => Refusal::WriteFault,
        JobsFault::NoLine(number) => numbered(b"trace no line", number),
    }
}

/// The refusal of a trace that has no picture over the tasks of a plan.
pub(crate) fn of_tasks(fault: TaskPictureFault) -> Refusal
    ensures { result ≡ of_tasks fault }
{
    match fault {
        TaskPictureFault::Memory => Refusal::Memory,
        TaskPictureFault::TooLong => too_long(),
        TaskPictureFault::TooManyRows => too_many_rows(),
        TaskPictureFault::NoLine(number) => numbered(b"trace no line", number),
    }
}

/// The refusal of a text that is no supply.
pub(crate) fn of_supply(fault: StairsFault) -> Refusal
    ensures { result ≡ of_supply fault }
{
    match fault {
        StairsFault::Memory => Refusal::Memory,
        StairsFault::NoLine(number) => numbered(b"supply no line", number),
    }
}
