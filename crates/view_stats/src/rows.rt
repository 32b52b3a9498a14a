//! The row of a group.

ghost use Rattle.std.specs.Prelude.{◌≡◌, ℕ, ◌≤◌, ◌<◌, ◌+◌, ◌++◌, List, [], length, Some, OnOk};
ghost use Rattle.csv_table.specs.Tables.{row_line};
ghost use Rattle.trace_text.specs.declared.TheConstants.{LINE_LIMIT};
ghost use Rattle.view_stats.specs.StatRows.{hundredths_text, slack_text, stat_names, stat_row, ten_thousandths_text, two_digits};

use crate::figures::{Figures, Fixed};
use crate::groups::Group;
use csv_table::{Cell, Rows};
use slot_core::{Memory, TaskSet};
use trace_text::Line;

/// The names of the fields.
pub(crate) fn stat_names() -> [Cell<'static>; 15]
    ensures { result ≡ stat_names }
{
    [
        Cell::text(b"kind"),
        Cell::text(b"graph"),
        Cell::text(b"task"),
        Cell::text(b"jobs"),
        Cell::text(b"ended"),
        Cell::text(b"ran"),
        Cell::text(b"load"),
        Cell::text(b"fastest"),
        Cell::text(b"mean"),
        Cell::text(b"p95"),
        Cell::text(b"slowest"),
        Cell::text(b"slack"),
        Cell::text(b"closest"),
        Cell::text(b"farthest"),
        Cell::text(b"preemptions"),
    ]
}

/// Appends the row of a group that has these figures.
pub(crate) fn push_figures(
    rows: &mut Rows,
    tasks: &TaskSet,
    group: Group,
    figures: Figures,
) -> Result<(), Memory>
    ensures { (before : List ℕ) → rows.old ≡ Some before → OnOk result
        (rows.new ≡ Some (before ++ row_line (stat_row tasks.now group figures))) }
{
    let mut load = Line::new();
    let mut mean = Line::new();
    push_ten_thousandths(&mut load, figures.load);
    push_hundredths(&mut mean, figures.mean);
    rows.push(&cells(tasks, group, figures, load.bytes(), mean.bytes()))
}

/// The fields of the row of a group, with the texts of the load and of the mean.
fn cells<'a>(
    tasks: &'a TaskSet,
    group: Group,
    figures: Figures,
    load: &'a [u8],
    mean: &'a [u8],
) -> [Cell<'a>; 15]
    requires load { load.now ≡ ten_thousandths_text figures.load }
    requires mean { mean.now ≡ hundredths_text figures.mean }
    ensures { result ≡ stat_row tasks.now group figures }
{
    [
        Cell::text(group.kind()),
        Cell::text(group.graph(tasks)),
        Cell::text(group.task(tasks)),
        Cell::number(figures.jobs),
        Cell::number(figures.ended),
        Cell::number(figures.ran),
        Cell::text(load),
        Cell::optional(figures.fastest),
        Cell::text(mean),
        Cell::optional(figures.p95),
        Cell::optional(figures.slowest),
        slack(figures.due),
        Cell::optional(figures.closest),
        Cell::optional(figures.farthest),
        Cell::number(figures.preemptions),
    ]
}

/// The slack from an end to a deadline, or the empty field.
fn slack(due: Option<(u64, u64)>) -> Cell<'static>
    ensures { result ≡ slack_text due }
{
    match due {
        Some((deadline, end)) => Cell::difference(deadline, end),
        None => Cell::empty(),
    }
}

/// Writes the number with two decimals into an empty line.
fn push_hundredths(line: &mut Line, n: Option<Fixed>)
    requires { line.old ≡ [] }
    ensures { line.new ≡ hundredths_text n }
{
    if let Some(n) = n {
        line.number(n.whole);
        line.push(b".");
        line.push(&two_digits(n.parts));
    }
}

/// Writes the number with four decimals into an empty line.
fn push_ten_thousandths(line: &mut Line, n: Option<Fixed>)
    requires { line.old ≡ [] }
    ensures { line.new ≡ ten_thousandths_text n }
{
    if let Some(n) = n {
        line.number(n.whole);
        line.push(b".");
        line.push(&two_digits(n.parts / 100));
        line.push(&two_digits(n.parts));
    }
}

/// The last two digits of the number.
fn two_digits(n: u16) -> [u8; 2]
    ensures { result ≡ two_digits n }
{
    [b'0' + (n / 10 % 10) as u8, b'0' + (n % 10) as u8]
}
