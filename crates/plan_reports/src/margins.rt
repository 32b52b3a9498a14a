//! The lines of margins.

ghost use Rattle.std.specs.Prelude.{◌≡◌, ◌≤◌, ◌+◌, ◌++◌, [], All, length, true, OnOk, OnErr};
ghost use Rattle.std.specs.Io.KnownBytes.{Appends};
ghost use Rattle.slot_core.specs.Calls.Counts.{Rose};
ghost use Rattle.slot_core.specs.Output.Texts.{worded};
ghost use Rattle.slot_core.specs.Sets.Ranges.{is_sound};
ghost use Rattle.slot_io.specs.Sinks.{AppendsPart};
ghost use Rattle.trace_text.specs.declared.TheConstants.{DECIMAL_LIMIT, LINE_LIMIT};
ghost use Rattle.gantt_print.specs.Rows.{row_of};
ghost use Rattle.margin_find.specs.declared.margin.TaskMargin.{TaskMargin};
ghost use Rattle.margin_find.specs.Parts.{IsTaskOf};
ghost use Rattle.margin_find.specs.Margins.{AreMargins, parts_of};
ghost use Rattle.plan_reports.specs.MarginLines.{row_at, margin_line, margin_lines, margin_text};

use gantt_print::{Row, push_label};
use margin_find::TaskMargin;
use slot_core::{Failed, Part, TaskSet};
use slot_io::Sink;
use trace_text::Line;

/// The row of a chart that is labelled by the task.
fn row_at(at: Part) -> Row
    ensures { row_of result ≡ row_at at }
{
    match at {
        Part::Task(graph, task) => Row::Task(graph, task),
        Part::Sporadic(index) => Row::Sporadic(index),
        _ => Row::Firm,
    }
}

/// Appends a space and the number.
fn push_number(line: &mut Line, n: u64)
    requires { length line.old + 1 + DECIMAL_LIMIT ≤ LINE_LIMIT }
    ensures text { line.new ≡ worded line.old n }
    ensures short { length line.new ≤ length line.old + 1 + DECIMAL_LIMIT }
{
    line.push(b" ");
    line.number(n);
}

/// Writes the line of a margin into an empty line.
fn push_margin(line: &mut Line, margin: &TaskMargin, tasks: &TaskSet)
    requires empty { line.old ≡ [] }
    requires of { IsTaskOf tasks.now margin.now.at }
    ensures { line.new ≡ margin_line tasks.now margin.now }
{
    line.push(b"margin ");
    push_label(line, row_at(margin.at), tasks);
    push_number(line, u64::from(margin.margin.growth));
    push_number(line, margin.margin.window.from);
    push_number(line, margin.margin.window.until);
    push_number(line, margin.margin.window.demand);
    line.push(b"\n");
}

/// Writes a line for each of these margins, by one put a line.
fn put_lines<K: Sink>(tasks: &TaskSet, margins: &[TaskMargin], out: &mut K) -> Result<(), Failed>
    requires { All (λ (m : TaskMargin). IsTaskOf tasks.now m.at) margins.now }
    ensures text { OnOk result (Appends
        (K.written out.old) (K.written out.new) (margin_lines tasks.now margins.now)) }
    ensures part { OnErr result (AppendsPart
        (K.written out.old) (K.written out.new) (margin_lines tasks.now margins.now)) }
    ensures counted { K.faults out.old ≤ K.faults out.new }
    ensures failed { OnErr result (Rose (K.faults out.old) (K.faults out.new)) }
{
    let mut line = Line::new();
    for margin in margins {
        line.clear();
        push_margin(&mut line, margin, tasks);
        out.put(line.bytes())?;
    }
    Ok(())
}

/// Writes the text of the margins of a set, by one put a line, up to the first that fails. After an
/// error a part of that text is written, from its front, and the sink has counted a fault.
pub(crate) fn put_margins<K: Sink>(
    tasks: &TaskSet,
    margins: &[TaskMargin],
    out: &mut K,
) -> Result<(), Failed>
    requires sound { is_sound tasks.now ≡ true }
    requires margins { AreMargins tasks.now (parts_of tasks.now) margins.now }
    ensures text { OnOk result (Appends
        (K.written out.old) (K.written out.new) (margin_text tasks.now)) }
    ensures part { OnErr result (AppendsPart
        (K.written out.old) (K.written out.new) (margin_text tasks.now)) }
    ensures counted { K.faults out.old ≤ K.faults out.new }
    ensures failed { OnErr result (Rose (K.faults out.old) (K.faults out.new)) }
{
    put_lines(tasks, margins, out)
}
