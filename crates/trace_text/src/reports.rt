//! The lines of a shown plan.

ghost use Rattle.std.specs.Prelude.{◌≡◌, true};
ghost use Rattle.slot_core.specs.Runs.Arrivals.{key_in_set};
ghost use Rattle.slot_core.specs.Output.Reports.{job_line, span_line};

use crate::keys::push_key;
use crate::line::Line;
use crate::words::push_number;
use slot_core::{Job, Span, TaskSet};

/// The line of an offline job, with its line feed: its key, which lies in the task set, its derived
/// start and deadline, and its declared slots. It takes no memory.
pub fn job_line(job: &Job, tasks: &TaskSet) -> Line
    requires { key_in_set tasks.now job.now.key ≡ true }
    ensures { result ≡ job_line tasks.now job.now }
{
    let mut line = Line::new();
    line.push(b"job ");
    push_key(&mut line, &job.key, tasks);
    push_number(&mut line, job.est);
    push_number(&mut line, job.dl);
    push_number(&mut line, u64::from(job.declared));
    line.push(b"\n");
    line
}

/// The line of a span, with its line feed: its start and end, its work, and its spare capacity in
/// slots. It takes no memory.
pub fn span_line(span: &Span) -> Line
    ensures { result ≡ span_line span.now }
{
    let mut line = Line::new();
    line.push(b"span");
    push_number(&mut line, span.start);
    push_number(&mut line, span.end);
    push_number(&mut line, span.work);
    line.push(b" ");
    line.signed_number(span.spare);
    line.push(b"\n");
    line
}
