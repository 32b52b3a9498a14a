//! The jobs and the spans of a table, beside those that are computed.

ghost use Rattle.std.specs.Prelude.{◌≡◌, ◌<◌, ◌^◌, length};
ghost use Rattle.table_codec.specs.Readers.{Reads, ReadsAs, same_at};
ghost use Rattle.table_codec.specs.Grammar.{is_same_job, is_same_span, job_form, jobs_form, key_form, span_form, spans_form};

use crate::TableFault;
use crate::layout::Layout;
use crate::reader::Input;
use slot_core::{Job, Key, Span};

/// A stored key.
fn read_key(input: &mut Input, layout: Layout) -> Result<Key, TableFault>
    ensures { Reads (key_form layout).read result input.old input.new }
{
    let graph = input.index()?;
    let task = input.index()?;
    let instance = input.slots(layout)?;
    Ok(Key::Offline(graph, task, u64::from(instance)))
}

/// A stored job, which has all its slots left.
fn read_job(input: &mut Input, layout: Layout) -> Result<Job, TableFault>
    ensures { Reads (job_form layout).read result input.old input.new }
{
    let key = read_key(input, layout)?;
    let est = input.slots(layout)?;
    let dl = input.slots(layout)?;
    let declared = input.slots(layout)?;
    Ok(Job {
        key,
        est: u64::from(est),
        dl: u64::from(dl),
        left: declared,
        declared,
    })
}

/// A stored span.
fn read_span(input: &mut Input, layout: Layout) -> Result<Span, TableFault>
    ensures { Reads (span_form layout).read result input.old input.new }
{
    let start = input.slots(layout)?;
    let end = input.slots(layout)?;
    let work = input.slots(layout)?;
    let spare = input.capacity(layout)?;
    Ok(Span {
        start: u64::from(start),
        end: u64::from(end),
        work: u64::from(work),
        spare,
    })
}

/// Whether the jobs are the same.
fn is_same_job(stored: Job, computed: Job) -> bool
    ensures { result ≡ is_same_job stored computed }
{
    stored == computed
}

/// Whether the spans are the same.
fn is_same_span(stored: Span, computed: Span) -> bool
    ensures { result ≡ is_same_span stored computed }
{
    stored == computed
}

/// Refuses the first stored job that is not the computed one.
fn check_each_job(input: &mut Input, layout: Layout, jobs: &[Job]) -> Result<(), TableFault>
    requires { length jobs.now < 2 ^ 32 }
    ensures { ReadsAs (λ _. tt)
        (same_at (job_form layout).read is_same_job TableFault.WrongJob 0 jobs.now)
        result input.old input.new }
{
    for (place, computed) in jobs.iter().enumerate() {
        let stored = read_job(input, layout)?;
        if !is_same_job(stored, *computed) {
            return Err(TableFault::WrongJob(place as u32, stored, *computed));
        }
    }
    Ok(())
}

/// Refuses stored jobs that are not the computed ones.
pub(crate) fn check_jobs(input: &mut Input, layout: Layout, jobs: &[Job]) -> Result<(), TableFault>
    requires { length jobs.now < 2 ^ 32 }
    ensures { ReadsAs (λ _. jobs.now) (jobs_form layout jobs.now).read result input.old input.new }
{
    let computed = jobs.len() as u32;
    let stored = input.many()?;
    if stored != computed {
        return Err(TableFault::WrongJobCount(stored, computed));
    }
    check_each_job(input, layout, jobs)
}

/// Refuses the first stored span that is not the computed one.
fn check_each_span(input: &mut Input, layout: Layout, spans: &[Span]) -> Result<(), TableFault>
    requires { length spans.now < 2 ^ 32 }
    ensures { ReadsAs (λ _. tt)
        (same_at (span_form layout).read is_same_span TableFault.WrongSpan 0 spans.now)
        result input.old input.new }
{
    for (place, computed) in spans.iter().enumerate() {
        let stored = read_span(input, layout)?;
        if !is_same_span(stored, *computed) {
            return Err(TableFault::WrongSpan(place as u32, stored, *computed));
        }
    }
    Ok(())
}

/// Refuses stored spans that are not the computed ones.
pub(crate) fn check_spans(
    input: &mut Input,
    layout: Layout,
    spans: &[Span],
) -> Result<(), TableFault>
    requires { length spans.now < 2 ^ 32 }
    ensures { ReadsAs (λ _. spans.now)
        (spans_form layout spans.now).read result input.old input.new }
{
    let computed = spans.len() as u32;
    let stored = input.many()?;
    if stored != computed {
        return Err(TableFault::WrongSpanCount(stored, computed));
    }
    check_each_span(input, layout, spans)
}
