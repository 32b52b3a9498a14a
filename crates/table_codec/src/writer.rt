//! The parts of a table as bytes. Each function writes at the end of those that are there.

ghost use Rattle.std.specs.Prelude.{◌≡◌, ◌<◌, ◌≤◌, ◌^◌, ◌++◌, true, length, flat_map, All, FitsSigned, OnOk};
ghost use Rattle.std.specs.Int.{w32, w64};
ghost use Rattle.std.specs.List.{list_all};
ghost use Rattle.slot_core.specs.declared.jobs.Job.{Job};
ghost use Rattle.slot_core.specs.declared.jobs.Span.{Span};
ghost use Rattle.slot_core.specs.Sets.Ranges.{graph_in_range, is_in_range, sporadic_in_range, task_in_range};
ghost use Rattle.table_codec.specs.Forms.{name_form, number_form, signed_form};
ghost use Rattle.table_codec.specs.Grammar.{graph_form, head_form, index_form, job_form, jobs_form, key_form, set_form, slots_form, span_form, spans_form, spare_form, spare_width, sporadic_form, table_form, task_form};
ghost use Rattle.table_codec.specs.Sizes.{Fits, FitsJob, FitsKey, FitsSpan};

use crate::layout::{Layout, NumberWidth, SpareWidth};
use byteorder::{ByteOrder, LittleEndian};
use cycle_plan::Plan;
use slot_core::{Graph, Job, Key, Memory, Name, Part, SLOT_LIMIT, Span, Sporadic, Task, TaskSet};

/// An index, a count or the version: a number of two bytes.
fn put_index(out: &mut Vec<u8>, number: u16) -> Result<(), Memory>
    ensures { OnOk result (out.new.items ≡ out.old.items ++ index_form.written number) }
{
    let mut bytes = [0; 2];
    LittleEndian::write_u16(&mut bytes, number);
    out.extend_from_slice(&bytes)?;
    Ok(())
}

/// A number of four bytes, as the count of jobs or spans.
fn put_many(out: &mut Vec<u8>, number: u32) -> Result<(), Memory>
    ensures { OnOk result (out.new.items ≡ out.old.items ++ (number_form w32).written number) }
{
    let mut bytes = [0; 4];
    LittleEndian::write_u32(&mut bytes, number);
    out.extend_from_slice(&bytes)?;
    Ok(())
}

/// A length or a time, in slots.
fn put_slots(out: &mut Vec<u8>, layout: Layout, slots: u64) -> Result<(), Memory>
    requires { Fits layout slots }
    ensures { OnOk result (out.new.items ≡ out.old.items ++ (slots_form layout).written slots) }
{
    match layout.number {
        NumberWidth::Two => put_index(out, slots as u16),
        NumberWidth::Four => put_many(out, slots as u32),
    }
}

/// A length or a time of the task set, in slots.
fn put_range(out: &mut Vec<u8>, layout: Layout, slots: u32) -> Result<(), Memory>
    requires { slots ≤ SLOT_LIMIT }
    ensures { OnOk result (out.new.items ≡ out.old.items ++ (slots_form layout).written slots) }
{
    put_slots(out, layout, u64::from(slots))
}

/// A capacity of four bytes.
fn put_short_spare(out: &mut Vec<u8>, spare: i32) -> Result<(), Memory>
    ensures { OnOk result (out.new.items ≡ out.old.items ++ (signed_form w32).written spare) }
{
    let mut bytes = [0; 4];
    LittleEndian::write_i32(&mut bytes, spare);
    out.extend_from_slice(&bytes)?;
    Ok(())
}

/// A capacity of eight bytes.
fn put_long_spare(out: &mut Vec<u8>, spare: i64) -> Result<(), Memory>
    ensures { OnOk result (out.new.items ≡ out.old.items ++ (signed_form w64).written spare) }
{
    let mut bytes = [0; 8];
    LittleEndian::write_i64(&mut bytes, spare);
    out.extend_from_slice(&bytes)?;
    Ok(())
}

/// A spare capacity, in slots.
fn put_spare(out: &mut Vec<u8>, layout: Layout, spare: i64) -> Result<(), Memory>
    requires { FitsSigned (spare_width layout.spare) spare }
    ensures { OnOk result (out.new.items ≡ out.old.items ++ (spare_form layout).written spare) }
{
    match layout.spare {
        SpareWidth::Four => put_short_spare(out, spare as i32),
        SpareWidth::Eight => put_long_spare(out, spare),
    }
}

/// A name, after the number of its bytes.
fn put_name(out: &mut Vec<u8>, name: &Name) -> Result<(), Memory>
    ensures { OnOk result (out.new.items ≡ out.old.items ++ (name_form Part.Top).written name.now) }
{
    let bytes = name.bytes();
    out.push(bytes.len() as u8)?;
    out.extend_from_slice(bytes)?;
    Ok(())
}

/// The indexes of the tasks that a task comes after.
fn put_after(out: &mut Vec<u8>, after: &[u16]) -> Result<(), Memory>
    ensures { OnOk result (out.new.items ≡ out.old.items ++ flat_map index_form.written after.now) }
{
    for task in after {
        put_index(out, *task)?;
    }
    Ok(())
}

/// A task of a graph.
fn put_task(out: &mut Vec<u8>, layout: Layout, task: &Task) -> Result<(), Memory>
    requires { task_in_range task.now ≡ true }
    ensures { OnOk result
        (out.new.items ≡ out.old.items ++ (task_form layout 0 0).written task.now) }
{
    put_name(out, &task.name)?;
    put_range(out, layout, task.wcet)?;
    put_index(out, task.after.len() as u16)?;
    put_after(out, task.after.items())
}

/// The tasks of a graph.
fn put_tasks(out: &mut Vec<u8>, layout: Layout, tasks: &[Task]) -> Result<(), Memory>
    requires { list_all task_in_range tasks.now ≡ true }
    ensures { OnOk result
        (out.new.items ≡ out.old.items ++ flat_map (task_form layout 0 0).written tasks.now) }
{
    for task in tasks {
        put_task(out, layout, task)?;
    }
    Ok(())
}

/// A graph.
fn put_graph(out: &mut Vec<u8>, layout: Layout, graph: &Graph) -> Result<(), Memory>
    requires { graph_in_range graph.now ≡ true }
    ensures { OnOk result
        (out.new.items ≡ out.old.items ++ (graph_form layout 0).written graph.now) }
{
    put_name(out, &graph.name)?;
    put_range(out, layout, graph.period)?;
    put_range(out, layout, graph.offset)?;
    put_range(out, layout, graph.deadline)?;
    put_index(out, graph.tasks.len() as u16)?;
    put_tasks(out, layout, graph.tasks.items())
}

/// The graphs of a set.
fn put_graphs(out: &mut Vec<u8>, layout: Layout, graphs: &[Graph]) -> Result<(), Memory>
    requires { list_all graph_in_range graphs.now ≡ true }
    ensures { OnOk result
        (out.new.items ≡ out.old.items ++ flat_map (graph_form layout 0).written graphs.now) }
{
    for graph in graphs {
        put_graph(out, layout, graph)?;
    }
    Ok(())
}

/// A sporadic task.
fn put_sporadic(out: &mut Vec<u8>, layout: Layout, sporadic: &Sporadic) -> Result<(), Memory>
    requires { sporadic_in_range sporadic.now ≡ true }
    ensures { OnOk result
        (out.new.items ≡ out.old.items ++ (sporadic_form layout 0).written sporadic.now) }
{
    put_name(out, &sporadic.name)?;
    put_range(out, layout, sporadic.wcet)?;
    put_range(out, layout, sporadic.separation)?;
    put_range(out, layout, sporadic.deadline)
}

/// The sporadic tasks of a set.
fn put_sporadics(out: &mut Vec<u8>, layout: Layout, sporadics: &[Sporadic]) -> Result<(), Memory>
    requires { list_all sporadic_in_range sporadics.now ≡ true }
    ensures { OnOk result
        (out.new.items ≡ out.old.items ++ flat_map (sporadic_form layout 0).written sporadics.now) }
{
    for sporadic in sporadics {
        put_sporadic(out, layout, sporadic)?;
    }
    Ok(())
}

/// The head of a table.
fn put_head(out: &mut Vec<u8>, layout: Layout) -> Result<(), Memory>
    ensures { OnOk result (out.new.items ≡ out.old.items ++ head_form.written layout) }
{
    out.extend_from_slice(b"SLOT")?;
    put_index(out, layout.version)
}

/// The task set.
fn put_set(out: &mut Vec<u8>, layout: Layout, set: &TaskSet) -> Result<(), Memory>
    requires { is_in_range set.now ≡ true }
    ensures { OnOk result (out.new.items ≡ out.old.items ++ (set_form layout).written set.now) }
{
    put_range(out, layout, set.soft_limit)?;
    put_index(out, set.graphs.len() as u16)?;
    put_graphs(out, layout, set.graphs.items())?;
    put_index(out, set.sporadics.len() as u16)?;
    put_sporadics(out, layout, set.sporadics.items())
}

/// The key of an offline job.
fn put_key(out: &mut Vec<u8>, layout: Layout, key: Key) -> Result<(), Memory>
    requires { FitsKey layout key }
    ensures { OnOk result (out.new.items ≡ out.old.items ++ (key_form layout).written key) }
{
    let Key::Offline(graph, task, instance) = key else {
        return Ok(());
    };
    put_index(out, graph)?;
    put_index(out, task)?;
    put_slots(out, layout, instance)
}

/// A job.
fn put_job(out: &mut Vec<u8>, layout: Layout, job: Job) -> Result<(), Memory>
    requires { FitsJob layout job }
    ensures { OnOk result (out.new.items ≡ out.old.items ++ (job_form layout).written job) }
{
    put_key(out, layout, job.key)?;
    put_slots(out, layout, job.est)?;
    put_slots(out, layout, job.dl)?;
    put_slots(out, layout, u64::from(job.declared))
}

/// The jobs of a plan.
fn put_each_job(out: &mut Vec<u8>, layout: Layout, jobs: &[Job]) -> Result<(), Memory>
    requires { All (FitsJob layout) jobs.now }
    ensures { OnOk result
        (out.new.items ≡ out.old.items ++ flat_map (job_form layout).written jobs.now) }
{
    for job in jobs {
        put_job(out, layout, *job)?;
    }
    Ok(())
}

/// The jobs of a plan, after their number.
fn put_jobs(out: &mut Vec<u8>, layout: Layout, jobs: &[Job]) -> Result<(), Memory>
    requires few { length jobs.now < 2 ^ 32 }
    requires small { All (FitsJob layout) jobs.now }
    ensures { OnOk result
        (out.new.items ≡ out.old.items ++ (jobs_form layout jobs.now).written jobs.now) }
{
    put_many(out, jobs.len() as u32)?;
    put_each_job(out, layout, jobs)
}

/// A span.
fn put_span(out: &mut Vec<u8>, layout: Layout, span: Span) -> Result<(), Memory>
    requires { FitsSpan layout span }
    ensures { OnOk result (out.new.items ≡ out.old.items ++ (span_form layout).written span) }
{
    put_slots(out, layout, span.start)?;
    put_slots(out, layout, span.end)?;
    put_slots(out, layout, span.work)?;
    put_spare(out, layout, span.spare)
}

/// The spans of a plan.
fn put_each_span(out: &mut Vec<u8>, layout: Layout, spans: &[Span]) -> Result<(), Memory>
    requires { All (FitsSpan layout) spans.now }
    ensures { OnOk result
        (out.new.items ≡ out.old.items ++ flat_map (span_form layout).written spans.now) }
{
    for span in spans {
        put_span(out, layout, *span)?;
    }
    Ok(())
}

/// The spans of a plan, after their number.
fn put_spans(out: &mut Vec<u8>, layout: Layout, spans: &[Span]) -> Result<(), Memory>
    requires few { length spans.now < 2 ^ 32 }
    requires small { All (FitsSpan layout) spans.now }
    ensures { OnOk result
        (out.new.items ≡ out.old.items ++ (spans_form layout spans.now).written spans.now) }
{
    put_many(out, spans.len() as u32)?;
    put_each_span(out, layout, spans)
}

/// A whole table.
pub(crate) fn put_table(out: &mut Vec<u8>, layout: Layout, plan: &Plan) -> Result<(), Memory>
    ensures { OnOk result (out.new.items ≡ out.old.items ++ (table_form layout).written plan.now) }
{
    put_head(out, layout)?;
    put_set(out, layout, plan.tasks())?;
    put_jobs(out, layout, plan.jobs())?;
    put_spans(out, layout, plan.spans())
}
