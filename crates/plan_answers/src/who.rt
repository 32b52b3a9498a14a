//! Who is in the window that fails.

ghost use Rattle.std.specs.Prelude.{◌≡◌, ◌+◌, ◌^◌, ◌<◌, ◌≤◌, ◌++◌, ◌∷◌, [], true, All, IfOk, OnOk, Some, flat_map};
ghost use Rattle.slot_core.specs.declared.TheConstants.{SLOT_LIMIT};
ghost use Rattle.slot_core.specs.declared.jobs.Job.{Job};
ghost use Rattle.slot_core.specs.Runs.Arrivals.{key_in_set};
ghost use Rattle.slot_core.specs.Sets.Cycles.{cycle_of};
ghost use Rattle.slot_core.specs.Sets.Ranges.{is_sound, sporadic_in_range};
ghost use Rattle.slot_core.specs.Offline.OfflineJobs.{later_job, later_key};
ghost use Rattle.slot_core.specs.Feasibility.Feasible.{counterexample};
ghost use Rattle.slot_core.specs.Output.Reports.{job_line};
ghost use Rattle.cycle_plan.specs.NearJobs.{instance_of};
ghost use Rattle.plan_answers.specs.Who.{arrived_line, arrived_lines, inside_line, jobs_inside, ordered_jobs, who_text, window_line, window_text, IsSmall};

use crate::jobs::ordered_jobs;
use crate::lines::push_line;
use command_line::append::{push, push_worded};
use cycle_plan::{counterexample, instances};
use demand_test::arrivals_by;
use graph_unroll::cycle_of;
use slot_core::{Job, Key, Memory, Sporadic, TaskSet, Window};
use std::alloc::Global;
use trace_text::job_line;

/// Who is in the window that fails of a sound set: the window, the jobs inside it, and the densest
/// arrivals that are due in it; or that the set fits.
pub fn who_text(alloc: Global, tasks: &TaskSet) -> Result<Vec<u8>, Memory>
    requires { is_sound tasks.now ≡ true }
    ensures { IfOk result (λ text. text.items ≡ who_text tasks.now) }
{
    match counterexample(alloc, tasks)? {
        Some(window) => window_text(alloc, tasks, window),
        None => Ok(Vec::from_slice(alloc, b"within\n")?),
    }
}

/// The lines of the window that fails, of the jobs inside it and of the arrivals.
fn window_text(alloc: Global, tasks: &TaskSet, window: Window) -> Result<Vec<u8>, Memory>
    requires sound { is_sound tasks.now ≡ true }
    requires failing { counterexample tasks.now (cycle_of tasks.now) ≡ Some window }
    ensures { IfOk result (λ text. text.items ≡ window_text tasks.now window) }
{
    let cycle = cycle_of(tasks).unwrap();
    let jobs = ordered_jobs(alloc, tasks)?;
    let mut text = Vec::new(alloc);
    push_window(&mut text, window)?;
    push_jobs(&mut text, tasks, cycle, &jobs, window)?;
    let slots = (window.until - window.from) as u32;
    push_arrivals(&mut text, tasks.sporadics.items(), window.from, slots)?;
    Ok(text)
}

/// Appends the line of the window, as the check names it.
fn push_window(text: &mut Vec<u8>, window: Window) -> Result<(), Memory>
    ensures { OnOk result (text.new.items ≡ text.old.items ++ window_line window) }
{
    push_worded(text, b"infeasible", window.from)?;
    push_worded(text, b"", window.until)?;
    push_line(text, b"", window.demand)
}

/// Appends the lines of the jobs inside the window: of the first cycle, and of the next where the
/// window ends past the first.
fn push_jobs(
    text: &mut Vec<u8>,
    tasks: &TaskSet,
    cycle: u32,
    jobs: &[Job],
    window: Window,
) -> Result<(), Memory>
    requires sound { is_sound tasks.now ≡ true }
    requires cycle { cycle ≡ cycle_of tasks.now }
    requires jobs { jobs.now ≡ ordered_jobs tasks.now }
    ensures { OnOk result (text.new.items
        ≡ text.old.items ++ flat_map (job_line tasks.now) (jobs_inside tasks.now window)) }
{
    push_first(text, tasks, jobs, window)?;
    if u64::from(cycle) < window.until {
        push_next(text, tasks, cycle, jobs, window)
    } else {
        Ok(())
    }
}

/// Appends the lines of those of these jobs that are inside the window.
fn push_first(
    text: &mut Vec<u8>,
    tasks: &TaskSet,
    jobs: &[Job],
    window: Window,
) -> Result<(), Memory>
    requires { All (λ (j : Job). key_in_set tasks.now j.key ≡ true) jobs.now }
    ensures { OnOk result (text.new.items
        ≡ text.old.items ++ flat_map (inside_line tasks.now window) jobs.now) }
{
    for job in jobs {
        push_inside(text, tasks, job, window)?;
    }
    Ok(())
}

/// Appends the lines of those of these jobs that are inside the window one cycle later.
fn push_next(
    text: &mut Vec<u8>,
    tasks: &TaskSet,
    cycle: u32,
    jobs: &[Job],
    window: Window,
) -> Result<(), Memory>
    requires sound { is_sound tasks.now ≡ true }
    requires cycle { cycle ≤ SLOT_LIMIT }
    requires named { All (λ (j : Job). key_in_set tasks.now j.key ≡ true) jobs.now }
    requires small { All IsSmall jobs.now }
    ensures { OnOk result (text.new.items ≡ text.old.items
        ++ flat_map (λ job. inside_line tasks.now window (later_job tasks.now cycle 1 job)) jobs.now) }
{
    for job in jobs {
        push_inside(text, tasks, &later_job(tasks, cycle, job), window)?;
    }
    Ok(())
}

/// The job of the same task one cycle later.
fn later_job(tasks: &TaskSet, cycle: u32, job: &Job) -> Job
    requires sound { is_sound tasks.now ≡ true }
    requires cycle { cycle ≤ SLOT_LIMIT }
    requires small { IsSmall job.now }
    ensures { result ≡ later_job tasks.now cycle 1 job.now }
{
    Job {
        key: later_key(tasks, cycle, job.key),
        est: job.est + u64::from(cycle),
        dl: job.dl + u64::from(cycle),
        left: job.left,
        declared: job.declared,
    }
}

/// The key of the same task one cycle later.
fn later_key(tasks: &TaskSet, cycle: u32, key: Key) -> Key
    requires sound { is_sound tasks.now ≡ true }
    requires small { instance_of key < 2 ^ 32 }
    ensures { result ≡ later_key tasks.now cycle 1 key }
{
    match key {
        Key::Offline(graph, task, instance) => {
            Key::Offline(graph, task, instance + instances(tasks, cycle, graph))
        }
        other => other,
    }
}

/// Appends the line of the job, where it is inside the window.
fn push_inside(text: &mut Vec<u8>, tasks: &TaskSet, job: &Job, window: Window) -> Result<(), Memory>
    requires { key_in_set tasks.now job.now.key ≡ true }
    ensures { OnOk result (text.new.items ≡ text.old.items ++ inside_line tasks.now window job.now) }
{
    if window.from <= job.est && job.dl <= window.until {
        push(text, job_line(job, tasks).bytes())
    } else {
        Ok(())
    }
}

/// Appends the lines of the densest arrivals that are due in so many slots.
fn push_arrivals(
    text: &mut Vec<u8>,
    sporadics: &[Sporadic],
    from: u64,
    slots: u32,
) -> Result<(), Memory>
    requires from { from < 2 ^ 32 }
    requires slots { slots < 2 ^ 31 }
    requires in_range { All (λ s. sporadic_in_range s ≡ true) sporadics.now }
    ensures { OnOk result (text.new.items ≡ text.old.items
        ++ flat_map (arrived_lines from (from + slots)) sporadics.now) }
{
    for sporadic in sporadics {
        push_arrived(text, sporadic, from, slots)?;
    }
    Ok(())
}

/// Appends the lines of the densest arrivals of the sporadic task.
fn push_arrived(
    text: &mut Vec<u8>,
    sporadic: &Sporadic,
    from: u64,
    slots: u32,
) -> Result<(), Memory>
    requires from { from < 2 ^ 32 }
    requires slots { slots < 2 ^ 31 }
    requires in_range { sporadic_in_range sporadic.now ≡ true }
    ensures { OnOk result (text.new.items
        ≡ text.old.items ++ arrived_lines from (from + slots) sporadic.now) }
{
    let count = arrivals_by(sporadic, slots);
    for place in 0..count {
        push_arrival(
            text,
            sporadic,
            from + place * u64::from(sporadic.separation),
        )?;
    }
    Ok(())
}

/// Appends the line of an arrival at this time.
fn push_arrival(text: &mut Vec<u8>, sporadic: &Sporadic, time: u64) -> Result<(), Memory>
    requires time { time < 2 ^ 63 }
    requires deadline { sporadic.now.deadline ≤ SLOT_LIMIT }
    ensures { OnOk result (text.new.items ≡ text.old.items ++ arrived_line sporadic.now time) }
{
    push(text, b"arrival ")?;
    push_worded(text, sporadic.name.bytes(), time)?;
    push_worded(text, b"", time + u64::from(sporadic.deadline))?;
    push_line(text, b"", u64::from(sporadic.wcet))
}
