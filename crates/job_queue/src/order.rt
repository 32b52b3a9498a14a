//! Keys and the order of earliest deadline first.

ghost use Rattle.std.specs.Prelude.{◌≡◌};
ghost use Rattle.std.specs.Option.{option_copied};
ghost use Rattle.slot_core.specs.Runs.Choice.{earlier_of};
ghost use Rattle.slot_core.specs.Offline.Keys.{is_earlier, same_key};
ghost use Rattle.job_queue.specs.Starts.{goes_before, sooner, starts_before, starts_within};

use slot_core::{Job, Key};

/// Whether the two keys are one.
pub(crate) fn is_same_key(a: Key, b: Key) -> bool
    ensures { result ≡ same_key a b }
{
    a == b
}

/// Whether the job has this key. Of two offline keys the instances are compared first, as they are
/// mostly apart.
pub(crate) fn has_key(job: &Job, key: Key) -> bool
    ensures { result ≡ same_key job.now.key key }
{
    if let (
        Key::Offline(graph, task, instance),
        Key::Offline(other_graph, other_task, other_instance),
    ) = (job.key, key)
    {
        return instance == other_instance && task == other_task && graph == other_graph;
    }
    is_same_key(job.key, key)
}

/// Of two candidates, the one that goes before the other; the first where they are level.
pub(crate) fn earlier_of<'a>(best: Option<&'a Job>, job: &'a Job) -> Option<&'a Job>
    ensures { option_copied result ≡ earlier_of (option_copied best.entry) job.now }
{
    match best {
        Some(best) if !is_earlier(job, best) => Some(best),
        _ => Some(job),
    }
}

/// Whether the first job goes before the second: by deadline, then by key.
#[inline(always)]
pub(crate) fn is_earlier(a: &Job, b: &Job) -> bool
    ensures { result ≡ is_earlier a.now b.now }
{
    if a.dl == b.dl {
        is_earlier_by_key(a, b)
    } else {
        a.dl < b.dl
    }
}

/// The same of two jobs of one deadline.
#[inline(never)]
fn is_earlier_by_key(a: &Job, b: &Job) -> bool
    requires { a.now.dl ≡ b.now.dl }
    ensures { result ≡ is_earlier a.now b.now }
{
    a.key < b.key
}

/// Whether the job starts after `now`, and goes before the other one, where there is one.
fn starts_before(job: &Job, now: u64, other: Option<&Job>) -> bool
    ensures { result ≡ starts_before now (option_copied other.entry) job.now }
{
    now < job.est && goes_before(job, other)
}

/// The same, and whether it starts before `until`.
pub(crate) fn starts_within(job: &Job, now: u64, until: u64, other: Option<&Job>) -> bool
    ensures { result ≡ starts_within now until (option_copied other.entry) job.now }
{
    job.est < until && starts_before(job, now, other)
}

/// Whether the job goes before the other one, where there is one.
pub(crate) fn goes_before(job: &Job, other: Option<&Job>) -> bool
    ensures { result ≡ goes_before (option_copied other.entry) job.now }
{
    match other {
        Some(other) => is_earlier(job, other),
        None => true,
    }
}

/// The sooner of a start, if there is one, and that of this job.
pub(crate) fn sooner(start: Option<u64>, job: &Job) -> Option<u64>
    ensures { result ≡ sooner start job.now }
{
    match start {
        Some(start) => Some(start.min(job.est)),
        None => Some(job.est),
    }
}
