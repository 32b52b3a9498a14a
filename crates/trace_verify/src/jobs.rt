//! Lists of remaining jobs.

ghost use Rattle.std.specs.Prelude.{[], false, true, ◌≡◌, ◌+◌, ◌-◌, ◌≤◌, ◌<◌, ◌^◌, ◌&&◌, ◌++◌, ◌∷◌, ◌==◌, ℕ, not, filter, find, length, nat_le, nat_lt, position, sum_by, take, All, OnErr, OnOk};
ghost use Rattle.std.specs.List.{insert, list_all, list_any, prefix_len};
ghost use Rattle.std.specs.Option.{option_map};
ghost use Rattle.slot_core.specs.declared.jobs.Job.{Job};
ghost use Rattle.slot_core.specs.declared.jobs.Key.{Key as PairKey};
ghost use Rattle.slot_core.specs.Claims.Safety.{after_run};
ghost use Rattle.slot_core.specs.Keeping.Kept.{AreApart};
ghost use Rattle.slot_core.specs.Keeping.Plans.{with_job, AreInDeadlineOrder};
ghost use Rattle.slot_core.specs.Offline.Keys.{is_earlier, same_key};
ghost use Rattle.slot_core.specs.Offline.OfflineJobs.{tasks_of};
ghost use Rattle.slot_core.specs.Offline.Precedence.{after_of, comes_after};
ghost use Rattle.slot_core.specs.Offline.Windows.{precedes};
ghost use Rattle.slot_core.specs.Runs.Choice.{earliest};
ghost use Rattle.trace_verify.specs.Checked.{AreDueInOrder};
ghost use Rattle.trace_verify.specs.Dues.{block_end, left_before, AreDues, IsStretch};
ghost use Rattle.trace_verify.specs.Lacks.{lack};

use crate::dues::{Dues, Stretch};
use crate::front::Front;
use slot_core::{Job, Key, Memory, Task, TaskSet};
use std::alloc::Global;
use std::marker::Model;

/// Remaining jobs, with the slots due at each time, which are those left of the jobs.
#[derive(Drop)]
pub(crate) struct JobList {
    jobs: Front<Job>,
    dues: Dues,
}

impl Model for JobList {
    ghost use Rattle.std.specs.Prelude.{List};
    ghost use Rattle.slot_core.specs.declared.jobs.Job.{Job};
    ghost use Rattle.trace_verify.specs.Dues.{AreDues};

    ghost Value = { List Job };

    ghost view = { λ l. l.jobs };

    ghost invariant = { λ l. AreDues l.dues l.jobs };
}

impl JobList {
    /// No jobs.
    pub(crate) fn new(alloc: Global) -> JobList
        ensures { result ≡ [] }
    {
        JobList {
            jobs: Front::new(alloc),
            dues: Dues::new(alloc),
        }
    }

    /// The jobs.
    pub(crate) fn items(&self) -> &[Job]
        ensures { result.now ≡ self.now }
    {
        self.jobs.items()
    }

    /// Puts a job behind the others.
    pub(crate) fn push(&mut self, job: Job) -> Result<(), Memory>
        requires small { sum_by (λ (j : Job). j.left) self.old ≤ 2 ^ 40 }
        ensures pushed { OnOk result (self.new ≡ self.old ++ job ∷ []) }
        ensures stays { OnErr result (self.new ≡ self.old) }
    {
        let end = self.jobs.len();
        insert_at(&mut self.jobs, &mut self.dues, end, job)?;
        Ok(())
    }

    /// Puts a job at its place among jobs in deadline order.
    pub(crate) fn insert(&mut self, job: Job) -> Result<(), Memory>
        requires small { sum_by (λ (j : Job). j.left) self.old ≤ 2 ^ 40 }
        ensures inserted { OnOk result (self.new ≡ with_job job self.old) }
        ensures stays { OnErr result (self.new ≡ self.old) }
    {
        let place = place_for(self.jobs.items(), &job);
        insert_at(&mut self.jobs, &mut self.dues, place, job)?;
        Ok(())
    }

    /// One slot of the job of this key has run: it goes where that was its last one.
    pub(crate) fn run(&mut self, key: Key)
        requires apart { AreApart self.old }
        requires some { All (λ (j : Job). 1 ≤ j.left) self.old }
        ensures { self.new ≡ after_run key self.old }
    {
        let place = place_of(self.jobs.items(), key);
        run_due(&mut self.dues, self.jobs.items(), key, place);
        run_job(&mut self.jobs, key, place);
    }

    /// The job of this key goes.
    pub(crate) fn remove(&mut self, key: Key)
        requires { AreApart self.old }
        ensures { self.new ≡ filter (λ (j : Job). not (same_key j.key key)) self.old }
    {
        remove_job(&mut self.jobs, &mut self.dues, key);
    }

    /// What the jobs that are due after a time lack from it on. Each block of times is looked at
    /// once.
    pub(crate) fn lack_after(&self, from: u64) -> u64
        requires ordered { AreInDeadlineOrder self.now }
        requires near { from ≤ 2 ^ 41 }
        ensures lack { result ≡ lack from (filter (λ (j : Job). nat_lt from j.dl) self.now) }
        ensures few { result ≤ sum_by (λ (j : Job). j.left) self.now }
    {
        self.dues.lack_after(from)
    }

    /// The slots left of the jobs due before a time. Each block of times is looked at once.
    pub(crate) fn work_before(&self, time: u64) -> u64
        requires near { time ≤ 2 ^ 41 }
        ensures { result ≡ left_before self.now time }
    {
        self.dues.work_before(time)
    }

    /// What is told of the times from one on to the end of its block.
    pub(crate) fn to_block_end(&self, start: u64) -> Stretch
        requires near { start ≤ 2 ^ 41 }
        ensures { IsStretch (left_before self.now) start (block_end start) result }
    {
        self.dues.to_block_end(start)
    }

    /// The slots left of the jobs due at a time.
    pub(crate) fn due_at(&self, time: u64) -> u64
        requires near { time ≤ 2 ^ 41 }
        ensures { left_before self.now (time + 1) ≡ left_before self.now time + result }
    {
        self.dues.due_at(time)
    }
}

/// Puts a job at a place.
fn insert_at(jobs: &mut Front<Job>, dues: &mut Dues, place: usize, job: Job) -> Result<(), Memory>
    requires dues { AreDues dues.old jobs.old }
    requires within { place ≤ length jobs.old }
    requires small { sum_by (λ (j : Job). j.left) jobs.old ≤ 2 ^ 40 }
    ensures dues { AreDues dues.new jobs.new }
    ensures inserted { OnOk result (jobs.new ≡ insert jobs.old place job) }
    ensures stays { OnErr result (jobs.new ≡ jobs.old) }
{
    dues.add(job.dl, job.left)?;
    match put_job(jobs, place, job) {
        Ok(()) => Ok(()),
        Err(memory) => {
            dues.take(job.dl, job.left);
            Err(memory)
        }
    }
}

/// Puts a job at a place of the list.
fn put_job(jobs: &mut Front<Job>, place: usize, job: Job) -> Result<(), Memory>
    requires { place ≤ length jobs.old }
    ensures inserted { OnOk result (jobs.new ≡ insert jobs.old place job) }
    ensures stays { OnErr result (jobs.new ≡ jobs.old) }
{
    jobs.insert(place, job)?;
    Ok(())
}

/// One slot less is due of the job of this key, which stands at this place.
fn run_due(dues: &mut Dues, jobs: &[Job], key: Key, place: Option<usize>)
    requires place { place ≡ position (λ (j : Job). same_key j.key key) jobs.now }
    requires dues { AreDues dues.old jobs.now }
    requires apart { AreApart jobs.now }
    requires some { All (λ (j : Job). 1 ≤ j.left) jobs.now }
    ensures { AreDues dues.new (after_run key jobs.now) }
{
    if let Some(place) = place {
        dues.take(jobs[place].dl, 1);
    }
}

/// The job of this key goes.
fn remove_job(jobs: &mut Front<Job>, dues: &mut Dues, key: Key)
    requires dues { AreDues dues.old jobs.old }
    requires apart { AreApart jobs.old }
    ensures dues { AreDues dues.new jobs.new }
    ensures jobs { jobs.new ≡ filter (λ (j : Job). not (same_key j.key key)) jobs.old }
{
    if let Some(place) = place_of(jobs.items(), key) {
        let job = jobs.remove(place);
        dues.take(job.dl, job.left);
    }
}

/// Whether the two keys are one.
pub(crate) fn is_same_key(a: Key, b: Key) -> bool
    ensures { result ≡ same_key a b }
{
    a == b
}

/// Whether the first job goes before the second: by deadline, then by key.
fn is_earlier(a: &Job, b: &Job) -> bool
    ensures { result ≡ is_earlier a.now b.now }
{
    if a.dl == b.dl {
        a.key < b.key
    } else {
        a.dl < b.dl
    }
}

/// How many jobs at the front go before the job.
fn place_for(jobs: &[Job], job: &Job) -> usize
    ensures count { result ≡ prefix_len (λ (j : Job). is_earlier j job.now) jobs.now }
    ensures within { result ≤ length jobs.now }
{
    jobs.iter()
        .take_while(|other| is_earlier(other, job))
        .count()
}

/// Whether the job of this key remains and may start by this time, and none of its predecessors
/// remains.
pub(crate) fn job_may_run(tasks: &TaskSet, time: u64, jobs: &[Job], key: Key) -> bool
    requires ordered { AreInDeadlineOrder jobs.now }
    requires in_order { AreDueInOrder tasks.now jobs.now }
    ensures { result
        ≡ (list_any (λ (j : Job). same_key j.key key && nat_le j.est time) jobs.now
        && list_all (λ (j : Job). not (precedes tasks.now j.key key)) jobs.now) }
{
    may_start(time, jobs, key) && has_no_predecessor(tasks, jobs, key)
}

/// Whether the job of this key remains and may start by this time.
fn may_start(time: u64, jobs: &[Job], key: Key) -> bool
    ensures { result ≡ list_any (λ (j : Job). same_key j.key key && nat_le j.est time) jobs.now }
{
    jobs.iter().any(|job| starts_by(time, job, key))
}

/// Whether the job has this key and may start by this time.
fn starts_by(time: u64, job: &Job, key: Key) -> bool
    ensures { result ≡ (same_key job.now.key key && nat_le job.now.est time) }
{
    is_same_key(job.key, key) && job.est <= time
}

/// Whether no predecessor of the job of this key remains. The jobs in front of it are looked at,
/// where its task lists one.
fn has_no_predecessor(tasks: &TaskSet, jobs: &[Job], key: Key) -> bool
    requires ordered { AreInDeadlineOrder jobs.now }
    requires in_order { AreDueInOrder tasks.now jobs.now }
    ensures { result ≡ list_all (λ (j : Job). not (precedes tasks.now j.key key)) jobs.now }
{
    lists_none(tasks, key) || none_before(tasks, jobs, key)
}

/// Whether none of the jobs in front of that of this key is a predecessor of it.
fn none_before(tasks: &TaskSet, jobs: &[Job], key: Key) -> bool
    ensures { result
        ≡ list_all
        (λ (j : Job). not (precedes tasks.now j.key key))
        (take (prefix_len (λ (j : Job). not (same_key j.key key)) jobs.now) jobs.now) }
{
    let (before, _others) = jobs.split_at(count_before(jobs, key));
    before.iter().all(|job| !precedes(tasks, job.key, key))
}

/// How many jobs stand in front of that of this key.
fn count_before(jobs: &[Job], key: Key) -> usize
    ensures count { result ≡ prefix_len (λ (j : Job). not (same_key j.key key)) jobs.now }
    ensures within { result ≤ length jobs.now }
{
    jobs.iter()
        .take_while(|job| !is_same_key(job.key, key))
        .count()
}

/// Whether the task of this key lists no predecessor.
fn lists_none(tasks: &TaskSet, key: Key) -> bool
    ensures { result ≡ true → (before : PairKey) → precedes tasks.now before key ≡ false }
{
    match key {
        Key::Offline(graph, task, _) => task_lists_none(tasks, graph, task),
        _ => true,
    }
}

/// Whether a task of the graph of this index lists no predecessor.
fn task_lists_none(tasks: &TaskSet, graph: u16, task: u16) -> bool
    ensures { result ≡ true → after_of (tasks_of tasks.now graph) task ≡ [] }
{
    match tasks.graphs.items().get(usize::from(graph)) {
        Some(graph) => afters(graph.tasks.items(), task).is_empty(),
        None => true,
    }
}

/// Whether the first job is a direct predecessor of the second.
fn precedes(tasks: &TaskSet, before: Key, after: Key) -> bool
    ensures { result ≡ precedes tasks.now before after }
{
    match (before, after) {
        (Key::Offline(graph, p, i), Key::Offline(other, t, j)) => {
            graph == other && is_instance_before(tasks, other, p, i, t, j)
        }
        _ => false,
    }
}

/// Whether the instances of two tasks of a graph are the same, and the second task lists the first.
fn is_instance_before(tasks: &TaskSet, graph: u16, p: u16, i: u64, t: u16, j: u64) -> bool
    ensures { result ≡ (i == j && comes_after (tasks_of tasks.now graph) t p) }
{
    i == j && comes_after(tasks, graph, t, p)
}

/// Whether a task of the graph of this index lists another among its direct predecessors.
fn comes_after(tasks: &TaskSet, graph: u16, task: u16, before: u16) -> bool
    ensures { result ≡ comes_after (tasks_of tasks.now graph) task before }
{
    match tasks.graphs.items().get(usize::from(graph)) {
        Some(graph) => lists(graph.tasks.items(), task, before),
        None => false,
    }
}

/// Whether the task of this index lists another among its direct predecessors.
fn lists(tasks: &[Task], task: u16, before: u16) -> bool
    ensures { result ≡ comes_after tasks.now task before }
{
    afters(tasks, task).iter().any(|other| *other == before)
}

/// The direct predecessors that the task of this index lists.
fn afters(tasks: &[Task], task: u16) -> &[u16]
    ensures { result.now ≡ after_of tasks.now task }
{
    match tasks.get(usize::from(task)) {
        Some(task) => task.after.items(),
        None => &[],
    }
}

/// One slot of the job of this key, which stands at this place, has run: it goes where that was its
/// last one.
fn run_job(jobs: &mut Front<Job>, key: Key, place: Option<usize>)
    requires place { place ≡ position (λ (j : Job). same_key j.key key) jobs.old }
    requires apart { AreApart jobs.old }
    requires some { All (λ (j : Job). 1 ≤ j.left) jobs.old }
    ensures { jobs.new ≡ after_run key jobs.old }
{
    if let Some(place) = place {
        let job = jobs.items()[place];
        if job.left > 1 {
            jobs.set(place, one_less(job));
        } else {
            let _ended = jobs.remove(place);
        }
    }
}

/// The job with a slot less.
fn one_less(job: Job) -> Job
    requires { 1 ≤ job.left }
    ensures { result ≡ record job { left = job.left - 1 } }
{
    Job {
        left: job.left - 1,
        ..job
    }
}

/// The place of the job of this key.
fn place_of(jobs: &[Job], key: Key) -> Option<usize>
    ensures { result ≡ position (λ (j : Job). same_key j.key key) jobs.now }
{
    jobs.iter().position(|job| is_same_key(job.key, key))
}

/// The slots left of the job of this key, where it has started.
pub(crate) fn started_left(jobs: &[Job], key: Key) -> Option<u32>
    ensures { result
        ≡ option_map
        (λ (j : Job). j.left)
        (find (λ (j : Job). nat_lt j.left j.declared && same_key j.key key) jobs.now) }
{
    let job = jobs.iter().find(|job| is_started(job, key))?;
    Some(job.left)
}

/// Whether the job has started and has this key.
fn is_started(job: &Job, key: Key) -> bool
    ensures { result ≡ (nat_lt job.now.left job.now.declared && same_key job.now.key key) }
{
    job.left < job.declared && is_same_key(job.key, key)
}

/// The slots left of the job of this key.
pub(crate) fn left_of(jobs: &[Job], key: Key) -> Option<u32>
    ensures { result
        ≡ option_map
        (λ (j : Job). j.left)
        (find (λ (j : Job). same_key j.key key) jobs.now) }
{
    let job = jobs.iter().find(|job| is_same_key(job.key, key))?;
    Some(job.left)
}

/// The first of these jobs in deadline order, where it is past its deadline.
pub(crate) fn first_late(jobs: &[Job], time: u64) -> Option<Job>
    requires { AreInDeadlineOrder jobs.now }
    ensures { result ≡ earliest (filter (λ (j : Job). nat_le j.dl time) jobs.now) }
{
    let job = jobs.first()?;
    if job.dl <= time { Some(*job) } else { None }
}
