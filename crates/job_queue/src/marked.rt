//! Jobs with marks of their keys.

ghost use Rattle.std.specs.Prelude.{◌≡◌, ℕ, ◌+◌, ◌-◌, ◌<◌, ◌≤◌, [], false, count_by, insert, length, remove, slice_index_or, vec_capacity, IfOk};
ghost use Rattle.slot_core.specs.declared.jobs.Job.{Job};
ghost use Rattle.slot_core.specs.Offline.Keys.{same_key};
ghost use Rattle.job_queue.specs.declared.marked.TheConstants.{COUNT_LIMIT, MARK_COUNT};
ghost use Rattle.job_queue.specs.Marks.{key_mark};
ghost use Rattle.job_queue.specs.Queues.{after_run_at};

use slot_core::{Job, Key, Memory, TASK_LIMIT};
use std::alloc::Global;
use std::marker::Model;

/// How many marks there are for tasks.
const TASK_MARKS: usize = 1024;

/// How many marks there are for rows of arrivals.
const ROW_MARKS: usize = 1024;

/// How many marks there are.
const MARK_COUNT: usize = TASK_MARKS + ROW_MARKS;

/// A count that has come to this stays there, and tells nothing.
const COUNT_LIMIT: u8 = 255;

/// Some jobs, and of each mark how many of them have it. The mark of a key is a small number that
/// other keys may share, so a key has no job here where its mark has none. Places for the jobs are
/// reserved when they are made, so no later call takes memory.
#[derive(Drop)]
pub(crate) struct MarkedJobs {
    jobs: Vec<Job>,
    counts: Vec<u8>,
}

impl Model for MarkedJobs {
    ghost use Rattle.std.specs.Prelude.{vec_capacity};
    ghost use Rattle.job_queue.specs.Marks.{AreCounted, PlacedJobs};

    ghost Value = { PlacedJobs };

    ghost view = { λ m. record { items = m.jobs.items; places = vec_capacity m.jobs } };

    ghost invariant = { λ m. AreCounted m.jobs.items m.counts.items };
}

impl MarkedJobs {
    /// No jobs, with places for `n`. Only this call takes memory: that of the places, and 2 KB of
    /// marks.
    pub(crate) fn with_capacity(alloc: Global, n: usize) -> Result<MarkedJobs, Memory>
        ensures empty { IfOk result (λ made. made.items ≡ []) }
        ensures places { IfOk result (λ made. n ≤ made.places) }
    {
        Ok(MarkedJobs {
            jobs: Vec::with_capacity(alloc, n)?,
            counts: vec![in alloc; 0u8; MARK_COUNT]?,
        })
    }

    /// How many jobs there are.
    pub(crate) fn len(&self) -> usize
        ensures { result ≡ length self.now.items }
    {
        self.jobs.len()
    }

    /// The jobs.
    pub(crate) fn jobs(&self) -> &[Job]
        ensures { result.now ≡ self.now.items }
    {
        &self.jobs
    }

    /// Whether one of the jobs may have this key. Where not, none has it.
    pub(crate) fn may_have(&self, key: Key) -> bool
        ensures { result ≡ false → count_by (λ j. same_key j.key key) self.now.items ≡ 0 }
    {
        self.counts[key_mark(key)] > 0
    }

    /// Puts a job at a place.
    pub(crate) fn insert(&mut self, place: usize, job: &Job)
        requires within { place ≤ length self.old.items }
        requires free { length self.old.items < self.old.places }
        ensures items { self.new.items ≡ insert self.old.items place job.now }
        ensures places { self.old.places ≤ self.new.places }
    {
        let mark = key_mark(job.key);
        self.counts[mark] = one_more(self.counts[mark]);
        insert_at(&mut self.jobs, place, job);
    }

    /// Takes out the job at a place.
    #[inline(always)]
    pub(crate) fn remove(&mut self, place: usize) -> Job
        requires within { place < length self.old.items }
        ensures value { result ≡ slice_index_or self.old.items place result }
        ensures items { self.new.items ≡ remove self.old.items place }
        ensures places { self.new.places ≡ self.old.places }
    {
        let job = remove_at(&mut self.jobs, place);
        let mark = key_mark(job.key);
        self.counts[mark] = one_less(self.counts[mark]);
        job
    }

    /// One slot has run of the job at a place, which has another left.
    pub(crate) fn run(&mut self, place: usize)
        requires within { place < length self.old.items }
        requires more { (d : Job) → 1 < (slice_index_or self.old.items place d).left }
        ensures items { self.new.items ≡ after_run_at place self.old.items }
        ensures places { self.new.places ≡ self.old.places }
    {
        self.jobs[place].left -= 1;
    }
}

/// Puts a job at a place: behind all, or where others stand from the place on, before them.
fn insert_at(jobs: &mut Vec<Job>, place: usize, job: &Job)
    requires within { place ≤ length jobs.old.items }
    requires free { length jobs.old.items < vec_capacity jobs.old }
    ensures items { jobs.new.items ≡ insert jobs.old.items place job.now }
    ensures capacity { vec_capacity jobs.new ≡ vec_capacity jobs.old }
{
    let count = jobs.len();
    jobs.push_reserved(*job);
    if place < count {
        let moved = &mut jobs[place..];
        moved.copy_within(0..count - place, 1);
        moved[0] = *job;
    }
}

/// Takes out the job at a place. Mostly it is the last, and none has to move.
#[inline(always)]
fn remove_at(jobs: &mut Vec<Job>, place: usize) -> Job
    requires { place < length jobs.old.items }
    ensures value { result ≡ slice_index_or jobs.old.items place result }
    ensures items { jobs.new.items ≡ remove jobs.old.items place }
    ensures places { vec_capacity jobs.new ≡ vec_capacity jobs.old }
{
    if place + 1 == jobs.len() {
        let job = jobs[place];
        jobs.truncate(place);
        job
    } else {
        remove_inside(jobs, place)
    }
}

/// The same, where others move.
#[inline(never)]
fn remove_inside(jobs: &mut Vec<Job>, place: usize) -> Job
    requires { place < length jobs.old.items }
    ensures value { result ≡ slice_index_or jobs.old.items place result }
    ensures items { jobs.new.items ≡ remove jobs.old.items place }
    ensures places { vec_capacity jobs.new ≡ vec_capacity jobs.old }
{
    jobs.remove(place)
}

/// The mark of a key.
fn key_mark(key: Key) -> usize
    ensures mark { result ≡ key_mark key }
    ensures few { result < MARK_COUNT }
{
    match key {
        Key::Offline(graph, task, _) => {
            (TASK_LIMIT * graph as usize + task as usize) % TASK_MARKS
        }
        Key::Sporadic(_, row) | Key::Firm(row) | Key::Soft(row) => {
            TASK_MARKS + row as usize % ROW_MARKS
        }
    }
}

/// A count and one more, where it still tells something.
fn one_more(count: u8) -> u8
    ensures { result < COUNT_LIMIT → result ≡ count + 1 }
{
    count.saturating_add(1)
}

/// A count and one less, where it tells something.
fn one_less(count: u8) -> u8
    ensures { result < COUNT_LIMIT → (count < COUNT_LIMIT) × (result ≡ count - 1) }
{
    if count == COUNT_LIMIT {
        return count;
    }
    count.saturating_sub(1)
}
