//! A queue of jobs in three parts.

ghost use Rattle.std.specs.Prelude.{◌≡◌, ℕ, ◌+◌, ◌-◌, ◌<◌, ◌≤◌, ◌^◌, ◌&&◌, [], ◌∷◌, ◌++◌, false, true, nat_le, nat_lt, not, filter, find, fold, length, count_by, position, remove, reverse, slice_get, slice_index_or, None, Some, IfOk, IfSome, IsTrue};
ghost use Rattle.std.specs.List.Sorted.{IsNonDecreasingBy};
ghost use Rattle.std.specs.Option.{option_copied};
ghost use Rattle.std.specs.VecDeque.{deque_capacity, deque_len};
ghost use Rattle.slot_core.specs.declared.jobs.Job.{Job};
ghost use Rattle.slot_core.specs.Offline.Keys.{is_earlier, is_soft, same_key};
ghost use Rattle.slot_core.specs.Runs.Choice.{earlier_of, earliest, ready};
ghost use Rattle.slot_core.specs.Runs.Matches.{HaveSameItems};
ghost use Rattle.slot_core.specs.Claims.Safety.{after_run};
ghost use Rattle.job_queue.specs.Starts.{first_start_within, sooner, starts_within};
ghost use Rattle.job_queue.specs.Queues.{IsEarliestLast, IsQueue, IsReadyPlace, after_run_at, search_steps};

use crate::marked::MarkedJobs;
use crate::order::{earlier_of, goes_before, has_key, is_earlier, sooner, starts_within};
use slot_core::{Job, Key, Memory, Steps};
use std::alloc::Global;
use std::collections::VecDeque;
use std::marker::Model;
use std::sync::ledger::Ledger;

/// Of the jobs that have come, how many of the last are looked at one by one for the place of
/// another.
const LAST_FEW: usize = 16;

/// Guaranteed jobs that have slots left to run, no two of one key. Contracts see them as a list,
/// and with it how many jobs the queue has places for, at most 2^20. All times are in slots.
///
/// The listed jobs stand in order of start. A job that starts no earlier than the last of them is
/// listed behind it, where one more has a place there; each other job stands beside, in no order.
/// `come` takes jobs that may start out of both, and puts them in order of earliest deadline first.
/// Places are reserved when the queue is made: beside and for those that have come as many as for
/// all jobs, and in the list as many as were asked for. So no later call takes memory.
///
/// A step is a job that is looked at. A search for a key looks at the jobs beside first, then at
/// those that have come and at the listed ones from the front, and stops at the job of that key. A
/// search among the jobs that may start passes those that have come where none has the mark of the
/// key: a small number that each of them is counted by.
#[derive(Drop)]
pub struct JobQueue {
    beside: Vec<Job>,
    come: MarkedJobs,
    listed: VecDeque<Job>,
    capacity: u32,
}

impl Model for JobQueue {
    ghost use Rattle.std.specs.Prelude.{◌++◌, reverse, vec_capacity};
    ghost use Rattle.job_queue.specs.Queues.{KeepsQueue, QueueParts};

    ghost Value = { QueueParts };

    ghost view = { λ q. record {
      jobs = q.beside.items ++ reverse q.come.items ++ q.listed.items;
      capacity = q.capacity;
    } };

    ghost invariant = { λ q. KeepsQueue q.beside.items q.come.items q.listed.items q.capacity
        (vec_capacity q.beside) q.come.places };
}

impl JobQueue {
    /// An empty queue with places for `n` jobs, all of which may stand listed.
    pub fn with_capacity(alloc: Global, n: u32) -> Result<JobQueue, Memory>
        requires some { 1 ≤ n }
        requires few { n ≤ 2 ^ 20 }
        ensures { IfOk result (λ made. made ≡ record { jobs = []; capacity = n }) }
    {
        JobQueue::with_listed(alloc, n, n as usize)
    }

    /// An empty queue with places for `n` jobs, of which so many may stand listed: fewer than all
    /// where no more are listed at a time, so that jobs which pass through the list touch less
    /// memory. Only this call and `with_capacity` take memory: that of the places, and 2 KB of marks.
    pub fn with_listed(alloc: Global, n: u32, listed: usize) -> Result<JobQueue, Memory>
        requires some { 1 ≤ n }
        requires few { n ≤ 2 ^ 20 }
        ensures { IfOk result (λ made. made ≡ record { jobs = []; capacity = n }) }
    {
        Ok(JobQueue {
            beside: Vec::with_capacity(alloc, n as usize)?,
            come: MarkedJobs::with_capacity(alloc, n as usize)?,
            listed: VecDeque::with_capacity(alloc, listed)?,
            capacity: n,
        })
    }

    /// How many jobs there are. This call also tells what every queue is.
    pub fn len(&self) -> u32
        ensures count { result ≡ length self.now.jobs }
        ensures queue { IsQueue self.now }
    {
        (self.beside.len() + self.come.len() + self.listed.len()) as u32
    }

    /// How many jobs it has places for.
    pub fn capacity(&self) -> u32
        ensures { result ≡ self.now.capacity }
    {
        self.capacity
    }

    /// The job with so many others before it. One step.
    pub fn at<L: Ledger>(&self, i: u32, steps: &mut Steps<L>) -> Job
        requires { i < length self.now.jobs }
        ensures job { slice_get self.now.jobs i ≡ Some result }
        ensures one_step { steps.new ≡ steps.old + 1 }
    {
        steps.tick();
        *self.job(i as usize)
    }

    /// Adds a job. One step: it looks at the last listed job, where one more may be listed.
    pub fn insert<L: Ledger>(&mut self, job: Job, steps: &mut Steps<L>)
        requires free { length self.old.jobs < self.old.capacity }
        requires fresh { count_by (λ j. same_key j.key job.key) self.old.jobs ≡ 0 }
        requires guaranteed { is_soft job.key ≡ false }
        requires left { 1 ≤ job.left }
        ensures jobs { HaveSameItems self.new.jobs (self.old.jobs ++ job ∷ []) }
        ensures capacity { self.new.capacity ≡ self.old.capacity }
        ensures one_step { steps.new ≡ steps.old + 1 }
    {
        steps.tick();
        if has_place(&self.listed) && starts_last(&self.listed, &job) {
            self.listed.push_back_reserved(job);
        } else {
            self.beside.push_reserved(job);
        }
    }

    /// Slot `now` has come: listed jobs that may start by then are put in order, and those beside
    /// up to one that may not, so that `earliest` and `ran` look at the earliest first. The jobs
    /// stay. One step a job looked at.
    pub fn come<L: Ledger>(&mut self, now: u64, steps: &mut Steps<L>)
        ensures jobs { HaveSameItems self.new.jobs self.old.jobs }
        ensures capacity { self.new.capacity ≡ self.old.capacity }
        ensures steps { steps.old ≤ steps.new }
    {
        for _ in 0..self.capacity {
            if !self.beside_comes(now, steps) && !self.listed_comes(now, steps) {
                break;
            }
        }
    }

    /// The last job beside comes, where it may start by `now`.
    fn beside_comes<L: Ledger>(&mut self, now: u64, steps: &mut Steps<L>) -> bool
        ensures jobs { HaveSameItems self.new.jobs self.old.jobs }
        ensures capacity { self.new.capacity ≡ self.old.capacity }
        ensures steps { steps.old ≤ steps.new }
    {
        let Some(last) = self.beside.last() else {
            return false;
        };
        steps.tick();
        if now < last.est {
            return false;
        }
        put_in_order(&mut self.come, last, steps);
        self.beside.pop();
        true
    }

    /// The first listed job comes, where it may start by `now`.
    fn listed_comes<L: Ledger>(&mut self, now: u64, steps: &mut Steps<L>) -> bool
        ensures jobs { HaveSameItems self.new.jobs self.old.jobs }
        ensures capacity { self.new.capacity ≡ self.old.capacity }
        ensures steps { steps.old ≤ steps.new }
    {
        let Some(first) = self.listed.front() else {
            return false;
        };
        steps.tick();
        if now < first.est {
            return false;
        }
        put_in_order(&mut self.come, first, steps);
        self.listed.pop_front();
        true
    }

    /// The job that earliest deadline first runs in slot `now`. None exactly where no job may start
    /// by then. One step a job looked at: those beside, those that have come up to the first that
    /// may start, and the listed ones up to the first that starts later. Where none stands beside
    /// and `come` has put all in order that may start, these are two at most.
    #[inline(always)]
    pub fn earliest<L: Ledger>(&self, now: u64, steps: &mut Steps<L>) -> Option<Job>
        ensures job { result ≡ earliest (ready now self.now.jobs) }
        ensures steps { steps.old ≤ steps.new }
        ensures few_steps { steps.new ≤ steps.old + length self.now.jobs }
    {
        if let Some(first) = first_come(&self.beside, self.come.jobs(), &self.listed, now, steps) {
            return Some(*first);
        }
        self.earliest_of_all(now, steps)
    }

    /// The same, where all that may be it are looked at.
    #[inline(never)]
    fn earliest_of_all<L: Ledger>(&self, now: u64, steps: &mut Steps<L>) -> Option<Job>
        ensures job { result ≡ earliest (ready now self.now.jobs) }
        ensures steps { steps.old ≤ steps.new }
        ensures few_steps { steps.new ≤ steps.old + length self.now.jobs }
    {
        let best = earliest_of(&self.beside, now, steps);
        let best = earliest_come(best, self.come.jobs(), now, steps);
        earliest_listed(best, &self.listed, now, steps).copied()
    }

    /// The job of this key. None exactly where there is none. One step a job looked at.
    pub fn find<L: Ledger>(&self, key: Key, steps: &mut Steps<L>) -> Option<Job>
        ensures job { result ≡ find (λ j. same_key j.key key) self.now.jobs }
        ensures steps { steps.new ≡ steps.old + search_steps key self.now.jobs }
        ensures few_steps { steps.new ≤ steps.old + length self.now.jobs }
    {
        let place = self.place_of(key, steps)?;
        Some(*self.job(place))
    }

    /// The first start after `now` and before `until` of the jobs that go before this one by
    /// earliest deadline first, or of all jobs where none is given. None exactly where no such job
    /// starts between. One step a job looked at: those beside, those that have come up to the first
    /// that does not go before that one, and the listed ones up to the first that is such a job or
    /// starts at `until` or later.
    pub fn next_start<L: Ledger>(
        &self,
        now: u64,
        until: u64,
        other: Option<&Job>,
        steps: &mut Steps<L>,
    ) -> Option<u64>
        ensures start { result
            ≡ first_start_within now until (option_copied other.entry) self.now.jobs }
        ensures steps { steps.old ≤ steps.new }
        ensures few_steps { steps.new ≤ steps.old + length self.now.jobs }
    {
        let start = first_start(None, &self.beside, now, until, other, steps);
        let start = first_come_start(start, self.come.jobs(), now, until, other, steps);
        first_listed(start, &self.listed, now, until, other, steps)
    }

    /// The job of this key, where it may start by `now`. None exactly where no such job has it. One
    /// step a job looked at: those beside, those that have come where one of them has the mark of
    /// the key, and the listed ones up to the first that starts later.
    pub fn find_ready<L: Ledger>(&self, now: u64, key: Key, steps: &mut Steps<L>) -> Option<Job>
        ensures job { result ≡ find (λ j. same_key j.key key) (ready now self.now.jobs) }
        ensures steps { steps.old ≤ steps.new }
        ensures few_steps { steps.new ≤ steps.old + length self.now.jobs }
    {
        let place = self.place_ready(now, key, steps)?;
        Some(*self.job(place))
    }

    /// One slot has run of the job of this key. It goes where that was its last one. One step a job
    /// looked at.
    #[inline(always)]
    pub fn ran<L: Ledger>(&mut self, key: Key, steps: &mut Steps<L>)
        requires present { 1 ≤ count_by (λ j. same_key j.key key) self.old.jobs }
        ensures jobs { HaveSameItems self.new.jobs (after_run key self.old.jobs) }
        ensures capacity { self.new.capacity ≡ self.old.capacity }
        ensures steps { steps.new ≡ steps.old + search_steps key self.old.jobs }
        ensures few_steps { steps.new ≤ steps.old + length self.old.jobs }
    {
        if self.is_first(key) {
            steps.tick();
            self.run_found(key, 0);
        } else {
            self.run_later(key, steps);
        }
    }

    /// The same, where the job is looked for.
    #[inline(never)]
    fn run_later<L: Ledger>(&mut self, key: Key, steps: &mut Steps<L>)
        requires present { 1 ≤ count_by (λ j. same_key j.key key) self.old.jobs }
        ensures jobs { HaveSameItems self.new.jobs (after_run key self.old.jobs) }
        ensures capacity { self.new.capacity ≡ self.old.capacity }
        ensures steps { steps.new ≡ steps.old + search_steps key self.old.jobs }
    {
        if let Some(place) = self.place_of(key, steps) {
            self.run_found(key, place);
        }
    }

    /// Whether the job of this key is the last of those that have come, and none stands beside:
    /// then it is the first of all. This call also tells what every queue is.
    #[inline(always)]
    fn is_first(&self, key: Key) -> bool
        ensures place { result ≡ true → position (λ j. same_key j.key key) self.now.jobs ≡ Some 0 }
        ensures queue { IsQueue self.now }
    {
        if !self.beside.is_empty() {
            return false;
        }
        match self.come.jobs().last() {
            Some(job) => has_key(job, key),
            None => false,
        }
    }

    /// One slot has run of the job of this key, which is at this place. It goes where that was its
    /// last one.
    #[inline(always)]
    fn run_found(&mut self, key: Key, place: usize)
        requires place { position (λ j. same_key j.key key) self.old.jobs ≡ Some place }
        requires queue { IsQueue self.old }
        ensures jobs { HaveSameItems self.new.jobs (after_run key self.old.jobs) }
        ensures capacity { self.new.capacity ≡ self.old.capacity }
    {
        if self.job(place).left > 1 {
            self.run_at(place);
        } else {
            self.remove(place);
        }
    }

    /// Removes the job of this key, and returns it. None exactly where there is none. One step a
    /// job looked at.
    pub fn take<L: Ledger>(&mut self, key: Key, steps: &mut Steps<L>) -> Option<Job>
        ensures job { result ≡ find (λ j. same_key j.key key) self.old.jobs }
        ensures jobs { HaveSameItems self.new.jobs
            (filter (λ j. not (same_key j.key key)) self.old.jobs) }
        ensures none { result ≡ None → self.new ≡ self.old }
        ensures capacity { self.new.capacity ≡ self.old.capacity }
        ensures steps { steps.new ≡ steps.old + search_steps key self.old.jobs }
        ensures few_steps { steps.new ≤ steps.old + length self.old.jobs }
    {
        let place = self.place_of(key, steps)?;
        self.remove(place)
    }

    /// Removes the job of this key, where it may start by `now`, and returns it. None exactly where
    /// no such job has it. One step a job looked at: those beside, those that have come where one
    /// of them has the mark of the key, and the listed ones up to the first that starts later.
    pub fn take_ready<L: Ledger>(&mut self, now: u64, key: Key, steps: &mut Steps<L>) -> Option<Job>
        ensures job { result ≡ find (λ j. same_key j.key key) (ready now self.old.jobs) }
        ensures jobs { (job : Job) → result ≡ Some job → HaveSameItems self.new.jobs
            (filter (λ j. not (same_key j.key key)) self.old.jobs) }
        ensures none { result ≡ None → self.new ≡ self.old }
        ensures capacity { self.new.capacity ≡ self.old.capacity }
        ensures steps { steps.old ≤ steps.new }
        ensures few_steps { steps.new ≤ steps.old + length self.old.jobs }
    {
        let found = self.place_ready(now, key, steps)?;
        self.remove(found)
    }

    /// The place of the job of this key, where it may start by `now`. This call also tells what
    /// every queue is.
    fn place_ready<L: Ledger>(&self, now: u64, key: Key, steps: &mut Steps<L>) -> Option<usize>
        ensures place { IsReadyPlace now key self.now.jobs result }
        ensures queue { IsQueue self.now }
        ensures steps { steps.old ≤ steps.new }
        ensures few_steps { steps.new ≤ steps.old + length self.now.jobs }
    {
        if let Some(place) = place_beside(&self.beside, now, key, steps) {
            return Some(place);
        }
        let beside = self.beside.len();
        if let Some(place) = place_come(&self.come, now, key, steps) {
            return Some(beside + place);
        }
        let place = place_listed(&self.listed, now, key, steps)?;
        Some(beside + self.come.len() + place)
    }

    /// The place of the job of this key. This call also tells what every queue is.
    fn place_of<L: Ledger>(&self, key: Key, steps: &mut Steps<L>) -> Option<usize>
        ensures place { result ≡ position (λ j. same_key j.key key) self.now.jobs }
        ensures queue { IsQueue self.now }
        ensures steps { steps.new ≡ steps.old + search_steps key self.now.jobs }
    {
        for place in 0..self.len() as usize {
            steps.tick();
            if has_key(self.job(place), key) {
                return Some(place);
            }
        }
        None
    }

    /// The job at this place: those beside stand first, then those that have come.
    #[inline(always)]
    fn job(&self, place: usize) -> &Job
        requires { place < length self.now.jobs }
        ensures { result.now ≡ slice_index_or self.now.jobs place result.now }
    {
        let beside = self.beside.len();
        if place < beside {
            return &self.beside[place];
        }
        let come = self.come.len();
        if place - beside < come {
            from_end(self.come.jobs(), place - beside)
        } else {
            &self.listed[place - beside - come]
        }
    }

    /// One slot has run of the job at this place, which has another left.
    #[inline(always)]
    fn run_at(&mut self, place: usize)
        requires within { place < length self.old.jobs }
        requires more { (d : Job) → 1 < (slice_index_or self.old.jobs place d).left }
        ensures jobs { self.new.jobs ≡ after_run_at place self.old.jobs }
        ensures capacity { self.new.capacity ≡ self.old.capacity }
    {
        let beside = self.beside.len();
        if place < beside {
            self.beside[place].left -= 1;
            return;
        }
        let come = self.come.len();
        if place - beside < come {
            self.come.run(come - 1 - (place - beside));
        } else {
            self.listed[place - beside - come].left -= 1;
        }
    }

    /// Removes the job at this place. Beside, the last job takes its place.
    #[inline(always)]
    fn remove(&mut self, place: usize) -> Option<Job>
        requires within { place < length self.old.jobs }
        ensures job { (d : Job) → result ≡ Some (slice_index_or self.old.jobs place d) }
        ensures jobs { HaveSameItems self.new.jobs (remove self.old.jobs place) }
        ensures capacity { self.new.capacity ≡ self.old.capacity }
    {
        let beside = self.beside.len();
        if place < beside {
            return Some(self.beside.swap_remove(place));
        }
        let come = self.come.len();
        if place - beside < come {
            Some(self.come.remove(come - 1 - (place - beside)))
        } else {
            self.listed.remove(place - beside - come)
        }
    }
}

/// Whether one more job may be listed.
fn has_place(listed: &VecDeque<Job>) -> bool
    ensures { IsTrue result → deque_len listed.now < deque_capacity listed.now }
{
    listed.len() < listed.capacity()
}

/// Whether the job starts no earlier than each of these, which stand in order of start.
fn starts_last(listed: &VecDeque<Job>, job: &Job) -> bool
    requires { IsNonDecreasingBy (λ j. j.est) listed.now.items }
    ensures { IsTrue result
        → IsNonDecreasingBy (λ j. j.est) (listed.now.items ++ job.now ∷ []) }
{
    listed.back().is_none_or(|last| last.est <= job.est)
}

/// The job that earliest deadline first runs in slot `now`, where it is told by two looks: the last
/// of those that have come may start, none stands beside, and no listed job may start. One step a
/// job looked at, and none where it is not told: the walk that comes then counts them.
#[inline(always)]
fn first_come<'a, L: Ledger>(
    beside: &[Job],
    come: &'a [Job],
    listed: &VecDeque<Job>,
    now: u64,
    steps: &mut Steps<L>,
) -> Option<&'a Job>
    requires latest_first { IsEarliestLast come.now }
    requires ordered { IsNonDecreasingBy (λ j. j.est) listed.now.items }
    ensures job { IfSome result (λ first. Some first.now
        ≡ earliest (ready now (beside.now ++ reverse come.now ++ listed.now.items))) }
    ensures none { result ≡ None → steps.new ≡ steps.old }
    ensures steps { steps.old ≤ steps.new }
    ensures few_steps { steps.new ≤ steps.old + length come.now + length listed.now.items }
    ensures two_steps { steps.new ≤ steps.old + 2 }
{
    if !beside.is_empty() {
        return None;
    }
    let first = come.last()?;
    if now < first.est || !start_later(listed, now) {
        return None;
    }
    steps.tick();
    if !listed.is_empty() {
        steps.tick();
    }
    Some(first)
}

/// True only where none of these, which stand in order of start, may start by `now`.
#[inline(always)]
fn start_later(listed: &VecDeque<Job>, now: u64) -> bool
    requires { IsNonDecreasingBy (λ j. j.est) listed.now.items }
    ensures { result ≡ true → ready now listed.now.items ≡ [] }
{
    match listed.front() {
        Some(next) => now < next.est,
        None => true,
    }
}

/// The job of these that earliest deadline first runs in slot `now`. One step a job.
fn earliest_of<'a, L: Ledger>(jobs: &'a [Job], now: u64, steps: &mut Steps<L>) -> Option<&'a Job>
    ensures job { option_copied result ≡ earliest (ready now jobs.now) }
    ensures steps { steps.new ≡ steps.old + length jobs.now }
{
    let mut best = None;
    for job in jobs {
        steps.tick();
        if job.est <= now {
            best = earlier_of(best, job);
        }
    }
    best
}

/// The place of the job of this key among these, where it may start by `now`. One step a job looked
/// at.
fn place_beside<L: Ledger>(jobs: &[Job], now: u64, key: Key, steps: &mut Steps<L>) -> Option<usize>
    ensures place { IsReadyPlace now key jobs.now result }
    ensures steps { steps.old ≤ steps.new }
    ensures few_steps { steps.new ≤ steps.old + length jobs.now }
{
    for place in 0..jobs.len() {
        let job = &jobs[place];
        steps.tick();
        if is_ready(job, now, key) {
            return Some(place);
        }
    }
    None
}

/// The same among those that have come, counted from the last. None is looked at where none has the
/// mark of the key.
fn place_come<L: Ledger>(
    come: &MarkedJobs,
    now: u64,
    key: Key,
    steps: &mut Steps<L>,
) -> Option<usize>
    ensures place { IsReadyPlace now key (reverse come.now.items) result }
    ensures steps { steps.old ≤ steps.new }
    ensures few_steps { steps.new ≤ steps.old + length come.now.items }
{
    if come.may_have(key) {
        place_from_end(come.jobs(), now, key, steps)
    } else {
        None
    }
}

/// The same among these, counted from the last.
fn place_from_end<L: Ledger>(
    jobs: &[Job],
    now: u64,
    key: Key,
    steps: &mut Steps<L>,
) -> Option<usize>
    ensures place { IsReadyPlace now key (reverse jobs.now) result }
    ensures steps { steps.old ≤ steps.new }
    ensures few_steps { steps.new ≤ steps.old + length jobs.now }
{
    for place in 0..jobs.len() {
        let job = from_end(jobs, place);
        steps.tick();
        if is_ready(job, now, key) {
            return Some(place);
        }
    }
    None
}

/// The same among these, which stand in order of start: they are looked at up to the first that
/// starts later.
fn place_listed<L: Ledger>(
    listed: &VecDeque<Job>,
    now: u64,
    key: Key,
    steps: &mut Steps<L>,
) -> Option<usize>
    requires { IsNonDecreasingBy (λ j. j.est) listed.now.items }
    ensures place { IsReadyPlace now key listed.now.items result }
    ensures steps { steps.old ≤ steps.new }
    ensures few_steps { steps.new ≤ steps.old + length listed.now.items }
{
    for place in 0..listed.len() {
        let job = &listed[place];
        steps.tick();
        if now < job.est {
            return None;
        }
        if has_key(job, key) {
            return Some(place);
        }
    }
    None
}

/// Whether the job has this key, and may start by `now`.
fn is_ready(job: &Job, now: u64, key: Key) -> bool
    ensures { result ≡ (same_key job.now.key key && nat_le job.now.est now) }
{
    has_key(job, key) && job.est <= now
}

/// Puts the job among these, of which the one that earliest deadline first takes first stands last.
/// One step a job looked at.
#[inline(always)]
fn put_in_order<L: Ledger>(come: &mut MarkedJobs, job: &Job, steps: &mut Steps<L>)
    requires order { IsEarliestLast come.old.items }
    requires place { length come.old.items < come.old.places }
    ensures jobs { HaveSameItems come.new.items (come.old.items ++ job.now ∷ []) }
    ensures order { IsEarliestLast come.new.items }
    ensures places { come.old.places ≤ come.new.places }
    ensures steps { steps.old ≤ steps.new }
{
    let place = place_in_order(come.jobs(), job, steps);
    come.insert(place, job);
}

/// The place of the job among these, of which the one that earliest deadline first takes first
/// stands last: it goes before the one that stands there then, and not before the next. Mostly that
/// is near the end, so the last few are looked at one by one, and a search halves the others. One
/// step a job looked at.
fn place_in_order<L: Ledger>(come: &[Job], job: &Job, steps: &mut Steps<L>) -> usize
    requires order { IsEarliestLast come.now }
    ensures within { result ≤ length come.now }
    ensures behind { (i : ℕ) (d : Job) → result ≤ i → i < length come.now
        → is_earlier (slice_index_or come.now i d) job.now ≡ true }
    ensures before { (d : Job) → 1 ≤ result
        → is_earlier (slice_index_or come.now (result - 1) d) job.now ≡ false }
    ensures steps { steps.old ≤ steps.new }
{
    let count = come.len();
    for behind in 0..count.min(LAST_FEW) {
        let place = count - behind;
        steps.tick();
        if !is_earlier(&come[place - 1], job) {
            return place;
        }
    }
    place_before(come, count.saturating_sub(LAST_FEW), job, steps)
}

/// The same, where the job goes before each from this place on. The search halves the others.
#[inline(never)]
fn place_before<L: Ledger>(come: &[Job], end: usize, job: &Job, steps: &mut Steps<L>) -> usize
    requires order { IsEarliestLast come.now }
    requires end { end ≤ length come.now }
    requires beyond { (i : ℕ) (d : Job) → end ≤ i → i < length come.now
        → is_earlier (slice_index_or come.now i d) job.now ≡ true }
    ensures within { result ≤ length come.now }
    ensures behind { (i : ℕ) (d : Job) → result ≤ i → i < length come.now
        → is_earlier (slice_index_or come.now i d) job.now ≡ true }
    ensures before { (d : Job) → 1 ≤ result
        → is_earlier (slice_index_or come.now (result - 1) d) job.now ≡ false }
    ensures steps { steps.old ≤ steps.new }
{
    let mut low = 0;
    let mut high = end;
    while low < high {
        let middle = low + (high - low) / 2;
        steps.tick();
        if is_earlier(&come[middle], job) {
            high = middle;
        } else {
            low = middle + 1;
        }
    }
    low
}

/// The one of this job and these, of which the one that earliest deadline first takes first stands
/// last, that it runs in slot `now`. One step a job, from the last up to one that may start.
fn earliest_come<'a, L: Ledger>(
    best: Option<&'a Job>,
    come: &'a [Job],
    now: u64,
    steps: &mut Steps<L>,
) -> Option<&'a Job>
    requires { IsEarliestLast come.now }
    ensures job { option_copied result
        ≡ fold earlier_of (option_copied best.entry) (ready now (reverse come.now)) }
    ensures steps { steps.old ≤ steps.new }
    ensures few_steps { steps.new ≤ steps.old + length come.now }
{
    for behind in 0..come.len() {
        let job = from_end(come, behind);
        steps.tick();
        if job.est <= now {
            return earlier_of(best, job);
        }
    }
    best
}

/// The job with so many behind it.
fn from_end(jobs: &[Job], behind: usize) -> &Job
    requires { behind < length jobs.now }
    ensures { result.now ≡ slice_index_or (reverse jobs.now) behind result.now }
{
    &jobs[jobs.len() - 1 - behind]
}

/// The one of this job and these, which stand in order of start, that earliest deadline first runs
/// in slot `now`. One step a job, up to the first that starts later.
fn earliest_listed<'a, L: Ledger>(
    best: Option<&'a Job>,
    listed: &'a VecDeque<Job>,
    now: u64,
    steps: &mut Steps<L>,
) -> Option<&'a Job>
    requires { IsNonDecreasingBy (λ j. j.est) listed.now.items }
    ensures job { option_copied result
        ≡ fold earlier_of (option_copied best.entry) (ready now listed.now.items) }
    ensures steps { steps.old ≤ steps.new }
    ensures few_steps { steps.new ≤ steps.old + length listed.now.items }
{
    let mut best = best;
    for job in listed {
        steps.tick();
        if now < job.est {
            break;
        }
        best = earlier_of(best, job);
    }
    best
}

/// The first of this start and those after `now` and before `until` of these jobs that go before
/// the other one. One step a job.
fn first_start<L: Ledger>(
    start: Option<u64>,
    jobs: &[Job],
    now: u64,
    until: u64,
    other: Option<&Job>,
    steps: &mut Steps<L>,
) -> Option<u64>
    ensures start { result
        ≡ fold
        sooner
        start
        (filter (starts_within now until (option_copied other.entry)) jobs.now) }
    ensures steps { steps.new ≡ steps.old + length jobs.now }
{
    let mut first = start;
    for job in jobs {
        steps.tick();
        if starts_within(job, now, until, other) {
            first = sooner(first, job);
        }
    }
    first
}

/// The same of these, of which the one that earliest deadline first takes first stands last. One
/// step a job, from the last up to one that does not go before the other one.
fn first_come_start<L: Ledger>(
    start: Option<u64>,
    come: &[Job],
    now: u64,
    until: u64,
    other: Option<&Job>,
    steps: &mut Steps<L>,
) -> Option<u64>
    requires { IsEarliestLast come.now }
    ensures start { result
        ≡ fold
        sooner
        start
        (filter (starts_within now until (option_copied other.entry)) (reverse come.now)) }
    ensures steps { steps.old ≤ steps.new }
    ensures few_steps { steps.new ≤ steps.old + length come.now }
{
    let mut first = start;
    for behind in 0..come.len() {
        let job = from_end(come, behind);
        steps.tick();
        if !goes_before(job, other) {
            break;
        }
        if starts_within(job, now, until, other) {
            first = sooner(first, job);
        }
    }
    first
}

/// The same of these, which stand in order of start. One step a job, up to the first that is one of
/// those or starts at `until` or later.
fn first_listed<L: Ledger>(
    start: Option<u64>,
    listed: &VecDeque<Job>,
    now: u64,
    until: u64,
    other: Option<&Job>,
    steps: &mut Steps<L>,
) -> Option<u64>
    requires { IsNonDecreasingBy (λ j. j.est) listed.now.items }
    ensures start { result
        ≡ fold
        sooner
        start
        (filter (starts_within now until (option_copied other.entry)) listed.now.items) }
    ensures steps { steps.old ≤ steps.new }
    ensures few_steps { steps.new ≤ steps.old + length listed.now.items }
    ensures soon { steps.new
        ≤ steps.old + count_by (λ j. nat_lt j.est until) listed.now.items + 1 }
{
    for job in listed {
        steps.tick();
        if until <= job.est {
            return start;
        }
        if starts_within(job, now, until, other) {
            return sooner(start, job);
        }
    }
    start
}
