//! A checker: the scene of the lines so far.

ghost use Rattle.std.specs.Prelude.{◌≡◌, ◌+◌, ◌*◌, ◌≤◌, ◌<◌, ◌^◌, ◌++◌, ◌/◌, ◌%◌, ℕ, map, find, true, length, sum_by, All, IfOk, OnOk};
ghost use Rattle.std.specs.Option.{option_map};
ghost use Rattle.slot_core.specs.declared.TheConstants.{CYCLES_LIMIT, SLOT_LIMIT};
ghost use Rattle.slot_core.specs.declared.jobs.Job.{Job};
ghost use Rattle.slot_core.specs.declared.jobs.Span.{Span};
ghost use Rattle.slot_core.specs.declared.jobs.Key.{Key as PairKey};
ghost use Rattle.slot_core.specs.Claims.Lawful.{may_run};
ghost use Rattle.slot_core.specs.Claims.Safety.{after_slot};
ghost use Rattle.slot_core.specs.Keeping.Kept.{AreApart};
ghost use Rattle.slot_core.specs.Keeping.Plans.{AreInDeadlineOrder, IsPlan};
ghost use Rattle.slot_core.specs.Offline.Keys.{row_of, same_key};
ghost use Rattle.slot_core.specs.Offline.OfflineJobs.{later_job};
ghost use Rattle.slot_core.specs.Runs.Answers.{answer, done_answer, firm_answer, soft_answer, sporadic_answer, started_jobs, withdraw_answer};
ghost use Rattle.slot_core.specs.Runs.Arrivals.{event_may_come};
ghost use Rattle.slot_core.specs.Runs.Matches.{IsSameScene};
ghost use Rattle.slot_core.specs.Runs.Spans.{shown_of};
ghost use Rattle.scene_steps.specs.Steps.{after_ran, bare_scene, first_scene, one_slot_later, scene_after, soft_after_slot, with_job, with_next_cycle, without};
ghost use Rattle.sporadic_reserve.specs.Reserves.{without_name};
ghost use Rattle.trace_verify.specs.Checked.{AreDueInOrder, IsChecked};
ghost use Rattle.trace_verify.specs.Verdicts.{first_late};

use crate::front::Front;
use crate::jobs::{JobList, first_late, job_may_run, left_of, started_left};
use crate::offers::offer_answer;
use crate::points::{insert_point, pass_point};
use crate::shown::shown;
use crate::soft::{remove_soft, run_soft, soft_may_run, started_soft_left};
use cycle_plan::Plan;
use slot_core::{
    Arrival, Done, Event, Firm, Gone, Job, Key, Memory, Ran, Shown, Soft, SoftJob, Spo, TaskSet,
    What,
};
use sporadic_reserve::Reserve;
use std::alloc::Global;
use std::marker::Model;

/// What a checker keeps of the lines so far: the time, the remaining jobs in deadline order, the
/// next legal arrivals of the sporadic tasks, the soft jobs that wait, and the points to come.
#[derive(Drop)]
pub struct Checker {
    alloc: Global,
    at: u64,
    jobs: JobList,
    reserve: Reserve,
    soft: Vec<SoftJob>,
    points: Front<u64>,
}

impl Model for Checker {
    ghost use Rattle.slot_core.specs.Keeping.Plans.{AreInDeadlineOrder};
    ghost use Rattle.trace_verify.specs.Checked.{Checked};

    ghost Value = { Checked };

    ghost view = { λ c. record {
      scene = record {
        time = c.at;
        jobs = c.jobs;
        nexts = c.reserve.nexts;
        soft = c.soft.items;
        points = c.points;
      };
      sporadics = c.reserve.sporadics;
    } };

    ghost invariant = { λ c. AreInDeadlineOrder c.jobs };
}

impl Checker {
    /// The checker before the first slot.
    pub fn start(alloc: Global, plan: &Plan) -> Result<Checker, Memory>
        ensures scene { IfOk result (λ checker.
            IsSameScene checker.scene (first_scene plan.now.tasks plan.now.cycle)) }
        ensures tasks { IfOk result (λ checker.
            checker.sporadics ≡ map without_name plan.now.tasks.sporadics) }
    {
        let mut checker = Checker::bare(alloc, plan);
        checker.append_first(plan)?;
        Ok(checker)
    }

    /// The first three cycles come in.
    fn append_first(&mut self, plan: &Plan) -> Result<(), Memory>
        requires plan { IsPlan plan.now }
        requires bare { self.old.scene ≡ bare_scene plan.now.tasks }
        ensures scene { OnOk result (IsSameScene
            self.new.scene
            (first_scene plan.now.tasks plan.now.cycle)) }
        ensures tasks { self.new.sporadics ≡ self.old.sporadics }
    {
        self.append_cycle(plan, 0)?;
        self.append_cycle(plan, 1)?;
        self.append_cycle(plan, 2)?;
        Ok(())
    }

    /// The checker at time 0 without a job.
    fn bare(alloc: Global, plan: &Plan) -> Checker
        ensures plan { IsPlan plan.now }
        ensures scene { result.scene ≡ bare_scene plan.now.tasks }
        ensures tasks { result.sporadics ≡ map without_name plan.now.tasks.sporadics }
    {
        Checker {
            alloc,
            at: 0,
            jobs: JobList::new(alloc),
            reserve: Reserve::new(plan.tasks().sporadics.items()),
            soft: Vec::new(alloc),
            points: Front::new(alloc),
        }
    }

    /// The jobs and the points of a cycle come in after those of the cycles before it.
    fn append_cycle(&mut self, plan: &Plan, n: u64) -> Result<(), Memory>
        requires few { n ≤ CYCLES_LIMIT }
        requires small { sum_by (λ (j : Job). j.left) self.old.scene.jobs ≤ 2 ^ 38 }
        requires earlier { All (λ (j : Job). j.dl ≤ n * plan.now.cycle) self.old.scene.jobs }
        ensures tasks { self.new.sporadics ≡ self.old.sporadics }
        ensures made { OnOk result (self.new
            ≡ record self.old {
              scene = record self.old.scene {
                jobs = self.old.scene.jobs
                    ++ map (later_job plan.now.tasks plan.now.cycle n) plan.now.jobs;
                points = self.old.scene.points
                    ++ map (λ (s : Span). s.end + n * plan.now.cycle) plan.now.spans;
              };
            }) }
    {
        push_jobs(&mut self.jobs, plan, n)?;
        push_points(&mut self.points, plan, n)
    }

    /// The time: how many slots have passed.
    pub fn time(&self) -> u64
        ensures { result ≡ self.now.scene.time }
    {
        self.at
    }

    /// The first spans.
    pub fn shown(&self, tasks: &TaskSet, cycle: u32) -> Result<Shown, Memory>
        requires cycle { cycle ≤ SLOT_LIMIT }
        requires checked { IsChecked tasks.now cycle self.now.scene }
        ensures { IfOk result (λ shown. shown ≡ shown_of cycle self.now.scene) }
    {
        shown(self.alloc, self.at, self.points.items(), &self.jobs)
    }

    /// Whether this may run in the slot.
    pub fn may_run(&self, tasks: &TaskSet, ran: Ran) -> bool
        requires { AreDueInOrder tasks.now self.now.scene.jobs }
        ensures { result ≡ may_run tasks.now self.now.scene ran }
    {
        match ran {
            Ran::Idle => true,
            Ran::Key(key) => {
                job_may_run(tasks, self.at, self.jobs.items(), key) || soft_may_run(&self.soft, key)
            }
        }
    }

    /// The first of the remaining jobs that are past their deadline.
    pub fn first_late(&self) -> Option<Job>
        ensures { result ≡ first_late self.now.scene }
    {
        first_late(self.jobs.items(), self.at)
    }

    /// A slot passes, in which this runs.
    pub fn pass(&mut self, plan: &Plan, ran: Ran) -> Result<(), Memory>
        requires { IsChecked plan.now.tasks plan.now.cycle self.old.scene }
        ensures scene { OnOk result (IsSameScene
            self.new.scene
            (after_ran plan.now.tasks plan.now.cycle ran self.old.scene)) }
        ensures tasks { self.new.sporadics ≡ self.old.sporadics }
    {
        self.run_slot(plan.tasks(), plan.cycle(), ran);
        self.turn(plan)
    }

    /// One slot later, in which this ran.
    fn run_slot(&mut self, tasks: &TaskSet, cycle: u32, ran: Ran)
        requires { IsChecked tasks.now cycle self.old.scene }
        ensures { self.new ≡ record self.old { scene = one_slot_later ran self.old.scene } }
    {
        self.run(ran);
        pass_point(&mut self.points, self.at);
        self.at += 1;
    }

    /// This runs.
    fn run(&mut self, ran: Ran)
        requires apart { AreApart self.old.scene.jobs }
        requires some { All (λ (j : Job). 1 ≤ j.left) self.old.scene.jobs }
        ensures { self.new
            ≡ record self.old {
              scene = record self.old.scene {
                jobs = after_slot ran self.old.scene.jobs;
                soft = soft_after_slot ran self.old.scene.soft;
              };
            } }
    {
        if let Ran::Key(key) = ran {
            self.jobs.run(key);
            run_soft(&mut self.soft, key);
        }
    }

    /// Where the time is the start of a cycle, the third cycle from there on comes in.
    fn turn(&mut self, plan: &Plan) -> Result<(), Memory>
        requires early { self.old.scene.time ≤ 2 ^ 32 + 1 }
        requires small { sum_by (λ (j : Job). j.left) self.old.scene.jobs ≤ 2 ^ 36 }
        requires earlier { self.old.scene.time % plan.now.cycle ≡ 0
            → All
            (λ (j : Job). j.dl ≤ (self.old.scene.time / plan.now.cycle + 2) * plan.now.cycle)
            self.old.scene.jobs }
        ensures scene { OnOk result (IsSameScene
            self.new.scene
            (with_next_cycle plan.now.tasks plan.now.cycle self.old.scene)) }
        ensures tasks { self.new.sporadics ≡ self.old.sporadics }
    {
        let cycle = u64::from(plan.cycle());
        let time = self.time();
        if time % cycle == 0 {
            self.append_cycle(plan, time / cycle + 2)?;
        }
        Ok(())
    }

    /// The answer to an arrival, after which the checker is in the next scene.
    pub fn answer(&mut self, plan: &Plan, arrival: Arrival) -> Result<What, Memory>
        requires checked { IsChecked plan.now.tasks plan.now.cycle self.old.scene }
        requires tasks { self.old.sporadics ≡ map without_name plan.now.tasks.sporadics }
        requires may_come { event_may_come plan.now.tasks arrival.event ≡ true }
        requires fresh { All (λ (j : Job). row_of j.key < arrival.row) self.old.scene.jobs }
        ensures told { IfOk result (λ what. what
            ≡ answer plan.now.tasks plan.now.cycle self.old.scene arrival.row arrival.event) }
        ensures scene { IfOk result (λ what. IsSameScene
            self.new.scene
            (scene_after plan.now.tasks plan.now.cycle what self.old.scene)) }
        ensures tasks { self.new.sporadics ≡ self.old.sporadics }
    {
        let row = arrival.row;
        match arrival.event {
            Event::Soft(slots) => Ok(What::Soft(row, slots, self.take_soft(plan, row, slots)?)),
            Event::Firm(slots, within) => {
                let answer = self.take_firm(plan, row, slots, within)?;
                Ok(What::Firm(row, slots, within, answer))
            }
            Event::Sporadic(index) => {
                let answer = self.take_sporadic(plan, row, index)?;
                Ok(What::Sporadic(row, index, answer))
            }
            Event::Done(key) => Ok(What::Done(row, key, self.end_job(key))),
            Event::Withdraw(firm) => Ok(What::Withdraw(row, firm, self.take_back(firm))),
        }
    }

    /// Soft work of so many slots arrives in this row.
    fn take_soft(&mut self, plan: &Plan, row: u32, slots: u32) -> Result<Soft, Memory>
        ensures told { IfOk result (λ a. a
            ≡ soft_answer plan.now.tasks.soft_limit self.old.scene) }
        ensures scene { IfOk result (λ a. self.new.scene
            ≡ scene_after plan.now.tasks plan.now.cycle (What.Soft row slots a) self.old.scene) }
        ensures tasks { self.new.sporadics ≡ self.old.sporadics }
    {
        let limit = plan.tasks().soft_limit;
        if self.soft.len() == limit as usize {
            return Ok(Soft::Full(limit));
        }
        self.soft.push(SoftJob {
            row,
            left: slots,
            declared: slots,
        })?;
        Ok(Soft::Taken)
    }

    /// A firm task of so many slots arrives in this row, due within so many from now.
    fn take_firm(&mut self, plan: &Plan, row: u32, slots: u32, within: u32) -> Result<Firm, Memory>
        requires checked { IsChecked plan.now.tasks plan.now.cycle self.old.scene }
        requires tasks { self.old.sporadics ≡ map without_name plan.now.tasks.sporadics }
        requires fresh { All (λ (j : Job). row_of j.key < row) self.old.scene.jobs }
        ensures told { IfOk result (λ a. a
            ≡ firm_answer plan.now.tasks.sporadics plan.now.cycle self.old.scene slots within) }
        ensures scene { IfOk result (λ a. IsSameScene
            self.new.scene
            (scene_after
            plan.now.tasks
            plan.now.cycle
            (What.Firm row slots within a)
            self.old.scene)) }
        ensures tasks { self.new.sporadics ≡ self.old.sporadics }
    {
        let answer = offer_answer(
            &self.jobs,
            &self.reserve,
            self.at,
            plan.cycle(),
            slots,
            within,
        );
        if let Firm::Accepted = answer {
            self.accept(Job {
                key: Key::Firm(row),
                est: self.at,
                dl: self.at + u64::from(within),
                left: slots,
                declared: slots,
            })?;
        }
        Ok(answer)
    }

    /// A job of the sporadic task of this index arrives in this row.
    fn take_sporadic(&mut self, plan: &Plan, row: u32, index: u8) -> Result<Spo, Memory>
        requires early { self.old.scene.time ≤ 2 ^ 32 }
        requires small { sum_by (λ (j : Job). j.left) self.old.scene.jobs ≤ 2 ^ 36 }
        requires tasks { self.old.sporadics ≡ map without_name plan.now.tasks.sporadics }
        requires named { index < length plan.now.tasks.sporadics }
        requires fresh { All (λ (j : Job). row_of j.key < row) self.old.scene.jobs }
        ensures told { IfOk result (λ a. a
            ≡ sporadic_answer plan.now.tasks.sporadics self.old.scene index) }
        ensures scene { IfOk result (λ a. IsSameScene
            self.new.scene
            (scene_after
            plan.now.tasks
            plan.now.cycle
            (What.Sporadic row index a)
            self.old.scene)) }
        ensures stays { self.new.sporadics ≡ self.old.sporadics }
    {
        match self.reserve.arrive(index, self.at) {
            Err(next) => Ok(Spo::Soon(next)),
            Ok(due) => {
                let wcet = plan.sporadics()[usize::from(index)].wcet;
                self.accept(Job {
                    key: Key::Sporadic(index, row),
                    est: self.at,
                    dl: due,
                    left: wcet,
                    declared: wcet,
                })?;
                Ok(Spo::Taken(due))
            }
        }
    }

    /// The job comes in, and its deadline is a point.
    fn accept(&mut self, job: Job) -> Result<(), Memory>
        requires fresh { All (λ (j : Job). row_of j.key < row_of job.key) self.old.scene.jobs }
        requires small { sum_by (λ (j : Job). j.left) self.old.scene.jobs ≤ 2 ^ 36 }
        ensures scene { OnOk result (IsSameScene self.new.scene (with_job job self.old.scene)) }
        ensures tasks { self.new.sporadics ≡ self.old.sporadics }
    {
        self.jobs.insert(job)?;
        insert_point(&mut self.points, job.dl)?;
        Ok(())
    }

    /// The job of this key ends early, where it has started.
    fn end_job(&mut self, key: Key) -> Done
        requires { AreApart self.old.scene.jobs }
        ensures told { result ≡ done_answer self.old.scene key }
        ensures ended { (n : ℕ) → result ≡ Done.Freed n
            → self.new ≡ record self.old { scene = without key self.old.scene } }
        ensures stays { result ≡ Done.NotRunning → self.new ≡ self.old }
    {
        match self.started_left(key) {
            Some(left) => {
                self.remove(key);
                Done::Freed(left)
            }
            None => Done::NotRunning,
        }
    }

    /// The slots left of the job of this key, where it has started.
    fn started_left(&self, key: Key) -> Option<u32>
        ensures { result
            ≡ option_map
            (λ (j : PairKey × ℕ). j.1)
            (find (λ (j : PairKey × ℕ). same_key j.0 key) (started_jobs self.now.scene)) }
    {
        match started_left(self.jobs.items(), key) {
            Some(left) => Some(left),
            None => started_soft_left(&self.soft, key),
        }
    }

    /// The firm job of this row is taken back, where it remains.
    fn take_back(&mut self, firm: u32) -> Gone
        requires { AreApart self.old.scene.jobs }
        ensures told { result ≡ withdraw_answer self.old.scene firm }
        ensures ended { (n : ℕ) → result ≡ Gone.Freed n
            → self.new ≡ record self.old { scene = without (Key.Firm firm) self.old.scene } }
        ensures stays { result ≡ Gone.NoJob → self.new ≡ self.old }
    {
        let key = Key::Firm(firm);
        match left_of(self.jobs.items(), key) {
            Some(left) => {
                self.remove(key);
                Gone::Freed(left)
            }
            None => Gone::NoJob,
        }
    }

    /// The job of this key goes.
    fn remove(&mut self, key: Key)
        requires { AreApart self.old.scene.jobs }
        ensures { self.new ≡ record self.old { scene = without key self.old.scene } }
    {
        self.jobs.remove(key);
        remove_soft(&mut self.soft, key);
    }
}

/// Appends the plan's jobs of a cycle to jobs that are due by its start.
fn push_jobs(jobs: &mut JobList, plan: &Plan, n: u64) -> Result<(), Memory>
    requires few { n ≤ CYCLES_LIMIT }
    requires small { sum_by (λ (j : Job). j.left) jobs.old ≤ 2 ^ 38 }
    requires earlier { All (λ (j : Job). j.dl ≤ n * plan.now.cycle) jobs.old }
    requires ordered { AreInDeadlineOrder jobs.old }
    ensures made { OnOk result (jobs.new
        ≡ jobs.old ++ map (later_job plan.now.tasks plan.now.cycle n) plan.now.jobs) }
    ensures ordered { AreInDeadlineOrder jobs.new }
{
    for i in 0..plan.jobs().len() {
        jobs.push(plan.job_in_cycle(i, n))?;
    }
    Ok(())
}

/// Appends the plan's points of a cycle.
fn push_points(points: &mut Front<u64>, plan: &Plan, n: u64) -> Result<(), Memory>
    requires { n ≤ CYCLES_LIMIT }
    ensures { OnOk result (points.new
        ≡ points.old ++ map (λ (s : Span). s.end + n * plan.now.cycle) plan.now.spans) }
{
    let by = n * u64::from(plan.cycle());
    for span in plan.spans() {
        points.push(span.end + by)?;
    }
    Ok(())
}
