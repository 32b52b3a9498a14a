//! The executive and its events.

ghost use Rattle.std.specs.Prelude.{◌≡◌, ◌≢◌, ◌↔◌, ◌⊎◌, ℕ, ◌+◌, ◌*◌, ◌≤◌, ◌<◌, pos, ◌≤ℤ◌, [], Some, IfOk, IsTrue, true, Contains, count_by, length, map, slice_get, slice_index, slice_set};
ghost use Rattle.slot_core.specs.declared.TheConstants.{OFFER_LIMIT, TIME_LIMIT};
ghost use Rattle.slot_core.specs.declared.events.Event.{Event};
ghost use Rattle.slot_core.specs.declared.events.Ran.{Ran};
ghost use Rattle.slot_core.specs.declared.events.What.{What};
ghost use Rattle.slot_core.specs.declared.jobs.Job.{Job};
ghost use Rattle.slot_core.specs.declared.jobs.Key.{Key};
ghost use Rattle.slot_core.specs.Runs.Answers.{done_answer, firm_answer, soft_answer, sporadic_answer, withdraw_answer};
ghost use Rattle.slot_core.specs.Runs.Choice.{choice};
ghost use Rattle.slot_core.specs.declared.jobs.Evidence.{Evidence};
ghost use Rattle.slot_core.specs.Runs.Demand.{HasRoom};
ghost use Rattle.slot_exec.specs.Ahead.{TellsAhead, TellsOtherAfter};
ghost use Rattle.slot_exec.specs.Offers.{ShowsNoRoomForOffer};
ghost use Rattle.slot_core.specs.Keeping.Executives.{Does, IsKept, Shows, StandsFor, StandsForSome};
ghost use Rattle.slot_core.specs.Claims.Futures.{OfferIsExact};
ghost use Rattle.slot_core.specs.Runs.Histories.{History};
ghost use Rattle.slot_core.specs.Runs.Arrivals.{key_in_set};
ghost use Rattle.slot_core.specs.Runs.Matches.{HaveSameItems};
ghost use Rattle.slot_core.specs.Offline.Keys.{same_key};
ghost use Rattle.slot_core.specs.Keeping.Plans.{IsPlan};
ghost use Rattle.slot_core.specs.Runs.Scenes.{remaining, scene_of};
ghost use Rattle.slot_core.specs.Runs.ShownSpans.{others_of};
ghost use Rattle.slot_core.specs.Runs.Spans.{shown_of, spans_of};
ghost use Rattle.spare_capacity.specs.Recurrence.{first_spare};
ghost use Rattle.slot_core.specs.Runs.Traces.{arrive, slot, started, told_of_slot};
ghost use Rattle.interval_row.specs.Changes.{ends_before};
ghost use Rattle.scene_steps.specs.Steps.{separation_of};
ghost use Rattle.sporadic_reserve.specs.Reserves.{without_name};

#[cfg(test)]
mod test_sets;
#[cfg(test)]
mod tests;

use crate::ahead::slots_of;
use crate::cycles::{first_jobs, pass};
use crate::ends::end_early;
use crate::offers::{admit, answer_offer, offered};
use crate::rooms::{Remembered, after_slot, due_told, due_with, free_beside};
use crate::runs::{choose, run};
use crate::shown::first_spans;
use crate::sporadic_arrivals::{arriving_job, take_arrival};
use crate::withdrawals::take_back;
use circular_buffer::HeapCircularBuffer;
use cycle_plan::Plan;
use interval_row::SpareTable;
use job_queue::JobQueue;
use slot_core::{
    Done, Firm, Gone, Job, Key, Memory, Ran, SHOWN_LIMIT, Shown, Soft, SoftJob, Span, Spo, Steps,
    TaskSet, What,
};
use sporadic_reserve::Reserve;
use std::alloc::Global;
use std::marker::Model;
use std::sync::ledger::Ledger;

/// Follows a plan slot by slot, and answers arrivals, over any table of spans.
///
/// Contracts see the plan, the scene and the row of the last arrival. The executive always stands
/// for some legal history: each call tells what the definitions tell at every history for which it
/// stands, and stands for the longer one afterwards. `start` takes all memory, and no later call
/// takes any. What a search has told of the room for soft work is remembered, and the next search
/// comes where that does not decide.
#[derive(Drop)]
pub struct Exec<T: SpareTable> {
    plan: Plan,
    table: T,
    reserve: Reserve,
    queue: JobQueue,
    soft: HeapCircularBuffer<SoftJob>,
    last_row: u32,
    free: u64,
    tight: u64,
    due: u64,
}

impl<T: SpareTable> Model for Exec<T> {
    ghost use Rattle.slot_core.specs.Keeping.Executives.{Executive};
    ghost use Rattle.slot_exec.specs.Parts.{executive, IsExecutive};

    ghost Value = { Executive };

    ghost view = { λ e. executive
        e.plan
        (T.time e.table)
        (T.spans e.table)
        e.queue.jobs
        e.reserve.nexts
        e.soft.items
        e.last_row };

    ghost invariant = { λ e. IsExecutive
        (executive
        e.plan
        (T.time e.table)
        (T.spans e.table)
        e.queue.jobs
        e.reserve.nexts
        e.soft.items
        e.last_row)
        (T.spans e.table)
        e.reserve.sporadics
        (T.limit e.table)
        e.queue.capacity
        e.soft.capacity
        (record { free = e.free; tight = e.tight; due = e.due }) };
}

impl<T: SpareTable> Exec<T> {
    /// The executive of a plan before the first slot. It takes room for three cycles of spans and
    /// of jobs, and for the soft jobs that may wait.
    pub fn start(alloc: Global, plan: Plan) -> Result<Exec<T>, Memory>
        ensures plan { IfOk result (λ exec. exec.plan ≡ plan) }
        ensures stands { IfOk result (λ exec. StandsFor exec []) }
        ensures started { IfOk result (λ exec. StandsFor exec started) }
    {
        let cycle = plan.cycle();
        let table = T::with_room(alloc, plan.spans(), 3, 3 * cycle + 1)?;
        let reserve = Reserve::new(plan.sporadics());
        let queue = first_jobs(alloc, &plan)?;
        let soft = HeapCircularBuffer::with_capacity(alloc, plan.tasks().soft_limit as usize)?;
        Ok(Exec {
            plan,
            table,
            reserve,
            queue,
            soft,
            last_row: 0,
            free: 0,
            tight: 0,
            due: 0,
        })
    }

    /// The time: how many slots have passed. This call also tells what every executive keeps.
    pub fn now(&self) -> u64
        ensures time { result ≡ self.now.scene.time }
        ensures kept { IsKept self.now }
        ensures stands { StandsForSome self.now }
        ensures early { result ≤ TIME_LIMIT }
        ensures few_jobs { length self.now.scene.jobs ≤ 3 * self.now.plan.cycle }
        ensures spare { pos 0 ≤ℤ first_spare (spans_of self.now.plan.cycle self.now.scene) }
    {
        self.table.time()
    }

    /// The row of the last arrival, 0 before the first.
    pub fn last_row(&self) -> u32
        ensures { result ≡ self.now.last_row }
    {
        self.last_row
    }

    /// The task set of its plan.
    pub fn tasks(&self) -> &TaskSet
        ensures tasks { result.now ≡ self.now.plan.tasks }
        ensures plan { IsPlan self.now.plan }
    {
        self.plan.tasks()
    }

    /// How many slots a cycle of its plan has.
    pub fn cycle(&self) -> u32
        ensures { result ≡ self.now.plan.cycle }
    {
        self.plan.cycle()
    }

    /// How many guaranteed jobs remain. They are the remaining jobs of every history for which the
    /// executive stands.
    pub fn job_count(&self) -> u32
        ensures count { result ≡ length self.now.scene.jobs }
        ensures few { result ≤ 3 * self.now.plan.cycle }
        ensures of_history { (h : History) → StandsFor self.now h → HaveSameItems
            self.now.scene.jobs
            (remaining self.now.plan.tasks self.now.plan.cycle h) }
    {
        self.queue.len()
    }

    /// The remaining job with so many others before it, in no order. One step.
    pub fn job<L: Ledger>(&self, i: u32, steps: &mut Steps<L>) -> Job
        requires { i < length self.now.scene.jobs }
        ensures job { slice_get self.now.scene.jobs i ≡ Some result }
        ensures named { key_in_set self.now.plan.tasks result.key ≡ true }
        ensures one_step { steps.new ≡ steps.old + 1 }
    {
        self.queue.at(i, steps)
    }

    /// How many soft jobs wait: at most the limit of its task set.
    pub fn soft_count(&self) -> u32
        ensures count { result ≡ length self.now.scene.soft }
        ensures few { result ≤ self.now.plan.tasks.soft_limit }
    {
        self.soft.len() as u32
    }

    /// The soft job that waits behind so many others, with the slots that it has left; none where
    /// fewer wait.
    pub fn soft_job(&self, i: u32) -> Option<SoftJob>
        ensures { result ≡ slice_get self.now.scene.soft i }
    {
        self.soft.get(i as usize).copied()
    }

    /// The next legal arrival of each sporadic task, and what they may still ask for.
    pub fn reserve(&self) -> &Reserve
        ensures nexts { result.now.nexts ≡ self.now.scene.nexts }
        ensures sporadics { result.now.sporadics ≡ map without_name self.now.plan.tasks.sporadics }
    {
        &self.reserve
    }

    /// How many spans there are up to the horizon: at least one, and at most three cycles of them.
    pub fn span_count(&self) -> u32
        ensures count { result ≡ length (spans_of self.now.plan.cycle self.now.scene) }
        ensures points { result ≡ length self.now.scene.points }
        ensures some { 1 ≤ result }
        ensures few { result ≤ 3 * self.now.plan.cycle }
    {
        self.table.count()
    }

    /// The span at this place, with its work and its spare capacity, as it is at each history for
    /// which the executive stands. One step: no other span is read.
    pub fn span<L: Ledger>(&self, i: u32, steps: &mut Steps<L>) -> Span
        requires { i < length self.now.scene.points }
        ensures span { slice_get (spans_of self.now.plan.cycle self.now.scene) i ≡ Some result }
        ensures of_history { (h : History) → StandsFor self.now h → slice_get
            (spans_of self.now.plan.cycle (scene_of self.now.plan.tasks self.now.plan.cycle h))
            i
            ≡ Some result }
        ensures one_step { steps.new ≡ steps.old + 1 }
    {
        self.table.read(self.table.spot(i), steps)
    }

    /// The first spans, as many as an entry shows, or all where there are fewer. One step each.
    pub fn shown<L: Ledger>(&self, steps: &mut Steps<L>) -> Shown
        ensures shows { Shows self.now result }
        ensures shown { result ≡ shown_of self.now.plan.cycle self.now.scene }
        ensures steps { steps.old ≤ steps.new }
        ensures few_steps { steps.new ≤ steps.old + SHOWN_LIMIT }
    {
        first_spans(&self.table, steps)
    }

    /// The same, written into this place. It does nothing else, so that they are written there at
    /// once: a copy costs a third of the reading.
    #[inline(never)]
    pub fn shown_in<L: Ledger>(&self, shown: &mut Shown, steps: &mut Steps<L>)
        ensures shows { Shows self.now shown.new }
        ensures few_steps { steps.new ≤ steps.old + SHOWN_LIMIT }
        ensures steps { steps.old ≤ steps.new }
    {
        *shown = self.shown(steps);
    }

    /// Soft work of `c` slots arrives in this row. Full(n) exactly where n soft jobs wait and n is
    /// the limit.
    pub fn soft(&mut self, row: u32, c: u32) -> Soft
        requires later { self.old.last_row < row }
        requires some { 1 ≤ c }
        requires few { c ≤ OFFER_LIMIT }
        ensures does { Does self.old self.new (arrive row (Event.Soft c)) (What.Soft row c result) }
        ensures answer { result ≡ soft_answer self.old.plan.tasks.soft_limit self.old.scene }
        ensures full { (n : ℕ) → result ≡ Soft.Full n
            → self.new ≡ record self.old { last_row = row } }
        ensures row { self.new.last_row ≡ row }
        ensures time { self.new.scene.time ≡ self.old.scene.time }
    {
        self.last_row = row;
        if self.soft.is_full() {
            return Soft::Full(self.plan.tasks().soft_limit);
        }
        self.soft.push_back(SoftJob {
            row,
            left: c,
            declared: c,
        });
        Soft::Taken
    }

    /// A firm task of `c` slots arrives in this row, due within `d` slots from now. Late where d is
    /// 0; else Far where d is more than a cycle; else NoRoom exactly where its slots do not fit
    /// beside the remaining jobs and the densest sporadic arrivals, up to the least time that shows
    /// it; else Accepted: then its job is guaranteed. Without sporadic tasks, and over a counted
    /// table, an accepted offer takes at most five steps a span that ends before its deadline, and
    /// 13.
    pub fn firm<L: Ledger>(&mut self, row: u32, c: u32, d: u32, steps: &mut Steps<L>) -> Firm
        requires later { self.old.last_row < row }
        requires some { 1 ≤ c }
        requires few { c ≤ OFFER_LIMIT }
        requires near { d ≤ OFFER_LIMIT }
        ensures does { Does
            self.old
            self.new
            (arrive row (Event.Firm c d))
            (What.Firm row c d result) }
        ensures answer { result
            ≡ firm_answer self.old.plan.tasks.sporadics self.old.plan.cycle self.old.scene c d }
        ensures late { (result ≡ Firm.Late) ↔ (d ≡ 0) }
        ensures far { (result ≡ Firm.Far) ↔ (self.old.plan.cycle < d) }
        ensures no_room { 1 ≤ d → d ≤ self.old.plan.cycle
            → (((e : Evidence) × (result ≡ Firm.NoRoom e))
            ↔ ¬ (HasRoom self.old.plan.tasks.sporadics self.old.plan.cycle self.old.scene c d)) }
        ensures evidence { (e : Evidence) → result ≡ Firm.NoRoom e → ShowsNoRoomForOffer
            self.old.plan.tasks.sporadics self.old.plan.cycle self.old.scene c d e }
        ensures exact { (h : History) → StandsFor self.old h
            → OfferIsExact self.old.plan.tasks self.old.plan.cycle h c d result }
        ensures stays { result ≢ Firm.Accepted → self.new ≡ record self.old { last_row = row } }
        ensures no_steps { (d ≡ 0) ⊎ (self.old.plan.cycle < d) → steps.new ≡ steps.old }
        ensures row { self.new.last_row ≡ row }
        ensures time { self.new.scene.time ≡ self.old.scene.time }
        ensures steps { steps.old ≤ steps.new }
        ensures few_steps { IsTrue T.counted → self.old.plan.tasks.sporadics ≡ []
            → result ≡ Firm.Accepted
            → steps.new
            ≤ steps.old
            + 5 * ends_before
            (self.old.scene.time + d)
            (spans_of self.old.plan.cycle self.old.scene)
            + 13 }
    {
        self.last_row = row;
        let cycle = self.plan.cycle();
        let answer = answer_offer(&self.table, &self.reserve, cycle, c, d, steps);
        if answer != Firm::Accepted {
            return answer;
        }
        let job = offered(row, self.table.time(), c, d);
        self.free = free_beside(job, self.free);
        self.due = due_with(job, self.tight, self.due);
        admit(&mut self.table, &mut self.queue, job, steps);
        answer
    }

    /// A job of the sporadic task of this index arrives in this row. Soon(next) exactly where now
    /// lies before its next legal arrival, else Taken with its deadline: the job is guaranteed, and
    /// the task may come again one separation from now.
    pub fn sporadic<L: Ledger>(&mut self, row: u32, index: u8, steps: &mut Steps<L>) -> Spo
        requires later { self.old.last_row < row }
        requires known { index < length self.old.plan.tasks.sporadics }
        ensures does { Does
            self.old
            self.new
            (arrive row (Event.Sporadic index))
            (What.Sporadic row index result) }
        ensures answer { result
            ≡ sporadic_answer self.old.plan.tasks.sporadics self.old.scene index }
        ensures soon { (n : ℕ) → (result ≡ Spo.Soon n)
            ↔ ((slice_index self.old.scene.nexts index ≡ n) × (self.old.scene.time < n)) }
        ensures stays { (n : ℕ) → result ≡ Spo.Soon n
            → self.new ≡ record self.old { last_row = row } }
        ensures next { (n : ℕ) → result ≡ Spo.Taken n → self.new.scene.nexts
            ≡ slice_set
            self.old.scene.nexts
            index
            (self.old.scene.time + separation_of self.old.plan.tasks.sporadics index) }
        ensures row { self.new.last_row ≡ row }
        ensures time { self.new.scene.time ≡ self.old.scene.time }
        ensures steps { steps.old ≤ steps.new }
    {
        self.last_row = row;
        let job = arriving_job(self.plan.sporadics(), index, row, self.table.time());
        let answer = take_arrival(
            &mut self.table,
            &mut self.reserve,
            &mut self.queue,
            index,
            job,
            steps,
        );
        self.due = due_told(answer, job, self.tight, self.due);
        answer
    }

    /// The job of this key has ended, before it ran all its slots. Freed(n) where it has started
    /// and not ended, with n slots left, and NotRunning exactly where no such job has. It brings no
    /// job, so it may come in the row of the last arrival.
    pub fn done<L: Ledger>(&mut self, row: u32, key: Key, steps: &mut Steps<L>) -> Done
        requires later { self.old.last_row ≤ row }
        ensures does { Does
            self.old
            self.new
            (arrive row (Event.Done key))
            (What.Done row key result) }
        ensures answer { result ≡ done_answer self.old.scene key }
        ensures stays { result ≡ Done.NotRunning → self.new ≡ record self.old { last_row = row } }
        ensures steps { steps.old ≤ steps.new }
        ensures some { (n : ℕ) → result ≡ Done.Freed n → 1 ≤ n }
        ensures row { self.new.last_row ≡ row }
        ensures time { self.new.scene.time ≡ self.old.scene.time }
    {
        self.last_row = row;
        end_early(
            &mut self.table,
            &mut self.queue,
            &mut self.soft,
            key,
            self.tight,
            &mut self.due,
            steps,
        )
    }

    /// The firm job that arrived in row `firm` is taken back before it has ended, whether it has
    /// started or not. Freed(n) where it remains, with n slots left, which are free at once; NoJob
    /// exactly where no remaining job has that key. It brings no job, so it may come in the row of
    /// the last arrival. Over a counted table it takes at most one step a remaining job and, where
    /// there is one, three a span that ends before its deadline, and 3.
    pub fn withdraw<L: Ledger>(&mut self, row: u32, firm: u32, steps: &mut Steps<L>) -> Gone
        requires later { self.old.last_row ≤ row }
        ensures does { Does
            self.old
            self.new
            (arrive row (Event.Withdraw firm))
            (What.Withdraw row firm result) }
        ensures answer { result ≡ withdraw_answer self.old.scene firm }
        ensures no_job { (result ≡ Gone.NoJob)
            ↔ (count_by (λ (j : Job). same_key j.key (Key.Firm firm)) self.old.scene.jobs ≡ 0) }
        ensures stays { result ≡ Gone.NoJob → self.new ≡ record self.old { last_row = row } }
        ensures some { (n : ℕ) → result ≡ Gone.Freed n → 1 ≤ n }
        ensures row { self.new.last_row ≡ row }
        ensures time { self.new.scene.time ≡ self.old.scene.time }
        ensures steps { steps.old ≤ steps.new }
        ensures few_steps { IsTrue T.counted → (job : Job) → Contains self.old.scene.jobs job
            → job.key ≡ Key.Firm firm
            → steps.new
            ≤ steps.old + length self.old.scene.jobs
            + 3 * ends_before job.dl (spans_of self.old.plan.cycle self.old.scene)
            + 3 }
        ensures no_job_steps { result ≡ Gone.NoJob
            → steps.new ≤ steps.old + length self.old.scene.jobs }
    {
        self.last_row = row;
        take_back(
            &mut self.table,
            &mut self.queue,
            firm,
            self.tight,
            &mut self.due,
            steps,
        )
    }

    /// One slot passes. The first soft job runs where soft work may, else the earliest guaranteed
    /// job that is ready, else none. At the end of a cycle, one more cycle of the plan comes in.
    pub fn slot<L: Ledger>(&mut self, steps: &mut Steps<L>) -> Ran
        requires { self.old.scene.time < TIME_LIMIT }
        ensures does { Does self.old self.new slot (told_of_slot result) }
        ensures answer { result
            ≡ choice self.old.plan.tasks.sporadics self.old.plan.cycle self.old.scene }
        ensures row { self.new.last_row ≡ self.old.last_row }
        ensures time { self.new.scene.time ≡ self.old.scene.time + 1 }
        ensures steps { steps.old ≤ steps.new }
    {
        let mut what = What::Idle;
        self.pass_in(&mut what, steps);
        match what {
            What::Run(key) => Ran::Key(key),
            _ => Ran::Idle,
        }
    }

    /// What the next slot runs, and for how many slots, at most `most`, that stays the choice where
    /// nothing arrives: at least one, and at most a cycle. It is the greatest such number where no
    /// soft work waits, where the set has no sporadic task, and where soft work runs. Where a
    /// guaranteed job runs while soft work waits beside sporadic tasks, it may be a smaller one.
    pub fn ahead<L: Ledger>(&self, most: u32, steps: &mut Steps<L>) -> (Ran, u32)
        requires { 1 ≤ most }
        ensures answer { result.0
            ≡ choice self.now.plan.tasks.sporadics self.now.plan.cycle self.now.scene }
        ensures same { (h : History) → StandsFor self.now h
            → TellsAhead
            self.now.plan.tasks
            self.now.plan.cycle
            (told_of_slot result.0)
            result.1
            h }
        ensures longest { (h : History) → StandsFor self.now h
            → (self.now.scene.soft ≡ []) ⊎ (self.now.plan.tasks.sporadics ≡ [])
            ⊎ ((row : ℕ) × (result.0 ≡ Ran.Key (Key.Soft row)))
            → result.1 < most → result.1 < self.now.plan.cycle
            → TellsOtherAfter
            self.now.plan.tasks
            self.now.plan.cycle
            (told_of_slot result.0)
            result.1
            h }
        ensures some { 1 ≤ result.1 }
        ensures few { result.1 ≤ most }
        ensures within { result.1 ≤ self.now.plan.cycle }
        ensures steps { steps.old ≤ steps.new }
    {
        let room = Remembered {
            free: self.free,
            tight: self.tight,
            due: self.due,
        };
        let (chosen, room) = choose(
            &self.table,
            &self.reserve,
            &self.queue,
            &self.soft,
            room,
            steps,
        );
        let count = slots_of(
            chosen,
            &self.table,
            &self.reserve,
            &self.queue,
            &self.soft,
            room,
            most.min(self.plan.cycle()),
            steps,
        );
        (chosen.ran(), count)
    }

    /// `slot`, but what an entry tells of it is written into these places, without a copy: what
    /// ran, and the first spans, which are those before it and become those after it. True only
    /// where all of these but the very first stay.
    pub fn slot_in<L: Ledger>(
        &mut self,
        what: &mut What,
        shown: &mut Shown,
        steps: &mut Steps<L>,
    ) -> bool
        requires early { self.old.scene.time < TIME_LIMIT }
        requires shown { (h : History) × StandsFor self.old h × (shown.old
            ≡ shown_of
            self.old.plan.cycle
            (scene_of self.old.plan.tasks self.old.plan.cycle h)) }
        ensures does { Does self.old self.new slot what.new }
        ensures told { what.new ≡ told_of_slot
            (choice self.old.plan.tasks.sporadics self.old.plan.cycle self.old.scene) }
        ensures shows { Shows self.new shown.new }
        ensures others { result ≡ true → others_of shown.new ≡ others_of shown.old }
        ensures row { self.new.last_row ≡ self.old.last_row }
        ensures time { self.new.scene.time ≡ self.old.scene.time + 1 }
        ensures steps { steps.old ≤ steps.new }
    {
        let stay = self.pass_in(what, steps);
        if stay {
            shown.set_first(self.table.read(self.table.first(), steps));
        } else {
            self.shown_in(shown, steps);
        }
        stay
    }

    /// `slot`, but what an entry tells of it is written into this place. True only where the first
    /// spans, as many as an entry shows, stay, but for the very first.
    #[inline(always)]
    fn pass_in<L: Ledger>(&mut self, what: &mut What, steps: &mut Steps<L>) -> bool
        requires { self.old.scene.time < TIME_LIMIT }
        ensures does { Does self.old self.new slot what.new }
        ensures told { what.new ≡ told_of_slot
            (choice self.old.plan.tasks.sporadics self.old.plan.cycle self.old.scene) }
        ensures others { result ≡ true
            → others_of (shown_of self.old.plan.cycle self.new.scene)
            ≡ others_of (shown_of self.old.plan.cycle self.old.scene) }
        ensures row { self.new.last_row ≡ self.old.last_row }
        ensures time { self.new.scene.time ≡ self.old.scene.time + 1 }
        ensures steps { steps.old ≤ steps.new }
    {
        let room = Remembered {
            free: self.free,
            tight: self.tight,
            due: self.due,
        };
        let (chosen, room) = choose(
            &self.table,
            &self.reserve,
            &self.queue,
            &self.soft,
            room,
            steps,
        );
        *what = chosen.told();
        let count = self.table.count();
        let stay = run(
            chosen,
            &mut self.table,
            &mut self.queue,
            &mut self.soft,
            steps,
        );
        let turned = pass(&self.plan, &mut self.table, &mut self.queue, steps);
        let room = after_slot(room, chosen, turned);
        self.free = room.free;
        self.tight = room.tight;
        self.due = room.due;
        stay & !turned & (self.table.count() == count)
    }
}
