//! The list of the jobs that a change carries over.

ghost use Rattle.std.specs.Prelude.{◌≡◌, ◌++◌, ◌∷◌, ◌<◌, ◌≤◌, [], IfOk, length, if◌then◌else◌};
ghost use Rattle.std.specs.Cmp.Lexicographic.{slice_cmp};
ghost use Rattle.std.specs.Ordering.{nat_cmp};
ghost use Rattle.slot_core.specs.Keeping.Kept.{AreApart};
ghost use Rattle.slot_core.specs.Offline.Keys.{is_offline, row_of};
ghost use Rattle.plan_change.specs.Carrying.{carrying_order, in_row_order};

use crate::keep::is_offline;
use crate::offers::row_in;
use slot_core::{Job, Memory};
use std::alloc::Global;
use std::cmp::Ordering;
use std::marker::Model;

/// A list for the jobs that a change carries over. Its places are taken when it is made, and serve
/// for each change after that.
#[derive(Drop)]
pub struct CarriedList {
    jobs: Vec<Job>,
}

impl Model for CarriedList {
    ghost use Rattle.std.specs.Prelude.{vec_capacity};
    ghost use Rattle.plan_change.specs.Lists.{ListedJobs};

    ghost Value = { ListedJobs };

    ghost view = { λ l. record { items = l.jobs.items; places = vec_capacity l.jobs } };
}

impl CarriedList {
    /// An empty list, with this many places at least. Only this call takes memory.
    pub fn with_places(alloc: Global, places: usize) -> Result<CarriedList, Memory>
        ensures empty { IfOk result (λ list. list.items ≡ []) }
        ensures places { IfOk result (λ list. places ≤ list.places) }
    {
        Ok(CarriedList {
            jobs: Vec::with_capacity(alloc, places)?,
        })
    }

    /// The jobs that the last change carried over, in the order of their offers.
    pub fn jobs(&self) -> &[Job]
        ensures { result.now ≡ self.now.items }
    {
        &self.jobs
    }

    /// Takes all jobs out.
    pub(crate) fn clear(&mut self)
        ensures empty { self.new.items ≡ [] }
        ensures places { self.new.places ≡ self.old.places }
    {
        self.jobs.clear();
    }

    /// Appends a job.
    pub(crate) fn push(&mut self, job: &Job)
        requires { length self.old.items < self.old.places }
        ensures items { self.new.items ≡ self.old.items ++ job.now ∷ [] }
        ensures places { self.new.places ≡ self.old.places }
    {
        self.jobs.push_reserved(*job);
    }

    /// Puts the jobs into the order in which they are carried over.
    pub(crate) fn sort(&mut self)
        requires { AreApart self.old.items }
        ensures items { self.new.items ≡ in_row_order self.old.items }
        ensures places { self.new.places ≡ self.old.places }
    {
        self.jobs.sort_unstable_by(by_carrying_order);
    }
}

/// Firm and sporadic jobs by row, then offline ones by deadline; level ones by key.
fn by_carrying_order(a: &Job, b: &Job) -> Ordering
    ensures { result ≡ slice_cmp nat_cmp (carrying_order a.now) (carrying_order b.now) }
{
    let (kind, number) = rank(a);
    let (other_kind, other_number) = rank(b);
    (kind, number, a.key).cmp(&(other_kind, other_number, b.key))
}

/// What a job is ordered by, before its key.
fn rank(job: &Job) -> (u8, u64)
    ensures kind { result.0 ≡ (if is_offline job.now.key then 1 else 0) }
    ensures number { result.1
        ≡ (if is_offline job.now.key then job.now.dl else row_of job.now.key) }
{
    if is_offline(job.key) {
        (1, job.dl)
    } else {
        (0, u64::from(row_in(0, job)))
    }
}
