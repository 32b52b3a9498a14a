//! The remaining jobs that are due by a time.

ghost use Rattle.std.specs.Prelude.{◌≡◌, ◌++◌, ◌<◌, filter, nat_le, IfOk, OnOk};
ghost use Rattle.std.specs.Cmp.Lexicographic.{slice_cmp};
ghost use Rattle.std.specs.Ordering.{nat_cmp};
ghost use Rattle.slot_core.specs.declared.jobs.Job.{Job};
ghost use Rattle.slot_core.specs.Keeping.Kept.{AreApart};
ghost use Rattle.slot_core.specs.Offline.Keys.{deadline_order};
ghost use Rattle.future_check.specs.Explanations.{shown_jobs};

use interval_row::SpareTable;
use slot_core::{Job, Memory, Steps};
use slot_exec::Exec;
use std::alloc::Global;
use std::cmp::Ordering;
use std::marker::Brand;
use std::sync::ledger::{Blank, Ledger};

/// The remaining jobs that are due by `until`, in deadline order.
pub(crate) fn due_jobs<T: SpareTable>(
    alloc: Global,
    exec: &Exec<T>,
    until: u64,
) -> Result<Vec<Job>, Memory>
    requires { AreApart exec.now.scene.jobs }
    ensures { IfOk result (λ jobs. jobs.items ≡ shown_jobs exec.now.scene until) }
{
    let mut jobs = Vec::new(alloc);
    push_due::<T, Brand>(exec, until, &mut jobs, Blank::new(1))?;
    jobs.sort_unstable_by(by_deadline);
    Ok(jobs)
}

/// Appends the remaining jobs that are due by `until`. Nobody asks for the steps.
fn push_due<T: SpareTable, L: Ledger>(
    exec: &Exec<T>,
    until: u64,
    jobs: &mut Vec<Job>,
    blank: Blank,
) -> Result<(), Memory>
    requires name { blank.name ≡ L.name }
    requires parts { blank.parts ≡ L.parts }
    requires ledger { 0 < L.parts }
    ensures { OnOk result (jobs.new.items ≡ jobs.old.items
        ++ filter (λ (j : Job). nat_le j.dl until) exec.now.scene.jobs) }
{
    let mut steps: Steps<L> = Steps::new(blank);
    for place in 0..exec.job_count() {
        let job = exec.job(place, &mut steps);
        if job.dl <= until {
            jobs.push(job)?;
        }
    }
    Ok(())
}

/// By deadline, then by key.
fn by_deadline(a: &Job, b: &Job) -> Ordering
    ensures { result ≡ slice_cmp nat_cmp (deadline_order a.now) (deadline_order b.now) }
{
    (a.dl, a.key).cmp(&(b.dl, b.key))
}
