//! The jobs that are carried over.

ghost use Rattle.std.specs.Prelude.{◌≡◌, ◌<◌, ◌++◌, ◌∷◌, [], IfOk, OnOk, if◌then◌else◌};
ghost use Rattle.std.specs.Cmp.Lexicographic.{slice_cmp};
ghost use Rattle.std.specs.Ordering.{nat_cmp};
ghost use Rattle.slot_core.specs.Keeping.Kept.{AreApart};
ghost use Rattle.slot_core.specs.Offline.Keys.{deadline_order, is_offline};
ghost use Rattle.change_laws.specs.Carried.{carried_of};
ghost use Rattle.mode_switch.specs.Keeping.{carried_from};

use interval_row::SpareTable;
use slot_core::{Job, Key, Memory, Steps};
use slot_exec::Exec;
use std::alloc::Global;
use std::cmp::Ordering;
use std::marker::Brand;
use std::sync::ledger::{Blank, Ledger};

/// The firm and sporadic jobs that remain, by deadline and then by key.
pub(crate) fn carried_jobs<T: SpareTable>(alloc: Global, exec: &Exec<T>) -> Result<Vec<Job>, Memory>
    requires { AreApart exec.now.scene.jobs }
    ensures { IfOk result (λ jobs. jobs.items ≡ carried_from exec.now.scene.jobs) }
{
    let mut jobs = gather::<T, Brand>(alloc, exec, Blank::new(1))?;
    jobs.sort_unstable_by(by_deadline);
    Ok(jobs)
}

/// The firm and sporadic jobs that remain, with steps that nobody asks for.
fn gather<T: SpareTable, L: Ledger>(
    alloc: Global,
    exec: &Exec<T>,
    blank: Blank,
) -> Result<Vec<Job>, Memory>
    requires name { blank.name ≡ L.name }
    requires parts { blank.parts ≡ L.parts }
    requires some { 0 < L.parts }
    ensures { IfOk result (λ jobs. jobs.items ≡ carried_of exec.now.scene.jobs) }
{
    let mut steps: Steps<L> = Steps::new(blank);
    let mut jobs = Vec::new(alloc);
    for i in 0..exec.job_count() {
        keep(&mut jobs, exec.job(i, &mut steps))?;
    }
    Ok(jobs)
}

/// Appends the job, where it is firm or sporadic.
fn keep(jobs: &mut Vec<Job>, job: Job) -> Result<(), Memory>
    ensures { OnOk result (jobs.new.items ≡ jobs.old.items ++ carried_of (job ∷ [])) }
{
    if !is_offline(job.key) {
        jobs.push(job)?;
    }
    Ok(())
}

/// Whether the key is that of an offline job.
fn is_offline(key: Key) -> bool
    ensures { result ≡ is_offline key }
{
    matches!(key, Key::Offline(_, _, _))
}

/// By deadline, then by key.
fn by_deadline(a: &Job, b: &Job) -> Ordering
    ensures { result ≡ slice_cmp nat_cmp (deadline_order a.now) (deadline_order b.now) }
{
    (a.dl, a.key).cmp(&(b.dl, b.key))
}
