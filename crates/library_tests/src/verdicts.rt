//! Verdicts of the cycle test on small cycles, and on the longest.

ghost use Rattle.std.specs.Prelude.{◌≡◌, [], IfSome, sum_by};
ghost use Rattle.slot_core.specs.declared.jobs.Job.{Job};
ghost use Rattle.slot_core.specs.Feasibility.Sporadics.{sporadic_demand};

use demand_test::{Verdict, arrivals_by, test};
use slot_core::{Job, Key, Name, SLOT_LIMIT, Sporadic, Window};
use std::alloc::Global;
use std::test::Fail;

/// The declared slots of the jobs, or none where 64 bits do not hold them.
fn declared_slots(jobs: &[Job]) -> Option<u64>
    ensures { IfSome result (λ n. n ≡ sum_by (λ (j : Job). j.declared) jobs.now) }
{
    let mut slots = 0u64;
    for job in jobs {
        slots = slots.checked_add(u64::from(job.declared))?;
    }
    Some(slots)
}

/// The slots that the arrivals of at most one task need by `end`, or none of more tasks.
fn needed_by(sporadics: &[Sporadic], end: u32) -> Option<u64>
    ensures { IfSome result (λ n. n ≡ sporadic_demand sporadics.now [] 0 end) }
{
    match sporadics {
        [] => Some(0),
        [task] => {
            let needed = u64::from(task.wcet).checked_mul(arrivals_by(task, end))?;
            Some(needed)
        }
        _ => None,
    }
}

/// The verdict, or none where the cycle test may not be asked or memory runs out.
fn verdict(alloc: Global, jobs: &[Job], sporadics: &[Sporadic], cycle: u32) -> Option<Verdict> {
    if cycle > SLOT_LIMIT || !jobs.iter().all(|job| job.dl <= u64::from(cycle)) {
        return None;
    }
    let declared = declared_slots(jobs)?;
    let arriving = needed_by(sporadics, cycle)?;
    if declared.checked_add(arriving)? > u64::from(cycle) {
        return None;
    }
    test(alloc, jobs, sporadics, cycle).ok()
}

/// A job of the window [est, dl).
fn job(est: u64, dl: u64, declared: u32) -> Job {
    Job {
        key: Key::Offline(0, 0, est),
        est,
        dl,
        left: declared,
        declared,
    }
}

/// The verdict on the jobs beside a sporadic task of these slots, separation and deadline, if any.
fn verdict_beside(
    alloc: Global,
    jobs: &[Job],
    task: Option<(u32, u32, u32)>,
    cycle: u32,
) -> Option<Verdict> {
    let Some((wcet, separation, deadline)) = task else {
        return verdict(alloc, jobs, &[], cycle);
    };
    let task = Sporadic {
        name: Name::of(b"s")?,
        wcet,
        separation,
        deadline,
    };
    verdict(alloc, jobs, &[task], cycle)
}

/// The verdict on a failing window.
fn fails(from: u64, until: u64, demand: u64) -> Option<Verdict> {
    Some(Verdict::Fails(Window {
        from,
        until,
        demand,
    }))
}

#[test]
fn judges_short_cycles(rt: HostRuntime) {
    let crossing = [job(5, 7, 2), job(6, 7, 1)];
    let busy = [job(0, 4, 2), job(4, 8, 2), job(0, 8, 4)];
    let ends = [job(9, 10, 1), job(0, 1, 1)];
    let table = [
        (crossing.as_slice(), None, 10, fails(5, 7, 3)),
        (&busy, None, 8, Some(Verdict::Fits)),
        (&ends, None, 10, Some(Verdict::Fits)),
        (&ends, Some((3, 10, 4)), 10, fails(7, 11, 5)),
        (&[], Some((1, 0, 15)), 10, fails(0, 15, 16)),
        (&[], None, 0, Some(Verdict::Fits)),
    ];
    for (jobs, task, cycle, wanted) in table {
        assert!(rt; verdict_beside(rt.alloc(), jobs, task, cycle) == wanted);
    }
}

#[test]
fn judges_the_longest_cycle(rt: HostRuntime) -> Result<(), Fail> {
    let jobs = jobs_of_one_slot(rt.alloc(), SLOT_LIMIT)?;
    let found = verdict(rt.alloc(), jobs.as_slice(), &[], SLOT_LIMIT);
    assert!(rt; found == Some(Verdict::Fits));
    Ok(())
}

/// A job for each slot of the cycle, the last one first.
fn jobs_of_one_slot(alloc: Global, cycle: u32) -> Result<Vec<Job>, Fail> {
    let mut jobs = Vec::new(alloc);
    for slot in (0..u64::from(cycle)).rev() {
        jobs.push(job(slot, slot + 1, 1))?;
    }
    Ok(jobs)
}
