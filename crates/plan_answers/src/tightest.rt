//! The window with the least slack.

ghost use Rattle.std.specs.Prelude.{◌≡◌, ℕ, ◌+◌, ◌-◌, ◌*◌, ◌^◌, ◌<◌, ◌≤◌, [], true, All, IfOk, fold, length, nat_le, replicate, slice_index, sum, sum_by, take, if◌then◌else◌};
ghost use Rattle.std.specs.List.{range_with_len};
ghost use Rattle.std.specs.Option.{option_map_or};
ghost use Rattle.slot_core.specs.declared.TheConstants.{SLOT_LIMIT};
ghost use Rattle.slot_core.specs.declared.jobs.Job.{Job};
ghost use Rattle.slot_core.specs.Sets.Cycles.{cycle_of};
ghost use Rattle.slot_core.specs.Sets.Ranges.{is_sound};
ghost use Rattle.slot_core.specs.Offline.OfflineJobs.{cycle_jobs};
ghost use Rattle.slot_core.specs.Feasibility.Feasible.{demand, window_demand};
ghost use Rattle.demand_test.specs.EndTables.{first_end, next_end, raised};
ghost use Rattle.plan_answers.specs.Who.{ordered_jobs};
ghost use Rattle.plan_answers.specs.Tightest.{has_less_slack, tighter, tightest, tightest_by, tightest_in, window_of};

use crate::jobs::ordered_jobs;
use demand_test::{needed_table, total};
use slot_core::{Job, Memory, TaskSet, Window};
use std::alloc::Global;

/// The window that a load tells: the whole cycle where it is too short, else the first with the
/// least slack, of those in which some slots are needed.
pub(crate) fn tightest(alloc: Global, tasks: &TaskSet, cycle: u32) -> Result<Option<Window>, Memory>
    requires sound { is_sound tasks.now ≡ true }
    requires cycle { cycle ≡ cycle_of tasks.now }
    ensures { IfOk result (λ w. w ≡ tightest tasks.now cycle) }
{
    let demand = total(tasks, cycle);
    if demand > u64::from(cycle) {
        return Ok(Some(Window {
            from: 0,
            until: u64::from(cycle),
            demand,
        }));
    }
    let jobs = ordered_jobs(alloc, tasks)?;
    tightest_in(alloc, tasks, &jobs, cycle)
}

/// The first window with the least slack. For each start the jobs are counted once, and each end is
/// looked at.
fn tightest_in(
    alloc: Global,
    tasks: &TaskSet,
    jobs: &[Job],
    cycle: u32,
) -> Result<Option<Window>, Memory>
    requires sound { is_sound tasks.now ≡ true }
    requires cycle { cycle ≡ cycle_of tasks.now }
    requires jobs { jobs.now ≡ ordered_jobs tasks.now }
    requires fits { demand tasks.now cycle 0 cycle ≤ cycle }
    ensures { IfOk result (λ w. w
        ≡ tightest_in (cycle_jobs tasks.now cycle 0) tasks.now.sporadics cycle) }
{
    let arrivals = needed_table(alloc, tasks.sporadics.items(), 2 * cycle)?;
    let mut kept = None;
    for from in 0..cycle {
        let due = due_from(alloc, jobs, cycle, from)?;
        kept = tightest_from(&due, arrivals.items(), from as usize, kept);
    }
    Ok(kept)
}

/// For each end, 0 to two cycles, the slots of the jobs that are due there, of those that start at
/// `from` or later, in the first cycle and in the next.
fn due_from(alloc: Global, jobs: &[Job], cycle: u32, from: u32) -> Result<Vec<u32>, Memory>
    requires from { from < cycle }
    requires cycle { cycle ≤ SLOT_LIMIT }
    requires within { All (λ (j : Job). j.dl ≤ cycle) jobs.now }
    requires few { sum_by (λ (j : Job). j.declared) jobs.now ≤ cycle }
    ensures len { IfOk result (λ due. length due.items ≡ 2 * cycle + 1) }
    ensures sums { IfOk result (λ due. (b : ℕ) → b ≤ 2 * cycle
        → sum (take (b + 1) due.items) ≡ window_demand jobs.now [] cycle from b) }
    ensures small { IfOk result (λ due. sum due.items ≤ 2 * cycle) }
{
    let length = cycle as usize;
    let mut due = zeros(alloc, 2 * length + 1)?;
    for job in jobs {
        count_job(&mut due, job, length, u64::from(from));
    }
    Ok(due)
}

/// So many zeros.
fn zeros(alloc: Global, count: usize) -> Result<Vec<u32>, Memory>
    ensures { IfOk result (λ zeros. zeros.items ≡ replicate count 0) }
{
    Ok(vec![in alloc; 0u32; count]?)
}

/// Adds the declared slots of a job at its deadline in the next cycle, which counts in windows that
/// end past the first, and at the one in the first, where it starts at `from` or later.
fn count_job(due: &mut [u32], job: &Job, cycle: usize, from: u64)
    requires len { length due.old ≡ 2 * cycle + 1 }
    requires positive { 0 < cycle }
    requires within { job.now.dl ≤ cycle }
    requires small { All (λ n. n < 2 ^ 30) due.old }
    requires short { job.now.declared < 2 ^ 30 }
    ensures { due.new ≡ (if nat_le from job.now.est
        then raised (raised due.old (next_end cycle job.now) job.now.declared)
        (first_end job.now) job.now.declared
        else raised due.old (next_end cycle job.now) job.now.declared) }
{
    let end = job.dl as usize;
    let next = (end + cycle).max(cycle + 1);
    due[next] += job.declared;
    if from <= job.est {
        due[end] += job.declared;
    }
}

/// Of the window that is kept and those from `from` on, the tightest. The slots that are due by an
/// end are summed up, and those of arrivals stand in a table by the slots of a window.
fn tightest_from(due: &[u32], arrivals: &[u64], from: usize, kept: Option<Window>) -> Option<Window>
    requires some { 1 ≤ length due.now }
    requires few { length due.now ≤ 2 ^ 20 }
    requires small { sum due.now < 2 ^ 32 }
    requires arrivals { All (λ n. n < 2 ^ 63) arrivals.now }
    requires inside { from < length due.now }
    ensures { result ≡ fold
        (λ best b. tighter best (window_of from b
        (sum (take (b + 1) due.now) + slice_index arrivals.now (b - from))))
        kept
        (range_with_len (from + 1) (length due.now - 1 - from)) }
{
    let mut best = kept;
    let mut offline = sum_of(&due[..from + 1]);
    for until in from + 1..due.len() {
        offline += u64::from(due[until]);
        best = tighter(
            best,
            Window {
                from: from as u64,
                until: until as u64,
                demand: offline + arriving_in(arrivals, until - from),
            },
        );
    }
    best
}

/// The sum of the numbers.
fn sum_of(numbers: &[u32]) -> u64
    requires { sum numbers.now < 2 ^ 32 }
    ensures { result ≡ sum numbers.now }
{
    numbers.iter().map(|n| u64::from(*n)).sum()
}

/// The slots that the arrivals need in a window of so many slots: an empty table is one of zeros.
fn arriving_in(arrivals: &[u64], slots: usize) -> u64
    requires small { All (λ n. n < 2 ^ 63) arrivals.now }
    ensures value { result ≡ slice_index arrivals.now slots }
    ensures small { result < 2 ^ 63 }
{
    arrivals.get(slots).copied().unwrap_or(0)
}

/// Of the window that is kept and the next one, the tighter.
fn tighter(kept: Option<Window>, next: Window) -> Option<Window>
    ensures { result ≡ tighter kept next }
{
    if next.demand > 0 && goes_before(&next, kept) {
        Some(next)
    } else {
        kept
    }
}

/// Whether no window is kept, or it has more slack.
fn goes_before(next: &Window, kept: Option<Window>) -> bool
    ensures { result ≡ option_map_or (has_less_slack next.now) kept true }
{
    match kept {
        Some(window) => has_less_slack(next, &window),
        None => true,
    }
}

/// Whether the first window has less slack than the second.
fn has_less_slack(v: &Window, w: &Window) -> bool
    ensures { result ≡ has_less_slack v.now w.now }
{
    slots_in(v) + u128::from(w.demand) < slots_in(w) + u128::from(v.demand)
}

/// The slots of the window.
fn slots_in(window: &Window) -> u128
    ensures value { result ≡ window.now.until - window.now.from }
    ensures small { result < 2 ^ 64 }
{
    u128::from(window.until.saturating_sub(window.from))
}
