//! Orders of graphs of four tasks, and derived windows.

ghost use Rattle.std.specs.Prelude.{◌≡◌, ◌<◌, ℕ, All, length, true};
ghost use Rattle.slot_core.specs.Sets.Cycles.{cycle_of};
ghost use Rattle.slot_core.specs.Sets.Ranges.{is_sound};
ghost use Rattle.slot_core.specs.Offline.OfflineJobs.{raw_jobs};
ghost use Rattle.slot_core.specs.Offline.Precedence.{comes_after};

use graph_unroll::unroll;
use sample_sets::{four_tasks, pair_set};
use slot_core::{Graph, Job, Key, RawJob, TaskSet};
use std::alloc::Global;
use std::process::Abort;
use std::test::Fail;
use window_derive::{OrderFault, derive, order};

#[test]
fn orders_tasks(rt: HostRuntime) -> Result<(), Fail> {
    let alloc = rt.alloc();
    expect_order(&rt, alloc, &[], &[], &[], &[], [0, 1, 2, 3])?;
    expect_order(&rt, alloc, &[1], &[2], &[3], &[], [3, 2, 1, 0])?;
    expect_order(&rt, alloc, &[1, 2], &[3], &[3], &[], [3, 1, 2, 0])
}

/// Four tasks with these entries have this order.
fn expect_order<R: Abort>(
    rt: &R,
    alloc: Global,
    a: &[u16],
    b: &[u16],
    c: &[u16],
    d: &[u16],
    want: [u16; 4],
) -> Result<(), Fail>
    requires a { All (λ p. p < 4) a.now }
    requires b { All (λ p. p < 4) b.now }
    requires c { All (λ p. p < 4) c.now }
    requires d { All (λ p. p < 4) d.now }
{
    let graph = four_tasks(alloc, a, b, c, d)?;
    assert!(rt; is_order(alloc, &graph, &want)?);
    Ok(())
}

/// Whether the four tasks of the graph have this order.
fn is_order(alloc: Global, graph: &Graph, want: &[u16]) -> Result<bool, Fail>
    requires count { length graph.now.tasks ≡ 4 }
    requires named { (t p : ℕ) → comes_after graph.now.tasks t p ≡ true
        → p < length graph.now.tasks }
{
    let tasks = order(alloc, graph)?;
    Ok(tasks.as_slice() == want)
}

/// The least loop of the four tasks of the graph.
fn loop_of(alloc: Global, graph: &Graph) -> Option<OrderFault>
    requires count { length graph.now.tasks ≡ 4 }
    requires named { (t p : ℕ) → comes_after graph.now.tasks t p ≡ true
        → p < length graph.now.tasks }
{
    order(alloc, graph).err()
}

#[test]
fn finds_loops(rt: HostRuntime) -> Result<(), Fail> {
    let alloc = rt.alloc();
    expect_loop(&rt, alloc, &[1], &[], &[2], &[], 2)?;
    expect_loop(&rt, alloc, &[1], &[3], &[], &[1], 1)?;
    expect_loop(&rt, alloc, &[], &[2], &[3], &[1], 1)
}

/// Four tasks with these entries have a loop, of which this is the least.
fn expect_loop<R: Abort>(
    rt: &R,
    alloc: Global,
    a: &[u16],
    b: &[u16],
    c: &[u16],
    d: &[u16],
    least: u16,
) -> Result<(), Fail>
    requires a { All (λ p. p < 4) a.now }
    requires b { All (λ p. p < 4) b.now }
    requires c { All (λ p. p < 4) c.now }
    requires d { All (λ p. p < 4) d.now }
{
    let graph = four_tasks(alloc, a, b, c, d)?;
    assert!(rt; loop_of(alloc, &graph) == Some(OrderFault::Loop(least)));
    Ok(())
}

#[test]
fn derives_windows(rt: HostRuntime) -> Result<(), Fail> {
    let set = pair_set(rt.alloc())?;
    let expected = [job(0, 0, 7, 2), job(1, 2, 8, 1)];
    assert!(rt; are_derived(rt.alloc(), &set, &expected)?);
    Ok(())
}

/// Whether the jobs of the set are these.
fn are_derived(alloc: Global, set: &TaskSet, expected: &[Job]) -> Result<bool, Fail>
    requires { is_sound set.now ≡ true }
{
    let raw = unroll(alloc, set)?;
    are_derived_of(alloc, set, raw.as_slice(), expected)
}

/// Whether the jobs that are derived of the raw ones are these.
fn are_derived_of(
    alloc: Global,
    set: &TaskSet,
    raw: &[RawJob],
    expected: &[Job],
) -> Result<bool, Fail>
    requires sound { is_sound set.now ≡ true }
    requires unrolled { raw.now ≡ raw_jobs set.now (cycle_of set.now) 0 }
{
    let jobs = derive(alloc, set, raw)?;
    Ok(jobs.as_slice() == expected)
}

/// The first job of a task of the pair.
fn job(task: u16, est: u64, dl: u64, slots: u32) -> Job {
    Job {
        key: Key::Offline(0, task, 0),
        est,
        dl,
        left: slots,
        declared: slots,
    }
}
