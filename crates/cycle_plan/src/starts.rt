//! Jobs in the order in which they come.

ghost use Rattle.std.specs.Prelude.{◌≡◌, IfOk, IsPermutation};
ghost use Rattle.cycle_plan.specs.StartOrder.{start_cmp, AreInStartOrder};

use slot_core::{Job, Memory};
use std::alloc::Global;
use std::cmp::Ordering;

/// The jobs by start. Of those of one start the last by deadline and key comes first.
pub(crate) fn sorted_by_start(alloc: Global, jobs: &[Job]) -> Result<Vec<Job>, Memory>
    ensures listed { IfOk result (λ sorted. IsPermutation jobs.now sorted.items) }
    ensures ordered { IfOk result (λ sorted. AreInStartOrder sorted.items) }
{
    let mut sorted = Vec::from_slice(alloc, jobs)?;
    sorted.sort_unstable_by(by_start);
    Ok(sorted)
}

/// By start, and those of one start backwards by deadline and key. A queue that has the earliest
/// job last puts each behind those that came before it, and moves none of them.
fn by_start(a: &Job, b: &Job) -> Ordering
    ensures { result ≡ start_cmp a.now b.now }
{
    (a.est, b.dl, b.key).cmp(&(b.est, a.dl, a.key))
}
