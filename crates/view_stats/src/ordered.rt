//! Numbers in ascending order.

ghost use Rattle.std.specs.Prelude.{◌≡◌, ◌<◌, IfOk};
ghost use Rattle.view_stats.specs.Ordered.{ascending, distances, nearest_rank};

use slot_core::Memory;
use std::alloc::Global;

/// The numbers in ascending order.
pub(crate) fn ascending(numbers: Vec<u64>) -> Vec<u64>
    ensures { result.items ≡ ascending numbers.items }
{
    let mut numbers = numbers;
    numbers.sort_unstable();
    numbers
}

/// From each number to the next one.
pub(crate) fn distances(alloc: Global, numbers: &[u64]) -> Result<Vec<u64>, Memory>
    ensures { IfOk result (λ apart. apart.items ≡ distances numbers.now) }
{
    let mut apart = Vec::new(alloc);
    for i in 1..numbers.len() {
        apart.push(numbers[i].saturating_sub(numbers[i - 1]))?;
    }
    Ok(apart)
}

/// The place of the number, among so many in ascending order, that 95 of 100 do not exceed.
pub(crate) fn nearest_rank(count: usize) -> usize
    ensures { result ≡ nearest_rank count }
{
    (count - count / 20).saturating_sub(1)
}
