//! A shorter separation, where the one that follows by rounding makes the cycle too long.

ghost use Rattle.std.specs.Prelude.{◌≡◌, ◌≤◌, true, length};
ghost use Rattle.std.specs.List.{list_all};
ghost use Rattle.graph_unroll.specs.Multiples.{separations_of, times_to_common};
ghost use Rattle.slot_core.specs.declared.TheConstants.{SLOT_LIMIT, SPORADIC_LIMIT};
ghost use Rattle.slot_core.specs.Sets.Cycles.{least_common_multiple};
ghost use Rattle.slot_core.specs.Sets.Ranges.{is_between, is_in_range};
ghost use Rattle.slot_lengths.specs.Shorter.{greatest_part, shorter_for, shorter_from, shorter_of};

use graph_unroll::cycle_of;
use slot_core::{SLOT_LIMIT, Sporadic, Sporadics, TaskFault, TaskSet};
use std::alloc::Global;

/// A shorter separation that may be planned for.
#[derive(Clone, Copy, PartialEq, Eq)]
pub struct Shorter {
    /// The sporadic task.
    pub sporadic: u8,
    /// Its separation, in slots: the greatest that divides the cycle of those before it.
    pub separation: u32,
}

/// A shorter separation for a set with this fault, where its cycle is too long.
pub(crate) fn shorter_for(alloc: Global, fault: TaskFault, tasks: TaskSet) -> Option<Shorter>
    requires { is_in_range tasks ≡ true }
    ensures { result ≡ shorter_for fault tasks }
{
    match fault {
        TaskFault::CycleTooLong(_) => shorter_of(alloc, tasks),
        _ => None,
    }
}

/// A shorter separation for the first sporadic task that makes the cycle too long.
fn shorter_of(alloc: Global, tasks: TaskSet) -> Option<Shorter>
    requires { is_in_range tasks ≡ true }
    ensures { result ≡ shorter_of tasks }
{
    let sporadics = tasks.sporadics;
    let alone = TaskSet {
        soft_limit: tasks.soft_limit,
        graphs: tasks.graphs,
        sporadics: Sporadics::new(alloc),
    };
    match cycle_of(&alone) {
        Ok(cycle) => shorter_from(cycle, sporadics.items()),
        Err(_) => None,
    }
}

/// The same, where those before have this cycle.
fn shorter_from(cycle: u32, sporadics: &[Sporadic]) -> Option<Shorter>
    requires cycle { is_between 1 SLOT_LIMIT cycle ≡ true }
    requires lengths { list_all (is_between 1 SLOT_LIMIT) (separations_of sporadics.now) ≡ true }
    requires few { length sporadics.now ≤ SPORADIC_LIMIT }
    ensures { result ≡ shorter_from cycle 0 sporadics.now }
{
    let mut cycle = cycle;
    for (index, sporadic) in sporadics.iter().enumerate() {
        let next = common_multiple(cycle, sporadic.separation);
        if next > SLOT_LIMIT {
            return Some(Shorter {
                sporadic: index as u8,
                separation: greatest_part(cycle, sporadic.separation),
            });
        }
        cycle = next;
    }
    None
}

/// The least common multiple of a cycle and a length.
fn common_multiple(cycle: u32, length: u32) -> u32
    requires cycle { is_between 1 SLOT_LIMIT cycle ≡ true }
    requires length { is_between 1 SLOT_LIMIT length ≡ true }
    ensures multiple { result ≡ least_common_multiple cycle length }
    ensures some { 1 ≤ result }
{
    cycle * times_to_common(cycle, length)
}

/// How many times the cycle makes their least common multiple.
fn times_to_common(cycle: u32, length: u32) -> u32
    requires cycle { is_between 1 SLOT_LIMIT cycle ≡ true }
    requires length { is_between 1 SLOT_LIMIT length ≡ true }
    ensures times { result ≡ times_to_common cycle length }
    ensures bound { is_between 1 length result ≡ true }
{
    for times in 1..length {
        if (cycle * times) % length == 0 {
            return times;
        }
    }
    length
}

/// The greatest number up to `most` that divides the cycle.
fn greatest_part(cycle: u32, most: u32) -> u32
    ensures { result ≡ greatest_part cycle most }
{
    let mut part = most;
    while part > 0 && cycle % part != 0 {
        part -= 1;
    }
    part
}
