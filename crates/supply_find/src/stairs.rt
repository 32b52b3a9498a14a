//! Tables that rise by at most one at a time, told by the ends at which they are flat.

ghost use Rattle.std.specs.Prelude.{◌≡◌, ◌^◌, ◌<◌, IfOk, length};
ghost use Rattle.supply_find.specs.Stairs.{slots_of, is_flat_end, flat_ends};

use crate::supply::Supply;
use slot_core::{List, Memory};
use std::alloc::Global;

/// The numbers of slots of a table.
pub fn slots_of(alloc: Global, table: &[Supply]) -> Result<List<u32>, Memory>
    ensures { IfOk result (λ slots. slots ≡ slots_of table.now) }
{
    let mut slots = List::new(alloc);
    for supply in table {
        slots.push(supply.slots)?;
    }
    Ok(slots)
}

/// Whether a flat stretch of the table ends at this place, or the table.
fn is_flat_end(numbers: &[u32], place: usize) -> bool
    requires { place < length numbers.now }
    ensures { result ≡ is_flat_end numbers.now place }
{
    if place + 1 == numbers.len() {
        return true;
    }
    let before = numbers[place.saturating_sub(1)];
    before == numbers[place] && numbers[place] < numbers[place + 1]
}

/// The places from 1 on at which the table is flat and then rises, and its last place: between two
/// of them, and up to the first, the number rises by one at each place, up to that of the second.
pub fn flat_ends(alloc: Global, numbers: &[u32]) -> Result<List<u32>, Memory>
    requires { length numbers.now < 2 ^ 32 }
    ensures { IfOk result (λ ends. ends ≡ flat_ends numbers.now) }
{
    let mut ends = List::new(alloc);
    for place in 1..numbers.len() {
        if is_flat_end(numbers, place) {
            ends.push(place as u32)?;
        }
    }
    Ok(ends)
}
