//! The supply within a number of slots, read of lines.

ghost use Rattle.std.specs.Prelude.{◌≡◌, ◌+◌, ◌≤◌, All, map, min};
ghost use Rattle.slot_core.specs.declared.TheConstants.{SLOT_LIMIT};
ghost use Rattle.supply_lines.specs.Lines.{read_at};
ghost use Rattle.view_stairs.specs.declared.lines.Step.{Step};
ghost use Rattle.view_stairs.specs.Steps.{last_within, pair_of, IsSmall};

use crate::lines::Step;

/// The supply within so many slots.
pub(crate) fn slots_within(steps: &[Step], within: u32) -> u32
    ensures { result ≡ read_at (map pair_of steps.now) within }
{
    let mut low = 0u32;
    let mut slots = 0u32;
    for step in steps {
        if within <= step.within {
            return risen(slots, within.saturating_sub(low), step.supply.slots);
        }
        low = step.within;
        slots = step.supply.slots;
    }
    slots
}

/// So many slots and so many more, but no more than at the next line.
fn risen(slots: u32, more: u32, most: u32) -> u32
    ensures { result ≡ min most (slots + more) }
{
    slots.saturating_add(more).min(most)
}

/// The most slots that a line tells.
pub(crate) fn most_slots(steps: &[Step]) -> u32
    requires { All IsSmall steps.now }
    ensures small { result ≤ SLOT_LIMIT }
    ensures most { All (λ (s : Step). s.supply.slots ≤ result) steps.now }
{
    let mut most = 0;
    for step in steps {
        most = most.max(step.supply.slots);
    }
    most
}

/// The last number of slots that has a line, or 0 where there is none.
pub(crate) fn last_within(steps: &[Step]) -> u32
    requires { All IsSmall steps.now }
    ensures small { result ≤ SLOT_LIMIT }
    ensures last { result ≡ last_within steps.now }
{
    match steps.last() {
        Some(step) => step.within,
        None => 0,
    }
}
