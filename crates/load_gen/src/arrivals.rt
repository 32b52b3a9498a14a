//! The arrivals of a generated load.

ghost use Rattle.std.specs.Prelude.{◌≡◌, ◌≤◌, ◌<◌, ◌+◌, ◌^◌, ◌++◌, true, length, IfOk, OnOk};
ghost use Rattle.slot_core.specs.declared.TheConstants.{ARRIVAL_LIMIT, LOAD_LIMIT};
ghost use Rattle.slot_core.specs.Runs.Arrivals.{are_fitting};
ghost use Rattle.load_gen.specs.Loads.{load_set};
ghost use Rattle.load_gen.specs.LoadArrivals.{arrivals_at, firm_of, load_arrivals, load_event, next_number, soft_of};

use slot_core::{Arrival, Event, Memory};
use std::alloc::Global;

/// The arrivals of load `n`, from 1 to `LOAD_LIMIT`, over 1 to `ARRIVAL_LIMIT` slots. They are made
/// from a number that each slot changes, and fit the slots and the task set of the load.
pub fn arrivals_of(alloc: Global, n: u32, slots: u32) -> Result<Vec<Arrival>, Memory>
    requires load_some { 1 ≤ n }
    requires load_few { n ≤ LOAD_LIMIT }
    requires some { 1 ≤ slots }
    requires few { slots ≤ ARRIVAL_LIMIT }
    ensures arrivals { IfOk result (λ arrivals. arrivals.items ≡ load_arrivals n slots) }
    ensures fitting { IfOk result
        (λ arrivals. are_fitting (load_set n) slots arrivals.items ≡ true) }
{
    let mut arrivals = Vec::new(alloc);
    let mut x = u64::from(n);
    for slot in 0..slots {
        x = next_number(x);
        push_arrival(&mut arrivals, slot, x)?;
    }
    Ok(arrivals)
}

/// Appends what arrives in the slot of this number, if anything does.
fn push_arrival(arrivals: &mut Vec<Arrival>, slot: u32, x: u64) -> Result<(), Memory>
    requires few { length arrivals.old.items < ARRIVAL_LIMIT }
    ensures { OnOk result (arrivals.new.items
        ≡ arrivals.old.items ++ arrivals_at slot (length arrivals.old.items + 1) x) }
{
    if let Some(event) = event_of(x) {
        let row = arrivals.len() as u32 + 1;
        let slot = u64::from(slot);
        arrivals.push(Arrival { row, slot, event })?;
    }
    Ok(())
}

/// The number of the next slot.
fn next_number(x: u64) -> u64
    requires { x < 2 ^ 31 }
    ensures next { result ≡ next_number x }
    ensures small { result < 2 ^ 31 }
{
    (x * 1_103_515_245 + 12_345) % 2_147_483_648
}

/// What arrives at this number.
fn event_of(x: u64) -> Option<Event>
    ensures { result ≡ load_event x }
{
    match (x / 65_536) % 8 {
        0 => Some(soft_of(x)),
        1 => Some(firm_of(x)),
        2 => Some(Event::Sporadic(0)),
        _ => None,
    }
}

/// Soft work of 1 to 4 slots.
fn soft_of(x: u64) -> Event
    ensures { result ≡ soft_of x }
{
    Event::Soft(1 + ((x / 524_288) % 4) as u32)
}

/// A firm task of 1 to 8 slots.
fn firm_of(x: u64) -> Event
    ensures { result ≡ firm_of x }
{
    let slots = 1 + ((x / 524_288) % 8) as u32;
    Event::Firm(slots, slots + ((x / 4_194_304) % 64) as u32)
}
