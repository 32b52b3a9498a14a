//! An executive is opened and closed.

ghost use Rattle.std.specs.Prelude.{◌≡◌, ◌≢◌, true, false, IfErr, IfOk, MatchResult};
ghost use Rattle.slot_core.specs.Keeping.Executives.{StandsFor};
ghost use Rattle.slot_core.specs.Keeping.Plans.{IsPlan, PlanParts};
ghost use Rattle.slot_core.specs.Runs.Traces.{started};
ghost use Rattle.table_codec.specs.Grammar.{Spells};
ghost use Rattle.slot_port.specs.declared.status.TheConstants.{CLOSED, MEMORY, OK, STILL_OPEN};
ghost use Rattle.slot_port.specs.Faults.{IsRefused};

use crate::handle::Slots;
use crate::unit::Unit;
use interval_row::ChainTable;
use slot_exec::Exec;
use slot_port::{CLOSED, MEMORY, OK, STILL_OPEN, Told, open};
use std::alloc::Global;

/// Opens the plan that the bytes spell. What they spell is in the handle then, before its first
/// slot; or the handle stays as it was.
#[unsafe(no_mangle)]
pub extern "C" fn ss_open(slots: &mut Slots, alloc: Global, table: &[u8], fault: &mut Told) -> u32
    requires valid { slots.old.open ≡ slots.old.handle.there }
    ensures valid { slots.new.open ≡ slots.new.handle.there }
    ensures still { slots.old.open ≡ true → result ≡ STILL_OPEN }
    ensures stays { result ≢ OK → slots.new ≡ slots.old }
    ensures open { result ≡ OK → slots.new.open ≡ true }
    ensures plan { result ≡ OK → IsPlan slots.new.handle.value.plan }
    ensures spelled { result ≡ OK → Spells table.now slots.new.handle.value.plan }
    ensures started { result ≡ OK → StandsFor slots.new.handle.value started }
    ensures every { (plan : PlanParts) → IsPlan plan → Spells table.now plan
        → slots.old.open ≡ false → result ≢ MEMORY
        → (result ≡ OK) × (slots.new.handle.value.plan ≡ plan) }
    ensures silent { result ≡ OK → fault.new ≡ fault.old }
    ensures unsaid { slots.old.open ≡ true → fault.new ≡ fault.old }
    ensures refused { slots.old.open ≡ false → result ≢ OK
        → IsRefused table.now fault.old fault.new result }
{
    if slots.open {
        return STILL_OPEN;
    }
    match open_boxed(alloc, table, fault) {
        Ok(unit) => {
            *slots = Slots::opened(unit);
            OK
        }
        Err(status) => status,
    }
}

/// The executive of the plan that the bytes spell, in a box.
fn open_boxed(alloc: Global, table: &[u8], fault: &mut Told) -> Result<Box<Unit>, u32>
    ensures plan { IfOk result (λ exec. IsPlan exec.value.plan) }
    ensures spelled { IfOk result (λ exec. Spells table.now exec.value.plan) }
    ensures started { IfOk result (λ exec. StandsFor exec.value started) }
    ensures every { (plan : PlanParts) → IsPlan plan → Spells table.now plan
        → MatchResult result (λ exec. exec.value.plan ≡ plan) (λ status. status ≡ MEMORY) }
    ensures silent { IfOk result (λ exec. fault.new ≡ fault.old) }
    ensures refused { IfErr result (IsRefused table.now fault.old fault.new) }
{
    match open(alloc, table, fault) {
        Ok(exec) => boxed(alloc, exec),
        Err(status) => Err(status),
    }
}

/// The executive with its list in a box.
pub(crate) fn boxed(alloc: Global, exec: Exec<ChainTable>) -> Result<Box<Unit>, u32>
    ensures value { IfOk result (λ it. it.value ≡ exec) }
    ensures plan { (plan : PlanParts) → exec.plan ≡ plan
        → MatchResult result (λ it. it.value.plan ≡ plan) (λ status. status ≡ MEMORY) }
    ensures refused { IfErr result (λ status. status ≡ MEMORY) }
{
    let unit = Unit::of(alloc, exec)?;
    Box::new(alloc, unit).map_err(|_| MEMORY)
}

/// Gives all memory back.
#[unsafe(no_mangle)]
pub extern "C" fn ss_close(slots: &mut Slots, alloc: Global) -> u32
    requires valid { slots.old.open ≡ slots.old.handle.there }
    ensures valid { slots.new.open ≡ slots.new.handle.there }
    ensures closes { slots.new.open ≡ false }
    ensures closed { slots.old.open ≡ false → result ≡ CLOSED }
    ensures stays { slots.old.open ≡ false → slots.new ≡ slots.old }
    ensures done { slots.old.open ≡ true → result ≡ OK }
{
    if !slots.open {
        return CLOSED;
    }
    drop(slots.take(alloc));
    OK
}
