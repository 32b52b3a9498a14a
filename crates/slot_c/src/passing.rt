//! Slots that pass.

ghost use Rattle.std.specs.Prelude.{◌≡◌, ◌≢◌, true, false};
ghost use Rattle.slot_port.specs.declared.status.TheConstants.{CLOSED, OK};
ghost use Rattle.slot_port.specs.Calls.{Passes, PassesSame, ran_in};
ghost use Rattle.slot_port.specs.Keys.{ran_numbers};
ghost use Rattle.slot_port.specs.Statuses.{pass_status, slot_status};

use crate::handle::Slots;
use slot_port::{CLOSED, KeyNumbers};
use std::alloc::Global;

/// One slot passes, and what runs in it is told.
#[unsafe(no_mangle)]
pub extern "C" fn ss_slot(slots: &mut Slots, alloc: Global, ran: &mut KeyNumbers) -> u32
    requires valid { slots.old.open ≡ slots.old.handle.there }
    ensures valid { slots.new.open ≡ slots.new.handle.there }
    ensures open { slots.new.open ≡ slots.old.open }
    ensures closed { slots.old.open ≡ false → result ≡ CLOSED }
    ensures stays { result ≢ OK → slots.new.handle.value ≡ slots.old.handle.value }
    ensures silent { result ≢ OK → ran.new ≡ ran.old }
    ensures status { slots.old.open ≡ true → result ≡ slot_status slots.old.handle.value }
    ensures passes { result ≡ OK → Passes slots.old.handle.value slots.new.handle.value }
    ensures tells { result ≡ OK → ran.new ≡ ran_numbers (ran_in slots.old.handle.value) }
{
    if !slots.open {
        return CLOSED;
    }
    let mut unit = slots.take(alloc);
    let status = slot_port::slot(&mut unit.exec, ran);
    *slots = Slots::opened(unit);
    status
}

/// Slots pass while what is to run stays the same, and it is told how many have passed.
#[unsafe(no_mangle)]
pub extern "C" fn ss_pass(slots: &mut Slots, alloc: Global, most: u32, passed: &mut u32) -> u32
    requires valid { slots.old.open ≡ slots.old.handle.there }
    ensures valid { slots.new.open ≡ slots.new.handle.there }
    ensures open { slots.new.open ≡ slots.old.open }
    ensures closed { slots.old.open ≡ false → result ≡ CLOSED }
    ensures stays { result ≢ OK → slots.new.handle.value ≡ slots.old.handle.value }
    ensures silent { result ≢ OK → passed.new ≡ passed.old }
    ensures status { slots.old.open ≡ true → result ≡ pass_status slots.old.handle.value most }
    ensures passes { result ≡ OK
        → PassesSame slots.old.handle.value slots.new.handle.value most passed.new }
{
    if !slots.open {
        return CLOSED;
    }
    let mut unit = slots.take(alloc);
    let status = slot_port::pass(&mut unit.exec, most, passed);
    *slots = Slots::opened(unit);
    status
}
