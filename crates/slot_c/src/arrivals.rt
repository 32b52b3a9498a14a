//! Arrivals.

ghost use Rattle.std.specs.Prelude.{◌≡◌, ◌≢◌, true, false, Some};
ghost use Rattle.slot_core.specs.declared.events.Event.{Event};
ghost use Rattle.slot_core.specs.declared.jobs.Key.{Key};
ghost use Rattle.slot_port.specs.declared.status.TheConstants.{CLOSED, OK};
ghost use Rattle.slot_port.specs.Calls.{Takes, numbers_in};
ghost use Rattle.slot_port.specs.Keys.{key_named};
ghost use Rattle.slot_port.specs.Statuses.{done_status, event_status};

use crate::handle::Slots;
use slot_port::{CLOSED, KeyNumbers, Told};
use std::alloc::Global;

/// Soft work arrives.
#[unsafe(no_mangle)]
pub extern "C" fn ss_soft(
    slots: &mut Slots,
    alloc: Global,
    row: u32,
    work: u32,
    told: &mut Told,
) -> u32
    requires valid { slots.old.open ≡ slots.old.handle.there }
    ensures valid { slots.new.open ≡ slots.new.handle.there }
    ensures open { slots.new.open ≡ slots.old.open }
    ensures closed { slots.old.open ≡ false → result ≡ CLOSED }
    ensures stays { result ≢ OK → slots.new.handle.value ≡ slots.old.handle.value }
    ensures silent { result ≢ OK → told.new ≡ told.old }
    ensures status { slots.old.open ≡ true → result
        ≡ event_status slots.old.handle.value row (Event.Soft work) }
    ensures does { result ≡ OK
        → Takes slots.old.handle.value slots.new.handle.value row (Event.Soft work) }
    ensures tells { result ≡ OK
        → told.new ≡ numbers_in slots.old.handle.value row (Event.Soft work) }
{
    if !slots.open {
        return CLOSED;
    }
    let mut unit = slots.take(alloc);
    let status = slot_port::soft(&mut unit.exec, row, work, told);
    *slots = Slots::opened(unit);
    status
}

/// A firm task arrives.
#[unsafe(no_mangle)]
pub extern "C" fn ss_firm(
    slots: &mut Slots,
    alloc: Global,
    row: u32,
    work: u32,
    within: u32,
    told: &mut Told,
) -> u32
    requires valid { slots.old.open ≡ slots.old.handle.there }
    ensures valid { slots.new.open ≡ slots.new.handle.there }
    ensures open { slots.new.open ≡ slots.old.open }
    ensures closed { slots.old.open ≡ false → result ≡ CLOSED }
    ensures stays { result ≢ OK → slots.new.handle.value ≡ slots.old.handle.value }
    ensures silent { result ≢ OK → told.new ≡ told.old }
    ensures status { slots.old.open ≡ true → result
        ≡ event_status slots.old.handle.value row (Event.Firm work within) }
    ensures does { result ≡ OK
        → Takes slots.old.handle.value slots.new.handle.value row (Event.Firm work within) }
    ensures tells { result ≡ OK
        → told.new ≡ numbers_in slots.old.handle.value row (Event.Firm work within) }
{
    if !slots.open {
        return CLOSED;
    }
    let mut unit = slots.take(alloc);
    let status = slot_port::firm(&mut unit.exec, row, work, within, told);
    *slots = Slots::opened(unit);
    status
}

/// A job of a sporadic task arrives.
#[unsafe(no_mangle)]
pub extern "C" fn ss_sporadic(
    slots: &mut Slots,
    alloc: Global,
    row: u32,
    index: u32,
    told: &mut Told,
) -> u32
    requires valid { slots.old.open ≡ slots.old.handle.there }
    ensures valid { slots.new.open ≡ slots.new.handle.there }
    ensures open { slots.new.open ≡ slots.old.open }
    ensures closed { slots.old.open ≡ false → result ≡ CLOSED }
    ensures stays { result ≢ OK → slots.new.handle.value ≡ slots.old.handle.value }
    ensures silent { result ≢ OK → told.new ≡ told.old }
    ensures status { slots.old.open ≡ true → result
        ≡ event_status slots.old.handle.value row (Event.Sporadic index) }
    ensures does { result ≡ OK
        → Takes slots.old.handle.value slots.new.handle.value row (Event.Sporadic index) }
    ensures tells { result ≡ OK
        → told.new ≡ numbers_in slots.old.handle.value row (Event.Sporadic index) }
{
    if !slots.open {
        return CLOSED;
    }
    let mut unit = slots.take(alloc);
    let status = slot_port::sporadic(&mut unit.exec, row, index, told);
    *slots = Slots::opened(unit);
    status
}

/// A job has ended early.
#[unsafe(no_mangle)]
pub extern "C" fn ss_done(
    slots: &mut Slots,
    alloc: Global,
    row: u32,
    key: &KeyNumbers,
    told: &mut Told,
) -> u32
    requires valid { slots.old.open ≡ slots.old.handle.there }
    ensures valid { slots.new.open ≡ slots.new.handle.there }
    ensures open { slots.new.open ≡ slots.old.open }
    ensures closed { slots.old.open ≡ false → result ≡ CLOSED }
    ensures stays { result ≢ OK → slots.new.handle.value ≡ slots.old.handle.value }
    ensures silent { result ≢ OK → told.new ≡ told.old }
    ensures status { slots.old.open ≡ true → result
        ≡ done_status slots.old.handle.value row key.now }
    ensures does { (k : Key) → key_named key.now ≡ Some k → result ≡ OK
        → Takes slots.old.handle.value slots.new.handle.value row (Event.Done k) }
    ensures tells { (k : Key) → key_named key.now ≡ Some k → result ≡ OK
        → told.new ≡ numbers_in slots.old.handle.value row (Event.Done k) }
{
    if !slots.open {
        return CLOSED;
    }
    let mut unit = slots.take(alloc);
    let status = slot_port::done(&mut unit.exec, row, *key, told);
    *slots = Slots::opened(unit);
    status
}

/// A firm task is taken back.
#[unsafe(no_mangle)]
pub extern "C" fn ss_withdraw(
    slots: &mut Slots,
    alloc: Global,
    row: u32,
    firm: u32,
    told: &mut Told,
) -> u32
    requires valid { slots.old.open ≡ slots.old.handle.there }
    ensures valid { slots.new.open ≡ slots.new.handle.there }
    ensures open { slots.new.open ≡ slots.old.open }
    ensures closed { slots.old.open ≡ false → result ≡ CLOSED }
    ensures stays { result ≢ OK → slots.new.handle.value ≡ slots.old.handle.value }
    ensures silent { result ≢ OK → told.new ≡ told.old }
    ensures status { slots.old.open ≡ true → result
        ≡ event_status slots.old.handle.value row (Event.Withdraw firm) }
    ensures does { result ≡ OK
        → Takes slots.old.handle.value slots.new.handle.value row (Event.Withdraw firm) }
    ensures tells { result ≡ OK
        → told.new ≡ numbers_in slots.old.handle.value row (Event.Withdraw firm) }
{
    if !slots.open {
        return CLOSED;
    }
    let mut unit = slots.take(alloc);
    let status = slot_port::withdraw(&mut unit.exec, row, firm, told);
    *slots = Slots::opened(unit);
    status
}
