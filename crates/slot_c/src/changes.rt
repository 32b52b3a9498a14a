//! The jobs that remain, and changes of plan.

ghost use Rattle.std.specs.Prelude.{◌≡◌, ◌≢◌, ◌⊎◌, ◌≤◌, ◌*◌, true, false, length as count_of, slice_get, Some};
ghost use Rattle.slot_core.specs.Keeping.Plans.{IsPlan, PlanParts};
ghost use Rattle.table_codec.specs.Grammar.{Spells};
ghost use Rattle.plan_change.specs.declared.keep.Keep.{Keep};
ghost use Rattle.slot_port.specs.declared.status.TheConstants.{BAD_TABLE, CLOSED, MEMORY, OK, REFUSED};
ghost use Rattle.slot_port.specs.Changes.{CannotCarry, CannotCarryWithSoft, CannotChange, Carries, CarriesWithSoft, Changes, ChangesWithSoft, asked_status, carry_status, job_status, jobs_in, keep_named};
ghost use Rattle.slot_port.specs.Faults.{TellsFault};

use crate::handle::Slots;
use slot_port::{CLOSED, JobNumbers, OK, Told};
use std::alloc::Global;

/// How many guaranteed jobs remain.
#[unsafe(no_mangle)]
pub extern "C" fn ss_job_count(slots: &mut Slots, alloc: Global, count: &mut u32) -> u32
    requires valid { slots.old.open ≡ slots.old.handle.there }
    ensures valid { slots.new.open ≡ slots.new.handle.there }
    ensures open { slots.new.open ≡ slots.old.open }
    ensures closed { slots.old.open ≡ false → result ≡ CLOSED }
    ensures stays { slots.new.handle.value ≡ slots.old.handle.value }
    ensures silent { result ≢ OK → count.new ≡ count.old }
    ensures done { slots.old.open ≡ true → result ≡ OK }
    ensures tells { result ≡ OK → count.new ≡ count_of slots.old.handle.value.scene.jobs }
    ensures few { result ≡ OK → count.new ≤ 3 * slots.old.handle.value.plan.cycle }
{
    if !slots.open {
        return CLOSED;
    }
    let unit = slots.take(alloc);
    *count = unit.exec.job_count();
    *slots = Slots::opened(unit);
    OK
}

/// The remaining job at this place.
#[unsafe(no_mangle)]
pub extern "C" fn ss_get_job(
    slots: &mut Slots,
    alloc: Global,
    place: u32,
    job: &mut JobNumbers,
) -> u32
    requires valid { slots.old.open ≡ slots.old.handle.there }
    ensures valid { slots.new.open ≡ slots.new.handle.there }
    ensures open { slots.new.open ≡ slots.old.open }
    ensures closed { slots.old.open ≡ false → result ≡ CLOSED }
    ensures stays { slots.new.handle.value ≡ slots.old.handle.value }
    ensures silent { result ≢ OK → job.new ≡ job.old }
    ensures status { slots.old.open ≡ true → result
        ≡ job_status slots.old.handle.value place }
    ensures tells { result ≡ OK
        → slice_get (jobs_in slots.old.handle.value) place ≡ Some job.new }
{
    if !slots.open {
        return CLOSED;
    }
    let unit = slots.take(alloc);
    let status = slot_port::job(&unit.exec, place, job);
    *slots = Slots::opened(unit);
    status
}

/// Carries what one executive has left over to a second one before its first slot. The first one
/// stays as it was.
#[unsafe(no_mangle)]
pub extern "C" fn ss_carry(
    from: &mut Slots,
    into: &mut Slots,
    alloc: Global,
    first: u32,
    keep: u32,
    told: &mut Told,
) -> u32
    requires valid_from { from.old.open ≡ from.old.handle.there }
    requires valid_into { into.old.open ≡ into.old.handle.there }
    ensures valid_from { from.new.open ≡ from.new.handle.there }
    ensures valid_into { into.new.open ≡ into.new.handle.there }
    ensures open_from { from.new.open ≡ from.old.open }
    ensures open_into { into.new.open ≡ into.old.open }
    ensures closed { from.old.open ≡ false ⊎ into.old.open ≡ false → result ≡ CLOSED }
    ensures stays { from.new.handle.value ≡ from.old.handle.value }
    ensures untouched { result ≢ OK → result ≢ REFUSED
        → into.new.handle.value ≡ into.old.handle.value }
    ensures silent { result ≢ OK → result ≢ REFUSED → told.new ≡ told.old }
    ensures asked { from.old.open ≡ true → into.old.open ≡ true
        → carry_status from.old.handle.value into.old.handle.value first keep ≢ OK
        → result ≡ carry_status from.old.handle.value into.old.handle.value first keep }
    ensures done { from.old.open ≡ true → into.old.open ≡ true
        → carry_status from.old.handle.value into.old.handle.value first keep ≡ OK
        → (result ≡ OK) ⊎ (result ≡ REFUSED) }
    ensures carries { (k : Keep) → keep_named keep ≡ Some k → result ≡ OK
        → Carries
        k
        first
        from.old.handle.value
        into.old.handle.value
        into.new.handle.value
        told.new }
    ensures refused { (k : Keep) → keep_named keep ≡ Some k → result ≡ REFUSED
        → CannotCarry
        k
        first
        from.old.handle.value
        into.old.handle.value
        into.new.handle.value
        told.new }
{
    if !from.open || !into.open {
        return CLOSED;
    }
    let mut unit = from.take(alloc);
    let mut second = into.take(alloc);
    let status = unit.carry_to(&mut second, first, keep, told);
    *from = Slots::opened(unit);
    *into = Slots::opened(second);
    status
}

/// `ss_carry`, where soft work goes over too.
#[unsafe(no_mangle)]
pub extern "C" fn ss_carry_with_soft(
    from: &mut Slots,
    into: &mut Slots,
    alloc: Global,
    first: u32,
    keep: u32,
    told: &mut Told,
) -> u32
    requires valid_from { from.old.open ≡ from.old.handle.there }
    requires valid_into { into.old.open ≡ into.old.handle.there }
    ensures valid_from { from.new.open ≡ from.new.handle.there }
    ensures valid_into { into.new.open ≡ into.new.handle.there }
    ensures open_from { from.new.open ≡ from.old.open }
    ensures open_into { into.new.open ≡ into.old.open }
    ensures closed { from.old.open ≡ false ⊎ into.old.open ≡ false → result ≡ CLOSED }
    ensures stays { from.new.handle.value ≡ from.old.handle.value }
    ensures untouched { result ≢ OK → result ≢ REFUSED
        → into.new.handle.value ≡ into.old.handle.value }
    ensures silent { result ≢ OK → result ≢ REFUSED → told.new ≡ told.old }
    ensures asked { from.old.open ≡ true → into.old.open ≡ true
        → carry_status from.old.handle.value into.old.handle.value first keep ≢ OK
        → result ≡ carry_status from.old.handle.value into.old.handle.value first keep }
    ensures done { from.old.open ≡ true → into.old.open ≡ true
        → carry_status from.old.handle.value into.old.handle.value first keep ≡ OK
        → (result ≡ OK) ⊎ (result ≡ REFUSED) }
    ensures carries { (k : Keep) → keep_named keep ≡ Some k → result ≡ OK
        → CarriesWithSoft
        k
        first
        from.old.handle.value
        into.old.handle.value
        into.new.handle.value
        told.new }
    ensures refused { (k : Keep) → keep_named keep ≡ Some k → result ≡ REFUSED
        → CannotCarryWithSoft
        k
        first
        from.old.handle.value
        into.old.handle.value
        into.new.handle.value
        told.new }
{
    if !from.open || !into.open {
        return CLOSED;
    }
    let mut unit = from.take(alloc);
    let mut second = into.take(alloc);
    let status = unit.carry_with_soft_to(&mut second, first, keep, told);
    *from = Slots::opened(unit);
    *into = Slots::opened(second);
    status
}

/// Opens the plan that the bytes spell, and carries over to it what the executive has left: the
/// handle has the second one then, or stays as it was.
#[unsafe(no_mangle)]
pub extern "C" fn ss_change(
    slots: &mut Slots,
    alloc: Global,
    table: &[u8],
    first: u32,
    keep: u32,
    told: &mut Told,
) -> u32
    requires valid { slots.old.open ≡ slots.old.handle.there }
    ensures valid { slots.new.open ≡ slots.new.handle.there }
    ensures open { slots.new.open ≡ slots.old.open }
    ensures closed { slots.old.open ≡ false → result ≡ CLOSED }
    ensures stays { result ≢ OK → slots.new.handle.value ≡ slots.old.handle.value }
    ensures unsaid { slots.old.open ≡ false → told.new ≡ told.old }
    ensures asked { slots.old.open ≡ true
        → asked_status slots.old.handle.value first (keep_named keep) ≢ OK
        → (result ≡ asked_status slots.old.handle.value first (keep_named keep))
        × (told.new ≡ told.old) }
    ensures statuses { slots.old.open ≡ true
        → asked_status slots.old.handle.value first (keep_named keep) ≡ OK
        → (result ≡ OK) ⊎ (result ≡ MEMORY) ⊎ (result ≡ BAD_TABLE) ⊎ (result ≡ REFUSED) }
    ensures changes { (k : Keep) → keep_named keep ≡ Some k → result ≡ OK
        → Changes k first slots.old.handle.value table.now slots.new.handle.value told.new }
    ensures refused { (k : Keep) → keep_named keep ≡ Some k → result ≡ REFUSED
        → CannotChange k first slots.old.handle.value table.now told.new }
    ensures faulty { result ≡ BAD_TABLE → TellsFault table.now told.new }
    ensures every { (plan : PlanParts) → IsPlan plan → Spells table.now plan → result ≡ OK
        → slots.new.handle.value.plan ≡ plan }
    ensures spelled { (plan : PlanParts) → IsPlan plan → Spells table.now plan
        → result ≢ BAD_TABLE }
{
    if !slots.open {
        return CLOSED;
    }
    let mut unit = slots.take(alloc);
    match unit.changed(alloc, table, first, keep, told) {
        Ok(next) => {
            *slots = Slots::opened(next);
            OK
        }
        Err(status) => {
            *slots = Slots::opened(unit);
            status
        }
    }
}

/// `ss_change`, where soft work goes over too.
#[unsafe(no_mangle)]
pub extern "C" fn ss_change_with_soft(
    slots: &mut Slots,
    alloc: Global,
    table: &[u8],
    first: u32,
    keep: u32,
    told: &mut Told,
) -> u32
    requires valid { slots.old.open ≡ slots.old.handle.there }
    ensures valid { slots.new.open ≡ slots.new.handle.there }
    ensures open { slots.new.open ≡ slots.old.open }
    ensures closed { slots.old.open ≡ false → result ≡ CLOSED }
    ensures stays { result ≢ OK → slots.new.handle.value ≡ slots.old.handle.value }
    ensures unsaid { slots.old.open ≡ false → told.new ≡ told.old }
    ensures asked { slots.old.open ≡ true
        → asked_status slots.old.handle.value first (keep_named keep) ≢ OK
        → (result ≡ asked_status slots.old.handle.value first (keep_named keep))
        × (told.new ≡ told.old) }
    ensures statuses { slots.old.open ≡ true
        → asked_status slots.old.handle.value first (keep_named keep) ≡ OK
        → (result ≡ OK) ⊎ (result ≡ MEMORY) ⊎ (result ≡ BAD_TABLE) ⊎ (result ≡ REFUSED) }
    ensures changes { (k : Keep) → keep_named keep ≡ Some k → result ≡ OK
        → ChangesWithSoft
        k
        first
        slots.old.handle.value
        table.now
        slots.new.handle.value
        told.new }
    ensures refused { (k : Keep) → keep_named keep ≡ Some k → result ≡ REFUSED
        → CannotChange k first slots.old.handle.value table.now told.new }
    ensures faulty { result ≡ BAD_TABLE → TellsFault table.now told.new }
    ensures every { (plan : PlanParts) → IsPlan plan → Spells table.now plan → result ≡ OK
        → slots.new.handle.value.plan ≡ plan }
    ensures spelled { (plan : PlanParts) → IsPlan plan → Spells table.now plan
        → result ≢ BAD_TABLE }
{
    if !slots.open {
        return CLOSED;
    }
    let mut unit = slots.take(alloc);
    match unit.changed_with_soft(alloc, table, first, keep, told) {
        Ok(second) => {
            *slots = Slots::opened(second);
            OK
        }
        Err(status) => {
            *slots = Slots::opened(unit);
            status
        }
    }
}
