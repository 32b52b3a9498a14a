//! What a length of a slot comes to.

ghost use Rattle.std.specs.Prelude.{◌≡◌, ◌≤◌, ◌^◌, true, Ok, IfOk};
ghost use Rattle.clock_units.specs.Derived.{derived_set, is_shaped};
ghost use Rattle.slot_core.specs.Sets.Ranges.{is_in_range, is_sound};
ghost use Rattle.slot_lengths.specs.Checks.{place_of, rank_of, row_of, set_check, share_of, slot_check, sound_check, tasks_check};

use crate::growths::least_growth;
use crate::loads::{Load, load_of};
use crate::shorter::{Shorter, shorter_for};
use clock_units::{PhysicalSet, UnitFault, slots_of};
use cycle_plan::{PlanFault, make_plan};
use slot_core::{Memory, TaskFault, TaskSet, Window};
use source_check::check;
use std::alloc::Global;

/// What a length of a slot comes to.
#[derive(Clone, Copy, PartialEq, Eq)]
pub enum SlotCheck {
    /// The set in slots fits: what it needs, and by how many slots each task may grow alone.
    Fits(Load, u32),
    /// It does not fit: what it needs, and the window that fails.
    Infeasible(Load, Window),
    /// The set in slots has this fault. Where that is a cycle that is too long, a shorter
    /// separation of one of its sporadic tasks, if that makes it so.
    BadTasks(TaskFault, Option<Shorter>),
    /// There is no set in slots.
    NoSlots(UnitFault),
}

/// A length of a slot, in nanoseconds, and what it comes to.
#[derive(Clone, Copy, PartialEq, Eq)]
pub struct LengthRow {
    /// The length.
    pub slot: u64,
    /// What it comes to.
    pub check: SlotCheck,
    /// Its place among the others: by the share of the cycle that is needed, those whose set does
    /// not fit last; of two with one share the longer first.
    pub place: u128,
}

/// A whole cycle, in the parts in which shares are told apart.
const WHOLE: u128 = 100_000_000;

/// The rank of a length where its set does not fit.
const LAST: u128 = 100_000_001;

/// The row of this length of a slot.
pub(crate) fn row_at(alloc: Global, set: &mut PhysicalSet, slot: u64) -> Result<LengthRow, Memory>
    requires { is_shaped set.old ≡ true }
    ensures row { IfOk result (λ row. row ≡ row_of set.old slot) }
    ensures kept { set.new ≡ set.old }
{
    let check = check_at(alloc, set, slot)?;
    let place = place_of(slot, check);
    Ok(LengthRow { slot, check, place })
}

/// The place of a length among the others.
fn place_of(slot: u64, check: SlotCheck) -> u128
    ensures { result ≡ place_of slot check }
{
    rank_of(check) * (1 << 64) + u128::from(u64::MAX - slot)
}

/// Its rank: the share of the cycle that is needed, or more where the set does not fit.
fn rank_of(check: SlotCheck) -> u128
    ensures rank { result ≡ rank_of check }
    ensures small { result ≤ 2 ^ 32 }
{
    match check {
        SlotCheck::Fits(load, _) => share_of(load),
        _ => LAST,
    }
}

/// The share of the cycle that is needed.
fn share_of(load: Load) -> u128
    ensures share { result ≡ share_of load }
    ensures small { result ≤ 2 ^ 32 }
{
    let share = (u128::from(load.needed) * WHOLE)
        .checked_div(u128::from(load.cycle))
        .unwrap_or(0);
    share.min(WHOLE)
}

/// What the set comes to with slots of this length. The set stays as it is.
fn check_at(alloc: Global, set: &mut PhysicalSet, slot: u64) -> Result<SlotCheck, Memory>
    requires { is_shaped set.old ≡ true }
    ensures check { IfOk result (λ check. check ≡ slot_check set.old slot) }
    ensures kept { set.new ≡ set.old }
{
    let own = set.slot;
    set.slot = slot;
    let check = check_set(alloc, set);
    set.slot = own;
    check
}

/// What the set comes to with its own slots.
fn check_set(alloc: Global, set: &PhysicalSet) -> Result<SlotCheck, Memory>
    requires { is_shaped set.now ≡ true }
    ensures { IfOk result (λ check. check ≡ set_check set.now) }
{
    match slots_of(alloc, set) {
        Ok(tasks) => check_tasks(alloc, set, tasks),
        Err(UnitFault::Memory) => Err(Memory),
        Err(fault) => Ok(SlotCheck::NoSlots(fault)),
    }
}

/// What its set in slots comes to.
fn check_tasks(alloc: Global, set: &PhysicalSet, tasks: TaskSet) -> Result<SlotCheck, Memory>
    requires range { is_in_range tasks ≡ true }
    requires derived { derived_set set.now ≡ Ok tasks }
    ensures { IfOk result (λ found. found ≡ tasks_check set.now tasks) }
{
    match check(alloc, &tasks) {
        Ok(()) => check_sound(alloc, set, tasks),
        Err(TaskFault::Memory) => Err(Memory),
        Err(fault) => {
            let shorter = shorter_for(alloc, fault, tasks);
            Ok(SlotCheck::BadTasks(fault, shorter))
        }
    }
}

/// What its sound set in slots comes to.
fn check_sound(alloc: Global, set: &PhysicalSet, tasks: TaskSet) -> Result<SlotCheck, Memory>
    requires sound { is_sound tasks ≡ true }
    requires derived { derived_set set.now ≡ Ok tasks }
    ensures { IfOk result (λ check. check ≡ sound_check set.now tasks) }
{
    let load = load_of(set, &tasks);
    match make_plan(alloc, tasks) {
        Ok(plan) => {
            let growth = least_growth(alloc, &plan)?;
            Ok(SlotCheck::Fits(load, growth))
        }
        Err(PlanFault::Infeasible(window)) => Ok(SlotCheck::Infeasible(load, window)),
        Err(PlanFault::Memory) => Err(Memory),
    }
}
