//! A change of plan in one call.

ghost use Rattle.std.specs.Prelude.{◌≡◌, ◌≢◌, ◌+◌, ◌<◌, ◌^◌, Err, IfOk};
ghost use Rattle.plan_change.specs.Carrying.{offers_from};
ghost use Rattle.plan_change.specs.Changed.{CanStartWith, HasNoRoom, IsChanged, IsMoved};
ghost use Rattle.plan_change.specs.SoftWork.{IsChangedWithSoft, IsMovedWithSoft, soft_from};
ghost use Rattle.plan_change.specs.declared.change.ChangeFault.TheVariants.{Memory as MemoryFault};
ghost use Rattle.plan_change.specs.declared.moves.Refusal.{Refusal};

use crate::keep::Keep;
use crate::list::CarriedList;
use crate::moves::{Moved, Refusal, carry};
use crate::with_soft::{MovedWithSoft, carry_with_soft};
use cycle_plan::Plan;
use interval_row::SpareTable;
use slot_core::Memory;
use slot_exec::Exec;
use std::alloc::Global;

/// Why there is no change of plan.
#[derive(Clone, Copy, PartialEq, Eq)]
pub enum ChangeFault {
    /// Memory ran out.
    Memory,
    /// The offers of what goes on cannot be served: the first one that has no room, with its
    /// evidence.
    NoRoom(Refusal),
}

impl From<Memory> for ChangeFault {
    ghost from_gives = { λ _ fault. fault ≡ MemoryFault };

    fn from(_memory: Memory) -> ChangeFault {
        ChangeFault::Memory
    }
}

/// Starts an executive of this plan, and carries over to it what another one has left, as `carry`
/// does. The other one stays as it was. The executive and a list of what is carried take memory.
pub fn change_plan<T: SpareTable>(
    alloc: Global,
    from: &Exec<T>,
    plan: Plan,
    keep: Keep,
    first: u32,
) -> Result<(Exec<T>, Moved), ChangeFault>
    requires above { keep ≢ Keep.Drop → from.now.last_row < first }
    requires rows { keep ≢ Keep.Drop → first + from.now.plan.cycle < 2 ^ 32 }
    ensures granted { IfOk result (λ changed. IsChanged
        plan
        (offers_from keep from.now plan.cycle first)
        changed.0) }
    ensures moved { IfOk result (λ changed. IsMoved keep from.now plan.cycle changed.1) }
    ensures refused { (r : Refusal) → result ≡ Err (ChangeFault.NoRoom r)
        → ¬ (CanStartWith plan.tasks (offers_from keep from.now plan.cycle first)) }
    ensures no_room { (r : Refusal) → result ≡ Err (ChangeFault.NoRoom r)
        → HasNoRoom plan.tasks (offers_from keep from.now plan.cycle first) r }
{
    let mut list = CarriedList::with_places(alloc, from.cycle() as usize)?;
    let mut into = Exec::start(alloc, plan)?;
    match carry(from, &mut into, &mut list, keep, first) {
        Ok(moved) => Ok((into, moved)),
        Err(refusal) => Err(ChangeFault::NoRoom(refusal)),
    }
}

/// `change_plan`, where soft work goes over too, as with `carry_with_soft`.
pub fn change_plan_with_soft<T: SpareTable>(
    alloc: Global,
    from: &Exec<T>,
    plan: Plan,
    keep: Keep,
    first: u32,
) -> Result<(Exec<T>, MovedWithSoft), ChangeFault>
    requires above { keep ≢ Keep.Drop → from.now.last_row < first }
    requires rows { keep ≢ Keep.Drop → first + from.now.plan.cycle < 2 ^ 32 }
    ensures granted { IfOk result (λ changed. IsChangedWithSoft
        plan
        (offers_from keep from.now plan.cycle first)
        (soft_from from.now plan.tasks.soft_limit)
        changed.0) }
    ensures moved { IfOk result (λ changed. IsMovedWithSoft
        keep
        from.now
        plan.cycle
        plan.tasks.soft_limit
        changed.1) }
    ensures refused { (r : Refusal) → result ≡ Err (ChangeFault.NoRoom r)
        → ¬ (CanStartWith plan.tasks (offers_from keep from.now plan.cycle first)) }
    ensures no_room { (r : Refusal) → result ≡ Err (ChangeFault.NoRoom r)
        → HasNoRoom plan.tasks (offers_from keep from.now plan.cycle first) r }
{
    let mut list = CarriedList::with_places(alloc, from.cycle() as usize)?;
    let mut into = Exec::start(alloc, plan)?;
    match carry_with_soft(from, &mut into, &mut list, keep, first) {
        Ok(moved) => Ok((into, moved)),
        Err(refusal) => Err(ChangeFault::NoRoom(refusal)),
    }
}
