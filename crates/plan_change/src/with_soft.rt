//! A change of plan at which soft work goes over too.

ghost use Rattle.std.specs.Prelude.{◌≡◌, ◌≢◌, ℕ, ◌+◌, ◌-◌, ◌≤◌, ◌<◌, ◌^◌, ◌∷◌, [], false, true, drop, length, take, IfErr, IfOk, None, OnErr, OnOk, Some, slice_get};
ghost use Rattle.slot_core.specs.declared.TheConstants.{OFFER_LIMIT};
ghost use Rattle.slot_core.specs.declared.jobs.SoftJob.{SoftJob};
ghost use Rattle.slot_core.specs.Keeping.Executives.{StandsFor};
ghost use Rattle.slot_core.specs.Runs.Histories.{History};
ghost use Rattle.slot_core.specs.Runs.Traces.{started};
ghost use Rattle.plan_change.specs.Carrying.{carried_from, offers_from};
ghost use Rattle.plan_change.specs.Changed.{CanStartWith, HasNoRoom};
ghost use Rattle.plan_change.specs.SoftWork.{AreTaken, IsChangedWithSoft, IsCutOffWithSoft, IsMovedWithSoft, MayWait, goes_soft, moved_after, soft_from};

use crate::keep::Keep;
use crate::list::CarriedList;
use crate::moves::{Moved, Refusal, carry_counted};
use interval_row::SpareTable;
use slot_core::SoftJob;
use slot_exec::Exec;
use std::marker::Brand;
use std::sync::ledger::Blank;

/// What a change has carried over, with soft work.
#[derive(Clone, Copy, PartialEq, Eq)]
pub struct MovedWithSoft {
    /// The guaranteed jobs.
    pub jobs: Moved,
    /// How many soft jobs.
    pub soft: u32,
    /// How many soft jobs are left behind, since no more may wait at the second executive.
    pub behind: u32,
}

/// `carry`, where soft work goes over too: the soft jobs that wait come among the offers, in their
/// rows and in their order, each with the slots that it has left. No more of them go on than the
/// second plan's limit allows: the last ones are left behind, and counted.
///
/// Soft work plays no part in whether the change is granted. Where it is refused the second
/// executive has taken what comes before the offer that has no room, and is to be started anew. No
/// memory is taken.
pub fn carry_with_soft<T: SpareTable>(
    from: &Exec<T>,
    into: &mut Exec<T>,
    list: &mut CarriedList,
    keep: Keep,
    first: u32,
) -> Result<MovedWithSoft, Refusal>
    requires fresh { StandsFor into.old started }
    requires above { keep ≢ Keep.Drop → from.now.last_row < first }
    requires rows { keep ≢ Keep.Drop → first + from.now.plan.cycle < 2 ^ 32 }
    requires places { from.now.plan.cycle ≤ list.old.places }
    ensures granted { OnOk result
        (IsChangedWithSoft
        into.old.plan
        (offers_from keep from.now into.old.plan.cycle first)
        (soft_from from.now into.old.plan.tasks.soft_limit)
        into.new) }
    ensures moved { IfOk result
        (IsMovedWithSoft
        keep
        from.now
        into.old.plan.cycle
        into.old.plan.tasks.soft_limit) }
    ensures refused { OnErr result
        (¬ (CanStartWith
        into.old.plan.tasks
        (offers_from keep from.now into.old.plan.cycle first))) }
    ensures no_room { IfErr result
        (HasNoRoom
        into.old.plan.tasks
        (offers_from keep from.now into.old.plan.cycle first)) }
    ensures cut_off { IfErr result
        (λ refusal. IsCutOffWithSoft
        into.old.plan
        (offers_from keep from.now into.old.plan.cycle first)
        (soft_from from.now into.old.plan.tasks.soft_limit)
        refusal
        into.new) }
    ensures plan { into.new.plan ≡ into.old.plan }
    ensures listed { list.new.items ≡ carried_from keep from.now }
    ensures places { list.new.places ≡ list.old.places }
{
    let waiting = from.soft_count();
    let soft = waiting.min(into.tasks().soft_limit);
    match carry_counted::<T, Brand>(from, into, list, soft, keep, first, Blank::new(1)) {
        Ok(jobs) => Ok(MovedWithSoft {
            jobs,
            soft,
            behind: waiting - soft,
        }),
        Err(refusal) => Err(refusal),
    }
}

/// Soft jobs go over from this place on, up to so many in all: those that stand before this row, or
/// all. The place of the next one.
pub(crate) fn take_soft<T: SpareTable>(
    from: &Exec<T>,
    into: &mut Exec<T>,
    passed: u32,
    soft: u32,
    row: Option<u32>,
) -> u32
    requires passed { passed ≤ soft }
    requires there { soft ≤ length from.now.scene.soft }
    requires waits { MayWait into.old.last_row (drop passed (take soft from.now.scene.soft)) }
    requires room { length into.old.scene.soft + (soft - passed)
        ≤ into.old.plan.tasks.soft_limit }
    ensures taken { AreTaken
        into.old
        into.new
        (drop passed (take soft from.now.scene.soft))
        (drop result (take soft from.now.scene.soft)) }
    ensures few { result ≤ soft }
    ensures stops { result < soft → (r : ℕ) × (job : SoftJob) × (row ≡ Some r)
        × (slice_get (take soft from.now.scene.soft) result ≡ Some job)
        × (r ≤ job.row) }
    ensures below { (r : ℕ) → row ≡ Some r → into.old.last_row < r → into.new.last_row < r }
{
    for i in passed..soft {
        let Some(job) = from.soft_job(i) else {
            return i;
        };
        if !stands_before(job, row) {
            return i;
        }
        take_one(into, job);
    }
    soft
}

/// Whether the soft job stands before this row.
fn stands_before(job: SoftJob, row: Option<u32>) -> bool
    ensures before { result ≡ true → (r : ℕ) → row ≡ Some r → job.row < r }
    ensures after { result ≡ false → (r : ℕ) × (row ≡ Some r) × (r ≤ job.row) }
{
    match row {
        Some(row) => job.row < row,
        None => true,
    }
}

/// A soft job goes over. There is room for it.
fn take_one<T: SpareTable>(into: &mut Exec<T>, job: SoftJob)
    requires later { into.old.last_row < job.row }
    requires some { 1 ≤ job.left }
    requires few { job.left ≤ OFFER_LIMIT }
    requires room { length into.old.scene.soft < into.old.plan.tasks.soft_limit }
    ensures taken { (h : History) → StandsFor into.old h
        → StandsFor into.new (moved_after h (goes_soft job ∷ [])) }
    ensures more { length into.new.scene.soft ≤ length into.old.scene.soft + 1 }
    ensures plan { into.new.plan ≡ into.old.plan }
    ensures row { into.new.last_row ≡ job.row }
{
    into.soft(job.row, job.left);
}
