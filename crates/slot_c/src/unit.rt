//! What is behind an open handle.

ghost use Rattle.std.specs.Prelude.{◌≡◌, ◌≢◌, ◌⊎◌, Err, IfErr, IfOk, Some};
ghost use Rattle.slot_core.specs.Keeping.Plans.{IsPlan, PlanParts};
ghost use Rattle.table_codec.specs.Grammar.{Spells};
ghost use Rattle.plan_change.specs.declared.keep.Keep.{Keep};
ghost use Rattle.slot_port.specs.declared.status.TheConstants.{BAD_TABLE, MEMORY, OK, REFUSED};
ghost use Rattle.slot_port.specs.Changes.{CannotCarry, CannotCarryWithSoft, CannotChange, Carries, CarriesWithSoft, Changes, ChangesWithSoft, asked_status, carry_status, keep_named};
ghost use Rattle.slot_port.specs.Faults.{TellsFault};

use crate::opening::boxed;
use interval_row::ChainTable;
use plan_change::CarriedList;
use slot_exec::Exec;
use slot_port::{MEMORY, Told};
use std::alloc::Global;
use std::marker::Model;

/// An executive, and a list for the jobs that a change of plan carries over from it: so a change
/// takes no memory. Contracts see the executive.
#[derive(Drop)]
pub struct Unit {
    pub(crate) exec: Exec<ChainTable>,
    pub(crate) list: CarriedList,
}

impl Model for Unit {
    ghost use Rattle.std.specs.Prelude.{◌≤◌};
    ghost use Rattle.slot_core.specs.Keeping.Executives.{Executive};

    ghost Value = { Executive };

    ghost view = { λ u. u.exec };

    ghost invariant = { λ u. u.exec.plan.cycle ≤ u.list.places };
}

impl Unit {
    /// A unit with this executive. Its list has a place for each slot of a cycle.
    pub(crate) fn of(alloc: Global, exec: Exec<ChainTable>) -> Result<Unit, u32>
        ensures value { IfOk result (λ unit. unit ≡ exec) }
        ensures memory { IfErr result (λ status. status ≡ MEMORY) }
    {
        let places = exec.cycle() as usize;
        let list = CarriedList::with_places(alloc, places).map_err(|_| MEMORY)?;
        Ok(Unit { exec, list })
    }

    /// Carries over to another unit what this one has left.
    pub(crate) fn carry_to(
        &mut self,
        into: &mut Unit,
        first: u32,
        keep: u32,
        told: &mut Told,
    ) -> u32
        ensures from { self.new ≡ self.old }
        ensures asked { carry_status self.old into.old first keep ≢ OK
            → result ≡ carry_status self.old into.old first keep }
        ensures stays { carry_status self.old into.old first keep ≢ OK → into.new ≡ into.old }
        ensures silent { carry_status self.old into.old first keep ≢ OK → told.new ≡ told.old }
        ensures done { carry_status self.old into.old first keep ≡ OK
            → (result ≡ OK) ⊎ (result ≡ REFUSED) }
        ensures carries { (k : Keep) → keep_named keep ≡ Some k → result ≡ OK
            → Carries k first self.old into.old into.new told.new }
        ensures refused { (k : Keep) → keep_named keep ≡ Some k → result ≡ REFUSED
            → CannotCarry k first self.old into.old into.new told.new }
    {
        slot_port::carry(
            &self.exec,
            &mut into.exec,
            &mut self.list,
            first,
            keep,
            told,
        )
    }

    /// `carry_to`, where soft work goes over too.
    pub(crate) fn carry_with_soft_to(
        &mut self,
        into: &mut Unit,
        first: u32,
        keep: u32,
        told: &mut Told,
    ) -> u32
        ensures from { self.new ≡ self.old }
        ensures asked { carry_status self.old into.old first keep ≢ OK
            → result ≡ carry_status self.old into.old first keep }
        ensures stays { carry_status self.old into.old first keep ≢ OK → into.new ≡ into.old }
        ensures silent { carry_status self.old into.old first keep ≢ OK → told.new ≡ told.old }
        ensures done { carry_status self.old into.old first keep ≡ OK
            → (result ≡ OK) ⊎ (result ≡ REFUSED) }
        ensures carries { (k : Keep) → keep_named keep ≡ Some k → result ≡ OK
            → CarriesWithSoft k first self.old into.old into.new told.new }
        ensures refused { (k : Keep) → keep_named keep ≡ Some k → result ≡ REFUSED
            → CannotCarryWithSoft k first self.old into.old into.new told.new }
    {
        slot_port::carry_with_soft(
            &self.exec,
            &mut into.exec,
            &mut self.list,
            first,
            keep,
            told,
        )
    }

    /// The unit of the plan that the bytes spell, to which is carried over what this one has left.
    pub(crate) fn changed(
        &mut self,
        alloc: Global,
        table: &[u8],
        first: u32,
        keep: u32,
        told: &mut Told,
    ) -> Result<Box<Unit>, u32>
        ensures from { self.new ≡ self.old }
        ensures asked { asked_status self.old first (keep_named keep) ≢ OK
            → result ≡ Err (asked_status self.old first (keep_named keep)) }
        ensures silent { asked_status self.old first (keep_named keep) ≢ OK
            → told.new ≡ told.old }
        ensures statuses { asked_status self.old first (keep_named keep) ≡ OK → IfErr
            result
            (λ status. (status ≡ MEMORY) ⊎ (status ≡ BAD_TABLE) ⊎ (status ≡ REFUSED)) }
        ensures changes { (k : Keep) → keep_named keep ≡ Some k
            → IfOk result (λ it. Changes k first self.old table.now it.value told.new) }
        ensures refused { (k : Keep) → keep_named keep ≡ Some k → result ≡ Err REFUSED
            → CannotChange k first self.old table.now told.new }
        ensures faulty { result ≡ Err BAD_TABLE → TellsFault table.now told.new }
        ensures every { (plan : PlanParts) → IsPlan plan → Spells table.now plan
            → IfOk result (λ it. it.value.plan ≡ plan) }
        ensures spelled { (plan : PlanParts) → IsPlan plan → Spells table.now plan
            → result ≢ Err BAD_TABLE }
    {
        let exec = slot_port::change(alloc, &self.exec, &mut self.list, table, first, keep, told)?;
        boxed(alloc, exec)
    }

    /// `changed`, where soft work goes over too.
    pub(crate) fn changed_with_soft(
        &mut self,
        alloc: Global,
        table: &[u8],
        first: u32,
        keep: u32,
        told: &mut Told,
    ) -> Result<Box<Unit>, u32>
        ensures from { self.new ≡ self.old }
        ensures asked { asked_status self.old first (keep_named keep) ≢ OK
            → result ≡ Err (asked_status self.old first (keep_named keep)) }
        ensures silent { asked_status self.old first (keep_named keep) ≢ OK
            → told.new ≡ told.old }
        ensures statuses { asked_status self.old first (keep_named keep) ≡ OK → IfErr
            result
            (λ status. (status ≡ MEMORY) ⊎ (status ≡ BAD_TABLE) ⊎ (status ≡ REFUSED)) }
        ensures changes { (k : Keep) → keep_named keep ≡ Some k
            → IfOk result (λ it. ChangesWithSoft k first self.old table.now it.value told.new) }
        ensures refused { (k : Keep) → keep_named keep ≡ Some k → result ≡ Err REFUSED
            → CannotChange k first self.old table.now told.new }
        ensures faulty { result ≡ Err BAD_TABLE → TellsFault table.now told.new }
        ensures every { (plan : PlanParts) → IsPlan plan → Spells table.now plan
            → IfOk result (λ it. it.value.plan ≡ plan) }
        ensures spelled { (plan : PlanParts) → IsPlan plan → Spells table.now plan
            → result ≢ Err BAD_TABLE }
    {
        let list = &mut self.list;
        let exec = slot_port::change_with_soft(alloc, &self.exec, list, table, first, keep, told)?;
        boxed(alloc, exec)
    }
}
