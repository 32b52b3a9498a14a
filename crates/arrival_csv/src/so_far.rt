//! What is read so far of the rows of an arrivals file.

ghost use Rattle.std.specs.Prelude.{◌≡◌, ◌≤◌, ◌+◌, List, ℕ, [], true, Ok, OnOk};
ghost use Rattle.slot_core.specs.declared.tasks.TaskSet.{TaskSet};
ghost use Rattle.slot_core.specs.Sets.Ranges.{is_sound};
ghost use Rattle.arrival_csv.specs.Quick.{WritesEvent};
ghost use Rattle.arrival_csv.specs.Reading.{arrival_of};
ghost use Rattle.arrival_csv.specs.Rows.{IsRowOf};
ghost use Rattle.arrival_csv.specs.SoFar.{TakesFields};

use crate::ArrivalFault;
use crate::row::Row;
use crate::rows::{arrival_in_turn, arrival_of};
use slot_core::{ARRIVAL_LIMIT, Arrival, Event, TaskSet};
use std::alloc::Global;

/// What the rows so far leave.
#[derive(Drop)]
pub(crate) struct SoFar {
    /// The arrivals of the rows so far.
    pub(crate) arrivals: Vec<Arrival>,
    /// The number of the next row.
    pub(crate) row: u32,
    /// The slot of the last row, and 0 before the first.
    pub(crate) before: u64,
}

impl SoFar {
    /// Before the first row.
    pub(crate) fn none(alloc: Global) -> SoFar
        ensures arrivals { result.arrivals.items ≡ [] }
        ensures row { result.row ≡ 1 }
        ensures before { result.before ≡ 0 }
    {
        SoFar {
            arrivals: Vec::new(alloc),
            row: 1,
            before: 0,
        }
    }

    /// Takes the next row: its arrival, or its fault.
    pub(crate) fn take(
        &mut self,
        tasks: &TaskSet,
        slots: u64,
        row: &Row<'_>,
    ) -> Result<(), ArrivalFault>
        requires { is_sound tasks.now ≡ true }
        ensures reading { (fields : List (List ℕ)) → IsRowOf row.now fields
            → TakesFields tasks.now slots self.old self.new fields result }
        ensures few { OnOk result (self.old.row ≤ ARRIVAL_LIMIT) }
        ensures next { OnOk result (self.new.row ≡ self.old.row + 1) }
    {
        let arrival = arrival_of(tasks, slots, self.row, self.before, row)?;
        self.keep(arrival)
    }

    /// Takes the next row, which writes this slot and this event.
    #[inline(always)]
    pub(crate) fn take_event(
        &mut self,
        slots: u64,
        slot: u64,
        event: Event,
    ) -> Result<(), ArrivalFault>
        ensures reading { (set : TaskSet) (fields : List (List ℕ))
            → WritesEvent set fields slot event
            → TakesFields set slots self.old self.new fields result }
        ensures few { OnOk result (self.old.row ≤ ARRIVAL_LIMIT) }
        ensures next { OnOk result (self.new.row ≡ self.old.row + 1) }
    {
        let arrival = arrival_in_turn(slots, self.row, self.before, slot, event)?;
        self.keep(arrival)
    }

    /// Keeps the arrival of the next row.
    #[inline(always)]
    fn keep(&mut self, arrival: Arrival) -> Result<(), ArrivalFault>
        requires { self.now.row ≤ ARRIVAL_LIMIT }
        ensures reading { (set : TaskSet) (slots : ℕ) (fields : List (List ℕ))
            → arrival_of set slots self.old.row self.old.before fields ≡ Ok arrival
            → TakesFields set slots self.old self.new fields result }
        ensures next { OnOk result (self.new.row ≡ self.old.row + 1) }
    {
        self.arrivals.push(arrival)?;
        self.row += 1;
        self.before = arrival.slot;
        Ok(())
    }
}
