//! The jobs that a change of plan at this time would carry over.

ghost use Rattle.std.specs.Prelude.{◌≡◌, ◌≤◌, ◌<◌, true, All, length};
ghost use Rattle.slot_core.specs.declared.jobs.Job.{Job};
ghost use Rattle.slot_core.specs.Keeping.Executives.{StandsFor};
ghost use Rattle.slot_core.specs.Runs.Arrivals.{key_in_set};
ghost use Rattle.slot_core.specs.Runs.Histories.{History, time_of};
ghost use Rattle.slot_core.specs.Runs.Scenes.{remaining};
ghost use Rattle.plan_change.specs.Carrying.{carried_jobs};

use crate::keep::Keep;
use crate::list::CarriedList;
use crate::moves::list_carried;
use interval_row::SpareTable;
use slot_core::Steps;
use slot_exec::Exec;
use std::marker::Brand;
use std::sync::ledger::{Blank, Ledger};

/// Lists the jobs that a change at this time would carry over, in the order of their offers: firm
/// and sporadic ones by row, and such offline ones as `keep` tells by deadline. No memory is taken.
pub fn list_jobs<T: SpareTable>(from: &Exec<T>, list: &mut CarriedList, keep: Keep)
    requires places { from.now.plan.cycle ≤ list.old.places }
    ensures listed { (h : History) → StandsFor from.now h → list.new.items
        ≡ carried_jobs keep from.now.plan.tasks (time_of h)
        (remaining from.now.plan.tasks from.now.plan.cycle h) }
    ensures named { All
        (λ (job : Job). key_in_set from.now.plan.tasks job.key ≡ true)
        list.new.items }
    ensures few { length list.new.items ≤ from.now.plan.cycle }
    ensures places { list.new.places ≡ list.old.places }
{
    list_counted::<T, Brand>(from, list, keep, Blank::new(1))
}

/// `list_jobs`, with steps that nobody asks for.
fn list_counted<T: SpareTable, L: Ledger>(
    from: &Exec<T>,
    list: &mut CarriedList,
    keep: Keep,
    blank: Blank,
)
    requires name { blank.name ≡ L.name }
    requires parts { blank.parts ≡ L.parts }
    requires some { 0 < L.parts }
    requires places { from.now.plan.cycle ≤ list.old.places }
    ensures listed { (h : History) → StandsFor from.now h → list.new.items
        ≡ carried_jobs keep from.now.plan.tasks (time_of h)
        (remaining from.now.plan.tasks from.now.plan.cycle h) }
    ensures named { All
        (λ (job : Job). key_in_set from.now.plan.tasks job.key ≡ true)
        list.new.items }
    ensures few { length list.new.items ≤ from.now.plan.cycle }
    ensures places { list.new.places ≡ list.old.places }
{
    let mut steps: Steps<L> = Steps::new(blank);
    let at = from.now();
    list_carried(from, list, at, keep, &mut steps);
}
