//! A table as a plan: its parts in their order.

ghost use Rattle.std.specs.Prelude.{◌≡◌, true, IfOk};
ghost use Rattle.slot_core.specs.Keeping.Plans.{IsPlan};
ghost use Rattle.slot_core.specs.Sets.Ranges.{is_in_range, is_sound};
ghost use Rattle.table_codec.specs.Readers.{Reads, ReadsAs, Unread, settled};
ghost use Rattle.table_codec.specs.Grammar.{head_form, layout_2, plan_form, plan_of, set_form, sound_set, source_form, stored_form, table_form};

use crate::TableFault;
use crate::layout::Layout;
use crate::reader::Input;
use crate::source::read_set;
use crate::stored::{check_jobs, check_spans};
use cycle_plan::{Plan, PlanFault, make_plan};
use slot_core::TaskSet;
use source_check::check;
use std::alloc::Global;

/// The layout of a table, by its head.
fn read_head(input: &mut Input) -> Result<Layout, TableFault>
    ensures { Reads head_form.read result input.old input.new }
{
    let magic = input.bytes(4)?;
    if magic != b"SLOT".as_slice() {
        return Err(TableFault::BadMagic);
    }
    let version = input.index()?;
    Layout::of(version)
}

/// Refuses a set that is not sound.
fn check_set(alloc: Global, set: &TaskSet) -> Result<(), TableFault>
    requires { is_in_range set.now ≡ true }
    ensures { (input : Unread)
        → ReadsAs (λ _. set.now) (settled (sound_set set.now)) result input input }
{
    check(alloc, set)?;
    Ok(())
}

/// The plan of a sound set.
fn plan_of(alloc: Global, set: TaskSet) -> Result<Plan, TableFault>
    requires { is_sound set ≡ true }
    ensures reading { (input : Unread) → Reads (settled (plan_of set)) result input input }
    ensures plan { IfOk result IsPlan }
{
    match make_plan(alloc, set) {
        Ok(plan) => Ok(plan),
        Err(PlanFault::Memory) => Err(TableFault::Memory),
        Err(PlanFault::Infeasible(window)) => Err(TableFault::Infeasible(window)),
    }
}

/// A sound set.
fn read_source(alloc: Global, input: &mut Input, layout: Layout) -> Result<TaskSet, TableFault>
    ensures reading { Reads (source_form layout).read result input.old input.new }
    ensures sound { IfOk result (λ set. is_sound set ≡ true) }
{
    let set = read_set(alloc, input, layout)?;
    check_set(alloc, &set)?;
    Ok(set)
}

/// Refuses stored jobs and spans that are not those of the plan.
fn check_stored(input: &mut Input, layout: Layout, plan: &Plan) -> Result<(), TableFault>
    ensures { ReadsAs (λ _. plan.now)
        (stored_form layout plan.now).read result input.old input.new }
{
    check_jobs(input, layout, plan.jobs())?;
    check_spans(input, layout, plan.spans())?;
    Ok(())
}

/// The plan of the set, where it is the stored one.
fn read_plan(alloc: Global, input: &mut Input, layout: Layout) -> Result<Plan, TableFault>
    ensures reading { Reads (plan_form layout).read result input.old input.new }
    ensures plan { IfOk result IsPlan }
{
    let set = read_source(alloc, input, layout)?;
    let plan = plan_of(alloc, set)?;
    check_stored(input, layout, &plan)?;
    Ok(plan)
}

/// The plan of a whole table.
pub(crate) fn read_table(alloc: Global, input: &mut Input) -> Result<Plan, TableFault>
    ensures reading { Reads (table_form layout_2).read result input.old input.new }
    ensures plan { IfOk result IsPlan }
{
    let layout = read_head(input)?;
    let plan = read_plan(alloc, input, layout)?;
    input.end()?;
    Ok(plan)
}
