//! The future that refuses an offer: the remaining jobs and the densest sporadic arrivals that are
//! due by the time of the evidence, with the offer itself.
#![tactic(auto)]

ghost use Rattle.std.specs.Prelude.{◌≡◌, ℕ, ◌≤◌, ◌<◌, ◌+◌, ◌-◌, Err, OnErr, OnOk};
ghost use Rattle.std.specs.Io.KnownBytes.{Appends};
ghost use Rattle.slot_core.specs.declared.TheConstants.{OFFER_LIMIT};
ghost use Rattle.slot_core.specs.Calls.Counts.{Rose};
ghost use Rattle.slot_core.specs.Claims.Futures.{LeavesNone, densest_until};
ghost use Rattle.slot_core.specs.Keeping.Executives.{StandsFor};
ghost use Rattle.slot_core.specs.Runs.Demand.{need_by};
ghost use Rattle.slot_core.specs.Runs.Histories.{History, time_of};
ghost use Rattle.slot_core.specs.Runs.Scenes.{horizon, scene_of};
ghost use Rattle.slot_io.specs.Sinks.{AppendsPart};
ghost use Rattle.future_check.specs.Explanations.{explanation, shown_slots};

mod arrivals;
mod faults;
mod jobs;
pub mod laws;
mod lines;

use crate::arrivals::due_arrivals;
use crate::jobs::due_jobs;
use crate::lines::put_lines;
pub use faults::ExplainFault;
use interval_row::SpareTable;
use slot_exec::Exec;
use slot_io::Sink;
use std::alloc::Global;

/// Tells what stands against an offer of `c` slots that is due at `dl`, up to the time `until`: a
/// line for each remaining job that is due by then, in deadline order, one for each of the densest
/// sporadic arrivals from now on that are due by then, by time and task, and one for the offer. One
/// put a line, up to the first that fails. All memory is taken before the first put.
pub fn explain<T: SpareTable, K: Sink>(
    alloc: Global,
    exec: &Exec<T>,
    c: u32,
    dl: u64,
    until: u64,
    out: &mut K,
) -> Result<(), ExplainFault>
    requires later { exec.now.scene.time < dl }
    requires due { dl ≤ until }
    requires near { until ≤ horizon exec.now.plan.cycle exec.now.scene.time }
    requires some { 1 ≤ c }
    requires few { c ≤ OFFER_LIMIT }

    // The text is that of each history for which the executive stands.
    ensures text { (h : History) → StandsFor exec.now h → OnOk result (Appends
        (K.written out.old)
        (K.written out.new)
        (explanation
        exec.now.plan.tasks
        (scene_of exec.now.plan.tasks exec.now.plan.cycle h)
        c
        dl
        until)) }

    // Want of memory comes before any put, and else a part of the text is told where a put failed.
    ensures memory { result ≡ Err (ExplainFault.Memory) → out.new ≡ out.old }
    ensures part { (h : History) → StandsFor exec.now h → OnErr result (AppendsPart
        (K.written out.old)
        (K.written out.new)
        (explanation
        exec.now.plan.tasks
        (scene_of exec.now.plan.tasks exec.now.plan.cycle h)
        c
        dl
        until)) }
    ensures counted { K.faults out.old ≤ K.faults out.new }
    ensures failed { result ≡ Err (ExplainFault.Failed)
        → Rose (K.faults out.old) (K.faults out.new) }

    // What is shown adds up to what is needed by then, beside the offer.
    ensures sum { (h : History) → StandsFor exec.now h
        → shown_slots
        exec.now.plan.tasks
        (scene_of exec.now.plan.tasks exec.now.plan.cycle h)
        until
        ≡ need_by
        exec.now.plan.tasks.sporadics
        (scene_of exec.now.plan.tasks exec.now.plan.cycle h)
        (time_of h)
        until }

    // Where with the offer that is more than there are slots, the arrivals are legal and leave no
    // slot schedule.
    ensures none { (h : History) → StandsFor exec.now h
        → until - time_of h
        < c + shown_slots
        exec.now.plan.tasks
        (scene_of exec.now.plan.tasks exec.now.plan.cycle h)
        until
        → LeavesNone
        exec.now.plan.tasks
        exec.now.plan.cycle
        h
        c
        (dl - time_of h)
        (densest_until
        exec.now.plan.tasks
        (scene_of exec.now.plan.tasks exec.now.plan.cycle h)
        until) }
{
    // (so that the prover knows what every executive is)
    let _now = exec.now();
    let jobs = due_jobs(alloc, exec, until)?;
    let arrivals = due_arrivals(alloc, exec, until)?;
    put_lines(
        exec.tasks(),
        jobs.as_slice(),
        arrivals.as_slice(),
        c,
        dl,
        out,
    )?;
    Ok(())
}
