//! The commands of slotshift, over any files and sinks.
#![tactic(auto)]

ghost use Rattle.std.specs.Prelude.{◌≡◌, ◌≢◌, ◌↔◌, ◌⊎◌, ℕ, true, List, None, Some, Ok, Err, IfSome};
ghost use Rattle.std.specs.Io.KnownBytes.{Appends};
ghost use Rattle.faults.specs.declared.arrival_fault.ArrivalFault.{ArrivalFault};
ghost use Rattle.slot_core.specs.declared.events.Arrival.{Arrival};
ghost use Rattle.slot_core.specs.declared.faults.TaskFault.{TaskFault};
ghost use Rattle.slot_core.specs.declared.jobs.Window.{Window};
ghost use Rattle.slot_core.specs.Runs.Arrivals.{are_fitting};
ghost use Rattle.slot_core.specs.Claims.Futures.{OffersAreExact};
ghost use Rattle.slot_core.specs.Keeping.Plans.{IsPlan, PlanParts};
ghost use Rattle.slot_core.specs.Claims.Service.{IsServed, IsOrdered};
ghost use Rattle.slot_core.specs.Runs.Traces.{trace, history_of};
ghost use Rattle.slot_core.specs.Calls.Counts.{Rose};
ghost use Rattle.faults.specs.declared.table_fault.TableFault.{TableFault};
ghost use Rattle.command_line.specs.declared.file.File.{File};
ghost use Rattle.command_line.specs.declared.refusal.Refusal.{Refusal};
ghost use Rattle.command_line.specs.declared.commands.Check.{Check};
ghost use Rattle.command_line.specs.declared.commands.Command.{Command};
ghost use Rattle.command_line.specs.Commands.{command_of, slots_of};
ghost use Rattle.slot_cli.specs.Changed.{history_to, IsChangeExact};
ghost use Rattle.slot_cli.specs.Due.{arrivals_for, expected, plan_of_run, writing_due};
ghost use Rattle.slot_cli.specs.Printed.{IsPrinted};
ghost use Rattle.slot_cli.specs.Recordings.{IsVerified};
ghost use Rattle.slot_cli.specs.Runs.{in_parts, leaves_output_at, HasFrontAtMost, IsRefusedChange, IsRun, IsTooLarge};
ghost use Rattle.slot_cli.specs.Verdicts.{RunMeansSchedules};

mod change;
pub mod host;
pub mod laws;
mod rows;
mod runs;
mod traces;
mod work;

use command_line::report;
pub use command_line::{File, OUT_OF_MEMORY, Refusal, Status};
pub use host::run_on_host;
use slot_core::Words;
use slot_io::{Files, Sink};
use std::alloc::Global;
use work::work;

/// Does what the words ask for: reads the files that they name, writes to `out`, and puts one line
/// on `err` where it ends otherwise than Done. The order of work is that of `expected`: the plan is
/// read and tested, then a second one, then the arrivals are read, then what is asked of them is
/// checked, as that a recorded trace is lawful, then the text is written. All memory is taken
/// before the first put on `out`; of a text in two parts, that of each part before its first put.
pub fn run<F: Files, K: Sink, E: Sink>(
    alloc: Global,
    words: &Words,
    files: &mut F,
    out: &mut K,
    err: &mut E,
) -> Status
    ensures whole { IsRun words.now (F.held files.old) (F.blamed files.new) (F.given files.new)
        (K.written out.old) (K.written out.new)
        (E.written err.old) (E.written err.new) (E.faults err.old) (E.faults err.new) result }

    // One status each.
    ensures done { result ≡ Status.Done → IfSome (F.held files.old) (λ held. (text : List ℕ)
        × (expected held words.now ≡ Ok text)
        × Appends (K.written out.old) (K.written out.new) text) }
    ensures usage { (result ≡ Status.Usage) ↔ (command_of words.now ≡ None) }
    ensures file_fault { result ≡ Status.FileFault
        → Rose (F.faults files.old) (F.faults files.new) }
    ensures too_large { result ≡ Status.TooLarge → IfSome (F.held files.old)
        (λ held. (file : File) × (expected held words.now ≡ Err (Refusal.TooLarge file))) }
    ensures too_large_file { result ≡ Status.TooLarge
        → (file : File) × IsTooLarge words.now (F.given files.new) file }
    ensures bad_tasks { result ≡ Status.BadTasks → IfSome (F.held files.old)
        (λ held. (fault : TaskFault)
        × ((expected held words.now ≡ Err (Refusal.BadTasks fault))
        ⊎ (expected held words.now ≡ Err (Refusal.BadSecond fault)))) }
    ensures infeasible { result ≡ Status.Infeasible → IfSome (F.held files.old)
        (λ held. (window : Window)
        × ((expected held words.now ≡ Err (Refusal.Infeasible window))
        ⊎ (expected held words.now ≡ Err (Refusal.SecondInfeasible window)))) }
    ensures bad_table { result ≡ Status.BadTable → IfSome (F.held files.old)
        (λ held. (fault : TableFault) × (expected held words.now ≡ Err (Refusal.BadTable fault))) }
    ensures bad_arrivals { result ≡ Status.BadArrivals → IfSome (F.held files.old)
        (λ held. (fault : ArrivalFault)
        × (expected held words.now ≡ Err (Refusal.BadArrivals fault))) }
    ensures not_verified { result ≡ Status.NotVerified → IfSome (F.held files.old)
        (λ held. (reason : List ℕ)
        × (expected held words.now ≡ Err (Refusal.NotVerified reason))) }
    ensures no_row { result ≡ Status.NoRow → IfSome (F.held files.old)
        (λ held. (row : ℕ) × (expected held words.now ≡ Err (Refusal.NoRow row))) }
    ensures switch_refused { result ≡ Status.SwitchRefused → IfSome (F.held files.old)
        (λ held. IsRefusedChange words.now held (K.written out.old) (K.written out.new)) }
    ensures write_fault { result ≡ Status.WriteFault → Rose (K.faults out.old) (K.faults out.new) }

    // What stays untouched.
    ensures done_says_nothing { result ≡ Status.Done → err.new ≡ err.old }
    ensures done_reads_well { result ≡ Status.Done → F.faults files.new ≡ F.faults files.old }
    ensures usage_touches_nothing { result ≡ Status.Usage
        → (files.new ≡ files.old) × (out.new ≡ out.old) }
    ensures refusal_writes_nothing { leaves_output_at (in_parts (command_of words.now)) result
        ≡ true → out.new ≡ out.old }
    ensures refusal_before_writing { IfSome (F.held files.old) (λ held.
        (e : Refusal) → writing_due held words.now ≡ Err e → out.new ≡ out.old) }
    ensures refusal_writes_front { result ≢ Status.Done → result ≢ Status.WriteFault
        → IfSome (F.held files.old) (λ held. HasFrontAtMost (writing_due held words.now)
        (K.written out.old) (K.written out.new)) }

    // What the outcome of the cycle test means over slot schedules, whatever the scheduler.
    ensures verdict { IfSome (F.held files.old) (λ held. RunMeansSchedules words.now held
        (E.written err.old) (E.written err.new) (E.faults err.old) (E.faults err.new) result) }

    // What is printed where it is done: the text of a plan and of arrivals that fit it. In their
    // trace jobs run inside their windows and after their predecessors, an admitted one that is due
    // by the end has ended, and each firm offer in reach is answered exactly.
    ensures printed { result ≡ Status.Done → IfSome (F.held files.old) (λ held.
        IsPrinted words.now held (K.written out.old) (K.written out.new)) }

    // A recorded trace that was to be verified is that of a lawful run, whatever executive it was:
    // its jobs run inside their windows and after their predecessors, and end by their deadlines.
    ensures verified { result ≡ Status.Done → IfSome (F.held files.old) (λ held.
        (command : Command) → command_of words.now ≡ Some command
        → command.check ≡ Check.Verified → IsVerified words.now held command) }

    // Every trace of the plan is served and ordered, whatever arrivals fit it.
    ensures served { IfSome (F.held files.old) (λ held.
        (plan : PlanParts) (slots : ℕ) (arrivals : List Arrival)
        → plan_of_run held words.now ≡ Ok plan → are_fitting plan.tasks slots arrivals ≡ true
        → IsServed plan.tasks plan.cycle (history_of (trace plan.tasks arrivals slots))
        × IsOrdered plan.tasks plan.cycle (history_of (trace plan.tasks arrivals slots))) }

    // Each firm offer in it that is due later, at most a cycle ahead, is answered exactly: accepted
    // where it can be served with the remaining jobs whatever legal arrivals follow, refused for
    // want of room where some leave no slot schedule; without sporadic tasks, exactly where no slot
    // schedule serves it with them.
    ensures offers { IfSome (F.held files.old) (λ held.
        (plan : PlanParts) (slots : ℕ) (arrivals : List Arrival)
        → plan_of_run held words.now ≡ Ok plan → are_fitting plan.tasks slots arrivals ≡ true
        → OffersAreExact plan.tasks plan.cycle (history_of (trace plan.tasks arrivals slots))) }

    // A change from it to any other plan, after such a trace, is granted exactly where it can be
    // served with the jobs that are carried over, whatever legal arrivals of the other plan's
    // sporadic tasks follow; it then serves them all, and else the evidence shows that it cannot.
    ensures changes { IfSome (F.held files.old) (λ held.
        (plan second : PlanParts) (slots : ℕ) (arrivals : List Arrival)
        → plan_of_run held words.now ≡ Ok plan → IsPlan second
        → are_fitting plan.tasks slots arrivals ≡ true
        → IsChangeExact plan second (history_to plan arrivals slots) slots) }

    // It is a plan, and the arrivals of the command fit it.
    ensures fitting { IfSome (F.held files.old) (λ held.
        (command : Command) (plan : PlanParts) (arrivals : List Arrival)
        → command_of words.now ≡ Some command → plan_of_run held words.now ≡ Ok plan
        → arrivals_for held words.now command plan.tasks ≡ Ok arrivals
        → IsPlan plan × (are_fitting plan.tasks (slots_of command) arrivals ≡ true)) }
{
    match work(alloc, words, files, out) {
        Ok(()) => Status::Done,
        Err(refusal) => report(alloc, words, refusal, err).status(),
    }
}
