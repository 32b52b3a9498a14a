//! The steps of the work up to the output. Each gives a value, or the refusal that ends the run.
#![tactic(auto)]

ghost use Rattle.std.specs.Prelude.{◌≡◌, ◌≤◌, ◌%◌, ℕ, true, length, IfOk, IfSome, Ok};
ghost use Rattle.slot_core.specs.declared.TheConstants.{ARRIVAL_LIMIT, LOAD_LIMIT, REPLAY_LIMIT};
ghost use Rattle.slot_core.specs.Runs.Arrivals.{are_fitting};
ghost use Rattle.slot_core.specs.Keeping.Plans.{IsPlan, planned};
ghost use Rattle.slot_core.specs.Sets.Ranges.{is_sound};
ghost use Rattle.load_gen.specs.LoadArrivals.{load_arrivals};
ghost use Rattle.load_gen.specs.Loads.{load_set};
ghost use Rattle.command_line.specs.declared.refusal.Refusal.TheVariants.{NotVerified};
ghost use Rattle.command_line.specs.Refusals.{same_file};
ghost use Rattle.faults.specs.VerifyTexts.{names_known, verify_fault_text};
ghost use Rattle.command_line.specs.Commands.{is_file_of, is_recorded_in, is_second_of, is_verified_in, slots_in, AreInRange, IsCheckInRange, IsLoadNumber};
ghost use Rattle.run_steps.specs.Readings.{arrivals_from, bytes_of, check_from, feasible_plan, fitting_arrivals, lawful_trace, of_second, plan_from, planned_plan, recorded_arrivals, recorded_trace, row_among, second_from, second_plan, sound_set, spelled_plan, whole_cycles};
ghost use Rattle.run_steps.specs.Sets.{set_from};
ghost use Rattle.run_steps.specs.Steps.{IsChecked, IsStep, IsReading};

use arrival_csv::read_arrivals;
use command_line::{Arrivals, Check, File, LOAD_SLOTS, Reason, Refusal, Second, Source};
use cycle_plan::{Plan, PlanFault, make_plan};
use faults::VerifyFault;
use load_gen::{arrivals_of, tasks_of};
use slot_core::{Arrival, TaskSet, Words};
use slot_io::{Files, ReadFault};
use std::alloc::Global;
use trace_verify::{fault_text, verify};

/// The bytes of a file of the command line, where they are within its limit.
fn read_file<F: Files>(
    alloc: Global,
    words: &Words,
    files: &mut F,
    file: File,
) -> Result<Vec<u8>, Refusal>
    ensures { IsReading F.held F.faults F.blamed F.given files.old files.new words.now
        (same_file file) (λ held. bytes_of held words.now file) result (λ bytes. bytes.items) }
{
    match files.read(alloc, file.name(words), file.limit()) {
        Ok(bytes) => {
            if bytes.len() > file.limit() {
                return Err(Refusal::TooLarge(file));
            }
            Ok(bytes)
        }
        Err(ReadFault::Memory) => Err(Refusal::Memory),
        Err(ReadFault::Failed) => Err(Refusal::Unreadable(file)),
    }
}

/// The set that the bytes of the task file write.
fn set_of(alloc: Global, bytes: &[u8]) -> Result<TaskSet, Refusal>
    ensures due { IsStep (sound_set bytes.now) result (λ set. set) }
    ensures sound { IfOk result (λ set. is_sound set ≡ true) }
{
    let set = task_toml::read_tasks(alloc, bytes)?;
    Ok(set)
}

/// The plan of a sound set, where it passes the cycle test.
fn feasible(alloc: Global, set: TaskSet) -> Result<Plan, Refusal>
    requires { is_sound set ≡ true }
    ensures due { IsStep (feasible_plan set) result (λ plan. plan) }
    ensures plan { IfOk result IsPlan }
{
    match make_plan(alloc, set) {
        Ok(plan) => Ok(plan),
        Err(PlanFault::Memory) => Err(Refusal::Memory),
        Err(PlanFault::Infeasible(window)) => Err(Refusal::Infeasible(window)),
    }
}

/// The plan of the set that the bytes of the task file write.
fn planned(alloc: Global, bytes: &[u8]) -> Result<Plan, Refusal>
    ensures due { IsStep (planned_plan bytes.now) result (λ plan. plan) }
    ensures plan { IfOk result IsPlan }
{
    let set = set_of(alloc, bytes)?;
    feasible(alloc, set)
}

/// The plan that the bytes of the table file spell.
fn spelled(alloc: Global, bytes: &[u8]) -> Result<Plan, Refusal>
    ensures due { IsStep (spelled_plan bytes.now) result (λ plan. plan) }
    ensures plan { IfOk result IsPlan }
{
    let plan = table_codec::decode(alloc, bytes)?;
    Ok(plan)
}

/// The plan of the load of this number.
fn generated(alloc: Global, n: u32) -> Result<Plan, Refusal>
    requires some { 1 ≤ n }
    requires few { n ≤ LOAD_LIMIT }
    ensures due { IsStep (Ok (planned (load_set n))) result (λ plan. plan) }
    ensures plan { IfOk result IsPlan }
{
    let set = tasks_of(alloc, n)?;
    feasible(alloc, set)
}

/// The plan, from where it comes.
pub fn plan_from<F: Files>(
    alloc: Global,
    words: &Words,
    files: &mut F,
    source: Source,
) -> Result<Plan, Refusal>
    requires { IsLoadNumber source }
    ensures reading { IsReading F.held F.faults F.blamed F.given files.old files.new words.now
        (is_file_of source) (λ held. plan_from held words.now source) result (λ plan. plan) }
    ensures plan { IfOk result IsPlan }
    ensures load { (n : ℕ) → source ≡ Source.Load n
        → IfOk result (λ plan. plan.tasks ≡ load_set n) }
{
    match source {
        Source::Tasks => {
            let bytes = read_file(alloc, words, files, File::Tasks)?;
            planned(alloc, bytes.as_slice())
        }
        Source::Spelled => {
            let bytes = read_file(alloc, words, files, File::Table)?;
            spelled(alloc, bytes.as_slice())
        }
        Source::Load(n) => generated(alloc, n),
    }
}

/// The sound set of the task file, before the cycle test.
pub fn tasks_from<F: Files>(alloc: Global, words: &Words, files: &mut F) -> Result<TaskSet, Refusal>
    ensures reading { IsReading F.held F.faults F.blamed F.given files.old files.new words.now
        (same_file File.Tasks) (λ held. set_from held words.now Source.Tasks) result
        (λ set. set) }
    ensures sound { IfOk result (λ set. is_sound set ≡ true) }
{
    let bytes = read_file(alloc, words, files, File::Tasks)?;
    set_of(alloc, bytes.as_slice())
}

/// The refusal of a task file, as one of the second task file.
fn of_second(refusal: Refusal) -> Refusal
    ensures { result ≡ of_second refusal }
{
    match refusal {
        Refusal::BadTasks(fault) => Refusal::BadSecond(fault),
        Refusal::Infeasible(window) => Refusal::SecondInfeasible(window),
        other => other,
    }
}

/// The plan of the set that the bytes of the second task file write.
fn second_planned(alloc: Global, bytes: &[u8]) -> Result<Option<Plan>, Refusal>
    ensures due { IsStep (second_plan bytes.now) result (λ second. second) }
    ensures plan { IfOk result (λ second. IfSome second IsPlan) }
{
    match planned(alloc, bytes) {
        Ok(plan) => Ok(Some(plan)),
        Err(refusal) => Err(of_second(refusal)),
    }
}

/// The second plan, if there is one.
pub fn second_from<F: Files>(
    alloc: Global,
    words: &Words,
    files: &mut F,
    second: Second,
) -> Result<Option<Plan>, Refusal>
    ensures reading { IsReading F.held F.faults F.blamed F.given files.old files.new words.now
        (is_second_of second) (λ held. second_from held words.now second) result
        (λ second. second) }
    ensures plan { IfOk result (λ second. IfSome second IsPlan) }
{
    match second {
        Second::Unread => Ok(None),
        Second::Read => {
            let bytes = read_file(alloc, words, files, File::Second)?;
            second_planned(alloc, bytes.as_slice())
        }
    }
}

/// The arrivals that the bytes of the arrivals file write, for this many slots of the set.
fn fitting(
    alloc: Global,
    bytes: &[u8],
    slots: u64,
    tasks: &TaskSet,
) -> Result<Vec<Arrival>, Refusal>
    requires some { 1 ≤ slots }
    requires few { slots ≤ REPLAY_LIMIT }
    requires sound { is_sound tasks.now ≡ true }
    ensures due { IsStep (fitting_arrivals bytes.now slots tasks.now) result
        (λ arrivals. arrivals.items) }
    ensures fitting { IfOk result (λ arrivals. are_fitting tasks.now slots arrivals.items ≡ true) }
{
    let arrivals = read_arrivals(alloc, bytes, slots, tasks)?;
    Ok(arrivals)
}

/// The recorded arrivals in the arrivals file.
fn recorded<F: Files>(
    alloc: Global,
    words: &Words,
    files: &mut F,
    slots: u64,
    tasks: &TaskSet,
) -> Result<Vec<Arrival>, Refusal>
    requires some { 1 ≤ slots }
    requires few { slots ≤ REPLAY_LIMIT }
    requires sound { is_sound tasks.now ≡ true }
    ensures reading { IsReading F.held F.faults F.blamed F.given files.old files.new words.now
        (same_file File.Arrivals) (λ held. recorded_arrivals held words.now slots tasks.now) result
        (λ arrivals. arrivals.items) }
    ensures fitting { IfOk result (λ arrivals. are_fitting tasks.now slots arrivals.items ≡ true) }
{
    let bytes = read_file(alloc, words, files, File::Arrivals)?;
    fitting(alloc, bytes.as_slice(), slots, tasks)
}

/// The arrivals of the load of this number over this many slots.
fn generated_arrivals(alloc: Global, n: u32, slots: u32) -> Result<Vec<Arrival>, Refusal>
    requires load_some { 1 ≤ n }
    requires load_few { n ≤ LOAD_LIMIT }
    requires some { 1 ≤ slots }
    requires few { slots ≤ ARRIVAL_LIMIT }
    ensures due { IsStep (Ok (load_arrivals n slots)) result (λ arrivals. arrivals.items) }
    ensures fitting { IfOk result
        (λ arrivals. are_fitting (load_set n) slots arrivals.items ≡ true) }
{
    let arrivals = arrivals_of(alloc, n, slots)?;
    Ok(arrivals)
}

/// The arrivals, from where they come: none, those recorded, or those of a load.
pub fn arrivals_from<F: Files>(
    alloc: Global,
    words: &Words,
    files: &mut F,
    arrivals: Arrivals,
    tasks: &TaskSet,
) -> Result<Vec<Arrival>, Refusal>
    requires in_range { AreInRange arrivals }
    requires sound { is_sound tasks.now ≡ true }
    requires load { (n : ℕ) → arrivals ≡ Arrivals.Generated n → tasks.now ≡ load_set n }
    ensures reading { IsReading F.held F.faults F.blamed F.given files.old files.new words.now
        (is_recorded_in arrivals) (λ held. arrivals_from held words.now arrivals tasks.now) result
        (λ arrivals. arrivals.items) }
    ensures fitting { IfOk result (λ made.
        are_fitting tasks.now (slots_in arrivals) made.items ≡ true) }
{
    match arrivals {
        Arrivals::Absent => Ok(Vec::new(alloc)),
        Arrivals::Recorded(slots) => recorded(alloc, words, files, u64::from(slots), tasks),
        Arrivals::Generated(n) => generated_arrivals(alloc, n, LOAD_SLOTS),
    }
}

/// Whether the bytes are the text of a lawful trace of the plan, these arrivals and this many
/// slots.
fn lawful(
    alloc: Global,
    bytes: &[u8],
    slots: u64,
    plan: &Plan,
    arrivals: &[Arrival],
) -> Result<(), Refusal>
    requires few { slots ≤ REPLAY_LIMIT }
    requires fitting { are_fitting plan.now.tasks slots arrivals.now ≡ true }
    ensures { IsStep (lawful_trace bytes.now slots plan.now arrivals.now) result (λ _. tt) }
{
    match verify(alloc, plan, arrivals, slots, bytes) {
        Ok(()) => Ok(()),
        Err(VerifyFault::Memory) => Err(Refusal::Memory),
        Err(fault) => Err(not_verified(fault, plan.tasks())),
    }
}

/// The refusal for this fault of a trace of the set.
fn not_verified(fault: VerifyFault, tasks: &TaskSet) -> Refusal
    requires { names_known tasks.now fault ≡ true }
    ensures { result ≡ NotVerified (verify_fault_text tasks.now fault) }
{
    Refusal::NotVerified(Reason::of(fault_text(fault, tasks).bytes()))
}

/// Whether the trace file holds the text of a lawful trace.
fn recorded_trace<F: Files>(
    alloc: Global,
    words: &Words,
    files: &mut F,
    slots: u64,
    plan: &Plan,
    arrivals: &[Arrival],
) -> Result<(), Refusal>
    requires few { slots ≤ REPLAY_LIMIT }
    requires fitting { are_fitting plan.now.tasks slots arrivals.now ≡ true }
    ensures { IsReading F.held F.faults F.blamed F.given files.old files.new words.now
        (same_file File.Trace)
        (λ held. recorded_trace held words.now slots plan.now arrivals.now) result (λ _. tt) }
{
    let bytes = read_file(alloc, words, files, File::Trace)?;
    lawful(alloc, bytes.as_slice(), slots, plan, arrivals)
}

/// Whether the arrivals have this row.
fn row_among(row: u32, arrivals: &[Arrival]) -> Result<(), Refusal>
    ensures due { IsStep (row_among row arrivals.now) result (λ _. tt) }
    ensures there { IfOk result (λ _. row ≤ length arrivals.now) }
{
    if arrivals.len() < row as usize {
        return Err(Refusal::NoRow(row));
    }
    Ok(())
}

/// Whether this many slots are whole cycles of the plan.
fn whole_cycles(plan: &Plan, slots: u32) -> Result<(), Refusal>
    ensures due { IsStep (whole_cycles plan.now.cycle slots) result (λ _. tt) }
    ensures turn { IfOk result (λ _. slots % plan.now.cycle ≡ 0) }
{
    let cycle = plan.cycle();
    if slots % cycle == 0 {
        Ok(())
    } else {
        Err(Refusal::NotCycleEnd(cycle))
    }
}

/// What is asked of the arrivals of this many slots, before anything is written.
pub fn check_arrivals<F: Files>(
    alloc: Global,
    words: &Words,
    files: &mut F,
    check: Check,
    slots: u32,
    plan: &Plan,
    arrivals: &[Arrival],
) -> Result<(), Refusal>
    requires in_range { IsCheckInRange slots check }
    requires fitting { are_fitting plan.now.tasks slots arrivals.now ≡ true }
    ensures reading { IsReading F.held F.faults F.blamed F.given files.old files.new words.now
        (is_verified_in check)
        (λ held. check_from held words.now check slots plan.now arrivals.now) result (λ _. tt) }
    ensures checked { IfOk result (λ _. IsChecked check slots plan.now arrivals.now) }
{
    match check {
        Check::Unchecked => Ok(()),
        Check::Verified => recorded_trace(alloc, words, files, u64::from(slots), plan, arrivals),
        Check::HasRow(row) => row_among(row, arrivals),
        Check::AtCycleEnd => whole_cycles(plan, slots),
    }
}
