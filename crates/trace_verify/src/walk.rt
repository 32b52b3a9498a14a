//! The verdict on a recorded trace.

ghost use Rattle.std.specs.Prelude.{◌≡◌, ◌≢◌, ◌≤◌, map, true, IfErr, OnOk};
ghost use Rattle.slot_core.specs.declared.TheConstants.{REPLAY_LIMIT};
ghost use Rattle.slot_core.specs.Runs.Arrivals.{are_fitting};
ghost use Rattle.slot_core.specs.Runs.Matches.{IsSameScene};
ghost use Rattle.scene_steps.specs.Steps.{first_scene};
ghost use Rattle.sporadic_reserve.specs.Reserves.{without_name};
ghost use Rattle.trace_verify.specs.Laws.{IsLawfulText};
ghost use Rattle.trace_verify.specs.SceneLines.{first_due};
ghost use Rattle.trace_verify.specs.Verdicts.{AnswersAs, verdict};
ghost use Rattle.faults.specs.VerifyTexts.{names_known};
ghost use Rattle.faults.specs.declared.verify_fault.VerifyFault.TheVariants.{Memory};

use crate::checker::Checker;
use crate::lines::{first_line, last_line, pass_line};
use cycle_plan::Plan;
use faults::VerifyFault;
use slot_core::Arrival;
use std::alloc::Global;

/// Whether the text is that of a lawful trace of the plan's set, these arrivals and so many slots;
/// else the first fault of its lines, whose key lies in the set. Want of memory may come at any
/// place.
pub fn verify(
    alloc: Global,
    plan: &Plan,
    arrivals: &[Arrival],
    slots: u64,
    text: &[u8],
) -> Result<(), VerifyFault>
    requires few { slots ≤ REPLAY_LIMIT }
    requires fitting { are_fitting plan.now.tasks slots arrivals.now ≡ true }
    ensures told { AnswersAs
        (λ _. tt)
        result
        (verdict plan.now.tasks plan.now.cycle arrivals.now slots text.now) }
    ensures lawful { OnOk result (IsLawfulText plan.now.tasks arrivals.now slots text.now) }
    ensures unlawful { IfErr result (λ fault. fault ≢ Memory
        → ¬ (IsLawfulText plan.now.tasks arrivals.now slots text.now)) }
    ensures named { IfErr result (λ fault. names_known plan.now.tasks fault ≡ true) }
{
    // (so that the prover knows that the plan's set is sound)
    let _tasks = plan.tasks();
    checked(alloc, plan, arrivals, slots, text)
}

/// The verdict on the text, by a checker that starts here.
fn checked(
    alloc: Global,
    plan: &Plan,
    arrivals: &[Arrival],
    slots: u64,
    text: &[u8],
) -> Result<(), VerifyFault>
    requires few { slots ≤ REPLAY_LIMIT }
    requires fitting { are_fitting plan.now.tasks slots arrivals.now ≡ true }
    ensures { AnswersAs
        (λ _. tt)
        result
        (verdict plan.now.tasks plan.now.cycle arrivals.now slots text.now) }
{
    let mut checker = Checker::start(alloc, plan)?;
    walk(&mut checker, plan, arrivals, slots, text)
}

/// The same with a checker that has just started: the line of the start, for each slot those of its
/// arrivals and then that of the slot, and the line of the end.
fn walk(
    checker: &mut Checker,
    plan: &Plan,
    arrivals: &[Arrival],
    slots: u64,
    text: &[u8],
) -> Result<(), VerifyFault>
    requires scene { IsSameScene
        checker.old.scene
        (first_scene plan.now.tasks plan.now.cycle) }
    requires tasks { checker.old.sporadics ≡ map without_name plan.now.tasks.sporadics }
    requires few { slots ≤ REPLAY_LIMIT }
    requires fitting { are_fitting plan.now.tasks slots arrivals.now ≡ true }
    ensures { AnswersAs
        (λ _. tt)
        result
        (verdict plan.now.tasks plan.now.cycle arrivals.now slots text.now) }
{
    let tasks = plan.tasks();
    let mut rest = first_line(checker, plan, text)?;
    let mut left = arrivals;
    let mut n = 2;
    while checker.time() < slots {
        let (due, later) = split_due(left, checker.time());
        rest = pass_line(checker, plan, n, due, rest)?;
        left = later;
        n += 1;
    }
    last_line(tasks, slots, n, rest)
}

/// The first arrival, where it is due at this time, and the others.
fn split_due(left: &[Arrival], time: u64) -> (Option<Arrival>, &[Arrival])
    ensures { (result.0, result.1.now) ≡ first_due time left.now }
{
    match left {
        [first, rest @ ..] if first.slot == time => (Some(*first), rest),
        _ => (None, left),
    }
}
