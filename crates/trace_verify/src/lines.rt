//! The lines of a trace, one by one.

ghost use Rattle.std.specs.Prelude.{◌≡◌, ◌<◌, ◌^◌, ◌+◌, ◌++◌, ◌∷◌, [], ℕ, map, IfOk, true};
ghost use Rattle.std.specs.Str.{bytes_eq};
ghost use Rattle.slot_core.specs.Claims.Lawful.{may_run};
ghost use Rattle.slot_core.specs.Sets.Ranges.{is_sound};
ghost use Rattle.slot_core.specs.Runs.Arrivals.{what_in_set};
ghost use Rattle.slot_core.specs.Runs.Spans.{shown_of};
ghost use Rattle.slot_core.specs.Runs.Traces.{arrive, end_entry, slot, told_of_slot};
ghost use Rattle.sporadic_reserve.specs.Reserves.{without_name};
ghost use Rattle.trace_verify.specs.Checked.{AreDueInOrder, IsChecked};
ghost use Rattle.trace_verify.specs.SceneLines.{first_line_in, next_of, IsCheckedAfter, IsNext, PassesLine, TellsLine};
ghost use Rattle.trace_verify.specs.Verdicts.{in_time, last_line, needed_line, no_more, same_line, told_by, told_where_ready, AnswersAs};

use crate::checker::Checker;
use cycle_plan::Plan;
use faults::VerifyFault;
use key_texts::cut_at;
use slot_core::{Arrival, Entry, Ran, Shown, TaskSet, What};
use trace_text::{entry_line, read_run};

/// The first line, which tells the start, and the text after it.
pub(crate) fn first_line<'a>(
    checker: &Checker,
    plan: &Plan,
    text: &'a [u8],
) -> Result<&'a [u8], VerifyFault>
    requires { IsChecked plan.now.tasks plan.now.cycle checker.now.scene }
    ensures { AnswersAs
        (λ rest. rest.now)
        result
        (first_line_in plan.now.tasks plan.now.cycle checker.now.scene text.now) }
{
    let (line, rest) = needed_line(1, text)?;
    same_line(checker, plan, 0, What::Start, 1, line)?;
    Ok(rest)
}

/// The line of what happens next, which has number `n`, and the text after it: an arrival that is
/// due, or else a slot.
pub(crate) fn pass_line<'a>(
    checker: &mut Checker,
    plan: &Plan,
    n: u64,
    due: Option<Arrival>,
    text: &'a [u8],
) -> Result<&'a [u8], VerifyFault>
    requires checked { IsChecked plan.now.tasks plan.now.cycle checker.old.scene }
    requires tasks { checker.old.sporadics ≡ map without_name plan.now.tasks.sporadics }
    requires next { IsNext plan.now.tasks due checker.old.scene.jobs }
    requires after { IsCheckedAfter
        plan.now.tasks
        plan.now.cycle
        checker.old.scene
        (next_of due) }
    ensures passes { PassesLine
        plan.now.tasks
        plan.now.cycle
        checker.old.scene
        checker.new.scene
        n
        (next_of due)
        text.now
        (λ rest. rest.now)
        result }
    ensures tasks { checker.new.sporadics ≡ checker.old.sporadics }
{
    let (line, rest) = needed_line(n, text)?;
    line_told(checker, plan, n, due, line)?;
    Ok(rest)
}

/// Line n tells what happens next.
fn line_told(
    checker: &mut Checker,
    plan: &Plan,
    n: u64,
    due: Option<Arrival>,
    line: &[u8],
) -> Result<What, VerifyFault>
    requires checked { IsChecked plan.now.tasks plan.now.cycle checker.old.scene }
    requires tasks { checker.old.sporadics ≡ map without_name plan.now.tasks.sporadics }
    requires next { IsNext plan.now.tasks due checker.old.scene.jobs }
    requires after { IsCheckedAfter
        plan.now.tasks
        plan.now.cycle
        checker.old.scene
        (next_of due) }
    ensures told { TellsLine
        plan.now.tasks
        plan.now.cycle
        checker.old.scene
        checker.new.scene
        n
        (next_of due)
        line.now
        result }
    ensures tasks { checker.new.sporadics ≡ checker.old.sporadics }
{
    match due {
        Some(arrival) => answer_line(checker, plan, n, arrival, line),
        None => slot_line(checker, plan, n, line),
    }
}

/// Line n tells the answer to an arrival.
fn answer_line(
    checker: &mut Checker,
    plan: &Plan,
    n: u64,
    arrival: Arrival,
    line: &[u8],
) -> Result<What, VerifyFault>
    requires checked { IsChecked plan.now.tasks plan.now.cycle checker.old.scene }
    requires tasks { checker.old.sporadics ≡ map without_name plan.now.tasks.sporadics }
    requires next { IsNext plan.now.tasks (Some arrival) checker.old.scene.jobs }
    requires after { IsCheckedAfter
        plan.now.tasks
        plan.now.cycle
        checker.old.scene
        (arrive arrival.row arrival.event) }
    ensures told { TellsLine
        plan.now.tasks
        plan.now.cycle
        checker.old.scene
        checker.new.scene
        n
        (arrive arrival.row arrival.event)
        line.now
        result }
    ensures tasks { checker.new.sporadics ≡ checker.old.sporadics }
{
    let time = checker.time();
    let what = checker.answer(plan, arrival)?;
    same_line(checker, plan, time, what, n, line)?;
    Ok(what)
}

/// Line n tells what runs in a slot: it may run, the line is that of it, and no remaining job is
/// past its deadline afterwards.
fn slot_line(checker: &mut Checker, plan: &Plan, n: u64, line: &[u8]) -> Result<What, VerifyFault>
    requires checked { IsChecked plan.now.tasks plan.now.cycle checker.old.scene }
    requires after { IsCheckedAfter plan.now.tasks plan.now.cycle checker.old.scene slot }
    ensures told { TellsLine
        plan.now.tasks
        plan.now.cycle
        checker.old.scene
        checker.new.scene
        n
        slot
        line.now
        result }
    ensures tasks { checker.new.sporadics ≡ checker.old.sporadics }
{
    let ran = told_run(checker, plan.tasks(), n, line)?;
    let time = checker.time();
    checker.pass(plan, ran)?;
    let what = told_of_slot(ran);
    same_line(checker, plan, time, what, n, line)?;
    in_time(checker, n)?;
    Ok(what)
}

/// What line n says ran, which may run.
fn told_run(checker: &Checker, tasks: &TaskSet, n: u64, line: &[u8]) -> Result<Ran, VerifyFault>
    requires sound { is_sound tasks.now ≡ true }
    requires in_order { AreDueInOrder tasks.now checker.now.scene.jobs }
    ensures told { (cycle : ℕ) → AnswersAs
        told_of_slot
        result
        (told_by tasks.now cycle checker.now.scene n slot line.now) }
    ensures known { IfOk result (λ ran. what_in_set tasks.now (told_of_slot ran) ≡ true) }
    ensures may { IfOk result (λ ran. may_run tasks.now checker.now.scene ran ≡ true) }
{
    match read_run(line, tasks) {
        Some(ran) => ready_run(checker, tasks, n, ran),
        None => Err(VerifyFault::NoRun(n)),
    }
}

/// What line n says ran, where it may run.
fn ready_run(checker: &Checker, tasks: &TaskSet, n: u64, ran: Ran) -> Result<Ran, VerifyFault>
    requires known { what_in_set tasks.now (told_of_slot ran) ≡ true }
    requires in_order { AreDueInOrder tasks.now checker.now.scene.jobs }
    ensures told { AnswersAs
        told_of_slot
        result
        (told_where_ready tasks.now checker.now.scene n ran) }
    ensures known { IfOk result (λ told. what_in_set tasks.now (told_of_slot told) ≡ true) }
    ensures may { IfOk result (λ told. may_run tasks.now checker.now.scene told ≡ true) }
{
    match ran {
        Ran::Key(key) if !checker.may_run(tasks, ran) => Err(VerifyFault::NotReady(n, key)),
        _ => Ok(ran),
    }
}

/// What an entry tells of the slot that passed.
fn told_of_slot(ran: Ran) -> What
    ensures { result ≡ told_of_slot ran }
{
    match ran {
        Ran::Idle => What::Idle,
        Ran::Key(key) => What::Run(key),
    }
}

/// No remaining job is past its deadline.
fn in_time(checker: &Checker, n: u64) -> Result<(), VerifyFault>
    ensures { AnswersAs (λ _. tt) result (in_time checker.now.scene n slot) }
{
    match checker.first_late() {
        Some(job) => Err(VerifyFault::Late(n, job.key)),
        None => Ok(()),
    }
}

/// Line n is that of what happened at this time, with the spans of the checker's scene.
fn same_line(
    checker: &Checker,
    plan: &Plan,
    time: u64,
    what: What,
    n: u64,
    line: &[u8],
) -> Result<(), VerifyFault>
    requires checked { IsChecked plan.now.tasks plan.now.cycle checker.now.scene }
    requires known { what_in_set plan.now.tasks what ≡ true }
    ensures { AnswersAs
        (λ _. tt)
        result
        (same_line
        plan.now.tasks
        (record { time = time; what = what; shown = shown_of plan.now.cycle checker.now.scene })
        n
        line.now) }
{
    let shown = checker.shown(plan.tasks(), plan.cycle())?;
    is_line(&Entry { time, what, shown }, plan.tasks(), n, line)
}

/// The last line, which has number n and tells the end; nothing follows it.
pub(crate) fn last_line(tasks: &TaskSet, slots: u64, n: u64, text: &[u8]) -> Result<(), VerifyFault>
    requires { n < 2 ^ 63 }
    ensures { AnswersAs (λ _. tt) result (last_line tasks.now slots n text.now) }
{
    let (line, rest) = needed_line(n, text)?;
    is_line(&end_entry(slots), tasks, n, line)?;
    no_more(n + 1, rest)
}

/// No byte follows, where line n would begin.
fn no_more(n: u64, rest: &[u8]) -> Result<(), VerifyFault>
    ensures { AnswersAs (λ _. tt) result (no_more n rest.now) }
{
    match rest {
        [] => Ok(()),
        [_, ..] => Err(VerifyFault::Trailing(n)),
    }
}

/// The last entry, which shows nothing.
fn end_entry(slots: u64) -> Entry
    ensures { result ≡ end_entry slots }
{
    Entry {
        time: slots,
        what: What::End,
        shown: Shown::new(0),
    }
}

/// Line n is that of the entry.
fn is_line(entry: &Entry, tasks: &TaskSet, n: u64, line: &[u8]) -> Result<(), VerifyFault>
    requires { what_in_set tasks.now entry.now.what ≡ true }
    ensures { AnswersAs (λ _. tt) result (same_line tasks.now entry.now n line.now) }
{
    let wanted = entry_line(entry, tasks);
    if is_ended(line, wanted.bytes()) {
        Ok(())
    } else {
        Err(VerifyFault::Differs(n))
    }
}

/// Whether the line and a line feed are the wanted bytes.
fn is_ended(line: &[u8], wanted: &[u8]) -> bool
    ensures { result ≡ bytes_eq (line.now ++ 10 ∷ []) wanted.now }
{
    match wanted.strip_suffix(b"\n") {
        Some(start) => start == line,
        None => false,
    }
}

/// The line with which the text begins, which has number n, and the text after it.
fn needed_line(n: u64, text: &[u8]) -> Result<(&[u8], &[u8]), VerifyFault>
    ensures { AnswersAs
        (λ parts. (parts.0.now, parts.1.now))
        result
        (needed_line n text.now) }
{
    cut_at(text, b'\n').ok_or(VerifyFault::Short(n))
}
