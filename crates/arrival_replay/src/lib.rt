//! The replay of recorded arrivals: an executive is driven through them slot by slot, and each
//! entry of the trace is handed to a taker.
#![tactic(auto)]

ghost use Rattle.std.specs.Prelude.{◌≡◌, ◌≢◌, ◌⊎◌, ◌≤◌, ◌<◌, ◌+◌, ◌-◌, [], ◌∷◌, true, false, length, slice_get, OnErr, OnOk, IfOk, IfSome, Some};
ghost use Rattle.std.specs.Option.{option_copied};
ghost use Rattle.std.specs.Io.KnownBytes.{Appends};
ghost use Rattle.slot_core.specs.declared.TheConstants.{REPLAY_LIMIT, TIME_LIMIT};
ghost use Rattle.slot_core.specs.declared.events.Arrival.{Arrival};
ghost use Rattle.slot_core.specs.Runs.Arrivals.{are_fitting, event_may_come, event_names_known, what_in_set};
ghost use Rattle.slot_core.specs.Calls.Counts.{Rose};
ghost use Rattle.slot_core.specs.Keeping.Executives.{Does, Shows, StandsFor};
ghost use Rattle.slot_core.specs.Runs.Histories.{History};
ghost use Rattle.slot_core.specs.Keeping.Plans.{IsPlan};
ghost use Rattle.slot_core.specs.Output.Texts.{entry_line, trace_text};
ghost use Rattle.slot_core.specs.Runs.Scenes.{scene_of};
ghost use Rattle.slot_core.specs.Runs.ShownSpans.{ShownSpans};
ghost use Rattle.slot_core.specs.Runs.Spans.{shown_of};
ghost use Rattle.slot_core.specs.declared.events.What.{What};
ghost use Rattle.slot_core.specs.Runs.Traces.{arrive, end_entry, history_of, shown_entry, slot, trace};
ghost use Rattle.slot_io.specs.Sinks.{AppendsPart};
ghost use Rattle.trace_text.specs.Takers.{AppendsBroken};
ghost use Rattle.arrival_replay.specs.Replays.{due_arrival, entry_of, is_on_the_way, may_change_spans, next_occurrence, BreaksOff, IsStopped, StandsBefore, Stays};
ghost use Rattle.arrival_replay.specs.declared.Stay.{Stay};

mod silent;
mod teller;

use crate::silent::Silent;
use crate::teller::Each;
use interval_row::SpareTable;
use slot_core::{
    Arrival, Done, Entry, Event, Failed, Firm, Gone, Ran, Shown, Spo, Steps, Taker, What,
};
use slot_exec::Exec;
use slot_io::Sink;
use std::marker::Brand;
use std::sync::ledger::{Blank, Ledger};
use trace_text::{Teller, TextTaker, entry_line};

/// Drives an executive that has just started through this many slots with these arrivals, and hands
/// the taker each entry of the trace: the start, for each slot its arrivals in order and what ran,
/// and the end. It ends at the first entry that is not taken, and takes no memory.
pub fn drive<T: SpareTable, W: Taker>(
    exec: &mut Exec<T>,
    arrivals: &[Arrival],
    slots: u64,
    taker: &mut W,
) -> Result<(), Failed>
    requires started { StandsFor exec.old [] }
    requires some { 1 ≤ slots }
    requires few { slots ≤ REPLAY_LIMIT }
    requires fitting { are_fitting exec.old.plan.tasks slots arrivals.now ≡ true }

    // The whole trace is taken, and the executive stands for its history.
    ensures took { OnOk result (W.took
        exec.old.plan.tasks
        taker.old
        taker.new
        (trace exec.old.plan.tasks arrivals.now slots)) }
    ensures stands { OnOk result (StandsFor
        exec.new
        (history_of (trace exec.old.plan.tasks arrivals.now slots))) }
    ensures time { OnOk result (exec.new.scene.time ≡ slots) }

    // Or the trace breaks off at an entry, and the executive stands for the history up to there.
    ensures broke { OnErr result (BreaksOff
        (W.broke exec.old.plan.tasks taker.old taker.new)
        exec.new
        (trace exec.old.plan.tasks arrivals.now slots)) }
    ensures plan { exec.new.plan ≡ exec.old.plan }
    ensures counted { W.faults taker.old ≤ W.faults taker.new }
    ensures failed { OnErr result (Rose (W.faults taker.old) (W.faults taker.new)) }
{
    tell_all(exec, arrivals, slots, &mut Each { taker })
}

/// Brings an executive that has just started to where the arrival of this row, counted from 1,
/// comes next: all slots before its own have passed, and all arrivals before it were answered. It
/// tells nobody, refuses nothing and takes no memory.
pub fn advance<T: SpareTable>(exec: &mut Exec<T>, arrivals: &[Arrival], slots: u64, row: u32)
    requires started { StandsFor exec.old [] }
    requires some { 1 ≤ slots }
    requires few { slots ≤ REPLAY_LIMIT }
    requires fitting { are_fitting exec.old.plan.tasks slots arrivals.now ≡ true }
    requires first { 1 ≤ row }
    requires there { row ≤ length arrivals.now }

    // The executive stands for the history before the entry of that arrival in the trace.
    ensures before { (a : Arrival) → slice_get arrivals.now (row - 1) ≡ Some a → StandsBefore
        exec.new
        (trace exec.old.plan.tasks arrivals.now slots)
        a }
    ensures last_row { exec.new.last_row ≡ row - 1 }
    ensures plan { exec.new.plan ≡ exec.old.plan }
{
    let place = row as usize - 1;
    go_to::<T, Silent, Brand>(exec, arrivals, slots, place, &mut Silent, Blank::new(1)).unwrap();
}

/// Writes the text of the same trace to a sink, one put a line.
pub fn replay<T: SpareTable, K: Sink>(
    exec: &mut Exec<T>,
    arrivals: &[Arrival],
    slots: u64,
    out: &mut K,
) -> Result<(), Failed>
    requires started { StandsFor exec.old [] }
    requires some { 1 ≤ slots }
    requires few { slots ≤ REPLAY_LIMIT }
    requires fitting { are_fitting exec.old.plan.tasks slots arrivals.now ≡ true }
    ensures text { OnOk result (Appends
        (K.written out.old)
        (K.written out.new)
        (trace_text
        exec.old.plan.tasks
        (trace exec.old.plan.tasks arrivals.now slots))) }
    ensures stands { OnOk result (StandsFor
        exec.new
        (history_of (trace exec.old.plan.tasks arrivals.now slots))) }
    ensures time { OnOk result (exec.new.scene.time ≡ slots) }
    ensures broke { OnErr result (BreaksOff
        (AppendsBroken (K.written out.old) (K.written out.new) exec.old.plan.tasks)
        exec.new
        (trace exec.old.plan.tasks arrivals.now slots)) }
    ensures part { OnErr result (AppendsPart
        (K.written out.old)
        (K.written out.new)
        (trace_text
        exec.old.plan.tasks
        (trace exec.old.plan.tasks arrivals.now slots))) }
    ensures plan { exec.new.plan ≡ exec.old.plan }
    ensures counted { K.faults out.old ≤ K.faults out.new }
    ensures failed { OnErr result (Rose (K.faults out.old) (K.faults out.new)) }
{
    tell_all(exec, arrivals, slots, &mut TextTaker::over(out))
}

/// `drive`, with a taker that is told where spans stay.
fn tell_all<T: SpareTable, W: Teller>(
    exec: &mut Exec<T>,
    arrivals: &[Arrival],
    slots: u64,
    taker: &mut W,
) -> Result<(), Failed>
    requires started { StandsFor exec.old [] }
    requires some { 1 ≤ slots }
    requires few { slots ≤ REPLAY_LIMIT }
    requires fitting { are_fitting exec.old.plan.tasks slots arrivals.now ≡ true }
    ensures took { OnOk result (W.took
        exec.old.plan.tasks
        taker.old
        taker.new
        (trace exec.old.plan.tasks arrivals.now slots)) }
    ensures stands { OnOk result (StandsFor
        exec.new
        (history_of (trace exec.old.plan.tasks arrivals.now slots))) }
    ensures time { OnOk result (exec.new.scene.time ≡ slots) }
    ensures broke { OnErr result (BreaksOff
        (W.broke exec.old.plan.tasks taker.old taker.new)
        exec.new
        (trace exec.old.plan.tasks arrivals.now slots)) }
    ensures plan { exec.new.plan ≡ exec.old.plan }
    ensures counted { W.faults taker.old ≤ W.faults taker.new }
    ensures failed { OnErr result (Rose (W.faults taker.old) (W.faults taker.new)) }
{
    let place = arrivals.len();
    go_to::<T, W, Brand>(exec, arrivals, slots, place, taker, Blank::new(1))?;
    end(exec, slots, taker)
}

/// Answers this arrival now, whatever slot it names, and writes the line of its entry to a sink, in
/// one put.
/// Ok is what the entry tells. It takes no memory.
pub fn tell_arrival<T: SpareTable, K: Sink>(
    exec: &mut Exec<T>,
    arrival: Arrival,
    out: &mut K,
) -> Result<What, Failed>
    requires later { exec.old.last_row < arrival.row }
    requires may_come { event_may_come exec.old.plan.tasks arrival.event ≡ true }
    requires named { event_names_known exec.old.plan.tasks arrival.event ≡ true }
    ensures entry { (h : History) → StandsFor exec.old h → OnOk result (Appends
        (K.written out.old)
        (K.written out.new)
        (entry_line exec.old.plan.tasks (entry_of exec.old.plan h arrival))) }
    ensures part { (h : History) → StandsFor exec.old h → OnErr result (AppendsPart
        (K.written out.old)
        (K.written out.new)
        (entry_line exec.old.plan.tasks (entry_of exec.old.plan h arrival))) }
    ensures what { (h : History) → StandsFor exec.old h
        → IfOk result (λ what. what ≡ (entry_of exec.old.plan h arrival).what) }
    ensures stands { (h : History) → StandsFor exec.old h
        → StandsFor exec.new ((entry_of exec.old.plan h arrival).what ∷ h) }
    ensures plan { exec.new.plan ≡ exec.old.plan }
    ensures counted { K.faults out.old ≤ K.faults out.new }
    ensures failed { OnErr result (Rose (K.faults out.old) (K.faults out.new)) }
{
    tell_answer::<T, K, Brand>(exec, arrival, out, Blank::new(1))
}

/// `tell_arrival`, with steps that nobody asks for.
fn tell_answer<T: SpareTable, K: Sink, L: Ledger>(
    exec: &mut Exec<T>,
    arrival: Arrival,
    out: &mut K,
    blank: Blank,
) -> Result<What, Failed>
    requires name { blank.name ≡ L.name }
    requires parts { blank.parts ≡ L.parts }
    requires ledger { 0 < L.parts }
    requires later { exec.old.last_row < arrival.row }
    requires may_come { event_may_come exec.old.plan.tasks arrival.event ≡ true }
    requires named { event_names_known exec.old.plan.tasks arrival.event ≡ true }
    ensures entry { (h : History) → StandsFor exec.old h → OnOk result (Appends
        (K.written out.old)
        (K.written out.new)
        (entry_line exec.old.plan.tasks (entry_of exec.old.plan h arrival))) }
    ensures part { (h : History) → StandsFor exec.old h → OnErr result (AppendsPart
        (K.written out.old)
        (K.written out.new)
        (entry_line exec.old.plan.tasks (entry_of exec.old.plan h arrival))) }
    ensures what { (h : History) → StandsFor exec.old h
        → IfOk result (λ what. what ≡ (entry_of exec.old.plan h arrival).what) }
    ensures stands { (h : History) → StandsFor exec.old h
        → StandsFor exec.new ((entry_of exec.old.plan h arrival).what ∷ h) }
    ensures plan { exec.new.plan ≡ exec.old.plan }
    ensures counted { K.faults out.old ≤ K.faults out.new }
    ensures failed { OnErr result (Rose (K.faults out.old) (K.faults out.new)) }
{
    let mut steps: Steps<L> = Steps::new(blank);
    let time = exec.now();
    let mut what = What::Idle;
    answer(exec, &arrival, &mut what, &mut steps);
    tell_line(exec, time, what, out, &mut steps)?;
    Ok(what)
}

/// Writes the line of what happened at this time, with the first spans after it, in one put.
fn tell_line<T: SpareTable, K: Sink, L: Ledger>(
    exec: &Exec<T>,
    time: u64,
    what: What,
    out: &mut K,
    steps: &mut Steps<L>,
) -> Result<(), Failed>
    requires named { what_in_set exec.now.plan.tasks what ≡ true }
    ensures line { (h : History) → StandsFor exec.now h → OnOk result (Appends
        (K.written out.old)
        (K.written out.new)
        (entry_line
        exec.now.plan.tasks
        (shown_entry exec.now.plan.tasks exec.now.plan.cycle time what h))) }
    ensures part { (h : History) → StandsFor exec.now h → OnErr result (AppendsPart
        (K.written out.old)
        (K.written out.new)
        (entry_line
        exec.now.plan.tasks
        (shown_entry exec.now.plan.tasks exec.now.plan.cycle time what h))) }
    ensures counted { K.faults out.old ≤ K.faults out.new }
    ensures failed { OnErr result (Rose (K.faults out.old) (K.faults out.new)) }
{
    let entry = entry_at(exec, time, what, steps);
    out.put(entry_line(&entry, exec.tasks()).bytes())
}

/// Drives an executive that has just started up to where the arrival at this place comes next, or
/// where there is none, up to the end. Nobody asks for the steps.
fn go_to<T: SpareTable, W: Teller, L: Ledger>(
    exec: &mut Exec<T>,
    arrivals: &[Arrival],
    slots: u64,
    place: usize,
    taker: &mut W,
    blank: Blank,
) -> Result<(), Failed>
    requires name { blank.name ≡ L.name }
    requires parts { blank.parts ≡ L.parts }
    requires ledger { 0 < L.parts }
    requires started { StandsFor exec.old [] }
    requires some { 1 ≤ slots }
    requires few { slots ≤ REPLAY_LIMIT }
    requires fitting { are_fitting exec.old.plan.tasks slots arrivals.now ≡ true }
    requires place { place ≤ length arrivals.now }
    ensures stopped { OnOk result (IsStopped
        (W.took exec.old.plan.tasks taker.old taker.new)
        exec.new
        (trace exec.old.plan.tasks arrivals.now slots)
        slots
        (slice_get arrivals.now place)) }
    ensures last_row { OnOk result (exec.new.last_row ≡ place) }
    ensures broke { OnErr result (BreaksOff
        (W.broke exec.old.plan.tasks taker.old taker.new)
        exec.new
        (trace exec.old.plan.tasks arrivals.now slots)) }
    ensures plan { exec.new.plan ≡ exec.old.plan }
    ensures counted { W.faults taker.old ≤ W.faults taker.new }
    ensures failed { OnErr result (Rose (W.faults taker.old) (W.faults taker.new)) }
{
    let mut steps: Steps<L> = Steps::new(blank);
    let mut entry = entry_at(exec, 0, What::Start, &mut steps);
    tell(exec, &entry, taker, Stay::Nothing)?;
    let mut next = 0;
    while is_on_the_way(exec.now(), arrivals, slots, place, next) {
        let time = exec.now();
        let due = due_arrival(arrivals, next, time);
        if due.is_some() {
            next += 1;
        }
        entry.time = time;
        let stay = happen_in(exec, due, &mut entry, &mut steps);
        tell(exec, &entry, taker, stay)?;
    }
    Ok(())
}

/// Whether at this time slots are left, and the next arrival is not yet that of the place, or not
/// due.
#[inline(always)]
fn is_on_the_way(time: u64, arrivals: &[Arrival], slots: u64, place: usize, next: usize) -> bool
    ensures { result ≡ is_on_the_way arrivals.now slots place next time }
{
    time < slots && (next < place || due_arrival(arrivals, next, time).is_none())
}

/// The arrival at this place, where it is due at this time.
#[inline(always)]
fn due_arrival(arrivals: &[Arrival], place: usize, time: u64) -> Option<&Arrival>
    ensures { option_copied result ≡ due_arrival arrivals.now place time }
{
    match arrivals.get(place) {
        Some(arrival) if arrival.slot == time => Some(arrival),
        _ => None,
    }
}

/// What comes next happens: the executive answers the arrival that is due, and where none is, a
/// slot passes.
#[inline(always)]
pub fn happen<T: SpareTable, L: Ledger>(
    exec: &mut Exec<T>,
    due: Option<Arrival>,
    steps: &mut Steps<L>,
) -> What
    requires early { exec.old.scene.time < TIME_LIMIT }
    requires later { IfSome due (λ a. exec.old.last_row < a.row) }
    requires may_come { IfSome due (λ a. event_may_come exec.old.plan.tasks a.event ≡ true) }
    ensures does { Does exec.old exec.new (next_occurrence due) result }
{
    match due {
        Some(arrival) => {
            let mut what = What::Idle;
            answer(exec, &arrival, &mut what, steps);
            what
        }
        None => match exec.slot(steps) {
            Ran::Key(key) => What::Run(key),
            Ran::Idle => What::Idle,
        },
    }
}

/// Which of the spans that an entry shows are those of the last one.
#[derive(Clone, Copy)]
enum Stay {
    /// They may all be others.
    Nothing,
    /// All after the first, with the number of those that are not shown.
    Others,
    /// All of them.
    All,
}

/// `happen`, which writes what it was, and the first spans after it, into this entry at once: a
/// copy, in large pieces, of what was just written in small ones waits for them.
#[inline(always)]
fn happen_in<T: SpareTable, L: Ledger>(
    exec: &mut Exec<T>,
    due: Option<&Arrival>,
    entry: &mut Entry,
    steps: &mut Steps<L>,
) -> Stay
    requires early { exec.old.scene.time < TIME_LIMIT }
    requires later { IfSome (option_copied due) (λ a. exec.old.last_row < a.row) }
    requires may_come { IfSome (option_copied due)
        (λ a. event_may_come exec.old.plan.tasks a.event ≡ true) }
    requires shown { (h : History) × StandsFor exec.old h × (entry.old.shown
        ≡ shown_of exec.old.plan.cycle (scene_of exec.old.plan.tasks exec.old.plan.cycle h)) }
    ensures does { Does
        exec.old
        exec.new
        (next_occurrence (option_copied due.entry))
        entry.new.what }
    ensures shown { (h : History) → StandsFor exec.old h → entry.old.shown
        ≡ shown_of exec.old.plan.cycle (scene_of exec.old.plan.tasks exec.old.plan.cycle h)
        → entry.new.shown
        ≡ shown_of
        exec.old.plan.cycle
        (scene_of exec.old.plan.tasks exec.old.plan.cycle (entry.new.what ∷ h)) }
    ensures time { entry.new.time ≡ entry.old.time }
    ensures stay { Stays result entry.old.shown entry.new.shown }
{
    match due {
        Some(arrival) => {
            answer(exec, arrival, &mut entry.what, steps);
            renew(entry, exec, steps)
        }
        None => {
            if exec.slot_in(&mut entry.what, &mut entry.shown, steps) {
                Stay::Others
            } else {
                Stay::Nothing
            }
        }
    }
}

/// The executive answers an arrival, which is told in this place.
fn answer<T: SpareTable, L: Ledger>(
    exec: &mut Exec<T>,
    arrival: &Arrival,
    what: &mut What,
    steps: &mut Steps<L>,
)
    requires later { exec.old.last_row < arrival.now.row }
    requires may_come { event_may_come exec.old.plan.tasks arrival.now.event ≡ true }
    ensures does { Does exec.old exec.new (arrive arrival.now.row arrival.now.event) what.new }
{
    let row = arrival.row;
    match arrival.event {
        Event::Soft(slots) => *what = What::Soft(row, slots, exec.soft(row, slots)),
        Event::Firm(slots, within) => {
            *what = What::Firm(row, slots, within, exec.firm(row, slots, within, steps));
        }
        Event::Sporadic(index) => {
            *what = What::Sporadic(row, index, exec.sporadic(row, index, steps));
        }
        Event::Done(key) => *what = What::Done(row, key, exec.done(row, key, steps)),
        Event::Withdraw(firm) => *what = What::Withdraw(row, firm, exec.withdraw(row, firm, steps)),
    }
}

/// The entry, which tells how an arrival was answered, shows the first spans after it. They are
/// read only where they may have changed.
#[inline(always)]
fn renew<T: SpareTable, L: Ledger>(entry: &mut Entry, exec: &Exec<T>, steps: &mut Steps<L>) -> Stay
    ensures what { entry.new.what ≡ entry.old.what }
    ensures time { entry.new.time ≡ entry.old.time }
    ensures read { may_change_spans entry.old.what ≡ true → Shows exec.now entry.new.shown }
    ensures kept { may_change_spans entry.old.what ≡ false → entry.new.shown ≡ entry.old.shown }
    ensures stay { Stays result entry.old.shown entry.new.shown }
{
    if may_change_spans(&entry.what) {
        exec.shown_in(&mut entry.shown, steps);
        Stay::Nothing
    } else {
        Stay::All
    }
}

/// Whether what happened may have changed the spans: soft work, a refused arrival, and an early end
/// or a withdrawal that found no job change none.
#[inline(always)]
fn may_change_spans(what: &What) -> bool
    ensures { result ≡ may_change_spans what.now }
{
    match *what {
        What::Soft(_, _, _)
        | What::Firm(_, _, _, Firm::Late | Firm::Far | Firm::NoRoom(_))
        | What::Sporadic(_, _, Spo::Soon(_))
        | What::Done(_, _, Done::NotRunning)
        | What::Withdraw(_, _, Gone::NoJob) => false,
        _ => true,
    }
}

/// Hands over an entry, of which these spans are those of the last one. This call also tells that
/// the executive has a plan.
#[inline(always)]
fn tell<T: SpareTable, W: Teller>(
    exec: &Exec<T>,
    entry: &Entry,
    taker: &mut W,
    stay: Stay,
) -> Result<(), Failed>
    requires named { what_in_set exec.now.plan.tasks entry.now.what ≡ true }
    requires some { entry.now.what ≢ What.End }
    requires kept { (stay ≡ Stay.Nothing) ⊎ ((before : ShownSpans)
        × Stays stay before entry.now.shown × W.keeps taker.old before) }
    ensures plan { IsPlan exec.now.plan }
    ensures took { OnOk result (W.took exec.now.plan.tasks taker.old taker.new (entry.now ∷ [])) }
    ensures broke { OnErr result (W.broke
        exec.now.plan.tasks
        taker.old
        taker.new
        (entry.now ∷ [])) }
    ensures counted { W.faults taker.old ≤ W.faults taker.new }
    ensures failed { OnErr result (Rose (W.faults taker.old) (W.faults taker.new)) }
    ensures keeps { W.keeps taker.new entry.now.shown }
{
    match stay {
        Stay::Nothing => taker.take_new(entry, exec.tasks()),
        Stay::Others => taker.take_others(entry, exec.tasks()),
        Stay::All => taker.take_again(entry, exec.tasks()),
    }
}

/// The entry of what happened at this time, with the first spans after it.
#[inline(always)]
fn entry_at<T: SpareTable, L: Ledger>(
    exec: &Exec<T>,
    time: u64,
    what: What,
    steps: &mut Steps<L>,
) -> Entry
    ensures what { result.what ≡ what }
    ensures entry { (h : History) → StandsFor exec.now h
        → result ≡ shown_entry exec.now.plan.tasks exec.now.plan.cycle time what h }
{
    let mut entry = Entry {
        time,
        what,
        shown: Shown::new(0),
    };
    exec.shown_in(&mut entry.shown, steps);
    entry
}

/// Hands over the end.
fn end<T: SpareTable, W: Taker>(exec: &Exec<T>, slots: u64, taker: &mut W) -> Result<(), Failed>
    ensures took { OnOk result (W.took
        exec.now.plan.tasks
        taker.old
        taker.new
        (end_entry slots ∷ [])) }
    ensures broke { OnErr result (W.broke
        exec.now.plan.tasks
        taker.old
        taker.new
        (end_entry slots ∷ [])) }
    ensures counted { W.faults taker.old ≤ W.faults taker.new }
    ensures failed { OnErr result (Rose (W.faults taker.old) (W.faults taker.new)) }
{
    let last = Entry {
        time: slots,
        what: What::End,
        shown: Shown::new(0),
    };
    taker.take(&last, exec.tasks())
}
