//! The rows of an arrivals file.

ghost use Rattle.std.specs.Prelude.{◌≡◌, ◌≤◌, ◌+◌, ◌++◌, ◌∷◌, decimal, length, nat_lt, true};
ghost use Rattle.slot_core.specs.Output.Texts.{sporadic_name};
ghost use Rattle.slot_core.specs.Runs.Arrivals.{event_fits};
ghost use Rattle.slot_core.specs.declared.TheConstants.{NAME_LIMIT};
ghost use Rattle.trace_text.specs.declared.TheConstants.{LINE_LIMIT};
ghost use Rattle.live_lines.specs.declared.TheConstants.{EVENT_LIMIT, WORDED_LIMIT, ROW_WORD_LIMIT};
ghost use Rattle.live_lines.specs.Rows.{event_text, record_row};

use slot_core::{Arrival, Event, TaskSet};
use trace_text::{Line, key_text};

/// The row of an arrivals file that writes the arrival, with its line feed: its slot, its kind and
/// the fields of its kind. It takes no memory.
pub fn record_row(tasks: &TaskSet, arrival: Arrival) -> Line
    requires fits { event_fits tasks.now arrival.event ≡ true }
    ensures { result ≡ record_row tasks.now arrival }
{
    let mut line = Line::new();
    line.number(arrival.slot);
    push_event(&mut line, tasks, arrival.event);
    line.push(b"\n");
    line
}

/// Appends the kind of the event and its fields, each after a comma.
fn push_event(line: &mut Line, tasks: &TaskSet, event: Event)
    requires fits { event_fits tasks.now event ≡ true }
    requires room { length line.old + EVENT_LIMIT ≤ LINE_LIMIT }
    ensures text { line.new ≡ line.old ++ event_text tasks.now event }
    ensures short { length line.new ≤ length line.old + EVENT_LIMIT }
{
    match event {
        Event::Soft(slots) => push_worded(line, b",soft", slots),
        Event::Firm(slots, within) => {
            push_worded(line, b",firm", slots);
            push_worded(line, b"", within);
        }
        Event::Sporadic(index) => {
            line.push(b",sporadic,");
            push_sporadic(line, tasks, index);
        }
        Event::Done(key) => {
            line.push(b",done,");
            line.push(key_text(key, tasks).bytes());
        }
        Event::Withdraw(firm) => push_worded(line, b",withdraw", firm),
    }
}

/// Appends the word, a comma and the number.
fn push_worded(line: &mut Line, word: &[u8], number: u32)
    requires word { length word.now ≤ ROW_WORD_LIMIT }
    requires room { length line.old + WORDED_LIMIT ≤ LINE_LIMIT }
    ensures text { line.new ≡ line.old ++ word.now ++ 44 ∷ decimal number }
    ensures short { length line.new ≤ length line.old + WORDED_LIMIT }
{
    line.push(word);
    line.push(b",");
    line.number(u64::from(number));
}

/// Appends the name of the sporadic task of this index.
fn push_sporadic(line: &mut Line, tasks: &TaskSet, index: u8)
    requires named { nat_lt index (length tasks.now.sporadics) ≡ true }
    requires room { length line.old + NAME_LIMIT ≤ LINE_LIMIT }
    ensures text { line.new ≡ line.old ++ sporadic_name tasks.now index }
    ensures short { length line.new ≤ length line.old + NAME_LIMIT }
{
    line.push(tasks.sporadics.items()[usize::from(index)].name.bytes());
}
