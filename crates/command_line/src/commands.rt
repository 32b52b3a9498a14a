//! Which words write which command.

ghost use Rattle.std.specs.Prelude.{◌≡◌, ◌≤◌, ℕ, true, Some, IfSome};
ghost use Rattle.std.specs.Char.{is_ascii_digit};
ghost use Rattle.std.specs.List.{list_all};
ghost use Rattle.std.specs.Str.Parse.{digits_value};
ghost use Rattle.slot_core.specs.declared.TheConstants.{ARRIVAL_LIMIT, CHART_LIMIT, LOAD_LIMIT, REPLAY_LIMIT};
ghost use Rattle.command_line.specs.Commands.{command_of, command_of_five, command_of_four, command_of_six, command_of_two, is_positive_number, number_up_to, of_change, of_load, of_plan, of_row, of_trace, over_slots, slots_in, IsInRange};

use crate::{LOAD_SLOTS, WORD_DIGIT_LIMIT};
use slot_core::{ARRIVAL_LIMIT, CHART_LIMIT, LOAD_LIMIT, REPLAY_LIMIT, Words};

/// What the words ask for: a row of what is read, in this order, and of what is written.
#[derive(Clone, Copy)]
pub struct Command {
    /// Where the plan comes from.
    pub source: Source,
    /// Whether there is a second plan.
    pub second: Second,
    /// Where the arrivals come from.
    pub arrivals: Arrivals,
    /// What is asked of them before anything is written.
    pub check: Check,
    /// What is written of them.
    pub output: Output,
}

/// Where the plan of a command comes from.
#[derive(Clone, Copy)]
pub enum Source {
    /// The task file.
    Tasks,
    /// The table file, which spells it.
    Spelled,
    /// The load of this number.
    Load(u32),
}

/// Where the arrivals of a command come from.
#[derive(Clone, Copy)]
pub enum Arrivals {
    /// There are none, and no slot is run.
    Absent,
    /// The arrivals file, which has those of this many slots.
    Recorded(u32),
    /// The load of this number.
    Generated(u32),
}

/// Whether a command has a second plan.
#[derive(Clone, Copy)]
pub enum Second {
    /// It has none.
    Unread,
    /// It has that of the second task file.
    Read,
}

/// What a command asks of its arrivals before it writes anything.
#[derive(Clone, Copy)]
pub enum Check {
    /// Nothing.
    Unchecked,
    /// That the trace file holds a lawful trace of the plan, the arrivals and the slots.
    Verified,
    /// That they have this row.
    HasRow(u32),
    /// That their slots are whole cycles of the plan.
    AtCycleEnd,
}

/// What a command writes.
#[derive(Clone, Copy)]
pub enum Output {
    /// This of the plan, without an executive.
    OfPlan(PlanOutput),
    /// This of the run of an executive.
    OfRun(RunOutput),
    /// The trace, and then the run up to this time after a change to the second plan.
    Change(u32),
}

/// What is written of a plan.
#[derive(Clone, Copy)]
pub enum PlanOutput {
    /// The line of the check: the cycle, and the numbers of jobs and spans.
    Counts,
    /// The binary table of the plan.
    Table,
    /// The numbers, jobs and spans of the plan.
    Listing,
    /// How much each task may grow.
    Margins,
    /// The number of lines of the trace.
    Lines,
}

/// What is written of a run.
#[derive(Clone, Copy)]
pub enum RunOutput {
    /// The trace.
    Trace,
    /// The chart of the trace.
    Chart,
    /// The counts of the trace of the load of this number.
    Tally(u32),
    /// The entry of this row in the trace, and where it refuses an offer for want of room what
    /// stands against it.
    Explanation(u32),
}

impl Arrivals {
    /// How many slots are run.
    pub fn slots(self) -> u32
        ensures { result ≡ slots_in self }
    {
        match self {
            Arrivals::Absent => 0,
            Arrivals::Recorded(slots) => slots,
            Arrivals::Generated(_) => LOAD_SLOTS,
        }
    }
}

/// The command that the words write, or None where they are none of the forms.
pub fn command_of(words: &Words) -> Option<Command>
    ensures command { result ≡ command_of words.now }
    ensures in_range { IfSome result IsInRange }
{
    match words.len() {
        2 => command_of_two(words.word(0), words.word(1)),
        4 => command_of_four(words.word(0), words.word(3)),
        5 => command_of_five(words.word(0), words.word(3), words.word(4)),
        6 => command_of_six(words.word(0), words.word(4), words.word(5)),
        _ => None,
    }
}

/// The command of two words.
fn command_of_two(word: &str, last: &str) -> Option<Command>
    ensures command { result ≡ command_of_two word.now last.now }
    ensures in_range { IfSome result IsInRange }
{
    match word {
        "check" => Some(of_plan(Source::Tasks, PlanOutput::Counts)),
        "table" => Some(of_plan(Source::Tasks, PlanOutput::Table)),
        "show" => Some(of_plan(Source::Spelled, PlanOutput::Listing)),
        "migrate" => Some(of_plan(Source::Spelled, PlanOutput::Table)),
        "margin" => Some(of_plan(Source::Tasks, PlanOutput::Margins)),
        "selfrun" => of_load(number_up_to(LOAD_LIMIT, last)),
        _ => None,
    }
}

/// The command of four words, from the first and the last.
fn command_of_four(word: &str, last: &str) -> Option<Command>
    ensures command { result ≡ command_of_four word.now last.now }
    ensures in_range { IfSome result IsInRange }
{
    match word {
        "replay" => over_slots(
            Source::Tasks,
            RunOutput::Trace,
            number_up_to(REPLAY_LIMIT, last),
        ),
        "replay-table" => {
            over_slots(
                Source::Spelled,
                RunOutput::Trace,
                number_up_to(REPLAY_LIMIT, last),
            )
        }
        "gantt" => over_slots(
            Source::Tasks,
            RunOutput::Chart,
            number_up_to(CHART_LIMIT, last),
        ),
        _ => None,
    }
}

/// The command of five words, from the first and the last two.
fn command_of_five(word: &str, fourth: &str, last: &str) -> Option<Command>
    ensures command { result ≡ command_of_five word.now fourth.now last.now }
    ensures in_range { IfSome result IsInRange }
{
    match word {
        "verify" => of_trace(number_up_to(REPLAY_LIMIT, last)),
        "explain" => of_row(
            number_up_to(REPLAY_LIMIT, fourth),
            number_up_to(ARRIVAL_LIMIT, last),
        ),
        _ => None,
    }
}

/// The command of six words, from the first and the last two.
fn command_of_six(word: &str, fifth: &str, last: &str) -> Option<Command>
    ensures command { result ≡ command_of_six word.now fifth.now last.now }
    ensures in_range { IfSome result IsInRange }
{
    match word {
        "switch" => of_change(
            number_up_to(REPLAY_LIMIT, fifth),
            number_up_to(REPLAY_LIMIT, last),
        ),
        _ => None,
    }
}

/// The command that writes this of a plan, and reads nothing else.
fn of_plan(source: Source, output: PlanOutput) -> Command
    ensures { result ≡ of_plan source output }
{
    Command {
        source,
        second: Second::Unread,
        arrivals: Arrivals::Absent,
        check: Check::Unchecked,
        output: Output::OfPlan(output),
    }
}

/// The command that runs this many slots with recorded arrivals, where the number is one.
fn over_slots(source: Source, output: RunOutput, number: Option<u32>) -> Option<Command>
    ensures { result ≡ over_slots source output number }
{
    let slots = number?;
    Some(Command {
        source,
        second: Second::Unread,
        arrivals: Arrivals::Recorded(slots),
        check: Check::Unchecked,
        output: Output::OfRun(output),
    })
}

/// The command that verifies a recorded trace of this many slots, where the number is one.
fn of_trace(number: Option<u32>) -> Option<Command>
    ensures { result ≡ of_trace number }
{
    let slots = number?;
    Some(Command {
        source: Source::Tasks,
        second: Second::Unread,
        arrivals: Arrivals::Recorded(slots),
        check: Check::Verified,
        output: Output::OfPlan(PlanOutput::Lines),
    })
}

/// The command that explains a row of the arrivals of this many slots, where both numbers are ones.
fn of_row(number: Option<u32>, row: Option<u32>) -> Option<Command>
    ensures { result ≡ of_row number row }
{
    let slots = number?;
    let row = row?;
    Some(Command {
        source: Source::Tasks,
        second: Second::Unread,
        arrivals: Arrivals::Recorded(slots),
        check: Check::HasRow(row),
        output: Output::OfRun(RunOutput::Explanation(row)),
    })
}

/// The command that changes to the second plan after this many slots and runs on up to this time,
/// where both are numbers and the time is later.
fn of_change(number: Option<u32>, slots: Option<u32>) -> Option<Command>
    ensures { result ≡ of_change number slots }
{
    let until = number?;
    let slots = slots?;
    if slots >= until {
        return None;
    }
    Some(Command {
        source: Source::Tasks,
        second: Second::Read,
        arrivals: Arrivals::Recorded(slots),
        check: Check::AtCycleEnd,
        output: Output::Change(until),
    })
}

/// The command that runs the load of this number, where it is one.
fn of_load(number: Option<u32>) -> Option<Command>
    ensures { result ≡ of_load number }
{
    let n = number?;
    Some(Command {
        source: Source::Load(n),
        second: Second::Unread,
        arrivals: Arrivals::Generated(n),
        check: Check::Unchecked,
        output: Output::OfRun(RunOutput::Tally(n)),
    })
}

/// The number that a word writes, from 1 to the limit: 1 to `WORD_DIGIT_LIMIT` digits, the first of
/// which is not 0.
fn number_up_to(limit: u32, word: &str) -> Option<u32>
    ensures number { result ≡ number_up_to limit word.now }
    ensures some { IfSome result (λ n. 1 ≤ n) }
    ensures within { IfSome result (λ n. n ≤ limit) }
{
    if !is_positive_number(word.as_bytes()) {
        return None;
    }
    let value = value_of(word);
    if value <= limit { Some(value) } else { None }
}

/// The number that the digits write.
#[tactic(auto, using(crate::proofs::NumberLemmas::parse_number))]
fn value_of(word: &str) -> u32
    requires { is_positive_number word.now ≡ true }
    ensures value { result ≡ digits_value 10 word.now }
    ensures some { 1 ≤ result }
{
    word.parse::<u32>().unwrap()
}

/// Whether the bytes are 1 to `WORD_DIGIT_LIMIT` digits, the first not 0.
fn is_positive_number(digits: &[u8]) -> bool
    ensures { result ≡ is_positive_number digits.now }
{
    match digits {
        [] => false,
        [first, rest @ ..] => rest.len() < WORD_DIGIT_LIMIT && *first != b'0' && are_digits(digits),
    }
}

/// Whether each byte is a digit.
fn are_digits(bytes: &[u8]) -> bool
    ensures { result ≡ list_all is_ascii_digit bytes.now }
{
    bytes.iter().all(|byte| byte.is_ascii_digit())
}
