//! The command line: which words ask for which view.

ghost use Rattle.std.specs.Prelude.{◌≡◌};
ghost use Rattle.view_run.specs.Views.{plan_view, plan_view_part, slots_in, slots_named, view_of, view_of_all, view_of_five, view_of_lines, view_of_one, view_of_part, view_of_three};

use key_texts::number_of;
use slot_core::Words;
use trace_lines::Slots;

/// What is shown of a trace, or of a supply.
#[derive(Clone, Copy, PartialEq, Eq)]
pub enum View {
    /// What its lines alone tell: those of all of it, or of these slots.
    Lines(LineView, Option<Slots>),
    /// What it tells beside the plan that its jobs are of.
    Planned(PlanView, Source),
    /// The staircase of a supply: a picture of its lines.
    Stairs,
}

/// What is shown of the lines of a trace alone.
#[derive(Clone, Copy, PartialEq, Eq)]
pub enum LineView {
    /// A picture.
    Picture,
    /// A table of what arrived, with the answers.
    Events,
    /// A table of the spans that the lines show.
    Spans,
    /// Waves of what ran.
    Waves,
}

/// What is shown of a trace beside its plan.
#[derive(Clone, Copy, PartialEq, Eq)]
pub enum PlanView {
    /// A table of its jobs.
    Jobs,
    /// A picture over the tasks of the plan: of all of it, or of these slots.
    Tasks(Option<Slots>),
}

impl PlanView {
    /// The slots of which lines are shown, or None where all are.
    pub(crate) fn slots(self) -> Option<Slots>
        ensures { result ≡ slots_in self }
    {
        match self {
            PlanView::Jobs => None,
            PlanView::Tasks(slots) => slots,
        }
    }
}

/// Where the plan of a trace comes from.
#[derive(Clone, Copy, PartialEq, Eq)]
pub enum Source {
    /// The task file, the second word.
    Tasks,
    /// The table file, the third word.
    Table,
}

/// The view that the words ask for, or None where they ask for none.
pub fn view_of(words: &Words) -> Option<View>
    ensures { result ≡ view_of words.now }
{
    match words.len() {
        1 => view_of_one(words.word(0)),
        2 => plan_view(words.word(0), Source::Tasks),
        3 => view_of_three(words.word(0), words.word(1), words.word(2)),
        4 => plan_view_part(words.word(0), Source::Tasks, words.word(2), words.word(3)),
        5 => view_of_five(words.word(0), words.word(1), words.word(3), words.word(4)),
        _ => None,
    }
}

/// The view that one word asks for.
fn view_of_one(word: &str) -> Option<View>
    ensures { result ≡ view_of_one word.now }
{
    match word {
        "stairs" => Some(View::Stairs),
        _ => view_of_all(word),
    }
}

/// The view of all lines that the word asks for.
fn view_of_all(word: &str) -> Option<View>
    ensures { result ≡ view_of_all word.now }
{
    let view = view_of_lines(word)?;
    Some(View::Lines(view, None))
}

/// The view of three words.
fn view_of_three(word: &str, second: &str, third: &str) -> Option<View>
    ensures { result ≡ view_of_three word.now second.now third.now }
{
    match second {
        "--table" => plan_view(word, Source::Table),
        _ => view_of_part(word, second, third),
    }
}

/// The view of five words, of which the third names the table.
fn view_of_five(word: &str, option: &str, from: &str, until: &str) -> Option<View>
    ensures { result ≡ view_of_five word.now option.now from.now until.now }
{
    match option {
        "--table" => plan_view_part(word, Source::Table, from, until),
        _ => None,
    }
}

/// The view of a part of the lines: those of the slots from one on and before another.
fn view_of_part(word: &str, from: &str, until: &str) -> Option<View>
    ensures { result ≡ view_of_part word.now from.now until.now }
{
    let view = view_of_lines(word)?;
    let slots = slots_named(from.as_bytes(), until.as_bytes())?;
    Some(View::Lines(view, Some(slots)))
}

/// The slots from one on and before another, of which there is one.
fn slots_named(from: &[u8], until: &[u8]) -> Option<Slots>
    ensures { result ≡ slots_named from.now until.now }
{
    let from = number_of(from)?;
    let until = number_of(until)?;
    if from < until {
        Some(Slots {
            from,
            until: u64::from(until),
        })
    } else {
        None
    }
}

/// The view of lines that the word asks for.
fn view_of_lines(word: &str) -> Option<LineView>
    ensures { result ≡ view_of_lines word.now }
{
    match word {
        "picture" => Some(LineView::Picture),
        "events" => Some(LineView::Events),
        "spans" => Some(LineView::Spans),
        "waves" => Some(LineView::Waves),
        _ => None,
    }
}

/// The view beside a plan that the word asks for.
fn plan_view(word: &str, source: Source) -> Option<View>
    ensures { result ≡ plan_view word.now source }
{
    match word {
        "jobs" => Some(View::Planned(PlanView::Jobs, source)),
        "picture" => Some(View::Planned(PlanView::Tasks(None), source)),
        _ => None,
    }
}

/// The view beside a plan that the word asks for, of the slots from one on and before another.
fn plan_view_part(word: &str, source: Source, from: &str, until: &str) -> Option<View>
    ensures { result ≡ plan_view_part word.now source from.now until.now }
{
    let slots = slots_named(from.as_bytes(), until.as_bytes())?;
    match word {
        "picture" => Some(View::Planned(PlanView::Tasks(Some(slots)), source)),
        _ => None,
    }
}
