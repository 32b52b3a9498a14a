//! Charts of entries, written by hand: a row is its label, spaces up to the longest label and one
//! more, and a mark for each slot.

ghost use Rattle.std.specs.Prelude.{◌≡◌, true, IfOk};
ghost use Rattle.slot_core.specs.Sets.Ranges.{is_sound};
ghost use Rattle.gantt_print.specs.Drawings.{IsChartOf};

use crate::names::is_what_of;
use gantt_print::Chart;
use sample_sets::{alarm_set, long_names_set, pair_set};
use slot_core::{
    CHART_LIMIT, Done, Entry, Failed, Firm, Key, Memory, Shown, Soft, Spo, Taker, TaskSet, What,
};
use slot_io::MemorySink;
use std::alloc::Global;
use std::process::Abort;
use std::test::Fail;

/// The chart of a set over this many slots that took these entries.
fn taken(alloc: Global, tasks: &TaskSet, slots: u32, entries: &[(u64, What)]) -> Result<Chart, Fail>
    requires { is_sound tasks.now ≡ true }
    ensures { IfOk result (λ chart. IsChartOf tasks.now chart) }
{
    if slots == 0 || slots > CHART_LIMIT {
        return Err("not a length of a chart")?;
    }
    let mut chart = Chart::with_room(alloc, tasks, slots)?;
    for (time, what) in entries {
        if !is_what_of(*what, tasks) {
            return Err("not of the set")?;
        }
        let entry = Entry {
            time: *time,
            what: *what,
            shown: Shown::new(0),
        };
        chart.take(&entry, tasks)?;
    }
    Ok(chart)
}

/// The sets of the cases.
#[derive(Clone, Copy)]
enum Set {
    /// Tasks g.a and g.b.
    Pair,
    /// The same and a sporadic task, whose name is longer.
    Alarm,
    /// Names of one letter and of as many as a name may have.
    LongNames,
}

/// The task set of this name.
fn set_of(alloc: Global, set: Set) -> Result<TaskSet, Memory>
    ensures { IfOk result (λ tasks. is_sound tasks ≡ true) }
{
    match set {
        Set::Pair => pair_set(alloc),
        Set::Alarm => alarm_set(alloc),
        Set::LongNames => long_names_set(alloc),
    }
}

/// A chart of a set over this many slots: the entries that it takes, and its lines.
#[derive(Clone, Copy)]
struct Case {
    set: Set,
    slots: u32,
    entries: &'static [(u64, What)],
    lines: &'static [&'static str],
}

/// A run of each kind of job, and one in a slot that the chart does not have.
const EACH_KIND: Case = Case {
    set: Set::LongNames,
    slots: 5,
    entries: &[
        (0, What::Run(Key::Offline(0, 1, 0))),
        (1, What::Run(Key::Offline(1, 1, 7))),
        (2, What::Run(Key::Sporadic(0, 3))),
        (3, What::Run(Key::Firm(2))),
        (4, What::Run(Key::Soft(1))),
        (5, What::Run(Key::Firm(2))),
    ],
    lines: &[
        "gantt 5\n",
        "g.a                                               .....\n",
        "g.b                                               #....\n",
        "graph-name-of-24-bytes_x.a                        .....\n",
        "graph-name-of-24-bytes_x.Task_name-of-24-bytes-yz .#...\n",
        "alarm                                             ..#..\n",
        "sporadic-of-24-bytes_abc                          .....\n",
        "firm                                              ...#.\n",
        "soft                                              ....#\n",
    ],
};

/// Nothing ran.
const EMPTY: Case = Case {
    set: Set::Pair,
    slots: 1,
    entries: &[],
    lines: &["gantt 1\n", "g.a  .\n", "g.b  .\n", "firm .\n", "soft .\n"],
};

/// Two instances of a task, one of them interrupted, in one row.
const INSTANCES: Case = Case {
    set: Set::Pair,
    slots: 12,
    entries: &[
        (0, What::Run(Key::Offline(0, 0, 0))),
        (1, What::Run(Key::Firm(1))),
        (2, What::Run(Key::Offline(0, 0, 0))),
        (3, What::Run(Key::Offline(0, 1, 0))),
        (4, What::Idle),
        (8, What::Run(Key::Offline(0, 0, 1))),
        (9, What::Run(Key::Offline(0, 0, 1))),
        (11, What::Run(Key::Offline(0, 1, 1))),
    ],
    lines: &[
        "gantt 12\n",
        "g.a  #.#.....##..\n",
        "g.b  ...#.......#\n",
        "firm .#..........\n",
        "soft ............\n",
    ],
};

/// All firm jobs in one row, and all soft jobs in one.
const ROWS_OF_MANY: Case = Case {
    set: Set::Alarm,
    slots: 7,
    entries: &[
        (0, What::Run(Key::Firm(1))),
        (1, What::Run(Key::Firm(65535))),
        (2, What::Run(Key::Soft(2))),
        (3, What::Run(Key::Sporadic(0, 3))),
        (4, What::Run(Key::Soft(4))),
        (5, What::Run(Key::Sporadic(0, 5))),
        (6, What::Run(Key::Firm(1))),
    ],
    lines: &[
        "gantt 7\n",
        "g.a   .......\n",
        "g.b   .......\n",
        "alarm ...#.#.\n",
        "firm  ##....#\n",
        "soft  ..#.#..\n",
    ],
};

/// Entries that are no runs leave no mark.
const NO_RUNS: Case = Case {
    set: Set::Alarm,
    slots: 3,
    entries: &[
        (0, What::Start),
        (0, What::Soft(1, 2, Soft::Taken)),
        (0, What::Firm(2, 1, 2, Firm::Accepted)),
        (1, What::Sporadic(3, 0, Spo::Taken(3))),
        (1, What::Done(4, Key::Offline(0, 0, 0), Done::Freed(1))),
        (2, What::Idle),
        (3, What::End),
    ],
    lines: &[
        "gantt 3\n",
        "g.a   ...\n",
        "g.b   ...\n",
        "alarm ...\n",
        "firm  ...\n",
        "soft  ...\n",
    ],
};

/// Whether the bytes are those of these lines after each other.
fn are_lines(bytes: &[u8], lines: &[&str]) -> bool {
    let mut rest = bytes;
    for line in lines {
        match rest.strip_prefix(line.as_bytes()) {
            Some(tail) => rest = tail,
            None => return false,
        }
    }
    rest.is_empty()
}

#[test]
fn draws_each_case(rt: HostRuntime) -> Result<(), Fail> {
    for (index, case) in [EACH_KIND, EMPTY, INSTANCES, ROWS_OF_MANY, NO_RUNS]
        .iter()
        .enumerate()
    {
        assert!(rt; is_drawn(rt.alloc(), case)?, "case {index}");
    }
    Ok(())
}

/// Whether the case has its lines.
fn is_drawn(alloc: Global, case: &Case) -> Result<bool, Fail> {
    let tasks = set_of(alloc, case.set)?;
    is_drawn_of(alloc, &tasks, case)
}

/// The same over its task set.
fn is_drawn_of(alloc: Global, tasks: &TaskSet, case: &Case) -> Result<bool, Fail>
    requires { is_sound tasks.now ≡ true }
{
    let chart = taken(alloc, tasks, case.slots, case.entries)?;
    is_printed(alloc, &chart, tasks, case.lines)
}

/// Whether a sink with ample room takes these lines of the chart.
fn is_printed(alloc: Global, chart: &Chart, tasks: &TaskSet, lines: &[&str]) -> Result<bool, Fail>
    requires { IsChartOf tasks.now chart.now }
{
    let mut sink = MemorySink::with_room(alloc, 4096)?;
    let answer = chart.print(tasks, &mut sink);
    Ok(answer == Ok(()) && are_lines(sink.bytes(), lines))
}

#[test]
fn ends_where_a_put_fails(rt: HostRuntime) -> Result<(), Fail> {
    let tasks = set_of(rt.alloc(), EACH_KIND.set)?;
    each_failing_put(&rt, rt.alloc(), &tasks)
}

/// The chart of each kind ends before the line whose put fails, and where a sink is full.
fn each_failing_put<R: Abort>(rt: &R, alloc: Global, tasks: &TaskSet) -> Result<(), Fail>
    requires { is_sound tasks.now ≡ true }
{
    let chart = taken(alloc, tasks, EACH_KIND.slots, EACH_KIND.entries)?;
    each_put(rt, alloc, &chart, tasks)?;
    each_room(rt, alloc, &chart, tasks)
}

/// Each put that fails ends the chart before its line.
fn each_put<R: Abort>(rt: &R, alloc: Global, chart: &Chart, tasks: &TaskSet) -> Result<(), Fail>
    requires { IsChartOf tasks.now chart.now }
{
    for index in 0..EACH_KIND.lines.len() {
        let front = &EACH_KIND.lines[..index];
        let put = index as u32 + 1;
        assert!(rt; is_cut_at(alloc, chart, tasks, put, front)?, "at {index}");
    }
    Ok(())
}

/// Whether these lines of the chart are told where the put of this number fails.
fn is_cut_at(
    alloc: Global,
    chart: &Chart,
    tasks: &TaskSet,
    put: u32,
    lines: &[&str],
) -> Result<bool, Fail>
    requires { IsChartOf tasks.now chart.now }
{
    let mut sink = MemorySink::with_room(alloc, 4096)?;
    sink.fail_put(put)?;
    let answer = chart.print(tasks, &mut sink);
    Ok(answer == Err(Failed) && are_lines(sink.bytes(), lines))
}

/// A sink of each room takes so much of the text.
fn each_room<R: Abort>(rt: &R, alloc: Global, chart: &Chart, tasks: &TaskSet) -> Result<(), Fail>
    requires { IsChartOf tasks.now chart.now }
{
    let mut whole = MemorySink::with_room(alloc, 4096)?;
    chart.print(tasks, &mut whole).ok().ok_or("no room")?;
    expect_fronts(rt, alloc, chart, tasks, whole.bytes())
}

/// A sink with room for a front of the text takes that front.
fn expect_fronts<R: Abort>(
    rt: &R,
    alloc: Global,
    chart: &Chart,
    tasks: &TaskSet,
    text: &[u8],
) -> Result<(), Fail>
    requires { IsChartOf tasks.now chart.now }
{
    for room in 0..text.len() {
        assert!(rt; is_filled(alloc, chart, tasks, &text[..room])?, "{room}");
    }
    Ok(())
}

/// Whether a sink with room for these bytes of the chart has them then, and is full.
fn is_filled(alloc: Global, chart: &Chart, tasks: &TaskSet, bytes: &[u8]) -> Result<bool, Fail>
    requires { IsChartOf tasks.now chart.now }
{
    let mut sink = MemorySink::with_room(alloc, bytes.len())?;
    let answer = chart.print(tasks, &mut sink);
    Ok(answer == Err(Failed) && sink.bytes() == bytes)
}

/// What each of eight slots has, again and again.
const ROUND: [What; 8] = [
    What::Run(Key::Offline(0, 0, 0)),
    What::Run(Key::Offline(0, 0, 0)),
    What::Run(Key::Offline(0, 1, 0)),
    What::Run(Key::Sporadic(0, 1)),
    What::Run(Key::Firm(2)),
    What::Run(Key::Soft(3)),
    What::Idle,
    What::Run(Key::Firm(2)),
];

/// The label of each row, and its marks in such a round.
const ROUND_ROWS: [(&str, &str); 5] = [
    ("g.a   ", "##......"),
    ("g.b   ", "..#....."),
    ("alarm ", "...#...."),
    ("firm  ", "....#..#"),
    ("soft  ", ".....#.."),
];

/// Appends the line of a row with these marks 25 times.
fn push_round(text: &mut String, label: &str, marks: &str) -> Result<(), Fail> {
    text.push_str(label)?;
    for _ in 0..25 {
        text.push_str(marks)?;
    }
    text.push_str("\n")?;
    Ok(())
}

/// The chart of 25 rounds.
fn round_text(alloc: Global) -> Result<String, Fail> {
    let mut text = String::new(alloc);
    text.push_str("gantt 200\n")?;
    for (label, marks) in ROUND_ROWS {
        push_round(&mut text, label, marks)?;
    }
    Ok(text)
}

/// The entries of 26 rounds.
fn rounds(alloc: Global) -> Result<Vec<(u64, What)>, Fail> {
    let mut entries = Vec::new(alloc);
    for time in 0..208u64 {
        entries.push((time, ROUND[(time % 8) as usize]))?;
    }
    Ok(entries)
}

#[test]
fn draws_the_most_slots(rt: HostRuntime) -> Result<(), Fail> {
    let tasks = alarm_set(rt.alloc())?;
    assert!(rt; is_round_drawn(rt.alloc(), &tasks)?);
    Ok(())
}

/// Whether 26 rounds have the chart of 25.
fn is_round_drawn(alloc: Global, tasks: &TaskSet) -> Result<bool, Fail>
    requires { is_sound tasks.now ≡ true }
{
    let chart = rounds_chart(alloc, tasks)?;
    is_round_printed(alloc, &chart, tasks)
}

/// The chart of 26 rounds.
fn rounds_chart(alloc: Global, tasks: &TaskSet) -> Result<Chart, Fail>
    requires { is_sound tasks.now ≡ true }
    ensures { IfOk result (λ chart. IsChartOf tasks.now chart) }
{
    let entries = rounds(alloc)?;
    taken(alloc, tasks, 200, entries.as_slice())
}

/// Whether the chart is that of 25 rounds.
fn is_round_printed(alloc: Global, chart: &Chart, tasks: &TaskSet) -> Result<bool, Fail>
    requires { IsChartOf tasks.now chart.now }
{
    let text = round_text(alloc)?;
    is_printed(alloc, chart, tasks, &[text.as_str()])
}
