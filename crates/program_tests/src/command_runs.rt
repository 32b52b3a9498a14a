//! Runs over files and sinks in memory.

use crate::fault_lines::FAULT_LINES;
use crate::sample_texts::*;
use slot_cli::{Status, run};
use slot_core::{ARRIVALS_FILE_LIMIT, Memory, TABLE_FILE_LIMIT, TASK_FILE_LIMIT, Words};
use slot_io::{Files, MemoryFiles, MemorySink, ReadFault};
use std::alloc::Global;
use std::test::Fail;

/// The words of a run.
type Line = &'static [&'static str];

const CHECK: Line = &["check", "a.toml"];

const SHOW: Line = &["show", "a.toml"];

const MIGRATE: Line = &["migrate", "a.toml"];

const TABLE: Line = &["table", "a.toml"];

const MARGIN: Line = &["margin", "a.toml"];

const VERIFY: Line = &["verify", "a.toml", "none.csv", "run.trace", "1"];

const VERIFY_2: Line = &["verify", "a.toml", "none.csv", "run.trace", "2"];

const VERIFY_B: Line = &["verify", "a.toml", "none.csv", "b.trace", "1"];

const REPLAY: Line = &["replay", "a.toml", "none.csv", "1"];

const REPLAY_2: Line = &["replay", "a.toml", "none.csv", "2"];

const REPLAY_3: Line = &["replay", "a.toml", "none.csv", "3"];

const REPLAY_4: Line = &["replay", "a.toml", "none.csv", "4"];

const REPLAY_A_B: Line = &["replay", "a.toml", "b.csv", "1"];

const REPLAY_B_B: Line = &["replay", "b.toml", "b.csv", "1"];

const CHART_4: Line = &["gantt", "a.toml", "none.csv", "4"];

const TABLE_REPLAY: Line = &["replay-table", "a.toml", "none.csv", "1"];

const TABLE_REPLAY_2: Line = &["replay-table", "a.toml", "none.csv", "2"];

const EXPLAIN: Line = &["explain", "a.toml", "none.csv", "1", "1"];

const EXPLAIN_LAST: Line = &["explain", "a.toml", "none.csv", "1", "65535"];

const SWITCH: Line = &["switch", "a.toml", "u.toml", "none.csv", "12", "8"];

const SWITCH_B_B: Line = &["switch", "a.toml", "b.toml", "b.csv", "12", "8"];

const SWITCH_U_B: Line = &["switch", "a.toml", "u.toml", "b.csv", "12", "8"];

/// Two soft jobs in the first slot.
const TWO_SOFT: &str = "0,soft,3\n0,soft,1\n";

/// Runs that are done: the words, the bytes of the first file, the arrivals, and the output.
const DONE: [(Line, &str, &str, &str); 27] = [
    (CHECK, OFFSET, "", "feasible cycle 6 jobs 1 spans 3\n"),
    (CHECK, BORROWING, "", "feasible cycle 10 jobs 2 spans 2\n"),
    (CHECK, LONGEST, "", "feasible cycle 8192 jobs 1 spans 1\n"),
    (CHECK, PAIR, "", "feasible cycle 8 jobs 2 spans 2\n"),
    (CHECK, FLIGHT, "", "feasible cycle 40 jobs 21 spans 15\n"),
    (TABLE, PAIR, "", SECOND_TABLE),
    (SHOW, PAIR_TABLE, "", PAIR_PLAN),
    (SHOW, SECOND_TABLE, "", PAIR_PLAN),
    (MIGRATE, PAIR_TABLE, "", SECOND_TABLE),
    (MIGRATE, SECOND_TABLE, "", SECOND_TABLE),
    (MARGIN, ALARM, "", ALARM_MARGINS),
    (
        MARGIN,
        BORROWING,
        "",
        "margin p.w 1 0 10 11\nmargin q.w 1 0 10 11\n",
    ),
    (MARGIN, LONGEST, "", "margin g.a 0 0 8192 8193\n"),
    (REPLAY, OFFSET, "", OFFSET_1),
    (REPLAY, OFFSET, "\n", OFFSET_1),
    (REPLAY_2, BORROWING, "", BORROWING_2),
    (&["replay", "a.toml", "none.csv", "17"], PAIR, "", PAIR_17),
    (REPLAY_2, PAIR, KINDS, KINDS_2),
    (REPLAY_3, PAIR, "1,done,g.a#0\n", EARLY_END_3),
    (REPLAY_4, NARROW, TWO_SOFT, SOFT_4),
    (
        REPLAY,
        PAIR,
        "0,firm,5,7\n0,withdraw,1\n0,withdraw,1\n",
        WITHDRAWN_1,
    ),
    (
        &["replay", "a.toml", "none.csv", "5"],
        PAIR,
        "0,firm,5,8\n4,withdraw,1\n4,firm,4,5\n",
        OFFERED_AGAIN_5,
    ),
    (TABLE_REPLAY_2, PAIR_TABLE, KINDS, KINDS_2),
    (CHART_4, PAIR, "", PAIR_CHART),
    (CHART_4, NARROW, TWO_SOFT, SOFT_CHART),
    (EXPLAIN, ALARM, "0,firm,5,7\n", ALARM_WHY),
    (
        &["explain", "a.toml", "none.csv", "3", "1"],
        PAIR,
        "1,done,g.a#0\n",
        "1 done 1 g.a#0 freed 1 | 1-7:6 7-8:0 8-15:5 15-16:0 16-23:5 23-24:0\n",
    ),
];

/// Changes to a second plan: the second task file, the arrivals, the status, and what is written.
const CHANGES: [(&str, &str, Status, &str, &str); 4] = [
    (BORROWING, "7,firm,2,3\n", Status::Done, CHANGED_12, ""),
    (
        BORROWING,
        "7,firm,3,3\n",
        Status::SwitchRefused,
        UNCHANGED_8,
        "switch noroom 18 11 10\n",
    ),
    (OVERLOAD, "", Status::Infeasible, "", "infeasible 0 2 3\n"),
    (
        "graph = 1",
        "",
        Status::BadTasks,
        "",
        "tasks wrong kind top graph\n",
    ),
];

/// Sets that do not fit, and the line on standard error.
const INFEASIBLE: [(Line, &str, &str); 8] = [
    (CHECK, SPLIT, "infeasible 5 7 3\n"),
    (CHECK, CAMERA, "infeasible 5 9 5\n"),
    (CHECK, CHAIN, "infeasible 0 1 4\n"),
    (CHECK, OVERLOAD, "infeasible 0 2 3\n"),
    (TABLE, OVERLOAD, "infeasible 0 2 3\n"),
    (MARGIN, OVERLOAD, "infeasible 0 2 3\n"),
    (REPLAY, OVERLOAD, "infeasible 0 2 3\n"),
    (CHART_4, OVERLOAD, "infeasible 0 2 3\n"),
];

/// Names of files that are not there, and how many reads are made.
const UNREADABLE: [(Line, u32, &str); 7] = [
    (&["check", "b.toml"], 1, "cannot read b.toml\n"),
    (REPLAY_B_B, 1, "cannot read b.toml\n"),
    (REPLAY_A_B, 2, "cannot read b.csv\n"),
    (&["gantt", "a.toml", "b.csv", "1"], 2, "cannot read b.csv\n"),
    (VERIFY_B, 3, "cannot read b.trace\n"),
    (SWITCH_B_B, 2, "cannot read b.toml\n"),
    (SWITCH_U_B, 3, "cannot read b.csv\n"),
];

/// Rows and changes that are refused before anything is written, and how many reads are made.
const NOT_THERE: [(Line, Status, u32, &str); 3] = [
    (EXPLAIN, Status::NoRow, 2, "no row 1\n"),
    (EXPLAIN_LAST, Status::NoRow, 2, "no row 65535\n"),
    (
        &["switch", "a.toml", "u.toml", "none.csv", "12", "9"],
        Status::SwitchRefused,
        3,
        "switch not at cycle end 8\n",
    ),
];

/// Recorded traces that are lawful, of a run of these words, and the line on the output.
const LAWFUL: [(Line, &str, &str, &str); 2] = [
    (VERIFY, PAIR, PAIR_1, "verified lines 3\n"),
    (VERIFY, PAIR, IDLE_1, "verified lines 3\n"),
];

/// Recorded traces that are not, and the line on standard error.
const UNLAWFUL: [(Line, &str, &str, &str); 6] = [
    (VERIFY, PAIR, UNCOUNTED_1, "trace differs 2\n"),
    (VERIFY, PAIR, UNREADY_1, "trace not ready 2 g.b#0\n"),
    (VERIFY, PAIR, PAIR_START, "trace short 2\n"),
    (VERIFY, PAIR, PAIR_17, "trace differs 3\n"),
    (VERIFY_2, PAIR, PAIR_1, "trace no run 3\n"),
    (VERIFY_2, UNIT, LATE_2, "trace late 3 u.w#0\n"),
];

/// Files of this many equal bytes, the status, and the line on standard error.
const LARGE: [(Line, u8, usize, Status, &str); 7] = [
    (
        CHECK,
        b'#',
        TASK_FILE_LIMIT,
        Status::BadTasks,
        "tasks missing top graph\n",
    ),
    (
        CHECK,
        b'[',
        TASK_FILE_LIMIT,
        Status::BadTasks,
        "tasks not toml\n",
    ),
    (
        CHECK,
        b'#',
        TASK_FILE_LIMIT + 1,
        Status::TooLarge,
        "too large a.toml 1048576\n",
    ),
    (
        SHOW,
        b'#',
        TABLE_FILE_LIMIT,
        Status::BadTable,
        "table bad magic\n",
    ),
    (
        SHOW,
        b'#',
        TABLE_FILE_LIMIT + 1,
        Status::TooLarge,
        "too large a.toml 4194304\n",
    ),
    (
        REPLAY,
        b'#',
        ARRIVALS_FILE_LIMIT,
        Status::BadArrivals,
        "arrivals bad row 1\n",
    ),
    (
        REPLAY,
        b'#',
        ARRIVALS_FILE_LIMIT + 1,
        Status::TooLarge,
        "too large none.csv 4194304\n",
    ),
];

/// Bytes of the pair's table that are others, or one more, and the line on standard error.
const CHANGED: [(usize, u8, &str); 8] = [
    (0, 0, "table bad magic\n"),
    (4, 3, "table bad version 3\n"),
    (4, 2, "table source out of range top soft 65600\n"),
    (6, 0, "table source out of range top soft 0\n"),
    (22, 9, "table infeasible 0 8 10\n"),
    (36, 3, "table wrong job count 3 2\n"),
    (74, 6, "table wrong span 0 0 7 2 6 0 7 2 5\n"),
    (88, 0, "table trailing 88\n"),
];

const USAGE: &str = "usage: slotshift check T, table T, show B, replay T A N, \
    replay-table B A N, gantt T A N, selfrun N, migrate B, verify T A X N, explain T A N R, \
    switch T U A N C, margin T\n";

/// Words that are no command.
const NO_COMMANDS: [Line; 31] = [
    &[],
    &["check"],
    &["check", "a.toml", "none.csv"],
    &["Check", "a.toml"],
    &["show", "a.toml", "none.csv"],
    &["migrate"],
    &["migrate", "a.toml", "none.csv"],
    &["margin"],
    &["margin", "a.toml", "none.csv"],
    &["selfrun", "33"],
    &["selfrun", "0"],
    &["gantt", "a.toml", "none.csv", "201"],
    &["replay-table", "a.toml", "none.csv", "100001"],
    &["replay", "a.toml", "none.csv"],
    &["replay", "a.toml", "none.csv", "0"],
    &["replay", "a.toml", "none.csv", "07"],
    &["replay", "a.toml", "none.csv", "+7"],
    &["replay", "a.toml", "none.csv", "100001"],
    &["replay", "a.toml", "none.csv", "1000000"],
    &["replay", "a.toml", "none.csv", "run.trace", "1"],
    &["verify", "a.toml", "none.csv", "1"],
    &["verify", "a.toml", "none.csv", "run.trace", "0"],
    &["explain", "a.toml", "none.csv", "1"],
    &["explain", "a.toml", "none.csv", "1", "0"],
    &["explain", "a.toml", "none.csv", "0", "1"],
    &["explain", "a.toml", "none.csv", "1", "65536"],
    &["explain", "a.toml", "none.csv", "100001", "1"],
    &["switch", "a.toml", "u.toml", "none.csv", "12"],
    &["switch", "a.toml", "u.toml", "none.csv", "8", "8"],
    &["switch", "a.toml", "u.toml", "none.csv", "12", "0"],
    &["switch", "a.toml", "u.toml", "none.csv", "100001", "8"],
];

/// Loads: the words, the front of the line, and the number of offline runs.
const LOADS: [(Line, &str, &str); 2] = [
    (&["selfrun", "1"], "selfrun 1 slots 1024 soft ", "48 "),
    (&["selfrun", "32"], "selfrun 32 slots 1024 soft ", "912 "),
];

/// What fails in a run.
#[derive(Clone, Copy)]
struct Limits {
    /// The read that fails, counted from 1; none where it is 0.
    read: u32,
    /// The put on the output that fails, and the one on standard error, counted in the same way.
    put: u32,
    line: u32,
}

/// Standard error takes one put, and nothing else fails.
const ROOMY: Limits = Limits {
    read: 0,
    put: 0,
    line: 2,
};

/// What is written on the output.
#[derive(Clone, Copy)]
enum Text<'t> {
    /// These bytes.
    Whole(&'t [u8]),
    /// The line of a load with this front, whose runs begin with this number.
    Load(&'t str, &'t str),
}

/// A run over `a.toml`, `u.toml`, `none.csv` and `run.trace`, and what comes of it.
#[derive(Clone, Copy)]
struct Case<'t> {
    words: Line,
    /// The bytes of `a.toml`.
    first: &'t [u8],
    /// The bytes of `u.toml`.
    second: &'t str,
    /// The bytes of `none.csv`.
    arrivals: &'t [u8],
    /// The bytes of `run.trace`.
    trace: &'t str,
    limits: Limits,
    status: Status,
    /// How many reads are made.
    reads: u32,
    out: Text<'t>,
    err: &'t str,
}

/// How many of the words name a file.
fn files_in(words: Line) -> u32 {
    let mut count = 0u32;
    for word in words {
        if word.as_bytes().contains(&b'.') {
            count = count.saturating_add(1);
        }
    }
    count
}

/// A run of these words that is done.
fn done<'t>(words: Line, first: &'t str, arrivals: &'t str, out: &'t str) -> Case<'t> {
    Case {
        words,
        first: first.as_bytes(),
        second: BORROWING,
        arrivals: arrivals.as_bytes(),
        trace: "",
        limits: ROOMY,
        status: Status::Done,
        reads: files_in(words),
        out: Text::Whole(out.as_bytes()),
        err: "",
    }
}

/// A run of these words that is refused after this many reads.
fn refused<'t>(words: Line, first: &'t str, status: Status, reads: u32, err: &'t str) -> Case<'t> {
    Case {
        status,
        reads,
        err,
        ..done(words, first, "", "")
    }
}

/// Appends the words.
fn push_words(list: &mut Words, words: Line) -> Result<(), Memory> {
    for word in words {
        list.push(word)?;
    }
    Ok(())
}

/// Adds the files of the case, of which a read fails.
fn add_files(files: &mut MemoryFiles, case: &Case) -> Result<(), Memory> {
    files.add("a.toml", case.first)?;
    files.add("u.toml", case.second.as_bytes())?;
    files.add("none.csv", case.arrivals)?;
    files.add("run.trace", case.trace.as_bytes())?;
    files.fail_read(case.limits.read)
}

/// A sink with so much room, of which this put fails.
fn sink_of(alloc: Global, room: usize, put: u32) -> Result<MemorySink, Memory> {
    let mut sink = MemorySink::with_room(alloc, room)?;
    sink.fail_put(put)?;
    Ok(sink)
}

/// Whether the case comes out as it says.
fn is_so(alloc: Global, case: &Case) -> bool {
    let mut files = MemoryFiles::empty(alloc);
    is_so_over(alloc, case, &mut files) == Ok(true)
}

/// The same over these files.
fn is_so_over(alloc: Global, case: &Case, files: &mut MemoryFiles) -> Result<bool, Memory> {
    add_files(files, case)?;
    let mut out = sink_of(alloc, 4096, case.limits.put)?;
    is_so_into(alloc, case, files, &mut out)
}

/// The same with this output.
fn is_so_into(
    alloc: Global,
    case: &Case,
    files: &mut MemoryFiles,
    out: &mut MemorySink,
) -> Result<bool, Memory> {
    let mut err = sink_of(alloc, 256, case.limits.line)?;
    is_so_with(alloc, case, files, out, &mut err)
}

/// The same with this standard error.
fn is_so_with(
    alloc: Global,
    case: &Case,
    files: &mut MemoryFiles,
    out: &mut MemorySink,
    err: &mut MemorySink,
) -> Result<bool, Memory> {
    let status = status_of(alloc, case.words, files, out, err)?;
    let is_told = status == case.status && err.bytes() == case.err.as_bytes();
    Ok(is_told && is_written(case.out, out.bytes()) && are_made(alloc, case.reads, files)?)
}

/// The status of a run of the words.
fn status_of(
    alloc: Global,
    words: Line,
    files: &mut MemoryFiles,
    out: &mut MemorySink,
    err: &mut MemorySink,
) -> Result<Status, Memory> {
    let mut list = Words::new(alloc);
    push_words(&mut list, words)?;
    Ok(run(alloc, &list, files, out, err))
}

/// Whether this many reads were made: the read of the next number comes next.
fn are_made(alloc: Global, reads: u32, files: &mut MemoryFiles) -> Result<bool, Memory> {
    files.fail_read(reads.saturating_add(1))?;
    let next = files.read(alloc, "a.toml", 0);
    Ok(matches!(next, Err(ReadFault::Failed)))
}

/// Whether these bytes are the text.
fn is_written(text: Text, bytes: &[u8]) -> bool {
    match text {
        Text::Whole(whole) => bytes == whole,
        Text::Load(front, runs) => bytes.starts_with(front.as_bytes()) && are_runs(bytes, runs),
    }
}

/// Whether the runs of a load's line begin with this number, and with the idle slots are 1024.
fn are_runs(line: &[u8], runs: &str) -> bool {
    match after(line, b" run ") {
        Some(counts) => counts.starts_with(runs.as_bytes()) && sum_of(counts) == Some(1024),
        None => false,
    }
}

/// What follows the first of these parts.
fn after<'t>(bytes: &'t [u8], part: &[u8]) -> Option<&'t [u8]> {
    for at in 0..bytes.len() {
        if let Some(rest) = bytes[at..].strip_prefix(part) {
            return Some(rest);
        }
    }
    None
}

/// The sum of the counts in a line, of which the last is that of the word `idle`.
fn sum_of(counts: &[u8]) -> Option<u64> {
    let mut sum = 0u64;
    let mut count = 0u64;
    for byte in counts {
        if byte.is_ascii_digit() {
            let digit = byte.wrapping_sub(b'0');
            count = count.saturating_mul(10).saturating_add(u64::from(digit));
        } else if b" idle\n".contains(byte) {
            sum = sum.saturating_add(count);
            count = 0;
        } else {
            return None;
        }
    }
    Some(sum)
}

#[test]
fn writes_what_the_files_call_for(rt: HostRuntime) {
    for &(words, first, arrivals, out) in DONE.iter() {
        let case = done(words, first, arrivals, out);
        assert!(rt; is_whole(rt.alloc(), &case, out.as_bytes()), "{out}");
    }
}

/// Whether the case comes out as it says, and so where each read and each put fails in turn.
fn is_whole<'t>(alloc: Global, case: &Case<'t>, out: &'t [u8]) -> bool {
    is_so(alloc, case) && are_reads_told(alloc, case) && are_puts_told(alloc, case, out)
}

/// Whether each read of the case that fails is told, and there is none after them.
fn are_reads_told(alloc: Global, case: &Case) -> bool {
    for (read, err) in [(1, "cannot read a.toml\n"), (2, "cannot read none.csv\n")] {
        if read <= case.reads && !is_so(alloc, &unread(case, read, err)) {
            return false;
        }
    }
    let read = case.reads.saturating_add(1);
    let limits = Limits { read, ..ROOMY };
    is_so(alloc, &Case { limits, ..*case })
}

/// The case, where this read fails.
fn unread<'t>(case: &Case<'t>, read: u32, err: &'t str) -> Case<'t> {
    Case {
        limits: Limits { read, ..ROOMY },
        status: Status::FileFault,
        reads: read,
        out: Text::Whole(b""),
        err,
        ..*case
    }
}

/// Whether each failing put of these lines is told after those before it, and no put follows them.
fn are_puts_told<'t>(alloc: Global, case: &Case<'t>, out: &'t [u8]) -> bool {
    let mut put = 1u32;
    let mut told = &out[..0];
    for at in 0..out.len() {
        if out[at] == b'\n' || at + 1 == out.len() {
            if !is_so(alloc, &cut(case, put, told)) {
                return false;
            }
            put = put.saturating_add(1);
            told = &out[..at + 1];
        }
    }
    let limits = Limits { put, ..ROOMY };
    is_so(alloc, &Case { limits, ..*case })
}

/// The case, where this put fails and the output takes only this front of the text.
fn cut<'t>(case: &Case<'t>, put: u32, told: &'t [u8]) -> Case<'t> {
    Case {
        limits: Limits { put, ..ROOMY },
        status: Status::WriteFault,
        out: Text::Whole(told),
        err: "cannot write\n",
        ..*case
    }
}

#[test]
fn tells_which_window_fails(rt: HostRuntime) {
    for &(words, first, err) in INFEASIBLE.iter() {
        let case = refused(words, first, Status::Infeasible, 1, err);
        assert!(rt; is_so(rt.alloc(), &case), "{err}");
    }
}

#[test]
fn tells_which_file_cannot_be_read(rt: HostRuntime) {
    for &(words, reads, err) in UNREADABLE.iter() {
        let case = refused(words, PAIR, Status::FileFault, reads, err);
        assert!(rt; is_so(rt.alloc(), &case), "{err}");
    }
}

#[test]
fn refuses_before_it_writes(rt: HostRuntime) {
    for &(words, status, reads, err) in NOT_THERE.iter() {
        let case = refused(words, PAIR, status, reads, err);
        assert!(rt; is_so(rt.alloc(), &case), "{err}");
    }
}

#[test]
fn refuses_other_words(rt: HostRuntime) {
    for (index, words) in NO_COMMANDS.iter().enumerate() {
        let case = refused(*words, PAIR, Status::Usage, 0, USAGE);
        assert!(rt; is_so(rt.alloc(), &case), "row {index}");
    }
}

#[test]
fn verifies_recorded_traces(rt: HostRuntime) {
    for &(words, first, trace, out) in LAWFUL.iter() {
        let case = done(words, first, "", out);
        assert!(rt; is_so(rt.alloc(), &Case { trace, ..case }), "{out}");
    }
    for &(words, first, trace, err) in UNLAWFUL.iter() {
        let case = refused(words, first, Status::NotVerified, 3, err);
        assert!(rt; is_so(rt.alloc(), &Case { trace, ..case }), "{err}");
    }
}

#[test]
fn changes_the_plan(rt: HostRuntime) {
    for &(second, arrivals, status, out, err) in CHANGES.iter() {
        let case = change(second, arrivals, status, out);
        let is_told = is_change_so(rt.alloc(), &Case { err, ..case }, out.as_bytes());
        assert!(rt; is_told, "{out}{err}");
    }
}

/// A change to this second plan, with these arrivals.
fn change<'t>(second: &'t str, arrivals: &'t str, status: Status, out: &'t str) -> Case<'t> {
    let is_second_bad = status == Status::Infeasible || status == Status::BadTasks;
    Case {
        second,
        status,
        reads: if is_second_bad { 2 } else { 3 },
        ..done(SWITCH, PAIR, arrivals, out)
    }
}

/// Whether the change comes out as it says, and so where each put fails in turn, if it is done.
fn is_change_so<'t>(alloc: Global, case: &Case<'t>, out: &'t [u8]) -> bool {
    let is_done = case.status == Status::Done;
    is_so(alloc, case) && (!is_done || are_puts_told(alloc, case, out))
}

#[test]
fn tells_the_first_fault(rt: HostRuntime) -> Result<(), Fail> {
    for row in FAULT_LINES.lines() {
        assert!(rt; is_fault_told(rt.alloc(), row)?, "{row}");
    }
    Ok(())
}

/// Whether the fault of this row is told.
fn is_fault_told(alloc: Global, row: &str) -> Result<bool, Fail> {
    let (tasks, line) = row.split_once(" => ").ok_or("no arrow")?;
    let mut err = String::from_str(alloc, line)?;
    err.push_str("\n")?;
    let case = refused(CHECK, tasks, Status::BadTasks, 1, err.as_str());
    Ok(is_so(alloc, &case))
}

#[test]
fn tells_the_first_fault_of_a_table(rt: HostRuntime) {
    for &(place, byte, err) in CHANGED.iter() {
        assert!(rt; is_table_told(rt.alloc(), place, byte, err), "{err}");
    }
}

/// Whether this fault is told of the pair's table where this byte is another.
fn is_table_told(alloc: Global, place: usize, byte: u8, err: &str) -> bool {
    match table_with(alloc, place, byte) {
        Ok(table) => is_bad_table(alloc, table.as_slice(), err),
        Err(Memory) => false,
    }
}

/// The bytes of the pair's table, of which one is another, or one is added.
fn table_with(alloc: Global, place: usize, byte: u8) -> Result<Vec<u8>, Memory> {
    let mut table = Vec::from_slice(alloc, PAIR_TABLE.as_bytes())?;
    if place < table.len() {
        table[place] = byte;
    } else {
        table.push(byte)?;
    }
    Ok(table)
}

/// Whether each form that reads a table tells this fault of it.
fn is_bad_table(alloc: Global, first: &[u8], err: &str) -> bool {
    for words in [SHOW, MIGRATE, TABLE_REPLAY] {
        let case = refused(words, "", Status::BadTable, 1, err);
        if !is_so(alloc, &Case { first, ..case }) {
            return false;
        }
    }
    true
}

#[test]
fn tells_the_entries_of_a_load(rt: HostRuntime) {
    for &(words, front, runs) in LOADS.iter() {
        let out = Text::Load(front, runs);
        let case = done(words, "", "", "");
        assert!(rt; is_so(rt.alloc(), &Case { out, ..case }), "{front}");
    }
}

#[test]
fn refuses_large_files(rt: HostRuntime) {
    for &(words, byte, size, status, err) in LARGE.iter() {
        let is_told = is_large_told(rt.alloc(), words, byte, size, status, err);
        assert!(rt; is_told, "{err}");
    }
}

/// Whether this is told of a last file of this many of these bytes.
fn is_large_told(
    alloc: Global,
    words: Line,
    byte: u8,
    size: usize,
    status: Status,
    err: &str,
) -> bool {
    match vec![in alloc; byte; size] {
        Ok(large) => is_last_told(alloc, words, large.as_slice(), status, err),
        Err(_) => false,
    }
}

/// The same of the bytes of the last file.
fn is_last_told(alloc: Global, words: Line, last: &[u8], status: Status, err: &str) -> bool {
    let case = refused(words, OFFSET, status, files_in(words), err);
    let first = if case.reads == 1 { last } else { case.first };
    let arrivals = last;
    is_so(
        alloc,
        &Case {
            first,
            arrivals,
            ..case
        },
    )
}
