//! A line of each kind of entry, the longest ones, the texts of keys, and lines that tell what ran.

use crate::names::{is_key_of, is_what_of};
use sample_sets::{alarm_set, long_names_set};
use slot_core::{
    Done, Entry, Evidence, Firm, Gone, Job, Key, Ran, SHOWN_LIMIT, Shown, Soft, Span, Spo, TaskSet,
    What,
};
use std::alloc::Global;
use std::process::Abort;
use std::test::Fail;
use trace_text::{entry_line, job_line, key_text, read_run, span_line};

/// A span without work.
fn span(start: u64, end: u64, spare: i64) -> Span {
    Span {
        start,
        end,
        work: 0,
        spare,
    }
}

/// These spans, and this many that are not shown.
fn shown(spans: &[Span], more: u32) -> Result<Shown, Fail> {
    let mut shown = Shown::new(more);
    for span in spans {
        if shown.spans().len() == SHOWN_LIMIT {
            return Err("too many spans")?;
        }
        shown.push(*span);
    }
    Ok(shown)
}

const LAST: u64 = u64::MAX;

const ROW: u32 = u32::MAX;

/// A refused offer.
const REFUSED: Evidence = Evidence {
    until: 20,
    need: 9,
    room: 8,
};

/// An entry of each kind at its time, and its line with two spans.
const ENTRIES: [(u64, What, &str); 18] = [
    (0, What::Start, "0 start | 3-7:5 7-8:-3\n"),
    (
        3,
        What::Soft(1, 2, Soft::Taken),
        "3 soft 1 2 taken | 3-7:5 7-8:-3\n",
    ),
    (
        3,
        What::Soft(9, 65535, Soft::Full(1024)),
        "3 soft 9 65535 full 1024 | 3-7:5 7-8:-3\n",
    ),
    (
        4,
        What::Firm(2, 10, 20, Firm::Accepted),
        "4 firm 2 10 20 accepted | 3-7:5 7-8:-3\n",
    ),
    (
        4,
        What::Firm(3, 1, 0, Firm::Late),
        "4 firm 3 1 0 late | 3-7:5 7-8:-3\n",
    ),
    (
        4,
        What::Firm(4, 1, 65535, Firm::Far),
        "4 firm 4 1 65535 far | 3-7:5 7-8:-3\n",
    ),
    (
        4,
        What::Firm(5, 9, 20, Firm::NoRoom(REFUSED)),
        "4 firm 5 9 20 noroom 20 9 8 | 3-7:5 7-8:-3\n",
    ),
    (
        5,
        What::Sporadic(6, 0, Spo::Taken(7)),
        "5 sporadic 6 alarm taken 7 | 3-7:5 7-8:-3\n",
    ),
    (
        5,
        What::Sporadic(7, 0, Spo::Soon(13)),
        "5 sporadic 7 alarm soon 13 | 3-7:5 7-8:-3\n",
    ),
    (
        6,
        What::Done(8, Key::Offline(0, 1, 0), Done::Freed(1)),
        "6 done 8 g.b#0 freed 1 | 3-7:5 7-8:-3\n",
    ),
    (
        6,
        What::Done(9, Key::Sporadic(0, 6), Done::NotRunning),
        "6 done 9 alarm@6 notrunning | 3-7:5 7-8:-3\n",
    ),
    (
        4,
        What::Withdraw(2, 1, Gone::Freed(4)),
        "4 withdraw 2 firm:1 freed 4 | 3-7:5 7-8:-3\n",
    ),
    (
        4,
        What::Withdraw(3, 1, Gone::NoJob),
        "4 withdraw 3 firm:1 nojob | 3-7:5 7-8:-3\n",
    ),
    (
        10,
        What::Run(Key::Offline(0, 0, 12)),
        "10 run g.a#12 | 3-7:5 7-8:-3\n",
    ),
    (
        11,
        What::Run(Key::Firm(3)),
        "11 run firm:3 | 3-7:5 7-8:-3\n",
    ),
    (
        12,
        What::Run(Key::Soft(1)),
        "12 run soft:1 | 3-7:5 7-8:-3\n",
    ),
    (13, What::Idle, "13 idle | 3-7:5 7-8:-3\n"),
    (14, What::End, "14 end\n"),
];

#[test]
fn writes_each_kind_of_entry(rt: HostRuntime) -> Result<(), Fail> {
    let tasks = long_names_set(rt.alloc())?;
    each_kind_of_entry(&rt, &tasks)
}

/// Each of the entries has its line.
fn each_kind_of_entry<R: Abort>(rt: &R, tasks: &TaskSet) -> Result<(), Fail> {
    for (time, what, want) in ENTRIES {
        let shown = shown(&[span(3, 7, 5), span(7, 8, -3)], 0)?;
        expect_line(rt, &Entry { time, what, shown }, tasks, want);
    }
    Ok(())
}

/// The entry has this line.
fn expect_line<R: Abort>(rt: &R, entry: &Entry, tasks: &TaskSet, want: &str) {
    let is_line = is_what_of(entry.what, tasks)
        && entry_line(entry, tasks).bytes() == want.as_bytes();
    assert!(rt; is_line, "{want}");
}

/// The key of the longest text.
const LONGEST: Key = Key::Offline(1, 1, LAST);

/// A refusal of the longest text.
const MOST: Evidence = Evidence {
    until: LAST,
    need: LAST,
    room: LAST,
};

/// Entries of the longest words of their kind.
const LONG_ENTRIES: [(What, &str); 5] = [
    (
        What::Soft(ROW, ROW, Soft::Full(ROW)),
        "soft 4294967295 4294967295 full 4294967295",
    ),
    (
        What::Firm(ROW, ROW, ROW, Firm::NoRoom(MOST)),
        "firm 4294967295 4294967295 4294967295 \
        noroom 18446744073709551615 18446744073709551615 18446744073709551615",
    ),
    (
        What::Sporadic(ROW, 1, Spo::Taken(LAST)),
        "sporadic 4294967295 sporadic-of-24-bytes_abc taken 18446744073709551615",
    ),
    (
        What::Done(ROW, LONGEST, Done::Freed(ROW)),
        "done 4294967295 graph-name-of-24-bytes_x.Task_name-of-24-bytes-yz#18446744073709551615 \
        freed 4294967295",
    ),
    (
        What::Run(Key::Sporadic(1, ROW)),
        "run sporadic-of-24-bytes_abc@4294967295",
    ),
];

#[test]
fn writes_the_longest_numbers_and_names(rt: HostRuntime) -> Result<(), Fail> {
    let tasks = long_names_set(rt.alloc())?;
    each_long_entry(&rt, rt.alloc(), &tasks)
}

/// Each of the long entries has its line.
fn each_long_entry<R: Abort>(rt: &R, alloc: Global, tasks: &TaskSet) -> Result<(), Fail> {
    for (what, words) in LONG_ENTRIES {
        let shown = shown(&[span(LAST, LAST, i64::MIN); 8], ROW)?;
        let entry = Entry {
            time: LAST,
            what,
            shown,
        };
        let want = long_line(alloc, words)?;
        expect_line(rt, &entry, tasks, want.as_str());
    }
    Ok(())
}

/// The line of such words at the last time, before eight of the longest spans.
fn long_line(alloc: Global, words: &str) -> Result<String, Fail> {
    let span = " 18446744073709551615-18446744073709551615:-9223372036854775808";
    let mut text = format!(in alloc; "18446744073709551615 {words} |")?;
    for _ in 0..8 {
        text.push_str(span)?;
    }
    text.push_str(" +4294967295\n")?;
    Ok(text)
}

/// A key of each kind, and its text.
const KEYS: [(Key, &str); 5] = [
    (Key::Offline(0, 0, 0), "g.a#0"),
    (
        LONGEST,
        "graph-name-of-24-bytes_x.Task_name-of-24-bytes-yz#18446744073709551615",
    ),
    (Key::Sporadic(0, 2), "alarm@2"),
    (Key::Firm(3), "firm:3"),
    (Key::Soft(65535), "soft:65535"),
];

#[test]
fn writes_each_kind_of_key(rt: HostRuntime) -> Result<(), Fail> {
    let tasks = long_names_set(rt.alloc())?;
    each_kind_of_key(&rt, &tasks);
    Ok(())
}

/// Each of the keys has its text.
fn each_kind_of_key<R: Abort>(rt: &R, tasks: &TaskSet) {
    for (key, want) in KEYS {
        let is_text = is_key_of(key, tasks) && key_text(key, tasks).bytes() == want.as_bytes();
        assert!(rt; is_text, "{want}");
    }
}

/// A job that has run one of its slots.
fn job(key: Key, est: u64, dl: u64, declared: u32) -> Job {
    Job {
        key,
        est,
        dl,
        left: 1,
        declared,
    }
}

#[test]
fn writes_the_lines_of_a_plan(rt: HostRuntime) -> Result<(), Fail> {
    let short = job(Key::Offline(0, 0, 0), 0, 7, 2);
    let long = job(LONGEST, LAST, LAST, ROW);
    let line = "job graph-name-of-24-bytes_x.Task_name-of-24-bytes-yz#18446744073709551615 \
        18446744073709551615 18446744073709551615 4294967295\n";
    let tasks = long_names_set(rt.alloc())?;
    expect_job(&rt, &short, &tasks, "job g.a#0 0 7 2\n");
    expect_job(&rt, &long, &tasks, line);
    Ok(())
}

/// The job has this line.
fn expect_job<R: Abort>(rt: &R, job: &Job, tasks: &TaskSet, want: &str) {
    let is_line = is_key_of(job.key, tasks) && job_line(job, tasks).bytes() == want.as_bytes();
    assert!(rt; is_line, "{want}");
}

#[test]
fn writes_the_lines_of_spans(rt: HostRuntime) {
    let last = Span {
        work: LAST,
        ..span(LAST, LAST, i64::MIN)
    };
    let long =
        b"span 18446744073709551615 18446744073709551615 18446744073709551615 -9223372036854775808\n";
    assert!(rt; span_line(&last).bytes() == long.as_slice());
    assert!(rt; span_line(&span(0, 7, 5)).bytes() == b"span 0 7 0 5\n".as_slice());
}

/// Lines with what ran by them, or none where they are no line of a slot.
const RUNS: [(&str, Option<Ran>); 14] = [
    ("0 idle ", Some(Ran::Idle)),
    ("4294967295 idle | 1-7:4 7-8:0\n", Some(Ran::Idle)),
    ("7 run g.b#3 |", Some(Ran::Key(Key::Offline(0, 1, 3)))),
    ("7 run alarm@2  ", Some(Ran::Key(Key::Sporadic(0, 2)))),
    ("7 run soft:65535 ", Some(Ran::Key(Key::Soft(65535)))),
    ("7 idle", None),
    ("7 idle\n", None),
    ("7 run g.b#3", None),
    ("7 run g.d#3 ", None),
    ("7  idle ", None),
    ("07 idle ", None),
    ("4294967296 idle ", None),
    ("7 start | 0-7:5", None),
    ("", None),
];

#[test]
fn reads_what_ran(rt: HostRuntime) -> Result<(), Fail> {
    let tasks = alarm_set(rt.alloc())?;
    for (line, ran) in RUNS {
        assert!(rt; read_run(line.as_bytes(), &tasks) == ran, "at {line}");
    }
    Ok(())
}
