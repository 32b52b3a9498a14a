//! The table of a pair of tasks, and what is told of it when bytes change.

ghost use Rattle.std.specs.Prelude.{◌+◌, ◌≤◌, length};

use cycle_plan::Plan;
use slot_core::{Job, Key, Span};
use std::alloc::Global;
use std::process::Abort;
use std::test::Fail;
use table_codec::{TableFault, decode, encode};

/// Task `a` of two slots and then `b` of one, in a graph `g` of period 8: its table in the first
/// version.
const FIRST: [u8; 88] = [
    0x53, 0x4c, 0x4f, 0x54, 0x01, 0x00, 0x40, 0x00, // magic, version, soft limit
    0x01, 0x00, // one graph
    0x01, 0x67, 0x08, 0x00, 0x00, 0x00, 0x08, 0x00, 0x02, 0x00, // g and its two tasks
    0x01, 0x61, 0x02, 0x00, 0x00, 0x00, // a
    0x01, 0x62, 0x01, 0x00, 0x01, 0x00, 0x00, 0x00, // b after a
    0x00, 0x00, // no sporadic task
    0x02, 0x00, 0x00, 0x00, // two jobs
    0x00, 0x00, 0x00, 0x00, 0x00, 0x00, 0x00, 0x00, 0x07, 0x00, 0x02, 0x00, // g.a#0
    0x00, 0x00, 0x01, 0x00, 0x00, 0x00, 0x02, 0x00, 0x08, 0x00, 0x01, 0x00, // g.b#0
    0x02, 0x00, 0x00, 0x00, // two spans
    0x00, 0x00, 0x07, 0x00, 0x02, 0x00, 0x05, 0x00, 0x00, 0x00, // 0 to 7
    0x07, 0x00, 0x08, 0x00, 0x01, 0x00, 0x00, 0x00, 0x00, 0x00, // 7 to 8
];

/// Its table in the second version.
const SECOND: [u8; 136] = [
    0x53, 0x4c, 0x4f, 0x54, 0x02, 0x00, 0x40, 0x00, 0x00, 0x00, // magic, version, soft limit
    0x01, 0x00, // one graph
    0x01, 0x67, 0x08, 0x00, 0x00, 0x00, 0x00, 0x00, 0x00, 0x00, // g
    0x08, 0x00, 0x00, 0x00, 0x02, 0x00, // its deadline, two tasks
    0x01, 0x61, 0x02, 0x00, 0x00, 0x00, 0x00, 0x00, // a
    0x01, 0x62, 0x01, 0x00, 0x00, 0x00, 0x01, 0x00, 0x00, 0x00, // b after a
    0x00, 0x00, // no sporadic task
    0x02, 0x00, 0x00, 0x00, // two jobs
    0x00, 0x00, 0x00, 0x00, 0x00, 0x00, 0x00, 0x00, // g.a#0
    0x00, 0x00, 0x00, 0x00, 0x07, 0x00, 0x00, 0x00, 0x02, 0x00, 0x00, 0x00, // 0 to 7
    0x00, 0x00, 0x01, 0x00, 0x00, 0x00, 0x00, 0x00, // g.b#0
    0x02, 0x00, 0x00, 0x00, 0x08, 0x00, 0x00, 0x00, 0x01, 0x00, 0x00, 0x00, // 2 to 8
    0x02, 0x00, 0x00, 0x00, // two spans
    0x00, 0x00, 0x00, 0x00, 0x07, 0x00, 0x00, 0x00, 0x02, 0x00, 0x00, 0x00, // 0 to 7
    0x05, 0x00, 0x00, 0x00, 0x00, 0x00, 0x00, 0x00, // 5 to spare
    0x07, 0x00, 0x00, 0x00, 0x08, 0x00, 0x00, 0x00, 0x01, 0x00, 0x00, 0x00, // 7 to 8
    0x00, 0x00, 0x00, 0x00, 0x00, 0x00, 0x00, 0x00, // none to spare
];

/// A sporadic task `alarm` of one slot, at least 8 slots apart, due within 2, in each version; and
/// where it stands in the table of the pair, after a count of one in place of none.
const FIRST_ALARM: [u8; 14] = [
    0x01, 0x00, 0x05, 0x61, 0x6c, 0x61, 0x72, 0x6d, 0x01, 0x00, 0x08, 0x00, 0x02, 0x00,
];

const SECOND_ALARM: [u8; 20] = [
    0x01, 0x00, 0x05, 0x61, 0x6c, 0x61, 0x72, 0x6d, 0x01, 0x00, 0x00, 0x00, 0x08, 0x00, 0x00, 0x00,
    0x02, 0x00, 0x00, 0x00,
];

const FIRST_SPORADICS: usize = 34;

const SECOND_SPORADICS: usize = 46;

const JOBS: [Job; 2] = [
    Job {
        key: Key::Offline(0, 0, 0),
        est: 0,
        dl: 7,
        left: 2,
        declared: 2,
    },
    Job {
        key: Key::Offline(0, 1, 0),
        est: 2,
        dl: 8,
        left: 1,
        declared: 1,
    },
];

const SPANS: [Span; 2] = [
    Span {
        start: 0,
        end: 7,
        work: 2,
        spare: 5,
    },
    Span {
        start: 7,
        end: 8,
        work: 1,
        spare: 0,
    },
];

/// The first bytes of the first table, with one of them changed: how many, the place and the byte,
/// and the fault. With 89 bytes a 0 follows.
const FIRST_FAULTS: [(usize, usize, u8, &str); 46] = [
    (0, 0, 0x53, "short 0"),
    (3, 0, 0x53, "short 3"),
    (88, 0, 0x00, "bad magic"),
    (5, 0, 0x00, "bad magic"),
    (88, 4, 0x00, "bad version 0"),
    (88, 4, 0x03, "bad version 3"),
    (88, 5, 0x01, "bad version 257"),
    (6, 4, 0x03, "bad version 3"),
    (88, 4, 0x02, "source out of range top soft 65600"),
    (7, 6, 0x00, "short 7"),
    (88, 6, 0x00, "source out of range top soft 0"),
    (88, 7, 0x04, "source out of range top soft 1088"),
    (88, 8, 0x00, "source missing top graph"),
    (10, 8, 0x21, "source too many top graph 33"),
    (11, 10, 0x00, "source bad name graph 0 name"),
    (11, 10, 0x19, "source bad name graph 0 name"),
    (12, 10, 0x18, "short 12"),
    (88, 11, 0x31, "source bad name graph 0 name"),
    (88, 12, 0x00, "source out of range graph 0 period 0"),
    (88, 13, 0x10, "wrong span count 2 3"),
    (88, 13, 0x20, "source out of range graph 0 period 8200"),
    (88, 14, 0x08, "source out of range graph 0 offset 8"),
    (88, 14, 0x01, "source out of range graph 0 deadline 8"),
    (88, 16, 0x00, "source out of range graph 0 deadline 0"),
    (88, 18, 0x00, "source missing graph 0 task"),
    (88, 18, 0x21, "source too many graph 0 task 33"),
    (88, 22, 0x00, "source out of range graph 0 task 0 wcet 0"),
    (88, 22, 0x09, "infeasible 0 8 10"),
    (88, 24, 0x20, "source too many graph 0 task 0 after 32"),
    (88, 27, 0x61, "source doubled graph 0 task 1 name"),
    (88, 32, 0x02, "source no such task graph 0 task 1 after"),
    (35, 32, 0x02, "short 35"),
    (36, 32, 0x01, "source loop graph 0 task 1"),
    (36, 34, 0x09, "source too many top sporadic 9"),
    (88, 34, 0x01, "source bad name sporadic 0 name"),
    (88, 36, 0x03, "wrong job count 3 2"),
    (40, 39, 0xff, "wrong job count 4278190082 2"),
    (51, 40, 0x01, "short 51"),
    (88, 40, 0x01, "wrong job 0 1 0 0 0 7 2 0 0 0 0 7 2"),
    (88, 62, 0x02, "wrong job 1 0 1 0 2 8 2 0 1 0 2 8 1"),
    (68, 64, 0x00, "wrong span count 0 2"),
    (88, 74, 0x06, "wrong span 0 0 7 2 6 0 7 2 5"),
    (88, 87, 0x80, "wrong span 1 7 8 1 -2147483648 7 8 1 0"),
    (87, 84, 0x01, "short 87"),
    (89, 0, 0x53, "trailing 88"),
    (89, 84, 0x01, "wrong span 1 7 8 1 1 7 8 1 0"),
];

/// The same of the second table, after which a 0 stands too.
const SECOND_FAULTS: [(usize, usize, u8, &str); 16] = [
    (136, 4, 0x03, "bad version 3"),
    (136, 4, 0x01, "source missing top graph"),
    (9, 6, 0x00, "short 9"),
    (136, 7, 0x04, "source out of range top soft 1088"),
    (136, 9, 0x01, "source out of range top soft 16777280"),
    (136, 15, 0x20, "source out of range graph 0 period 8200"),
    (136, 17, 0x01, "source out of range graph 0 period 16777224"),
    (136, 30, 0x09, "infeasible 0 8 10"),
    (136, 48, 0x03, "wrong job count 3 2"),
    (136, 58, 0x01, "wrong job 0 0 0 65536 0 7 2 0 0 0 0 7 2"),
    (
        136,
        67,
        0x80,
        "wrong job 0 0 0 0 0 2147483655 2 0 0 0 0 7 2",
    ),
    (136, 92, 0x00, "wrong span count 0 2"),
    (136, 112, 0x01, "wrong span 0 0 7 2 4294967301 0 7 2 5"),
    (
        136,
        135,
        0x80,
        "wrong span 1 7 8 1 -9223372036854775808 7 8 1 0",
    ),
    (135, 0, 0x53, "short 135"),
    (137, 0, 0x53, "trailing 136"),
];

/// A byte of the first table, the same in the second, and another under which both spell one plan:
/// the soft limit, the name of the graph and that of its first task.
const SPELLED: [(usize, usize, u8); 3] = [(6, 6, 0x41), (11, 13, 0x68), (21, 29, 0x63)];

/// So many bytes of a table and of a 0 after it, with the byte at this place.
fn changed(
    alloc: Global,
    table: &[u8],
    count: usize,
    place: usize,
    byte: u8,
) -> Result<Vec<u8>, Fail> {
    let mut bytes = Vec::new(alloc);
    for (at, own) in table.iter().chain(&[0]).take(count).enumerate() {
        bytes.push(if at == place { byte } else { *own })?;
    }
    Ok(bytes)
}

/// Whether this is told of a table with one byte changed.
fn is_told(
    alloc: Global,
    table: &[u8],
    count: usize,
    place: usize,
    byte: u8,
    want: &str,
) -> Result<bool, Fail> {
    let bytes = changed(alloc, table, count, place, byte)?;
    let fault = fault_of(alloc, bytes.as_slice()).ok_or("no fault")?;
    is_text(alloc, fault, want)
}

/// The fault of a table.
fn fault_of(alloc: Global, table: &[u8]) -> Option<TableFault> {
    decode(alloc, table).err()
}

/// Whether the fault has this text.
fn is_text(alloc: Global, fault: TableFault, want: &str) -> Result<bool, Fail> {
    let text = format!(in alloc; "{fault}")?;
    Ok(text.as_str() == want)
}

/// A table of the pair with the alarm.
fn with_alarm(alloc: Global, table: &[u8], at: usize, alarm: &[u8]) -> Result<Vec<u8>, Fail>
    requires { at + 2 ≤ length table.now }
{
    let mut bytes = Vec::new(alloc);
    bytes.extend_from_slice(&table[..at])?;
    bytes.extend_from_slice(alarm)?;
    bytes.extend_from_slice(&table[at + 2..])?;
    Ok(bytes)
}

/// Whether this table is written of the plan that a table spells.
fn is_written_of(alloc: Global, table: &[u8], want: &[u8]) -> Result<bool, Fail> {
    let plan = decode(alloc, table)?;
    is_written(alloc, &plan, want)
}

/// Whether this table is written of the plan.
fn is_written(alloc: Global, plan: &Plan, want: &[u8]) -> Result<bool, Fail> {
    let bytes = encode(alloc, plan)?;
    Ok(bytes.as_slice() == want)
}

#[test]
fn reads_the_plan_of_a_pair(rt: HostRuntime) -> Result<(), Fail> {
    let plan = decode(rt.alloc(), &FIRST)?;
    assert!(rt; is_pair(&plan));
    Ok(())
}

/// Whether the plan is that of the pair.
fn is_pair(plan: &Plan) -> bool {
    plan.cycle() == 8 && plan.jobs() == JOBS.as_slice() && plan.spans() == SPANS.as_slice()
}

#[test]
fn writes_the_second_version_of_both(rt: HostRuntime) -> Result<(), Fail> {
    let alloc = rt.alloc();
    assert!(rt; is_written_of(alloc, &FIRST, &SECOND)?);
    assert!(rt; is_written_of(alloc, &SECOND, &SECOND)?);
    Ok(())
}

#[test]
fn writes_changed_bytes_that_are_read(rt: HostRuntime) -> Result<(), Fail> {
    for (first, second, byte) in &SPELLED {
        let is_written = is_change_written(rt.alloc(), *first, *second, *byte)?;
        assert!(rt; is_written, "at {first}");
    }
    Ok(())
}

/// Whether of each table with one byte changed the second is written with that change.
fn is_change_written(alloc: Global, first: usize, second: usize, byte: u8) -> Result<bool, Fail> {
    let want = changed(alloc, &SECOND, SECOND.len(), second, byte)?;
    let old = changed(alloc, &FIRST, FIRST.len(), first, byte)?;
    Ok(
        is_written_of(alloc, old.as_slice(), want.as_slice())?
            && is_written_of(alloc, want.as_slice(), want.as_slice())?,
    )
}

#[test]
fn writes_a_sporadic_task(rt: HostRuntime) -> Result<(), Fail> {
    let alloc = rt.alloc();
    let first = with_alarm(alloc, &FIRST, FIRST_SPORADICS, &FIRST_ALARM)?;
    assert!(rt; is_alarm_written(alloc, first.as_slice())?);
    Ok(())
}

/// Whether the second version with the alarm is written of the plan that a table spells.
fn is_alarm_written(alloc: Global, table: &[u8]) -> Result<bool, Fail> {
    let second = with_alarm(alloc, &SECOND, SECOND_SPORADICS, &SECOND_ALARM)?;
    is_written_of(alloc, table, second.as_slice())
}

#[test]
fn tells_first_faults(rt: HostRuntime) -> Result<(), Fail> {
    expect_faults(&rt, rt.alloc(), &FIRST, &FIRST_FAULTS)?;
    expect_faults(&rt, rt.alloc(), &SECOND, &SECOND_FAULTS)
}

/// Each of these is told of the table with one byte changed.
fn expect_faults<R: Abort>(
    rt: &R,
    alloc: Global,
    table: &[u8],
    faults: &[(usize, usize, u8, &str)],
) -> Result<(), Fail> {
    for (count, place, byte, want) in faults {
        let is_told = is_told(alloc, table, *count, *place, *byte, want)?;
        assert!(rt; is_told, "of {count} bytes, at {place}");
    }
    Ok(())
}

#[test]
fn tells_each_shorter_table(rt: HostRuntime) -> Result<(), Fail> {
    for count in 0..SECOND.len() {
        let fault = fault_of(rt.alloc(), &SECOND[..count]);
        assert!(rt; matches!(fault, Some(TableFault::Short(at)) if at == count as u64));
    }
    Ok(())
}
