//! Runs of slotview over files, an input and sinks in memory.

use command_line::Status;
use slot_core::Words;
use slot_io::{MemoryFiles, MemorySink};
use std::alloc::Global;
use std::process::Abort;
use std::test::Fail;
use view_run::{INPUT_LIMIT, INPUT_NAME, run};

/// One task, of two slots in eight.
const TASKS: &str = "graph = [{ name = 'g', period = 8, task = [{ name = 'a', wcet = 2 }] }]";

/// Its table.
const TABLE: &str =
    "SLOT\x02\0\x40\0\0\0\x01\0\x01g\x08\0\0\0\0\0\0\0\x08\0\0\0\x01\0\x01a\x02\0\0\0\0\0\0\0\
     \x01\0\0\0\0\0\0\0\0\0\0\0\0\0\0\0\x08\0\0\0\x02\0\0\0\x01\0\0\0\0\0\0\0\
     \x08\0\0\0\x02\0\0\0\x06\0\0\0\0\0\0\0";

/// A trace: soft work, a job that ends early, and an idle slot.
const TRACE: &str = "0 start | 0-8:5 8-16:6
0 soft 1 1 taken | 0-8:5 8-16:6
0 run soft:1 | 1-8:4 8-16:6
1 run g.a#0 | 2-8:4 8-16:6
2 done 2 g.a#0 freed 1 | 2-8:5 8-16:6
2 idle | 3-8:-1 8-16:4 +3
3 end
";

/// A trace of a task that the set has not.
const STRANGE: &str = "0 start | 0-8:6
0 run g.b#0 | 1-8:6
1 end
";

/// A text that stops before the end of a trace.
const BROKEN: &str = "0 start | 0-8:6
0 idle | 1-8:5
";

const EVENTS: &str =
    "time,row,kind,job,slots,within,answer,waiting,until,need,room,deadline,next,freed
0,1,soft,soft:1,1,,taken,,,,,,,
2,2,done,g.a#0,,,freed,,,,,,,1
";

const SPANS: &str = "line,time,place,start,end,spare
1,0,1,0,8,5
1,0,2,8,16,6
2,0,1,0,8,5
2,0,2,8,16,6
3,0,1,1,8,4
3,0,2,8,16,6
4,1,1,2,8,4
4,1,2,8,16,6
5,2,1,2,8,5
5,2,2,8,16,6
6,2,1,3,8,-1
6,2,2,8,16,4
";

const JOBS: &str =
    "key,kind,graph,task,number,release,start,deadline,declared,ran,freed,first,end,response,slack,preemptions
g.a#0,offline,g,a,0,0,0,8,2,1,1,1,2,2,6,0
soft:1,soft,,,1,0,0,,1,1,0,0,1,1,,0
";

const WAVES: &str = "$comment One unit of time is one slot. $end
$timescale 1 us $end
$scope module trace $end
$var wire 1 w0 g.a $end
$var wire 1 w1 soft $end
$var wire 1 w2 idle $end
$var integer 64 c capacity $end
$upscope $end
$enddefinitions $end
#0
$dumpvars
0w0
1w1
0w2
b0000000000000000000000000000000000000000000000000000000000000101 c
$end
#0
#1
0w1
1w0
b0000000000000000000000000000000000000000000000000000000000000100 c
#2
0w0
1w2
#3
b1111111111111111111111111111111111111111111111111111111111111111 c
";

const USAGE: &str =
    "usage: slotview picture [T | --table B] [FROM UNTIL] | jobs T | jobs --table B, \
     slotview events [FROM UNTIL] | spans [FROM UNTIL] | waves [FROM UNTIL] | stairs\n";

/// The words, the trace, the status, and what is written, or else told on standard error.
const RUNS: [(&str, &str, Status, &str); 22] = [
    ("events", TRACE, Status::Done, EVENTS),
    ("spans", TRACE, Status::Done, SPANS),
    ("waves", TRACE, Status::Done, WAVES),
    ("jobs a.toml", TRACE, Status::Done, JOBS),
    ("jobs --table a.bin", TRACE, Status::Done, JOBS),
    ("", TRACE, Status::Usage, USAGE),
    ("Waves", TRACE, Status::Usage, USAGE),
    ("waves a.toml", TRACE, Status::Usage, USAGE),
    ("jobs", TRACE, Status::Usage, USAGE),
    ("jobs --tables a.bin", TRACE, Status::Usage, USAGE),
    ("jobs --table a.bin b.bin", TRACE, Status::Usage, USAGE),
    ("picture", "", Status::NotVerified, "trace no line 1\n"),
    (
        "picture a.toml",
        STRANGE,
        Status::NotVerified,
        "trace no line 2\n",
    ),
    (
        "picture --table a.bin 0 1",
        STRANGE,
        Status::NotVerified,
        "trace no line 2\n",
    ),
    ("picture a.toml 1 1", TRACE, Status::Usage, USAGE),
    (
        "picture b.toml 0 2",
        TRACE,
        Status::FileFault,
        "cannot read b.toml\n",
    ),
    ("waves", BROKEN, Status::NotVerified, "trace no line 3\n"),
    (
        "jobs a.toml",
        STRANGE,
        Status::NotVerified,
        "trace no line 2\n",
    ),
    (
        "jobs b.toml",
        BROKEN,
        Status::FileFault,
        "cannot read b.toml\n",
    ),
    ("jobs a.bin", TRACE, Status::BadTasks, "tasks not toml\n"),
    (
        "jobs --table a.toml",
        TRACE,
        Status::BadTable,
        "table bad magic\n",
    ),
    (
        "jobs --table b.bin",
        TRACE,
        Status::FileFault,
        "cannot read b.bin\n",
    ),
];

/// How a run went.
#[derive(Drop)]
struct Ran {
    status: Status,
    out: MemorySink,
    err: MemorySink,
}

/// The words of the line.
fn words_of(alloc: Global, line: &str) -> Result<Words, Fail> {
    let mut words = Words::new(alloc);
    for word in line.split_ascii_whitespace() {
        words.push(word)?;
    }
    Ok(words)
}

/// The task file and the table.
fn files_of(alloc: Global) -> Result<MemoryFiles, Fail> {
    let mut files = MemoryFiles::empty(alloc);
    files.add("a.toml", TASKS.as_bytes())?;
    files.add("a.bin", TABLE.as_bytes())?;
    Ok(files)
}

/// Standard input that holds this trace, of which the read of this number fails.
fn input_of(alloc: Global, trace: &[u8], failing: u32) -> Result<MemoryFiles, Fail> {
    let mut input = MemoryFiles::empty(alloc);
    input.add(INPUT_NAME, trace)?;
    input.fail_read(failing)?;
    Ok(input)
}

/// Runs the words over the input, with so much room on the output.
fn run_over(alloc: Global, line: &str, input: &mut MemoryFiles, room: usize) -> Result<Ran, Fail> {
    let words = words_of(alloc, line)?;
    let mut files = files_of(alloc)?;
    let mut out = MemorySink::with_room(alloc, room)?;
    let mut err = MemorySink::with_room(alloc, 256)?;
    let status = run(alloc, &words, &mut files, input, &mut out, &mut err);
    Ok(Ran { status, out, err })
}

/// Runs the words over a trace on the input.
fn run_of(alloc: Global, line: &str, trace: &[u8], room: usize) -> Result<Ran, Fail> {
    let mut input = input_of(alloc, trace, 0)?;
    run_over(alloc, line, &mut input, room)
}

/// Compares the status, what is written, and what is told on standard error.
fn compare(rt: &impl Abort, line: &str, ran: &Ran, status: Status, out: &str, err: &str) {
    assert_eq!(rt; ran.err.bytes(), err.as_bytes(), "at {line}");
    assert_eq!(rt; ran.out.bytes(), out.as_bytes(), "at {line}");
    assert_eq!(rt; ran.status, status, "at {line}");
}

#[test]
fn shows_or_tells_why_not(rt: HostRuntime) -> Result<(), Fail> {
    for (line, trace, status, text) in RUNS {
        let ran = run_of(rt.alloc(), line, trace.as_bytes(), 4096)?;
        if status == Status::Done {
            compare(&rt, line, &ran, status, text, "");
        } else {
            compare(&rt, line, &ran, status, "", text);
        }
    }
    Ok(())
}

#[test]
fn tells_what_fails(rt: HostRuntime) -> Result<(), Fail> {
    let alloc = rt.alloc();
    for line in [
        "picture",
        "events",
        "spans",
        "waves",
        "jobs a.toml",
        "picture a.toml",
    ] {
        let mut input = input_of(alloc, TRACE.as_bytes(), 1)?;
        let ran = run_over(alloc, line, &mut input, 4096)?;
        compare(
            &rt,
            line,
            &ran,
            Status::FileFault,
            "",
            "cannot read standard input\n",
        );
        let ran = run_of(alloc, line, TRACE.as_bytes(), 0)?;
        compare(&rt, line, &ran, Status::WriteFault, "", "cannot write\n");
    }
    Ok(())
}

/// The trace of this many idle slots.
fn idle_trace(alloc: Global, slots: u32) -> Result<String, Fail> {
    let mut text = String::from_str(alloc, "0 start | 0-8:6\n")?;
    for slot in 0..slots {
        writeln!(text, "{slot} idle | 0-8:6")?;
    }
    writeln!(text, "{slots} end")?;
    Ok(text)
}

#[test]
fn refuses_what_is_too_long(rt: HostRuntime) -> Result<(), Fail> {
    let alloc = rt.alloc();
    let most = idle_trace(alloc, 10_000)?;
    let ran = run_of(alloc, "picture", most.as_bytes(), 1_000_000)?;
    assert!(rt; ran.status == Status::Done && ran.out.bytes().starts_with(b"<svg "));
    let more = idle_trace(alloc, 10_001)?;
    let ran = run_of(alloc, "picture", more.as_bytes(), 0)?;
    compare(
        &rt,
        "picture",
        &ran,
        Status::NotVerified,
        "",
        "trace too long 10000\n",
    );
    let large = vec![in alloc; b'0'; INPUT_LIMIT + 1]?;
    let ran = run_of(alloc, "waves", large.as_slice(), 0)?;
    compare(
        &rt,
        "waves",
        &ran,
        Status::TooLarge,
        "",
        "too large standard input 67108864\n",
    );
    Ok(())
}
