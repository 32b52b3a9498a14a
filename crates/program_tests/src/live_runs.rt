//! Runs over files, lines and streams in memory.

use crate::record::MemoryRecord;
use command_line::Status;
use live_lines::InputLines;
use live_run::{Streams, run};
use slot_core::Words;
use slot_io::{MemoryFiles, MemorySink};
use std::alloc::Global;
use std::test::Fail;

/// A task of two slots every ten, and an alarm.
const TASKS: &str = "graph = [{ name = 'p', period = 10, task = [{ name = 'w', wcet = 2 }] }]
sporadic = [{ name = 'rc', wcet = 1, separation = 10 }]";

/// Lines of each kind, and one that is none.
const LINES: &str = "soft 3
firm 2 8
sporadic rc
slot
done p.w#0
withdraw 2
withdraw
end
";

/// The rows of their arrivals.
const ROWS: &str = "0,soft,3\n0,firm,2,8\n0,sporadic,rc\n1,done,p.w#0\n1,withdraw,2\n";

/// Bytes for which there is room where a case says nothing of it.
const ROOM: usize = 4096;

/// What fails in a run: the put of this number of the answers, 0 for none, and how many bytes the
/// record takes; the status, the rows that are kept, and what is told on standard error.
type Case = (u32, usize, Status, &'static str, &'static str);

/// A run that is done, and runs whose record or whose answers fail: the row of an arrival is kept
/// before the line of its answer is put, and there is no answer where it is not kept.
const CASES: [Case; 4] = [
    (0, ROOM, Status::Done, ROWS, "line 7: no command\n"),
    (1, ROOM, Status::WriteFault, "", "cannot write\n"),
    (2, ROOM, Status::WriteFault, "0,soft,3\n", "cannot write\n"),
    (
        0,
        12,
        Status::WriteFault,
        "0,soft,3\n0,f",
        "cannot write a.csv\n",
    ),
];

/// The streams, of which the answers' put of this number fails.
fn streams_of(
    alloc: Global,
    failing: u32,
    room: usize,
) -> Result<Streams<MemorySink, MemoryRecord, MemorySink>, Fail> {
    let mut answers = MemorySink::with_room(alloc, ROOM)?;
    answers.fail_put(failing)?;
    Ok(Streams {
        answers,
        rows: MemoryRecord::with_room(alloc, room),
        faults: MemorySink::with_room(alloc, ROOM)?,
    })
}

/// The status of a run of the lines over the tasks, with a record.
fn status_of(
    alloc: Global,
    streams: &mut Streams<MemorySink, MemoryRecord, MemorySink>,
) -> Result<Status, Fail> {
    let mut words = Words::new(alloc);
    words.push("a.toml")?;
    words.push("--record")?;
    words.push("a.csv")?;
    let mut files = MemoryFiles::empty(alloc);
    files.add("a.toml", TASKS.as_bytes())?;
    let mut source = InputLines::new(LINES.as_bytes());
    Ok(run(alloc, &words, &mut files, &mut source, streams))
}

#[test]
fn arrivals_are_recorded_before_their_answers(rt: HostRuntime) -> Result<(), Fail> {
    for (failing, room, status, rows, told) in CASES {
        let mut streams = streams_of(rt.alloc(), failing, room)?;
        let ended = status_of(rt.alloc(), &mut streams)?;
        assert_eq!(rt; ended, status, "at {failing} {room}");
        assert_eq!(rt;
            streams.rows.bytes(),
            rows.as_bytes(),
            "at {failing} {room}"
        );
        assert_eq!(rt;
            streams.faults.bytes(),
            told.as_bytes(),
            "at {failing} {room}"
        );
    }
    Ok(())
}
