//! Texts that are traces, and texts whose first faulty line is told.

use std::alloc::Global;
use std::test::Fail;
use trace_lines::{TraceFault, read_trace};

/// A text, and how many lines it has, or which line is the first that is none.
const TEXTS: [(&[u8], Result<usize, u64>); 18] = [
    (b"", Err(1)),
    (b"0 start | 0-4:2\n", Err(2)),
    (b"0 start | 0-4:2\n0 end\n", Ok(2)),
    (b"0 start | 0-4:2\n0 end", Err(2)),
    (b"0 start | 0-4:2\n0 end\n\n", Err(3)),
    (b"1 start | 0-4:2\n1 end\n", Err(1)),
    (
        b"0 start | 0-4:2\n0 run g.a#0 | 1-4:2 +3\n1 idle | 2-4:-2 4-8:0\n2 end\n",
        Ok(4),
    ),
    (
        b"0 start | 0-4:2\n0 run g.a#0 | 1-4:2\n0 idle | 2-4:-2 4-8:0\n2 end\n",
        Err(3),
    ),
    (
        b"0 start | 0-4:2\n0 soft 1 2 taken | 0-4:2\n0 soft 2 2 full 1 | 0-4:2\n0 end\n",
        Ok(4),
    ),
    (
        b"0 start | 0-4:2\n0 firm 1 2 3 noroom 1 2 3 | 0-4:2\n\
          0 sporadic 2 rc soon 8 | 0-4:2\n0 end\n",
        Ok(4),
    ),
    (
        b"0 start | 0-4:2\n0 done 1 a.b#3 freed 2 | 0-4:2\n\
          0 withdraw 2 firm:1 nojob | 0-4:2\n0 end\n",
        Ok(4),
    ),
    (b"0 start | 0-4:2\n0 run rc@65536 | 0-4:2\n", Err(2)),
    (b"0 start | 0-4:2 +0\n0 end\n", Err(1)),
    (b"0 start | 0-4:-0\n0 end\n", Err(1)),
    (b"0 start |\n0 end\n", Err(1)),
    (
        b"0 start | 0-1:0 1-2:0 2-3:0 3-4:0 4-5:0 5-6:0 6-7:0 7-8:0 +12\n0 end\n",
        Ok(2),
    ),
    (
        b"0 start | 0-1:0 1-2:0 2-3:0 3-4:0 4-5:0 5-6:0 6-7:0 7-8:0 8-9:1\n0 end\n",
        Err(1),
    ),
    (b"0 start | 0-4:2\n0 start | 0-4:2\n0 end\n", Err(2)),
];

#[test]
fn tells_the_first_faulty_line(rt: HostRuntime) -> Result<(), Fail> {
    for (text, answer) in &TEXTS {
        assert!(rt; reading(rt.alloc(), text) == *answer);
    }
    Ok(())
}

/// How many lines are read, or which is the first that is none.
fn reading(alloc: Global, text: &[u8]) -> Result<usize, u64> {
    match read_trace(alloc, text) {
        Ok(lines) => Ok(lines.len()),
        Err(TraceFault::NoLine(number)) => Err(number),
        Err(_) => Err(0),
    }
}
