//! Pictures of a small trace, and of long ones.

use std::alloc::Global;
use std::str;
use std::test::Fail;
use trace_lines::{SpanList, TraceLine, Words, read_trace};
use view_picture::{PictureFault, picture};

/// What arrives in each way, and jobs of each kind.
const TRACE: &[u8] = b"0 start | 0-4:2\n0 firm 1 2 4 accepted | 0-4:0\n\
    0 firm 2 3 4 noroom 4 5 4 | 0-4:0\n0 run g.b#0 | 1-4:-2\n1 sporadic 3 rc taken 9 | 1-4:-2\n\
    1 run rc@3 | 2-4:0\n2 run firm:1 | 3-4:0\n3 done 4 firm:1 freed 1 | 3-4:1\n\
    3 soft 5 1 taken | 3-4:1\n3 run soft:5 | 4-8:4\n4 idle | 5-8:3\n5 end\n";

/// Parts of its picture.
const PARTS: [&str; 8] = [
    "<title>g.b#0: 1 slot, 0-1</title>",
    "<title>rc@3: 1 slot, 1-2</title>",
    "<title>firm:1: 1 slot, 2-3</title>",
    "<title>soft:5: 1 slot, 3-4</title>",
    "<title>row 1 at 0, firm offer of 2 slots within 4: accepted</title>",
    "<title>row 2 at 0, firm offer of 3 slots within 4: refused, by 4 it needs 5 of 4 slots</title>",
    "<title>row 3 at 1, alarm rc: taken, due at 9</title>",
    "<title>row 4 at 3, early end of firm:1: 1 slot free</title>",
];

#[test]
fn draws_a_trace(rt: HostRuntime) -> Result<(), Fail> {
    let alloc = rt.alloc();
    let lines = read_trace(alloc, TRACE).ok().ok_or("no trace")?;
    let document = picture(alloc, &lines).ok().ok_or("no picture")?;
    let text = str::from_utf8(document.bytes()).ok().ok_or("no text")?;
    for part in &PARTS {
        assert!(rt; text.contains(*part));
    }
    Ok(())
}

#[test]
fn refuses_a_long_trace(rt: HostRuntime) -> Result<(), Fail> {
    assert!(rt; fault_of(rt.alloc(), 10_000) == None);
    assert!(rt; fault_of(rt.alloc(), 10_001) == Some(PictureFault::TooLong));
    Ok(())
}

/// Why there is no picture of lines from time 0 to this time, if there is none.
fn fault_of(alloc: Global, slots: u32) -> Option<PictureFault> {
    picture(alloc, &[ended(0), ended(slots)]).err()
}

/// The last line of a trace that ends at this time.
fn ended(time: u32) -> TraceLine {
    TraceLine {
        time,
        words: Words::End,
        spans: SpanList::new(),
        more: 0,
    }
}
