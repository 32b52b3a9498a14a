//! Rows and blocks of a small trace.

use run_blocks::{blocks_of, rows_of};
use std::test::Fail;
use trace_lines::{key_text, read_trace};

/// Jobs of four kinds, of which one is broken off by another.
const TRACE: &[u8] = b"0 start | 0-4:2\n0 run g.b#0 | 1-4:2\n1 run soft:1 | 2-4:1\n\
    2 run g.b#0 | 3-4:1\n3 run rc@1 | 4-8:1\n4 run h.a#0 | 5-8:1\n5 soft 2 1 taken | 5-8:1\n\
    5 run h.a#0 | 6-8:1\n6 run g.a#0 | 7-8:1\n7 run firm:3 | 8-9:0\n8 idle | 9-10:0\n9 end\n";

/// The key of each block with its row, first slot and end.
const BLOCKS: [(&[u8], usize, u64, u64); 7] = [
    (b"g.b#0", 0, 0, 1),
    (b"soft:1", 5, 1, 2),
    (b"g.b#0", 0, 2, 3),
    (b"rc@1", 3, 3, 4),
    (b"h.a#0", 2, 4, 6),
    (b"g.a#0", 1, 6, 7),
    (b"firm:3", 4, 7, 8),
];

#[test]
fn draws_blocks(rt: HostRuntime) -> Result<(), Fail> {
    let alloc = rt.alloc();
    let lines = read_trace(alloc, TRACE).ok().ok_or("no trace")?;
    let rows = rows_of(alloc, &lines).ok().ok_or("no rows")?;
    let blocks = blocks_of(alloc, &lines, &rows).ok().ok_or("no blocks")?;
    assert!(rt; rows.len() == 6);
    assert!(rt; blocks.len() == BLOCKS.len());
    for (block, (key, row, start, end)) in blocks.iter().zip(BLOCKS.iter()) {
        assert!(rt; key_text(block.key).bytes() == *key);
        assert!(rt; (block.row, block.start, block.end) == (*row, *start, *end));
    }
    Ok(())
}
