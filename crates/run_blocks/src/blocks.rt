//! Blocks of slots in which one job runs.

ghost use Rattle.std.specs.Prelude.{◌≡◌, ◌≢◌, ◌∷◌, ◌++◌, [], true, false, IfOk, OnOk};
ghost use Rattle.trace_lines.specs.Traces.{run_at, runs_of};
ghost use Rattle.run_blocks.specs.declared.blocks.Block.{Block};
ghost use Rattle.run_blocks.specs.Blocks.{are_placed, AreApart, AreBlocks, AreBlocksOf, blocks_runs, IsSlot};

use crate::rows::{Row, row_at};
use slot_core::Memory;
use std::alloc::Global;
use trace_lines::{KeyName, TraceLine, Words};

/// The slots [start, end), in which the job of the key runs, and in none right before or after.
#[derive(Clone, Copy)]
pub struct Block<'a> {
    /// The place of its row.
    pub row: usize,
    /// The job.
    pub key: &'a KeyName,
    /// Its first slot.
    pub start: u64,
    /// The first slot after it.
    pub end: u64,
}

/// The blocks of the lines, in their order: they stand for a job and a slot exactly where a line
/// runs that job in that slot. Each stands in the first of the rows that holds its job.
pub fn blocks_of<'a>(
    alloc: Global,
    lines: &'a [TraceLine],
    rows: &[Row],
) -> Result<Vec<Block<'a>>, Memory>
    ensures runs { IfOk result (λ blocks. blocks_runs blocks.items ≡ runs_of lines.now) }
    ensures placed { IfOk result (λ blocks. are_placed rows.now blocks.items ≡ true) }
    ensures apart { IfOk result (λ blocks. AreApart blocks.items) }
{
    let mut blocks = Vec::new(alloc);
    push_runs(&mut blocks, lines, rows)?;
    Ok(blocks)
}

/// Appends the blocks of the lines.
fn push_runs<'a>(
    blocks: &mut Vec<Block<'a>>,
    lines: &'a [TraceLine],
    rows: &[Row],
) -> Result<(), Memory>
    requires { blocks.old.items ≡ [] }
    ensures { OnOk result (AreBlocksOf rows.now blocks.new.items (runs_of lines.now)) }
{
    for line in lines {
        push_run_of(blocks, rows, line)?;
    }
    Ok(())
}

/// Adds the slot in which the line runs a job, if it runs one.
fn push_run_of<'a>(
    blocks: &mut Vec<Block<'a>>,
    rows: &[Row],
    line: &'a TraceLine,
) -> Result<(), Memory>
    requires { AreBlocks rows.now blocks.old.items }
    ensures { OnOk result (AreBlocksOf rows.now blocks.new.items
        (blocks_runs blocks.old.items ++ run_at line.now.time line.now.words)) }
{
    match &line.words {
        Words::Run(key) => push_run(blocks, rows, line.time, key),
        _ => Ok(()),
    }
}

/// Adds the slot in which the job of the key runs: to the last block, where that is of the same job
/// and ends there, else as a new one.
fn push_run<'a>(
    blocks: &mut Vec<Block<'a>>,
    rows: &[Row],
    time: u32,
    key: &'a KeyName,
) -> Result<(), Memory>
    requires { AreBlocks rows.now blocks.old.items }
    ensures { OnOk result (AreBlocksOf rows.now blocks.new.items
        (blocks_runs blocks.old.items ++ (time, key.now) ∷ [])) }
{
    match blocks.pop() {
        Some(last) => push_behind(blocks, last, rows, time, key),
        None => push_block(blocks, rows, time, key),
    }
}

/// Puts the last block back, with one slot more where it goes on, else with a new block behind it.
fn push_behind<'a>(
    blocks: &mut Vec<Block<'a>>,
    last: Block<'a>,
    rows: &[Row],
    time: u32,
    key: &'a KeyName,
) -> Result<(), Memory>
    requires { AreBlocks rows.now (blocks.old.items ++ last ∷ []) }
    ensures { OnOk result (AreBlocksOf rows.now blocks.new.items
        (blocks_runs (blocks.old.items ++ last.entry ∷ []) ++ (time, key.now) ∷ [])) }
{
    if goes_on(&last, time, key) {
        let end = last.end + 1;
        blocks.push(Block { end, ..last })?;
        return Ok(());
    }
    blocks.push(last)?;
    push_block(blocks, rows, time, key)
}

/// Whether the block is of this job and ends at this time.
fn goes_on(block: &Block<'_>, time: u32, key: &KeyName) -> bool
    ensures yes { result ≡ true → (block.now.end ≡ time) × (block.now.key.now ≡ key.now) }
    ensures not { result ≡ false → block.now.end ≡ time → block.now.key.now ≢ key.now }
{
    block.end == u64::from(time) && block.key.is(key)
}

/// Appends a block of one slot.
fn push_block<'a>(
    blocks: &mut Vec<Block<'a>>,
    rows: &[Row],
    time: u32,
    key: &'a KeyName,
) -> Result<(), Memory>
    ensures { OnOk result ((block : Block) × IsSlot rows.now block time key.now
        × (blocks.new.items ≡ blocks.old.items ++ block ∷ [])) }
{
    blocks.push(Block {
        row: row_at(rows, key),
        key,
        start: u64::from(time),
        end: u64::from(time) + 1,
    })?;
    Ok(())
}
