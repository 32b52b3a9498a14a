//! The slots due at each time, with sums kept by blocks of times.

ghost use Rattle.std.specs.Prelude.{◌≡◌, ◌+◌, ◌-◌, ◌*◌, ◌<◌, ◌≤◌, ◌^◌, ℕ, [], length, max, nat_lt, set, if◌then◌else◌, OnErr, OnOk};
ghost use Rattle.trace_verify.specs.Dues.{block_end, due_before, AreBlocks, IsLackAfter, IsStretch};

use slot_core::Memory;
use std::alloc::Global;
use std::marker::Model;

/// How many times a block has.
const BLOCK: usize = 64;

/// What is told of a stretch of times.
#[derive(Clone, Copy)]
pub(crate) struct Stretch {
    /// The slots due in it.
    pub(crate) work: u64,
    /// The most by which those due by one of its times are above the slots from its start to that
    /// time.
    pub(crate) lack: u64,
}

/// The slots due at each time from 0 on.
#[derive(Drop)]
pub(crate) struct Dues {
    due: Vec<u64>,
    blocks: Vec<Stretch>,
}

impl Model for Dues {
    ghost use Rattle.std.specs.Prelude.{ℕ, List};
    ghost use Rattle.trace_verify.specs.Dues.{AreBlocks};

    ghost Value = { List ℕ };

    ghost view = { λ d. d.due.items };

    ghost invariant = { λ d. AreBlocks d.due.items d.blocks.items };
}

impl Dues {
    /// Nothing is due.
    pub(crate) fn new(alloc: Global) -> Dues
        ensures { result ≡ [] }
    {
        Dues {
            due: Vec::new(alloc),
            blocks: Vec::new(alloc),
        }
    }

    /// So many slots more are due at this time.
    pub(crate) fn add(&mut self, at: u64, slots: u32) -> Result<(), Memory>
        requires few { (n : ℕ) → due_before self.old n ≤ 2 ^ 61 }
        ensures more { OnOk result ((n : ℕ) → due_before self.new n
            ≡ due_before self.old n + (if nat_lt at n then slots else 0)) }
        ensures stays { OnErr result ((n : ℕ) → due_before self.new n ≡ due_before self.old n) }
    {
        reach(&mut self.due, &mut self.blocks, at)?;
        add_at(&mut self.due, &mut self.blocks, at as usize, slots);
        Ok(())
    }

    /// So many slots fewer are due at this time.
    pub(crate) fn take(&mut self, at: u64, slots: u32)
        requires due { due_before self.old at + slots ≤ due_before self.old (at + 1) }
        ensures { (n : ℕ) → due_before self.old n
            ≡ due_before self.new n + (if nat_lt at n then slots else 0) }
    {
        if at / (BLOCK as u64) < self.blocks.len() as u64 {
            take_at(&mut self.due, &mut self.blocks, at as usize, slots);
        }
    }

    /// What the slots due after a time lack. Each block is looked at once.
    pub(crate) fn lack_after(&self, from: u64) -> u64
        requires near { from ≤ 2 ^ 41 }
        ensures { IsLackAfter (due_before self.now) from result }
    {
        lack_after(&self.due, &self.blocks, from)
    }

    /// The slots due before a time. Each block before it is looked at once.
    pub(crate) fn work_before(&self, time: u64) -> u64
        requires near { time ≤ 2 ^ 41 }
        ensures { result ≡ due_before self.now time }
    {
        work_before(&self.due, &self.blocks, time as usize)
    }

    /// What is told of the times from one on to the end of its block.
    pub(crate) fn to_block_end(&self, start: u64) -> Stretch
        requires near { start ≤ 2 ^ 41 }
        ensures { IsStretch (due_before self.now) start (block_end start) result }
    {
        to_block_end(&self.due, &self.blocks, start as usize)
    }

    /// The slots due at a time.
    pub(crate) fn due_at(&self, time: u64) -> u64
        requires near { time ≤ 2 ^ 41 }
        ensures { due_before self.now (time + 1) ≡ due_before self.now time + result }
    {
        due_at(&self.due, &self.blocks, time as usize)
    }
}

/// The end of the block in which a time lies.
pub(crate) fn block_end(time: u64) -> u64
    requires { time ≤ 2 ^ 41 }
    ensures { result ≡ block_end time }
{
    let block = BLOCK as u64;
    block * (time / block + 1)
}

/// The slots due before a time.
fn work_before(due: &[u64], blocks: &[Stretch], time: usize) -> u64
    requires blocks { AreBlocks due.now blocks.now }
    requires near { time ≤ 2 ^ 41 }
    ensures { result ≡ due_before due.now time }
{
    if time / BLOCK < blocks.len() {
        work_in_blocks(due, blocks, time)
    } else {
        work_in_blocks_before(due, blocks, blocks.len())
    }
}

/// What is told of the times from one on to the end of its block. Nothing is due behind the blocks.
fn to_block_end(due: &[u64], blocks: &[Stretch], start: usize) -> Stretch
    requires blocks { AreBlocks due.now blocks.now }
    requires near { start ≤ 2 ^ 41 }
    ensures { IsStretch (due_before due.now) start (block_end start) result }
{
    let block = start / BLOCK;
    if blocks.len() <= block {
        return Stretch { work: 0, lack: 0 };
    }
    if start == BLOCK * block {
        return blocks[block];
    }
    stretch_of(due, start, BLOCK * (block + 1))
}

/// The slots due at a time. Nothing is due behind the blocks.
fn due_at(due: &[u64], blocks: &[Stretch], time: usize) -> u64
    requires blocks { AreBlocks due.now blocks.now }
    requires near { time ≤ 2 ^ 41 }
    ensures { due_before due.now (time + 1) ≡ due_before due.now time + result }
{
    if time / BLOCK < blocks.len() {
        due[time]
    } else {
        0
    }
}

/// The slots due before a time in one of the blocks.
fn work_in_blocks(due: &[u64], blocks: &[Stretch], time: usize) -> u64
    requires blocks { AreBlocks due.now blocks.now }
    requires within { time < 64 * length blocks.now }
    ensures { result ≡ due_before due.now time }
{
    let first = time / BLOCK;
    work_in_blocks_before(due, blocks, first) + stretch_of(due, BLOCK * first, time).work
}

/// The slots due in so many blocks.
fn work_in_blocks_before(due: &[u64], blocks: &[Stretch], count: usize) -> u64
    requires blocks { AreBlocks due.now blocks.now }
    requires within { count ≤ length blocks.now }
    ensures { result ≡ due_before due.now (64 * count) }
{
    let mut work = 0;
    for k in 0..count {
        work += blocks[k].work;
    }
    work
}

/// So many slots more are due at a time in one of the blocks.
fn add_at(due: &mut Vec<u64>, blocks: &mut Vec<Stretch>, at: usize, slots: u32)
    requires blocks { AreBlocks due.old.items blocks.old.items }
    requires within { at < 64 * length blocks.old.items }
    requires few { (n : ℕ) → due_before due.old.items n + slots ≤ 2 ^ 62 }
    ensures blocks { AreBlocks due.new.items blocks.new.items }
    ensures more { (n : ℕ) → due_before due.new.items n
        ≡ due_before due.old.items n + (if nat_lt at n then slots else 0) }
{
    let more = due[at] + u64::from(slots);
    put(due, blocks, at, more);
}

/// So many slots fewer are due at a time in one of the blocks.
fn take_at(due: &mut Vec<u64>, blocks: &mut Vec<Stretch>, at: usize, slots: u32)
    requires blocks { AreBlocks due.old.items blocks.old.items }
    requires within { at < 64 * length blocks.old.items }
    requires due { due_before due.old.items at + slots ≤ due_before due.old.items (at + 1) }
    ensures blocks { AreBlocks due.new.items blocks.new.items }
    ensures fewer { (n : ℕ) → due_before due.old.items n
        ≡ due_before due.new.items n + (if nat_lt at n then slots else 0) }
{
    let fewer = due[at] - u64::from(slots);
    put(due, blocks, at, fewer);
}

/// So many slots are due at a time in one of the blocks, of which it is told anew.
fn put(due: &mut Vec<u64>, blocks: &mut Vec<Stretch>, at: usize, slots: u64)
    requires blocks { AreBlocks due.old.items blocks.old.items }
    requires within { at < 64 * length blocks.old.items }
    requires few { (n : ℕ) → due_before (set due.old.items at slots) n ≤ 2 ^ 62 }
    ensures due { due.new.items ≡ set due.old.items at slots }
    ensures blocks { AreBlocks due.new.items blocks.new.items }
{
    due[at] = slots;
    let block = at / BLOCK;
    let start = BLOCK * block;
    blocks[block] = stretch_of(due, start, start + BLOCK);
}

/// What is told of the times from `start` to before `end`.
fn stretch_of(due: &[u64], start: usize, end: usize) -> Stretch
    requires rising { start ≤ end }
    requires within { end ≤ length due.now }
    requires few { (n : ℕ) → due_before due.now n < 2 ^ 63 }
    ensures { IsStretch (due_before due.now) start end result }
{
    let mut work = 0;
    let mut lack = 0;
    for i in start..end {
        work += due[i];
        lack = more_lack(lack, work, (i - start) as u64);
    }
    Stretch { work, lack }
}

/// The most so far, or that by which the work is above the room.
fn more_lack(lack: u64, work: u64, room: u64) -> u64
    ensures { result ≡ max lack (work - room) }
{
    lack.max(work.saturating_sub(room))
}

/// There are blocks up to a time.
fn reach(due: &mut Vec<u64>, blocks: &mut Vec<Stretch>, at: u64) -> Result<(), Memory>
    requires { AreBlocks due.old.items blocks.old.items }
    ensures blocks { AreBlocks due.new.items blocks.new.items }
    ensures same { (n : ℕ) → due_before due.new.items n ≡ due_before due.old.items n }
    ensures within { OnOk result (at < 64 * length blocks.new.items) }
{
    while blocks.len() as u64 <= at / (BLOCK as u64) {
        lengthen(due, blocks)?;
    }
    Ok(())
}

/// One more block, in which nothing is due.
fn lengthen(due: &mut Vec<u64>, blocks: &mut Vec<Stretch>) -> Result<(), Memory>
    requires { AreBlocks due.old.items blocks.old.items }
    ensures blocks { AreBlocks due.new.items blocks.new.items }
    ensures same { (n : ℕ) → due_before due.new.items n ≡ due_before due.old.items n }
    ensures longer { OnOk result (length blocks.new.items ≡ length blocks.old.items + 1) }
{
    push_zeros(due)?;
    blocks.push(Stretch { work: 0, lack: 0 })?;
    Ok(())
}

/// Nothing is due at the next times, as many as a block has.
fn push_zeros(due: &mut Vec<u64>) -> Result<(), Memory>
    ensures same { (n : ℕ) → due_before due.new.items n ≡ due_before due.old.items n }
    ensures longer { length due.old.items ≤ length due.new.items }
    ensures block { OnOk result (length due.old.items + 64 ≤ length due.new.items) }
{
    for _i in 0..BLOCK {
        due.push(0)?;
    }
    Ok(())
}

/// What the slots due after a time lack: the rest of its block, and then block by block.
fn lack_after(due: &[u64], blocks: &[Stretch], from: u64) -> u64
    requires blocks { AreBlocks due.now blocks.now }
    requires near { from ≤ 2 ^ 41 }
    ensures { IsLackAfter (due_before due.now) from result }
{
    let start = from as usize + 1;
    let first = start / BLOCK + 1;
    if blocks.len() < first {
        return 0;
    }
    let rest = stretch_of(due, start, BLOCK * first);
    let mut work = rest.work;
    let mut lack = rest.lack.saturating_sub(1);
    for k in first..blocks.len() {
        let room = (BLOCK * k) as u64 - from;
        lack = more_lack(lack, work + blocks[k].lack, room);
        work += blocks[k].work;
    }
    lack
}
