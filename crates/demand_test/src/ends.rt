//! The slots that are due by each end of a window.

ghost use Rattle.std.specs.Prelude.{◌≡◌, ℕ, ◌+◌, ◌*◌, ◌^◌, ◌<◌, ◌≤◌, ◌&&◌, [], All, IfOk, length, take, replicate, nat_le, nat_lt, sum, sum_by, slice_index, if◌then◌else◌};
ghost use Rattle.slot_core.specs.declared.TheConstants.{SLOT_LIMIT};
ghost use Rattle.slot_core.specs.declared.jobs.Job.{Job};
ghost use Rattle.demand_test.specs.EndTables.{first_end, next_end, ending_by, raised, passed_by, due_by, IsEndTable, HasBlocks, ArePassed, AreEnds, AreReadable};

use slot_core::{Job, Memory};
use std::alloc::Global;

/// So many ends stand in a block.
const BLOCK: usize = 128;

/// For each end, 0 to two cycles, the slots of the jobs that are due by it. Jobs that start before
/// the windows in question are passed: their slots are kept apart, by blocks of ends, so that a job
/// is passed in few steps.
#[derive(Drop)]
pub struct Ends {
    /// For each end, the slots of all jobs of the first cycle and of the next.
    sums: Vec<u32>,
    /// For each end, the slots of the passed jobs that are due by it in its block.
    inner: Vec<u32>,
    /// For each block, the slots of the passed jobs that are due before it.
    blocks: Vec<u32>,
}

/// Adds the declared slots of a job at its ends: its deadline in the first cycle, and its deadline
/// in the next, past the end of the first.
fn count_job(due: &mut [u32], job: &Job, cycle: usize)
    requires positive { 0 < cycle }
    requires len { length due.old ≡ 2 * cycle + 1 }
    requires within { job.now.dl ≤ cycle }
    requires small { All (λ n. n < 2 ^ 30) due.old }
    requires short { job.now.declared < 2 ^ 30 }
    ensures { due.new ≡ raised
        (raised due.old (first_end job.now) job.now.declared)
        (next_end cycle job.now) job.now.declared }
{
    let end = job.dl as usize;
    let next = (end + cycle).max(cycle + 1);
    due[end] += job.declared;
    due[next] += job.declared;
}

/// So many zeros.
fn zeros(alloc: Global, count: usize) -> Result<Vec<u32>, Memory>
    ensures { IfOk result (λ zeros. zeros.items ≡ replicate count 0) }
{
    Ok(vec![in alloc; 0u32; count]?)
}

/// For each end, 0 to two cycles, the slots of the jobs of the first cycle and of the next that
/// begin to count there.
fn due_table(alloc: Global, jobs: &[Job], cycle: u32) -> Result<Vec<u32>, Memory>
    requires positive { 0 < cycle }
    requires cycle { cycle ≤ SLOT_LIMIT }
    requires within { All (λ (j : Job). j.dl ≤ cycle) jobs.now }
    requires few { sum_by (λ (j : Job). j.declared) jobs.now ≤ cycle }
    ensures { IfOk result (λ due. IsEndTable jobs.now jobs.now cycle due.items) }
{
    let length = cycle as usize;
    let mut due = zeros(alloc, 2 * length + 1)?;
    for job in jobs {
        count_job(&mut due, job, length);
    }
    Ok(due)
}

/// Writes at each place the sum of the numbers up to it.
fn add_up(numbers: &mut Vec<u32>)
    requires { sum numbers.old.items < 2 ^ 32 }
    ensures len { length numbers.new.items ≡ length numbers.old.items }
    ensures sums { (b : ℕ) → b < length numbers.old.items
        → slice_index numbers.new.items b ≡ sum (take (b + 1) numbers.old.items) }
{
    let mut sum = 0u32;
    for place in 0..numbers.len() {
        sum += numbers[place];
        numbers[place] = sum;
    }
}

/// Raises the numbers at the places `from..to`.
fn raise(numbers: &mut Vec<u32>, from: usize, to: usize, by: u32)
    requires from { from ≤ to }
    requires to { to ≤ length numbers.old.items }
    requires small { (k : ℕ) → from ≤ k → k < to
        → slice_index numbers.old.items k + by < 2 ^ 32 }
    ensures len { length numbers.new.items ≡ length numbers.old.items }
    ensures raised { (k : ℕ) → slice_index numbers.new.items k
        ≡ slice_index numbers.old.items k + (if nat_le from k && nat_lt k to then by else 0) }
{
    for place in from..to {
        numbers[place] += by;
    }
}

impl Ends {
    /// The ends of the jobs, none of them passed.
    pub(crate) fn of(alloc: Global, jobs: &[Job], cycle: u32) -> Result<Ends, Memory>
        requires positive { 0 < cycle }
        requires cycle { cycle ≤ SLOT_LIMIT }
        requires within { All (λ (j : Job). j.dl ≤ cycle) jobs.now }
        requires few { sum_by (λ (j : Job). j.declared) jobs.now ≤ cycle }
        ensures { IfOk result (λ ends. AreEnds jobs.now [] cycle ends) }
    {
        let last = 2 * cycle as usize;
        let mut sums = due_table(alloc, jobs, cycle)?;
        add_up(&mut sums);
        let inner = zeros(alloc, last + 1)?;
        let blocks = zeros(alloc, last / BLOCK + 1)?;
        Ok(Ends {
            sums,
            inner,
            blocks,
        })
    }

    /// How many ends there are.
    pub(crate) fn count(&self) -> usize
        ensures { result ≡ length self.now.sums.items }
    {
        self.sums.len()
    }

    /// The slots that are due by `end`, but for those of the passed jobs.
    pub(crate) fn due_by(&self, end: usize) -> u64
        requires within { end < length self.now.sums.items }
        requires readable { AreReadable self.now }
        ensures value { result ≡ due_by self.now end }
        ensures small { result < 2 ^ 32 }
    {
        u64::from(self.sums[end] - (self.blocks[end / BLOCK] + self.inner[end]))
    }

    /// Passes a job of the first cycle.
    fn pass(&mut self, job: &Job, last: usize)
        requires within { job.now.dl ≤ last }
        requires blocks { HasBlocks self.old last }
        requires few { (b : ℕ) → b ≤ last → passed_by self.old b < 2 ^ 31 }
        requires short { job.now.declared < 2 ^ 31 }
        ensures { ArePassed self.old self.new
            (λ b. if nat_le (first_end job.now) b then job.now.declared else 0) }
    {
        let end = job.dl as usize;
        let block = end / BLOCK;
        let next = ((block + 1) * BLOCK).min(last + 1);
        raise(&mut self.inner, end, next, job.declared);
        raise(&mut self.blocks, block + 1, last / BLOCK + 1, job.declared);
    }

    /// Passes these jobs of the first cycle.
    pub(crate) fn pass_all(&mut self, jobs: &[Job], last: usize)
        requires within { All (λ (j : Job). j.dl ≤ last) jobs.now }
        requires blocks { HasBlocks self.old last }
        requires few { (b : ℕ) → b ≤ last
            → passed_by self.old b + ending_by first_end jobs.now b < 2 ^ 31 }
        ensures { ArePassed self.old self.new (ending_by first_end jobs.now) }
    {
        for job in jobs {
            self.pass(job, last);
        }
    }
}
