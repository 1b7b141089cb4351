// The passes of a scan over the blocks of a cut of all jobs.
ghost use Rattle.std.specs.Prelude.{◌≡◌, ◌<◌, ℕ, List as Items, length, map, IfOk, slice_index_or};
ghost use Rattle.mq_scan.specs.Blocks.{AreSumsOf, AreTimesOf, IsSumOf};
ghost use Rattle.mq_scan.specs.Folds.{AreBefore, carries_after};

use crate::{Blocks, Step, Timed, carries, summarise, times};
use mq_base::{List, OutOfMemory};
use std::alloc::Global;

/// Returns the summary of the jobs of block `b`, below the number of blocks of a cut of all jobs.
pub fn block_summary<P: Step>(step: &P, blocks: &Blocks, b: u32) -> P::Summary
    requires all { blocks.now.n ≡ P.size step.now }
    requires inside { b < blocks.now.blocks }
    ensures { IsSumOf P.joined (P.part step.now) blocks.now b result }
{
    let (from, to) = blocks.range(b);
    summarise(step, from, to)
}

/// Returns the carry before each block of a cut of all jobs, from the summaries of all blocks. Fails only
/// if memory runs out.
pub fn block_carries<P: Step>(
    alloc: Global,
    step: &P,
    blocks: &Blocks,
    sums: &List<P::Summary>,
) -> Result<List<P::Carry>, OutOfMemory>
    requires all { blocks.now.n ≡ P.size step.now }
    requires len { length sums.now ≡ blocks.now.blocks }
    requires sums { AreSumsOf P.joined (P.part step.now) blocks.now sums.now }
    ensures len { IfOk result (λ before. length before ≡ blocks.now.blocks) }
    ensures each { IfOk result (λ before. AreBefore P.acted (P.start step.now) (P.part step.now) blocks.now.block before) }
{
    carries(alloc, step, sums)
}

/// Returns the time read from the carry after each job of block `b` of a cut of all jobs, given the carry
/// before each block. Fails only if memory runs out.
pub fn block_times<P: Timed>(
    alloc: Global,
    step: &P,
    blocks: &Blocks,
    before: &List<P::Carry>,
    b: u32,
) -> Result<List<u64>, OutOfMemory>
    requires all { blocks.now.n ≡ P.size step.now }
    requires inside { b < blocks.now.blocks }
    requires len { length before.now ≡ blocks.now.blocks }
    requires before { AreBefore P.acted (P.start step.now) (P.part step.now) blocks.now.block before.now }
    ensures { IfOk result (λ times. AreTimesOf (P.time_of step.now) P.acted (P.start step.now) (P.part step.now) blocks.now b times) }
{
    let (from, to) = blocks.range(b);
    times(alloc, step, from, to, *before.get(b as usize))
}

/// Returns the time read from the carry after each job, given the times of each block of a cut of all
/// jobs, by joining the blocks in order. Fails only if memory runs out.
pub fn joined_times<P: Timed>(
    alloc: Global,
    step: &P,
    blocks: &Blocks,
    group: &List<List<u64>>,
) -> Result<List<u64>, OutOfMemory>
    requires all { blocks.now.n ≡ P.size step.now }
    requires len { length group.now ≡ blocks.now.blocks }
    requires group { (b : ℕ) (d : Items ℕ) → b < length group.now → AreTimesOf (P.time_of step.now) P.acted (P.start step.now) (P.part step.now) blocks.now b (slice_index_or group.now b d) }
    ensures { IfOk result (λ times. times ≡ map (P.time_of step.now) (carries_after P.acted (P.start step.now) (P.part step.now) 0 (P.size step.now))) }
{
    let mut times = Vec::with_capacity(alloc, step.count() as usize)?;
    'parts: for b in 0..group.len() {
        times.extend_from_slice(group.get(b).as_slice())?;
    }
    Ok(List::from_vec(times))
}
