ghost use Rattle.std.specs.Prelude.{◌≡◌, ◌≤◌, ◌∷◌, [], length, IfOk};
ghost use Rattle.mq_core.specs.Sequences.{IsSoundLoad};
ghost use Rattle.mq_maxplus.specs.Maxplus.{affine_then};
ghost use Rattle.mq_scan.specs.Folds.{AreSummaries};
ghost use Rattle.mq_server.specs.Jobs.{job};

use mq_base::{List, OutOfMemory};
use mq_core::Stream;
use mq_maxplus::{Affine, Mp};
use mq_scan::{Step, apply, carries, cut, scan, summarise};
use mq_server::ServerStep;
use std::alloc::Global;
use std::test::Fail;

// Arrivals and one demand each.
#[derive(Drop)]
struct Load {
    stream: Stream,
    demands: List<u64>,
}

// Returns three jobs, which come at 0, 1 and 2 and need 4, 1 and 3 ticks.
fn three_jobs(alloc: Global) -> Result<Load, OutOfMemory>
    ensures load { IfOk result (λ load. IsSoundLoad load.stream.time load.demands) }
    ensures arrive { IfOk result (λ load. load.stream.time ≡ 0 ∷ 1 ∷ 2 ∷ []) }
    ensures demands { IfOk result (λ load. load.demands ≡ 4 ∷ 1 ∷ 3 ∷ []) }
{
    Ok(Load {
        stream: Stream {
            job: List::from_vec(Vec::from_slice(alloc, &[0, 1, 2])?),
            time: List::from_vec(Vec::from_slice(alloc, &[0, 1, 2])?),
        },
        demands: List::from_vec(Vec::from_slice(alloc, &[4, 1, 3])?),
    })
}

// Returns whether a scan by blocks of this size gives these departures.
fn block_gives(
    alloc: Global,
    step: &ServerStep,
    block: u32,
    wanted: &[Mp],
) -> Result<bool, OutOfMemory>
    requires { 1 ≤ block }
{
    let after = scan(alloc, step, block)?;
    Ok(after.as_slice() == wanted)
}

// Returns whether scans by blocks of 1, 2, 3 and 4 jobs give them.
fn each_block_gives(alloc: Global, step: &ServerStep, wanted: &[Mp]) -> Result<bool, OutOfMemory> {
    for block in 1..5 {
        if !block_gives(alloc, step, block, wanted)? {
            return Ok(false);
        }
    }
    Ok(true)
}

// Returns whether these scans give these departures for the three jobs.
fn they_leave_at(alloc: Global, wanted: &[Mp]) -> Result<bool, OutOfMemory> {
    let load = three_jobs(alloc)?;
    each_block_gives(alloc, &ServerStep::new(&load.stream, &load.demands), wanted)
}

#[test]
fn every_block_gives_the_same_departures(rt: HostRuntime) -> Result<(), Fail> {
    assert!(rt; they_leave_at(rt.alloc(), &[Mp::At(4), Mp::At(5), Mp::At(8)])?);
    Ok(())
}

// Returns the summaries of the blocks into which all jobs are cut.
fn sums_of(alloc: Global, step: &ServerStep, block: u32) -> Result<List<Affine>, OutOfMemory>
    requires { 1 ≤ block }
    ensures { IfOk result (λ sums. AreSummaries affine_then (job step.now.arrive.now step.now.demands.now) (length step.now.arrive.now) block sums) }
{
    let blocks = cut(step.count(), block);
    let mut sums = List::new(alloc);
    'sums: for b in 0..blocks.blocks {
        let (from, to) = blocks.range(b);
        sums.push(summarise(step, from, to))?;
    }
    Ok(sums)
}

fn affine(add: u64, least: u64) -> Affine {
    Affine {
        add,
        least: Mp::At(least),
    }
}

// Returns whether these are the summaries of the blocks of this size.
fn sums_are(
    alloc: Global,
    step: &ServerStep,
    block: u32,
    wanted: &[Affine],
) -> Result<bool, OutOfMemory>
    requires { 1 ≤ block }
{
    let sums = sums_of(alloc, step, block)?;
    Ok(sums.as_slice() == wanted)
}

// Returns whether these are the departures before the blocks of two jobs.
fn carries_are(alloc: Global, step: &ServerStep, wanted: &[Mp]) -> Result<bool, OutOfMemory> {
    let sums = sums_of(alloc, step, 2)?;
    let before = carries(alloc, step, &sums)?;
    Ok(before.as_slice() == wanted)
}

// Returns whether these are the departures in the second of these blocks, after a
// departure at 5.
fn second_block_gives(alloc: Global, step: &ServerStep, wanted: &[Mp]) -> Result<bool, OutOfMemory>
    requires arrive { step.now.arrive.now ≡ 0 ∷ 1 ∷ 2 ∷ [] }
    requires demands { step.now.demands.now ≡ 4 ∷ 1 ∷ 3 ∷ [] }
{
    let after = apply(alloc, step, 2, 3, Mp::At(5))?;
    Ok(after.as_slice() == wanted)
}

// Returns whether summaries, carries and departures are those of the three jobs.
fn are_put_together(alloc: Global, step: &ServerStep) -> Result<bool, OutOfMemory>
    requires arrive { step.now.arrive.now ≡ 0 ∷ 1 ∷ 2 ∷ [] }
    requires demands { step.now.demands.now ≡ 4 ∷ 1 ∷ 3 ∷ [] }
{
    let jobs = [affine(4, 4), affine(1, 2), affine(3, 5)];
    let pairs = [affine(5, 5), affine(3, 5)];
    Ok(
        sums_are(alloc, step, 1, &jobs)?
            && sums_are(alloc, step, 2, &pairs)?
            && carries_are(alloc, step, &[Mp::Void, Mp::At(5)])?
            && second_block_gives(alloc, step, &[Mp::At(8)])?,
    )
}

// Returns the same for the three jobs above.
fn they_are_put_together(alloc: Global) -> Result<bool, OutOfMemory> {
    let load = three_jobs(alloc)?;
    are_put_together(alloc, &ServerStep::new(&load.stream, &load.demands))
}

#[test]
fn the_blocks_of_a_scan_are_put_together(rt: HostRuntime) -> Result<(), Fail> {
    assert!(rt; they_are_put_together(rt.alloc())?);
    Ok(())
}
