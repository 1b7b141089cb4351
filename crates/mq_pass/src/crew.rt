// Workers that draw blocks.
ghost use Rattle.std.specs.Prelude.{◌≡◌, ◌+◌, ◌<◌, ◌≤◌, IfOk, length};
ghost use Rattle.std.specs.Thread.{IsSync};
ghost use Rattle.mq_chain.specs.Seats.{IsSeatOf};
ghost use Rattle.mq_core.specs.Sequences.{IsSoundLoad};
ghost use Rattle.mq_pass.specs.Passing.{IsFresh, IsPass};

use crate::block::{Passed, pass_block};
use crate::jobs::{Jobs, jobs_of};
use mq_base::{List, OutOfMemory};
use mq_chain::{Chain, ChainSeat};
use mq_core::Stream;
use mq_crew::{Gate, merged};
use mq_scan::Blocks;
use std::alloc::Global;
use std::thread::{Threads, join};

// One worker draws numbers until one has reached the number of blocks, and passes over each block
// that it drew.
fn pass_drawn<G: Gate>(
    alloc: Global,
    chain: &Chain,
    mut seat: ChainSeat,
    worker: u32,
    jobs: &Jobs<'_>,
    gate: &G,
) -> (ChainSeat, Result<Vec<(u32, Passed)>, OutOfMemory>)
    requires own { IsSeatOf chain.now seat }
    requires all { chain.now.blocks ≡ jobs.now.blocks.blocks }
    requires fresh { IsFresh seat }
    ensures seat { (result.0.table ≡ seat.table) × (result.0.right ≡ seat.right) }
    ensures passed { IfOk result.1 (λ v. IsPass jobs.now.step.arrive.now jobs.now.step.demands.now jobs.now.blocks.block jobs.now.blocks.blocks result.0 v.items) }
{
    let mut made = Vec::new(alloc);
    'draws: loop {
        let number = chain.draw(&mut seat);
        if number >= jobs.blocks.blocks as u64 {
            return (seat, Ok(made));
        }
        let b = number as u32;
        gate.enter_block(&seat, worker, b);
        let passed = match pass_block(alloc, chain, &mut seat, jobs, b) {
            Ok(passed) => passed,
            Err(refused) => return (seat, Err(refused)),
        };
        if made.push((b, passed)).is_err() {
            return (seat, Err(OutOfMemory));
        }
    }
}

// One worker passes over the jobs of a stream.
fn work<G: Gate>(
    alloc: Global,
    chain: &Chain,
    seat: ChainSeat,
    worker: u32,
    stream: &Stream,
    demands: &List<u64>,
    blocks: &Blocks,
    gate: &G,
) -> (ChainSeat, Result<Vec<(u32, Passed)>, OutOfMemory>)
    requires own { IsSeatOf chain.now seat }
    requires load { IsSoundLoad stream.now.time demands.now }
    requires whole { blocks.now.n ≡ length stream.now.time }
    requires all { chain.now.blocks ≡ blocks.now.blocks }
    requires fresh { IsFresh seat }
    ensures seat { (result.0.table ≡ seat.table) × (result.0.right ≡ seat.right) }
    ensures passed { IfOk result.1 (λ v. IsPass stream.now.time demands.now blocks.now.block blocks.now.blocks result.0 v.items) }
{
    let jobs = jobs_of(stream, demands, blocks);
    pass_drawn(alloc, chain, seat, worker, &jobs, gate)
}

/// Lets `workers` workers, from number `first` on, pass over the blocks. Each step halves them and
/// starts a new thread for one half.
#[cycle(crew)]
pub(crate) fn crew<G: Gate, R: Threads + Sync>(
    rt: &R,
    alloc: Global,
    chain: &Chain,
    mut seat: ChainSeat,
    first: u32,
    workers: u32,
    stream: &Stream,
    demands: &List<u64>,
    blocks: &Blocks,
    gate: &G,
) -> (ChainSeat, Result<Vec<(u32, Passed)>, OutOfMemory>)
    requires some { 1 ≤ workers }
    requires room { first + workers ≤ 64 }
    requires own { IsSeatOf chain.now seat }
    requires right { seat.right ≡ workers }
    requires load { IsSoundLoad stream.now.time demands.now }
    requires whole { blocks.now.n ≡ length stream.now.time }
    requires all { chain.now.blocks ≡ blocks.now.blocks }
    requires fresh { IsFresh seat }
    ensures seat { (result.0.table ≡ seat.table) × (result.0.right ≡ seat.right) }
    ensures passed { IfOk result.1 (λ v. IsPass stream.now.time demands.now blocks.now.block blocks.now.blocks result.0 v.items) }
{
    if workers == 1 {
        return work(alloc, chain, seat, first, stream, demands, blocks, gate);
    }
    let high = workers / 2;
    let low = workers - high;
    let other = chain.split(&mut seat, high);
    let front = move || -> (ChainSeat, Result<Vec<(u32, Passed)>, OutOfMemory>)
        requires { IsSync R.row × IsSync G.row × (1 ≤ low) × (first + low ≤ 64) × IsSeatOf chain.now seat × (seat.right ≡ low) × IsSoundLoad stream.now.time demands.now × (blocks.now.n ≡ length stream.now.time) × (chain.now.blocks ≡ blocks.now.blocks) × IsFresh seat }
        ensures { (result.0.table ≡ seat.table) × (result.0.right ≡ seat.right) × IfOk result.1 (λ v. IsPass stream.entry.now.time demands.entry.now blocks.entry.now.block blocks.entry.now.blocks result.0 v.items) }
    {
        crew(
            rt, alloc, chain, seat, first, low, stream, demands, blocks, gate,
        )
    };
    let back = move || -> (ChainSeat, Result<Vec<(u32, Passed)>, OutOfMemory>)
        requires { IsSync R.row × IsSync G.row × (1 ≤ high) × (first + low + high ≤ 64) × IsSeatOf chain.now other × (other.right ≡ high) × IsSoundLoad stream.now.time demands.now × (blocks.now.n ≡ length stream.now.time) × (chain.now.blocks ≡ blocks.now.blocks) × IsFresh other }
        ensures { (result.0.table ≡ other.table) × (result.0.right ≡ other.right) × IfOk result.1 (λ v. IsPass stream.entry.now.time demands.entry.now blocks.entry.now.block blocks.entry.now.blocks result.0 v.items) }
    {
        crew(
            rt,
            alloc,
            chain,
            other,
            first + low,
            high,
            stream,
            demands,
            blocks,
            gate,
        )
    };
    let ((mut mine, a), (its, b)) = join(rt, front, back);
    chain.join(&mut mine, its);
    (mine, merged(a, b))
}
