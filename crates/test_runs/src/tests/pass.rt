// The single pass compared with the recurrence, and with gates that count and hold.
ghost use Rattle.std.specs.Prelude.{◌≡◌, ◌*◌, ◌≤◌, length, IfOk};
ghost use Rattle.mq_core.specs.Sequences.{IsSoundLoad};

use super::meeting::Meeting;
use mq_base::{List, OutOfMemory};
use mq_chain::ChainSeat;
use mq_claims::ClaimSeat;
use mq_core::Stream;
use mq_crew::{Gate, Open};
use mq_pass::chain_departures;
use mq_server::departures;
use std::alloc::Global;
use std::sync::atomic::AtomicU64;
use std::sync::atomic::Ordering::SeqCst;
use std::test::Fail;
use std::thread::Threads;

fn stream_of(alloc: Global, times: &[u64]) -> Result<Stream, OutOfMemory>
    ensures { IfOk result (λ s. s.time ≡ times.now) }
{
    Ok(Stream {
        job: List::new(alloc),
        time: List::from_vec(Vec::from_slice(alloc, times)?),
    })
}

fn list_of(alloc: Global, items: &[u64]) -> Result<List<u64>, OutOfMemory>
    ensures { IfOk result (λ l. l ≡ items.now) }
{
    Ok(List::from_vec(Vec::from_slice(alloc, items)?))
}

// Returns whether the jobs of a stream, with these demands, depart at these times.
fn pass_gives<R: Threads + Sync, G: Gate>(
    rt: &R,
    alloc: Global,
    workers: u32,
    block: u32,
    stream: &Stream,
    demands: &List<u64>,
    wanted: &[u64],
    gate: &G,
) -> Result<bool, OutOfMemory>
    requires load { IsSoundLoad stream.now.time demands.now }
    requires some_workers { 1 ≤ workers }
    requires most_workers { workers ≤ 64 }
    requires some { 1 ≤ block }
    requires few { length stream.now.time ≤ 16384 * block }
{
    let departs = chain_departures(rt, alloc, workers, block, stream, demands, gate)?;
    Ok(departs.as_slice() == wanted)
}

// Returns whether jobs that come at these times, with these demands, depart at these times.
fn departs_are<R: Threads + Sync, G: Gate>(
    rt: &R,
    alloc: Global,
    workers: u32,
    block: u32,
    times: &[u64],
    demands: &[u64],
    wanted: &[u64],
    gate: &G,
) -> Result<bool, OutOfMemory>
    requires load { IsSoundLoad times.now demands.now }
    requires some_workers { 1 ≤ workers }
    requires most_workers { workers ≤ 64 }
    requires some { 1 ≤ block }
    requires few { length times.now ≤ 16384 * block }
{
    let stream = stream_of(alloc, times)?;
    let demands = list_of(alloc, demands)?;
    let right = pass_gives(rt, alloc, workers, block, &stream, &demands, wanted, gate);
    drop(stream);
    drop(demands);
    right
}

#[test]
fn every_cut_and_crew_gives_the_recurrence(rt: HostRuntime) -> Result<(), Fail> {
    let times: &[u64] = &[0, 1, 2, 20, 20, 21, 40];
    let demands: &[u64] = &[4, 1, 3, 2, 9, 1, 5];
    let wanted: &[u64] = &[4, 5, 8, 22, 31, 32, 45];
    for workers in [1u32, 2, 3, 64] {
        for block in [1u32, 2, 3, 6, 7, 8] {
            assert!(rt;
                departs_are(
                    &rt,
                    rt.alloc(),
                    workers,
                    block,
                    times,
                    demands,
                    wanted,
                    &Open
                )?
            );
        }
    }
    Ok(())
}

// Returns jobs that come every 8 ticks, with demands of at most 16.
fn many(alloc: Global, jobs: u32) -> Result<(Stream, List<u64>), OutOfMemory>
    requires { jobs ≤ 1048576 }
    ensures sound { IfOk result (λ r. IsSoundLoad r.0.time r.1) }
    ensures len { IfOk result (λ r. length r.0.time ≡ jobs) }
{
    let mut time = Vec::new(alloc);
    let mut demands = Vec::new(alloc);
    'fills: for at in 0..jobs {
        time.push(at as u64 * 8)?;
        demands.push(at as u64 * 2_654_435 % 17)?;
    }
    let stream = Stream {
        job: List::new(alloc),
        time: List::from_vec(time),
    };
    Ok((stream, List::from_vec(demands)))
}

// Returns whether the jobs of a stream depart as the recurrence says.
fn pass_is_plain<R: Threads + Sync>(
    rt: &R,
    alloc: Global,
    workers: u32,
    block: u32,
    stream: &Stream,
    demands: &List<u64>,
) -> Result<bool, OutOfMemory>
    requires load { IsSoundLoad stream.now.time demands.now }
    requires some_workers { 1 ≤ workers }
    requires most_workers { workers ≤ 64 }
    requires some { 1 ≤ block }
    requires few { length stream.now.time ≤ 16384 * block }
{
    let plain = departures(alloc, stream, demands)?;
    let wanted = plain.as_slice();
    let right = pass_gives(rt, alloc, workers, block, stream, demands, wanted, &Open);
    drop(plain);
    right
}

// Returns whether 3,000 jobs depart as the recurrence says.
fn many_depart<R: Threads + Sync>(
    rt: &R,
    alloc: Global,
    workers: u32,
    block: u32,
) -> Result<bool, OutOfMemory>
    requires some_workers { 1 ≤ workers }
    requires most_workers { workers ≤ 64 }
    requires some { 1 ≤ block }
{
    let (stream, demands) = many(alloc, 3000)?;
    let right = pass_is_plain(rt, alloc, workers, block, &stream, &demands);
    drop(stream);
    drop(demands);
    right
}

#[test]
fn many_blocks_give_the_recurrence(rt: HostRuntime) -> Result<(), Fail> {
    for workers in [1u32, 2, 4] {
        for block in [1u32, 7, 64] {
            assert!(rt; many_depart(&rt, rt.alloc(), workers, block)?);
        }
    }
    Ok(())
}

// Counts the blocks of the pass, and the pieces made for blocks that it left.
#[derive(Drop)]
struct Counter {
    blocks: AtomicU64,
    pieces: AtomicU64,
}

impl Gate for Counter {
    fn enter(&self, _seat: &ClaimSeat, _worker: u32, _piece: u32) {
        self.pieces.fetch_add(1, SeqCst);
    }

    fn enter_block(&self, _seat: &ChainSeat, _worker: u32, _block: u32) {
        self.blocks.fetch_add(1, SeqCst);
    }
}

// Returns whether the jobs depart at these times, the gate is entered for this many blocks, and
// no block was left.
fn none_is_left<R: Threads + Sync>(
    rt: &R,
    alloc: Global,
    workers: u32,
    block: u32,
    times: &[u64],
    demands: &[u64],
    wanted: &[u64],
    blocks: u64,
) -> Result<bool, OutOfMemory>
    requires load { IsSoundLoad times.now demands.now }
    requires some_workers { 1 ≤ workers }
    requires most_workers { workers ≤ 64 }
    requires some { 1 ≤ block }
    requires few { length times.now ≤ 16384 * block }
{
    let gate = Counter {
        blocks: AtomicU64::new(0),
        pieces: AtomicU64::new(0),
    };
    let right = departs_are(rt, alloc, workers, block, times, demands, wanted, &gate)?;
    Ok(right && gate.blocks.load(SeqCst) == blocks && gate.pieces.load(SeqCst) == 0)
}

// A single worker finds the carry in front of each block.
#[test]
fn one_worker_leaves_no_block(rt: HostRuntime) -> Result<(), Fail> {
    let times: &[u64] = &[0, 1, 2];
    let demands: &[u64] = &[4, 1, 3];
    let wanted: &[u64] = &[4, 5, 8];
    assert!(rt; none_is_left(&rt, rt.alloc(), 1, 1, times, demands, wanted, 3)?);
    assert!(rt; none_is_left(&rt, rt.alloc(), 1, 2, times, demands, wanted, 2)?);
    Ok(())
}

#[test]
fn fewer_than_two_blocks_enter_no_gate(rt: HostRuntime) -> Result<(), Fail> {
    let times: &[u64] = &[0, 1, 2];
    let demands: &[u64] = &[4, 1, 3];
    let wanted: &[u64] = &[4, 5, 8];
    let none: &[u64] = &[];
    assert!(rt; none_is_left(&rt, rt.alloc(), 2, 3, times, demands, wanted, 0)?);
    assert!(rt; none_is_left(&rt, rt.alloc(), 2, 1, none, none, none, 0)?);
    Ok(())
}

// Holds the workers with the first five blocks.
#[derive(Drop)]
struct AtBlocks {
    meeting: Meeting,
}

impl Gate for AtBlocks {
    fn enter(&self, _seat: &ClaimSeat, _worker: u32, _piece: u32) {}

    fn enter_block(&self, _seat: &ChainSeat, worker: u32, block: u32) {
        self.meeting.enter(worker, block);
    }
}

// Returns whether five of these workers pass over five blocks, and meet.
fn five_pass<R: Threads + Sync>(rt: &R, alloc: Global, workers: u32) -> Result<bool, OutOfMemory>
    requires some { 1 ≤ workers }
    requires most { workers ≤ 64 }
{
    let gate = AtBlocks {
        meeting: Meeting::of_nobody(),
    };
    let right = departs_are(
        rt,
        alloc,
        workers,
        1,
        [0, 1, 2, 3, 4].as_slice(),
        [4, 1, 3, 1, 2].as_slice(),
        [4, 5, 8, 9, 11].as_slice(),
        &gate,
    )?;
    Ok(right && gate.meeting.is_whole())
}

#[test]
fn five_workers_enter_with_blocks_each_by_its_number(rt: HostRuntime) -> Result<(), Fail> {
    assert!(rt; five_pass(&rt, rt.alloc(), 5)?);
    Ok(())
}

#[test]
fn no_more_workers_start_than_there_are_blocks(rt: HostRuntime) -> Result<(), Fail> {
    assert!(rt; five_pass(&rt, rt.alloc(), 64)?);
    Ok(())
}
