// The single pass.
ghost use Rattle.std.specs.Prelude.{◌≡◌, ◌*◌, ◌≤◌, IfOk, length};
ghost use Rattle.mq_core.specs.Sequences.{IsSoundLoad};
ghost use Rattle.mq_core.specs.Recurrences.{lindley};

use crate::crew::crew;
use crate::jobs::jobs_of;
use crate::rest::ended;
use mq_base::{List, OutOfMemory};
use mq_chain::Chain;
use mq_core::Stream;
use mq_crew::{Crew, Gate, placed};
use mq_scan::cut;
use mq_server::departures;
use std::alloc::Global;
use std::thread::Threads;

/// Returns when each job leaves a server, as `mq_server::departures` does. Workers draw blocks of jobs
/// from a table, publish the last departure of each block there, and continue from the one that was
/// published for the block before. If a worker finds no carry, the block is left until all others are
/// done.
///
/// There are 1 to 64 workers, at most as many as blocks, and at most 16,384 blocks of at least one job.
/// If there are two or more blocks, the gate is entered with each block that is drawn, and with the
/// index of each block that was left if two or more were. The only error is that memory runs out.
pub fn chain_departures<R: Threads + Sync, G: Gate>(
    rt: &R,
    alloc: Global,
    workers: u32,
    block: u32,
    stream: &Stream,
    demands: &List<u64>,
    gate: &G,
) -> Result<List<u64>, OutOfMemory>
    requires load { IsSoundLoad stream.now.time demands.now }
    requires some_workers { 1 ≤ workers }
    requires most_workers { workers ≤ 64 }
    requires some { 1 ≤ block }
    requires few { length stream.now.time ≤ 16384 * block }
    ensures { IfOk result (λ departs. departs ≡ lindley 0 stream.now.time demands.now) }
{
    let blocks = cut(stream.time.len() as u32, block);
    if blocks.blocks <= 1 {
        return departures(alloc, stream, demands);
    }
    let workers = workers.min(blocks.blocks);
    let (chain, seat) = Chain::new(alloc, blocks.blocks, workers)?;
    let (seat, made) = crew(
        rt, alloc, &chain, seat, 0, workers, stream, demands, &blocks, gate,
    );
    let carries = match chain.close(alloc, seat) {
        Ok(carries) => carries,
        Err(fault) => {
            drop(made);
            return Err(fault);
        }
    };
    let pieces = match made {
        Ok(pieces) => pieces,
        Err(fault) => {
            drop(carries);
            return Err(fault);
        }
    };
    match placed(alloc, blocks.blocks, pieces) {
        Ok(passed) => {
            let jobs = jobs_of(stream, demands, &blocks);
            let crew = Crew::new(rt, alloc, workers, gate);
            let departs = ended(&crew, &jobs, &carries, &passed);
            drop(carries);
            drop(passed);
            departs
        }
        Err(fault) => {
            drop(carries);
            Err(fault)
        }
    }
}
