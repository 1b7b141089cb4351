// A delay in which jobs overtake others.
ghost use Rattle.std.specs.Prelude.{◌≤◌, length, IfOk};
ghost use Rattle.mq_exits.specs.Keeping.{IsEmptiedOf, IsLeftOf};
ghost use Rattle.mq_exits.specs.Loads.{IsReadyLoad};
ghost use Rattle.mq_exits.specs.declared.keeping.Keep.{Keep as TheKeep};
ghost use Rattle.mq_kinds.specs.declared.pieces.Left.TheVariants.{Overtaking};
ghost use Rattle.mq_stations.specs.Scans.{AreFewBlocks};

use crate::keeping::{Emptied, End, Keeping};
use crate::laws::node_laws;
use crate::load::Held;
use mq_base::{List, OutOfMemory};
use mq_core::{Stream, fates_are_in_time};
use mq_crew::{Crew, Gate};
use mq_scan::{Blocks, block_size, cut};
use mq_stations::first_late_overtaken;
use mq_stats::{AheadTable, ahead_of_departures};
use std::thread::Threads;

/// A delay whose jobs were put in the order in which they leave, none of them late.
#[derive(Drop)]
pub struct Overtaken {
    /// When they depart, in ticks, by position.
    pub departs: List<u64>,
    /// The jobs as they leave.
    pub job: List<u32>,
    /// The table that gives how many jobs each visit found, with the departures in order.
    pub ahead: AheadTable,
    /// How the visits are cut for that.
    pub blocks: Blocks,
}

/// Returns what follows at a station whose jobs depart at these times, by position, and leave by time, in this stream. The only
/// error is out of memory.
pub fn overtaken_of<R: Threads + Sync, G: Gate>(
    crew: &Crew<R, G>,
    held: &Held,
    departs: List<u64>,
    leaving: Stream,
) -> Result<Emptied, OutOfMemory>
    requires ready { IsReadyLoad held.now }
    requires left { IsLeftOf held.now (Overtaking departs leaving) }
    ensures { IfOk result (λ emptied. (keep : TheKeep) → IsEmptiedOf keep held.now emptied) }
{
    node_laws();
    fates_are_in_time();
    let arrivals = held.arrivals.stream();
    match first_late_overtaken(held.plan.net.bound, held.number, &departs, &leaving.time) {
        Some(past) => {
            drop(departs);
            drop(leaving);
            Ok(Emptied::Ended(End::Late(past)))
        }
        None => {
            let Stream { job, time } = leaving;
            match ahead_of_departures(crew.alloc, &arrivals.time, &departs, time) {
                Ok(ahead) => Ok(Emptied::Keeping(Keeping::Overtaking(Overtaken {
                    departs,
                    job,
                    ahead,
                    blocks: visit_blocks(crew.workers, arrivals, held.block),
                }))),
                Err(fault) => {
                    drop(departs);
                    drop(job);
                    Err(fault)
                }
            }
        }
    }
}

// Returns how the visits are cut: for one worker they are one block.
fn visit_blocks(workers: u32, arrivals: &Stream, block: u32) -> Blocks
    requires few { length arrivals.now.time ≤ 1048576 }
    requires some { 1 ≤ block }
    ensures { AreFewBlocks (length arrivals.now.time) 16384 result }
{
    let visits = arrivals.time.len() as u32;
    if workers == 1 {
        return cut(visits, visits.max(1));
    }
    cut(visits, block_size(visits, block))
}
