//! What comes to the nodes of a wave, in order of time: the rows of a source, or the streams that the ports of
//! another node read, merged.
#![tactic(auto)]

// Where a call of `drop` lets go of what is left, that spares proof: a call is proved once for a type, the end of a scope anew at each exit.

ghost use Rattle.std.specs.Prelude.{◌≡◌, length, IfOk};
ghost use Rattle.std.specs.List.{AllByRecursion};
ghost use Rattle.mq_arrivals.specs.Arrivals.{HasArrived, IsArriving};

mod merges;
mod nodes;
mod rows;

use crate::merges::{all_merged, comings_of};
use mq_base::{List, OutOfMemory};
use mq_core::nodes_are_in_limits;
use mq_crew::{Crew, Gate};
pub use nodes::{Arrived, Arriving};
pub use rows::{rows_by_time, stream_of};
use std::thread::Threads;

/// What comes to each of the nodes that are ready, in some order of the nodes: the rows of a source by
/// time, those of one time in the order of the file, or what the ports of another node read, merged by time and
/// then port. What the one port of a node reads is borrowed.
///
/// The workers make a list of pieces for the rows of sources and for two ports of each other node, and one
/// for each further port. With several workers two streams that have more items than a block are merged
/// by blocks, between co-ranks. What comes is the same for all workers, blocks and gates. It refuses for
/// want of memory alone.
pub fn arrivals_of<'a, R: Threads + Sync, G: Gate>(
    crew: &Crew<R, G>,
    arriving: &Arriving<'a, '_>,
) -> Result<List<Arrived<'a>>, OutOfMemory>
    requires { IsArriving arriving.now }
    ensures len { IfOk result (λ all. length all ≡ length arriving.now.ready.now) }
    ensures each { IfOk result (λ all. AllByRecursion (HasArrived arriving.now) all) }
{
    nodes_are_in_limits();
    let comings = comings_of(crew, arriving)?;
    match crew.parts(comings.as_slice()) {
        Ok(groups) => all_merged(crew.alloc, comings, groups),
        Err(fault) => {
            drop(comings);
            Err(fault)
        }
    }
}
