// A server, after the blocks that stay.
ghost use Rattle.std.specs.Prelude.{◌≡◌, ◌+◌, ◌*◌, ◌≤◌, ◌++◌, ℕ, List as Items, length, map, take, IfOk, OnOk};
ghost use Rattle.mq_core.specs.declared.model.Fate.{Fate as TheFate};
ghost use Rattle.mq_core.specs.declared.model.Fate.TheVariants.{Departs};
ghost use Rattle.mq_core.specs.declared.model.Kind.TheVariants.{Server};
ghost use Rattle.mq_redo.specs.Kept.{IsKeptServer, IsServerStaying, coming_as};
ghost use Rattle.mq_stations.specs.Leaving.{AreServed, IsLoad};

use crate::behind::{carry_before, last_of};
use crate::blocks::{Done, redone_last};
use mq_alike::alike_is_first;
use mq_asked::demands_of;
use mq_base::{OutOfMemory, Steps};
use mq_core::{Demand, Rows, Stream};
use mq_maxplus::Mp;
use mq_scan::{Blocks, Step, cut};
use mq_server::ServerStep;
use std::alloc::Global;
use std::sync::ledger::Ledger;

/// Returns the departures of the jobs after the first `first` blocks from a server, in ticks, and the last departure of
/// each later block. Those first blocks of an earlier run stay, and `carries` begins with the last departure of each of
/// them. Only the later jobs are read. Fails only if memory runs out.
pub fn served_behind<L: Ledger>(
    alloc: Global,
    rows: &Rows,
    demand: &Demand,
    arrivals: &Stream,
    blocks: &Blocks,
    carries: &[Mp],
    first: u32,
    steps: &mut Steps<L>,
) -> Result<Done<Mp>, OutOfMemory>
    requires load { IsLoad rows.now (Server demand.now) arrivals.now }
    requires all { blocks.now.n ≡ length arrivals.now.time }
    requires few { blocks.now.block ≤ 65536 }
    requires inside { first * blocks.now.block ≤ blocks.now.n }
    requires kept { (fates : Items TheFate) × IsServerStaying demand.now (coming_as rows.now arrivals.now) blocks.now.block first fates carries.now }
    ensures served { IfOk result (λ done. (times : Items ℕ) → IsServerStaying demand.now (coming_as rows.now arrivals.now) blocks.now.block first (map (λ time. Departs time) times) carries.now → AreServed rows.now (Server demand.now) arrivals.now (take (first * blocks.now.block) times ++ done.times.items)) }
    ensures kept { IfOk result (λ done. (fates : Items TheFate) → IsServerStaying demand.now (coming_as rows.now arrivals.now) blocks.now.block first fates carries.now → IsKeptServer demand.now (coming_as rows.now arrivals.now) blocks.now.block (take (first * blocks.now.block) fates ++ map (λ time. Departs time) done.times.items) (take first carries.now ++ done.carries.items)) }
    ensures steps { steps.old ≤ steps.new }
    ensures spent { steps.new + first ≤ steps.old + blocks.now.blocks }
    ensures counted { OnOk result (steps.new + first ≡ steps.old + blocks.now.blocks) }
{
    alike_is_first();
    let last = last_of(alloc, arrivals, first * blocks.block)?;
    let behind = last.stream();
    let demands = demands_of(alloc, rows, demand, &behind.job)?;
    let step = ServerStep::new(behind, &demands);
    let carry = carry_before(carries, first, step.first());
    let done = redone_last(alloc, &step, &cut(step.count(), blocks.block), carry, steps)?;
    Ok(done)
}
