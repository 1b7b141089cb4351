// A delay, after the blocks that stay.
ghost use Rattle.std.specs.Prelude.{◌≡◌, ◌+◌, ◌*◌, ◌≤◌, length, map, IfOk, OnOk};
ghost use Rattle.mq_alike.specs.Again.{Coming as TheComing};
ghost use Rattle.mq_core.specs.declared.model.Fate.TheVariants.{Departs};
ghost use Rattle.mq_core.specs.declared.model.Kind.TheVariants.{Delay};
ghost use Rattle.mq_redo.specs.Kept.{IsKeptDelay, IsStaying, coming_as};
ghost use Rattle.mq_stations.specs.Leaving.{AreDepartures, IsLoad};

use crate::blocks::Done;
use crate::departures::departures_behind;
use crate::laws::done_are_kept;
use mq_alike::alike_is_first;
use mq_asked::demands_of;
use mq_base::{OutOfMemory, Steps};
use mq_core::{Demand, Fates, Rows, Stream};
use mq_delay::DelayStep;
use mq_scan::Blocks;
use std::alloc::Global;
use std::sync::ledger::Ledger;

/// Returns the departure of each job from a delay, in ticks, and the departure of the last job of each block, if the
/// first `first` blocks of an earlier run stay. `fates` and `carries` are that run's: the fates of all its visits, and
/// the last departure of each of its blocks. Fails only if memory runs out.
pub fn delayed_again<L: Ledger>(
    alloc: Global,
    rows: &Rows,
    demand: &Demand,
    arrivals: &Stream,
    blocks: &Blocks,
    fates: &Fates,
    carries: &[u64],
    first: u32,
    steps: &mut Steps<L>,
) -> Result<Done<u64>, OutOfMemory>
    requires load { IsLoad rows.now (Delay demand.now) arrivals.now }
    requires all { blocks.now.n ≡ length arrivals.now.time }
    requires few { blocks.now.block ≤ 65536 }
    requires inside { first * blocks.now.block ≤ blocks.now.n }
    requires kept { (old : TheComing) × IsKeptDelay demand.now old blocks.now.block fates.now carries.now × IsStaying (Delay demand.now) old (coming_as rows.now arrivals.now) blocks.now.block first }
    ensures departs { IfOk result (λ done. AreDepartures rows.now (Delay demand.now) arrivals.now done.times.items) }
    ensures kept { IfOk result (λ done. IsKeptDelay demand.now (coming_as rows.now arrivals.now) blocks.now.block (map (λ time. Departs time) done.times.items) done.carries.items) }
    ensures steps { steps.old ≤ steps.new }
    ensures spent { steps.new + first ≤ steps.old + blocks.now.blocks }
    ensures counted { OnOk result (steps.new + first ≡ steps.old + blocks.now.blocks) }
{
    alike_is_first();
    let demands = demands_of(alloc, rows, demand, &arrivals.job)?;
    let step = DelayStep::new(arrivals, &demands);
    done_are_kept(&step);
    let done = departures_behind(alloc, &step, blocks, fates, carries, first, steps)?;
    Ok(done)
}
