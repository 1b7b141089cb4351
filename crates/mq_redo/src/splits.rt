// A split, after the blocks that stay.
ghost use Rattle.std.specs.Prelude.{◌≡◌, ◌+◌, ◌*◌, ◌<◌, ◌≤◌, ◌^◌, All, length, map, take, IfOk, OnOk};
ghost use Rattle.mq_alike.specs.Again.{Coming as TheComing};
ghost use Rattle.mq_core.specs.declared.model.Fate.TheVariants.{Departs};
ghost use Rattle.mq_core.specs.declared.model.Kind.TheVariants.{Split};
ghost use Rattle.mq_redo.specs.Kept.{IsKeptSplit, IsStaying, coming_as};
ghost use Rattle.mq_stations.specs.Leaving.{IsLeaving, IsLoad};

use crate::blocks::redone_behind;
use crate::laws::done_are_kept;
use mq_alike::alike_is_first;
use mq_base::{List, OutOfMemory, Steps};
use mq_core::{Route, Rows, Stream};
use mq_scan::Blocks;
use mq_split::{RouteStep, streams_by};
use mq_stations::values_of;
use std::alloc::Global;
use std::sync::ledger::Ledger;

/// What leaves a split.
#[derive(Drop)]
pub struct Rerouted {
    /// The output of each job, by position, from 0.
    pub outs: Vec<u8>,
    /// The output of the last job of each block.
    pub carries: Vec<u8>,
    /// The jobs that leave by each output.
    pub streams: List<Stream>,
}

/// Returns what leaves a split, if the first `first` blocks of an earlier run stay. `outs` and `carries` are that
/// run's: the outputs of all its jobs, and of the last job of each block. Fails only if memory runs out.
pub fn routed_again<L: Ledger>(
    alloc: Global,
    rows: &Rows,
    route: &Route,
    arrivals: &Stream,
    blocks: &Blocks,
    outs: &[u8],
    carries: &[u8],
    first: u32,
    steps: &mut Steps<L>,
) -> Result<Rerouted, OutOfMemory>
    requires load { IsLoad rows.now (Split route.now) arrivals.now }
    requires all { blocks.now.n ≡ length arrivals.now.job }
    requires few { blocks.now.block ≤ 65536 }
    requires inside { first * blocks.now.block ≤ blocks.now.n }
    requires kept { (old : TheComing) × IsKeptSplit route.now old blocks.now.block outs.now carries.now × IsStaying (Split route.now) old (coming_as rows.now arrivals.now) blocks.now.block first }
    ensures leaves { IfOk result (λ r. IsLeaving rows.now (Split route.now) arrivals.now (map (λ time. Departs time) arrivals.now.time) r.streams) }
    ensures kept { IfOk result (λ r. IsKeptSplit route.now (coming_as rows.now arrivals.now) blocks.now.block r.outs.items r.carries.items) }
    ensures steps { steps.old ≤ steps.new }
    ensures spent { steps.new + first ≤ steps.old + blocks.now.blocks }
    ensures counted { OnOk result (steps.new + first ≡ steps.old + blocks.now.blocks) }
{
    alike_is_first();
    let jobs = blocks.n;
    let values = values_of(alloc, rows, route, arrivals.job.as_slice())?;
    let step = RouteStep::new(route, &values);
    done_are_kept(&step);
    // These are calls of `drop` instead of `?`, because a call is proved only once per type.
    let Ok(stay) = first_outs(alloc, outs, first * blocks.block, jobs) else {
        drop(values);
        return Err(OutOfMemory);
    };
    let Ok(done) = redone_behind(alloc, &step, blocks, stay, carries, first, steps) else {
        drop(values);
        return Err(OutOfMemory);
    };
    drop(values);
    let Ok(outs) = narrow_outs(alloc, &done.times) else {
        drop(done);
        return Err(OutOfMemory);
    };
    let Ok(streams) = streams_by(
        alloc,
        arrivals.job.as_slice(),
        arrivals.time.as_slice(),
        &outs,
        route,
    ) else {
        drop(outs);
        drop(done);
        return Err(OutOfMemory);
    };
    Ok(Rerouted {
        outs,
        carries: done.carries,
        streams,
    })
}

// Returns the first `count` of these outputs, as wide as they are read from carries, with room for `room` outputs.
fn first_outs(alloc: Global, outs: &[u8], count: u32, room: u32) -> Result<Vec<u64>, OutOfMemory>
    requires { count ≤ length outs.now }
    ensures { IfOk result (λ first. first.items ≡ take count outs.now) }
{
    let mut first = Vec::with_capacity(alloc, room as usize)?;
    for at in 0..count as usize {
        first.push(outs[at] as u64)?;
    }
    Ok(first)
}

// Returns outputs that were read from carries, each in a byte.
fn narrow_outs(alloc: Global, outs: &[u64]) -> Result<Vec<u8>, OutOfMemory>
    requires { All (λ out. out < 2 ^ 8) outs.now }
    ensures { IfOk result (λ narrow. narrow.items ≡ outs.now) }
{
    let mut narrow = Vec::with_capacity(alloc, outs.len())?;
    for at in 0..outs.len() {
        narrow.push(outs[at] as u8)?;
    }
    Ok(narrow)
}
