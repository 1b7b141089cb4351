// A split: each job leaves by the output of its route when it comes. It is one piece, or one piece per block.
ghost use Rattle.std.specs.Prelude.{◌≡◌, ◌<◌, ◌≤◌, ℕ, List as Items, length, map, IfOk};
ghost use Rattle.mq_base.specs.Lists.{between};
ghost use Rattle.mq_core.specs.Kinds.Split.{outputs_by, route_value};
ghost use Rattle.mq_core.specs.Sequences.{IsStream};
ghost use Rattle.mq_core.specs.declared.model.Kind.TheVariants.{Split as TheSplit};
ghost use Rattle.mq_core.specs.declared.model.Route.{Route as TheRoute};
ghost use Rattle.mq_core.specs.declared.model.Stream.{Stream as TheStream};
ghost use Rattle.mq_crew.specs.Crew.{AreAll};
ghost use Rattle.mq_kinds.specs.Lefts.{IsLeft};
ghost use Rattle.mq_kinds.specs.Servers.{AreSplitBlocks, AreSplitParts, HaveParts, IsSplit, IsSplitPiece};
ghost use Rattle.mq_scan.specs.declared.blocks.Blocks.{Blocks as TheBlocks};
ghost use Rattle.mq_split.specs.Outs.{AreParts, HasOutputs, outs_from, picked_stream};
ghost use Rattle.mq_stations.specs.Leaving.{AreRouted, IsLoad};

use crate::pieces::{Left, Load, Piece, all_contents, blocks_of};
use mq_base::{List, OutOfMemory};
use mq_core::{Route, Rows, Stream, outputs_of_route};
use mq_scan::Blocks;
use mq_split::{pieces_join, split, split_between};
use mq_stations::values_of;
use std::alloc::Global;

/// The state of a split in blocks.
#[derive(Drop)]
pub struct Split<'r> {
    pub route: &'r Route,
    pub blocks: Blocks,
}

/// Returns what leaves a split, computed by one worker. The only error is out of memory.
pub fn split_whole(alloc: Global, load: &Load, route: &Route) -> Result<Left, OutOfMemory>
    requires load { IsLoad load.now.rows.now load.now.kind.now load.now.arrivals.now }
    requires kind { load.now.kind.now ≡ TheSplit route.now }
    ensures { IfOk result (IsLeft load.now.rows.now load.now.kind.now load.now.arrivals.now) }
{
    let values = values_of(alloc, load.rows, route, load.arrivals.job.as_slice())?;
    let streams = split(alloc, load.arrivals, &values, route);
    drop(values);
    Ok(Left::Passing(streams?))
}

/// Returns the state of a split. A block has at least as many jobs as the load says, and there are at most 16,384 blocks.
pub fn split_begin<'r, 's>(load: &Load<'r, 's>, route: &'r Route) -> Split<'r>
    requires load { IsLoad load.now.rows.now load.now.kind.now load.now.arrivals.now }
    requires kind { load.now.kind.now ≡ TheSplit route.now }
    ensures fit { IsSplit load.now.rows.now load.now.kind.now load.now.arrivals.now result }
    ensures least { load.now.block ≤ result.blocks.block }
{
    let blocks = blocks_of(load);
    Split { route, blocks }
}

/// Makes piece `b`: what leaves the block by each output. The only error is out of memory.
pub fn split_piece(alloc: Global, load: &Load, split: &Split, b: u32) -> Result<Piece, OutOfMemory>
    requires fit { IsSplit load.now.rows.now load.now.kind.now load.now.arrivals.now split.now }
    requires inside { b < split.now.blocks.blocks }
    ensures { IfOk result (IsSplitPiece load.now.rows.now load.now.arrivals.now split.now b) }
{
    let streams = split_part(
        alloc,
        load.rows,
        split.route,
        load.arrivals,
        &split.blocks,
        b,
    )?;
    Ok(Piece::Streams(streams))
}

/// Returns what leaves a split, from the pieces of all blocks. The only error is out of memory.
pub fn split_next(
    alloc: Global,
    load: &Load,
    split: &Split,
    made: List<Piece>,
) -> Result<Left, OutOfMemory>
    requires fit { IsSplit load.now.rows.now load.now.kind.now load.now.arrivals.now split.now }
    requires made { AreAll (IsSplitPiece load.now.rows.now load.now.arrivals.now split.now) split.now.blocks.blocks made }
    ensures { IfOk result (IsLeft load.now.rows.now load.now.kind.now load.now.arrivals.now) }
{
    let parts = all_contents(alloc, made)?;
    let joined = split_joined(alloc, split.route, &parts);
    drop(parts);
    Ok(Left::Passing(joined?))
}

// Returns what leaves block `b` of a cut of all arrivals: one stream per output, each with the jobs of the block that the route
// sends there, in their order.
fn split_part(
    alloc: Global,
    rows: &Rows,
    route: &Route,
    arrivals: &Stream,
    blocks: &Blocks,
    b: u32,
) -> Result<List<Stream>, OutOfMemory>
    requires route { HasOutputs route.now }
    requires stream { IsStream arrivals.now }
    requires few { length arrivals.now.time ≤ 1048576 }
    requires told { AreRouted rows.now route.now arrivals.now.job }
    requires all { blocks.now.n ≡ length arrivals.now.time }
    requires inside { b < blocks.now.blocks }
    ensures { IfOk result (λ streams. AreSplitParts route.now arrivals.now (map (route_value rows.now route.now) arrivals.now.job) blocks.now b streams) }
{
    let (from, to) = blocks.range(b);
    let jobs = jobs_between(&arrivals.job, from, to);
    let values = values_of(alloc, rows, route, jobs)?;
    split_between(alloc, arrivals, values.as_slice(), route, from, to)
}

// Returns the jobs at the indices from one up to another.
fn jobs_between(jobs: &List<u32>, from: u32, to: u32) -> &[u32]
    requires order { from ≤ to }
    requires within { to ≤ length jobs.now }
    ensures { result.now ≡ between from to jobs.now }
{
    &jobs.as_slice()[from as usize..to as usize]
}

// Returns what leaves a split, one stream per output, from what leaves its blocks in turn.
fn split_joined(
    alloc: Global,
    route: &Route,
    group: &List<List<Stream>>,
) -> Result<List<Stream>, OutOfMemory>
    requires route { HasOutputs route.now }
    requires made { (arrivals : TheStream) × (values : Items ℕ) × (blocks : TheBlocks) × AreSplitBlocks route.now arrivals values blocks group.now }
    ensures { IfOk result (λ streams. (arrivals : TheStream) (values : Items ℕ) (blocks : TheBlocks) → AreSplitBlocks route.now arrivals values blocks group.now → AreParts route.now arrivals values streams) }
{
    let mut streams = List::new(alloc);
    for out in 0..outputs_of_route(route) {
        let Ok(stream) = joined_output(alloc, group, out as usize) else {
            drop(streams);
            return Err(OutOfMemory);
        };
        let Ok(()) = streams.push(stream) else {
            drop(streams);
            return Err(OutOfMemory);
        };
    }
    Ok(streams)
}

// Returns what leaves by an output, from what leaves the blocks by it in turn.
fn joined_output(
    alloc: Global,
    group: &List<List<Stream>>,
    out: usize,
) -> Result<Stream, OutOfMemory>
    requires few { length group.now ≤ 1048576 }
    requires parts { HaveParts out group.now }
    ensures { IfOk result (λ stream. (route : TheRoute) (arrivals : TheStream) (values : Items ℕ) (blocks : TheBlocks) → out < outputs_by route → AreSplitBlocks route arrivals values blocks group.now → stream ≡ picked_stream (outs_from route 0 values) arrivals out) }
{
    pieces_join();
    let count = jobs_by(group, out);
    let mut job = Vec::with_capacity(alloc, count)?;
    let mut time = Vec::with_capacity(alloc, count)?;
    'parts: for b in 0..group.len() {
        let part = group.get(b).get(out);
        job.extend_from_slice(part.job.as_slice())?;
        time.extend_from_slice(part.time.as_slice())?;
    }
    Ok(Stream {
        job: List::from_vec(job),
        time: List::from_vec(time),
    })
}

// Returns how many jobs leave the blocks by an output. Room is made for these.
fn jobs_by(group: &List<List<Stream>>, out: usize) -> usize
    requires few { length group.now ≤ 1048576 }
    requires parts { HaveParts out group.now }
{
    let mut count = 0;
    for b in 0..group.len() {
        count += group.get(b).get(out).job.len();
    }
    count
}
