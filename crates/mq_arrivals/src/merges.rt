// What comes to the nodes that are ready, in order of time: the rows of a source, or the streams that the
// ports of another node read, merged two at a time, port after port, for all nodes side by side.
ghost use Rattle.std.specs.Prelude.{◌≡◌, ℕ, ◌+◌, ◌++◌, ◌<◌, ◌≤◌, Contains, [], length, IfOk, Some, slice_get, slice_index_or, take};
ghost use Rattle.std.specs.List.{AllByRecursion, flat_map};
ghost use Rattle.mq_core.specs.Sequences.{IsStream};
ghost use Rattle.mq_core.specs.Streams.{pairs_of};
ghost use Rattle.mq_core.specs.declared.model.Input.{Input as TheInput};
ghost use Rattle.mq_core.specs.declared.model.Stream.{Stream as TheStream};
ghost use Rattle.mq_crew.specs.Crew.{AreAll, AreGroups};
ghost use Rattle.mq_merge.specs.Borrowed.{stream_in};
ghost use Rattle.mq_arrivals.specs.Arrivals.{AreOrdered, IsArriving, IsThere, Pairs, pairs_read};
ghost use Rattle.mq_arrivals.specs.Merges.{ArePairsOf, HasCome, IsBlockOf, IsComing, IsPair, IsReadyOrigin, IsSortedPiece, has_port, pairs_from, pieces_of};
ghost use Rattle.mq_arrivals.specs.declared.nodes.Arriving.{Arriving as TheArriving};

use crate::nodes::{Arrived, Arriving};
use crate::rows::{rows_by_time, stream_of};
use mq_base::{List, OutOfMemory};
use mq_core::{Node, Rows, Stream, is_source};
use mq_crew::{Crew, Gate, Pieces};
use mq_merge::{Arrivals, merge_piece};
use mq_scan::{Blocks, block_size, cut};
use std::alloc::Global;
use std::thread::Threads;

/// What comes to a node by its first ports.
#[derive(Drop)]
pub struct Coming<'a> {
    /// The node, by order of declaration.
    pub number: u32,
    pub origin: Origin<'a>,
}

/// From where it comes, before it is put in order.
#[derive(Drop)]
pub enum Origin<'a> {
    /// The rows, some of which are those of the source.
    Unsorted(&'a Rows),
    /// What comes by the ports before, what the next port reads, and how both are cut.
    Ports(Arrivals<'a>, &'a Stream, Blocks),
    /// What comes by all ports.
    Ended(Arrivals<'a>),
}

impl<'a> Pieces for Coming<'a> {
    type Piece = Stream;

    ghost fit = { λ s. IsReadyOrigin s.origin };

    ghost size = { λ s. pieces_of s.origin };

    ghost is_piece = { λ s b stream. IsSortedPiece s.number s.origin b stream };

    fn count(&self) -> u32 {
        match &self.origin {
            Origin::Unsorted(_) => 1,
            Origin::Ports(_, _, blocks) => blocks.blocks,
            Origin::Ended(_) => 0,
        }
    }

    fn piece(&self, alloc: Global, b: u32) -> Result<Stream, OutOfMemory> {
        match &self.origin {
            Origin::Unsorted(rows) => {
                rows_by_time(alloc, self.number, &rows.source, &rows.time, 0)
            }
            Origin::Ports(before, next, blocks) => {
                merged_block(alloc, before.stream(), next, blocks, b)
            }
            Origin::Ended(_) => unreachable!(),
        }
    }
}

// A block of two streams merged.
fn merged_block(
    alloc: Global,
    first: &Stream,
    second: &Stream,
    blocks: &Blocks,
    b: u32,
) -> Result<Stream, OutOfMemory>
    requires pair { IsPair first.now second.now blocks.now }
    requires inside { b < blocks.now.blocks }
    ensures { IfOk result (λ merged. IsBlockOf (pairs_of first.now ++ pairs_of second.now) blocks.now b merged) }
{
    let (from, to) = blocks.range(b);
    merge_piece(alloc, first, second, from, to)
}

// How two streams are cut: for one worker, and where one of them is empty, they are one block.
fn blocks_of(arriving: &Arriving, workers: u32, first: &Stream, second: &Stream) -> Blocks
    requires few { length first.now.time + length second.now.time ≤ 1048576 }
    requires some { 1 ≤ arriving.now.block }
    ensures { result.n ≡ length first.now.time + length second.now.time }
{
    let size = (first.time.len() + second.time.len()) as u32;
    if workers == 1 || first.time.is_empty() || second.time.is_empty() {
        return cut(size, size.max(1));
    }
    cut(size, block_size(size, arriving.block))
}

// Whether a node has a port with this number.
fn reads(node: &Node, port: usize) -> bool
    ensures { result ≡ has_port node.now port }
{
    !is_source(&node.kind) && port < node.inputs.len()
}

// What comes to a node by its first two ports, or to a source.
fn opening<'a>(alloc: Global, arriving: &Arriving<'a, '_>, workers: u32, number: u32) -> Coming<'a>
    requires arriving { IsArriving arriving.now }
    requires ready { Contains arriving.now.ready.now number }
    ensures { IsComing arriving.now 2 result }
{
    let node = arriving.plan.net.nodes.get(number as usize);
    if is_source(&node.kind) {
        let origin = Origin::Unsorted(arriving.rows);
        return Coming { number, origin };
    }
    further(
        arriving,
        workers,
        number,
        by_first_port(alloc, arriving, node),
        1,
    )
}

// What comes to a node by its first port: what that reads.
fn by_first_port<'a>(alloc: Global, arriving: &Arriving<'a, '_>, node: &Node) -> Arrivals<'a>
    requires ordered { AreOrdered arriving.now.outputs.now }
    requires there { (input : TheInput) → slice_get node.now.inputs 0 ≡ Some input → IsThere arriving.now.outputs.now input }
    ensures stream { IsStream (stream_in result) }
    ensures items { pairs_of (stream_in result) ≡ flat_map (pairs_read arriving.now.outputs.now) (take 1 node.now.inputs) }
{
    if node.inputs.len() == 0 {
        return Arrivals::Merged(nothing(alloc));
    }
    Arrivals::Read(stream_of(arriving.outputs, node.inputs.get(0)))
}

// A stream without items.
fn nothing(alloc: Global) -> Stream
    ensures job { result.job ≡ [] }
    ensures time { result.time ≡ [] }
{
    Stream {
        job: List::new(alloc),
        time: List::new(alloc),
    }
}

// What comes by their first two ports to the nodes that are ready, or to the sources among them.
fn openings<'a>(
    alloc: Global,
    arriving: &Arriving<'a, '_>,
    workers: u32,
) -> Result<List<Coming<'a>>, OutOfMemory>
    requires arriving { IsArriving arriving.now }
    ensures len { IfOk result (λ all. length all ≡ length arriving.now.ready.now) }
    ensures each { IfOk result (λ all. AllByRecursion (IsComing arriving.now 2) all) }
{
    let mut all = List::new(alloc);
    for at in 0..arriving.ready.len() {
        all.push(opening(alloc, arriving, workers, arriving.ready[at]))?;
    }
    Ok(all)
}

// What came to a node by the ports so far, put together from its pieces.
fn merged_of<'a>(
    alloc: Global,
    coming: Coming<'a>,
    group: List<Stream>,
) -> Result<Arrivals<'a>, OutOfMemory>
    requires ready { IsReadyOrigin coming.origin }
    requires group { AreAll (IsSortedPiece coming.number coming.origin) (pieces_of coming.origin) group }
    ensures { IfOk result (λ arrivals. ArePairsOf (pairs_from coming.entry.number coming.entry.origin) (stream_in arrivals)) }
{
    let Coming {
        number: _number,
        origin,
    } = coming;
    match origin {
        Origin::Unsorted(_rows) => Ok(Arrivals::Merged(alone(group))),
        Origin::Ports(before, _next, blocks) => {
            drop(before);
            match joined(alloc, &blocks, group) {
                Ok(stream) => Ok(Arrivals::Merged(stream)),
                Err(fault) => Err(fault),
            }
        }
        Origin::Ended(arrivals) => {
            drop(group);
            Ok(arrivals)
        }
    }
}

// The one piece of a group.
fn alone(group: List<Stream>) -> Stream
    requires one { length group ≡ 1 }
    ensures { (d : TheStream) → slice_index_or group 0 d ≡ result }
{
    let mut group = group.into_vec();
    match group.pop() {
        Some(piece) => piece,
        None => unreachable!(),
    }
}

// The stream of these blocks: a single one is taken as it is, and several are copied.
fn joined(alloc: Global, blocks: &Blocks, group: List<Stream>) -> Result<Stream, OutOfMemory>
    requires len { length group ≡ blocks.now.blocks }
    ensures { IfOk result (λ stream. (pairs : Pairs) → blocks.now.n ≡ length pairs → AreAll (IsBlockOf pairs blocks.now) blocks.now.blocks group → ArePairsOf pairs stream) }
{
    if group.len() == 1 {
        return Ok(alone(group));
    }
    let stream = behind(alloc, blocks, &group);
    drop(group);
    stream
}

// Copies blocks into one stream, one behind the other.
fn behind(alloc: Global, blocks: &Blocks, group: &List<Stream>) -> Result<Stream, OutOfMemory>
    requires len { length group.now ≡ blocks.now.blocks }
    ensures { IfOk result (λ stream. (pairs : Pairs) → blocks.now.n ≡ length pairs → AreAll (IsBlockOf pairs blocks.now) blocks.now.blocks group.now → ArePairsOf pairs stream) }
{
    let mut job = Vec::with_capacity(alloc, blocks.n as usize)?;
    let mut time = Vec::with_capacity(alloc, blocks.n as usize)?;
    for b in 0..group.len() {
        let block = group.get(b);
        job.extend_from_slice(block.job.as_slice())?;
        time.extend_from_slice(block.time.as_slice())?;
    }
    Ok(Stream {
        job: List::from_vec(job),
        time: List::from_vec(time),
    })
}

// What comes to a node by one port more, where it has one, and what came before.
fn further<'a>(
    arriving: &Arriving<'a, '_>,
    workers: u32,
    number: u32,
    before: Arrivals<'a>,
    port: usize,
) -> Coming<'a>
    requires arriving { IsArriving arriving.now }
    requires before { HasCome arriving.now number port (stream_in before) }
    ensures number { result.number ≡ number }
    ensures coming { IsComing arriving.now (port + 1) result }
{
    let node = arriving.plan.net.nodes.get(number as usize);
    if !reads(node, port) {
        let origin = Origin::Ended(before);
        return Coming { number, origin };
    }
    let next = stream_of(arriving.outputs, node.inputs.get(port));
    let blocks = blocks_of(arriving, workers, before.stream(), next);
    let origin = Origin::Ports(before, next, blocks);
    Coming { number, origin }
}

/// What came to the nodes by the ports so far, put together from the pieces of each.
pub fn all_merged<'a>(
    alloc: Global,
    comings: List<Coming<'a>>,
    groups: List<List<Stream>>,
) -> Result<List<Arrived<'a>>, OutOfMemory>
    requires comings { AllByRecursion (λ c. IsReadyOrigin c.origin) comings }
    requires groups { AreGroups (λ c. pieces_of c.origin) (λ c b stream. IsSortedPiece c.number c.origin b stream) comings groups }
    ensures len { IfOk result (λ all. length all ≡ length comings.entry) }
    ensures come { IfOk result (λ all. (s : TheArriving) (ports : ℕ) → AllByRecursion (IsComing s ports) comings.entry → AllByRecursion (λ a. HasCome s a.number ports (stream_in a.arrivals)) all) }
{
    let mut comings = comings.into_vec();
    let mut groups = groups.into_vec();
    let mut all = List::new(alloc);
    while let Some(coming) = comings.pop() {
        let Some(group) = groups.pop() else {
            unreachable!()
        };
        let number = coming.number;
        match merged_of(alloc, coming, group) {
            Ok(arrivals) => all.push(Arrived { number, arrivals })?,
            Err(fault) => {
                drop(all);
                return Err(fault);
            }
        }
    }
    Ok(all)
}

// What comes to the nodes by one port more, where they have one, and what came before, put together from its pieces.
fn all_further<'a>(
    alloc: Global,
    arriving: &Arriving<'a, '_>,
    workers: u32,
    comings: List<Coming<'a>>,
    groups: List<List<Stream>>,
    port: usize,
) -> Result<List<Coming<'a>>, OutOfMemory>
    requires arriving { IsArriving arriving.now }
    requires comings { AllByRecursion (IsComing arriving.now port) comings }
    requires groups { AreGroups (λ c. pieces_of c.origin) (λ c b stream. IsSortedPiece c.number c.origin b stream) comings groups }
    ensures len { IfOk result (λ all. length all ≡ length comings.entry) }
    ensures each { IfOk result (λ all. AllByRecursion (IsComing arriving.now (port + 1)) all) }
{
    let merged = all_merged(alloc, comings, groups)?;
    let mut left = merged.into_vec();
    let mut all = List::new(alloc);
    while let Some(arrived) = left.pop() {
        let Arrived { number, arrivals } = arrived;
        all.push(further(arriving, workers, number, arrivals, port))?;
    }
    Ok(all)
}

/// What comes to the nodes that are ready, before the last of at most 8 ports is merged: a list of pieces
/// for each further port.
pub fn comings_of<'a, R: Threads + Sync, G: Gate>(
    crew: &Crew<R, G>,
    arriving: &Arriving<'a, '_>,
) -> Result<List<Coming<'a>>, OutOfMemory>
    requires { IsArriving arriving.now }
    ensures len { IfOk result (λ all. length all ≡ length arriving.now.ready.now) }
    ensures each { IfOk result (λ all. AllByRecursion (IsComing arriving.now 8) all) }
{
    let mut comings = openings(crew.alloc, arriving, crew.workers)?;
    for port in 2..8 {
        match crew.parts(comings.as_slice()) {
            Ok(groups) => comings = all_further(
                crew.alloc,
                arriving,
                crew.workers,
                comings,
                groups,
                port,
            )?,
            Err(fault) => {
                drop(comings);
                return Err(fault);
            }
        }
    }
    Ok(comings)
}
