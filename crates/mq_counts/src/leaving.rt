// What leaves nodes by the outputs that no input reads, in pieces of their streams.
ghost use Rattle.std.specs.Prelude.{◌≡◌, ◌<◌, ◌≤◌, ◌^◌, false, length, slice_get, IfOk, Some};
ghost use Rattle.std.specs.List.{AllByRecursion};
ghost use Rattle.mq_core.specs.declared.model.Rows.{Rows as TheRows};
ghost use Rattle.mq_core.specs.declared.model.Stream.{Stream as TheStream};
ghost use Rattle.mq_crew.specs.Crew.{AreAll};
ghost use Rattle.mq_counts.specs.Counts.{AreCountable};
ghost use Rattle.mq_counts.specs.Leaving.{AreExitsAt, AreExitsIn, AreNodeStreams, AreParted, AreStreams, AreStreamsIn, IsExitAt, IsExitIn, exit_pieces};
ghost use Rattle.mq_counts.specs.Seen.{streams_in};
ghost use Rattle.mq_counts.specs.declared.leaving.NodeStreams.{NodeStreams as TheStreams};
ghost use Rattle.mq_stats.specs.Numbers.{AreLeaving};

use crate::counts::{NodeSequences, is_read};
use crate::seen::{SeenStreams, exit_seen, leaving_count, output_count};
use crate::totals::{PIECE, piece_count};
use mq_base::{List, OutOfMemory};
use mq_core::{Node, Rows};
use mq_crew::{Crew, Gate, Pieces};
use mq_stats::{Exit, exits_added, exits_join};
use std::alloc::Global;
use std::thread::Threads;

// The exit of an output that some input reads, and of one that no job leaves by.
const NOTHING: Exit = Exit {
    count: 0,
    sojourn: 0,
};

/// What leaves a node, by output. A piece covers one range of positions in each stream that no input reads.
#[derive(Drop)]
pub struct NodeStreams<'a> {
    pub rows: &'a Rows,
    pub streams: SeenStreams<'a>,
    /// For each output, whether some input reads it.
    pub read: List<bool>,
    /// The outputs that no input reads have at most this many jobs each.
    pub most: u32,
}

/// What leaves nodes, with its pieces.
#[derive(Drop)]
pub struct PartedExits<'a> {
    pub nodes: List<NodeStreams<'a>>,
    /// The pieces of each node.
    pub parts: List<List<List<Exit>>>,
}

impl<'a> Pieces for NodeStreams<'a> {
    type Piece = List<Exit>;

    ghost fit = { AreStreams };

    ghost size = { exit_pieces };

    ghost is_piece = { AreExitsIn };

    fn count(&self) -> u32 {
        piece_count(self.most, PIECE)
    }

    fn piece(&self, alloc: Global, b: u32) -> Result<List<Exit>, OutOfMemory> {
        let outputs = output_count(&self.streams);
        let mut exits = Vec::with_capacity(alloc, outputs)?;
        for output in 0..outputs {
            exits.push_reserved(exit_in(self, b, output));
        }
        Ok(List::from_vec(exits))
    }
}

// Returns what leaves by an output in the piece at an index. It may be no job, if another stream is longer.
fn exit_in(node: &NodeStreams, b: u32, output: usize) -> Exit
    requires fit { AreStreams node.now }
    requires piece { b < exit_pieces node.now }
    requires inside { output < length (streams_in node.now.streams) }
    ensures { IsExitIn node.now b output result }
{
    if *node.read.get(output) {
        return NOTHING;
    }
    let count = leaving_count(&node.streams, output);
    let from = count.min(b * PIECE);
    let to = count.min((b + 1) * PIECE);
    exit_seen(node.rows, &node.streams, output, from, to)
}

// Returns how many jobs that leave by an output are counted: none if some input reads it.
fn told_of(streams: &SeenStreams, output: usize, read: bool) -> u32
    requires leaving { (rows : TheRows) × AllByRecursion (AreLeaving rows) (streams_in streams.now) }
    requires inside { output < length (streams_in streams.now) }
    ensures all { (stream : TheStream) → slice_get (streams_in streams.now) output ≡ Some stream → read ≡ false → result ≡ length stream.job }
    ensures few { result ≤ 1048576 }
{
    if read {
        return 0;
    }
    leaving_count(streams, output)
}

// Returns what leaves a node.
fn node_streams<'a>(
    alloc: Global,
    nodes: &[Node],
    rows: &'a Rows,
    sequences: &NodeSequences<'a>,
) -> Result<NodeStreams<'a>, OutOfMemory>
    requires { AreCountable rows.now sequences.now }
    ensures fit { IfOk result AreStreams }
    ensures its { IfOk result (AreStreamsIn nodes.now rows.now sequences.now) }
{
    let streams = sequences.streams;
    let outputs = output_count(&streams);
    let mut all_read = Vec::with_capacity(alloc, outputs)?;
    let mut most = 0u32;
    for output in 0..outputs {
        let read = is_read(nodes, sequences.number, output);
        most = most.max(told_of(&streams, output, read));
        all_read.push_reserved(read);
    }
    Ok(NodeStreams {
        rows,
        streams,
        read: List::from_vec(all_read),
        most,
    })
}

// Returns what leaves each node.
fn all_streams<'a>(
    alloc: Global,
    nodes: &[Node],
    rows: &'a Rows,
    all: &List<NodeSequences<'a>>,
) -> Result<List<NodeStreams<'a>>, OutOfMemory>
    requires { AllByRecursion (AreCountable rows.now) all.now }
    ensures { IfOk result (AreNodeStreams nodes.now rows.now all.now (length all.now)) }
{
    let mut streams = List::new(alloc);
    for at in 0..all.len() {
        match node_streams(alloc, nodes, rows, all.get(at)) {
            Ok(its) => streams.push(its)?,
            Err(fault) => {
                drop(streams);
                return Err(fault);
            }
        }
    }
    Ok(streams)
}

/// Returns what leaves each of these nodes of a network, at most 65,535, by the outputs that no input of the network reads. The
/// streams of a node are cut into pieces of 16,384 positions, and the pieces of all nodes form one list. 1 to 64 workers make it,
/// and enter the gate with each piece. The only error is out of memory.
pub fn parted_exits<'a, R: Threads + Sync, G: Gate>(
    crew: &Crew<R, G>,
    nodes: &[Node],
    rows: &'a Rows,
    all: &List<NodeSequences<'a>>,
) -> Result<PartedExits<'a>, OutOfMemory>
    requires few { length all.now < 2 ^ 16 }
    requires countable { AllByRecursion (AreCountable rows.now) all.now }
    ensures parted { IfOk result AreParted }
    ensures streams { IfOk result (λ parted. AreNodeStreams nodes.now rows.now all.now (length all.now) parted.nodes) }
{
    let streams = all_streams(crew.alloc, nodes, rows, all)?;
    match crew.parts(streams.as_slice()) {
        Ok(parts) => Ok(PartedExits {
            nodes: streams,
            parts,
        }),
        Err(fault) => {
            drop(streams);
            Err(fault)
        }
    }
}

// Returns what leaves by an output, from its pieces in order.
fn exit_of(node: &NodeStreams, parts: &List<List<Exit>>, output: usize) -> Exit
    requires fit { AreStreams node.now }
    requires parts { AreAll (AreExitsIn node.now) (exit_pieces node.now) parts.now }
    requires inside { output < length (streams_in node.now.streams) }
    requires told { slice_get node.now.read output ≡ Some false }
    ensures { IsExitAt node.now output result }
{
    exits_join();
    let mut sum = NOTHING;
    for b in 0..parts.len() {
        sum = exits_added(&sum, parts.get(b).get(output));
    }
    sum
}

// Returns what leaves by an output, or nothing if some input reads it.
fn exit_at(node: &NodeStreams, parts: &List<List<Exit>>, output: usize) -> Exit
    requires fit { AreStreams node.now }
    requires parts { AreAll (AreExitsIn node.now) (exit_pieces node.now) parts.now }
    requires inside { output < length (streams_in node.now.streams) }
    ensures { IsExitAt node.now output result }
{
    if *node.read.get(output) {
        return NOTHING;
    }
    exit_of(node, parts, output)
}

// Returns what leaves by each output of a node.
fn exits_of(
    alloc: Global,
    node: &NodeStreams,
    parts: &List<List<Exit>>,
) -> Result<List<Exit>, OutOfMemory>
    requires fit { AreStreams node.now }
    requires parts { AreAll (AreExitsIn node.now) (exit_pieces node.now) parts.now }
    ensures { IfOk result (AreExitsAt node.now) }
{
    let mut exits = List::new(alloc);
    for output in 0..output_count(&node.streams) {
        exits.push(exit_at(node, parts, output))?;
    }
    Ok(exits)
}

/// Returns what leaves the node at an index by each output that no input reads.
pub fn exits_at(alloc: Global, parted: &PartedExits, at: usize) -> Result<List<Exit>, OutOfMemory>
    requires parted { AreParted parted.now }
    requires inside { at < length parted.now.nodes }
    ensures { (node : TheStreams) → slice_get parted.now.nodes at ≡ Some node → IfOk result (AreExitsAt node) }
{
    exits_of(alloc, parted.nodes.get(at), parted.parts.get(at))
}
