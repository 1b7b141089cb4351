// Counts of nodes, in pieces of their visits.
ghost use Rattle.std.specs.Prelude.{◌≡◌, ◌+◌, ◌≤◌, ◌<◌, ◌^◌, length, IfOk};
ghost use Rattle.std.specs.List.{AllByRecursion};
ghost use Rattle.mq_crew.specs.Crew.{AreAll, AreGroups};
ghost use Rattle.mq_stats.specs.Blocks.{IsBlock};
ghost use Rattle.mq_counts.specs.Seen.{visits_in};
ghost use Rattle.mq_counts.specs.Totals.{AreSumsOf, IsPieceCount, IsSumOf, IsVisited, counted_to, pieces_in, pieces_of, start_of};

use crate::seen::{SeenVisits, block_seen, visit_count};
use mq_base::{List, OutOfMemory};
use mq_core::{Kind, Rows};
use mq_crew::{Crew, Gate, Pieces};
use mq_stats::{BlockCount, blocks_added, waits_join};
use std::alloc::Global;
use std::thread::Threads;

// The number of visits in a piece: what is read of them fits a processor's cache.
pub const PIECE: u32 = 16_384;

/// The visits to a node of this kind. A piece is the counts of `PIECE` neighbouring visits.
#[derive(Clone, Copy)]
pub struct NodeVisits<'a> {
    pub rows: &'a Rows,
    pub kind: &'a Kind,
    pub visits: SeenVisits<'a>,
    /// The time up to which they are counted, in ticks: that of the last event at the node.
    pub last: u64,
    /// Whether a piece counts the waits with the totals, unless one has more ticks than a piece has visits.
    pub tails: bool,
}

impl<'a> Pieces for NodeVisits<'a> {
    type Piece = BlockCount;

    ghost fit = { IsVisited };

    ghost size = { pieces_of };

    ghost is_piece = { IsPieceCount };

    fn count(&self) -> u32 {
        piece_count(visit_count(&self.visits) as u32, PIECE)
    }

    fn piece(&self, alloc: Global, b: u32) -> Result<BlockCount, OutOfMemory> {
        let (from, to) = piece_ends(visit_count(&self.visits) as u32, PIECE, b);
        block_of(alloc, self, from, to)
    }
}

// Returns the number of ticks up to which waits are counted with the totals.
fn counted_up_to(tails: bool) -> u32
    ensures { result ≡ counted_to tails }
{
    if tails { PIECE } else { 0 }
}

// Returns the counts of the visits from one position up to another.
fn block_of(alloc: Global, node: &NodeVisits, from: u32, to: u32) -> Result<BlockCount, OutOfMemory>
    requires visited { IsVisited node.now }
    requires order { from ≤ to }
    requires within { to ≤ length (visits_in node.now.visits).job }
    ensures { IfOk result (IsBlock node.now.rows.now node.now.kind.now (visits_in node.now.visits) node.now.last (counted_to node.now.tails) from to) }
{
    let most = counted_up_to(node.tails);
    block_seen(
        alloc,
        node.rows,
        node.kind,
        &node.visits,
        node.last,
        most,
        from,
        to,
    )
}

// Returns the number of pieces of this size in `count` visits.
pub fn piece_count(count: u32, size: u32) -> u32
    requires few { count ≤ 1048576 }
    requires some { 0 < size }
    requires short { size ≤ 1048576 }
    ensures { result ≡ pieces_in size count }
{
    (count + (size - 1)) / size
}

// Returns where the piece at an index begins and ends.
pub fn piece_ends(count: u32, size: u32, b: u32) -> (u32, u32)
    requires few { count ≤ 1048576 }
    requires some { 0 < size }
    requires short { size ≤ 1048576 }
    requires inside { b < pieces_in size count }
    ensures from { result.0 ≡ start_of size count b }
    ensures to { result.1 ≡ start_of size count (b + 1) }
{
    let from = b * size;
    let next = from + size;
    (from, count.min(next))
}

// Returns the counts of a node, from those of its pieces in order.
fn sum_of(
    alloc: Global,
    node: &NodeVisits,
    group: &List<BlockCount>,
) -> Result<BlockCount, OutOfMemory>
    requires visited { IsVisited node.now }
    requires group { AreAll (IsPieceCount node.now) (pieces_of node.now) group.now }
    ensures { IfOk result (IsSumOf node.now) }
{
    waits_join();
    let mut sum = block_of(alloc, node, 0, 0)?;
    for b in 0..group.len() {
        sum = blocks_added(alloc, sum, group.get(b))?;
    }
    Ok(sum)
}

// Returns the counts of each node.
fn sums_of(
    alloc: Global,
    nodes: &List<NodeVisits>,
    groups: &List<List<BlockCount>>,
) -> Result<List<BlockCount>, OutOfMemory>
    requires visited { AllByRecursion IsVisited nodes.now }
    requires groups { AreGroups pieces_of IsPieceCount nodes.now groups.now }
    ensures { IfOk result (λ sums. AreSumsOf nodes.now sums) }
{
    let mut sums = List::new(alloc);
    for node in 0..nodes.len() {
        match sum_of(alloc, nodes.get(node), groups.get(node)) {
            Ok(sum) => sums.push(sum)?,
            Err(fault) => {
                drop(sums);
                return Err(fault);
            }
        }
    }
    Ok(sums)
}

/// Returns the counts of each of these nodes, at most 65,535. The visits to a node, at most 1,048,576, are cut into
/// pieces of 16,384, and the pieces of all nodes form one list. 1 to 64 workers make it, and enter the gate with each
/// piece. The only error is out of memory.
pub fn sums_by_node<R: Threads + Sync, G: Gate>(
    crew: &Crew<R, G>,
    nodes: &List<NodeVisits>,
) -> Result<List<BlockCount>, OutOfMemory>
    requires few { length nodes.now < 2 ^ 16 }
    requires visited { AllByRecursion IsVisited nodes.now }
    ensures { IfOk result (λ sums. AreSumsOf nodes.now sums) }
{
    let groups = crew.parts(nodes.as_slice())?;
    let sums = sums_of(crew.alloc, nodes, &groups);
    drop(groups);
    sums
}
