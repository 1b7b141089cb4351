// The waits at nodes, counted in pieces of their visits if they weren't counted with the totals.
ghost use Rattle.std.specs.Prelude.{◌≡◌, ◌↔◌, ◌<◌, ◌≤◌, ◌^◌, ℕ, List as Items, length, IfOk, IfSome, IsSome, None};
ghost use Rattle.std.specs.List.{AllByRecursion};
ghost use Rattle.mq_crew.specs.Crew.{AreAll, AreGroups};
ghost use Rattle.mq_stats.specs.Percentiles.{ArePercentiles, waits_at};
ghost use Rattle.mq_stats.specs.WaitCounts.{AreWaitCounts};
ghost use Rattle.mq_counts.specs.Seen.{visits_in};
ghost use Rattle.mq_counts.specs.TailPieces.{AreNodeWaits, IsPieceCounts, IsWaited, counted_pieces};
ghost use Rattle.mq_counts.specs.Tails.{AreCountedOf, AreKnown};
ghost use Rattle.mq_counts.specs.Totals.{IsVisited};

use crate::seen::{SeenVisits, visit_count, waits_seen};
use crate::tails::KnownNodes;
use crate::totals::{NodeVisits, PIECE, piece_count, piece_ends};
use mq_base::{List, OutOfMemory};
use mq_core::{Kind, Rows};
use mq_crew::{Crew, Gate, Pieces};
use mq_stats::{
    BlockCount, Percentiles, WaitCounts, counted_percentiles, counts_added, no_counts, waits_join,
};
use std::alloc::Global;
use std::thread::Threads;

/// The visits to a node of this kind. A piece is the counts of the waits of `size` neighbouring visits, or `None` if one has more than
/// `most` ticks. If `most` is 0, there are no pieces.
#[derive(Clone, Copy)]
pub struct NodeWaits<'a> {
    pub rows: &'a Rows,
    pub kind: &'a Kind,
    pub visits: SeenVisits<'a>,
    pub most: u32,
    pub size: u32,
}

impl<'a> Pieces for NodeWaits<'a> {
    type Piece = Option<WaitCounts>;

    ghost fit = { IsWaited };

    ghost size = { counted_pieces };

    ghost is_piece = { IsPieceCounts };

    fn count(&self) -> u32 {
        if self.most == 0 {
            return 0;
        }
        piece_count(visit_count(&self.visits) as u32, self.size)
    }

    fn piece(&self, alloc: Global, b: u32) -> Result<Option<WaitCounts>, OutOfMemory> {
        let (from, to) = piece_ends(visit_count(&self.visits) as u32, self.size, b);
        waits_seen(
            alloc,
            self.rows,
            self.kind,
            &self.visits,
            self.most,
            from,
            to,
        )
    }
}

// Returns the number of ticks up to which a second pass counts the waits of a node's visits. It is 0 if they are counted already, or if
// the longest wait has more ticks than there are visits.
fn looked_up_to(sum: &BlockCount, visits: u32) -> u32
    requires { visits ≤ 1048576 }
    ensures most { result ≤ 1048576 }
    ensures known { IsSome sum.now.waits → result ≡ 0 }
    ensures short { sum.now.waits ≡ None → sum.now.totals.longest ≤ visits → result ≡ sum.now.totals.longest }
    ensures long { visits < sum.now.totals.longest → result ≡ 0 }
{
    if sum.waits.is_some() {
        return 0;
    }
    let longest = sum.totals.longest;
    if longest <= visits as u64 {
        longest as u32
    } else {
        0
    }
}

// Returns the number of visits in a piece if waits are counted up to `most` ticks. It is at least `most`, so that making a table takes
// no longer than looking at the visits of a whole piece. The table for the least size fits a processor's cache.
fn visits_in_piece(most: u32) -> u32
    requires { most ≤ 1048576 }
    ensures least { 16384 ≤ result }
    ensures most { result ≤ 1048576 }
    ensures all { most ≤ result }
{
    PIECE.max(most)
}

// Returns the visits to a node, with how far their waits are counted, from the counts so far.
fn waits_of_node<'a>(node: &NodeVisits<'a>, sum: &BlockCount) -> NodeWaits<'a>
    requires visited { IsVisited node.now }
    ensures waited { IsWaited result }
    ensures waits { waits_at result.rows.now result.kind.now (visits_in result.visits) ≡ waits_at node.now.rows.now node.now.kind.now (visits_in node.now.visits) }
{
    let most = looked_up_to(sum, visit_count(&node.visits) as u32);
    NodeWaits {
        rows: node.rows,
        kind: node.kind,
        visits: node.visits,
        most,
        size: visits_in_piece(most),
    }
}

// Returns the visits to each node, with how far their waits are counted.
fn waits_by_node<'a, 'b>(
    alloc: Global,
    known: &KnownNodes<'a, 'b>,
) -> Result<List<NodeWaits<'b>>, OutOfMemory>
    requires { AreKnown known.now }
    ensures { IfOk result (λ all. AreNodeWaits known.now.nodes.now (length known.now.nodes.now) all) }
{
    let mut all = Vec::with_capacity(alloc, known.nodes.len())?;
    for node in 0..known.nodes.len() {
        all.push_reserved(waits_of_node(known.nodes.get(node), known.sums.get(node)));
    }
    Ok(List::from_vec(all))
}

// Returns the percentiles of the counted waits, or `None` if there are no counts.
fn tail_of(counts: &Option<WaitCounts>) -> Option<Percentiles>
    requires { (waits : Items ℕ) × IfSome counts.now (AreWaitCounts waits) }
    ensures told { IsSome result ↔ IsSome counts.now }
    ensures percentiles { (waits : Items ℕ) → IfSome counts.now (AreWaitCounts waits) → IfSome result (ArePercentiles waits) }
{
    match counts {
        Some(counts) => counted_percentiles(counts),
        None => None,
    }
}

// Returns the percentiles of the waits at a node, or `None` if its pieces don't count them.
fn looked_at(
    alloc: Global,
    node: &NodeWaits,
    group: &List<Option<WaitCounts>>,
) -> Result<Option<Percentiles>, OutOfMemory>
    requires waited { IsWaited node.now }
    requires group { AreAll (IsPieceCounts node.now) (counted_pieces node.now) group.now }
    ensures { IfOk result (λ tail. IfSome tail (ArePercentiles (waits_at node.now.rows.now node.now.kind.now (visits_in node.now.visits)))) }
{
    if node.most == 0 {
        return Ok(None);
    }
    waits_join();
    let mut sum = no_counts(alloc)?;
    for b in 0..group.len() {
        let Some(more) = group.get(b) else {
            drop(sum);
            return Ok(None);
        };
        sum = counts_added(alloc, sum, more)?;
    }
    let tail = counted_percentiles(&sum);
    drop(sum);
    Ok(tail)
}

// Returns the percentiles of the waits at a node, or `None` if neither the totals nor its pieces count them.
fn counted_at(
    alloc: Global,
    node: &NodeWaits,
    sum: &BlockCount,
    group: &List<Option<WaitCounts>>,
) -> Result<Option<Percentiles>, OutOfMemory>
    requires waited { IsWaited node.now }
    requires sum { IfSome sum.now.waits (AreWaitCounts (waits_at node.now.rows.now node.now.kind.now (visits_in node.now.visits))) }
    requires group { AreAll (IsPieceCounts node.now) (counted_pieces node.now) group.now }
    ensures { IfOk result (λ tail. IfSome tail (ArePercentiles (waits_at node.now.rows.now node.now.kind.now (visits_in node.now.visits)))) }
{
    if let Some(tail) = tail_of(&sum.waits) {
        return Ok(Some(tail));
    }
    looked_at(alloc, node, group)
}

// Returns these percentiles, or `None`, for each node.
fn counted_of(
    alloc: Global,
    known: &KnownNodes,
    all: &List<NodeWaits>,
    groups: &List<List<Option<WaitCounts>>>,
) -> Result<List<Option<Percentiles>>, OutOfMemory>
    requires known { AreKnown known.now }
    requires waits { AreNodeWaits known.now.nodes.now (length known.now.nodes.now) all.now }
    requires groups { AreGroups counted_pieces IsPieceCounts all.now groups.now }
    ensures { IfOk result (λ counted. AreCountedOf known.now.nodes.now (length known.now.nodes.now) counted) }
{
    let mut counted = List::new(alloc);
    for node in 0..all.len() {
        match counted_at(alloc, all.get(node), known.sums.get(node), groups.get(node)) {
            Ok(tail) => counted.push(tail)?,
            Err(fault) => {
                drop(counted);
                return Err(fault);
            }
        }
    }
    Ok(counted)
}

/// Returns the percentiles of the waits at each of these nodes, or `None` for a node whose waits weren't counted with the totals and
/// whose longest wait has more ticks than the node has visits. A second pass cuts the visits into pieces of as many visits as the
/// longest wait has ticks, and at least 16,384. 1 to 64 workers make the pieces, and enter the gate with each. The only error is out of
/// memory.
pub fn counted_tails<R: Threads + Sync, G: Gate>(
    crew: &Crew<R, G>,
    known: &KnownNodes,
) -> Result<List<Option<Percentiles>>, OutOfMemory>
    requires few { length known.now.nodes.now < 2 ^ 16 }
    requires known { AreKnown known.now }
    ensures { IfOk result (λ counted. AreCountedOf known.now.nodes.now (length known.now.nodes.now) counted) }
{
    let all = waits_by_node(crew.alloc, known)?;
    let groups = crew.parts(all.as_slice())?;
    counted_of(crew.alloc, known, &all, &groups)
}
