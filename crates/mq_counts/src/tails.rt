// The percentiles of the waits at nodes.
ghost use Rattle.std.specs.Prelude.{◌≡◌, ◌<◌, ◌^◌, IfOk, IfSome, Some, length, slice_get};
ghost use Rattle.std.specs.List.{AllByRecursion};
ghost use Rattle.mq_counts.specs.Tails.{AreCounting, AreKnown, AreTailsOf, IsTailIn};
ghost use Rattle.mq_counts.specs.Totals.{AreSumsOf, IsVisited};

use crate::seen::tail_seen;
use crate::tail_pieces::counted_tails;
use crate::totals::NodeVisits;
use mq_base::{List, OutOfMemory};
use mq_crew::{Crew, Gate, Pieces};
use mq_stats::{BlockCount, Percentiles};
use std::alloc::Global;
use std::thread::Threads;

// The percentiles if there are none.
pub const NO_WAIT: Percentiles = Percentiles {
    p50: 0,
    p90: 0,
    p99: 0,
};

/// The visits to nodes, with what is counted of them.
#[derive(Clone, Copy)]
pub struct KnownNodes<'a, 'b> {
    pub nodes: &'a List<NodeVisits<'b>>,
    pub sums: &'a List<BlockCount>,
}

/// What the percentiles come from. A piece is the percentiles of the waits at one node.
#[derive(Clone, Copy)]
pub struct NodesTails<'a, 'b> {
    pub known: KnownNodes<'a, 'b>,
    /// The percentiles that are counted already, by node.
    pub counted: &'a List<Option<Percentiles>>,
}

impl<'a, 'b> Pieces for NodesTails<'a, 'b> {
    type Piece = Percentiles;

    ghost fit = { AreCounting };

    ghost size = { λ of. length of.known.nodes.now };

    ghost is_piece = { λ of. IsTailIn of.known.nodes.now };

    fn count(&self) -> u32 {
        self.known.nodes.len() as u32
    }

    fn piece(&self, alloc: Global, b: u32) -> Result<Percentiles, OutOfMemory> {
        let counted = *self.counted.get(b as usize);
        tail_at(alloc, &self.known, counted, b as usize)
    }
}

// Returns the percentiles of the waits at a node, and computes them only if they weren't counted.
fn tail_at(
    alloc: Global,
    known: &KnownNodes,
    counted: Option<Percentiles>,
    node: usize,
) -> Result<Percentiles, OutOfMemory>
    requires known { AreKnown known.now }
    requires inside { node < length known.now.nodes.now }
    requires counted { IfSome counted (IsTailIn known.now.nodes.now node) }
    ensures { IfOk result (IsTailIn known.now.nodes.now node) }
{
    if let Some(tail) = counted {
        return Ok(tail);
    }
    let its = known.nodes.get(node);
    let longest = known.sums.get(node).totals.longest;
    tail_seen(alloc, its.rows, its.kind, &its.visits, longest)
}

// Returns the percentiles of the waits at each node, or `None` unless all were counted.
fn known_tails(alloc: Global, of: &NodesTails) -> Result<Option<List<Percentiles>>, OutOfMemory>
    requires { AreCounting of.now }
    ensures { IfOk result (λ known. IfSome known (AreTailsOf of.now.known.nodes.now)) }
{
    let count = of.known.nodes.len();
    let mut tails = Vec::with_capacity(alloc, count)?;
    for node in 0..count {
        let Some(tail) = *of.counted.get(node) else {
            return Ok(None);
        };
        tails.push_reserved(tail);
    }
    Ok(Some(List::from_vec(tails)))
}

/// Returns the percentiles of the waits at each of these nodes, at most 65,535, from the counts of their visits. Usually the waits
/// are counted already, or a second pass over pieces of the visits counts them (`counted_tails`). Otherwise each node is a piece of
/// another list. 1 to 64 workers make the pieces, and enter the gate with each; without pieces there are no workers. No node has
/// more than 1,048,576 visits. The only error is out of memory.
pub fn tails_of<R: Threads + Sync, G: Gate>(
    crew: &Crew<R, G>,
    nodes: &List<NodeVisits>,
    sums: &List<BlockCount>,
) -> Result<List<Percentiles>, OutOfMemory>
    requires few { length nodes.now < 2 ^ 16 }
    requires visited { AllByRecursion IsVisited nodes.now }
    requires sums { AreSumsOf nodes.now sums.now }
    ensures { IfOk result (λ tails. AreTailsOf nodes.now tails) }
{
    let known = KnownNodes { nodes, sums };
    let counted = counted_tails(crew, &known)?;
    let all = NodesTails {
        known,
        counted: &counted,
    };
    match known_tails(crew.alloc, &all) {
        Ok(Some(tails)) => {
            drop(counted);
            Ok(tails)
        }
        Ok(None) => {
            let tails = crew.made(&all);
            drop(counted);
            tails
        }
        Err(fault) => {
            drop(counted);
            Err(fault)
        }
    }
}
