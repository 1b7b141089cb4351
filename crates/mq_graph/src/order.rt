ghost use Rattle.std.specs.Prelude.{◌≡◌, ◌<◌, ◌≤◌, ℕ, length, IsErrOf, OnOk};
ghost use Rattle.std.specs.List.{list_all};
ghost use Rattle.mq_core.specs.Wiring.{has, first_ready};
ghost use Rattle.mq_graph.specs.Cycle.{HasCycle};
ghost use Rattle.mq_graph.specs.Rank.{AreWired, Answers, first_outside};

use mq_base::{List, OutOfMemory};
use mq_core::{Input, Network, Node};
use std::alloc::Global;

/// Why a network has no order.
#[derive(Clone, Copy, PartialEq, Eq)]
pub enum RankFault {
    /// The inputs contain a cycle. The node is the first declared one that the ranking leaves out: it
    /// is on a cycle or downstream of one.
    Cycle { node: u32 },
    /// Memory ran out.
    Memory,
}

impl From<OutOfMemory> for RankFault {
    ghost use Rattle.std.specs.Prelude.{◌≡◌};
    ghost use Rattle.mq_graph.specs.declared.order.RankFault.TheVariants.{Memory};

    ghost from_gives = { λ _ e. e ≡ Memory };

    fn from(_: OutOfMemory) -> Self {
        RankFault::Memory
    }
}

// Whether a node has its rank.
fn is_ranked(order: &[u32], node: u32) -> bool
    ensures { result ≡ has order.now node }
{
    order.iter().any(|ranked| *ranked == node)
}

// Whether all inputs of a node are ranked.
fn is_ready(node: &Node, order: &[u32]) -> bool
    ensures { result ≡ list_all (λ (i : Input). has order.now i.node) node.now.inputs }
{
    node.inputs
        .as_slice()
        .iter()
        .all(|input| is_ranked(order, input.node))
}

// The first declared node that isn't ranked yet and whose inputs all are.
#[tactic(auto, using(crate::proofs::RankSteps::ready_here, crate::proofs::RankSteps::ready_later, crate::proofs::RankSteps::none_ready))]
fn first_ready(nodes: &[Node], order: &[u32]) -> Option<u32>
    requires { length nodes.now ≤ 64 }
    ensures { result ≡ first_ready order.now 0 nodes.now }
{
    for (v, node) in nodes.iter().enumerate() {
        if !is_ranked(order, v as u32) && is_ready(node, order) {
            return Some(v as u32);
        }
    }
    None
}

// The first of this many nodes that isn't ranked.
fn first_outside(order: &[u32], count: u32) -> Option<u32>
    ensures { result ≡ first_outside order.now count }
{
    (0..count).find(|node| !is_ranked(order, *node))
}

/// Returns the nodes by rank: the next rank always goes to the first declared node that isn't ranked
/// yet and whose inputs all are.
///
/// The network has at most 64 nodes, and each input names one of them. Returns `Cycle`, with the
/// first declared node left out, exactly if this stops before all nodes are ranked. That happens
/// exactly if the inputs contain a cycle. Returns `Memory` if memory runs out.
pub fn rank(alloc: Global, net: &Network) -> Result<List<u32>, RankFault>
    requires few { length net.now.nodes ≤ 64 }
    requires wired { AreWired net.now.nodes }
    ensures order { Answers net.now.nodes result }
    ensures feed_forward { OnOk result (¬ HasCycle net.now.nodes) }
    ensures cycle { (node : ℕ) → IsErrOf result (RankFault.Cycle node) → HasCycle net.now.nodes }
{
    let nodes = net.nodes.as_slice();
    let mut order = List::new(alloc);
    for _step in 0..nodes.len() {
        if let Some(node) = first_ready(nodes, order.as_slice()) {
            order.push(node)?;
        }
    }
    match first_outside(order.as_slice(), nodes.len() as u32) {
        Some(node) => Err(RankFault::Cycle { node }),
        None => Ok(order),
    }
}
