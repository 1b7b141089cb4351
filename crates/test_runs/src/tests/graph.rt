// Networks without a source, which no model declares.
ghost use Rattle.std.specs.Prelude.{IsTrue};
ghost use Rattle.mq_graph.specs.Rank.{AreWired};

use mq_base::{List, OutOfMemory};
use mq_core::{Demand, Input, Kind, Network, Node};
use mq_graph::{RankFault, cycles_are_left, rank};
use std::alloc::Global;
use std::test::Fail;

fn network(alloc: Global, nodes: List<Node>) -> Network {
    Network {
        nodes,
        columns: List::new(alloc),
        bound: 0,
        version: 1,
    }
}

// Returns a server with these inputs.
fn server(alloc: Global, inputs: &[Input]) -> Result<Node, OutOfMemory> {
    Ok(Node {
        name: List::new(alloc),
        kind: Kind::Server(Demand::Fixed(1)),
        inputs: List::from_vec(Vec::from_slice(alloc, inputs)?),
    })
}

// Returns a network of a server that reads only itself, after this
// many servers that read nothing.
fn circle(alloc: Global, node: u32) -> Result<Network, OutOfMemory> {
    let mut nodes = List::new(alloc);
    for _ in 0..node {
        nodes.push(server(alloc, &[])?)?;
    }
    nodes.push(server(alloc, &[Input { node, out: 0 }])?)?;
    Ok(network(alloc, nodes))
}

fn is_wired(net: &Network) -> bool
    ensures { IsTrue result → AreWired net.now.nodes }
{
    let count = net.nodes.len();
    net.nodes.as_slice().iter().all(|node| node
        .inputs
        .as_slice()
        .iter()
        .all(|input| (input.node as usize) < count))
}

// Returns whether ranking a network gives this.
fn comes_to(alloc: Global, net: &Network, wanted: Result<&[u32], RankFault>) -> bool {
    if net.nodes.len() > 64 || !is_wired(net) {
        return false;
    }
    match rank(alloc, net) {
        Ok(order) => Ok(order.as_slice()) == wanted,
        Err(fault) => Err(fault) == wanted,
    }
}

fn nothing_is_ranked(alloc: Global) -> bool {
    comes_to(alloc, &network(alloc, List::new(alloc)), Ok(&[]))
}

fn circle_is_left(alloc: Global, node: u32) -> Result<bool, OutOfMemory> {
    let net = circle(alloc, node)?;
    Ok(comes_to(alloc, &net, Err(RankFault::Cycle { node })))
}

#[test]
fn a_network_without_a_source_is_ranked(rt: HostRuntime) -> Result<(), Fail> {
    cycles_are_left();
    let alloc = rt.alloc();
    assert!(rt; nothing_is_ranked(alloc));
    assert!(rt; circle_is_left(alloc, 0)?);
    assert!(rt; circle_is_left(alloc, 1)?);
    Ok(())
}
