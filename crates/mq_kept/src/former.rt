// What is kept of the nodes, and how they are restored to what they had before an edit.
ghost use Rattle.std.specs.Prelude.{◌≡◌, ◌<◌, ◌≤◌, All, length, IfOk};
ghost use Rattle.mq_kept.specs.Formers.{AllFit, AreNodes, AreNothing, AreSameNodes, CanComeBack, FitsIn, HasLists, IsPut, lists_before, no_lists, with_checkpoints};
ghost use Rattle.mq_kept.specs.Tails.{IsTailOf, tail_before};
ghost use Rattle.mq_kept.specs.declared.former.Former.TheVariants.{Same};
ghost use Rattle.mq_kept.specs.declared.former.Nodes.{Nodes as TheNodes};

use crate::checkpoints::Checkpoints;
use crate::tails::FormerTail;
use mq_base::{List, OutOfMemory};
use mq_core::{Fates, Stream, Visits};
use std::alloc::Global;
use std::mem::replace;

/// What is kept of a node.
#[derive(Drop)]
pub struct NodeLists {
    pub visits: Visits,
    /// What left the node, by output.
    pub streams: List<Stream>,
    pub checkpoints: Checkpoints,
}

/// What is kept of all nodes, in the order of declaration.
#[derive(Drop)]
pub struct Nodes {
    pub visits: Vec<Visits>,
    pub outputs: Vec<List<Stream>>,
    pub checkpoints: Vec<Checkpoints>,
}

/// How a node is restored to what it had before an edit.
#[derive(Drop)]
pub enum Former {
    /// It still has what it had.
    Same,
    /// All its lists are new: these are the former ones.
    Whole(NodeLists),
    /// Its last visits were edited in place, and its checkpoints are new: these are the former ones.
    Tail(FormerTail, Checkpoints),
}

impl Former {
    /// Returns what the node had before, given the lists that it has now. Takes no memory.
    pub fn put_back(self, alloc: Global, now: NodeLists) -> NodeLists
        requires { FitsIn self now }
        ensures { result ≡ lists_before self now }
    {
        match self {
            Former::Same => now,
            Former::Whole(lists) => {
                drop(now);
                lists
            }
            Former::Tail(tail, checkpoints) => tail_back(alloc, &tail, checkpoints, now),
        }
    }
}

// Returns what a node had before, given its former last visits and its former checkpoints.
fn tail_back(
    alloc: Global,
    tail: &FormerTail,
    checkpoints: Checkpoints,
    now: NodeLists,
) -> NodeLists
    requires { IsTailOf tail.now now }
    ensures { result ≡ with_checkpoints checkpoints (tail_before tail.now now) }
{
    let mut lists = now;
    tail.put_back(alloc, &mut lists);
    drop(replace(&mut lists.checkpoints, checkpoints));
    lists
}

/// Returns the lists of a node of which nothing is kept.
pub fn no_lists(alloc: Global) -> NodeLists
    ensures { result ≡ no_lists }
{
    NodeLists {
        visits: Visits {
            job: List::new(alloc),
            arrive: List::new(alloc),
            found: List::new(alloc),
            fate: Fates::departures(List::new(alloc)),
        },
        streams: List::new(alloc),
        checkpoints: Checkpoints::Nothing,
    }
}

/// Returns `count` nodes of which nothing is kept.
pub fn no_nodes(alloc: Global, count: usize) -> Result<Nodes, OutOfMemory>
    ensures count { IfOk result (AreNodes count) }
    ensures nothing { IfOk result AreNothing }
{
    let mut visits = Vec::with_capacity(alloc, count)?;
    let mut outputs = Vec::with_capacity(alloc, count)?;
    let mut checkpoints = Vec::with_capacity(alloc, count)?;
    for _ in 0..count {
        let lists = no_lists(alloc);
        visits.push_reserved(lists.visits);
        outputs.push_reserved(lists.streams);
        checkpoints.push_reserved(lists.checkpoints);
    }
    Ok(Nodes {
        visits,
        outputs,
        checkpoints,
    })
}

/// Returns a list that says of each of `count` nodes that it still has what it had.
pub fn all_same(alloc: Global, count: usize) -> Result<Vec<Former>, OutOfMemory>
    ensures count { IfOk result (λ formers. length formers.items ≡ count) }
    ensures same { IfOk result (λ formers. All (λ former. former ≡ Same) formers.items) }
{
    let mut formers = Vec::with_capacity(alloc, count)?;
    for _ in 0..count {
        formers.push_reserved(Former::Same);
    }
    Ok(formers)
}

/// Puts these lists at a node, and returns those that it had.
pub fn put_at(nodes: &mut Nodes, at: usize, lists: NodeLists) -> NodeLists
    requires visits { at < length nodes.old.visits.items }
    requires outputs { at < length nodes.old.outputs.items }
    requires checkpoints { at < length nodes.old.checkpoints.items }
    ensures put { IsPut nodes.old at lists nodes.new }
    ensures had { HasLists nodes.old at result }
{
    NodeLists {
        visits: replace(&mut nodes.visits[at], lists.visits),
        streams: replace(&mut nodes.outputs[at], lists.streams),
        checkpoints: replace(&mut nodes.checkpoints[at], lists.checkpoints),
    }
}

/// Restores each node to what it had before. Takes no memory.
pub fn come_back(alloc: Global, nodes: &mut Nodes, formers: &mut [Former])
    requires count { AreNodes (length formers.old) nodes.old }
    requires fit { AllFit nodes.old formers.old }
    ensures { (before : TheNodes) → CanComeBack before nodes.old formers.old → AreSameNodes before nodes.new }
{
    for at in 0..formers.len() {
        let former = replace(&mut formers[at], Former::Same);
        let now = put_at(nodes, at, no_lists(alloc));
        drop(put_at(nodes, at, former.put_back(alloc, now)));
    }
}
