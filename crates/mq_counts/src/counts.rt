// What a report says of nodes, from what came to them and what left.
ghost use Rattle.std.specs.Prelude.{◌≡◌, ◌<◌, ◌^◌, ◌==◌, ◌&&◌, ℕ, List as Items, length, IfOk};
ghost use Rattle.std.specs.List.{AllByRecursion, list_any};
ghost use Rattle.mq_core.specs.StandardTable.{run_of};
ghost use Rattle.mq_core.specs.Theorems.{IsReadFor};
ghost use Rattle.mq_core.specs.declared.model.Node.{Node as TheNode};
ghost use Rattle.mq_core.specs.declared.model.Rows.{Rows as TheRows};
ghost use Rattle.mq_counts.specs.Counts.{AreCountable, AreCounts, AreCountsOf, AreNodeCounts, AreVisitsIn, IsVisitsIn, is_read as reads_output};
ghost use Rattle.mq_counts.specs.Leaving.{AreNodeStreams, AreParted};
ghost use Rattle.mq_counts.specs.Tails.{AreTailsOf, IsTailIn};
ghost use Rattle.mq_counts.specs.declared.totals.NodeVisits.{NodeVisits as TheVisits};
ghost use Rattle.mq_counts.specs.Totals.{AreSumsOf, IsVisited};

use crate::leaving::{PartedExits, exits_at, parted_exits};
use crate::seen::{SeenStreams, SeenVisits, last_seen};
use crate::tails::{NO_WAIT, tails_of};
use crate::totals::{NodeVisits, sums_by_node};
use mq_base::{List, OutOfMemory};
use mq_core::{Input, Kind, Node, Plan, Rows, span_is_sequences};
use mq_crew::{Crew, Gate};
use mq_stats::{BlockCount, Exit, NodeTotals, Percentiles, lasts_are_greatest};
use std::alloc::Global;
use std::thread::Threads;

/// The sequences of a node: what came to it, and what left it by each output.
#[derive(Clone, Copy)]
pub struct NodeSequences<'a> {
    /// The node, by order of declaration.
    pub number: u32,
    pub kind: &'a Kind,
    pub visits: SeenVisits<'a>,
    pub streams: SeenStreams<'a>,
}

/// What a report says of a node.
#[derive(Drop)]
pub struct NodeCount {
    /// The totals up to the last event at the node. In a longer run its held visits stay on (`totals_at`).
    pub totals: NodeTotals,
    /// The time of that event, in ticks.
    pub last: u64,
    /// The percentiles of the waits, if the report has form 2.
    pub tail: Percentiles,
    /// What leaves by each output. For an output that an input reads, it says nothing.
    pub exits: List<Exit>,
}

/// What a report says of a run.
#[derive(Drop)]
pub struct Counts {
    /// The time of the last event, in ticks.
    pub span: u64,
    /// What it says of each node, by order of declaration.
    pub nodes: List<NodeCount>,
}

// Returns whether one of these inputs reads the output of the node.
fn reads(inputs: &[Input], node: u32, output: usize) -> bool
    ensures { result ≡ list_any (λ i. (i.node == node) && (i.out == output)) inputs.now }
{
    inputs
        .iter()
        .any(|input| input.node == node && input.out as usize == output)
}

/// Returns whether some input reads the output of the node.
pub fn is_read(nodes: &[Node], node: u32, output: usize) -> bool
    ensures { result ≡ reads_output nodes.now node output }
{
    nodes
        .iter()
        .any(|other| reads(other.inputs.as_slice(), node, output))
}

// Returns the visits to a node, up to the last event there.
fn node_visits<'a>(rows: &'a Rows, sequences: &NodeSequences<'a>, tails: bool) -> NodeVisits<'a>
    requires { AreCountable rows.now sequences.now }
    ensures visited { IsVisited result }
    ensures its { IsVisitsIn rows.now sequences.now result }
{
    NodeVisits {
        rows,
        kind: sequences.kind,
        visits: sequences.visits,
        last: last_seen(&sequences.visits, &sequences.streams),
        tails,
    }
}

// Returns the visits to each node, up to the last event there.
fn all_visits<'a>(
    alloc: Global,
    rows: &'a Rows,
    all: &List<NodeSequences<'a>>,
    tails: bool,
) -> Result<List<NodeVisits<'a>>, OutOfMemory>
    requires { AllByRecursion (AreCountable rows.now) all.now }
    ensures { IfOk result (λ visits. AreVisitsIn rows.now all.now (length all.now) visits) }
{
    let mut visits = List::new(alloc);
    for at in 0..all.len() {
        visits.push(node_visits(rows, all.get(at), tails))?;
    }
    Ok(visits)
}

// Returns the percentiles of the waits at these nodes if the form is 2, and an empty list otherwise.
fn tails_told<R: Threads + Sync, G: Gate>(
    crew: &Crew<R, G>,
    nodes: &List<NodeVisits>,
    sums: &List<BlockCount>,
    form: u8,
) -> Result<List<Percentiles>, OutOfMemory>
    requires few { length nodes.now < 2 ^ 16 }
    requires visited { AllByRecursion IsVisited nodes.now }
    requires sums { AreSumsOf nodes.now sums.now }
    ensures { IfOk result (λ tails. form ≡ 2 → AreTailsOf nodes.now tails) }
{
    if form != 2 {
        return Ok(List::new(crew.alloc));
    }
    tails_of(crew, nodes, sums)
}

// Returns the percentiles at a node, or zeros if the form isn't 2.
fn tail_told(tails: &List<Percentiles>, form: u8, at: usize) -> Percentiles
    requires { form ≡ 2 → at < length tails.now }
    ensures { (nodes : Items TheVisits) → (form ≡ 2 → AreTailsOf nodes tails.now) → form ≡ 2 → IsTailIn nodes at result }
{
    if form != 2 {
        return NO_WAIT;
    }
    *tails.get(at)
}

// Returns what the report says of each node, from the counts of its visits, the percentiles and the pieces of what leaves.
fn counts_at(
    alloc: Global,
    all: &List<NodeSequences>,
    visits: &List<NodeVisits>,
    sums: &List<BlockCount>,
    tails: &List<Percentiles>,
    parted: &PartedExits,
    form: u8,
) -> Result<List<NodeCount>, OutOfMemory>
    requires visits { length visits.now ≡ length all.now }
    requires sums { AreSumsOf visits.now sums.now }
    requires tails { form ≡ 2 → AreTailsOf visits.now tails.now }
    requires parted { AreParted parted.now }
    requires streams { length parted.now.nodes ≡ length all.now }
    ensures { IfOk result (λ counts. (nodes : Items TheNode) (rows : TheRows) → AreVisitsIn rows all.now (length all.now) visits.now → AreNodeStreams nodes rows all.now (length all.now) parted.now.nodes → AreCountsOf nodes rows form all.now counts) }
{
    let mut counts = List::new(alloc);
    for at in 0..all.len() {
        match exits_at(alloc, parted, at) {
            Ok(exits) => counts.push(NodeCount {
                totals: sums.get(at).totals,
                last: visits.get(at).last,
                tail: tail_told(tails, form, at),
                exits,
            })?,
            Err(fault) => {
                drop(counts);
                return Err(fault);
            }
        }
    }
    Ok(counts)
}

// Returns what the report says of each node, from the counts of its visits.
fn counts_with<R: Threads + Sync, G: Gate>(
    crew: &Crew<R, G>,
    nodes: &[Node],
    rows: &Rows,
    all: &List<NodeSequences>,
    visits: &List<NodeVisits>,
    sums: &List<BlockCount>,
    form: u8,
) -> Result<List<NodeCount>, OutOfMemory>
    requires few { length all.now < 2 ^ 16 }
    requires countable { AllByRecursion (AreCountable rows.now) all.now }
    requires visits { AreVisitsIn rows.now all.now (length all.now) visits.now }
    requires sums { AreSumsOf visits.now sums.now }
    ensures { IfOk result (λ counts. AreCountsOf nodes.now rows.now form all.now counts) }
{
    let tails = tails_told(crew, visits, sums, form)?;
    match parted_exits(crew, nodes, rows, all) {
        Ok(parted) => {
            let counts = counts_at(crew.alloc, all, visits, sums, &tails, &parted, form);
            drop(parted);
            drop(tails);
            counts
        }
        Err(fault) => {
            drop(tails);
            Err(fault)
        }
    }
}

/// Returns what a report says of each of these nodes of a network, at most 65,535: totals, percentiles in form 2 (`tails_of`), and what leaves
/// by each output that no input of the network reads (`parted_exits`). 1 to 64 workers compute it, and enter the gate with each piece. The
/// only error is out of memory.
pub fn counts_of<R: Threads + Sync, G: Gate>(
    crew: &Crew<R, G>,
    nodes: &[Node],
    rows: &Rows,
    all: &List<NodeSequences>,
    form: u8,
) -> Result<List<NodeCount>, OutOfMemory>
    requires few { length all.now < 2 ^ 16 }
    requires countable { AllByRecursion (AreCountable rows.now) all.now }
    ensures { IfOk result (λ counts. AreCountsOf nodes.now rows.now form all.now counts) }
{
    let visits = all_visits(crew.alloc, rows, all, form == 2)?;
    match sums_by_node(crew, &visits) {
        Ok(sums) => {
            let counts = counts_with(crew, nodes, rows, all, &visits, &sums, form);
            drop(sums);
            drop(visits);
            counts
        }
        Err(fault) => {
            drop(visits);
            Err(fault)
        }
    }
}

// Returns the time of the last event at any node of the run, in ticks.
fn last_of_all(plan: &Plan, rows: &Rows, nodes: &List<NodeCount>) -> u64
    requires read { IsReadFor plan.now.net rows.now }
    requires nodes { (form : ℕ) × AreNodeCounts plan.now rows.now form nodes.now }
    ensures { result ≡ (run_of plan.now rows.now).clock }
{
    span_is_sequences();
    lasts_are_greatest();
    let mut span = 0u64;
    for node in 0..nodes.len() {
        span = span.max(nodes.get(node).last);
    }
    span
}

/// Returns what a report says of a run, from what it says of each node.
pub fn counted(plan: &Plan, rows: &Rows, nodes: List<NodeCount>) -> Counts
    requires read { IsReadFor plan.now.net rows.now }
    requires nodes { (form : ℕ) × AreNodeCounts plan.now rows.now form nodes }
    ensures { (form : ℕ) → AreNodeCounts plan.now rows.now form nodes → AreCounts plan.now rows.now form result }
{
    let span = last_of_all(plan, rows, &nodes);
    Counts { span, nodes }
}
