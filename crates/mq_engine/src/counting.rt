// How far a run has come that is counted as it goes.
ghost use Rattle.std.specs.Prelude.{◌≡◌, ◌<◌, ◌≤◌, ◌==◌, ◌&&◌, ℕ, All, [], true, false, count_by, length, slice_set, IfOk};
ghost use Rattle.std.specs.List.{AllByRecursion, list_any};
ghost use Rattle.mq_core.specs.declared.model.Plan.{Plan as ThePlan};
ghost use Rattle.mq_core.specs.declared.model.Rows.{Rows as TheRows};
ghost use Rattle.mq_engine.specs.Counting.{AreUntold, IsCounting, IsToldNode, IsToldPut, IsUnread};
ghost use Rattle.mq_engine.specs.Progress.{is_waiting};

use crate::progress::Stand;
use crate::told::{ToldEnding, ToldNode};
use mq_base::{List, OutOfMemory};
use mq_core::{Input, Node, Plan, Stream};
use mq_counts::NodeCount;
use mq_stats::{NodeTotals, Percentiles};
use std::alloc::Global;
use std::mem::replace;

/// What is told so far, by node.
#[derive(Drop)]
pub struct Counting {
    pub counts: Vec<NodeCount>,
    /// What leaves each node that is done, unless no node that waits reads any of it.
    pub outputs: Vec<List<Stream>>,
    pub stands: Vec<Stand>,
}

// No node is told of.
pub fn beginning_counts(alloc: Global, nodes: usize) -> Result<Counting, OutOfMemory>
    ensures came { IfOk result (λ counting. length counting.counts.items ≡ nodes) }
    ensures left { IfOk result (λ counting. length counting.outputs.items ≡ nodes) }
    ensures none { IfOk result (λ counting. All (λ streams. streams ≡ []) counting.outputs.items) }
    ensures stand { IfOk result (λ counting. length counting.stands.items ≡ nodes) }
    ensures waits { IfOk result (λ counting. All (λ stand. is_waiting stand ≡ true) counting.stands.items) }
{
    let mut counts = Vec::with_capacity(alloc, nodes)?;
    let mut outputs = Vec::with_capacity(alloc, nodes)?;
    let mut stands = Vec::with_capacity(alloc, nodes)?;
    for _ in 0..nodes {
        counts.push_reserved(untold(alloc));
        outputs.push_reserved(List::new(alloc));
        stands.push_reserved(Stand::Waiting);
    }
    Ok(Counting {
        counts,
        outputs,
        stands,
    })
}

// The count of a node of which nothing is told yet.
fn untold(alloc: Global) -> NodeCount {
    NodeCount {
        totals: NodeTotals {
            came: 0,
            left: 0,
            lost: 0,
            held: 0,
            wait: 0,
            longest: 0,
            busy: 0,
            area: 0,
            peak: 0,
        },
        last: 0,
        tail: Percentiles {
            p50: 0,
            p90: 0,
            p99: 0,
        },
        exits: List::new(alloc),
    }
}

// Puts down how these nodes ended, and what is told of them.
pub fn settle_told(counting: &mut Counting, told: List<ToldNode>)
    requires waits { AreUntold counting.old.stands.items told }
    requires came { length counting.old.counts.items ≡ length counting.old.stands.items }
    requires left { length counting.old.outputs.items ≡ length counting.old.stands.items }
    ensures reached { (plan : ThePlan) (rows : TheRows) (form : ℕ) → IsCounting plan rows form counting.old.counts.items counting.old.outputs.items counting.old.stands.items → AllByRecursion (IsToldNode plan rows form) told → IsCounting plan rows form counting.new.counts.items counting.new.outputs.items counting.new.stands.items }
    ensures fewer { 1 ≤ length told → count_by is_waiting counting.new.stands.items < count_by is_waiting counting.old.stands.items }
{
    let mut told = told.into_vec();
    while let Some(one) = told.pop() {
        put_told(counting, one);
    }
}

// Puts down how a node ended, and what is told of it.
fn put_told(counting: &mut Counting, one: ToldNode)
    requires came { one.number < length counting.old.counts.items }
    requires left { one.number < length counting.old.outputs.items }
    requires stand { one.number < length counting.old.stands.items }
    ensures { IsToldPut one counting.old.counts.items counting.old.outputs.items counting.old.stands.items counting.new.counts.items counting.new.outputs.items counting.new.stands.items }
{
    let at = one.number as usize;
    match one.ending {
        ToldEnding::Told(streams, count) => {
            drop(replace(&mut counting.counts[at], count));
            drop(replace(&mut counting.outputs[at], streams));
            counting.stands[at] = Stand::Done;
        }
        ToldEnding::TooMany(over) => counting.stands[at] = Stand::Crowded(over),
        ToldEnding::TooLate(past) => counting.stands[at] = Stand::Late(past),
    }
}

// Whether one of these inputs reads an output of the node.
pub fn reads(inputs: &[Input], node: u32) -> bool
    ensures { result ≡ list_any (λ i. i.node == node) inputs.now }
{
    inputs.iter().any(|input| input.node == node)
}

// Whether a node waits to be worked out.
fn still_waits(stand: Stand) -> bool
    ensures { result ≡ is_waiting stand }
{
    match stand {
        Stand::Waiting => true,
        Stand::Done | Stand::Crowded(_) | Stand::Late(_) => false,
    }
}

// Whether a node that has these inputs waits, and reads an output of the node.
fn awaits(stand: Stand, inputs: &[Input], node: u32) -> bool
    ensures { result ≡ (is_waiting stand && list_any (λ i. i.node == node) inputs.now) }
{
    still_waits(stand) && reads(inputs, node)
}

// Whether a node that waits reads an output of the node.
fn is_awaited(nodes: &List<Node>, stands: &[Stand], node: u32) -> bool
    requires { length stands.now ≡ length nodes.now }
    ensures { result ≡ false → IsUnread nodes.now stands.now node }
{
    for reader in 0..nodes.len() {
        let inputs = nodes.get(reader).inputs.as_slice();
        if awaits(stands[reader], inputs, node) {
            return true;
        }
    }
    false
}

// Lets what leaves a node go.
fn empty(alloc: Global, outputs: &mut Vec<List<Stream>>, node: u32)
    requires { node < length outputs.old.items }
    ensures { outputs.new.items ≡ slice_set outputs.old.items node [] }
{
    drop(replace(&mut outputs[node as usize], List::new(alloc)));
}

// The same, unless a node that waits reads some of it.
fn let_go_at(alloc: Global, plan: &Plan, counting: &mut Counting, node: u32)
    requires left { length counting.old.outputs.items ≡ length plan.now.net.nodes }
    requires stand { length counting.old.stands.items ≡ length plan.now.net.nodes }
    requires inside { node < length plan.now.net.nodes }
    ensures counting { (rows : TheRows) (form : ℕ) → IsCounting plan.now rows form counting.old.counts.items counting.old.outputs.items counting.old.stands.items → IsCounting plan.now rows form counting.new.counts.items counting.new.outputs.items counting.new.stands.items }
    ensures left { length counting.new.outputs.items ≡ length plan.now.net.nodes }
    ensures stand { counting.new.stands.items ≡ counting.old.stands.items }
{
    if is_awaited(&plan.net.nodes, &counting.stands, node) {
        return;
    }
    empty(alloc, &mut counting.outputs, node);
}

// Lets what leaves a node go of which no node that waits reads anything.
pub fn let_go(alloc: Global, plan: &Plan, counting: &mut Counting)
    requires left { length counting.old.outputs.items ≡ length plan.now.net.nodes }
    requires stand { length counting.old.stands.items ≡ length plan.now.net.nodes }
    ensures counting { (rows : TheRows) (form : ℕ) → IsCounting plan.now rows form counting.old.counts.items counting.old.outputs.items counting.old.stands.items → IsCounting plan.now rows form counting.new.counts.items counting.new.outputs.items counting.new.stands.items }
    ensures stand { counting.new.stands.items ≡ counting.old.stands.items }
{
    for node in 0..plan.net.nodes.len() {
        let_go_at(alloc, plan, counting, node as u32);
    }
}
