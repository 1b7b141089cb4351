// How far a run has come.
ghost use Rattle.std.specs.Prelude.{◌≡◌, ◌<◌, ◌≤◌, ℕ, All, [], true, count_by, filter, length, IfOk, Some, slice_get};
ghost use Rattle.std.specs.List.{list_all};
ghost use Rattle.mq_core.specs.declared.model.Input.{Input as Port};
ghost use Rattle.mq_core.specs.declared.model.Node.{Node as TheNode};
ghost use Rattle.mq_core.specs.declared.model.Plan.{Plan as ThePlan};
ghost use Rattle.mq_core.specs.declared.model.Rows.{Rows as TheRows};
ghost use Rattle.mq_engine.specs.Counting.{IsNobody};
ghost use Rattle.mq_engine.specs.Progress.{AreWaiting, AreWithin, AreWorkedOut, IsPut, IsReached, is_done, is_read, is_ready, is_waiting};

use mq_base::{List, OutOfMemory};
use mq_core::{Fates, Input, Node, OverFault, PastFault, Plan, Stream, Visits};
use mq_exits::{Ending, NodeResult};
use std::alloc::Global;
use std::mem::replace;

/// What stands at a node.
#[derive(Clone, Copy)]
pub enum Stand {
    /// It is not worked out yet.
    Waiting,
    /// Its sequences are there.
    Done,
    /// It has more visits than a node may have. It and the nodes behind it are left out.
    Crowded(OverFault),
    /// Its first visit that departs after the bound. Nodes behind it are left out.
    Late(PastFault),
}

/// What is worked out so far, by node.
#[derive(Drop)]
pub struct Progress {
    pub visits: Vec<Visits>,
    pub outputs: Vec<List<Stream>>,
    pub stands: Vec<Stand>,
}

// No node is worked out.
pub fn beginning(alloc: Global, nodes: usize) -> Result<Progress, OutOfMemory>
    ensures came { IfOk result (λ progress. length progress.visits.items ≡ nodes) }
    ensures left { IfOk result (λ progress. length progress.outputs.items ≡ nodes) }
    ensures none { IfOk result (λ progress. All (λ streams. streams ≡ []) progress.outputs.items) }
    ensures stand { IfOk result (λ progress. length progress.stands.items ≡ nodes) }
    ensures waits { IfOk result (λ progress. All (λ stand. is_waiting stand ≡ true) progress.stands.items) }
{
    let mut visits = Vec::with_capacity(alloc, nodes)?;
    let mut outputs = Vec::with_capacity(alloc, nodes)?;
    let mut stands = Vec::with_capacity(alloc, nodes)?;
    for _ in 0..nodes {
        visits.push_reserved(no_visits(alloc));
        outputs.push_reserved(List::new(alloc));
        stands.push_reserved(Stand::Waiting);
    }
    Ok(Progress {
        visits,
        outputs,
        stands,
    })
}

// Of nobody.
pub fn no_visits(alloc: Global) -> Visits
    ensures { IsNobody result }
{
    Visits {
        job: List::new(alloc),
        arrive: List::new(alloc),
        found: List::new(alloc),
        fate: Fates::each(List::new(alloc)),
    }
}

// The nodes that can be worked out next, by rank: those that wait, while all that they read is done.
pub fn ready_nodes(alloc: Global, plan: &Plan, stands: &[Stand]) -> Result<Vec<u32>, OutOfMemory>
    requires within { AreWithin plan.now.net.nodes plan.now.order }
    requires count { length stands.now ≡ length plan.now.net.nodes }
    ensures { IfOk result (λ ready. ready.items ≡ filter (is_ready plan.now.net.nodes stands.now) plan.now.order) }
{
    let mut ready = Vec::new(alloc);
    for rank in 0..plan.order.len() {
        let number = *plan.order.get(rank);
        if may_work(&plan.net.nodes, stands, number) {
            ready.push(number)?;
        }
    }
    Ok(ready)
}

// Whether a node waits, while all that it reads is done.
fn may_work(nodes: &List<Node>, stands: &[Stand], number: u32) -> bool
    requires count { length stands.now ≡ length nodes.now }
    requires inside { number < length nodes.now }
    requires reads { (v port : ℕ) (node : TheNode) (input : Port) → slice_get nodes.now v ≡ Some node → slice_get node.inputs port ≡ Some input → input.node < length nodes.now }
    ensures { result ≡ is_ready nodes.now stands.now number }
{
    match stands[number as usize] {
        Stand::Waiting => all_done(stands, &nodes.get(number as usize).inputs),
        Stand::Done | Stand::Crowded(_) | Stand::Late(_) => false,
    }
}

// Whether all that these ports read is done.
fn all_done(stands: &[Stand], inputs: &List<Input>) -> bool
    requires { (port : ℕ) (input : Port) → slice_get inputs.now port ≡ Some input → input.node < length stands.now }
    ensures { result ≡ list_all (is_read stands.now) inputs.now }
{
    for port in 0..inputs.len() {
        let input = inputs.get(port);
        if !has_ended(stands[input.node as usize]) {
            return false;
        }
    }
    true
}

fn has_ended(stand: Stand) -> bool
    ensures { result ≡ is_done stand }
{
    match stand {
        Stand::Done => true,
        Stand::Waiting | Stand::Crowded(_) | Stand::Late(_) => false,
    }
}

// Puts down how these nodes ended.
pub fn settle(progress: &mut Progress, results: List<NodeResult>)
    requires waits { AreWaiting progress.old.stands.items results }
    requires came { length progress.old.visits.items ≡ length progress.old.stands.items }
    requires left { length progress.old.outputs.items ≡ length progress.old.stands.items }
    ensures reached { (plan : ThePlan) (rows : TheRows) → IsReached plan rows progress.old.visits.items progress.old.outputs.items progress.old.stands.items → AreWorkedOut plan rows results → IsReached plan rows progress.new.visits.items progress.new.outputs.items progress.new.stands.items }
    ensures fewer { 1 ≤ length results → count_by is_waiting progress.new.stands.items < count_by is_waiting progress.old.stands.items }
{
    let mut results = results.into_vec();
    while let Some(node_result) = results.pop() {
        put(progress, node_result);
    }
}

// Puts down how a node ended.
fn put(progress: &mut Progress, node_result: NodeResult)
    requires came { node_result.number < length progress.old.visits.items }
    requires left { node_result.number < length progress.old.outputs.items }
    requires stand { node_result.number < length progress.old.stands.items }
    ensures { IsPut node_result progress.old.visits.items progress.old.outputs.items progress.old.stands.items progress.new.visits.items progress.new.outputs.items progress.new.stands.items }
{
    let at = node_result.number as usize;
    match node_result.ending {
        Ending::OnTime(visits, streams) => {
            // A call of `drop` lets go of what stood there: it is proved once for a type.
            drop(replace(&mut progress.visits[at], visits));
            drop(replace(&mut progress.outputs[at], streams));
            progress.stands[at] = Stand::Done;
        }
        Ending::TooMany(over) => progress.stands[at] = Stand::Crowded(over),
        Ending::TooLate(past) => progress.stands[at] = Stand::Late(past),
    }
}
