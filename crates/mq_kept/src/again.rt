// A run that is redone in place of a kept one, one node after another by rank.
ghost use Rattle.std.specs.Prelude.{◌≡◌, ◌+◌, ◌<◌, ◌≤◌, ◌^◌, All, length, slice_set, IfErr, IfOk, OnOk};
ghost use Rattle.mq_alike.specs.Again.{all_blocks};
ghost use Rattle.mq_core.specs.Theorems.{IsReadFor};
ghost use Rattle.mq_engine.specs.Answer.{IsCause};
ghost use Rattle.mq_kept.specs.Formers.{AllFit, AreNodes, AreSameNodes, CanComeBack, IsPut};
ghost use Rattle.mq_kept.specs.NodeRuns.{AreKept, AreNodesBefore, RowsFit, earlier_rows};
ghost use Rattle.mq_kept.specs.Totals.{all_again, all_worked};
ghost use Rattle.mq_kept.specs.declared.former.Former.TheVariants.{Same};
ghost use Rattle.mq_kept.specs.declared.former.Nodes.{Nodes as TheNodes};

use crate::checkpoints::Checkpoints;
use crate::former::{Former, Nodes, come_back, no_lists, put_at};
use crate::nodes::{FormerRun, NodeRun, node_run};
use mq_arrivals::Arriving;
use mq_base::{List, Steps};
use mq_core::{Plan, Rows, Run, runs_are_of_networks};
use mq_crew::{Crew, Open};
use mq_edits::FormerRows;
use mq_engine::{RunFault, core_laws};
use std::alloc::Global;
use std::mem::replace;
use std::sync::ledger::Ledger;
use std::thread::Threads;

/// How much of a run an edit redid.
#[derive(Clone, Copy, PartialEq, Eq)]
pub struct Redone {
    /// The number of blocks from the first difference on, summed over the nodes whose blocks are counted: sources,
    /// servers, delays, splits, tandems and fork-joins. A node without a difference adds none.
    pub again: u64,
    /// The number of all blocks of these nodes.
    pub all: u64,
}

/// A new run, and what is kept of its nodes.
#[derive(Drop)]
pub struct NewRun {
    pub run: Run,
    pub checkpoints: List<Checkpoints>,
    pub redone: Redone,
}

/// Why there is no run, and what was kept of the nodes.
#[derive(Drop)]
pub struct RunRefusal {
    pub fault: RunFault,
    pub nodes: Nodes,
}

/// Returns the run of a plan over these rows, in place of the kept one: node after node by rank, each after the blocks
/// that stay. If the run is refused, all nodes are restored to what they had.
pub fn run_again<R: Threads + Sync, L: Ledger>(
    crew: &Crew<R, Open>,
    plan: &Plan,
    rows: &Rows,
    earlier: Option<&FormerRows>,
    nodes: Nodes,
    formers: Vec<Former>,
    block: u32,
    steps: &mut Steps<L>,
) -> Result<NewRun, RunRefusal>
    requires read { IsReadFor plan.now.net rows.now }
    requires block { 64 ≤ block }
    requires large { block ≤ 65536 }
    requires fit { RowsFit rows.now earlier }
    requires before { AreNodesBefore plan.now (earlier_rows rows.now earlier) block nodes }
    requires formers { length formers.items ≡ length plan.now.net.nodes }
    requires same { All (λ former. former ≡ Same) formers.items }
    ensures kept { IfOk result (λ whole. AreKept plan.now rows.now block whole.run whole.checkpoints) }
    ensures redone { IfOk result (λ whole. whole.redone ≡ record { again = all_again plan.now.net (earlier_rows rows.now earlier.entry) rows.now block; all = all_blocks plan.now.net rows.now block }) }
    ensures cause { IfErr result (λ refusal. IsCause plan.now rows.now refusal.fault) }
    ensures back { IfErr result (λ refusal. AreSameNodes nodes refusal.nodes) }
    ensures steps { steps.old ≤ steps.new }
    ensures spent { steps.new ≤ steps.old + all_worked plan.now.net (earlier_rows rows.now earlier.entry) rows.now block }
    ensures counted { OnOk result (steps.new ≡ steps.old + all_worked plan.now.net (earlier_rows rows.now earlier.entry) rows.now block) }
{
    core_laws();
    runs_are_of_networks();
    let mut worked = SoFar {
        nodes,
        formers,
        redone: Redone { again: 0, all: 0 },
    };
    for rank in 0..plan.order.len() {
        let number = *plan.order.get(rank);
        let lists = put_at(&mut worked.nodes, number as usize, no_lists(crew.alloc));
        let ready = [number];
        let arriving = Arriving {
            plan,
            rows,
            outputs: worked.nodes.outputs.as_slice(),
            ready: &ready,
            block,
        };
        let past = FormerRun {
            earlier,
            formers: worked.formers.as_slice(),
        };
        match node_run(crew, &arriving, &past, lists, steps) {
            Ok(gives) => put(&mut worked, number, gives),
            Err(refusal) => {
                drop(put_at(&mut worked.nodes, number as usize, refusal.lists));
                return Err(undone(crew.alloc, worked, refusal.fault));
            }
        }
    }
    Ok(new_run(worked))
}

// The nodes, and how much of the run was redone. The nodes computed so far have what the new run has.
#[derive(Drop)]
struct SoFar {
    nodes: Nodes,
    // For each node, how it is restored to what it had.
    formers: Vec<Former>,
    redone: Redone,
}

// Stores what a node gives.
fn put(worked: &mut SoFar, number: u32, gives: NodeRun)
    requires nodes { AreNodes (length worked.old.formers.items) worked.old.nodes }
    requires inside { number < length worked.old.formers.items }
    requires again { worked.old.redone.again + gives.again < 2 ^ 64 }
    requires all { worked.old.redone.all + gives.all < 2 ^ 64 }
    ensures put { IsPut worked.old.nodes number gives.lists worked.new.nodes }
    ensures formers { worked.new.formers.items ≡ slice_set worked.old.formers.items number gives.former }
    ensures redone { worked.new.redone ≡ record { again = worked.old.redone.again + gives.again; all = worked.old.redone.all + gives.all } }
{
    let at = number as usize;
    worked.redone.again += gives.again;
    worked.redone.all += gives.all;
    // A call of `drop` releases what was there, because a call is proved only once per type.
    drop(put_at(&mut worked.nodes, at, gives.lists));
    drop(replace(&mut worked.formers[at], gives.former));
}

// There is no run, for this cause: the nodes are restored to what they had.
fn undone(alloc: Global, worked: SoFar, fault: RunFault) -> RunRefusal
    requires nodes { AreNodes (length worked.formers.items) worked.nodes }
    requires fit { AllFit worked.nodes worked.formers.items }
    ensures fault { result.fault ≡ fault }
    ensures back { (before : TheNodes) → CanComeBack before worked.nodes worked.formers.items → AreSameNodes before result.nodes }
{
    let SoFar {
        mut nodes,
        mut formers,
        ..
    } = worked;
    come_back(alloc, &mut nodes, formers.as_mut_slice());
    drop(formers);
    RunRefusal { fault, nodes }
}

// All nodes are computed.
fn new_run(worked: SoFar) -> NewRun
    ensures visits { result.run.visits ≡ worked.nodes.visits.items }
    ensures outputs { result.run.outputs ≡ worked.nodes.outputs.items }
    ensures checkpoints { result.checkpoints ≡ worked.nodes.checkpoints.items }
    ensures redone { result.redone ≡ worked.redone }
{
    let SoFar {
        nodes,
        formers,
        redone,
    } = worked;
    drop(formers);
    NewRun {
        run: Run {
            visits: List::from_vec(nodes.visits),
            outputs: List::from_vec(nodes.outputs),
        },
        checkpoints: List::from_vec(nodes.checkpoints),
        redone,
    }
}
