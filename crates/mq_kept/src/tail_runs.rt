// A server, a tandem or a fork-join whose first blocks stay: its last visits are edited in place.
ghost use Rattle.std.specs.Prelude.{◌≡◌, ◌+◌, ◌≤◌, length, true, IfErr, IfOk, OnErr, OnOk};
ghost use Rattle.mq_alike.specs.Again.{blocks_in};
ghost use Rattle.mq_core.specs.declared.model.Kind.{Kind as TheKind};
ghost use Rattle.mq_kept.specs.InTurn.{HasTail};
ghost use Rattle.mq_kept.specs.Formers.{with_checkpoints};
ghost use Rattle.mq_kept.specs.NodeRuns.{IsFaultAt, IsNodeKept};
ghost use Rattle.mq_kept.specs.TailRuns.{IsTailRun, IsTailServed, IsTailStaying};
ghost use Rattle.mq_kept.specs.Tails.{IsTailOf, tail_before};

use crate::checkpoints::Checkpoints;
use crate::former::{Former, NodeLists};
use crate::in_turn::{Behind, behind_first};
use crate::nodes::{NodeRefusal, NodeRun};
use crate::stations::Stays;
use crate::tails::{FormerTail, edit_tail};
use mq_alike::alike_is_first;
use mq_base::Steps;
use mq_core::{Kind, fates_are_in_time, orders_keep_items, sequences_go_by_fates};
use mq_engine::{RunFault, core_laws};
use mq_exits::Load;
use std::alloc::Global;
use std::mem::replace;
use std::sync::ledger::Ledger;

/// Returns whether a node of this kind can be edited in place after its first blocks: a server, a tandem or a
/// fork-join.
pub fn has_tail(kind: &Kind) -> bool
    ensures { result ≡ true → HasTail kind.now }
{
    match kind {
        Kind::Server(_) | Kind::Tandem(_) | Kind::ForkJoin(_) => true,
        Kind::Source | Kind::Delay(_) | Kind::Loss { .. } | Kind::Split(_) => false,
        Kind::Fork { .. } | Kind::Join | Kind::Trunk { .. } => false,
    }
}

/// Edits such a node in place after its first `first` blocks, and returns what it gives, with the numbers of redone and
/// of all blocks. Fails if a visit departs after the bound or memory runs out; then its lists are as before.
pub fn tail_run<L: Ledger>(
    alloc: Global,
    load: &Load,
    lists: NodeLists,
    first: u32,
    again: u64,
    all: u64,
    steps: &mut Steps<L>,
) -> Result<NodeRun, NodeRefusal>
    requires some { 1 ≤ load.now.block }
    requires large { load.now.block ≤ 65536 }
    requires stays { (kind : TheKind) × HasTail kind × IsTailStaying load.now kind first lists }
    ensures gives { IfOk result (IsTailRun load.now lists again all) }
    ensures cause { IfErr result (λ refusal. IsFaultAt load.now.plan.now load.now.rows.now load.now.number refusal.fault) }
    ensures back { IfErr result (λ refusal. refusal.lists ≡ lists) }
    ensures steps { steps.old ≤ steps.new }
    ensures spent { steps.new + first ≤ steps.old + blocks_in load.now.block (length load.now.arrivals.now.job) }
    ensures counted { OnOk result (steps.new + first ≡ steps.old + blocks_in load.now.block (length load.now.arrivals.now.job)) }
{
    let mut lists = lists;
    match tail_again(alloc, load, &mut lists, first, steps) {
        Ok((former, checkpoints)) => Ok(NodeRun {
            lists,
            former: Former::Tail(former, checkpoints),
            again,
            all,
        }),
        Err(fault) => Err(NodeRefusal { fault, lists }),
    }
}

// Edits such a node in place after its first `first` blocks, and returns what it had there. Fails if a visit departs
// after the bound or memory runs out; then its lists are as before.
fn tail_again<L: Ledger>(
    alloc: Global,
    load: &Load,
    lists: &mut NodeLists,
    first: u32,
    steps: &mut Steps<L>,
) -> Result<(FormerTail, Checkpoints), RunFault>
    requires some { 1 ≤ load.now.block }
    requires large { load.now.block ≤ 65536 }
    requires stays { (kind : TheKind) × HasTail kind × IsTailStaying load.now kind first lists.old }
    ensures kept { OnOk result (IsNodeKept load.now.plan.now load.now.rows.now load.now.block load.now.number lists.new) }
    ensures fits { IfOk result (λ former. IsTailOf former.0 lists.new) }
    ensures before { IfOk result (λ former. with_checkpoints former.1 (tail_before former.0 lists.new) ≡ lists.old) }
    ensures err { OnErr result (lists.new ≡ lists.old) }
    ensures cause { IfErr result (IsFaultAt load.now.plan.now load.now.rows.now load.now.number) }
    ensures steps { steps.old ≤ steps.new }
    ensures spent { steps.new + first ≤ steps.old + blocks_in load.now.block (length load.now.arrivals.now.job) }
    ensures counted { OnOk result (steps.new + first ≡ steps.old + blocks_in load.now.block (length load.now.arrivals.now.job)) }
{
    alike_is_first();
    let stays = Stays {
        fates: &lists.visits.fate,
        checkpoints: &lists.checkpoints,
        blocks: first,
    };
    let Behind { times, checkpoints } = behind_first(alloc, load, &stays, steps)?;
    let put = tail_put(alloc, load, lists, first, times.as_slice(), checkpoints);
    drop(times);
    put
}

// Puts these departures, after the first `first` blocks, and these checkpoints into a node whose jobs keep their order,
// and returns what it had before.
fn tail_put(
    alloc: Global,
    load: &Load,
    lists: &mut NodeLists,
    first: u32,
    departs: &[u64],
    checkpoints: Checkpoints,
) -> Result<(FormerTail, Checkpoints), RunFault>
    requires { (kind : TheKind) × IsTailServed load.now kind first lists.old departs.now checkpoints }
    ensures kept { OnOk result (IsNodeKept load.now.plan.now load.now.rows.now load.now.block load.now.number lists.new) }
    ensures fits { IfOk result (λ former. IsTailOf former.0 lists.new) }
    ensures before { IfOk result (λ former. with_checkpoints former.1 (tail_before former.0 lists.new) ≡ lists.old) }
    ensures err { OnErr result (lists.new ≡ lists.old) }
    ensures cause { IfErr result (IsFaultAt load.now.plan.now load.now.rows.now load.now.number) }
{
    core_laws();
    orders_keep_items();
    sequences_go_by_fates();
    fates_are_in_time();
    alike_is_first();
    let from = (first * load.block) as usize;
    let (jobs, times) = (load.arrivals.job.as_slice(), load.arrivals.time.as_slice());
    match edit_tail(
        alloc,
        load.plan,
        load.number,
        lists,
        from,
        &jobs[from..],
        &times[from..],
        departs,
    ) {
        Ok(former) => {
            let was = replace(&mut lists.checkpoints, checkpoints);
            Ok((former, was))
        }
        Err(fault) => {
            drop(checkpoints);
            Err(fault)
        }
    }
}
