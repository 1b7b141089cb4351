// A server, a tandem or a fork-join after the blocks that stay.
ghost use Rattle.std.specs.Prelude.{◌≡◌, ◌+◌, ◌*◌, ◌≤◌, Some, length, slice_get, IfOk, OnOk};
ghost use Rattle.mq_alike.specs.Again.{Coming as TheComing, blocks_in};
ghost use Rattle.mq_core.specs.declared.model.Kind.TheVariants.{ForkJoin, Server, Tandem};
ghost use Rattle.mq_core.specs.declared.model.Node.{Node as TheNode};
ghost use Rattle.mq_exits.specs.Loads.{IsLoaded};
ghost use Rattle.mq_kept.specs.InTurn.{HasTail, IsBehind};
ghost use Rattle.mq_kept.specs.KeptNodes.{IsStayingNode};
ghost use Rattle.mq_redo.specs.Kept.{coming_as};
ghost use Rattle.mq_stations.specs.Leaving.{IsLoad};

use crate::checkpoints::Checkpoints;
use crate::stations::Stays;
use mq_alike::alike_is_first;
use mq_base::{List, OutOfMemory, Steps};
use mq_core::{Demand, Kind, Stage};
use mq_exits::Load;
use mq_redo::{all_carries, blocks_hold, branched_behind, served_behind, staged_behind};
use mq_scan::{Blocks, cut};
use std::alloc::Global;
use std::sync::ledger::Ledger;

/// What a server, a tandem or a fork-join does after the blocks that stay.
#[derive(Drop)]
pub struct Behind {
    /// When the jobs after those blocks depart, in ticks.
    pub times: Vec<u64>,
    /// What is kept of all blocks.
    pub checkpoints: Checkpoints,
}

/// Returns what a server, a tandem or a fork-join does after the blocks that stay. Earlier jobs aren't read. Fails only
/// if memory runs out.
pub fn behind_first<L: Ledger>(
    alloc: Global,
    load: &Load,
    stays: &Stays,
    steps: &mut Steps<L>,
) -> Result<Behind, OutOfMemory>
    requires loaded { IsLoaded load.now.plan.now load.now.rows.now load.now.number load.now.arrivals.now }
    requires some { 1 ≤ load.now.block }
    requires large { load.now.block ≤ 65536 }
    requires tail { (node : TheNode) → slice_get load.now.plan.now.net.nodes load.now.number ≡ Some node → HasTail node.kind }
    requires stays { (node : TheNode) → slice_get load.now.plan.now.net.nodes load.now.number ≡ Some node → (old : TheComing) × IsStayingNode node.kind old (coming_as load.now.rows.now load.now.arrivals.now) load.now.block stays.now }
    ensures done { IfOk result (λ behind. (node : TheNode) → slice_get load.now.plan.now.net.nodes load.now.number ≡ Some node → IsBehind node.kind load.now.rows.now load.now.arrivals.now load.now.block stays.now behind) }
    ensures steps { steps.old ≤ steps.new }
    ensures spent { steps.new + stays.now.blocks ≤ steps.old + blocks_in load.now.block (length load.now.arrivals.now.job) }
    ensures counted { OnOk result (steps.new + stays.now.blocks ≡ steps.old + blocks_in load.now.block (length load.now.arrivals.now.job)) }
{
    alike_is_first();
    let blocks = cut(load.arrivals.time.len() as u32, load.block);
    blocks_hold(&blocks);
    match &load.plan.net.nodes.get(load.number as usize).kind {
        Kind::Server(demand) => server_behind(alloc, load, demand, stays, &blocks, steps),
        Kind::Tandem(stages) => tandem_behind(alloc, load, stages, stays, &blocks, steps),
        Kind::ForkJoin(branches) => forkjoin_behind(alloc, load, branches, stays, &blocks, steps),
        Kind::Source | Kind::Delay(_) | Kind::Loss { .. } | Kind::Split(_) => unreachable!(),
        Kind::Fork { .. } | Kind::Join | Kind::Trunk { .. } => unreachable!(),
    }
}

// Does what `behind_first` does, for a server.
fn server_behind<L: Ledger>(
    alloc: Global,
    load: &Load,
    demand: &Demand,
    stays: &Stays,
    blocks: &Blocks,
    steps: &mut Steps<L>,
) -> Result<Behind, OutOfMemory>
    requires load { IsLoad load.now.rows.now (Server demand.now) load.now.arrivals.now }
    requires all { blocks.now.n ≡ length load.now.arrivals.now.time }
    requires few { blocks.now.block ≤ 65536 }
    requires inside { stays.now.blocks * blocks.now.block ≤ blocks.now.n }
    requires stays { (old : TheComing) × IsStayingNode (Server demand.now) old (coming_as load.now.rows.now load.now.arrivals.now) blocks.now.block stays.now }
    ensures done { IfOk result (IsBehind (Server demand.now) load.now.rows.now load.now.arrivals.now blocks.now.block stays.now) }
    ensures steps { steps.old ≤ steps.new }
    ensures spent { steps.new + stays.now.blocks ≤ steps.old + blocks.now.blocks }
    ensures counted { OnOk result (steps.new + stays.now.blocks ≡ steps.old + blocks.now.blocks) }
{
    let kept = stays.checkpoints.server();
    let done = served_behind(
        alloc,
        load.rows,
        demand,
        load.arrivals,
        blocks,
        kept,
        stays.blocks,
        steps,
    )?;
    let all = all_carries(alloc, kept, stays.blocks, done)?;
    Ok(Behind {
        times: all.times,
        checkpoints: Checkpoints::Server(List::from_vec(all.carries)),
    })
}

// Does what `behind_first` does, for a tandem.
fn tandem_behind<L: Ledger>(
    alloc: Global,
    load: &Load,
    stages: &List<Stage>,
    stays: &Stays,
    blocks: &Blocks,
    steps: &mut Steps<L>,
) -> Result<Behind, OutOfMemory>
    requires load { IsLoad load.now.rows.now (Tandem stages.now) load.now.arrivals.now }
    requires all { blocks.now.n ≡ length load.now.arrivals.now.time }
    requires few { blocks.now.block ≤ 65536 }
    requires inside { stays.now.blocks * blocks.now.block ≤ blocks.now.n }
    requires stays { (old : TheComing) × IsStayingNode (Tandem stages.now) old (coming_as load.now.rows.now load.now.arrivals.now) blocks.now.block stays.now }
    ensures done { IfOk result (IsBehind (Tandem stages.now) load.now.rows.now load.now.arrivals.now blocks.now.block stays.now) }
    ensures steps { steps.old ≤ steps.new }
    ensures spent { steps.new + stays.now.blocks ≤ steps.old + blocks.now.blocks }
    ensures counted { OnOk result (steps.new + stays.now.blocks ≡ steps.old + blocks.now.blocks) }
{
    let kept = stays.checkpoints.tandem();
    let done = staged_behind(
        alloc,
        load.rows,
        stages,
        load.arrivals,
        blocks,
        kept,
        stays.blocks,
        steps,
    )?;
    let all = all_carries(alloc, kept, stays.blocks, done)?;
    Ok(Behind {
        times: all.times,
        checkpoints: Checkpoints::Tandem(List::from_vec(all.carries)),
    })
}

// Does what `behind_first` does, for a fork-join.
fn forkjoin_behind<L: Ledger>(
    alloc: Global,
    load: &Load,
    branches: &List<List<Demand>>,
    stays: &Stays,
    blocks: &Blocks,
    steps: &mut Steps<L>,
) -> Result<Behind, OutOfMemory>
    requires load { IsLoad load.now.rows.now (ForkJoin branches.now) load.now.arrivals.now }
    requires all { blocks.now.n ≡ length load.now.arrivals.now.time }
    requires few { blocks.now.block ≤ 65536 }
    requires inside { stays.now.blocks * blocks.now.block ≤ blocks.now.n }
    requires stays { (old : TheComing) × IsStayingNode (ForkJoin branches.now) old (coming_as load.now.rows.now load.now.arrivals.now) blocks.now.block stays.now }
    ensures done { IfOk result (IsBehind (ForkJoin branches.now) load.now.rows.now load.now.arrivals.now blocks.now.block stays.now) }
    ensures steps { steps.old ≤ steps.new }
    ensures spent { steps.new + stays.now.blocks ≤ steps.old + blocks.now.blocks }
    ensures counted { OnOk result (steps.new + stays.now.blocks ≡ steps.old + blocks.now.blocks) }
{
    let kept = stays.checkpoints.forkjoin();
    let done = branched_behind(
        alloc,
        load.rows,
        branches,
        load.arrivals,
        blocks,
        kept,
        stays.blocks,
        steps,
    )?;
    let all = all_carries(alloc, kept, stays.blocks, done)?;
    Ok(Behind {
        times: all.times,
        checkpoints: Checkpoints::ForkJoin(List::from_vec(all.carries)),
    })
}
