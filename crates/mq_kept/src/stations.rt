// A station whose arrivals differ from those of the kept run: it keeps the blocks before the first difference, and
// redoes the others.
ghost use Rattle.std.specs.Prelude.{◌≡◌, ◌+◌, ◌≤◌, Some, length, slice_get, IfOk, OnOk};
ghost use Rattle.mq_alike.specs.Again.{Coming as TheComing, blocks_in};
ghost use Rattle.mq_core.specs.Came.{came_in};
ghost use Rattle.mq_core.specs.Sequences.{sequence_fates, stream_in_order};
ghost use Rattle.mq_core.specs.Streams.{sorted};
ghost use Rattle.mq_core.specs.declared.model.Kind.TheVariants.{Delay, Split};
ghost use Rattle.mq_core.specs.declared.model.Node.{Node as TheNode};
ghost use Rattle.mq_core.specs.declared.model.Stream.{Stream as TheStream};
ghost use Rattle.mq_exits.specs.Keeping.{IsLeftAt};
ghost use Rattle.mq_exits.specs.Loads.{IsLoaded};
ghost use Rattle.mq_kept.specs.InTurn.{HasTail};
ghost use Rattle.mq_kept.specs.KeptNodes.{IsKeptNode, IsNodeOf, IsStayingNode, blocks_behind};
ghost use Rattle.mq_kinds.specs.Table.{IsWhole};
ghost use Rattle.mq_redo.specs.Kept.{coming_as};
ghost use Rattle.mq_stations.specs.Leaving.{AreDepartures};

use crate::checkpoints::Checkpoints;
use crate::in_turn::{Behind, behind_first};
use mq_alike::alike_is_first;
use mq_base::{List, OutOfMemory, Steps};
use mq_core::{Demand, Fates, Kind, Route};
use mq_crew::{Crew, Open};
use mq_exits::{Load, station_of};
use mq_kinds::{Left, delay_left, station_whole};
use mq_redo::{all_departures, blocks_hold, delayed_again, routed_again};
use mq_scan::cut;
use std::alloc::Global;
use std::sync::ledger::Ledger;
use std::thread::Threads;

/// What stays of a node's kept run.
#[derive(Clone, Copy)]
pub struct Stays<'a> {
    /// The fates of its kept visits.
    pub fates: &'a Fates,
    /// What is kept of its blocks.
    pub checkpoints: &'a Checkpoints,
    /// The number of first blocks that stay.
    pub blocks: u32,
}

/// What leaves a station that was redone, and what is kept of its blocks.
#[derive(Drop)]
pub struct Reworked {
    pub left: Left,
    pub checkpoints: Checkpoints,
}

/// Returns what leaves a station that is redone after the blocks that stay. A loss station and a trunk group are
/// computed whole, and the jobs of a source depart as they come. Fails only if memory runs out.
pub fn work_again<R: Threads + Sync, L: Ledger>(
    crew: &Crew<R, Open>,
    load: &Load,
    stays: &Stays,
    steps: &mut Steps<L>,
) -> Result<Reworked, OutOfMemory>
    requires loaded { IsLoaded load.now.plan.now load.now.rows.now load.now.number load.now.arrivals.now }
    requires some { 1 ≤ load.now.block }
    requires large { load.now.block ≤ 65536 }
    requires stays { (node : TheNode) → slice_get load.now.plan.now.net.nodes load.now.number ≡ Some node → (old : TheComing) × IsStayingNode node.kind old (coming_as load.now.rows.now load.now.arrivals.now) load.now.block stays.now }
    ensures left { IfOk result (λ r. IsLeftAt load.now.plan.now load.now.rows.now load.now.number load.now.arrivals.now r.left) }
    ensures checkpoints { IfOk result (λ r. (node : TheNode) → slice_get load.now.plan.now.net.nodes load.now.number ≡ Some node → IsKeptNode node.kind (coming_as load.now.rows.now load.now.arrivals.now) load.now.block (sequence_fates load.now.rows.now node.kind (came_in load.now.arrivals.now)) r.checkpoints) }
    ensures steps { steps.old ≤ steps.new }
    ensures spent { (node : TheNode) → slice_get load.now.plan.now.net.nodes load.now.number ≡ Some node → steps.new ≤ steps.old + blocks_behind load.now.block node.kind (length load.now.arrivals.now.job) stays.now.blocks }
    ensures counted { OnOk result ((node : TheNode) → slice_get load.now.plan.now.net.nodes load.now.number ≡ Some node → steps.new ≡ steps.old + blocks_behind load.now.block node.kind (length load.now.arrivals.now.job) stays.now.blocks) }
{
    match &load.plan.net.nodes.get(load.number as usize).kind {
        Kind::Server(_) | Kind::Tandem(_) | Kind::ForkJoin(_) => {
            in_turn_again(crew.alloc, load, stays, steps)
        }
        Kind::Delay(demand) => delay_again(crew, load, demand, stays, steps),
        Kind::Split(route) => split_again(crew.alloc, load, route, stays, steps),
        Kind::Source | Kind::Loss { .. } | Kind::Trunk { .. } | Kind::Fork { .. } | Kind::Join => {
            worked_anew(crew.alloc, load)
        }
    }
}

// Redoes a server, a tandem or a fork-join.
fn in_turn_again<L: Ledger>(
    alloc: Global,
    load: &Load,
    stays: &Stays,
    steps: &mut Steps<L>,
) -> Result<Reworked, OutOfMemory>
    requires loaded { IsLoaded load.now.plan.now load.now.rows.now load.now.number load.now.arrivals.now }
    requires some { 1 ≤ load.now.block }
    requires large { load.now.block ≤ 65536 }
    requires tail { (node : TheNode) → slice_get load.now.plan.now.net.nodes load.now.number ≡ Some node → HasTail node.kind }
    requires stays { (node : TheNode) → slice_get load.now.plan.now.net.nodes load.now.number ≡ Some node → (old : TheComing) × IsStayingNode node.kind old (coming_as load.now.rows.now load.now.arrivals.now) load.now.block stays.now }
    ensures left { IfOk result (λ r. IsLeftAt load.now.plan.now load.now.rows.now load.now.number load.now.arrivals.now r.left) }
    ensures checkpoints { IfOk result (λ r. (node : TheNode) → slice_get load.now.plan.now.net.nodes load.now.number ≡ Some node → IsKeptNode node.kind (coming_as load.now.rows.now load.now.arrivals.now) load.now.block (sequence_fates load.now.rows.now node.kind (came_in load.now.arrivals.now)) r.checkpoints) }
    ensures steps { steps.old ≤ steps.new }
    ensures spent { steps.new + stays.now.blocks ≤ steps.old + blocks_in load.now.block (length load.now.arrivals.now.job) }
    ensures counted { OnOk result (steps.new + stays.now.blocks ≡ steps.old + blocks_in load.now.block (length load.now.arrivals.now.job)) }
{
    alike_is_first();
    let Behind { times, checkpoints } = behind_first(alloc, load, stays, steps)?;
    match all_departures(alloc, stays.fates, stays.blocks * load.block, times) {
        Ok(times) => Ok(Reworked {
            left: Left::InTurn(List::from_vec(times)),
            checkpoints,
        }),
        Err(fault) => {
            drop(checkpoints);
            Err(fault)
        }
    }
}

// Redoes a delay.
fn delay_again<R: Threads + Sync, L: Ledger>(
    crew: &Crew<R, Open>,
    load: &Load,
    demand: &Demand,
    stays: &Stays,
    steps: &mut Steps<L>,
) -> Result<Reworked, OutOfMemory>
    requires loaded { IsLoaded load.now.plan.now load.now.rows.now load.now.number load.now.arrivals.now }
    requires some { 1 ≤ load.now.block }
    requires large { load.now.block ≤ 65536 }
    requires node { IsNodeOf load.now.plan.now load.now.number (Delay demand.now) }
    requires stays { (old : TheComing) × IsStayingNode (Delay demand.now) old (coming_as load.now.rows.now load.now.arrivals.now) load.now.block stays.now }
    ensures left { IfOk result (λ r. IsLeftAt load.now.plan.now load.now.rows.now load.now.number load.now.arrivals.now r.left) }
    ensures checkpoints { IfOk result (λ r. IsKeptNode (Delay demand.now) (coming_as load.now.rows.now load.now.arrivals.now) load.now.block (sequence_fates load.now.rows.now (Delay demand.now) (came_in load.now.arrivals.now)) r.checkpoints) }
    ensures steps { steps.old ≤ steps.new }
    ensures spent { steps.new + stays.now.blocks ≤ steps.old + blocks_in load.now.block (length load.now.arrivals.now.job) }
    ensures counted { OnOk result (steps.new + stays.now.blocks ≡ steps.old + blocks_in load.now.block (length load.now.arrivals.now.job)) }
{
    alike_is_first();
    let blocks = cut(load.arrivals.time.len() as u32, load.block);
    blocks_hold(&blocks);
    let (carries, first) = (stays.checkpoints.delay(), stays.blocks);
    let done = delayed_again(
        crew.alloc,
        load.rows,
        demand,
        load.arrivals,
        &blocks,
        stays.fates,
        carries,
        first,
        steps,
    )?;
    let checkpoints = Checkpoints::Delay(List::from_vec(done.carries));
    match delay_leaves(crew, load, List::from_vec(done.times)) {
        Ok(left) => Ok(Reworked { left, checkpoints }),
        Err(fault) => {
            drop(checkpoints);
            Err(fault)
        }
    }
}

// Returns what leaves a delay whose jobs depart at these times, in ticks, by position.
fn delay_leaves<R: Threads + Sync>(
    crew: &Crew<R, Open>,
    load: &Load,
    departs: List<u64>,
) -> Result<Left, OutOfMemory>
    requires loaded { IsLoaded load.now.plan.now load.now.rows.now load.now.number load.now.arrivals.now }
    requires some { 1 ≤ load.now.block }
    requires overtake { (node : TheNode) → slice_get load.now.plan.now.net.nodes load.now.number ≡ Some node → (stream : TheStream) → stream_in_order node.kind stream ≡ sorted stream }
    requires departs { (node : TheNode) → slice_get load.now.plan.now.net.nodes load.now.number ≡ Some node → AreDepartures load.now.rows.now node.kind load.now.arrivals.now departs }
    ensures { IfOk result (IsLeftAt load.now.plan.now load.now.rows.now load.now.number load.now.arrivals.now) }
{
    let station = station_of(load.plan, load.rows, load.number, load.arrivals, load.block);
    delay_left(crew, &station, departs)
}

// Redoes a split.
fn split_again<L: Ledger>(
    alloc: Global,
    load: &Load,
    route: &Route,
    stays: &Stays,
    steps: &mut Steps<L>,
) -> Result<Reworked, OutOfMemory>
    requires loaded { IsLoaded load.now.plan.now load.now.rows.now load.now.number load.now.arrivals.now }
    requires some { 1 ≤ load.now.block }
    requires large { load.now.block ≤ 65536 }
    requires node { IsNodeOf load.now.plan.now load.now.number (Split route.now) }
    requires stays { (old : TheComing) × IsStayingNode (Split route.now) old (coming_as load.now.rows.now load.now.arrivals.now) load.now.block stays.now }
    ensures left { IfOk result (λ r. IsLeftAt load.now.plan.now load.now.rows.now load.now.number load.now.arrivals.now r.left) }
    ensures checkpoints { IfOk result (λ r. IsKeptNode (Split route.now) (coming_as load.now.rows.now load.now.arrivals.now) load.now.block (sequence_fates load.now.rows.now (Split route.now) (came_in load.now.arrivals.now)) r.checkpoints) }
    ensures steps { steps.old ≤ steps.new }
    ensures spent { steps.new + stays.now.blocks ≤ steps.old + blocks_in load.now.block (length load.now.arrivals.now.job) }
    ensures counted { OnOk result (steps.new + stays.now.blocks ≡ steps.old + blocks_in load.now.block (length load.now.arrivals.now.job)) }
{
    alike_is_first();
    let blocks = cut(load.arrivals.job.len() as u32, load.block);
    blocks_hold(&blocks);
    let (outs, carries) = (stays.checkpoints.outs(), stays.checkpoints.split());
    let rerouted = routed_again(
        alloc,
        load.rows,
        route,
        load.arrivals,
        &blocks,
        outs,
        carries,
        stays.blocks,
        steps,
    )?;
    Ok(Reworked {
        left: Left::Passing(rerouted.streams),
        checkpoints: Checkpoints::Split {
            carries: List::from_vec(rerouted.carries),
            outs: List::from_vec(rerouted.outs),
        },
    })
}

// Computes a station of whose blocks nothing is kept.
fn worked_anew(alloc: Global, load: &Load) -> Result<Reworked, OutOfMemory>
    requires loaded { IsLoaded load.now.plan.now load.now.rows.now load.now.number load.now.arrivals.now }
    requires some { 1 ≤ load.now.block }
    requires whole { (node : TheNode) → slice_get load.now.plan.now.net.nodes load.now.number ≡ Some node → IsWhole node.kind }
    ensures { IfOk result (λ r. IsLeftAt load.now.plan.now load.now.rows.now load.now.number load.now.arrivals.now r.left) }
{
    let station = station_of(load.plan, load.rows, load.number, load.arrivals, load.block);
    let left = station_whole(alloc, &station)?;
    Ok(Reworked {
        left,
        checkpoints: Checkpoints::Nothing,
    })
}
