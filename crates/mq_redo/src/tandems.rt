// A tandem, after the blocks that stay.
ghost use Rattle.std.specs.Prelude.{◌≡◌, ◌+◌, ◌*◌, ◌≤◌, ◌++◌, ℕ, List as Items, length, map, take, IfOk, OnOk};
ghost use Rattle.mq_core.specs.Handling.{demand_of_job};
ghost use Rattle.mq_core.specs.declared.model.Fate.{Fate as TheFate};
ghost use Rattle.mq_core.specs.declared.model.Fate.TheVariants.{Departs};
ghost use Rattle.mq_core.specs.declared.model.Kind.TheVariants.{Tandem};
ghost use Rattle.mq_redo.specs.Behind.{stream_behind};
ghost use Rattle.mq_redo.specs.Kept.{IsKeptTandem, IsTandemStaying, coming_as};
ghost use Rattle.mq_redo.specs.Stages.{places_of};
ghost use Rattle.mq_stations.specs.Leaving.{AreServed, IsLoad};

use crate::behind::{carry_before, last_of};
use crate::blocks::{Done, redone_last};
use mq_alike::alike_is_first;
use mq_asked::{Asked, all_asked_of};
use mq_base::{List, OutOfMemory, Steps};
use mq_core::{Demand, Rows, Stage, Stream};
use mq_scan::{Blocks, Step, cut};
use mq_stations::{stage_demands, stage_places};
use mq_tandem::{Latest, TandemStep};
use std::alloc::Global;
use std::sync::ledger::Ledger;

/// Returns the departures of the jobs after the first `first` blocks from a tandem, in ticks, and after each later
/// block the latest departures from the stages. Those first blocks of an earlier run stay, and `carries` begins with
/// the latest departures after each of them. Only the later jobs are read. Fails only if memory runs out.
pub fn staged_behind<L: Ledger>(
    alloc: Global,
    rows: &Rows,
    stages: &List<Stage>,
    arrivals: &Stream,
    blocks: &Blocks,
    carries: &[Latest],
    first: u32,
    steps: &mut Steps<L>,
) -> Result<Done<Latest>, OutOfMemory>
    requires load { IsLoad rows.now (Tandem stages.now) arrivals.now }
    requires all { blocks.now.n ≡ length arrivals.now.time }
    requires few { blocks.now.block ≤ 65536 }
    requires inside { first * blocks.now.block ≤ blocks.now.n }
    requires kept { (fates : Items TheFate) × IsTandemStaying stages.now (coming_as rows.now arrivals.now) blocks.now.block first fates carries.now }
    ensures served { IfOk result (λ done. (times : Items ℕ) → IsTandemStaying stages.now (coming_as rows.now arrivals.now) blocks.now.block first (map (λ time. Departs time) times) carries.now → AreServed rows.now (Tandem stages.now) arrivals.now (take (first * blocks.now.block) times ++ done.times.items)) }
    ensures kept { IfOk result (λ done. (fates : Items TheFate) → IsTandemStaying stages.now (coming_as rows.now arrivals.now) blocks.now.block first fates carries.now → IsKeptTandem stages.now (coming_as rows.now arrivals.now) blocks.now.block (take (first * blocks.now.block) fates ++ map (λ time. Departs time) done.times.items) (take first carries.now ++ done.carries.items)) }
    ensures steps { steps.old ≤ steps.new }
    ensures spent { steps.new + first ≤ steps.old + blocks.now.blocks }
    ensures counted { OnOk result (steps.new + first ≡ steps.old + blocks.now.blocks) }
{
    let last = last_of(alloc, arrivals, first * blocks.block)?;
    let behind = last.stream();
    let Ok(asked) = stage_demands(alloc, stages) else {
        drop(last);
        return Err(OutOfMemory);
    };
    let Ok(demands) = all_asked_of(alloc, rows, &asked, &behind.job) else {
        drop(asked);
        drop(last);
        return Err(OutOfMemory);
    };
    let Ok(places) = stage_places(alloc, stages) else {
        drop(demands);
        drop(asked);
        drop(last);
        return Err(OutOfMemory);
    };
    let done = staged_last(
        alloc, rows, stages, arrivals, behind, &asked, &demands, &places, blocks, carries, first,
        steps,
    );
    drop(places);
    drop(demands);
    drop(asked);
    drop(last);
    done
}

// Does the work of `staged_behind` for `behind`, the jobs after those blocks, given what they ask for.
fn staged_last<L: Ledger>(
    alloc: Global,
    rows: &Rows,
    stages: &List<Stage>,
    arrivals: &Stream,
    behind: &Stream,
    asked: &List<Demand>,
    demands: &List<Asked>,
    places: &List<u8>,
    blocks: &Blocks,
    carries: &[Latest],
    first: u32,
    steps: &mut Steps<L>,
) -> Result<Done<Latest>, OutOfMemory>
    requires load { IsLoad rows.now (Tandem stages.now) arrivals.now }
    requires all { blocks.now.n ≡ length arrivals.now.time }
    requires few { blocks.now.block ≤ 65536 }
    requires inside { first * blocks.now.block ≤ blocks.now.n }
    requires kept { (fates : Items TheFate) × IsTandemStaying stages.now (coming_as rows.now arrivals.now) blocks.now.block first fates carries.now }
    requires behind { behind.now ≡ stream_behind (first * blocks.now.block) arrivals.now }
    requires asked { asked.now ≡ map (λ stage. stage.demand) stages.now }
    requires demands { demands.now ≡ map (λ demand. map (demand_of_job rows.now demand) behind.now.job) asked.now }
    requires places { places.now ≡ places_of stages.now }
    ensures served { IfOk result (λ done. (times : Items ℕ) → IsTandemStaying stages.now (coming_as rows.now arrivals.now) blocks.now.block first (map (λ time. Departs time) times) carries.now → AreServed rows.now (Tandem stages.now) arrivals.now (take (first * blocks.now.block) times ++ done.times.items)) }
    ensures kept { IfOk result (λ done. (fates : Items TheFate) → IsTandemStaying stages.now (coming_as rows.now arrivals.now) blocks.now.block first fates carries.now → IsKeptTandem stages.now (coming_as rows.now arrivals.now) blocks.now.block (take (first * blocks.now.block) fates ++ map (λ time. Departs time) done.times.items) (take first carries.now ++ done.carries.items)) }
    ensures steps { steps.old ≤ steps.new }
    ensures spent { steps.new + first ≤ steps.old + blocks.now.blocks }
    ensures counted { OnOk result (steps.new + first ≡ steps.old + blocks.now.blocks) }
{
    alike_is_first();
    let _ = arrivals;
    let _ = asked;
    let step = TandemStep::new(behind, demands, places);
    let carry = carry_before(carries, first, step.first());
    redone_last(alloc, &step, &cut(step.count(), blocks.block), carry, steps)
}
