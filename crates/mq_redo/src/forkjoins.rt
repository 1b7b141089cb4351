// A fork-join, after the blocks that stay.
ghost use Rattle.std.specs.Prelude.{◌≡◌, ◌+◌, ◌*◌, ◌≤◌, ◌++◌, ℕ, List as Items, length, map, take, IfOk, OnOk};
ghost use Rattle.std.specs.List.{flat_map};
ghost use Rattle.mq_core.specs.Handling.{demand_of_job};
ghost use Rattle.mq_core.specs.declared.model.Fate.{Fate as TheFate};
ghost use Rattle.mq_core.specs.declared.model.Fate.TheVariants.{Departs};
ghost use Rattle.mq_core.specs.declared.model.Kind.TheVariants.{ForkJoin};
ghost use Rattle.mq_forkjoin.specs.Servers.{begins_of};
ghost use Rattle.mq_redo.specs.Branches.{begins_with};
ghost use Rattle.mq_redo.specs.Behind.{stream_behind};
ghost use Rattle.mq_redo.specs.Kept.{IsForkJoinStaying, IsKeptForkJoin, coming_as};
ghost use Rattle.mq_stations.specs.Leaving.{AreServed, IsLoad};

use crate::behind::{carry_before, last_of};
use crate::blocks::{Done, redone_last};
use mq_alike::alike_is_first;
use mq_asked::{Asked, all_asked_of};
use mq_base::{List, OutOfMemory, Steps};
use mq_core::{Demand, Rows, Stream};
use mq_forkjoin::ForkJoinStep;
use mq_scan::{Blocks, Step, cut};
use mq_stations::branch_demands;
use std::alloc::Global;
use std::sync::ledger::Ledger;

/// Returns the departures of the jobs after the first `first` blocks from a fork-join, in ticks, and after each later
/// block the latest departure from each server. Those first blocks of an earlier run stay, and `carries` begins with
/// the latest departures after each of them. Only the later jobs are read. Fails only if memory runs out.
pub fn branched_behind<L: Ledger>(
    alloc: Global,
    rows: &Rows,
    branches: &List<List<Demand>>,
    arrivals: &Stream,
    blocks: &Blocks,
    carries: &[[u64; 8]],
    first: u32,
    steps: &mut Steps<L>,
) -> Result<Done<[u64; 8]>, OutOfMemory>
    requires load { IsLoad rows.now (ForkJoin branches.now) arrivals.now }
    requires all { blocks.now.n ≡ length arrivals.now.time }
    requires few { blocks.now.block ≤ 65536 }
    requires inside { first * blocks.now.block ≤ blocks.now.n }
    requires kept { (fates : Items TheFate) × IsForkJoinStaying branches.now (coming_as rows.now arrivals.now) blocks.now.block first fates carries.now }
    ensures served { IfOk result (λ done. (times : Items ℕ) → IsForkJoinStaying branches.now (coming_as rows.now arrivals.now) blocks.now.block first (map (λ time. Departs time) times) carries.now → AreServed rows.now (ForkJoin branches.now) arrivals.now (take (first * blocks.now.block) times ++ done.times.items)) }
    ensures kept { IfOk result (λ done. (fates : Items TheFate) → IsForkJoinStaying branches.now (coming_as rows.now arrivals.now) blocks.now.block first fates carries.now → IsKeptForkJoin branches.now (coming_as rows.now arrivals.now) blocks.now.block (take (first * blocks.now.block) fates ++ map (λ time. Departs time) done.times.items) (take first carries.now ++ done.carries.items)) }
    ensures steps { steps.old ≤ steps.new }
    ensures spent { steps.new + first ≤ steps.old + blocks.now.blocks }
    ensures counted { OnOk result (steps.new + first ≡ steps.old + blocks.now.blocks) }
{
    let last = last_of(alloc, arrivals, first * blocks.block)?;
    let behind = last.stream();
    let Ok(asked) = branch_demands(alloc, branches) else {
        drop(last);
        return Err(OutOfMemory);
    };
    let Ok(demands) = all_asked_of(alloc, rows, &asked, &behind.job) else {
        drop(asked);
        drop(last);
        return Err(OutOfMemory);
    };
    let Ok(begins) = branch_begins(alloc, branches) else {
        drop(demands);
        drop(asked);
        drop(last);
        return Err(OutOfMemory);
    };
    let done = branched_last(
        alloc, rows, branches, arrivals, behind, &asked, &demands, &begins, blocks, carries, first,
        steps,
    );
    drop(begins);
    drop(demands);
    drop(asked);
    drop(last);
    done
}

// Does the work of `branched_behind` for `behind`, the jobs after those blocks, given what they ask for.
fn branched_last<L: Ledger>(
    alloc: Global,
    rows: &Rows,
    branches: &List<List<Demand>>,
    arrivals: &Stream,
    behind: &Stream,
    asked: &List<Demand>,
    demands: &List<Asked>,
    begins: &List<bool>,
    blocks: &Blocks,
    carries: &[[u64; 8]],
    first: u32,
    steps: &mut Steps<L>,
) -> Result<Done<[u64; 8]>, OutOfMemory>
    requires load { IsLoad rows.now (ForkJoin branches.now) arrivals.now }
    requires all { blocks.now.n ≡ length arrivals.now.time }
    requires few { blocks.now.block ≤ 65536 }
    requires inside { first * blocks.now.block ≤ blocks.now.n }
    requires kept { (fates : Items TheFate) × IsForkJoinStaying branches.now (coming_as rows.now arrivals.now) blocks.now.block first fates carries.now }
    requires behind { behind.now ≡ stream_behind (first * blocks.now.block) arrivals.now }
    requires asked { asked.now ≡ flat_map (λ demands. demands) branches.now }
    requires demands { demands.now ≡ map (λ demand. map (demand_of_job rows.now demand) behind.now.job) asked.now }
    requires begins { begins.now ≡ begins_of branches.now }
    ensures served { IfOk result (λ done. (times : Items ℕ) → IsForkJoinStaying branches.now (coming_as rows.now arrivals.now) blocks.now.block first (map (λ time. Departs time) times) carries.now → AreServed rows.now (ForkJoin branches.now) arrivals.now (take (first * blocks.now.block) times ++ done.times.items)) }
    ensures kept { IfOk result (λ done. (fates : Items TheFate) → IsForkJoinStaying branches.now (coming_as rows.now arrivals.now) blocks.now.block first fates carries.now → IsKeptForkJoin branches.now (coming_as rows.now arrivals.now) blocks.now.block (take (first * blocks.now.block) fates ++ map (λ time. Departs time) done.times.items) (take first carries.now ++ done.carries.items)) }
    ensures steps { steps.old ≤ steps.new }
    ensures spent { steps.new + first ≤ steps.old + blocks.now.blocks }
    ensures counted { OnOk result (steps.new + first ≡ steps.old + blocks.now.blocks) }
{
    alike_is_first();
    let _ = arrivals;
    let _ = asked;
    let step = ForkJoinStep::new(behind, demands, begins);
    let carry = carry_before(carries, first, step.first());
    redone_last(alloc, &step, &cut(step.count(), blocks.block), carry, steps)
}

// Returns for each server, branch after branch, whether it is the first of its branch.
fn branch_begins(alloc: Global, branches: &List<List<Demand>>) -> Result<List<bool>, OutOfMemory>
    ensures { IfOk result (λ begins. begins ≡ begins_of branches.now) }
{
    let mut begins = Vec::new(alloc);
    for at in 0..branches.len() {
        push_begins(&mut begins, branches.get(at).len())?;
    }
    Ok(List::from_vec(begins))
}

// Appends for each of the servers of a branch whether it is the first.
fn push_begins(begins: &mut Vec<bool>, servers: usize) -> Result<(), OutOfMemory>
    ensures { IfOk result (λ _. begins.new.items ≡ begins.old.items ++ begins_with servers) }
{
    for server in 0..servers {
        begins.push(server == 0)?;
    }
    Ok(())
}
