// A fork-join in two steps for each tier, over all branches that have a server there.
ghost use Rattle.std.specs.Prelude.{◌≡◌, ◌<◌, ◌≤◌, ◌+◌, ◌*◌, length, map, All, IfOk};
ghost use Rattle.mq_core.specs.declared.model.Kind.TheVariants.{ForkJoin as TheForkJoin};
ghost use Rattle.mq_crew.specs.Crew.{AreAll};
ghost use Rattle.mq_stations.specs.Leaving.{IsLoad};
ghost use Rattle.mq_kinds.specs.Branches.{AreDepartsAt, IsPassage};
ghost use Rattle.mq_kinds.specs.ForkJoins.{AreCarriesAt, AreTimesAt, IsForkJoin, IsForkJoinPiece, IsSumAt, IsTier, forkjoin_size, forkjoin_steps};
ghost use Rattle.mq_kinds.specs.Lefts.{IsLeft};
ghost use Rattle.mq_kinds.specs.Pieces.{IsNext};

use crate::branches::{Passage, passed, step_of};
use crate::pieces::{Left, Load, Piece, blocks_of, grouped};
use mq_asked::{all_asked_of, branches_asked_of};
use mq_base::{List, OutOfMemory};
use mq_core::{Demand, Stream};
use mq_forkjoin::{copy_of, fork_departures};
use mq_maxplus::{Affine, Mp};
use mq_scan::{Blocks, block_carries, block_summary, block_times, joined_times};
use mq_server::carries_are_departures;
use mq_stations::branch_demands;
use std::alloc::Global;
use std::mem::replace;

/// The state of a fork-join.
#[derive(Drop)]
pub struct ForkJoin<'r> {
    /// The branches, and how far the jobs are in them.
    pub passage: Passage<'r>,
    /// The number of the next server in each branch that has one left, from 0.
    pub server: usize,
    /// How the jobs are cut into blocks, by position.
    pub blocks: Blocks,
    /// The last departure before each block, for each branch that has a server left, in the second step of a tier.
    pub before: Option<List<List<Mp>>>,
}

/// Returns the state before the first step. A block has at least as many jobs as the load says, and there are at most
/// 16,384 blocks. The only error is out of memory.
pub fn forkjoin_begin<'r, 's>(
    alloc: Global,
    load: &Load<'r, 's>,
    branches: &List<List<Demand>>,
) -> Result<ForkJoin<'r>, OutOfMemory>
    requires load { IsLoad load.now.rows.now load.now.kind.now load.now.arrivals.now }
    requires kind { load.now.kind.now ≡ TheForkJoin branches.now }
    ensures fit { IfOk result (λ work. IsForkJoin load.now.rows.now load.now.kind.now load.now.arrivals.now work) }
    ensures least { IfOk result (λ work. load.now.block ≤ work.blocks.block) }
    ensures steps { IfOk result (λ work. forkjoin_steps work ≡ 9) }
{
    let demands = branches_asked_of(alloc, load.rows, branches, &load.arrivals.job)?;
    let Ok(latest) = copy_of(alloc, &load.arrivals.time) else {
        drop(demands);
        return Err(OutOfMemory);
    };
    Ok(ForkJoin {
        passage: Passage {
            servers: demands.into_vec(),
            times: Vec::new(alloc),
            latest,
        },
        server: 0,
        blocks: blocks_of(load),
        before: None,
    })
}

/// Returns the number of pieces of the step: the blocks of each branch that has a server left.
pub fn forkjoin_count(work: &ForkJoin) -> u32
    requires wide { length work.now.passage.servers.items ≤ 8 }
    requires few { work.now.blocks.blocks ≤ 16384 }
    ensures { result ≡ forkjoin_size work.now }
{
    work.passage.servers.len() as u32 * work.blocks.blocks
}

/// Makes piece `b` of the step: what the jobs of a block do together at the next server of a branch, or when they depart
/// from it. The pieces of a branch follow one another. The only error is out of memory.
pub fn forkjoin_piece(
    alloc: Global,
    load: &Load,
    work: &ForkJoin,
    b: u32,
) -> Result<Piece, OutOfMemory>
    requires fit { IsForkJoin load.now.rows.now load.now.kind.now load.now.arrivals.now work.now }
    requires inside { b < forkjoin_size work.now }
    ensures { IfOk result (λ piece. IsForkJoinPiece load.now.arrivals.now.time work.now b piece) }
{
    let at = (b / work.blocks.blocks) as usize;
    let block = b % work.blocks.blocks;
    let step = step_of(&load.arrivals.time, work.server, &work.passage, at);
    match &work.before {
        None => Ok(Piece::Sum(block_summary(&step, &work.blocks, block))),
        Some(before) => {
            let times = block_times(alloc, &step, &work.blocks, before.get(at), block)?;
            Ok(Piece::Times(times))
        }
    }
}

/// Takes the pieces of the step. Returns `None` if a further step follows, otherwise what leaves. The only error is out of
/// memory.
pub fn forkjoin_next(
    alloc: Global,
    load: &Load,
    work: &mut ForkJoin,
    made: List<Piece>,
) -> Result<Option<Left>, OutOfMemory>
    requires fit { IsForkJoin load.now.rows.now load.now.kind.now load.now.arrivals.now work.old }
    requires made { AreAll (IsForkJoinPiece load.now.arrivals.now.time work.old) (forkjoin_size work.old) made }
    ensures { IfOk result (λ end. IsNext (IsForkJoin load.now.rows.now load.now.kind.now load.now.arrivals.now) forkjoin_steps (IsLeft load.now.rows.now load.now.kind.now load.now.arrivals.now) work.old work.new end) }
{
    let count = work.passage.servers.len();
    let size = work.blocks.blocks;
    match &work.before {
        None => {
            let groups = grouped(alloc, count, size, made)?;
            let carried = carries_of(alloc, load.arrivals, work, &groups);
            drop(groups);
            work.before = Some(carried?);
            Ok(None)
        }
        Some(_) => {
            let groups = grouped(alloc, count, size, made)?;
            let departs = joined(alloc, load.arrivals, work, &groups);
            drop(groups);
            tier_passed(alloc, load.arrivals, work, departs?)
        }
    }
}

// Returns the last departure before each block at the next server of each branch, from the summaries of all blocks.
fn carries_of(
    alloc: Global,
    arrivals: &Stream,
    work: &ForkJoin,
    groups: &List<List<Affine>>,
) -> Result<List<List<Mp>>, OutOfMemory>
    requires passage { IsPassage arrivals.now.time work.now.server work.now.passage }
    requires all { work.now.blocks.n ≡ length arrivals.now.time }
    requires groups { AreAll (λ at. AreAll (IsSumAt arrivals.now.time work.now at) work.now.blocks.blocks) (length work.now.passage.servers.items) groups.now }
    ensures { IfOk result (AreAll (AreCarriesAt arrivals.now.time work.now) (length work.now.passage.servers.items)) }
{
    let mut all = List::new(alloc);
    for at in 0..work.passage.servers.len() {
        let step = step_of(&arrivals.time, work.server, &work.passage, at);
        let Ok(carries) = block_carries(alloc, &step, &work.blocks, groups.get(at)) else {
            drop(all);
            return Err(OutOfMemory);
        };
        let Ok(()) = all.push(carries) else {
            drop(all);
            return Err(OutOfMemory);
        };
    }
    Ok(all)
}

// Returns when the jobs depart from the next server of each branch, from the departures of all blocks.
fn joined(
    alloc: Global,
    arrivals: &Stream,
    work: &ForkJoin,
    groups: &List<List<List<u64>>>,
) -> Result<List<List<u64>>, OutOfMemory>
    requires passage { IsPassage arrivals.now.time work.now.server work.now.passage }
    requires all { work.now.blocks.n ≡ length arrivals.now.time }
    requires groups { AreAll (λ at. AreAll (AreTimesAt arrivals.now.time work.now at) work.now.blocks.blocks) (length work.now.passage.servers.items) groups.now }
    ensures { IfOk result (AreAll (AreDepartsAt arrivals.now.time work.now.server work.now.passage) (length work.now.passage.servers.items)) }
{
    let mut all = List::new(alloc);
    for at in 0..work.passage.servers.len() {
        let step = step_of(&arrivals.time, work.server, &work.passage, at);
        carries_are_departures(&step);
        let Ok(departs) = joined_times(alloc, &step, &work.blocks, groups.get(at)) else {
            drop(all);
            return Err(OutOfMemory);
        };
        let Ok(()) = all.push(departs) else {
            drop(all);
            return Err(OutOfMemory);
        };
    }
    Ok(all)
}

// Goes on to the first step of the next tier. If no branch has a server left, returns what leaves.
fn tier_passed(
    alloc: Global,
    arrivals: &Stream,
    work: &mut ForkJoin,
    departs: List<List<u64>>,
) -> Result<Option<Left>, OutOfMemory>
    requires tier { work.old.server < 4 }
    requires passage { IsPassage arrivals.now.time work.old.server work.old.passage }
    requires departs { AreAll (AreDepartsAt arrivals.now.time work.old.server work.old.passage) (length work.old.passage.servers.items) departs }
    ensures { IfOk result (λ end. IsTier arrivals.now.time work.old work.new end) }
{
    passed(
        alloc,
        &arrivals.time,
        work.server,
        &mut work.passage,
        departs,
    )?;
    if work.passage.servers.is_empty() {
        let latest = replace(&mut work.passage.latest, List::new(alloc));
        return Ok(Some(Left::InTurn(latest)));
    }
    work.server += 1;
    work.before = None;
    Ok(None)
}

/// Returns what leaves a fork-join, computed by one worker. The only error is out of memory.
pub fn forkjoin_whole(
    alloc: Global,
    load: &Load,
    branches: &List<List<Demand>>,
) -> Result<Left, OutOfMemory>
    requires load { IsLoad load.now.rows.now load.now.kind.now load.now.arrivals.now }
    requires kind { load.now.kind.now ≡ TheForkJoin branches.now }
    ensures { IfOk result (IsLeft load.now.rows.now load.now.kind.now load.now.arrivals.now) }
{
    let asked = branch_demands(alloc, branches)?;
    let asked_of = all_asked_of(alloc, load.rows, &asked, &load.arrivals.job);
    drop(asked);
    let demands = asked_of?;
    let Ok(servers) = branch_servers(alloc, branches) else {
        drop(demands);
        return Err(OutOfMemory);
    };
    let departs = fork_departures(alloc, load.arrivals, &demands, &servers)?;
    Ok(Left::InTurn(departs))
}

// Returns the number of servers of each branch.
fn branch_servers(alloc: Global, branches: &List<List<Demand>>) -> Result<List<u8>, OutOfMemory>
    requires { All (λ demands. length demands ≤ 4) branches.now }
    ensures { IfOk result (λ servers. servers ≡ map length branches.now) }
{
    let mut servers = List::new(alloc);
    for at in 0..branches.len() {
        servers.push(branches.get(at).len() as u8)?;
    }
    Ok(servers)
}
