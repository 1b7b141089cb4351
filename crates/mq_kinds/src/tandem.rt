// A tandem in two steps over its blocks.
ghost use Rattle.std.specs.Prelude.{◌≡◌, ◌<◌, ◌≤◌, ◌+◌, ◌*◌, ◌/◌, ℕ, All, List as Items, length, map, max, IfOk, slice_index_or};
ghost use Rattle.mq_asked.specs.Demands.{AreAsked};
ghost use Rattle.mq_core.specs.Handling.{demand_of_job};
ghost use Rattle.mq_core.specs.declared.model.Kind.TheVariants.{Tandem as TheTandem};
ghost use Rattle.mq_crew.specs.Crew.{AreAll};
ghost use Rattle.mq_stations.specs.Leaving.{IsLoad};
ghost use Rattle.mq_kinds.specs.Lefts.{IsLeft};
ghost use Rattle.mq_kinds.specs.Pieces.{IsNext};
ghost use Rattle.mq_kinds.specs.Tandems.{AreTandemCarries, AreTandemTimes, IsTandem, IsTandemPiece, IsTandemSum, departs_of, tandem_steps};
ghost use Rattle.mq_maxplus.specs.declared.mp.Mp.{Mp as TheMp};
ghost use Rattle.mq_tandem.specs.Rows.{IsTandemLoad};

use crate::pieces::{Left, Load, Piece, all_contents};
use mq_asked::{Asked, all_asked_of};
use mq_base::{List, OutOfMemory};
use mq_core::{Rows, Stage, Stream};
use mq_maxplus::Matrix;
use mq_scan::{Blocks, block_carries, block_summary, block_times, cut, joined_times};
use mq_stations::{stage_demands, stage_places};
use mq_tandem::{Latest, TandemStep, carries_hold_departures, tandem_departures};
use std::alloc::Global;

/// The state of a tandem.
#[derive(Drop)]
pub struct Tandem<'r> {
    /// The demand of each job at each stage, in ticks.
    pub demands: List<Asked<'r>>,
    /// The number of jobs that each stage can hold.
    pub places: List<u8>,
    /// How the jobs are cut into blocks, by position.
    pub blocks: Blocks,
    /// The latest departures before each block, in the second step.
    pub before: Option<List<Latest>>,
}

/// Returns the state before the first step. A block has at least as many jobs as the load says, and there are at most
/// 1,024 blocks. The only error is out of memory.
pub fn tandem_begin<'r, 's>(
    alloc: Global,
    load: &Load<'r, 's>,
    stages: &List<Stage>,
) -> Result<Tandem<'r>, OutOfMemory>
    requires load { IsLoad load.now.rows.now load.now.kind.now load.now.arrivals.now }
    requires kind { load.now.kind.now ≡ TheTandem stages.now }
    ensures fit { IfOk result (λ tandem. IsTandem load.now.rows.now load.now.kind.now load.now.arrivals.now tandem) }
    ensures least { IfOk result (λ tandem. load.now.block ≤ tandem.blocks.block) }
    ensures steps { IfOk result (λ tandem. tandem_steps tandem ≡ 1) }
{
    let demands = demands_of_stages(alloc, load.rows, stages, &load.arrivals.job)?;
    let Ok(places) = stage_places(alloc, stages) else {
        drop(demands);
        return Err(OutOfMemory);
    };
    let jobs = load.arrivals.job.len() as u32;
    Ok(Tandem {
        demands,
        places,
        blocks: cut(jobs, long_block(jobs, load.block)),
        before: None,
    })
}

/// Returns the number of pieces of the step.
pub fn tandem_count(tandem: &Tandem) -> u32
    ensures { result ≡ tandem.now.blocks.blocks }
{
    tandem.blocks.blocks
}

/// Makes piece `b` of the step: what the jobs of the block do together, or when they depart. The only error is out of
/// memory.
pub fn tandem_piece(
    alloc: Global,
    load: &Load,
    tandem: &Tandem,
    b: u32,
) -> Result<Piece, OutOfMemory>
    requires fit { IsTandem load.now.rows.now load.now.kind.now load.now.arrivals.now tandem.now }
    requires inside { b < tandem.now.blocks.blocks }
    ensures { IfOk result (λ piece. IsTandemPiece load.now.arrivals.now tandem.now b piece) }
{
    let step = TandemStep::new(load.arrivals, &tandem.demands, &tandem.places);
    match &tandem.before {
        None => {
            let sum = block_summary(&step, &tandem.blocks, b);
            Ok(Piece::Product(Box::new(alloc, sum)?))
        }
        Some(before) => {
            let times = block_times(alloc, &step, &tandem.blocks, before, b)?;
            Ok(Piece::Times(times))
        }
    }
}

/// Takes the pieces of the step. Returns `None` if a further step follows, otherwise what leaves. The only error is out of
/// memory.
pub fn tandem_next(
    alloc: Global,
    load: &Load,
    tandem: &mut Tandem,
    made: List<Piece>,
) -> Result<Option<Left>, OutOfMemory>
    requires fit { IsTandem load.now.rows.now load.now.kind.now load.now.arrivals.now tandem.old }
    requires made { AreAll (IsTandemPiece load.now.arrivals.now tandem.old) tandem.old.blocks.blocks made }
    ensures { IfOk result (λ end. IsNext (IsTandem load.now.rows.now load.now.kind.now load.now.arrivals.now) tandem_steps (IsLeft load.now.rows.now load.now.kind.now load.now.arrivals.now) tandem.old tandem.new end) }
{
    match &tandem.before {
        None => {
            let sums = all_contents(alloc, made)?;
            let carried = carries_of(alloc, load.arrivals, tandem, &sums);
            drop(sums);
            tandem.before = Some(carried?);
            Ok(None)
        }
        Some(_) => {
            let times = all_contents(alloc, made)?;
            let departs = joined(alloc, load.arrivals, tandem, &times);
            drop(times);
            Ok(Some(Left::InTurn(departs?)))
        }
    }
}

// Returns the latest departures before each block, from the summaries of all blocks.
fn carries_of(
    alloc: Global,
    arrivals: &Stream,
    tandem: &Tandem,
    sums: &List<Matrix>,
) -> Result<List<Latest>, OutOfMemory>
    requires load { IsTandemLoad arrivals.now.time tandem.now.demands tandem.now.places }
    requires all { tandem.now.blocks.n ≡ length arrivals.now.time }
    requires len { length sums.now ≡ tandem.now.blocks.blocks }
    requires sums { (b : ℕ) (d : Items (Items TheMp)) → b < length sums.now → IsTandemSum arrivals.now tandem.now b (slice_index_or sums.now b d) }
    ensures { IfOk result (λ carries. AreTandemCarries arrivals.now tandem.now carries) }
{
    let step = TandemStep::new(arrivals, &tandem.demands, &tandem.places);
    block_carries(alloc, &step, &tandem.blocks, sums)
}

// Returns when all jobs depart, from the departures of all blocks.
fn joined(
    alloc: Global,
    arrivals: &Stream,
    tandem: &Tandem,
    group: &List<List<u64>>,
) -> Result<List<u64>, OutOfMemory>
    requires load { IsTandemLoad arrivals.now.time tandem.now.demands tandem.now.places }
    requires all { tandem.now.blocks.n ≡ length arrivals.now.time }
    requires len { length group.now ≡ tandem.now.blocks.blocks }
    requires group { (b : ℕ) (d : Items ℕ) → b < length group.now → AreTandemTimes arrivals.now tandem.now b (slice_index_or group.now b d) }
    ensures { IfOk result (λ departs. departs ≡ departs_of arrivals.now tandem.now) }
{
    let step = TandemStep::new(arrivals, &tandem.demands, &tandem.places);
    carries_hold_departures(&step);
    joined_times(alloc, &step, &tandem.blocks, group)
}

/// Returns what leaves a tandem, computed by one worker. The only error is out of memory.
pub fn tandem_whole(alloc: Global, load: &Load, stages: &List<Stage>) -> Result<Left, OutOfMemory>
    requires load { IsLoad load.now.rows.now load.now.kind.now load.now.arrivals.now }
    requires kind { load.now.kind.now ≡ TheTandem stages.now }
    ensures { IfOk result (IsLeft load.now.rows.now load.now.kind.now load.now.arrivals.now) }
{
    let tandem = tandem_begin(alloc, load, stages)?;
    let departs = tandem_departures(alloc, load.arrivals, &tandem.demands, &tandem.places)?;
    Ok(Left::InTurn(departs))
}

// Returns the number of jobs in a block of a tandem: at least `block`, and so many that there are at most 1,024 blocks, since the
// matrix of each takes some 4,000 bytes.
fn long_block(jobs: u32, block: u32) -> u32
    requires { 1 ≤ block }
    ensures is { result ≡ max block ((jobs + 1023) / 1024) }
    ensures some { 1 ≤ result }
    ensures few { jobs ≤ 1024 * result }
{
    block.max(jobs.div_ceil(1024))
}

// Returns the demand of each job at each stage, in ticks.
fn demands_of_stages<'a>(
    alloc: Global,
    rows: &'a Rows,
    stages: &List<Stage>,
    jobs: &List<u32>,
) -> Result<List<Asked<'a>>, OutOfMemory>
    requires { All (λ demand. AreAsked rows.now demand jobs.now) (map (λ stage. stage.demand) stages.now) }
    ensures { IfOk result (λ demands. demands ≡ map (λ demand. map (demand_of_job rows.now demand) jobs.now) (map (λ stage. stage.demand) stages.now)) }
{
    let asked = stage_demands(alloc, stages)?;
    all_asked_of(alloc, rows, &asked, jobs)
}
