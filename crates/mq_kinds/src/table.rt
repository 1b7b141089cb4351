// The table of the kinds: how a station is computed, step by step.
// A further kind that is one piece adds an arm to `serving_of` and to `station_whole`. One with steps of its own adds an arm to each function.
ghost use Rattle.std.specs.Prelude.{◌≡◌, ◌<◌, ◌≤◌, Ok, IfOk};
ghost use Rattle.mq_crew.specs.Crew.{AreAll};
ghost use Rattle.mq_kinds.specs.Lefts.{IsLeft};
ghost use Rattle.mq_kinds.specs.Pieces.{IsNext};
ghost use Rattle.mq_kinds.specs.Table.{HasLoad, HaveLeast, IsServing, IsServingPiece, IsWhole, serving_size, serving_steps};
ghost use Rattle.mq_kinds.specs.declared.pieces.Left.{Left as TheLeft};
ghost use Rattle.mq_stations.specs.Leaving.{IsLoad};

use crate::delay::{delay_next, delay_piece};
use crate::fork::fork_whole;
use crate::forkjoin::{
    ForkJoin, forkjoin_begin, forkjoin_count, forkjoin_next, forkjoin_piece, forkjoin_whole,
};
use crate::loss::loss_whole;
use crate::pieces::{Left, Load, Piece, only_content};
use crate::server::{server_begin, server_next, server_whole};
use crate::source::source_whole;
use crate::split::{Split, split_begin, split_next, split_piece, split_whole};
use crate::tandem::{Tandem, tandem_begin, tandem_count, tandem_next, tandem_piece, tandem_whole};
use crate::trunk::trunk_whole;
use mq_asked::Asked;
use mq_base::{List, OutOfMemory};
use mq_core::{Demand, Kind};
use mq_crew::{Crew, Gate};
use std::alloc::Global;
use std::thread::Threads;

// A tandem in blocks costs about this many passes over its jobs: two for the summaries, one for the departures.
const TANDEM_PASSES: u64 = 3;

// If a block has fewer jobs, a tandem is always cut into blocks.
const LEAST_BLOCK: u32 = 64;

/// How a station is computed, and the state of the computation.
#[derive(Drop)]
pub enum Serving<'r> {
    /// One piece gives what leaves.
    Whole,
    /// A delay, by this demand: one piece gives the departures.
    Delay(Demand),
    /// A server, with the demands of its jobs. There are no pieces, but a single pass by all workers.
    Server(Asked<'r>),
    Tandem(Tandem<'r>),
    ForkJoin(ForkJoin<'r>),
    Split(Split<'r>),
}

/// Returns how a station begins. `stations` is the number of stations that begin together. A station whose jobs fill one
/// block is one piece. With one worker each station is one piece, since the worker knows the carry when it comes to a block. A
/// block of the others has at least as many jobs as the load says.
/// The only error is out of memory.
pub fn serving_of<'r, 's>(
    alloc: Global,
    workers: u32,
    stations: u32,
    load: &Load<'r, 's>,
) -> Result<Serving<'r>, OutOfMemory>
    requires load { IsLoad load.now.rows.now load.now.kind.now load.now.arrivals.now }
    requires kind { HasLoad load.now.kind.now }
    ensures fit { IfOk result (IsServing load.now.rows.now load.now.kind.now load.now.arrivals.now) }
    ensures least { IfOk result (HaveLeast load.now.block) }
    ensures steps { IfOk result (λ serving. serving_steps serving ≤ 9) }
{
    let whole = workers == 1 || load.arrivals.job.len() as u32 <= load.block;
    match load.kind {
        Kind::Delay(demand) => Ok(Serving::Delay(*demand)),
        _ if whole => Ok(Serving::Whole),
        Kind::Server(demand) => Ok(Serving::Server(server_begin(alloc, load, demand)?)),
        Kind::Tandem(_) if is_sooner_whole(workers, stations, load.block) => Ok(Serving::Whole),
        Kind::Tandem(stages) => Ok(Serving::Tandem(tandem_begin(alloc, load, stages)?)),
        Kind::ForkJoin(branches) => Ok(Serving::ForkJoin(forkjoin_begin(alloc, load, branches)?)),
        Kind::Split(route) => Ok(Serving::Split(split_begin(load, route))),
        _ => Ok(Serving::Whole),
    }
}

// Returns whether a tandem ends sooner as one piece: if all stations were tandems in blocks, their passes would be at least as
// many as the workers.
fn is_sooner_whole(workers: u32, stations: u32, block: u32) -> bool {
    LEAST_BLOCK <= block && workers as u64 <= stations as u64 * TANDEM_PASSES
}

/// Returns the number of pieces of the step, at most 2^20.
pub fn serving_count(load: &Load, serving: &Serving) -> u32
    requires { IsServing load.now.rows.now load.now.kind.now load.now.arrivals.now serving.now }
    ensures is { result ≡ serving_size serving.now }
    ensures few { result ≤ 1048576 }
{
    match serving {
        Serving::Whole | Serving::Delay(_) => 1,
        Serving::Server(_) => 0,
        Serving::Tandem(tandem) => tandem_count(tandem),
        Serving::ForkJoin(work) => forkjoin_count(work),
        Serving::Split(split) => split.blocks.blocks,
    }
}

/// Makes piece `b` of the step. The only error is out of memory.
pub fn serving_piece(
    alloc: Global,
    load: &Load,
    serving: &Serving,
    b: u32,
) -> Result<Piece, OutOfMemory>
    requires fit { IsServing load.now.rows.now load.now.kind.now load.now.arrivals.now serving.now }
    requires inside { b < serving_size serving.now }
    ensures { IfOk result (IsServingPiece load.now.rows.now load.now.kind.now load.now.arrivals.now serving.now b) }
{
    match serving {
        Serving::Whole => left_piece(station_whole(alloc, load)),
        Serving::Delay(demand) => delay_piece(alloc, load, demand),
        Serving::Server(_) => unreachable!(),
        Serving::Tandem(tandem) => tandem_piece(alloc, load, tandem, b),
        Serving::ForkJoin(work) => forkjoin_piece(alloc, load, work, b),
        Serving::Split(split) => split_piece(alloc, load, split, b),
    }
}

/// Takes the pieces of the step. Returns `None` if a further step follows, otherwise what leaves the station. A server makes
/// its single pass here, and a delay puts its jobs in order. The only error is out of memory.
pub fn serving_next<R: Threads + Sync, G: Gate>(
    crew: &Crew<R, G>,
    load: &Load,
    serving: &mut Serving,
    made: List<Piece>,
) -> Result<Option<Left>, OutOfMemory>
    requires fit { IsServing load.now.rows.now load.now.kind.now load.now.arrivals.now serving.old }
    requires made { AreAll (IsServingPiece load.now.rows.now load.now.kind.now load.now.arrivals.now serving.old) (serving_size serving.old) made }
    ensures { IfOk result (IsNext (IsServing load.now.rows.now load.now.kind.now load.now.arrivals.now) serving_steps (IsLeft load.now.rows.now load.now.kind.now load.now.arrivals.now) serving.old serving.new) }
{
    match serving {
        Serving::Whole => Ok(only_content(made)),
        Serving::Delay(demand) => delay_next(crew, load, demand, made),
        Serving::Server(demands) => {
            drop(made);
            let served = server_next(crew, load, demands)?;
            Ok(Some(served))
        }
        Serving::Tandem(tandem) => tandem_next(crew.alloc, load, tandem, made),
        Serving::ForkJoin(work) => forkjoin_next(crew.alloc, load, work, made),
        Serving::Split(split) => {
            let joined = split_next(crew.alloc, load, split, made)?;
            Ok(Some(joined))
        }
    }
}

// Makes a piece of what leaves a station.
fn left_piece(left: Result<Left, OutOfMemory>) -> Result<Piece, OutOfMemory>
    ensures { IfOk result (λ piece. (one : TheLeft) × (left ≡ Ok one) × (piece ≡ Piece.Left one)) }
{
    Ok(Piece::Left(left?))
}

/// Returns what leaves a station of a kind that is one piece: not a delay, whose jobs have to be put in order, and not a join.
/// The only error is out of memory.
pub fn station_whole(alloc: Global, load: &Load) -> Result<Left, OutOfMemory>
    requires load { IsLoad load.now.rows.now load.now.kind.now load.now.arrivals.now }
    requires kind { IsWhole load.now.kind.now }
    ensures { IfOk result (IsLeft load.now.rows.now load.now.kind.now load.now.arrivals.now) }
{
    match load.kind {
        Kind::Source => source_whole(alloc, load),
        Kind::Server(demand) => server_whole(alloc, load, demand),
        Kind::Loss { places, demand } => loss_whole(alloc, load, *places, demand),
        Kind::Tandem(stages) => tandem_whole(alloc, load, stages),
        Kind::ForkJoin(branches) => forkjoin_whole(alloc, load, branches),
        Kind::Split(route) => split_whole(alloc, load, route),
        Kind::Fork { outputs } => fork_whole(alloc, load, *outputs),
        Kind::Trunk { servers, demand } => trunk_whole(alloc, load, *servers, demand),
        Kind::Delay(_) | Kind::Join => unreachable!(),
    }
}
