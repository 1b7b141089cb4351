// A delay: one piece gives the departures, and then the jobs are put in the order in which they leave.
ghost use Rattle.std.specs.Prelude.{◌≡◌, ◌≤◌, IsSomeAnd, IsTrue, length, IfOk};
ghost use Rattle.std.specs.List.{zip};
ghost use Rattle.mq_core.specs.Laws.{Rises, in_order_of};
ghost use Rattle.mq_core.specs.Sequences.{IsStream, stream_in_order};
ghost use Rattle.mq_core.specs.Streams.{by_first, pairs_of, sorted};
ghost use Rattle.mq_core.specs.declared.model.Stream.{Stream as TheStream};
ghost use Rattle.mq_crew.specs.Crew.{AreAll};
ghost use Rattle.mq_kinds.specs.Lefts.{IsLeft};
ghost use Rattle.mq_kinds.specs.Servers.{IsDelay, IsDelayPiece};
ghost use Rattle.mq_stations.specs.Leaving.{AreDepartures, IsLoad};

use crate::pieces::{Left, Load, Piece, only_content};
use mq_asked::asked_of;
use mq_base::{List, OutOfMemory};
use mq_core::{Demand, Stream, fates_are_in_time};
use mq_crew::{Crew, Gate};
use mq_delay::{delay_departures, delay_leaving};
use mq_merge::by_time;
use std::alloc::Global;
use std::thread::Threads;

/// Makes the only piece of a delay: when each job departs. The only error is out of memory.
pub fn delay_piece(alloc: Global, load: &Load, demand: &Demand) -> Result<Piece, OutOfMemory>
    requires { IsDelay load.now.rows.now load.now.kind.now load.now.arrivals.now demand.now }
    ensures { IfOk result (IsDelayPiece load.now.rows.now load.now.kind.now load.now.arrivals.now) }
{
    let asked = asked_of(alloc, load.rows, demand, &load.arrivals.job)?;
    let departs = delay_departures(alloc, load.arrivals, asked.list())?;
    Ok(Piece::Times(departs))
}

/// Returns what leaves a delay, from its only piece. The only error is out of memory.
pub fn delay_next<R: Threads + Sync, G: Gate>(
    crew: &Crew<R, G>,
    load: &Load,
    demand: &Demand,
    made: List<Piece>,
) -> Result<Option<Left>, OutOfMemory>
    requires fit { IsDelay load.now.rows.now load.now.kind.now load.now.arrivals.now demand.now }
    requires made { AreAll (λ _. IsDelayPiece load.now.rows.now load.now.kind.now load.now.arrivals.now) 1 made }
    ensures { IfOk result (λ end. IsSomeAnd end (IsLeft load.now.rows.now load.now.kind.now load.now.arrivals.now)) }
{
    match only_content(made) {
        Some(departs) => Ok(Some(delay_left(crew, load, departs)?)),
        None => Ok(None),
    }
}

/// Returns what leaves a delay whose jobs depart at these times, in ticks, by position. If no time is below the one before it, the
/// jobs leave in the order in which they came, and nothing is sorted. The only error is out of memory.
pub fn delay_left<R: Threads + Sync, G: Gate>(
    crew: &Crew<R, G>,
    load: &Load,
    departs: List<u64>,
) -> Result<Left, OutOfMemory>
    requires load { IsLoad load.now.rows.now load.now.kind.now load.now.arrivals.now }
    requires overtake { (stream : TheStream) → stream_in_order load.now.kind.now stream ≡ sorted stream }
    requires departs { AreDepartures load.now.rows.now load.now.kind.now load.now.arrivals.now departs }
    ensures { IfOk result (IsLeft load.now.rows.now load.now.kind.now load.now.arrivals.now) }
{
    fates_are_in_time();
    if never_fall(&departs) {
        return Ok(Left::InTurn(departs));
    }
    match by_departure(crew, &load.arrivals.job, &departs) {
        Ok(leaving) => Ok(Left::Overtaking(departs, leaving)),
        Err(fault) => {
            drop(departs);
            Err(fault)
        }
    }
}

// Returns whether no time is below the one before it.
fn never_fall(times: &List<u64>) -> bool
    ensures { IsTrue result → Rises (λ a b. a ≤ b) times.now }
{
    times.as_slice().is_sorted()
}

// Returns the jobs by departure. With one worker no thread is started.
fn by_departure<R: Threads + Sync, G: Gate>(
    crew: &Crew<R, G>,
    jobs: &List<u32>,
    departs: &List<u64>,
) -> Result<Stream, OutOfMemory>
    requires even { length jobs.now ≡ length departs.now }
    ensures stream { IfOk result (λ leaving. IsStream leaving) }
    ensures items { IfOk result (λ leaving. pairs_of leaving ≡ by_first (zip departs.now jobs.now)) }
    ensures times { IfOk result (λ leaving. leaving.time ≡ in_order_of (λ time. time) departs.now) }
{
    if crew.workers == 1 {
        let leaving = by_time(crew.alloc, jobs, departs)?;
        return Ok(leaving);
    }
    delay_leaving(crew.rt, crew.alloc, jobs, departs)
}
