// A station whose jobs leave in the order in which they came: its pieces, and what becomes of its arrivals.
ghost use Rattle.std.specs.Prelude.{◌≡◌, ◌<◌, Some, slice_get, IfOk};
ghost use Rattle.mq_crew.specs.Crew.{AreAll};
ghost use Rattle.mq_exits.specs.Afters.{IsAfterAt, IsServed};
ghost use Rattle.mq_exits.specs.Keeping.{IsTurn, founds_by, turn_pieces};
ghost use Rattle.mq_exits.specs.Loads.{IsLoaded};

use crate::load::Load;
use crate::working::{After, found_by_position, nobody, on_time};
use mq_base::{List, OutOfMemory};
use mq_core::{Kind, Stream, fates_are_in_time, sequences_go_by_fates};
use mq_kinds::{Piece, last_content};
use std::alloc::Global;

/// Makes a piece: when the jobs leave, how many each found, or the jobs.
pub fn turn_piece(
    alloc: Global,
    load: &Load,
    departs: &List<u64>,
    b: u32,
) -> Result<Piece, OutOfMemory>
    requires loaded { IsLoaded load.now.plan.now load.now.rows.now load.now.number load.now.arrivals.now }
    requires served { IsServed load.now.plan.now load.now.rows.now load.now.number load.now.arrivals.now departs.now }
    requires inside { b < 3 }
    ensures { IfOk result (λ piece. slice_get (turn_pieces load.now.arrivals.now departs.now) b ≡ Some piece) }
{
    if b == 0 {
        let times = Vec::from_slice(alloc, departs.as_slice())?;
        return Ok(Piece::Times(List::from_vec(times)));
    }
    if b == 1 {
        return Ok(Piece::Numbers(found_in_turn(alloc, load, departs)?));
    }
    let jobs = Vec::from_slice(alloc, load.arrivals.job.as_slice())?;
    Ok(Piece::Numbers(List::from_vec(jobs)))
}

// Returns how many jobs each visit found, from the departures. A source holds none.
fn found_in_turn(alloc: Global, load: &Load, departs: &List<u64>) -> Result<List<u32>, OutOfMemory>
    requires loaded { IsLoaded load.now.plan.now load.now.rows.now load.now.number load.now.arrivals.now }
    requires served { IsServed load.now.plan.now load.now.rows.now load.now.number load.now.arrivals.now departs.now }
    ensures { IfOk result (λ found. found ≡ founds_by load.now.arrivals.now departs.now) }
{
    sequences_go_by_fates();
    fates_are_in_time();
    match &load.plan.net.nodes.get(load.number as usize).kind {
        Kind::Source => nobody(alloc, &load.arrivals.time),
        _ => found_by_position(alloc, load.arrivals, departs),
    }
}

/// Returns what becomes of the arrivals, from the pieces and the departures, which are kept as the fates.
pub fn after_turn(
    alloc: Global,
    load: &Load,
    made: Vec<Piece>,
    departs: List<u64>,
) -> Result<After, OutOfMemory>
    requires loaded { IsLoaded load.now.plan.now load.now.rows.now load.now.number load.now.arrivals.now }
    requires turn { IsTurn load.now.plan.now load.now.rows.now load.now.number load.now.arrivals.now departs }
    requires made { AreAll (λ b piece. slice_get (turn_pieces load.now.arrivals.now departs) b ≡ Some piece) 3 made.items }
    ensures { IfOk result (IsAfterAt load.now.plan.now load.now.rows.now load.now.number load.now.arrivals.now) }
{
    sequences_go_by_fates();
    fates_are_in_time();
    let mut made = made;
    let job = last_content(&mut made);
    let found = last_content(&mut made);
    let time = last_content(&mut made);
    drop(made);
    on_time(alloc, departs, found, Stream { job, time })
}
