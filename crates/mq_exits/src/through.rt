// A station whose jobs depart when they come: its pieces, and what becomes of its arrivals.
ghost use Rattle.std.specs.Prelude.{◌≡◌, ◌<◌, Some, slice_get, IfOk};
ghost use Rattle.mq_crew.specs.Crew.{AreAll};
ghost use Rattle.mq_exits.specs.Afters.{IsAfterAt};
ghost use Rattle.mq_exits.specs.Keeping.{IsPassing, turn_pieces};
ghost use Rattle.mq_exits.specs.Loads.{IsLoaded};

use crate::load::Load;
use crate::working::{After, nobody};
use mq_base::{List, OutOfMemory};
use mq_core::{Fates, Stream};
use mq_kinds::{Piece, last_content};
use std::alloc::Global;

/// Makes a piece: when the jobs depart, or zeros, since no job finds another.
pub fn passing_piece(alloc: Global, load: &Load, b: u32) -> Result<Piece, OutOfMemory>
    requires loaded { IsLoaded load.now.plan.now load.now.rows.now load.now.number load.now.arrivals.now }
    requires inside { b < 2 }
    ensures { IfOk result (λ piece. slice_get (turn_pieces load.now.arrivals.now load.now.arrivals.now.time) b ≡ Some piece) }
{
    if b == 0 {
        let times = Vec::from_slice(alloc, load.arrivals.time.as_slice())?;
        return Ok(Piece::Times(List::from_vec(times)));
    }
    Ok(Piece::Numbers(nobody(alloc, &load.arrivals.time)?))
}

/// Returns what becomes of the arrivals, from the pieces and what leaves.
pub fn after_passing(load: &Load, made: Vec<Piece>, streams: List<Stream>) -> After
    requires passing { IsPassing load.now.plan.now load.now.rows.now load.now.number load.now.arrivals.now streams }
    requires made { AreAll (λ b piece. slice_get (turn_pieces load.now.arrivals.now load.now.arrivals.now.time) b ≡ Some piece) 2 made.items }
    ensures { IsAfterAt load.now.plan.now load.now.rows.now load.now.number load.now.arrivals.now result }
{
    let mut made = made;
    let found = last_content(&mut made);
    let times = last_content(&mut made);
    drop(made);
    After::Seen(Fates::departures(times), found, streams)
}
