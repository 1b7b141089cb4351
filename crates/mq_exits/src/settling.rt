// A station that admits or loses each arrival: how each arrival fared, and what leaves.
ghost use Rattle.std.specs.Prelude.{◌≡◌, ◌<◌, ℕ, true, IfOk};
ghost use Rattle.mq_core.specs.Came.{came_in};
ghost use Rattle.mq_core.specs.SequenceLaws.{sends_once};
ghost use Rattle.mq_core.specs.Sequences.{sequence_fates};
ghost use Rattle.mq_core.specs.declared.model.Kind.{Kind as TheKind};
ghost use Rattle.mq_core.specs.declared.model.Network.{Network as TheNetwork};
ghost use Rattle.mq_core.specs.declared.model.Rows.{Rows as TheRows};
ghost use Rattle.mq_core.specs.declared.model.Stream.{Stream as TheStream};
ghost use Rattle.mq_crew.specs.Crew.{AreAll};
ghost use Rattle.mq_exits.specs.Afters.{AreSettledAt, IsAfter, IsAfterAt, IsFaring};
ghost use Rattle.mq_exits.specs.Keeping.{IsSettledPiece};
ghost use Rattle.mq_exits.specs.Loads.{IsLoaded};
ghost use Rattle.mq_stations.specs.Leaving.{AreStreams, IsLoad};

use crate::load::Load;
use crate::working::After;
use mq_base::{List, OutOfMemory};
use mq_core::{Fate, Fates, Kind, Network, Rows, Stream, fates_are_in_time, sequences_go_by_fates};
use mq_kinds::{Faring, Piece, last_content};
use mq_rounds::Settled;
use mq_stations::{fates_by_admission, first_late, settled_streams};
use mq_stats::found;
use std::alloc::Global;

// Returns how the arrivals at a node of this kind fared, from their fates.
pub fn faring_of(
    alloc: Global,
    net: &Network,
    rows: &Rows,
    number: u32,
    kind: &Kind,
    arrivals: &Stream,
    fates: List<Fate>,
) -> Result<Faring, OutOfMemory>
    requires once { sends_once kind.now ≡ true }
    requires load { IsLoad rows.now kind.now arrivals.now }
    requires leave { fates ≡ sequence_fates rows.now kind.now (came_in arrivals.now) }
    ensures { IfOk result (λ faring. IsFaring net.now rows.now number kind.now arrivals.now faring) }
{
    fates_are_in_time();
    sequences_go_by_fates();
    match first_late(net.bound, number, &fates) {
        Some(past) => {
            drop(fates);
            Ok(Faring::Late(past))
        }
        None => {
            let fates = Fates::each(fates);
            match found(alloc, &arrivals.time, &fates) {
                Ok(found) => Ok(Faring::OnTime(fates, found)),
                Err(fault) => {
                    drop(fates);
                    Err(fault)
                }
            }
        }
    }
}

// Returns what becomes of arrivals that fared so, if this leaves.
pub fn after_faring(faring: Faring, streams: List<Stream>) -> After
    ensures { (net : TheNetwork) (rows : TheRows) (v : ℕ) (kind : TheKind) (arrivals : TheStream) → IsFaring net rows v kind arrivals faring → AreStreams rows kind arrivals streams → IsAfter net rows v kind arrivals result }
{
    match faring {
        Faring::OnTime(fates, found) => After::Seen(fates, found, streams),
        Faring::Late(past) => {
            drop(streams);
            After::Missed(past)
        }
    }
}

// Makes a piece of such a station: how its arrivals fared, or what leaves it.
pub fn settled_piece(
    alloc: Global,
    load: &Load,
    settled: &Settled,
    b: u32,
) -> Result<Piece, OutOfMemory>
    requires loaded { IsLoaded load.now.plan.now load.now.rows.now load.now.number load.now.arrivals.now }
    requires settled { AreSettledAt load.now.plan.now load.now.rows.now load.now.number load.now.arrivals.now settled.now }
    requires inside { b < 2 }
    ensures { IfOk result (λ piece. IsSettledPiece load.now.plan.now load.now.rows.now load.now.number load.now.arrivals.now b piece) }
{
    let net = &load.plan.net;
    let kind = &net.nodes.get(load.number as usize).kind;
    if b == 0 {
        let fates = fates_by_admission(alloc, &settled.admitted, &settled.departs)?;
        let faring = faring_of(
            alloc,
            net,
            load.rows,
            load.number,
            kind,
            load.arrivals,
            fates,
        )?;
        return Ok(Piece::Fared(faring));
    }
    let streams = settled_streams(alloc, kind, load.arrivals, settled)?;
    Ok(Piece::Streams(streams))
}

// Returns what becomes of the arrivals at such a station, from its pieces.
pub fn after_settled(load: &Load, made: Vec<Piece>) -> After
    requires { AreAll (IsSettledPiece load.now.plan.now load.now.rows.now load.now.number load.now.arrivals.now) 2 made.items }
    ensures { IsAfterAt load.now.plan.now load.now.rows.now load.now.number load.now.arrivals.now result }
{
    let mut made = made;
    let streams = last_content(&mut made);
    let faring = last_content(&mut made);
    drop(made);
    after_faring(faring, streams)
}
