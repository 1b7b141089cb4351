// A station that admits or loses each arrival: what leaves it, of what is settled.
ghost use Rattle.std.specs.Prelude.{◌≡◌, IfOk};
ghost use Rattle.mq_core.specs.Sequences.{IsStream};
ghost use Rattle.mq_core.specs.declared.model.Rows.{Rows as TheRows};
ghost use Rattle.mq_rounds.specs.Rounds.{fates_by};
ghost use Rattle.mq_stations.specs.Leaving.{AreSettled, AreStreams};

use crate::loss::loss_streams;
use crate::trunk::trunk_streams;
use mq_base::{List, OutOfMemory};
use mq_core::{Fate, Kind, Stream};
use mq_rounds::Settled;
use std::alloc::Global;

/// What leaves a loss station or a trunk group by each output, of which arrivals are admitted and when those depart,
/// in ticks: those that are admitted in the order in which they leave, and the others as they came. It refuses for
/// want of memory alone.
// A further kind that may lose a job adds its case here.
pub fn settled_streams(
    alloc: Global,
    kind: &Kind,
    arrivals: &Stream,
    settled: &Settled,
) -> Result<List<Stream>, OutOfMemory>
    requires { (rows : TheRows) × IsStream arrivals.now × AreSettled rows kind.now arrivals.now settled.now }
    ensures { IfOk result (λ streams. (rows : TheRows) → IsStream arrivals.now → AreSettled rows kind.now arrivals.now settled.now → AreStreams rows kind.now arrivals.now streams) }
{
    match kind {
        Kind::Loss { .. } => loss_streams(alloc, arrivals, settled),
        Kind::Trunk { .. } => trunk_streams(alloc, arrivals, settled),
        _ => unreachable!(),
    }
}

/// The fate of each arrival, by whether it is admitted and the departures of those that are, in ticks. It refuses for
/// want of memory alone.
// Not inlined, so that its loop has the registers to itself.
#[inline(never)]
pub fn fates_by_admission(
    alloc: Global,
    admitted: &List<bool>,
    departs: &List<u64>,
) -> Result<List<Fate>, OutOfMemory>
    ensures { IfOk result (λ fates. fates ≡ fates_by admitted.now departs.now) }
{
    let mut fates = Vec::with_capacity(alloc, admitted.len())?;
    let mut next = 0;
    for at in 0..admitted.len() {
        if *admitted.get(at) && next < departs.len() {
            fates.push_reserved(Fate::Departs(*departs.get(next)));
            next += 1;
        } else {
            fates.push_reserved(Fate::Lost);
        }
    }
    Ok(List::from_vec(fates))
}
