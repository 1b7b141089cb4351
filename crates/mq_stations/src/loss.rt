// What leaves a loss station by each output.
ghost use Rattle.std.specs.Prelude.{◌≡◌, ℕ, length, map, IfOk};
ghost use Rattle.mq_core.specs.Sequences.{IsStream};
ghost use Rattle.mq_core.specs.Streams.{picked};
ghost use Rattle.mq_core.specs.declared.model.Demand.{Demand as TheDemand};
ghost use Rattle.mq_core.specs.declared.model.Kind.TheVariants.{Loss};
ghost use Rattle.mq_core.specs.declared.model.Rows.{Rows as TheRows};
ghost use Rattle.mq_stations.specs.Losses.{AreAdmittedAndLost, out_of_admission};
ghost use Rattle.mq_stations.specs.Leaving.{AreSettled, AreStreams};

use crate::streams::both;
use mq_base::{List, OutOfMemory};
use mq_core::{Stream, fates_are_in_time};
use mq_rounds::Settled;
use std::alloc::Global;

// What leaves a loss station: the jobs that find a place leave by output 0 once they are served, the
// others by output 1 as they come.
pub fn loss_streams(
    alloc: Global,
    arrivals: &Stream,
    settled: &Settled,
) -> Result<List<Stream>, OutOfMemory>
    requires { (rows : TheRows) × (places : ℕ) × (demand : TheDemand) × IsStream arrivals.now × AreSettled rows (Loss places demand) arrivals.now settled.now }
    ensures { IfOk result (λ streams. (rows : TheRows) (places : ℕ) (demand : TheDemand) → IsStream arrivals.now → AreSettled rows (Loss places demand) arrivals.now settled.now → AreStreams rows (Loss places demand) arrivals.now streams) }
{
    fates_are_in_time();
    let departs = Vec::from_slice(alloc, settled.departs.as_slice())?;
    streams_of(alloc, arrivals, &settled.admitted, List::from_vec(departs))
}

// The streams that leave: the jobs that are admitted, at their departures, and the others, which
// leave as they come.
// Not inlined, so that its loop has the registers to itself.
#[inline(never)]
fn streams_of(
    alloc: Global,
    arrivals: &Stream,
    admitted: &List<bool>,
    departs: List<u64>,
) -> Result<List<Stream>, OutOfMemory>
    requires jobs { length arrivals.now.job ≡ length admitted.now }
    requires times { length arrivals.now.time ≡ length admitted.now }
    requires departs { length departs ≡ length (picked 0 (map out_of_admission admitted.now) arrivals.now.job) }
    ensures { IfOk result (λ streams. AreAdmittedAndLost arrivals.now admitted.now departs streams) }
{
    let lost = admitted.len() - departs.len();
    let Ok(mut served) = Vec::with_capacity(alloc, departs.len()) else {
        drop(departs);
        return Err(OutOfMemory);
    };
    let Ok(mut job) = Vec::with_capacity(alloc, lost) else {
        drop(departs);
        drop(served);
        return Err(OutOfMemory);
    };
    let Ok(mut time) = Vec::with_capacity(alloc, lost) else {
        drop(departs);
        drop(served);
        drop(job);
        return Err(OutOfMemory);
    };
    for at in 0..admitted.len() {
        if *admitted.get(at) {
            served.push_reserved(*arrivals.job.get(at));
        } else {
            job.push_reserved(*arrivals.job.get(at));
            time.push_reserved(*arrivals.time.get(at));
        }
    }
    let first = Stream {
        job: List::from_vec(served),
        time: departs,
    };
    let second = Stream {
        job: List::from_vec(job),
        time: List::from_vec(time),
    };
    both(alloc, first, second)
}
