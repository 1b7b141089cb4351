//! The delay: each job is served from its arrival on, however many others are there.
#![tactic(auto)]

ghost use Rattle.std.specs.Prelude.{◌≡◌, length, IfOk};
ghost use Rattle.std.specs.List.{zip};
ghost use Rattle.mq_core.specs.Sequences.{IsSoundLoad, IsStream};
ghost use Rattle.mq_core.specs.Streams.{by_first, pairs_of};
ghost use Rattle.mq_core.specs.Laws.{in_order_of};
ghost use Rattle.mq_core.specs.Recurrences.{delayed};

mod step;

use mq_base::{List, OutOfMemory};
use mq_core::Stream;
use mq_merge::par_by_time;
use std::alloc::Global;
use std::thread::Threads;
pub use step::DelayStep;

/// What leaves a delay.
#[derive(Drop)]
pub struct Delayed {
    /// When each job leaves, in ticks: one departure per job, by position.
    pub departs: List<u64>,
    /// The jobs as they leave: by departure, those with the same departure by position.
    pub leaving: Stream,
}

/// Returns when each job leaves a delay, and in which order they leave. A job leaves its demand, in
/// ticks of service, after its arrival, and may overtake others. The stream has one job and one
/// time per item, and there is one demand per job, by position. The order is that of a stable sort,
/// in several threads if they can be started. The only error is that memory runs out.
pub fn delay<R: Threads + Sync>(
    rt: &R,
    alloc: Global,
    stream: &Stream,
    demands: &List<u64>,
) -> Result<Delayed, OutOfMemory>
    requires load { IsSoundLoad stream.now.time demands.now }
    requires even { length stream.now.job ≡ length stream.now.time }
    ensures departs { IfOk result (λ d. d.departs ≡ delayed stream.now.time demands.now) }
    ensures stream { IfOk result (λ d. IsStream d.leaving) }
    ensures leaving { IfOk result (λ d. pairs_of d.leaving ≡ by_first (zip d.departs stream.now.job)) }
    ensures times { IfOk result (λ d. d.leaving.time ≡ in_order_of (λ time. time) d.departs) }
{
    let departs = delay_departures(alloc, stream, demands)?;
    let leaving = delay_leaving(rt, alloc, &stream.job, &departs)?;
    Ok(Delayed { departs, leaving })
}

/// Returns when each job leaves a delay, in ticks, by position: its demand, in ticks of service,
/// after its arrival. There is one demand per job. The only error is that memory runs out.
pub fn delay_departures(
    alloc: Global,
    stream: &Stream,
    demands: &List<u64>,
) -> Result<List<u64>, OutOfMemory>
    requires { IsSoundLoad stream.now.time demands.now }
    ensures { IfOk result (λ departs. departs ≡ delayed stream.now.time demands.now) }
{
    let mut departs = Vec::with_capacity(alloc, stream.time.len())?;
    for at in 0..stream.time.len() {
        departs.push_reserved(*stream.time.get(at) + *demands.get(at));
    }
    Ok(List::from_vec(departs))
}

/// Returns the jobs of a delay as they leave: by departure, those with the same departure by
/// position. There is one departure per job, in ticks, by position. The order is that of a stable
/// sort, in several threads if they can be started. The only error is that memory runs out.
pub fn delay_leaving<R: Threads + Sync>(
    rt: &R,
    alloc: Global,
    jobs: &List<u32>,
    departs: &List<u64>,
) -> Result<Stream, OutOfMemory>
    requires { length jobs.now ≡ length departs.now }
    ensures stream { IfOk result (λ leaving. IsStream leaving) }
    ensures items { IfOk result (λ leaving. pairs_of leaving ≡ by_first (zip departs.now jobs.now)) }
    ensures times { IfOk result (λ leaving. leaving.time ≡ in_order_of (λ time. time) departs.now) }
{
    let leaving = par_by_time(rt, alloc, jobs, departs)?;
    Ok(leaving)
}
