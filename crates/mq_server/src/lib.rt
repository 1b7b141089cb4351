//! The station with one server: first come, first served, with unlimited room.
#![tactic(auto)]

ghost use Rattle.std.specs.Prelude.{◌≡◌, length, map, IfOk};
ghost use Rattle.mq_core.specs.Sequences.{IsSoundLoad};
ghost use Rattle.mq_core.specs.Recurrences.{lindley};
ghost use Rattle.mq_maxplus.specs.declared.mp.Mp.TheVariants.{Void};
ghost use Rattle.mq_maxplus.specs.Maxplus.{affine_act, mp_or_zero};
ghost use Rattle.mq_scan.specs.Folds.{carries_after};
ghost use Rattle.mq_server.specs.Jobs.{job, IsLateLoad};

mod step;

use mq_base::{List, OutOfMemory};
use mq_core::Stream;
use mq_scan::scan_times;
use std::alloc::Global;
pub use step::ServerStep;

// The number of jobs in a block of the scan.
const BLOCK: u32 = 4096;

/// Returns when each job leaves a server that serves the jobs one by one in the order of the stream:
/// one departure per job, by position, in ticks. A job begins at its arrival or when the job before
/// it leaves, whichever is later, and takes its demand, in ticks of service (Lindley's recurrence).
/// The departures are a scan of the affine maps by which the jobs act on the last departure
/// (Greenberg, Lubachevsky and Mitrani, 1991). The only error is that memory runs out.
pub fn departures(
    alloc: Global,
    stream: &Stream,
    demands: &List<u64>,
) -> Result<List<u64>, OutOfMemory>
    requires { IsSoundLoad stream.now.time demands.now }
    ensures { IfOk result (λ departs. departs ≡ lindley 0 stream.now.time demands.now) }
{
    departures_of(alloc, &ServerStep::new(stream, demands))
}

/// Returns when each job leaves a server, as `departures` does, but for jobs that come at any times
/// up to 2^62, such as jobs from other servers. Times are in ticks, by position. The only error is
/// that memory runs out.
pub fn departures_behind(
    alloc: Global,
    arrive: &List<u64>,
    demands: &List<u64>,
) -> Result<List<u64>, OutOfMemory>
    requires { IsLateLoad arrive.now demands.now }
    ensures { IfOk result (λ departs. departs ≡ lindley 0 arrive.now demands.now) }
{
    departures_of(alloc, &ServerStep::behind(arrive, demands))
}

// When each job leaves the server. It isn't inlined, so that its loop has the registers to itself.
#[inline(never)]
fn departures_of(alloc: Global, step: &ServerStep) -> Result<List<u64>, OutOfMemory>
    ensures { IfOk result (λ departs. departs ≡ lindley 0 step.now.arrive.now step.now.demands.now) }
{
    scan_times(alloc, step, BLOCK)
}

/// Law: the times of the carries of the fold of a server's jobs are Lindley's departures.
pub fn carries_are_departures(step: &ServerStep)
    ensures { map mp_or_zero (carries_after affine_act Void (job step.now.arrive.now step.now.demands.now) 0 (length step.now.arrive.now)) ≡ lindley 0 step.now.arrive.now step.now.demands.now }
{
    let _ = step;
}
