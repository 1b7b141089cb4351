//! The tandem: servers in series with finite buffers. Each server after the first has a number of
//! places, one of which is for the job in service.
#![tactic(auto)]

ghost use Rattle.std.specs.Prelude.{◌≡◌, All, [], length, map, IfOk};
ghost use Rattle.mq_core.specs.Sequences.{IsSoundLoad};
ghost use Rattle.mq_core.specs.Recurrences.{tandem_departs};
ghost use Rattle.mq_maxplus.specs.Maxplus.{mp_or_zero};
ghost use Rattle.mq_maxplus.specs.Matrices.{entry, matrix_act};
ghost use Rattle.mq_scan.specs.Folds.{carries_after};
ghost use Rattle.mq_tandem.specs.Stages.{AreStages};
ghost use Rattle.mq_tandem.specs.Rows.{job_matrix, kept, last_row, none_kept};

mod both;
mod latest;
mod likeness;
mod runs;
mod step;

pub use latest::Latest;
use mq_asked::Asked;
use mq_base::{List, OutOfMemory};
use mq_core::Stream;
use mq_scan::scan_times;
use std::alloc::Global;
pub use step::TandemStep;

// How many jobs are in a block of a scan.
const BLOCK: u32 = 4096;

/// Computes when each job leaves the last stage of a tandem: one departure per job, by position, in
/// ticks. Each stage serves its jobs one at a time, in the order of the stream. A finished job stays
/// at its server until the next stage has room (production blocking): if that stage has k places,
/// until the job that came to it k jobs earlier has left. The method is a scan of max-plus matrices,
/// by which jobs act on the latest departures (Greenberg, Lubachevsky and Mitrani, 1991).
///
/// `demands` has one list per stage, with one demand per job, in ticks of service. `places` says how
/// many jobs each stage holds, including the one in service. There are 2 to 4 stages, and each after
/// the first holds 1 to 4 jobs. The first has room for all jobs, and its number is ignored. The only
/// error is out of memory.
pub fn tandem_departures(
    alloc: Global,
    stream: &Stream,
    demands: &List<Asked>,
    places: &List<u8>,
) -> Result<List<u64>, OutOfMemory>
    requires load { All (λ column. IsSoundLoad stream.now.time column) demands.now }
    requires stages { AreStages places.now demands.now }
    ensures { IfOk result (λ departs. departs ≡ tandem_departs places.now (map (λ _. []) places.now) stream.now.time demands.now) }
{
    scan_times(alloc, &TandemStep::new(stream, demands, places), BLOCK)
}

/// Law. The times of the carries, in the fold of a tandem's jobs, are the tandem's departures.
pub fn carries_hold_departures(step: &TandemStep)
    ensures { map (λ rows. mp_or_zero (entry rows (last_row (kept step.now.places.now)))) (carries_after matrix_act (none_kept step.now.places.now) (job_matrix step.now.places.now step.now.arrive.now step.now.demands.now) 0 (length step.now.arrive.now)) ≡ tandem_departs step.now.places.now (map (λ _. []) step.now.places.now) step.now.arrive.now step.now.demands.now }
{
    let _ = step;
}
