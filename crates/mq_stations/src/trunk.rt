// What leaves a trunk group by each output.
ghost use Rattle.std.specs.Prelude.{ℕ, IfOk};
ghost use Rattle.mq_core.specs.Sequences.{IsStream};
ghost use Rattle.mq_core.specs.declared.model.Demand.{Demand as TheDemand};
ghost use Rattle.mq_core.specs.declared.model.Kind.TheVariants.{Trunk as TheTrunk};
ghost use Rattle.mq_core.specs.declared.model.Rows.{Rows as TheRows};
ghost use Rattle.mq_stations.specs.Leaving.{AreSettled, AreStreams};

use crate::streams::both;
use mq_base::{List, OutOfMemory};
use mq_core::Stream;
use mq_rounds::Settled;
use mq_trunk::{Parts, trunk_parts};
use std::alloc::Global;

// What leaves a trunk group: the jobs that find a server leave by output 0 once they are served, and may
// overtake one another; the others leave by output 1 as they come.
pub fn trunk_streams(
    alloc: Global,
    arrivals: &Stream,
    settled: &Settled,
) -> Result<List<Stream>, OutOfMemory>
    requires { (rows : TheRows) × (servers : ℕ) × (demand : TheDemand) × IsStream arrivals.now × AreSettled rows (TheTrunk servers demand) arrivals.now settled.now }
    ensures { IfOk result (λ streams. (rows : TheRows) (servers : ℕ) (demand : TheDemand) → IsStream arrivals.now → AreSettled rows (TheTrunk servers demand) arrivals.now settled.now → AreStreams rows (TheTrunk servers demand) arrivals.now streams) }
{
    let parts = trunk_parts(alloc, arrivals, &settled.admitted, &settled.departs)?;
    let Parts { leaving, lost } = parts;
    both(alloc, leaving, lost)
}
