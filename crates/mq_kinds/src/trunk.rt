// A trunk group: which arrivals find a server, and when those depart.
ghost use Rattle.std.specs.Prelude.{◌≡◌, ◌<◌, ◌≤◌, map, IfOk};
ghost use Rattle.mq_asked.specs.Demands.{AreAsked};
ghost use Rattle.mq_core.specs.Handling.{demand_of_job};
ghost use Rattle.mq_core.specs.Sequences.{IsSoundLoad, IsStream};
ghost use Rattle.mq_core.specs.declared.model.Kind.TheVariants.{Trunk as TheTrunk};
ghost use Rattle.mq_kinds.specs.Lefts.{IsLeft};
ghost use Rattle.mq_stations.specs.Leaving.{IsLoad};
ghost use Rattle.mq_trunk.specs.Parts.{AreAdmitted};

use crate::pieces::{Left, Load};
use mq_asked::asked_of;
use mq_base::{OutOfMemory, Steps};
use mq_core::Demand;
use mq_rounds::Settled;
use mq_trunk::admit_trunk;
use std::alloc::Global;
use std::marker::Brand;
use std::sync::ledger::{Blank, Ledger};

/// Returns what leaves a trunk group. The first window is a block of the load. The only error is out of memory.
pub fn trunk_whole(
    alloc: Global,
    load: &Load,
    servers: u8,
    demand: &Demand,
) -> Result<Left, OutOfMemory>
    requires load { IsLoad load.now.rows.now load.now.kind.now load.now.arrivals.now }
    requires kind { load.now.kind.now ≡ TheTrunk servers demand.now }
    ensures { IfOk result (IsLeft load.now.rows.now load.now.kind.now load.now.arrivals.now) }
{
    let settled = settled::<Brand>(alloc, load, servers, demand, Blank::new(1))?;
    Ok(Left::Settled(settled))
}

// Returns which arrivals find a server, and when those depart. The counter of judgements is its own.
fn settled<L: Ledger>(
    alloc: Global,
    load: &Load,
    servers: u8,
    demand: &Demand,
    blank: Blank,
) -> Result<Settled, OutOfMemory>
    requires asked { AreAsked load.now.rows.now demand.now load.now.arrivals.now.job }
    requires load { IsSoundLoad load.now.arrivals.now.time (map (demand_of_job load.now.rows.now demand.now) load.now.arrivals.now.job) }
    requires stream { IsStream load.now.arrivals.now }
    requires name { blank.name ≡ L.name }
    requires parts { blank.parts ≡ L.parts }
    requires some { 0 < blank.parts }
    ensures { IfOk result (λ settled. AreAdmitted servers load.now.arrivals.now (map (demand_of_job load.now.rows.now demand.now) load.now.arrivals.now.job) settled.admitted settled.departs) }
{
    let asked = asked_of(alloc, load.rows, demand, &load.arrivals.job)?;
    let mut steps = Steps::<L>::new(blank);
    admit_trunk(
        alloc,
        load.arrivals,
        asked.list(),
        servers,
        load.block,
        &mut steps,
    )
}
