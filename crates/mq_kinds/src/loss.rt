// A loss station: which arrivals find a place, and when those depart.
ghost use Rattle.std.specs.Prelude.{◌≡◌, ◌<◌, ◌≤◌, map, IfOk};
ghost use Rattle.mq_asked.specs.Demands.{AreAsked};
ghost use Rattle.mq_core.specs.Handling.{demand_of_job};
ghost use Rattle.mq_core.specs.Sequences.{IsSoundLoad};
ghost use Rattle.mq_core.specs.declared.model.Kind.TheVariants.{Loss as TheLoss};
ghost use Rattle.mq_kinds.specs.Lefts.{IsLeft};
ghost use Rattle.mq_loss.specs.Rounds.{IsSettled, loss_rule};
ghost use Rattle.mq_rounds.specs.Windows.{IsWindowRun};
ghost use Rattle.mq_stations.specs.Leaving.{IsLoad};

use crate::pieces::{Left, Load};
use mq_asked::asked_of;
use mq_base::{OutOfMemory, Steps};
use mq_core::Demand;
use mq_loss::settle;
use mq_rounds::Settled;
use std::alloc::Global;
use std::marker::Brand;
use std::sync::ledger::{Blank, Ledger};

/// Returns what leaves a loss station. The first window is a block of the load. The only error is out of memory.
pub fn loss_whole(
    alloc: Global,
    load: &Load,
    places: u32,
    demand: &Demand,
) -> Result<Left, OutOfMemory>
    requires load { IsLoad load.now.rows.now load.now.kind.now load.now.arrivals.now }
    requires kind { load.now.kind.now ≡ TheLoss places demand.now }
    ensures { IfOk result (IsLeft load.now.rows.now load.now.kind.now load.now.arrivals.now) }
{
    let settled = settled::<Brand>(alloc, load, places, demand, Blank::new(1))?;
    Ok(Left::Settled(settled))
}

// Returns which arrivals find a place, and when those depart. The first window is a block of the load. The counter of judgements is
// its own.
fn settled<L: Ledger>(
    alloc: Global,
    load: &Load,
    places: u32,
    demand: &Demand,
    blank: Blank,
) -> Result<Settled, OutOfMemory>
    requires asked { AreAsked load.now.rows.now demand.now load.now.arrivals.now.job }
    requires load { IsSoundLoad load.now.arrivals.now.time (map (demand_of_job load.now.rows.now demand.now) load.now.arrivals.now.job) }
    requires places { 1 ≤ places }
    requires name { blank.name ≡ L.name }
    requires parts { blank.parts ≡ L.parts }
    requires some { 0 < blank.parts }
    ensures settled { IfOk result (λ settled. IsSettled places load.now.arrivals.now.time (map (demand_of_job load.now.rows.now demand.now) load.now.arrivals.now.job) settled) }
    ensures run { IfOk result (λ settled. IsWindowRun (loss_rule places) load.now.arrivals.now.time (map (demand_of_job load.now.rows.now demand.now) load.now.arrivals.now.job) load.now.block settled.rounds settled.judged) }
{
    let asked = asked_of(alloc, load.rows, demand, &load.arrivals.job)?;
    let mut steps = Steps::<L>::new(blank);
    settle(
        alloc,
        load.arrivals,
        asked.list(),
        places,
        load.block,
        &mut steps,
    )
}
