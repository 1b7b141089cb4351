// A server: whole, or in a single pass by all workers.
ghost use Rattle.std.specs.Prelude.{◌≡◌, IfOk};
ghost use Rattle.mq_core.specs.declared.model.Kind.TheVariants.{Server as TheServer};
ghost use Rattle.mq_kinds.specs.Lefts.{IsLeft};
ghost use Rattle.mq_kinds.specs.Servers.{IsServer};
ghost use Rattle.mq_stations.specs.Leaving.{IsLoad};

use crate::pieces::{Left, Load};
use mq_asked::{Asked, asked_of};
use mq_base::{List, OutOfMemory};
use mq_core::Demand;
use mq_crew::{Crew, Gate};
use mq_pass::chain_departures;
use mq_scan::block_size;
use mq_server::departures;
use std::alloc::Global;
use std::thread::Threads;

/// Returns the state of a server: the demand of each job. The only error is out of memory.
pub fn server_begin<'r, 's>(
    alloc: Global,
    load: &Load<'r, 's>,
    demand: &Demand,
) -> Result<Asked<'r>, OutOfMemory>
    requires load { IsLoad load.now.rows.now load.now.kind.now load.now.arrivals.now }
    requires kind { load.now.kind.now ≡ TheServer demand.now }
    ensures { IfOk result (IsServer load.now.rows.now load.now.kind.now load.now.arrivals.now) }
{
    asked_of(alloc, load.rows, demand, &load.arrivals.job)
}

/// Returns what leaves a server. The workers pass over the blocks once; a block has at least as many jobs as the load says,
/// and there are at most 16,384 blocks. The only error is out of memory.
pub fn server_next<R: Threads + Sync, G: Gate>(
    crew: &Crew<R, G>,
    load: &Load,
    demands: &Asked,
) -> Result<Left, OutOfMemory>
    requires { IsServer load.now.rows.now load.now.kind.now load.now.arrivals.now demands.now }
    ensures { IfOk result (IsLeft load.now.rows.now load.now.kind.now load.now.arrivals.now) }
{
    let block = block_size(load.arrivals.time.len() as u32, load.block);
    let departs = chain_departures(
        crew.rt,
        crew.alloc,
        crew.workers,
        block,
        load.arrivals,
        demands.list(),
        crew.gate,
    )?;
    Ok(Left::InTurn(departs))
}

/// Returns what leaves a server, computed by one worker. The only error is out of memory.
pub fn server_whole(alloc: Global, load: &Load, demand: &Demand) -> Result<Left, OutOfMemory>
    requires load { IsLoad load.now.rows.now load.now.kind.now load.now.arrivals.now }
    requires kind { load.now.kind.now ≡ TheServer demand.now }
    ensures { IfOk result (IsLeft load.now.rows.now load.now.kind.now load.now.arrivals.now) }
{
    let asked = server_begin(alloc, load, demand)?;
    let departs = departures(alloc, load.arrivals, asked.list())?;
    Ok(Left::InTurn(departs))
}
