// The demands of jobs, in lists of their own.
ghost use Rattle.std.specs.Prelude.{◌≡◌, map, IfOk};
ghost use Rattle.mq_core.specs.Handling.{demand_of_job};
ghost use Rattle.mq_asked.specs.Demands.{AreAsked};

use mq_base::{List, OutOfMemory};
use mq_core::{Demand, Rows, demand_of};
use std::alloc::Global;

/// Returns the demand of each job, in ticks, by position. The only error is that memory runs out.
pub fn demands_of(
    alloc: Global,
    rows: &Rows,
    demand: &Demand,
    jobs: &List<u32>,
) -> Result<List<u64>, OutOfMemory>
    requires { AreAsked rows.now demand.now jobs.now }
    ensures { IfOk result (λ demands. demands ≡ map (demand_of_job rows.now demand.now) jobs.now) }
{
    demands_in(alloc, rows, demand, jobs.as_slice())
}

/// Returns the demand of each job of a slice, in ticks, by position. The only error is that memory
/// runs out.
// Its loop isn't inlined, so that it has the registers to itself.
#[inline(never)]
pub fn demands_in(
    alloc: Global,
    rows: &Rows,
    demand: &Demand,
    jobs: &[u32],
) -> Result<List<u64>, OutOfMemory>
    requires { AreAsked rows.now demand.now jobs.now }
    ensures { IfOk result (λ demands. demands ≡ map (demand_of_job rows.now demand.now) jobs.now) }
{
    let mut demands = Vec::with_capacity(alloc, jobs.len())?;
    for at in 0..jobs.len() {
        demands.push_reserved(demand_of(rows, demand, jobs[at]));
    }
    Ok(List::from_vec(demands))
}
